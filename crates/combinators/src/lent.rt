// What is lent together: the stores that are written in, and the texts of three sheets. A function that is lent them says that they stay the same slices (`SameStores`). Each field
// can be lent on as it is; where one is read while another is lent, both are taken into variables first, `let tokens = &mut *stores.tokens;`.
ghost use Rattle.std.specs.Prelude.{◌≡◌, ◌+◌, ◌<◌, ◌^◌, length};
ghost use Rattle.combinators.specs.LeastLengths.{stores_suffice};
ghost use Rattle.combinators.specs.Lent.{SameStores};
ghost use Rattle.combinators.specs.Store.{cleared};

use crate::least::stores_suffice;

// Rows of rules, rows of tokens, open brackets, and texts.
#[derive(Drop)]
pub struct Stores<'a> {
    pub rules: &'a mut [u32],
    pub tokens: &'a mut [u32],
    pub brackets: &'a mut [u8],
    pub texts: &'a mut [u8],
}

impl<'a> Stores<'a> {
    // Whether they suffice for `n` bytes of text.
    pub fn suffice(&self, n: usize) -> bool
        ensures { result ≡ stores_suffice n (length self.now.rules.now) (length self.now.tokens.now) (length self.now.brackets.now) (length self.now.texts.now) }
    {
        stores_suffice(
            n,
            self.rules.len(),
            self.tokens.len(),
            self.brackets.len(),
            self.texts.len(),
        )
    }

    // Zeros in all of them but the texts.
    pub fn clear_work(&mut self)
        ensures same { SameStores self.old self.new }
        ensures rules_after { self.new.rules.now ≡ cleared 0 self.old.rules.now }
        ensures tokens_after { self.new.tokens.now ≡ cleared 0 self.old.tokens.now }
        ensures brackets_after { self.new.brackets.now ≡ cleared 0 self.old.brackets.now }
        ensures texts_unchanged { self.new.texts.now ≡ self.old.texts.now }
    {
        self.rules.fill(0);
        self.tokens.fill(0);
        self.brackets.fill(0);
    }

    // Zeros in all of them.
    pub fn clear(&mut self)
        ensures same { SameStores self.old self.new }
        ensures rules_after { self.new.rules.now ≡ cleared 0 self.old.rules.now }
        ensures tokens_after { self.new.tokens.now ≡ cleared 0 self.old.tokens.now }
        ensures brackets_after { self.new.brackets.now ≡ cleared 0 self.old.brackets.now }
        ensures texts_after { self.new.texts.now ≡ cleared 0 self.old.texts.now }
    {
        self.clear_work();
        self.texts.fill(0);
    }
}

// The texts of three sheets, which are lent to be read.
#[derive(Clone, Copy)]
pub struct SheetTexts<'a> {
    pub agent: &'a [u8],
    pub user: &'a [u8],
    pub author: &'a [u8],
}

impl SheetTexts<'_> {
    // The bytes of all three together.
    pub fn bytes(self) -> usize
        requires { length self.agent.now + length self.user.now + length self.author.now < 2 ^ 64 }
        ensures { result ≡ length self.entry.agent.now + length self.entry.user.now + length self.entry.author.now }
    {
        self.agent.len() + self.user.len() + self.author.len()
    }
}
