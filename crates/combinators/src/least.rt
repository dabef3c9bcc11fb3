// Least lengths of the stores. Texts that are lent may be of any length, so no product or sum is made of it.
ghost use Rattle.std.specs.Prelude.{◌≡◌, ◌+◌, ◌*◌, ◌<◌, leb};
ghost use Rattle.combinators.specs.LeastLengths.{stores_suffice};

// So much for each byte of text, and more: of the text store, and of the rules and the tokens.
pub const TEXT_WIDTH: usize = 2;

pub const TEXT_MORE: usize = 12;

pub const NUMBER_WIDTH: usize = 8;

pub const NUMBER_MORE: usize = 64;

// Whether a length is at least `width` for each of `count`, and `more`.
pub fn long_enough(length: usize, width: usize, count: usize, more: usize) -> bool
    requires { 0 < width }
    ensures { result ≡ leb (width * count + more) length }
{
    more <= length && count <= (length - more) / width
}

// Whether stores of these lengths, in the order in which calls lend them, suffice for `n` bytes of text. Lengths, and no stores, since a call that is lent no
// rules has its tokens tested in their place; who has all four asks `Stores::suffice`.
#[tactic(auto, unfolding(crate::specs::LeastLengths::stores_suffice, crate::specs::Choice::and))]
pub fn stores_suffice(n: usize, rules: usize, tokens: usize, brackets: usize, texts: usize) -> bool
    ensures { result ≡ stores_suffice n rules tokens brackets texts }
{
    long_enough(texts, TEXT_WIDTH, n, TEXT_MORE)
        && n <= brackets
        && long_enough(rules, NUMBER_WIDTH, n, NUMBER_MORE)
        && long_enough(tokens, NUMBER_WIDTH, n, NUMBER_MORE)
}
