// `hicsolmab_style` and `hicsolmab_style_book`: the computed style of one element.
ghost use Rattle.std.specs.Prelude.{◌≡◌};
ghost use Rattle.cascade.specs.declared.slots.Cascade.TheVariants.{Crate, Book};
ghost use Rattle.styling.specs.StyleAnswer.{numbers_of, style_of};
ghost use Rattle.engine.specs.Style.{settings_from, answer_in};

use combinators::lent::{SheetTexts, Stores};
use combinators::refusals::{Refusal, no_refusal};
use page::lent::Page;
use styles::settings::Settings;
use styling::style::{StyleError, style, style_book};

// Document styles are off at this number, and on at any other.
const SWITCH_OFF: u32 = 0;

// The refusal's number, text and place; of an element that was styled the bytes of its texts. What does not apply is 0.
// Numbers, for C has no `Result`.
#[repr(C)]
#[derive(Clone, Copy)]
pub struct StyleResult {
    pub refusal: u32,
    pub text: usize,
    pub place: usize,
    pub texts: usize,
}

// The settings that a number stands for. A function and no `From`: neither `Settings` nor a number is of this crate.
pub fn settings_from(switch: u32) -> Settings
    ensures { result ≡ settings_from switch }
{
    Settings {
        document_styles: switch != SWITCH_OFF,
    }
}

impl From<Result<usize, StyleError>> for StyleResult {
    ghost from_gives = { λ answer told. answer_in told ≡ numbers_of answer };

    #[tactic(auto, unfolding(crate::specs::Style::answer_in, styling::specs::StyleAnswer::numbers_of))]
    fn from(answer: Result<usize, StyleError>) -> StyleResult {
        let (refusal, texts) = match answer {
            Ok(texts) => (no_refusal(), texts),
            Err(error) => (Refusal::from(error), 0),
        };
        StyleResult {
            refusal: refusal.number,
            text: refusal.text,
            place: refusal.place,
            texts,
        }
    }
}

// The style of an element in the crate's cascade, as `style` gives it: its row to `out`, its contents to `texts`; the others are work stores.
// Sheets, page and stores come one by one, as C lends them.
#[unsafe(no_mangle)]
pub extern "C" fn hicsolmab_style(
    agent: &[u8],
    user: &[u8],
    author: &[u8],
    nodes: &[u32],
    attributes: &[u32],
    text: &[u8],
    row: usize,
    document_styles: u32,
    out: &mut [u32],
    texts: &mut [u8],
    rules: &mut [u32],
    tokens: &mut [u32],
    brackets: &mut [u8],
) -> StyleResult
    ensures { record { answer = answer_in result; row = out.new; texts = texts.new; rules = rules.new; tokens = tokens.new; brackets = brackets.new }
        ≡ style_of Crate (settings_from document_styles) (record { agent = agent.now; user = user.now; author = author.now }) (record { nodes = nodes.now; attributes = attributes.now; text = text.now }) row out.old texts.old rules.old tokens.old brackets.old }
{
    let mut stores = Stores {
        rules,
        tokens,
        brackets,
        texts,
    };
    style(
        settings_from(document_styles),
        SheetTexts {
            agent,
            user,
            author,
        },
        Page {
            nodes,
            attributes,
            text,
        },
        row,
        out,
        &mut stores,
    )
    .into()
}

// The same in the book order. Both are exported; a function for both would take the same arguments and the cascade.
#[unsafe(no_mangle)]
pub extern "C" fn hicsolmab_style_book(
    agent: &[u8],
    user: &[u8],
    author: &[u8],
    nodes: &[u32],
    attributes: &[u32],
    text: &[u8],
    row: usize,
    document_styles: u32,
    out: &mut [u32],
    texts: &mut [u8],
    rules: &mut [u32],
    tokens: &mut [u32],
    brackets: &mut [u8],
) -> StyleResult
    ensures { record { answer = answer_in result; row = out.new; texts = texts.new; rules = rules.new; tokens = tokens.new; brackets = brackets.new }
        ≡ style_of Book (settings_from document_styles) (record { agent = agent.now; user = user.now; author = author.now }) (record { nodes = nodes.now; attributes = attributes.now; text = text.now }) row out.old texts.old rules.old tokens.old brackets.old }
{
    let mut stores = Stores {
        rules,
        tokens,
        brackets,
        texts,
    };
    style_book(
        settings_from(document_styles),
        SheetTexts {
            agent,
            user,
            author,
        },
        Page {
            nodes,
            attributes,
            text,
        },
        row,
        out,
        &mut stores,
    )
    .into()
}
