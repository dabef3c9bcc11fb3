// `comparison_style_attribute` and `comparison_color_attribute`: what a `style` attribute says, and the colour of a `color` or `bgcolor` attribute.
ghost use Rattle.std.specs.Prelude.{◌≡◌, length};
ghost use Rattle.combinators.specs.Lent.{SameStores};
ghost use Rattle.comparison.specs.Attributes.{value_refusal, value_checked, styles_result, style_called, colour_result, colour_called};

use combinators::least::stores_suffice;
use combinators::lent::Stores;
use combinators::refusals::{NO_REFUSAL, Refusal, SHORT_STORE, TOO_LONG, refused};
use declarations::attributes::{StylesRead, parse_color_attribute, parse_style_attribute};
use page::check::TEXT_LIMIT;

// Why a value is not read: it is longer than all of a page's texts may be, or the stores do not suffice for it. It is the error of a `Result`, so it has refusals only.
#[derive(Clone, Copy, Debug, PartialEq, Eq)]
pub enum ValueError {
    TooLong,
    ShortStore,
}

impl From<ValueError> for Refusal {
    ghost from_gives = { λ error refusal. refusal ≡ value_refusal error };

    #[tactic(auto, unfolding(crate::specs::Attributes::value_refusal))]
    fn from(error: ValueError) -> Refusal {
        match error {
            ValueError::TooLong => refused(TOO_LONG),
            ValueError::ShortStore => refused(SHORT_STORE),
        }
    }
}

// The refusal's number; how many styles were read, and the bytes of their texts. Numbers, for C has no `Result`.
#[repr(C)]
#[derive(Clone, Copy)]
pub struct StylesResult {
    pub refusal: u32,
    pub count: usize,
    pub bytes: usize,
}

// The refusal's number; 1 where a colour was found, and the colour. Numbers, for C has no `Result` and no `Option`.
#[repr(C)]
#[derive(Clone, Copy)]
pub struct ColourResult {
    pub refusal: u32,
    pub found: u32,
    pub colour: u32,
}

impl From<Result<StylesRead, ValueError>> for StylesResult {
    ghost from_gives = { λ answer told. told ≡ styles_result answer };

    #[tactic(auto, unfolding(crate::specs::Attributes::styles_result))]
    fn from(answer: Result<StylesRead, ValueError>) -> StylesResult {
        match answer {
            Ok(read) => StylesResult {
                refusal: NO_REFUSAL,
                count: read.count,
                bytes: read.text,
            },
            Err(error) => StylesResult {
                refusal: Refusal::from(error).number,
                count: 0,
                bytes: 0,
            },
        }
    }
}

impl From<Result<Option<u32>, ValueError>> for ColourResult {
    ghost from_gives = { λ answer told. told ≡ colour_result answer };

    #[tactic(auto, unfolding(crate::specs::Attributes::colour_result))]
    fn from(answer: Result<Option<u32>, ValueError>) -> ColourResult {
        match answer {
            Ok(Some(colour)) => ColourResult {
                refusal: NO_REFUSAL,
                found: 1,
                colour,
            },
            Ok(None) => ColourResult {
                refusal: NO_REFUSAL,
                found: 0,
                colour: 0,
            },
            Err(error) => ColourResult {
                refusal: Refusal::from(error).number,
                found: 0,
                colour: 0,
            },
        }
    }
}

// Refuses a value of more bytes than a page can have, and then one for which the stores do not suffice. It is told whether they do, since one of its two callers is
// lent no rules.
#[tactic(auto, unfolding(crate::specs::Attributes::value_checked, combinators::specs::Choice::pick))]
fn check_value(n: usize, suffice: bool) -> Result<(), ValueError>
    ensures { result ≡ value_checked n suffice }
{
    if n > TEXT_LIMIT {
        return Err(ValueError::TooLong);
    }
    if !suffice {
        return Err(ValueError::ShortStore);
    }
    Ok(())
}

// Reads a `style` attribute that is not refused.
fn read_styles(value: &[u8], stores: &mut Stores<'_>) -> Result<StylesRead, ValueError>
    ensures same { SameStores stores.old stores.new }
    ensures called { record { result = styles_result result; rules = stores.new.rules.now; tokens = stores.new.tokens.now; brackets = stores.new.brackets.now; texts = stores.new.texts.now }
        ≡ style_called value.now stores.old.rules.now stores.old.tokens.now stores.old.brackets.now stores.old.texts.now }
{
    let n = value.len();
    check_value(n, stores.suffice(n))?;
    Ok(parse_style_attribute(value, stores, 0))
}

// Reads a `color` or `bgcolor` attribute that is not refused. There are no rules, so the tokens are tested in their place too.
fn read_colour(value: &[u8], stores: &mut Stores<'_>) -> Result<Option<u32>, ValueError>
    ensures same { SameStores stores.old stores.new }
    ensures called { record { result = colour_result result; tokens = stores.new.tokens.now; brackets = stores.new.brackets.now; texts = stores.new.texts.now }
        ≡ colour_called value.now stores.old.tokens.now stores.old.brackets.now stores.old.texts.now }
{
    let n = value.len();
    let tokens = stores.tokens.len();
    let suffice = stores_suffice(n, tokens, tokens, stores.brackets.len(), stores.texts.len());
    check_value(n, suffice)?;
    Ok(parse_color_attribute(value, stores, 0))
}

// Reads a `style` attribute: the rows of its styles to `tokens`, their texts to `texts`, each from 0 on. The stores come one by one, here and below, as C
// lends them.
#[unsafe(no_mangle)]
pub extern "C" fn comparison_style_attribute(
    value: &[u8],
    rules: &mut [u32],
    tokens: &mut [u32],
    brackets: &mut [u8],
    texts: &mut [u8],
) -> StylesResult
    ensures { record { result = result; rules = rules.new; tokens = tokens.new; brackets = brackets.new; texts = texts.new } ≡ style_called value.now rules.old tokens.old brackets.old texts.old }
{
    let mut stores = Stores {
        rules,
        tokens,
        brackets,
        texts,
    };
    read_styles(value, &mut stores).into()
}

// Reads a `color` or `bgcolor` attribute; all stores are work stores.
#[unsafe(no_mangle)]
pub extern "C" fn comparison_color_attribute(
    value: &[u8],
    tokens: &mut [u32],
    brackets: &mut [u8],
    texts: &mut [u8],
) -> ColourResult
    ensures { record { result = result; tokens = tokens.new; brackets = brackets.new; texts = texts.new } ≡ colour_called value.now tokens.old brackets.old texts.old }
{
    let mut stores = Stores {
        rules: &mut [],
        tokens,
        brackets,
        texts,
    };
    read_colour(value, &mut stores).into()
}
