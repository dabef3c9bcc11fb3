// Declarations of a property with a value, by value.
ghost use Rattle.std.specs.Prelude.{◌≡◌, List, ℕ, length, unwrap_or};
ghost use Rattle.values.specs.Property.{decl_of};
ghost use Rattle.values.specs.Tokens.{value_tokens};
ghost use Rattle.values.specs.ValueAnswer.{ContentRoom};
ghost use Rattle.values.specs.DeclAnswer.{decl_answer, text_length, kind_of, value_number, numbers_of, decl_at, place_of};
ghost use Rattle.values.specs.declared.properties.Decl.TheVariants.{Unknown};

use crate::colour_values::{parse_background_color, parse_color};
use crate::contents::parse_content;
use crate::heights::parse_height;
use crate::keywords::{
    Overflow, WhiteSpace, parse_display, parse_overflow, parse_visibility, parse_white_space,
};
use crate::tokens::Tokens;
use crate::words::lookup;
use syntax::rows::{
    BACKGROUND_COLOR, COLOR, CONTENT, DISPLAY, HEIGHT, MAX_HEIGHT, OVERFLOW, OVERFLOW_Y, UNKNOWN,
    VISIBILITY, WHITE_SPACE, flag_of,
};

// A declaration. A height says whether it is zero, a display whether it is none, a visibility whether it is hidden; of a content there is the length of
// its text, of an unknown declaration that of its name.
#[derive(Clone, Copy)]
pub enum Decl {
    Color(u32),
    BackgroundColor(u32),
    Height(bool),
    MaxHeight(bool),
    Overflow(Overflow),
    OverflowY(Overflow),
    Display(bool),
    WhiteSpace(WhiteSpace),
    Content(usize),
    Visibility(bool),
    Unknown(usize),
}

impl Decl {
    // The length of its text: only a content and an unknown declaration have one.
    #[tactic(auto, unfolding(crate::specs::DeclAnswer::text_length))]
    pub fn text_length(self) -> usize
        ensures { result ≡ text_length self }
    {
        match self {
            Decl::Content(length) | Decl::Unknown(length) => length,
            _ => 0,
        }
    }

    // The number of its kind.
    #[tactic(auto, unfolding(crate::specs::DeclAnswer::kind_of))]
    fn kind(self) -> u32
        ensures { result ≡ kind_of self }
    {
        match self {
            Decl::Color(_) => COLOR,
            Decl::BackgroundColor(_) => BACKGROUND_COLOR,
            Decl::Height(_) => HEIGHT,
            Decl::MaxHeight(_) => MAX_HEIGHT,
            Decl::Overflow(_) => OVERFLOW,
            Decl::OverflowY(_) => OVERFLOW_Y,
            Decl::Display(_) => DISPLAY,
            Decl::WhiteSpace(_) => WHITE_SPACE,
            Decl::Content(_) => CONTENT,
            Decl::Visibility(_) => VISIBILITY,
            Decl::Unknown(_) => UNKNOWN,
        }
    }

    // The number of its value: what has a text has none.
    #[tactic(auto, unfolding(crate::specs::DeclAnswer::value_number))]
    fn value(self) -> u32
        ensures { result ≡ value_number self }
    {
        match self {
            Decl::Color(number) | Decl::BackgroundColor(number) => number,
            Decl::Overflow(overflow) | Decl::OverflowY(overflow) => u32::from(overflow),
            Decl::WhiteSpace(white_space) => u32::from(white_space),
            Decl::Height(zero) | Decl::MaxHeight(zero) => flag_of(zero),
            Decl::Display(none) => flag_of(none),
            Decl::Visibility(hidden) => flag_of(hidden),
            Decl::Content(_) | Decl::Unknown(_) => 0,
        }
    }
}

// A declaration as it goes to its row: its kind, its number, and the length of its text. Any three numbers are one, also those of no `Decl`.
#[derive(Clone, Copy)]
pub struct DeclNumbers {
    pub kind: u32,
    pub value: u32,
    pub text: usize,
}

impl From<Decl> for DeclNumbers {
    ghost from_gives = { λ decl numbers. numbers ≡ numbers_of decl };

    #[tactic(auto, unfolding(crate::specs::DeclAnswer::numbers_of))]
    fn from(decl: Decl) -> DeclNumbers {
        DeclNumbers {
            kind: decl.kind(),
            value: decl.value(),
            text: decl.text_length(),
        }
    }
}

// The properties that are known.
#[derive(Clone, Copy)]
pub enum Property {
    BackgroundColor,
    Background,
    Color,
    Height,
    MaxHeight,
    Overflow,
    OverflowY,
    Display,
    WhiteSpace,
    Content,
    Visibility,
}

// The eleven properties.
const PROPERTIES: [(&str, Property); 11] = [
    ("background-color", Property::BackgroundColor),
    ("background", Property::Background),
    ("color", Property::Color),
    ("height", Property::Height),
    ("max-height", Property::MaxHeight),
    ("overflow", Property::Overflow),
    ("overflow-y", Property::OverflowY),
    ("display", Property::Display),
    ("white-space", Property::WhiteSpace),
    ("content", Property::Content),
    ("visibility", Property::Visibility),
];

// The declaration of a known property with the value of these tokens, where it reads the value. No table of readers: they answer three types, and
// two of them always read, so that each row would be a closure as long as its arm here.
fn decl_at(property: Property, tokens: Tokens) -> Option<Decl>
    requires { ContentRoom (value_tokens tokens) }
    ensures { (name : List ℕ) → unwrap_or result (Unknown (length name))
        ≡ decl_answer (decl_at (place_of property) name (value_tokens tokens.entry)) }
{
    match property {
        Property::BackgroundColor => parse_color(tokens).map(Decl::BackgroundColor),
        Property::Background => { parse_background_color(tokens).map(Decl::BackgroundColor) }
        Property::Color => parse_color(tokens).map(Decl::Color),
        Property::Height => parse_height(tokens).map(Decl::Height),
        Property::MaxHeight => parse_height(tokens).map(Decl::MaxHeight),
        Property::Overflow => parse_overflow(tokens).map(Decl::Overflow),
        Property::OverflowY => parse_overflow(tokens).map(Decl::OverflowY),
        Property::Display => Some(Decl::Display(parse_display(tokens))),
        Property::WhiteSpace => Some(Decl::WhiteSpace(parse_white_space(tokens))),
        Property::Content => parse_content(tokens).map(Decl::Content),
        Property::Visibility => parse_visibility(tokens).map(Decl::Visibility),
    }
}

// The declaration of the property `name` with the value of these tokens. No `and_then`: nothing is known of what a closure around `decl_at` answers, whose
// clause is one for any name.
pub fn decl_of(name: &[u8], tokens: Tokens) -> Decl
    requires { ContentRoom (value_tokens tokens) }
    ensures { result ≡ decl_answer (decl_of name.now (value_tokens tokens.entry)) }
{
    let unknown = Decl::Unknown(name.len());
    let Some(property) = lookup(name, &PROPERTIES) else {
        return unknown;
    };
    decl_at(property, tokens).unwrap_or(unknown)
}
