// Specificities (`Specificity` of html2text's src/lib.rs), by value.
ghost use Rattle.std.specs.Prelude.{◌≡◌};
ghost use Rattle.cascade.specs.Specificity.{specificity_of, inline_specificity, SumFits, sum};

use std::ops::Add;

// A `style` attribute, or how many ids, classes and types a selector names. The fields stand in the order in which they decide (`partial_cmp`).
#[derive(Clone, Copy, PartialEq, Eq, PartialOrd, Ord)]
pub struct Specificity {
    pub inline: bool,
    pub id: u32,
    pub class: u32,
    pub typ: u32,
}

impl Specificity {
    // That of a selector which names nothing.
    pub const NONE: Specificity = Specificity {
        inline: false,
        id: 0,
        class: 0,
        typ: 0,
    };

    // That of a `style` attribute.
    pub const INLINE: Specificity = Specificity {
        inline: true,
        id: 0,
        class: 0,
        typ: 0,
    };

    // That of a selector.
    pub fn new(id: u32, class: u32, typ: u32) -> Self
        ensures { result ≡ specificity_of id class typ }
    {
        Self {
            inline: false,
            id,
            class,
            typ,
        }
    }

    // The one for inline, as the crate has it. A constant has no clause: this says what `INLINE` is.
    pub fn inline() -> Self
        ensures { result ≡ inline_specificity }
    {
        Self::INLINE
    }
}

// The sum of two selectors' counts; inline where one of them is.
impl Add for Specificity {
    type Output = Self;

    ghost can_add = { SumFits };

    ghost add_gives = { λ a b r. r ≡ sum a b };

    #[tactic(auto, unfolding(crate::specs::Specificity::sum, combinators::specs::Choice::or))]
    fn add(self, other: Self) -> Self {
        Self {
            inline: self.inline || other.inline,
            id: self.id + other.id,
            class: self.class + other.class,
            typ: self.typ + other.typ,
        }
    }
}
