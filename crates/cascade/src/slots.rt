// A slot of a style (`WithSpec` of html2text's src/lib.rs), by value, and what a new value makes of it in either cascade.
ghost use Rattle.std.specs.Prelude.{◌≡◌};
ghost use Rattle.cascade.specs.Slot.{held_by_importance, held_by_origin, held_against, maybe_update, rank, rank_number, held_in_book, book_update, update_by, fill_update, candidate_by, slot_by, held};

use crate::specificity::Specificity;
use syntax::rows::{AGENT_ORIGIN, USER_ORIGIN};
use syntax::styles::Value;

// The crate's cascade, or that of CSS Cascading Level 3.
#[derive(Clone, Copy)]
pub enum Cascade {
    Crate,
    Book,
}

// How important a value is, from which origin, and how specific. The origin is a number as it stands in lent rows, which may hold any.
#[derive(Clone, Copy)]
pub struct Weight {
    pub important: bool,
    pub origin: u32,
    pub spec: Specificity,
}

// A value that a declaration offers a slot, with what weighs for it.
#[derive(Clone, Copy)]
pub struct Candidate {
    pub weight: Weight,
    pub value: Value,
}

// A slot holds nothing, or the value of a candidate.
#[derive(Clone, Copy)]
pub struct Slot {
    pub held: Option<Candidate>,
}

// The ranks of the book order, lowest first.
#[derive(Clone, Copy, PartialEq, Eq, PartialOrd, Ord)]
enum Rank {
    NormalAgent,
    NormalUser,
    NormalAuthor,
    ImportantAuthor,
    ImportantUser,
    ImportantAgent,
}

impl Weight {
    // Its place in CSS Cascading Level 3, by origin and importance.
    #[tactic(auto, unfolding(crate::specs::Slot::rank, combinators::specs::Choice::pick, combinators::specs::Choice::is))]
    fn rank(self) -> Rank
        ensures { rank_number result ≡ rank self.origin self.important }
    {
        match (self.important, self.origin) {
            (false, AGENT_ORIGIN) => Rank::NormalAgent,
            (false, USER_ORIGIN) => Rank::NormalUser,
            (false, _) => Rank::NormalAuthor,
            (true, AGENT_ORIGIN) => Rank::ImportantAgent,
            (true, USER_ORIGIN) => Rank::ImportantUser,
            (true, _) => Rank::ImportantAuthor,
        }
    }

    // An important value stays before one that is not.
    fn held_by_importance(self, new: Self) -> bool
        ensures { result ≡ held_by_importance self new }
    {
        self.important && !new.important
    }

    // The origin decides against the new value.
    fn held_by_origin(self, new: Self) -> bool
        ensures { result ≡ held_by_origin self new }
    {
        if new.important {
            self.origin < new.origin
        } else {
            new.origin < self.origin
        }
    }

    // A value of this weight stays against a new one in the crate's cascade.
    fn held_against(self, new: Self) -> bool
        ensures { result ≡ held_against self new }
    {
        self.held_by_importance(new) || self.held_by_origin(new) || new.spec < self.spec
    }

    // The same in the book order: the new one is of a lower rank, or of the same rank and less specific.
    fn held_in_book(self, new: Self) -> bool
        ensures { result ≡ held_in_book self new }
    {
        let theirs = new.rank();
        let own = self.rank();
        theirs < own || theirs == own && new.spec < self.spec
    }
}

impl Slot {
    // The slot that holds nothing.
    pub const EMPTY: Slot = Slot { held: None };

    // The slot that holds the value of a candidate.
    pub fn new(candidate: Candidate) -> Self
        ensures { slot_by result ≡ held (candidate_by candidate) }
    {
        Self {
            held: Some(candidate),
        }
    }

    // As the crate updates it: the new value is taken unless importance, origin or specificity hold it back, in this order. This and the next stay two functions: they are
    // two rules, each with its definition, and share no more than the `match`.
    pub fn maybe_update(self, new: Candidate) -> Self
        ensures { slot_by result ≡ maybe_update (slot_by self) (candidate_by new) }
    {
        match self.held {
            Some(own) if own.weight.held_against(new.weight) => self,
            _ => Self::new(new),
        }
    }

    // As CSS Cascading Level 3 orders the candidates: the later of two equals wins.
    pub fn update_in_book_order(self, new: Candidate) -> Self
        ensures { slot_by result ≡ book_update (slot_by self) (candidate_by new) }
    {
        match self.held {
            Some(own) if own.weight.held_in_book(new.weight) => self,
            _ => Self::new(new),
        }
    }

    // By either cascade. The definition goes by the same two cases, so a `match` is no longer than a function that is handed on.
    pub fn update(self, cascade: Cascade, new: Candidate) -> Self
        ensures { slot_by result ≡ update_by cascade (slot_by self) (candidate_by new) }
    {
        match cascade {
            Cascade::Crate => self.maybe_update(new),
            Cascade::Book => self.update_in_book_order(new),
        }
    }

    // What a value that is inherited in the book order makes of it: it fills a slot that holds nothing.
    pub fn fill(self, new: Candidate) -> Self
        ensures { slot_by result ≡ fill_update (slot_by self) (candidate_by new) }
    {
        Self {
            held: self.held.or(Some(new)),
        }
    }
}
