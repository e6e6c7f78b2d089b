//! Why a rule doesn't rewrite a term.

ghost use Rattle.std.specs.Prelude.{◌≡◌};
ghost use Rattle.rewriting.specs.Conditions.{condition_name};
ghost use Rattle.rewriting.specs.declared.refused.Refused.TheVariants.{Memory};

use lift_tree::term::Term;
use std::alloc::{AllocError, AllocFailed};

/// What a rule demands beside its shape. A rule tries its conditions in a fixed order, and names
/// the first that is false.
#[derive(Clone, Copy, PartialEq, Eq)]
pub enum Condition {
    /// The rule's number is at least 1.
    Positive,
    /// A number divides another, or a length, exactly.
    Divides,
    /// A length is shown to be large enough.
    Length,
    /// A map's body acts lane by lane on an array of numbers.
    Lanes,
    /// Two lengths are the same.
    Same,
    /// A term doesn't name a binder.
    Mentions,
    /// The term is an array.
    Array,
    /// The pairs of the term's type hold numbers only.
    Whole,
    /// No binder is around the term.
    Closed,
}

impl Condition {
    /// The condition's name in messages.
    pub fn name(self) -> &'static str
        ensures { result.now ≡ condition_name self }
    {
        match self {
            Condition::Positive => "positive",
            Condition::Divides => "divides",
            Condition::Length => "length",
            Condition::Lanes => "lanes",
            Condition::Same => "same",
            Condition::Mentions => "mentions",
            Condition::Array => "array",
            Condition::Whole => "whole",
            Condition::Closed => "closed",
        }
    }
}

/// Why a rule doesn't rewrite a term.
#[derive(Drop)]
pub enum Refused {
    /// The term isn't of the rule's shape. It comes back unchanged.
    Shape(Term),
    /// The term has the rule's shape, and this is the first condition that is false.
    /// The term comes back unchanged.
    Side(Condition, Term),
    /// Want of memory. The term is gone.
    Memory,
}

impl From<AllocError> for Refused {
    ghost from_gives = { λ _ no. no ≡ Memory };

    fn from(_error: AllocError) -> Refused {
        Refused::Memory
    }
}

impl<T: Drop> From<AllocFailed<T>> for Refused {
    ghost from_gives = { λ _ no. no ≡ Memory };

    fn from(_error: AllocFailed<T>) -> Refused {
        Refused::Memory
    }
}
