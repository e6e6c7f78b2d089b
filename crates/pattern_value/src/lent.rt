//! Values that are owned, or lent where they are only read.

ghost use Rattle.std.specs.Prelude.{◌≡◌, IfOk};
ghost use Rattle.lift_tree.specs.Values.{value_of, first, second};
ghost use Rattle.pattern_value.specs.Held.{held};

use crate::part::{copied, into_first, into_second};
use lift_tree::value::Val;
use std::alloc::{AllocError, Global};

/// A value of the evaluation's own, or one of an input or a binder, which it lends.
#[derive(Drop)]
pub enum Held<'v> {
    Owned(Val),
    Lent(&'v Val),
}

impl<'v> Held<'v> {
    /// The value where it is.
    pub fn as_val(&self) -> &Val
        ensures { value_of result.now ≡ held self.now }
    {
        match self {
            Held::Owned(v) => v,
            Held::Lent(v) => v,
        }
    }

    /// The value to be kept; a copy where it is lent.
    pub fn into_owned(self, alloc: Global) -> Result<Val, AllocError>
        ensures { IfOk result (λ v. value_of v ≡ held self.entry) }
    {
        match self {
            Held::Owned(v) => Ok(v),
            Held::Lent(v) => copied(alloc, v),
        }
    }

    /// The left part of a pair, or 0.
    #[tactic(auto, using(crate::proofs::Held::held_values))]
    pub fn into_first(self) -> Held<'v>
        ensures { held result ≡ first (held self.entry) }
    {
        match self {
            Held::Owned(v) => Held::Owned(into_first(v)),
            Held::Lent(Val::Pair(a, _)) => Held::Lent(a),
            Held::Lent(Val::Number(_) | Val::List(_)) => Held::Owned(Val::Number(0)),
        }
    }

    /// The right part of a pair, or 0.
    #[tactic(auto, using(crate::proofs::Held::held_values))]
    pub fn into_second(self) -> Held<'v>
        ensures { held result ≡ second (held self.entry) }
    {
        match self {
            Held::Owned(v) => Held::Owned(into_second(v)),
            Held::Lent(Val::Pair(_, b)) => Held::Lent(b),
            Held::Lent(Val::Number(_) | Val::List(_)) => Held::Owned(Val::Number(0)),
        }
    }
}
