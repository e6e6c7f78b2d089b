//! The values of the binders around a term.

ghost use Rattle.std.specs.Prelude.{◌≡◌};
ghost use Rattle.lift_tree.specs.Values.{nth};
ghost use Rattle.pattern_value.specs.Held.{held, values_in};

use crate::lent::Held;
use lift_tree::value::Val;

/// The value of each binder, the nearest first.
#[derive(Clone, Copy)]
pub enum Scope<'s> {
    Empty,
    Bound(&'s Val, &'s Scope<'s>),
}

impl<'s> Scope<'s> {
    /// The value of the binder of this number, 0 the nearest; 0 where there is none.
    #[tactic(auto, using(crate::proofs::Held::past))]
    pub fn binder(&self, number: u32) -> Held<'s>
        ensures { held result ≡ nth (values_in self.now) number }
    {
        match self {
            Scope::Empty => Held::Owned(Val::Number(0)),
            Scope::Bound(nearest, farther) => {
                if number == 0 {
                    Held::Lent(nearest)
                } else {
                    farther.binder(number - 1)
                }
            }
        }
    }
}
