//! Where the arrays lie that are bound.

ghost use Rattle.std.specs.Prelude.{◌≡◌, MatchOption};
ghost use Rattle.group_form.specs.Origins as spec;
ghost use Rattle.phase_plan.specs.Origins.{origin_in, origins_in};

use crate::origin::Origin;

/// Where the array of each binder lies, the nearest first.
#[derive(Clone, Copy)]
pub enum Scope<'s> {
    Empty,
    Bound(&'s Origin, &'s Scope<'s>),
}

impl<'s> Scope<'s> {
    /// Where a variable's array lies; of one that is bound further out, nothing is known.
    #[tactic(auto, using(crate::proofs::Scopes::past))]
    pub fn origin(&self, variable: u32) -> Option<&'s Origin>
        ensures { MatchOption result (origins_in self.now variable ≡ spec.Elsewhere)
            (λ o. origin_in o.now ≡ origins_in self.now variable) }
    {
        match self {
            Scope::Empty => None,
            Scope::Bound(origin, outer) => {
                if variable == 0 {
                    Some(origin)
                } else {
                    outer.origin(variable - 1)
                }
            }
        }
    }
}
