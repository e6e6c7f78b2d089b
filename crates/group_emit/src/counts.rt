//! What the code of a map over work-groups uses. A count that would pass 2^32 - 1 is answered as
//! want of memory: what it counts takes more.

ghost use Rattle.std.specs.Prelude.{◌≡◌, IfOk};
ghost use Rattle.group_form.specs.Form as form;
ghost use Rattle.group_form.specs.Uses as uses;
ghost use Rattle.lowering.specs.Terms.{term_of};
ghost use Rattle.group_emit.specs.Used.{used_of};

use array_views::Count;
use item_emit::counts::{local_count, plus, private_count, variable_count};
use lowering::term::Term;
use std::alloc::AllocError;

/// How many phases, which are local maps, a term outside local maps has.
pub fn phases_in(term: &Term) -> Result<u32, AllocError>
    ensures { IfOk result (λ n. n ≡ uses.phases_in (term_of term.now)) }
{
    match term {
        Term::Pair(a, b) | Term::Zip(a, b) | Term::LetArray(a, b) => {
            plus(phases_in(a)?, phases_in(b)?)
        }
        Term::First(a) | Term::Second(a) | Term::Reshape(_, a) | Term::Copy(_, _, a) => {
            phases_in(a)
        }
        Term::Map(map) => plus(phases_in(&map.array)?, 1),
        Term::Literal(_)
        | Term::Bound(_)
        | Term::Source(_)
        | Term::Apply(_, _, _)
        | Term::ApplyNumber(_, _, _)
        | Term::ApplyLanes { .. }
        | Term::DivideLanes(_, _, _)
        | Term::Select(_, _, _)
        | Term::LetElement(_, _, _)
        | Term::Fold(_)
        | Term::Store(_, _) => Ok(0),
    }
}

/// How many phases the body of a map over work-groups has.
pub fn phase_count(term: &Term) -> Result<u32, AllocError>
    ensures { IfOk result (λ n. n ≡ uses.phase_count (term_of term.now)) }
{
    match term {
        Term::Reshape(_, a) | Term::LetArray(_, a) => phase_count(a),
        Term::Map(map) => phases_in(&map.body),
        Term::Literal(_)
        | Term::Bound(_)
        | Term::Source(_)
        | Term::Apply(_, _, _)
        | Term::ApplyNumber(_, _, _)
        | Term::ApplyLanes { .. }
        | Term::DivideLanes(_, _, _)
        | Term::Select(_, _, _)
        | Term::Pair(_, _)
        | Term::Zip(_, _)
        | Term::First(_)
        | Term::Second(_)
        | Term::LetElement(_, _, _)
        | Term::Fold(_)
        | Term::Store(_, _)
        | Term::Copy(_, _, _) => Ok(0),
    }
}

/// How many local arrays, private arrays, private variables and phases
/// stand before a part of the code.
#[derive(Clone, Copy)]
pub struct Used {
    pub locals: u32,
    pub privates: u32,
    pub variables: Count,
    pub phases: u32,
}

impl Used {
    /// How many stand before what follows the term's code.
    pub fn after(&self, term: &Term) -> Result<Self, AllocError>
        ensures { IfOk result
            (λ u. used_of u ≡ form.used_after (used_of self.now) (term_of term.now)) }
    {
        Ok(Used {
            locals: plus(self.locals, local_count(term)?)?,
            privates: plus(self.privates, private_count(term)?)?,
            variables: self.variables.more(variable_count(term)?)?,
            phases: plus(self.phases, phases_in(term)?)?,
        })
    }
}
