//! The phases of a work-group's body.

ghost use Rattle.std.specs.Prelude.{IfOk};
ghost use Rattle.lowering.specs.Terms.{term_of};
ghost use Rattle.group_form.specs.Forms.{StandsOverGroups};
ghost use Rattle.group_form.specs.GridTerms.{StandsOverGrid, grid_touches};
ghost use Rattle.group_form.specs.GridTheorem.{grid_phase_count};
ghost use Rattle.group_form.specs.Uses.{group_touches, phase_count};
ghost use Rattle.phase_plan.specs.Phases.{ArePhasesOf};

use crate::walk::Walk;
use barrier_placement::{Barriers, Touch, place};
use group_form::laws::{grids_keep, uses_tell_barriers};
use lowering::term::Term;
use std::alloc::{AllocError, Global};

/// The phases of a map over work-groups, in the order of its code, with their uses of local arrays
/// and the barriers between them.
#[derive(Drop)]
pub struct Phases {
    /// How many phases there are.
    pub count: u32,
    /// Each use, by the number of its phase and of its array, both from 0.
    pub touches: Vec<Touch>,
    /// The needed barriers, in the order of the phases: each just
    /// before a phase, or closing the body.
    pub barriers: Barriers,
}

impl Phases {
    /// The phases of a map over work-groups, seen through layouts and lets of inputs, whose groups
    /// take one turn at most, or many.
    ///
    /// Going forward, a barrier stands just before a phase that conflicts with a phase since the
    /// last barrier. One more closes the body of many turns where a phase after the last barrier
    /// conflicts with one before the first; where there is no barrier, where any two phases
    /// conflict, or one with itself. 2^32 phases or local arrays are answered as want of memory.
    pub fn of(alloc: Global, root: &Term, once: bool) -> Result<Self, AllocError>
        requires { StandsOverGroups (term_of root.now) }
        ensures { IfOk result (λ phases.
            ArePhasesOf (group_touches (term_of root.now)) (phase_count (term_of root.now)) once
            phases.count phases.touches.items phases.barriers.items) }
    {
        uses_tell_barriers();
        let Walk {
            phases: count,
            touches,
            ..
        } = Walk::through(alloc, root)?;
        let barriers = place(alloc, &touches, count, once)?;
        Ok(Phases {
            count,
            touches,
            barriers,
        })
    }

    /// The same of a map over rows of work-groups, in whose pairs of maps no use is aligned.
    pub fn of_grid(alloc: Global, root: &Term, once: bool) -> Result<Self, AllocError>
        requires { StandsOverGrid (term_of root.now) }
        ensures { IfOk result (λ phases.
            ArePhasesOf (grid_touches (term_of root.now)) (grid_phase_count (term_of root.now)) once
            phases.count phases.touches.items phases.barriers.items) }
    {
        grids_keep();
        let Walk {
            phases: count,
            touches,
            ..
        } = Walk::through_grid(alloc, root)?;
        let barriers = place(alloc, &touches, count, once)?;
        Ok(Phases {
            count,
            touches,
            barriers,
        })
    }
}
