//! The needed barriers of a body.

ghost use Rattle.std.specs.Prelude.{◌≡◌, ◌+◌, ◌<◌, ◌≤◌, ◌^◌, true, IfSome, IfOk, All};
ghost use Rattle.barrier_placement.specs.Fencing.{fence, InOrder};
ghost use Rattle.barrier_placement.specs.Needed.{Needed, NeededBy};
ghost use Rattle.barrier_placement.specs.Code.{stretch, Parts, Closes, Finds, FindsLast};

use crate::conflicts::{Stretch, conflict};
use crate::touches::Touch;
use std::alloc::{AllocError, Global};

/// A barrier of a work-group's body.
#[derive(Clone, Copy)]
pub struct Barrier {
    /// The phase that it stands just before; none where it closes the body.
    pub before: Option<u32>,
    /// Whether it has the flag for local memory.
    pub local: bool,
    /// Whether it has the flag for global memory.
    pub global: bool,
    /// Two phases in conflict that need it; of a barrier that closes the
    /// body, the later phase comes first.
    pub pair: (u32, u32),
}

/// The barriers of a body in the order of its phases.
pub type Barriers = Vec<Barrier>;

// The barrier that conflicts between the stretches need.
fn barrier_between(
    touches: &[Touch],
    before: Option<u32>,
    earlier: Stretch,
    later: Stretch,
) -> Option<Barrier>
    ensures { Finds touches.now earlier later (Parts touches.now before earlier later) result }
{
    let on_local = conflict(touches, true, earlier, later);
    let on_global = conflict(touches, false, earlier, later);
    let pair = on_local.or(on_global)?;
    Some(Barrier {
        before,
        local: on_local.is_some(),
        global: on_global.is_some(),
        pair,
    })
}

// The barrier that stands just before a phase, where the last one before it stands before `last`.
fn barrier_before(touches: &[Touch], last: u32, phase: u32) -> Option<Barrier>
    requires { phase + 1 < 2 ^ 32 }
    ensures { Finds touches.now (stretch last phase) (stretch phase (phase + 1))
        (Parts touches.now (Some phase) (stretch last phase) (stretch phase (phase + 1))) result }
{
    let since_last = Stretch {
        from: last,
        to: phase,
    };
    let here = Stretch {
        from: phase,
        to: phase + 1,
    };
    barrier_between(touches, Some(phase), since_last, here)
}

// The barrier that closes the body, where the first one stands before
// `first` and the last before `last`.
#[tactic(auto, using(crate::proofs::Parts::closes_as_found, crate::proofs::Parts::closes_the_other_way))]
fn closing_barrier(touches: &[Touch], phases: u32, first: u32, last: u32) -> Option<Barrier>
    ensures found { Finds touches.now (stretch last phases) (stretch 0 first)
        (Closes touches.now (stretch last phases) (stretch 0 first)) result }
    ensures later_first { IfSome result (λ b. b.pair.1 ≤ b.pair.0) }
{
    let after_last = Stretch {
        from: last,
        to: phases,
    };
    let before_first = Stretch { from: 0, to: first };
    let barrier = barrier_between(touches, None, after_last, before_first)?;
    let (p, q) = barrier.pair;
    if p < q {
        Some(Barrier {
            pair: (q, p),
            ..barrier
        })
    } else {
        Some(barrier)
    }
}

// The barrier that closes the body, which a body of one turn at most doesn't need.
#[tactic(auto, using(crate::proofs::Parts::no_last, crate::proofs::Parts::last_found))]
fn last_barrier(
    touches: &[Touch],
    phases: u32,
    once: bool,
    first: u32,
    last: u32,
) -> Option<Barrier>
    ensures { FindsLast touches.now once (stretch last phases) (stretch 0 first) result }
{
    if once {
        None
    } else {
        closing_barrier(touches, phases, first, last)
    }
}

// Whether all uses are aligned, so that no two clash.
fn are_aligned(touches: &[Touch]) -> bool
    ensures { result ≡ true → All (λ touch. touch.aligned ≡ true) touches.now }
{
    for touch in touches {
        if !touch.aligned {
            return false;
        }
    }
    true
}

/// The needed barriers of a body with so many phases, which has these uses of arrays. `once` says
/// that an item goes through it once at most; else it takes any number of turns.
///
/// Going forward, a barrier stands just before a phase that conflicts with a phase since the last
/// barrier. One more closes the body, unless it has one turn at most, where a phase after the last
/// barrier conflicts with one before the first; where there is no barrier, where any two phases
/// conflict, or one with itself.
pub fn place(
    alloc: Global,
    touches: &[Touch],
    phases: u32,
    once: bool,
) -> Result<Barriers, AllocError>
    requires some { 1 ≤ phases }
    requires within { All (λ touch. touch.phase < phases) touches.now }
    ensures needed { IfOk result
        (λ barriers. Needed touches.now once phases (fence phases barriers.items)) }
    ensures in_order { IfOk result (λ barriers. InOrder phases barriers.items) }
    ensures pairs { IfOk result (λ barriers.
        All (λ b. NeededBy touches.now once phases (fence phases barriers.items) b.before b.pair)
        barriers.items) }
{
    let mut barriers = Vec::new(alloc);
    if are_aligned(touches) {
        return Ok(barriers);
    }
    let mut first = phases;
    let mut last = 0;
    for phase in 1..phases {
        if let Some(barrier) = barrier_before(touches, last, phase) {
            barriers.push(barrier)?;
            first = first.min(phase);
            last = phase;
        }
    }
    if let Some(barrier) = last_barrier(touches, phases, once, first, last) {
        barriers.push(barrier)?;
    }
    Ok(barriers)
}
