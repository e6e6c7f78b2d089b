//! Conflicts between two stretches of phases.

ghost use Rattle.std.specs.Prelude.{◌≡◌, ◌<◌, ◌↔◌, ℕ, IsTrue, MatchOption, Contains};
ghost use Rattle.barrier_placement.specs.declared.touches.Touch.{Touch};
ghost use Rattle.barrier_placement.specs.Conflicts.{Clash, space_of};
ghost use Rattle.barrier_placement.specs.Code.{In, Across};

use crate::touches::Touch;

// The phases from one up to another, which is not among them.
#[derive(Clone, Copy)]
pub struct Stretch {
    pub from: u32,
    pub to: u32,
}

impl Stretch {
    fn has(self, phase: u32) -> bool
        ensures { IsTrue result ↔ In self phase }
    {
        self.from <= phase && phase < self.to
    }
}

// A phase of the stretch with a use that clashes with this one.
fn clashing_phase(touches: &[Touch], phases: Stretch, touch: &Touch) -> Option<u32>
    ensures { MatchOption result
        ((x : Touch) → Contains touches.now x → In phases x.phase → Clash x touch.now → ⊥)
        (λ p. (x : Touch) × Contains touches.now x × (x.phase ≡ p) × In phases p
        × Clash x touch.now) }
{
    for other in touches {
        if phases.has(other.phase) && other.clashes(touch) {
            return Some(other.phase);
        }
    }
    None
}

// A phase of each stretch that conflict on a local array, or on a global one.
pub fn conflict(
    touches: &[Touch],
    local: bool,
    earlier: Stretch,
    later: Stretch,
) -> Option<(u32, u32)>
    ensures { MatchOption result
        ((p q : ℕ) → Across touches.now (space_of local) earlier later p q → ⊥)
        (λ pair. Across touches.now (space_of local) earlier later pair.0 pair.1) }
{
    for touch in touches {
        if touch.local == local && later.has(touch.phase) {
            if let Some(phase) = clashing_phase(touches, earlier, touch) {
                return Some((phase, touch.phase));
            }
        }
    }
    None
}
