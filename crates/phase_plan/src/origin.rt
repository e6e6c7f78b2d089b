//! Where arguments lie.

ghost use Rattle.std.specs.Prelude.{◌≡◌, IfOk};
ghost use Rattle.group_form.specs.Origins as spec;
ghost use Rattle.phase_plan.specs.Origins.{origin_in};

use std::alloc::{AllocError, Global};

/// In which local array each component of an argument lies.
#[derive(Drop)]
pub enum Origin {
    /// In none.
    Elsewhere,
    /// In the array of this number; plainly, where it is reached by
    /// variables, zip, first and second alone.
    Within(u32, bool),
    /// The parts of pairs, each where it lies.
    BySide(Box<Origin>, Box<Origin>),
}

/// Of two that stand side by side.
pub fn by_side(alloc: Global, first: Origin, second: Origin) -> Result<Origin, AllocError>
    ensures { IfOk result
        (λ o. origin_in o ≡ spec.BySide (origin_in first) (origin_in second)) }
{
    let first = Box::new(alloc, first)?;
    Ok(Origin::BySide(first, Box::new(alloc, second)?))
}

impl Origin {
    /// The same in memory of its own.
    pub fn copy(&self, alloc: Global) -> Result<Self, AllocError>
        ensures { IfOk result (λ o. origin_in o ≡ origin_in self.now) }
    {
        match self {
            Origin::Elsewhere => Ok(Origin::Elsewhere),
            Origin::Within(array, plainly) => Ok(Origin::Within(*array, *plainly)),
            Origin::BySide(first, second) => {
                let first = first.copy(alloc)?;
                by_side(alloc, first, second.copy(alloc)?)
            }
        }
    }

    /// The same through a layout or the body of a let.
    pub fn bent(&self, alloc: Global) -> Result<Self, AllocError>
        ensures { IfOk result (λ o. origin_in o ≡ spec.bent (origin_in self.now)) }
    {
        match self {
            Origin::Elsewhere => Ok(Origin::Elsewhere),
            Origin::Within(array, _) => Ok(Origin::Within(*array, false)),
            Origin::BySide(first, second) => {
                let first = first.bent(alloc)?;
                by_side(alloc, first, second.bent(alloc)?)
            }
        }
    }

    /// Of a part of the pairs.
    pub fn side(self, second: bool) -> Self
        ensures { origin_in result ≡ spec.on_side second (origin_in self) }
    {
        match self {
            Origin::BySide(first, other) => {
                if second {
                    Box::into_inner(other)
                } else {
                    Box::into_inner(first)
                }
            }
            Origin::Elsewhere | Origin::Within(_, _) => Origin::Elsewhere,
        }
    }
}
