//! Worked maps over work-groups, carried by a function that does nothing.

ghost use Rattle.worked_kernels.specs.Groups.{AddedTilesKeep, SixKeep, SummedTilesKeep, UnnamedCopiesAreUnused};

use crate::tiles::tiles_keep;
use group_form::laws::{numbered_groups_keep, uses_tell_barriers};

/// Worked terms by way of local memory, at every launch of one row: where each item reads what it
/// copied, no barrier is needed; where it reads its neighbours', one is needed between the phases
/// and one that closes the body.
pub fn worked_groups_keep()
    ensures added { AddedTilesKeep }
    ensures summed { SummedTilesKeep }
    ensures six { SixKeep }
    ensures unnamed { UnnamedCopiesAreUnused }
{
    numbered_groups_keep();
    tiles_keep();
    uses_tell_barriers();
}
