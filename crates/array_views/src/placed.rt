//! A value in arrays.

ghost use Rattle.std.specs.Prelude.{◌+◌, ◌≤◌, ◌^◌};
ghost use Rattle.lift_ir.specs.Types.{width};
ghost use Rattle.array_views.specs.Arrays.{extent_of};

use crate::array::ArrayKind;
use crate::extent::Extent;

/// A value in arrays of one kind, one a component, the first of which has this number.
#[derive(Drop)]
pub struct Placed {
    pub kind: ArrayKind,
    pub first: u32,
    pub extent: Extent,
    pub ghost numbered: { first + width (extent_of extent) ≤ 2 ^ 32 },
}
