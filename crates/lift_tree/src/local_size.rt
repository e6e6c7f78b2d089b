//! The local size that all launches of a kernel have, where it is fixed.

ghost use Rattle.std.specs.Prelude.{◌≡◌, ◌≤◌, ◌*◌};
ghost use Rattle.std.proofs.Props.{props};

/// The most work-items that a work-group may have.
pub const LARGEST_LOCAL_SIZE: u32 = 256;

/// How many work-items each work-group has along a row, and how many rows: both at least 1, and
/// their product at most 256.
#[derive(Clone, Copy)]
pub struct LocalSize {
    across: u32,
    down: u32,
    ghost within: { (1 ≤ across) × (1 ≤ down) × (across * down ≤ 256) } by { Prim.hlevel props },
}

impl LocalSize {
    ghost use Rattle.lift_tree.specs.FixedSizes.{size_fixed};
    ghost use Rattle.lift_tree.specs.LocalSizes.{IsLocalSize, size_within};

    /// The size of rows of so many work-items, and so many rows; none exactly where one of the two
    /// is 0 or their product is above 256.
    pub fn new(across: u32, down: u32) -> Option<LocalSize>
        ensures { size_fixed result ≡ size_within across down }
    {
        if 1 <= across && 1 <= down && across.saturating_mul(down) <= LARGEST_LOCAL_SIZE {
            Some(LocalSize { across, down })
        } else {
            None
        }
    }

    /// How many work-items a row of each work-group has, and how many rows.
    pub fn pair(self) -> (u32, u32)
        ensures { result ≡ (self.across, self.down) }
    {
        (self.across, self.down)
    }

    /// The numbers of a size that is fixed, or none.
    pub fn fixed(local: Option<LocalSize>) -> Option<(u32, u32)>
        ensures number { result ≡ size_fixed local }
        ensures small { IsLocalSize result }
    {
        match local {
            Some(size) => Some(size.pair()),
            None => None,
        }
    }
}
