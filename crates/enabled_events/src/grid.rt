//! How work-items lie in groups.

ghost use Rattle.std.specs.Prelude.{◌≡◌, ◌<◌};
ghost use Rattle.kernel_tree.specs.Launch.{item_count, group_count, group_of, group_size, first_item};
ghost use Rattle.kernel_tree.specs.Numbering.{member_at};
ghost use Rattle.enabled_events.specs.Grids.{laid, IsSmall};

/// How many work-items there are, and how many in a group, in dimensions 0 and 1. Items and groups
/// are numbered row by row.
#[derive(Clone, Copy)]
pub struct Grid {
    pub global: (u32, u32),
    pub local: (u32, u32),
}

impl Grid {
    /// How many items there are.
    pub fn item_count(self) -> u32
        requires { IsSmall self }
        ensures { result ≡ item_count (laid self) }
    {
        self.global.0 * self.global.1
    }

    /// How many groups there are.
    pub fn group_count(self) -> u32
        requires { IsSmall self }
        ensures { result ≡ group_count (laid self) }
    {
        (self.global.0 / self.local.0) * (self.global.1 / self.local.1)
    }

    /// The group of an item.
    pub fn group_of(self, item: u32) -> u32
        requires small { IsSmall self }
        requires item { item < item_count (laid self) }
        ensures { result ≡ group_of (laid self) item }
    {
        let column = item % self.global.0 / self.local.0;
        let row = item / self.global.0 / self.local.1;
        column + row * (self.global.0 / self.local.0)
    }

    /// The first item of a group, which is its least.
    pub fn first_of(self, group: u32) -> u32
        requires small { IsSmall self }
        requires group { group < group_count (laid self) }
        ensures { result ≡ first_item (laid self) group }
    {
        let across = self.global.0 / self.local.0;
        let column = group % across * self.local.0;
        let row = group / across * self.local.1;
        column + row * self.global.0
    }

    /// How many items a group has.
    pub fn group_size(self) -> u32
        requires { IsSmall self }
        ensures { result ≡ group_size (laid self) }
    {
        self.local.0 * self.local.1
    }

    /// The item of this number in a group, whose items are numbered row by row.
    pub fn member(self, group: u32, number: u32) -> u32
        requires small { IsSmall self }
        requires group { group < group_count (laid self) }
        requires number { number < group_size (laid self) }
        ensures { result ≡ member_at (laid self) group number }
    {
        let column = number % self.local.0;
        let row = number / self.local.0;
        self.first_of(group) + (column + row * self.global.0)
    }
}
