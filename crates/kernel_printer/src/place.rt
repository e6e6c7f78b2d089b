//! Where a statement stands.

ghost use Rattle.std.specs.Prelude.{◌≤◌};

/// How many loops are around a statement, and how many loops and `if`s.
#[derive(Clone, Copy)]
pub struct Place {
    pub loops: u32,
    pub nest: u32,
    pub ghost within: { loops ≤ nest },
    pub ghost few: { nest ≤ 1024 },
}

impl Place {
    ghost use Rattle.std.specs.Prelude.{◌≡◌, ◌<◌, ◌+◌};

    /// A statement of the body of a loop that stands here.
    pub fn in_loop(self) -> Place
        requires { self.nest < 1024 }
        ensures loops { result.loops ≡ self.loops + 1 }
        ensures nest { result.nest ≡ self.nest + 1 }
    {
        Place {
            loops: self.loops + 1,
            nest: self.nest + 1,
        }
    }

    /// A statement of the body of an `if` that stands here.
    pub fn in_if(self) -> Place
        requires { self.nest < 1024 }
        ensures loops { result.loops ≡ self.loops }
        ensures nest { result.nest ≡ self.nest + 1 }
    {
        Place {
            loops: self.loops,
            nest: self.nest + 1,
        }
    }
}
