//! Four words.

ghost use Rattle.std.specs.Prelude.{◌≡◌};
ghost use Rattle.kernel_tree.specs.Formula.{spread};
ghost use Rattle.ndrange_machine.specs.Known.{four_of};

/// Four words, lane by lane.
#[derive(Clone, Copy)]
pub struct Four {
    pub x: u32,
    pub y: u32,
    pub z: u32,
    pub w: u32,
}

impl Four {
    /// The word in each lane.
    pub fn spread(word: u32) -> Four
        ensures { four_of result ≡ spread word }
    {
        Four {
            x: word,
            y: word,
            z: word,
            w: word,
        }
    }
}
