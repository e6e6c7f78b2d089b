//! Turns of loops.

ghost use Rattle.std.specs.Prelude.{◌≡◌, ◌↔◌, ◌+◌, ◌%◌, ◌^◌, IsTrue};
ghost use Rattle.ndrange_machine.specs.Known.{numbers};

/// A turn of a loop: its number, from 0, and the loop variable's value.
#[derive(Clone, Copy)]
pub struct Turn {
    pub number: u32,
    pub variable: u32,
}

impl Turn {
    /// The first turn, whose variable has this value.
    #[inline(always)]
    pub fn first(variable: u32) -> Turn
        ensures { result ≡ record { number = 0; variable = variable } }
    {
        Turn {
            number: 0,
            variable,
        }
    }

    /// The turn after this one, whose variable has this value.
    #[inline(always)]
    pub fn next(self, variable: u32) -> Turn
        ensures { result ≡ record { number = (self.number + 1) % 2 ^ 32; variable = variable } }
    {
        Turn {
            number: self.number.wrapping_add(1),
            variable,
        }
    }
}

/// Whether the turns have the same numbers.
pub fn same_numbers(turns: &[Turn], others: &[Turn]) -> bool
    ensures { IsTrue result ↔ numbers turns.now ≡ numbers others.now }
{
    if turns.len() != others.len() {
        return false;
    }
    for i in 0..turns.len() {
        if turns[i].number != others[i].number {
            return false;
        }
    }
    true
}
