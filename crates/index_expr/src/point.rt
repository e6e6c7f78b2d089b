//! Where an index expression is worked out.

ghost use Rattle.std.specs.Prelude.{◌≡◌, slice_index};

/// Values of variables and sizes, by their numbers. What has no value here has the value 0.
#[derive(Drop)]
pub struct Point {
    pub variables: Vec<u32>,
    pub sizes: Vec<u32>,
}

impl Point {
    /// The value of a variable.
    pub fn variable(&self, number: u32) -> u32
        ensures { result ≡ slice_index self.now.variables.items number }
    {
        value_in(&self.variables, number)
    }

    /// The value of a size.
    pub fn size(&self, number: u32) -> u32
        ensures { result ≡ slice_index self.now.sizes.items number }
    {
        value_in(&self.sizes, number)
    }
}

fn value_in(values: &[u32], number: u32) -> u32
    ensures { result ≡ slice_index values.now number }
{
    values.get(number as usize).copied().unwrap_or(0)
}
