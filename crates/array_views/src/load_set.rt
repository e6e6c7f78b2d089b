//! Which scalars of an element are loaded.

ghost use Rattle.std.specs.Prelude.{◌≡◌, IfOk};
ghost use Rattle.printed_form.specs.Counts.{load_count};
ghost use Rattle.array_views.specs.Counts.{count_of};
ghost use Rattle.array_views.specs.Views.{loads_of};

use crate::count::Count;
use std::alloc::AllocError;

/// Which scalars of a bound element are loaded into private variables.
#[derive(Drop)]
pub enum LoadSet {
    /// None of them.
    Skip,
    /// The scalar.
    Take,
    /// The four scalars of a vector, into one variable.
    TakeFour,
    /// These of a pair's left part, and these of its right part.
    Each(Box<LoadSet>, Box<LoadSet>),
}

impl LoadSet {
    /// How many variables they are loaded into.
    pub fn count(&self) -> Result<Count, AllocError>
        ensures { IfOk result (λ n. count_of n ≡ load_count (loads_of self.now)) }
    {
        match self {
            LoadSet::Skip => Ok(Count::none()),
            LoadSet::Take => Ok(Count::one_word()),
            LoadSet::TakeFour => Ok(Count::one_four()),
            LoadSet::Each(left, right) => left.count()?.more(right.count()?),
        }
    }
}
