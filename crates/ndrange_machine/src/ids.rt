//! What a work-item knows of itself and of the launch.

ghost use Rattle.std.specs.Prelude.{◌≡◌, ◌/◌, ◌%◌, ℕ, List};
ghost use Rattle.kernel_tree.specs.Code.{start_value, stride_value};
ghost use Rattle.kernel_tree.specs.Formula.{along, id_value, ids_along, sizes_alone};
ghost use Rattle.kernel_tree.specs.Launch.{ids_of};
ghost use Rattle.kernel_tree.specs.Tree.{id_of, start_of, stride_of};
ghost use Rattle.ndrange_machine.specs.Known.{known};

use enabled_events::grid::Grid;
use kernel_tree::launches::Launch;
use kernel_tree::tree::{Dimension, IdForm, Start, Stride};

/// What a work-item can ask about itself and about the launch (OpenCL C 1.2, section 6.12.1). It is
/// worked out where it is asked for.
#[derive(Clone, Copy)]
pub struct Ids {
    pub grid: Grid,
    pub item: u32,
}

impl Ids {
    /// What the work-item of this number knows.
    #[inline(always)]
    pub fn of_item(launch: &Launch, item: u32) -> Ids
        ensures { known result launch.now.sizes ≡ ids_of launch.now item }
    {
        Ids {
            grid: Grid {
                global: launch.global,
                local: launch.local,
            },
            item,
        }
    }

    /// What is known where nothing is asked for.
    pub fn unasked() -> Ids
        ensures { (sizes : List ℕ) → known result sizes ≡ sizes_alone sizes }
    {
        Ids {
            grid: Grid {
                global: (0, 0),
                local: (0, 0),
            },
            item: 0,
        }
    }

    /// What is asked for.
    #[inline(always)]
    pub fn get(self, dimension: Dimension, form: IdForm) -> u32
        ensures { (sizes : List ℕ)
            → result ≡ id_value (along (known self sizes) dimension) (id_of form) }
    {
        match dimension {
            Dimension::X => answer(
                form,
                self.grid.global.0,
                self.grid.local.0,
                remainder(self.item, self.grid.global.0),
            ),
            Dimension::Y => answer(
                form,
                self.grid.global.1,
                self.grid.local.1,
                quotient(self.item, self.grid.global.0),
            ),
        }
    }

    /// What a loop's variable begins with, and what an `if` compares.
    #[inline(always)]
    pub fn start(self, start: Start) -> u32
        ensures { (sizes : List ℕ) → result ≡ start_value (known self sizes) (start_of start) }
    {
        match start {
            Start::Zero => 0,
            Start::GlobalId(dimension) => self.get(dimension, IdForm::GlobalId),
            Start::GroupId(dimension) => self.get(dimension, IdForm::GroupId),
            Start::LocalId(dimension) => self.get(dimension, IdForm::LocalId),
        }
    }

    /// What is added to a loop's variable.
    #[inline(always)]
    pub fn stride(self, stride: Stride) -> u32
        ensures { (sizes : List ℕ) → result ≡ stride_value (known self sizes) (stride_of stride) }
    {
        match stride {
            Stride::One => 1,
            Stride::GlobalSize(dimension) => self.get(dimension, IdForm::GlobalSize),
            Stride::GroupCount(dimension) => self.get(dimension, IdForm::GroupCount),
            Stride::LocalSize(dimension) => self.get(dimension, IdForm::LocalSize),
        }
    }
}

// The answer along one dimension, where there are so many items and so many in a group, at this
// place.
#[inline(always)]
fn answer(form: IdForm, global: u32, local: u32, place: u32) -> u32
    ensures { result ≡ id_value (ids_along global local place) (id_of form) }
{
    match form {
        IdForm::GlobalId => place,
        IdForm::GroupId => quotient(place, local),
        IdForm::LocalId => remainder(place, local),
        IdForm::GlobalSize => global,
        IdForm::GroupCount => quotient(global, local),
        IdForm::LocalSize => local,
    }
}

// The quotient; 0 at a divisor of 0.
#[inline(always)]
fn quotient(n: u32, divisor: u32) -> u32
    ensures { result ≡ n / divisor }
{
    if divisor == 0 { 0 } else { n / divisor }
}

// The remainder; the number itself at a divisor of 0.
#[inline(always)]
fn remainder(n: u32, divisor: u32) -> u32
    ensures { result ≡ n % divisor }
{
    if divisor == 0 { n } else { n % divisor }
}
