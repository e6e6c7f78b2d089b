//! Laws of the kernels of a program's typed term, by either printer, each carried by a function
//! that does nothing.

ghost use Rattle.group_form.specs.Kernels.{KernelsArePrinted, KernelsGoAlike, KernelsKeep, KernelsServe, KernelsStart};

use crate::laws::{
    grids_keep, printed_groups_keep, the_grid_printer_prints, the_group_printer_prints,
};
use barrier_placement::laws::needed_barriers_are_determined;
use printed_form::laws::{
    printed_programs_go_alike, printed_programs_keep, printed_programs_start, programs_are_printed,
};

/// What a printer makes of a program's typed term, with the needed barriers, is printed for it; it
/// is one kernel for all admissible launches.
pub fn kernels_are_printed()
    ensures { KernelsArePrinted }
{
    programs_are_printed();
    the_group_printer_prints();
    the_grid_printer_prints();
}

/// A kernel that is printed for a program's typed term may be started at each admissible launch.
pub fn kernels_start()
    ensures { KernelsStart }
{
    printed_programs_start();
}

/// At every admissible launch, on all inputs, every run of a kernel that is printed for a program's
/// typed term keeps what the kernel owes: the source value's lists, each cell by its owner. And its
/// barriers serve: of work-items that run the term each by itself none waits at one, and none uses
/// a local array.
pub fn kernels_keep()
    ensures keep { KernelsKeep }
    ensures serve { KernelsServe }
{
    printed_groups_keep();
    grids_keep();
    printed_programs_keep();
    printed_programs_start();
}

/// Any two kernels that are printed for a program's typed term run alike, whatever the spelling of
/// their indices and bounds.
pub fn kernels_go_alike()
    ensures { KernelsGoAlike }
{
    kernels_keep();
    kernels_start();
    needed_barriers_are_determined();
    printed_programs_go_alike();
}
