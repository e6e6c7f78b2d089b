//! Laws of maps over work-groups, each carried by a function that does nothing.

ghost use Rattle.size_arith.specs.declared.poly.Monomial.{Monomial};
ghost use Rattle.std.specs.Prelude.{ℕ, List};
ghost use Rattle.group_form.specs.Printer.{GroupPrinterPrints};
ghost use Rattle.group_form.specs.GridChosen.{GridFormsMakeTurns};
ghost use Rattle.group_form.specs.GridPrinter.{GridPrinterPrints};
ghost use Rattle.group_form.specs.GridTheorem.{GridCodesAlike, GridUsesCanBePlaced, NeededGridsKeep, NeededKeepGridsApart, SeparatedGridsKeep, SeparatedGridsServe};
ghost use Rattle.group_form.specs.Theorem.{LocalArraysAreCounted, NeededKeepApart, NeededGroupsKeep, SeparatedGroupsKeep, SeparatedGroupsServe, UsesTellBarriers, AlignedNeedNone, GroupUsesCanBePlaced};

use barrier_placement::laws::needed_barriers_separate;
use group_phases::laws::{grid_phases_keep, numbered_phases_keep, phases_keep};

/// At every launch, on all inputs, every run of a kernel that is printed for a map over work-groups
/// with the needed barriers keeps what it owes: the source value's lists, each cell by its owner.
/// With any barriers that keep conflicting phases apart it leaves the term's scalars, and its
/// barriers serve.
pub fn printed_groups_keep()
    ensures needed { NeededGroupsKeep (List Monomial) }
    ensures separated { SeparatedGroupsKeep (List Monomial) }
    ensures serve { SeparatedGroupsServe (List Monomial) }
    ensures apart { NeededKeepApart (List Monomial) }
{
    needed_barriers_separate();
    phases_keep();
}

/// The same of terms whose lengths are numbers.
pub fn numbered_groups_keep()
    ensures separated { SeparatedGroupsKeep ℕ }
    ensures apart { NeededKeepApart ℕ }
{
    needed_barriers_separate();
    numbered_phases_keep();
}

/// The uses of a term can be placed. The needed barriers hang on which uses there are alone; where
/// all are aligned none is needed.
pub fn uses_tell_barriers()
    ensures placed { GroupUsesCanBePlaced (List Monomial) }
    ensures told { UsesTellBarriers }
    ensures aligned { AlignedNeedNone }
{}

/// What the printer makes of a map over work-groups is printed for it, with whatever barriers it is
/// given, at every launch.
pub fn the_group_printer_prints()
    ensures { GroupPrinterPrints (List Monomial) }
{}

/// In a group's turn as many local arrays are declared as are counted.
pub fn local_arrays_are_counted()
    ensures { LocalArraysAreCounted (List Monomial) }
{}

/// Two dimensions.
pub fn grids_keep()
    ensures needed { NeededGridsKeep (List Monomial) }
    ensures separated { SeparatedGridsKeep (List Monomial) }
    ensures serve { SeparatedGridsServe (List Monomial) }
    ensures apart { NeededKeepGridsApart (List Monomial) }
    ensures placed { GridUsesCanBePlaced (List Monomial) }
    ensures alike { GridCodesAlike (List Monomial) }
{
    needed_barriers_separate();
    grid_phases_keep();
}

/// What the printer makes of a map over rows of work-groups is printed for it.
pub fn the_grid_printer_prints()
    ensures prints { GridPrinterPrints (List Monomial) }
    ensures forms { GridFormsMakeTurns }
{}
