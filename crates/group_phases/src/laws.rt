//! Laws of barriers between phases, each carried by a function that does nothing.

ghost use Rattle.std.specs.Prelude.{◌≡◌, ℕ, ◌≤◌, true, false, List, length, map};
ghost use Rattle.size_arith.specs.declared.poly.Monomial.{Monomial};
ghost use Rattle.kernel_tree.specs.Code.{Kernel};
ghost use Rattle.kernel_tree.specs.Launch.{Launch, Cells, IsWhole};
ghost use Rattle.barrier_placement.specs.declared.touches.Touch.{Touch};
ghost use Rattle.barrier_placement.specs.Conflicts.{Local};
ghost use Rattle.barrier_placement.specs.Fencing.{Fencing};
ghost use Rattle.barrier_placement.specs.Separates.{Separates};
ghost use Rattle.printed_form.specs.Headline.{EveryRunKeeps};
ghost use Rattle.group_phases.specs.Epochs.{KeepsApart, runs_by_turns, runs_once};
ghost use Rattle.group_phases.specs.Outcome.{SomeRunLeaves};
ghost use Rattle.group_phases.specs.TurnForms.{LoopsAreForms, TestsAreForms, GuardsTest, NestsAreForms};
ghost use Rattle.group_phases.specs.Grids.{OneRowsAreWalked, WalksStayOn, WalksTakeOnce, WalksTakeEach};
ghost use Rattle.group_phases.specs.NestRows.{MapsAreNests};
ghost use Rattle.group_phases.specs.Strides.{StatementsAreForms};
ghost use Rattle.group_phases.specs.GridPrinted.{GridPhasesKeep, GridPhasesServe, NeededGridBarriersKeep};
ghost use Rattle.group_phases.specs.Printed.{PhasesKeep, PhasesServe, NeededBarriersKeep};

use barrier_placement::laws::needed_barriers_separate;

/// Where barriers separate conflicting phases, the phases run in different epochs, whatever the
/// turns; of a group that has one turn no barrier need close the body.
pub fn conflicting_phases_are_apart()
    ensures by_turns { (touches : List Touch) (n : ℕ) (fence : ℕ → Fencing) (turns : ℕ → ℕ) →
        Separates touches Local false n fence →
        KeepsApart touches n fence turns (runs_by_turns fence n) }
    ensures once { (touches : List Touch) (n : ℕ) (fence : ℕ → Fencing) (turns : ℕ → ℕ) →
        ((g : ℕ) → turns g ≤ 1) → Separates touches Local true n fence →
        KeepsApart touches n fence turns (runs_once fence) }
{}

/// Loops, statements that test, as an `if` does, and nests of two forms are forms of
/// turns: one item takes each turn, in order, and comes to the rest; a nest's turns
/// are pairs, numbered row by row.
pub fn forms_of_turns()
    ensures loops { LoopsAreForms }
    ensures tests { TestsAreForms }
    ensures guards { GuardsTest }
    ensures nests { NestsAreForms }
    ensures statements { StatementsAreForms }
{}

/// The headline from one run of each start, put together of items alone in turn and releases: where
/// each output cell is its owner's at all times, and is written and left as is wanted, every run
/// keeps the headline.
pub fn one_run_keeps()
    ensures { (k : Kernel) (l : Launch) (c : Cells) (owner : (array index : ℕ) → ℕ)
        (wanted : List (List ℕ)) → IsWhole l → map length wanted ≡ map length c.outs →
        SomeRunLeaves k l c owner wanted → EveryRunKeeps k l c owner wanted }
{}

/// A kernel that is printed for phases, with any barriers that separate the conflicting ones: every
/// run keeps the headline, and its barriers serve. So it is with the needed barriers, where all
/// uses are of local arrays.
pub fn phases_keep()
    ensures keep { PhasesKeep (List Monomial) }
    ensures serve { PhasesServe (List Monomial) }
    ensures needed { NeededBarriersKeep (List Monomial) }
{
    needed_barriers_separate();
}

/// The same of phases whose lengths are numbers.
pub fn numbered_phases_keep()
    ensures keep { PhasesKeep ℕ }
    ensures serve { PhasesServe ℕ }
    ensures needed { NeededBarriersKeep ℕ }
{
    needed_barriers_separate();
}

/// A walk over the places of a grid, along its rows and from row to row, comes to each place that
/// lies on it at just one turn, and to none else.
pub fn walks_take_places_once()
    ensures on_it { WalksStayOn }
    ensures once { WalksTakeOnce }
    ensures each { WalksTakeEach }
    ensures one_row { OneRowsAreWalked }
    ensures one_map { MapsAreNests (List Monomial) }
{}

/// A kernel that is printed for phases of two dimensions, each a nest of two maps over the items of
/// a group, within a nest over the groups of a grid: with any barriers that separate the
/// conflicting ones, every run keeps the headline, and its barriers serve. So it is with the needed
/// barriers, where all uses are of local arrays.
pub fn grid_phases_keep()
    ensures keep { GridPhasesKeep (List Monomial) }
    ensures serve { GridPhasesServe (List Monomial) }
    ensures needed { NeededGridBarriersKeep (List Monomial) }
{
    needed_barriers_separate();
}
