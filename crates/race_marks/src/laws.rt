//! The laws of the marks, each carried by a function that does nothing.

ghost use Rattle.std.specs.Prelude.{[]};
ghost use Rattle.kernel_tree.specs.Device.{Device, State, Cell};
ghost use Rattle.race_marks.specs.Laws.{AccessesAreNoted, EventsMayFollow, MarksStay, OthersChangeNoMark, RacesAreTold, ReleasesAreTold, StepsAreTold};
ghost use Rattle.race_marks.specs.Marks.{Untouched};
ghost use Rattle.race_marks.specs.Tells.{TellsOfRun};

/// A mark that tells of a cell's accesses tells exactly whether the next access of it is a race,
/// and goes on to tell of them after each one that is none, after each event of a run and at a
/// release.
pub fn marks_tell()
    ensures begin { (d : Device) (s : State) (c : Cell) → TellsOfRun d s [] c Untouched }
    ensures exact { RacesAreTold }
    ensures noted { AccessesAreNoted }
    ensures elsewhere { OthersChangeNoMark }
    ensures follows { EventsMayFollow }
    ensures step { StepsAreTold }
    ensures release { ReleasesAreTold }
{}

/// The marks of all cells go on to tell of a run after a step that accesses none.
pub fn marks_stay()
    ensures { MarksStay }
{}
