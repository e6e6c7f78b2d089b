//! Laws of launch files.

ghost use Rattle.launch_file.specs.Laws.{ChecksAreExact, FilesGiveOneThing, FilesAreNotRefused, ListsAreArrays};
ghost use Rattle.launch_file.specs.Laws.{StagesChecksAreExact, StagesFilesAreNotRefused, StagesFilesGiveOneThing};

/// The checks let a JSON value pass exactly where it is a launch file of the program, and find just
/// what it gives.
pub fn checks_are_exact()
    ensures { ChecksAreExact }
{}

/// Bytes that are a launch file are refused for nothing.
pub fn files_are_not_refused()
    ensures { FilesAreNotRefused }
{}

/// Bytes that are a launch file give one thing alone.
pub fn files_give_one_thing()
    ensures { FilesGiveOneThing }
{}

/// The checks let a JSON value pass exactly where it is a launch file of kernels in order, and find
/// just what it gives to each.
pub fn stages_checks_are_exact()
    ensures { StagesChecksAreExact }
{}

/// Bytes that are a launch file of kernels in order are refused for nothing.
pub fn stages_files_are_not_refused()
    ensures { StagesFilesAreNotRefused }
{}

/// Bytes that are a launch file of kernels in order give one thing alone.
pub fn stages_files_give_one_thing()
    ensures { StagesFilesGiveOneThing }
{}

/// The value of a list, as inputs are held, is the array of its members' values.
pub fn lists_are_arrays()
    ensures { ListsAreArrays }
{}
