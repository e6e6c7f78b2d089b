//! Laws of compilation, each carried by a function that does nothing.

ghost use Rattle.compilation.specs.Laws.{CompilationEndsOnce, SequencesEndOnce};

use lowered_tree::laws::legal_without_fault;
use program_source::laws::sources_end_once;

/// Along a script a program comes to one last term that is compiled, or it is refused for one
/// cause.
pub fn compilation_ends_once()
    ensures { CompilationEndsOnce }
{
    sources_end_once();
    legal_without_fault();
}

/// Along a script a program comes to one list of kernels' terms that are compiled, or it is refused
/// for one cause.
pub fn sequences_end_once()
    ensures { SequencesEndOnce }
{
    sources_end_once();
    legal_without_fault();
}
