//! Laws of a program's text and its terms, each carried by a function that does nothing.

ghost use Rattle.program_source.specs.Laws.{SourcesEndOnce, TypedProgramsAreProper};

use lift_reader::program::programs_may_be_typed;
use lift_reader::token::one_list_of_tokens;
use pattern_types::laws::judged_inputs_are_proper;
use strategy_script::laws::scripts_end_once;

/// A text comes to one program or to one refusal, and so do its types, its terms along a
/// script, and the last of these.
pub fn sources_end_once()
    ensures { SourcesEndOnce }
{
    one_list_of_tokens();
    scripts_end_once();
}

/// A program that is read and typed has proper inputs.
pub fn typed_programs_are_proper()
    ensures { TypedProgramsAreProper }
{
    programs_may_be_typed();
    judged_inputs_are_proper();
}
