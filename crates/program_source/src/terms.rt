//! The terms that the steps of a script make of a program, and their lines.
ghost use Rattle.std.specs.Prelude.{◌≡◌, IfErr, IfOk};
ghost use Rattle.lift_tree.specs.Annotations.{annotation_of};
ghost use Rattle.lift_tree.specs.Programs.{program_of};
ghost use Rattle.lift_tree.specs.Tree.{tree_of};
ghost use Rattle.lowered_tree.specs.Whole.{IsTypedWithin};
ghost use Rattle.program_source.specs.Program.{IsRefusedFor, OnProgram, StopsFor};
ghost use Rattle.program_source.specs.SourceTerms.{
  AreSourceTerms,
  IsBegun,
  IsLastTerm,
};
ghost use Rattle.program_source.specs.StepsText.{IsStepsText};
ghost use Rattle.program_source.specs.Terms.{TermsOf};
ghost use Rattle.lift_tree.specs.FixedSizes.{size_fixed};
ghost use Rattle.strategy_script.specs.LocalSize.{local_fixed};

use crate::laws::sources_end_once;
use crate::source::typed_source;
use fault_lines::Refusal;
use lift_reader::program::bodies_are_text_terms;
use lift_tree::laws::typed_nodes_type_the_term;
use lift_tree::local_size::LocalSize;
use lift_tree::typed::Typed;
use pattern_types::laws::types_are_judged;
use std::alloc::Global;
use strategy_script::{Script, read_script, run_script, script_lines};

/// The last of a program's terms along a script, and the local size of all
/// launches where the script fixes it.
#[derive(Drop)]
pub struct LastTerm {
    pub typed: Typed,
    pub local: Option<LocalSize>,
}

// The typed source of a program, and the script.
fn begin(alloc: Global, program: &[u8], script: &[u8]) -> Result<(Typed, Script), Refusal>
    ensures begun { IfOk result (λ b. IsBegun program.now script.now b.0 b.1) }
    ensures refused { IfErr result
        (StopsFor (OnProgram program.now (λ p. TermsOf p script.now))) }
{
    let source = typed_source(alloc, program)?;
    let script = read_script(alloc, script)?;
    Ok((source, script))
}

/// The terms that the steps of a script make of a program: its own, then the term after each step.
/// It is refused just where a stage stops, and for the first in their order: the program's text and
/// its limits, its types, the script's text and its limit, the steps in turn. Want of memory may
/// come at any point.
pub fn source_terms(alloc: Global, program: &[u8], script: &[u8]) -> Result<Vec<Typed>, Refusal>
    ensures terms { IfOk result (λ terms. AreSourceTerms program.now script.now terms.items) }
    ensures refused { IfErr result
        (StopsFor (OnProgram program.now (λ p. TermsOf p script.now))) }
    ensures exact { IsRefusedFor (OnProgram program.now (λ p. TermsOf p script.now)) result }
{
    sources_end_once();
    let (source, script) = begin(alloc, program, script)?;
    Ok(run_script(alloc, source, &script)?)
}

/// The last of the terms of [`source_terms`], with the same refusals: typed within the limits, and
/// copying nothing but arrays; and the local size that the script fixes. It holds two terms at a
/// time.
pub fn last_term(alloc: Global, program: &[u8], script: &[u8]) -> Result<LastTerm, Refusal>
    ensures last { IfOk result (λ last. IsLastTerm program.now script.now last.typed) }
    ensures local { IfOk result (λ last. size_fixed last.local ≡ local_fixed script.now) }
    ensures within { IfOk result (λ last. IsTypedWithin (program_of last.typed.program)
        (tree_of last.typed.term) (annotation_of last.typed.types)) }
    ensures refused { IfErr result
        (StopsFor (OnProgram program.now (λ p. TermsOf p script.now))) }
{
    bodies_are_text_terms();
    typed_nodes_type_the_term();
    types_are_judged();
    let (source, script) = begin(alloc, program, script)?;
    let typed = strategy_script::last_term(alloc, source, &script)?;
    Ok(LastTerm {
        typed,
        local: script.local(),
    })
}

/// A line for each term that the steps of a script make of a program, its own first. Each term has
/// the program's type, and its value at all admissible sizes and inputs.
pub fn steps_text(alloc: Global, program: &[u8], script: &[u8]) -> Result<Vec<u8>, Refusal>
    ensures written { IfOk result (λ text. IsStepsText program.now script.now text.items) }
    ensures refused { IfErr result
        (StopsFor (OnProgram program.now (λ p. TermsOf p script.now))) }
    ensures exact { IsRefusedFor (OnProgram program.now (λ p. TermsOf p script.now)) result }
{
    sources_end_once();
    let (source, script) = begin(alloc, program, script)?;
    Ok(script_lines(alloc, source, &script)?)
}
