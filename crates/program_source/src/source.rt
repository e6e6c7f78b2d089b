//! A program's text: the program, with its types.
ghost use Rattle.std.specs.Prelude.{◌≡◌, IfErr, IfOk, Ok};
ghost use Rattle.lift_tree.specs.Annotations.{annotation_of};
ghost use Rattle.lift_tree.specs.Belonging.{IsProper, IsTermOf};
ghost use Rattle.lift_tree.specs.Limits.{HasProperInputs};
ghost use Rattle.lift_tree.specs.Programs.{program_of};
ghost use Rattle.lift_tree.specs.Tree.{tree_of};
ghost use Rattle.pattern_types.specs.Judged.{program_judged};
ghost use Rattle.strategy_script.specs.Steps.{IsReady};
ghost use Rattle.program_source.specs.Program.{IsRead, OnProgram, StopsFor, TypesOf};

use fault_lines::Refusal;
use lift_reader::program::read_program;
use lift_tree::program::Program;
use lift_tree::typed::Typed;
use pattern_types::type_of;
use std::alloc::Global;
use strategy_script::laws::few_nodes_are_ready;

// The program that a text is.
fn read_source(alloc: Global, text: &[u8]) -> Result<Program, Refusal>
    ensures found { IfOk result (λ p. IsRead text.now (program_of p)) }
    ensures proper { IfOk result (λ p. IsProper (program_of p)) }
    ensures body { IfOk result (λ p. IsTermOf (program_of p) (tree_of p.body)) }
    ensures refused { IfErr result (StopsFor (OnProgram text.now TypesOf)) }
{
    Ok(read_program(alloc, text)?)
}

/// The program that a text is, with the types of all nodes of its term.
pub fn typed_source(alloc: Global, text: &[u8]) -> Result<Typed, Refusal>
    ensures found { IfOk result (λ t. IsRead text.now (program_of t.program)) }
    ensures judged { IfOk result (λ t. program_judged (program_of t.program)
        (tree_of t.program.body) ≡ Ok (annotation_of t.types)) }
    ensures whole { IfOk result (λ t. tree_of t.term ≡ tree_of t.program.body) }
    ensures proper { IfOk result (λ t. HasProperInputs (program_of t.program)) }
    ensures ready { IfOk result IsReady }
    ensures refused { IfErr result (StopsFor (OnProgram text.now TypesOf)) }
{
    few_nodes_are_ready();
    let program = read_source(alloc, text)?;
    let term = program.body.copy(alloc)?;
    Ok(type_of(alloc, program, term)?)
}
