//! The value of a program's source expression, without any kernel.
ghost use Rattle.std.specs.Prelude.{◌≡◌, None, IfErr, IfOk};
ghost use Rattle.launch_file.specs.LaunchFile.{Eval, asks_in, given_by};
ghost use Rattle.launch_file.specs.ResultLine.{result_line};
ghost use Rattle.lift_tree.specs.Annotations.{IsTyped};
ghost use Rattle.lift_tree.specs.Programs.{program_of};
ghost use Rattle.lift_tree.specs.Tree.{tree_of};
ghost use Rattle.program_runs.specs.Runs.{IsAdmissibleFor, world_given};
ghost use Rattle.program_source.specs.Ends.{FailsFor, IsFailedFor, OnSource};
ghost use Rattle.program_source.specs.Program.{source_value};
ghost use Rattle.program_runs.specs.Started.{EvalOf, IsValueLine};
ghost use Rattle.fault_lines.specs.Shown.{failure_of};

use crate::laws::one_end;
use fault_lines::Failure;
use launch_file::file::{Ask, LaunchFile, read_launch};
use launch_file::result::result_text;
use lift_tree::typed::Typed;
use pattern_value::value_of;
use program_source::typed_source;
use std::alloc::{AllocError, Global};

// The result line of the value of a typed program's source at a launch file's sizes and inputs.
fn value_line(alloc: Global, typed: &Typed, file: &LaunchFile) -> Result<Vec<u8>, AllocError>
    requires typed { IsTyped typed.now }
    requires whole { tree_of typed.now.term ≡ tree_of typed.now.program.body }
    requires admissible { IsAdmissibleFor (program_of typed.now.program) (asks_in Eval)
        (given_by file.now) }
    ensures { IfOk result (λ line. line.items ≡ result_line
        (source_value (program_of typed.now.program) (world_given (given_by file.now))) None) }
{
    let value = value_of(alloc, typed, &file.sizes, file.inputs.as_slice())?;
    result_text(alloc, &value, None)
}

/// The result line of a program at a launch file: the value of its source expression. How many
/// work-items there are, and in which order they run, is passed over. It fails just where a stage
/// stops, for the first in their order: the program's text and its limits, its types, the launch
/// file. Want of memory may come at any point.
pub fn eval_text(alloc: Global, program: &[u8], launch: &[u8]) -> Result<Vec<u8>, Failure>
    ensures found { IfOk result (λ line. IsValueLine program.now launch.now line.items) }
    ensures refused { IfErr result (λ failure. FailsFor
        (OnSource program.now (λ p. EvalOf p launch.now)) (failure_of failure)) }
    ensures exact { IsFailedFor (OnSource program.now (λ p. EvalOf p launch.now)) result }
{
    one_end();
    let typed = typed_source(alloc, program)?;
    match read_launch(alloc, launch, &typed.program, Ask::Eval) {
        Ok(file) => Ok(value_line(alloc, &typed, &file)?),
        Err(no) => Err(Failure::for_launch(typed.program, no)),
    }
}
