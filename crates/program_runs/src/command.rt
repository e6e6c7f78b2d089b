//! The commands, and what each of them writes.
ghost use Rattle.std.specs.Prelude.{◌≡◌, ◌⊎◌, IfErr, IfOk, map};
ghost use Rattle.fault_lines.specs.Failure as failures;
ghost use Rattle.fault_lines.specs.Failure.{source_failed};
ghost use Rattle.fault_lines.specs.Shown.{failure_of};
ghost use Rattle.stages.specs.Stages.{As, Passed};
ghost use Rattle.program_source.specs.Ends.{FailsFor, OnSource};
ghost use Rattle.program_source.specs.StepsText.{IsStepsText};
ghost use Rattle.program_source.specs.Terms.{TermsOf};
ghost use Rattle.compilation.specs.Legal.{LegalOf};
ghost use Rattle.compilation.specs.Sequence.{SequenceOf};
ghost use Rattle.program_runs.specs.Table as table;
ghost use Rattle.program_runs.specs.Table.{IsKernelOf, IsSequenceOf, Stops, Writes};

use crate::cost::cost_text;
use crate::demo::demo_text;
use crate::eval::eval_text;
use crate::run::run_text;
use crate::sequence::run_stages_text;
use compilation::{compile_sequence, compile_text};
use fault_lines::Failure;
use program_source::steps_text;
use std::alloc::Global;

/// A command, without the names of its files.
#[derive(Clone, Copy)]
pub enum Command {
    /// The kernel of a program under a script.
    Compile,
    /// The run of that kernel as a launch file says, with its events where they are traced.
    Run { trace: bool },
    /// The loads, stores and releases of every run of that kernel at a launch file's launch, with
    /// those of each work-item where they are asked for.
    Cost { items: bool },
    /// The value of a program at a launch file's sizes and inputs.
    Eval,
    /// What each step of a script makes of a program.
    Steps,
    /// The kernels in order that a program is cut into under a script.
    Stages,
    /// The run of those kernels as a launch file says.
    RunStages,
    /// The run of the demo on the data of this seed.
    Demo { seed: u32 },
}

// The text of this number, from 0; there is no text behind the last.
fn text_at(texts: &[Vec<u8>], number: usize) -> &[u8]
    ensures { result.now ≡ table.text_at (map (λ text. text.items) texts.now) number }
{
    match texts.get(number) {
        Some(text) => text.as_slice(),
        None => &[],
    }
}

// The text of the kernel of a program and a script.
fn kernel_text(alloc: Global, program: &[u8], script: &[u8]) -> Result<Vec<u8>, Failure>
    ensures written { IfOk result (λ text. IsKernelOf program.now script.now text.items) }
    ensures refused { IfErr result (λ no. FailsFor (OnSource program.now
        (λ p. Passed (As source_failed (LegalOf p script.now)))) (failure_of no)) }
{
    let compiled = compile_text(alloc, program, script)?;
    Ok(compiled.text)
}

// The text of the kernels in order of a program and a script.
fn sequence_text(alloc: Global, program: &[u8], script: &[u8]) -> Result<Vec<u8>, Failure>
    ensures written { IfOk result (λ text. IsSequenceOf program.now script.now text.items) }
    ensures refused { IfErr result (λ no. FailsFor (OnSource program.now
        (λ p. Passed (As source_failed (SequenceOf p script.now)))) (failure_of no)) }
{
    let compiled = compile_sequence(alloc, program, script)?;
    Ok(compiled.text)
}

// A line for each term that the steps of a script make of a program.
fn step_lines(alloc: Global, program: &[u8], script: &[u8]) -> Result<Vec<u8>, Failure>
    ensures written { IfOk result (λ text. IsStepsText program.now script.now text.items) }
    ensures refused { IfErr result (λ no. FailsFor (OnSource program.now
        (λ p. Passed (As source_failed (TermsOf p script.now)))) (failure_of no)) }
{
    let text = steps_text(alloc, program, script)?;
    Ok(text)
}

/// What a command writes for the texts of its files, in their order. It fails just where one of
/// the command's stages stops, for the first in their order. Want of memory may come at any point.
pub fn command_text(alloc: Global, command: Command, texts: &[Vec<u8>]) -> Result<Vec<u8>, Failure>
    ensures written { IfOk result
        (λ text. Writes command (map (λ text. text.items) texts.now) text.items) }
    ensures refused { IfErr result (λ no. (failure_of no ≡ failures.Memory)
        ⊎ Stops command (map (λ text. text.items) texts.now) (failure_of no)) }
{
    let first = text_at(texts, 0);
    let second = text_at(texts, 1);
    match command {
        Command::Compile => kernel_text(alloc, first, second),
        Command::Run { trace } => run_text(alloc, first, second, text_at(texts, 2), trace),
        Command::Cost { items } => cost_text(alloc, first, second, text_at(texts, 2), items),
        Command::Eval => eval_text(alloc, first, second),
        Command::Steps => step_lines(alloc, first, second),
        Command::Stages => sequence_text(alloc, first, second),
        Command::RunStages => run_stages_text(alloc, first, second, text_at(texts, 2)),
        Command::Demo { seed } => demo_text(alloc, seed),
    }
}
