//! The demo's run.
ghost use Rattle.std.specs.Prelude.{◌≡◌, IfErr, IfOk};
ghost use Rattle.lift_tree.specs.Programs.{program_of};
ghost use Rattle.lift_tree.specs.Types.{ty_of};
ghost use Rattle.demo_program.specs.Data.{demo_given};
ghost use Rattle.fault_lines.specs.Failure as failures;
ghost use Rattle.fault_lines.specs.Shown.{failure_of};
ghost use Rattle.program_runs.specs.Demo.{IsDemoLine, IsLineOfDemo};
ghost use Rattle.lift_tree.specs.FixedSizes.{asked};
ghost use Rattle.program_runs.specs.Runs.{IsAdmissibleFor};

use crate::laws::one_end;
use crate::run::{lines_of, run_back};
use compilation::laws::compilation_ends_once;
use compilation::{Compiled, compile_text};
use demo_program::data::demo_launch;
use demo_program::laws::{demo_is_accepted, demos_may_run};
use demo_program::line::demo_line;
use demo_program::sum::wrapped_sum;
use demo_program::texts::{program, script};
use fault_lines::Failure;
use lowered_tree::laws::legal_without_fault;
use std::alloc::{AllocError, Global};

// The line of the run of what is read back from the text, on the data of the seed. The run isn't
// traced: behind its events' lines, of which there are none, stands the demo's.
fn seeded_line(alloc: Global, compiled: &Compiled, seed: u32) -> Result<Vec<u8>, AllocError>
    requires { IsAdmissibleFor (program_of compiled.now.program)
        (asked compiled.now.asks) (demo_given seed) }
    ensures { IfOk result (λ line. IsLineOfDemo (program_of compiled.now.program)
        (ty_of compiled.now.output) compiled.now.text.items seed line.items) }
{
    let file = demo_launch(alloc, seed)?;
    let (outcome, seen) = run_back(alloc, compiled, &file, false)?;
    let sum = wrapped_sum(&outcome.outputs);
    let line = demo_line(alloc, seed, (outcome.events, outcome.releases), sum)?;
    lines_of(alloc, &seen, line)
}

/// The line of the demo at a seed: its program is compiled along its script, and what is read back
/// from the text is run at its launch, on the data and under the schedule of the seed. No stage
/// refuses it; memory may run out.
pub fn demo_text(alloc: Global, seed: u32) -> Result<Vec<u8>, Failure>
    ensures found { IfOk result (λ line. IsDemoLine seed line.items) }
    ensures refused { IfErr result (λ failure. failure_of failure ≡ failures.Memory) }
{
    one_end();
    compilation_ends_once();
    legal_without_fault();
    demo_is_accepted();
    demos_may_run();
    let compiled = compile_text(alloc, program(), script())?;
    Ok(seeded_line(alloc, &compiled, seed)?)
}
