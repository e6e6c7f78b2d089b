//! The run of the text of a kernel.
ghost use Rattle.std.specs.Prelude.{◌≡◌, ◌++◌, [], false, true, IfErr, IfOk, Some, map};
ghost use Rattle.kernel_tree.specs.Kernels.{kernel_of};
ghost use Rattle.kernel_tree.specs.KernelText.{IsKernelText, lift};
ghost use Rattle.kernel_tree.specs.Launch as shown;
ghost use Rattle.kernel_tree.specs.Schedule.{schedule_of};
ghost use Rattle.ndrange_device.specs.Outcomes.{EndsUnder, Refuses, SeesRun};
ghost use Rattle.lift_tree.specs.Launches.{lists_of};
ghost use Rattle.lift_tree.specs.Programs.{program_of};
ghost use Rattle.lift_tree.specs.Types.{ty_of};
ghost use Rattle.value_lists.specs.Lists.{value_in};
ghost use Rattle.launch_file.specs.LaunchFile.{given_by};
ghost use Rattle.launch_file.specs.ResultLine.{result_line};
ghost use Rattle.launch_file.specs.TraceLines.{trace_lines};
ghost use Rattle.fault_lines.specs.Shown.{failure_of};
ghost use Rattle.program_source.specs.Ends.{FailsFor, IsFailedFor, OnSource};
ghost use Rattle.program_source.specs.Program.{source_value};
ghost use Rattle.lift_tree.specs.FixedSizes.{asked};
ghost use Rattle.program_runs.specs.Runs.{AreLinesOfText, IsAdmissibleFor, RunsText, world_given};
ghost use Rattle.program_runs.specs.Started.{AreRunLines, RunOf};

use crate::cells::begun;
use crate::laws::one_end;
use compilation::{Compiled, compile_text};
use fault_lines::Failure;
use kernel_reader::{KernelNo, read_kernel};
use kernel_spelling::one_kernel;
use kernel_tree::events::Seen;
use kernel_tree::launches;
use kernel_tree::launches::{Cells, Schedule};
use kernel_tree::laws::one_scheduled_run;
use kernel_tree::tree::Kernel;
use launch_file::file::{Ask, LaunchFile, read_launch};
use launch_file::result::listed_text;
use launch_file::trace::trace_text;
use lift_tree::laws::values_have_their_types;
use ndrange_device::{DeviceNo, Outcome, launch};
use program_source::laws::typed_programs_are_proper;
use std::alloc::{AllocError, Global};
use value_lists::laws::{components_are_counted, lists_have_lengths, lists_hold_one_value};

// The kernel that is read back from the text.
fn read_back(alloc: Global, compiled: &Compiled) -> Result<Kernel, AllocError>
    ensures { IfOk result (λ k. IsKernelText lift compiled.now.text.items (kernel_of k)) }
{
    match read_kernel(alloc, compiled.text.as_slice()) {
        Ok(kernel) => Ok(kernel),
        Err(KernelNo::Memory) => Err(AllocError),
        Err(KernelNo::Syntax { .. }) => unreachable!(),
    }
}

// The launch once more.
fn copied(alloc: Global, launch: &launches::Launch) -> Result<launches::Launch, AllocError>
    ensures { IfOk result (λ copy. copy ≡ launch.now) }
{
    Ok(launches::Launch {
        global: launch.global,
        local: launch.local,
        sizes: launch.sizes.as_slice().to_vec(alloc)?,
    })
}

// What a run leaves, and what is seen of it, where it is traced.
fn traced_launch(
    alloc: Global,
    kernel: Kernel,
    at: launches::Launch,
    cells: Cells,
    schedule: &Schedule,
    traced: bool,
) -> Result<(Outcome, Vec<Seen>), DeviceNo>
    requires may_start { shown.MayStart (kernel_of kernel) at cells }
    ensures outcome { IfOk result (λ ran. EndsUnder (schedule_of schedule.now) (kernel_of kernel)
        at cells (map (λ row. row.items) ran.0.outputs.items) ran.0.events ran.0.releases) }
    ensures refusal { IfErr result
        (Refuses (schedule_of schedule.now) (kernel_of kernel) at cells) }
    ensures traced { IfOk result (λ ran. traced ≡ true
        → SeesRun (schedule_of schedule.now) (kernel_of kernel) at cells ran.1.items) }
    ensures untraced { IfOk result (λ ran. traced ≡ false → ran.1.items ≡ []) }
{
    let mut seen = Vec::new(alloc);
    let outcome = if traced {
        launch(alloc, kernel, at, cells, schedule, Some(&mut seen))?
    } else {
        launch(alloc, kernel, at, cells, schedule, None)?
    };
    Ok((outcome, seen))
}

// What the run of what is read back from the text leaves, under the schedule of the file, and what
// is seen of it, where it is traced.
pub(crate) fn run_back(
    alloc: Global,
    compiled: &Compiled,
    file: &LaunchFile,
    traced: bool,
) -> Result<(Outcome, Vec<Seen>), AllocError>
    requires { IsAdmissibleFor (program_of compiled.now.program)
        (asked compiled.now.asks) (given_by file.now) }
    ensures left { IfOk result (λ ran. map (λ l. l.items) ran.0.outputs.items
        ≡ lists_of (ty_of compiled.now.output)
        (source_value (program_of compiled.now.program) (world_given (given_by file.now)))) }
    ensures run { IfOk result (λ ran. RunsText (program_of compiled.now.program)
        (ty_of compiled.now.output) compiled.now.text.items (given_by file.now) traced
        ran.0.events ran.0.releases ran.1.items) }
{
    one_scheduled_run();
    lists_have_lengths();
    values_have_their_types();
    one_kernel();
    let kernel = read_back(alloc, compiled)?;
    let at = copied(alloc, &file.launch)?;
    let cells = begun(alloc, compiled, file)?;
    match traced_launch(alloc, kernel, at, cells, &file.schedule, traced) {
        Ok(ran) => Ok(ran),
        Err(DeviceNo::Memory) => Err(AllocError),
        Err(DeviceNo::Fault { .. }) => unreachable!(),
    }
}

// The line of the value that the output's lists hold, and of the counts.
fn line_left(
    alloc: Global,
    compiled: &Compiled,
    file: &LaunchFile,
    outs: &[Vec<u32>],
    counts: (u64, u64),
) -> Result<Vec<u8>, AllocError>
    requires admissible { IsAdmissibleFor (program_of compiled.now.program)
        (asked compiled.now.asks) (given_by file.now) }
    requires left { map (λ l. l.items) outs.now ≡ lists_of (ty_of compiled.now.output)
        (source_value (program_of compiled.now.program) (world_given (given_by file.now))) }
    ensures { IfOk result (λ line. line.items ≡ result_line (value_in (given_by file.now).bases
        (ty_of compiled.now.output) (map (λ l. l.items) outs.now) 0 0) (Some counts)) }
{
    components_are_counted();
    listed_text(alloc, &compiled.output, &file.sizes, outs, Some(counts))
}

// The lines of what is seen of a run, and then its last line, which is all where nothing is seen.
pub(crate) fn lines_of(alloc: Global, seen: &[Seen], last: Vec<u8>) -> Result<Vec<u8>, AllocError>
    ensures { IfOk result (λ lines. lines.items ≡ trace_lines seen.now ++ last.items) }
{
    if seen.is_empty() {
        return Ok(last);
    }
    let mut lines = trace_text(alloc, seen)?;
    lines.extend_from_slice(&last)?;
    Ok(lines)
}

/// The run of what is read back from the text, at the launch and on the inputs of a launch file,
/// which are admissible for the program, under the file's schedule: with `trace` a line for each
/// event, and then the result line. No run of it has a fault, and its value is the program's.
pub fn run_launch(
    alloc: Global,
    compiled: &Compiled,
    file: &LaunchFile,
    trace: bool,
) -> Result<Vec<u8>, AllocError>
    requires { IsAdmissibleFor (program_of compiled.now.program)
        (asked compiled.now.asks) (given_by file.now) }
    ensures { IfOk result (λ lines. AreLinesOfText (program_of compiled.now.program)
        (ty_of compiled.now.output) compiled.now.text.items (given_by file.now) trace lines.items) }
{
    lists_hold_one_value();
    values_have_their_types();
    let (outcome, seen) = run_back(alloc, compiled, file, trace)?;
    let counts = (outcome.events, outcome.releases);
    let line = line_left(alloc, compiled, file, &outcome.outputs, counts)?;
    lines_of(alloc, &seen, line)
}

/// The run of a program, a script and a launch file: compiles, runs what is read back from the
/// text at the launch that the file gives, and tells of it as [`run_launch`] does. It fails just
/// where a stage stops, for the first in their order: those of [`compile_text`], then the launch
/// file's. Want of memory may come at any point.
pub fn run_text(
    alloc: Global,
    program: &[u8],
    script: &[u8],
    launch: &[u8],
    trace: bool,
) -> Result<Vec<u8>, Failure>
    ensures found { IfOk result
        (λ lines. AreRunLines program.now script.now launch.now trace lines.items) }
    ensures refused { IfErr result (λ failure. FailsFor
        (OnSource program.now (λ p. RunOf p script.now launch.now)) (failure_of failure)) }
    ensures exact { IsFailedFor (OnSource program.now (λ p. RunOf p script.now launch.now)) result }
{
    one_end();
    typed_programs_are_proper();
    let compiled = compile_text(alloc, program, script)?;
    match read_launch(alloc, launch, &compiled.program, Ask::Run(compiled.asks)) {
        Ok(file) => Ok(run_launch(alloc, &compiled, &file, trace)?),
        Err(no) => Err(Failure::for_launch(compiled.program, no)),
    }
}
