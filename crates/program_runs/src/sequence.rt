//! The runs of several kernels in order, each on what those before it left.
ghost use Rattle.std.specs.Prelude.{◌≡◌, ◌+◌, ℕ, IfErr, IfOk, Option, map};
ghost use Rattle.kernel_spelling.specs.SequenceText.{IsSequenceText};
ghost use Rattle.kernel_tree.specs.Kernels.{kernel_of};
ghost use Rattle.kernel_tree.specs.Launch as shown;
ghost use Rattle.kernel_tree.specs.declared.events.Cell.{Cell};
ghost use Rattle.kernel_tree.specs.declared.events.FaultKind.{FaultKind};
ghost use Rattle.ndrange_device.specs.Outcomes.{EndsUnder, FaultsUnder, capped};
ghost use Rattle.lift_tree.specs.Launches.{buffers_of, lists_of};
ghost use Rattle.lift_tree.specs.Programs.{program_of};
ghost use Rattle.lift_tree.specs.Types.{ty_of};
ghost use Rattle.lift_tree.specs.Typing.{declared_by};
ghost use Rattle.launch_file.specs.LaunchFile.{ask_of};
ghost use Rattle.launch_file.specs.StagesShown.{count_of, given_in_order, shared_of};
ghost use Rattle.fault_lines.specs.Shown.{failure_of};
ghost use Rattle.program_source.specs.Ends.{FailsFor, IsFailedFor, OnSource};
ghost use Rattle.program_source.specs.Program.{source_value};
ghost use Rattle.compilation.specs.Sequence.{outline_of};
ghost use Rattle.program_runs.specs.Sequences.{AreAdmissibleFor, AreRunInTurn, IsSequenceLine, launch_at, world_in};
ghost use Rattle.program_runs.specs.Started.{IsRunStagesLine, RunStagesOf, asks_in_order};

use crate::cells::{begun_from, input_lists};
use crate::laws::one_end;
use compilation::{CompiledSequence, KernelOutline, compile_sequence};
use fault_lines::Failure;
use kernel_reader::{KernelNo, read_sequence};
use kernel_spelling::texts_are_of_one_sequence;
use kernel_tree::launches::{Cells, Launch};
use kernel_tree::laws::inputs_stay;
use kernel_tree::tree::Kernel;
use launch_file::file::Ask;
use launch_file::result::listed_text;
use launch_file::stages::{Count, Shared, StagesFile, read_stages};
use lift_tree::laws::values_have_their_types;
use ndrange_device::{DeviceNo, Outcome, launch};
use program_source::laws::typed_programs_are_proper;
use std::alloc::{AllocError, Global};
use value_lists::laws::{components_are_counted, lists_hold_one_value};

// The kernels that are read back from the text.
fn read_back(alloc: Global, compiled: &CompiledSequence) -> Result<Vec<Kernel>, AllocError>
    ensures { IfOk result (λ ks. IsSequenceText compiled.now.text.items (map kernel_of ks.items)) }
{
    match read_sequence(alloc, compiled.text.as_slice()) {
        Ok(kernels) => Ok(kernels),
        Err(KernelNo::Memory) => Err(AllocError),
        Err(KernelNo::Syntax { .. }) => unreachable!(),
    }
}

// The launch of so many work-items, at these sizes.
fn launch_at(alloc: Global, sizes: &[u32], count: Count) -> Result<Launch, AllocError>
    ensures { IfOk result (λ l. l ≡ launch_at sizes.now (count_of count)) }
{
    Ok(Launch {
        global: count.global,
        local: count.local,
        sizes: sizes.to_vec(alloc)?,
    })
}

// What a run of a kernel leaves at so many work-items, under the schedule from its beginning.
fn run_kernel(
    alloc: Global,
    kernel: Kernel,
    shared: &Shared,
    count: Count,
    cells: Cells,
) -> Result<Outcome, AllocError>
    requires may_start { shown.MayStart (kernel_of kernel)
        (launch_at (shared_of shared.now).sizes (count_of count)) cells }
    requires clean { (kind : FaultKind) (event item : ℕ) (cell : Option Cell)
        → ¬ FaultsUnder (shared_of shared.now).schedule (kernel_of kernel)
        (launch_at (shared_of shared.now).sizes (count_of count)) cells kind event item cell }
    ensures { IfOk result (λ ran. EndsUnder (shared_of shared.now).schedule (kernel_of kernel)
        (launch_at (shared_of shared.now).sizes (count_of count)) cells
        (map (λ row. row.items) ran.outputs.items) ran.events ran.releases) }
{
    let at = launch_at(alloc, &shared.sizes, count)?;
    match launch(alloc, kernel, at, cells, &shared.schedule, None) {
        Ok(ran) => Ok(ran),
        Err(DeviceNo::Memory) => Err(AllocError),
        Err(DeviceNo::Fault { .. }) => unreachable!(),
    }
}

// What a run leaves that follows others, and the counts of all together.
fn followed(before: &Outcome, ran: Outcome) -> Outcome
    ensures outputs { result.outputs ≡ ran.outputs }
    ensures events { result.events ≡ capped (before.now.events + ran.events) }
    ensures releases { result.releases ≡ capped (before.now.releases + ran.releases) }
{
    Outcome {
        outputs: ran.outputs,
        events: before.events.saturating_add(ran.events),
        releases: before.releases.saturating_add(ran.releases),
    }
}

// What the last of the kernels leaves, where each is run on the inputs and on all that those before
// it left, and the counts of all runs together.
fn run_in_turn(
    alloc: Global,
    compiled: &CompiledSequence,
    kernels: Vec<Kernel>,
    shared: &Shared,
    counts: &[Count],
    inputs: Vec<Vec<u32>>,
) -> Result<Outcome, AllocError>
    requires read { IsSequenceText compiled.now.text.items (map kernel_of kernels.items) }
    requires admissible { AreAdmissibleFor (program_of compiled.now.program)
        (map outline_of compiled.now.outlines.items)
        (record { shared = shared_of shared.now; counts = map count_of counts.now }) }
    requires inputs { map (λ l. l.items) inputs.items
        ≡ buffers_of (declared_by (program_of compiled.now.program)).inputs
        (shared_of shared.now).inputs }
    ensures run { IfOk result (λ ran. AreRunInTurn (shared_of shared.now)
        (map (λ l. l.items) inputs.items) (map kernel_of kernels.items)
        (map outline_of compiled.now.outlines.items) (map count_of counts.now)
        ran.events ran.releases) }
    ensures left { IfOk result (λ ran. map (λ l. l.items) ran.outputs.items
        ≡ lists_of (ty_of compiled.now.output) (source_value (program_of compiled.now.program)
        (world_in (shared_of shared.now)))) }
{
    inputs_stay();
    texts_are_of_one_sequence();
    let mut inputs = inputs;
    let mut ran = Outcome {
        outputs: Vec::new(alloc),
        events: 0,
        releases: 0,
    };
    for (number, kernel) in kernels.into_iter().enumerate() {
        let count = &counts[number];
        inputs.append(&mut ran.outputs)?;
        let output = &compiled.outlines[number].output;
        let cells = begun_from(alloc, &inputs, output, &shared.bases)?;
        ran = followed(&ran, run_kernel(alloc, kernel, shared, *count, cells)?);
    }
    Ok(ran)
}

/// The runs in order of what is read back from the text, at the launches and on the inputs of a
/// launch file, which are admissible for the program, each under the file's schedule from its
/// beginning: the result line, with the counts of all runs together. No run has a fault, and the
/// value that the last leaves is the program's.
pub fn run_sequence(
    alloc: Global,
    compiled: &CompiledSequence,
    file: &StagesFile,
) -> Result<Vec<u8>, AllocError>
    requires { AreAdmissibleFor (program_of compiled.now.program)
        (map outline_of compiled.now.outlines.items) (given_in_order file.now) }
    ensures { IfOk result (λ line. IsSequenceLine (program_of compiled.now.program)
        (map outline_of compiled.now.outlines.items) compiled.now.text.items
        (given_in_order file.now) line.items) }
{
    components_are_counted();
    lists_hold_one_value();
    texts_are_of_one_sequence();
    values_have_their_types();
    let kernels = read_back(alloc, compiled)?;
    let inputs = input_lists(alloc, &compiled.program, &file.shared.inputs)?;
    let ran = run_in_turn(alloc, compiled, kernels, &file.shared, &file.counts, inputs)?;
    let counts = Some((ran.events, ran.releases));
    listed_text(
        alloc,
        &compiled.output,
        &file.shared.bases,
        &ran.outputs,
        counts,
    )
}

// How the launch of each kernel is asked for.
fn launch_asks(alloc: Global, outlines: &[KernelOutline]) -> Result<Vec<Ask>, AllocError>
    ensures { IfOk result
        (λ asks. map ask_of asks.items ≡ asks_in_order (map outline_of outlines.now)) }
{
    let mut asks = Vec::new(alloc);
    for outline in outlines {
        asks.push(Ask::Run(outline.asks))?;
    }
    Ok(asks)
}

/// The runs in order of the kernels of a program and a script, at a launch file: compiles, runs
/// what is read back from the text, kernel by kernel, and tells of it as [`run_sequence`] does. It
/// fails just where a stage stops, for the first in their order: those of [`compile_sequence`],
/// then the launch file's. Want of memory may come at any point.
pub fn run_stages_text(
    alloc: Global,
    program: &[u8],
    script: &[u8],
    launch: &[u8],
) -> Result<Vec<u8>, Failure>
    ensures found { IfOk result
        (λ line. IsRunStagesLine program.now script.now launch.now line.items) }
    ensures refused { IfErr result (λ failure. FailsFor
        (OnSource program.now (λ p. RunStagesOf p script.now launch.now)) (failure_of failure)) }
    ensures exact { IsFailedFor (OnSource program.now (λ p. RunStagesOf p script.now launch.now))
        result }
{
    one_end();
    typed_programs_are_proper();
    let compiled = compile_sequence(alloc, program, script)?;
    let asks = launch_asks(alloc, &compiled.outlines)?;
    match read_stages(alloc, launch, &compiled.program, &asks) {
        Ok(file) => Ok(run_sequence(alloc, &compiled, &file)?),
        Err(no) => Err(Failure::for_launch(compiled.program, no)),
    }
}
