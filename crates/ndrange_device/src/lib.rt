//! Whole runs of kernels along a schedule, up to their end or their first fault.
#![tactic(auto)]

ghost use Rattle.std.specs.Prelude.{◌≡◌, ◌%◌, ◌<◌, ◌∷◌, ◌++◌, [], map, IfOk, IfErr, OnOk, OnErr};
ghost use Rattle.kernel_tree.specs.Kernels.{kernel_of};
ghost use Rattle.kernel_tree.specs.Launch as seen;
ghost use Rattle.kernel_tree.specs.Schedule.{schedule_of, in_order};
ghost use Rattle.ndrange_machine.specs.Stands.{StandsFor};
ghost use Rattle.ndrange_device.specs.Outcomes.{Begun, EndsUnder, FaultsUnder, Gets, GetsIfThere, Refuses, Sees};

mod outcome;
pub mod progress;

use count_tree::steps::Steps;
use kernel_tree::events::Seen;
use kernel_tree::launches;
use kernel_tree::launches::{Cells, Schedule};
use kernel_tree::tree::Kernel;
use ndrange_machine::Machine;
use outcome::{FaultFound, found};
pub use outcome::{DeviceNo, Outcome};
use progress::Progress;
use std::alloc::{AllocError, Global};
use std::marker::Brand;
use std::sync::ledger::{Blank, Ledger};

/// Runs a kernel: of the enabled events, in the order of the work-items, the schedule says which
/// comes next, until there is none or one is a fault. What is seen of the events is added to the
/// trace, where there is one. All memory but the trace's is taken before the first event.
pub fn launch(
    alloc: Global,
    kernel: Kernel,
    launch: launches::Launch,
    cells: Cells,
    schedule: &Schedule,
    trace: Option<&mut Vec<Seen>>,
) -> Result<Outcome, DeviceNo>
    requires may_start { seen.MayStart (kernel_of kernel) launch cells }
    ensures outcome { IfOk result (λ o. EndsUnder (schedule_of schedule.now) (kernel_of kernel)
        launch cells (map (λ row. row.items) o.outputs.items) o.events o.releases) }
    ensures refusal { IfErr result
        (Refuses (schedule_of schedule.now) (kernel_of kernel) launch cells) }
    ensures trace { GetsIfThere (Sees (schedule_of schedule.now) (kernel_of kernel) launch cells
        result) trace.entry trace.exit }
{
    let blank = Blank::new(1);
    match trace {
        Some(trace) => run_traced::<Brand>(alloc, kernel, launch, cells, schedule, trace, blank),
        None => run::<Brand>(alloc, kernel, launch, cells, schedule, blank),
    }
}

/// Runs a kernel in order: of the enabled events the first, in the order of the work-items, comes
/// next.
pub fn run_in_order(
    alloc: Global,
    kernel: Kernel,
    launch: launches::Launch,
    cells: Cells,
) -> Result<Outcome, DeviceNo>
    requires may_start { seen.MayStart (kernel_of kernel) launch cells }
    ensures outcome { IfOk result (λ o. EndsUnder in_order (kernel_of kernel)
        launch cells (map (λ row. row.items) o.outputs.items) o.events o.releases) }
    ensures refusal { IfErr result (Refuses in_order (kernel_of kernel) launch cells) }
{
    let schedule = Schedule::Numbers(Vec::new(alloc));
    crate::launch(alloc, kernel, launch, cells, &schedule, None)
}

// A kernel's run without a trace.
fn run<L: Ledger>(
    alloc: Global,
    kernel: Kernel,
    launch: launches::Launch,
    cells: Cells,
    schedule: &Schedule,
    blank: Blank,
) -> Result<Outcome, DeviceNo>
    ghost begun: { Begun }
    requires name { blank.name ≡ L.name }
    requires parts { blank.parts ≡ L.parts }
    requires some { 0 < blank.parts }
    requires may_start { seen.MayStart (kernel_of kernel) launch cells }
    requires begun { begun ≡ record { kernel = kernel_of kernel; launch = launch; cells = cells } }
    ensures outcome { IfOk result (λ o. EndsUnder (schedule_of schedule.now) (kernel_of kernel)
        launch cells (map (λ row. row.items) o.outputs.items) o.events o.releases) }
    ensures refusal { IfErr result
        (Refuses (schedule_of schedule.now) (kernel_of kernel) launch cells) }
{
    let machine = Machine::start(alloc, kernel, launch, cells)?;
    Ok(follow::<L>(machine, schedule, blank)?)
}

// A run from its start, whose events are counted for the proof that it ends. It takes no memory.
fn follow<L: Ledger>(
    machine: Machine,
    schedule: &Schedule,
    blank: Blank,
) -> Result<Outcome, FaultFound>
    ghost begun: { Begun }
    requires name { blank.name ≡ L.name }
    requires parts { blank.parts ≡ L.parts }
    requires some { 0 < blank.parts }
    requires starts { StandsFor begun.kernel begun.launch begun.cells machine [] }
    ensures outcome { IfOk result (λ o. EndsUnder (schedule_of schedule.now) begun.kernel
        begun.launch begun.cells (map (λ row. row.items) o.outputs.items) o.events o.releases) }
    ensures fault { IfErr result (λ f. FaultsUnder (schedule_of schedule.now) begun.kernel
        begun.launch begun.cells f.kind f.event f.item f.cell) }
{
    let mut machine = machine;
    let mut steps = Steps::<L>::new(blank);
    let mut progress = Progress::start(schedule);
    let mut enabled = machine.enabled();
    while enabled > 0 {
        let event = machine.nth_enabled(within(progress.number(schedule), enabled));
        progress.count(event);
        steps.tick();
        let fault = machine.advance(event);
        if let Some(no) = found(event, fault, progress.events) {
            return Err(no);
        }
        enabled = machine.enabled();
    }
    Ok(Outcome {
        outputs: machine.outputs(),
        events: progress.events,
        releases: progress.releases,
    })
}

// A kernel's run with a trace, whose events are counted for the proof that it ends.
fn run_traced<L: Ledger>(
    alloc: Global,
    kernel: Kernel,
    launch: launches::Launch,
    cells: Cells,
    schedule: &Schedule,
    trace: &mut Vec<Seen>,
    blank: Blank,
) -> Result<Outcome, DeviceNo>
    requires name { blank.name ≡ L.name }
    requires parts { blank.parts ≡ L.parts }
    requires some { 0 < blank.parts }
    requires may_start { seen.MayStart (kernel_of kernel) launch cells }
    ensures outcome { IfOk result (λ o. EndsUnder (schedule_of schedule.now) (kernel_of kernel)
        launch cells (map (λ row. row.items) o.outputs.items) o.events o.releases) }
    ensures refusal { IfErr result
        (Refuses (schedule_of schedule.now) (kernel_of kernel) launch cells) }
    ensures trace { Gets (Sees (schedule_of schedule.now) (kernel_of kernel) launch cells result)
        trace.old.items trace.new.items }
{
    let mut machine = Machine::start(alloc, kernel, launch, cells)?;
    let mut steps = Steps::<L>::new(blank);
    let mut progress = Progress::start(schedule);
    let mut enabled = machine.enabled();
    while enabled > 0 {
        let event = machine.nth_enabled(within(progress.number(schedule), enabled));
        progress.count(event);
        steps.tick();
        let seen = machine.step(event);
        note(trace, seen)?;
        if let Some(no) = found(event, seen.fault, progress.events) {
            return Err(DeviceNo::from(no));
        }
        enabled = machine.enabled();
    }
    Ok(Outcome {
        outputs: machine.outputs(),
        events: progress.events,
        releases: progress.releases,
    })
}

// Adds what is seen to the trace.
fn note(trace: &mut Vec<Seen>, seen: Seen) -> Result<(), AllocError>
    ensures ok { OnOk result (trace.new.items ≡ trace.old.items ++ seen ∷ []) }
    ensures err { OnErr result (trace.new.items ≡ trace.old.items) }
{
    trace.push(seen)?;
    Ok(())
}

// A number among so many, round and round. Most are below already.
#[inline(always)]
fn within(number: u32, count: u32) -> u32
    requires { 0 < count }
    ensures { result ≡ number % count }
{
    if number < count {
        number
    } else {
        number % count
    }
}
