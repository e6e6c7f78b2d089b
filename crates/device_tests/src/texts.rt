//! Kernels by their texts, with one output and at most one input, run by some work-items.

ghost use Rattle.std.specs.Prelude.{◌≡◌, ◌⊎◌, true, Some, None, IfSome};
ghost use Rattle.kernel_tree.specs.Kernels.{kernel_of};
ghost use Rattle.kernel_tree.specs.Launch as seen;
ghost use Rattle.device_tests.specs.Tasks.{AreWhole};

use kernel_reader::read_kernel;
use kernel_tree::events::{Cell, Event, FaultKind, Seen};
use kernel_tree::launches::{Cells, Launch, Schedule};
use kernel_tree::tree::{Array, Kernel};
use ndrange_device::{DeviceNo, Outcome, launch};
use ndrange_machine::Machine;
use std::alloc::{AllocError, Global};

/// A kernel's text, how many work-items run it, and in groups of how many; the words of each input,
/// the sizes, and how many cells the output has, which are 0 at first. All other memory holds 9.
#[derive(Clone, Copy)]
pub struct Run {
    pub text: &'static str,
    pub global: (u32, u32),
    pub local: (u32, u32),
    pub input: &'static [u32],
    pub sizes: &'static [u32],
    pub output: usize,
}

/// The first cell of the output.
pub const OUTPUT: Cell = Cell {
    array: Array::Output(0),
    index: 0,
};

/// The output's cell at this index.
pub const fn output_cell(index: u64) -> Cell {
    Cell {
        array: Array::Output(0),
        index,
    }
}

// A kernel, and the launch and the cells at which it is to be started.
#[derive(Drop)]
struct Task {
    kernel: Kernel,
    launch: Launch,
    cells: Cells,
}

// The run's task; none where it can't begin.
fn task_of(alloc: Global, run: &Run) -> Option<Task>
    ensures { IfSome result (λ t. seen.MayStart (kernel_of t.kernel) t.launch t.cells) }
{
    task_for(alloc, run.text.as_bytes(), run)
}

// The task of a text, with all but the text as the run says; none where it can't begin.
fn task_for(alloc: Global, text: &[u8], run: &Run) -> Option<Task>
    ensures { IfSome result (λ t. seen.MayStart (kernel_of t.kernel) t.launch t.cells) }
{
    let kernel = read_kernel(alloc, text).ok()?;
    let launch = Launch {
        global: run.global,
        local: run.local,
        sizes: run.sizes.to_vec(alloc).ok()?,
    };
    let cells = cells(alloc, run, kernel.inputs).ok()?;
    if may_start(&kernel, &launch, &cells) {
        Some(Task {
            kernel,
            launch,
            cells,
        })
    } else {
        None
    }
}

fn cells(alloc: Global, run: &Run, inputs: u32) -> Result<Cells, AllocError> {
    let mut ins = Vec::new(alloc);
    for _ in 0..inputs {
        ins.push(run.input.to_vec(alloc)?)?;
    }
    let output = vec![in alloc; 0; run.output]?;
    Ok(Cells {
        ins,
        outs: vec![in alloc; output]?,
        rest: 9,
    })
}

// Whether the kernel may be started so.
fn may_start(kernel: &Kernel, launch: &Launch, cells: &Cells) -> bool
    ensures { result ≡ true → seen.MayStart (kernel_of kernel.now) launch.now cells.now }
{
    are_whole(launch)
        && group_fits(kernel.local, launch.local)
        && launch.sizes.len() == kernel.sizes as usize
        && cells.ins.len() == kernel.inputs as usize
        && cells.outs.len() == kernel.outputs as usize
}

// Whether there are few work-items, in whole groups of few.
fn are_whole(launch: &Launch) -> bool
    ensures { result ≡ true → AreWhole launch.now }
{
    let (columns, rows) = launch.global;
    let (across, down) = launch.local;
    is_divided(columns, across)
        && is_divided(rows, down)
        && across as u64 * down as u64 <= 256
        && columns as u64 * rows as u64 <= 65536
}

fn is_divided(global: u32, local: u32) -> bool
    ensures { result ≡ true → seen.IsDivided global local }
{
    local > 0 && global / local * local == global
}

// Whether the kernel's groups may have this size.
fn group_fits(wanted: Option<(u32, u32)>, local: (u32, u32)) -> bool
    ensures { result ≡ true → (wanted ≡ None) ⊎ (wanted ≡ Some local) }
{
    match wanted {
        None => true,
        Some(wanted) => wanted.0 == local.0 && wanted.1 == local.1,
    }
}

/// The run along the numbers, as far as it goes; none where it can't begin.
pub fn ran(alloc: Global, run: &Run, numbers: &[u32]) -> Option<Result<Outcome, DeviceNo>> {
    let Task {
        kernel,
        launch: launched,
        cells,
    } = task_of(alloc, run)?;
    let schedule = Schedule::Numbers(numbers.to_vec(alloc).ok()?);
    Some(launch(alloc, kernel, launched, cells, &schedule, None))
}

/// What is seen of the run along the numbers; none where it can't begin.
pub fn traced(alloc: Global, run: &Run, numbers: &[u32]) -> Option<Vec<Seen>> {
    let Task {
        kernel,
        launch: launched,
        cells,
    } = task_of(alloc, run)?;
    let schedule = Schedule::Numbers(numbers.to_vec(alloc).ok()?);
    let mut seen = Vec::new(alloc);
    match launch(alloc, kernel, launched, cells, &schedule, Some(&mut seen)) {
        Err(DeviceNo::Memory) => None,
        _ => Some(seen),
    }
}

/// The machine at the start of the run; none where it can't begin.
pub fn started(alloc: Global, run: &Run) -> Option<Machine> {
    let Task {
        kernel,
        launch,
        cells,
    } = task_of(alloc, run)?;
    Machine::start(alloc, kernel, launch, cells).ok()
}

/// Whether the run along the numbers ends with this fault, at this event, of this work-item.
pub fn fails(
    alloc: Global,
    run: &Run,
    numbers: &[u32],
    want: (FaultKind, u64, u32, Option<Cell>),
) -> bool {
    match ran(alloc, run, numbers) {
        Some(
            Err(
                DeviceNo::Fault {
                    kind,
                    event,
                    item,
                    cell,
                },
            ),
        ) => kind == want.0 && event == want.1 && item == want.2 && cell == want.3,
        _ => false,
    }
}

/// Whether the run in order ends after so many events and releases.
pub fn ends(alloc: Global, run: &Run, events: u64, releases: u64) -> bool {
    match ran(alloc, run, &[]) {
        Some(Ok(outcome)) => outcome.events == events && outcome.releases == releases,
        _ => false,
    }
}

/// Whether the run in order leaves these words after so many events and releases.
pub fn leaves(alloc: Global, run: &Run, words: &[u32], events: u64, releases: u64) -> bool {
    match ran(alloc, run, &[]) {
        Some(Ok(outcome)) => {
            outcome.outputs.len() == 1
                && outcome.outputs[0].as_slice() == words
                && outcome.events == events
                && outcome.releases == releases
        }
        _ => false,
    }
}

/// Whether a text, with all but the text as the run says, leaves this word in order
/// after so many events.
pub fn text_leaves(alloc: Global, text: &[u8], run: &Run, word: u32, events: u64) -> bool {
    let Some(
        Task {
            kernel,
            launch: launched,
            cells,
        },
    ) = task_for(alloc, text, run)
    else {
        return false;
    };
    let schedule = Schedule::Numbers(Vec::new(alloc));
    match launch(alloc, kernel, launched, cells, &schedule, None) {
        Ok(outcome) => {
            outcome.outputs.len() == 1
                && outcome.outputs[0].as_slice() == [word].as_slice()
                && outcome.events == events
        }
        Err(_) => false,
    }
}

/// Whether just these events are enabled, in this order.
pub fn enables(machine: &Machine, events: &[Event]) -> bool {
    if machine.enabled() as usize != events.len() {
        return false;
    }
    for k in 0..machine.enabled() {
        if Some(machine.nth_enabled(k)) != events.get(k as usize).copied() {
            return false;
        }
    }
    true
}

/// Takes the enabled event of this number, if there is one, and tells what is seen of it.
pub fn take(machine: &mut Machine, k: u32) -> Option<Seen> {
    if k < machine.enabled() {
        let event = machine.nth_enabled(k);
        Some(machine.step(event))
    } else {
        None
    }
}

/// Takes the first enabled event until one is a fault, and tells its number, from 1, and what is
/// seen of it.
pub fn first_fault(machine: &mut Machine) -> Option<(u32, Seen)> {
    for number in 1..200_000 {
        if machine.enabled() == 0 {
            return None;
        }
        let event = machine.nth_enabled(0);
        let seen = machine.step(event);
        if seen.fault.is_some() {
            return Some((number, seen));
        }
    }
    None
}
