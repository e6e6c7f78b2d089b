//! Runs of many work-items.

ghost use Rattle.std.specs.Prelude.{◌≡◌, ◌*◌, ◌/◌, ◌<◌, ◌≤◌, None, IfOk, length};

use crate::kernels::{a_barrier_for_some, one_store, strided_sums, two_barriers};
use crate::runs::leaves;
use kernel_tree::events::{Access, Cell, Event, FaultKind, Seen};
use kernel_tree::launches::{Cells, Launch, Schedule};
use kernel_tree::tree::{Array, Kernel};
use ndrange_device::{DeviceNo, Outcome, launch};
use ndrange_machine::Machine;
use std::alloc::{AllocError, Global};

// A cell of the first input.
fn input(index: u64) -> Cell {
    Cell {
        array: Array::Input(0),
        index,
    }
}

// So many words from 1 on, each 1 more than the one before.
fn words_from(alloc: Global, first: u32, count: u32) -> Result<Vec<u32>, AllocError> {
    let mut words = Vec::new(alloc);
    for i in 0..count {
        words.push(first.wrapping_add(i))?;
    }
    Ok(words)
}

fn one_size(alloc: Global, size: u32) -> Result<Vec<u32>, AllocError>
    ensures { IfOk result (λ sizes. length sizes.items ≡ 1) }
{
    Ok(vec![in alloc; size]?)
}

// The words from 1 on as the input, and as many cells of the output.
fn sum_cells(alloc: Global, count: u32) -> Result<Cells, AllocError>
    ensures ins { IfOk result (λ cells. length cells.ins ≡ 1) }
    ensures outs { IfOk result (λ cells. length cells.outs ≡ 1) }
{
    let words = words_from(alloc, 1, count)?;
    let blank = vec![in alloc; 0; count as usize]?;
    Ok(Cells {
        ins: vec![in alloc; words]?,
        outs: vec![in alloc; blank]?,
        rest: 9,
    })
}

// One cell of the output.
fn one_cell(alloc: Global) -> Result<Cells, AllocError>
    ensures ins { IfOk result (λ cells. length cells.ins ≡ 0) }
    ensures outs { IfOk result (λ cells. length cells.outs ≡ 1) }
{
    let cell = vec![in alloc; 0]?;
    Ok(Cells {
        ins: Vec::new(alloc),
        outs: vec![in alloc; cell]?,
        rest: 9,
    })
}

// The kernel that adds 1 to each word, on the words from 1 on, by so many work-items.
fn run_sums(
    alloc: Global,
    count: u32,
    global: u32,
    local: u32,
    schedule: &Schedule,
) -> Result<Outcome, DeviceNo>
    requires some { 0 < local }
    requires whole { global ≡ global / local * local }
    requires small { local ≤ 256 }
    requires few { global ≤ 65536 }
{
    let kernel = strided_sums(alloc)?;
    let cells = sum_cells(alloc, count)?;
    let launch_of = Launch {
        global: (global, 1),
        local: (local, 1),
        sizes: one_size(alloc, count)?,
    };
    launch(alloc, kernel, launch_of, cells, schedule, None)
}

// A kernel of one output of one cell, by two work-items.
fn run_two(alloc: Global, kernel: Kernel, local: u32) -> Result<Outcome, DeviceNo>
    requires inputs { kernel.inputs ≡ 0 }
    requires outputs { kernel.outputs ≡ 1 }
    requires sizes { kernel.sizes ≡ 0 }
    requires local { kernel.local ≡ None }
    requires some { 0 < local }
    requires whole { 2 ≡ 2 / local * local }
    requires small { local ≤ 2 }
{
    let cells = one_cell(alloc)?;
    let launch_of = Launch {
        global: (2, 1),
        local: (local, 1),
        sizes: Vec::new(alloc),
    };
    launch(
        alloc,
        kernel,
        launch_of,
        cells,
        &Schedule::Numbers(Vec::new(alloc)),
        None,
    )
}

fn fails(ran: &Result<Outcome, DeviceNo>, want: (FaultKind, u64, u32, Option<Cell>)) -> bool {
    match ran {
        Err(
            DeviceNo::Fault {
                kind,
                event,
                item,
                cell,
            },
        ) => *kind == want.0 && *event == want.1 && *item == want.2 && *cell == want.3,
        _ => false,
    }
}

// The five words of the kernel that adds 1, by four work-items in groups of two.
fn sums_hold_along(alloc: Global, schedule: &Schedule) -> bool {
    leaves(&run_sums(alloc, 5, 4, 2, schedule), &[2, 3, 4, 5, 6], 19, 0)
}

#[test]
fn in_order_the_sums_hold(rt: HostRuntime) {
    let alloc = rt.alloc();
    assert!(rt; sums_hold_along(alloc, &Schedule::Numbers(Vec::new(alloc))));
}

#[test]
fn along_a_list_the_sums_hold(rt: HostRuntime) {
    let alloc = rt.alloc();
    let numbers = vec![in alloc; 3, 2, 1, 0].expect(&rt, "memory");
    assert!(rt; sums_hold_along(alloc, &Schedule::Numbers(numbers)));
}

#[test]
fn from_a_seed_the_sums_hold(rt: HostRuntime) {
    assert!(rt; sums_hold_along(rt.alloc(), &Schedule::Seed(7)));
}

// The sums of the first words by as many work-items as a launch may have.
fn most_items_sum(alloc: Global, want: &[u32]) -> bool {
    let schedule = Schedule::Numbers(Vec::new(alloc));
    leaves(
        &run_sums(alloc, 1000, 65536, 256, &schedule),
        want,
        68536,
        0,
    )
}

#[test]
fn many_items_take_one_event_more_each(rt: HostRuntime) {
    let alloc = rt.alloc();
    let want = words_from(alloc, 2, 1000).expect(&rt, "memory");
    assert!(rt; most_items_sum(alloc, want.as_slice()));
}

#[test]
fn no_items_take_no_event(rt: HostRuntime) {
    let alloc = rt.alloc();
    let schedule = Schedule::Numbers(Vec::new(alloc));
    assert!(rt; leaves(&run_sums(alloc, 1, 0, 1, &schedule), &[0], 0, 0));
}

#[test]
fn two_groups_race(rt: HostRuntime) {
    let alloc = rt.alloc();
    let kernel = one_store(alloc).expect(&rt, "memory");
    let cell = Cell {
        array: Array::Output(0),
        index: 0,
    };
    let want = (FaultKind::Race, 2, 1, Some(cell));
    assert!(rt; fails(&run_two(alloc, kernel, 1), want));
}

#[test]
fn a_barrier_that_one_item_misses_diverges(rt: HostRuntime) {
    let alloc = rt.alloc();
    let kernel = a_barrier_for_some(alloc).expect(&rt, "memory");
    let want = (FaultKind::Divergent, 2, 1, None);
    assert!(rt; fails(&run_two(alloc, kernel, 2), want));
}

// Both items write the local cell before the barrier.
#[test]
fn items_of_a_group_race_on_a_local_cell(rt: HostRuntime) {
    let alloc = rt.alloc();
    let kernel = two_barriers(alloc).expect(&rt, "memory");
    let cell = Cell {
        array: Array::Local(0),
        index: 0,
    };
    let want = (FaultKind::Race, 2, 1, Some(cell));
    assert!(rt; fails(&run_two(alloc, kernel, 2), want));
}

// Takes the enabled event of this number, if there is one.
fn take(machine: &mut Machine, k: u32) -> Option<Seen> {
    if k < machine.enabled() {
        let event = machine.nth_enabled(k);
        Some(machine.step(event))
    } else {
        None
    }
}

fn start_sums(alloc: Global) -> Result<Machine, AllocError> {
    let kernel = strided_sums(alloc)?;
    let cells = sum_cells(alloc, 5)?;
    let launch = Launch {
        global: (4, 1),
        local: (2, 1),
        sizes: one_size(alloc, 5)?,
    };
    Machine::start(alloc, kernel, launch, cells)
}

fn sees(machine: &mut Machine, k: u32, item: u32, access: Option<Access>) -> bool {
    match take(machine, k) {
        Some(seen) => {
            seen == Seen {
                event: Event::Step(item),
                access,
                fault: None,
            }
        }
        None => false,
    }
}

#[test]
fn in_order_the_first_item_goes_first(rt: HostRuntime) {
    let mut machine = start_sums(rt.alloc()).expect(&rt, "memory");
    let output = Cell {
        array: Array::Output(0),
        index: 0,
    };
    assert!(rt; machine.enabled() == 4);
    assert!(rt; sees(&mut machine, 0, 0, None));
    assert!(rt; sees(&mut machine, 0, 0, Some(Access::Read(input(0)))));
    assert!(rt; sees(&mut machine, 0, 0, Some(Access::Write(output))));
    assert!(rt; sees(&mut machine, 0, 0, None));
    assert!(rt; sees(&mut machine, 0, 0, Some(Access::Read(input(4)))));
}

#[test]
fn any_enabled_item_may_go(rt: HostRuntime) {
    let mut machine = start_sums(rt.alloc()).expect(&rt, "memory");
    assert!(rt; sees(&mut machine, 3, 3, None));
    assert!(rt; sees(&mut machine, 2, 2, None));
    assert!(rt; sees(&mut machine, 1, 1, None));
    assert!(rt; sees(&mut machine, 0, 0, None));
    assert!(rt; sees(&mut machine, 0, 0, Some(Access::Read(input(0)))));
}
