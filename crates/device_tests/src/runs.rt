//! What runs leave, and their faults.

ghost use Rattle.std.specs.Prelude.{◌≡◌, ◌∷◌, [], None, IfOk};

use crate::kernels::{
    barriers_in_a_loop, chosen, past_a_local_array, past_a_private_array, past_the_output,
    private_cells, quotient_by_zero, two_barriers,
};
use kernel_tree::events::{FaultKind, Seen};
use kernel_tree::launches::{Cells, Launch, Schedule};
use kernel_tree::tree::Kernel;
use ndrange_device::{DeviceNo, Outcome, launch, run_in_order};
use std::alloc::{AllocError, Global};

fn one_item(alloc: Global) -> Launch
    ensures { result ≡ record { global = (1, 1); local = (1, 1); sizes = [] } }
{
    Launch {
        global: (1, 1),
        local: (1, 1),
        sizes: Vec::new(alloc),
    }
}

fn cells(alloc: Global, out: Vec<u32>) -> Result<Cells, AllocError>
    ensures { IfOk result (λ cells. cells ≡ record { ins = []; outs = out.items ∷ []; rest = 9 }) }
{
    Ok(Cells {
        ins: Vec::new(alloc),
        outs: vec![in alloc; out]?,
        rest: 9,
    })
}

/// The kernel run by one work-item, where all other memory holds 9.
pub fn run(
    alloc: Global,
    kernel: Kernel,
    out: Vec<u32>,
    schedule: &Schedule,
) -> Result<Outcome, DeviceNo>
    requires inputs { kernel.inputs ≡ 0 }
    requires outputs { kernel.outputs ≡ 1 }
    requires sizes { kernel.sizes ≡ 0 }
    requires local { kernel.local ≡ None }
{
    let cells = cells(alloc, out)?;
    launch(alloc, kernel, one_item(alloc), cells, schedule, None)
}

fn run_at_once(alloc: Global, kernel: Kernel, out: Vec<u32>) -> Result<Outcome, DeviceNo>
    requires inputs { kernel.inputs ≡ 0 }
    requires outputs { kernel.outputs ≡ 1 }
    requires sizes { kernel.sizes ≡ 0 }
    requires local { kernel.local ≡ None }
{
    let cells = cells(alloc, out)?;
    run_in_order(alloc, kernel, one_item(alloc), cells)
}

/// What is seen of the kernel's run in order by one work-item, where all other memory holds 9.
pub fn sights(alloc: Global, kernel: Kernel, out: Vec<u32>) -> Result<Vec<Seen>, AllocError>
    requires inputs { kernel.inputs ≡ 0 }
    requires outputs { kernel.outputs ≡ 1 }
    requires sizes { kernel.sizes ≡ 0 }
    requires local { kernel.local ≡ None }
{
    let cells = cells(alloc, out)?;
    let schedule = Schedule::Numbers(Vec::new(alloc));
    let mut seen = Vec::new(alloc);
    match launch(
        alloc,
        kernel,
        one_item(alloc),
        cells,
        &schedule,
        Some(&mut seen),
    ) {
        Err(DeviceNo::Memory) => Err(AllocError),
        _ => Ok(seen),
    }
}

/// Whether the run ended so.
pub fn leaves(ran: &Result<Outcome, DeviceNo>, out: &[u32], events: u64, releases: u64) -> bool {
    match ran {
        Ok(outcome) => {
            outcome.outputs.len() == 1
                && outcome.outputs[0].as_slice() == out
                && outcome.events == events
                && outcome.releases == releases
        }
        Err(_) => false,
    }
}

fn faults(ran: &Result<Outcome, DeviceNo>, kind: FaultKind, number: u64) -> bool {
    match ran {
        Err(
            DeviceNo::Fault {
                kind: told,
                event,
                item,
                cell,
            },
        ) => *told == kind && *event == number && *item == 0 && cell.is_none(),
        _ => false,
    }
}

#[test]
fn a_barrier_is_released_once_by_its_only_item(rt: HostRuntime) {
    let alloc = rt.alloc();
    let kernel = two_barriers(alloc).expect(&rt, "memory");
    let out = vec![in alloc; 0].expect(&rt, "memory");
    assert!(rt; leaves(&run_at_once(alloc, kernel, out), &[5], 5, 2));
}

#[test]
fn a_loop_meets_its_barrier_in_each_turn(rt: HostRuntime) {
    let alloc = rt.alloc();
    let kernel = barriers_in_a_loop(alloc).expect(&rt, "memory");
    let out = vec![in alloc; 4, 4, 4].expect(&rt, "memory");
    assert!(rt; leaves(&run_at_once(alloc, kernel, out), &[1, 1, 4], 7, 2));
}

#[test]
fn private_cells_hold_the_given_word_at_first(rt: HostRuntime) {
    let alloc = rt.alloc();
    let kernel = private_cells(alloc).expect(&rt, "memory");
    let out = vec![in alloc; 0, 0].expect(&rt, "memory");
    assert!(rt; leaves(&run_at_once(alloc, kernel, out), &[7, 9], 5, 0));
}

#[test]
fn only_the_chosen_part_is_evaluated(rt: HostRuntime) {
    let alloc = rt.alloc();
    let kernel = chosen(alloc).expect(&rt, "memory");
    let out = vec![in alloc; 0].expect(&rt, "memory");
    assert!(rt; leaves(&run_at_once(alloc, kernel, out), &[4294967295], 1, 0));
}

#[test]
fn a_store_meets_its_divisor_before_its_range(rt: HostRuntime) {
    let alloc = rt.alloc();
    let kernel = quotient_by_zero(alloc).expect(&rt, "memory");
    let out = vec![in alloc; 0].expect(&rt, "memory");
    assert!(rt; faults(&run_at_once(alloc, kernel, out), FaultKind::ZeroDivisor, 2));
}

#[test]
fn an_output_ends(rt: HostRuntime) {
    let alloc = rt.alloc();
    let kernel = past_the_output(alloc).expect(&rt, "memory");
    let out = vec![in alloc; 0].expect(&rt, "memory");
    assert!(rt; faults(&run_at_once(alloc, kernel, out), FaultKind::OutOfRange, 1));
}

#[test]
fn a_local_array_ends(rt: HostRuntime) {
    let alloc = rt.alloc();
    let kernel = past_a_local_array(alloc).expect(&rt, "memory");
    let out = vec![in alloc; 0].expect(&rt, "memory");
    assert!(rt; faults(&run_at_once(alloc, kernel, out), FaultKind::OutOfRange, 2));
}

#[test]
fn a_private_array_ends(rt: HostRuntime) {
    let alloc = rt.alloc();
    let kernel = past_a_private_array(alloc).expect(&rt, "memory");
    let out = vec![in alloc; 0].expect(&rt, "memory");
    assert!(rt; faults(&run_at_once(alloc, kernel, out), FaultKind::OutOfRange, 1));
}
