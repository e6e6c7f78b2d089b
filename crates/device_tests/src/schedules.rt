//! Runs along schedules, and the numbers of schedules.

use crate::kernels::two_barriers;
use crate::runs::{leaves, run};
use kernel_tree::events::Event;
use kernel_tree::launches::Schedule;
use ndrange_device::progress::Progress;
use ndrange_device::{DeviceNo, Outcome};
use std::alloc::{AllocError, Global};

fn run_along(alloc: Global, schedule: &Schedule) -> Result<Outcome, DeviceNo> {
    let kernel = two_barriers(alloc)?;
    let out = one_cell(alloc)?;
    run(alloc, kernel, out, schedule)
}

fn one_cell(alloc: Global) -> Result<Vec<u32>, AllocError> {
    Ok(vec![in alloc; 0]?)
}

// The schedule's numbers for the first events are these.
fn begins(schedule: &Schedule, numbers: &[u32]) -> bool {
    let mut progress = Progress::start(schedule);
    for number in numbers {
        if progress.number(schedule) != *number {
            return false;
        }
        progress.count(Event::Step(0));
    }
    true
}

#[test]
fn an_empty_list_is_in_order(rt: HostRuntime) {
    let alloc = rt.alloc();
    let schedule = Schedule::Numbers(Vec::new(alloc));
    assert!(rt; leaves(&run_along(alloc, &schedule), &[5], 5, 2));
}

#[test]
fn a_list_may_end_early(rt: HostRuntime) {
    let alloc = rt.alloc();
    let numbers = vec![in alloc; 0, 0].expect(&rt, "memory");
    let schedule = Schedule::Numbers(numbers);
    assert!(rt; leaves(&run_along(alloc, &schedule), &[5], 5, 2));
}

#[test]
fn numbers_are_taken_modulo_the_count(rt: HostRuntime) {
    let alloc = rt.alloc();
    let numbers = vec![in alloc; 3, 4294967295, 1, 7, 2, 8].expect(&rt, "memory");
    let schedule = Schedule::Numbers(numbers);
    assert!(rt; leaves(&run_along(alloc, &schedule), &[5], 5, 2));
}

#[test]
fn seeds_choose_too(rt: HostRuntime) {
    let alloc = rt.alloc();
    assert!(rt; leaves(&run_along(alloc, &Schedule::Seed(7)), &[5], 5, 2));
    assert!(rt; leaves(&run_along(alloc, &Schedule::Seed(4294967295)), &[5], 5, 2));
}

#[test]
fn a_seed_generates_its_numbers(rt: HostRuntime) {
    assert!(rt; begins(&Schedule::Seed(7), &[15648, 59866, 40140]));
}

#[test]
fn a_list_goes_on_with_zeros(rt: HostRuntime) {
    let alloc = rt.alloc();
    let numbers = vec![in alloc; 3, 2].expect(&rt, "memory");
    assert!(rt; begins(&Schedule::Numbers(numbers), &[3, 2, 0, 0]));
}
