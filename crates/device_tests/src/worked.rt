//! Runs of four work-items along schedules, event by event, worked out by hand: five words and 1,
//! of which the first work-item has the first and the last.

ghost use Rattle.std.specs.Prelude.{◌≡◌, ◌<◌, IfOk, length};

use crate::kernels::strided_sums;
use count_tree::steps::Steps;
use kernel_tree::events::{Access, Cell, Event, Seen};
use kernel_tree::launches::{Cells, Launch, Schedule};
use kernel_tree::tree::Array;
use ndrange_device::{DeviceNo, launch};
use ndrange_machine::Machine;
use std::alloc::{AllocError, Global};
use std::marker::Brand;
use std::sync::ledger::{Blank, Ledger};

// What a work-item did: it tested its loop's variable, or read or wrote a cell of this number.
#[derive(Clone, Copy)]
enum Did {
    Tested(u32),
    Read(u32, u64),
    Wrote(u32, u64),
}

impl Did {
    fn seen(self) -> Seen {
        let input = Array::Input(0);
        let output = Array::Output(0);
        let (item, access) = match self {
            Did::Tested(item) => (item, None),
            Did::Read(item, index) => (
                item,
                Some(Access::Read(Cell {
                    array: input,
                    index,
                })),
            ),
            Did::Wrote(item, index) => (
                item,
                Some(Access::Write(Cell {
                    array: output,
                    index,
                })),
            ),
        };
        Seen {
            event: Event::Step(item),
            access,
            fault: None,
        }
    }
}

const IN_ORDER: [Did; 19] = [
    Did::Tested(0),
    Did::Read(0, 0),
    Did::Wrote(0, 0),
    Did::Tested(0),
    Did::Read(0, 4),
    Did::Wrote(0, 4),
    Did::Tested(0),
    Did::Tested(1),
    Did::Read(1, 1),
    Did::Wrote(1, 1),
    Did::Tested(1),
    Did::Tested(2),
    Did::Read(2, 2),
    Did::Wrote(2, 2),
    Did::Tested(2),
    Did::Tested(3),
    Did::Read(3, 3),
    Did::Wrote(3, 3),
    Did::Tested(3),
];

// Along [3, 2], and then in order.
const ENDS_EARLY: [Did; 19] = [
    Did::Tested(3),
    Did::Tested(2),
    Did::Tested(0),
    Did::Read(0, 0),
    Did::Wrote(0, 0),
    Did::Tested(0),
    Did::Read(0, 4),
    Did::Wrote(0, 4),
    Did::Tested(0),
    Did::Tested(1),
    Did::Read(1, 1),
    Did::Wrote(1, 1),
    Did::Tested(1),
    Did::Read(2, 2),
    Did::Wrote(2, 2),
    Did::Tested(2),
    Did::Read(3, 3),
    Did::Wrote(3, 3),
    Did::Tested(3),
];

// Along [7, 4294967295, 9, 6], which are 3, 3, 1 and 2 modulo 4, and then in order.
const LARGE_NUMBERS: [Did; 19] = [
    Did::Tested(3),
    Did::Read(3, 3),
    Did::Tested(1),
    Did::Tested(2),
    Did::Tested(0),
    Did::Read(0, 0),
    Did::Wrote(0, 0),
    Did::Tested(0),
    Did::Read(0, 4),
    Did::Wrote(0, 4),
    Did::Tested(0),
    Did::Read(1, 1),
    Did::Wrote(1, 1),
    Did::Tested(1),
    Did::Read(2, 2),
    Did::Wrote(2, 2),
    Did::Tested(2),
    Did::Wrote(3, 3),
    Did::Tested(3),
];

const FROM_SEED_7: [Did; 19] = [
    Did::Tested(0),
    Did::Tested(2),
    Did::Read(0, 0),
    Did::Read(2, 2),
    Did::Tested(1),
    Did::Wrote(0, 0),
    Did::Read(1, 1),
    Did::Tested(0),
    Did::Tested(3),
    Did::Read(3, 3),
    Did::Wrote(1, 1),
    Did::Read(0, 4),
    Did::Wrote(0, 4),
    Did::Wrote(3, 3),
    Did::Tested(3),
    Did::Wrote(2, 2),
    Did::Tested(0),
    Did::Tested(2),
    Did::Tested(1),
];

const FROM_SEED_1: [Did; 19] = [
    Did::Tested(0),
    Did::Read(0, 0),
    Did::Tested(2),
    Did::Tested(3),
    Did::Wrote(0, 0),
    Did::Tested(0),
    Did::Read(2, 2),
    Did::Wrote(2, 2),
    Did::Read(0, 4),
    Did::Tested(1),
    Did::Read(1, 1),
    Did::Wrote(0, 4),
    Did::Read(3, 3),
    Did::Wrote(1, 1),
    Did::Tested(1),
    Did::Wrote(3, 3),
    Did::Tested(2),
    Did::Tested(0),
    Did::Tested(3),
];

fn cells(alloc: Global) -> Result<Cells, AllocError>
    ensures ins { IfOk result (λ cells. length cells.ins ≡ 1) }
    ensures outs { IfOk result (λ cells. length cells.outs ≡ 1) }
{
    let words = vec![in alloc; 1, 2, 3, 4, 5]?;
    let blank = vec![in alloc; 0; 5]?;
    Ok(Cells {
        ins: vec![in alloc; words]?,
        outs: vec![in alloc; blank]?,
        rest: 9,
    })
}

fn five(alloc: Global) -> Result<Launch, AllocError>
    ensures global { IfOk result (λ l. l.global ≡ (4, 1)) }
    ensures local { IfOk result (λ l. l.local ≡ (2, 1)) }
    ensures sizes { IfOk result (λ l. length l.sizes ≡ 1) }
{
    Ok(Launch {
        global: (4, 1),
        local: (2, 1),
        sizes: vec![in alloc; 5]?,
    })
}

// What is seen of the run along the schedule, and whether it ended.
fn told(alloc: Global, schedule: &Schedule) -> Result<(Vec<Seen>, bool), AllocError> {
    let kernel = strided_sums(alloc)?;
    let cells = cells(alloc)?;
    let launched = five(alloc)?;
    let mut trace = Vec::new(alloc);
    match launch(alloc, kernel, launched, cells, schedule, Some(&mut trace)) {
        Ok(outcome) => Ok((trace, outcome.events == 19)),
        Err(DeviceNo::Memory) => Ok((trace, false)),
        Err(DeviceNo::Fault { .. }) => Err(AllocError),
    }
}

// Whether this is seen of the first of these events.
fn begins(trace: &[Seen], want: &[Did]) -> bool {
    let mut number: usize = 0;
    for seen in trace {
        match want.get(number) {
            Some(did) => {
                if did.seen() != *seen {
                    return false;
                }
            }
            None => return false,
        }
        number = number.wrapping_add(1);
    }
    true
}

// Whether the run goes so, or ends for want of memory after the first of these events.
fn goes(alloc: Global, schedule: &Schedule, want: &[Did]) -> bool {
    match told(alloc, schedule) {
        Ok((trace, ended)) => {
            begins(trace.as_slice(), want) && (!ended || trace.len() == want.len())
        }
        Err(_) => false,
    }
}

fn goes_along(alloc: Global, numbers: &[u32], want: &[Did]) -> bool {
    match numbers.to_vec(alloc) {
        Ok(numbers) => goes(alloc, &Schedule::Numbers(numbers), want),
        Err(_) => false,
    }
}

#[test]
fn an_empty_list_takes_the_first_enabled_event(rt: HostRuntime) {
    assert!(rt; goes_along(rt.alloc(), &[], &IN_ORDER));
}

#[test]
fn behind_its_end_a_list_takes_the_first_enabled_event(rt: HostRuntime) {
    assert!(rt; goes_along(rt.alloc(), &[3, 2], &ENDS_EARLY));
}

#[test]
fn large_numbers_are_taken_modulo_the_count(rt: HostRuntime) {
    assert!(rt; goes_along(rt.alloc(), &[7, 4294967295, 9, 6], &LARGE_NUMBERS));
}

#[test]
fn seeds_choose_each_event(rt: HostRuntime) {
    assert!(rt; goes(rt.alloc(), &Schedule::Seed(7), &FROM_SEED_7));
    assert!(rt; goes(rt.alloc(), &Schedule::Seed(1), &FROM_SEED_1));
}

// The enabled event of this number, its looks counted for a proof alone.
fn counted<L: Ledger>(machine: &Machine, k: u32, blank: Blank) -> Option<Event>
    requires name { blank.name ≡ L.name }
    requires parts { blank.parts ≡ L.parts }
    requires some { 0 < blank.parts }
{
    let mut steps = Steps::<L>::new(blank);
    if k < machine.enabled() {
        Some(machine.nth_enabled_counted(k, &mut steps))
    } else {
        None
    }
}

fn nth_is(machine: &Machine, k: u32, want: Option<Event>) -> bool {
    let blank = Blank::new(1);
    counted::<Brand>(machine, k, blank) == want
}

fn start(alloc: Global) -> Result<Machine, AllocError> {
    let kernel = strided_sums(alloc)?;
    let cells = cells(alloc)?;
    Machine::start(alloc, kernel, five(alloc)?, cells)
}

// The first work-item goes to its end, in seven events.
fn end_the_first(machine: &mut Machine) {
    for _ in 0..7 {
        if machine.enabled() > 0 {
            let event = machine.nth_enabled(0);
            let _ = machine.step(event);
        }
    }
}

#[test]
fn the_counted_search_finds_the_same_events(rt: HostRuntime) {
    let mut machine = start(rt.alloc()).expect(&rt, "memory");
    for item in 0..4 {
        assert!(rt; nth_is(&machine, item, Some(Event::Step(item))));
    }
    assert!(rt; nth_is(&machine, 4, None));
    end_the_first(&mut machine);
    assert!(rt; nth_is(&machine, 0, Some(Event::Step(1))));
    assert!(rt; nth_is(&machine, 2, Some(Event::Step(3))));
    assert!(rt; nth_is(&machine, 3, None));
}
