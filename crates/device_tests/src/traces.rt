//! What is seen of runs.

use crate::kernels::{past_a_local_array, private_cells, two_barriers};
use crate::runs::sights;
use kernel_tree::events::{Access, Cell, Event, Fault, FaultKind, Seen};
use kernel_tree::tree::Array;

const fn step(access: Option<Access>) -> Seen {
    Seen {
        event: Event::Step(0),
        access,
        fault: None,
    }
}

const fn reads(array: Array, index: u64) -> Seen {
    step(Some(Access::Read(Cell { array, index })))
}

const fn writes(array: Array, index: u64) -> Seen {
    step(Some(Access::Write(Cell { array, index })))
}

const RELEASE: Seen = Seen {
    event: Event::Release(0),
    access: None,
    fault: None,
};

#[test]
fn a_trace_has_each_event_in_turn(rt: HostRuntime) {
    let alloc = rt.alloc();
    let kernel = two_barriers(alloc).expect(&rt, "memory");
    let out = vec![in alloc; 0].expect(&rt, "memory");
    let seen = sights(alloc, kernel, out).expect(&rt, "memory");
    let wanted = [
        writes(Array::Local(0), 0),
        RELEASE,
        reads(Array::Local(0), 0),
        RELEASE,
        writes(Array::Output(0), 0),
    ];
    assert!(rt; seen.as_slice() == wanted.as_slice());
}

#[test]
fn private_arrays_are_not_seen(rt: HostRuntime) {
    let alloc = rt.alloc();
    let kernel = private_cells(alloc).expect(&rt, "memory");
    let out = vec![in alloc; 0, 0].expect(&rt, "memory");
    let seen = sights(alloc, kernel, out).expect(&rt, "memory");
    let wanted = [
        step(None),
        step(None),
        writes(Array::Output(0), 0),
        step(None),
        writes(Array::Output(0), 1),
    ];
    assert!(rt; seen.as_slice() == wanted.as_slice());
}

#[test]
fn a_fault_is_seen_last(rt: HostRuntime) {
    let alloc = rt.alloc();
    let kernel = past_a_local_array(alloc).expect(&rt, "memory");
    let out = vec![in alloc; 0].expect(&rt, "memory");
    let seen = sights(alloc, kernel, out).expect(&rt, "memory");
    assert!(rt; seen.len() == 2);
    let fault = Some(Fault {
        kind: FaultKind::OutOfRange,
        cell: None,
    });
    assert!(rt; seen[0].fault.is_none());
    assert!(rt; seen[1].fault == fault);
}
