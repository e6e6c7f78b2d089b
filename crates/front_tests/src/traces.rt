//! The lines of events as they were seen.

use kernel_tree::events::{Access, Cell, Event, Fault, FaultKind, Seen};
use kernel_tree::tree::Array;
use launch_file::trace::trace_text;
use std::alloc::{AllocError, Global};
use std::test::Fail;

const fn cell(array: Array, index: u64) -> Cell {
    Cell { array, index }
}

const fn step(item: u32, access: Option<Access>) -> Seen {
    Seen {
        event: Event::Step(item),
        access,
        fault: None,
    }
}

const fn release(group: u32) -> Seen {
    Seen {
        event: Event::Release(group),
        access: None,
        fault: None,
    }
}

fn is_written(alloc: Global, seen: &[Seen], wanted: &str) -> Result<bool, AllocError> {
    Ok(trace_text(alloc, seen)?.as_slice() == wanted.as_bytes())
}

#[test]
fn a_step_tells_what_it_reads_and_writes(rt: HostRuntime) -> Result<(), Fail> {
    let seen = [
        step(0, None),
        step(0, Some(Access::Read(cell(Array::Input(0), 0)))),
        step(0, Some(Access::Write(cell(Array::Output(0), 0)))),
        step(0, None),
        step(0, Some(Access::Read(cell(Array::Input(0), 4)))),
    ];
    let lines = "step 0\nstep 0 reads a0 0\nstep 0 writes o0 0\nstep 0\nstep 0 reads a0 4\n";
    assert!(rt; is_written(rt.alloc(), seen.as_slice(), lines)?);
    Ok(())
}

#[test]
fn no_events_have_no_line(rt: HostRuntime) -> Result<(), Fail> {
    assert!(rt; is_written(rt.alloc(), [].as_slice(), "")?);
    Ok(())
}

#[test]
fn local_arrays_are_told_and_private_ones_are_not(rt: HostRuntime) -> Result<(), Fail> {
    let seen = [
        step(65535, Some(Access::Write(cell(Array::Local(1), 31)))),
        release(255),
        step(65535, Some(Access::Read(cell(Array::Local(0), 4294967295)))),
        step(7, Some(Access::Read(cell(Array::Private(2), 9)))),
        step(7, Some(Access::Write(cell(Array::Private(0), 0)))),
    ];
    let lines =
        "step 65535 writes l1 31\nrelease 255\nstep 65535 reads l0 4294967295\nstep 7\nstep 7\n";
    assert!(rt; is_written(rt.alloc(), seen.as_slice(), lines)?);
    Ok(())
}

// An access of four cells tells the first of them, which may lie past 2^32.
#[test]
fn four_cells_are_told_by_the_first(rt: HostRuntime) -> Result<(), Fail> {
    let seen = [
        step(1, Some(Access::ReadFour(cell(Array::Input(0), 4)))),
        step(
            1,
            Some(Access::WriteFour(cell(Array::Output(0), 17179869180))),
        ),
        step(1, Some(Access::ReadFour(cell(Array::Local(2), 0)))),
        step(1, Some(Access::WriteFour(cell(Array::Private(0), 8)))),
    ];
    let lines = "step 1 reads4 a0 4\nstep 1 writes4 o0 17179869180\nstep 1 reads4 l2 0\nstep 1\n";
    assert!(rt; is_written(rt.alloc(), seen.as_slice(), lines)?);
    Ok(())
}

#[test]
fn a_fault_is_told_by_its_access(rt: HostRuntime) -> Result<(), Fail> {
    let output = cell(Array::Output(0), 0);
    let race = Seen {
        event: Event::Step(1),
        access: Some(Access::Write(output)),
        fault: Some(Fault {
            kind: FaultKind::Race,
            cell: Some(output),
        }),
    };
    assert!(rt; is_written(rt.alloc(), [race].as_slice(), "step 1 writes o0 0\n")?);
    Ok(())
}
