//! Where barriers stand.

use barrier_placement::{Barrier, Barriers, Touch, place};
use std::alloc::{AllocError, Global};
use std::test::Fail;

fn local(phase: u32, buffer: u32, writes: bool, aligned: bool) -> Touch {
    Touch {
        phase,
        buffer,
        writes,
        aligned,
        local: true,
    }
}

fn global(phase: u32, buffer: u32, writes: bool, aligned: bool) -> Touch {
    Touch {
        phase,
        buffer,
        writes,
        aligned,
        local: false,
    }
}

// A local barrier just before the phase.
fn stands(barrier: &Barrier, phase: u32, pair: (u32, u32)) -> bool {
    barrier.before == Some(phase) && barrier.local && !barrier.global && barrier.pair == pair
}

// A barrier with these flags that closes the body.
fn closes(barrier: &Barrier, flags: (bool, bool), pair: (u32, u32)) -> bool {
    barrier.before == None && (barrier.local, barrier.global) == flags && barrier.pair == pair
}

// The barriers of uses in phases below the count; none is made where some use isn't.
fn placed(alloc: Global, touches: &[Touch], phases: u32) -> Result<Barriers, AllocError> {
    if phases > 0 && touches.iter().all(|touch| touch.phase < phases) {
        return place(alloc, touches, phases, false);
    }
    Ok(Vec::new(alloc))
}

#[test]
fn two_barriers_and_none_that_closes(rt: HostRuntime) -> Result<(), Fail> {
    let touches = [
        local(0, 0, true, true),
        local(1, 0, false, false),
        local(1, 1, true, true),
        local(2, 1, false, true),
        local(3, 1, false, false),
    ];
    let barriers = placed(rt.alloc(), &touches, 4)?;
    assert_eq!(rt; barriers.len(), 2);
    assert!(rt; stands(&barriers[0], 1, (0, 1)));
    assert!(rt; stands(&barriers[1], 3, (1, 3)));
    Ok(())
}

#[test]
fn one_phase_in_conflict_with_itself(rt: HostRuntime) -> Result<(), Fail> {
    let barriers = placed(rt.alloc(), &[local(0, 0, true, false)], 1)?;
    assert_eq!(rt; barriers.len(), 1);
    assert!(rt; closes(&barriers[0], (true, false), (0, 0)));
    Ok(())
}

// Without a barrier for the global conflict of phases 0 and 2: the local one before phase
// 1 is the last.
#[test]
fn any_barrier_is_the_last(rt: HostRuntime) -> Result<(), Fail> {
    let touches = [
        local(0, 0, true, false),
        local(1, 0, false, false),
        global(0, 0, true, false),
        global(2, 0, false, false),
    ];
    let barriers = placed(rt.alloc(), &touches, 3)?;
    assert_eq!(rt; barriers.len(), 2);
    assert!(rt; stands(&barriers[0], 1, (0, 1)));
    let closing = &barriers[1];
    assert!(rt; closes(closing, (true, true), closing.pair));
    assert!(rt; closing.pair.0 > 0 && closing.pair.1 == 0);
    Ok(())
}

// A local array and a global one of the same number are two arrays.
#[test]
fn no_phases_in_conflict(rt: HostRuntime) -> Result<(), Fail> {
    let touches = [
        local(0, 0, true, true),
        local(1, 0, false, true),
        global(0, 1, false, false),
        global(2, 1, false, false),
        local(2, 1, true, true),
    ];
    let barriers = placed(rt.alloc(), &touches, 3)?;
    assert!(rt; barriers.is_empty());
    Ok(())
}
