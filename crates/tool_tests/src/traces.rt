//! Runs told with their events, worked out by hand.
use crate::call::{Call, FIRST, LAUNCH, RESULT};
use std::alloc::{AllocError, Global};
use std::test::Fail;

const TRACED: [&str; 5] = ["run", "p.lift", "s.lift", "l.json", "--trace"];

// Three turns, each a load and a store, and four tests.
const THREE: &str =
    "step 0\nstep 0 reads a0 0\nstep 0 writes o0 0\nstep 0\nstep 0 reads a0 1\nstep 0 writes o0 1\nstep 0\nstep 0 reads a0 2\nstep 0 writes o0 2\nstep 0\n{\"value\":[2,3,0],\"events\":10,\"releases\":0}\n";

const ONE_LAUNCH: &str = "{\"global\":1,\"local\":1,\"sizes\":{\"N\":1},\"inputs\":{\"xs\":[7]}}";

const ONE: &str =
    "step 0\nstep 0 reads a0 0\nstep 0 writes o0 0\nstep 0\n{\"value\":[8],\"events\":4,\"releases\":0}\n";

const SEED_LAUNCH: &str =
    "{\"global\":1,\"local\":1,\"sizes\":{\"N\":1},\"inputs\":{\"xs\":[7]},\"schedule\":{\"seed\":7}}";

const PAIRS: &str = "input xs: [u32; 2]; input ys: [u32; 2]; output map(\\p. p, zip(xs, ys))";

const PAIRS_LAUNCH: &str =
    "{\"global\":1,\"local\":1,\"sizes\":{},\"inputs\":{\"xs\":[1,2],\"ys\":[3,4]}}";

// Two turns, each with two loads and two stores, and three tests.
const PAIRS_TOLD: &str =
    "step 0\nstep 0 reads a0 0\nstep 0 reads a1 0\nstep 0 writes o0 0\nstep 0 writes o1 0\nstep 0\nstep 0 reads a0 1\nstep 0 reads a1 1\nstep 0 writes o0 1\nstep 0 writes o1 1\nstep 0\n{\"value\":[[1,3],[2,4]],\"events\":11,\"releases\":0}\n";

// Five numbers by four work-items in groups of two: the first has two turns, each other one.
const FOUR_LAUNCH: &str =
    "{\"global\":4,\"local\":2,\"sizes\":{\"N\":5},\"inputs\":{\"xs\":[1,2,3,4,5]},\"schedule\":[]}";

const IN_ORDER: &str =
    "step 0\nstep 0 reads a0 0\nstep 0 writes o0 0\nstep 0\nstep 0 reads a0 4\nstep 0 writes o0 4\nstep 0\nstep 1\nstep 1 reads a0 1\nstep 1 writes o0 1\nstep 1\nstep 2\nstep 2 reads a0 2\nstep 2 writes o0 2\nstep 2\nstep 3\nstep 3 reads a0 3\nstep 3 writes o0 3\nstep 3\n{\"value\":[2,3,4,5,6],\"events\":19,\"releases\":0}\n";

const BACKWARDS_LAUNCH: &str =
    "{\"global\":4,\"local\":2,\"sizes\":{\"N\":5},\"inputs\":{\"xs\":[1,2,3,4,5]},\"schedule\":[3,2,1,0]}";

const BACKWARDS: &str =
    "step 3\nstep 2\nstep 1\nstep 0\nstep 0 reads a0 0\nstep 0 writes o0 0\nstep 0\nstep 0 reads a0 4\nstep 0 writes o0 4\nstep 0\nstep 1 reads a0 1\nstep 1 writes o0 1\nstep 1\nstep 2 reads a0 2\nstep 2 writes o0 2\nstep 2\nstep 3 reads a0 3\nstep 3 writes o0 3\nstep 3\n{\"value\":[2,3,4,5,6],\"events\":19,\"releases\":0}\n";

const SEED_7_LAUNCH: &str =
    "{\"global\":4,\"local\":2,\"sizes\":{\"N\":5},\"inputs\":{\"xs\":[1,2,3,4,5]},\"schedule\":{\"seed\":7}}";

// The generator's first numbers are 15648, 59866 and 40140: 0, 2 and 0 of four enabled events.
const FROM_SEED_7: &str =
    "step 0\nstep 2\nstep 0 reads a0 0\nstep 2 reads a0 2\nstep 1\nstep 0 writes o0 0\nstep 1 reads a0 1\nstep 0\nstep 3\nstep 3 reads a0 3\nstep 1 writes o0 1\nstep 0 reads a0 4\nstep 0 writes o0 4\nstep 3 writes o0 3\nstep 3\nstep 2 writes o0 2\nstep 0\nstep 2\nstep 1\n{\"value\":[2,3,4,5,6],\"events\":19,\"releases\":0}\n";

fn tells(
    alloc: Global,
    program: &'static str,
    launch: &'static str,
    out: &str,
) -> Result<bool, AllocError> {
    let call = Call {
        program,
        launch,
        ..FIRST
    };
    call.ends(alloc, &TRACED, 0, out, "")
}

#[test]
fn a_run_is_told_event_by_event(rt: HostRuntime) -> Result<(), Fail> {
    assert!(rt; tells(rt.alloc(), FIRST.program, LAUNCH, THREE)?);
    assert!(rt; tells(rt.alloc(), FIRST.program, ONE_LAUNCH, ONE)?);
    assert!(rt; tells(rt.alloc(), PAIRS, PAIRS_LAUNCH, PAIRS_TOLD)?);
    Ok(())
}

#[test]
fn one_work_item_has_one_event_at_a_time(rt: HostRuntime) -> Result<(), Fail> {
    assert!(rt; tells(rt.alloc(), FIRST.program, SEED_LAUNCH, ONE)?);
    Ok(())
}

#[test]
fn the_flag_is_of_a_run_alone(rt: HostRuntime) -> Result<(), Fail> {
    let words = ["compile", "p.lift", "s.lift", "--trace"].as_slice();
    assert!(rt; FIRST.ends(rt.alloc(), words, 2, "", "lift: words\n")?);
    let words = ["run", "--trace", "p.lift", "s.lift", "l.json"].as_slice();
    assert!(rt; FIRST.ends(rt.alloc(), words, 0, THREE, "")?);
    let words = ["run", "p.lift", "s.lift", "l.json"].as_slice();
    assert!(rt; FIRST.ends(rt.alloc(), words, 0, RESULT, "")?);
    Ok(())
}

#[test]
fn a_write_that_fails_leaves_a_prefix(rt: HostRuntime) -> Result<(), Fail> {
    let call = Call {
        failing_out: &[2],
        ..FIRST
    };
    assert!(rt; call.ends(rt.alloc(), &TRACED, 4, "step 0\nstep 0 re", "lift: write\n")?);
    Ok(())
}

#[test]
fn a_map_over_the_launch_is_told_along_its_schedule(rt: HostRuntime) -> Result<(), Fail> {
    let call = Call {
        script: "at . to-glb",
        launch: FOUR_LAUNCH,
        ..FIRST
    };
    assert!(rt; call.ends(rt.alloc(), &TRACED, 0, IN_ORDER, "")?);
    let call = Call {
        script: "at . to-glb",
        launch: BACKWARDS_LAUNCH,
        ..FIRST
    };
    assert!(rt; call.ends(rt.alloc(), &TRACED, 0, BACKWARDS, "")?);
    let call = Call {
        script: "at . to-glb",
        launch: SEED_7_LAUNCH,
        ..FIRST
    };
    assert!(rt; call.ends(rt.alloc(), &TRACED, 0, FROM_SEED_7, "")?);
    Ok(())
}
