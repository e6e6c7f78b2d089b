//! Further limits: what is just within one is accepted, and what passes it is refused with a count.
use crate::call::{Call, FIRST, RESULT, RUN, SCRIPT, STEPS, repeated};
use crate::hostile::sum;
use crate::kernels::around;
use std::alloc::{AllocError, Global};
use std::test::Fail;

// A program, a script as its beginning, a text so many times and its end, a launch file and
// the line of the run. One work-item's loop over n numbers is 3n + 1 events: each copy to
// private memory is one, and so is the map behind the copies. Each of four items has one turn
// of each phase, of 4 events, and one of the loop around them, of 2. Four components are 4
// loads and 4 stores.
const FULL: [(&str, (&str, &str, usize, &str), &str, &str); 3] = [
    // 16 private arrays
    (
        "input xs: [u32; 2]; output map(\\x. x, xs)",
        ("", "at 0 private-copy\n", 16, "at . to-seq"),
        "{\"global\":1,\"local\":1,\"sizes\":{},\"inputs\":{\"xs\":[3,4]}}",
        "{\"value\":[3,4],\"events\":119,\"releases\":0}\n",
    ),
    // 19 local arrays, in 20 phases
    (
        "input xs: [u32; 4]; output map(\\x. x, xs)",
        (
            "at . split-map 2\n",
            "at 0.1.0 local-copy\n",
            19,
            "at 0.1 to-lcl\nat 0 to-wrg",
        ),
        "{\"global\":4,\"local\":2,\"sizes\":{},\"inputs\":{\"xs\":[1,2,3,4]}}",
        "{\"value\":[1,2,3,4],\"events\":328,\"releases\":0}\n",
    ),
    // 32 buffers of inputs, and 4 of the output
    (
        "input a: [((u32, u32), (u32, u32)); 1]; input b: [((u32, u32), (u32, u32)); 1]; input c: [((u32, u32), (u32, u32)); 1]; input d: [((u32, u32), (u32, u32)); 1]; input e: [((u32, u32), (u32, u32)); 1]; input f: [((u32, u32), (u32, u32)); 1]; input g: [((u32, u32), (u32, u32)); 1]; input h: [((u32, u32), (u32, u32)); 1]; output map(\\x. x, h)",
        ("", "", 0, "at . to-seq"),
        "{\"global\":1,\"local\":1,\"sizes\":{},\"inputs\":{\"a\":[[[1,2],[3,4]]],\"b\":[[[1,2],[3,4]]],\"c\":[[[1,2],[3,4]]],\"d\":[[[1,2],[3,4]]],\"e\":[[[1,2],[3,4]]],\"f\":[[[1,2],[3,4]]],\"g\":[[[1,2],[3,4]]],\"h\":[[[5,6],[7,8]]]}}",
        "{\"value\":[[[5,6],[7,8]]],\"events\":10,\"releases\":0}\n",
    ),
];

fn full_runs(alloc: Global) -> Result<bool, AllocError> {
    for (program, (begin, text, times, end), launch, line) in FULL {
        let script = around(alloc, begin, text, times, end)?;
        let call = Call {
            program,
            script: script.as_str(),
            launch,
            ..FIRST
        };
        if !call.ends(alloc, &RUN, 0, line, "")? {
            return Ok(false);
        }
    }
    Ok(true)
}

#[test]
fn kernels_of_many_arrays_and_phases_run(rt: HostRuntime) -> Result<(), Fail> {
    assert!(rt; full_runs(rt.alloc())?);
    Ok(())
}

// The sum of 64 copies of a text, of 63 nodes more.
fn sum_of(alloc: Global, leaf: &str) -> Result<String, AllocError> {
    let mut all = String::from_str(alloc, leaf)?;
    for _ in 0..6 {
        all = sum(alloc, all.as_str(), all.as_str())?;
    }
    Ok(all)
}

// map(\x. let v = 127 nodes in 63 nodes and 64 times v, xs) becomes 2 + 63 + 64 * 127 nodes.
#[test]
fn the_nodes_after_a_step_are_limited(rt: HostRuntime) -> Result<(), Fail> {
    let ones = sum_of(rt.alloc(), "1")?;
    let names = sum_of(rt.alloc(), "v")?;
    let program = format!(in rt.alloc();
        "input xs: [u32; 2]; output map(\\x. let v = {ones} in {names}, xs)"
    )?;
    let call = Call {
        program: program.as_str(),
        script: "at 1 let-inline",
        ..FIRST
    };
    assert!(rt; call.ends(rt.alloc(), &STEPS, 10, "", "lift: limit nodes: 8193\n")?);
    Ok(())
}

// Whether a run of the first program along a text so many times and then another ends so.
fn script_ends(
    alloc: Global,
    text: &str,
    times: usize,
    rest: &str,
    end: (u8, &str, &str),
) -> Result<bool, AllocError> {
    let script = repeated(alloc, text, times, rest)?;
    let call = Call {
        script: script.as_str(),
        ..FIRST
    };
    call.ends(alloc, &RUN, end.0, end.1, end.2)
}

// The text of a script is judged before its steps are counted, and these before the first is made.
const LINES: [(&str, usize, &str, (u8, &str, &str)); 5] = [
    ("at . to-seq\n", 256, "", (9, "", "lift: step 2: shape\n")),
    (
        "at . to-seq\n",
        257,
        "",
        (10, "", "lift: limit steps: 257\n"),
    ),
    (
        "at . to-seq\n",
        257,
        "at . to-sequence",
        (8, "", "lift: script: line 258\n"),
    ),
    ("\n", 65_525, SCRIPT, (0, RESULT, "")),
    ("\n", 65_526, SCRIPT, (10, "", "lift: limit bytes: 65537\n")),
];

#[test]
fn lines_and_bytes_of_scripts_are_limited(rt: HostRuntime) -> Result<(), Fail> {
    for (text, times, rest, end) in LINES {
        assert!(rt; script_ends(rt.alloc(), text, times, rest, end)?);
    }
    Ok(())
}

#[test]
fn the_bytes_of_a_launch_file_are_limited(rt: HostRuntime) -> Result<(), Fail> {
    let lines = repeated(rt.alloc(), "\n", 4_096, "")?;
    let launch = repeated(rt.alloc(), lines.as_str(), 4_096, "\n")?;
    let call = Call {
        launch: launch.as_str(),
        ..FIRST
    };
    assert!(rt; call.ends(rt.alloc(), &RUN, 10, "", "lift: limit bytes: 16777217\n")?);
    Ok(())
}
