//! Kernels, and their runs.
use crate::call::{COMPILE, Call, FIRST, KERNEL, RESULT, RUN};
use std::alloc::{AllocError, Global};
use std::test::Fail;

#[test]
fn one_map_is_compiled_and_run(rt: HostRuntime) -> Result<(), Fail> {
    assert!(rt; KERNEL.len() == 180);
    assert!(rt; FIRST.ends(rt.alloc(), &COMPILE, 0, KERNEL, "")?);
    assert!(rt; FIRST.ends(rt.alloc(), &RUN, 0, RESULT, "")?);
    let one = Call {
        launch: "{\"global\":1,\"local\":1,\"sizes\":{\"N\":1},\"inputs\":{\"xs\":[7]}}",
        ..FIRST
    };
    let line = "{\"value\":[8],\"events\":4,\"releases\":0}\n";
    assert!(rt; one.ends(rt.alloc(), &RUN, 0, line, "")?);
    Ok(())
}

// A program, and the number that its kernel adds.
const ADDENDS: [(&str, &str); 2] = [
    (
        "size M from 2 to 2; input q: [u32; M]; output map(\\x. add(x, 0), q)",
        "0u",
    ),
    (
        "size N from 1 to 1048576; input xs: [u32; N]; output map(\\x. add(x, 4294967295), xs)",
        "4294967295u",
    ),
];

fn adds(alloc: Global, program: &str, addend: &str) -> Result<bool, AllocError> {
    let kernel = format!(in alloc;
        "__kernel void lift(__global const uint *a0, __global uint *o0, const uint s0)\n{{\n  uint v0;\n  for (uint i0 = 0u; i0 < s0; i0 += 1u) {{\n    v0 = a0[i0];\n    o0[i0] = (v0 + {addend});\n  }}\n}}\n"
    )?;
    Call { program, ..FIRST }.ends(alloc, &COMPILE, 0, kernel.as_str(), "")
}

#[test]
fn kernels_add_their_numbers(rt: HostRuntime) -> Result<(), Fail> {
    for (program, addend) in ADDENDS {
        assert!(rt; adds(rt.alloc(), program, addend)?);
    }
    Ok(())
}

// Other writings of the first program.
const PROGRAMS: [&str; 4] = [
    "size N from 1 to 1000;input xs:[u32;N];output map(\\x.add(x,1),xs)# no more",
    "# a map\r\nsize N from 3 to 3;\tinput xs: [u32; N]; output map(\\xs. add(xs, 1), xs)\n",
    "size N from 1 to 1048576; input xs: [u32; N]; output map(\\N. add(N, 1), xs)",
    "size N from 1 to 3; input xs: [u32; N]; output map(\\a2345678901234567890123456789012. add(a2345678901234567890123456789012, 1), xs)",
];

// Scripts that leave the first program's map sequential: of the last, the copy is fused and
// its let put in.
const SCRIPTS: [&str; 3] = [
    "# first\n \t\n  at\t.  to-seq \r\n#\r\n",
    "at . to-seq\n",
    "at 0 copy\nat . fuse-map\nat 1 let-inline\nat . to-seq",
];

// Other writings of the first launch file. One work-item has one enabled event, so
// each schedule takes it.
const LAUNCHES: [&str; 4] = [
    " {\"inputs\":{\"ys\":0,\"xs\":[1,2,4294967295]},\"name\":null,\"sizes\":{\"N\":3,\"M\":[]},\"local\":1,\"global\":1} ",
    "{\"global\":2,\"global\":1,\"local\":1,\"sizes\":{\"\\u004e\":3},\"inputs\":{\"xs\":[1,2,4294967295]}}",
    "{\"global\":1,\"local\":1,\"sizes\":{\"N\":3},\"inputs\":{\"xs\":[1,2,4294967295]},\"schedule\":[3,2,1,0]}",
    "{\"global\":1,\"local\":1,\"sizes\":{\"N\":3},\"inputs\":{\"xs\":[1,2,4294967295]},\"schedule\":{\"seed\":7}}",
];

fn run_alike(alloc: Global, calls: &[Call<'_>]) -> Result<bool, AllocError> {
    for call in calls {
        if !call.ends(alloc, &RUN, 0, RESULT, "")? {
            return Ok(false);
        }
    }
    Ok(true)
}

#[test]
fn other_writings_run_alike(rt: HostRuntime) -> Result<(), Fail> {
    assert!(rt;
        run_alike(
            rt.alloc(),
            &PROGRAMS.map(|program| Call { program, ..FIRST })
        )?
    );
    assert!(rt; run_alike(rt.alloc(), &SCRIPTS.map(|script| Call { script, ..FIRST }))?);
    assert!(rt; run_alike(rt.alloc(), &LAUNCHES.map(|launch| Call { launch, ..FIRST }))?);
    let compiled = Call {
        script: SCRIPTS[2],
        ..FIRST
    };
    assert!(rt; compiled.ends(rt.alloc(), &COMPILE, 0, KERNEL, "")?);
    Ok(())
}

// A text that repeats another between two more.
pub fn around(
    alloc: Global,
    begin: &str,
    repeated: &str,
    times: usize,
    end: &str,
) -> Result<String, AllocError> {
    let mut text = String::from_str(alloc, begin)?;
    for _ in 0..times {
        text.push_str(repeated)?;
    }
    text.push_str(end)?;
    Ok(text)
}

#[test]
fn a_thousand_numbers_have_3001_events(rt: HostRuntime) -> Result<(), Fail> {
    let begin = "{\"global\":1,\"local\":1,\"sizes\":{\"N\":1000},\"inputs\":{\"xs\":[0";
    let launch = around(rt.alloc(), begin, ",0", 999, "]}}")?;
    let end = "],\"events\":3001,\"releases\":0}\n";
    let line = around(rt.alloc(), "{\"value\":[1", ",1", 999, end)?;
    let thousand = Call {
        launch: launch.as_str(),
        ..FIRST
    };
    assert!(rt; thousand.ends(rt.alloc(), &RUN, 0, line.as_str(), "")?);
    Ok(())
}

const OVER_LAUNCH: &str =
    "__kernel void lift(__global const uint *a0, __global uint *o0, const uint s0)\n{\n  uint v0;\n  for (uint i0 = (uint)get_global_id(0); i0 < s0; i0 += (uint)get_global_size(0)) {\n    v0 = a0[i0];\n    o0[i0] = (v0 + 1u);\n  }\n}\n";

// The 4 work-items end with a test each, and each of the 5 turns is 3 events.
const SCHEDULES: [&str; 3] = [
    "{\"global\":4,\"local\":2,\"sizes\":{\"N\":5},\"inputs\":{\"xs\":[1,2,3,4,5]},\"schedule\":[]}",
    "{\"global\":4,\"local\":2,\"sizes\":{\"N\":5},\"inputs\":{\"xs\":[1,2,3,4,5]},\"schedule\":[3,2,1,0]}",
    "{\"global\":4,\"local\":2,\"sizes\":{\"N\":5},\"inputs\":{\"xs\":[1,2,3,4,5]},\"schedule\":{\"seed\":7}}",
];

#[test]
fn a_map_over_the_launch_runs_alike_under_each_schedule(rt: HostRuntime) -> Result<(), Fail> {
    let line = "{\"value\":[2,3,4,5,6],\"events\":19,\"releases\":0}\n";
    for launch in SCHEDULES {
        let call = Call {
            script: "at . to-glb",
            launch,
            ..FIRST
        };
        assert!(rt; call.ends(rt.alloc(), &COMPILE, 0, OVER_LAUNCH, "")?);
        assert!(rt; call.ends(rt.alloc(), &RUN, 0, line, "")?);
    }
    Ok(())
}

// Each of 65,536 work-items ends with a test, and each of the 1,000 turns is 3 events.
#[test]
fn a_thousand_turns_of_65536_items_have_68536_events(rt: HostRuntime) -> Result<(), Fail> {
    let begin = "{\"global\":65536,\"local\":256,\"sizes\":{\"N\":1000},\"inputs\":{\"xs\":[0";
    let launch = around(rt.alloc(), begin, ",0", 999, "]}}")?;
    let end = "],\"events\":68536,\"releases\":0}\n";
    let line = around(rt.alloc(), "{\"value\":[1", ",1", 999, end)?;
    let wide = Call {
        script: "at . to-glb",
        launch: launch.as_str(),
        ..FIRST
    };
    assert!(rt; wide.ends(rt.alloc(), &RUN, 0, line.as_str(), "")?);
    Ok(())
}

// Programs with scripts, launch files and the lines of their runs, worked out by hand.
const RUNS: [(&str, &str, &str, &str); 7] = [
    // a transposed array
    (
        "input xs: [[u32; 3]; 2]; output map(\\r. map(\\x. x, r), transpose(xs))",
        "at 1 to-seq\nat . to-seq",
        "{\"global\":1,\"local\":1,\"sizes\":{},\"inputs\":{\"xs\":[[1,2,3],[4,5,6]]}}",
        "{\"value\":[[1,4],[2,5],[3,6]],\"events\":25,\"releases\":0}\n",
    ),
    // pairs, in two buffers
    (
        "input xs: [u32; 2]; input ys: [u32; 2]; output map(\\p. p, zip(xs, ys))",
        "at . to-seq",
        "{\"global\":1,\"local\":1,\"sizes\":{},\"inputs\":{\"xs\":[1,2],\"ys\":[3,4]}}",
        "{\"value\":[[1,3],[2,4]],\"events\":11,\"releases\":0}\n",
    ),
    // a sum of partial sums; the start is used once
    (
        "input xs: [u32; 4]; output reduce(add, 5, xs)",
        "at . split-reduce 2\nat . reduce-fold\nat 0.0.1 reduce-fold\nat 0.0.1 fold-seq\nat 0.0 to-seq\nat 0 private\nat . fold-seq",
        "{\"global\":1,\"local\":1,\"sizes\":{},\"inputs\":{\"xs\":[1,2,3,4]}}",
        "{\"value\":[15],\"events\":30,\"releases\":0}\n",
    ),
    // the least of the columns' least
    (
        "input xs: [u32; 8]; output reduce(min, 4294967295, xs)",
        "at . stride-reduce 4\nat . reduce-fold\nat 0.0.1 reduce-fold\nat 0.0.1 fold-seq\nat 0.0 to-seq\nat 0 private\nat . fold-seq",
        "{\"global\":1,\"local\":1,\"sizes\":{},\"inputs\":{\"xs\":[9,8,7,6,5,4,3,2]}}",
        "{\"value\":[2],\"events\":56,\"releases\":0}\n",
    ),
    // an accumulator of two components, through temporaries
    (
        "input xs: [u32; 3]; output fold(\\a x. pair(second(a), add(first(a), x)), pair(0, 1), xs)",
        "at . fold-seq",
        "{\"global\":1,\"local\":1,\"sizes\":{},\"inputs\":{\"xs\":[5,6,7]}}",
        "{\"value\":[[7,12]],\"events\":23,\"releases\":0}\n",
    ),
    // windows of a padded array, one to each work-item
    (
        "size N multiple 2 from 2 to 4096; input xs: [u32; N]; output join(map(\\w. reduce(add, 0, w), slide(3, 1, pad(1, 1, xs))))",
        "at 0.1 reduce-fold\nat 0.1 fold-seq\nat 0 to-glb",
        "{\"global\":4,\"local\":2,\"sizes\":{\"N\":4},\"inputs\":{\"xs\":[1,2,3,4]}}",
        "{\"value\":[4,6,9,11],\"events\":56,\"releases\":0}\n",
    ),
    // a size that has a divisor: 2 turns of 2 statements, 3 tests
    (
        "size N multiple 2 from 2 to 8; input xs: [u32; N]; output map(\\x. mul(x, x), xs)",
        "at . to-seq",
        "{\"global\":1,\"local\":1,\"sizes\":{\"N\":2},\"inputs\":{\"xs\":[3,65536]}}",
        "{\"value\":[9,0],\"events\":7,\"releases\":0}\n",
    ),
];

fn runs(alloc: Global) -> Result<bool, AllocError> {
    for (program, script, launch, line) in RUNS {
        let call = Call {
            program,
            script,
            launch,
            ..FIRST
        };
        if !call.ends(alloc, &RUN, 0, line, "")? {
            return Ok(false);
        }
    }
    Ok(true)
}

#[test]
fn kernels_leave_the_value_after_so_many_events(rt: HostRuntime) -> Result<(), Fail> {
    assert!(rt; runs(rt.alloc())?);
    Ok(())
}
