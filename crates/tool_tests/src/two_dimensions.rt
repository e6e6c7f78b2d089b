//! Launches of rows, and pairs of maps over them, worked out by hand.
use crate::call::{COMPILE, Call, FIRST, RUN, launches_end, scripts_end};
use std::alloc::{AllocError, Global};
use std::test::Fail;

const TRACED: [&str; 5] = ["run", "p.lift", "s.lift", "l.json", "--trace"];

const BY_ITEMS: [&str; 5] = ["cost", "p.lift", "s.lift", "l.json", "--items"];

// Three numbers a row, two rows: a map along each dimension.
const ROWS: Call<'static> = Call {
    program: "input xs: [[u32; 3]; 2]; output map(\\r. map(\\x. add(x, 1), r), xs)",
    script: "at 1 to-glb\nat . to-glb1",
    launch: "{\"global\":[2,2],\"local\":[1,1],\"sizes\":{},\"inputs\":{\"xs\":[[1,2,3],[4,5,6]]}}",
    ..FIRST
};

const ROWS_KERNEL: &str = "__kernel void lift(__global const uint *a0, __global uint *o0)
{
  uint v0;
  for (uint i0 = (uint)get_global_id(1); i0 < 2u; i0 += (uint)get_global_size(1)) {
    for (uint i1 = (uint)get_global_id(0); i1 < 3u; i1 += (uint)get_global_size(0)) {
      v0 = a0[((i0 * 3u) + i1)];
      o0[((i0 * 3u) + i1)] = (v0 + 1u);
    }
  }
}
";

// The first of a row takes two of its numbers, the second one. Item 2 begins the second row.
const ROWS_TOLD: &str =
    "step 0\nstep 0\nstep 0 reads a0 0\nstep 0 writes o0 0\nstep 0\nstep 0 reads a0 2\nstep 0 writes o0 2\nstep 0\nstep 0\nstep 1\nstep 1\nstep 1 reads a0 1\nstep 1 writes o0 1\nstep 1\nstep 1\nstep 2\nstep 2\nstep 2 reads a0 3\nstep 2 writes o0 3\nstep 2\nstep 2 reads a0 5\nstep 2 writes o0 5\nstep 2\nstep 2\nstep 3\nstep 3\nstep 3 reads a0 4\nstep 3 writes o0 4\nstep 3\nstep 3\n{\"value\":[[2,3,4],[5,6,7]],\"events\":30,\"releases\":0}\n";

const ROWS_COST: &str =
    "item 0: global loads 2, global stores 2, local loads 0, local stores 0\nitem 1: global loads 1, global stores 1, local loads 0, local stores 0\nitem 2: global loads 2, global stores 2, local loads 0, local stores 0\nitem 3: global loads 1, global stores 1, local loads 0, local stores 0\ncost: global loads 6, global stores 6, local loads 0, local stores 0, releases 0\n";

#[test]
fn a_pair_of_maps_goes_over_rows(rt: HostRuntime) -> Result<(), Fail> {
    assert!(rt; ROWS.ends(rt.alloc(), &COMPILE, 0, ROWS_KERNEL, "")?);
    assert!(rt; ROWS.ends(rt.alloc(), &TRACED, 0, ROWS_TOLD, "")?);
    assert!(rt; ROWS.ends(rt.alloc(), &BY_ITEMS, 0, ROWS_COST, "")?);
    Ok(())
}

// By one row of four work-items each goes over both rows, and the last has no turn in either.
#[test]
fn one_row_may_run_a_pair(rt: HostRuntime) -> Result<(), Fail> {
    let call = Call {
        launch: "{\"global\":4,\"local\":1,\"sizes\":{},\"inputs\":{\"xs\":[[1,2,3],[4,5,6]]}}",
        ..ROWS
    };
    let line = "{\"value\":[[2,3,4],[5,6,7]],\"events\":38,\"releases\":0}\n";
    assert!(rt; call.ends(rt.alloc(), &RUN, 0, line, "")?);
    Ok(())
}

// Two rows of two groups of two: each work-item has one turn of four loops, with a load and a
// store.
#[test]
fn a_grid_of_groups_runs(rt: HostRuntime) -> Result<(), Fail> {
    let call = Call {
        program: "input xs: [[[[u32; 2]; 1]; 2]; 2]; output map(\\r. map(\\t. map(\\s. map(\\x. add(x, 1), s), t), r), xs)",
        script: "at 1.1.1 to-lcl\nat 1.1 to-lcl1\nat 1 to-wrg\nat . to-wrg1",
        launch: "{\"global\":[4,2],\"local\":[2,1],\"sizes\":{},\"inputs\":{\"xs\":[[[[1,2]],[[3,4]]],[[[5,6]],[[7,8]]]]}}",
        ..FIRST
    };
    let line = "{\"value\":[[[[2,3]],[[4,5]]],[[[6,7]],[[8,9]]]],\"events\":80,\"releases\":0}\n";
    assert!(rt; call.ends(rt.alloc(), &RUN, 0, line, "")?);
    Ok(())
}

// Of the pair of maps: sizes that are no two numbers, no whole groups, too many work-items, in
// products of 64 bits too, and a list of two whose second is 1.
const NO_LAUNCHES: [(&str, &str); 13] = [
    (
        "{\"global\":[2],\"local\":1,\"sizes\":{},\"inputs\":{}}",
        "lift: launch: missing global\n",
    ),
    (
        "{\"global\":[2,2,2],\"local\":1,\"sizes\":{},\"inputs\":{}}",
        "lift: launch: missing global\n",
    ),
    (
        "{\"global\":[2,2],\"local\":[1,1.0],\"sizes\":{},\"inputs\":{}}",
        "lift: launch: missing local\n",
    ),
    (
        "{\"global\":[2,-1],\"local\":[1,1],\"sizes\":{},\"inputs\":{}}",
        "lift: launch: missing global\n",
    ),
    (
        "{\"global\":[0,2],\"local\":1,\"sizes\":{},\"inputs\":{}}",
        "lift: launch: global [0,2], local 1\n",
    ),
    (
        "{\"global\":[2,0],\"local\":[1,1],\"sizes\":{},\"inputs\":{}}",
        "lift: launch: global [2,0], local 1\n",
    ),
    (
        "{\"global\":[2,2],\"local\":[1,4],\"sizes\":{},\"inputs\":{}}",
        "lift: launch: global [2,2], local [1,4]\n",
    ),
    (
        "{\"global\":[3,2],\"local\":[2,1],\"sizes\":{},\"inputs\":{}}",
        "lift: launch: global [3,2], local 2\n",
    ),
    (
        "{\"global\":[34,16],\"local\":[17,16],\"sizes\":{},\"inputs\":{}}",
        "lift: launch: global [34,16], local [17,16]\n",
    ),
    (
        "{\"global\":[256,257],\"local\":1,\"sizes\":{},\"inputs\":{}}",
        "lift: launch: global [256,257], local 1\n",
    ),
    (
        "{\"global\":[4294967296,4294967296],\"local\":1,\"sizes\":{},\"inputs\":{}}",
        "lift: launch: global [4294967296,4294967296], local 1\n",
    ),
    (
        "{\"global\":[2,2],\"local\":[9223372036854775808,2],\"sizes\":{},\"inputs\":{}}",
        "lift: launch: global [2,2], local [9223372036854775808,2]\n",
    ),
    (
        "{\"global\":[0,1],\"local\":[1,1],\"sizes\":{},\"inputs\":{}}",
        "lift: launch: global 0, local 1\n",
    ),
];

fn pairs_end(alloc: Global, rows: &[(&'static str, &str)]) -> Result<bool, AllocError> {
    for &(launch, line) in rows {
        if !(Call { launch, ..ROWS }).ends(alloc, &RUN, 12, "", line)? {
            return Ok(false);
        }
    }
    Ok(true)
}

#[test]
fn launches_of_rows_are_refused_by_the_first_check(rt: HostRuntime) -> Result<(), Fail> {
    assert!(rt; pairs_end(rt.alloc(), &NO_LAUNCHES)?);
    Ok(())
}

// For one work-item alone; the groups come before.
const TASKS: [(&str, &str); 3] = [
    (
        "{\"global\":[1,2],\"local\":1,\"sizes\":{\"N\":3},\"inputs\":{}}",
        "lift: launch: global [1,2] for one item\n",
    ),
    (
        "{\"global\":[2,1],\"local\":1,\"sizes\":{\"N\":3},\"inputs\":{}}",
        "lift: launch: global 2 for one item\n",
    ),
    (
        "{\"global\":[1,2],\"local\":[1,3],\"sizes\":{\"N\":3},\"inputs\":{}}",
        "lift: launch: global [1,2], local [1,3]\n",
    ),
];

// For one row of work-items, by a map along dimension 0 alone.
#[test]
fn other_programs_want_one_item_or_one_row(rt: HostRuntime) -> Result<(), Fail> {
    assert!(rt; launches_end(rt.alloc(), &RUN, 12, &TASKS)?);
    let call = Call {
        script: "at . to-glb",
        launch: "{\"global\":[2,2],\"local\":[1,1],\"sizes\":{\"N\":5},\"inputs\":{}}",
        ..FIRST
    };
    assert!(rt;
        call.ends(
            rt.alloc(),
            &RUN,
            12,
            "",
            "lift: launch: rows 2 for one row\n"
        )?
    );
    assert!(rt;
        call.ends(
            rt.alloc(),
            &BY_ITEMS,
            12,
            "",
            "lift: launch: rows 2 for one row\n"
        )?
    );
    let call = Call {
        script: "at . to-glb",
        launch: "{\"global\":[4,1],\"local\":[2,1],\"sizes\":{\"N\":5},\"inputs\":{\"xs\":[1,2,3,4,5]}}",
        ..FIRST
    };
    let line = "{\"value\":[2,3,4,5,6],\"events\":19,\"releases\":0}\n";
    assert!(rt; call.ends(rt.alloc(), &RUN, 0, line, "")?);
    Ok(())
}

// No pair: a map along dimension 1 around none along dimension 0, and one in no place for it.
const NO_PAIRS: [(&str, &str); 2] = [
    ("at . to-glb1", "lift: nest: N14 at .\n"),
    ("at . to-lcl1", "lift: nest: N2 at .\n"),
];

#[test]
fn a_map_of_rows_begins_a_pair(rt: HostRuntime) -> Result<(), Fail> {
    assert!(rt; scripts_end(rt.alloc(), &COMPILE, 11, &NO_PAIRS)?);
    let call = Call {
        script: "at 1 to-seq\nat . to-glb1",
        ..ROWS
    };
    assert!(rt; call.ends(rt.alloc(), &COMPILE, 11, "", "lift: nest: N14 at .\n")?);
    Ok(())
}

// Rows of two by two: the first line names them, and no launch has others.
#[test]
fn a_script_fixes_rows(rt: HostRuntime) -> Result<(), Fail> {
    let call = Call {
        script: "launch local 2 2\nat 1 to-glb\nat . to-glb1",
        launch: "{\"global\":[2,2],\"local\":[2,2],\"sizes\":{},\"inputs\":{\"xs\":[[1,2,3],[4,5,6]]}}",
        ..ROWS
    };
    let line = "{\"value\":[[2,3,4],[5,6,7]],\"events\":30,\"releases\":0}\n";
    assert!(rt; call.ends(rt.alloc(), &RUN, 0, line, "")?);
    let other = Call {
        launch: "{\"global\":[2,2],\"local\":[2,1],\"sizes\":{},\"inputs\":{}}",
        ..call
    };
    assert!(rt;
        other.ends(
            rt.alloc(),
            &RUN,
            12,
            "",
            "lift: launch: global [2,2], local 2\n"
        )?
    );
    Ok(())
}
