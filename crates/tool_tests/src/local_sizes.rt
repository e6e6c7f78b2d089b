//! A local size that a script fixes: what it makes of a kernel's text, of the nest's rules and of
//! launches, worked out by hand.
use crate::call::{COMPILE, Call, FIRST, LAUNCH, RESULT, RUN, scripts_end};
use std::alloc::{AllocError, Global};
use std::test::Fail;

const OVER_LAUNCH: &str =
    "__kernel __attribute__((reqd_work_group_size(2, 1, 1))) void lift(__global const uint *a0, __global uint *o0, const uint s0)\n{\n  uint v0;\n  for (uint i0 = (uint)get_global_id(0); i0 < s0; i0 += (uint)get_global_size(0)) {\n    v0 = a0[i0];\n    o0[i0] = (v0 + 1u);\n  }\n}\n";

// The attribute names the size, and no other line of the kernel is new.
#[test]
fn a_kernel_begins_with_its_local_size(rt: HostRuntime) -> Result<(), Fail> {
    let call = Call {
        script: "launch local 2\nat . to-glb",
        ..FIRST
    };
    assert!(rt; call.ends(rt.alloc(), &COMPILE, 0, OVER_LAUNCH, "")?);
    Ok(())
}

const PAIRS: &str =
    "size N multiple 2 from 2 to 1000; input xs: [u32; N]; output map(\\x. add(x, 1), xs)";

// Pairs of numbers, each pair by a group, by way of local memory.
const BY_TWO: &str =
    "launch local 2\nat . split-map 2\nat 0.1.0 local-copy\nat 0.1 to-lcl\nat 0 to-wrg";

const BY_FOUR: &str =
    "launch local 4\nat . split-map 2\nat 0.1.0 local-copy\nat 0.1 to-lcl\nat 0 to-wrg";

// As many numbers as work-items: each map in a group is its turn alone.
const TURNS_ALONE: &str =
    "__kernel __attribute__((reqd_work_group_size(2, 1, 1))) void lift(__global const uint *a0, __global uint *o0, const uint s0)
{
  __local uint l0[2];
  uint v0;
  uint v1;
  for (uint i0 = (uint)get_group_id(0); i0 < (s0 / 2u); i0 += (uint)get_num_groups(0)) {
    v0 = a0[((i0 * 2u) + (uint)get_local_id(0))];
    l0[(uint)get_local_id(0)] = v0;
    v1 = l0[(uint)get_local_id(0)];
    o0[((i0 * 2u) + (uint)get_local_id(0))] = (v1 + 1u);
  }
}
";

// Fewer numbers than work-items: those behind the last number pass.
const GUARDED_TURNS: &str =
    "__kernel __attribute__((reqd_work_group_size(4, 1, 1))) void lift(__global const uint *a0, __global uint *o0, const uint s0)
{
  __local uint l0[2];
  uint v0;
  uint v1;
  for (uint i0 = (uint)get_group_id(0); i0 < (s0 / 2u); i0 += (uint)get_num_groups(0)) {
    if ((uint)get_local_id(0) < 2u) {
      v0 = a0[((i0 * 2u) + (uint)get_local_id(0))];
      l0[(uint)get_local_id(0)] = v0;
    }
    if ((uint)get_local_id(0) < 2u) {
      v1 = l0[(uint)get_local_id(0)];
      o0[((i0 * 2u) + (uint)get_local_id(0))] = (v1 + 1u);
    }
  }
}
";

// More numbers than work-items: as with no size that is fixed, but for the first line.
const LOOPS: &str =
    "__kernel __attribute__((reqd_work_group_size(1, 1, 1))) void lift(__global const uint *a0, __global uint *o0, const uint s0)
{
  __local uint l0[2];
  uint v0;
  uint v1;
  for (uint i0 = (uint)get_group_id(0); i0 < (s0 / 2u); i0 += (uint)get_num_groups(0)) {
    for (uint i1 = (uint)get_local_id(0); i1 < 2u; i1 += (uint)get_local_size(0)) {
      v0 = a0[((i0 * 2u) + i1)];
      l0[i1] = v0;
    }
    for (uint i1 = (uint)get_local_id(0); i1 < 2u; i1 += (uint)get_local_size(0)) {
      v1 = l0[i1];
      o0[((i0 * 2u) + i1)] = (v1 + 1u);
    }
  }
}
";

const BY_ONE: &str =
    "launch local 1\nat . split-map 2\nat 0.1.0 local-copy\nat 0.1 to-lcl\nat 0 to-wrg";

#[test]
fn maps_in_a_group_are_printed_by_its_size(rt: HostRuntime) -> Result<(), Fail> {
    for (script, kernel) in [
        (BY_TWO, TURNS_ALONE),
        (BY_FOUR, GUARDED_TURNS),
        (BY_ONE, LOOPS),
    ] {
        let call = Call {
            program: PAIRS,
            script,
            ..FIRST
        };
        assert!(rt; call.ends(rt.alloc(), &COMPILE, 0, kernel, "")?);
    }
    Ok(())
}

// A script, a launch and the line of its run. By two, each of 4 work-items enters and leaves the
// loop over groups and does 4 statements. By four, the first two have 3 tests of the loop and two
// turns of 2 tests and 4 statements; the others 3 tests and two turns of 2.
const RUNS: [(&str, &str, &str); 2] = [
    (
        BY_TWO,
        "{\"global\":4,\"local\":2,\"sizes\":{\"N\":4},\"inputs\":{\"xs\":[1,2,3,4]}}",
        "{\"value\":[2,3,4,5],\"events\":24,\"releases\":0}\n",
    ),
    (
        BY_FOUR,
        "{\"global\":4,\"local\":4,\"sizes\":{\"N\":4},\"inputs\":{\"xs\":[1,2,3,4]}}",
        "{\"value\":[2,3,4,5],\"events\":44,\"releases\":0}\n",
    ),
];

#[test]
fn groups_of_the_fixed_size_run(rt: HostRuntime) -> Result<(), Fail> {
    for (script, launch, line) in RUNS {
        let call = Call {
            program: PAIRS,
            script,
            launch,
            ..FIRST
        };
        assert!(rt; call.ends(rt.alloc(), &RUN, 0, line, "")?);
    }
    Ok(())
}

// One group has a turn: each of its 4 work-items has a test and 4 statements. Those of the other
// group have the test alone.
#[test]
fn a_group_without_a_turn_passes(rt: HostRuntime) -> Result<(), Fail> {
    let call = Call {
        program: "input xs: [u32; 4]; output map(\\x. add(x, 1), xs)",
        script: "launch local 4\nat . split-map 4\nat 0.1.0 local-copy\nat 0.1 to-lcl\nat 0 to-wrg",
        launch: "{\"global\":8,\"local\":4,\"sizes\":{},\"inputs\":{\"xs\":[1,2,3,4]}}",
        ..FIRST
    };
    let line = "{\"value\":[2,3,4,5],\"events\":24,\"releases\":0}\n";
    assert!(rt; call.ends(rt.alloc(), &RUN, 0, line, "")?);
    Ok(())
}

// Launches of the pairs by other groups than of two. The inputs are looked at later, and the groups
// of the last are none of any size.
const OTHER_LAUNCHES: [(&str, &str); 3] = [
    (
        "{\"global\":4,\"local\":1,\"sizes\":{\"N\":4},\"inputs\":{\"xs\":[1,2,3,4]}}",
        "lift: launch: global 4, local 1\n",
    ),
    (
        "{\"global\":4,\"local\":4,\"sizes\":{\"N\":4},\"inputs\":{\"xs\":[1,2]}}",
        "lift: launch: global 4, local 4\n",
    ),
    (
        "{\"global\":3,\"local\":2,\"sizes\":{\"N\":4},\"inputs\":{\"xs\":[1,2,3,4]}}",
        "lift: launch: global 3, local 2\n",
    ),
];

#[test]
fn groups_of_another_size_are_refused(rt: HostRuntime) -> Result<(), Fail> {
    for (launch, line) in OTHER_LAUNCHES {
        let call = Call {
            program: PAIRS,
            script: BY_TWO,
            launch,
            ..FIRST
        };
        assert!(rt; call.ends(rt.alloc(), &RUN, 12, "", line)?);
    }
    Ok(())
}

// Groups of one, by one work-item: a launch of two is refused for its
// groups, before its work-items.
#[test]
fn a_task_may_fix_groups_of_one(rt: HostRuntime) -> Result<(), Fail> {
    let call = Call {
        script: "launch local 1\nat . to-seq",
        launch: LAUNCH,
        ..FIRST
    };
    assert!(rt; call.ends(rt.alloc(), &RUN, 0, RESULT, "")?);
    let grouped = Call {
        launch: "{\"global\":2,\"local\":2,\"sizes\":{\"N\":3},\"inputs\":{\"xs\":[1,2,3]}}",
        ..call
    };
    let line = "lift: launch: global 2, local 2\n";
    assert!(rt; grouped.ends(rt.alloc(), &RUN, 12, "", line)?);
    let many = Call {
        launch: "{\"global\":2,\"local\":1,\"sizes\":{\"N\":3},\"inputs\":{\"xs\":[1,2,3]}}",
        ..call
    };
    let line = "lift: launch: global 2 for one item\n";
    assert!(rt; many.ends(rt.alloc(), &RUN, 12, "", line)?);
    Ok(())
}

// Larger groups of one work-item's kernel would idle, and so would rows of a map along one. The
// root's own rules come before.
const IDLE: [(&str, &str); 5] = [
    ("launch local 2\nat . to-seq", "lift: nest: N12 at .\n"),
    ("launch local 256\nat . to-seq", "lift: nest: N12 at .\n"),
    ("launch local 1 2\nat . to-seq", "lift: nest: N12 at .\n"),
    ("launch local 2 2\nat . to-glb", "lift: nest: N12 at .\n"),
    ("launch local 2", "lift: nest: N1 at .\n"),
];

#[test]
fn a_task_fixes_no_larger_groups(rt: HostRuntime) -> Result<(), Fail> {
    assert!(rt; scripts_end(rt.alloc(), &COMPILE, 11, &IDLE)?);
    assert!(rt; scripts_end(rt.alloc(), &RUN, 11, &IDLE)?);
    Ok(())
}

// No size, or one that is none of a group's, a third number, a second line, and one behind a step.
const NO_SIZES: [(&str, &str); 8] = [
    ("launch local\nat . to-glb", "lift: script: line 1\n"),
    ("launch local 0\nat . to-glb", "lift: script: line 1\n"),
    ("launch local 257\nat . to-glb", "lift: script: line 1\n"),
    ("launch local 2 0\nat . to-glb", "lift: script: line 1\n"),
    ("launch local 16 17\nat . to-glb", "lift: script: line 1\n"),
    (
        "# pairs\nlaunch local 2 2 2\nat . to-glb",
        "lift: script: line 2\n",
    ),
    (
        "launch local 2\nlaunch local 2\nat . to-glb",
        "lift: script: line 2\n",
    ),
    ("at . to-glb\nlaunch local 2", "lift: script: line 2\n"),
];

#[test]
fn one_size_stands_before_the_steps(rt: HostRuntime) -> Result<(), Fail> {
    assert!(rt; scripts_end(rt.alloc(), &COMPILE, 8, &NO_SIZES)?);
    Ok(())
}
