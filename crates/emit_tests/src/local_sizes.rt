//! Maps over work-groups where the script fixes a local size: those that need no loop are
//! `if`s, or turns alone.

use crate::emission::{Row, all_are_emitted, all_are_emitted_with};
use barrier_placement::Barrier;
use std::test::Fail;

const PAIRS: &str =
    "size N multiple 2 from 2 to 1000; input xs: [u32; N]; output map(\\x. add(x, 1), xs)";

const ROWS: [(&[Barrier], Row); 4] = [
    // each item of a pair takes its own element
    (
        &[],
        Row {
            program: PAIRS,
            script: "launch local 2\nat . split-map 2\nat 0.1.0 local-copy\nat 0.1 to-lcl\nat 0 to-wrg",
            kernel: "__kernel __attribute__((reqd_work_group_size(2, 1, 1))) void lift(__global const uint *a0, __global uint *o0, const uint s0)
{
  __local uint l0[2];
  uint v0;
  uint v1;
  for (uint i0 = (uint)get_group_id(0); i0 < (s0 / 2u); i0 += (uint)get_num_groups(0)) {
    v0 = a0[((i0 * 2u) + (uint)get_local_id(0))];
    l0[(uint)get_local_id(0)] = v0;
    v1 = l0[(uint)get_local_id(0)];
    o0[((i0 * 2u) + (uint)get_local_id(0))] = (v1 + 1u);
  }
}
",
        },
    ),
    // two of four items take one
    (
        &[],
        Row {
            program: PAIRS,
            script: "launch local 4\nat . split-map 2\nat 0.1.0 local-copy\nat 0.1 to-lcl\nat 0 to-wrg",
            kernel: "__kernel __attribute__((reqd_work_group_size(4, 1, 1))) void lift(__global const uint *a0, __global uint *o0, const uint s0)
{
  __local uint l0[2];
  uint v0;
  uint v1;
  for (uint i0 = (uint)get_group_id(0); i0 < (s0 / 2u); i0 += (uint)get_num_groups(0)) {
    if ((uint)get_local_id(0) < 2u) {
      v0 = a0[((i0 * 2u) + (uint)get_local_id(0))];
      l0[(uint)get_local_id(0)] = v0;
    }
    if ((uint)get_local_id(0) < 2u) {
      v1 = l0[(uint)get_local_id(0)];
      o0[((i0 * 2u) + (uint)get_local_id(0))] = (v1 + 1u);
    }
  }
}
",
        },
    ),
    // a pair is longer than a group of one item
    (
        &[],
        Row {
            program: PAIRS,
            script: "launch local 1\nat . split-map 2\nat 0.1.0 local-copy\nat 0.1 to-lcl\nat 0 to-wrg",
            kernel: "__kernel __attribute__((reqd_work_group_size(1, 1, 1))) void lift(__global const uint *a0, __global uint *o0, const uint s0)
{
  __local uint l0[2];
  uint v0;
  uint v1;
  for (uint i0 = (uint)get_group_id(0); i0 < (s0 / 2u); i0 += (uint)get_num_groups(0)) {
    for (uint i1 = (uint)get_local_id(0); i1 < 2u; i1 += (uint)get_local_size(0)) {
      v0 = a0[((i0 * 2u) + i1)];
      l0[i1] = v0;
    }
    for (uint i1 = (uint)get_local_id(0); i1 < 2u; i1 += (uint)get_local_size(0)) {
      v1 = l0[i1];
      o0[((i0 * 2u) + i1)] = (v1 + 1u);
    }
  }
}
",
        },
    ),
    // one group takes one turn
    (
        &[],
        Row {
            program: "input xs: [u32; 4]; output map(\\x. add(x, 1), xs)",
            script: "launch local 4\nat . split-map 4\nat 0.1.0 local-copy\nat 0.1 to-lcl\nat 0 to-wrg",
            kernel: "__kernel __attribute__((reqd_work_group_size(4, 1, 1))) void lift(__global const uint *a0, __global uint *o0)
{
  __local uint l0[4];
  uint v0;
  uint v1;
  if ((uint)get_group_id(0) < 1u) {
    v0 = a0[(((uint)get_group_id(0) * 4u) + (uint)get_local_id(0))];
    l0[(uint)get_local_id(0)] = v0;
    v1 = l0[(uint)get_local_id(0)];
    o0[(((uint)get_group_id(0) * 4u) + (uint)get_local_id(0))] = (v1 + 1u);
  }
}
",
        },
    ),
];

// A map over the launch is a loop under every local size: only the attribute is new.
const OVER_LAUNCH: Row = Row {
    program: "size N from 1 to 1000; input xs: [u32; N]; output map(\\x. add(x, 1), xs)",
    script: "launch local 2\nat . to-glb",
    kernel: "__kernel __attribute__((reqd_work_group_size(2, 1, 1))) void lift(__global const uint *a0, __global uint *o0, const uint s0)
{
  uint v0;
  for (uint i0 = (uint)get_global_id(0); i0 < s0; i0 += (uint)get_global_size(0)) {
    v0 = a0[i0];
    o0[i0] = (v0 + 1u);
  }
}
",
};

#[test]
fn maps_are_in_the_forms_of_the_local_size(rt: HostRuntime) -> Result<(), Fail> {
    assert!(rt; all_are_emitted_with(rt.alloc(), &ROWS)?);
    Ok(())
}

#[test]
fn maps_over_the_launch_stay_loops(rt: HostRuntime) -> Result<(), Fail> {
    assert!(rt; all_are_emitted(rt.alloc(), &[OVER_LAUNCH])?);
    Ok(())
}
