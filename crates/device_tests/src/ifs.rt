//! Ifs, entered and passed, and barriers in them.

use crate::texts::{OUTPUT, Run, ends, fails, leaves, output_cell, traced};
use kernel_tree::events::{Access, Event, FaultKind, Seen};

// The first work-item of a group enters the if.
const ENTERED_AND_PASSED: Run = Run {
    text: "__kernel void lift(__global uint *o0)
{
  uint v0;
  if ((uint)get_local_id(0) < 1u) {
    v0 = 1u;
  }
  o0[(uint)get_local_id(0)] = v0;
}
",
    global: (2, 1),
    local: (2, 1),
    input: &[],
    sizes: &[],
    output: 2,
};

const fn step(item: u32, access: Option<Access>) -> Seen {
    Seen {
        event: Event::Step(item),
        access,
        fault: None,
    }
}

// The test is one event, whether it enters or passes; leaving the if is none.
#[test]
fn an_if_takes_one_event_beside_its_body(rt: HostRuntime) {
    let alloc = rt.alloc();
    assert!(rt; leaves(alloc, &ENTERED_AND_PASSED, &[1, 9], 5, 0));
    let wanted = [
        step(0, None),
        step(0, None),
        step(0, Some(Access::Write(OUTPUT))),
        step(1, None),
        step(1, Some(Access::Write(output_cell(1)))),
    ];
    let seen = traced(alloc, &ENTERED_AND_PASSED, &[]).expect(&rt, "the run begins");
    assert!(rt; seen.as_slice() == wanted.as_slice());
}

// An if is no loop around what stands in it: `i0` is the loop in it, and its variable is alone.
const A_LOOP_IN_AN_IF: Run = Run {
    text: "__kernel void lift(__global uint *o0)
{
  if (0u < 1u) {
    for (uint i0 = 0u; i0 < 3u; i0 += 1u) {
      o0[i0] = (i0 + 4u);
    }
  }
}
",
    global: (1, 1),
    local: (1, 1),
    input: &[],
    sizes: &[],
    output: 3,
};

// The if's test, the loop's four tests and three stores.
#[test]
fn an_if_numbers_no_loop_variable(rt: HostRuntime) {
    assert!(rt; leaves(rt.alloc(), &A_LOOP_IN_AN_IF, &[4, 5, 6], 8, 0));
}

const A_BARRIER_FOR_SOME: Run = Run {
    text: "__kernel void lift(__global uint *o0)
{
  if ((uint)get_local_id(0) < 1u) {
    barrier(CLK_LOCAL_MEM_FENCE);
  }
}
",
    global: (2, 1),
    local: (2, 1),
    input: &[],
    sizes: &[],
    output: 1,
};

const A_BARRIER_FOR_ALL: Run = Run {
    text: "__kernel void lift(__global uint *o0)
{
  if ((uint)get_local_id(0) < 2u) {
    barrier(CLK_LOCAL_MEM_FENCE);
  }
}
",
    global: (2, 1),
    local: (2, 1),
    input: &[],
    sizes: &[],
    output: 1,
};

const A_BARRIER_FOR_NONE: Run = Run {
    text: "__kernel void lift(__global uint *o0)
{
  if ((uint)get_local_id(0) < 0u) {
    barrier(CLK_LOCAL_MEM_FENCE);
  }
}
",
    global: (2, 1),
    local: (2, 1),
    input: &[],
    sizes: &[],
    output: 1,
};

// In order the first item stands at the barrier when the second passes the if and ends.
#[test]
fn a_barrier_in_an_if_that_one_item_passes_diverges(rt: HostRuntime) {
    let want = (FaultKind::Divergent, 2, 1, None);
    assert!(rt; fails(rt.alloc(), &A_BARRIER_FOR_SOME, &[], want));
}

// The other way round the first item's test is the second event.
#[test]
fn a_group_diverges_when_its_last_item_stops(rt: HostRuntime) {
    let want = (FaultKind::Divergent, 2, 0, None);
    assert!(rt; fails(rt.alloc(), &A_BARRIER_FOR_SOME, &[1], want));
}

#[test]
fn a_barrier_in_an_if_is_met_by_all_or_none(rt: HostRuntime) {
    assert!(rt; ends(rt.alloc(), &A_BARRIER_FOR_ALL, 3, 1));
    assert!(rt; ends(rt.alloc(), &A_BARRIER_FOR_NONE, 2, 0));
}

// Of a group of four, two work-items enter each if, and two pass it.
const TILES: Run = Run {
    text: "__kernel __attribute__((reqd_work_group_size(4, 1, 1))) void lift(__global const uint *a0, __global uint *o0, const uint s0)
{
  __local uint l0[2];
  uint v0;
  uint v1;
  for (uint i0 = (uint)get_group_id(0); i0 < (s0 / 2u); i0 += (uint)get_num_groups(0)) {
    if ((uint)get_local_id(0) < 2u) {
      v0 = a0[((i0 * 2u) + (uint)get_local_id(0))];
      l0[(uint)get_local_id(0)] = v0;
    }
    if ((uint)get_local_id(0) < 2u) {
      v1 = l0[(uint)get_local_id(0)];
      o0[((i0 * 2u) + (uint)get_local_id(0))] = (v1 + 1u);
    }
  }
}
",
    global: (4, 1),
    local: (4, 1),
    input: &[1, 2, 3, 4],
    sizes: &[4],
    output: 4,
};

// Two turns of the outer loop in 3 tests, and in each 2 tests for an item that passes the ifs, 6
// events for one that enters them.
#[test]
fn items_that_pass_do_less(rt: HostRuntime) {
    assert!(rt; leaves(rt.alloc(), &TILES, &[2, 3, 4, 5], 44, 0));
}

// Arrays of different lengths: of the first item of a group, of each group, and of each item.
const OWN_CELLS: Run = Run {
    text: "__kernel void lift(__global uint *o0)
{
  __local uint l0[1];
  __local uint l1[2];
  uint p0[1];
  uint p1[2];
  uint v0;
  if ((uint)get_local_id(0) < 1u) {
    l0[0u] = ((uint)get_global_id(0) + 20u);
  }
  l1[(uint)get_local_id(0)] = ((uint)get_global_id(0) + 30u);
  p0[0u] = ((uint)get_global_id(0) + 40u);
  p1[1u] = ((uint)get_global_id(0) + 50u);
  v0 = l1[(uint)get_local_id(0)];
  o0[(uint)get_global_id(0)] = v0;
  v0 = p0[0u];
  o0[((uint)get_global_id(0) + 4u)] = v0;
  v0 = p1[1u];
  o0[((uint)get_global_id(0) + 8u)] = v0;
  v0 = p1[0u];
  o0[((uint)get_global_id(0) + 12u)] = v0;
  if ((uint)get_local_id(0) < 1u) {
    v0 = l0[0u];
    o0[((uint)get_group_id(0) + 16u)] = v0;
  }
}
",
    global: (4, 1),
    local: (2, 1),
    input: &[],
    sizes: &[],
    output: 18,
};

// 13 events for each item, and three more for the first of a group. The second array of an item's
// own has its first cell as it was.
#[test]
fn groups_and_items_have_cells_of_their_own(rt: HostRuntime) {
    let left = [
        30, 31, 32, 33, 40, 41, 42, 43, 50, 51, 52, 53, 9, 9, 9, 9, 20, 22,
    ];
    assert!(rt; leaves(rt.alloc(), &OWN_CELLS, &left, 58, 0));
}

// The largest group that a first line asks for.
const LARGEST_GROUP: Run = Run {
    text: "__kernel __attribute__((reqd_work_group_size(256, 1, 1))) void lift(__global uint *o0)
{
  o0[(uint)get_local_id(0)] = (uint)get_local_size(0);
}
",
    global: (256, 1),
    local: (256, 1),
    input: &[],
    sizes: &[],
    output: 256,
};

#[test]
fn a_group_of_256_items_runs(rt: HostRuntime) {
    assert!(rt; leaves(rt.alloc(), &LARGEST_GROUP, &[256; 256], 256, 0));
}
