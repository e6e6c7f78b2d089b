//! Loads and stores of four cells.

use crate::texts::{Run, ends, fails, leaves, output_cell, traced};
use kernel_tree::events::{Access, Cell, Event, Fault, FaultKind, Seen};
use kernel_tree::tree::Array;

// The second four of the output.
const LOADS: Run = Run {
    text: "__kernel void lift(__global uint *o0)
{
  uint4 w0;
  w0 = vload4(1u, o0);
}
",
    global: (1, 1),
    local: (1, 1),
    input: &[],
    sizes: &[],
    output: 7,
};

#[test]
fn four_cells_are_out_of_range_by_the_last_alone(rt: HostRuntime) {
    let want = (FaultKind::OutOfRange, 1, 0, None);
    assert!(rt; fails(rt.alloc(), &LOADS, &[], want));
    let with_the_last = Run { output: 8, ..LOADS };
    assert!(rt; ends(rt.alloc(), &with_the_last, 1, 0));
}

// Each of two work-groups stores the second four.
const STORES: Run = Run {
    text: "__kernel void lift(__global uint *o0)
{
  vstore4((uint4)(1u), 1u, o0);
}
",
    global: (2, 1),
    local: (1, 1),
    input: &[],
    sizes: &[],
    output: 8,
};

#[test]
fn two_stores_of_four_race_at_their_least_cell(rt: HostRuntime) {
    let want = (FaultKind::Race, 2, 1, Some(output_cell(4)));
    assert!(rt; fails(rt.alloc(), &STORES, &[], want));
}

// Each of two work-items of a group, in local memory.
const STORES_IN_A_GROUP: Run = Run {
    text: "__kernel void lift(__global uint *o0)
{
  __local uint l0[8];
  vstore4((uint4)(1u), 1u, l0);
}
",
    global: (2, 1),
    local: (2, 1),
    input: &[],
    sizes: &[],
    output: 1,
};

#[test]
fn fours_race_in_local_memory(rt: HostRuntime) {
    let cell = Cell {
        array: Array::Local(0),
        index: 4,
    };
    let want = (FaultKind::Race, 2, 1, Some(cell));
    assert!(rt; fails(rt.alloc(), &STORES_IN_A_GROUP, &[], want));
}

// The first item loads the third of the four cells before it stores them.
const STORES_BESIDE_A_LOAD: Run = Run {
    text: "__kernel void lift(__global uint *o0)
{
  uint v0;
  if ((uint)get_global_id(0) < 1u) {
    v0 = o0[6u];
  }
  vstore4((uint4)(1u), 1u, o0);
}
",
    global: (2, 1),
    local: (1, 1),
    input: &[],
    sizes: &[],
    output: 8,
};

// The first item tests and loads, the second tests and stores.
#[test]
fn a_store_of_four_races_where_another_item_loads(rt: HostRuntime) {
    let want = (FaultKind::Race, 4, 1, Some(output_cell(6)));
    assert!(rt; fails(rt.alloc(), &STORES_BESIDE_A_LOAD, &[0, 0, 1, 1], want));
}

// Both test, the second stores, and then the first loads.
#[test]
fn a_load_races_with_an_earlier_store_of_four(rt: HostRuntime) {
    let want = (FaultKind::Race, 4, 0, Some(output_cell(6)));
    assert!(rt; fails(rt.alloc(), &STORES_BESIDE_A_LOAD, &[0, 1, 1, 0], want));
}

// The third lane's divisor is 0.
const A_LANE_BY_ZERO: Run = Run {
    text: "__kernel void lift(__global uint *o0)
{
  uint4 w0;
  o0[0u] = 1u;
  o0[1u] = 2u;
  o0[3u] = 4u;
  w0 = vload4(0u, o0);
  w0 = ((uint4)(8u) / w0);
  vstore4(w0, 0u, o0);
}
",
    global: (1, 1),
    local: (1, 1),
    input: &[],
    sizes: &[],
    output: 4,
};

// No lane's divisor is 0.
const LANES: Run = Run {
    text: "__kernel void lift(__global uint *o0)
{
  uint4 w0;
  o0[0u] = 1u;
  o0[1u] = 2u;
  o0[2u] = 8u;
  o0[3u] = 4u;
  w0 = vload4(0u, o0);
  w0 = ((uint4)(8u) / w0);
  vstore4(w0, 0u, o0);
}
",
    global: (1, 1),
    local: (1, 1),
    input: &[],
    sizes: &[],
    output: 4,
};

#[test]
fn a_divisor_of_zero_in_one_lane_is_a_fault(rt: HostRuntime) {
    let want = (FaultKind::ZeroDivisor, 5, 0, None);
    assert!(rt; fails(rt.alloc(), &A_LANE_BY_ZERO, &[], want));
    assert!(rt; leaves(rt.alloc(), &LANES, &[8, 4, 1, 2], 7, 0));
}

// Four times the offset is 2^32.
const STORES_FAR: Run = Run {
    text: "__kernel void lift(__global uint *o0)
{
  vstore4((uint4)(1u), 1073741824u, o0);
}
",
    global: (1, 1),
    local: (1, 1),
    input: &[],
    sizes: &[],
    output: 4,
};

#[test]
fn offsets_count_fours_without_wrapping(rt: HostRuntime) {
    let alloc = rt.alloc();
    let want = (FaultKind::OutOfRange, 1, 0, None);
    assert!(rt; fails(alloc, &STORES_FAR, &[], want));
    let wanted = [Seen {
        event: Event::Step(0),
        access: Some(Access::WriteFour(output_cell(4294967296))),
        fault: Some(Fault {
            kind: FaultKind::OutOfRange,
            cell: None,
        }),
    }];
    let seen = traced(alloc, &STORES_FAR, &[]).expect(&rt, "the run begins");
    assert!(rt; seen.as_slice() == wanted.as_slice());
}

// A variable of four words that none has set.
const UNSET: Run = Run {
    text: "__kernel void lift(__global uint *o0)
{
  uint4 w0;
  vstore4(w0, 0u, o0);
}
",
    global: (1, 1),
    local: (1, 1),
    input: &[],
    sizes: &[],
    output: 4,
};

#[test]
fn fours_hold_the_given_word_at_first(rt: HostRuntime) {
    assert!(rt; leaves(rt.alloc(), &UNSET, &[9, 9, 9, 9], 1, 0));
}

// A map over eight words as two fours.
const SUMS: Run = Run {
    text: "__kernel void lift(__global const uint *a0, __global uint *o0)
{
  uint4 w0;
  for (uint i0 = (uint)get_global_id(0); i0 < 2u; i0 += (uint)get_global_size(0)) {
    w0 = vload4(i0, a0);
    vstore4((w0 + (uint4)(1u)), i0, o0);
  }
}
",
    global: (2, 1),
    local: (1, 1),
    input: &[1, 2, 3, 4, 5, 6, 7, 8],
    sizes: &[],
    output: 8,
};

#[test]
fn fours_are_added_lane_by_lane(rt: HostRuntime) {
    assert!(rt; leaves(rt.alloc(), &SUMS, &[2, 3, 4, 5, 6, 7, 8, 9], 8, 0));
}

#[test]
fn an_access_of_four_names_its_first_cell(rt: HostRuntime) {
    let seen = traced(rt.alloc(), &SUMS, &[1]).expect(&rt, "the run begins");
    let input = Cell {
        array: Array::Input(0),
        index: 4,
    };
    let accesses = [
        None,
        None,
        Some(Access::ReadFour(Cell { index: 0, ..input })),
        Some(Access::WriteFour(output_cell(0))),
        None,
        Some(Access::ReadFour(input)),
        Some(Access::WriteFour(output_cell(4))),
        None,
    ];
    assert!(rt; seen.len() == 8);
    for (sight, access) in seen.iter().zip(accesses.iter()) {
        assert!(rt; sight.access == *access && sight.fault.is_none());
    }
}

// Three variables of four.
const THREE_VARIABLES: Run = Run {
    text: "__kernel void lift(__global uint *o0)
{
  uint4 w0;
  uint4 w1;
  uint4 w2;
  w0 = (uint4)(1u);
  w1 = (uint4)(2u);
  w2 = (uint4)(4u);
  w1 = (w0 + w1);
  vstore4(w0, 0u, o0);
  vstore4(w1, 1u, o0);
  vstore4(w2, 2u, o0);
}
",
    global: (1, 1),
    local: (1, 1),
    input: &[],
    sizes: &[],
    output: 12,
};

#[test]
fn each_variable_of_four_is_its_own(rt: HostRuntime) {
    let left = [1, 1, 1, 1, 3, 3, 3, 3, 4, 4, 4, 4];
    assert!(rt; leaves(rt.alloc(), &THREE_VARIABLES, &left, 7, 0));
}
