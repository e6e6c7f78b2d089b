//! Work-items in two dimensions: two by two groups, each of two columns and three rows.
//!
//! The 24 items stand in rows of four: group 0 has items 0, 1, 4, 5, 8 and 9, group 1 items 2, 3,
//! 6, 7, 10 and 11, and groups 2 and 3 the same three rows below, from item 12 and item 14 on.

use crate::texts::{Run, enables, ends, leaves, started, take, traced};
use kernel_tree::events::{Access, Event, Seen};
use kernel_tree::tree::Array;

// Each item's local ids, and its group's ids in hundreds and thousands.
const IDS: Run = Run {
    text: "__kernel void lift(__global uint *o0)
{
  o0[((uint)get_global_id(0) + (4u * (uint)get_global_id(1)))] = (((uint)get_local_id(0) + (10u * (uint)get_local_id(1))) + ((100u * (uint)get_group_id(0)) + (1000u * (uint)get_group_id(1))));
}
",
    global: (4, 6),
    local: (2, 3),
    input: &[],
    sizes: &[],
    output: 24,
};

#[test]
fn each_item_has_ids_in_both_dimensions(rt: HostRuntime) {
    let ids = [
        0, 1, 100, 101, 10, 11, 110, 111, 20, 21, 120, 121, 1000, 1001, 1100, 1101, 1010, 1011,
        1110, 1111, 1020, 1021, 1120, 1121,
    ];
    assert!(rt; leaves(rt.alloc(), &IDS, &ids, 24, 0));
}

// The counts of items, of groups and of a group's items, in both dimensions, digit by digit.
const COUNTS: Run = Run {
    text: "__kernel void lift(__global uint *o0)
{
  o0[((uint)get_global_id(0) + (4u * (uint)get_global_id(1)))] = (((uint)get_global_size(0) + (10u * (uint)get_global_size(1))) + (((100u * (uint)get_num_groups(0)) + (1000u * (uint)get_num_groups(1))) + ((10000u * (uint)get_local_size(0)) + (100000u * (uint)get_local_size(1)))));
}
",
    global: (4, 6),
    local: (2, 3),
    input: &[],
    sizes: &[],
    output: 24,
};

#[test]
fn all_items_have_the_same_counts(rt: HostRuntime) {
    assert!(rt; leaves(rt.alloc(), &COUNTS, &[322264; 24], 24, 0));
}

// Every item stands at the barrier, and then writes a cell of its own.
const BEHIND_A_BARRIER: Run = Run {
    text: "__kernel void lift(__global uint *o0)
{
  barrier(CLK_LOCAL_MEM_FENCE);
  o0[((uint)get_global_id(0) + (4u * (uint)get_global_id(1)))] = 1u;
}
",
    global: (4, 6),
    local: (2, 3),
    input: &[],
    sizes: &[],
    output: 24,
};

// A release stands at its group's least item, which of group 1 is between two items of group 0.
#[test]
fn releases_stand_among_the_items(rt: HostRuntime) {
    let mut machine = started(rt.alloc(), &BEHIND_A_BARRIER).expect(&rt, "the run begins");
    let releases = [
        Event::Release(0),
        Event::Release(1),
        Event::Release(2),
        Event::Release(3),
    ];
    assert!(rt; enables(&machine, &releases));
    let released = Seen {
        event: Event::Release(1),
        access: None,
        fault: None,
    };
    assert!(rt; take(&mut machine, 1) == Some(released));
    let behind = [
        Event::Release(0),
        Event::Step(2),
        Event::Step(3),
        Event::Step(6),
        Event::Step(7),
        Event::Step(10),
        Event::Step(11),
        Event::Release(2),
        Event::Release(3),
    ];
    assert!(rt; enables(&machine, &behind));
}

// Group 0 is released while the items of group 1, some of them before its own, can step.
#[test]
fn items_step_in_their_own_order(rt: HostRuntime) {
    let mut machine = started(rt.alloc(), &BEHIND_A_BARRIER).expect(&rt, "the run begins");
    let _ = take(&mut machine, 1);
    let _ = take(&mut machine, 0);
    let steps = [
        Event::Step(0),
        Event::Step(1),
        Event::Step(2),
        Event::Step(3),
        Event::Step(4),
        Event::Step(5),
        Event::Step(6),
        Event::Step(7),
        Event::Step(8),
        Event::Step(9),
        Event::Step(10),
        Event::Step(11),
        Event::Release(2),
        Event::Release(3),
    ];
    assert!(rt; enables(&machine, &steps));
    assert!(rt; ends(rt.alloc(), &BEHIND_A_BARRIER, 28, 4));
}

// A map over rows and one over their words, each by a dimension of its own.
const ROWS: Run = Run {
    text: "__kernel void lift(__global const uint *a0, __global uint *o0)
{
  uint v0;
  for (uint i0 = (uint)get_global_id(1); i0 < 2u; i0 += (uint)get_global_size(1)) {
    for (uint i1 = (uint)get_global_id(0); i1 < 3u; i1 += (uint)get_global_size(0)) {
      v0 = a0[((i0 * 3u) + i1)];
      o0[((i0 * 3u) + i1)] = (v0 + 1u);
    }
  }
}
",
    global: (2, 2),
    local: (1, 1),
    input: &[1, 2, 3, 4, 5, 6],
    sizes: &[],
    output: 6,
};

#[test]
fn rows_and_columns_are_shared_out(rt: HostRuntime) {
    assert!(rt; leaves(rt.alloc(), &ROWS, &[2, 3, 4, 5, 6, 7], 30, 0));
    let in_a_row = Run {
        global: (4, 1),
        ..ROWS
    };
    assert!(rt; leaves(rt.alloc(), &in_a_row, &[2, 3, 4, 5, 6, 7], 38, 0));
}

// The cells of the output that the item writes, in turn, where these are all.
fn writes(seen: &[Seen], item: u32, cells: &[u64]) -> bool {
    let mut number: usize = 0;
    for sight in seen {
        if sight.event != Event::Step(item) {
            continue;
        }
        if let Some(Access::Write(cell)) = sight.access {
            if cell.array != Array::Output(0) || cells.get(number) != Some(&cell.index) {
                return false;
            }
            number = number.wrapping_add(1);
        }
    }
    number == cells.len()
}

#[test]
fn the_third_item_writes_in_the_second_row(rt: HostRuntime) {
    let seen = traced(rt.alloc(), &ROWS, &[]).expect(&rt, "the run begins");
    assert!(rt; writes(seen.as_slice(), 2, &[3, 5]));
}
