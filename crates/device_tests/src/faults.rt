//! Each kind of fault, by steps of the machine and by whole runs, and kernels that just miss one.

use crate::texts::{OUTPUT, Run, ends, fails, first_fault, started};
use kernel_tree::events::{Access, Cell, Event, Fault, FaultKind, Seen};
use kernel_tree::tree::Array;
use std::alloc::Global;

// Two work-groups write one cell.
const RACE: Run = Run {
    text: "__kernel void lift(__global uint *o0)
{
  o0[0u] = 1u;
}
",
    global: (2, 1),
    local: (1, 1),
    input: &[],
    sizes: &[],
    output: 1,
};

const OUT_OF_RANGE: Run = Run {
    text: "__kernel void lift(__global uint *o0)
{
  o0[1u] = 1u;
}
",
    global: (1, 1),
    local: (1, 1),
    input: &[],
    sizes: &[],
    output: 1,
};

const ZERO_DIVISOR: Run = Run {
    text: "__kernel void lift(__global uint *o0)
{
  uint v0;
  v0 = (1u / 0u);
}
",
    global: (1, 1),
    local: (1, 1),
    input: &[],
    sizes: &[],
    output: 1,
};

// The first work-item of the group stands at the barrier, the second ends.
const DIVERGENT: Run = Run {
    text: "__kernel void lift(__global uint *o0)
{
  for (uint i0 = (uint)get_local_id(0); i0 < 1u; i0 += 1u) {
    barrier(CLK_LOCAL_MEM_FENCE);
  }
}
",
    global: (2, 1),
    local: (2, 1),
    input: &[],
    sizes: &[],
    output: 1,
};

// The 65,536th turn's end: an event at the entry, and two a turn.
const LOOP_WRAP: Run = Run {
    text: "__kernel void lift(__global uint *o0)
{
  uint v0;
  for (uint i0 = 0u; i0 < 4294967295u; i0 += (uint)get_global_size(0)) {
    v0 = 0u;
  }
}
",
    global: (65536, 1),
    local: (1, 1),
    input: &[],
    sizes: &[],
    output: 1,
};

const WRITES_THE_OUTPUT: Option<Access> = Some(Access::Write(OUTPUT));

const WRITES_PAST_THE_OUTPUT: Option<Access> = Some(Access::Write(Cell {
    array: Array::Output(0),
    index: 1,
}));

// A run in order, the number of the event that is its first fault, the work-item, and what
// is seen of it.
const FAULTS: [(Run, u32, u32, Option<Access>, FaultKind, Option<Cell>); 5] = [
    (RACE, 2, 1, WRITES_THE_OUTPUT, FaultKind::Race, Some(OUTPUT)),
    (
        OUT_OF_RANGE,
        1,
        0,
        WRITES_PAST_THE_OUTPUT,
        FaultKind::OutOfRange,
        None,
    ),
    (ZERO_DIVISOR, 1, 0, None, FaultKind::ZeroDivisor, None),
    (DIVERGENT, 2, 1, None, FaultKind::Divergent, None),
    (LOOP_WRAP, 131073, 0, None, FaultKind::LoopWrap, None),
];

// Whether the machine's first fault is this.
fn steps_to(alloc: Global, run: &Run, number: u32, seen: Seen) -> bool {
    let Some(mut machine) = started(alloc, run) else {
        return false;
    };
    first_fault(&mut machine) == Some((number, seen))
}

#[test]
fn a_step_tells_its_fault(rt: HostRuntime) {
    for (run, number, item, access, kind, cell) in FAULTS {
        let seen = Seen {
            event: Event::Step(item),
            access,
            fault: Some(Fault { kind, cell }),
        };
        assert!(rt; steps_to(rt.alloc(), &run, number, seen));
    }
}

#[test]
fn a_run_stops_at_its_fault(rt: HostRuntime) {
    for (run, number, item, _access, kind, cell) in FAULTS {
        assert!(rt; fails(rt.alloc(), &run, &[], (kind, number as u64, item, cell)));
    }
}

// A read, and then a write of the same cell.
const READ_AND_WRITE: Run = Run {
    text: "__kernel void lift(__global uint *o0)
{
  uint v0;
  v0 = o0[0u];
  o0[0u] = 1u;
}
",
    global: (2, 1),
    local: (1, 1),
    input: &[],
    sizes: &[],
    output: 1,
};

// The first work-item has read when the second, which has read too, writes.
#[test]
fn a_write_races_with_an_earlier_read(rt: HostRuntime) {
    let want = (FaultKind::Race, 3, 1, Some(OUTPUT));
    assert!(rt; fails(rt.alloc(), &READ_AND_WRITE, &[0, 1, 1], want));
}

// Each of two work-items writes its own local cell, and reads the other's behind a barrier.
const BY_THE_GLOBAL_FLAG: Run = Run {
    text: "__kernel void lift(__global uint *o0)
{
  __local uint l0[2];
  uint v0;
  l0[(uint)get_local_id(0)] = 1u;
  barrier(CLK_GLOBAL_MEM_FENCE);
  v0 = l0[(1u - (uint)get_local_id(0))];
}
",
    global: (2, 1),
    local: (2, 1),
    input: &[],
    sizes: &[],
    output: 1,
};

const BY_THE_LOCAL_FLAG: Run = Run {
    text: "__kernel void lift(__global uint *o0)
{
  __local uint l0[2];
  uint v0;
  l0[(uint)get_local_id(0)] = 1u;
  barrier(CLK_LOCAL_MEM_FENCE);
  v0 = l0[(1u - (uint)get_local_id(0))];
}
",
    global: (2, 1),
    local: (2, 1),
    input: &[],
    sizes: &[],
    output: 1,
};

#[test]
fn a_barrier_orders_the_memory_of_its_flag_alone(rt: HostRuntime) {
    let cell = Cell {
        array: Array::Local(0),
        index: 1,
    };
    let want = (FaultKind::Race, 4, 0, Some(cell));
    assert!(rt; fails(rt.alloc(), &BY_THE_GLOBAL_FLAG, &[], want));
    assert!(rt; ends(rt.alloc(), &BY_THE_LOCAL_FLAG, 5, 1));
}

// Each of two work-groups writes the first cell of its own local array.
const A_LOCAL_ARRAY_EACH: Run = Run {
    text: "__kernel void lift(__global uint *o0)
{
  __local uint l0[1];
  l0[0u] = 1u;
}
",
    global: (2, 1),
    local: (1, 1),
    input: &[],
    sizes: &[],
    output: 1,
};

#[test]
fn groups_have_local_arrays_of_their_own(rt: HostRuntime) {
    assert!(rt; ends(rt.alloc(), &A_LOCAL_ARRAY_EACH, 2, 0));
}

// Both groups read and write the one output cell, each behind a barrier of its own.
const BEHIND_BARRIERS: Run = Run {
    text: "__kernel void lift(__global uint *o0)
{
  uint v0;
  v0 = o0[0u];
  barrier(CLK_LOCAL_MEM_FENCE | CLK_GLOBAL_MEM_FENCE);
  o0[0u] = v0;
}
",
    global: (2, 1),
    local: (1, 1),
    input: &[],
    sizes: &[],
    output: 1,
};

// In order the first group reads, passes its barrier and writes; then the second reads.
#[test]
fn no_barrier_orders_two_groups(rt: HostRuntime) {
    let want = (FaultKind::Race, 4, 1, Some(OUTPUT));
    assert!(rt; fails(rt.alloc(), &BEHIND_BARRIERS, &[], want));
}
