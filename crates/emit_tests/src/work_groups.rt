//! Maps over work-groups, with the barriers that their phases need.

use crate::emission::{Row, all_are_emitted_with};
use barrier_placement::Barrier;
use std::test::Fail;

// For local memory, before the second of two phases and at the end.
const BEFORE_THE_SECOND: [Barrier; 2] = [
    Barrier {
        before: Some(1),
        local: true,
        global: false,
        pair: (0, 1),
    },
    Barrier {
        before: None,
        local: true,
        global: false,
        pair: (1, 0),
    },
];

// For local memory, before the third of three phases and at the end.
const BEFORE_THE_THIRD: [Barrier; 2] = [
    Barrier {
        before: Some(2),
        local: true,
        global: false,
        pair: (1, 2),
    },
    Barrier {
        before: None,
        local: true,
        global: false,
        pair: (2, 1),
    },
];

const ROWS: [(&[Barrier], Row); 8] = [
    // rows of groups without local memory
    (
        &[],
        Row {
            program: "input xs: [[u32; 4]; 3]; output map(\\r. map(\\x. x, r), xs)",
            script: "at 1 to-lcl\nat . to-wrg",
            kernel: "__kernel void lift(__global const uint *a0, __global uint *o0)
{
  uint v0;
  for (uint i0 = (uint)get_group_id(0); i0 < 3u; i0 += (uint)get_num_groups(0)) {
    for (uint i1 = (uint)get_local_id(0); i1 < 4u; i1 += (uint)get_local_size(0)) {
      v0 = a0[((i0 * 4u) + i1)];
      o0[((i0 * 4u) + i1)] = v0;
    }
  }
}
",
        },
    ),
    // each item reads what it wrote: no barrier
    (
        &[],
        Row {
            program: "size N multiple 2 from 2 to 1000; input xs: [u32; N]; output map(\\x. add(x, 1), xs)",
            script: "at . split-map 2\nat 0.1.0 local-copy\nat 0.1 to-lcl\nat 0 to-wrg",
            kernel: "__kernel void lift(__global const uint *a0, __global uint *o0, const uint s0)
{
  __local uint l0[2];
  uint v0;
  uint v1;
  for (uint i0 = (uint)get_group_id(0); i0 < (s0 / 2u); i0 += (uint)get_num_groups(0)) {
    for (uint i1 = (uint)get_local_id(0); i1 < 2u; i1 += (uint)get_local_size(0)) {
      v0 = a0[((i0 * 2u) + i1)];
      l0[i1] = v0;
    }
    for (uint i1 = (uint)get_local_id(0); i1 < 2u; i1 += (uint)get_local_size(0)) {
      v1 = l0[i1];
      o0[((i0 * 2u) + i1)] = (v1 + 1u);
    }
  }
}
",
        },
    ),
    // windows of a tile read what others copied: a barrier between, and one that closes
    (
        &BEFORE_THE_SECOND,
        Row {
            program: "size N multiple 2 from 2 to 4096; input xs: [u32; N]; output join(map(\\w. reduce(add, 0, w), slide(3, 1, pad(1, 1, xs))))",
            script: "at 0.0 tile-slide 2\nat 0 map-join\nat 0.0 fuse-map\nat 0.0.1 let-inline\nat 0.0.1.0.0 local-copy\nat 0.0.1.1 reduce-fold\nat 0.0.1.1 fold-seq\nat 0.0.1 to-lcl\nat 0.0 to-wrg",
            kernel: "__kernel void lift(__global const uint *a0, __global uint *o0, const uint s0)
{
  __local uint l0[4];
  uint v0;
  uint v1;
  uint v2;
  for (uint i0 = (uint)get_group_id(0); i0 < (s0 / 2u); i0 += (uint)get_num_groups(0)) {
    for (uint i1 = (uint)get_local_id(0); i1 < 4u; i1 += (uint)get_local_size(0)) {
      v0 = a0[min((max(((i0 * 2u) + i1), 1u) - 1u), ((2u * (s0 / 2u)) - 1u))];
      l0[i1] = v0;
    }
    barrier(CLK_LOCAL_MEM_FENCE);
    for (uint i1 = (uint)get_local_id(0); i1 < 2u; i1 += (uint)get_local_size(0)) {
      v1 = 0u;
      for (uint i2 = 0u; i2 < 3u; i2 += 1u) {
        v2 = l0[((i1 * 1u) + i2)];
        v1 = (v1 + v2);
      }
      o0[((((i0 * 2u) + i1) * 1u) + 0u)] = v1;
    }
    barrier(CLK_LOCAL_MEM_FENCE);
  }
}
",
        },
    ),
    // a tile is transposed in local memory
    (
        &BEFORE_THE_SECOND,
        Row {
            program: "input xs: [[u32; 4]; 5]; output map(\\t. map(\\c. map(\\x. x, c), transpose(split(2, t))), xs)",
            script: "at 1.0.0.0 local-copy\nat 1.1 to-seq\nat 1 to-lcl\nat . to-wrg",
            kernel: "__kernel void lift(__global const uint *a0, __global uint *o0)
{
  __local uint l0[4];
  uint v0;
  uint v1;
  for (uint i0 = (uint)get_group_id(0); i0 < 5u; i0 += (uint)get_num_groups(0)) {
    for (uint i1 = (uint)get_local_id(0); i1 < 4u; i1 += (uint)get_local_size(0)) {
      v0 = a0[((i0 * 4u) + i1)];
      l0[i1] = v0;
    }
    barrier(CLK_LOCAL_MEM_FENCE);
    for (uint i1 = (uint)get_local_id(0); i1 < 2u; i1 += (uint)get_local_size(0)) {
      for (uint i2 = 0u; i2 < 2u; i2 += 1u) {
        v1 = l0[((i2 * 2u) + i1)];
        o0[((((i0 * 2u) + i1) * 2u) + i2)] = v1;
      }
    }
    barrier(CLK_LOCAL_MEM_FENCE);
  }
}
",
        },
    ),
    // of three phases the last alone reads across items
    (
        &BEFORE_THE_THIRD,
        Row {
            program: "input xs: [[u32; 4]; 5]; output map(\\t. map(\\w. fold(\\a x. add(a, x), 0, w), slide(2, 1, t)), xs)",
            script: "at 1.0.0 local-copy\nat 1.0.0 local-copy\nat 1.1 fold-seq\nat 1 to-lcl\nat . to-wrg",
            kernel: "__kernel void lift(__global const uint *a0, __global uint *o0)
{
  __local uint l0[4];
  __local uint l1[4];
  uint v0;
  uint v1;
  uint v2;
  uint v3;
  for (uint i0 = (uint)get_group_id(0); i0 < 5u; i0 += (uint)get_num_groups(0)) {
    for (uint i1 = (uint)get_local_id(0); i1 < 4u; i1 += (uint)get_local_size(0)) {
      v0 = a0[((i0 * 4u) + i1)];
      l0[i1] = v0;
    }
    for (uint i1 = (uint)get_local_id(0); i1 < 4u; i1 += (uint)get_local_size(0)) {
      v1 = l0[i1];
      l1[i1] = v1;
    }
    barrier(CLK_LOCAL_MEM_FENCE);
    for (uint i1 = (uint)get_local_id(0); i1 < 3u; i1 += (uint)get_local_size(0)) {
      v2 = 0u;
      for (uint i2 = 0u; i2 < 2u; i2 += 1u) {
        v3 = l1[((i1 * 1u) + i2)];
        v2 = (v2 + v3);
      }
      o0[((((i0 * 3u) + i1) * 1u) + 0u)] = v2;
    }
    barrier(CLK_LOCAL_MEM_FENCE);
  }
}
",
        },
    ),
    // two copies before the first reader: one barrier for both
    (
        &BEFORE_THE_THIRD,
        Row {
            program: "input xs: [[u32; 4]; 5]; input ys: [[u32; 4]; 5]; output map(\\t. map(\\w. fold(\\a p. add(a, mul(first(p), second(p))), 0, w), slide(2, 2, zip(first(t), second(t)))), zip(xs, ys))",
            script: "at 1.0.0.0 local-copy\nat 1.0.0.1 local-copy\nat 1.1 fold-seq\nat 1 to-lcl\nat . to-wrg",
            kernel: "__kernel void lift(__global const uint *a0, __global const uint *a1, __global uint *o0)
{
  __local uint l0[4];
  __local uint l1[4];
  uint v0;
  uint v1;
  uint v2;
  uint v3;
  uint v4;
  for (uint i0 = (uint)get_group_id(0); i0 < 5u; i0 += (uint)get_num_groups(0)) {
    for (uint i1 = (uint)get_local_id(0); i1 < 4u; i1 += (uint)get_local_size(0)) {
      v0 = a0[((i0 * 4u) + i1)];
      l0[i1] = v0;
    }
    for (uint i1 = (uint)get_local_id(0); i1 < 4u; i1 += (uint)get_local_size(0)) {
      v1 = a1[((i0 * 4u) + i1)];
      l1[i1] = v1;
    }
    barrier(CLK_LOCAL_MEM_FENCE);
    for (uint i1 = (uint)get_local_id(0); i1 < 2u; i1 += (uint)get_local_size(0)) {
      v2 = 0u;
      for (uint i2 = 0u; i2 < 2u; i2 += 1u) {
        v3 = l0[((i1 * 2u) + i2)];
        v4 = l1[((i1 * 2u) + i2)];
        v2 = (v2 + (v3 * v4));
      }
      o0[((((i0 * 2u) + i1) * 1u) + 0u)] = v2;
    }
    barrier(CLK_LOCAL_MEM_FENCE);
  }
}
",
        },
    ),
    // a copy that is written through a layout is aligned with nothing
    (
        &BEFORE_THE_SECOND,
        Row {
            program: "input xs: [[[u32; 2]; 2]; 5]; output map(\\t. map(\\x. x, join(map(\\r. map(\\x. x, r), t))), xs)",
            script: "at 1.0 local\nat 1.0.0.0.1 to-seq\nat 1.0.0.0 to-lcl\nat 1 to-lcl\nat . to-wrg",
            kernel: "__kernel void lift(__global const uint *a0, __global uint *o0)
{
  __local uint l0[4];
  uint v0;
  uint v1;
  for (uint i0 = (uint)get_group_id(0); i0 < 5u; i0 += (uint)get_num_groups(0)) {
    for (uint i1 = (uint)get_local_id(0); i1 < 2u; i1 += (uint)get_local_size(0)) {
      for (uint i2 = 0u; i2 < 2u; i2 += 1u) {
        v0 = a0[((((i0 * 2u) + i1) * 2u) + i2)];
        l0[((i1 * 2u) + i2)] = v0;
      }
    }
    barrier(CLK_LOCAL_MEM_FENCE);
    for (uint i1 = (uint)get_local_id(0); i1 < 4u; i1 += (uint)get_local_size(0)) {
      v1 = l0[i1];
      o0[((i0 * 4u) + i1)] = v1;
    }
    barrier(CLK_LOCAL_MEM_FENCE);
  }
}
",
        },
    ),
    // pairs in two local arrays, a let around the reader, and a private copy in its turn
    (
        &BEFORE_THE_SECOND,
        Row {
            program: "input xs: [[(u32, u32); 4]; 5]; output map(\\t. let c = t in map(\\w. fold(\\a p. add(a, second(p)), 0, w), slide(2, 1, c)), xs)",
            script: "at 1.0 local-copy\nat 1.1.1.0 private-copy\nat 1.1.1 fold-seq\nat 1.1 to-lcl\nat . to-wrg",
            kernel: "__kernel void lift(__global const uint *a0, __global const uint *a1, __global uint *o0)
{
  __local uint l0[4];
  __local uint l1[4];
  uint p0[2];
  uint p1[2];
  uint v0;
  uint v1;
  uint v2;
  uint v3;
  uint v4;
  uint v5;
  for (uint i0 = (uint)get_group_id(0); i0 < 5u; i0 += (uint)get_num_groups(0)) {
    for (uint i1 = (uint)get_local_id(0); i1 < 4u; i1 += (uint)get_local_size(0)) {
      v0 = a0[((i0 * 4u) + i1)];
      v1 = a1[((i0 * 4u) + i1)];
      l0[i1] = v0;
      l1[i1] = v1;
    }
    barrier(CLK_LOCAL_MEM_FENCE);
    for (uint i1 = (uint)get_local_id(0); i1 < 3u; i1 += (uint)get_local_size(0)) {
      for (uint i2 = 0u; i2 < 2u; i2 += 1u) {
        v2 = l0[((i1 * 1u) + i2)];
        v3 = l1[((i1 * 1u) + i2)];
        p0[i2] = v2;
        p1[i2] = v3;
      }
      v4 = 0u;
      for (uint i2 = 0u; i2 < 2u; i2 += 1u) {
        v5 = p1[i2];
        v4 = (v4 + v5);
      }
      o0[((((i0 * 3u) + i1) * 1u) + 0u)] = v4;
    }
    barrier(CLK_LOCAL_MEM_FENCE);
  }
}
",
        },
    ),
];

#[test]
fn groups_take_turns_phase_by_phase(rt: HostRuntime) -> Result<(), Fail> {
    assert!(rt; all_are_emitted_with(rt.alloc(), &ROWS)?);
    Ok(())
}
