//! Copies in private memory.

use crate::emission::{Row, all_are_emitted};
use std::test::Fail;

const ROWS: [Row; 5] = [
    // one array
    Row {
        program: "input xs: [u32; 3]; output map(\\x. add(x, 1), xs)",
        script: "at 0 private-copy\nat . to-seq",
        kernel: "__kernel void lift(__global const uint *a0, __global uint *o0)
{
  uint p0[3];
  uint v0;
  uint v1;
  for (uint i0 = 0u; i0 < 3u; i0 += 1u) {
    v0 = a0[i0];
    p0[i0] = v0;
  }
  for (uint i0 = 0u; i0 < 3u; i0 += 1u) {
    v1 = p0[i0];
    o0[i0] = (v1 + 1u);
  }
}
",
    },
    // pairs, an array for each component
    Row {
        program: "input xs: [(u32, u32); 3]; output map(\\p. add(first(p), second(p)), xs)",
        script: "at 0 private-copy\nat . to-seq",
        kernel: "__kernel void lift(__global const uint *a0, __global const uint *a1, __global uint *o0)
{
  uint p0[3];
  uint p1[3];
  uint v0;
  uint v1;
  uint v2;
  uint v3;
  for (uint i0 = 0u; i0 < 3u; i0 += 1u) {
    v0 = a0[i0];
    v1 = a1[i0];
    p0[i0] = v0;
    p1[i0] = v1;
  }
  for (uint i0 = 0u; i0 < 3u; i0 += 1u) {
    v2 = p0[i0];
    v3 = p1[i0];
    o0[i0] = (v2 + v3);
  }
}
",
    },
    // a copy of a copy beside another
    Row {
        program: "input xs: [u32; 3]; input ys: [u32; 3]; output map(\\p. p, zip(xs, ys))",
        script: "at 0.0 private-copy\nat 0.0 private-copy\nat 0.1 private-copy\nat . to-seq",
        kernel: "__kernel void lift(__global const uint *a0, __global const uint *a1, __global uint *o0, __global uint *o1)
{
  uint p0[3];
  uint p1[3];
  uint p2[3];
  uint v0;
  uint v1;
  uint v2;
  uint v3;
  uint v4;
  for (uint i0 = 0u; i0 < 3u; i0 += 1u) {
    v0 = a0[i0];
    p0[i0] = v0;
  }
  for (uint i0 = 0u; i0 < 3u; i0 += 1u) {
    v1 = p0[i0];
    p1[i0] = v1;
  }
  for (uint i0 = 0u; i0 < 3u; i0 += 1u) {
    v2 = a1[i0];
    p2[i0] = v2;
  }
  for (uint i0 = 0u; i0 < 3u; i0 += 1u) {
    v3 = p1[i0];
    v4 = p2[i0];
    o0[i0] = v3;
    o1[i0] = v4;
  }
}
",
    },
    // columns, written through a layout
    Row {
        program: "input xs: [[u32; 3]; 2]; output map(\\c. map(\\x. x, c), transpose(map(\\r. map(\\x. x, r), xs)))",
        script: "at 0 private\nat 0.0.0.1 to-seq\nat 0.0.0 to-seq\nat 1 to-seq\nat . to-seq",
        kernel: "__kernel void lift(__global const uint *a0, __global uint *o0)
{
  uint p0[6];
  uint v0;
  uint v1;
  for (uint i0 = 0u; i0 < 2u; i0 += 1u) {
    for (uint i1 = 0u; i1 < 3u; i1 += 1u) {
      v0 = a0[((i0 * 3u) + i1)];
      p0[((i1 * 2u) + i0)] = v0;
    }
  }
  for (uint i0 = 0u; i0 < 3u; i0 += 1u) {
    for (uint i1 = 0u; i1 < 2u; i1 += 1u) {
      v1 = p0[((i0 * 2u) + i1)];
      o0[((i0 * 2u) + i1)] = v1;
    }
  }
}
",
    },
    // a row, anew in each turn of a work-item
    Row {
        program: "size N from 1 to 9; input xs: [[u32; 4]; N]; output map(\\r. fold(\\a x. max(a, x), 0, r), xs)",
        script: "at 1.0 private-copy\nat 1 fold-seq\nat . to-glb",
        kernel: "__kernel void lift(__global const uint *a0, __global uint *o0, const uint s0)
{
  uint p0[4];
  uint v0;
  uint v1;
  uint v2;
  for (uint i0 = (uint)get_global_id(0); i0 < s0; i0 += (uint)get_global_size(0)) {
    for (uint i1 = 0u; i1 < 4u; i1 += 1u) {
      v0 = a0[((i0 * 4u) + i1)];
      p0[i1] = v0;
    }
    v1 = 0u;
    for (uint i1 = 0u; i1 < 4u; i1 += 1u) {
      v2 = p0[i1];
      v1 = max(v1, v2);
    }
    o0[((i0 * 1u) + 0u)] = v1;
  }
}
",
    },
];

#[test]
fn private_copies_are_made_first(rt: HostRuntime) -> Result<(), Fail> {
    assert!(rt; all_are_emitted(rt.alloc(), &ROWS)?);
    Ok(())
}
