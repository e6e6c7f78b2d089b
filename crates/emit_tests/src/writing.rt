//! Arrays that are written through layouts.

use crate::emission::{Row, all_are_emitted};
use std::test::Fail;

const ROWS: [Row; 5] = [
    // rows one after another
    Row {
        program: "input xs: [u32; 6]; output join(map(\\r. map(\\x. x, r), split(2, xs)))",
        script: "at 0.1 to-seq\nat 0 to-seq",
        kernel: "__kernel void lift(__global const uint *a0, __global uint *o0)
{
  uint v0;
  for (uint i0 = 0u; i0 < 3u; i0 += 1u) {
    for (uint i1 = 0u; i1 < 2u; i1 += 1u) {
      v0 = a0[((i0 * 2u) + i1)];
      o0[((i0 * 2u) + i1)] = v0;
    }
  }
}
",
    },
    // the parts of a split array
    Row {
        program: "input xs: [u32; 6]; output split(3, map(\\x. x, xs))",
        script: "at 0 to-seq",
        kernel: "__kernel void lift(__global const uint *a0, __global uint *o0)
{
  uint v0;
  for (uint i0 = 0u; i0 < 6u; i0 += 1u) {
    v0 = a0[i0];
    o0[(((i0 / 3u) * 3u) + (i0 % 3u))] = v0;
  }
}
",
    },
    // columns
    Row {
        program: "input xs: [[u32; 3]; 2]; output transpose(map(\\r. map(\\x. x, r), xs))",
        script: "at 0.1 to-seq\nat 0 to-seq",
        kernel: "__kernel void lift(__global const uint *a0, __global uint *o0)
{
  uint v0;
  for (uint i0 = 0u; i0 < 2u; i0 += 1u) {
    for (uint i1 = 0u; i1 < 3u; i1 += 1u) {
      v0 = a0[((i0 * 3u) + i1)];
      o0[((i1 * 2u) + i0)] = v0;
    }
  }
}
",
    },
    // rows in the turn of a map
    Row {
        program: "input xs: [[u32; 4]; 2]; output map(\\r. join(map(\\s. map(\\x. x, s), split(2, r))), xs)",
        script: "at 1.0.1 to-seq\nat 1.0 to-seq\nat . to-seq",
        kernel: "__kernel void lift(__global const uint *a0, __global uint *o0)
{
  uint v0;
  for (uint i0 = 0u; i0 < 2u; i0 += 1u) {
    for (uint i1 = 0u; i1 < 2u; i1 += 1u) {
      for (uint i2 = 0u; i2 < 2u; i2 += 1u) {
        v0 = a0[((i0 * 4u) + ((i1 * 2u) + i2))];
        o0[((i0 * 4u) + ((i1 * 2u) + i2))] = v0;
      }
    }
  }
}
",
    },
    // pairs, through two layouts under a let
    Row {
        program: "input xs: [[(u32, u32); 2]; 3]; output let ys = xs in join(transpose(map(\\r. map(\\p. pair(second(p), first(p)), r), ys)))",
        script: "at 1.0.0.1 to-seq\nat 1.0.0 to-seq",
        kernel: "__kernel void lift(__global const uint *a0, __global const uint *a1, __global uint *o0, __global uint *o1)
{
  uint v0;
  uint v1;
  for (uint i0 = 0u; i0 < 3u; i0 += 1u) {
    for (uint i1 = 0u; i1 < 2u; i1 += 1u) {
      v0 = a0[((i0 * 2u) + i1)];
      v1 = a1[((i0 * 2u) + i1)];
      o0[((i1 * 3u) + i0)] = v1;
      o1[((i1 * 3u) + i0)] = v0;
    }
  }
}
",
    },
];

#[test]
fn arrays_are_written_through_layouts(rt: HostRuntime) -> Result<(), Fail> {
    assert!(rt; all_are_emitted(rt.alloc(), &ROWS)?);
    Ok(())
}
