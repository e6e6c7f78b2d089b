//! Folds.

use crate::emission::{Row, all_are_emitted};
use std::test::Fail;

const ROWS: [Row; 6] = [
    // a sum
    Row {
        program: "size N from 1 to 9; input xs: [u32; N]; output fold(\\a x. add(a, x), 5, xs)",
        script: "at . fold-seq",
        kernel: "__kernel void lift(__global const uint *a0, __global uint *o0, const uint s0)
{
  uint v0;
  uint v1;
  v0 = 5u;
  for (uint i0 = 0u; i0 < s0; i0 += 1u) {
    v1 = a0[i0];
    v0 = (v0 + v1);
  }
  o0[0u] = v0;
}
",
    },
    // two components, which change at once
    Row {
        program: "input xs: [u32; 3]; output fold(\\a x. pair(second(a), add(first(a), x)), pair(0, 1), xs)",
        script: "at . fold-seq",
        kernel: "__kernel void lift(__global const uint *a0, __global uint *o0, __global uint *o1)
{
  uint v0;
  uint v1;
  uint v2;
  uint v3;
  uint v4;
  v0 = 0u;
  v1 = 1u;
  for (uint i0 = 0u; i0 < 3u; i0 += 1u) {
    v2 = a0[i0];
    v3 = v1;
    v4 = (v0 + v2);
    v0 = v3;
    v1 = v4;
  }
  o0[0u] = v0;
  o1[0u] = v1;
}
",
    },
    // lets in the start and in the turn
    Row {
        program: "input xs: [u32; 3]; output fold(\\a x. let y = mul(x, x) in pair(add(first(a), y), max(second(a), x)), let s = 3 in pair(s, add(s, s)), xs)",
        script: "at . fold-seq",
        kernel: "__kernel void lift(__global const uint *a0, __global uint *o0, __global uint *o1)
{
  uint v0;
  uint v1;
  uint v2;
  uint v3;
  uint v4;
  uint v5;
  uint v6;
  v0 = 3u;
  v1 = v0;
  v2 = (v0 + v0);
  for (uint i0 = 0u; i0 < 3u; i0 += 1u) {
    v3 = a0[i0];
    v4 = (v3 * v3);
    v5 = (v1 + v4);
    v6 = max(v2, v3);
    v1 = v5;
    v2 = v6;
  }
  o0[0u] = v1;
  o1[0u] = v2;
}
",
    },
    // one of each row, in an array of arrays of one
    Row {
        program: "input xs: [[u32; 4]; 3]; output map(\\r. fold(\\a x. add(a, x), 0, r), xs)",
        script: "at 1 fold-seq\nat . to-seq",
        kernel: "__kernel void lift(__global const uint *a0, __global uint *o0)
{
  uint v0;
  uint v1;
  for (uint i0 = 0u; i0 < 3u; i0 += 1u) {
    v0 = 0u;
    for (uint i1 = 0u; i1 < 4u; i1 += 1u) {
      v1 = a0[((i0 * 4u) + i1)];
      v0 = (v0 + v1);
    }
    o0[((i0 * 1u) + 0u)] = v0;
  }
}
",
    },
    // over rows, of which nothing is loaded
    Row {
        program: "input xs: [[u32; 4]; 3]; output fold(\\a r. add(a, 1), 0, xs)",
        script: "at . fold-seq",
        kernel: "__kernel void lift(__global const uint *a0, __global uint *o0)
{
  uint v0;
  v0 = 0u;
  for (uint i0 = 0u; i0 < 3u; i0 += 1u) {
    v0 = (v0 + 1u);
  }
  o0[0u] = v0;
}
",
    },
    // over partial sums in private memory
    Row {
        program: "input xs: [u32; 4]; output reduce(add, 5, xs)",
        script: "at . split-reduce 2\nat . reduce-fold\nat 0.0.1 reduce-fold\nat 0.0.1 fold-seq\nat 0.0 to-seq\nat 0 private\nat . fold-seq",
        kernel: "__kernel void lift(__global const uint *a0, __global uint *o0)
{
  uint p0[2];
  uint v0;
  uint v1;
  uint v2;
  uint v3;
  for (uint i0 = 0u; i0 < 2u; i0 += 1u) {
    v0 = 0u;
    for (uint i1 = 0u; i1 < 2u; i1 += 1u) {
      v1 = a0[((i0 * 2u) + i1)];
      v0 = (v0 + v1);
    }
    p0[((i0 * 1u) + 0u)] = v0;
  }
  v2 = 5u;
  for (uint i0 = 0u; i0 < 2u; i0 += 1u) {
    v3 = p0[i0];
    v2 = (v2 + v3);
  }
  o0[0u] = v2;
}
",
    },
];

#[test]
fn folds_keep_their_accumulators_in_variables(rt: HostRuntime) -> Result<(), Fail> {
    assert!(rt; all_are_emitted(rt.alloc(), &ROWS)?);
    Ok(())
}
