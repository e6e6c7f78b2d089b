//! Vectors of four, which a script makes of numbers.

use crate::emission::{Row, all_are_emitted};
use std::test::Fail;

const ROWS: [Row; 3] = [
    // a map over the launch, by vectors
    Row {
        program: "input xs: [u32; 8]; output map(\\x. add(x, 1), xs)",
        script: "at . vector\nat 0 to-glb",
        kernel: "__kernel void lift(__global const uint *a0, __global uint *o0)
{
  uint4 w0;
  for (uint i0 = (uint)get_global_id(0); i0 < 2u; i0 += (uint)get_global_size(0)) {
    w0 = vload4(i0, a0);
    vstore4((w0 + (uint4)(1u)), i0, o0);
  }
}
",
    },
    // quotients and remainders, lane by lane
    Row {
        program: "input xs: [u32; 8]; output map(\\x. min(add(div(x, 3), x), rem(x, 5)), xs)",
        script: "at . vector\nat 0 to-seq",
        kernel: "__kernel void lift(__global const uint *a0, __global uint *o0)
{
  uint4 w0;
  for (uint i0 = 0u; i0 < 2u; i0 += 1u) {
    w0 = vload4(i0, a0);
    vstore4(min(((w0 / (uint4)(3u)) + w0), (w0 % (uint4)(5u))), i0, o0);
  }
}
",
    },
    // a number beside vectors: each kind is counted by itself
    Row {
        program: "input xs: [u32; 8]; input ys: [u32; 2]; output map(\\y. map(\\x. mul(x, y), xs), ys)",
        script: "at 1 vector\nat 1.0 to-seq\nat . to-seq",
        kernel: "__kernel void lift(__global const uint *a0, __global const uint *a1, __global uint *o0)
{
  uint v0;
  uint4 w0;
  for (uint i0 = 0u; i0 < 2u; i0 += 1u) {
    v0 = a1[i0];
    for (uint i1 = 0u; i1 < 2u; i1 += 1u) {
      w0 = vload4(i1, a0);
      vstore4((w0 * (uint4)(v0)), (((i0 * 8u) + ((i1 * 4u) + 0u)) / 4u), o0);
    }
  }
}
",
    },
];

#[test]
fn numbers_are_worked_out_by_fours(rt: HostRuntime) -> Result<(), Fail> {
    assert!(rt; all_are_emitted(rt.alloc(), &ROWS)?);
    Ok(())
}
