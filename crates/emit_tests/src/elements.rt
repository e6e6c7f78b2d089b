//! Elements that are worked out.

use crate::emission::{Row, all_are_emitted};
use std::test::Fail;

const ROWS: [Row; 8] = [
    // operators
    Row {
        program: "input xs: [u32; 2]; output map(\\x. add(max(min(sub(x, 1), shl(x, 2)), shr(x, 3)), xor(or(and(x, 4), x), mul(x, 5))), xs)",
        script: "at . to-seq",
        kernel: "__kernel void lift(__global const uint *a0, __global uint *o0)
{
  uint v0;
  for (uint i0 = 0u; i0 < 2u; i0 += 1u) {
    v0 = a0[i0];
    o0[i0] = (max(min((v0 - 1u), (v0 << 2u)), (v0 >> 3u)) + (((v0 & 4u) | v0) ^ (v0 * 5u)));
  }
}
",
    },
    // comparisons and a choice
    Row {
        program: "input xs: [u32; 2]; output map(\\x. select(lt(x, 3), x, eq(x, 4294967295)), xs)",
        script: "at . to-seq",
        kernel: "__kernel void lift(__global const uint *a0, __global uint *o0)
{
  uint v0;
  for (uint i0 = 0u; i0 < 2u; i0 += 1u) {
    v0 = a0[i0];
    o0[i0] = ((v0 < 3u ? 1u : 0u) == 0u ? (v0 == 4294967295u ? 1u : 0u) : v0);
  }
}
",
    },
    // quotients and remainders
    Row {
        program: "input xs: [u32; 2]; output map(\\x. add(div(x, 3), rem(x, 5)), xs)",
        script: "at . to-seq",
        kernel: "__kernel void lift(__global const uint *a0, __global uint *o0)
{
  uint v0;
  for (uint i0 = 0u; i0 < 2u; i0 += 1u) {
    v0 = a0[i0];
    o0[i0] = ((v0 / 3u) + (v0 % 5u));
  }
}
",
    },
    // a body that names nothing
    Row {
        program: "input xs: [u32; 2]; output map(\\x. 7, xs)",
        script: "at . to-seq",
        kernel: "__kernel void lift(__global const uint *a0, __global uint *o0)
{
  for (uint i0 = 0u; i0 < 2u; i0 += 1u) {
    o0[i0] = 7u;
  }
}
",
    },
    // lets, each after those in its value and before those in its body
    Row {
        program: "input xs: [u32; 2]; output map(\\x. let y = let z = add(x, 1) in mul(z, z) in add(y, let w = 2 in sub(w, x)), xs)",
        script: "at . to-seq",
        kernel: "__kernel void lift(__global const uint *a0, __global uint *o0)
{
  uint v0;
  uint v1;
  uint v2;
  uint v3;
  for (uint i0 = 0u; i0 < 2u; i0 += 1u) {
    v0 = a0[i0];
    v1 = (v0 + 1u);
    v2 = (v1 * v1);
    v3 = 2u;
    o0[i0] = (v2 + (v3 - v0));
  }
}
",
    },
    // lets in each part of a choice
    Row {
        program: "input xs: [u32; 2]; output map(\\x. select(let a = add(x, 1) in a, let b = add(x, 2) in b, let c = add(x, 3) in c), xs)",
        script: "at . to-seq",
        kernel: "__kernel void lift(__global const uint *a0, __global uint *o0)
{
  uint v0;
  uint v1;
  uint v2;
  uint v3;
  for (uint i0 = 0u; i0 < 2u; i0 += 1u) {
    v0 = a0[i0];
    v1 = (v0 + 1u);
    v2 = (v0 + 2u);
    v3 = (v0 + 3u);
    o0[i0] = (v1 == 0u ? v3 : v2);
  }
}
",
    },
    // a pair that is let
    Row {
        program: "input xs: [u32; 2]; output map(\\x. let p = pair(x, add(x, 1)) in pair(second(p), first(p)), xs)",
        script: "at . to-seq",
        kernel: "__kernel void lift(__global const uint *a0, __global uint *o0, __global uint *o1)
{
  uint v0;
  uint v1;
  uint v2;
  for (uint i0 = 0u; i0 < 2u; i0 += 1u) {
    v0 = a0[i0];
    v1 = v0;
    v2 = (v0 + 1u);
    o0[i0] = v2;
    o1[i0] = v1;
  }
}
",
    },
    // an element that is let before a loop
    Row {
        program: "input xs: [[u32; 2]; 3]; input ys: [u32; 3]; output map(\\p. let y = mul(second(p), 2) in map(\\x. add(x, y), first(p)), zip(xs, ys))",
        script: "at 1.1 to-seq\nat . to-seq",
        kernel: "__kernel void lift(__global const uint *a0, __global const uint *a1, __global uint *o0)
{
  uint v0;
  uint v1;
  uint v2;
  for (uint i0 = 0u; i0 < 3u; i0 += 1u) {
    v0 = a1[i0];
    v1 = (v0 * 2u);
    for (uint i1 = 0u; i1 < 2u; i1 += 1u) {
      v2 = a0[((i0 * 2u) + i1)];
      o0[((i0 * 2u) + i1)] = (v2 + v1);
    }
  }
}
",
    },
];

#[test]
fn elements_are_worked_out(rt: HostRuntime) -> Result<(), Fail> {
    assert!(rt; all_are_emitted(rt.alloc(), &ROWS)?);
    Ok(())
}
