//! Arrays that are read through layouts.

use crate::emission::{Row, all_are_emitted};
use std::test::Fail;

const ROWS: [Row; 13] = [
    // the rows of a split array
    Row {
        program: "input xs: [u32; 6]; output map(\\r. map(\\x. x, r), split(2, xs))",
        script: "at 1 to-seq\nat . to-seq",
        kernel: "__kernel void lift(__global const uint *a0, __global uint *o0)
{
  uint v0;
  for (uint i0 = 0u; i0 < 3u; i0 += 1u) {
    for (uint i1 = 0u; i1 < 2u; i1 += 1u) {
      v0 = a0[((i0 * 2u) + i1)];
      o0[((i0 * 2u) + i1)] = v0;
    }
  }
}
",
    },
    // joined rows, as many as a size says
    Row {
        program: "size N from 1 to 8; input xs: [[u32; 3]; N]; output map(\\x. x, join(xs))",
        script: "at . to-seq",
        kernel: "__kernel void lift(__global const uint *a0, __global uint *o0, const uint s0)
{
  uint v0;
  for (uint i0 = 0u; i0 < (3u * s0); i0 += 1u) {
    v0 = a0[(((i0 / 3u) * 3u) + (i0 % 3u))];
    o0[i0] = v0;
  }
}
",
    },
    // columns
    Row {
        program: "input xs: [[u32; 3]; 2]; output map(\\c. map(\\x. x, c), transpose(xs))",
        script: "at 1 to-seq\nat . to-seq",
        kernel: "__kernel void lift(__global const uint *a0, __global uint *o0)
{
  uint v0;
  for (uint i0 = 0u; i0 < 3u; i0 += 1u) {
    for (uint i1 = 0u; i1 < 2u; i1 += 1u) {
      v0 = a0[((i1 * 3u) + i0)];
      o0[((i0 * 2u) + i1)] = v0;
    }
  }
}
",
    },
    // pairs of two inputs, in two outputs
    Row {
        program: "input xs: [u32; 2]; input ys: [u32; 2]; output map(\\p. p, zip(xs, ys))",
        script: "at . to-seq",
        kernel: "__kernel void lift(__global const uint *a0, __global const uint *a1, __global uint *o0, __global uint *o1)
{
  uint v0;
  uint v1;
  for (uint i0 = 0u; i0 < 2u; i0 += 1u) {
    v0 = a0[i0];
    v1 = a1[i0];
    o0[i0] = v0;
    o1[i0] = v1;
  }
}
",
    },
    // the components that are named, and no other
    Row {
        program: "input xs: [(u32, u32); 4]; input ys: [u32; 4]; output map(\\p. add(second(first(p)), second(p)), zip(xs, ys))",
        script: "at . to-seq",
        kernel: "__kernel void lift(__global const uint *a0, __global const uint *a1, __global const uint *a2, __global uint *o0)
{
  uint v0;
  uint v1;
  for (uint i0 = 0u; i0 < 4u; i0 += 1u) {
    v0 = a1[i0];
    v1 = a2[i0];
    o0[i0] = (v0 + v1);
  }
}
",
    },
    // a number and a row, of which the row is a view
    Row {
        program: "input xs: [u32; 3]; input ys: [[u32; 2]; 3]; output map(\\p. map(\\x. add(first(p), x), second(p)), zip(xs, ys))",
        script: "at 1 to-seq\nat . to-seq",
        kernel: "__kernel void lift(__global const uint *a0, __global const uint *a1, __global uint *o0)
{
  uint v0;
  uint v1;
  for (uint i0 = 0u; i0 < 3u; i0 += 1u) {
    v0 = a0[i0];
    for (uint i1 = 0u; i1 < 2u; i1 += 1u) {
      v1 = a1[((i0 * 2u) + i1)];
      o0[((i0 * 2u) + i1)] = (v0 + v1);
    }
  }
}
",
    },
    // windows
    Row {
        program: "input xs: [u32; 7]; output map(\\w. map(\\x. x, w), slide(3, 2, xs))",
        script: "at 1 to-seq\nat . to-seq",
        kernel: "__kernel void lift(__global const uint *a0, __global uint *o0)
{
  uint v0;
  for (uint i0 = 0u; i0 < 3u; i0 += 1u) {
    for (uint i1 = 0u; i1 < 3u; i1 += 1u) {
      v0 = a0[((i0 * 2u) + i1)];
      o0[((i0 * 3u) + i1)] = v0;
    }
  }
}
",
    },
    // windows whose step passes them
    Row {
        program: "input xs: [u32; 8]; output map(\\w. map(\\x. x, w), slide(2, 3, xs))",
        script: "at 1 to-seq\nat . to-seq",
        kernel: "__kernel void lift(__global const uint *a0, __global uint *o0)
{
  uint v0;
  for (uint i0 = 0u; i0 < 3u; i0 += 1u) {
    for (uint i1 = 0u; i1 < 2u; i1 += 1u) {
      v0 = a0[((i0 * 3u) + i1)];
      o0[((i0 * 2u) + i1)] = v0;
    }
  }
}
",
    },
    // two before and one after
    Row {
        program: "size N from 1 to 9; input xs: [u32; N]; output map(\\x. x, pad(2, 1, xs))",
        script: "at . to-seq",
        kernel: "__kernel void lift(__global const uint *a0, __global uint *o0, const uint s0)
{
  uint v0;
  for (uint i0 = 0u; i0 < (3u + s0); i0 += 1u) {
    v0 = a0[min((max(i0, 2u) - 2u), (s0 - 1u))];
    o0[i0] = v0;
  }
}
",
    },
    // a row before
    Row {
        program: "input xs: [[u32; 2]; 3]; output map(\\r. map(\\x. x, r), pad(1, 0, xs))",
        script: "at 1 to-seq\nat . to-seq",
        kernel: "__kernel void lift(__global const uint *a0, __global uint *o0)
{
  uint v0;
  for (uint i0 = 0u; i0 < 4u; i0 += 1u) {
    for (uint i1 = 0u; i1 < 2u; i1 += 1u) {
      v0 = a0[((min((max(i0, 1u) - 1u), (3u - 1u)) * 2u) + i1)];
      o0[((i0 * 2u) + i1)] = v0;
    }
  }
}
",
    },
    // windows of a padded array
    Row {
        program: "input xs: [u32; 5]; output map(\\w. map(\\x. x, w), slide(3, 1, pad(1, 1, xs)))",
        script: "at 1 to-seq\nat . to-seq",
        kernel: "__kernel void lift(__global const uint *a0, __global uint *o0)
{
  uint v0;
  for (uint i0 = 0u; i0 < 5u; i0 += 1u) {
    for (uint i1 = 0u; i1 < 3u; i1 += 1u) {
      v0 = a0[min((max(((i0 * 1u) + i1), 1u) - 1u), (5u - 1u))];
      o0[((i0 * 3u) + i1)] = v0;
    }
  }
}
",
    },
    // four layouts, one on another
    Row {
        program: "input xs: [[u32; 4]; 2]; output map(\\x. x, join(transpose(split(2, join(xs)))))",
        script: "at . to-seq",
        kernel: "__kernel void lift(__global const uint *a0, __global uint *o0)
{
  uint v0;
  for (uint i0 = 0u; i0 < 8u; i0 += 1u) {
    v0 = a0[((((((i0 % 4u) * 2u) + (i0 / 4u)) / 4u) * 4u) + ((((i0 % 4u) * 2u) + (i0 / 4u)) % 4u))];
    o0[i0] = v0;
  }
}
",
    },
    // an array that is let, of two sizes
    Row {
        program: "size M from 1 to 4; size N multiple 3 from 3 to 9; input xs: [[u32; M]; N]; output let ys = transpose(xs) in map(\\c. map(\\x. x, c), ys)",
        script: "at 1.1 to-seq\nat 1 to-seq",
        kernel: "__kernel void lift(__global const uint *a0, __global uint *o0, const uint s0, const uint s1)
{
  uint v0;
  for (uint i0 = 0u; i0 < s0; i0 += 1u) {
    for (uint i1 = 0u; i1 < (3u * (s1 / 3u)); i1 += 1u) {
      v0 = a0[((i1 * s0) + i0)];
      o0[((i0 * (3u * (s1 / 3u))) + i1)] = v0;
    }
  }
}
",
    },
];

#[test]
fn arrays_are_read_through_layouts(rt: HostRuntime) -> Result<(), Fail> {
    assert!(rt; all_are_emitted(rt.alloc(), &ROWS)?);
    Ok(())
}
