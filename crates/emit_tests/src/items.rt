//! Maps over all work-items of a launch.

use crate::emission::{Row, all_are_emitted};
use std::test::Fail;

const ROWS: [Row; 2] = [
    // numbers over the launch
    Row {
        program: "size N from 1 to 1000; input xs: [u32; N]; output map(\\x. add(x, 1), xs)",
        script: "at . to-glb",
        kernel: "__kernel void lift(__global const uint *a0, __global uint *o0, const uint s0)
{
  uint v0;
  for (uint i0 = (uint)get_global_id(0); i0 < s0; i0 += (uint)get_global_size(0)) {
    v0 = a0[i0];
    o0[i0] = (v0 + 1u);
  }
}
",
    },
    // windows over the launch, their sums one after another
    Row {
        program: "size N multiple 2 from 2 to 4096; input xs: [u32; N]; output join(map(\\w. reduce(add, 0, w), slide(3, 1, pad(1, 1, xs))))",
        script: "at 0.1 reduce-fold\nat 0.1 fold-seq\nat 0 to-glb",
        kernel: "__kernel void lift(__global const uint *a0, __global uint *o0, const uint s0)
{
  uint v0;
  uint v1;
  for (uint i0 = (uint)get_global_id(0); i0 < (2u * (s0 / 2u)); i0 += (uint)get_global_size(0)) {
    v0 = 0u;
    for (uint i1 = 0u; i1 < 3u; i1 += 1u) {
      v1 = a0[min((max(((i0 * 1u) + i1), 1u) - 1u), ((2u * (s0 / 2u)) - 1u))];
      v0 = (v0 + v1);
    }
    o0[((i0 * 1u) + 0u)] = v0;
  }
}
",
    },
];

#[test]
fn items_of_the_launch_take_turns(rt: HostRuntime) -> Result<(), Fail> {
    assert!(rt; all_are_emitted(rt.alloc(), &ROWS)?);
    Ok(())
}
