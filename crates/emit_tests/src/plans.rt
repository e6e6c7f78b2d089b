//! Plans of terms of each kind, and the kernels that are emitted for them.

use crate::emission::Row;
use crate::last_terms::{LoweredLast, lowered_last};
use crate::sameness::is_same;
use address_spaces::spaces;
use buffer_allocation::allocation::buffers;
use kernel_emit::emit::emit;
use kernel_reader::read_kernel;
use kernel_tree::tree::{Kernel, Stmt};
use phase_plan::kind::Kind;
use phase_plan::planning::plan;
use std::alloc::Global;
use std::test::Fail;
use thread_mapping::judge;

// A term's kernel, and how many phases and barriers its plan has over work-groups.
fn emitted(alloc: Global, row: &Row) -> Result<Option<(Kernel, usize, usize)>, Fail> {
    let Some(LoweredLast { lowered, local }) = lowered_last(alloc, row.program, row.script)? else {
        return Ok(None);
    };
    let Ok(mapped) = judge(alloc, lowered, local) else {
        return Ok(None);
    };
    let spaced = spaces(alloc, mapped)?;
    let Ok(buffers) = buffers(alloc, &spaced) else {
        return Ok(None);
    };
    let plan = plan(alloc, &spaced, &buffers)?;
    let (phases, barriers) = match &plan.kind {
        Kind::Task | Kind::OverLaunch => (0, 0),
        Kind::OverGroups(phases) | Kind::OverGrid(phases) => {
            (phases.count as usize, phases.barriers.len())
        }
    };
    Ok(Some((emit(alloc, &plan)?, phases, barriers)))
}

// Whether the row's kernel is emitted, with so many phases and barriers.
fn gives(alloc: Global, row: &Row, phases: usize, barriers: usize) -> Result<bool, Fail> {
    let Ok(asked) = read_kernel(alloc, row.kernel.as_bytes()) else {
        return Ok(false);
    };
    let Some((kernel, has, places)) = emitted(alloc, row)? else {
        return Ok(false);
    };
    Ok(
        has == phases
            && places == barriers
            && kernel.inputs == asked.inputs
            && kernel.outputs == asked.outputs
            && kernel.sizes == asked.sizes
            && kernel.variables == asked.variables
            && kernel.locals == asked.locals
            && kernel.privates == asked.privates
            && kernel.local == asked.local
            && is_same(&kernel.body, &asked.body),
    )
}

// One work-item alone: the map's turns are a loop from 0.
const TASK: Row = Row {
    program: "size N from 1 to 1000; input xs: [u32; N]; output map(\\x. add(x, 1), xs)",
    script: "at . to-seq",
    kernel: "__kernel void lift(__global const uint *a0, __global uint *o0, const uint s0)
{
  uint v0;
  for (uint i0 = 0u; i0 < s0; i0 += 1u) {
    v0 = a0[i0];
    o0[i0] = (v0 + 1u);
  }
}
",
};

// All work-items: each takes the turns from its number on.
const OVER_LAUNCH: Row = Row {
    program: "size N from 1 to 1000; input xs: [u32; N]; output map(\\x. add(x, 1), xs)",
    script: "at . to-glb",
    kernel: "__kernel void lift(__global const uint *a0, __global uint *o0, const uint s0)
{
  uint v0;
  for (uint i0 = (uint)get_global_id(0); i0 < s0; i0 += (uint)get_global_size(0)) {
    v0 = a0[i0];
    o0[i0] = (v0 + 1u);
  }
}
",
};

// Work-groups without local memory: one phase.
const OVER_GROUPS: Row = Row {
    program: "input xs: [[u32; 4]; 3]; output map(\\r. map(\\x. x, r), xs)",
    script: "at 1 to-lcl\nat . to-wrg",
    kernel: "__kernel void lift(__global const uint *a0, __global uint *o0)
{
  uint v0;
  for (uint i0 = (uint)get_group_id(0); i0 < 3u; i0 += (uint)get_num_groups(0)) {
    for (uint i1 = (uint)get_local_id(0); i1 < 4u; i1 += (uint)get_local_size(0)) {
      v0 = a0[((i0 * 4u) + i1)];
      o0[((i0 * 4u) + i1)] = v0;
    }
  }
}
",
};

// Pairs that are columns of two rows, each by a group of four items: two of them take an element,
// and the `if` tells that their ids are below 2.
const COLUMNS: Row = Row {
    program: "input xs: [[u32; 3]; 2]; output join(map(\\r. map(\\x. add(x, 1), r), split(2, join(transpose(xs)))))",
    script: "launch local 4\nat 0.1 to-lcl\nat 0 to-wrg",
    kernel: "__kernel __attribute__((reqd_work_group_size(4, 1, 1))) void lift(__global const uint *a0, __global uint *o0)
{
  uint v0;
  for (uint i0 = (uint)get_group_id(0); i0 < 3u; i0 += (uint)get_num_groups(0)) {
    if ((uint)get_local_id(0) < 2u) {
      v0 = a0[(((uint)get_local_id(0) * 3u) + i0)];
      o0[((i0 * 2u) + (uint)get_local_id(0))] = (v0 + 1u);
    }
  }
}
",
};

// Tiles that are written by columns: rows of groups, two phases, each a map over rows around one
// along them, and a barrier between them and one that closes.
const OVER_GRID: Row = Row {
    program: "size R from 1 to 64; size C from 1 to 64; input a: [[u32; 2*C]; 2*R]; output split(2*R, join(join(transpose(map(\\band. join(map(\\tile. map(\\column. map(\\x. x, column), transpose(map(\\row. map(\\x. x, row), transpose(tile)))), split(2, transpose(band)))), split(2, a))))))",
    script: "launch local 2 2\nat 0.0.0.0.1.0.1.0.0.1 to-lcl\nat 0.0.0.0.1.0.1.0.0 to-lcl1\nat 0.0.0.0.1.0.1.0.0 local\nat 0.0.0.0.1.0.1.1 to-lcl\nat 0.0.0.0.1.0.1 to-lcl1\nat 0.0.0.0.1.0 to-wrg\nat 0.0.0.0 to-wrg1",
    kernel: "__kernel __attribute__((reqd_work_group_size(2, 2, 1))) void lift(__global const uint *a0, __global uint *o0, const uint s0, const uint s1)
{
  __local uint l0[4];
  uint v0;
  uint v1;
  for (uint i0 = (uint)get_group_id(1); i0 < s0; i0 += (uint)get_num_groups(1)) {
    for (uint i1 = (uint)get_group_id(0); i1 < s1; i1 += (uint)get_num_groups(0)) {
      v0 = a0[((((i0 * 2u) + (uint)get_local_id(1)) * (2u * s1)) + ((i1 * 2u) + (uint)get_local_id(0)))];
      l0[(((uint)get_local_id(1) * 2u) + (uint)get_local_id(0))] = v0;
      barrier(CLK_LOCAL_MEM_FENCE);
      v1 = l0[(((uint)get_local_id(0) * 2u) + (uint)get_local_id(1))];
      o0[((((((i1 * 2u) + (uint)get_local_id(1)) * s0) + i0) * 2u) + (uint)get_local_id(0))] = v1;
      barrier(CLK_LOCAL_MEM_FENCE);
    }
  }
}
",
};

// Without a fixed size each of the four maps is a loop of its own dimension.
const LOOPS: Row = Row {
    program: "input xs: [[[[u32; 2]; 3]; 4]; 5]; output map(\\r. map(\\t. map(\\s. map(\\x. add(x, 1), s), t), r), xs)",
    script: "at 1.1.1 to-lcl\nat 1.1 to-lcl1\nat 1 to-wrg\nat . to-wrg1",
    kernel: "__kernel void lift(__global const uint *a0, __global uint *o0)
{
  uint v0;
  for (uint i0 = (uint)get_group_id(1); i0 < 5u; i0 += (uint)get_num_groups(1)) {
    for (uint i1 = (uint)get_group_id(0); i1 < 4u; i1 += (uint)get_num_groups(0)) {
      for (uint i2 = (uint)get_local_id(1); i2 < 3u; i2 += (uint)get_local_size(1)) {
        for (uint i3 = (uint)get_local_id(0); i3 < 2u; i3 += (uint)get_local_size(0)) {
          v0 = a0[((((((i0 * 4u) + i1) * 3u) + i2) * 2u) + i3)];
          o0[((((((i0 * 4u) + i1) * 3u) + i2) * 2u) + i3)] = (v0 + 1u);
        }
      }
    }
  }
}
",
};

#[test]
fn each_kind_has_its_kernel(rt: HostRuntime) -> Result<(), Fail> {
    assert!(rt; gives(rt.alloc(), &TASK, 0, 0)?);
    assert!(rt; gives(rt.alloc(), &OVER_LAUNCH, 0, 0)?);
    assert!(rt; gives(rt.alloc(), &OVER_GROUPS, 1, 0)?);
    assert!(rt; gives(rt.alloc(), &OVER_GRID, 2, 2)?);
    Ok(())
}

#[test]
fn each_map_of_a_grid_has_its_loop(rt: HostRuntime) -> Result<(), Fail> {
    assert!(rt; gives(rt.alloc(), &LOOPS, 1, 0)?);
    Ok(())
}

#[test]
fn an_if_tells_of_ids(rt: HostRuntime) -> Result<(), Fail> {
    assert!(rt; gives(rt.alloc(), &COLUMNS, 1, 0)?);
    Ok(())
}

// Windows of a tile that is copied to local memory: what others copied is read, by two phases with
// a barrier between them and one that closes.
const WINDOWS: Row = Row {
    program: "size N multiple 2 from 2 to 4096; input xs: [u32; N]; output join(map(\\w. reduce(add, 0, w), slide(3, 1, pad(1, 1, xs))))",
    script: "at 0.0 tile-slide 2\nat 0 map-join\nat 0.0 fuse-map\nat 0.0.1 let-inline\nat 0.0.1.0.0 local-copy\nat 0.0.1.1 reduce-fold\nat 0.0.1.1 fold-seq\nat 0.0.1 to-lcl\nat 0.0 to-wrg",
    kernel: "",
};

fn has_barriers(kernel: &Kernel, count: usize) -> bool {
    match kernel.body.as_slice() {
        [Stmt::Loop(_, _, _, body)] => {
            let barriers = body
                .iter()
                .filter(|statement| matches!(**statement, Stmt::Barrier { .. }));
            barriers.count() == count
        }
        _ => false,
    }
}

#[test]
fn phases_have_their_barriers(rt: HostRuntime) -> Result<(), Fail> {
    match emitted(rt.alloc(), &WINDOWS)? {
        Some((kernel, phases, barriers)) => {
            assert!(rt; phases == 2 && barriers == 2);
            assert!(rt; kernel.locals.len() == 1 && kernel.locals[0] == 4);
            assert!(rt; kernel.privates.is_empty());
            assert!(rt; has_barriers(&kernel, 2));
        }
        None => assert!(rt; false),
    }
    Ok(())
}
