//! Kernels tidied by hand: indices of loads and stores, offsets of fours, and bounds of loops and
//! ifs; indices of loops' variables and of ids.

use crate::sameness::is_same;
use kernel_reader::read_kernel;
use size_arith::{Name, Names};
use std::alloc::{AllocError, Global};
use std::test::Fail;
use tidy_kernels::tidied;

// The texts of a kernel and of what it becomes.
struct Row {
    plain: &'static str,
    tidy: &'static str,
}

// What is assigned and stored stays as it is.
const IFS: Row = Row {
    plain: "__kernel void lift(__global const uint *a0, __global uint *o0, const uint s0)
{
  uint v0;
  if ((uint)get_global_id(0) < (1u * s0)) {
    v0 = (1u + 0u);
    for (uint i0 = 0u; i0 < (s0 + 0u); i0 += 1u) {
      v0 = a0[((i0 * 1u) + 0u)];
      o0[(((i0 / 3u) * 3u) + (i0 % 3u))] = (v0 + 0u);
    }
    if (0u < (2u * 3u)) {
      barrier(CLK_LOCAL_MEM_FENCE);
    }
  }
  o0[(2u + 3u)] = (v0 * 1u);
}
",
    tidy: "__kernel void lift(__global const uint *a0, __global uint *o0, const uint s0)
{
  uint v0;
  if ((uint)get_global_id(0) < s0) {
    v0 = (1u + 0u);
    for (uint i0 = 0u; i0 < s0; i0 += 1u) {
      v0 = a0[i0];
      o0[i0] = (v0 + 0u);
    }
    if (0u < 6u) {
      barrier(CLK_LOCAL_MEM_FENCE);
    }
  }
  o0[5u] = (v0 * 1u);
}
",
};

// The column's loop is no longer than the row at first, and longer then; the if between the two
// loops asks of no id.
const FOURS: Row = Row {
    plain: "__kernel __attribute__((reqd_work_group_size(2, 1, 1))) void lift(__global const uint *a0, __global uint *o0)
{
  uint4 w0;
  for (uint i0 = 0u; i0 < 2u; i0 += 1u) {
    if (0u < 1u) {
      for (uint i1 = 0u; i1 < 3u; i1 += 1u) {
        w0 = vload4((((i0 * 3u) + i1) / 3u), a0);
        vstore4((w0 + (uint4)((1u * 1u))), (((i0 * 3u) + i1) % 3u), o0);
      }
      for (uint i1 = 0u; i1 < 4u; i1 += 1u) {
        w0 = vload4((((i0 * 3u) + i1) / 3u), a0);
        vstore4(w0, (((i0 * 3u) + i1) % 3u), o0);
      }
    }
  }
}
",
    tidy: "__kernel __attribute__((reqd_work_group_size(2, 1, 1))) void lift(__global const uint *a0, __global uint *o0)
{
  uint4 w0;
  for (uint i0 = 0u; i0 < 2u; i0 += 1u) {
    if (0u < 1u) {
      for (uint i1 = 0u; i1 < 3u; i1 += 1u) {
        w0 = vload4(i0, a0);
        vstore4((w0 + (uint4)((1u * 1u))), i1, o0);
      }
      for (uint i1 = 0u; i1 < 4u; i1 += 1u) {
        w0 = vload4((((i0 * 3u) + i1) / 3u), a0);
        vstore4(w0, (((i0 * 3u) + i1) % 3u), o0);
      }
    }
  }
}
",
};

// In groups of 3 an item's id is below 3; in groups of any size it may be more.
const IDS: Row = Row {
    plain: "__kernel __attribute__((reqd_work_group_size(3, 1, 1))) void lift(__global const uint *a0, __global uint *o0)
{
  uint v0;
  for (uint i0 = (uint)get_group_id(0); i0 < 2u; i0 += (uint)get_num_groups(0)) {
    v0 = a0[((((i0 * 3u) + (uint)get_local_id(0)) / 3u) + 0u)];
    o0[(((i0 * 3u) + (uint)get_local_id(0)) % 3u)] = v0;
  }
}
",
    tidy: "__kernel __attribute__((reqd_work_group_size(3, 1, 1))) void lift(__global const uint *a0, __global uint *o0)
{
  uint v0;
  for (uint i0 = (uint)get_group_id(0); i0 < 2u; i0 += (uint)get_num_groups(0)) {
    v0 = a0[i0];
    o0[(uint)get_local_id(0)] = v0;
  }
}
",
};

const IDS_OF_ANY_SIZE: Row = Row {
    plain: "__kernel void lift(__global const uint *a0, __global uint *o0)
{
  uint v0;
  for (uint i0 = (uint)get_group_id(0); i0 < 2u; i0 += (uint)get_num_groups(0)) {
    v0 = a0[((((i0 * 3u) + (uint)get_local_id(0)) / 3u) + 0u)];
    o0[(((i0 * 3u) + (uint)get_local_id(0)) % 3u)] = v0;
  }
}
",
    tidy: "__kernel void lift(__global const uint *a0, __global uint *o0)
{
  uint v0;
  for (uint i0 = (uint)get_group_id(0); i0 < 2u; i0 += (uint)get_num_groups(0)) {
    v0 = a0[(((i0 * 3u) + (uint)get_local_id(0)) / 3u)];
    o0[(((i0 * 3u) + (uint)get_local_id(0)) % 3u)] = v0;
  }
}
",
};

// In the `if` an item's id is below 2, behind it below 4; a group's id is below 1 in
// the `if` on it.
const IDS_IN_IFS: Row = Row {
    plain: "__kernel __attribute__((reqd_work_group_size(4, 1, 1))) void lift(__global const uint *a0, __global uint *o0, const uint s0)
{
  uint v0;
  for (uint i0 = (uint)get_group_id(0); i0 < s0; i0 += (uint)get_num_groups(0)) {
    if ((uint)get_local_id(0) < 2u) {
      v0 = a0[(((i0 * 2u) + (uint)get_local_id(0)) / 2u)];
      o0[(((i0 * 2u) + (uint)get_local_id(0)) % 2u)] = v0;
    }
    v0 = a0[(((i0 * 2u) + (uint)get_local_id(0)) / 2u)];
  }
  if ((uint)get_group_id(0) < 1u) {
    for (uint i0 = 0u; i0 < s0; i0 += 1u) {
      if ((uint)get_local_id(0) < (s0 + 0u)) {
        o0[((((i0 * s0) + (uint)get_local_id(0)) / s0) + (uint)get_group_id(0))] = v0;
      }
    }
  }
}
",
    tidy: "__kernel __attribute__((reqd_work_group_size(4, 1, 1))) void lift(__global const uint *a0, __global uint *o0, const uint s0)
{
  uint v0;
  for (uint i0 = (uint)get_group_id(0); i0 < s0; i0 += (uint)get_num_groups(0)) {
    if ((uint)get_local_id(0) < 2u) {
      v0 = a0[i0];
      o0[(uint)get_local_id(0)] = v0;
    }
    v0 = a0[(((i0 * 2u) + (uint)get_local_id(0)) / 2u)];
  }
  if ((uint)get_group_id(0) < 1u) {
    for (uint i0 = 0u; i0 < s0; i0 += 1u) {
      if ((uint)get_local_id(0) < s0) {
        o0[i0] = v0;
      }
    }
  }
}
",
};

// One size from 1 to 8.
fn one_size(alloc: Global) -> Result<Names, AllocError> {
    let mut names = Names::new(alloc);
    names.push(Name {
        multiple: 1,
        from: 1,
        to: 8,
    })?;
    Ok(names)
}

// Whether the kernel of the row's first text, tidied, is that of the second.
fn becomes(alloc: Global, row: &Row) -> Result<bool, Fail> {
    let names = one_size(alloc)?;
    let Ok(plain) = read_kernel(alloc, row.plain.as_bytes()) else {
        return Ok(false);
    };
    let Ok(tidy) = read_kernel(alloc, row.tidy.as_bytes()) else {
        return Ok(false);
    };
    let made = tidied(alloc, plain, &names)?;
    Ok(made.vectors == tidy.vectors && made.local == tidy.local && is_same(&made.body, &tidy.body))
}

#[test]
fn bounds_and_bodies_of_ifs_are_tidied(rt: HostRuntime) -> Result<(), Fail> {
    assert!(rt; becomes(rt.alloc(), &IFS)?);
    Ok(())
}

#[test]
fn offsets_of_fours_are_tidied(rt: HostRuntime) -> Result<(), Fail> {
    assert!(rt; becomes(rt.alloc(), &FOURS)?);
    Ok(())
}

#[test]
fn indices_with_ids_are_tidied_by_the_size_of_groups(rt: HostRuntime) -> Result<(), Fail> {
    assert!(rt; becomes(rt.alloc(), &IDS)?);
    assert!(rt; becomes(rt.alloc(), &IDS_OF_ANY_SIZE)?);
    Ok(())
}

#[test]
fn indices_with_ids_are_tidied_by_the_ifs_around(rt: HostRuntime) -> Result<(), Fail> {
    assert!(rt; becomes(rt.alloc(), &IDS_IN_IFS)?);
    Ok(())
}
