//! Kernels read from their text and printed again.

use crate::deep::{ifs, loops, sums, sums_of_four};
use crate::forms::{DECLARATIONS, END, HEAD, OPENING, SIZED, SIZES, STATEMENTS, STORE, UNSIZED};
use kernel_printer::print;
use kernel_reader::{KernelNo, read_kernel};
use std::alloc::{AllocError, Global};
use std::test::Fail;

/// One is added to each element.
const INCREMENT: &[u8] =
    b"__kernel void lift(__global const uint *a0, __global uint *o0, const uint s0)
{
  uint v0;
  for (uint i0 = 0u; i0 < s0; i0 += 1u) {
    v0 = a0[i0];
    o0[i0] = (v0 + 1u);
  }
}
";

const ONE_STORE: &[u8] = b"__kernel void lift(__global uint *o0)
{
  o0[0u] = 1u;
}
";

/// Two of each kind of name, and a loop in a loop.
const NESTED: &[u8] =
    b"__kernel void lift(__global const uint *a0, __global const uint *a1, __global uint *o0, __global uint *o1, const uint s0, const uint s1)
{
  uint v0;
  uint v1;
  for (uint i0 = 0u; i0 < (s0 + s1); i0 += 1u) {
    for (uint i1 = 0u; i1 < 10u; i1 += 1u) {
      v1 = o1[((i0 + i1) + 4294967295u)];
    }
    v0 = a1[i0];
    v0 = v1;
  }
  o1[v0] = ((v0 + 0u) + (v1 + s1));
}
";

/// One is added to each element by all work-items in turn.
const GLOBAL: &[u8] =
    b"__kernel void lift(__global const uint *a0, __global uint *o0, const uint s0)
{
  uint v0;
  for (uint i0 = (uint)get_global_id(0); i0 < s0; i0 += (uint)get_global_size(0)) {
    v0 = a0[i0];
    o0[i0] = (v0 + 1u);
  }
}
";

/// The same by work-groups of two.
const PAIRS: &[u8] =
    b"__kernel __attribute__((reqd_work_group_size(2, 1, 1))) void lift(__global const uint *a0, __global uint *o0, const uint s0)
{
  uint v0;
  for (uint i0 = (uint)get_global_id(0); i0 < s0; i0 += (uint)get_global_size(0)) {
    v0 = a0[i0];
    o0[i0] = (v0 + 1u);
  }
}
";

/// One is added to four elements at a time.
const FOURS: &[u8] = b"__kernel void lift(__global const uint *a0, __global uint *o0)
{
  uint4 w0;
  for (uint i0 = (uint)get_global_id(0); i0 < 2u; i0 += (uint)get_global_size(0)) {
    w0 = vload4(i0, a0);
    vstore4((w0 + (uint4)(1u)), i0, o0);
  }
}
";

/// Sums of three neighbours by work-groups, which keep tiles of four numbers in local memory.
const TILES: &[u8] = b"__kernel void lift(__global const uint *a0, __global uint *o0, const uint s0)
{
  __local uint l0[4];
  uint p0[1];
  uint v0;
  uint v1;
  uint v2;
  for (uint i0 = (uint)get_group_id(0); i0 < (s0 / 2u); i0 += (uint)get_num_groups(0)) {
    for (uint i1 = (uint)get_local_id(0); i1 < 4u; i1 += (uint)get_local_size(0)) {
      v0 = a0[min((max(((2u * i0) + i1), 1u) - 1u), (s0 - 1u))];
      l0[i1] = v0;
    }
    barrier(CLK_LOCAL_MEM_FENCE);
    for (uint i1 = (uint)get_local_id(0); i1 < 2u; i1 += (uint)get_local_size(0)) {
      v1 = 0u;
      for (uint i2 = 0u; i2 < 3u; i2 += 1u) {
        v2 = l0[(i1 + i2)];
        v1 = (v1 + v2);
      }
      p0[0u] = (v1 == 0u ? 1u : (v1 < s0 ? s0 : v1));
      v2 = p0[0u];
      o0[((2u * i0) + i1)] = v2;
    }
    barrier(CLK_LOCAL_MEM_FENCE | CLK_GLOBAL_MEM_FENCE);
  }
}
";

/// Whether the text is read, and printed as it was.
fn comes_back(alloc: Global, text: &[u8]) -> Result<bool, AllocError> {
    match read_kernel(alloc, text) {
        Ok(kernel) => Ok(*print(alloc, &kernel)? == *text),
        Err(KernelNo::Memory) => Err(AllocError),
        Err(KernelNo::Syntax { offset: _ }) => Ok(false),
    }
}

/// The place of the first text, between two others, that doesn't come back.
fn first_lost(
    alloc: Global,
    before: &[u8],
    texts: &[&'static [u8]],
    behind: &[u8],
) -> Result<Option<usize>, AllocError> {
    for i in 0..texts.len() {
        let mut text = Vec::from_slice(alloc, before)?;
        text.extend_from_slice(texts[i])?;
        text.extend_from_slice(behind)?;
        if !comes_back(alloc, &text)? {
            return Ok(Some(i));
        }
    }
    Ok(None)
}

#[test]
fn every_form(rt: HostRuntime) -> Result<(), Fail> {
    assert_eq!(rt; first_lost(rt.alloc(), HEAD, &STATEMENTS, END)?, None);
    assert_eq!(rt;
        first_lost(rt.alloc(), OPENING, &DECLARATIONS, STORE)?,
        None
    );
    assert_eq!(rt; first_lost(rt.alloc(), SIZED, &SIZES, UNSIZED)?, None);
    Ok(())
}

#[test]
fn round_trips(rt: HostRuntime) -> Result<(), Fail> {
    assert!(rt; comes_back(rt.alloc(), INCREMENT)?);
    assert!(rt; comes_back(rt.alloc(), ONE_STORE)?);
    assert!(rt; comes_back(rt.alloc(), NESTED)?);
    assert!(rt; comes_back(rt.alloc(), GLOBAL)?);
    assert!(rt; comes_back(rt.alloc(), PAIRS)?);
    assert!(rt; comes_back(rt.alloc(), FOURS)?);
    assert!(rt; comes_back(rt.alloc(), TILES)?);
    Ok(())
}

// As deep as the grammar allows.
#[test]
fn deepest(rt: HostRuntime) -> Result<(), Fail> {
    let text = sums(rt.alloc(), 1023)?;
    assert!(rt; comes_back(rt.alloc(), &text)?);
    let text = sums_of_four(rt.alloc(), b"w0", 1023)?;
    assert!(rt; comes_back(rt.alloc(), &text)?);
    let text = loops(rt.alloc(), 1024)?;
    assert!(rt; comes_back(rt.alloc(), &text)?);
    let text = ifs(rt.alloc(), 1024)?;
    assert!(rt; comes_back(rt.alloc(), &text)?);
    Ok(())
}
