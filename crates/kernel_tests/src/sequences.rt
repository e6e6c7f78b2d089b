//! Several kernels in order, read from their text and printed again, and texts that are refused.

use crate::reading::{ENDS, TEXT};
use kernel_printer::print_sequence;
use kernel_reader::{KernelNo, read_sequence};
use std::alloc::{AllocError, Global};
use std::test::Fail;

/// Each element is doubled.
const FIRST: &[u8] = b"__kernel void lift0(__global const uint *a0, __global uint *o0)
{
  uint v0;
  for (uint i0 = (uint)get_global_id(0); i0 < 4u; i0 += (uint)get_global_size(0)) {
    v0 = a0[i0];
    o0[i0] = (v0 * 2u);
  }
}
";

/// One is added to each element of what the first kernel made.
const SECOND: &[u8] =
    b"__kernel void lift1(__global const uint *a0, __global const uint *a1, __global uint *o0)
{
  uint v0;
  for (uint i0 = (uint)get_global_id(0); i0 < 4u; i0 += (uint)get_global_size(0)) {
    v0 = a1[i0];
    o0[i0] = (v0 + 1u);
  }
}
";

/// A kernel by the name of one that stands alone.
const ALONE: &[u8] = b"__kernel void lift(__global uint *o0)
{
  o0[0u] = 1u;
}
";

// The bytes before a kernel's name.
const BEFORE_NAME: usize = 14;

// The bytes up to the number in a kernel's name, which stands behind `lift`.
const BEFORE_NUMBER: usize = 18;

/// The kernel that stands alone by the name of this number, which has one digit.
fn numbered(alloc: Global, digit: u8) -> Result<Vec<u8>, AllocError> {
    let (head, rest) = TEXT.split_at(BEFORE_NUMBER);
    let mut text = Vec::from_slice(alloc, head)?;
    text.extend_from_slice(&[digit])?;
    text.extend_from_slice(rest)?;
    Ok(text)
}

/// Where a text ends by that name that ends here in the kernel that stands alone.
fn with_number(end: usize) -> usize {
    if end < BEFORE_NUMBER {
        end
    } else {
        end.saturating_add(1)
    }
}

/// The first cut of the second text, behind one of its pieces, that isn't refused at its
/// end behind the first.
fn first_wrong_cut(
    alloc: Global,
    first: &[u8],
    second: &[u8],
) -> Result<Option<usize>, AllocError> {
    for end in &ENDS {
        let cut = with_number(*end);
        let Some(front) = second.get(..cut) else {
            return Ok(Some(cut));
        };
        if refused(alloc, first, front)? != first.len().checked_add(cut) {
            return Ok(Some(cut));
        }
    }
    Ok(None)
}

/// Whether the text is read, and printed as it was.
fn comes_back(alloc: Global, text: &[u8]) -> Result<bool, AllocError> {
    match read_sequence(alloc, text) {
        Ok(kernels) => Ok(*print_sequence(alloc, kernels.as_slice())? == *text),
        Err(KernelNo::Memory) => Err(AllocError),
        Err(KernelNo::Syntax { offset: _ }) => Ok(false),
    }
}

/// Where the text of two parts is refused, if it is.
fn refused(alloc: Global, first: &[u8], second: &[u8]) -> Result<Option<usize>, AllocError> {
    let mut text = Vec::from_slice(alloc, first)?;
    text.extend_from_slice(second)?;
    match read_sequence(alloc, &text) {
        Ok(_) => Ok(None),
        Err(KernelNo::Memory) => Err(AllocError),
        Err(KernelNo::Syntax { offset }) => Ok(Some(offset)),
    }
}

#[test]
fn round_trips(rt: HostRuntime) -> Result<(), Fail> {
    assert!(rt; comes_back(rt.alloc(), FIRST)?);
    let mut both = Vec::from_slice(rt.alloc(), FIRST)?;
    both.extend_from_slice(SECOND)?;
    assert!(rt; comes_back(rt.alloc(), &both)?);
    Ok(())
}

#[test]
fn kernels_go_by_their_numbers(rt: HostRuntime) -> Result<(), Fail> {
    assert_eq!(rt; refused(rt.alloc(), ALONE, b"")?, Some(BEFORE_NAME));
    assert_eq!(rt; refused(rt.alloc(), SECOND, b"")?, Some(BEFORE_NAME));
    assert_eq!(rt;
        refused(rt.alloc(), FIRST, FIRST)?,
        Some(FIRST.len() + BEFORE_NAME)
    );
    assert_eq!(rt;
        refused(rt.alloc(), FIRST, ALONE)?,
        Some(FIRST.len() + BEFORE_NAME)
    );
    Ok(())
}

#[test]
fn a_number_has_one_spelling(rt: HostRuntime) -> Result<(), Fail> {
    let zeros: &[u8] = b"__kernel void lift00(__global uint *o0)\n{\n  o0[0u] = 1u;\n}\n";
    assert_eq!(rt; refused(rt.alloc(), zeros, b"")?, Some(BEFORE_NAME));
    let zero_before: &[u8] = b"__kernel void lift01(__global uint *o0)\n{\n  o0[0u] = 1u;\n}\n";
    assert_eq!(rt;
        refused(rt.alloc(), FIRST, zero_before)?,
        Some(FIRST.len() + BEFORE_NAME)
    );
    Ok(())
}

#[test]
fn each_cut_is_refused_at_its_end(rt: HostRuntime) -> Result<(), Fail> {
    let first = numbered(rt.alloc(), b'0')?;
    let second = numbered(rt.alloc(), b'1')?;
    assert_eq!(rt; first_wrong_cut(rt.alloc(), b"", &first)?, None);
    assert_eq!(rt; first_wrong_cut(rt.alloc(), &first, &second)?, None);
    assert_eq!(rt; refused(rt.alloc(), &first, &second)?, None);
    Ok(())
}

#[test]
fn a_text_ends_behind_a_kernel(rt: HostRuntime) -> Result<(), Fail> {
    assert_eq!(rt; refused(rt.alloc(), b"", b"")?, Some(0));
    assert_eq!(rt; refused(rt.alloc(), FIRST, b"\n")?, Some(FIRST.len()));
    assert_eq!(rt;
        refused(rt.alloc(), FIRST, b" __kernel")?,
        Some(FIRST.len())
    );
    let open = &FIRST[..FIRST.len() - 1];
    assert_eq!(rt; refused(rt.alloc(), open, b"")?, Some(open.len()));
    assert_eq!(rt;
        refused(rt.alloc(), FIRST, &SECOND[..8])?,
        Some(FIRST.len() + 8)
    );
    Ok(())
}
