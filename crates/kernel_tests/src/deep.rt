//! Texts of kernels that nest deep.

use crate::forms::{END, OPENING};
use itoa::Buffer;
use std::alloc::{AllocError, Global};

pub fn put(text: &mut Vec<u8>, bytes: &[u8]) -> Result<(), AllocError> {
    text.extend_from_slice(bytes)
}

fn put_number(text: &mut Vec<u8>, number: usize) -> Result<(), AllocError> {
    let mut buffer = Buffer::new();
    put(text, buffer.format(number).as_bytes())
}

fn put_indent(text: &mut Vec<u8>, levels: usize) -> Result<(), AllocError> {
    for _i in 0..levels {
        put(text, b"  ")?;
    }
    Ok(())
}

/// A store within so many loops, one in another.
pub fn loops(alloc: Global, depth: u16) -> Result<Vec<u8>, AllocError> {
    let mut text = Vec::from_slice(alloc, OPENING)?;
    for i in 0..depth as usize {
        put_indent(&mut text, i + 1)?;
        put(&mut text, b"for (uint i")?;
        put_number(&mut text, i)?;
        put(&mut text, b" = 0u; i")?;
        put_number(&mut text, i)?;
        put(&mut text, b" < 1u; i")?;
        put_number(&mut text, i)?;
        put(&mut text, b" += 1u) {\n")?;
    }
    put_indent(&mut text, depth as usize + 1)?;
    put(&mut text, b"o0[0u] = 0u;\n")?;
    for i in 0..depth as usize {
        put_indent(&mut text, depth as usize - i)?;
        put(&mut text, b"}\n")?;
    }
    put(&mut text, END)?;
    Ok(text)
}

/// A store within so many `if`s, one in another.
pub fn ifs(alloc: Global, depth: u16) -> Result<Vec<u8>, AllocError> {
    let mut text = Vec::from_slice(alloc, OPENING)?;
    for i in 0..depth as usize {
        put_indent(&mut text, i + 1)?;
        put(&mut text, b"if (0u < 1u) {\n")?;
    }
    put_indent(&mut text, depth as usize + 1)?;
    put(&mut text, b"o0[0u] = 0u;\n")?;
    for i in 0..depth as usize {
        put_indent(&mut text, depth as usize - i)?;
        put(&mut text, b"}\n")?;
    }
    put(&mut text, END)?;
    Ok(text)
}

/// A sum of so many terms beside the first, each sum in the next one's parentheses, behind the
/// beginning of a kernel.
fn nested(
    alloc: Global,
    before: &[u8],
    first: &[u8],
    more: &[u8],
    depth: usize,
) -> Result<Vec<u8>, AllocError> {
    let mut text = Vec::from_slice(alloc, before)?;
    for _i in 0..depth {
        put(&mut text, b"(")?;
    }
    put(&mut text, first)?;
    for _i in 0..depth {
        put(&mut text, more)?;
    }
    put(&mut text, b";\n}\n")?;
    Ok(text)
}

/// A kernel that stores a sum of ones, so many sums deep.
pub fn sums(alloc: Global, depth: usize) -> Result<Vec<u8>, AllocError> {
    let before = b"__kernel void lift(__global uint *o0)\n{\n  o0[0u] = ";
    nested(alloc, before, b"1u", b" + 1u)", depth)
}

/// A kernel that assigns a sum of four words, so many sums deep.
pub fn sums_of_four(alloc: Global, first: &[u8], depth: usize) -> Result<Vec<u8>, AllocError> {
    let before = b"__kernel void lift(__global uint *o0)\n{\n  uint4 w0;\n  w0 = ";
    nested(alloc, before, first, b" + w0)", depth)
}
