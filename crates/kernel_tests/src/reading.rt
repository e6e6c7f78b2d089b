//! Texts that are read as kernels, and texts that are no kernel's.

use crate::deep::{ifs, loops, put, sums, sums_of_four};
use crate::forms::{
    END, HEAD, NO_DECLARATIONS, NO_HEADS, NO_SIZES, NO_STATEMENTS, OPENING, SIZED, STORE, UNSIZED,
};
use kernel_reader::{KernelNo, read_kernel};
use std::alloc::{AllocError, Global};
use std::test::Fail;

/// One is added to each element.
pub const TEXT: &[u8] =
    b"__kernel void lift(__global const uint *a0, __global uint *o0, const uint s0)
{
  uint v0;
  for (uint i0 = 0u; i0 < s0; i0 += 1u) {
    v0 = a0[i0];
    o0[i0] = (v0 + 1u);
  }
}
";

/// Where the pieces of the text end, without the last.
pub const ENDS: [usize; 101] = [
    8, 9, 13, 14, 18, 19, 27, 28, 33, 34, 38, 39, 40, 42, 43, 44, 52, 53, 57, 58, 59, 61, 62, 63,
    68, 69, 73, 74, 76, 77, 78, 79, 80, 82, 86, 87, 89, 90, 91, 93, 96, 97, 98, 102, 103, 105, 106,
    107, 108, 110, 111, 112, 114, 115, 116, 117, 119, 120, 121, 123, 124, 125, 126, 127, 129, 130,
    131, 132, 133, 137, 139, 140, 141, 142, 144, 145, 147, 148, 149, 150, 154, 156, 157, 159, 160,
    161, 162, 163, 164, 166, 167, 168, 169, 171, 172, 173, 174, 176, 177, 178, 179,
];

/// Four words are loaded, shifted and stored in loops and `if`s of a kernel for groups
/// of four by two.
const FOURS: &[u8] =
    b"__kernel __attribute__((reqd_work_group_size(4, 2, 1))) void lift(__global const uint *a0, __global uint *o0, const uint s0)
{
  __local uint l0[8];
  uint v0;
  uint4 w0;
  uint4 w1;
  if ((uint)get_group_id(1) < s0) {
    for (uint i0 = (uint)get_global_id(0); i0 < 2u; i0 += (uint)get_global_size(0)) {
      w0 = vload4(i0, a0);
      w1 = (min(w0, (uint4)(v0)) << (uint4)((i0 + 1u)));
      vstore4(w1, (uint)get_local_id(1), l0);
    }
    if (0u < 1u) {
      barrier(CLK_LOCAL_MEM_FENCE);
    }
  }
  vstore4(w0, 0u, o0);
}
";

/// Where the pieces of that text end, without the last.
const ENDS_OF_FOURS: [usize; 252] = [
    8, 9, 22, 23, 24, 44, 45, 46, 47, 48, 49, 50, 51, 52, 53, 54, 55, 56, 60, 61, 65, 66, 74, 75,
    80, 81, 85, 86, 87, 89, 90, 91, 99, 100, 104, 105, 106, 108, 109, 110, 115, 116, 120, 121, 123,
    124, 125, 126, 127, 129, 136, 137, 141, 142, 144, 145, 146, 147, 148, 149, 151, 155, 156, 158,
    159, 160, 162, 167, 168, 170, 171, 172, 174, 179, 180, 182, 183, 184, 186, 188, 189, 190, 191,
    195, 196, 208, 209, 210, 211, 212, 213, 214, 216, 217, 218, 219, 220, 224, 227, 228, 229, 233,
    234, 236, 237, 238, 239, 240, 244, 245, 258, 259, 260, 261, 262, 263, 265, 266, 267, 268, 270,
    271, 272, 274, 275, 276, 277, 278, 279, 283, 284, 299, 300, 301, 302, 303, 304, 305, 306, 312,
    314, 315, 316, 317, 323, 324, 326, 327, 328, 330, 331, 332, 333, 339, 341, 342, 343, 344, 345,
    348, 349, 351, 352, 353, 354, 359, 360, 361, 363, 364, 365, 366, 367, 368, 369, 370, 375, 376,
    377, 378, 380, 381, 382, 383, 385, 386, 387, 388, 389, 390, 396, 403, 404, 406, 407, 408, 409,
    413, 414, 426, 427, 428, 429, 430, 431, 433, 434, 435, 436, 440, 441, 442, 446, 448, 449, 450,
    452, 453, 454, 455, 457, 458, 459, 460, 461, 467, 474, 475, 494, 495, 496, 497, 501, 502, 503,
    505, 506, 507, 509, 516, 517, 519, 520, 521, 523, 524, 525, 527, 528, 529, 530, 531,
];

/// A change of the text: at a byte so many are taken out, and others put there. And where the text
/// is refused then.
type Change = (usize, usize, &'static [u8], usize);

/// Before the first piece, between two pieces and behind a line; one left out, a tab for one, a
/// carriage return; behind the end.
const SPACES: [Change; 11] = [
    (0, 0, b" ", 0),
    (13, 0, b" ", 13),
    (18, 0, b" ", 18),
    (77, 0, b" ", 77),
    (166, 0, b" ", 166),
    (43, 1, b"", 43),
    (8, 1, b"\t", 8),
    (77, 0, b"\r", 77),
    (180, 0, b" ", 180),
    (180, 0, b"\n", 180),
    (179, 1, b"", 179),
];

/// `-1u`, `+1u`, `01u`, `4294967296u`, `1`, `1U`, and a loop that begins with `u`.
const NUMBERS: [Change; 7] = [
    (169, 0, b"-", 169),
    (169, 0, b"+", 169),
    (169, 0, b"0", 169),
    (169, 1, b"4294967296", 169),
    (170, 1, b"", 169),
    (170, 1, b"U", 169),
    (109, 1, b"", 108),
];

/// Declared out of order: `a1`, `o1`, `s1`, `v1`, and `v00`. Used and not declared: `i1`, `s1`,
/// `v1`, `a1`, `i1`, `o1`. A store to an input, and a loop up to a variable.
const NAMES: [Change; 13] = [
    (41, 1, b"1", 40),
    (60, 1, b"1", 59),
    (75, 1, b"1", 74),
    (88, 1, b"1", 87),
    (88, 0, b"0", 87),
    (104, 1, b"1", 103),
    (118, 1, b"1", 117),
    (138, 1, b"1", 137),
    (143, 1, b"1", 142),
    (146, 1, b"1", 145),
    (155, 1, b"1", 154),
    (154, 1, b"a", 154),
    (117, 1, b"v", 117),
];

/// A line that is indented too little or too far; a loop with no statement, and no output; a sum
/// without its parentheses, and a value with some.
const LINES: [Change; 11] = [
    (80, 1, b"", 80),
    (80, 0, b"  ", 80),
    (133, 2, b"", 133),
    (133, 0, b"  ", 133),
    (150, 1, b"", 150),
    (174, 2, b"", 174),
    (174, 0, b"  ", 178),
    (133, 41, b"", 133),
    (44, 19, b"", 44),
    (163, 1, b"", 165),
    (166, 5, b"", 166),
];

/// Where a text is refused.
fn refused(alloc: Global, text: &[u8]) -> Result<Option<usize>, AllocError> {
    match read_kernel(alloc, text) {
        Ok(_) => Ok(None),
        Err(KernelNo::Syntax { offset }) => Ok(Some(offset)),
        Err(KernelNo::Memory) => Err(AllocError),
    }
}

fn changed(
    alloc: Global,
    at: usize,
    removed: usize,
    inserted: &[u8],
) -> Result<Vec<u8>, AllocError> {
    let mut text = Vec::new(alloc);
    for b in TEXT.iter().take(at) {
        text.push(*b)?;
    }
    put(&mut text, inserted)?;
    for b in TEXT.iter().skip(at).skip(removed) {
        text.push(*b)?;
    }
    Ok(text)
}

fn refused_with(
    alloc: Global,
    at: usize,
    removed: usize,
    inserted: &[u8],
) -> Result<Option<usize>, AllocError> {
    let text = changed(alloc, at, removed, inserted)?;
    refused(alloc, &text)
}

/// The place of the first change with which the text is not refused where it has to be.
fn first_wrong(alloc: Global, changes: &[Change]) -> Result<Option<usize>, AllocError> {
    for i in 0..changes.len() {
        let (at, removed, inserted, refused) = changes[i];
        if refused_with(alloc, at, removed, inserted)? != Some(refused) {
            return Ok(Some(i));
        }
    }
    Ok(None)
}

/// The first of the ends at which the text is cut and isn't refused.
fn first_wrong_cut(
    alloc: Global,
    text: &[u8],
    ends: &[usize],
) -> Result<Option<usize>, AllocError> {
    for end in ends {
        let mut front = Vec::new(alloc);
        for b in text.iter().take(*end) {
            front.push(*b)?;
        }
        if refused(alloc, &front)? != Some(*end) {
            return Ok(Some(*end));
        }
    }
    Ok(None)
}

/// The place of the first text, between two others, that isn't refused at its byte. `begins` is the
/// length of what stands before it.
fn first_taken(
    alloc: Global,
    before: &[u8],
    texts: &[(&'static [u8], u8)],
    behind: &[u8],
    begins: u8,
) -> Result<Option<usize>, AllocError> {
    for i in 0..texts.len() {
        let (middle, at) = texts[i];
        let mut text = Vec::from_slice(alloc, before)?;
        put(&mut text, middle)?;
        put(&mut text, behind)?;
        if refused(alloc, &text)? != Some(begins as usize + at as usize) {
            return Ok(Some(i));
        }
    }
    Ok(None)
}

#[test]
fn adds_one(rt: HostRuntime) -> Result<(), Fail> {
    assert_eq!(rt; TEXT.len(), 180);
    assert_eq!(rt; refused(rt.alloc(), TEXT)?, None);
    assert_eq!(rt; refused(rt.alloc(), b"")?, Some(0));
    Ok(())
}

// The texts cut behind each of their pieces but the last.
#[test]
fn cuts(rt: HostRuntime) -> Result<(), Fail> {
    assert_eq!(rt; first_wrong_cut(rt.alloc(), TEXT, &ENDS)?, None);
    assert_eq!(rt; FOURS.len(), 532);
    assert_eq!(rt; refused(rt.alloc(), FOURS)?, None);
    assert_eq!(rt; first_wrong_cut(rt.alloc(), FOURS, &ENDS_OF_FOURS)?, None);
    Ok(())
}

#[test]
fn changes(rt: HostRuntime) -> Result<(), Fail> {
    assert_eq!(rt; first_wrong(rt.alloc(), &SPACES)?, None);
    assert_eq!(rt; first_wrong(rt.alloc(), &NUMBERS)?, None);
    assert_eq!(rt; first_wrong(rt.alloc(), &NAMES)?, None);
    assert_eq!(rt; first_wrong(rt.alloc(), &LINES)?, None);
    Ok(())
}

#[test]
fn greatest_and_least_number(rt: HostRuntime) -> Result<(), Fail> {
    assert_eq!(rt; refused_with(rt.alloc(), 169, 1, b"4294967295")?, None);
    assert_eq!(rt; refused_with(rt.alloc(), 169, 1, b"0")?, None);
    Ok(())
}

// An expression is at most 1,024 deep: the 1,025th level is refused where it begins.
#[test]
fn deep_sums(rt: HostRuntime) -> Result<(), Fail> {
    let deepest = sums(rt.alloc(), 1023)?;
    assert_eq!(rt; refused(rt.alloc(), &deepest)?, None);
    let deeper = sums(rt.alloc(), 1024)?;
    assert_eq!(rt; refused(rt.alloc(), &deeper)?, Some(1075));
    let deepest = sums_of_four(rt.alloc(), b"w0", 1023)?;
    assert_eq!(rt; refused(rt.alloc(), &deepest)?, None);
    let deeper = sums_of_four(rt.alloc(), b"w0", 1024)?;
    assert_eq!(rt; refused(rt.alloc(), &deeper)?, Some(1083));
    let deeper = sums_of_four(rt.alloc(), b"(uint4)(1u)", 1023)?;
    assert_eq!(rt; refused(rt.alloc(), &deeper)?, Some(1090));
    Ok(())
}

// The forms that begin alike are told apart where they first differ.
#[test]
fn no_forms(rt: HostRuntime) -> Result<(), Fail> {
    assert_eq!(rt;
        first_taken(rt.alloc(), HEAD, &NO_STATEMENTS, END, 139)?,
        None
    );
    assert_eq!(rt;
        first_taken(rt.alloc(), OPENING, &NO_DECLARATIONS, STORE, 40)?,
        None
    );
    assert_eq!(rt;
        first_taken(rt.alloc(), SIZED, &NO_SIZES, UNSIZED, 0)?,
        None
    );
    assert_eq!(rt; first_taken(rt.alloc(), b"", &NO_HEADS, b"", 0)?, None);
    Ok(())
}

// Loops and ifs nest at most 1,024 deep: one more is refused at its first word.
#[test]
fn deep_loops(rt: HostRuntime) -> Result<(), Fail> {
    let deepest = loops(rt.alloc(), 1024)?;
    assert_eq!(rt; refused(rt.alloc(), &deepest)?, None);
    let deeper = loops(rt.alloc(), 1025)?;
    assert_eq!(rt; refused(rt.alloc(), &deeper)?, Some(1098536));
    let deepest = ifs(rt.alloc(), 1024)?;
    assert_eq!(rt; refused(rt.alloc(), &deepest)?, None);
    let deeper = ifs(rt.alloc(), 1025)?;
    assert_eq!(rt; refused(rt.alloc(), &deeper)?, Some(1067050));
    Ok(())
}
