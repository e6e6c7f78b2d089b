//! Indices through many layouts: a stride names its position twice, and past 262,144 nodes the
//! answer is want of memory.

use crate::kinds::{Form, input, loop_variables, read_through};
use array_views::{PairStack, View};
use std::alloc::{AllocError, Global};
use std::test::Fail;

type Layouts = &'static [(Form, &'static [u32])];

// A stride of 2 of six elements.
const STRIDE: Layouts = &[
    (Form::Split, &[3, 2]),
    (Form::Transpose, &[2, 3]),
    (Form::Join, &[6]),
];

const REVERSE: Layouts = &[(Form::Reverse, &[6])];

// The rows of two put together again.
const ROWS: Layouts = &[(Form::Split, &[3, 2]), (Form::Join, &[6])];

// An array of six, through the layouts so many times.
fn through(alloc: Global, layouts: Layouts, times: u32) -> Result<View, AllocError> {
    let mut view = input(alloc, &[6])?;
    for _ in 0..times {
        view = read_through(alloc, view, &[6], layouts)?;
    }
    Ok(view)
}

// The nodes of the index at one loop's variable; none where there was want of memory.
fn nodes(alloc: Global, layouts: Layouts, times: u32) -> Result<Option<u64>, AllocError> {
    let view = through(alloc, layouts, times)?;
    let indices = loop_variables(alloc, 0, 1)?;
    match view.target(alloc, PairStack::new(alloc), indices) {
        Ok(Some(cell)) => Ok(Some(cell.index.node_count())),
        Ok(None) => Ok(Some(0)),
        Err(_) => Ok(None),
    }
}

// Whether there are so many nodes after so many times.
fn have_nodes(
    alloc: Global,
    layouts: Layouts,
    rows: &[(u32, Option<u64>)],
) -> Result<bool, AllocError> {
    for (times, expected) in rows {
        if nodes(alloc, layouts, *times)? != *expected {
            return Ok(false);
        }
    }
    Ok(true)
}

// Each stride makes 2 s + 7 nodes of s, so k of them 8 * 2^k - 7 of 1: the sixteenth puts an index
// of 8 * 2^15 - 7 = 262,137 in two places, the seventeenth one of 524,281.
const OF_STRIDES: [(u32, Option<u64>); 4] = [
    (1, Some(9)),
    (16, Some(524281)),
    (17, None),
    (24, None),
];

#[test]
fn strides_grow_to_a_bound(rt: HostRuntime) -> Result<(), Fail> {
    assert!(rt; have_nodes(rt.alloc(), STRIDE, &OF_STRIDES)?);
    Ok(())
}

// Each reverse has four nodes more.
#[test]
fn reverses_and_rows_stay_small(rt: HostRuntime) -> Result<(), Fail> {
    assert!(rt; have_nodes(rt.alloc(), REVERSE, &[(24, Some(97))])?);
    assert!(rt; have_nodes(rt.alloc(), ROWS, &[(24, Some(1))])?);
    Ok(())
}
