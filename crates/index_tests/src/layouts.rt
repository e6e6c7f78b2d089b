//! The cells of positions through layouts, worked out by hand.

use crate::kinds::{Form, has_cell, input, read_through, written_through};
use array_views::View;
use std::alloc::{AllocError, Global};
use std::test::Fail;

// An array's lengths, the layouts through which it is read, each with the lengths of what it makes,
// and the cells of the last one's scalars in row-major order.
const READ: [(&[u32], &[(Form, &[u32])], &[u64]); 14] = [
    (&[6], &[(Form::Split, &[3, 2])], &[0, 1, 2, 3, 4, 5]),
    (&[2, 3], &[(Form::Join, &[6])], &[0, 1, 2, 3, 4, 5]),
    (&[2, 3], &[(Form::Transpose, &[3, 2])], &[0, 3, 1, 4, 2, 5]),
    (
        &[7],
        &[(Form::Slide(3, 2), &[3, 3])],
        &[0, 1, 2, 2, 3, 4, 4, 5, 6],
    ),
    (&[3], &[(Form::Pad(2, 1), &[6])], &[0, 0, 0, 1, 2, 2]),
    (&[3], &[(Form::Reverse, &[3])], &[2, 1, 0]),
    (&[2, 3], &[(Form::Reverse, &[2, 3])], &[3, 4, 5, 0, 1, 2]),
    // A stride of 2.
    (
        &[6],
        &[
            (Form::Split, &[3, 2]),
            (Form::Transpose, &[2, 3]),
            (Form::Join, &[6]),
        ],
        &[0, 2, 4, 1, 3, 5],
    ),
    // The same turned round.
    (
        &[6],
        &[
            (Form::Split, &[3, 2]),
            (Form::Transpose, &[2, 3]),
            (Form::Join, &[6]),
            (Form::Reverse, &[6]),
        ],
        &[5, 3, 1, 4, 2, 0],
    ),
    (
        &[3],
        &[(Form::Pad(1, 1), &[5]), (Form::Slide(3, 1), &[3, 3])],
        &[0, 0, 1, 0, 1, 2, 1, 2, 2],
    ),
    (
        &[2, 3],
        &[(Form::Transpose, &[3, 2]), (Form::Join, &[6])],
        &[0, 3, 1, 4, 2, 5],
    ),
    (
        &[6],
        &[(Form::Split, &[2, 3]), (Form::Transpose, &[3, 2])],
        &[0, 3, 1, 4, 2, 5],
    ),
    (
        &[2, 3, 2],
        &[(Form::Join, &[6, 2]), (Form::Pad(1, 0), &[7, 2])],
        &[0, 1, 0, 1, 2, 3, 4, 5, 6, 7, 8, 9, 10, 11],
    ),
    (
        &[5],
        &[
            (Form::Slide(2, 1), &[4, 2]),
            (Form::Transpose, &[2, 4]),
            (Form::Join, &[8]),
        ],
        &[0, 1, 2, 3, 1, 2, 3, 4],
    ),
];

// The lengths of an array that is written, the layouts from it inwards, each with the lengths of
// its operand, and the cells of the innermost operand's scalars.
const WRITTEN: [(&[u32], &[(Form, &[u32])], &[u64]); 9] = [
    (&[2, 3], &[(Form::Split, &[6])], &[0, 1, 2, 3, 4, 5]),
    (&[6], &[(Form::Join, &[2, 3])], &[0, 1, 2, 3, 4, 5]),
    (&[3, 2], &[(Form::Transpose, &[2, 3])], &[0, 2, 4, 1, 3, 5]),
    // Item 0 of 2 writes the first and the third, to the cells 2 and 0.
    (&[3], &[(Form::Reverse, &[3])], &[2, 1, 0]),
    (&[2, 3], &[(Form::Reverse, &[2, 3])], &[3, 4, 5, 0, 1, 2]),
    // A stride of 2.
    (
        &[6],
        &[
            (Form::Join, &[2, 3]),
            (Form::Transpose, &[3, 2]),
            (Form::Split, &[6]),
        ],
        &[0, 3, 1, 4, 2, 5],
    ),
    (
        &[6],
        &[(Form::Join, &[3, 2]), (Form::Transpose, &[2, 3])],
        &[0, 2, 4, 1, 3, 5],
    ),
    (
        &[4],
        &[
            (Form::Join, &[2, 2]),
            (Form::Transpose, &[2, 2]),
            (Form::Split, &[4]),
        ],
        &[0, 2, 1, 3],
    ),
    (
        &[3, 2],
        &[(Form::Transpose, &[2, 3]), (Form::Split, &[6])],
        &[0, 2, 4, 1, 3, 5],
    ),
];

// The position with this number in row-major order, after the indices of an outer one.
fn position(
    alloc: Global,
    lengths: &[u32],
    number: u64,
    outer: &[u32],
) -> Result<Vec<u32>, AllocError> {
    let mut indices = outer.to_vec(alloc)?;
    match lengths {
        [] => Ok(indices),
        [_, inner @ ..] => {
            let row = inner
                .iter()
                .fold(1u64, |size, n| size.saturating_mul(*n as u64));
            indices.push((number.checked_div(row).unwrap_or(0) % 4294967296) as u32)?;
            position(alloc, inner, number.checked_rem(row).unwrap_or(0), &indices)
        }
    }
}

// Whether the scalars of an array of these lengths have these cells, in row-major order.
fn has_cells(
    alloc: Global,
    view: &View,
    lengths: &[u32],
    number: u64,
    cells: &[u64],
) -> Result<bool, AllocError> {
    match cells {
        [] => Ok(true),
        [cell, rest @ ..] => {
            let indices = position(alloc, lengths, number, &[])?;
            Ok(
                has_cell(alloc, view, &[], &indices, 0, *cell)?
                    && has_cells(alloc, view, lengths, number.saturating_add(1), rest)?,
            )
        }
    }
}

fn last_lengths<'a>(lengths: &'a [u32], layouts: &[(Form, &'a [u32])]) -> &'a [u32] {
    match layouts {
        [] => lengths,
        [(_, inner), rest @ ..] => last_lengths(inner, rest),
    }
}

#[test]
fn layouts_are_read(rt: HostRuntime) -> Result<(), Fail> {
    let alloc = rt.alloc();
    for (lengths, layouts, cells) in READ {
        let view = read_through(alloc, input(alloc, lengths)?, lengths, layouts)?;
        let result = last_lengths(lengths, layouts);
        assert!(rt; has_cells(alloc, &view, result, 0, cells)?);
    }
    Ok(())
}

#[test]
fn layouts_are_written(rt: HostRuntime) -> Result<(), Fail> {
    let alloc = rt.alloc();
    for (lengths, layouts, cells) in WRITTEN {
        let view = written_through(alloc, input(alloc, lengths)?, lengths, layouts)?;
        let operand = last_lengths(lengths, layouts);
        assert!(rt; has_cells(alloc, &view, operand, 0, cells)?);
    }
    Ok(())
}

// The last scalar of eight arrays of 2 is that with number 2^8 - 1, of nine 2^9 - 1.
#[test]
fn stacks_may_be_deep(rt: HostRuntime) -> Result<(), Fail> {
    let alloc = rt.alloc();
    let eight = input(alloc, &[2; 8])?;
    assert!(rt; has_cell(alloc, &eight, &[], &[1; 8], 0, 255)?);
    let nine = input(alloc, &[2; 9])?;
    assert!(rt; has_cell(alloc, &nine, &[], &[1; 9], 0, 511)?);
    assert!(rt; has_cell(alloc, &nine, &[], &[0, 0, 0, 0, 0, 0, 0, 1, 0], 0, 2)?);
    Ok(())
}
