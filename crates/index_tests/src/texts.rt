//! Indices as they are spelled: the formulas put into one another.

use crate::kinds::{Form, arrays, input, loop_variables, read_through, written_through};
use crate::trees::text;
use array_views::{ArrayKind, PairStack, View};
use lift_tree::ty::Ty;
use size_arith::{Monomial, Name, Names, Poly};
use std::alloc::{AllocError, Global};
use std::test::Fail;

/// The index at that many loop variables.
pub fn spelled(alloc: Global, view: &View, dimensions: u32) -> Result<String, AllocError> {
    let indices = loop_variables(alloc, 0, dimensions)?;
    match view.target(alloc, PairStack::new(alloc), indices)? {
        None => Ok(String::new(alloc)),
        Some(cell) => text(alloc, &cell.index),
    }
}

/// An array's lengths, layouts with the lengths of types, how many dimensions the innermost has, and
/// the index.
pub type Row = (
    &'static [u32],
    &'static [(Form, &'static [u32])],
    u32,
    &'static str,
);

// An array that is read through layouts, each with the lengths of what it makes.
const READ: [Row; 16] = [
    (&[7], &[], 1, "i0"),
    (&[2, 3, 4], &[], 3, "((((i0 * 3) + i1) * 4) + i2)"),
    (&[12], &[(Form::Split, &[3, 4])], 2, "((i0 * 4) + i1)"),
    (
        &[3, 4],
        &[(Form::Join, &[12])],
        1,
        "(((i0 / 4) * 4) + (i0 % 4))",
    ),
    (&[2, 3], &[(Form::Transpose, &[3, 2])], 2, "((i1 * 3) + i0)"),
    (&[9], &[(Form::Slide(3, 2), &[4, 3])], 2, "((i0 * 2) + i1)"),
    (
        &[5],
        &[(Form::Pad(1, 2), &[8])],
        1,
        "min((max(i0, 1) - 1), (5 - 1))",
    ),
    (&[5], &[(Form::Reverse, &[5])], 1, "((5 - 1) - i0)"),
    (
        &[5],
        &[(Form::Reverse, &[5]), (Form::Reverse, &[5])],
        1,
        "((5 - 1) - ((5 - 1) - i0))",
    ),
    (
        &[5],
        &[(Form::Pad(1, 1), &[7]), (Form::Slide(3, 1), &[5, 3])],
        2,
        "min((max(((i0 * 1) + i1), 1) - 1), (5 - 1))",
    ),
    (
        &[12],
        &[(Form::Split, &[3, 4]), (Form::Join, &[12])],
        1,
        "i0",
    ),
    (
        &[12],
        &[
            (Form::Split, &[3, 4]),
            (Form::Join, &[12]),
            (Form::Split, &[6, 2]),
            (Form::Join, &[12]),
            (Form::Split, &[2, 6]),
        ],
        2,
        "((i0 * 6) + i1)",
    ),
    (
        &[6],
        &[(Form::Slide(2, 2), &[3, 2]), (Form::Join, &[6])],
        1,
        "i0",
    ),
    (
        &[5],
        &[(Form::Slide(3, 1), &[3, 3]), (Form::Join, &[9])],
        1,
        "(((i0 / 3) * 1) + (i0 % 3))",
    ),
    (
        &[12],
        &[
            (Form::Split, &[3, 4]),
            (Form::Transpose, &[4, 3]),
            (Form::Join, &[12]),
        ],
        1,
        "(((i0 % 3) * 4) + (i0 / 3))",
    ),
    (
        &[4],
        &[
            (Form::Split, &[2, 2]),
            (Form::Transpose, &[2, 2]),
            (Form::Join, &[4]),
        ],
        1,
        "(((i0 % 2) * 2) + (i0 / 2))",
    ),
];

// An array that is written through layouts, each with the lengths of its operand.
const WRITTEN: [Row; 6] = [
    (
        &[3, 4],
        &[(Form::Split, &[12])],
        1,
        "(((i0 / 4) * 4) + (i0 % 4))",
    ),
    (&[12], &[(Form::Join, &[3, 4])], 2, "((i0 * 4) + i1)"),
    (&[3, 2], &[(Form::Transpose, &[2, 3])], 2, "((i1 * 2) + i0)"),
    (&[5], &[(Form::Reverse, &[5])], 1, "((5 - 1) - i0)"),
    // A stride of 4.
    (
        &[12],
        &[
            (Form::Join, &[4, 3]),
            (Form::Transpose, &[3, 4]),
            (Form::Split, &[12]),
        ],
        1,
        "(((i0 % 4) * 3) + (i0 / 4))",
    ),
    (
        &[12],
        &[(Form::Join, &[3, 4]), (Form::Split, &[12])],
        1,
        "i0",
    ),
];

fn are_spelled_read(alloc: Global, rows: &[Row]) -> Result<bool, AllocError> {
    for (lengths, layouts, dimensions, index) in rows {
        let view = read_through(alloc, input(alloc, lengths)?, lengths, layouts)?;
        if spelled(alloc, &view, *dimensions)?.as_str() != *index {
            return Ok(false);
        }
    }
    Ok(true)
}

fn are_spelled_written(alloc: Global, rows: &[Row]) -> Result<bool, AllocError> {
    for (lengths, layouts, dimensions, index) in rows {
        let view = written_through(alloc, input(alloc, lengths)?, lengths, layouts)?;
        if spelled(alloc, &view, *dimensions)?.as_str() != *index {
            return Ok(false);
        }
    }
    Ok(true)
}

#[test]
fn layouts_are_spelled(rt: HostRuntime) -> Result<(), Fail> {
    assert!(rt; are_spelled_read(rt.alloc(), &READ)?);
    assert!(rt; are_spelled_written(rt.alloc(), &WRITTEN)?);
    Ok(())
}

// Rows of M, a multiple of 2 from 2 to 8.
#[test]
fn lengths_are_spelled_over_sizes(rt: HostRuntime) -> Result<(), Fail> {
    let alloc = rt.alloc();
    let mut names = Names::new(alloc);
    names.push(Name {
        multiple: 2,
        from: 2,
        to: 8,
    })?;
    let length = Poly::from_monomial(alloc, Monomial::size(2, 0))?;
    let row = Ty::Array(Box::new(alloc, Ty::Number)?, length);
    let ty = arrays(alloc, &[3], row)?;
    let view = View::placed(alloc, &names, ArrayKind::Output, 0, &ty)?;
    assert!(rt; spelled(alloc, &view, 2)?.as_str() == "((i0 * (2 * (s0 / 2))) + i1)");
    Ok(())
}
