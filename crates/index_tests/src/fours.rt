//! Vectors of four: the offsets of those in arrays, asked for at the indices around them, and those
//! in variables.

use crate::kinds::{
    Form, arrays, has_variable, has_vector, input, loop_variables, read_through, written_through,
};
use crate::texts::{Row, spelled};
use crate::trees::text;
use array_views::{ArrayKind, Count, LoadSet, PairStack, View};
use index_expr::Index;
use lift_tree::ty::Ty;
use size_arith::Names;
use std::alloc::{AllocError, Global};
use std::test::Fail;

// Arrays of vectors: each lies at its number.
const VECTORS: [Row; 5] = [
    (&[6], &[], 1, "i0"),
    (&[2, 3], &[], 2, "((i0 * 3) + i1)"),
    (&[2, 3], &[(Form::Transpose, &[3, 2])], 2, "((i1 * 3) + i0)"),
    (&[5], &[(Form::Slide(3, 1), &[3, 3])], 2, "((i0 * 1) + i1)"),
    (&[5], &[(Form::Reverse, &[5])], 1, "((5 - 1) - i0)"),
];

// Arrays of numbers, read by fours: a vector is the row of its first number.
const READ: [Row; 5] = [
    (&[24], &[(Form::AsVector, &[6])], 1, "i0"),
    (
        &[24],
        &[(Form::AsVector, &[6]), (Form::Split, &[3, 2])],
        2,
        "((i0 * 2) + i1)",
    ),
    (
        &[24],
        &[
            (Form::AsVector, &[6]),
            (Form::Split, &[3, 2]),
            (Form::Transpose, &[2, 3]),
        ],
        2,
        "((i1 * 2) + i0)",
    ),
    (
        &[24],
        &[
            (Form::AsVector, &[6]),
            (Form::Split, &[3, 2]),
            (Form::Join, &[6]),
        ],
        1,
        "i0",
    ),
    (
        &[4, 8],
        &[(Form::Join, &[32]), (Form::AsVector, &[8])],
        1,
        "((((((i0 * 4) + 0) / 8) * 8) + (((i0 * 4) + 0) % 8)) / 4)",
    ),
];

// Arrays of numbers that are written by fours.
const WRITTEN: [Row; 3] = [
    (&[24], &[(Form::AsScalar, &[6])], 1, "i0"),
    (
        &[24],
        &[(Form::AsScalar, &[6]), (Form::Join, &[3, 2])],
        2,
        "((i0 * 2) + i1)",
    ),
    (
        &[3, 8],
        &[(Form::Split, &[24]), (Form::AsScalar, &[6])],
        1,
        "((((((i0 * 4) + 0) / 8) * 8) + (((i0 * 4) + 0) % 8)) / 4)",
    ),
];

// Buffer 0 of the inputs, an array of vectors of these lengths.
fn vectors(alloc: Global, lengths: &[u32]) -> Result<View, AllocError> {
    let ty = arrays(alloc, lengths, Ty::Vector)?;
    View::placed(alloc, &Names::new(alloc), ArrayKind::Input, 0, &ty)
}

#[test]
fn arrays_of_vectors_are_by_fours(rt: HostRuntime) -> Result<(), Fail> {
    let alloc = rt.alloc();
    for (lengths, layouts, dimensions, offset) in VECTORS {
        let view = read_through(alloc, vectors(alloc, lengths)?, lengths, layouts)?;
        assert!(rt; spelled(alloc, &view, dimensions)?.as_str() == offset);
    }
    Ok(())
}

#[test]
fn numbers_are_read_and_written_by_fours(rt: HostRuntime) -> Result<(), Fail> {
    let alloc = rt.alloc();
    for (lengths, layouts, dimensions, offset) in READ {
        let view = read_through(alloc, input(alloc, lengths)?, lengths, layouts)?;
        assert!(rt; spelled(alloc, &view, dimensions)?.as_str() == offset);
    }
    for (lengths, layouts, dimensions, offset) in WRITTEN {
        let view = written_through(alloc, input(alloc, lengths)?, lengths, layouts)?;
        assert!(rt; spelled(alloc, &view, dimensions)?.as_str() == offset);
    }
    Ok(())
}

// A row of 8 numbers, read by fours in a loop over rows.
#[test]
fn rows_are_read_by_fours(rt: HostRuntime) -> Result<(), Fail> {
    let alloc = rt.alloc();
    let row = input(alloc, &[3, 8])?.at(
        alloc,
        Index::Variable {
            number: 0,
            least: 0,
            greatest: 4294967295,
        },
    )?;
    let view = read_through(alloc, row, &[8], &[(Form::AsVector, &[2])])?;
    let indices = loop_variables(alloc, 1, 1)?;
    match view.target(alloc, PairStack::new(alloc), indices)? {
        None => assert!(rt; false),
        Some(cell) => {
            let offset = text(alloc, &cell.index)?;
            assert!(rt; offset.as_str() == "(((i0 * 8) + ((i1 * 4) + 0)) / 4)");
        }
    }
    Ok(())
}

// Vectors are counted by themselves.
#[test]
fn vectors_are_held(rt: HostRuntime) -> Result<(), Fail> {
    let alloc = rt.alloc();
    let before = Count { words: 5, fours: 2 };
    let number = View::held(alloc, &Ty::Number, before)?;
    assert!(rt; has_variable(alloc, &number, &[], 5)?);
    let vector = View::held(alloc, &Ty::Vector, before)?;
    assert!(rt; has_vector(alloc, &vector, &[], 2)?);
    assert!(rt; !has_variable(alloc, &vector, &[], 2)?);
    let element = vectors(alloc, &[6])?.at(alloc, Index::Literal(3))?;
    let count = LoadSet::TakeFour.count()?;
    assert!(rt; count.words == 0 && count.fours == 1);
    let loaded = element.loaded(alloc, &LoadSet::TakeFour, before)?;
    assert!(rt; has_vector(alloc, &loaded, &[], 2)?);
    Ok(())
}
