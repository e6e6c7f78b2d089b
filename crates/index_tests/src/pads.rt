//! What stays below the length that a lesser number ends, as the indices of a pad in front do,
//! worked by hand, each beside a neighbour that stays.

use crate::trees::{Row, Tree, are_simplified_in_loops_of};
use index_expr::Operation::{Difference, Greatest, Least, Product, Quotient, Sum};
use std::test::Fail;

// Variables of loops, of which no more is known by themselves than that they are words.
const I: Tree = Tree::Variable(0, 4294967295);

const J: Tree = Tree::Variable(1, 4294967295);

const ONE: Tree = Tree::Number(1);

const TWO: Tree = Tree::Number(2);

// The last number of a loop over s0.
const LAST: Tree = Tree::Binary(Difference, &Tree::Size(0), &ONE);

const LESSER: [Row; 8] = [
    (&[Tree::Size(0)], Tree::Binary(Least, &I, &LAST), "i0"),
    (&[Tree::Size(0)], Tree::Binary(Least, &LAST, &I), "i0"),
    (
        &[Tree::Size(1)],
        Tree::Binary(Least, &I, &LAST),
        "min(i0, (s0 - 1))",
    ),
    (
        &[Tree::Size(0)],
        Tree::Binary(Least, &I, &Tree::Binary(Difference, &Tree::Size(0), &TWO)),
        "min(i0, (s0 - 2))",
    ),
    (
        &[Tree::Number(4)],
        Tree::Binary(Least, &I, &Tree::Number(3)),
        "i0",
    ),
    (
        &[Tree::Number(5)],
        Tree::Binary(Least, &I, &Tree::Number(3)),
        "min(i0, 3)",
    ),
    (
        &[],
        Tree::Binary(Least, &Tree::Variable(0, 3), &Tree::Number(3)),
        "i0",
    ),
    (
        &[],
        Tree::Binary(Least, &I, &Tree::Number(4294967295)),
        "min(i0, 4294967295)",
    ),
];

// What a pad of one in front reads: the first for 0, and else the one before.
const BEFORE: Tree = Tree::Binary(Difference, &Tree::Binary(Greatest, &I, &ONE), &ONE);

// And of two.
const TWO_BEFORE: Tree = Tree::Binary(Difference, &Tree::Binary(Greatest, &I, &TWO), &TWO);

// One more than the size, and two more.
const LONGER: Tree = Tree::Binary(Sum, &ONE, &Tree::Size(0));

const TWO_LONGER: Tree = Tree::Binary(Sum, &TWO, &Tree::Size(0));

const CLAMPED: Tree = Tree::Binary(Least, &BEFORE, &LAST);

const PADS: [Row; 7] = [
    (&[LONGER], CLAMPED, "(max(i0, 1) - 1)"),
    (&[TWO_LONGER], CLAMPED, "min((max(i0, 1) - 1), (s0 - 1))"),
    (&[], CLAMPED, "min((max(i0, 1) - 1), (s0 - 1))"),
    (
        &[LONGER],
        Tree::Binary(
            Least,
            &Tree::Binary(Difference, &Tree::Binary(Greatest, &I, &ONE), &TWO),
            &LAST,
        ),
        "min((max(i0, 1) - 2), (s0 - 1))",
    ),
    (
        &[Tree::Number(7)],
        Tree::Binary(Least, &TWO_BEFORE, &Tree::Number(4)),
        "(max(i0, 2) - 2)",
    ),
    (
        &[Tree::Number(8)],
        Tree::Binary(Least, &TWO_BEFORE, &Tree::Number(4)),
        "min((max(i0, 2) - 2), 4)",
    ),
    (
        &[LONGER],
        Tree::Binary(Quotient, &BEFORE, &Tree::Size(0)),
        "0",
    ),
];

// Without the first in front a length of 0 would have nothing to read: where it isn't known to be
// at least 1, as of a size that isn't declared, the lesser stays.
const AREA: Tree = Tree::Binary(Product, &Tree::Size(0), &Tree::Size(1));

const QUARTER: Tree = Tree::Binary(Quotient, &Tree::Size(1), &Tree::Number(4));

const THIRD: Tree = Tree::Binary(Quotient, &Tree::Size(1), &Tree::Number(3));

const LESS: Tree = Tree::Binary(Difference, &Tree::Size(1), &Tree::Size(0));

const POSITIVE: [Row; 5] = [
    (
        &[Tree::Binary(Sum, &ONE, &AREA)],
        Tree::Binary(Least, &BEFORE, &Tree::Binary(Difference, &AREA, &ONE)),
        "(max(i0, 1) - 1)",
    ),
    (
        &[Tree::Binary(Sum, &ONE, &QUARTER)],
        Tree::Binary(Least, &BEFORE, &Tree::Binary(Difference, &QUARTER, &ONE)),
        "(max(i0, 1) - 1)",
    ),
    (
        &[Tree::Binary(Sum, &ONE, &THIRD)],
        Tree::Binary(Least, &BEFORE, &Tree::Binary(Difference, &THIRD, &ONE)),
        "min((max(i0, 1) - 1), ((s1 / 3) - 1))",
    ),
    (
        &[Tree::Binary(Sum, &ONE, &LESS)],
        Tree::Binary(Least, &BEFORE, &Tree::Binary(Difference, &LESS, &ONE)),
        "min((max(i0, 1) - 1), ((s1 - s0) - 1))",
    ),
    (
        &[Tree::Binary(Sum, &ONE, &Tree::Size(2))],
        Tree::Binary(
            Least,
            &BEFORE,
            &Tree::Binary(Difference, &Tree::Size(2), &ONE),
        ),
        "min((max(i0, 1) - 1), (s2 - 1))",
    ),
];

// A pad of two in front of one that is padded so, and one of a cell in four rows of 4.
const NESTED: [Row; 3] = [
    (
        &[Tree::Binary(Sum, &Tree::Number(3), &Tree::Size(0))],
        Tree::Binary(
            Least,
            &Tree::Binary(
                Difference,
                &Tree::Binary(
                    Greatest,
                    &Tree::Binary(Least, &TWO_BEFORE, &Tree::Binary(Difference, &LONGER, &ONE)),
                    &ONE,
                ),
                &ONE,
            ),
            &LAST,
        ),
        "(max((max(i0, 2) - 2), 1) - 1)",
    ),
    (
        &[Tree::Number(4), Tree::Number(4)],
        CELL_BEFORE,
        "(max(((i0 * 4) + i1), 1) - 1)",
    ),
    (
        &[Tree::Number(5), Tree::Number(4)],
        CELL_BEFORE,
        "min((max(((i0 * 4) + i1), 1) - 1), 14)",
    ),
];

const CELL_BEFORE: Tree = Tree::Binary(
    Least,
    &Tree::Binary(
        Difference,
        &Tree::Binary(
            Greatest,
            &Tree::Binary(Sum, &Tree::Binary(Product, &I, &Tree::Number(4)), &J),
            &ONE,
        ),
        &ONE,
    ),
    &Tree::Number(14),
);

const TABLES: [&[Row]; 4] = [&LESSER, &PADS, &POSITIVE, &NESTED];

#[test]
fn lesser_numbers_are_left_out(rt: HostRuntime) -> Result<(), Fail> {
    for rows in TABLES {
        assert!(rt; are_simplified_in_loops_of(rt.alloc(), &[1, 4], rows)?);
    }
    Ok(())
}
