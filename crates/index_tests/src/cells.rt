//! Quotients and remainders of what stays below a length, and of cells whose rows are cut into
//! parts, worked by hand, each beside a neighbour that stays.

use crate::trees::{Row, Tree, are_simplified_in_loops};
use index_expr::Operation::{Difference, Product, Quotient, Remainder, Sum};
use std::test::Fail;

// Variables of loops, of which no more is known by themselves than that they are words.
const I: Tree = Tree::Variable(0, 4294967295);

const J: Tree = Tree::Variable(1, 4294967295);

const K: Tree = Tree::Variable(2, 4294967295);

const BELOW: [Row; 7] = [
    (
        &[Tree::Number(3), Tree::Number(4)],
        Tree::Binary(Quotient, &J, &Tree::Number(4)),
        "0",
    ),
    (
        &[Tree::Number(3), Tree::Number(5)],
        Tree::Binary(Quotient, &J, &Tree::Number(4)),
        "(i1 / 4)",
    ),
    (
        &[Tree::Number(3), Tree::Number(4)],
        Tree::Binary(Remainder, &J, &Tree::Number(4)),
        "i1",
    ),
    (
        &[Tree::Number(3), Tree::Number(5)],
        Tree::Binary(Remainder, &J, &Tree::Number(4)),
        "(i1 % 4)",
    ),
    (
        &[Tree::Number(3), Tree::Number(12)],
        Tree::Binary(
            Remainder,
            &Tree::Binary(Quotient, &J, &Tree::Number(3)),
            &Tree::Number(4),
        ),
        "(i1 / 3)",
    ),
    (
        &[Tree::Number(3), Tree::Number(15)],
        Tree::Binary(
            Remainder,
            &Tree::Binary(Quotient, &J, &Tree::Number(3)),
            &Tree::Number(4),
        ),
        "((i1 / 3) % 4)",
    ),
    (
        &[Tree::Number(7), Tree::Number(4)],
        Tree::Binary(
            Sum,
            &Tree::Binary(
                Product,
                &Tree::Binary(Sum, &I, &Tree::Binary(Quotient, &J, &Tree::Number(4))),
                &Tree::Number(4),
            ),
            &Tree::Binary(Remainder, &J, &Tree::Number(4)),
        ),
        "((i0 * 4) + i1)",
    ),
];

// What is 0 by its own range, or in a loop of one turn, is nothing to a sum, and a product with it
// is 0.
const NOTHING: [Row; 8] = [
    (
        &[Tree::Number(3), Tree::Number(1)],
        Tree::Binary(Product, &I, &J),
        "0",
    ),
    (
        &[Tree::Number(3), Tree::Number(1)],
        Tree::Binary(Product, &J, &I),
        "0",
    ),
    (
        &[Tree::Number(3), Tree::Number(2)],
        Tree::Binary(Product, &I, &J),
        "(i0 * i1)",
    ),
    (&[], Tree::Binary(Sum, &I, &Tree::Variable(1, 0)), "i0"),
    (
        &[],
        Tree::Binary(Sum, &I, &Tree::Variable(1, 1)),
        "(i0 + i1)",
    ),
    (
        &[],
        Tree::Binary(
            Quotient,
            &Tree::Binary(
                Sum,
                &Tree::Binary(Product, &I, &Tree::Number(1)),
                &Tree::Variable(1, 0),
            ),
            &Tree::Number(1),
        ),
        "i0",
    ),
    (
        &[Tree::Number(3), Tree::Number(1)],
        Tree::Binary(Sum, &I, &J),
        "i0",
    ),
    (
        &[Tree::Number(3), Tree::Number(2)],
        Tree::Binary(Sum, &I, &J),
        "(i0 + i1)",
    ),
];

// A column of 64 rows of 3, and the cell of it in a row of 192.
const COLUMN: Tree = Tree::Binary(
    Sum,
    &Tree::Binary(Product, &J, &Tree::Number(3)),
    &Tree::Binary(Quotient, &K, &Tree::Number(3)),
);

const CELL: Tree = Tree::Binary(Sum, &Tree::Binary(Product, &I, &Tree::Number(192)), &COLUMN);

const LITERALS: [Row; 7] = [
    (
        &[Tree::Number(3), Tree::Number(64), Tree::Number(9)],
        Tree::Binary(Quotient, &CELL, &Tree::Number(24)),
        "((i0 * 8) + (i1 / 8))",
    ),
    (
        &[Tree::Number(3), Tree::Number(65), Tree::Number(9)],
        Tree::Binary(Quotient, &CELL, &Tree::Number(24)),
        "(((i0 * 192) + ((i1 * 3) + (i2 / 3))) / 24)",
    ),
    (
        &[Tree::Number(3), Tree::Number(64), Tree::Number(9)],
        Tree::Binary(Quotient, &CELL, &Tree::Number(25)),
        "(((i0 * 192) + ((i1 * 3) + (i2 / 3))) / 25)",
    ),
    (
        &[Tree::Number(3), Tree::Number(64), Tree::Number(9)],
        Tree::Binary(Remainder, &CELL, &Tree::Number(24)),
        "(((i1 % 8) * 3) + (i2 / 3))",
    ),
    (
        &[Tree::Number(3), Tree::Number(64), Tree::Number(9)],
        Tree::Binary(
            Quotient,
            &Tree::Binary(Remainder, &COLUMN, &Tree::Number(24)),
            &Tree::Number(3),
        ),
        "(i1 % 8)",
    ),
    (
        &[Tree::Number(3), Tree::Number(64), Tree::Number(9)],
        Tree::Binary(
            Remainder,
            &Tree::Binary(Remainder, &COLUMN, &Tree::Number(24)),
            &Tree::Number(3),
        ),
        "(i2 / 3)",
    ),
    (
        &[Tree::Number(3), Tree::Number(64), Tree::Number(10)],
        Tree::Binary(
            Remainder,
            &Tree::Binary(Remainder, &COLUMN, &Tree::Number(24)),
            &Tree::Number(3),
        ),
        "((((i1 * 3) + (i2 / 3)) % 24) % 3)",
    ),
];

// Ten rows of a tile, in a row of them for each of the tiles, which are as many
// as two sizes' product.
const TILES: Tree = Tree::Binary(Product, &Tree::Size(0), &Tree::Size(1));

const TILE_ROW: Tree = Tree::Binary(
    Sum,
    &Tree::Binary(Product, &J, &Tree::Number(10)),
    &Tree::Binary(Quotient, &K, &Tree::Number(10)),
);

const TILE_CELL: Tree = Tree::Binary(
    Sum,
    &Tree::Binary(
        Product,
        &I,
        &Tree::Binary(Product, &Tree::Number(10), &TILES),
    ),
    &TILE_ROW,
);

const SIZES: [Row; 5] = [
    (
        &[Tree::Number(10), TILES, Tree::Number(100)],
        Tree::Binary(
            Quotient,
            &TILE_CELL,
            &Tree::Binary(Product, &Tree::Number(10), &Tree::Size(1)),
        ),
        "((i0 * s0) + (i1 / s1))",
    ),
    (
        &[Tree::Number(10), TILES, Tree::Number(100)],
        Tree::Binary(
            Quotient,
            &TILE_CELL,
            &Tree::Binary(Product, &Tree::Number(10), &Tree::Size(2)),
        ),
        "(((i0 * (10 * (s0 * s1))) + ((i1 * 10) + (i2 / 10))) / (10 * s2))",
    ),
    (
        &[Tree::Number(10), TILES],
        Tree::Binary(
            Remainder,
            &Tree::Binary(Quotient, &J, &Tree::Size(1)),
            &Tree::Size(0),
        ),
        "(i1 / s1)",
    ),
    (
        &[TILES, Tree::Number(64)],
        Tree::Binary(
            Quotient,
            &Tree::Binary(
                Sum,
                &Tree::Binary(Product, &I, &Tree::Number(8)),
                &Tree::Binary(Remainder, &J, &Tree::Number(8)),
            ),
            &Tree::Binary(Product, &Tree::Number(8), &Tree::Size(1)),
        ),
        "(i0 / s1)",
    ),
    (
        &[TILES, Tree::Number(64)],
        Tree::Binary(
            Quotient,
            &Tree::Binary(
                Sum,
                &Tree::Binary(Product, &I, &Tree::Number(8)),
                &Tree::Binary(Difference, &Tree::Number(7), &J),
            ),
            &Tree::Binary(Product, &Tree::Number(8), &Tree::Size(1)),
        ),
        "(((i0 * 8) + (7 - i1)) / (8 * s1))",
    ),
];

// Without loops a remainder tells nothing: the cell may be of words that wrap.
const OUTSIDE: [Row; 1] = [(
    &[],
    Tree::Binary(
        Quotient,
        &Tree::Binary(
            Sum,
            &Tree::Binary(Product, &I, &Tree::Number(8)),
            &Tree::Binary(Remainder, &J, &Tree::Number(8)),
        ),
        &Tree::Number(16),
    ),
    "(((i0 * 8) + (i1 % 8)) / 16)",
)];

// A cell modulo so many rows of its own length, or of no whole number of them; and one whose column
// may reach the next row.
const ROUND: [Row; 5] = [
    (
        &[Tree::Number(7), Tree::Number(3)],
        Tree::Binary(Remainder, &PLACE, &Tree::Number(6)),
        "(((i0 % 2) * 3) + i1)",
    ),
    (
        &[Tree::Number(7), Tree::Number(3)],
        Tree::Binary(Remainder, &PLACE, &Tree::Number(7)),
        "(((i0 * 3) + i1) % 7)",
    ),
    (
        &[Tree::Number(7), Tree::Number(4)],
        Tree::Binary(Remainder, &PLACE, &Tree::Number(6)),
        "(((i0 * 3) + i1) % 6)",
    ),
    (
        &[Tree::Number(7), Tree::Size(0)],
        Tree::Binary(
            Remainder,
            &Tree::Binary(Sum, &Tree::Binary(Product, &I, &Tree::Size(0)), &J),
            &Tree::Binary(Product, &Tree::Number(2), &Tree::Size(0)),
        ),
        "(((i0 % 2) * s0) + i1)",
    ),
    (
        &[Tree::Number(7), Tree::Size(0)],
        Tree::Binary(
            Remainder,
            &Tree::Binary(Sum, &Tree::Binary(Product, &I, &Tree::Size(0)), &J),
            &Tree::Binary(Product, &Tree::Number(2), &Tree::Size(1)),
        ),
        "(((i0 * s0) + i1) % (2 * s1))",
    ),
];

const PLACE: Tree = Tree::Binary(Sum, &Tree::Binary(Product, &I, &Tree::Number(3)), &J);

const TABLES: [&[Row]; 6] = [&BELOW, &NOTHING, &LITERALS, &ROUND, &SIZES, &OUTSIDE];

#[test]
fn cells_are_cut_into_parts(rt: HostRuntime) -> Result<(), Fail> {
    for rows in TABLES {
        assert!(rt; are_simplified_in_loops(rt.alloc(), rows)?);
    }
    Ok(())
}
