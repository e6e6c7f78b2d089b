//! What expressions are simplified to, worked by hand, each beside a neighbour that stays.

use crate::trees::{Row, Tree, are_simplified_in_loops, simplified_text};
use index_expr::Operation::{Difference, Greatest, Least, Product, Quotient, Remainder, Sum};
use std::alloc::{AllocError, Global};
use std::test::Fail;

// Two loop variables of which no more is known than that they are words.
const I: Tree = Tree::Variable(0, 4294967295);

const J: Tree = Tree::Variable(1, 4294967295);

// Zero and one, each with a neighbour that stays.
const UNITS: [(Tree, &str); 18] = [
    (Tree::Binary(Sum, &I, &Tree::Number(0)), "i0"),
    (Tree::Binary(Sum, &I, &Tree::Number(1)), "(i0 + 1)"),
    (Tree::Binary(Sum, &Tree::Number(0), &I), "i0"),
    (Tree::Binary(Sum, &Tree::Number(1), &I), "(1 + i0)"),
    (Tree::Binary(Difference, &I, &Tree::Number(0)), "i0"),
    (Tree::Binary(Difference, &Tree::Number(0), &I), "(0 - i0)"),
    (Tree::Binary(Product, &I, &Tree::Number(1)), "i0"),
    (Tree::Binary(Product, &I, &Tree::Number(2)), "(i0 * 2)"),
    (Tree::Binary(Product, &Tree::Number(1), &I), "i0"),
    (Tree::Binary(Product, &Tree::Number(2), &I), "(2 * i0)"),
    (Tree::Binary(Product, &I, &Tree::Number(0)), "0"),
    (Tree::Binary(Product, &Tree::Number(0), &I), "0"),
    (Tree::Binary(Quotient, &I, &Tree::Number(1)), "i0"),
    (Tree::Binary(Quotient, &Tree::Number(1), &I), "(1 / i0)"),
    (Tree::Binary(Remainder, &I, &Tree::Number(1)), "0"),
    (Tree::Binary(Remainder, &Tree::Number(1), &I), "(1 % i0)"),
    (
        Tree::Binary(
            Difference,
            &Tree::Binary(Product, &I, &Tree::Number(2)),
            &Tree::Binary(Product, &I, &Tree::Number(2)),
        ),
        "0",
    ),
    (
        Tree::Binary(
            Difference,
            &Tree::Binary(Product, &I, &Tree::Number(2)),
            &Tree::Binary(Product, &J, &Tree::Number(2)),
        ),
        "((i0 * 2) - (i1 * 2))",
    ),
];

// Two literals: computed where the result is a word.
const LITERALS: [(Tree, &str); 14] = [
    (Tree::Binary(Sum, &Tree::Number(2), &Tree::Number(3)), "5"),
    (
        Tree::Binary(Sum, &Tree::Number(4294967295), &Tree::Number(1)),
        "(4294967295 + 1)",
    ),
    (
        Tree::Binary(Difference, &Tree::Number(3), &Tree::Number(2)),
        "1",
    ),
    (
        Tree::Binary(Difference, &Tree::Number(2), &Tree::Number(3)),
        "(2 - 3)",
    ),
    (
        Tree::Binary(Product, &Tree::Number(65535), &Tree::Number(65537)),
        "4294967295",
    ),
    (
        Tree::Binary(Product, &Tree::Number(65536), &Tree::Number(65536)),
        "(65536 * 65536)",
    ),
    (
        Tree::Binary(Quotient, &Tree::Number(14), &Tree::Number(4)),
        "3",
    ),
    (
        Tree::Binary(Remainder, &Tree::Number(14), &Tree::Number(4)),
        "2",
    ),
    (
        Tree::Binary(Quotient, &Tree::Number(14), &Tree::Number(0)),
        "0",
    ),
    (
        Tree::Binary(Remainder, &Tree::Number(14), &Tree::Number(0)),
        "14",
    ),
    (Tree::Binary(Least, &Tree::Number(2), &Tree::Number(3)), "2"),
    (
        Tree::Binary(Greatest, &Tree::Number(2), &Tree::Number(3)),
        "3",
    ),
    (Tree::Binary(Least, &I, &Tree::Number(3)), "min(i0, 3)"),
    (Tree::Binary(Greatest, &I, &Tree::Number(3)), "max(i0, 3)"),
];

// The greater and the lesser of 0 and what is never below it; where something is taken away, the
// number may be.
const ZEROS: [(Tree, &str); 8] = [
    (Tree::Binary(Greatest, &I, &Tree::Number(0)), "i0"),
    (Tree::Binary(Greatest, &Tree::Number(0), &I), "i0"),
    (Tree::Binary(Least, &I, &Tree::Number(0)), "0"),
    (Tree::Binary(Least, &Tree::Number(0), &I), "0"),
    (
        Tree::Binary(Greatest, &Tree::Binary(Sum, &I, &J), &Tree::Number(0)),
        "(i0 + i1)",
    ),
    (
        Tree::Binary(
            Greatest,
            &Tree::Binary(Difference, &I, &J),
            &Tree::Number(0),
        ),
        "max((i0 - i1), 0)",
    ),
    (
        Tree::Binary(Least, &Tree::Number(0), &Tree::Binary(Difference, &I, &J)),
        "min(0, (i0 - i1))",
    ),
    (Tree::Binary(Least, &Tree::Number(1), &I), "min(1, i0)"),
];

// A row, or a column below the row's length, of their cell; a column that may reach the
// length, and two lengths.
const CELLS: [(Tree, &str); 9] = [
    (
        Tree::Binary(
            Quotient,
            &Tree::Binary(
                Sum,
                &Tree::Binary(
                    Product,
                    &Tree::Binary(Sum, &Tree::Binary(Product, &I, &Tree::Number(4)), &J),
                    &Tree::Number(2),
                ),
                &Tree::Variable(2, 1),
            ),
            &Tree::Number(2),
        ),
        "((i0 * 4) + i1)",
    ),
    (
        Tree::Binary(
            Quotient,
            &Tree::Binary(
                Sum,
                &Tree::Binary(Product, &Tree::Binary(Difference, &I, &J), &Tree::Number(2)),
                &Tree::Variable(2, 1),
            ),
            &Tree::Number(2),
        ),
        "((((i0 - i1) * 2) + i2) / 2)",
    ),
    (
        Tree::Binary(
            Quotient,
            &Tree::Binary(
                Sum,
                &Tree::Binary(Product, &I, &Tree::Number(3)),
                &Tree::Variable(1, 2),
            ),
            &Tree::Number(3),
        ),
        "i0",
    ),
    (
        Tree::Binary(
            Quotient,
            &Tree::Binary(
                Sum,
                &Tree::Binary(Product, &I, &Tree::Number(3)),
                &Tree::Variable(1, 3),
            ),
            &Tree::Number(3),
        ),
        "(((i0 * 3) + i1) / 3)",
    ),
    (
        Tree::Binary(
            Remainder,
            &Tree::Binary(
                Sum,
                &Tree::Binary(Product, &I, &Tree::Number(3)),
                &Tree::Variable(1, 2),
            ),
            &Tree::Number(3),
        ),
        "i1",
    ),
    (
        Tree::Binary(
            Remainder,
            &Tree::Binary(
                Sum,
                &Tree::Binary(Product, &I, &Tree::Number(3)),
                &Tree::Variable(1, 3),
            ),
            &Tree::Number(3),
        ),
        "(((i0 * 3) + i1) % 3)",
    ),
    (
        Tree::Binary(
            Quotient,
            &Tree::Binary(
                Sum,
                &Tree::Binary(Product, &I, &Tree::Number(3)),
                &Tree::Variable(1, 2),
            ),
            &Tree::Number(4),
        ),
        "(((i0 * 3) + i1) / 4)",
    ),
    (
        Tree::Binary(
            Remainder,
            &Tree::Binary(
                Sum,
                &Tree::Binary(Product, &I, &Tree::Number(4)),
                &Tree::Variable(1, 2),
            ),
            &Tree::Number(3),
        ),
        "(((i0 * 4) + i1) % 3)",
    ),
    (
        Tree::Binary(
            Quotient,
            &Tree::Binary(
                Sum,
                &Tree::Binary(Product, &Tree::Size(0), &Tree::Number(3)),
                &Tree::Variable(1, 2),
            ),
            &Tree::Number(3),
        ),
        "s0",
    ),
];

// What a join reads of rows of 3: a number from its two parts; parts of two numbers,
// or of two lengths.
const PARTS: [(Tree, &str); 5] = [
    (
        Tree::Binary(
            Sum,
            &Tree::Binary(
                Product,
                &Tree::Binary(Quotient, &I, &Tree::Number(3)),
                &Tree::Number(3),
            ),
            &Tree::Binary(Remainder, &I, &Tree::Number(3)),
        ),
        "i0",
    ),
    (
        Tree::Binary(
            Sum,
            &Tree::Binary(
                Product,
                &Tree::Binary(Quotient, &I, &Tree::Number(3)),
                &Tree::Number(4),
            ),
            &Tree::Binary(Remainder, &I, &Tree::Number(3)),
        ),
        "(((i0 / 3) * 4) + (i0 % 3))",
    ),
    (
        Tree::Binary(
            Sum,
            &Tree::Binary(
                Product,
                &Tree::Binary(Quotient, &I, &Tree::Number(3)),
                &Tree::Number(3),
            ),
            &Tree::Binary(Remainder, &I, &Tree::Number(4)),
        ),
        "(((i0 / 3) * 3) + (i0 % 4))",
    ),
    (
        Tree::Binary(
            Sum,
            &Tree::Binary(
                Product,
                &Tree::Binary(Quotient, &I, &Tree::Number(3)),
                &Tree::Number(3),
            ),
            &Tree::Binary(Remainder, &J, &Tree::Number(3)),
        ),
        "(((i0 / 3) * 3) + (i1 % 3))",
    ),
    (
        Tree::Binary(
            Sum,
            &Tree::Binary(
                Product,
                &Tree::Binary(
                    Sum,
                    &Tree::Binary(
                        Product,
                        &Tree::Binary(
                            Quotient,
                            &Tree::Binary(Quotient, &I, &Tree::Number(2)),
                            &Tree::Number(3),
                        ),
                        &Tree::Number(3),
                    ),
                    &Tree::Binary(
                        Remainder,
                        &Tree::Binary(Quotient, &I, &Tree::Number(2)),
                        &Tree::Number(3),
                    ),
                ),
                &Tree::Number(2),
            ),
            &Tree::Binary(Remainder, &I, &Tree::Number(2)),
        ),
        "i0",
    ),
];

// Several laws, one within another: a slide by 1, a pad, rows of rows.
const WHOLE: [(Tree, &str); 4] = [
    (
        Tree::Binary(Sum, &Tree::Binary(Product, &I, &Tree::Number(1)), &J),
        "(i0 + i1)",
    ),
    (
        Tree::Binary(
            Least,
            &Tree::Binary(
                Difference,
                &Tree::Binary(Greatest, &I, &Tree::Number(1)),
                &Tree::Number(1),
            ),
            &Tree::Binary(Difference, &Tree::Number(5), &Tree::Number(1)),
        ),
        "min((max(i0, 1) - 1), 4)",
    ),
    (
        Tree::Binary(
            Sum,
            &Tree::Binary(
                Product,
                &Tree::Binary(Sum, &I, &Tree::Number(0)),
                &Tree::Number(1),
            ),
            &Tree::Binary(Difference, &Tree::Number(2), &Tree::Number(2)),
        ),
        "i0",
    ),
    (
        Tree::Binary(
            Sum,
            &Tree::Binary(
                Product,
                &Tree::Binary(
                    Quotient,
                    &Tree::Binary(
                        Sum,
                        &Tree::Binary(Product, &I, &Tree::Number(3)),
                        &Tree::Variable(1, 2),
                    ),
                    &Tree::Number(3),
                ),
                &Tree::Number(3),
            ),
            &Tree::Binary(
                Remainder,
                &Tree::Binary(
                    Sum,
                    &Tree::Binary(Product, &I, &Tree::Number(3)),
                    &Tree::Variable(1, 2),
                ),
                &Tree::Number(3),
            ),
        ),
        "((i0 * 3) + i1)",
    ),
];

// Lengths over s0, a multiple of 2, s1, a multiple of 3, and s2, of which nothing is known.
const SIZES: [(Tree, &str); 9] = [
    (
        Tree::Binary(
            Product,
            &Tree::Number(2),
            &Tree::Binary(Quotient, &Tree::Size(0), &Tree::Number(2)),
        ),
        "s0",
    ),
    (
        Tree::Binary(
            Product,
            &Tree::Number(4),
            &Tree::Binary(Quotient, &Tree::Size(0), &Tree::Number(2)),
        ),
        "(2 * s0)",
    ),
    (
        Tree::Binary(
            Product,
            &Tree::Number(3),
            &Tree::Binary(Quotient, &Tree::Size(0), &Tree::Number(2)),
        ),
        "(3 * (s0 / 2))",
    ),
    (
        Tree::Binary(
            Product,
            &Tree::Number(4),
            &Tree::Binary(Quotient, &Tree::Size(1), &Tree::Number(2)),
        ),
        "(4 * (s1 / 2))",
    ),
    (
        Tree::Binary(
            Product,
            &Tree::Number(2),
            &Tree::Binary(Quotient, &Tree::Size(2), &Tree::Number(2)),
        ),
        "(2 * (s2 / 2))",
    ),
    (
        Tree::Binary(
            Product,
            &Tree::Binary(Quotient, &Tree::Size(0), &Tree::Number(2)),
            &Tree::Number(2),
        ),
        "((s0 / 2) * 2)",
    ),
    (
        Tree::Binary(
            Sum,
            &Tree::Binary(
                Product,
                &I,
                &Tree::Binary(
                    Product,
                    &Tree::Number(2),
                    &Tree::Binary(Quotient, &Tree::Size(0), &Tree::Number(2)),
                ),
            ),
            &J,
        ),
        "((i0 * s0) + i1)",
    ),
    (
        Tree::Binary(
            Product,
            &Tree::Number(6),
            &Tree::Binary(Quotient, &Tree::Size(1), &Tree::Number(3)),
        ),
        "(2 * s1)",
    ),
    (
        Tree::Binary(Quotient, &Tree::Size(0), &Tree::Number(1)),
        "s0",
    ),
];

// The lengths of the loops around, an expression, and what it is simplified to.
const LOOPS: [Row; 8] = [
    (
        &[Tree::Number(2), Tree::Number(3)],
        Tree::Binary(
            Quotient,
            &Tree::Binary(Sum, &Tree::Binary(Product, &I, &Tree::Number(3)), &J),
            &Tree::Number(3),
        ),
        "i0",
    ),
    (
        &[Tree::Number(2), Tree::Number(4)],
        Tree::Binary(
            Quotient,
            &Tree::Binary(Sum, &Tree::Binary(Product, &I, &Tree::Number(3)), &J),
            &Tree::Number(3),
        ),
        "(((i0 * 3) + i1) / 3)",
    ),
    (
        &[Tree::Number(2)],
        Tree::Binary(
            Quotient,
            &Tree::Binary(Sum, &Tree::Binary(Product, &I, &Tree::Number(3)), &J),
            &Tree::Number(3),
        ),
        "(((i0 * 3) + i1) / 3)",
    ),
    (
        &[
            Tree::Number(2),
            Tree::Binary(Quotient, &Tree::Size(0), &Tree::Number(2)),
        ],
        Tree::Binary(
            Quotient,
            &Tree::Binary(
                Sum,
                &Tree::Binary(
                    Product,
                    &I,
                    &Tree::Binary(Quotient, &Tree::Size(0), &Tree::Number(2)),
                ),
                &J,
            ),
            &Tree::Binary(Quotient, &Tree::Size(0), &Tree::Number(2)),
        ),
        "i0",
    ),
    (
        &[
            Tree::Number(2),
            Tree::Binary(Quotient, &Tree::Size(0), &Tree::Number(2)),
        ],
        Tree::Binary(
            Remainder,
            &Tree::Binary(
                Sum,
                &Tree::Binary(
                    Product,
                    &I,
                    &Tree::Binary(Quotient, &Tree::Size(0), &Tree::Number(2)),
                ),
                &J,
            ),
            &Tree::Binary(Quotient, &Tree::Size(0), &Tree::Number(2)),
        ),
        "i1",
    ),
    (
        &[
            Tree::Binary(Quotient, &Tree::Size(0), &Tree::Number(2)),
            Tree::Size(0),
        ],
        Tree::Binary(
            Quotient,
            &Tree::Binary(
                Sum,
                &Tree::Binary(
                    Product,
                    &I,
                    &Tree::Binary(Quotient, &Tree::Size(0), &Tree::Number(2)),
                ),
                &J,
            ),
            &Tree::Binary(Quotient, &Tree::Size(0), &Tree::Number(2)),
        ),
        "(((i0 * (s0 / 2)) + i1) / (s0 / 2))",
    ),
    (
        &[
            Tree::Number(2),
            Tree::Binary(
                Difference,
                &Tree::Binary(Product, &Tree::Size(0), &Tree::Size(0)),
                &Tree::Size(0),
            ),
        ],
        Tree::Binary(
            Quotient,
            &Tree::Binary(Sum, &Tree::Binary(Product, &I, &Tree::Size(0)), &J),
            &Tree::Size(0),
        ),
        "(((i0 * s0) + i1) / s0)",
    ),
    (
        &[
            Tree::Number(2),
            Tree::Binary(
                Difference,
                &Tree::Binary(Product, &Tree::Size(0), &Tree::Size(0)),
                &Tree::Size(0),
            ),
        ],
        Tree::Binary(
            Remainder,
            &Tree::Binary(
                Sum,
                &Tree::Binary(
                    Product,
                    &I,
                    &Tree::Binary(
                        Difference,
                        &Tree::Binary(Product, &Tree::Size(0), &Tree::Size(0)),
                        &Tree::Size(0),
                    ),
                ),
                &J,
            ),
            &Tree::Binary(
                Difference,
                &Tree::Binary(Product, &Tree::Size(0), &Tree::Size(0)),
                &Tree::Size(0),
            ),
        ),
        "i1",
    ),
];

// What sizes are multiples of, and rows.
const TABLES: [(&[u32], &[(Tree, &str)]); 7] = [
    (&[], &UNITS),
    (&[], &LITERALS),
    (&[], &ZEROS),
    (&[], &CELLS),
    (&[], &PARTS),
    (&[], &WHOLE),
    (&[2, 3], &SIZES),
];

// Whether each row is simplified to its text.
fn are_simplified(
    alloc: Global,
    multiples: &[u32],
    rows: &[(Tree, &str)],
) -> Result<bool, AllocError> {
    for (tree, expected) in rows {
        if simplified_text(alloc, &[], multiples, tree)?.as_str() != *expected {
            return Ok(false);
        }
    }
    Ok(true)
}

#[test]
fn rows_are_simplified(rt: HostRuntime) -> Result<(), Fail> {
    for (multiples, rows) in TABLES {
        assert!(rt; are_simplified(rt.alloc(), multiples, rows)?);
    }
    Ok(())
}

#[test]
fn loops_tell_what_is_below(rt: HostRuntime) -> Result<(), Fail> {
    assert!(rt; are_simplified_in_loops(rt.alloc(), &LOOPS)?);
    Ok(())
}
