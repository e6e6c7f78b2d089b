//! What indices and bounds of a kernel become, worked by hand, each beside a neighbour that stays.

use crate::trees::{Tree, index_of};
use index_expr::Operation::{Difference, Greatest, Least, Product, Quotient, Remainder, Sum};
use kernel_tree::tree::{Dimension, Expr, IdForm, Start};
use length_spelling::{Turn, spell_index};
use scalar_ops::op::Op;
use size_arith::{Name, Names};
use std::alloc::{AllocError, Global};
use std::test::Fail;
use tidy_indices::Place;

// The item's id in its group, and its group's, along a row and from row to row.
const OWN: Tree = Tree::Variable(1, 4294967295);

const GROUP: Tree = Tree::Variable(0, 4294967295);

const OWN_ROW: Tree = Tree::Variable(3, 4294967295);

const GROUP_ROW: Tree = Tree::Variable(2, 4294967295);

// The variables of the outermost loop, and of the one in it.
const I: Tree = Tree::Variable(4, 4294967295);

const J: Tree = Tree::Variable(5, 4294967295);

// The bounds of the loops around, an index, and what it becomes.
type Row = (&'static [Tree], Tree, &'static str);

// Where a layout undoes another: the column's loop is no longer than the row.
const CELLS: [Row; 8] = [
    (
        &[Tree::Number(2), Tree::Number(3)],
        Tree::Binary(
            Quotient,
            &Tree::Binary(Sum, &Tree::Binary(Product, &I, &Tree::Number(3)), &J),
            &Tree::Number(3),
        ),
        "i0",
    ),
    (
        &[Tree::Number(2), Tree::Number(4)],
        Tree::Binary(
            Quotient,
            &Tree::Binary(Sum, &Tree::Binary(Product, &I, &Tree::Number(3)), &J),
            &Tree::Number(3),
        ),
        "(((i0 * 3) + i1) / 3)",
    ),
    (
        &[Tree::Number(2), Tree::Number(3)],
        Tree::Binary(
            Remainder,
            &Tree::Binary(Sum, &Tree::Binary(Product, &I, &Tree::Number(3)), &J),
            &Tree::Number(3),
        ),
        "i1",
    ),
    (
        &[Tree::Number(2), Tree::Number(4)],
        Tree::Binary(
            Remainder,
            &Tree::Binary(Sum, &Tree::Binary(Product, &I, &Tree::Number(3)), &J),
            &Tree::Number(3),
        ),
        "(((i0 * 3) + i1) % 3)",
    ),
    (
        &[Tree::Number(2), Tree::Size(0)],
        Tree::Binary(
            Quotient,
            &Tree::Binary(Sum, &Tree::Binary(Product, &I, &Tree::Size(0)), &J),
            &Tree::Size(0),
        ),
        "i0",
    ),
    (
        &[Tree::Number(2), Tree::Size(1)],
        Tree::Binary(
            Quotient,
            &Tree::Binary(Sum, &Tree::Binary(Product, &I, &Tree::Size(0)), &J),
            &Tree::Size(0),
        ),
        "(((i0 * s0) + i1) / s0)",
    ),
    (
        &[
            Tree::Number(2),
            Tree::Binary(
                Product,
                &Tree::Number(2),
                &Tree::Binary(Quotient, &Tree::Size(1), &Tree::Number(2)),
            ),
        ],
        Tree::Binary(
            Quotient,
            &Tree::Binary(Sum, &Tree::Binary(Product, &I, &Tree::Size(1)), &J),
            &Tree::Size(1),
        ),
        "i0",
    ),
    (
        &[
            Tree::Number(2),
            Tree::Binary(
                Product,
                &Tree::Number(2),
                &Tree::Binary(Quotient, &Tree::Size(0), &Tree::Number(2)),
            ),
        ],
        Tree::Binary(
            Quotient,
            &Tree::Binary(Sum, &Tree::Binary(Product, &I, &Tree::Size(0)), &J),
            &Tree::Size(0),
        ),
        "(((i0 * s0) + i1) / s0)",
    ),
];

// The last cell of 2^16 rows of 2^16 is 2^32 - 1. With one row more cells wrap, and so does 2^32.
const ENDS: [Row; 8] = [
    (
        &[Tree::Number(65536), Tree::Number(65536)],
        Tree::Binary(
            Quotient,
            &Tree::Binary(Sum, &Tree::Binary(Product, &I, &Tree::Number(65536)), &J),
            &Tree::Number(65536),
        ),
        "i0",
    ),
    (
        &[Tree::Number(65537), Tree::Number(65536)],
        Tree::Binary(
            Quotient,
            &Tree::Binary(Sum, &Tree::Binary(Product, &I, &Tree::Number(65536)), &J),
            &Tree::Number(65536),
        ),
        "(((i0 * 65536) + i1) / 65536)",
    ),
    (
        &[Tree::Number(2), Tree::Number(3)],
        Tree::Binary(
            Least,
            &Tree::Binary(
                Quotient,
                &Tree::Binary(Sum, &Tree::Binary(Product, &I, &Tree::Number(3)), &J),
                &Tree::Number(3),
            ),
            &Tree::Binary(Sum, &Tree::Number(4294967294), &I),
        ),
        "min(i0, (4294967294 + i0))",
    ),
    (
        &[Tree::Number(2), Tree::Number(3)],
        Tree::Binary(
            Least,
            &Tree::Binary(
                Quotient,
                &Tree::Binary(Sum, &Tree::Binary(Product, &I, &Tree::Number(3)), &J),
                &Tree::Number(3),
            ),
            &Tree::Binary(Sum, &Tree::Number(4294967295), &I),
        ),
        "min((((i0 * 3) + i1) / 3), (4294967295 + i0))",
    ),
    (
        &[Tree::Number(2), Tree::Number(3)],
        Tree::Binary(
            Least,
            &Tree::Binary(
                Quotient,
                &Tree::Binary(Sum, &Tree::Binary(Product, &I, &Tree::Number(3)), &J),
                &Tree::Number(3),
            ),
            &Tree::Binary(
                Sum,
                &Tree::Number(4294967292),
                &Tree::Binary(Remainder, &Tree::Size(0), &Tree::Number(4)),
            ),
        ),
        "min(i0, (4294967292 + (s0 % 4)))",
    ),
    (
        &[Tree::Number(2), Tree::Number(3)],
        Tree::Binary(
            Least,
            &Tree::Binary(
                Quotient,
                &Tree::Binary(Sum, &Tree::Binary(Product, &I, &Tree::Number(3)), &J),
                &Tree::Number(3),
            ),
            &Tree::Binary(
                Sum,
                &Tree::Number(4294967293),
                &Tree::Binary(Remainder, &Tree::Size(0), &Tree::Number(4)),
            ),
        ),
        "min((((i0 * 3) + i1) / 3), (4294967293 + (s0 % 4)))",
    ),
    (
        &[Tree::Number(2), Tree::Number(3)],
        Tree::Binary(
            Least,
            &Tree::Binary(
                Quotient,
                &Tree::Binary(Sum, &Tree::Binary(Product, &I, &Tree::Number(3)), &J),
                &Tree::Number(3),
            ),
            &Tree::Binary(
                Sum,
                &Tree::Number(4294967291),
                &Tree::Binary(Quotient, &Tree::Size(0), &Tree::Number(2)),
            ),
        ),
        "min(i0, (4294967291 + (s0 / 2)))",
    ),
    (
        &[Tree::Number(2), Tree::Number(3)],
        Tree::Binary(
            Least,
            &Tree::Binary(
                Quotient,
                &Tree::Binary(Sum, &Tree::Binary(Product, &I, &Tree::Number(3)), &J),
                &Tree::Number(3),
            ),
            &Tree::Binary(
                Sum,
                &Tree::Number(4294967292),
                &Tree::Binary(Quotient, &Tree::Size(0), &Tree::Number(2)),
            ),
        ),
        "min((((i0 * 3) + i1) / 3), (4294967292 + (s0 / 2)))",
    ),
];

// A pad in front: what is read isn't past the last where the loop is no longer than the array and
// what stands in front of it. Beside a part that may fall below 0 it stays.
const PADDED: Tree = Tree::Binary(
    Least,
    &Tree::Binary(
        Difference,
        &Tree::Binary(Greatest, &I, &Tree::Number(1)),
        &Tree::Number(1),
    ),
    &Tree::Binary(Difference, &Tree::Size(0), &Tree::Number(1)),
);

const PADS: [Row; 3] = [
    (
        &[Tree::Binary(Sum, &Tree::Number(1), &Tree::Size(0))],
        PADDED,
        "(max(i0, 1) - 1)",
    ),
    (
        &[Tree::Binary(Sum, &Tree::Number(2), &Tree::Size(0))],
        PADDED,
        "min((max(i0, 1) - 1), (s0 - 1))",
    ),
    (
        &[Tree::Binary(Sum, &Tree::Number(1), &Tree::Size(0))],
        Tree::Binary(
            Sum,
            &PADDED,
            &Tree::Binary(Difference, &Tree::Size(0), &Tree::Number(2)),
        ),
        "(min((max(i0, 1) - 1), (s0 - 1)) + (s0 - 2))",
    ),
];

// A part elsewhere that may fall below 0, or divide by 0.
const PARTS: [Row; 8] = [
    (
        &[Tree::Number(2), Tree::Number(3)],
        Tree::Binary(
            Sum,
            &Tree::Binary(
                Quotient,
                &Tree::Binary(Sum, &Tree::Binary(Product, &I, &Tree::Number(3)), &J),
                &Tree::Number(3),
            ),
            &Tree::Binary(Difference, &Tree::Size(1), &Tree::Number(2)),
        ),
        "(i0 + (s1 - 2))",
    ),
    (
        &[Tree::Number(2), Tree::Number(3)],
        Tree::Binary(
            Sum,
            &Tree::Binary(
                Quotient,
                &Tree::Binary(Sum, &Tree::Binary(Product, &I, &Tree::Number(3)), &J),
                &Tree::Number(3),
            ),
            &Tree::Binary(Difference, &Tree::Size(1), &Tree::Number(3)),
        ),
        "((((i0 * 3) + i1) / 3) + (s1 - 3))",
    ),
    (
        &[Tree::Number(2), Tree::Number(3)],
        Tree::Binary(
            Sum,
            &Tree::Binary(
                Quotient,
                &Tree::Binary(Sum, &Tree::Binary(Product, &I, &Tree::Number(3)), &J),
                &Tree::Number(3),
            ),
            &Tree::Binary(Difference, &Tree::Size(1), &Tree::Size(0)),
        ),
        "((((i0 * 3) + i1) / 3) + (s1 - s0))",
    ),
    (
        &[Tree::Number(2), Tree::Number(3)],
        Tree::Binary(
            Sum,
            &Tree::Binary(
                Quotient,
                &Tree::Binary(Sum, &Tree::Binary(Product, &I, &Tree::Number(3)), &J),
                &Tree::Number(3),
            ),
            &Tree::Binary(
                Difference,
                &Tree::Binary(Greatest, &Tree::Size(0), &Tree::Number(9)),
                &Tree::Size(0),
            ),
        ),
        "(i0 + (max(s0, 9) - s0))",
    ),
    (
        &[Tree::Number(2), Tree::Number(3)],
        Tree::Binary(
            Sum,
            &Tree::Binary(
                Quotient,
                &Tree::Binary(Sum, &Tree::Binary(Product, &I, &Tree::Number(3)), &J),
                &Tree::Number(3),
            ),
            &Tree::Binary(Quotient, &Tree::Number(7), &Tree::Size(0)),
        ),
        "(i0 + (7 / s0))",
    ),
    (
        &[Tree::Number(2), Tree::Number(3)],
        Tree::Binary(
            Sum,
            &Tree::Binary(
                Quotient,
                &Tree::Binary(Sum, &Tree::Binary(Product, &I, &Tree::Number(3)), &J),
                &Tree::Number(3),
            ),
            &Tree::Binary(Quotient, &Tree::Number(7), &I),
        ),
        "((((i0 * 3) + i1) / 3) + (7 / i0))",
    ),
    (
        &[Tree::Number(2), Tree::Number(3)],
        Tree::Binary(
            Sum,
            &Tree::Binary(
                Quotient,
                &Tree::Binary(Sum, &Tree::Binary(Product, &I, &Tree::Number(3)), &J),
                &Tree::Number(3),
            ),
            &Tree::Binary(Remainder, &Tree::Number(7), &Tree::Size(0)),
        ),
        "(i0 + (7 % s0))",
    ),
    (
        &[Tree::Number(2), Tree::Number(3)],
        Tree::Binary(
            Sum,
            &Tree::Binary(
                Quotient,
                &Tree::Binary(Sum, &Tree::Binary(Product, &I, &Tree::Number(3)), &J),
                &Tree::Number(3),
            ),
            &Tree::Binary(Remainder, &Tree::Number(7), &I),
        ),
        "((((i0 * 3) + i1) / 3) + (7 % i0))",
    ),
];

// A bound that may wrap tells nothing of its turns, and neither does one that is lacking.
const BOUNDS: [Row; 5] = [
    (
        &[Tree::Number(2), Tree::Number(3)],
        Tree::Binary(
            Quotient,
            &Tree::Binary(Sum, &Tree::Binary(Product, &I, &Tree::Number(3)), &J),
            &Tree::Number(3),
        ),
        "i0",
    ),
    (
        &[
            Tree::Number(2),
            Tree::Binary(Product, &Tree::Size(2), &Tree::Size(2)),
        ],
        Tree::Binary(
            Quotient,
            &Tree::Binary(Sum, &Tree::Binary(Product, &I, &Tree::Number(3)), &J),
            &Tree::Number(3),
        ),
        "(((i0 * 3) + i1) / 3)",
    ),
    (
        &[
            Tree::Number(2),
            Tree::Binary(Product, &Tree::Size(0), &Tree::Size(0)),
        ],
        Tree::Binary(
            Quotient,
            &Tree::Binary(
                Sum,
                &Tree::Binary(
                    Product,
                    &I,
                    &Tree::Binary(Product, &Tree::Size(0), &Tree::Size(0)),
                ),
                &J,
            ),
            &Tree::Binary(Product, &Tree::Size(0), &Tree::Size(0)),
        ),
        "i0",
    ),
    (
        &[
            Tree::Number(2),
            Tree::Binary(Product, &Tree::Size(2), &Tree::Size(2)),
        ],
        Tree::Binary(
            Quotient,
            &Tree::Binary(
                Sum,
                &Tree::Binary(
                    Product,
                    &I,
                    &Tree::Binary(Product, &Tree::Size(2), &Tree::Size(2)),
                ),
                &J,
            ),
            &Tree::Binary(Product, &Tree::Size(2), &Tree::Size(2)),
        ),
        "(((i0 * (s2 * s2)) + i1) / (s2 * s2))",
    ),
    (
        &[Tree::Number(2)],
        Tree::Binary(
            Quotient,
            &Tree::Binary(Sum, &Tree::Binary(Product, &I, &Tree::Number(3)), &J),
            &Tree::Number(3),
        ),
        "(((i0 * 3) + i1) / 3)",
    ),
];

// Of a loop's turn its length alone is used, not that s0 is at most 8.
const GREATEST: [Row; 1] = [(
    &[Tree::Number(2), Tree::Size(0)],
    Tree::Binary(
        Quotient,
        &Tree::Binary(Sum, &Tree::Binary(Product, &I, &Tree::Number(8)), &J),
        &Tree::Number(8),
    ),
    "(((i0 * 8) + i1) / 8)",
)];

// What holds of words that wrap.
const WRAPPING: [Row; 12] = [
    (
        &[],
        Tree::Binary(
            Sum,
            &Tree::Binary(
                Product,
                &Tree::Binary(Product, &Tree::Size(2), &Tree::Size(2)),
                &Tree::Size(2),
            ),
            &Tree::Number(0),
        ),
        "((s2 * s2) * s2)",
    ),
    (
        &[],
        Tree::Binary(
            Sum,
            &Tree::Binary(
                Product,
                &Tree::Binary(Product, &Tree::Size(2), &Tree::Size(2)),
                &Tree::Size(2),
            ),
            &Tree::Number(1),
        ),
        "(((s2 * s2) * s2) + 1)",
    ),
    (
        &[],
        Tree::Binary(
            Difference,
            &Tree::Binary(Product, &Tree::Size(2), &Tree::Size(2)),
            &Tree::Binary(Product, &Tree::Size(2), &Tree::Size(2)),
        ),
        "0",
    ),
    (
        &[],
        Tree::Binary(
            Difference,
            &Tree::Binary(Product, &Tree::Size(2), &Tree::Size(2)),
            &Tree::Binary(Product, &Tree::Size(2), &Tree::Size(1)),
        ),
        "((s2 * s2) - (s2 * s1))",
    ),
    (
        &[],
        Tree::Binary(
            Product,
            &Tree::Number(2),
            &Tree::Binary(Quotient, &Tree::Size(1), &Tree::Number(2)),
        ),
        "s1",
    ),
    (
        &[],
        Tree::Binary(
            Product,
            &Tree::Number(2),
            &Tree::Binary(Quotient, &Tree::Size(0), &Tree::Number(2)),
        ),
        "(2 * (s0 / 2))",
    ),
    (
        &[],
        Tree::Binary(
            Product,
            &Tree::Number(4),
            &Tree::Binary(Quotient, &Tree::Size(1), &Tree::Number(2)),
        ),
        "(2 * s1)",
    ),
    (
        &[],
        Tree::Binary(
            Product,
            &Tree::Number(3),
            &Tree::Binary(Quotient, &Tree::Size(1), &Tree::Number(2)),
        ),
        "(3 * (s1 / 2))",
    ),
    (
        &[Tree::Binary(Product, &Tree::Size(2), &Tree::Size(2))],
        Tree::Binary(
            Sum,
            &Tree::Binary(
                Product,
                &Tree::Binary(Quotient, &I, &Tree::Number(3)),
                &Tree::Number(3),
            ),
            &Tree::Binary(Remainder, &I, &Tree::Number(3)),
        ),
        "i0",
    ),
    (
        &[Tree::Binary(Product, &Tree::Size(2), &Tree::Size(2))],
        Tree::Binary(
            Sum,
            &Tree::Binary(
                Product,
                &Tree::Binary(Quotient, &I, &Tree::Number(3)),
                &Tree::Number(3),
            ),
            &Tree::Binary(Remainder, &I, &Tree::Number(4)),
        ),
        "(((i0 / 3) * 3) + (i0 % 4))",
    ),
    (
        &[],
        Tree::Binary(Sum, &Tree::Number(4294967294), &Tree::Number(1)),
        "4294967295",
    ),
    (
        &[],
        Tree::Binary(Sum, &Tree::Number(4294967295), &Tree::Number(1)),
        "(4294967295 + 1)",
    ),
];

// Among groups of a size, or of any: the bounds of the loops around, an index, and what it becomes.
struct InGroups {
    size: Option<(u32, u32)>,
    bounds: &'static [Tree],
    index: Tree,
    tidied: &'static str,
}

// The number of the item's cell in rows of four, of which its group has one.
const CELL: Tree = Tree::Binary(Sum, &Tree::Binary(Product, &GROUP, &Tree::Number(4)), &OWN);

// The same from row to row.
const CELL_DOWN: Tree = Tree::Binary(
    Sum,
    &Tree::Binary(Product, &GROUP_ROW, &Tree::Number(4)),
    &OWN_ROW,
);

// An item's id in its group is below the group's size, where the kernel asks for one, and a group's
// id is below 65,536.
const IDS: [InGroups; 17] = [
    InGroups {
        size: Some((5, 3)),
        bounds: &[Tree::Size(2)],
        index: Tree::Binary(
            Quotient,
            &Tree::Binary(Sum, &Tree::Binary(Product, &I, &Tree::Number(3)), &OWN_ROW),
            &Tree::Number(3),
        ),
        tidied: "i0",
    },
    InGroups {
        size: Some((3, 4)),
        bounds: &[Tree::Size(2)],
        index: Tree::Binary(
            Quotient,
            &Tree::Binary(Sum, &Tree::Binary(Product, &I, &Tree::Number(3)), &OWN_ROW),
            &Tree::Number(3),
        ),
        tidied: "(((i0 * 3) + down) / 3)",
    },
    InGroups {
        size: Some((4, 1)),
        bounds: &[Tree::Number(6)],
        index: Tree::Binary(Sum, &I, &OWN_ROW),
        tidied: "i0",
    },
    InGroups {
        size: Some((2, 4)),
        bounds: &[],
        index: Tree::Binary(Quotient, &CELL_DOWN, &Tree::Number(4)),
        tidied: "group_down",
    },
    InGroups {
        size: None,
        bounds: &[],
        index: Tree::Binary(
            Sum,
            &Tree::Binary(
                Product,
                &Tree::Binary(Quotient, &OWN_ROW, &Tree::Number(3)),
                &Tree::Number(3),
            ),
            &Tree::Binary(Remainder, &OWN_ROW, &Tree::Number(3)),
        ),
        tidied: "down",
    },
    InGroups {
        size: Some((3, 1)),
        bounds: &[Tree::Size(2)],
        index: Tree::Binary(
            Quotient,
            &Tree::Binary(Sum, &Tree::Binary(Product, &I, &Tree::Number(3)), &OWN),
            &Tree::Number(3),
        ),
        tidied: "i0",
    },
    InGroups {
        size: Some((4, 1)),
        bounds: &[Tree::Size(2)],
        index: Tree::Binary(
            Quotient,
            &Tree::Binary(Sum, &Tree::Binary(Product, &I, &Tree::Number(3)), &OWN),
            &Tree::Number(3),
        ),
        tidied: "(((i0 * 3) + own) / 3)",
    },
    InGroups {
        size: None,
        bounds: &[Tree::Size(2)],
        index: Tree::Binary(
            Quotient,
            &Tree::Binary(Sum, &Tree::Binary(Product, &I, &Tree::Number(3)), &OWN),
            &Tree::Number(3),
        ),
        tidied: "(((i0 * 3) + own) / 3)",
    },
    InGroups {
        size: Some((3, 1)),
        bounds: &[Tree::Size(2)],
        index: Tree::Binary(
            Remainder,
            &Tree::Binary(Sum, &Tree::Binary(Product, &I, &Tree::Number(3)), &OWN),
            &Tree::Number(3),
        ),
        tidied: "own",
    },
    InGroups {
        size: Some((4, 1)),
        bounds: &[],
        index: Tree::Binary(Quotient, &CELL, &Tree::Number(4)),
        tidied: "group",
    },
    InGroups {
        size: Some((4, 1)),
        bounds: &[],
        index: Tree::Binary(Remainder, &CELL, &Tree::Number(4)),
        tidied: "own",
    },
    InGroups {
        size: Some((5, 1)),
        bounds: &[],
        index: Tree::Binary(Remainder, &CELL, &Tree::Number(4)),
        tidied: "(((group * 4) + own) % 4)",
    },
    InGroups {
        size: Some((1, 1)),
        bounds: &[Tree::Number(6)],
        index: Tree::Binary(Sum, &I, &OWN),
        tidied: "i0",
    },
    InGroups {
        size: Some((2, 1)),
        bounds: &[Tree::Number(6)],
        index: Tree::Binary(Sum, &I, &OWN),
        tidied: "(i0 + own)",
    },
    InGroups {
        size: None,
        bounds: &[],
        index: Tree::Binary(
            Sum,
            &Tree::Binary(
                Product,
                &Tree::Binary(Quotient, &OWN, &Tree::Number(3)),
                &Tree::Number(3),
            ),
            &Tree::Binary(Remainder, &OWN, &Tree::Number(3)),
        ),
        tidied: "own",
    },
    InGroups {
        size: None,
        bounds: &[],
        index: Tree::Binary(
            Sum,
            &Tree::Binary(
                Product,
                &Tree::Binary(Quotient, &GROUP, &Tree::Number(3)),
                &Tree::Number(3),
            ),
            &Tree::Binary(Remainder, &GROUP, &Tree::Number(3)),
        ),
        tidied: "group",
    },
    InGroups {
        size: None,
        bounds: &[],
        index: Tree::Binary(
            Sum,
            &Tree::Binary(
                Product,
                &Tree::Binary(Quotient, &OWN, &Tree::Number(3)),
                &Tree::Number(3),
            ),
            &Tree::Binary(Remainder, &GROUP, &Tree::Number(3)),
        ),
        tidied: "(((own / 3) * 3) + (group % 3))",
    },
];

// Within the loops of a row, an `if` that asks whether this start is below this bound.
struct InIf {
    start: Start,
    bound: Tree,
    row: InGroups,
}

// The row of the item's cell in rows of two, of which each turn of the loop has one.
const ROW_OF_TWO: Tree = Tree::Binary(
    Quotient,
    &Tree::Binary(Sum, &Tree::Binary(Product, &I, &Tree::Number(2)), &OWN),
    &Tree::Number(2),
);

// At s2 = 2^20 its value is 2^40.
const WRAPPING_BOUND: Tree = Tree::Binary(Product, &Tree::Size(2), &Tree::Size(2));

// An id is below the bound of the `if` that asks of it, besides what is known of it in the kernel.
const IFS: [InIf; 12] = [
    InIf {
        start: Start::LocalId(Dimension::Y),
        bound: Tree::Number(2),
        row: InGroups {
            size: Some((4, 4)),
            bounds: &[Tree::Size(2)],
            index: Tree::Binary(
                Quotient,
                &Tree::Binary(Sum, &Tree::Binary(Product, &I, &Tree::Number(2)), &OWN_ROW),
                &Tree::Number(2),
            ),
            tidied: "i0",
        },
    },
    InIf {
        start: Start::LocalId(Dimension::X),
        bound: Tree::Number(2),
        row: InGroups {
            size: Some((4, 1)),
            bounds: &[Tree::Size(2)],
            index: ROW_OF_TWO,
            tidied: "i0",
        },
    },
    InIf {
        start: Start::LocalId(Dimension::X),
        bound: Tree::Number(3),
        row: InGroups {
            size: Some((4, 1)),
            bounds: &[Tree::Size(2)],
            index: ROW_OF_TWO,
            tidied: "(((i0 * 2) + own) / 2)",
        },
    },
    InIf {
        start: Start::LocalId(Dimension::X),
        bound: Tree::Number(2),
        row: InGroups {
            size: None,
            bounds: &[Tree::Size(2)],
            index: ROW_OF_TWO,
            tidied: "i0",
        },
    },
    InIf {
        start: Start::LocalId(Dimension::X),
        bound: Tree::Number(3),
        row: InGroups {
            size: Some((2, 1)),
            bounds: &[Tree::Size(2)],
            index: ROW_OF_TWO,
            tidied: "i0",
        },
    },
    InIf {
        start: Start::LocalId(Dimension::X),
        bound: WRAPPING_BOUND,
        row: InGroups {
            size: Some((2, 1)),
            bounds: &[Tree::Size(2)],
            index: ROW_OF_TWO,
            tidied: "i0",
        },
    },
    InIf {
        start: Start::GlobalId(Dimension::X),
        bound: Tree::Number(2),
        row: InGroups {
            size: Some((4, 1)),
            bounds: &[Tree::Size(2)],
            index: ROW_OF_TWO,
            tidied: "(((i0 * 2) + own) / 2)",
        },
    },
    InIf {
        start: Start::LocalId(Dimension::Y),
        bound: Tree::Number(2),
        row: InGroups {
            size: Some((4, 1)),
            bounds: &[Tree::Size(2)],
            index: ROW_OF_TWO,
            tidied: "(((i0 * 2) + own) / 2)",
        },
    },
    InIf {
        start: Start::LocalId(Dimension::X),
        bound: Tree::Size(0),
        row: InGroups {
            size: Some((8, 1)),
            bounds: &[Tree::Size(2)],
            index: Tree::Binary(
                Remainder,
                &Tree::Binary(Sum, &Tree::Binary(Product, &I, &Tree::Size(0)), &OWN),
                &Tree::Size(0),
            ),
            tidied: "own",
        },
    },
    InIf {
        start: Start::LocalId(Dimension::X),
        bound: Tree::Size(1),
        row: InGroups {
            size: Some((8, 1)),
            bounds: &[Tree::Size(2)],
            index: Tree::Binary(
                Remainder,
                &Tree::Binary(Sum, &Tree::Binary(Product, &I, &Tree::Size(0)), &OWN),
                &Tree::Size(0),
            ),
            tidied: "(((i0 * s0) + own) % s0)",
        },
    },
    InIf {
        start: Start::GroupId(Dimension::X),
        bound: Tree::Number(1),
        row: InGroups {
            size: Some((4, 1)),
            bounds: &[Tree::Number(6)],
            index: Tree::Binary(Sum, &I, &GROUP),
            tidied: "i0",
        },
    },
    InIf {
        start: Start::GroupId(Dimension::X),
        bound: Tree::Number(2),
        row: InGroups {
            size: Some((4, 1)),
            bounds: &[Tree::Number(6)],
            index: Tree::Binary(Sum, &I, &GROUP),
            tidied: "(i0 + group)",
        },
    },
];

// The row of the item's cell in rows of four, of which each turn of the loop has one.
const ROW_OF_FOUR: Tree = Tree::Binary(
    Quotient,
    &Tree::Binary(Sum, &Tree::Binary(Product, &I, &Tree::Number(4)), &OWN),
    &Tree::Number(4),
);

// And in rows of s0.
const ROW_OF_S0: Tree = Tree::Binary(
    Quotient,
    &Tree::Binary(Sum, &Tree::Binary(Product, &I, &Tree::Size(0)), &OWN),
    &Tree::Size(0),
);

// The first of these, and the item's column in a row of s0: the one by a number, the other by s0.
const BOTH: Tree = Tree::Binary(
    Sum,
    &ROW_OF_FOUR,
    &Tree::Binary(
        Remainder,
        &Tree::Binary(Sum, &Tree::Binary(Product, &I, &Tree::Size(0)), &OWN),
        &Tree::Size(0),
    ),
);

// In groups of a size, within a loop over s2, an `if` that asks whether an item's id is below this.
struct OwnBelow {
    bound: Tree,
    size: u32,
    index: Tree,
    tidied: &'static str,
}

// An item's id is below the size of groups, below the length over sizes that an `if` asks of, and
// at most what that length is at most, less 1: s0 is at most 8, and s3 is 4.
const LENGTHS: [OwnBelow; 10] = [
    OwnBelow {
        bound: Tree::Size(3),
        size: 4,
        index: ROW_OF_FOUR,
        tidied: "i0",
    },
    OwnBelow {
        bound: Tree::Size(0),
        size: 4,
        index: ROW_OF_FOUR,
        tidied: "i0",
    },
    OwnBelow {
        bound: Tree::Size(0),
        size: 5,
        index: ROW_OF_FOUR,
        tidied: "(((i0 * 4) + own) / 4)",
    },
    OwnBelow {
        bound: Tree::Size(3),
        size: 16,
        index: ROW_OF_FOUR,
        tidied: "i0",
    },
    OwnBelow {
        bound: Tree::Size(0),
        size: 16,
        index: ROW_OF_FOUR,
        tidied: "(((i0 * 4) + own) / 4)",
    },
    OwnBelow {
        bound: Tree::Size(0),
        size: 4,
        index: ROW_OF_S0,
        tidied: "i0",
    },
    OwnBelow {
        bound: Tree::Size(3),
        size: 4,
        index: ROW_OF_S0,
        tidied: "(((i0 * s0) + own) / s0)",
    },
    OwnBelow {
        bound: Tree::Size(0),
        size: 4,
        index: BOTH,
        tidied: "(i0 + own)",
    },
    OwnBelow {
        bound: Tree::Size(0),
        size: 5,
        index: BOTH,
        tidied: "((((i0 * 4) + own) / 4) + own)",
    },
    OwnBelow {
        bound: Tree::Size(1),
        size: 4,
        index: BOTH,
        tidied: "(i0 + (((i0 * s0) + own) % s0))",
    },
];

// s0 is from 1 to 8, s1 an even number from 2 to 8, s2 from 1 to 2^20, and s3 is 4.
fn names(alloc: Global) -> Result<Names, AllocError> {
    let mut names = Names::new(alloc);
    names.push(Name {
        multiple: 1,
        from: 1,
        to: 8,
    })?;
    names.push(Name {
        multiple: 2,
        from: 2,
        to: 8,
    })?;
    names.push(Name {
        multiple: 1,
        from: 1,
        to: 1048576,
    })?;
    names.push(Name {
        multiple: 4,
        from: 4,
        to: 4,
    })?;
    Ok(names)
}

fn place(alloc: Global, size: Option<(u32, u32)>, bounds: &[Tree]) -> Result<Place, AllocError> {
    let mut place = Place::outside(alloc, &names(alloc)?, size)?;
    for bound in bounds {
        let bound = spell_index(alloc, &index_of(alloc, bound)?)?;
        place = place.inside(alloc, &bound)?;
    }
    Ok(place)
}

fn operation_text(alloc: Global, op: Op, a: &str, b: &str) -> Result<String, AllocError> {
    match op {
        Op::Add => format!(in alloc; "({a} + {b})"),
        Op::Sub => format!(in alloc; "({a} - {b})"),
        Op::Mul => format!(in alloc; "({a} * {b})"),
        Op::Div => format!(in alloc; "({a} / {b})"),
        Op::Rem => format!(in alloc; "({a} % {b})"),
        Op::Min => format!(in alloc; "min({a}, {b})"),
        Op::Max => format!(in alloc; "max({a}, {b})"),
        _ => Ok(String::new(alloc)),
    }
}

// The text of an index; nothing where a part is of another form.
fn text(alloc: Global, index: &Expr) -> Result<String, AllocError> {
    match index {
        Expr::Number(n) => format!(in alloc; "{n}"),
        Expr::LoopVariable(depth) => format!(in alloc; "i{depth}"),
        Expr::Size(number) => format!(in alloc; "s{number}"),
        Expr::Id(Dimension::X, IdForm::GroupId) => format!(in alloc; "group"),
        Expr::Id(Dimension::X, IdForm::LocalId) => format!(in alloc; "own"),
        Expr::Id(Dimension::Y, IdForm::GroupId) => format!(in alloc; "group_down"),
        Expr::Id(Dimension::Y, IdForm::LocalId) => format!(in alloc; "down"),
        Expr::Binary(op, a, b) => {
            let a = text(alloc, a)?;
            operation_text(alloc, *op, a.as_str(), text(alloc, b)?.as_str())
        }
        _ => Ok(String::new(alloc)),
    }
}

fn tidied_text(
    alloc: Global,
    size: Option<(u32, u32)>,
    bounds: &[Tree],
    tree: &Tree,
) -> Result<String, AllocError> {
    let index = spell_index(alloc, &index_of(alloc, tree)?)?;
    text(alloc, &place(alloc, size, bounds)?.tidied(alloc, &index)?)
}

// Whether each row becomes its text.
fn are_tidied(alloc: Global, rows: &[Row]) -> Result<bool, AllocError> {
    for (bounds, tree, expected) in rows {
        if tidied_text(alloc, None, bounds, tree)?.as_str() != *expected {
            return Ok(false);
        }
    }
    Ok(true)
}

fn are_tidied_in_groups(alloc: Global, rows: &[InGroups]) -> Result<bool, AllocError> {
    for row in rows {
        if tidied_text(alloc, row.size, row.bounds, &row.index)?.as_str() != row.tidied {
            return Ok(false);
        }
    }
    Ok(true)
}

// Within an `if` at this place that asks whether this start is below this bound.
fn tidied_text_in_if(
    alloc: Global,
    place: &Place,
    start: Start,
    bound: &Tree,
    index: &Tree,
) -> Result<String, AllocError> {
    let bound = spell_index(alloc, &index_of(alloc, bound)?)?;
    let index = spell_index(alloc, &index_of(alloc, index)?)?;
    let place = place.guarded(alloc, start, &bound)?;
    text(alloc, &place.tidied(alloc, &index)?)
}

fn are_tidied_in_ifs(alloc: Global, rows: &[InIf]) -> Result<bool, AllocError> {
    for around in rows {
        let row = &around.row;
        let place = place(alloc, row.size, row.bounds)?;
        let made = tidied_text_in_if(alloc, &place, around.start, &around.bound, &row.index)?;
        if made.as_str() != row.tidied {
            return Ok(false);
        }
    }
    Ok(true)
}

fn are_tidied_below_lengths(alloc: Global, rows: &[OwnBelow]) -> Result<bool, AllocError> {
    let start = Start::LocalId(Dimension::X);
    for row in rows {
        let place = place(alloc, Some((row.size, 1)), &[Tree::Size(2)])?;
        let made = tidied_text_in_if(alloc, &place, start, &row.bound, &row.index)?;
        if made.as_str() != row.tidied {
            return Ok(false);
        }
    }
    Ok(true)
}

#[test]
fn indices_in_ifs_are_tidied(rt: HostRuntime) -> Result<(), Fail> {
    assert!(rt; are_tidied_in_ifs(rt.alloc(), &IFS)?);
    Ok(())
}

#[test]
fn indices_below_lengths_are_tidied(rt: HostRuntime) -> Result<(), Fail> {
    assert!(rt; are_tidied_below_lengths(rt.alloc(), &LENGTHS)?);
    Ok(())
}

#[test]
fn indices_with_ids_are_tidied(rt: HostRuntime) -> Result<(), Fail> {
    assert!(rt; are_tidied_in_groups(rt.alloc(), &IDS)?);
    Ok(())
}

const TABLES: [&[Row]; 7] = [&CELLS, &ENDS, &PADS, &PARTS, &BOUNDS, &GREATEST, &WRAPPING];

#[test]
fn rows_are_tidied(rt: HostRuntime) -> Result<(), Fail> {
    for rows in TABLES {
        assert!(rt; are_tidied(rt.alloc(), rows)?);
    }
    Ok(())
}

// i0 + 0 in a loop of this bound, and whether it becomes i0.
fn is_tidied_in(alloc: Global, bound: &Expr) -> Result<bool, AllocError> {
    let place = place(alloc, None, &[])?.inside(alloc, bound)?;
    let index = Expr::binary(alloc, Op::Add, Expr::LoopVariable(0), Expr::Number(0))?;
    Ok(matches!(place.tidied(alloc, &index)?, Expr::LoopVariable(0)))
}

// Whether this operation on an expression and a number is of use as the bound of a loop.
fn is_read(alloc: Global, op: Op, of: Expr, number: u32) -> Result<bool, AllocError> {
    is_tidied_in(alloc, &Expr::binary(alloc, op, of, Expr::Number(number))?)
}

// Whether this and 0 stay a sum outside of all loops.
fn stays_sum(alloc: Global, of: Expr) -> Result<bool, AllocError> {
    let sum = Expr::binary(alloc, Op::Add, of, Expr::Number(0))?;
    let tidied = place(alloc, None, &[])?.tidied(alloc, &sum)?;
    Ok(matches!(tidied, Expr::Binary(Op::Add, _, _)))
}

// Whether the variable of a loop and 0 become that variable there.
fn becomes_plain(alloc: Global, depth: u32) -> Result<bool, AllocError> {
    let sum = Expr::binary(alloc, Op::Add, Expr::LoopVariable(depth), Expr::Number(0))?;
    let tidied = place(alloc, None, &[])?.tidied(alloc, &sum)?;
    Ok(matches!(tidied, Expr::LoopVariable(_)))
}

#[test]
fn what_is_not_read_stays(rt: HostRuntime) -> Result<(), Fail> {
    let alloc = rt.alloc();
    assert!(rt; is_read(alloc, Op::Rem, Expr::Size(0), 4)?);
    assert!(rt; !is_read(alloc, Op::And, Expr::Size(0), 4)?);
    assert!(rt; stays_sum(alloc, Expr::Variable(0))?);
    assert!(rt; stays_sum(alloc, Expr::Id(Dimension::Y, IdForm::GlobalId))?);
    Ok(())
}

// The last loop whose turn has a number, and the next.
#[test]
fn turns_have_numbers(rt: HostRuntime) -> Result<(), Fail> {
    assert!(rt; Turn::Loop(4294967291).number() == Some(4294967295));
    assert!(rt; Turn::Loop(4294967292).number().is_none());
    assert!(rt; becomes_plain(rt.alloc(), 4294967291)?);
    assert!(rt; !becomes_plain(rt.alloc(), 4294967292)?);
    Ok(())
}
