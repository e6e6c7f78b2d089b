//! Index expressions as constants, and their texts.

use index_expr::{Index, Operation};
use index_simplify::{Ranges, simplified};
use std::alloc::{AllocError, Global};

/// An index expression as a constant.
#[derive(Clone, Copy)]
pub enum Tree {
    /// A variable and the greatest of its values.
    Variable(u32, u32),
    Number(u32),
    Size(u32),
    Binary(Operation, &'static Tree, &'static Tree),
}

/// The expression in memory.
pub fn index_of(alloc: Global, tree: &Tree) -> Result<Index, AllocError> {
    match tree {
        Tree::Variable(number, greatest) => Ok(Index::Variable {
            number: *number,
            least: 0,
            greatest: *greatest,
        }),
        Tree::Number(n) => Ok(Index::Literal(*n)),
        Tree::Size(number) => Ok(Index::Size(*number)),
        Tree::Binary(operation, a, b) => {
            let a = index_of(alloc, a)?;
            let b = index_of(alloc, b)?;
            Index::binary(alloc, *operation, a, b)
        }
    }
}

fn operation_text(
    alloc: Global,
    operation: Operation,
    a: &str,
    b: &str,
) -> Result<String, AllocError> {
    match operation {
        Operation::Sum => format!(in alloc; "({a} + {b})"),
        Operation::Difference => format!(in alloc; "({a} - {b})"),
        Operation::Product => format!(in alloc; "({a} * {b})"),
        Operation::Quotient => format!(in alloc; "({a} / {b})"),
        Operation::Remainder => format!(in alloc; "({a} % {b})"),
        Operation::Least => format!(in alloc; "min({a}, {b})"),
        Operation::Greatest => format!(in alloc; "max({a}, {b})"),
    }
}

/// The text of an expression.
pub fn text(alloc: Global, index: &Index) -> Result<String, AllocError> {
    match index {
        Index::Variable { number, .. } => format!(in alloc; "i{number}"),
        Index::Literal(n) => format!(in alloc; "{n}"),
        Index::Size(number) => format!(in alloc; "s{number}"),
        Index::Binary(operation, a, b) => {
            let a = text(alloc, a)?;
            operation_text(alloc, *operation, a.as_str(), text(alloc, b)?.as_str())
        }
    }
}

/// The text of what an expression is simplified to, in loops of these lengths, where sizes are
/// multiples of these numbers.
pub fn simplified_text(
    alloc: Global,
    lengths: &[Tree],
    multiples: &[u32],
    tree: &Tree,
) -> Result<String, AllocError> {
    let mut ranges = Ranges {
        lengths: Vec::new(alloc),
        multiples: Vec::from_slice(alloc, multiples)?,
    };
    for length in lengths {
        ranges.lengths.push(index_of(alloc, length)?)?;
    }
    let index = index_of(alloc, tree)?;
    text(alloc, &simplified(alloc, &index, &ranges)?)
}

/// The lengths of the loops around, an expression, and the text of what it is simplified to.
pub type Row = (&'static [Tree], Tree, &'static str);

/// Whether each row is simplified to its text, where sizes are multiples of these numbers.
pub fn are_simplified_in_loops_of(
    alloc: Global,
    multiples: &[u32],
    rows: &[Row],
) -> Result<bool, AllocError> {
    for (lengths, tree, expected) in rows {
        if simplified_text(alloc, lengths, multiples, tree)?.as_str() != *expected {
            return Ok(false);
        }
    }
    Ok(true)
}

/// And where nothing is known of sizes.
pub fn are_simplified_in_loops(alloc: Global, rows: &[Row]) -> Result<bool, AllocError> {
    are_simplified_in_loops_of(alloc, &[], rows)
}
