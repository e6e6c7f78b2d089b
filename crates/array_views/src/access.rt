//! What stands for a scalar.

ghost use Rattle.std.specs.Prelude.{◌≡◌, IfOk, option_map};
ghost use Rattle.array_views.specs.Layouts.{row_in};
ghost use Rattle.array_views.specs.Accesses.{access_of, cell_alone, in_rows, target_of};

use crate::array::ArrayKind;
use crate::layout::Row;
use index_expr::Index;
use std::alloc::{AllocError, Global};

/// A cell of the array of this kind and number.
#[derive(Drop)]
pub struct Cell {
    pub kind: ArrayKind,
    pub array: u32,
    pub index: Index,
}

/// What stands for a scalar.
#[derive(Drop)]
pub enum Access {
    /// There is no such scalar.
    Nothing,
    /// A private variable, by its number.
    Variable(u32),
    /// A private variable of four words, which holds the vector that is asked for.
    Vector(u32),
    InCell(Cell),
}

impl Access {
    /// The cell, if it is one.
    pub fn into_cell(self) -> Option<Cell>
        ensures { target_of result ≡ cell_alone (access_of self) }
    {
        match self {
            Access::Nothing | Access::Variable(_) | Access::Vector(_) => None,
            Access::InCell(cell) => Some(cell),
        }
    }

    /// The same, where this is the first cell of a row, if there is one: the row by its number.
    pub fn in_rows(self, alloc: Global, row: Option<Row>) -> Result<Self, AllocError>
        ensures { IfOk result
            (λ a. access_of a ≡ in_rows (option_map row_in row) (access_of self)) }
    {
        match row {
            None => Ok(self),
            Some(row) => match self {
                Access::Nothing => Ok(Access::Nothing),
                Access::Variable(number) => Ok(Access::Variable(number)),
                Access::Vector(number) => Ok(Access::Vector(number)),
                Access::InCell(cell) => {
                    let number = row.number(alloc, cell.index)?;
                    Ok(Access::InCell(Cell {
                        kind: cell.kind,
                        array: cell.array,
                        index: number,
                    }))
                }
            },
        }
    }
}
