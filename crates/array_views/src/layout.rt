//! Layouts, as functions on stacks of indices.

ghost use Rattle.std.specs.Prelude.{◌≡◌, IfOk, OnOk, option_map};
ghost use Rattle.lift_tree.specs.Types.{ty_of};
ghost use Rattle.lift_ir.specs.AtLaunch.{inner_of, layout_of, outer_of};
ghost use Rattle.index_expr.specs.Expression.{Literal, expression_of};
ghost use Rattle.length_spelling.specs.Formulas.{spelled_length};
ghost use Rattle.array_views.specs.Stacks.{indices_in};
ghost use Rattle.index_simplify.specs.Laws.{first_part};
ghost use Rattle.array_views.specs.Layouts as spec;
ghost use Rattle.array_views.specs.Layouts.{layout_in, spelled_layout, expressions, flattened, gathered, parted, swapped, turned, clamped, row_in, asked_row, operand_row, operand_asked, result_row, result_asked};

use crate::extent::flat_index;
use crate::stack::IndexStack;
use index_expr::{Index, Operation};
use index_simplify::same::same;
use length_spelling::spelled_length;
use lift_tree::layout as forms;
use lift_tree::term::UnaryForm;
use lift_tree::ty::Ty;
use size_arith::Names;
use std::alloc::{AllocError, Global};

/// A row by its index, of rows of this length.
#[derive(Drop)]
pub struct Row {
    pub index: Index,
    pub length: Index,
}

impl Row {
    /// The number of the row, where its first cell has this number. Where that is the cell's at the
    /// row's index times the length it is the index, which no law of expressions tells later: that
    /// product may wrap as a word.
    pub fn number(self, alloc: Global, first: Index) -> Result<Index, AllocError>
        ensures { IfOk result (λ i. expression_of i
            ≡ spec.row_number (row_in self) (expression_of first)) }
    {
        let index = self.index.copy(alloc)?;
        let begin = flat_index(alloc, index, &self.length, Index::Literal(0))?;
        if same(&first, &begin) {
            Ok(self.index)
        } else {
            Index::binary(alloc, Operation::Quotient, first, self.length)
        }
    }
}

/// A layout, its lengths index expressions.
#[derive(Drop)]
pub enum Layout {
    /// In rows of this length.
    Split(Index),
    /// The rows, of this length, one after another.
    Join(Index),
    Transpose,
    /// From the last to the first of so many.
    Reverse(Index),
    /// Pieces of this size, which begin at the multiples of the step.
    Slide {
        size: u32,
        step: u32,
    },
    /// So many copies of the first element before, and of the last
    /// after; the operand has this length.
    Pad {
        left: u32,
        right: u32,
        length: Index,
    },
}

impl Layout {
    /// The layout of a form, of a type over an operand's; any form that is no layout of its own is
    /// taken for transpose, a stride too, which is lowered to three.
    #[tactic(auto, using(crate::proofs::Shapes::spelled_four))]
    pub fn of_form(
        alloc: Global,
        names: &Names,
        form: &UnaryForm,
        ty: &Ty,
        operand: &Ty,
    ) -> Result<Self, AllocError>
        ensures { IfOk result (λ y. layout_in y ≡ spelled_layout (spelled_length names.now)
            (layout_of form.now (ty_of ty.now) (ty_of operand.now))) }
    {
        match form {
            UnaryForm::Layout(forms::Layout::Split(_)) => {
                Ok(Layout::Split(inner_length(alloc, names, ty)?))
            }
            UnaryForm::Layout(forms::Layout::Join) => {
                Ok(Layout::Join(inner_length(alloc, names, operand)?))
            }
            UnaryForm::Layout(forms::Layout::Reverse) => {
                Ok(Layout::Reverse(outer_length(alloc, names, operand)?))
            }
            UnaryForm::Layout(forms::Layout::AsVector) => Ok(Layout::Split(Index::Literal(4))),
            UnaryForm::Layout(forms::Layout::AsScalar) => Ok(Layout::Join(Index::Literal(4))),
            UnaryForm::Slide(size, step) => Ok(Layout::Slide {
                size: *size,
                step: *step,
            }),
            UnaryForm::Pad(left, right) => Ok(Layout::Pad {
                left: *left,
                right: *right,
                length: outer_length(alloc, names, operand)?,
            }),
            UnaryForm::Layout(forms::Layout::Transpose | forms::Layout::Stride(_))
            | UnaryForm::Div(_)
            | UnaryForm::Rem(_)
            | UnaryForm::First
            | UnaryForm::Second
            | UnaryForm::ToLocal
            | UnaryForm::ToPrivate
            | UnaryForm::Then => Ok(Layout::Transpose),
        }
    }

    /// Makes of indices in the result those in the operand. Of rows that are asked for whole, as
    /// vectors are, the answer is the row, and the indices are those of its first cell.
    pub fn to_operand(
        &self,
        alloc: Global,
        indices: &mut IndexStack,
    ) -> Result<Option<Row>, AllocError>
        ensures row { IfOk result (λ r. option_map row_in r
            ≡ operand_row (layout_in self.now) (indices_in indices.old)) }
        ensures indices { OnOk result (indices_in indices.new
            ≡ operand_asked (layout_in self.now) (indices_in indices.old)) }
    {
        match self {
            Layout::Split(length) => gather(alloc, length, indices),
            Layout::Join(length) => {
                part(alloc, length, indices)?;
                Ok(None)
            }
            Layout::Transpose => {
                swap(indices)?;
                Ok(None)
            }
            Layout::Reverse(length) => {
                turn(alloc, length, indices)?;
                Ok(None)
            }
            Layout::Slide { step, .. } => {
                flatten(alloc, &Index::Literal(*step), indices)?;
                Ok(None)
            }
            Layout::Pad { left, length, .. } => {
                clamp(alloc, *left, length, indices)?;
                Ok(None)
            }
        }
    }

    /// Makes of indices in the operand those in the result, for join, split, transpose and reverse;
    /// of rows that are written whole as for the operand.
    pub fn to_result(
        &self,
        alloc: Global,
        indices: &mut IndexStack,
    ) -> Result<Option<Row>, AllocError>
        ensures row { IfOk result (λ r. option_map row_in r
            ≡ result_row (layout_in self.now) (indices_in indices.old)) }
        ensures indices { OnOk result (indices_in indices.new
            ≡ result_asked (layout_in self.now) (indices_in indices.old)) }
    {
        match self {
            Layout::Split(length) => {
                part(alloc, length, indices)?;
                Ok(None)
            }
            Layout::Join(length) => gather(alloc, length, indices),
            Layout::Transpose => {
                swap(indices)?;
                Ok(None)
            }
            Layout::Reverse(length) => {
                turn(alloc, length, indices)?;
                Ok(None)
            }
            Layout::Slide { .. } | Layout::Pad { .. } => Ok(None),
        }
    }
}

// The length of an array's rows; 0 where there are none.
fn inner_length(alloc: Global, names: &Names, ty: &Ty) -> Result<Index, AllocError>
    ensures { IfOk result (λ n. expression_of n
        ≡ spelled_length names.now (inner_of (ty_of ty.now))) }
{
    match ty {
        Ty::Array(rows, _) => outer_length(alloc, names, rows),
        Ty::Number | Ty::Vector | Ty::Pair(_, _) => Ok(Index::Literal(0)),
    }
}

// The length of an array; 0 of what is none.
fn outer_length(alloc: Global, names: &Names, ty: &Ty) -> Result<Index, AllocError>
    ensures { IfOk result (λ n. expression_of n
        ≡ spelled_length names.now (outer_of (ty_of ty.now))) }
{
    match ty {
        Ty::Array(_, length) => spelled_length(alloc, length, names),
        Ty::Number | Ty::Vector | Ty::Pair(_, _) => Ok(Index::Literal(0)),
    }
}

// Row and index in it become the index in all rows.
fn flatten(alloc: Global, length: &Index, indices: &mut IndexStack) -> Result<(), AllocError>
    ensures { OnOk result (indices_in indices.new
        ≡ flattened expressions (expression_of length.now) (indices_in indices.old)) }
{
    let Some(row) = indices.pop() else {
        return Ok(());
    };
    match indices.pop() {
        None => indices.push(row),
        Some(column) => indices.push(cell_in_rows(alloc, row, length, column)?),
    }
}

// The same, and of the index of a row alone that of its first cell: the answer is the row then.
fn gather(
    alloc: Global,
    length: &Index,
    indices: &mut IndexStack,
) -> Result<Option<Row>, AllocError>
    ensures row { IfOk result (λ r. option_map row_in r
        ≡ asked_row (expression_of length.now) (indices_in indices.old)) }
    ensures indices { OnOk result (indices_in indices.new
        ≡ gathered (expression_of length.now) (indices_in indices.old)) }
{
    let Some(row) = indices.pop() else {
        return Ok(None);
    };
    match indices.pop() {
        None => {
            let index = row.copy(alloc)?;
            indices.push(cell_in_rows(alloc, row, length, Index::Literal(0))?)?;
            Ok(Some(Row {
                index,
                length: length.copy(alloc)?,
            }))
        }
        Some(column) => {
            indices.push(cell_in_rows(alloc, row, length, column)?)?;
            Ok(None)
        }
    }
}

// The index of a column in a row of this length. Where one layout parts an index and the next puts
// the parts together, that index comes back: else each such pair would double its nodes.
fn cell_in_rows(
    alloc: Global,
    row: Index,
    length: &Index,
    column: Index,
) -> Result<Index, AllocError>
    ensures { IfOk result (λ i. expression_of i ≡ spec.cell_in_rows
        (expression_of row) (expression_of length.now) (expression_of column)) }
{
    if are_parts(&row, length, &column) {
        Ok(divided(row))
    } else {
        flat_index(alloc, row, length, column)
    }
}

// Whether they are the row and the column of one index in rows of this length.
fn are_parts(row: &Index, length: &Index, column: &Index) -> bool
    ensures { result ≡ spec.are_parts
        (expression_of row.now) (expression_of length.now) (expression_of column.now) }
{
    match (row, column) {
        (
            Index::Binary(Operation::Quotient, whole, divisor),
            Index::Binary(Operation::Remainder, other, modulus),
        ) => same(whole, other) && same(divisor, length) && same(modulus, length),
        _ => false,
    }
}

// What is divided in a quotient.
fn divided(quotient: Index) -> Index
    ensures { expression_of result ≡ first_part (expression_of quotient) }
{
    match quotient {
        Index::Binary(_, whole, _) => Box::into_inner(whole),
        leaf => leaf,
    }
}

// The most nodes of an index that is put in two places. Each of many layouts can
// double an index, so that a term of some thirty nodes would have one of 2^24; past
// this the answer is want of memory.
const MOST_PARTED: u64 = 262_144;

// An index becomes the row and the index in it.
fn part(alloc: Global, length: &Index, indices: &mut IndexStack) -> Result<(), AllocError>
    ensures { OnOk result (indices_in indices.new
        ≡ parted expressions (expression_of length.now) (indices_in indices.old)) }
{
    let Some(index) = indices.pop() else {
        return Ok(());
    };
    if index.node_count() > MOST_PARTED {
        return Err(AllocError);
    }
    let row = Index::binary(
        alloc,
        Operation::Quotient,
        index.copy(alloc)?,
        length.copy(alloc)?,
    )?;
    indices.push(Index::binary(alloc, Operation::Remainder, index, length.copy(alloc)?)?)?;
    indices.push(row)
}

fn swap(indices: &mut IndexStack) -> Result<(), AllocError>
    ensures { OnOk result (indices_in indices.new ≡ swapped (indices_in indices.old)) }
{
    let Some(row) = indices.pop() else {
        return Ok(());
    };
    match indices.pop() {
        None => indices.push(row),
        Some(index) => {
            indices.push(row)?;
            indices.push(index)
        }
    }
}

// As far from the last as the index is from the first.
fn turn(alloc: Global, length: &Index, indices: &mut IndexStack) -> Result<(), AllocError>
    ensures { OnOk result (indices_in indices.new
        ≡ turned expressions (expression_of length.now) (indices_in indices.old)) }
{
    let Some(index) = indices.pop() else {
        return Ok(());
    };
    let length = length.copy(alloc)?;
    let last = Index::binary(alloc, Operation::Difference, length, Index::Literal(1))?;
    indices.push(Index::binary(alloc, Operation::Difference, last, index)?)
}

// The index without so many in front, and not past the last.
fn clamp(
    alloc: Global,
    left: u32,
    length: &Index,
    indices: &mut IndexStack,
) -> Result<(), AllocError>
    ensures { OnOk result (indices_in indices.new
        ≡ clamped expressions (Literal left) (expression_of length.now) (indices_in indices.old)) }
{
    let Some(index) = indices.pop() else {
        return Ok(());
    };
    let past = Index::binary(alloc, Operation::Greatest, index, Index::Literal(left))?;
    let past = Index::binary(alloc, Operation::Difference, past, Index::Literal(left))?;
    let last = length.copy(alloc)?;
    let last = Index::binary(alloc, Operation::Difference, last, Index::Literal(1))?;
    indices.push(Index::binary(alloc, Operation::Least, past, last)?)
}
