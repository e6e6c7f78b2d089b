//! Types, views and positions for tests.

ghost use Rattle.std.specs.Prelude.{◌≡◌, IfOk};
ghost use Rattle.lift_tree.specs.Types.{ty_of};
ghost use Rattle.lift_ir.specs.AtLaunch.{shape_of};
ghost use Rattle.lift_ir.specs.Types.{width};

use array_views::{Access, ArrayKind, IndexStack, PairStack, View};
use index_expr::{Index, Operation};
use lift_tree::layout::Layout;
use lift_tree::length::Product;
use lift_tree::term::UnaryForm;
use lift_tree::ty::Ty;
use size_arith::{Monomial, Names, Poly};
use std::alloc::{AllocError, Global};

/// A layout without the lengths that types tell.
#[derive(Clone, Copy)]
pub enum Form {
    Split,
    Join,
    Transpose,
    Reverse,
    Slide(u32, u32),
    Pad(u32, u32),
    AsVector,
    AsScalar,
}

impl Form {
    pub fn unary(self, alloc: Global) -> UnaryForm {
        match self {
            Form::Split => UnaryForm::Layout(Layout::Split(Product::new(Vec::new(alloc)))),
            Form::Join => UnaryForm::Layout(Layout::Join),
            Form::Transpose => UnaryForm::Layout(Layout::Transpose),
            Form::Reverse => UnaryForm::Layout(Layout::Reverse),
            Form::Slide(size, step) => UnaryForm::Slide(size, step),
            Form::Pad(left, right) => UnaryForm::Pad(left, right),
            Form::AsVector => UnaryForm::Layout(Layout::AsVector),
            Form::AsScalar => UnaryForm::Layout(Layout::AsScalar),
        }
    }
}

/// Arrays of these lengths around an element.
pub fn arrays(alloc: Global, lengths: &[u32], element: Ty) -> Result<Ty, AllocError>
    ensures { IfOk result
        (λ t. width (shape_of (ty_of t)) ≡ width (shape_of (ty_of element))) }
{
    match lengths {
        [] => Ok(element),
        [length, rest @ ..] => {
            let rows = arrays(alloc, rest, element)?;
            let length = Poly::from_monomial(alloc, Monomial::number(*length as i128))?;
            Ok(Ty::Array(Box::new(alloc, rows)?, length))
        }
    }
}

/// Buffer 0 of the inputs, an array of numbers of these lengths.
pub fn input(alloc: Global, lengths: &[u32]) -> Result<View, AllocError> {
    let ty = arrays(alloc, lengths, Ty::Number)?;
    View::placed(alloc, &Names::new(alloc), ArrayKind::Input, 0, &ty)
}

/// A view read through layouts, each with the lengths of its result; the first is of an
/// array of these lengths.
pub fn read_through(
    alloc: Global,
    view: View,
    lengths: &[u32],
    layouts: &[(Form, &[u32])],
) -> Result<View, AllocError> {
    match layouts {
        [] => Ok(view),
        [(form, result), rest @ ..] => {
            let ty = arrays(alloc, result, Ty::Number)?;
            let operand = arrays(alloc, lengths, Ty::Number)?;
            let form = form.unary(alloc);
            let view = view.reading(alloc, &Names::new(alloc), &form, &ty, &operand)?;
            read_through(alloc, view, result, rest)
        }
    }
}

/// A view of an array of these lengths, written through layouts, each with the
/// lengths of its operand.
pub fn written_through(
    alloc: Global,
    view: View,
    lengths: &[u32],
    layouts: &[(Form, &[u32])],
) -> Result<View, AllocError> {
    match layouts {
        [] => Ok(view),
        [(form, operand), rest @ ..] => {
            let ty = arrays(alloc, lengths, Ty::Number)?;
            let inner = arrays(alloc, operand, Ty::Number)?;
            let form = form.unary(alloc);
            let view = view.writing(alloc, &Names::new(alloc), &form, &ty, &inner)?;
            written_through(alloc, view, operand, rest)
        }
    }
}

/// Literal indices, the first of them the outermost.
pub fn literals(alloc: Global, numbers: &[u32]) -> Result<IndexStack, AllocError> {
    match numbers {
        [] => Ok(IndexStack::new(alloc)),
        [number, rest @ ..] => {
            let mut stack = literals(alloc, rest)?;
            stack.push(Index::Literal(*number))?;
            Ok(stack)
        }
    }
}

/// The variables of that many loops, the first of them that of the outermost loop.
pub fn loop_variables(alloc: Global, first: u32, count: u32) -> Result<IndexStack, AllocError> {
    if count == 0 {
        return Ok(IndexStack::new(alloc));
    }
    let mut stack = loop_variables(alloc, first.saturating_add(1), count - 1)?;
    stack.push(Index::Variable {
        number: first,
        least: 0,
        greatest: 4294967295,
    })?;
    Ok(stack)
}

fn operate(operation: Operation, a: u64, b: u64) -> Option<u64> {
    match operation {
        Operation::Sum => a.checked_add(b),
        Operation::Difference => a.checked_sub(b),
        Operation::Product => a.checked_mul(b),
        Operation::Quotient => a.checked_div(b),
        Operation::Remainder => a.checked_rem(b),
        Operation::Least => Some(a.min(b)),
        Operation::Greatest => Some(a.max(b)),
    }
}

/// The value of an index of literals; none where a part of it is below 0 or divides by 0.
pub fn value(index: &Index) -> Option<u64> {
    match index {
        Index::Literal(n) => Some(*n as u64),
        Index::Binary(operation, a, b) => operate(*operation, value(a)?, value(b)?),
        Index::Variable { .. } | Index::Size(_) => None,
    }
}

/// Whether the view has this cell of this buffer of the inputs at pair choices and a position.
pub fn has_cell(
    alloc: Global,
    view: &View,
    choices: &[bool],
    position: &[u32],
    buffer: u32,
    cell: u64,
) -> Result<bool, AllocError> {
    let choices = PairStack::from_choices(alloc, choices)?;
    match view.access(alloc, choices, literals(alloc, position)?)? {
        Access::Nothing | Access::Variable(_) | Access::Vector(_) => Ok(false),
        Access::InCell(found) => Ok(
            found.kind == ArrayKind::Input
                && found.array == buffer
                && value(&found.index) == Some(cell),
        ),
    }
}

/// Pair choices, a position, a buffer of the inputs and a cell of it.
pub type Place = (&'static [bool], &'static [u32], u32, u64);

/// Whether the view has each of these cells.
pub fn has_all(alloc: Global, view: &View, places: &[Place]) -> Result<bool, AllocError> {
    for (choices, position, buffer, cell) in places {
        if !has_cell(alloc, view, choices, position, *buffer, *cell)? {
            return Ok(false);
        }
    }
    Ok(true)
}

/// Whether the view has this variable at pair choices.
pub fn has_variable(
    alloc: Global,
    view: &View,
    choices: &[bool],
    variable: u32,
) -> Result<bool, AllocError> {
    let choices = PairStack::from_choices(alloc, choices)?;
    match view.access(alloc, choices, IndexStack::new(alloc))? {
        Access::Nothing | Access::InCell(_) | Access::Vector(_) => Ok(false),
        Access::Variable(found) => Ok(found == variable),
    }
}

/// Whether the view is of this vector in variables at pair choices.
pub fn has_vector(
    alloc: Global,
    view: &View,
    choices: &[bool],
    vector: u32,
) -> Result<bool, AllocError> {
    let choices = PairStack::from_choices(alloc, choices)?;
    match view.access(alloc, choices, IndexStack::new(alloc))? {
        Access::Nothing | Access::InCell(_) | Access::Variable(_) => Ok(false),
        Access::Vector(found) => Ok(found == vector),
    }
}
