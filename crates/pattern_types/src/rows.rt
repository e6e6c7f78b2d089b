//! The typing table: a form's type from its children's.

ghost use Rattle.std.specs.Prelude.{◌≡◌, ◌≢◌, IfErr, IfOk, Err, Ok, Some, length};
ghost use Rattle.lift_tree.specs.Types.{ty_of, PairOf};
ghost use Rattle.pattern_types.specs.declared.fault.Fault.TheVariants.{Memory};
ghost use Rattle.lift_tree.specs.Belonging.{FormIsNamed, LayoutIsNamed};
ghost use Rattle.pattern_types.specs.Judged.{number_row, numeric_row, first_row, second_row, join_row, transpose_row, split_row, reverse_row, stride_row, as_vector_row, as_scalar_row, layout_row, windows_row, slide_row, pad_row, unary_row, lanes_row, operator_row, pair_row, zip_row, reduce_row, binary_row, select_row};

use crate::arrays::formed;
use crate::fault::{Fault, demanded};
use crate::lengths::{constant, difference, exact_quotient, product, product_of, sum};
use crate::refusal::Rule;
use lift_tree::layout::Layout;
use lift_tree::term::{BinaryForm, Operator, UnaryForm};
use lift_tree::ty::Ty;
use size_arith::{Names, Poly};
use std::alloc::{AllocError, Global};

fn number(operand: &Ty) -> Result<Ty, Fault>
    ensures ok { IfOk result (λ t. number_row (ty_of operand.now) ≡ Ok (ty_of t)) }
    ensures refused { IfErr result (λ f. number_row (ty_of operand.now) ≡ Err f) }
{
    match operand {
        Ty::Number => Ok(Ty::Number),
        Ty::Vector | Ty::Pair(_, _) | Ty::Array(_, _) => Err(Fault::Breaks(Rule::Operator)),
    }
}

// The type of a number, or of four, divided by a number.
fn numeric(operand: &Ty) -> Result<Ty, Fault>
    ensures ok { IfOk result (λ t. numeric_row (ty_of operand.now) ≡ Ok (ty_of t)) }
    ensures refused { IfErr result (λ f. numeric_row (ty_of operand.now) ≡ Err f) }
{
    match operand {
        Ty::Number => Ok(Ty::Number),
        Ty::Vector => Ok(Ty::Vector),
        Ty::Pair(_, _) | Ty::Array(_, _) => Err(Fault::Breaks(Rule::Operator)),
    }
}

fn first(alloc: Global, operand: &Ty) -> Result<Ty, Fault>
    ensures ok { IfOk result (λ t. first_row (ty_of operand.now) ≡ Ok (ty_of t)) }
    ensures refused { IfErr result (λ f. f ≢ Memory → first_row (ty_of operand.now) ≡ Err f) }
{
    match operand {
        Ty::Pair(a, _) => Ok(a.copy(alloc)?),
        Ty::Number | Ty::Vector | Ty::Array(_, _) => Err(Fault::Breaks(Rule::Project)),
    }
}

fn second(alloc: Global, operand: &Ty) -> Result<Ty, Fault>
    ensures ok { IfOk result (λ t. second_row (ty_of operand.now) ≡ Ok (ty_of t)) }
    ensures refused { IfErr result (λ f. f ≢ Memory → second_row (ty_of operand.now) ≡ Err f) }
{
    match operand {
        Ty::Pair(_, b) => Ok(b.copy(alloc)?),
        Ty::Number | Ty::Vector | Ty::Array(_, _) => Err(Fault::Breaks(Rule::Project)),
    }
}

fn join(alloc: Global, names: &Names, operand: &Ty) -> Result<Ty, Fault>
    ensures ok { IfOk result (λ t. join_row names.now (ty_of operand.now) ≡ Ok (ty_of t)) }
    ensures refused { IfErr result (λ f. f ≢ Memory → join_row names.now (ty_of operand.now)
        ≡ Err f) }
{
    match operand {
        Ty::Array(row, outer) => match &**row {
            Ty::Array(element, inner) => {
                let all = product(alloc, outer, inner)?;
                formed(alloc, names, element.copy(alloc)?, all)
            }
            Ty::Number | Ty::Vector | Ty::Pair(_, _) => Err(Fault::Breaks(Rule::Join)),
        },
        Ty::Number | Ty::Vector | Ty::Pair(_, _) => Err(Fault::Breaks(Rule::Join)),
    }
}

fn transpose(alloc: Global, names: &Names, operand: &Ty) -> Result<Ty, Fault>
    ensures ok { IfOk result (λ t. transpose_row names.now (ty_of operand.now) ≡ Ok (ty_of t)) }
    ensures refused { IfErr result (λ f. f ≢ Memory → transpose_row names.now (ty_of operand.now)
        ≡ Err f) }
{
    match operand {
        Ty::Array(row, outer) => match &**row {
            Ty::Array(element, inner) => {
                let column = formed(alloc, names, element.copy(alloc)?, outer.copy(alloc)?)?;
                formed(alloc, names, column, inner.copy(alloc)?)
            }
            Ty::Number | Ty::Vector | Ty::Pair(_, _) => Err(Fault::Breaks(Rule::Transpose)),
        },
        Ty::Number | Ty::Vector | Ty::Pair(_, _) => Err(Fault::Breaks(Rule::Transpose)),
    }
}

fn split(alloc: Global, names: &Names, piece: Poly, operand: &Ty) -> Result<Ty, Fault>
    ensures ok { IfOk result (λ t. split_row names.now piece (ty_of operand.now) ≡ Ok (ty_of t)) }
    ensures refused { IfErr result (λ f. f ≢ Memory → split_row names.now piece (ty_of operand.now)
        ≡ Err f) }
{
    match operand {
        Ty::Array(element, whole) => match exact_quotient(alloc, &piece, whole)? {
            Some(count) => {
                let pieces = formed(alloc, names, element.copy(alloc)?, piece)?;
                formed(alloc, names, pieces, count)
            }
            None => Err(Fault::Breaks(Rule::Split)),
        },
        Ty::Number | Ty::Vector | Ty::Pair(_, _) => Err(Fault::Breaks(Rule::Split)),
    }
}

fn reverse(alloc: Global, operand: &Ty) -> Result<Ty, Fault>
    ensures ok { IfOk result (λ t. reverse_row (ty_of operand.now) ≡ Ok (ty_of t)) }
    ensures refused { IfErr result (λ f. f ≢ Memory → reverse_row (ty_of operand.now) ≡ Err f) }
{
    match operand {
        Ty::Array(_, _) => Ok(operand.copy(alloc)?),
        Ty::Number | Ty::Vector | Ty::Pair(_, _) => Err(Fault::Breaks(Rule::Reverse)),
    }
}

fn stride(alloc: Global, step: &Poly, operand: &Ty) -> Result<Ty, Fault>
    ensures ok { IfOk result (λ t. stride_row step.now (ty_of operand.now) ≡ Ok (ty_of t)) }
    ensures refused { IfErr result (λ f. f ≢ Memory → stride_row step.now (ty_of operand.now)
        ≡ Err f) }
{
    match operand {
        Ty::Array(_, whole) => match exact_quotient(alloc, step, whole)? {
            Some(_) => Ok(operand.copy(alloc)?),
            None => Err(Fault::Breaks(Rule::Stride)),
        },
        Ty::Number | Ty::Vector | Ty::Pair(_, _) => Err(Fault::Breaks(Rule::Stride)),
    }
}

fn as_vector(alloc: Global, names: &Names, operand: &Ty) -> Result<Ty, Fault>
    ensures ok { IfOk result (λ t. as_vector_row names.now (ty_of operand.now) ≡ Ok (ty_of t)) }
    ensures refused { IfErr result (λ f. f ≢ Memory → as_vector_row names.now (ty_of operand.now)
        ≡ Err f) }
{
    match operand {
        Ty::Array(element, whole) => match &**element {
            Ty::Number => match exact_quotient(alloc, &constant(alloc, 4)?, whole)? {
                Some(count) => formed(alloc, names, Ty::Vector, count),
                None => Err(Fault::Breaks(Rule::Split)),
            },
            Ty::Vector | Ty::Pair(_, _) | Ty::Array(_, _) => Err(Fault::Breaks(Rule::Split)),
        },
        Ty::Number | Ty::Vector | Ty::Pair(_, _) => Err(Fault::Breaks(Rule::Split)),
    }
}

fn as_scalar(alloc: Global, names: &Names, operand: &Ty) -> Result<Ty, Fault>
    ensures ok { IfOk result (λ t. as_scalar_row names.now (ty_of operand.now) ≡ Ok (ty_of t)) }
    ensures refused { IfErr result (λ f. f ≢ Memory → as_scalar_row names.now (ty_of operand.now)
        ≡ Err f) }
{
    match operand {
        Ty::Array(element, whole) => match &**element {
            Ty::Vector => {
                let all = product(alloc, whole, &constant(alloc, 4)?)?;
                formed(alloc, names, Ty::Number, all)
            }
            Ty::Number | Ty::Pair(_, _) | Ty::Array(_, _) => Err(Fault::Breaks(Rule::Join)),
        },
        Ty::Number | Ty::Vector | Ty::Pair(_, _) => Err(Fault::Breaks(Rule::Join)),
    }
}

/// The type of a layout, the length that it names worked out first.
fn layout(alloc: Global, names: &Names, layout: &Layout, operand: &Ty) -> Result<Ty, Fault>
    requires { LayoutIsNamed (length names.now) layout.now }
    ensures ok { IfOk result (λ t. layout_row names.now layout.now (ty_of operand.now)
        ≡ Ok (ty_of t)) }
    ensures refused { IfErr result (λ f. f ≢ Memory
        → layout_row names.now layout.now (ty_of operand.now) ≡ Err f) }
{
    match layout {
        Layout::Join => join(alloc, names, operand),
        Layout::Transpose => transpose(alloc, names, operand),
        Layout::Split(piece) => {
            let piece = product_of(alloc, names, piece)?;
            split(alloc, names, piece, operand)
        }
        Layout::Reverse => reverse(alloc, operand),
        Layout::Stride(step) => {
            let step = product_of(alloc, names, step)?;
            stride(alloc, &step, operand)
        }
        Layout::AsVector => as_vector(alloc, names, operand),
        Layout::AsScalar => as_scalar(alloc, names, operand),
    }
}

// The windows of this size, one more than the steps that fit.
fn windows(alloc: Global, names: &Names, element: &Ty, size: u32, steps: &Poly) -> Result<Ty, Fault>
    ensures ok { IfOk result (λ t. windows_row names.now (ty_of element.now) size (Some steps.now)
        ≡ Ok (ty_of t)) }
    ensures refused { IfErr result (λ f. f ≢ Memory
        → windows_row names.now (ty_of element.now) size (Some steps.now) ≡ Err f) }
{
    let window = formed(alloc, names, element.copy(alloc)?, constant(alloc, size)?)?;
    let count = sum(alloc, steps, &constant(alloc, 1)?)?;
    formed(alloc, names, window, count)
}

fn slide(alloc: Global, names: &Names, size: u32, step: u32, operand: &Ty) -> Result<Ty, Fault>
    ensures ok { IfOk result (λ t. slide_row names.now size step (ty_of operand.now)
        ≡ Ok (ty_of t)) }
    ensures refused { IfErr result (λ f. f ≢ Memory
        → slide_row names.now size step (ty_of operand.now) ≡ Err f) }
{
    match operand {
        Ty::Array(element, whole) => {
            let left = difference(alloc, whole, &constant(alloc, size)?)?;
            demanded(left.shown_at_least(0, names), Rule::Slide)?;
            match exact_quotient(alloc, &constant(alloc, step)?, &left)? {
                Some(steps) => windows(alloc, names, element, size, &steps),
                None => Err(Fault::Breaks(Rule::Slide)),
            }
        }
        Ty::Number | Ty::Vector | Ty::Pair(_, _) => Err(Fault::Breaks(Rule::Slide)),
    }
}

fn pad(alloc: Global, names: &Names, before: u32, after: u32, operand: &Ty) -> Result<Ty, Fault>
    ensures ok { IfOk result (λ t. pad_row names.now before after (ty_of operand.now)
        ≡ Ok (ty_of t)) }
    ensures refused { IfErr result (λ f. f ≢ Memory
        → pad_row names.now before after (ty_of operand.now) ≡ Err f) }
{
    match operand {
        Ty::Array(element, whole) => {
            let with_first = sum(alloc, &constant(alloc, before)?, whole)?;
            let with_last = sum(alloc, &with_first, &constant(alloc, after)?)?;
            formed(alloc, names, element.copy(alloc)?, with_last)
        }
        Ty::Number | Ty::Vector | Ty::Pair(_, _) => Err(Fault::Breaks(Rule::Pad)),
    }
}

/// The type of a form with one child.
pub fn unary(alloc: Global, names: &Names, form: &UnaryForm, operand: &Ty) -> Result<Ty, Fault>
    requires { FormIsNamed (length names.now) form.now }
    ensures ok { IfOk result (λ t. unary_row names.now form.now (ty_of operand.now)
        ≡ Ok (ty_of t)) }
    ensures refused { IfErr result (λ f. f ≢ Memory
        → unary_row names.now form.now (ty_of operand.now) ≡ Err f) }
{
    match form {
        UnaryForm::Div(_) | UnaryForm::Rem(_) => numeric(operand),
        UnaryForm::First => first(alloc, operand),
        UnaryForm::Second => second(alloc, operand),
        UnaryForm::Layout(by) => layout(alloc, names, by, operand),
        UnaryForm::Slide(size, step) => slide(alloc, names, *size, *step, operand),
        UnaryForm::Pad(before, after) => pad(alloc, names, *before, *after, operand),
        UnaryForm::ToLocal | UnaryForm::ToPrivate | UnaryForm::Then => { Ok(operand.copy(alloc)?) }
    }
}

// The type of an operator of which an operand is a vector: it acts lane by lane.
fn lanes(operator: Operator) -> Result<Ty, Fault>
    ensures ok { IfOk result (λ t. lanes_row operator ≡ Ok (ty_of t)) }
    ensures refused { IfErr result (λ f. lanes_row operator ≡ Err f) }
{
    match operator {
        Operator::Regrouping(_) | Operator::Sub | Operator::Shl | Operator::Shr => Ok(Ty::Vector),
        Operator::Lt | Operator::Eq => Err(Fault::Breaks(Rule::Operator)),
    }
}

fn operator(operator: Operator, a: &Ty, b: &Ty) -> Result<Ty, Fault>
    ensures ok { IfOk result (λ t. operator_row operator (ty_of a.now) (ty_of b.now)
        ≡ Ok (ty_of t)) }
    ensures refused { IfErr result (λ f. operator_row operator (ty_of a.now) (ty_of b.now)
        ≡ Err f) }
{
    match a {
        Ty::Number => match b {
            Ty::Number => Ok(Ty::Number),
            Ty::Vector => lanes(operator),
            Ty::Pair(_, _) | Ty::Array(_, _) => Err(Fault::Breaks(Rule::Operator)),
        },
        Ty::Vector => match b {
            Ty::Number | Ty::Vector => lanes(operator),
            Ty::Pair(_, _) | Ty::Array(_, _) => Err(Fault::Breaks(Rule::Operator)),
        },
        Ty::Pair(_, _) | Ty::Array(_, _) => Err(Fault::Breaks(Rule::Operator)),
    }
}

fn pair(alloc: Global, a: &Ty, b: &Ty) -> Result<Ty, Fault>
    ensures ok { IfOk result (λ t. pair_row (ty_of a.now) (ty_of b.now) ≡ Ok (ty_of t)) }
    ensures refused { IfErr result (λ f. f ≢ Memory → pair_row (ty_of a.now) (ty_of b.now)
        ≡ Err f) }
{
    demanded(a.is_element() && b.is_element(), Rule::Pair)?;
    Ok(pair_of(alloc, a, b)?)
}

fn pair_of(alloc: Global, a: &Ty, b: &Ty) -> Result<Ty, AllocError>
    ensures { IfOk result (λ t. ty_of t ≡ PairOf (ty_of a.now) (ty_of b.now)) }
{
    let first = Box::new(alloc, a.copy(alloc)?)?;
    Ok(Ty::Pair(first, Box::new(alloc, b.copy(alloc)?)?))
}

fn zip(alloc: Global, names: &Names, a: &Ty, b: &Ty) -> Result<Ty, Fault>
    ensures ok { IfOk result (λ t. zip_row names.now (ty_of a.now) (ty_of b.now) ≡ Ok (ty_of t)) }
    ensures refused { IfErr result (λ f. f ≢ Memory → zip_row names.now (ty_of a.now) (ty_of b.now)
        ≡ Err f) }
{
    match a {
        Ty::Array(first, length) => match b {
            Ty::Array(second, other) => {
                demanded(length.same(other), Rule::Zip)?;
                let element = pair_of(alloc, first, second)?;
                formed(alloc, names, element, length.copy(alloc)?)
            }
            Ty::Number | Ty::Vector | Ty::Pair(_, _) => Err(Fault::Breaks(Rule::Zip)),
        },
        Ty::Number | Ty::Vector | Ty::Pair(_, _) => Err(Fault::Breaks(Rule::Zip)),
    }
}

fn reduce(alloc: Global, names: &Names, array: &Ty, start: &Ty) -> Result<Ty, Fault>
    ensures ok { IfOk result (λ t. reduce_row names.now (ty_of array.now) (ty_of start.now)
        ≡ Ok (ty_of t)) }
    ensures refused { IfErr result (λ f. f ≢ Memory
        → reduce_row names.now (ty_of array.now) (ty_of start.now) ≡ Err f) }
{
    match array {
        Ty::Array(element, _) => match &**element {
            Ty::Number => match start {
                Ty::Number => formed(alloc, names, Ty::Number, constant(alloc, 1)?),
                Ty::Vector | Ty::Pair(_, _) | Ty::Array(_, _) => Err(Fault::Breaks(Rule::Reduce)),
            },
            Ty::Vector | Ty::Pair(_, _) | Ty::Array(_, _) => Err(Fault::Breaks(Rule::Reduce)),
        },
        Ty::Number | Ty::Vector | Ty::Pair(_, _) => Err(Fault::Breaks(Rule::Reduce)),
    }
}

/// The type of a form with two children and no binder.
pub fn binary(alloc: Global, names: &Names, form: BinaryForm, a: &Ty, b: &Ty) -> Result<Ty, Fault>
    ensures ok { IfOk result (λ t. binary_row names.now form (ty_of a.now) (ty_of b.now)
        ≡ Ok (ty_of t)) }
    ensures refused { IfErr result (λ f. f ≢ Memory
        → binary_row names.now form (ty_of a.now) (ty_of b.now) ≡ Err f) }
{
    match form {
        BinaryForm::Operator(by) => operator(by, a, b),
        BinaryForm::Pair => pair(alloc, a, b),
        BinaryForm::Zip => zip(alloc, names, a, b),
        BinaryForm::Reduce(_) => reduce(alloc, names, a, b),
    }
}

/// The type of a `select`.
pub fn select(a: &Ty, b: &Ty, c: &Ty) -> Result<Ty, Fault>
    ensures ok { IfOk result (λ t. select_row (ty_of a.now) (ty_of b.now) (ty_of c.now)
        ≡ Ok (ty_of t)) }
    ensures refused { IfErr result (λ f. select_row (ty_of a.now) (ty_of b.now) (ty_of c.now)
        ≡ Err f) }
{
    number(a)?;
    number(b)?;
    number(c)
}
