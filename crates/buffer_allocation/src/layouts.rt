//! How many layouts stand one on another over a buffer: split, join, transpose, reverse, stride,
//! asVector, asScalar, zip, slide and pad, and first and second of what isn't an element. Each is
//! one more operation in an index.

ghost use Rattle.std.specs.Prelude.{◌≡◌, ◌∷◌, get_or, max, reverse, IfOk, OnOk};
ghost use Rattle.lift_tree.specs.Tree as tree;
ghost use Rattle.lift_tree.specs.Tree.{tree_of};
ghost use Rattle.lift_tree.specs.Annotations as annotation;
ghost use Rattle.lift_tree.specs.Annotations.{annotation_of};
ghost use Rattle.lift_tree.specs.Types.{ty_of};
ghost use Rattle.buffer_allocation.specs.Layouts as spec;
ghost use Rattle.buffer_allocation.specs.Layouts.{height_of, most};
ghost use Rattle.buffer_allocation.specs.declared.layouts.Position.TheVariants.{Element};

use lift_tree::term::{BinaryForm, Term, UnaryForm};
use lift_tree::ty::Ty;
use lift_tree::typed::NodeTypes;
use std::alloc::{AllocError, Global};

/// Where a term stands.
#[derive(Clone, Copy)]
pub enum Position {
    /// What it gives is stored, and so many layouts stand above it, up to the root or the copy
    /// around it.
    Written(u64),
    /// In the array of a map or fold, or in a let's value.
    Argument,
    /// Below an element.
    Element,
}

// A count of one more, which stands still at its greatest value.
fn raised(height: u64) -> u64
    ensures { result ≡ spec.raised height }
{
    height.saturating_add(1)
}

fn greater(a: u64, b: u64) -> u64
    ensures { result ≡ max a b }
{
    if a < b { b } else { a }
}

// The height of what a form makes of a buffer at this height.
fn on_form(form: &UnaryForm, height: u64) -> u64
    ensures { result ≡ spec.on_form form.now height }
{
    match form {
        UnaryForm::First
        | UnaryForm::Second
        | UnaryForm::Layout(_)
        | UnaryForm::Slide(_, _)
        | UnaryForm::Pad(_, _) => raised(height),
        UnaryForm::Div(_)
        | UnaryForm::Rem(_)
        | UnaryForm::ToLocal
        | UnaryForm::ToPrivate
        | UnaryForm::Then => 0,
    }
}

fn on_both(form: BinaryForm, left: u64, right: u64) -> u64
    ensures { result ≡ spec.on_both form left right }
{
    match form {
        BinaryForm::Zip => raised(greater(left, right)),
        BinaryForm::Operator(_) | BinaryForm::Pair | BinaryForm::Reduce(_) => 0,
    }
}

fn is_copy(form: &UnaryForm) -> bool
    ensures { result ≡ spec.is_copy form.now }
{
    match form {
        UnaryForm::ToLocal | UnaryForm::ToPrivate => true,
        UnaryForm::Div(_)
        | UnaryForm::Rem(_)
        | UnaryForm::First
        | UnaryForm::Second
        | UnaryForm::Layout(_)
        | UnaryForm::Slide(_, _)
        | UnaryForm::Pad(_, _)
        | UnaryForm::Then => false,
    }
}

// Whether writing goes through the form. Of the layouts asVector stands in writing position in no
// legal nest.
fn is_written_through(form: &UnaryForm) -> bool
    ensures { result ≡ spec.is_written_through form.now }
{
    match form {
        UnaryForm::Layout(_) => true,
        UnaryForm::Div(_)
        | UnaryForm::Rem(_)
        | UnaryForm::First
        | UnaryForm::Second
        | UnaryForm::Slide(_, _)
        | UnaryForm::Pad(_, _)
        | UnaryForm::ToLocal
        | UnaryForm::ToPrivate
        | UnaryForm::Then => false,
    }
}

// The height of a binder's buffer, by its number, 0 the nearest. The nearest stands last.
#[tactic(auto, using(crate::proofs::Bound::bound))]
fn bound(binders: &[u64], number: u32) -> u64
    ensures { result ≡ get_or (reverse binders.now) number 0 }
{
    match binders.iter().rev().nth(number as usize) {
        Some(height) => *height,
        None => 0,
    }
}

// What is read: its own height, and the greatest in it.
#[derive(Clone, Copy)]
struct Stack {
    height: u64,
    most: u64,
}

fn above(position: Position) -> u64
    ensures { result ≡ spec.above position }
{
    match position {
        Position::Written(layouts) => layouts,
        Position::Argument | Position::Element => 0,
    }
}

fn is_in_element(position: Position) -> bool
    ensures { result ≡ spec.is_in_element position }
{
    match position {
        Position::Element => true,
        Position::Written(_) | Position::Argument => false,
    }
}

fn is_projection(form: &UnaryForm) -> bool
    ensures { result ≡ spec.is_projection form.now }
{
    match form {
        UnaryForm::First | UnaryForm::Second => true,
        UnaryForm::Div(_)
        | UnaryForm::Rem(_)
        | UnaryForm::Layout(_)
        | UnaryForm::Slide(_, _)
        | UnaryForm::Pad(_, _)
        | UnaryForm::ToLocal
        | UnaryForm::ToPrivate
        | UnaryForm::Then => false,
    }
}

// The position of what is below a form of this type.
fn below(position: Position, form: &UnaryForm, ty: &Ty) -> Position
    ensures { result ≡ spec.below position form.now (ty_of ty.now) }
{
    if is_in_element(position) || ty.is_element() {
        return Position::Element;
    }
    match position {
        Position::Written(layouts) => {
            if is_written_through(form) {
                Position::Written(raised(layouts))
            } else {
                Position::Argument
            }
        }
        Position::Argument | Position::Element => Position::Argument,
    }
}

fn below_both(position: Position, ty: &Ty) -> Position
    ensures { result ≡ spec.below_both position (ty_of ty.now) }
{
    if is_in_element(position) || ty.is_element() {
        Position::Element
    } else {
        Position::Argument
    }
}

fn let_below(position: Position, ty: &Ty) -> Position
    ensures { result ≡ spec.let_below position (ty_of ty.now) }
{
    if ty.is_element() {
        Position::Element
    } else {
        position
    }
}

fn read_height(position: Position, form: &UnaryForm, height: u64) -> u64
    ensures { result ≡ spec.read_height position form.now height }
{
    match position {
        Position::Written(layouts) => {
            if is_written_through(form) {
                0
            } else {
                greater(layouts, height)
            }
        }
        Position::Argument | Position::Element => height,
    }
}

// What is counted at a form itself, of which this is the height.
fn at_form(position: Position, form: &UnaryForm, ty: &Ty, height: u64) -> u64
    ensures { result ≡ spec.at_form position form.now (ty_of ty.now) height }
{
    if is_copy(form) || (is_projection(form) && (is_in_element(position) || ty.is_element())) {
        above(position)
    } else {
        read_height(position, form, height)
    }
}

// A form over one operand.
#[cycle(stacking)]
fn form_stack(
    form: &UnaryForm,
    operand: &Term,
    ty: &Ty,
    types: &NodeTypes,
    position: Position,
    binders: &mut Vec<u64>,
) -> Result<Stack, AllocError>
    ensures binders { OnOk result (binders.new.items ≡ binders.old.items) }
    ensures height { IfOk result (λ s. s.height ≡ height_of (reverse binders.old.items)
        (tree.Unary form.now (tree_of operand.now))
        (annotation.One (ty_of ty.now) (annotation_of types.now))) }
    ensures most { IfOk result (λ s. s.most ≡ most position (reverse binders.old.items)
        (tree.Unary form.now (tree_of operand.now))
        (annotation.One (ty_of ty.now) (annotation_of types.now))) }
{
    let inner_position = if is_copy(form) {
        Position::Written(0)
    } else {
        below(position, form, ty)
    };
    let inner = stack_of(operand, types, inner_position, binders)?;
    let height = if ty.is_element() {
        0
    } else {
        on_form(form, inner.height)
    };
    let here = at_form(position, form, ty, height);
    Ok(Stack {
        height,
        most: greater(here, inner.most),
    })
}

// A term below one more binder at this height.
#[tactic(auto, using(crate::proofs::Bound::bound))]
#[cycle(stacking)]
fn stack_under(
    height: u64,
    term: &Term,
    types: &NodeTypes,
    position: Position,
    binders: &mut Vec<u64>,
) -> Result<Stack, AllocError>
    ensures binders { OnOk result (binders.new.items ≡ binders.old.items) }
    ensures height { IfOk result (λ s. s.height ≡ height_of (height ∷ reverse binders.old.items)
        (tree_of term.now) (annotation_of types.now)) }
    ensures most { IfOk result (λ s. s.most ≡ most position (height ∷ reverse binders.old.items)
        (tree_of term.now) (annotation_of types.now)) }
{
    binders.push(height)?;
    let stack = stack_of(term, types, position, binders)?;
    binders.pop();
    Ok(stack)
}

// A fold's step, below its accumulator and then the element of an array at this height.
#[tactic(auto, using(crate::proofs::Bound::bound))]
#[cycle(stacking)]
fn step_most(
    height: u64,
    step: &Term,
    types: &NodeTypes,
    binders: &mut Vec<u64>,
) -> Result<u64, AllocError>
    ensures binders { OnOk result (binders.new.items ≡ binders.old.items) }
    ensures most { IfOk result (λ s. s
        ≡ most Element (height ∷ 0 ∷ reverse binders.old.items)
        (tree_of step.now) (annotation_of types.now)) }
{
    binders.push(0)?;
    let stack = stack_under(height, step, types, Position::Element, binders)?;
    binders.pop();
    Ok(stack.most)
}

// A term in this position, where binders stand at these heights, the nearest last.
#[cycle(stacking)]
fn stack_of(
    term: &Term,
    types: &NodeTypes,
    position: Position,
    binders: &mut Vec<u64>,
) -> Result<Stack, AllocError>
    ensures binders { OnOk result (binders.new.items ≡ binders.old.items) }
    ensures height { IfOk result (λ s. s.height ≡ height_of (reverse binders.old.items)
        (tree_of term.now) (annotation_of types.now)) }
    ensures most { IfOk result (λ s. s.most ≡ most position (reverse binders.old.items)
        (tree_of term.now) (annotation_of types.now)) }
{
    let here = above(position);
    match (term, types) {
        (Term::Variable(number), _) => {
            let height = bound(binders, *number);
            Ok(Stack {
                height,
                most: greater(here, height),
            })
        }
        (Term::Unary(form, a), NodeTypes::One(ty, n)) => {
            form_stack(form, a, ty, n, position, binders)
        }
        (Term::Binary(form, a, b), NodeTypes::Two(ty, n, m)) => {
            let below = below_both(position, ty);
            let left = stack_of(a, n, below, binders)?;
            let right = stack_of(b, m, below, binders)?;
            let height = on_both(*form, left.height, right.height);
            Ok(Stack {
                height,
                most: greater(greater(here, height), greater(left.most, right.most)),
            })
        }
        (Term::Select(a, b, c), NodeTypes::Three(_, n, m, k)) => {
            let first = stack_of(a, n, Position::Element, binders)?;
            let second = stack_of(b, m, Position::Element, binders)?;
            let third = stack_of(c, k, Position::Element, binders)?;
            let most = greater(here, greater(first.most, greater(second.most, third.most)));
            Ok(Stack { height: 0, most })
        }
        (Term::Let(value, body), NodeTypes::Two(ty, n, m)) => {
            let value = stack_of(value, n, Position::Argument, binders)?;
            let below = let_below(position, ty);
            let body = stack_under(value.height, body, m, below, binders)?;
            let here = if ty.is_element() { here } else { 0 };
            Ok(Stack {
                height: body.height,
                most: greater(here, greater(value.most, body.most)),
            })
        }
        (Term::Map(_, array, body), NodeTypes::Two(_, n, m)) => {
            let array = stack_of(array, n, Position::Argument, binders)?;
            let body = stack_under(array.height, body, m, Position::Written(here), binders)?;
            Ok(Stack {
                height: 0,
                most: greater(here, greater(array.most, body.most)),
            })
        }
        (Term::Fold(_, array, start, step), NodeTypes::Three(_, n, m, k)) => {
            let array = stack_of(array, n, Position::Argument, binders)?;
            let start = stack_of(start, m, Position::Element, binders)?;
            let step = step_most(array.height, step, k, binders)?;
            Ok(Stack {
                height: 0,
                most: greater(here, greater(array.most, greater(start.most, step))),
            })
        }
        _ => Ok(Stack {
            height: 0,
            most: here,
        }),
    }
}

/// The greatest number of layouts that stand one on another over a buffer, in reading or in
/// writing.
pub fn layouts(alloc: Global, term: &Term, types: &NodeTypes) -> Result<u64, AllocError>
    ensures { IfOk result (λ count. count
        ≡ spec.layouts (tree_of term.now) (annotation_of types.now)) }
{
    let stack = stack_of(term, types, Position::Written(0), &mut Vec::new(alloc))?;
    Ok(stack.most)
}
