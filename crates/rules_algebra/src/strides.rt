//! Rules on reverse and stride.

ghost use Rattle.std.specs.Prelude.{◌≡◌, ◌++◌, MatchBool, IfOk, true};
ghost use Rattle.lift_tree.specs.Tree.{tree_of};
ghost use Rattle.lift_tree.specs.Annotations.{type_in};
ghost use Rattle.lift_tree.specs.WorkedOut.{product_of};
ghost use Rattle.rewriting.specs.Answers.{IsAnswer, Becomes, NoShape};
ghost use Rattle.rewriting.specs.Around.{Around, context_of};
ghost use Rattle.rules_algebra.specs.Shapes.{Over, IsPlainMap, IsReverse, IsStride, HasPolynomial, first_child};
ghost use Rattle.rules_algebra.specs.Strides;
ghost use Rattle.rules_algebra.specs.Strides.{step_of};

use crate::node_types::has_polynomial;
use crate::parts::{boxed, map_parts, reversed, stride_parts};
use crate::steps::{has_quotient, is_length};
use lift_tree::layout::Layout;
use lift_tree::length::Factor;
use lift_tree::term::{MapKind, Term, UnaryForm};
use lift_tree::typed::Context;
use rewriting::{Condition, Refused};
use std::alloc::{AllocError, Global};

// The array that is turned round twice.
pub fn reverse_reverse(term: Term) -> Result<Term, Refused>
    ensures { IsAnswer (Strides.reverse_reverse (tree_of term)) term result }
{
    if !is_reversed_twice(&term) {
        return Err(Refused::Shape(term));
    }
    let once = reversed(term);
    Ok(Box::into_inner(reversed(Box::into_inner(once))))
}

fn is_reversed_twice(term: &Term) -> bool
    ensures { MatchBool result (Over IsReverse IsReverse (tree_of term.now))
        (Strides.reverse_reverse (tree_of term.now) ≡ NoShape) }
{
    match term {
        Term::Unary(UnaryForm::Layout(Layout::Reverse), once) => match &**once {
            Term::Unary(UnaryForm::Layout(Layout::Reverse), _) => true,
            _ => false,
        },
        _ => false,
    }
}

// Mapping before the array is turned round.
pub fn map_reverse(alloc: Global, term: Term) -> Result<Term, Refused>
    ensures { IsAnswer (Strides.map_reverse (tree_of term)) term result }
{
    if !is_map_of_reverse(&term) {
        return Err(Refused::Shape(term));
    }
    let (array, f) = map_parts(term);
    let xs = reversed(Box::into_inner(array));
    let mapped = boxed(alloc, Term::Map(MapKind::Plain, xs, f))?;
    Ok(Term::Unary(UnaryForm::Layout(Layout::Reverse), mapped))
}

fn is_map_of_reverse(term: &Term) -> bool
    ensures { MatchBool result (Over IsPlainMap IsReverse (tree_of term.now))
        (Strides.map_reverse (tree_of term.now) ≡ NoShape) }
{
    match term {
        Term::Map(MapKind::Plain, array, _) => match &**array {
            Term::Unary(UnaryForm::Layout(Layout::Reverse), _) => true,
            _ => false,
        },
        _ => false,
    }
}

// Mapping before striding.
pub fn map_stride(alloc: Global, term: Term) -> Result<Term, Refused>
    ensures { IsAnswer (Strides.map_stride (tree_of term)) term result }
{
    if !is_map_of_stride(&term) {
        return Err(Refused::Shape(term));
    }
    let (array, f) = map_parts(term);
    let (step, xs) = stride_parts(Box::into_inner(array));
    let mapped = boxed(alloc, Term::Map(MapKind::Plain, xs, f))?;
    Ok(Term::Unary(UnaryForm::Layout(Layout::Stride(step)), mapped))
}

fn is_map_of_stride(term: &Term) -> bool
    ensures { MatchBool result (Over IsPlainMap IsStride (tree_of term.now))
        (Strides.map_stride (tree_of term.now) ≡ NoShape) }
{
    match term {
        Term::Map(MapKind::Plain, array, _) => match &**array {
            Term::Unary(UnaryForm::Layout(Layout::Stride(_)), _) => true,
            _ => false,
        },
        _ => false,
    }
}

// The factors of a stride, or none.
fn step(term: &Term) -> &[Factor]
    ensures { result.now ≡ step_of (tree_of term.now) }
{
    match term {
        Term::Unary(UnaryForm::Layout(Layout::Stride(step)), _) => step.factors(),
        _ => &[],
    }
}

// The term's first child, or itself where it is neither a form with one child nor a map or fold.
fn operand(term: &Term) -> &Term
    ensures { tree_of result.now ≡ first_child (tree_of term.now) }
{
    match term {
        Term::Unary(_, a) | Term::Map(_, a, _) | Term::Fold(_, a, _, _) => a,
        _ => term,
    }
}

// The array whose elements are taken at one distance and then at another, which make its length.
pub fn stride_stride(term: Term, context: &Context) -> Result<Term, Refused>
    ensures { IsAnswer (Strides.stride_stride (context_of context.now) (tree_of term)) term result }
{
    if !is_strided_twice(&term) {
        return Err(Refused::Shape(term));
    }
    if !is_length(step(&term), step(operand(&term)), context) {
        return Err(Refused::Side(Condition::Same, term));
    }
    Ok(unstrided(term))
}

fn unstrided(term: Term) -> Term
    requires { Over IsStride IsStride (tree_of term) }
    ensures { (a : Around) → Strides.is_length a.names
        (step_of (tree_of term) ++ step_of (first_child (tree_of term))) (type_in a.types) ≡ true
        → Strides.stride_stride a (tree_of term) ≡ Becomes (tree_of result) }
{
    let (_step, once) = stride_parts(term);
    let (_other, xs) = stride_parts(Box::into_inner(once));
    Box::into_inner(xs)
}

fn is_strided_twice(term: &Term) -> bool
    ensures { MatchBool result (Over IsStride IsStride (tree_of term.now))
        ((a : Around) → Strides.stride_stride a (tree_of term.now) ≡ NoShape) }
{
    match term {
        Term::Unary(UnaryForm::Layout(Layout::Stride(_)), once) => match &**once {
            Term::Unary(UnaryForm::Layout(Layout::Stride(_)), _) => true,
            _ => false,
        },
        _ => false,
    }
}

// The layouts that a stride is made of, where its columns are shown to be longer than 0.
pub fn stride_layout(alloc: Global, term: Term, context: &Context) -> Result<Term, Refused>
    ensures answer { IsAnswer
        (Strides.stride_layout (context_of context.now) (tree_of term)) term result }
    ensures polynomial { HasPolynomial (type_in (context_of context.now).types) }
{
    // A polynomial is its quotient times the divisor.
    has_polynomial(context.types.own_type());
    if !is_stride(&term) {
        return Err(Refused::Shape(term));
    }
    if !has_quotient(alloc, step(&term), context)? {
        return Err(Refused::Side(Condition::Length, term));
    }
    Ok(laid_out(alloc, term)?)
}

fn laid_out(alloc: Global, term: Term) -> Result<Term, AllocError>
    requires { IsStride (tree_of term) }
    ensures { IfOk result (λ t. (a : Around) → Strides.has_quotient a.names
        (product_of a.names (step_of (tree_of term))) (type_in a.types) ≡ true
        → Strides.stride_layout a (tree_of term) ≡ Becomes (tree_of t)) }
{
    let (step, xs) = stride_parts(term);
    let pieces = boxed(
        alloc,
        Term::Unary(UnaryForm::Layout(Layout::Split(step)), xs),
    )?;
    let columns = boxed(
        alloc,
        Term::Unary(UnaryForm::Layout(Layout::Transpose), pieces),
    )?;
    Ok(Term::Unary(UnaryForm::Layout(Layout::Join), columns))
}

fn is_stride(term: &Term) -> bool
    ensures { MatchBool result (IsStride (tree_of term.now))
        ((a : Around) → Strides.stride_layout a (tree_of term.now) ≡ NoShape) }
{
    match term {
        Term::Unary(UnaryForm::Layout(Layout::Stride(_)), _) => true,
        _ => false,
    }
}
