//! The rules of vectors of four, applied.

ghost use Rattle.std.specs.Prelude.{◌≡◌, ◌&&◌, IfOk, MatchBool, map, slice_get};
ghost use Rattle.lift_tree.specs.Annotations.{annotation_of};
ghost use Rattle.lift_tree.specs.Tree.{Map, tree_of};
ghost use Rattle.lift_tree.specs.Types.{ty_of};
ghost use Rattle.lift_tree.specs.Typing as typing;
ghost use Rattle.lift_tree.specs.declared.term.MapKind.TheVariants.{Plain};
ghost use Rattle.rewriting.specs.Around.{context_of};
ghost use Rattle.rewriting.specs.Answers.{Becomes, IsAnswer, NoShape};
ghost use Rattle.rules_lower.specs.Vectors as spec;

use lift_tree::layout::Layout;
use lift_tree::term::{BinaryForm, MapKind, Operator, Term, UnaryForm};
use lift_tree::ty::Ty;
use lift_tree::typed::{Context, NodeTypes};
use rewriting::refused::{Condition, Refused};
use size_arith::Monomial;
use std::alloc::{AllocError, Global};

// Where the type is an array's, its length is a polynomial. That is known once the length is read.
fn has_polynomial(ty: &Ty)
    ensures { spec.HasPolynomial (ty_of ty.now) }
{
    if let Ty::Array(_, length) = ty {
        let _length = length.as_slice();
    }
}

// So it is with the array of a node.
fn has_polynomial_at(types: &NodeTypes)
    ensures { spec.HasPolynomial (spec.array_type (annotation_of types.now)) }
{
    match types {
        NodeTypes::One(_, array) | NodeTypes::Two(_, array, _) | NodeTypes::Three(_, array, _, _) =>
            { has_polynomial(array.own_type()) }
        NodeTypes::Leaf(_) => (),
    }
}

// And with that of the node below.
fn has_polynomial_below(types: &NodeTypes)
    ensures { spec.HasPolynomial (spec.inner_type (annotation_of types.now)) }
{
    if let NodeTypes::One(_, node) = types {
        if let NodeTypes::One(_, array) = &**node {
            has_polynomial(array.own_type());
        }
    }
}

/// The lengths that the rules speak of are polynomials.
pub fn has_polynomials(context: &Context)
    ensures { spec.HasPolynomials (context_of context.now) }
{
    has_polynomial_at(&context.types);
    has_polynomial_below(&context.types);
}

// Whether the binder's type is u32.
#[tactic(auto, using(crate::proofs::Binders::binder_type))]
fn is_u32(binders: &[Ty], binder: u32) -> bool
    ensures { result ≡ spec.is_u32 (slice_get (map ty_of binders.now) binder) }
{
    match binders.get(binder as usize) {
        Some(Ty::Number) => true,
        Some(Ty::Vector | Ty::Pair(_, _) | Ty::Array(_, _)) | None => false,
    }
}

fn is_lane_operator(operator: Operator) -> bool
    ensures { result ≡ typing.is_lane_operator operator }
{
    match operator {
        Operator::Regrouping(_) | Operator::Sub | Operator::Shl | Operator::Shr => true,
        Operator::Lt | Operator::Eq => false,
    }
}

// Whether a map's body is made of its binder, others of type u32, numbers, and operators that act
// lane by lane.
fn made_of_lanes(binders: &[Ty], body: &Term) -> bool
    ensures { result ≡ spec.made_of_lanes (map ty_of binders.now) (tree_of body.now) }
{
    match body {
        Term::Variable(n) => *n == 0 || is_u32(binders, *n - 1),
        Term::Number(_) => true,
        Term::Unary(UnaryForm::Div(_) | UnaryForm::Rem(_), a) => made_of_lanes(binders, a),
        Term::Binary(BinaryForm::Operator(operator), a, b) => {
            is_lane_operator(*operator) && made_of_lanes(binders, a) && made_of_lanes(binders, b)
        }
        _ => false,
    }
}

// Whether such a body names its binder.
fn names_binder(body: &Term) -> bool
    ensures { result ≡ spec.names_binder (tree_of body.now) }
{
    match body {
        Term::Variable(n) => *n == 0,
        Term::Unary(_, a) => names_binder(a),
        Term::Binary(_, a, b) => names_binder(a) || names_binder(b),
        _ => false,
    }
}

fn holds_numbers(ty: &Ty) -> bool
    ensures { result ≡ spec.holds_numbers (ty_of ty.now) }
{
    match ty {
        Ty::Array(element, _) => match &**element {
            Ty::Number => true,
            Ty::Vector | Ty::Pair(_, _) | Ty::Array(_, _) => false,
        },
        Ty::Number | Ty::Vector | Ty::Pair(_, _) => false,
    }
}

// Whether the number divides each coefficient.
fn divides(length: &[Monomial]) -> bool
    ensures { result ≡ spec.divides 4 length.now }
{
    match length {
        [] => true,
        [first, rest @ ..] => first.coefficient % 4 == 0 && divides(rest),
    }
}

// Whether 4 divides an array's length.
fn divides_length(ty: &Ty) -> bool
    ensures { result ≡ spec.divides 4 (spec.length_in (ty_of ty.now)) }
{
    match ty {
        Ty::Array(_, length) => divides(length.as_slice()),
        Ty::Number | Ty::Vector | Ty::Pair(_, _) => true,
    }
}

// What is false of a map over an array of this type.
fn false_of(ty: &Ty, context: &Context, body: &Term) -> Option<Condition>
    ensures { result ≡ spec.false_of (spec.holds_numbers (ty_of ty.now)
        && (spec.names_binder (tree_of body.now)
        && spec.made_of_lanes (context_of context.now).binders (tree_of body.now)))
        (spec.divides 4 (spec.length_in (ty_of ty.now))) }
{
    if !(holds_numbers(ty) && names_binder(body) && made_of_lanes(&context.binders, body)) {
        Some(Condition::Lanes)
    } else if !divides_length(ty) {
        Some(Condition::Divides)
    } else {
        None
    }
}

// What is false of the map.
fn false_side(context: &Context, body: &Term) -> Option<Condition>
    ensures { result ≡ spec.false_side (context_of context.now) (tree_of body.now) }
{
    match &context.types {
        NodeTypes::One(_, array) | NodeTypes::Two(_, array, _) | NodeTypes::Three(_, array, _, _) =>
            { false_of(array.own_type(), context, body) }
        NodeTypes::Leaf(_) => Some(Condition::Lanes),
    }
}

// The map of the array's vectors, as an array of numbers.
fn vectored(alloc: Global, array: Term, body: Term) -> Result<Term, AllocError>
    ensures { IfOk result (λ t. tree_of t
        ≡ spec.as_scalar (Map Plain (spec.as_vector (tree_of array)) (tree_of body))) }
{
    let vectors = Term::unary(alloc, UnaryForm::Layout(Layout::AsVector), array)?;
    let mapped = Term::map(alloc, MapKind::Plain, vectors, body)?;
    Term::unary(alloc, UnaryForm::Layout(Layout::AsScalar), mapped)
}

/// The map run by vectors of four.
pub fn by_fours(alloc: Global, term: Term, context: &Context) -> Result<Term, Refused>
    ensures { IsAnswer (spec.by_fours (context_of context.now) (tree_of term)) term result }
{
    match term {
        Term::Map(MapKind::Plain, array, body) => match false_side(context, &body) {
            None => Ok(vectored(alloc, Box::into_inner(array), Box::into_inner(body))?),
            Some(side) => Err(Refused::Side(side, Term::Map(MapKind::Plain, array, body))),
        },
        other => Err(Refused::Shape(other)),
    }
}

// Whether it is the vectors of vectors' numbers.
fn are_vectors_again(term: &Term) -> bool
    ensures { MatchBool result (spec.AreVectorsAgain (tree_of term.now))
        (spec.vectors_again (tree_of term.now) ≡ NoShape) }
{
    match term {
        Term::Unary(UnaryForm::Layout(Layout::AsVector), numbers) => match &**numbers {
            Term::Unary(UnaryForm::Layout(Layout::AsScalar), _) => true,
            _ => false,
        },
        _ => false,
    }
}

// The vectors that the numbers are of.
fn vectors_of(term: Term) -> Box<Term>
    requires { spec.AreNumbers (tree_of term) }
    ensures { tree_of term ≡ spec.as_scalar (tree_of result.value) }
{
    match term {
        Term::Unary(UnaryForm::Layout(Layout::AsScalar), vectors) => vectors,
        _ => unreachable!(),
    }
}

// The vectors whose numbers these are the vectors of.
fn those_vectors(term: Term) -> Term
    requires { spec.AreVectorsAgain (tree_of term) }
    ensures { spec.vectors_again (tree_of term) ≡ Becomes (tree_of result) }
{
    match term {
        Term::Unary(UnaryForm::Layout(Layout::AsVector), numbers) => {
            Box::into_inner(vectors_of(Box::into_inner(numbers)))
        }
        _ => unreachable!(),
    }
}

/// The vectors whose numbers these are the vectors of.
pub fn vectors_again(term: Term) -> Result<Term, Refused>
    ensures { IsAnswer (spec.vectors_again (tree_of term)) term result }
{
    if are_vectors_again(&term) {
        Ok(those_vectors(term))
    } else {
        Err(Refused::Shape(term))
    }
}
