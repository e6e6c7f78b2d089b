//! Rules on join, split and transpose.

ghost use Rattle.std.specs.Prelude.{◌≡◌, MatchBool, IfOk, true};
ghost use Rattle.lift_tree.specs.Tree.{tree_of};
ghost use Rattle.lift_tree.specs.Renumbering.{IsRenumberable};
ghost use Rattle.rewriting.specs.Answers.{IsAnswer, Becomes, NoShape};
ghost use Rattle.rules_algebra.specs.Shapes.{Over, MapsRowsOf, IsPlainMap, IsJoin, IsSplit, IsTranspose, IsRowMap, IsLowered, body as body_of};
ghost use Rattle.lift_tree.specs.Annotations.{annotation_of, type_in};
ghost use Rattle.rewriting.specs.Around.{Around, context_of};
ghost use Rattle.rewriting.specs.Keeps.{KeepsIn};
ghost use Rattle.rules_algebra.specs.Layouts;

use crate::node_types::{child, has_polynomial_below, have_same_rows};
use crate::parts::{boxed, joined, map_parts, split_parts, transposed};
use lift_tree::layout::Layout;
use lift_tree::renumber::{dropped, raised};
use lift_tree::term::{MapKind, Term, UnaryForm};
use lift_tree::typed::{Context, NodeTypes};
use rewriting::{Condition, Refused};
use std::alloc::{AllocError, Global};

// The rows of a transposition of a transposition.
pub fn transpose_transpose(term: Term) -> Result<Term, Refused>
    ensures { IsAnswer (Layouts.transpose_transpose (tree_of term)) term result }
{
    if !is_transposed_twice(&term) {
        return Err(Refused::Shape(term));
    }
    let columns = transposed(term);
    Ok(Box::into_inner(transposed(Box::into_inner(columns))))
}

fn is_transposed_twice(term: &Term) -> bool
    ensures { MatchBool result (Over IsTranspose IsTranspose (tree_of term.now))
        (Layouts.transpose_transpose (tree_of term.now) ≡ NoShape) }
{
    match term {
        Term::Unary(UnaryForm::Layout(Layout::Transpose), columns) => match &**columns {
            Term::Unary(UnaryForm::Layout(Layout::Transpose), _) => true,
            _ => false,
        },
        _ => false,
    }
}

// A map over joined rows, row by row.
pub fn map_join(alloc: Global, term: Term) -> Result<Term, Refused>
    requires { IsRenumberable (tree_of term) }
    ensures { IsAnswer (Layouts.map_join (tree_of term)) term result }
{
    if !is_map_of_join(&term) {
        return Err(Refused::Shape(term));
    }
    let (array, f) = map_parts(term);
    let rows = joined(Box::into_inner(array));
    let f = boxed(alloc, raised(alloc, &f, 1)?)?;
    let row = boxed(alloc, Term::Variable(0))?;
    let body = boxed(alloc, Term::Map(MapKind::Plain, row, f))?;
    let mapped = boxed(alloc, Term::Map(MapKind::Plain, rows, body))?;
    Ok(Term::Unary(UnaryForm::Layout(Layout::Join), mapped))
}

fn is_map_of_join(term: &Term) -> bool
    ensures { MatchBool result (Over IsPlainMap IsJoin (tree_of term.now))
        (Layouts.map_join (tree_of term.now) ≡ NoShape) }
{
    match term {
        Term::Map(MapKind::Plain, array, _) => match &**array {
            Term::Unary(UnaryForm::Layout(Layout::Join), _) => true,
            _ => false,
        },
        _ => false,
    }
}

// The array that is split and joined again.
pub fn join_split(term: Term, context: &Context) -> Result<Term, Refused>
    ensures answer { IsAnswer (Layouts.join_split (tree_of term)) term result }
    ensures keeps { IfOk result (λ t. KeepsIn (context_of context.now) (tree_of term) (tree_of t)) }
{
    if !is_join_of_split(&term) {
        return Err(Refused::Shape(term));
    }
    // A polynomial is its quotient times the divisor.
    has_polynomial_below(&context.types);
    Ok(unsplit(term))
}

fn unsplit(term: Term) -> Term
    requires { Over IsJoin IsSplit (tree_of term) }
    ensures { Layouts.join_split (tree_of term) ≡ Becomes (tree_of result) }
{
    let (_length, xs) = split_parts(Box::into_inner(joined(term)));
    Box::into_inner(xs)
}

fn is_join_of_split(term: &Term) -> bool
    ensures { MatchBool result (Over IsJoin IsSplit (tree_of term.now))
        (Layouts.join_split (tree_of term.now) ≡ NoShape) }
{
    match term {
        Term::Unary(UnaryForm::Layout(Layout::Join), pieces) => match &**pieces {
            Term::Unary(UnaryForm::Layout(Layout::Split(_)), _) => true,
            _ => false,
        },
        _ => false,
    }
}

// The rows that are joined and split again, where the pieces are as long as they.
pub fn split_join(term: Term, context: &Context) -> Result<Term, Refused>
    ensures answer { IsAnswer
        (Layouts.split_join (context_of context.now) (tree_of term)) term result }
    ensures keeps { IfOk result (λ t. KeepsIn (context_of context.now) (tree_of term) (tree_of t)) }
{
    if !is_split_of_join(&term) {
        return Err(Refused::Shape(term));
    }
    if !are_as_long(&context.types) {
        return Err(Refused::Side(Condition::Same, term));
    }
    // A polynomial is its product with the divisor, divided again.
    has_polynomial_below(&context.types);
    Ok(unjoined(term))
}

// Whether the rows that are joined are as long as the pieces.
fn are_as_long(types: &NodeTypes) -> bool
    ensures { result ≡ Layouts.same_lengths
        (Layouts.row_length (type_in (Layouts.child (Layouts.child (annotation_of types.now)))))
        (Layouts.row_length (type_in (annotation_of types.now))) }
{
    have_same_rows(child(child(types)).own_type(), types.own_type())
}

fn unjoined(term: Term) -> Term
    requires { Over IsSplit IsJoin (tree_of term) }
    ensures { (a : Around)
        → Layouts.same_lengths
        (Layouts.row_length (type_in (Layouts.child (Layouts.child a.types))))
        (Layouts.row_length (type_in a.types)) ≡ true
        → Layouts.split_join a (tree_of term) ≡ Becomes (tree_of result) }
{
    let (_length, array) = split_parts(term);
    Box::into_inner(joined(Box::into_inner(array)))
}

fn is_split_of_join(term: &Term) -> bool
    ensures { MatchBool result (Over IsSplit IsJoin (tree_of term.now))
        ((a : Around) → Layouts.split_join a (tree_of term.now) ≡ NoShape) }
{
    match term {
        Term::Unary(UnaryForm::Layout(Layout::Split(_)), array) => match &**array {
            Term::Unary(UnaryForm::Layout(Layout::Join), _) => true,
            _ => false,
        },
        _ => false,
    }
}

// A map over the elements of each piece, before the array is split.
pub fn map_split(alloc: Global, term: Term) -> Result<Term, Refused>
    requires { IsRenumberable (tree_of term) }
    ensures { IsAnswer (Layouts.map_split (tree_of term)) term result }
{
    if !maps_pieces(&term) {
        return Err(Refused::Shape(term));
    }
    let Some(f) = without_row(alloc, &term)? else {
        return Err(Refused::Side(Condition::Mentions, term));
    };
    let (array, _rows) = map_parts(term);
    let (length, xs) = split_parts(Box::into_inner(array));
    let f = boxed(alloc, f)?;
    let mapped = boxed(alloc, Term::Map(MapKind::Plain, xs, f))?;
    Ok(Term::Unary(UnaryForm::Layout(Layout::Split(length)), mapped))
}

fn maps_pieces(term: &Term) -> bool
    ensures { MatchBool result (MapsRowsOf IsSplit (tree_of term.now))
        (Layouts.map_split (tree_of term.now) ≡ NoShape) }
{
    match term {
        Term::Map(MapKind::Plain, array, rows) => match &**array {
            Term::Unary(UnaryForm::Layout(Layout::Split(_)), _) => is_row_map(rows),
            _ => false,
        },
        _ => false,
    }
}

// Whether the term is a map over the nearest binder.
fn is_row_map(term: &Term) -> bool
    ensures { MatchBool result (IsRowMap (tree_of term.now)) (IsRowMap (tree_of term.now) → ⊥) }
{
    match term {
        Term::Map(MapKind::Plain, row, _) => match &**row {
            Term::Variable(0) => true,
            _ => false,
        },
        _ => false,
    }
}

// The body of a map over each row, for one binder fewer, the row; none where it names the row.
fn without_row(alloc: Global, term: &Term) -> Result<Option<Term>, AllocError>
    requires renumberable { IsRenumberable (tree_of term.now) }
    requires map { IsPlainMap (tree_of term.now) }
    requires rows { IsRowMap (body_of (tree_of term.now)) }
    ensures { IfOk result (IsLowered (body_of (body_of (tree_of term.now)))) }
{
    match term {
        Term::Map(_, _, rows) => match &**rows {
            Term::Map(_, _, f) => without_second(alloc, f),
            _ => unreachable!(),
        },
        _ => unreachable!(),
    }
}

// The term for one binder fewer, the second nearest; none where it names that binder.
fn without_second(alloc: Global, term: &Term) -> Result<Option<Term>, AllocError>
    requires { IsRenumberable (tree_of term.now) }
    ensures { IfOk result (IsLowered (tree_of term.now)) }
{
    dropped(alloc, term, 1)
}

// A map over the elements of each column, before the columns are made.
pub fn map_transpose(alloc: Global, term: Term) -> Result<Term, Refused>
    requires { IsRenumberable (tree_of term) }
    ensures { IsAnswer (Layouts.map_transpose (tree_of term)) term result }
{
    if !maps_columns(&term) {
        return Err(Refused::Shape(term));
    }
    if without_row(alloc, &term)?.is_none() {
        return Err(Refused::Side(Condition::Mentions, term));
    }
    let (array, body) = map_parts(term);
    let rows = transposed(Box::into_inner(array));
    let mapped = boxed(alloc, Term::Map(MapKind::Plain, rows, body))?;
    Ok(Term::Unary(UnaryForm::Layout(Layout::Transpose), mapped))
}

fn maps_columns(term: &Term) -> bool
    ensures { MatchBool result (MapsRowsOf IsTranspose (tree_of term.now))
        (Layouts.map_transpose (tree_of term.now) ≡ NoShape) }
{
    match term {
        Term::Map(MapKind::Plain, array, rows) => match &**array {
            Term::Unary(UnaryForm::Layout(Layout::Transpose), _) => is_row_map(rows),
            _ => false,
        },
        _ => false,
    }
}
