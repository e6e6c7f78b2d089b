//! The rules applied.

ghost use Rattle.std.specs.Prelude.{◌≡◌, ◌+◌, ◌-◌, Some, IfOk};
ghost use Rattle.lift_tree.specs.Tree.{tree_of};
ghost use Rattle.lift_tree.specs.Renumbering.{IsRenumberable};
ghost use Rattle.rewriting.specs.Around.{context_of};
ghost use Rattle.rewriting.specs.Answers.{IsAnswer};
ghost use Rattle.rewriting.specs.Keeps.{KeepsIn};
ghost use Rattle.rules_split.specs.Rules.{answer, split_map, split_reduce, stride_reduce, reduce_fold, tile_slide, reducer_of};

use crate::building::{folded, in_pieces, mapped_by_rows, reduced_by_rows, tiled, transposed};
use crate::rule::Rule;
use crate::sides::{false_side_of_pieces, false_side_of_tiles};
use lift_tree::term::{BinaryForm, MapKind, Term, UnaryForm};
use lift_tree::typed::Context;
use rewriting::Refused;
use scalar_ops::regroup::{Add, And, Max, Min, Mul, Or, Xor};
use scalar_ops::{Reducer, Regroup};
use std::alloc::Global;

/// The term rewritten by the rule, in the context of its place. Where the node's first child is no
/// array, its length counts as 0.
///
/// `Shape` comes exactly where the term isn't of the row's shape, and `Side` exactly where it is,
/// with the first false condition; both hand the term back. What is given has the term's type, up
/// to limits, and its value.
pub fn apply(alloc: Global, rule: &Rule, term: Term, context: &Context) -> Result<Term, Refused>
    requires { IsRenumberable (tree_of term) }
    ensures answer { IsAnswer
        (answer rule.now (context_of context.now) (tree_of term)) term result }
    ensures keeps { IfOk result (λ t. KeepsIn (context_of context.now) (tree_of term) (tree_of t)) }
{
    match *rule {
        Rule::SplitMap(k) => split_map(alloc, k, term, context),
        Rule::SplitReduce(k) => split_reduce(alloc, k, term, context),
        Rule::StrideReduce(k) => stride_reduce(alloc, k, term, context),
        Rule::ReduceFold => reduce_fold(alloc, term, context),
        Rule::TileSlide(v) => tile_slide(alloc, v, term, context),
    }
}

fn split_map(alloc: Global, k: u32, term: Term, context: &Context) -> Result<Term, Refused>
    requires { IsRenumberable (tree_of term) }
    ensures answer { IsAnswer (split_map k (context_of context.now) (tree_of term)) term result }
    ensures keeps { IfOk result (λ t. KeepsIn (context_of context.now) (tree_of term) (tree_of t)) }
{
    match term {
        Term::Map(MapKind::Plain, array, body) => {
            match false_side_of_pieces(alloc, k, &context.types) {
                None => Ok(mapped_by_rows(alloc, in_pieces(alloc, k, array)?, &body)?),
                Some(side) => Err(Refused::Side(side, Term::Map(MapKind::Plain, array, body))),
            }
        }
        other => Err(Refused::Shape(other)),
    }
}

// The operator of a reduction.
fn reducer_of(term: &Term) -> Option<Reducer>
    ensures { result ≡ reducer_of (tree_of term.now) }
{
    match term {
        Term::Binary(BinaryForm::Reduce(reducer), _, _) => Some(*reducer),
        _ => None,
    }
}

fn split_reduce(alloc: Global, k: u32, term: Term, context: &Context) -> Result<Term, Refused>
    ensures answer { IsAnswer (split_reduce k (context_of context.now) (tree_of term)) term result }
    ensures keeps { IfOk result (λ t. KeepsIn (context_of context.now) (tree_of term) (tree_of t)) }
{
    match reducer_of(&term) {
        Some(Reducer::Add) => split_reduce_by::<Add>(alloc, k, term, context),
        Some(Reducer::Mul) => split_reduce_by::<Mul>(alloc, k, term, context),
        Some(Reducer::Min) => split_reduce_by::<Min>(alloc, k, term, context),
        Some(Reducer::Max) => split_reduce_by::<Max>(alloc, k, term, context),
        Some(Reducer::And) => split_reduce_by::<And>(alloc, k, term, context),
        Some(Reducer::Or) => split_reduce_by::<Or>(alloc, k, term, context),
        Some(Reducer::Xor) => split_reduce_by::<Xor>(alloc, k, term, context),
        None => Err(Refused::Shape(term)),
    }
}

// By the laws of `Regroup` alone.
fn split_reduce_by<R: Regroup>(
    alloc: Global,
    k: u32,
    term: Term,
    context: &Context,
) -> Result<Term, Refused>
    requires { reducer_of (tree_of term) ≡ Some R.operator }
    ensures answer { IsAnswer (split_reduce k (context_of context.now) (tree_of term)) term result }
    ensures keeps { IfOk result (λ t. KeepsIn (context_of context.now) (tree_of term) (tree_of t)) }
{
    if let Some(side) = false_side_of_pieces(alloc, k, &context.types) {
        return Err(Refused::Side(side, term));
    }
    let Term::Binary(form, array, start) = term else {
        unreachable!()
    };
    let rows = in_pieces(alloc, k, array)?;
    Ok(reduced_by_rows::<R>(alloc, form, rows, start)?)
}

fn stride_reduce(alloc: Global, k: u32, term: Term, context: &Context) -> Result<Term, Refused>
    ensures answer { IsAnswer
        (stride_reduce k (context_of context.now) (tree_of term)) term result }
    ensures keeps { IfOk result (λ t. KeepsIn (context_of context.now) (tree_of term) (tree_of t)) }
{
    match reducer_of(&term) {
        Some(Reducer::Add) => stride_reduce_by::<Add>(alloc, k, term, context),
        Some(Reducer::Mul) => stride_reduce_by::<Mul>(alloc, k, term, context),
        Some(Reducer::Min) => stride_reduce_by::<Min>(alloc, k, term, context),
        Some(Reducer::Max) => stride_reduce_by::<Max>(alloc, k, term, context),
        Some(Reducer::And) => stride_reduce_by::<And>(alloc, k, term, context),
        Some(Reducer::Or) => stride_reduce_by::<Or>(alloc, k, term, context),
        Some(Reducer::Xor) => stride_reduce_by::<Xor>(alloc, k, term, context),
        None => Err(Refused::Shape(term)),
    }
}

// By the laws of `Regroup` alone, the commutative one among them.
fn stride_reduce_by<R: Regroup>(
    alloc: Global,
    k: u32,
    term: Term,
    context: &Context,
) -> Result<Term, Refused>
    requires { reducer_of (tree_of term) ≡ Some R.operator }
    ensures answer { IsAnswer
        (stride_reduce k (context_of context.now) (tree_of term)) term result }
    ensures keeps { IfOk result (λ t. KeepsIn (context_of context.now) (tree_of term) (tree_of t)) }
{
    if let Some(side) = false_side_of_pieces(alloc, k, &context.types) {
        return Err(Refused::Side(side, term));
    }
    let Term::Binary(form, array, start) = term else {
        unreachable!()
    };
    let rows = transposed(alloc, in_pieces(alloc, k, array)?)?;
    Ok(reduced_by_rows::<R>(alloc, form, rows, start)?)
}

fn reduce_fold(alloc: Global, term: Term, context: &Context) -> Result<Term, Refused>
    ensures answer { IsAnswer (reduce_fold (tree_of term)) term result }
    ensures keeps { IfOk result (λ t. KeepsIn (context_of context.now) (tree_of term) (tree_of t)) }
{
    match term {
        Term::Binary(BinaryForm::Reduce(reducer), array, start) => {
            Ok(folded(alloc, reducer, array, start)?)
        }
        other => Err(Refused::Shape(other)),
    }
}

// The length of tiles that begin v elements apart, so that no piece of `size` elements, each `step`
// after the last, is missed between them.
fn tile_length(size: u32, step: u32, v: u32) -> u64
    ensures { result ≡ v + size - step }
{
    (v as u64 + size as u64).saturating_sub(step as u64)
}

fn tile_slide(alloc: Global, v: u32, term: Term, context: &Context) -> Result<Term, Refused>
    ensures answer { IsAnswer (tile_slide v (context_of context.now) (tree_of term)) term result }
    ensures keeps { IfOk result (λ t. KeepsIn (context_of context.now) (tree_of term) (tree_of t)) }
{
    match term {
        Term::Unary(UnaryForm::Slide(size, step), array) => {
            let tile = tile_length(size, step, v);
            match false_side_of_tiles(alloc, step, tile, v, context) {
                None => Ok(tiled(alloc, size, step, tile as u32, v, array)?),
                Some(side) => Err(Refused::Side(
                    side,
                    Term::Unary(UnaryForm::Slide(size, step), array),
                )),
            }
        }
        other => Err(Refused::Shape(other)),
    }
}
