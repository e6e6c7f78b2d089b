//! Rules that move a map over padding.

ghost use Rattle.std.specs.Prelude.{◌≡◌, MatchBool};
ghost use Rattle.lift_tree.specs.Tree.{tree_of};
ghost use Rattle.rewriting.specs.Answers.{IsAnswer, NoShape};
ghost use Rattle.rules_algebra.specs.Shapes.{Over, IsPlainMap, IsPad};
ghost use Rattle.rules_algebra.specs.Padding;

use crate::parts::{boxed, map_parts, pad_parts};
use lift_tree::term::{MapKind, Term, UnaryForm};
use rewriting::Refused;
use std::alloc::Global;

// Padding before mapping.
pub fn pad_map(alloc: Global, term: Term) -> Result<Term, Refused>
    ensures { IsAnswer (Padding.pad_map (tree_of term)) term result }
{
    if !is_pad_of_map(&term) {
        return Err(Refused::Shape(term));
    }
    let (before, after, array) = pad_parts(term);
    let (xs, f) = map_parts(Box::into_inner(array));
    let padded = boxed(alloc, Term::Unary(UnaryForm::Pad(before, after), xs))?;
    Ok(Term::Map(MapKind::Plain, padded, f))
}

fn is_pad_of_map(term: &Term) -> bool
    ensures { MatchBool result (Over IsPad IsPlainMap (tree_of term.now))
        (Padding.pad_map (tree_of term.now) ≡ NoShape) }
{
    match term {
        Term::Unary(UnaryForm::Pad(_, _), array) => match &**array {
            Term::Map(MapKind::Plain, _, _) => true,
            _ => false,
        },
        _ => false,
    }
}

// Mapping before padding.
pub fn map_pad(alloc: Global, term: Term) -> Result<Term, Refused>
    ensures { IsAnswer (Padding.map_pad (tree_of term)) term result }
{
    if !is_map_of_pad(&term) {
        return Err(Refused::Shape(term));
    }
    let (array, f) = map_parts(term);
    let (before, after, xs) = pad_parts(Box::into_inner(array));
    let mapped = boxed(alloc, Term::Map(MapKind::Plain, xs, f))?;
    Ok(Term::Unary(UnaryForm::Pad(before, after), mapped))
}

fn is_map_of_pad(term: &Term) -> bool
    ensures { MatchBool result (Over IsPlainMap IsPad (tree_of term.now))
        (Padding.map_pad (tree_of term.now) ≡ NoShape) }
{
    match term {
        Term::Map(MapKind::Plain, array, _) => match &**array {
            Term::Unary(UnaryForm::Pad(_, _), _) => true,
            _ => false,
        },
        _ => false,
    }
}
