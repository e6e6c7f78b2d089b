//! Rules that join two loops into one.

ghost use Rattle.std.specs.Prelude.{◌≡◌, MatchBool, IfOk};
ghost use Rattle.lift_tree.specs.Tree.{tree_of, Let};
ghost use Rattle.lift_tree.specs.Renumbering.{IsRenumberable, raise};
ghost use Rattle.rewriting.specs.Answers.{IsAnswer, NoShape};
ghost use Rattle.rules_algebra.specs.Shapes.{Over, IsPlainMap, IsPlainFold};
ghost use Rattle.rules_algebra.specs.Fusing;

use crate::parts::{boxed, fold_parts, map_parts};
use lift_tree::renumber::raised;
use lift_tree::term::{FoldKind, MapKind, Term};
use rewriting::Refused;
use std::alloc::{AllocError, Global};

// Two maps as one.
pub fn fuse_map(alloc: Global, term: Term) -> Result<Term, Refused>
    requires { IsRenumberable (tree_of term) }
    ensures { IsAnswer (Fusing.fuse_map (tree_of term)) term result }
{
    if !is_map_of_map(&term) {
        return Err(Refused::Shape(term));
    }
    let (array, f) = map_parts(term);
    let (xs, g) = map_parts(Box::into_inner(array));
    Ok(Term::Map(MapKind::Plain, xs, bound(alloc, g, &f)?))
}

fn is_map_of_map(term: &Term) -> bool
    ensures { MatchBool result (Over IsPlainMap IsPlainMap (tree_of term.now))
        (Fusing.fuse_map (tree_of term.now) ≡ NoShape) }
{
    match term {
        Term::Map(MapKind::Plain, array, _) => match &**array {
            Term::Map(MapKind::Plain, _, _) => true,
            _ => false,
        },
        _ => false,
    }
}

// let y = g in f, under one binder more, the second nearest to f
fn bound(alloc: Global, g: Box<Term>, f: &Term) -> Result<Box<Term>, AllocError>
    requires { IsRenumberable (tree_of f.now) }
    ensures { IfOk result (λ b. tree_of b.value ≡ Let (tree_of g.value) (raise 1 (tree_of f.now))) }
{
    let f = boxed(alloc, raised(alloc, f, 1)?)?;
    boxed(alloc, Term::Let(g, f))
}

// A fold of a map as one fold.
pub fn fuse_fold(alloc: Global, term: Term) -> Result<Term, Refused>
    requires { IsRenumberable (tree_of term) }
    ensures { IsAnswer (Fusing.fuse_fold (tree_of term)) term result }
{
    if !is_fold_of_map(&term) {
        return Err(Refused::Shape(term));
    }
    let (array, start, f) = fold_parts(term);
    let (xs, g) = map_parts(Box::into_inner(array));
    let g = boxed(alloc, raised(alloc, &g, 1)?)?;
    Ok(Term::Fold(FoldKind::Plain, xs, start, bound(alloc, g, &f)?))
}

fn is_fold_of_map(term: &Term) -> bool
    ensures { MatchBool result (Over IsPlainFold IsPlainMap (tree_of term.now))
        (Fusing.fuse_fold (tree_of term.now) ≡ NoShape) }
{
    match term {
        Term::Fold(FoldKind::Plain, array, _, _) => match &**array {
            Term::Map(MapKind::Plain, _, _) => true,
            _ => false,
        },
        _ => false,
    }
}
