//! A let's value in its body's place, and a map that copies.

ghost use Rattle.std.specs.Prelude.{◌≡◌, MatchBool};
ghost use Rattle.lift_tree.specs.Tree.{tree_of};
ghost use Rattle.lift_tree.specs.Renumbering.{IsRenumberable};
ghost use Rattle.rewriting.specs.Around.{context_of};
ghost use Rattle.rewriting.specs.Answers.{IsAnswer, NoShape};
ghost use Rattle.rules_algebra.specs.Shapes.{IsLet};
ghost use Rattle.rules_algebra.specs.Inlining;

use crate::parts::let_parts;
use lift_tree::renumber::substituted;
use lift_tree::term::{MapKind, Term};
use lift_tree::typed::Context;
use rewriting::{Condition, Refused};
use std::alloc::Global;

// A let's body with the value for its binder.
pub fn let_inline(alloc: Global, term: Term) -> Result<Term, Refused>
    requires { IsRenumberable (tree_of term) }
    ensures { IsAnswer (Inlining.let_inline (tree_of term)) term result }
{
    if !is_let(&term) {
        return Err(Refused::Shape(term));
    }
    let (value, body) = let_parts(term);
    Ok(substituted(alloc, &body, &value)?)
}

fn is_let(term: &Term) -> bool
    ensures { MatchBool result (IsLet (tree_of term.now))
        (Inlining.let_inline (tree_of term.now) ≡ NoShape) }
{
    match term {
        Term::Let(_, _) => true,
        _ => false,
    }
}

// A map over an array that copies it.
pub fn copy(alloc: Global, term: Term, context: &Context) -> Result<Term, Refused>
    ensures { IsAnswer (Inlining.copy (context_of context.now) (tree_of term)) term result }
{
    if !context.types.own_type().is_array() {
        return Err(Refused::Side(Condition::Array, term));
    }
    Ok(Term::map(alloc, MapKind::Plain, term, Term::Variable(0))?)
}
