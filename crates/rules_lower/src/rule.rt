//! The rules, applied.

ghost use Rattle.std.specs.Prelude.{◌≡◌, IfOk};
ghost use Rattle.lift_tree.specs.Tree.{Unary, tree_of};
ghost use Rattle.rewriting.specs.Around.{context_of};
ghost use Rattle.rewriting.specs.Answers.{IsAnswer};
ghost use Rattle.rewriting.specs.Keeps.{KeepsIn};
ghost use Rattle.rules_lower.specs.Rules.{answer, copied, cut_off, folded, mapped, on_array};

use crate::vectors::{by_fours, has_polynomials, vectors_again};
use lift_tree::term::{Dimension, FoldKind, Level, MapKind, Term, UnaryForm};
use lift_tree::typed::Context;
use rewriting::refused::{Condition, Refused};
use std::alloc::{AllocError, Global};

/// A rule that says how a term is run.
#[derive(Clone, Copy, PartialEq, Eq)]
pub enum Rule {
    /// `to-glb`, `to-wrg`, `to-lcl`: a map is run over the work-items of all groups, over the
    /// work-groups, or over the work-items of a group; with `1` behind the name along dimension 1.
    ToParallel(Level, Dimension),
    /// `to-seq`: a map is run by one work-item.
    ToSequential,
    /// `fold-seq`: a fold is run by one work-item.
    FoldSequential,
    /// `local`: an array is kept in local memory.
    Local,
    /// `private`: an array is kept in private memory.
    Private,
    /// `local-copy`: an array is copied to local memory by the work-items of a group.
    LocalCopy,
    /// `private-copy`: an array is copied to private memory by one work-item.
    PrivateCopy,
    /// `then`: an array is made by a kernel of its own, before those that read it.
    Then,
    /// `vector`: a map of numbers is run by vectors of four.
    Vector,
    /// `vector-scalar`: the vectors of vectors' numbers are those vectors.
    VectorScalar,
}

/// The term that the rule makes of the term, which has the term's type, and its value at all sizes,
/// inputs and values of binders.
///
/// `Shape` comes exactly where the rule wants a plain map or fold and the term is none, and
/// `Side` exactly where it wants an array and the term is none, or, for `then`, an array whose
/// pairs hold numbers only, with no binder around it, or, for `vector`, a body that acts lane by
/// lane on an array of numbers, whose length 4 divides; both hand the term back unchanged. The
/// context is that of the term's place.
#[tactic(auto, using(crate::proofs::Kept::lowering_keeps))]
pub fn apply(alloc: Global, rule: &Rule, term: Term, context: &Context) -> Result<Term, Refused>
    ensures answer { IsAnswer
        (answer rule.now (context_of context.now) (tree_of term)) term result }
    ensures keeps { IfOk result (λ u. KeepsIn (context_of context.now) (tree_of term) (tree_of u)) }
{
    has_polynomials(context);
    match *rule {
        Rule::ToParallel(level, dimension) => mapped(term, MapKind::Over(level, dimension)),
        Rule::ToSequential => mapped(term, MapKind::Sequential),
        Rule::FoldSequential => folded(term),
        Rule::Local => kept(alloc, UnaryForm::ToLocal, term, context),
        Rule::Private => kept(alloc, UnaryForm::ToPrivate, term, context),
        Rule::LocalCopy => copied(
            alloc,
            UnaryForm::ToLocal,
            MapKind::Over(Level::Items, Dimension::X),
            term,
            context,
        ),
        Rule::PrivateCopy => copied(
            alloc,
            UnaryForm::ToPrivate,
            MapKind::Sequential,
            term,
            context,
        ),
        Rule::Then => cut_off(alloc, term, context),
        Rule::Vector => by_fours(alloc, term, context),
        Rule::VectorScalar => vectors_again(term),
    }
}

// The plain map, run so.
fn mapped(term: Term, kind: MapKind) -> Result<Term, Refused>
    ensures { IsAnswer (mapped kind (tree_of term)) term result }
{
    match term {
        Term::Map(MapKind::Plain, array, body) => Ok(Term::Map(kind, array, body)),
        other => Err(Refused::Shape(other)),
    }
}

// The plain fold, run by one work-item.
fn folded(term: Term) -> Result<Term, Refused>
    ensures { IsAnswer (folded (tree_of term)) term result }
{
    match term {
        Term::Fold(FoldKind::Plain, array, start, body) => {
            Ok(Term::Fold(FoldKind::Sequential, array, start, body))
        }
        other => Err(Refused::Shape(other)),
    }
}

// The array, kept so.
fn kept(alloc: Global, form: UnaryForm, term: Term, context: &Context) -> Result<Term, Refused>
    ensures { IsAnswer (on_array (context_of context.now) (Unary form (tree_of term))) term result }
{
    if context.types.own_type().is_array() {
        Ok(Term::unary(alloc, form, term)?)
    } else {
        Err(Refused::Side(Condition::Array, term))
    }
}

// The array, copied by a map that is run so, and kept so.
fn copied(
    alloc: Global,
    form: UnaryForm,
    kind: MapKind,
    term: Term,
    context: &Context,
) -> Result<Term, Refused>
    ensures { IsAnswer
        (on_array (context_of context.now) (copied form kind (tree_of term))) term result }
{
    if context.types.own_type().is_array() {
        Ok(copy_of(alloc, form, kind, term)?)
    } else {
        Err(Refused::Side(Condition::Array, term))
    }
}

// The array, made by a kernel of its own.
fn cut_off(alloc: Global, term: Term, context: &Context) -> Result<Term, Refused>
    ensures { IsAnswer (cut_off (context_of context.now) (tree_of term)) term result }
{
    let ty = context.types.own_type();
    if !ty.is_array() {
        return Err(Refused::Side(Condition::Array, term));
    }
    if !ty.holds_elements() {
        return Err(Refused::Side(Condition::Whole, term));
    }
    match context.binders.as_slice() {
        [] => Ok(Term::unary(alloc, UnaryForm::Then, term)?),
        _ => Err(Refused::Side(Condition::Closed, term)),
    }
}

fn copy_of(alloc: Global, form: UnaryForm, kind: MapKind, array: Term) -> Result<Term, AllocError>
    ensures { IfOk result (λ t. tree_of t ≡ copied form kind (tree_of array)) }
{
    let copy = Term::map(alloc, kind, array, Term::Variable(0))?;
    Term::unary(alloc, form, copy)
}
