//! Which scalars of a binder's element a term names.

ghost use Rattle.std.specs.Prelude.{◌≡◌, ℕ, ◌+◌, ◌≤◌, [], min, IfOk};
ghost use Rattle.lift_tree.specs.Tree.{tree_of};
ghost use Rattle.lift_tree.specs.Types.{ty_of};
ghost use Rattle.lift_ir.specs.Lowering as spec;
ghost use Rattle.lift_ir.specs.Terms as terms;
ghost use Rattle.lowering.specs.Terms.{load_set_of};
ghost use Rattle.lowering.specs.Loads.{choices_of};

use crate::term::LoadSet;
use lift_tree::term::{Term, UnaryForm};
use lift_tree::ty::Ty;
use std::alloc::{AllocError, Global};

/// A chain of first and second, from the outermost.
#[derive(Clone, Copy)]
pub enum Chain<'c> {
    End,
    First(&'c Chain<'c>),
    Second(&'c Chain<'c>),
}

fn each(alloc: Global, left: LoadSet, right: LoadSet) -> Result<LoadSet, AllocError>
    ensures { IfOk result (λ s. load_set_of s ≡ terms.Each (load_set_of left) (load_set_of right)) }
{
    let left = Box::new(alloc, left)?;
    Ok(LoadSet::Each(left, Box::new(alloc, right)?))
}

// All scalars of an element.
fn all_scalars(alloc: Global, ty: &Ty) -> Result<LoadSet, AllocError>
    ensures { IfOk result (λ s. load_set_of s ≡ spec.all_scalars (ty_of ty.now)) }
{
    match ty {
        Ty::Number => Ok(LoadSet::Take),
        Ty::Vector => Ok(LoadSet::TakeFour),
        Ty::Pair(a, b) => {
            let a = all_scalars(alloc, a)?;
            each(alloc, a, all_scalars(alloc, b)?)
        }
        Ty::Array(_, _) => Ok(LoadSet::Skip),
    }
}

// All scalars of the part of an element that the chain takes.
fn reached(alloc: Global, ty: &Ty, chain: &Chain) -> Result<LoadSet, AllocError>
    ensures { IfOk result
        (λ s. load_set_of s ≡ spec.reached (ty_of ty.now) (choices_of chain.now)) }
{
    match (chain, ty) {
        (Chain::End, _) => all_scalars(alloc, ty),
        (Chain::First(rest), Ty::Pair(a, _)) => {
            each(alloc, reached(alloc, a, rest)?, LoadSet::Skip)
        }
        (Chain::Second(rest), Ty::Pair(_, b)) => {
            each(alloc, LoadSet::Skip, reached(alloc, b, rest)?)
        }
        _ => Ok(LoadSet::Skip),
    }
}

// What is in either.
fn merged(alloc: Global, one: LoadSet, other: LoadSet) -> Result<LoadSet, AllocError>
    ensures { IfOk result
        (λ s. load_set_of s ≡ spec.merged (load_set_of one) (load_set_of other)) }
{
    match (one, other) {
        (LoadSet::Skip, other) => Ok(other),
        (LoadSet::Take, _) => Ok(LoadSet::Take),
        (LoadSet::TakeFour, _) => Ok(LoadSet::TakeFour),
        (one, LoadSet::Skip) => Ok(one),
        (_, LoadSet::Take) => Ok(LoadSet::Take),
        (_, LoadSet::TakeFour) => Ok(LoadSet::TakeFour),
        (LoadSet::Each(a, b), LoadSet::Each(c, d)) => {
            let left = merged(alloc, Box::into_inner(a), Box::into_inner(c))?;
            each(
                alloc,
                left,
                merged(alloc, Box::into_inner(b), Box::into_inner(d))?,
            )
        }
    }
}

// The number of a binder under so many more. It stands still at 2^32, which no variable reaches.
fn under(number: u64, binders: u64) -> u64
    requires { binders ≤ 2 }
    ensures { (v : ℕ) → number ≡ min v 4294967296 → result ≡ min (v + binders) 4294967296 }
{
    (number.saturating_add(binders)).min(4294967296)
}

// What a term, below the chain, names of the binder of this number and type.
#[cycle(naming)]
fn named(
    alloc: Global,
    number: u64,
    ty: &Ty,
    chain: &Chain,
    term: &Term,
) -> Result<LoadSet, AllocError>
    ensures { IfOk result (λ s. (v : ℕ) → number ≡ min v 4294967296
        → load_set_of s ≡ spec.named v (ty_of ty.now) (choices_of chain.now) (tree_of term.now)) }
{
    match term {
        Term::Variable(variable) => {
            if *variable as u64 == number {
                reached(alloc, ty, chain)
            } else {
                Ok(LoadSet::Skip)
            }
        }
        Term::Number(_) | Term::Input(_) => Ok(LoadSet::Skip),
        Term::Unary(UnaryForm::First, a) => named(alloc, number, ty, &Chain::First(&*chain), a),
        Term::Unary(UnaryForm::Second, a) => named(alloc, number, ty, &Chain::Second(&*chain), a),
        Term::Unary(_, a) => named(alloc, number, ty, &Chain::End, a),
        Term::Binary(_, a, b) => named_in_two(alloc, number, ty, a, b, 0),
        Term::Select(a, b, c) => {
            let a = named(alloc, number, ty, &Chain::End, a)?;
            let rest = named_in_two(alloc, number, ty, b, c, 0)?;
            merged(alloc, a, rest)
        }
        Term::Let(a, body) | Term::Map(_, a, body) => {
            named_in_two(alloc, number, ty, a, body, 1)
        }
        Term::Fold(_, array, start, body) => {
            let array = named(alloc, number, ty, &Chain::End, array)?;
            let rest = named_in_two(alloc, number, ty, start, body, 2)?;
            merged(alloc, array, rest)
        }
    }
}

// What two terms name of it, the second under so many binders more.
#[cycle(naming)]
fn named_in_two(
    alloc: Global,
    number: u64,
    ty: &Ty,
    first: &Term,
    second: &Term,
    binders: u64,
) -> Result<LoadSet, AllocError>
    requires { binders ≤ 2 }
    ensures { IfOk result (λ s. (v : ℕ) → number ≡ min v 4294967296
        → load_set_of s ≡ spec.merged (spec.named v (ty_of ty.now) [] (tree_of first.now))
        (spec.named (v + binders) (ty_of ty.now) [] (tree_of second.now))) }
{
    let first = named(alloc, number, ty, &Chain::End, first)?;
    let second = named(alloc, under(number, binders), ty, &Chain::End, second)?;
    merged(alloc, first, second)
}

/// What the body of a map or fold names of the array's element, whose type is this.
pub fn loads(alloc: Global, element: &Ty, body: &Term) -> Result<LoadSet, AllocError>
    ensures { IfOk result
        (λ s. load_set_of s ≡ spec.named 0 (ty_of element.now) [] (tree_of body.now)) }
{
    named(alloc, 0, element, &Chain::End, body)
}
