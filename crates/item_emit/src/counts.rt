//! How many private variables and arrays a term needs. A count that would pass 2^32 - 1 is answered
//! as want of memory: what it counts takes more.

ghost use Rattle.std.specs.Prelude.{◌≡◌, ◌+◌, [], IfOk};
ghost use Rattle.lift_tree.specs.Types.{ty_of};
ghost use Rattle.lift_ir.specs.AtLaunch.{shape_of, ty_at};
ghost use Rattle.lift_ir.specs.Lowering.{element_ty};
ghost use Rattle.lift_ir.specs.Types as types;
ghost use Rattle.printed_form.specs.Counts as spec;
ghost use Rattle.array_views.specs.Counts.{count_of};
ghost use Rattle.lowering.specs.Terms.{load_set_of, term_of};
ghost use Rattle.item_emit.specs.Copies.{copy_arrays};

use array_views::{Count, held_count};
use lift_tree::ty::Ty;
use lowering::term::{Fold, LoadSet, Space, Term};
use std::alloc::AllocError;

/// The sum.
pub fn plus(a: u32, b: u32) -> Result<u32, AllocError>
    ensures { IfOk result (λ n. n ≡ a + b) }
{
    match a.checked_add(b) {
        Some(n) => Ok(n),
        None => Err(AllocError),
    }
}

/// How many components a type has.
pub fn width(ty: &Ty) -> Result<u32, AllocError>
    ensures shape { IfOk result (λ n. n ≡ types.width (shape_of (ty_of ty.now))) }
    ensures literal { IfOk result (λ n. n ≡ types.width (ty_at [] (ty_of ty.now))) }
{
    match ty {
        Ty::Number | Ty::Vector => Ok(1),
        Ty::Pair(a, b) => plus(width(a)?, width(b)?),
        Ty::Array(element, _) => width(element),
    }
}

/// How many variables the scalars and vectors of an element are loaded into.
pub fn load_count(loads: &LoadSet) -> Result<Count, AllocError>
    ensures { IfOk result (λ n. count_of n ≡ spec.load_count (load_set_of loads.now)) }
{
    match loads {
        LoadSet::Skip => Ok(Count::none()),
        LoadSet::Take => Ok(Count::one_word()),
        LoadSet::TakeFour => Ok(Count::one_four()),
        LoadSet::Each(left, right) => load_count(left)?.more(load_count(right)?),
    }
}

/// How many temporaries a new accumulator of this type goes through.
pub fn temporaries(ty: &Ty) -> Result<Count, AllocError>
    ensures { IfOk result (λ n. count_of n ≡ spec.temporaries (element_ty (ty_of ty.now))) }
{
    match ty {
        Ty::Number | Ty::Vector | Ty::Array(_, _) => Ok(Count::none()),
        Ty::Pair(a, b) => held_count(a)?.more(held_count(b)?),
    }
}

/// How many private variables are first assigned in an element term.
pub fn let_variables(term: &Term) -> Result<Count, AllocError>
    ensures { IfOk result (λ n. count_of n ≡ spec.let_variables (term_of term.now)) }
{
    match term {
        Term::Apply(_, a, b) | Term::Pair(a, b) | Term::Zip(a, b) => {
            let_variables(a)?.more(let_variables(b)?)
        }
        Term::ApplyLanes { left, right, .. } => let_variables(left)?.more(let_variables(right)?),
        Term::ApplyNumber(_, _, a)
        | Term::DivideLanes(_, _, a)
        | Term::First(a)
        | Term::Second(a) => let_variables(a),
        Term::Select(condition, yes, no) => {
            let rest = let_variables(yes)?.more(let_variables(no)?)?;
            let_variables(condition)?.more(rest)
        }
        Term::LetElement(ty, value, body) => {
            let rest = held_count(ty)?.more(let_variables(body)?)?;
            let_variables(value)?.more(rest)
        }
        Term::Literal(_)
        | Term::Bound(_)
        | Term::Source(_)
        | Term::Reshape(_, _)
        | Term::LetArray(_, _)
        | Term::Map(_)
        | Term::Fold(_)
        | Term::Store(_, _)
        | Term::Copy(_, _, _) => Ok(Count::none()),
    }
}

// How many private variables a fold has besides those of its array.
fn fold_variables(fold: &Fold) -> Result<Count, AllocError>
    ensures { IfOk result (λ n. let t = element_ty (ty_of fold.now.accumulator) in count_of n
        ≡ spec.more (spec.let_variables (term_of fold.now.start)) (spec.more (spec.held_count t)
        (spec.more (spec.load_count (load_set_of fold.now.loads))
        (spec.more (spec.let_variables (term_of fold.now.body)) (spec.temporaries t))))) }
{
    let rest = let_variables(&fold.body)?.more(temporaries(&fold.accumulator)?)?;
    let rest = load_count(&fold.loads)?.more(rest)?;
    let rest = held_count(&fold.accumulator)?.more(rest)?;
    let_variables(&fold.start)?.more(rest)
}

/// How many private variables a term in writing position, or an argument, has.
pub fn variable_count(term: &Term) -> Result<Count, AllocError>
    ensures { IfOk result (λ n. count_of n ≡ spec.variable_count (term_of term.now)) }
{
    match term {
        Term::Pair(a, b) | Term::Zip(a, b) | Term::LetArray(a, b) => {
            variable_count(a)?.more(variable_count(b)?)
        }
        Term::First(a) | Term::Second(a) | Term::Reshape(_, a) | Term::Copy(_, _, a) => {
            variable_count(a)
        }
        Term::LetElement(ty, value, body) => {
            let rest = held_count(ty)?.more(variable_count(body)?)?;
            let_variables(value)?.more(rest)
        }
        Term::Map(map) => {
            let rest = load_count(&map.loads)?.more(variable_count(&map.body)?)?;
            variable_count(&map.array)?.more(rest)
        }
        Term::Fold(fold) => variable_count(&fold.array)?.more(fold_variables(fold)?),
        Term::Store(_, a) => let_variables(a),
        Term::Literal(_)
        | Term::Bound(_)
        | Term::Source(_)
        | Term::Apply(_, _, _)
        | Term::ApplyNumber(_, _, _)
        | Term::ApplyLanes { .. }
        | Term::DivideLanes(_, _, _)
        | Term::Select(_, _, _) => Ok(Count::none()),
    }
}

/// How many private arrays a term has.
pub fn private_count(term: &Term) -> Result<u32, AllocError>
    ensures { IfOk result (λ n. n ≡ spec.private_count (term_of term.now)) }
{
    match term {
        Term::Pair(a, b) | Term::Zip(a, b) | Term::LetArray(a, b) => {
            plus(private_count(a)?, private_count(b)?)
        }
        Term::Map(map) => plus(private_count(&map.array)?, private_count(&map.body)?),
        Term::Fold(fold) => private_count(&fold.array),
        Term::First(a)
        | Term::Second(a)
        | Term::Reshape(_, a)
        | Term::LetElement(_, _, a)
        | Term::Copy(Space::Local, _, a) => private_count(a),
        Term::Copy(Space::Private, ty, a) => plus(private_count(a)?, width(ty)?),
        Term::Literal(_)
        | Term::Bound(_)
        | Term::Source(_)
        | Term::Apply(_, _, _)
        | Term::ApplyNumber(_, _, _)
        | Term::ApplyLanes { .. }
        | Term::DivideLanes(_, _, _)
        | Term::Select(_, _, _)
        | Term::Store(_, _) => Ok(0),
    }
}

/// How many local arrays a term outside local maps has, where all copies are local.
pub fn local_count(term: &Term) -> Result<u32, AllocError>
    ensures { IfOk result (λ n. n ≡ spec.local_count (term_of term.now)) }
{
    match term {
        Term::Pair(a, b) | Term::Zip(a, b) | Term::LetArray(a, b) => {
            plus(local_count(a)?, local_count(b)?)
        }
        Term::First(a) | Term::Second(a) | Term::Reshape(_, a) => local_count(a),
        Term::Map(map) => local_count(&map.array),
        Term::Copy(_, ty, a) => plus(local_count(a)?, width(ty)?),
        Term::Literal(_)
        | Term::Bound(_)
        | Term::Source(_)
        | Term::Apply(_, _, _)
        | Term::ApplyNumber(_, _, _)
        | Term::ApplyLanes { .. }
        | Term::DivideLanes(_, _, _)
        | Term::Select(_, _, _)
        | Term::LetElement(_, _, _)
        | Term::Fold(_)
        | Term::Store(_, _) => Ok(0),
    }
}

/// How many arrays of a space a term has.
pub fn array_count(space: Space, term: &Term) -> Result<u32, AllocError>
    ensures { IfOk result (λ n. n ≡ (copy_arrays space).count (term_of term.now)) }
{
    match space {
        Space::Local => local_count(term),
        Space::Private => private_count(term),
    }
}
