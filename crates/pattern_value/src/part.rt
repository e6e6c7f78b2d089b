//! What values hold. Where a value is of another kind, a part is a default.

ghost use Rattle.std.specs.Prelude.{◌≡◌, IfOk, map};
ghost use Rattle.lift_tree.specs.Values.{value_of, array, word, members, first, second, nth};

use lift_tree::value::Val;
use std::alloc::{AllocError, Global};

/// An equal value in memory of its own.
#[tactic(auto, using(crate::proofs::Held::held_values))]
#[cycle(copying)]
pub fn copied(alloc: Global, v: &Val) -> Result<Val, AllocError>
    ensures { IfOk result (λ c. value_of c ≡ value_of v.now) }
{
    match v {
        Val::Number(n) => Ok(Val::Number(*n)),
        Val::Pair(a, b) => {
            let a = Box::new(alloc, copied(alloc, a)?)?;
            Ok(Val::Pair(a, Box::new(alloc, copied(alloc, b)?)?))
        }
        Val::List(xs) => Ok(list(all_copied(alloc, xs)?)),
    }
}

/// Equal values in memory of their own.
#[tactic(auto, using(crate::proofs::Held::held_values))]
#[cycle(copying)]
pub fn all_copied(alloc: Global, xs: &[Val]) -> Result<Vec<Val>, AllocError>
    ensures { IfOk result (λ c. map value_of c.items ≡ map value_of xs.now) }
{
    let mut all = Vec::with_capacity(alloc, xs.len())?;
    for x in xs {
        let x = match x {
            Val::Number(n) => Val::Number(*n),
            Val::Pair(_, _) | Val::List(_) => copied(alloc, x)?,
        };
        all.push(x)?;
    }
    Ok(all)
}

/// The number, or 0.
#[tactic(auto, using(crate::proofs::Held::held_values))]
pub fn word_of(v: &Val) -> u32
    ensures { result ≡ word (value_of v.now) }
{
    match v {
        Val::Number(n) => *n,
        Val::Pair(_, _) | Val::List(_) => 0,
    }
}

/// The members of a list, or none.
#[tactic(auto, using(crate::proofs::Held::held_values))]
pub fn into_members(alloc: Global, v: Val) -> Vec<Val>
    ensures { map value_of result.items ≡ members (value_of v) }
{
    match v {
        Val::List(xs) => xs,
        Val::Number(_) | Val::Pair(_, _) => Vec::new(alloc),
    }
}

/// A list's members where they are, or none.
#[tactic(auto, using(crate::proofs::Held::held_values))]
pub fn members_of(v: &Val) -> &[Val]
    ensures { map value_of result.now ≡ members (value_of v.now) }
{
    match v {
        Val::List(xs) => xs.as_slice(),
        Val::Number(_) | Val::Pair(_, _) => &[],
    }
}

/// The list of these values.
#[tactic(auto, using(crate::proofs::Held::held_values))]
pub fn list(xs: Vec<Val>) -> Val
    ensures { value_of result ≡ array (map value_of xs.items) }
{
    Val::List(xs)
}

/// The left part of a pair, or 0.
#[tactic(auto, using(crate::proofs::Held::held_values))]
pub fn into_first(v: Val) -> Val
    ensures { value_of result ≡ first (value_of v) }
{
    match v {
        Val::Pair(a, _) => Box::into_inner(a),
        Val::Number(_) | Val::List(_) => Val::Number(0),
    }
}

/// The right part of a pair, or 0.
#[tactic(auto, using(crate::proofs::Held::held_values))]
pub fn into_second(v: Val) -> Val
    ensures { value_of result ≡ second (value_of v) }
{
    match v {
        Val::Pair(_, b) => Box::into_inner(b),
        Val::Number(_) | Val::List(_) => Val::Number(0),
    }
}

/// A copy of the value at this number, or 0.
#[tactic(auto, using(crate::proofs::Held::at))]
pub fn copied_at(alloc: Global, xs: &[Val], n: usize) -> Result<Val, AllocError>
    ensures { IfOk result (λ c. value_of c ≡ nth (map value_of xs.now) n) }
{
    match xs.get(n) {
        Some(x) => copied(alloc, x),
        None => Ok(Val::Number(0)),
    }
}
