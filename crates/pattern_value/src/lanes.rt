//! Operators lane by lane.

ghost use Rattle.std.specs.Prelude.{◌≡◌, IfOk, replicate};
ghost use Rattle.scalar_ops.specs.Operators.{apply_op};
ghost use Rattle.lift_tree.specs.Lists.{zip_with};
ghost use Rattle.lift_tree.specs.Meaning.{on_lanes, scalar_op};
ghost use Rattle.lift_tree.specs.Values.{value_of, array, members};
ghost use Rattle.pattern_value.specs.Shut.{is_more, lane};

use crate::operator::{quotient, remainder};
use crate::part::{copied, copied_at, list, members_of, word_of};
use lift_tree::term::Operator;
use lift_tree::value::Val;
use scalar_ops::{Op, apply};
use std::alloc::{AllocError, Global};

/// The operator on words.
pub fn word_operator(operator: Operator) -> Op
    ensures { result ≡ scalar_op operator }
{
    match operator {
        Operator::Regrouping(reducer) => reducer.op(),
        Operator::Sub => Op::Sub,
        Operator::Shl => Op::Shl,
        Operator::Shr => Op::Shr,
        Operator::Lt => Op::Lt,
        Operator::Eq => Op::Eq,
    }
}

// What the operator gives on two words.
fn applied(op: Op, a: u32, b: u32) -> u32
    ensures { result ≡ apply_op op a b }
{
    match op {
        Op::Div => quotient(a, b),
        Op::Rem => remainder(a, b),
        other => apply(other, a, b),
    }
}

// Whether it is a list with members.
fn has_members(v: &Val) -> bool
    ensures { result ≡ is_more (value_of v.now) }
{
    match v {
        Val::List(xs) => match xs.as_slice() {
            [] => false,
            [_, ..] => true,
        },
        Val::Number(_) | Val::Pair(_, _) => false,
    }
}

// What the operator gives on the numbers of two values.
fn lane_of(op: Op, a: &Val, b: &Val) -> Val
    ensures { value_of result ≡ lane (apply_op op) (value_of a.now) (value_of b.now) }
{
    Val::Number(applied(op, word_of(a), word_of(b)))
}

// The list of so many times this value.
#[tactic(auto, using(crate::proofs::ByLanes::spreads))]
fn spread(alloc: Global, v: &Val, count: usize) -> Result<Val, AllocError>
    ensures { IfOk result (λ u. value_of u ≡ array (replicate count (value_of v.now))) }
{
    let mut all = Vec::new(alloc);
    for index in 0..count {
        all.push(copied(alloc, v)?)?;
    }
    Ok(list(all))
}

// The operator on the members of two lists, as many as the shorter has.
#[tactic(auto, using(crate::proofs::ByLanes::zips))]
fn by_lanes(alloc: Global, op: Op, v: &Val, u: &Val) -> Result<Val, AllocError>
    ensures { IfOk result (λ w. value_of w ≡ array
        (zip_with (lane (apply_op op)) (members (value_of v.now)) (members (value_of u.now)))) }
{
    let xs = members_of(v);
    let ys = members_of(u);
    let mut all = Vec::new(alloc);
    for index in 0..xs.len().min(ys.len()) {
        all.push(lane_of(
            op,
            &copied_at(alloc, xs, index)?,
            &copied_at(alloc, ys, index)?,
        ))?;
    }
    Ok(list(all))
}

/// The operator lane by lane where one value is a list, and a number stands for equal lanes.
#[tactic(auto, using(crate::proofs::ByLanes::lanes))]
pub fn operated(alloc: Global, op: Op, v: &Val, u: &Val) -> Result<Val, AllocError>
    ensures { IfOk result
        (λ w. value_of w ≡ on_lanes (apply_op op) (value_of v.now) (value_of u.now)) }
{
    if has_members(v) {
        if has_members(u) {
            by_lanes(alloc, op, v, u)
        } else {
            let lanes = spread(alloc, u, members_of(v).len())?;
            by_lanes(alloc, op, v, &lanes)
        }
    } else if has_members(u) {
        let lanes = spread(alloc, v, members_of(u).len())?;
        by_lanes(alloc, op, &lanes, u)
    } else {
        Ok(lane_of(op, v, u))
    }
}
