//! The values of expressions.

ghost use Rattle.std.specs.Prelude.{◌≡◌, ℕ, List, Some, map, option_map, slice_index, slice_index_or};
ghost use Rattle.kernel_tree.specs.Formula as formula;
ghost use Rattle.kernel_tree.specs.Tree.{formula_of, lanes_of, comparison_of};
ghost use Rattle.ndrange_machine.specs.Known.{known, variables, four_of, vars_of};

use crate::four::Four;
use crate::ids::Ids;
use crate::turn::Turn;
use kernel_tree::tree::{Comparison, Expr, Lanes};
use scalar_ops::op::{Op, apply};

/// The expression's value for a work-item that knows this, in these turns, outermost first, with
/// these private variables; none where it meets a divisor of 0.
pub fn value_of(
    ids: &Ids,
    sizes: &[u32],
    turns: &[Turn],
    words: &[u32],
    vectors: &[Four],
    e: &Expr,
) -> Option<u32>
    ensures { result ≡ formula.value (known ids.now sizes.now) (variables turns.now)
        (vars_of words.now vectors.now) (formula_of e.now) }
{
    match e {
        Expr::Number(n) => Some(*n),
        Expr::Variable(v) => Some(word_at(words, *v)),
        Expr::LoopVariable(i) => Some(variable_at(turns, *i)),
        Expr::Size(s) => Some(word_at(sizes, *s)),
        Expr::Id(dimension, form) => Some(ids.get(*dimension, *form)),
        Expr::Binary(op, a, b) => {
            let x = match leaf_of(sizes, turns, words, a) {
                Some(x) => x,
                None => value_of(ids, sizes, turns, words, vectors, a)?,
            };
            let y = match leaf_of(sizes, turns, words, b) {
                Some(y) => y,
                None => value_of(ids, sizes, turns, words, vectors, b)?,
            };
            operate(*op, x, y)
        }
        Expr::Choose(comparison, a, b, yes, no) => {
            let x = value_of(ids, sizes, turns, words, vectors, a)?;
            let y = value_of(ids, sizes, turns, words, vectors, b)?;
            if compare(*comparison, x, y) {
                value_of(ids, sizes, turns, words, vectors, yes)
            } else {
                value_of(ids, sizes, turns, words, vectors, no)
            }
        }
    }
}

/// The value of a literal, a variable or a size, which needs no call; none of another expression.
#[inline(always)]
pub fn leaf_of(sizes: &[u32], turns: &[Turn], words: &[u32], e: &Expr) -> Option<u32>
    ensures { (ids : formula.Ids) (vectors : List formula.Four) (x : ℕ) → ids.sizes ≡ sizes.now
        → result ≡ Some x
        → formula.value ids (variables turns.now) (record { words = words.now; vectors = vectors })
        (formula_of e.now) ≡ Some x }
{
    match e {
        Expr::Number(n) => Some(*n),
        Expr::Variable(v) => Some(word_at(words, *v)),
        Expr::LoopVariable(i) => Some(variable_at(turns, *i)),
        Expr::Size(s) => Some(word_at(sizes, *s)),
        _ => None,
    }
}

/// The value of an expression of four words, lane by lane; none where a lane meets a divisor of 0.
pub fn lanes_value_of(
    ids: &Ids,
    sizes: &[u32],
    turns: &[Turn],
    words: &[u32],
    vectors: &[Four],
    e: &Lanes,
) -> Option<Four>
    ensures { option_map four_of result ≡ formula.lanes_value (known ids.now sizes.now)
        (variables turns.now) (vars_of words.now vectors.now) (lanes_of e.now) }
{
    match e {
        Lanes::Vector(v) => Some(four_at(vectors, *v)),
        Lanes::Spread(word) => {
            let word = value_of(ids, sizes, turns, words, vectors, word)?;
            Some(Four::spread(word))
        }
        Lanes::Each(op, a, b) => {
            let u = lanes_value_of(ids, sizes, turns, words, vectors, a)?;
            let v = lanes_value_of(ids, sizes, turns, words, vectors, b)?;
            operate_each(*op, u, v)
        }
    }
}

/// The value of a loop's bound. Most are a literal or a size, which need no call.
#[inline(always)]
pub fn bound_of(sizes: &[u32], bound: &Expr) -> Option<u32>
    ensures { result ≡ formula.bound_value sizes.now (formula_of bound.now) }
{
    match bound {
        Expr::Number(n) => Some(*n),
        Expr::Size(s) => Some(word_at(sizes, *s)),
        _ => any_bound_of(sizes, bound),
    }
}

// The value of a loop's bound, whatever it is.
fn any_bound_of(sizes: &[u32], bound: &Expr) -> Option<u32>
    ensures { result ≡ formula.bound_value sizes.now (formula_of bound.now) }
{
    value_of(&Ids::unasked(), sizes, &[], &[], &[], bound)
}

/// What the operator gives; none at a divisor of 0. Most are sums, which need no call.
#[inline(always)]
pub fn operate(op: Op, x: u32, y: u32) -> Option<u32>
    ensures { result ≡ formula.operate op x y }
{
    match op {
        Op::Add => Some(x.wrapping_add(y)),
        _ => operate_any(op, x, y),
    }
}

// What the operator gives, whatever it is; none at a divisor of 0.
#[inline(always)]
fn operate_any(op: Op, x: u32, y: u32) -> Option<u32>
    ensures { result ≡ formula.operate op x y }
{
    if divides(op) && y == 0 {
        None
    } else {
        Some(apply(op, x, y))
    }
}

// What the operator gives in each lane; none where a lane has a divisor of 0.
fn operate_each(op: Op, u: Four, v: Four) -> Option<Four>
    ensures { option_map four_of result ≡ formula.operate_each op (four_of u) (four_of v) }
{
    let x = operate(op, u.x, v.x)?;
    let y = operate(op, u.y, v.y)?;
    let z = operate(op, u.z, v.z)?;
    let w = operate(op, u.w, v.w)?;
    Some(Four { x, y, z, w })
}

#[inline(always)]
fn divides(op: Op) -> bool
    ensures { result ≡ formula.divides op }
{
    matches!(op, Op::Div | Op::Rem)
}

#[inline(always)]
fn compare(comparison: Comparison, x: u32, y: u32) -> bool
    ensures { result ≡ formula.compare (comparison_of comparison) x y }
{
    match comparison {
        Comparison::Less => x < y,
        Comparison::Equal => x == y,
    }
}

/// The word at an index, or 0 where there is none.
#[inline(always)]
pub fn word_at(words: &[u32], i: u32) -> u32
    ensures { result ≡ slice_index words.now i }
{
    match words.get(i as usize) {
        Some(word) => *word,
        None => 0,
    }
}

// The four words at an index, or zeros where there are none.
fn four_at(vectors: &[Four], i: u32) -> Four
    ensures { four_of result ≡ slice_index_or (map four_of vectors.now) i (formula.spread 0) }
{
    match vectors.get(i as usize) {
        Some(four) => *four,
        None => Four::spread(0),
    }
}

/// The variable of the loop with this number of loops around it, or 0 where there is none.
#[inline(always)]
pub fn variable_at(turns: &[Turn], i: u32) -> u32
    ensures { result ≡ slice_index (variables turns.now) i }
{
    match turns.get(i as usize) {
        Some(turn) => turn.variable,
        None => 0,
    }
}
