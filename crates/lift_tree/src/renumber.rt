//! Renumbering of variables where binders are put in or taken out.

ghost use Rattle.std.specs.Prelude.{◌≡◌, ◌+◌, ◌*◌, ◌<◌, ◌^◌, ◌↔◌, Some, None, IfOk, OnOk, IfSome, IsNone, IsTrue, false, nat_eq};
ghost use Rattle.lift_tree.specs.Tree.{tree_of, height};
ghost use Rattle.lift_tree.specs.Meaning.{SameWithOneMore, SameWithValue};
ghost use Rattle.lift_tree.specs.Renumbering.{up, down, shift, raise, put, put_variable, substitute, mentions, AllBelow, IsRenumberable};

use crate::term::Term;
use std::alloc::{AllocError, Global};

/// Whether the numbers of the term's variables and its height are below
/// 2^31, so that it may be renumbered.
pub fn is_renumberable(term: &Term) -> bool
    ensures { IsTrue result ↔ IsRenumberable (tree_of term.now) }
{
    term.depth() < 1 << 31 && has_small_numbers(term)
}

fn has_small_numbers(term: &Term) -> bool
    ensures { IsTrue result ↔ AllBelow (2 ^ 31) (tree_of term.now) }
{
    match term {
        Term::Variable(n) => *n < 1 << 31,
        Term::Number(_) | Term::Input(_) => true,
        Term::Unary(_, a) => has_small_numbers(a),
        Term::Binary(_, a, b) | Term::Let(a, b) | Term::Map(_, a, b) => {
            has_small_numbers(a) && has_small_numbers(b)
        }
        Term::Select(a, b, c) | Term::Fold(_, a, b, c) => {
            has_small_numbers(a) && has_small_numbers(b) && has_small_numbers(c)
        }
    }
}

/// The term, renumbered for one more binder at `from`. It has the same value
/// whatever value that binder has.
#[tactic(auto, using(crate::proofs::Renumbered::raised_same))]
pub fn raised(alloc: Global, term: &Term, from: u32) -> Result<Term, AllocError>
    requires from_small { from < 2 ^ 31 }
    requires renumberable { IsRenumberable (tree_of term.now) }
    ensures raised { IfOk result (λ t. tree_of t ≡ raise from (tree_of term.now)) }
    ensures value { IfOk result (λ t. SameWithOneMore from (tree_of term.now) (tree_of t)) }
{
    let mut room = term.copy(alloc)?;
    make_room(&mut room, 1, from as u64);
    Ok(room)
}

// A variable's number after `more` binders at `from`.
#[tactic(auto, using(crate::proofs::Numbers::numbers))]
fn shifted_number(number: u32, more: u32, from: u64) -> u32
    requires number_small { number < 2 ^ 31 }
    requires more_small { more < 2 ^ 31 }
    ensures { result ≡ up more from number }
{
    if (number as u64) < from {
        number
    } else {
        number + more
    }
}

// Renumbers the term for `more` binders at `from`.
fn make_room(term: &mut Term, more: u32, from: u64)
    requires more_small { more < 2 ^ 31 }
    requires numbers_small { AllBelow (2 ^ 31) (tree_of term.old) }
    requires from_small { from + 2 * height (tree_of term.old) < 2 ^ 34 }
    ensures { tree_of term.new ≡ shift more from (tree_of term.old) }
{
    match term {
        Term::Variable(n) => *n = shifted_number(*n, more, from),
        Term::Number(_) | Term::Input(_) => {}
        Term::Unary(_, a) => make_room(a, more, from),
        Term::Binary(_, a, b) => {
            make_room(a, more, from);
            make_room(b, more, from);
        }
        Term::Select(a, b, c) => {
            make_room(a, more, from);
            make_room(b, more, from);
            make_room(c, more, from);
        }
        Term::Let(value, body) => {
            make_room(value, more, from);
            make_room(body, more, from + 1);
        }
        Term::Map(_, array, body) => {
            make_room(array, more, from);
            make_room(body, more, from + 1);
        }
        Term::Fold(_, array, start, body) => {
            make_room(array, more, from);
            make_room(start, more, from);
            make_room(body, more, from + 2);
        }
    }
}

/// The term, renumbered for one binder fewer at `from`. None exactly where the term names that
/// binder. It has the value that the term has whatever value that binder has.
#[tactic(auto, using(crate::proofs::Renumbered::lowered_same))]
pub fn dropped(alloc: Global, term: &Term, from: u32) -> Result<Option<Term>, AllocError>
    requires from_small { from < 2 ^ 31 }
    requires renumberable { IsRenumberable (tree_of term.now) }
    ensures named { IfOk result (λ o. IsNone o ↔ IsTrue (mentions from (tree_of term.now))) }
    ensures dropped { IfOk result (λ o. IfSome o (λ t. raise from (tree_of t) ≡ tree_of term.now)) }
    ensures value { IfOk result (λ o. IfSome o
        (λ t. SameWithOneMore from (tree_of t) (tree_of term.now))) }
{
    if is_named(term, from as u64) {
        return Ok(None);
    }
    let mut closed = term.copy(alloc)?;
    close_gap(&mut closed, from as u64);
    Ok(Some(closed))
}

// Whether the term names the binder `from`.
fn is_named(term: &Term, from: u64) -> bool
    requires { from + 2 * height (tree_of term.now) < 2 ^ 34 }
    ensures { result ≡ mentions from (tree_of term.now) }
{
    match term {
        Term::Variable(n) => *n as u64 == from,
        Term::Number(_) | Term::Input(_) => false,
        Term::Unary(_, a) => is_named(a, from),
        Term::Binary(_, a, b) => is_named(a, from) || is_named(b, from),
        Term::Select(a, b, c) => is_named(a, from) || (is_named(b, from) || is_named(c, from)),
        Term::Let(a, b) | Term::Map(_, a, b) => is_named(a, from) || is_named(b, from + 1),
        Term::Fold(_, a, b, c) => {
            is_named(a, from) || (is_named(b, from) || is_named(c, from + 2))
        }
    }
}

// The number before one more binder at `from` was put in.
#[tactic(auto, using(crate::proofs::Numbers::numbers))]
fn lowered_number(number: u32, from: u64) -> u32
    requires { nat_eq number from ≡ false }
    ensures { up 1 from result ≡ number }
{
    if (number as u64) < from {
        number
    } else {
        number - 1
    }
}

// Renumbers the term, which doesn't name the binder `from`, for that binder taken out.
#[tactic(auto, using(crate::proofs::Numbers::unnamed))]
fn close_gap(term: &mut Term, from: u64)
    requires unnamed { mentions from (tree_of term.old) ≡ false }
    requires from_small { from + 2 * height (tree_of term.old) < 2 ^ 34 }
    ensures { raise from (tree_of term.new) ≡ tree_of term.old }
{
    match term {
        Term::Variable(n) => *n = lowered_number(*n, from),
        Term::Number(_) | Term::Input(_) => {}
        Term::Unary(_, a) => close_gap(a, from),
        Term::Binary(_, a, b) => {
            close_gap(a, from);
            close_gap(b, from);
        }
        Term::Select(a, b, c) => {
            close_gap(a, from);
            close_gap(b, from);
            close_gap(c, from);
        }
        Term::Let(value, body) => {
            close_gap(value, from);
            close_gap(body, from + 1);
        }
        Term::Map(_, array, body) => {
            close_gap(array, from);
            close_gap(body, from + 1);
        }
        Term::Fold(_, array, start, body) => {
            close_gap(array, from);
            close_gap(start, from);
            close_gap(body, from + 2);
        }
    }
}

/// The body with the value in place of each variable that names the nearest binder
/// around the body. The value stands outside that binder. The result has the body's
/// value where that binder has the value's.
#[tactic(auto, using(crate::proofs::Renumbered::substituted_same))]
pub fn substituted(alloc: Global, body: &Term, value: &Term) -> Result<Term, AllocError>
    requires body { IsRenumberable (tree_of body.now) }
    requires value { IsRenumberable (tree_of value.now) }
    ensures substituted { IfOk result (λ t. tree_of t
        ≡ substitute (tree_of body.now) (tree_of value.now)) }
    ensures value { IfOk result
        (λ t. SameWithValue (tree_of body.now) (tree_of value.now) (tree_of t)) }
{
    let mut whole = body.copy(alloc)?;
    fill(alloc, &mut whole, value, 0)?;
    Ok(whole)
}

// The variable, with the value for the binder `from`.
#[tactic(auto, using(crate::proofs::Numbers::numbers))]
fn filled_variable(alloc: Global, number: u32, value: &Term, from: u64) -> Result<Term, AllocError>
    requires number_small { number < 2 ^ 31 }
    requires value { IsRenumberable (tree_of value.now) }
    ensures { IfOk result (λ t. tree_of t
        ≡ put_variable from (tree_of value.now) (down from number)) }
{
    if number as u64 == from {
        let mut moved = value.copy(alloc)?;
        make_room(&mut moved, number, 0);
        Ok(moved)
    } else if (number as u64) < from {
        Ok(Term::Variable(number))
    } else {
        Ok(Term::Variable(number - 1))
    }
}

// Puts the value for the binder `from` into the term.
#[cycle(filling)]
fn fill(alloc: Global, term: &mut Term, value: &Term, from: u64) -> Result<(), AllocError>
    requires numbers_small { AllBelow (2 ^ 31) (tree_of term.old) }
    requires from_small { from + 2 * height (tree_of term.old) < 2 ^ 34 }
    requires value { IsRenumberable (tree_of value.now) }
    ensures { OnOk result (tree_of term.new ≡ put from (tree_of value.now) (tree_of term.old)) }
{
    match term {
        Term::Variable(n) => {
            *term = filled_variable(alloc, *n, value, from)?;
            Ok(())
        }
        Term::Number(_) | Term::Input(_) => Ok(()),
        Term::Unary(_, a) => fill(alloc, a, value, from),
        Term::Binary(_, a, b) => fill_two(alloc, a, b, value, from, from),
        Term::Select(a, b, c) => fill_three(alloc, a, b, c, value, from, from),
        Term::Let(a, b) => fill_two(alloc, a, b, value, from, from + 1),
        Term::Map(_, a, b) => fill_two(alloc, a, b, value, from, from + 1),
        Term::Fold(_, a, b, c) => fill_three(alloc, a, b, c, value, from, from + 2),
    }
}

// Puts the value into two terms: for the binder `from` into the first, and into the second for
// that binder as it is told inside that term.
#[cycle(filling)]
fn fill_two(
    alloc: Global,
    a: &mut Term,
    b: &mut Term,
    value: &Term,
    from: u64,
    inside: u64,
) -> Result<(), AllocError>
    requires first_small { AllBelow (2 ^ 31) (tree_of a.old) }
    requires second_small { AllBelow (2 ^ 31) (tree_of b.old) }
    requires from_small { from + 2 * height (tree_of a.old) < 2 ^ 34 }
    requires inside_small { inside + 2 * height (tree_of b.old) < 2 ^ 34 }
    requires value { IsRenumberable (tree_of value.now) }
    ensures first { OnOk result (tree_of a.new ≡ put from (tree_of value.now) (tree_of a.old)) }
    ensures second { OnOk result
        (tree_of b.new ≡ put inside (tree_of value.now) (tree_of b.old)) }
{
    fill(alloc, a, value, from)?;
    fill(alloc, b, value, inside)
}

// The same with two terms before the last.
#[cycle(filling)]
fn fill_three(
    alloc: Global,
    a: &mut Term,
    b: &mut Term,
    c: &mut Term,
    value: &Term,
    from: u64,
    inside: u64,
) -> Result<(), AllocError>
    requires first_small { AllBelow (2 ^ 31) (tree_of a.old) }
    requires second_small { AllBelow (2 ^ 31) (tree_of b.old) }
    requires third_small { AllBelow (2 ^ 31) (tree_of c.old) }
    requires from_first { from + 2 * height (tree_of a.old) < 2 ^ 34 }
    requires from_second { from + 2 * height (tree_of b.old) < 2 ^ 34 }
    requires inside_small { inside + 2 * height (tree_of c.old) < 2 ^ 34 }
    requires value { IsRenumberable (tree_of value.now) }
    ensures first { OnOk result (tree_of a.new ≡ put from (tree_of value.now) (tree_of a.old)) }
    ensures second { OnOk result (tree_of b.new ≡ put from (tree_of value.now) (tree_of b.old)) }
    ensures third { OnOk result
        (tree_of c.new ≡ put inside (tree_of value.now) (tree_of c.old)) }
{
    fill(alloc, a, value, from)?;
    fill_two(alloc, b, c, value, from, inside)
}
