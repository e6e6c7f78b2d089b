//! What a work-item does in its next event.

ghost use Rattle.std.specs.Prelude.{◌≡◌, ◌+◌, ◌<◌, ◌^◌, option_map};
ghost use Rattle.ndrange_machine.specs.declared.change.Change.TheVariants as change;
ghost use Rattle.ndrange_machine.specs.declared.want.Want.TheVariants as form;
ghost use Rattle.ndrange_machine.specs.Known.{known, vars_of, four_of, held_four};
ghost use Rattle.ndrange_machine.specs.Wants.{want_if, want_head, want_tail, want_test, want_line};
ghost use Rattle.kernel_tree.specs.Launch.{ids_of};
ghost use Rattle.kernel_tree.specs.Tree.{formula_of, start_of};

use crate::change::Change;
use crate::four::Four;
use crate::ids::Ids;
use crate::line::Line;
use crate::turn::Turn;
use crate::value::{bound_of, lanes_value_of, value_of};
use kernel_tree::events::FaultKind;
use kernel_tree::launches::Launch;
use kernel_tree::tree::{Array, Expr, Start};

/// What a work-item does next, with the number of its line after that.
#[derive(Clone, Copy)]
pub enum Want {
    /// It has ended.
    Ends,
    /// It stands at a barrier.
    Waits {
        on_local: bool,
        on_global: bool,
        next: usize,
    },
    /// It fails.
    Fails(FaultKind),
    /// It changes itself alone.
    Changes(Change, usize),
    /// It reads the array's element at the index into a private variable.
    Reads(u32, Array, u32, usize),
    /// It writes the word, the last of the three, into the array's element at the index.
    Writes(Array, u32, u32, usize),
    /// It reads the array's four elements at the offset, which counts in fours, into a private
    /// variable of four words.
    ReadsFour(u32, Array, u32, usize),
    /// It writes the four words into the array's elements at the offset, which counts in fours.
    WritesFour(Array, u32, Four, usize),
}

/// What an item wants that stands at this line, in these turns, with these private variables.
#[inline(always)]
pub fn want_at(
    lines: &[Line],
    ids: Ids,
    sizes: &[u32],
    at: usize,
    turns: &[Turn],
    words: &[u32],
    vectors: &[Four],
) -> Want
    ensures { result ≡ want_line lines.now (known ids sizes.now) at turns.now
        (vars_of words.now vectors.now) }
{
    match lines.get(at) {
        None => Want::Ends,
        Some(Line::Assign(v, e)) => {
            let word = value_of(&ids, sizes, turns, words, vectors, e);
            want_to_set(*v, word, at + 1)
        }
        Some(Line::Load(v, array, i)) => {
            let index = value_of(&ids, sizes, turns, words, vectors, i);
            want_to_read(*v, *array, index, at + 1)
        }
        Some(Line::Store(array, i, e)) => match value_of(&ids, sizes, turns, words, vectors, i) {
            Some(index) => {
                let word = value_of(&ids, sizes, turns, words, vectors, e);
                want_to_write(*array, index, word, at + 1)
            }
            None => Want::Fails(FaultKind::ZeroDivisor),
        },
        Some(Line::AssignFour(v, e)) => {
            let four = lanes_value_of(&ids, sizes, turns, words, vectors, e);
            want_to_set_four(*v, four, at + 1)
        }
        Some(Line::LoadFour(v, array, i)) => {
            let offset = value_of(&ids, sizes, turns, words, vectors, i);
            want_to_read_four(*v, *array, offset, at + 1)
        }
        Some(Line::StoreFour(array, i, e)) => match value_of(
            &ids, sizes, turns, words, vectors, i,
        ) {
            Some(offset) => {
                let four = lanes_value_of(&ids, sizes, turns, words, vectors, e);
                want_to_write_four(*array, offset, four, at + 1)
            }
            None => Want::Fails(FaultKind::ZeroDivisor),
        },
        Some(Line::Test(start, bound, exit)) => want_at_test(ids, sizes, *start, bound, at, *exit),
        Some(Line::Head(start, bound, _, exit)) => want_at_head(
            ids, sizes, *start, bound, at, *exit,
        ),
        Some(Line::Tail(head)) => want_at_tail(lines, ids, sizes, *head, turns),
        Some(
            Line::Barrier {
                on_local,
                on_global,
            },
        ) => Want::Waits {
            on_local: *on_local,
            on_global: *on_global,
            next: at + 1,
        },
    }
}

// What an item wants that sets the variable to the word, if it has one.
#[inline(always)]
fn want_to_set(variable: u32, word: Option<u32>, next: usize) -> Want
    ensures { result ≡ want_if word (λ x. form.Changes (change.Sets variable x) next) }
{
    match word {
        Some(word) => Want::Changes(Change::Sets(variable, word), next),
        None => Want::Fails(FaultKind::ZeroDivisor),
    }
}

// What an item wants that reads the array's element at the index, if it has one.
#[inline(always)]
fn want_to_read(variable: u32, array: Array, index: Option<u32>, next: usize) -> Want
    ensures { result ≡ want_if index (λ k. form.Reads variable array k next) }
{
    match index {
        Some(index) => Want::Reads(variable, array, index, next),
        None => Want::Fails(FaultKind::ZeroDivisor),
    }
}

// What an item wants that writes the word at the index of the array, if it has one.
#[inline(always)]
fn want_to_write(array: Array, index: u32, word: Option<u32>, next: usize) -> Want
    ensures { result ≡ want_if word (λ x. form.Writes array index x next) }
{
    match word {
        Some(word) => Want::Writes(array, index, word, next),
        None => Want::Fails(FaultKind::ZeroDivisor),
    }
}

// What an item wants that sets the variable to the four words, if it has them.
#[inline(always)]
fn want_to_set_four(variable: u32, four: Option<Four>, next: usize) -> Want
    ensures { result ≡ want_if (option_map four_of four)
        (λ u. form.Changes (change.SetsFour variable (held_four u)) next) }
{
    match four {
        Some(four) => Want::Changes(Change::SetsFour(variable, four), next),
        None => Want::Fails(FaultKind::ZeroDivisor),
    }
}

// What an item wants that reads the array's four elements at the offset, if it has one.
#[inline(always)]
fn want_to_read_four(variable: u32, array: Array, offset: Option<u32>, next: usize) -> Want
    ensures { result ≡ want_if offset (λ k. form.ReadsFour variable array k next) }
{
    match offset {
        Some(offset) => Want::ReadsFour(variable, array, offset, next),
        None => Want::Fails(FaultKind::ZeroDivisor),
    }
}

// What an item wants that writes the four words at the offset of the array, if it has them.
#[inline(always)]
fn want_to_write_four(array: Array, offset: u32, four: Option<Four>, next: usize) -> Want
    ensures { result ≡ want_if (option_map four_of four)
        (λ u. form.WritesFour array offset (held_four u) next) }
{
    match four {
        Some(four) => Want::WritesFour(array, offset, four, next),
        None => Want::Fails(FaultKind::ZeroDivisor),
    }
}

// What an item wants at the test of an `if`, on the line `at`.
#[inline(always)]
fn want_at_test(ids: Ids, sizes: &[u32], start: Start, bound: &Expr, at: usize, exit: usize) -> Want
    requires { at + 1 < 2 ^ 64 }
    ensures { result
        ≡ want_test (known ids sizes.now) (start_of start) (formula_of bound.now) at exit }
{
    match bound_of(sizes, bound) {
        Some(bound) => {
            if ids.start(start) < bound {
                Want::Changes(Change::Keeps, at + 1)
            } else {
                Want::Changes(Change::Keeps, exit)
            }
        }
        None => Want::Fails(FaultKind::ZeroDivisor),
    }
}

// What an item wants at a loop's head, on the line `at`.
#[inline(always)]
fn want_at_head(ids: Ids, sizes: &[u32], start: Start, bound: &Expr, at: usize, exit: usize) -> Want
    requires { at + 1 < 2 ^ 64 }
    ensures { result
        ≡ want_head (known ids sizes.now) (start_of start) (formula_of bound.now) at exit }
{
    match bound_of(sizes, bound) {
        Some(bound) => {
            let variable = ids.start(start);
            if variable < bound {
                Want::Changes(Change::Begins(Turn::first(variable)), at + 1)
            } else {
                Want::Changes(Change::Keeps, exit)
            }
        }
        None => Want::Fails(FaultKind::ZeroDivisor),
    }
}

/// What the item of this number wants at a loop's head, on the line `at`.
#[inline(always)]
pub fn want_begun(
    launch: &Launch,
    item: u32,
    start: Start,
    bound: &Expr,
    at: usize,
    exit: usize,
) -> Want
    requires { at + 1 < 2 ^ 64 }
    ensures { result
        ≡ want_head (ids_of launch.now item) (start_of start) (formula_of bound.now) at exit }
{
    want_at_head(
        Ids::of_item(launch, item),
        &launch.sizes,
        start,
        bound,
        at,
        exit,
    )
}

/// What an item wants at the end of the body of the loop whose head is this line.
#[inline(always)]
pub fn want_at_tail(lines: &[Line], ids: Ids, sizes: &[u32], head: usize, turns: &[Turn]) -> Want
    ensures { result ≡ want_tail lines.now (known ids sizes.now) head turns.now }
{
    match (lines.get(head), turns.last()) {
        (Some(Line::Head(_, bound, stride, exit)), Some(turn)) => {
            match bound_of(sizes, bound) {
                Some(bound) => match turn.variable.checked_add(ids.stride(*stride)) {
                    Some(variable) => {
                        if variable < bound {
                            Want::Changes(Change::Repeats(turn.next(variable)), head + 1)
                        } else {
                            Want::Changes(Change::Leaves, *exit)
                        }
                    }
                    None => Want::Fails(FaultKind::LoopWrap),
                },
                None => Want::Fails(FaultKind::ZeroDivisor),
            }
        }
        _ => Want::Ends,
    }
}
