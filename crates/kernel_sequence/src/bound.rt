//! Whether a binder is around a `then`.

ghost use Rattle.std.specs.Prelude.{◌≡◌, IfOk, option_map};
ghost use Rattle.lift_tree.specs.Tree.{tree_of};
ghost use Rattle.kernel_sequence.specs.Bound.{first_bound, first_of, from_child};

use lift_tree::term::{Term, UnaryForm};
use std::alloc::{AllocError, Global};

// A place in the child of this number, seen from the parent.
fn in_child(number: u32, place: Option<Vec<u32>>) -> Result<Option<Vec<u32>>, AllocError>
    ensures { IfOk result (λ p. option_map (λ v. v.items) p ≡ from_child number (option_map (λ v. v.items) place)) }
{
    let Some(numbers) = place else {
        return Ok(None);
    };
    let mut numbers = numbers;
    numbers.insert(0, number)?;
    Ok(Some(numbers))
}

// The earlier of two.
fn earlier(first: Option<Vec<u32>>, second: Option<Vec<u32>>) -> Option<Vec<u32>>
    ensures { option_map (λ v. v.items) result
        ≡ first_of (option_map (λ v. v.items) first) (option_map (λ v. v.items) second) }
{
    if first.is_some() { first } else { second }
}

// The first in the child of this number, seen from the parent.
#[cycle(bound)]
fn bound_in(
    alloc: Global,
    number: u32,
    bound: bool,
    child: &Term,
) -> Result<Option<Vec<u32>>, AllocError>
    ensures { IfOk result (λ p. option_map (λ v. v.items) p
        ≡ from_child number (first_bound bound (tree_of child.now))) }
{
    in_child(number, first_bound(alloc, bound, child)?)
}

/// The place of the first `then` in preorder that a binder is around, where
/// one is around the whole or isn't.
#[cycle(bound)]
pub fn first_bound(alloc: Global, bound: bool, term: &Term) -> Result<Option<Vec<u32>>, AllocError>
    ensures { IfOk result (λ p. option_map (λ v. v.items) p ≡ first_bound bound (tree_of term.now)) }
{
    match term {
        Term::Variable(_) | Term::Number(_) | Term::Input(_) => Ok(None),
        Term::Unary(UnaryForm::Then, a) => {
            if bound {
                Ok(Some(Vec::new(alloc)))
            } else {
                bound_in(alloc, 0, bound, a)
            }
        }
        Term::Unary(_, a) => bound_in(alloc, 0, bound, a),
        Term::Binary(_, a, b) => {
            let first = bound_in(alloc, 0, bound, a)?;
            Ok(earlier(first, bound_in(alloc, 1, bound, b)?))
        }
        Term::Let(a, body) | Term::Map(_, a, body) => {
            let first = bound_in(alloc, 0, bound, a)?;
            Ok(earlier(first, bound_in(alloc, 1, true, body)?))
        }
        Term::Select(a, b, c) => {
            let first = bound_in(alloc, 0, bound, a)?;
            let second = bound_in(alloc, 1, bound, b)?;
            let third = bound_in(alloc, 2, bound, c)?;
            Ok(earlier(first, earlier(second, third)))
        }
        Term::Fold(_, array, start, body) => {
            let first = bound_in(alloc, 0, bound, array)?;
            let second = bound_in(alloc, 1, bound, start)?;
            let third = bound_in(alloc, 2, true, body)?;
            Ok(earlier(first, earlier(second, third)))
        }
    }
}
