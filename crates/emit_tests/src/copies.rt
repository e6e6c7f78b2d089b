//! Whether the copies of a lowered term are short enough to be printed.

ghost use Rattle.std.specs.Prelude.{◌≡◌, ◌<◌, ◌^◌, [], IfSome, IsTrue};
ghost use Rattle.lift_tree.specs.Types.{ty_of};
ghost use Rattle.lift_ir.specs.AtLaunch.{length_at, ty_at};
ghost use Rattle.lift_ir.specs.Types as types;
ghost use Rattle.lift_ir.specs.Types.{IsShort};
ghost use Rattle.lowering.specs.Terms.{term_of};
ghost use Rattle.item_emit.specs.Copies.{HasShortCopies, IsShortCopy};

use lift_tree::ty::Ty;
use lowering::term::Term;
use size_arith::{Poly, Sizes};
use std::alloc::Global;

const SHORT: i128 = 2147483648;

// A length that names no size, where it is below 2^31.
fn short_length(alloc: Global, length: &Poly) -> Option<u64>
    ensures value { IfSome result (λ n. n ≡ length_at [] length.now) }
    ensures short { IfSome result (λ n. n < 2 ^ 31) }
{
    let value = length.value_at(&Sizes::new(alloc));
    if 0 <= value && value < SHORT {
        Some(value as u64)
    } else {
        None
    }
}

// How many scalars a component has, where its lengths and their product are short.
fn short_size(alloc: Global, ty: &Ty) -> Option<u64>
    ensures short { IfSome result (λ _. IsShort (ty_at [] (ty_of ty.now))) }
    ensures size { IfSome result (λ n. n ≡ types.size (ty_at [] (ty_of ty.now))) }
    ensures word { IfSome result (λ n. n < 2 ^ 32) }
{
    match ty {
        Ty::Number => Some(1),
        Ty::Vector => Some(4),
        Ty::Pair(a, b) => {
            short_size(alloc, a)?;
            short_size(alloc, b)?;
            Some(1)
        }
        Ty::Array(element, length) => {
            let size = short_size(alloc, element)?;
            let size = short_length(alloc, length)? * size;
            if size < 1 << 32 { Some(size) } else { None }
        }
    }
}

fn is_short_copy(alloc: Global, ty: &Ty) -> bool
    ensures { IsTrue result → IsShortCopy (ty_at [] (ty_of ty.now)) }
{
    short_size(alloc, ty).is_some()
}

/// Whether each copy in the term is of fewer than 2^32 cells.
pub fn has_short_copies(alloc: Global, term: &Term) -> bool
    ensures { IsTrue result → HasShortCopies (term_of term.now) }
{
    match term {
        Term::Pair(a, b) | Term::Zip(a, b) | Term::LetArray(a, b) => {
            has_short_copies(alloc, a) && has_short_copies(alloc, b)
        }
        Term::Map(map) => {
            has_short_copies(alloc, &map.array) && has_short_copies(alloc, &map.body)
        }
        Term::Fold(fold) => has_short_copies(alloc, &fold.array),
        Term::First(a) | Term::Second(a) | Term::Reshape(_, a) | Term::LetElement(_, _, a) =>
            has_short_copies(alloc, a),
        Term::Copy(_, ty, a) => is_short_copy(alloc, ty) && has_short_copies(alloc, a),
        Term::Literal(_)
        | Term::Bound(_)
        | Term::Source(_)
        | Term::Apply(_, _, _)
        | Term::ApplyNumber(_, _, _)
        | Term::ApplyLanes { .. }
        | Term::DivideLanes(_, _, _)
        | Term::Select(_, _, _)
        | Term::Store(_, _) => true,
    }
}
