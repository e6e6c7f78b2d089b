//! The rules' conditions.

ghost use Rattle.std.specs.Prelude.{◌≡◌, ◌<◌, ◌≤◌, ◌%◌, ◌^◌, ◌&&◌, ◌+ℤ◌, [], pos, neg_ℤ, unsigned_abs, int_rem, nat_le, nat_eq};
ghost use Rattle.size_arith.specs.Polynomial.{is_zero, minus, IsPoly};
ghost use Rattle.size_arith.specs.Decisions.{is_shown};
ghost use Rattle.lift_tree.specs.Typing.{constant};
ghost use Rattle.lift_tree.specs.Types.{ty_of};
ghost use Rattle.lift_tree.specs.Annotations.{annotation_of};
ghost use Rattle.rewriting.specs.Around.{context_of};
ghost use Rattle.rules_split.specs.Rules.{length_in, array_length, first_false, piece_sides, tile_sides};
ghost use Rattle.rules_split.specs.Tests.{divides};

use lift_tree::ty::Ty;
use lift_tree::typed::{Context, NodeTypes};
use rewriting::Condition;
use size_arith::{Monomial, Names, Poly};
use std::alloc::Global;

fn is_multiple(number: i128, k: u32) -> bool
    requires positive { 0 < k }
    ensures { result ≡ is_zero (int_rem number (pos k)) }
{
    number % (k as i128) == 0
}

// Whether the number divides each coefficient.
fn divides(k: u32, length: &[Monomial]) -> bool
    requires positive { 0 < k }
    ensures { result ≡ divides k length.now }
{
    match length {
        [] => true,
        [first, rest @ ..] => is_multiple(first.coefficient, k) && divides(k, rest),
    }
}

// The number less another.
fn less(number: i128, other: u32) -> i128
    requires { unsigned_abs number ≤ 2 ^ 32 }
    ensures { result ≡ neg_ℤ (pos other) +ℤ number }
{
    number - other as i128
}

// Whether the number divides a coefficient, and each of the others.
fn divides_with(k: u32, coefficient: i128, others: &[Monomial]) -> bool
    requires positive { 0 < k }
    ensures { result ≡ (is_zero (int_rem coefficient (pos k)) && divides k others.now) }
{
    is_multiple(coefficient, k) && divides(k, others)
}

// Whether the number divides the length less another number: only the constant
// monomial changes, which stands first.
#[tactic(auto, using(crate::proofs::Less::less))]
fn divides_less(k: u32, length: &[Monomial], other: u32) -> bool
    requires positive { 0 < k }
    requires poly { IsPoly length.now }
    ensures { result ≡ divides k (minus length.now (constant other)) }
{
    let Some((first, rest)) = length.split_first() else {
        return divides_with(k, less(0, other), length);
    };
    if first.powers == [0; 8] {
        divides_with(k, less(first.coefficient, other), rest)
    } else {
        divides_with(k, less(0, other), length)
    }
}

// An array's length, or the other.
fn length_in<'t>(ty: &'t Ty, none: &'t Poly) -> &'t Poly
    requires { none.now ≡ [] }
    ensures { result.now ≡ length_in (ty_of ty.now) }
{
    match ty {
        Ty::Array(_, length) => length,
        Ty::Number | Ty::Vector | Ty::Pair(_, _) => none,
    }
}

// The length of the array that is the node's first child, or the other where there is none.
fn array_length<'t>(types: &'t NodeTypes, none: &'t Poly) -> &'t Poly
    requires { none.now ≡ [] }
    ensures { result.now ≡ array_length (annotation_of types.now) }
{
    match types {
        NodeTypes::Leaf(_) => none,
        NodeTypes::One(_, array) | NodeTypes::Two(_, array, _) | NodeTypes::Three(_, array, _, _) =>
            { length_in(array.own_type(), none) }
    }
}

/// The first false condition of a cut into pieces of length k.
pub fn false_side_of_pieces(alloc: Global, k: u32, types: &NodeTypes) -> Option<Condition>
    ensures side { result ≡ first_false (piece_sides k (array_length (annotation_of types.now))) }
    ensures poly { IsPoly (array_length (annotation_of types.now)) }
{
    let none = Poly::zero(alloc);
    let length = array_length(types, &none).as_slice();
    if k < 1 {
        Some(Condition::Positive)
    } else if !divides(k, length) {
        Some(Condition::Divides)
    } else {
        None
    }
}

// Whether the length is shown to be at least this, which is a number of 32 bits.
fn is_long_enough(tile: u64, names: &Names, length: &Poly) -> bool
    ensures { result ≡ (nat_le tile 4294967295 && is_shown tile names.now length.now) }
{
    tile <= 4294967295 && length.shown_at_least(tile, names)
}

// Whether the number divides another.
fn divides_number(number: u32, other: u32) -> bool
    requires { 0 < other }
    ensures { result ≡ nat_eq (other % number) 0 }
{
    number != 0 && other % number == 0
}

/// The first false condition of tiles of this length, which begin v elements apart, for
/// pieces that begin `step` apart.
pub fn false_side_of_tiles(
    alloc: Global,
    step: u32,
    tile: u64,
    v: u32,
    context: &Context,
) -> Option<Condition>
    ensures side { result ≡ first_false (tile_sides step tile v (context_of context.now)) }
    ensures poly { IsPoly (array_length (annotation_of context.now.types)) }
{
    let none = Poly::zero(alloc);
    let length = array_length(&context.types, &none);
    let monomials = length.as_slice();
    if v < 1 {
        Some(Condition::Positive)
    } else if !divides_number(step, v) {
        Some(Condition::Divides)
    } else if !is_long_enough(tile, &context.names, length) {
        Some(Condition::Length)
    } else if !divides_less(v, monomials, tile as u32) {
        Some(Condition::Divides)
    } else {
        None
    }
}
