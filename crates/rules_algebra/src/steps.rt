//! The products of strides' factors, compared with lengths.

ghost use Rattle.std.specs.Prelude.{◌≡◌, ◌+◌, ◌*◌, ◌++◌, ◌↔◌, min, IfOk, IsTrue};
ghost use Rattle.size_arith.specs.Polynomial.{of_monomial};
ghost use Rattle.size_arith.specs.Decisions.{is_same};
ghost use Rattle.lift_tree.specs.WorkedOut.{product_of};
ghost use Rattle.lift_tree.specs.Annotations.{type_in};
ghost use Rattle.rewriting.specs.Around.{context_of};
ghost use Rattle.rules_algebra.specs.Steps as spec;
ghost use Rattle.rules_algebra.specs.Steps.{count, held, most_number, most_power, numbers};
ghost use Rattle.rules_algebra.specs.Strides as strides;

use lift_tree::length::Factor;
use lift_tree::ty::Ty;
use lift_tree::typed::Context;
use size_arith::{Monomial, Name, Names, Poly};
use std::alloc::{AllocError, Global};

// What the declared size of this number is a multiple of, or 0.
fn multiple_at(names: &[Name], index: u32) -> u32
    ensures { result ≡ spec.multiple_at names.now index }
{
    match names {
        [] => 0,
        [first, rest @ ..] => {
            if index == 0 {
                first.multiple
            } else {
                multiple_at(rest, index - 1)
            }
        }
    }
}

fn number_of(names: &[Name], factor: Factor) -> u64
    ensures { result ≡ spec.number_of names.now factor }
{
    match factor {
        Factor::Number(n) => n as u64,
        Factor::Size(index) => multiple_at(names, index) as u64,
    }
}

// The product of the factors' numbers and one more; it stands still at 2^64 - 1.
#[tactic(auto, using(crate::proofs::Held::number_from))]
fn number_with(names: &[Name], factors: &[Factor], other: u64) -> u64
    ensures { result ≡ min (numbers names.now factors.now * other) most_number }
{
    let mut so_far = other;
    for place in (0..factors.len()).rev() {
        so_far = number_of(names, factors[place]).saturating_mul(so_far);
    }
    so_far
}

#[tactic(auto, using(crate::proofs::Held::number_both))]
fn number(names: &[Name], first: &[Factor], second: &[Factor]) -> u64
    ensures { result ≡ min (numbers names.now (first.now ++ second.now)) most_number }
{
    number_with(names, first, number_with(names, second, 1))
}

fn one(sizes: usize, index: u32, factor: Factor) -> u8
    ensures { result ≡ spec.one sizes index factor }
{
    match factor {
        Factor::Number(_) => 0,
        Factor::Size(size) => {
            if (size as usize) < sizes && size == index {
                1
            } else {
                0
            }
        }
    }
}

// How often the declared size of this number is among the factors, and so often more; it stands
// still at 255.
#[tactic(auto, using(crate::proofs::Held::count_from))]
fn count_with(sizes: usize, index: u32, factors: &[Factor], other: u8) -> u8
    ensures { result ≡ min (count sizes index factors.now + other) most_power }
{
    let mut so_far = other;
    for place in (0..factors.len()).rev() {
        so_far = so_far.saturating_add(one(sizes, index, factors[place]));
    }
    so_far
}

#[tactic(auto, using(crate::proofs::Held::count_both))]
fn power(sizes: usize, index: u32, first: &[Factor], second: &[Factor]) -> u8
    ensures { result ≡ min (count sizes index (first.now ++ second.now)) most_power }
{
    count_with(sizes, index, first, count_with(sizes, index, second, 0))
}

// The product of the factors of both, as far as it can be held.
fn product(names: &[Name], first: &[Factor], second: &[Factor]) -> Monomial
    ensures { result ≡ held names.now (first.now ++ second.now) }
{
    let sizes = names.len();
    Monomial {
        coefficient: number(names, first, second) as i128,
        powers: [
            power(sizes, 0, first, second),
            power(sizes, 1, first, second),
            power(sizes, 2, first, second),
            power(sizes, 3, first, second),
            power(sizes, 4, first, second),
            power(sizes, 5, first, second),
            power(sizes, 6, first, second),
            power(sizes, 7, first, second),
        ],
    }
}

fn is_equal(a: &Monomial, b: &Monomial) -> bool
    ensures { IsTrue result ↔ (a.now ≡ b.now) }
{
    a.coefficient == b.coefficient && a.powers == b.powers
}

// The product of the factors, as far as it can be held.
#[tactic(auto, using(crate::proofs::Held::nothing_more))]
fn step(names: &[Name], factors: &[Factor]) -> Monomial
    ensures { result ≡ held names.now factors.now }
{
    product(names, factors, &[])
}

// Whether the monomials are this one alone, or none where this one is 0.
#[tactic(auto, using(crate::proofs::Held::alone))]
fn is_alone(monomial: &Monomial, length: &[Monomial]) -> bool
    ensures { IsTrue result ↔ (of_monomial monomial.now ≡ length.now) }
{
    match length {
        [] => monomial.coefficient == 0,
        [first, rest @ ..] => {
            rest.is_empty() && (monomial.coefficient != 0 && is_equal(first, monomial))
        }
    }
}

// Whether the length is the product of the factors of both.
#[tactic(auto, using(crate::proofs::Held::product_same))]
fn is_product(names: &[Name], first: &[Factor], second: &[Factor], length: &Poly) -> bool
    ensures { result
        ≡ is_same (of_monomial (product_of names.now (first.now ++ second.now))) length.now }
{
    is_alone(&product(names, first, second), length.as_slice())
}

/// Whether the node's type is an array's whose length is the product of the factors of both.
pub fn is_length(first: &[Factor], second: &[Factor], context: &Context) -> bool
    ensures { result ≡ strides.is_length (context_of context.now).names
        (first.now ++ second.now) (type_in (context_of context.now).types) }
{
    match context.types.own_type() {
        Ty::Array(_, length) => is_product(context.names.as_slice(), first, second, length),
        Ty::Number | Ty::Vector | Ty::Pair(_, _) => false,
    }
}

// Whether the product divides the length exactly, and the quotient is shown at least 1.
#[tactic(auto, using(crate::proofs::Held::divisions))]
fn is_divided(
    alloc: Global,
    names: &Names,
    factors: &[Factor],
    length: &Poly,
) -> Result<bool, AllocError>
    ensures { IfOk result (λ b. b
        ≡ strides.is_divided names.now (product_of names.now factors.now) length.now) }
{
    let _length = length.as_slice();
    let divisor = step(names.as_slice(), factors);
    match length.divide_exact(alloc, &divisor)? {
        Some(count) => Ok(count.shown_at_least(1, names)),
        None => Ok(false),
    }
}

/// Whether the node's type is an array's whose length by the factors' product is shown at least 1.
pub fn has_quotient(
    alloc: Global,
    factors: &[Factor],
    context: &Context,
) -> Result<bool, AllocError>
    ensures { IfOk result (λ b. b ≡ strides.has_quotient (context_of context.now).names
        (product_of (context_of context.now).names factors.now)
        (type_in (context_of context.now).types)) }
{
    match context.types.own_type() {
        Ty::Array(_, length) => is_divided(alloc, &context.names, factors, length),
        Ty::Number | Ty::Vector | Ty::Pair(_, _) => Ok(false),
    }
}
