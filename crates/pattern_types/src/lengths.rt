//! Lengths, worked out over the base names.

ghost use Rattle.std.specs.Prelude.{◌≡◌, ◌≢◌, ◌<◌, ◌∷◌, [], IfErr, IfOk, Err, Ok, length};
ghost use Rattle.size_arith.specs.Polynomial.{plus, minus, times, of_monomial};
ghost use Rattle.lift_tree.specs.Typing.{constant};
ghost use Rattle.lift_tree.specs.WorkedOut.{factor_monomial, with_part};
ghost use Rattle.pattern_types.specs.declared.fault.Fault.TheVariants.{Memory};
ghost use Rattle.lift_tree.specs.Belonging.{AreNamed, PartsAreNamed};
ghost use Rattle.pattern_types.specs.Judged.{within, product_judged, sum_judged};
ghost use Rattle.pattern_types.specs.Tests.{exact_quotient};

use crate::fault::Fault;
use lift_tree::length::{Factor, Part, Product, Sign};
use size_arith::{Monomial, Names, Poly};
use std::alloc::{AllocError, Global};

pub fn constant(alloc: Global, number: u32) -> Result<Poly, AllocError>
    ensures { IfOk result (λ p. p ≡ constant number) }
{
    Poly::from_monomial(alloc, Monomial::number(number as i128))
}

pub fn sum(alloc: Global, first: &Poly, second: &Poly) -> Result<Poly, Fault>
    ensures ok { IfOk result (λ p. within (plus first.now second.now) ≡ Ok p) }
    ensures refused { IfErr result (λ f. f ≢ Memory → within (plus first.now second.now) ≡ Err f) }
{
    Ok(first.add(alloc, second)?)
}

pub fn difference(alloc: Global, first: &Poly, second: &Poly) -> Result<Poly, Fault>
    ensures ok { IfOk result (λ p. within (minus first.now second.now) ≡ Ok p) }
    ensures refused { IfErr result (λ f. f ≢ Memory → within (minus first.now second.now) ≡ Err f) }
{
    Ok(first.sub(alloc, second)?)
}

pub fn product(alloc: Global, first: &Poly, second: &Poly) -> Result<Poly, Fault>
    ensures ok { IfOk result (λ p. within (times first.now second.now) ≡ Ok p) }
    ensures refused { IfErr result (λ f. f ≢ Memory → within (times first.now second.now) ≡ Err f) }
{
    Ok(first.mul(alloc, second)?)
}

fn divided(alloc: Global, monomial: &Monomial, poly: &Poly) -> Result<Option<Poly>, AllocError>
    ensures { IfOk result (λ q. q ≡ exact_quotient (monomial.now ∷ []) poly.now) }
{
    poly.divide_exact(alloc, monomial)
}

/// The length divided by one monomial, where it divides.
pub fn exact_quotient(
    alloc: Global,
    divisor: &Poly,
    poly: &Poly,
) -> Result<Option<Poly>, AllocError>
    ensures { IfOk result (λ q. q ≡ exact_quotient divisor.now poly.now) }
{
    match divisor.as_slice() {
        [monomial] => divided(alloc, monomial, poly),
        _ => Ok(None),
    }
}

fn factor(alloc: Global, names: &Names, factor: Factor) -> Result<Poly, AllocError>
    requires { AreNamed (length names.now) 0 (factor ∷ []) }
    ensures { IfOk result (λ p. p ≡ of_monomial (factor_monomial names.now factor)) }
{
    match factor {
        Factor::Number(n) => constant(alloc, n),
        Factor::Size(i) => {
            let index = i as usize;
            let size = Monomial::size(names.as_slice()[index].multiple, index);
            Poly::from_monomial(alloc, size)
        }
    }
}

/// The length times the factors, multiplied from left to right.
#[tactic(auto, using(crate::proofs::Named::named_at))]
pub fn times_factors(
    alloc: Global,
    names: &Names,
    so_far: Poly,
    factors: &[Factor],
) -> Result<Poly, Fault>
    requires { AreNamed (length names.now) 0 factors.now }
    ensures ok { IfOk result (λ p. product_judged names.now so_far factors.now ≡ Ok p) }
    ensures refused { IfErr result (λ f. f ≢ Memory → product_judged names.now so_far factors.now
        ≡ Err f) }
{
    let mut length = so_far;
    for one in factors {
        length = product(alloc, &length, &factor(alloc, names, *one)?)?;
    }
    Ok(length)
}

/// The product of the factors, multiplied from left to right.
pub fn product_of(alloc: Global, names: &Names, factors: &Product) -> Result<Poly, Fault>
    requires { AreNamed (length names.now) 0 factors.now }
    ensures ok { IfOk result (λ p. product_judged names.now (constant 1) factors.now ≡ Ok p) }
    ensures refused { IfErr result (λ f. f ≢ Memory
        → product_judged names.now (constant 1) factors.now ≡ Err f) }
{
    let one = constant(alloc, 1)?;
    times_factors(alloc, names, one, factors.factors())
}

fn with_part(alloc: Global, sum_so_far: &Poly, sign: Sign, part: &Poly) -> Result<Poly, Fault>
    ensures ok { IfOk result (λ p. within (with_part sign sum_so_far.now part.now) ≡ Ok p) }
    ensures refused { IfErr result (λ f. f ≢ Memory
        → within (with_part sign sum_so_far.now part.now) ≡ Err f) }
{
    match sign {
        Sign::Plus => sum(alloc, sum_so_far, part),
        Sign::Minus => difference(alloc, sum_so_far, part),
    }
}

/// The sum with the parts, added from left to right.
#[tactic(auto, using(crate::proofs::Named::part_named_at))]
pub fn with_parts(
    alloc: Global,
    names: &Names,
    sum_so_far: Poly,
    parts: &[Part],
) -> Result<Poly, Fault>
    requires { PartsAreNamed (length names.now) parts.now }
    ensures ok { IfOk result (λ p. sum_judged names.now sum_so_far parts.now ≡ Ok p) }
    ensures refused { IfErr result (λ f. f ≢ Memory → sum_judged names.now sum_so_far parts.now
        ≡ Err f) }
{
    let mut length = sum_so_far;
    for one in parts {
        let part = product_of(alloc, names, &one.product)?;
        length = with_part(alloc, &length, one.sign, &part)?;
    }
    Ok(length)
}
