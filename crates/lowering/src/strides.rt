//! The lengths of a stride's rows and columns: the product of its
//! factors, and the array's length by it.
//!
//! A stride that is typed has both. Where there is none the answer is want of memory.

ghost use Rattle.std.specs.Prelude.{◌≡◌, ◌+◌, ◌≤◌, IfOk, length};
ghost use Rattle.size_arith.specs.Polynomial.{of_monomial, quotient, times};
ghost use Rattle.lift_tree.specs.Types.{ty_of};
ghost use Rattle.lift_tree.specs.WorkedOut.{factor_monomial, nth_name, product_of};
ghost use Rattle.lift_ir.specs.AtLaunch.{outer_of};
ghost use Rattle.size_arith.specs.declared.poly.Monomial.{Monomial};

use lift_tree::length::Factor;
use lift_tree::ty::Ty;
use size_arith::{Monomial, Name, Poly};
use std::alloc::{AllocError, Global};

// The declared size of this number, where so many stand before these names.
fn named(alloc: Global, names: &[Name], index: u32, before: usize) -> Result<Poly, AllocError>
    requires { before + length names.now ≤ 8 }
    ensures { IfOk result (λ p. p ≡ of_monomial (nth_name index before names.now)) }
{
    match names {
        [] => Poly::from_monomial(alloc, Monomial::number(0)),
        [first, rest @ ..] => {
            if index == 0 {
                Poly::from_monomial(alloc, Monomial::size(first.multiple, before))
            } else {
                named(alloc, rest, index - 1, before + 1)
            }
        }
    }
}

fn factor(alloc: Global, names: &[Name], factor: Factor) -> Result<Poly, AllocError>
    requires { length names.now ≤ 8 }
    ensures { IfOk result (λ p. p ≡ of_monomial (factor_monomial names.now factor)) }
{
    match factor {
        Factor::Number(n) => Poly::from_monomial(alloc, Monomial::number(n as i128)),
        Factor::Size(index) => named(alloc, names, index, 0),
    }
}

fn multiplied(alloc: Global, first: &Poly, second: &Poly) -> Result<Poly, AllocError>
    ensures { IfOk result (λ p. p ≡ times first.now second.now) }
{
    match first.mul(alloc, second) {
        Ok(product) => Ok(product),
        Err(_) => Err(AllocError),
    }
}

/// The product of the factors.
#[tactic(auto, using(crate::proofs::Products::product_step))]
pub fn product(alloc: Global, names: &[Name], factors: &[Factor]) -> Result<Poly, AllocError>
    requires { length names.now ≤ 8 }
    ensures { IfOk result (λ p. p ≡ of_monomial (product_of names.now factors.now)) }
{
    let mut so_far = Poly::from_monomial(alloc, Monomial::number(1))?;
    for index in (0..factors.len()).rev() {
        let one = factor(alloc, names, factors[index])?;
        so_far = multiplied(alloc, &one, &so_far)?;
    }
    Ok(so_far)
}

fn divided(alloc: Global, length: &Poly, divisor: &Monomial) -> Result<Poly, AllocError>
    ensures { IfOk result (λ p. p ≡ quotient divisor.now length.now) }
{
    match length.divide_exact(alloc, divisor)? {
        Some(quotient) => Ok(quotient),
        None => Err(AllocError),
    }
}

/// The length of an array of this type, by the product of a stride's factors.
#[tactic(auto, using(crate::proofs::Products::only))]
pub fn by_product(alloc: Global, product: &Poly, ty: &Ty) -> Result<Poly, AllocError>
    ensures { IfOk result (λ p. (m : Monomial) → product.now ≡ of_monomial m
        → p ≡ quotient m (outer_of (ty_of ty.now))) }
{
    match (product.as_slice(), ty) {
        ([divisor], Ty::Array(_, length)) => divided(alloc, length, divisor),
        _ => Err(AllocError),
    }
}
