//! Exact division by a monomial.

ghost use Rattle.std.specs.Prelude.{◌≡◌, ◌≤◌, ◌^◌, ◌↔◌, pos, unsigned_abs, int_rem, int_div, IsTrue, IfOk, false};
ghost use Rattle.size_arith.specs.Polynomial.{Divides, AllDivide, AtMost, AllSmall, is_zero, less_powers, divided, quotient};

use crate::poly::Monomial;
use std::alloc::{AllocError, Global};

pub fn are_at_most(powers: &[u8], others: &[u8]) -> bool
    ensures { IsTrue result ↔ AtMost powers.now others.now }
{
    match powers {
        [] => true,
        [power, powers @ ..] => match others {
            [] => false,
            [other, others @ ..] => power <= other && are_at_most(powers, others),
        },
    }
}

fn is_multiple(number: i128, divisor: i128) -> bool
    requires small { unsigned_abs number ≤ 2 ^ 32 }
    requires divisor { is_zero divisor ≡ false }
    ensures { IsTrue result ↔ (int_rem number divisor ≡ pos 0) }
{
    number % divisor == 0
}

fn quotient_of(number: i128, divisor: i128) -> i128
    requires small { unsigned_abs number ≤ 2 ^ 32 }
    requires divisor { is_zero divisor ≡ false }
    ensures { result ≡ int_div number divisor }
{
    number / divisor
}

fn divides(divisor: &Monomial, monomial: &Monomial) -> bool
    requires small { unsigned_abs monomial.now.coefficient ≤ 2 ^ 32 }
    ensures { IsTrue result ↔ Divides divisor.now monomial.now }
{
    divisor.coefficient != 0
        && is_multiple(monomial.coefficient, divisor.coefficient)
        && are_at_most(&divisor.powers, &monomial.powers)
}

pub fn all_divide(divisor: &Monomial, monomials: &[Monomial]) -> bool
    requires small { AllSmall (2 ^ 32) monomials.now }
    ensures { IsTrue result ↔ AllDivide divisor.now monomials.now }
{
    match monomials {
        [] => true,
        [first, rest @ ..] => divides(divisor, first) && all_divide(divisor, rest),
    }
}

fn difference_of_powers(powers: &[u8; 8], others: &[u8; 8]) -> [u8; 8]
    requires { AtMost others.now powers.now }
    ensures { result ≡ less_powers powers.now others.now }
{
    let mut left = *powers;
    for i in 0..8 {
        left[i] -= others[i];
    }
    left
}

fn divided(divisor: &Monomial, monomial: &Monomial) -> Monomial
    requires small { unsigned_abs monomial.now.coefficient ≤ 2 ^ 32 }
    requires divides { Divides divisor.now monomial.now }
    ensures { result ≡ divided divisor.now monomial.now }
{
    Monomial {
        coefficient: quotient_of(monomial.coefficient, divisor.coefficient),
        powers: difference_of_powers(&monomial.powers, &divisor.powers),
    }
}

pub fn quotients(
    alloc: Global,
    divisor: &Monomial,
    monomials: &[Monomial],
) -> Result<Vec<Monomial>, AllocError>
    requires small { AllSmall (2 ^ 32) monomials.now }
    requires divide { AllDivide divisor.now monomials.now }
    ensures { IfOk result (λ made. made.items ≡ quotient divisor.now monomials.now) }
{
    let mut made = Vec::new(alloc);
    for monomial in monomials {
        made.push(divided(divisor, monomial))?;
    }
    Ok(made)
}
