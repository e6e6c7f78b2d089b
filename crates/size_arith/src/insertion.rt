//! Sums of monomials, kept in order by one insertion.

ghost use Rattle.std.specs.Prelude.{◌≡◌, ℤ, ◌+◌, ◌*◌, ◌≤◌, ◌<◌, ◌^◌, ◌++◌, [], length, take, drop, true, unsigned_abs, IfOk, max};
ghost use Rattle.size_arith.specs.Polynomial.{place, put, added, times, is_zero, add_powers, total, degree, greatest, AllSmall, AllLow};
ghost use Rattle.size_arith.specs.Code.{place_of, put_there};

use crate::numbers::{is_zero, product_of, sum_of};
use crate::poly::Monomial;
use std::alloc::AllocError;
use std::cmp::Ordering;

// Where powers stand to others in a polynomial.
#[tactic(auto, using(crate::proofs::Finding::place_ended))]
fn order(a: &[u8], b: &[u8]) -> Ordering
    ensures { place_of result ≡ place a.now b.now }
{
    if a.is_empty() {
        return if b.is_empty() {
            Ordering::Equal
        } else {
            Ordering::Less
        };
    }
    if b.is_empty() {
        return Ordering::Greater;
    }
    if a[0] < b[0] {
        Ordering::Less
    } else if b[0] < a[0] {
        Ordering::Greater
    } else {
        order(&a[1..], &b[1..])
    }
}

// Where the monomial with these powers stands, or would.
#[derive(Clone, Copy)]
struct Found {
    index: usize,
    here: bool,
}

fn find(monomials: &[Monomial], powers: &[u8]) -> Found
    ensures within { result.index ≤ length monomials.now }
    ensures there { result.here ≡ true → result.index < length monomials.now }
    ensures puts { (c : ℤ) → put c powers.now monomials.now
        ≡ take result.index monomials.now
        ++ put_there result.here c powers.now (drop result.index monomials.now) }
{
    let mut i = 0;
    while i < monomials.len() {
        match order(powers, &monomials[i].powers) {
            Ordering::Greater => i += 1,
            Ordering::Equal => return Found {
                index: i,
                here: true,
            },
            Ordering::Less => return Found {
                index: i,
                here: false,
            },
        }
    }
    Found {
        index: i,
        here: false,
    }
}

// Adds a coefficient at these powers.
fn put_at(
    monomials: &mut Vec<Monomial>,
    coefficient: i128,
    powers: [u8; 8],
) -> Result<(), AllocError>
    requires small { AllSmall (2 ^ 100) monomials.old.items }
    requires coefficient { unsigned_abs coefficient ≤ 2 ^ 100 }
    ensures { IfOk result (λ _. monomials.new.items ≡ put coefficient powers monomials.old.items) }
{
    let found = find(monomials, &powers);
    if found.here {
        let sum = sum_of(coefficient, monomials[found.index].coefficient);
        if is_zero(sum) {
            monomials.remove(found.index);
        } else {
            monomials[found.index] = Monomial {
                coefficient: sum,
                powers,
            };
        }
    } else if !is_zero(coefficient) {
        monomials.insert(
            found.index,
            Monomial {
                coefficient,
                powers,
            },
        )?;
    }
    Ok(())
}

// The powers of a product.
fn sum_of_powers(a: &[u8; 8], b: &[u8; 8]) -> [u8; 8]
    requires first { total a.now ≤ 4 }
    requires second { total b.now ≤ 4 }
    ensures { result ≡ add_powers a.now b.now }
{
    let mut powers = *a;
    for i in 0..8 {
        powers[i] += b[i];
    }
    powers
}

// Adds a monomial times the polynomial to the sum.
pub fn add_product(
    sum: &mut Vec<Monomial>,
    by: &Monomial,
    monomials: &[Monomial],
) -> Result<(), AllocError>
    requires by_small { unsigned_abs by.now.coefficient ≤ 2 ^ 33 }
    requires by_low { total by.now.powers ≤ 4 }
    requires small { AllSmall (2 ^ 33) monomials.now }
    requires low { AllLow 4 monomials.now }
    requires few { length monomials.now ≤ 32 }
    requires room { AllSmall (2 ^ 99) sum.old.items }
    ensures { IfOk result (λ _. sum.new.items ≡ added by.now monomials.now sum.old.items) }
{
    if let [first, rest @ ..] = monomials {
        add_product(sum, by, rest)?;
        let coefficient = product_of(by.coefficient, first.coefficient);
        put_at(sum, coefficient, sum_of_powers(&by.powers, &first.powers))?;
    }
    Ok(())
}

// Adds the product of two polynomials to none.
pub fn add_products(
    sum: &mut Vec<Monomial>,
    a: &[Monomial],
    b: &[Monomial],
) -> Result<(), AllocError>
    requires empty { sum.old.items ≡ [] }
    requires a_small { AllSmall (2 ^ 33) a.now }
    requires a_low { AllLow 4 a.now }
    requires a_few { length a.now ≤ 32 }
    requires b_small { AllSmall (2 ^ 33) b.now }
    requires b_low { AllLow 4 b.now }
    requires b_few { length b.now ≤ 32 }
    ensures { IfOk result (λ _. sum.new.items ≡ times a.now b.now) }
{
    if let [first, rest @ ..] = a {
        add_products(sum, rest, b)?;
        add_product(sum, first, b)?;
    }
    Ok(())
}

// The sum of the powers.
pub fn total_of(powers: &[u8]) -> u64
    requires few { length powers.now ≤ 8 }
    ensures total { result ≡ total powers.now }
    ensures cap { result ≤ 255 * length powers.now }
{
    match powers {
        [] => 0,
        [first, rest @ ..] => *first as u64 + total_of(rest),
    }
}

pub fn degree_of(monomials: &[Monomial]) -> u64
    ensures { result ≡ degree monomials.now }
{
    match monomials {
        [] => 0,
        [first, rest @ ..] => total_of(&first.powers).max(degree_of(rest)),
    }
}

// The greatest absolute value of a coefficient.
pub fn greatest_of(monomials: &[Monomial]) -> u128
    ensures { result ≡ greatest monomials.now }
{
    match monomials {
        [] => 0,
        [first, rest @ ..] => first.coefficient.unsigned_abs().max(greatest_of(rest)),
    }
}
