//! Values of polynomials, and what is shown of them over the ranges of their names, without memory.

ghost use Rattle.std.specs.Prelude.{◌≡◌, ℤ, ◌+◌, ◌-◌, ◌*◌, ◌≤◌, ◌<◌, ◌^◌, ◌*ℤ◌, ◌≤ℤ◌, ◌↔◌, ◌∷◌, pos, neg_ℤ, length, take, unsigned_abs, IsTrue};
ghost use Rattle.size_arith.specs.Polynomial.{product, total, value_at, number, AllSmall, AllLow, AllWide, IsPoly};
ghost use Rattle.size_arith.specs.Ranges.{AllUpTo, AreNames, leasts, greatests};
ghost use Rattle.size_arith.specs.Shown.{share, part, shifted, positive_part, positives_at, largest, ShownAtLeast};
ghost use Rattle.size_arith.specs.Code.{AllExtended, IsAbove, AllAbove};

use crate::division::are_at_most;
use crate::names::Name;
use crate::numbers::{scaled, sum_of};
use crate::poly::Monomial;

// The product of the base names' powers.
#[tactic(auto, using(crate::proofs::Caps::product_caps))]
fn product_at(bases: &[u32], powers: &[u8]) -> u128
    requires small { AllUpTo 1048576 bases.now }
    requires low { total powers.now ≤ 4 }
    ensures value { result ≡ product bases.now powers.now }
    ensures cap { result ≤ 2 ^ 80 }
{
    match bases {
        [] => 1,
        [base, bases @ ..] => match powers {
            [] => 1,
            [power, powers @ ..] => (*base as u128).pow(*power as u32) * product_at(bases, powers),
        },
    }
}

// The value, where the base names have these values.
pub fn value_of(monomials: &[Monomial], bases: &[u32]) -> i128
    requires small { AllSmall (2 ^ 32) monomials.now }
    requires low { AllLow 4 monomials.now }
    requires few { length monomials.now ≤ 32 }
    requires bases { AllUpTo 1048576 bases.now }
    ensures value { result ≡ value_at bases.now monomials.now }
    ensures cap { unsigned_abs result ≤ length monomials.now * 2 ^ 118 }
{
    match monomials {
        [] => 0,
        [first, rest @ ..] => {
            sum_of(
                scaled(first.coefficient, product_at(bases, &first.powers)),
                value_of(rest, bases),
            )
        }
    }
}

// The sum of the positive monomials.
fn positives_of(monomials: &[Monomial], bases: &[u32]) -> u128
    requires small { AllSmall (2 ^ 32) monomials.now }
    requires low { AllLow 4 monomials.now }
    requires few { length monomials.now ≤ 32 }
    requires bases { AllUpTo 1048576 bases.now }
    ensures value { result ≡ positives_at bases.now monomials.now }
    ensures cap { result ≤ length monomials.now * 2 ^ 112 }
{
    match monomials {
        [] => 0,
        [first, rest @ ..] => {
            let positive = positive_of(first.coefficient);
            positive * product_at(bases, &first.powers) + positives_of(rest, bases)
        }
    }
}

fn positive_of(coefficient: i128) -> u128
    ensures value { result ≡ positive_part coefficient }
    ensures cap { result ≤ unsigned_abs coefficient }
{
    if coefficient < 0 {
        0
    } else {
        coefficient.unsigned_abs()
    }
}

// The base names' least values.
fn leasts_of(names: &[Name]) -> [u32; 8]
    requires few { length names.now ≤ 8 }
    requires declared { AreNames names.now }
    ensures { take (length names.now) result ≡ leasts names.now }
{
    let mut values = [1; 8];
    for i in 0..names.len() {
        values[i] = names[i].from / names[i].multiple;
    }
    values
}

// The base names' greatest values.
fn greatests_of(names: &[Name]) -> [u32; 8]
    requires few { length names.now ≤ 8 }
    requires declared { AreNames names.now }
    ensures { take (length names.now) result ≡ greatests names.now }
{
    let mut values = [1; 8];
    for i in 0..names.len() {
        values[i] = names[i].to / names[i].multiple;
    }
    values
}

// The coefficient of y^j in (l + y)^m.
#[tactic(auto, using(crate::proofs::Caps::caps))]
fn share_of(l: u128, m: u8, j: u8) -> u128
    requires low { l < 2097151 }
    requires degree { m ≤ 4 }
    ensures { result ≡ share l m j }
{
    if m == 0 {
        return if j == 0 { 1 } else { 0 };
    }
    let down = share_of(l, m - 1, j);
    if j == 0 {
        l * down
    } else {
        let across = share_of(l, m - 1, j - 1);
        across + l * down
    }
}

// The coefficient of the new names' powers in the product of these powers, after each name is its
// least value plus a new name.
#[tactic(auto, using(crate::proofs::Caps::caps))]
fn part_of(leasts: &[u32], powers: &[u8], new_powers: &[u8]) -> u128
    requires small { AllUpTo 1048576 leasts.now }
    requires low { total powers.now ≤ 4 }
    ensures value { result ≡ part leasts.now powers.now new_powers.now }
    ensures cap { result ≤ 2 ^ 84 }
{
    match leasts {
        [] => 1,
        [l, leasts @ ..] => match new_powers {
            [] => 0,
            [j, new_powers @ ..] => match powers {
                [] => share_of(*l as u128, 0, *j) * part_of(leasts, powers, new_powers),
                [m, powers @ ..] => share_of(*l as u128, *m, *j)
                    * part_of(leasts, powers, new_powers),
            },
        },
    }
}

// What the monomial adds to the coefficient of the new names' powers.
fn term_of(monomial: &Monomial, leasts: &[u32], new_powers: &[u8]) -> i128
    requires small { unsigned_abs monomial.now.coefficient ≤ 2 ^ 32 }
    requires low { total monomial.now.powers ≤ 4 }
    requires wide { length monomial.now.powers ≡ 8 }
    requires leasts { AllUpTo 1048576 leasts.now }
    requires no_more { length new_powers.now ≤ length leasts.now }
    requires narrow { length new_powers.now ≤ 8 }
    ensures value { result ≡ monomial.now.coefficient
        *ℤ pos (part leasts.now monomial.now.powers new_powers.now) }
    ensures cap { unsigned_abs result ≤ 2 ^ 118 }
{
    if !are_at_most(new_powers, &monomial.powers) {
        return 0;
    }
    scaled(
        monomial.coefficient,
        part_of(leasts, &monomial.powers, new_powers),
    )
}

// The polynomial's coefficient of the new names' powers.
fn coefficient_of(monomials: &[Monomial], leasts: &[u32], new_powers: &[u8]) -> i128
    requires small { AllSmall (2 ^ 32) monomials.now }
    requires low { AllLow 4 monomials.now }
    requires few { length monomials.now ≤ 32 }
    requires wide { AllWide 8 monomials.now }
    requires leasts { AllUpTo 1048576 leasts.now }
    requires no_more { length new_powers.now ≤ length leasts.now }
    requires narrow { length new_powers.now ≤ 8 }
    ensures value { result ≡ shifted leasts.now monomials.now new_powers.now }
    ensures cap { unsigned_abs result ≤ length monomials.now * 2 ^ 118 }
{
    match monomials {
        [] => 0,
        [first, rest @ ..] => {
            term_of(first, leasts, new_powers) + coefficient_of(rest, leasts, new_powers)
        }
    }
}

// The polynomial less k has no negative coefficient of these powers.
fn has_sign(k: u64, monomials: &[Monomial], leasts: &[u32], new_powers: &[u8]) -> bool
    requires small { AllSmall (2 ^ 32) monomials.now }
    requires low { AllLow 4 monomials.now }
    requires few { length monomials.now ≤ 32 }
    requires wide { AllWide 8 monomials.now }
    requires leasts { AllUpTo 1048576 leasts.now }
    requires no_more { length new_powers.now ≤ length leasts.now }
    requires narrow { length new_powers.now ≤ 8 }
    ensures { IsTrue result
        ↔ (pos 0 ≤ℤ shifted leasts.now (number (neg_ℤ (pos k)) ∷ monomials.now) new_powers.now) }
{
    let least = k as u128 * part_of(leasts, &[0; 8], new_powers);
    coefficient_of(monomials, leasts, new_powers) >= least as i128
}

// A monomial gives no negative coefficient of powers that are at least these: it isn't negative, or
// it has less of some name.
fn is_above(monomial: &Monomial, powers: &[u8]) -> bool
    ensures { IsTrue result ↔ IsAbove powers.now monomial.now }
{
    monomial.coefficient >= 0 || !are_at_most(powers, &monomial.powers)
}

// The same of each monomial.
fn all_above(monomials: &[Monomial], powers: &[u8]) -> bool
    ensures { IsTrue result ↔ AllAbove powers.now monomials.now }
{
    match monomials {
        [] => true,
        [first, rest @ ..] => is_above(first, powers) && all_above(rest, powers),
    }
}

// The same of each monomial of the polynomial less k.
fn all_above_less(k: u64, monomials: &[Monomial], powers: &[u8]) -> bool
    ensures { IsTrue result ↔ AllAbove powers.now (number (neg_ℤ (pos k)) ∷ monomials.now) }
{
    let less = Monomial::number(-(k as i128));
    is_above(&less, powers) && all_above(monomials, powers)
}

// The polynomial less k has no negative coefficient of all powers that begin with the first ones
// given and go on with at most `left` in all. Powers that no negative monomial reaches aren't tried.
fn never_negative(
    k: u64,
    monomials: &[Monomial],
    leasts: &[u32],
    powers: [u8; 8],
    index: usize,
    left: u8,
) -> bool
    requires small { AllSmall (2 ^ 32) monomials.now }
    requires low { AllLow 4 monomials.now }
    requires few { length monomials.now ≤ 32 }
    requires wide { AllWide 8 monomials.now }
    requires leasts { AllUpTo 1048576 leasts.now }
    requires names { length leasts.now ≤ 8 }
    requires index { index ≤ length leasts.now }
    requires left { left ≤ 4 }
    ensures { IsTrue result
        ↔ AllExtended
        (λ js. pos 0 ≤ℤ shifted leasts.now (number (neg_ℤ (pos k)) ∷ monomials.now) js)
        (take index powers) (length leasts.now - index) left }
{
    if index == leasts.len() {
        return has_sign(k, monomials, leasts, &powers[..index]);
    }
    let mut next = powers;
    for power in 0..left + 1 {
        next[index] = power;
        if all_above_less(k, monomials, &next[..index + 1]) {
            return true;
        }
        if !never_negative(k, monomials, leasts, next, index + 1, left - power) {
            return false;
        }
    }
    true
}

// Whether the polynomial less k, over the names' least values plus new
// names, has no negative coefficient.
pub fn is_at_least(k: u64, monomials: &[Monomial], names: &[Name]) -> bool
    requires poly { IsPoly monomials.now }
    requires few { length names.now ≤ 8 }
    requires declared { AreNames names.now }
    ensures { IsTrue result ↔ ShownAtLeast k names.now monomials.now }
{
    let leasts = leasts_of(names);
    never_negative(k, monomials, &leasts[..names.len()], [0; 8], 0, 4)
}

// The sum of the positive monomials at the greatest sizes.
pub fn largest_of(monomials: &[Monomial], names: &[Name]) -> u128
    requires poly { IsPoly monomials.now }
    requires few { length names.now ≤ 8 }
    requires declared { AreNames names.now }
    ensures { result ≡ largest names.now monomials.now }
{
    let greatests = greatests_of(names);
    positives_of(monomials, &greatests[..names.len()])
}
