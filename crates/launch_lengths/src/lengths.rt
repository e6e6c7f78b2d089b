//! Lengths at a launch.

ghost use Rattle.std.specs.Prelude.{◌≡◌, ◌*◌, ◌*ℤ◌, ◌+ℤ◌, pos, ◌<◌, ◌≤◌, ◌^◌, length, unsigned_abs};
ghost use Rattle.launch_lengths.specs.Bases.{bases_of};
ghost use Rattle.lift_ir.specs.AtLaunch.{length_at};
ghost use Rattle.size_arith.specs.Polynomial.{AllLow, AllSmall, product, total, value_at};
ghost use Rattle.size_arith.specs.Ranges.{AreNames};

use size_arith::{Monomial, Name, Poly};

// The product of the base names' powers.
fn product_at(names: &[Name], sizes: &[u32], powers: &[u8]) -> u128
    requires names { AreNames names.now }
    requires low { total powers.now ≤ 4 }
    ensures value { result ≡ product (bases_of names.now sizes.now) powers.now }
    ensures cap { result ≤ 2 ^ 80 }
{
    match names {
        [] => 1,
        [name, names @ ..] => match sizes {
            [] => 1,
            [size, sizes @ ..] => match powers {
                [] => 1,
                [power, powers @ ..] => {
                    let base = (*size / name.multiple).min(1048576);
                    (base as u128).pow(*power as u32) * product_at(names, sizes, powers)
                }
            },
        },
    }
}

fn scaled(coefficient: i128, product: u128) -> i128
    requires coefficient { unsigned_abs coefficient ≤ 2 ^ 32 }
    requires product { product ≤ 2 ^ 86 }
    ensures value { result ≡ coefficient *ℤ pos product }
    ensures cap { unsigned_abs result ≤ 2 ^ 118 }
{
    coefficient * (product as i128)
}

fn sum_of(a: i128, b: i128) -> i128
    requires first { unsigned_abs a ≤ 2 ^ 124 }
    requires second { unsigned_abs b ≤ 2 ^ 124 }
    ensures { result ≡ a +ℤ b }
{
    a + b
}

// The value of a sum of monomials.
fn value_of(monomials: &[Monomial], names: &[Name], sizes: &[u32]) -> i128
    requires names { AreNames names.now }
    requires small { AllSmall (2 ^ 32) monomials.now }
    requires low { AllLow 4 monomials.now }
    requires few { length monomials.now ≤ 32 }
    ensures value { result ≡ value_at (bases_of names.now sizes.now) monomials.now }
    ensures cap { unsigned_abs result ≤ length monomials.now * 2 ^ 118 }
{
    match monomials {
        [] => 0,
        [first, rest @ ..] => {
            let product = product_at(names, sizes, &first.powers);
            sum_of(
                scaled(first.coefficient, product),
                value_of(rest, names, sizes),
            )
        }
    }
}

/// A length at these sizes, where it is a word.
pub fn length_of(length: &Poly, names: &[Name], sizes: &[u32]) -> u32
    requires names { AreNames names.now }
    ensures { length_at (bases_of names.now sizes.now) length.now < 2 ^ 32
        → result ≡ length_at (bases_of names.now sizes.now) length.now }
{
    let value = value_of(length.as_slice(), names, sizes);
    if 0 <= value && value <= u32::MAX as i128 {
        value as u32
    } else {
        0
    }
}
