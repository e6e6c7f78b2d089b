//! Lengths at given sizes.

ghost use Rattle.std.specs.Prelude.{◌≡◌, ◌%◌, ◌^◌};
ghost use Rattle.lift_tree.specs.Meaning.{factor_at, product_at};
ghost use Rattle.launch_file.specs.Inputs as lengths;
ghost use Rattle.launch_file.specs.Inputs.{LengthFits};

use lift_tree::length::{Factor, Length, Sign};

#[tactic(auto, using(crate::proofs::Lengths::sizes_by_number))]
// The value of a factor; a size that isn't declared counts as 0.
fn factor_at(sizes: &[u32], factor: Factor) -> u32
    ensures { result ≡ factor_at sizes.now factor }
{
    match factor {
        Factor::Number(n) => n,
        Factor::Size(i) => sizes.get(i as usize).copied().unwrap_or(0),
    }
}

#[tactic(auto, using(crate::proofs::Lengths::times_next))]
// The product of the factors modulo 2^64.
fn product_at(sizes: &[u32], factors: &[Factor]) -> u64
    ensures { result ≡ product_at sizes.now factors.now % 2 ^ 64 }
{
    let mut product = 1u64;
    for factor in factors {
        product = product.wrapping_mul(u64::from(factor_at(sizes, *factor)));
    }
    product
}

/// The length at these sizes. Products and sums wrap on the way: what they come to has 64 bits.
pub fn length_at(sizes: &[u32], length: &Length) -> u64
    requires { LengthFits sizes.now length.now }
    ensures { result ≡ lengths.length_at sizes.now length.now }
{
    let mut sum = 0u64;
    for part in length.parts() {
        let product = product_at(sizes, part.product.factors());
        sum = match part.sign {
            Sign::Plus => sum.wrapping_add(product),
            Sign::Minus => sum.wrapping_sub(product),
        };
    }
    sum
}
