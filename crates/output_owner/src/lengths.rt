//! Products of factors and counts of scalars at a launch, worked out without memory.

ghost use Rattle.std.specs.Prelude.{◌≡◌, ◌%◌, ◌<◌, ◌^◌};
ghost use Rattle.launch_lengths.specs.Bases.{bases_of};
ghost use Rattle.lift_ir.specs.AtLaunch.{ty_at};
ghost use Rattle.lift_ir.specs.Types.{size};
ghost use Rattle.lift_tree.specs.Meaning.{factor_at, product_at as product_of};
ghost use Rattle.lift_tree.specs.Types.{ty_of};
ghost use Rattle.size_arith.specs.Ranges.{AreNames};

use launch_lengths::length_of;
use lift_tree::length::Factor;
use lift_tree::ty::Ty;
use size_arith::Name;

// The value of a factor; a size that isn't declared counts as 0.
#[tactic(auto, using(crate::proofs::Factors::sizes_by_number))]
fn value(factor: Factor, sizes: &[u32]) -> u32
    ensures { result ≡ factor_at sizes.now factor }
{
    match factor {
        Factor::Number(number) => number,
        Factor::Size(number) => sizes.get(number as usize).copied().unwrap_or(0),
    }
}

/// The product of the factors at these sizes, in 32 bits.
pub fn product(factors: &[Factor], sizes: &[u32]) -> u32
    ensures { result ≡ product_of sizes.now factors.now % 2 ^ 32 }
{
    match factors {
        [] => 1,
        [factor, rest @ ..] => value(*factor, sizes).wrapping_mul(product(rest, sizes)),
    }
}

/// How many scalars a component of the type has at these sizes, where there are less than 2^32 and
/// not none.
#[tactic(auto, using(crate::proofs::Products::factors))]
pub fn scalars(ty: &Ty, names: &[Name], sizes: &[u32]) -> u32
    requires names { AreNames names.now }
    ensures { 0 < size (ty_at (bases_of names.now sizes.now) (ty_of ty.now))
        → size (ty_at (bases_of names.now sizes.now) (ty_of ty.now)) < 2 ^ 32
        → result ≡ size (ty_at (bases_of names.now sizes.now) (ty_of ty.now)) }
{
    match ty {
        Ty::Number | Ty::Pair(_, _) => 1,
        Ty::Vector => 4,
        Ty::Array(element, length) => {
            let length = length_of(length, names, sizes);
            length.wrapping_mul(scalars(element, names, sizes))
        }
    }
}
