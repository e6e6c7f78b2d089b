//! Operators on words.

ghost use Rattle.std.specs.Prelude.{◌≡◌, ◌/◌, ◌%◌};
ghost use Rattle.scalar_ops.specs.Operators.{combine};

use scalar_ops::{Reducer, apply};

/// What a regrouping operator gives.
#[tactic(auto, using(crate::proofs::Operators::reducer_is_defined))]
pub fn combined(reducer: Reducer, a: u32, b: u32) -> u32
    ensures { result ≡ combine reducer a b }
{
    apply(reducer.op(), a, b)
}

/// The whole quotient; by 0 it is 0.
#[tactic(auto, using(crate::proofs::Operators::by_zero))]
pub fn quotient(a: u32, b: u32) -> u32
    ensures { result ≡ a / b }
{
    if b == 0 { 0 } else { a / b }
}

/// The remainder; by 0 it is the number itself.
#[tactic(auto, using(crate::proofs::Operators::by_zero))]
pub fn remainder(a: u32, b: u32) -> u32
    ensures { result ≡ a % b }
{
    if b == 0 { a } else { a % b }
}
