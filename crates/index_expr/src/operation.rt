//! The operations of index expressions.

ghost use Rattle.std.specs.Prelude.{◌≡◌, ◌≢◌, ◌<◌, ◌^◌, ◌↔◌, pos, unsigned_abs, IsTrue};

/// What an index expression does with two numbers.
#[derive(Clone, Copy)]
pub enum Operation {
    Sum,
    Difference,
    Product,
    /// Rounded toward 0.
    Quotient,
    /// What the quotient leaves.
    Remainder,
    Least,
    Greatest,
}

impl Operation {
    ghost use Rattle.index_expr.specs.Values.{operate, operate_words, Divides, WantsWords};

    /// The result on whole numbers.
    pub fn exact(self, a: i128, b: i128) -> i128
        requires divisor { Divides self → b ≢ pos 0 }
        requires first { unsigned_abs a < 2 ^ 120 }
        requires second { unsigned_abs b < 2 ^ 120 }
        requires result_fits { unsigned_abs (operate self a b) < 2 ^ 120 }
        ensures { result ≡ operate self a b }
    {
        match self {
            Operation::Sum => a + b,
            Operation::Difference => a - b,
            Operation::Product => a * b,
            Operation::Quotient => a / b,
            Operation::Remainder => a % b,
            Operation::Least => a.min(b),
            Operation::Greatest => a.max(b),
        }
    }

    /// The result on words of 32 bits: sums, differences and products wrap.
    pub fn wrapped(self, a: u32, b: u32) -> u32
        requires { Divides self → b ≢ 0 }
        ensures { result ≡ operate_words self a b }
    {
        match self {
            Operation::Sum => a.wrapping_add(b),
            Operation::Difference => a.wrapping_sub(b),
            Operation::Product => a.wrapping_mul(b),
            Operation::Quotient => a / b,
            Operation::Remainder => a % b,
            Operation::Least => a.min(b),
            Operation::Greatest => a.max(b),
        }
    }

    /// Whether the operation is asked of words alone: what it gives on words that wrapped tells
    /// nothing of the exact result.
    pub fn wants_words(self) -> bool
        ensures { IsTrue result ↔ WantsWords self }
    {
        match self {
            Operation::Sum | Operation::Difference | Operation::Product => false,
            Operation::Quotient | Operation::Remainder => true,
            Operation::Least | Operation::Greatest => true,
        }
    }
}
