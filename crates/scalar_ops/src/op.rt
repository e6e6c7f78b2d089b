//! The operators and what they give.

ghost use Rattle.std.specs.Prelude.{◌≡◌};
ghost use Rattle.scalar_ops.specs.Operators;

/// An operator on two words of 32 bits.
#[derive(Clone, Copy, PartialEq, Eq)]
pub enum Op {
    Add,
    Mul,
    Min,
    Max,
    And,
    Or,
    Xor,
    Sub,
    Shl,
    Shr,
    Lt,
    Eq,
    Div,
    Rem,
}

/// An operator that is associative and commutative, so that a list may be
/// reduced by it in any grouping.
#[derive(Clone, Copy, Debug, PartialEq, Eq)]
pub enum Reducer {
    Add,
    Mul,
    Min,
    Max,
    And,
    Or,
    Xor,
}

/// What the operator gives on `a` and `b`.
///
/// Sums, differences and products wrap, and a shift uses the five low bits of `b`, as OpenCL C 1.2
/// has them for `uint` (section 6.3). `Lt` and `Eq` give 1 where they hold and else 0.
pub fn apply(op: Op, a: u32, b: u32) -> u32
    requires divisor { Operators.IsDefined op b }
    ensures { result ≡ Operators.apply_op op a b }
{
    match op {
        Op::Add => a.wrapping_add(b),
        Op::Mul => a.wrapping_mul(b),
        Op::Min => a.min(b),
        Op::Max => a.max(b),
        Op::And => a & b,
        Op::Or => a | b,
        Op::Xor => a ^ b,
        Op::Sub => a.wrapping_sub(b),
        Op::Shl => a << (b % 32),
        Op::Shr => a >> (b % 32),
        Op::Lt => (a < b) as u32,
        Op::Eq => (a == b) as u32,
        Op::Div => a / b,
        Op::Rem => a % b,
    }
}

/// `a` where `c` isn't 0, else `b`.
pub fn choose(c: u32, a: u32, b: u32) -> u32
    ensures { result ≡ Operators.choose c a b }
{
    if c != 0 { a } else { b }
}

impl Reducer {
    /// The same operator among all.
    pub fn op(self) -> Op
        ensures { result ≡ Operators.op_of self }
    {
        match self {
            Reducer::Add => Op::Add,
            Reducer::Mul => Op::Mul,
            Reducer::Min => Op::Min,
            Reducer::Max => Op::Max,
            Reducer::And => Op::And,
            Reducer::Or => Op::Or,
            Reducer::Xor => Op::Xor,
        }
    }

    /// The word that changes nothing.
    pub fn neutral(self) -> u32
        ensures { result ≡ Operators.neutral self }
    {
        match self {
            Reducer::Add | Reducer::Max | Reducer::Or | Reducer::Xor => 0,
            Reducer::Mul => 1,
            Reducer::Min | Reducer::And => u32::MAX,
        }
    }
}
