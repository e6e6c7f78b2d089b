//! Sums and products of whole numbers, within 128 bits.

ghost use Rattle.std.specs.Prelude.{◌≡◌, ◌*◌, ◌≤◌, ◌^◌, ◌+ℤ◌, ◌*ℤ◌, pos, unsigned_abs};
ghost use Rattle.size_arith.specs.Polynomial.{is_zero};

pub fn sum_of(a: i128, b: i128) -> i128
    requires first { unsigned_abs a ≤ 2 ^ 124 }
    requires second { unsigned_abs b ≤ 2 ^ 124 }
    ensures { result ≡ a +ℤ b }
{
    a + b
}

pub fn product_of(a: i128, b: i128) -> i128
    requires first { unsigned_abs a ≤ 2 ^ 33 }
    requires second { unsigned_abs b ≤ 2 ^ 33 }
    ensures { result ≡ a *ℤ b }
{
    a * b
}

// A coefficient times a product of powers.
pub fn scaled(coefficient: i128, product: u128) -> i128
    requires coefficient { unsigned_abs coefficient ≤ 2 ^ 32 }
    requires product { product ≤ 2 ^ 86 }
    ensures value { result ≡ coefficient *ℤ pos product }
    ensures cap { unsigned_abs result ≤ 2 ^ 118 }
{
    coefficient * (product as i128)
}

pub fn is_zero(a: i128) -> bool
    ensures { result ≡ is_zero a }
{
    a == 0
}
