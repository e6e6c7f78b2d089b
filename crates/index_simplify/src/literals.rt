//! Operations on two numbers.

ghost use Rattle.std.specs.Prelude.{◌≡◌};
ghost use Rattle.index_expr.specs.Expression.{expression_of};
ghost use Rattle.index_simplify.specs.Literals as spec;

use index_expr::{Index, Operation};

// The result on two numbers, where it is a word. Over 0 a quotient is 0 and the remainder is the
// dividend, as over the whole numbers.
fn computed_from(operation: Operation, m: u32, n: u32) -> Option<u32>
    ensures { result ≡ spec.computed_from operation m n }
{
    match operation {
        Operation::Sum => m.checked_add(n),
        Operation::Difference => m.checked_sub(n),
        Operation::Product => m.checked_mul(n),
        Operation::Quotient => Some(m.checked_div(n).unwrap_or(0)),
        Operation::Remainder => Some(m.checked_rem(n).unwrap_or(m)),
        Operation::Least => Some(m.min(n)),
        Operation::Greatest => Some(m.max(n)),
    }
}

fn computed_with(operation: Operation, m: u32, b: &Index) -> Option<u32>
    ensures { result ≡ spec.computed_with operation m (expression_of b.now) }
{
    match b {
        Index::Literal(n) => computed_from(operation, m, *n),
        Index::Variable { .. } | Index::Size(_) | Index::Binary(_, _, _) => None,
    }
}

/// The result on two literals, where it is a word.
pub fn computed(operation: Operation, a: &Index, b: &Index) -> Option<u32>
    ensures { result ≡ spec.computed operation (expression_of a.now) (expression_of b.now) }
{
    match a {
        Index::Literal(m) => computed_with(operation, *m, b),
        Index::Variable { .. } | Index::Size(_) | Index::Binary(_, _, _) => None,
    }
}
