//! Laws of index expressions, each carried by a function that does nothing.

ghost use Rattle.std.specs.Prelude.{◌≡◌, ◌≤◌, ℕ, List};
ghost use Rattle.size_arith.specs.declared.names.Name.{Name};
ghost use Rattle.size_arith.specs.declared.poly.Monomial.{Monomial};
ghost use Rattle.size_arith.specs.Ranges.{AreNames, Admissible, sizes_at};
ghost use Rattle.size_arith.specs.Polynomial.{value_at};
ghost use Rattle.index_expr.specs.Expression.{Expression, nodes, short_nodes};
ghost use Rattle.index_expr.specs.Values.{exact, IsRangedAt, IsWord, HasNoZeroDivisorAt};
ghost use Rattle.index_expr.specs.Lengths.{length_expression};
ghost use Rattle.index_expr.specs.Laws.{RangedValuesAreExact, RangedDivisorsStay};

/// Where an expression is ranged, its value on words is the exact value, and no divisor's value on
/// words is 0 where none is over the whole numbers.
pub fn ranged_values_are_exact()
    ensures value { RangedValuesAreExact }
    ensures divisors { RangedDivisorsStay }
{}

/// The expression of a length has its value at all admissible sizes, is ranged where this is a
/// word, and divides by no 0.
pub fn lengths_are_exact()
    ensures value { (names : List Name) (bases variables : List ℕ) (length : List Monomial) →
        AreNames names → Admissible names bases →
        exact (sizes_at names bases) variables (length_expression names length)
        ≡ value_at bases length }
    ensures ranged { (names : List Name) (bases variables : List ℕ) (length : List Monomial) →
        AreNames names → Admissible names bases → IsWord (value_at bases length) →
        IsRangedAt (sizes_at names bases) variables (length_expression names length) }
    ensures divisors { (names : List Name) (bases variables : List ℕ) (length : List Monomial) →
        AreNames names →
        HasNoZeroDivisorAt (sizes_at names bases) variables (length_expression names length) }
{}

/// Counted in short, an expression has no more nodes.
pub fn short_counts_are_no_greater()
    ensures { (e : Expression) → short_nodes e ≤ nodes e }
{}
