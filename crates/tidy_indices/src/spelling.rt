//! Expressions of a kernel for simplified index expressions.

ghost use Rattle.std.specs.Prelude.{◌≡◌, IfOk};
ghost use Rattle.index_expr.specs.Expression.{expression_of};
ghost use Rattle.kernel_tree.specs.Tree.{formula_of};
ghost use Rattle.tidy_indices.specs.Formulas.{simple_formula};
ghost use Rattle.index_simplify.specs.PlainRanges.{ranges_of};

use index_expr::Index;
use index_simplify::{Ranges, simplified};
use kernel_tree::tree::Expr;
use length_spelling::spell_index;
use std::alloc::{AllocError, Global};

/// An index expression, simplified at a place with these ranges: its variables are the turns that a
/// work-item is in.
pub fn spell_simplified(alloc: Global, index: &Index, ranges: &Ranges) -> Result<Expr, AllocError>
    ensures { IfOk result
        (λ e. formula_of e ≡ simple_formula (ranges_of ranges.now) (expression_of index.now)) }
{
    let index = simplified(alloc, index, ranges)?;
    spell_index(alloc, &index)
}
