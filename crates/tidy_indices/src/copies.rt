//! Copies of a kernel's expressions.

ghost use Rattle.std.specs.Prelude.{◌≡◌, IfOk};
ghost use Rattle.kernel_tree.specs.Tree.{formula_of};

use kernel_tree::tree::Expr;
use std::alloc::{AllocError, Global};

/// An equal expression in memory of its own.
pub fn copied(alloc: Global, expr: &Expr) -> Result<Expr, AllocError>
    ensures { IfOk result (λ e. formula_of e ≡ formula_of expr.now) }
{
    match expr {
        Expr::Number(n) => Ok(Expr::Number(*n)),
        Expr::Variable(number) => Ok(Expr::Variable(*number)),
        Expr::LoopVariable(number) => Ok(Expr::LoopVariable(*number)),
        Expr::Size(number) => Ok(Expr::Size(*number)),
        Expr::Id(dimension, form) => Ok(Expr::Id(*dimension, *form)),
        Expr::Binary(op, a, b) => {
            let a = copied(alloc, a)?;
            Expr::binary(alloc, *op, a, copied(alloc, b)?)
        }
        Expr::Choose(comparison, a, b, yes, no) => {
            let a = copied(alloc, a)?;
            let b = copied(alloc, b)?;
            let yes = copied(alloc, yes)?;
            Expr::choose(alloc, *comparison, a, b, yes, copied(alloc, no)?)
        }
    }
}
