//! Expressions of a kernel for index expressions and lengths.

ghost use Rattle.std.specs.Prelude.{◌≡◌, IfOk};
ghost use Rattle.index_expr.specs.Expression.{expression_of};
ghost use Rattle.kernel_tree.specs.Tree.{formula_of};
ghost use Rattle.length_spelling.specs.Formulas.{index_formula, length_formula, operator_of, spelled_length};

use crate::turn::Turn;
use index_expr::{Index, Operation, length_index};
use kernel_tree::tree::Expr;
use scalar_ops::op::Op;
use size_arith::{Names, Poly};
use std::alloc::{AllocError, Global};

/// The operator that an operation is.
pub fn operator_of(operation: Operation) -> Op
    ensures { result ≡ operator_of operation }
{
    match operation {
        Operation::Sum => Op::Add,
        Operation::Difference => Op::Sub,
        Operation::Product => Op::Mul,
        Operation::Quotient => Op::Div,
        Operation::Remainder => Op::Rem,
        Operation::Least => Op::Min,
        Operation::Greatest => Op::Max,
    }
}

/// An index expression: its variables are the turns that a work-item is in.
pub fn spell_index(alloc: Global, index: &Index) -> Result<Expr, AllocError>
    ensures { IfOk result (λ e. formula_of e ≡ index_formula (expression_of index.now)) }
{
    match index {
        Index::Variable { number, .. } => Ok(Turn::of_number(*number).expr()),
        Index::Literal(n) => Ok(Expr::Number(*n)),
        Index::Size(number) => Ok(Expr::Size(*number)),
        Index::Binary(operation, a, b) => {
            let a = spell_index(alloc, a)?;
            let b = spell_index(alloc, b)?;
            Expr::binary(alloc, operator_of(*operation), a, b)
        }
    }
}

/// A length as an index expression over the sizes, in the order of their declarations.
#[tactic(auto, using(crate::proofs::Words::polynomials_are_of_words))]
pub fn spelled_length(alloc: Global, length: &Poly, names: &Names) -> Result<Index, AllocError>
    ensures { IfOk result (λ e. expression_of e ≡ spelled_length names.now length.now) }
{
    let _declared = names.as_slice();
    let _within = length.as_slice();
    length_index(alloc, length, names)
}

/// A length over the sizes. It has the length's value at all admissible sizes.
pub fn spell_length(alloc: Global, length: &Poly, names: &Names) -> Result<Expr, AllocError>
    ensures { IfOk result (λ e. formula_of e ≡ length_formula names.now length.now) }
{
    let index = spelled_length(alloc, length, names)?;
    spell_index(alloc, &index)
}
