//! Index expressions and lengths as expressions of a kernel.

use index_expr::{Index, Operation};
use kernel_tree::tree::{Dimension, Expr, IdForm};
use length_spelling::{spell_index, spell_length};
use scalar_ops::op::Op;
use size_arith::{Monomial, Name, Names, Poly};
use std::alloc::{AllocError, Global};
use std::test::Fail;

// M, a multiple of 4 from 4 to 8.
fn one_name(alloc: Global) -> Result<Names, AllocError> {
    let mut names = Names::new(alloc);
    names.push(Name {
        multiple: 4,
        from: 4,
        to: 8,
    })?;
    Ok(names)
}

fn is_size(expr: &Expr, size: u32) -> bool {
    match expr {
        Expr::Size(number) => *number == size,
        _ => false,
    }
}

fn is_number(expr: &Expr, number: u32) -> bool {
    match expr {
        Expr::Number(n) => *n == number,
        _ => false,
    }
}

fn is_loop_variable(expr: &Expr, depth: u32) -> bool {
    match expr {
        Expr::LoopVariable(number) => *number == depth,
        _ => false,
    }
}

// A quarter of M.
#[test]
fn a_base_name_is_spelled_as_its_size_over_its_divisor(rt: HostRuntime) -> Result<(), Fail> {
    let alloc = rt.alloc();
    let length = Poly::from_monomial(alloc, Monomial::size(1, 0))?;
    match spell_length(alloc, &length, &one_name(alloc)?)? {
        Expr::Binary(Op::Div, a, b) => assert!(rt; is_size(&a, 0) && is_number(&b, 4)),
        _ => assert!(rt; false),
    }
    Ok(())
}

fn variable(number: u32) -> Index {
    Index::Variable {
        number,
        least: 0,
        greatest: 9,
    }
}

fn spelled(alloc: Global, number: u32) -> Result<Expr, AllocError> {
    spell_index(alloc, &variable(number))
}

#[test]
fn variables_are_turns(rt: HostRuntime) -> Result<(), Fail> {
    let alloc = rt.alloc();
    assert!(rt; matches!(spelled(alloc, 0)?, Expr::Id(Dimension::X, IdForm::GroupId)));
    assert!(rt; matches!(spelled(alloc, 1)?, Expr::Id(Dimension::X, IdForm::LocalId)));
    assert!(rt; matches!(spelled(alloc, 2)?, Expr::Id(Dimension::Y, IdForm::GroupId)));
    assert!(rt; matches!(spelled(alloc, 3)?, Expr::Id(Dimension::Y, IdForm::LocalId)));
    assert!(rt; is_loop_variable(&spelled(alloc, 4)?, 0));
    let first = Box::new(alloc, variable(5))?;
    let index = Index::Binary(Operation::Least, first, Box::new(alloc, Index::Literal(7))?);
    match spell_index(alloc, &index)? {
        Expr::Binary(Op::Min, a, b) => assert!(rt; is_loop_variable(&a, 1) && is_number(&b, 7)),
        _ => assert!(rt; false),
    }
    Ok(())
}
