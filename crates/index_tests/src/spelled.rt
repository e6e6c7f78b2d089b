//! Simplified indices and lengths as expressions of a kernel.

use crate::trees::{Tree, index_of};
use index_expr::Operation::{Product, Quotient, Remainder, Sum};
use index_simplify::Ranges;
use kernel_tree::tree::Expr;
use length_spelling::spelled_length;
use size_arith::{Monomial, Name, Names, Poly};
use std::alloc::Global;
use std::test::Fail;
use tidy_indices::spell_simplified;

// The variable of the outermost loop.
const I: Tree = Tree::Variable(4, 4294967295);

const THREE: Tree = Tree::Number(3);

// What a join of rows of 3 reads: (i0 / 3) * 3 + i0 % 3.
const JOINED: Tree = Tree::Binary(
    Sum,
    &Tree::Binary(Product, &Tree::Binary(Quotient, &I, &THREE), &THREE),
    &Tree::Binary(Remainder, &I, &THREE),
);

fn no_loops(alloc: Global) -> Ranges {
    Ranges {
        lengths: Vec::new(alloc),
        multiples: Vec::new(alloc),
    }
}

#[test]
fn a_join_over_rows_is_spelled_by_its_variable(rt: HostRuntime) -> Result<(), Fail> {
    let alloc = rt.alloc();
    let spelled = spell_simplified(alloc, &index_of(alloc, &JOINED)?, &no_loops(alloc))?;
    assert!(rt; matches!(spelled, Expr::LoopVariable(0)));
    Ok(())
}

// N, a multiple of 2, is twice its base name.
#[test]
fn a_length_that_is_a_size_is_spelled_by_it(rt: HostRuntime) -> Result<(), Fail> {
    let alloc = rt.alloc();
    let mut names = Names::new(alloc);
    names.push(Name {
        multiple: 2,
        from: 2,
        to: 8,
    })?;
    let length = Poly::from_monomial(alloc, Monomial::size(2, 0))?;
    let mut ranges = no_loops(alloc);
    ranges.multiples.push(2)?;
    let spelled = spell_simplified(alloc, &spelled_length(alloc, &length, &names)?, &ranges)?;
    assert!(rt; matches!(spelled, Expr::Size(0)));
    Ok(())
}
