//! Index expressions, and lengths as such.

ghost use Rattle.std.specs.Prelude.{◌<◌};

use index_expr::{Index, Operation, Point, length_index};
use size_arith::{Monomial, Name, Names, Poly, PolyNo};
use std::alloc::{AllocError, Global};
use std::test::Fail;

fn name(alloc: Global, index: usize) -> Result<Poly, AllocError>
    requires { index < 8 }
{
    Poly::from_monomial(alloc, Monomial::size(1, index))
}

// M, a multiple of 2 from 2 to 8, and N from 1 to 9.
fn two_names(alloc: Global) -> Result<Names, AllocError> {
    let mut names = Names::new(alloc);
    names.push(Name {
        multiple: 2,
        from: 2,
        to: 8,
    })?;
    names.push(Name {
        multiple: 1,
        from: 1,
        to: 9,
    })?;
    Ok(names)
}

fn is_size(index: &Index, size: u32) -> bool {
    match index {
        Index::Size(number) => *number == size,
        _ => false,
    }
}

fn is_literal(index: &Index, literal: u32) -> bool {
    match index {
        Index::Literal(number) => *number == literal,
        _ => false,
    }
}

// The size over the number.
fn is_part(index: &Index, size: u32, divisor: u32) -> bool {
    match index {
        Index::Binary(Operation::Quotient, a, b) => is_size(a, size) && is_literal(b, divisor),
        _ => false,
    }
}

fn is_square(index: &Index, size: u32) -> bool {
    match index {
        Index::Binary(Operation::Product, a, b) => is_size(a, size) && is_size(b, size),
        _ => false,
    }
}

#[test]
fn operations_give_worked_values(rt: HostRuntime) {
    assert_eq!(rt; Operation::Sum.exact(4294967295, 1), 4294967296);
    assert_eq!(rt; Operation::Sum.wrapped(4294967295, 1), 0);
    assert_eq!(rt; Operation::Difference.exact(3, 5), -2);
    assert_eq!(rt; Operation::Difference.wrapped(3, 5), 4294967294);
    assert_eq!(rt; Operation::Product.exact(65536, 65537), 4295032832);
    assert_eq!(rt; Operation::Product.wrapped(65536, 65537), 65536);
}

#[test]
fn divisions_and_bounds_give_worked_values(rt: HostRuntime) {
    assert_eq!(rt; Operation::Quotient.exact(14, 4), 3);
    assert_eq!(rt; Operation::Quotient.wrapped(14, 4), 3);
    assert_eq!(rt; Operation::Remainder.exact(14, 4), 2);
    assert_eq!(rt; Operation::Remainder.wrapped(14, 4), 2);
    assert_eq!(rt; Operation::Least.exact(-1, 3), -1);
    assert_eq!(rt; Operation::Least.wrapped(9, 3), 3);
    assert_eq!(rt; Operation::Greatest.exact(-1, 3), 3);
    assert_eq!(rt; Operation::Greatest.wrapped(9, 3), 9);
    assert!(rt; Operation::Least.wants_words());
    assert!(rt; !Operation::Sum.wants_words());
}

// Variables 7 and 8, and a size of 5.
fn point(alloc: Global) -> Result<Point, AllocError> {
    Ok(Point {
        variables: [7u32, 8].to_vec(alloc)?,
        sizes: [5u32].to_vec(alloc)?,
    })
}

#[test]
fn variables_and_sizes_are_told_apart(rt: HostRuntime) -> Result<(), Fail> {
    let point = point(rt.alloc())?;
    let variable = Index::Variable {
        number: 1,
        least: 0,
        greatest: 9,
    };
    assert_eq!(rt; variable.exact(&point), 8);
    assert_eq!(rt; variable.wrapped(&point), 8);
    assert!(rt; variable.is_ranged(&point));
    assert_eq!(rt; Index::Size(0).exact(&point), 5);
    assert_eq!(rt; Index::Size(1).wrapped(&point), 0);
    assert_eq!(rt; Index::Literal(4294967295).exact(&point), 4294967295);
    Ok(())
}

// M is twice its base name.
#[test]
fn a_base_name_is_its_size_over_its_divisor(rt: HostRuntime) -> Result<(), Fail> {
    let alloc = rt.alloc();
    let length = Poly::from_monomial(alloc, Monomial::size(2, 0))?;
    let index = length_index(alloc, &length, &two_names(alloc)?)?;
    assert_eq!(rt; index.node_count(), 5);
    match index.copy(alloc)? {
        Index::Binary(Operation::Product, a, b) => {
            assert!(rt; is_literal(&a, 2) && is_part(&b, 0, 2));
        }
        _ => assert!(rt; false),
    }
    Ok(())
}

// N*N less the half of M.
#[test]
fn positive_monomials_come_first(rt: HostRuntime) -> Result<(), PolyNo> {
    let alloc = rt.alloc();
    let n = name(alloc, 1)?;
    let length = n.mul(alloc, &n)?.sub(alloc, &name(alloc, 0)?)?;
    let index = length_index(alloc, &length, &two_names(alloc)?)?;
    assert_eq!(rt; index.node_count(), 7);
    match index {
        Index::Binary(Operation::Difference, a, b) => {
            assert!(rt; is_square(&a, 1) && is_part(&b, 0, 2));
        }
        _ => assert!(rt; false),
    }
    Ok(())
}
