//! Lengths as polynomials in the sizes: what is shown of them, their values, and what is refused.

ghost use Rattle.std.specs.Prelude.{◌<◌, ◌≤◌};

use size_arith::{
    Monomial, Name, Names, Poly, PolyNo, Sizes, operations_are_exact, shifts_are_exact,
};
use std::alloc::{AllocError, Global};

// Two names, M and then N, from 1 to 9.
fn two_names(alloc: Global) -> Result<Names, AllocError> {
    let mut names = Names::new(alloc);
    let name = Name {
        multiple: 1,
        from: 1,
        to: 9,
    };
    names.push(name)?;
    names.push(name)?;
    Ok(names)
}

fn number(alloc: Global, n: u32) -> Result<Poly, AllocError> {
    Poly::from_monomial(alloc, Monomial::number(n as i128))
}

fn name(alloc: Global, index: usize) -> Result<Poly, AllocError>
    requires { index < 8 }
{
    Poly::from_monomial(alloc, Monomial::size(1, index))
}

// The sum of so many names, each to this power.
fn sum_of_names(alloc: Global, count: usize, power: u32) -> Result<Poly, PolyNo>
    requires { count ≤ 8 }
{
    let mut sum = Poly::zero(alloc);
    for index in 0..count {
        let base = name(alloc, index)?;
        let mut product = number(alloc, 1)?;
        for _ in 0..power {
            product = product.mul(alloc, &base)?;
        }
        sum = sum.add(alloc, &product)?;
    }
    Ok(sum)
}

fn is_refused(answer: Result<Poly, PolyNo>, want: PolyNo) -> bool {
    match answer {
        Ok(_) => false,
        Err(no) => no == want,
    }
}

#[test]
fn a_square_less_its_root_is_shown(rt: HostRuntime) -> Result<(), PolyNo> {
    let names = two_names(rt.alloc())?;
    let square_less = square_less_root(rt.alloc())?;
    assert!(rt; square_less.shown_at_least(0, &names));
    assert!(rt; !square_less.shown_at_least(1, &names));
    assert!(rt; square_less.largest(&names) == 81);
    assert!(rt; square_less.shown_at_most(81, &names));
    assert!(rt; !square_less.shown_at_most(80, &names));
    Ok(())
}

// N*N - N
fn square_less_root(alloc: Global) -> Result<Poly, PolyNo> {
    let n = name(alloc, 1)?;
    n.mul(alloc, &n)?.sub(alloc, &n)
}

// N*M*-2
fn middle(alloc: Global) -> Result<Poly, PolyNo> {
    let both = name(alloc, 0)?.mul(alloc, &name(alloc, 1)?)?;
    let twice = both.add(alloc, &both)?;
    Poly::zero(alloc).sub(alloc, &twice)
}

// (M - N)*(M - N), which is never negative and isn't shown to be
fn square_of_difference(alloc: Global) -> Result<Poly, PolyNo> {
    let squares = sum_of_names(alloc, 2, 2)?;
    squares.add(alloc, &middle(alloc)?)
}

#[test]
fn a_square_of_a_difference_is_not_shown(rt: HostRuntime) -> Result<(), PolyNo> {
    let names = two_names(rt.alloc())?;
    assert!(rt; !square_of_difference(rt.alloc())?.shown_at_least(0, &names));
    Ok(())
}

#[test]
fn a_name_is_shown_from_its_least_value(rt: HostRuntime) -> Result<(), PolyNo> {
    let names = two_names(rt.alloc())?;
    let n = name(rt.alloc(), 1)?;
    assert!(rt; n.shown_at_least(1, &names));
    assert!(rt; !n.shown_at_least(2, &names));
    assert!(rt; !n.shown_at_least(u64::MAX, &names));
    let zero = Poly::zero(rt.alloc());
    assert!(rt; zero.shown_at_least(0, &names));
    assert!(rt; zero.shown_at_most(0, &names));
    Ok(())
}

// (N + 1)*(N - 1)
fn product(alloc: Global) -> Result<Poly, PolyNo> {
    let n = name(alloc, 1)?;
    let one = number(alloc, 1)?;
    let sum = n.add(alloc, &one)?;
    sum.mul(alloc, &n.sub(alloc, &one)?)
}

const PRODUCT: [Monomial; 2] = [
    Monomial {
        coefficient: -1,
        powers: [0; 8],
    },
    Monomial {
        coefficient: 1,
        powers: [0, 2, 0, 0, 0, 0, 0, 0],
    },
];

#[test]
fn a_product_has_each_monomial(rt: HostRuntime) -> Result<(), PolyNo> {
    let product = product(rt.alloc())?;
    assert!(rt; product.as_slice() == PRODUCT.as_slice());
    assert!(rt; product.copy(rt.alloc())?.same(&product));
    assert!(rt; !product.same(&name(rt.alloc(), 1)?));
    Ok(())
}

#[test]
fn a_name_less_itself_is_nothing(rt: HostRuntime) -> Result<(), PolyNo> {
    let n = name(rt.alloc(), 1)?;
    assert!(rt; n.sub(rt.alloc(), &n)?.as_slice().is_empty());
    Ok(())
}

// N*by + more
fn line(alloc: Global, by: u32, more: u32) -> Result<Poly, PolyNo> {
    let product = number(alloc, by)?.mul(alloc, &name(alloc, 1)?)?;
    product.add(alloc, &number(alloc, more)?)
}

fn is_quotient(alloc: Global, poly: &Poly, divisor: Monomial, want: &Poly) -> Result<bool, PolyNo> {
    match poly.divide_exact(alloc, &divisor)? {
        Some(quotient) => Ok(quotient.same(want)),
        None => Ok(false),
    }
}

fn is_no_quotient(alloc: Global, poly: &Poly, divisor: Monomial) -> Result<bool, AllocError> {
    Ok(poly.divide_exact(alloc, &divisor)?.is_none())
}

#[test]
fn a_line_is_divided_by_numbers(rt: HostRuntime) -> Result<(), PolyNo> {
    let alloc = rt.alloc();
    let whole = line(alloc, 4, 2)?;
    let half = line(alloc, 2, 1)?;
    assert!(rt; is_quotient(alloc, &whole, Monomial::number(2), &half)?);
    let negative = Poly::zero(alloc).sub(alloc, &half)?;
    assert!(rt; is_quotient(alloc, &whole, Monomial::number(-2), &negative)?);
    assert!(rt; is_no_quotient(alloc, &whole, Monomial::number(4))?);
    assert!(rt; is_no_quotient(alloc, &whole, Monomial::number(0))?);
    assert!(rt; is_no_quotient(alloc, &whole, Monomial::size(1, 1))?);
    Ok(())
}

#[test]
fn a_square_is_divided_by_its_root(rt: HostRuntime) -> Result<(), PolyNo> {
    let alloc = rt.alloc();
    let n = name(alloc, 1)?;
    let square = n.mul(alloc, &n)?;
    assert!(rt; is_quotient(alloc, &square, Monomial::size(1, 1), &n)?);
    assert!(rt; is_no_quotient(alloc, &n, Monomial::size(1, 0))?);
    Ok(())
}

const SIX: Name = Name {
    multiple: 6,
    from: 6,
    to: 600,
};

// The size 6*Y, from 6 to 600, with the value 12.
fn twelve(alloc: Global) -> Result<Sizes, AllocError> {
    let mut sizes = Sizes::new(alloc);
    sizes.push(SIX, 12)?;
    Ok(sizes)
}

fn six(alloc: Global) -> Result<Names, AllocError> {
    let mut names = Names::new(alloc);
    names.push(SIX)?;
    Ok(names)
}

fn multiple(alloc: Global) -> Result<Poly, AllocError> {
    Poly::from_monomial(alloc, Monomial::size(6, 0))
}

#[test]
fn a_multiple_has_its_values(rt: HostRuntime) -> Result<(), PolyNo> {
    let alloc = rt.alloc();
    let sizes = twelve(alloc)?;
    assert!(rt; sizes.copy(alloc)?.as_slice() == [2].as_slice());
    let n = multiple(alloc)?;
    assert!(rt; n.value_at(&sizes) == 12);
    assert!(rt; n.mul(alloc, &n)?.value_at(&sizes) == 144);
    assert!(rt; number(alloc, 1)?.sub(alloc, &n)?.value_at(&sizes) == -11);
    Ok(())
}

#[test]
fn a_multiple_has_its_range(rt: HostRuntime) -> Result<(), PolyNo> {
    let names = six(rt.alloc())?;
    assert!(rt; names.copy(rt.alloc())?.as_slice() == [SIX].as_slice());
    let n = multiple(rt.alloc())?;
    assert!(rt; n.largest(&names) == 600);
    assert!(rt; n.shown_at_least(6, &names));
    assert!(rt; !n.shown_at_least(7, &names));
    Ok(())
}

#[test]
fn a_multiple_is_over_its_base_name(rt: HostRuntime) -> Result<(), PolyNo> {
    let n = multiple(rt.alloc())?;
    assert!(rt; is_no_quotient(rt.alloc(), &n, Monomial::number(4))?);
    assert!(rt; !is_no_quotient(rt.alloc(), &n, Monomial::number(3))?);
    Ok(())
}

// The product of two polynomials is refused for this reason.
fn refused(alloc: Global, first: &Poly, second: &Poly, want: PolyNo) -> bool {
    is_refused(first.mul(alloc, second), want)
}

#[test]
fn too_many_monomials_are_refused_first(rt: HostRuntime) -> Result<(), PolyNo> {
    let alloc = rt.alloc();
    // 36 monomials of degree 2, and of degree 6
    let eight = sum_of_names(alloc, 8, 1)?;
    assert!(rt; refused(alloc, &eight, &eight, PolyNo::Terms(36)));
    let cubes = sum_of_names(alloc, 8, 3)?;
    assert!(rt; refused(alloc, &cubes, &cubes, PolyNo::Terms(36)));
    // 32 monomials of degree 3 pass
    let squares = sum_of_names(alloc, 4, 2)?;
    assert!(rt; squares.mul(alloc, &eight)?.as_slice().len() == 32);
    Ok(())
}

#[test]
fn a_degree_beyond_4_is_refused(rt: HostRuntime) -> Result<(), PolyNo> {
    let alloc = rt.alloc();
    let n = name(alloc, 0)?;
    let fourth = sum_of_names(alloc, 1, 4)?;
    assert!(rt; fourth.as_slice().len() == 1);
    assert!(rt; refused(alloc, &fourth, &n, PolyNo::Degree(5)));
    // degree before coefficient
    let many = number(alloc, 4294967295)?.mul(alloc, &fourth)?;
    assert!(rt; refused(alloc, &many, &many, PolyNo::Degree(8)));
    Ok(())
}

#[test]
fn a_great_coefficient_is_refused(rt: HostRuntime) -> Result<(), PolyNo> {
    let alloc = rt.alloc();
    let two = number(alloc, 2)?;
    let great = number(alloc, 4294967295)?;
    assert!(rt; refused(alloc, &two, &great, PolyNo::Coefficient(8589934590)));
    // beyond 64 bits
    assert!(rt;
        refused(
            alloc,
            &great,
            &great,
            PolyNo::Coefficient(18446744065119617025)
        )
    );
    assert!(rt; is_refused(great.add(alloc, &two), PolyNo::Coefficient(4294967297)));
    assert!(rt; great.add(alloc, &number(alloc, 1)?).is_ok());
    Ok(())
}

#[test]
fn a_great_negative_coefficient_is_refused(rt: HostRuntime) -> Result<(), PolyNo> {
    let alloc = rt.alloc();
    let least = Poly::zero(alloc).sub(alloc, &number(alloc, 4294967295)?)?;
    let two = number(alloc, 2)?;
    assert!(rt; is_refused(least.sub(alloc, &two), PolyNo::Coefficient(4294967297)));
    operations_are_exact();
    shifts_are_exact();
    Ok(())
}
