//! Lengths as index expressions.

ghost use Rattle.std.specs.Prelude.{◌≡◌, ◌+◌, ◌≤◌, ◌<◌, ◌^◌, IfOk, length, option_map, unsigned_abs};
ghost use Rattle.size_arith.specs.Polynomial.{AllSmall};
ghost use Rattle.index_expr.specs.Expression.{expression_of, Literal};
ghost use Rattle.index_expr.specs.Lengths.{base_expression, joined, repeated, product_expression, number_expression, monomial_expression, positive_sum, negative_sum, length_expression};

use crate::index::Index;
use crate::operation::Operation;
use size_arith::{Monomial, Name, Names, Poly};
use std::alloc::{AllocError, Global};

fn join(
    alloc: Global,
    operation: Operation,
    first: Index,
    rest: Option<Index>,
) -> Result<Index, AllocError>
    ensures { IfOk result (λ e. expression_of e
        ≡ joined operation (expression_of first) (option_map expression_of rest)) }
{
    match rest {
        None => Ok(first),
        Some(rest) => Index::binary(alloc, operation, first, rest),
    }
}

// A base name: its size over its divisor.
fn base_index(alloc: Global, number: u32, name: &Name) -> Result<Index, AllocError>
    ensures { IfOk result (λ e. expression_of e ≡ base_expression number name.now.multiple) }
{
    if name.multiple == 1 {
        return Ok(Index::Size(number));
    }
    Index::binary(
        alloc,
        Operation::Quotient,
        Index::Size(number),
        Index::Literal(name.multiple),
    )
}

// So many factors of the base name before the rest.
fn power_index(
    alloc: Global,
    number: u32,
    name: &Name,
    power: u8,
    rest: Option<Index>,
) -> Result<Option<Index>, AllocError>
    ensures { IfOk result (λ e. option_map expression_of e
        ≡ repeated (base_expression number name.now.multiple) power
        (option_map expression_of rest)) }
{
    if power == 0 {
        return Ok(rest);
    }
    let rest = power_index(alloc, number, name, power - 1, rest)?;
    let base = base_index(alloc, number, name)?;
    Ok(Some(join(alloc, Operation::Product, base, rest)?))
}

// The product of powers of the base names, the first of which has this number.
fn product_index(
    alloc: Global,
    number: u32,
    names: &[Name],
    powers: &[u8],
) -> Result<Option<Index>, AllocError>
    requires { number + length names.now ≤ 8 }
    ensures { IfOk result (λ e. option_map expression_of e
        ≡ product_expression number names.now powers.now) }
{
    match names {
        [] => Ok(None),
        [name, names @ ..] => match powers {
            [] => Ok(None),
            [power, powers @ ..] => {
                let rest = product_index(alloc, number + 1, names, powers)?;
                power_index(alloc, number, name, *power, rest)
            }
        },
    }
}

fn number_index(alloc: Global, number: u128) -> Result<Index, AllocError>
    requires { number ≤ 2 ^ 32 }
    ensures { IfOk result (λ e. expression_of e ≡ number_expression number) }
{
    if number == 4294967296 {
        return Index::binary(
            alloc,
            Operation::Product,
            Index::Literal(65536),
            Index::Literal(65536),
        );
    }
    Ok(Index::Literal(number as u32))
}

// The monomial without its sign.
fn monomial_index(alloc: Global, names: &[Name], monomial: &Monomial) -> Result<Index, AllocError>
    requires few { length names.now ≤ 8 }
    requires coefficient { unsigned_abs monomial.now.coefficient ≤ 2 ^ 32 }
    ensures { IfOk result (λ e. expression_of e ≡ monomial_expression names.now monomial.now) }
{
    let coefficient = monomial.coefficient.unsigned_abs();
    match product_index(alloc, 0, names, &monomial.powers)? {
        None => number_index(alloc, coefficient),
        Some(product) => {
            if coefficient == 1 {
                return Ok(product);
            }
            let number = number_index(alloc, coefficient)?;
            Index::binary(alloc, Operation::Product, number, product)
        }
    }
}

// The sum of the positive monomials.
fn positives_index(
    alloc: Global,
    names: &[Name],
    monomials: &[Monomial],
) -> Result<Option<Index>, AllocError>
    requires few { length names.now ≤ 8 }
    requires coefficients { AllSmall (2 ^ 32) monomials.now }
    ensures { IfOk result
        (λ e. option_map expression_of e ≡ positive_sum names.now monomials.now) }
{
    match monomials {
        [] => Ok(None),
        [first, rest @ ..] => {
            let rest = positives_index(alloc, names, rest)?;
            if first.coefficient < 0 {
                return Ok(rest);
            }
            let first = monomial_index(alloc, names, first)?;
            Ok(Some(join(alloc, Operation::Sum, first, rest)?))
        }
    }
}

// The sum of the negative monomials without their signs.
fn negatives_index(
    alloc: Global,
    names: &[Name],
    monomials: &[Monomial],
) -> Result<Option<Index>, AllocError>
    requires few { length names.now ≤ 8 }
    requires coefficients { AllSmall (2 ^ 32) monomials.now }
    ensures { IfOk result
        (λ e. option_map expression_of e ≡ negative_sum names.now monomials.now) }
{
    match monomials {
        [] => Ok(None),
        [first, rest @ ..] => {
            let rest = negatives_index(alloc, names, rest)?;
            if first.coefficient >= 0 {
                return Ok(rest);
            }
            let first = monomial_index(alloc, names, first)?;
            Ok(Some(join(alloc, Operation::Sum, first, rest)?))
        }
    }
}

/// The expression of a length over the sizes: the positive monomials, less the negative ones. The
/// base name of a size with divisor d is printed as the size over d, and as the size where d is 1.
///
/// It has the length's value at all admissible sizes.
#[tactic(auto, using(crate::proofs::LengthValues::coefficients_are_small))]
pub fn length_index(alloc: Global, length: &Poly, names: &Names) -> Result<Index, AllocError>
    ensures { IfOk result (λ e. expression_of e ≡ length_expression names.now length.now) }
{
    let names = names.as_slice();
    let monomials = length.as_slice();
    let gained = positives_index(alloc, names, monomials)?.unwrap_or(Index::Literal(0));
    match negatives_index(alloc, names, monomials)? {
        None => Ok(gained),
        Some(lost) => Index::binary(alloc, Operation::Difference, gained, lost),
    }
}
