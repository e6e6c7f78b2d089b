//! Arrays that are formed, and tests of types.

ghost use Rattle.std.specs.Prelude.{◌≡◌, ◌≢◌, ◌*◌, IfErr, IfOk, OnOk, Err, Ok, length};
ghost use Rattle.size_arith.specs.Shown.{largest};
ghost use Rattle.lift_tree.specs.Types.{ty_of, ArrayOf};
ghost use Rattle.lift_tree.specs.Limits.{arrays, components};
ghost use Rattle.pattern_types.specs.declared.fault.Fault.TheVariants.{Memory};
ghost use Rattle.pattern_types.specs.Judged.{at_most, counted, element_in, formed, scalars_judged};
ghost use Rattle.pattern_types.specs.Tests.{is_output, is_same_element};

use crate::fault::{Fault, demanded};
use crate::lengths::product;
use crate::refusal::{Rule, TypeLimit};
use lift_tree::ty::Ty;
use size_arith::{Names, Poly};
use std::alloc::{AllocError, Global};

pub fn is_output(ty: &Ty) -> bool
    ensures { result ≡ is_output (ty_of ty.now) }
{
    match ty {
        Ty::Number | Ty::Vector | Ty::Pair(_, _) => false,
        Ty::Array(element, _) => element.holds_elements(),
    }
}

pub fn is_same_element(a: &Ty, b: &Ty) -> bool
    ensures { result ≡ is_same_element (ty_of a.now) (ty_of b.now) }
{
    match a {
        Ty::Number => match b {
            Ty::Number => true,
            Ty::Vector | Ty::Pair(_, _) | Ty::Array(_, _) => false,
        },
        Ty::Vector => match b {
            Ty::Vector => true,
            Ty::Number | Ty::Pair(_, _) | Ty::Array(_, _) => false,
        },
        Ty::Pair(a, c) => match b {
            Ty::Pair(b, d) => is_same_element(a, b) && is_same_element(c, d),
            Ty::Number | Ty::Vector | Ty::Array(_, _) => false,
        },
        Ty::Array(_, _) => false,
    }
}

/// The element type of an array, which the rule demands.
pub fn element_of(ty: &Ty, rule: Rule) -> Result<&Ty, Fault>
    ensures ok { IfOk result (λ t. element_in rule (ty_of ty.now) ≡ Ok (ty_of t.now)) }
    ensures refused { IfErr result (λ f. element_in rule (ty_of ty.now) ≡ Err f) }
{
    match ty {
        Ty::Array(element, _) => Ok(element),
        Ty::Number | Ty::Vector | Ty::Pair(_, _) => Err(Fault::Breaks(rule)),
    }
}

// How many arrays stand around a scalar; the count stands still at 2^64 - 1.
fn array_count(ty: &Ty) -> u64
    ensures { result ≡ counted (arrays (ty_of ty.now)) }
{
    match ty {
        Ty::Number | Ty::Vector => 0,
        Ty::Pair(a, b) => array_count(a).max(array_count(b)),
        Ty::Array(element, _) => array_count(element).saturating_add(1),
    }
}

// How many components the type has; the count stands still at 2^64 - 1.
#[tactic(auto, using(crate::proofs::Counted::component_counts))]
fn component_count(ty: &Ty) -> u64
    ensures { result ≡ counted (length (components (ty_of ty.now))) }
{
    match ty {
        Ty::Number | Ty::Vector => 1,
        Ty::Pair(a, b) => component_count(a).saturating_add(component_count(b)),
        Ty::Array(element, _) => component_count(element),
    }
}

fn limited(most: u128, which: TypeLimit, count: u128) -> Result<(), Fault>
    ensures ok { OnOk result (at_most most which count ≡ Ok tt) }
    ensures refused { IfErr result (λ f. at_most most which count ≡ Err f) }
{
    if count > most {
        return Err(Fault::Passes(which, count));
    }
    Ok(())
}

// Four times the sum of the positive monomials at the greatest sizes.
#[tactic(auto, using(crate::proofs::Fours::four_fit))]
fn four_times_largest(length: &Poly, names: &Names) -> u128
    ensures { result ≡ 4 * largest names.now length.now }
{
    let _monomials = length.as_slice();
    let _ranges = names.as_slice();
    4 * length.largest(names)
}

// Judges the number of scalars of each component, where the lengths outside have this product.
fn judge_scalars(alloc: Global, names: &Names, outside: &Poly, ty: &Ty) -> Result<(), Fault>
    ensures ok { OnOk result (scalars_judged names.now outside.now (ty_of ty.now) ≡ Ok tt) }
    ensures refused { IfErr result (λ f. f ≢ Memory
        → scalars_judged names.now outside.now (ty_of ty.now) ≡ Err f) }
{
    match ty {
        Ty::Number => limited(2147483647, TypeLimit::Scalars, outside.largest(names)),
        Ty::Vector => {
            let scalars = four_times_largest(outside, names);
            limited(2147483647, TypeLimit::Scalars, scalars)
        }
        Ty::Pair(a, b) => {
            judge_scalars(alloc, names, outside, a)?;
            judge_scalars(alloc, names, outside, b)
        }
        Ty::Array(element, length) => {
            let inside = product(alloc, outside, length)?;
            judge_scalars(alloc, names, &inside, element)
        }
    }
}

fn array_of(alloc: Global, element: Ty, length: Poly) -> Result<Ty, AllocError>
    ensures { IfOk result (λ t. ty_of t ≡ ArrayOf (ty_of element) length) }
{
    Ok(Ty::Array(Box::new(alloc, element)?, length))
}

/// The array of these elements and this length, which is formed.
pub fn formed(alloc: Global, names: &Names, element: Ty, length: Poly) -> Result<Ty, Fault>
    ensures ok { IfOk result (λ t. formed names.now (ty_of element) length ≡ Ok (ty_of t)) }
    ensures refused { IfErr result (λ f. f ≢ Memory → formed names.now (ty_of element) length
        ≡ Err f) }
{
    demanded(length.shown_at_least(1, names), Rule::Length)?;
    limited(
        4,
        TypeLimit::Arrays,
        array_count(&element).saturating_add(1) as u128,
    )?;
    limited(4, TypeLimit::Components, component_count(&element) as u128)?;
    judge_scalars(alloc, names, &length, &element)?;
    Ok(array_of(alloc, element, length)?)
}
