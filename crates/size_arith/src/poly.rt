//! Polynomials over base names.

ghost use Rattle.std.specs.Prelude.{◌≡◌, ℕ, ℤ, ◌≤◌, ◌<◌, ◌+ℤ◌, ◌-ℤ◌, ◌*ℤ◌, pos, ◌≤ℤ◌, IfOk, IfSome, IsSome, IsTrue, ◌↔◌, List, [], unsigned_abs, length, slice_index_or, ◌*◌, ◌+◌};
ghost use Rattle.size_arith.specs.Polynomial;
ghost use Rattle.size_arith.specs.Ranges;
ghost use Rattle.size_arith.specs.Shown;
ghost use Rattle.size_arith.specs.Decisions;
ghost use Rattle.size_arith.specs.declared.poly.PolyNo.TheVariants.{Memory};
ghost use Rattle.size_arith.specs.declared.poly.Monomial.{Monomial};

use crate::division::{all_divide, quotients};
use crate::insertion::{add_product, add_products, degree_of, greatest_of};
use crate::names::{Names, Sizes};
use crate::shown::{is_at_least, largest_of, value_of};
use std::alloc::{AllocError, Global};
use std::marker::Model;
use thiserror::Error;

/// A whole number times a product of powers of the base names.
#[derive(Clone, Copy, PartialEq, Eq)]
pub struct Monomial {
    pub coefficient: i128,
    pub powers: [u8; 8],
}

/// A polynomial over the base names: a sum of monomials, no two with the same
/// powers and none with coefficient 0.
///
/// It has at most 32 monomials, degree at most 4, and coefficients from
/// -4,294,967,296 to 4,294,967,296.
#[derive(Drop)]
pub struct Poly {
    monomials: Vec<Monomial>,
}

impl Model for Poly {
    ghost use Rattle.std.specs.Prelude.{List};
    ghost use Rattle.size_arith.specs.declared.poly.Monomial.{Monomial};
    ghost use Rattle.size_arith.specs.Polynomial.{IsPoly};

    ghost Value = { List Monomial };

    ghost view = { λ p. p.monomials.items };

    ghost invariant = { λ p. IsPoly p.monomials.items };
}

/// Why a polynomial isn't made.
#[derive(Clone, Copy, Debug, PartialEq, Eq, Error)]
pub enum PolyNo {
    /// The result has so many monomials, more than 32.
    #[error("{0} monomials")]
    Terms(u64),
    /// The result has this degree, more than 4.
    #[error("degree {0}")]
    Degree(u64),
    /// The greatest absolute value of a coefficient, more than 4,294,967,296.
    #[error("coefficient {0}")]
    Coefficient(u128),
    /// Want of memory.
    #[error("out of memory")]
    Memory,
}

impl From<AllocError> for PolyNo {
    ghost from_gives = { λ _ no. no ≡ Memory };

    fn from(_error: AllocError) -> PolyNo {
        PolyNo::Memory
    }
}

fn is_same(a: &Monomial, b: &Monomial) -> bool
    ensures { IsTrue result ↔ (a.now ≡ b.now) }
{
    a.coefficient == b.coefficient && a.powers == b.powers
}

fn are_same(a: &[Monomial], b: &[Monomial]) -> bool
    ensures { IsTrue result ↔ (a.now ≡ b.now) }
{
    match a {
        [] => b.is_empty(),
        [first, rest @ ..] => match b {
            [] => false,
            [other, others @ ..] => is_same(first, other) && are_same(rest, others),
        },
    }
}

impl Monomial {
    /// A number.
    pub fn number(coefficient: i128) -> Monomial
        ensures { result ≡ Polynomial.number coefficient }
    {
        Monomial {
            coefficient,
            powers: [0; 8],
        }
    }

    /// The size that is `multiple` times the base name with this index.
    pub fn size(multiple: u32, index: usize) -> Monomial
        requires { index < 8 }
        ensures value { result ≡ Polynomial.size multiple index }
        ensures degree { Polynomial.total result.powers ≡ 1 }
        ensures exact { (ys : List ℕ) → index < length ys
            → Polynomial.monomial_at ys result ≡ pos (multiple * slice_index_or ys index 0) }
    {
        let mut powers = [0; 8];
        powers[index] = 1;
        Monomial {
            coefficient: multiple as i128,
            powers,
        }
    }
}

// The polynomial, unless it passes a limit.
fn limited(monomials: Vec<Monomial>) -> Result<Poly, PolyNo>
    requires canonical { Polynomial.IsCanonical monomials.items }
    requires wide { Polynomial.AllWide 8 monomials.items }
    ensures { result ≡ Polynomial.limited monomials.items }
{
    let terms = monomials.len();
    if terms > 32 {
        return Err(PolyNo::Terms(terms as u64));
    }
    let degree = degree_of(&monomials);
    if degree > 4 {
        return Err(PolyNo::Degree(degree));
    }
    let greatest = greatest_of(&monomials);
    if greatest > 4294967296 {
        return Err(PolyNo::Coefficient(greatest));
    }
    Ok(Poly { monomials })
}

// The first polynomial with a number times the second.
fn sum_of(
    alloc: Global,
    first: &[Monomial],
    by: i128,
    second: &[Monomial],
) -> Result<Vec<Monomial>, AllocError>
    requires by { unsigned_abs by ≤ 1 }
    requires first { Polynomial.IsPoly first.now }
    requires second { Polynomial.IsPoly second.now }
    ensures sum { IfOk result (λ sum. sum.items
        ≡ Polynomial.added (Polynomial.number by) second.now first.now) }
    ensures canonical { IfOk result (λ sum. Polynomial.IsCanonical sum.items) }
    ensures wide { IfOk result (λ sum. Polynomial.AllWide 8 sum.items) }
{
    let mut sum = Vec::from_slice(alloc, first)?;
    add_product(&mut sum, &Monomial::number(by), second)?;
    Ok(sum)
}

fn product_of(
    alloc: Global,
    first: &[Monomial],
    second: &[Monomial],
) -> Result<Vec<Monomial>, AllocError>
    requires first { Polynomial.IsPoly first.now }
    requires second { Polynomial.IsPoly second.now }
    ensures product { IfOk result (λ product. product.items
        ≡ Polynomial.times first.now second.now) }
    ensures canonical { IfOk result (λ product. Polynomial.IsCanonical product.items) }
    ensures wide { IfOk result (λ product. Polynomial.AllWide 8 product.items) }
{
    let mut product = Vec::new(alloc);
    add_products(&mut product, first, second)?;
    Ok(product)
}

impl Poly {
    /// The polynomial with no monomials, 0.
    pub fn zero(alloc: Global) -> Self
        ensures { result ≡ [] }
    {
        Poly {
            monomials: Vec::new(alloc),
        }
    }

    /// The polynomial of one monomial, or 0 where its coefficient is 0.
    pub fn from_monomial(alloc: Global, monomial: Monomial) -> Result<Self, AllocError>
        requires degree { Polynomial.total monomial.powers ≤ 4 }
        requires coefficient { unsigned_abs monomial.coefficient ≤ 4294967296 }
        ensures made { IfOk result (λ p. p ≡ Polynomial.of_monomial monomial) }
        ensures exact { IfOk result (λ p. (ys : List ℕ) → Polynomial.value_at ys p
            ≡ Polynomial.monomial_at ys monomial) }
    {
        let mut monomials = Vec::new(alloc);
        if monomial.coefficient != 0 {
            monomials.push(monomial)?;
        }
        Ok(Poly { monomials })
    }

    /// The same polynomial in memory of its own.
    pub fn copy(&self, alloc: Global) -> Result<Self, AllocError>
        ensures { IfOk result (λ p. p ≡ self.now) }
    {
        let monomials = Vec::from_slice(alloc, &self.monomials)?;
        Ok(Poly { monomials })
    }

    /// The monomials, in the order of their powers.
    pub fn as_slice(&self) -> &[Monomial]
        ensures same { result.now ≡ self.now }
        ensures poly { Polynomial.IsPoly self.now }
    {
        self.monomials.as_slice()
    }

    /// The sum: the first limit that it passes, or the polynomial whose value is the
    /// sum of the values at all sizes.
    pub fn add(&self, alloc: Global, other: &Poly) -> Result<Poly, PolyNo>
        ensures answer { Polynomial.Answers result (Polynomial.plus self.now other.now) }
        ensures exact { IfOk result (λ r. (ys : List ℕ) → Polynomial.value_at ys r
            ≡ Polynomial.value_at ys self.now +ℤ Polynomial.value_at ys other.now) }
    {
        limited(sum_of(alloc, &self.monomials, 1, &other.monomials)?)
    }

    /// The difference, as for the sum.
    pub fn sub(&self, alloc: Global, other: &Poly) -> Result<Poly, PolyNo>
        ensures answer { Polynomial.Answers result (Polynomial.minus self.now other.now) }
        ensures exact { IfOk result (λ r. (ys : List ℕ) → Polynomial.value_at ys r
            ≡ Polynomial.value_at ys self.now -ℤ Polynomial.value_at ys other.now) }
    {
        limited(sum_of(alloc, &self.monomials, -1, &other.monomials)?)
    }

    /// The product, as for the sum.
    pub fn mul(&self, alloc: Global, other: &Poly) -> Result<Poly, PolyNo>
        ensures answer { Polynomial.Answers result (Polynomial.times self.now other.now) }
        ensures exact { IfOk result (λ r. (ys : List ℕ) → Polynomial.value_at ys r
            ≡ Polynomial.value_at ys self.now *ℤ Polynomial.value_at ys other.now) }
    {
        limited(product_of(alloc, &self.monomials, &other.monomials)?)
    }

    /// The polynomial divided by the monomial, or None exactly where some
    /// coefficient or power doesn't divide.
    ///
    /// The quotient times the monomial is this polynomial.
    pub fn divide_exact(
        &self,
        alloc: Global,
        divisor: &Monomial,
    ) -> Result<Option<Poly>, AllocError>
        ensures divides { IfOk result (λ q. IsSome q ↔ Polynomial.AllDivide divisor.now self.now) }
        ensures quotient { IfOk result (λ q. IfSome q
            (λ r. r ≡ Polynomial.quotient divisor.now self.now)) }
        ensures product { IfOk result (λ q. IfSome q
            (λ r. Polynomial.added divisor.now r [] ≡ self.now)) }
    {
        if !all_divide(divisor, &self.monomials) {
            return Ok(None);
        }
        let monomials = quotients(alloc, divisor, &self.monomials)?;
        Ok(Some(Poly { monomials }))
    }

    /// Whether the polynomials are the same map from powers to coefficients.
    pub fn same(&self, other: &Poly) -> bool
        ensures same { IsTrue result ↔ (self.now ≡ other.now) }
        ensures test { result ≡ Decisions.is_same self.now other.now }
        ensures map { IsTrue result
            ↔ ((ms : List ℕ) → Polynomial.coefficient self.now ms
            ≡ Polynomial.coefficient other.now ms) }
    {
        are_same(&self.monomials, &other.monomials)
    }

    /// The value at these sizes.
    pub fn value_at(&self, sizes: &Sizes) -> i128
        ensures { result ≡ Polynomial.value_at sizes.now self.now }
    {
        value_of(&self.monomials, sizes.as_slice())
    }

    /// Whether it is shown to be at least k at all admissible sizes: after each
    /// base name is replaced by its least value plus a new name, the polynomial
    /// less k has no negative coefficient.
    ///
    /// What is shown holds; what holds need not be shown.
    pub fn shown_at_least(&self, k: u64, names: &Names) -> bool
        ensures shown { IsTrue result ↔ Shown.ShownAtLeast k names.now self.now }
        ensures test { result ≡ Decisions.is_shown k names.now self.now }
        ensures sound { IsTrue result → (ys : List ℕ) → Ranges.Admissible names.now ys
            → pos k ≤ℤ Polynomial.value_at ys self.now }
    {
        is_at_least(k, &self.monomials, names.as_slice())
    }

    /// Whether it is shown to be at most k at all admissible sizes: the positive monomials at the
    /// greatest sizes add to at most k.
    ///
    /// What is shown holds; what holds need not be shown.
    pub fn shown_at_most(&self, k: u64, names: &Names) -> bool
        ensures shown { IsTrue result ↔ Shown.ShownAtMost k names.now self.now }
        ensures sound { IsTrue result → (ys : List ℕ) → Ranges.Admissible names.now ys
            → Polynomial.value_at ys self.now ≤ℤ pos k }
    {
        self.largest(names) <= k as u128
    }

    /// The sum of the positive monomials at the greatest sizes.
    pub fn largest(&self, names: &Names) -> u128
        ensures sum { result ≡ Shown.largest names.now self.now }
        ensures sound { (ys : List ℕ) → Ranges.Admissible names.now ys
            → Polynomial.value_at ys self.now ≤ℤ pos result }
    {
        largest_of(&self.monomials, names.as_slice())
    }
}

/// Sums, differences and products are those of the values at all sizes, and sums and differences
/// those of the maps; each of them is sorted, with no two monomials alike and no coefficient 0.
pub fn operations_are_exact()
    ensures sum { (p q : List Monomial) (ys : List ℕ)
        → Polynomial.value_at ys (Polynomial.plus p q)
        ≡ Polynomial.value_at ys p +ℤ Polynomial.value_at ys q }
    ensures difference { (p q : List Monomial) (ys : List ℕ)
        → Polynomial.value_at ys (Polynomial.minus p q)
        ≡ Polynomial.value_at ys p -ℤ Polynomial.value_at ys q }
    ensures product { (p q : List Monomial) (ys : List ℕ)
        → Polynomial.value_at ys (Polynomial.times p q)
        ≡ Polynomial.value_at ys p *ℤ Polynomial.value_at ys q }
    ensures sum_of_maps { (p q : List Monomial) (ms : List ℕ) → Polynomial.AllWide 8 q
        → Polynomial.coefficient (Polynomial.plus p q) ms
        ≡ Polynomial.coefficient p ms +ℤ Polynomial.coefficient q ms }
    ensures difference_of_maps { (p q : List Monomial) (ms : List ℕ) → Polynomial.AllWide 8 q
        → Polynomial.coefficient (Polynomial.minus p q) ms
        ≡ Polynomial.coefficient p ms -ℤ Polynomial.coefficient q ms }
    ensures sum_is_one_map { (p q : List Monomial) → Polynomial.IsCanonical p
        → Polynomial.IsCanonical (Polynomial.plus p q) }
    ensures difference_is_one_map { (p q : List Monomial) → Polynomial.IsCanonical p
        → Polynomial.IsCanonical (Polynomial.minus p q) }
    ensures product_is_one_map { (p q : List Monomial)
        → Polynomial.IsCanonical (Polynomial.times p q) }
    ensures one_list_for_each_map { (p q : List Monomial) → Polynomial.IsCanonical p
        → Polynomial.IsCanonical q
        → ((ms : List ℕ) → Polynomial.coefficient p ms ≡ Polynomial.coefficient q ms) → p ≡ q }
{}

/// What is tried for a sign are the coefficients of the polynomial after each base name is replaced
/// by its least value plus a new name.
pub fn shifts_are_exact()
    ensures { (ls ys : List ℕ) (p : List Monomial) → Polynomial.IsPoly p → length ls ≡ length ys
        → Polynomial.value_at (Shown.raised ls ys) p
        ≡ Shown.sum_over 4 ls (λ js. Shown.shifted ls p js *ℤ pos (Polynomial.product ys js)) }
{}
