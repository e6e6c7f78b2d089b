//! The lengths of the arrays that a term's copies fill.

ghost use Rattle.std.specs.Prelude.{◌≡◌, ◌++◌, [], replicate, IfOk, OnOk};
ghost use Rattle.std.specs.List.{sum};
ghost use Rattle.lift_tree.specs.Tree.{tree_of};
ghost use Rattle.lift_tree.specs.Annotations.{annotation_of};
ghost use Rattle.lift_tree.specs.Types.{ty_of};
ghost use Rattle.value_lists.specs.Lists.{length_at, scalars, width};
ghost use Rattle.buffer_allocation.specs.Copies as spec;
ghost use Rattle.buffer_allocation.specs.Copies.{copies, held};

use lift_tree::term::{Term, UnaryForm};
use lift_tree::ty::Ty;
use lift_tree::typed::NodeTypes;
use size_arith::{Poly, Sizes};
use std::alloc::{AllocError, Global};

/// A memory that copies go to, after the address spaces of OpenCL 1.2, section 6.5.
#[derive(Clone, Copy, PartialEq, Eq)]
pub enum Memory {
    Local,
    Private,
}

// A length that names no size, or the greatest count. There are no sizes.
fn length_of(length: &Poly, none: &Sizes) -> u64
    ensures { result ≡ held (length_at none.now length.now) }
{
    u64::try_from(length.value_at(none).unsigned_abs()).unwrap_or(u64::MAX)
}

// The scalars of a component.
#[tactic(auto, using(crate::proofs::Held::products))]
fn scalars(ty: &Ty, none: &Sizes) -> u64
    ensures { result ≡ held (scalars none.now (ty_of ty.now)) }
{
    match ty {
        Ty::Number | Ty::Pair(_, _) => 1,
        Ty::Vector => 4,
        Ty::Array(element, length) => {
            length_of(length, none).saturating_mul(scalars(element, none))
        }
    }
}

// Adds a number for each component of the type.
#[tactic(auto, using(crate::proofs::Held::components))]
fn add_each(ty: &Ty, number: u64, numbers: &mut Vec<u64>) -> Result<(), AllocError>
    ensures { OnOk result (numbers.new.items
        ≡ numbers.old.items ++ replicate (width (ty_of ty.now)) number) }
{
    match ty {
        Ty::Number | Ty::Vector => {
            numbers.push(number)?;
            Ok(())
        }
        Ty::Pair(a, b) => {
            add_each(a, number, numbers)?;
            add_each(b, number, numbers)
        }
        Ty::Array(element, _) => add_each(element, number, numbers),
    }
}

fn is_kept(memory: Memory, form: &UnaryForm) -> bool
    ensures { result ≡ spec.is_kept memory form.now }
{
    match form {
        UnaryForm::ToLocal => memory == Memory::Local,
        UnaryForm::ToPrivate => memory == Memory::Private,
        UnaryForm::Div(_)
        | UnaryForm::Rem(_)
        | UnaryForm::First
        | UnaryForm::Second
        | UnaryForm::Layout(_)
        | UnaryForm::Slide(_, _)
        | UnaryForm::Pad(_, _)
        | UnaryForm::Then => false,
    }
}

// Adds the lengths of the arrays in a memory, in the order of the copies.
#[tactic(auto, using(crate::proofs::Held::lists))]
fn add_copies(
    memory: Memory,
    term: &Term,
    types: &NodeTypes,
    none: &Sizes,
    lengths: &mut Vec<u64>,
) -> Result<(), AllocError>
    requires { none.now ≡ [] }
    ensures { OnOk result (lengths.new.items
        ≡ lengths.old.items ++ copies memory (tree_of term.now) (annotation_of types.now)) }
{
    match (term, types) {
        (Term::Unary(form, a), NodeTypes::One(ty, n)) => {
            add_copies(memory, a, n, none, lengths)?;
            if is_kept(memory, form) {
                add_each(ty, scalars(ty, none), lengths)?;
            }
            Ok(())
        }
        (Term::Binary(_, a, b), NodeTypes::Two(_, n, m))
        | (Term::Let(a, b), NodeTypes::Two(_, n, m))
        | (Term::Map(_, a, b), NodeTypes::Two(_, n, m)) => {
            add_copies(memory, a, n, none, lengths)?;
            add_copies(memory, b, m, none, lengths)
        }
        (Term::Select(a, b, c), NodeTypes::Three(_, n, m, k))
        | (Term::Fold(_, a, b, c), NodeTypes::Three(_, n, m, k)) => {
            add_copies(memory, a, n, none, lengths)?;
            add_copies(memory, b, m, none, lengths)?;
            add_copies(memory, c, k, none, lengths)
        }
        _ => Ok(()),
    }
}

/// The lengths of all arrays in a memory, in scalars, in the order of the copies that fill them, a
/// copy after those in it, and of a copy by component.
pub fn copy_lengths(
    alloc: Global,
    memory: Memory,
    term: &Term,
    types: &NodeTypes,
) -> Result<Vec<u64>, AllocError>
    ensures { IfOk result (λ lengths. lengths.items
        ≡ copies memory (tree_of term.now) (annotation_of types.now)) }
{
    let mut lengths = Vec::new(alloc);
    add_copies(memory, term, types, &Sizes::new(alloc), &mut lengths)?;
    Ok(lengths)
}

/// Their sum, which stands still at 2^64 - 1.
#[tactic(auto, using(crate::proofs::Held::ended))]
pub fn total(lengths: &[u64]) -> u64
    ensures { result ≡ held (sum lengths.now) }
{
    let mut total = 0u64;
    for length in lengths {
        total = total.saturating_add(*length);
    }
    total
}
