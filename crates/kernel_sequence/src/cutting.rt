//! Cutting a term at each `then`.

ghost use Rattle.std.specs.Prelude.{◌≡◌, ◌+◌, IfOk, IfSome, map, min};
ghost use Rattle.lift_tree.specs.Tree.{tree_of};
ghost use Rattle.lift_tree.specs.Types.{ty_of};
ghost use Rattle.lift_tree.specs.Annotations.{annotation_of};
ghost use Rattle.kernel_sequence.specs.Cut as spec;
ghost use Rattle.kernel_sequence.specs.Parts.{cutting_of, part_of};
ghost use Rattle.kernel_sequence.specs.Refused.{kernel_count};

use crate::parts::Part;
use lift_tree::term::{Term, UnaryForm};
use lift_tree::ty::Ty;
use lift_tree::typed::NodeTypes;
use std::alloc::{AllocError, Global};

/// The terms of the kernels so far, in order, and what is left of a term.
#[derive(Drop)]
pub struct Cutting {
    pub made: Vec<Part>,
    pub left: Part,
}

// How many `then`s have no binder around; the count stands still at 2^64 - 1.
fn cuts(term: &Term, types: &NodeTypes) -> u64
    ensures { result ≡ min (spec.cuts (tree_of term.now) (annotation_of types.now)) u64.MAX }
{
    match (term, types) {
        (Term::Unary(UnaryForm::Then, a), NodeTypes::One(_, n)) => cuts(a, n).saturating_add(1),
        (Term::Unary(_, a), NodeTypes::One(_, n)) => cuts(a, n),
        (Term::Binary(_, a, b), NodeTypes::Two(_, n, m)) => cuts(a, n).saturating_add(cuts(b, m)),
        (Term::Select(a, b, c), NodeTypes::Three(_, n, m, k)) => cuts(a, n)
            .saturating_add(cuts(b, m))
            .saturating_add(cuts(c, k)),
        (Term::Let(a, _) | Term::Map(_, a, _), NodeTypes::Two(_, n, _)) => cuts(a, n),
        (Term::Fold(_, array, start, _), NodeTypes::Three(_, n, m, _)) => {
            cuts(array, n).saturating_add(cuts(start, m))
        }
        _ => 0,
    }
}

/// How many kernels a term is cut into; the count stands still at 2^64 - 1.
pub fn kernel_count(term: &Term, types: &NodeTypes) -> u64
    ensures { result ≡ kernel_count (tree_of term.now) (annotation_of types.now) }
{
    cuts(term, types).saturating_add(1)
}

// The number of the input behind so many of the program's and so many arrays, where numbers reach.
fn input_number(inputs: u32, arrays: usize) -> Option<u32>
    ensures { IfSome result (λ n. n ≡ inputs + arrays) }
{
    let room = 0x1_0000_0000 - inputs as usize;
    if arrays < room {
        Some(inputs + arrays as u32)
    } else {
        None
    }
}

// What is left is the term of the next kernel, and is read as the input that this kernel makes.
// Memory never holds as many arrays as there are numbers.
fn made_next(alloc: Global, inputs: u32, cutting: Cutting, ty: &Ty) -> Result<Cutting, AllocError>
    ensures { IfOk result
        (λ c. cutting_of c ≡ spec.made_next inputs (cutting_of cutting) (ty_of ty.now)) }
{
    let Cutting { made, left } = cutting;
    let mut made = made;
    let Some(number) = input_number(inputs, made.len()) else {
        return Err(AllocError);
    };
    made.push(left)?;
    let left = Part::input(alloc, number, ty)?;
    Ok(Cutting { made, left })
}

// A term without a cut is left as it is.
fn uncut(
    alloc: Global,
    _inputs: u32,
    made: Vec<Part>,
    term: &Term,
    types: &NodeTypes,
) -> Result<Cutting, AllocError>
    requires { spec.cuts (tree_of term.now) (annotation_of types.now) ≡ 0 }
    ensures { IfOk result (λ c. cutting_of c ≡ spec.cut_off _inputs (map part_of made.items)
        (tree_of term.now) (annotation_of types.now)) }
{
    let left = Part::copied(alloc, term, types)?;
    Ok(Cutting { made, left })
}

/// The term, cut at each `then` that no binder is around: their operands behind the terms of the
/// kernels made before, and what is left. So many inputs are the program's.
pub fn cut_off(
    alloc: Global,
    inputs: u32,
    made: Vec<Part>,
    term: &Term,
    types: &NodeTypes,
) -> Result<Cutting, AllocError>
    ensures { IfOk result (λ c. cutting_of c ≡ spec.cut_off inputs (map part_of made.items)
        (tree_of term.now) (annotation_of types.now)) }
{
    match (term, types) {
        (Term::Unary(UnaryForm::Then, a), NodeTypes::One(ty, n)) => {
            made_next(alloc, inputs, cut_off(alloc, inputs, made, a, n)?, ty)
        }
        (Term::Unary(form, a), NodeTypes::One(ty, n)) => {
            let Cutting { made, left } = cut_off(alloc, inputs, made, a, n)?;
            let left = Part::unary(alloc, form, ty, left)?;
            Ok(Cutting { made, left })
        }
        (Term::Binary(form, a, b), NodeTypes::Two(ty, n, m)) => {
            let first = cut_off(alloc, inputs, made, a, n)?;
            let second = cut_off(alloc, inputs, first.made, b, m)?;
            let left = Part::binary(alloc, *form, ty, first.left, second.left)?;
            Ok(Cutting {
                made: second.made,
                left,
            })
        }
        (Term::Select(a, b, c), NodeTypes::Three(ty, n, m, k)) => {
            let first = cut_off(alloc, inputs, made, a, n)?;
            let second = cut_off(alloc, inputs, first.made, b, m)?;
            let third = cut_off(alloc, inputs, second.made, c, k)?;
            let left = Part::select(alloc, ty, first.left, second.left, third.left)?;
            Ok(Cutting {
                made: third.made,
                left,
            })
        }
        (Term::Let(value, body), NodeTypes::Two(ty, n, m)) => {
            let Cutting { made, left } = cut_off(alloc, inputs, made, value, n)?;
            let left = Part::bind(alloc, ty, left, Part::copied(alloc, body, m)?)?;
            Ok(Cutting { made, left })
        }
        (Term::Map(kind, array, body), NodeTypes::Two(ty, n, m)) => {
            let Cutting { made, left } = cut_off(alloc, inputs, made, array, n)?;
            let left = Part::map(alloc, *kind, ty, left, Part::copied(alloc, body, m)?)?;
            Ok(Cutting { made, left })
        }
        (Term::Fold(kind, array, start, body), NodeTypes::Three(ty, n, m, k)) => {
            let first = cut_off(alloc, inputs, made, array, n)?;
            let second = cut_off(alloc, inputs, first.made, start, m)?;
            let body = Part::copied(alloc, body, k)?;
            let left = Part::fold(alloc, *kind, ty, first.left, second.left, body)?;
            Ok(Cutting {
                made: second.made,
                left,
            })
        }
        _ => uncut(alloc, inputs, made, term, types),
    }
}
