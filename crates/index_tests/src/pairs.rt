//! The sides of pairs, elements, variables and copies.

ghost use Rattle.std.specs.Prelude.{◌≡◌, ◌+◌, IfOk};
ghost use Rattle.lift_tree.specs.Types.{ty_of};
ghost use Rattle.lift_ir.specs.AtLaunch.{shape_of};
ghost use Rattle.lift_ir.specs.Lowering.{element_ty};
ghost use Rattle.lift_ir.specs.Types.{width};

use crate::kinds::{Place, arrays, has_all, has_cell, has_variable};
use array_views::{ArrayKind, Count, IndexStack, LoadSet, PairStack, View};
use index_expr::Index;
use lift_tree::ty::Ty;
use size_arith::Names;
use std::alloc::{AllocError, Global};
use std::test::Fail;

fn pair(alloc: Global, a: Ty, b: Ty) -> Result<Ty, AllocError>
    ensures all { IfOk result (λ t. width (shape_of (ty_of t))
        ≡ width (shape_of (ty_of a)) + width (shape_of (ty_of b))) }
    ensures element { IfOk result (λ t. width (element_ty (ty_of t))
        ≡ width (element_ty (ty_of a)) + width (element_ty (ty_of b))) }
{
    let a = Box::new(alloc, a)?;
    Ok(Ty::Pair(a, Box::new(alloc, b)?))
}

// So many variables of a word.
fn words(words: u32) -> Count {
    Count { words, fours: 0 }
}

// An array of four numbers in this buffer of the inputs.
fn four(alloc: Global, buffer: u32) -> Result<View, AllocError> {
    let ty = arrays(alloc, &[4], Ty::Number)?;
    View::placed(alloc, &Names::new(alloc), ArrayKind::Input, buffer, &ty)
}

const IN_THREE: [Place; 3] = [
    (&[false], &[3, 1], 7, 7),
    (&[true, false], &[3, 1], 8, 7),
    (&[true, true], &[4, 0], 9, 8),
];

// An array of pairs of numbers and pairs lies in three buffers.
#[test]
fn components_have_buffers_of_their_own(rt: HostRuntime) -> Result<(), Fail> {
    let alloc = rt.alloc();
    let inner = pair(alloc, Ty::Number, Ty::Number)?;
    let element = pair(alloc, Ty::Number, inner)?;
    let ty = arrays(alloc, &[5, 2], element)?;
    let view = View::placed(alloc, &Names::new(alloc), ArrayKind::Input, 7, &ty)?;
    assert!(rt; has_all(alloc, &view, &IN_THREE)?);
    Ok(())
}

#[test]
fn zipped_arrays_are_pairs(rt: HostRuntime) -> Result<(), Fail> {
    let alloc = rt.alloc();
    let zip = View::both(alloc, four(alloc, 0)?, four(alloc, 1)?)?;
    assert!(rt;
        has_all(
            alloc,
            &zip,
            &[(&[false], &[2], 0, 2), (&[true], &[3], 1, 3)]
        )?
    );
    let element = zip.at(alloc, Index::Literal(3))?;
    assert!(rt; has_cell(alloc, &element, &[true], &[], 1, 3)?);
    assert!(rt; has_cell(alloc, &element.component(alloc, false)?, &[], &[], 0, 3)?);
    assert!(rt; has_cell(alloc, &zip.share()?, &[true], &[0], 1, 0)?);
    Ok(())
}

// The left side stays in its array, the right one is loaded.
#[test]
fn sides_are_loaded_apart(rt: HostRuntime) -> Result<(), Fail> {
    let alloc = rt.alloc();
    let zip = View::both(alloc, four(alloc, 0)?, four(alloc, 1)?)?;
    let element = zip.at(alloc, Index::Literal(2))?;
    let right = Box::new(alloc, LoadSet::Take)?;
    let loads = LoadSet::Each(Box::new(alloc, LoadSet::Skip)?, right);
    let count = loads.count()?;
    assert!(rt; count.words == 1 && count.fours == 0);
    let loaded = element.loaded(alloc, &loads, words(5))?;
    assert!(rt; has_cell(alloc, &loaded, &[false], &[], 0, 2)?);
    assert!(rt; has_variable(alloc, &loaded, &[true], 5)?);
    Ok(())
}

#[test]
fn elements_are_held(rt: HostRuntime) -> Result<(), Fail> {
    let alloc = rt.alloc();
    let inner = pair(alloc, Ty::Number, Ty::Number)?;
    let ty = pair(alloc, inner, Ty::Number)?;
    let held = View::held(alloc, &ty, words(4))?;
    assert!(rt; has_variable(alloc, &held, &[false, false], 4)?);
    assert!(rt; has_variable(alloc, &held, &[false, true], 5)?);
    assert!(rt; has_variable(alloc, &held, &[true], 6)?);
    let none = held.target(
        alloc,
        PairStack::from_choices(alloc, &[true])?,
        IndexStack::new(alloc),
    )?;
    assert!(rt; none.is_none());
    Ok(())
}

// The first side of a pair, which is nested that deep.
fn first_of(alloc: Global, view: View, depth: u32) -> Result<View, AllocError> {
    if depth == 0 {
        return Ok(view);
    }
    let next = View::both(alloc, view, View::nothing(alloc)?)?;
    first_of(alloc, next, depth - 1)
}

// Eight and nine choices lead to the array; one less leads to nothing.
#[test]
fn pairs_may_be_deep(rt: HostRuntime) -> Result<(), Fail> {
    let alloc = rt.alloc();
    let eight = first_of(alloc, four(alloc, 0)?, 8)?;
    assert!(rt; has_cell(alloc, &eight, &[false; 8], &[3], 0, 3)?);
    let nine = first_of(alloc, four(alloc, 0)?, 9)?;
    assert!(rt; has_cell(alloc, &nine, &[false; 9], &[3], 0, 3)?);
    assert!(rt; !has_cell(alloc, &nine, &[false; 8], &[3], 0, 3)?);
    assert!(rt; !has_cell(alloc, &nine, &[true; 9], &[3], 0, 3)?);
    Ok(())
}
