//! The phases of maps over work-groups, their uses of local arrays, and the
//! barriers that they need.

ghost use Rattle.std.specs.Prelude.{IfOk, false, true};
ghost use Rattle.lift_ir.specs.Forms.{Stands};
ghost use Rattle.lowering.specs.Terms.{term_of};
ghost use Rattle.group_form.specs.Forms.{StandsInGroup, StandsOverGroups};

use barrier_placement::{Barrier, Touch};
use lift_tree::layout as forms;
use lift_tree::term::{Dimension, Level, UnaryForm};
use lift_tree::ty::Ty;
use lowering::term::{Fold, Kind, Layout, LoadSet, Map, Space, Term};
use phase_plan::phases::Phases;
use scalar_ops::op::Op;
use size_arith::Poly;
use std::alloc::{AllocError, Global};
use std::test::Fail;

fn numbers(alloc: Global) -> Result<Ty, AllocError> {
    Ok(Ty::Array(Box::new(alloc, Ty::Number)?, Poly::zero(alloc)))
}

fn pairs(alloc: Global) -> Result<Ty, AllocError> {
    let first = Box::new(alloc, Ty::Number)?;
    let pair = Ty::Pair(first, Box::new(alloc, Ty::Number)?);
    Ok(Ty::Array(Box::new(alloc, pair)?, Poly::zero(alloc)))
}

// A variable, as an argument.
fn bound(alloc: Global, variable: u32) -> Result<Box<Term>, AllocError>
    ensures { IfOk result (λ t. StandsInGroup false (term_of t.value)) }
{
    Ok(Box::new(alloc, Term::Bound(variable))?)
}

fn stored(alloc: Global, element: Term) -> Result<Box<Term>, AllocError>
    ensures { IfOk result (λ t. Stands true (term_of t.value)) }
{
    let element = Box::new(alloc, element)?;
    Ok(Box::new(alloc, Term::Store(Ty::Number, element))?)
}

// The sum of a row of numbers, added to the start.
fn summed(alloc: Global, row: Box<Term>, start: Term) -> Result<Box<Term>, AllocError>
    requires { Stands false (term_of row.value) }
    ensures { IfOk result (λ t. Stands true (term_of t.value)) }
{
    let element = Box::new(alloc, Term::Bound(0))?;
    let sum = Term::Apply(Op::Add, element, Box::new(alloc, Term::Bound(1))?);
    let fold = Fold {
        length: Poly::zero(alloc),
        loads: LoadSet::Take,
        accumulator: Ty::Number,
        array: Box::into_inner(row),
        start,
        body: sum,
    };
    let fold = Box::new(alloc, fold)?;
    Ok(Box::new(alloc, Term::Fold(fold))?)
}

fn local_map(
    alloc: Global,
    loads: LoadSet,
    array: Box<Term>,
    body: Box<Term>,
) -> Result<Box<Term>, AllocError>
    requires array { StandsInGroup false (term_of array.value) }
    requires body { Stands true (term_of body.value) }
    ensures { IfOk result (λ t. StandsInGroup true (term_of t.value)) }
{
    let map = Map {
        kind: Kind::Over(Level::Items, Dimension::X),
        length: Poly::zero(alloc),
        loads,
        array: Box::into_inner(array),
        body: Box::into_inner(body),
    };
    let map = Box::new(alloc, map)?;
    Ok(Box::new(alloc, Term::Map(map))?)
}

fn copied(alloc: Global, ty: Ty, value: Box<Term>) -> Result<Box<Term>, AllocError>
    requires { StandsInGroup true (term_of value.value) }
    ensures { IfOk result (λ t. StandsInGroup false (term_of t.value)) }
{
    Ok(Box::new(alloc, Term::Copy(Space::Local, ty, value))?)
}

// The numbers of an array, each copied by an item.
fn copy_of(alloc: Global, variable: u32) -> Result<Box<Term>, AllocError>
    ensures { IfOk result (λ t. StandsInGroup false (term_of t.value)) }
{
    let array = bound(alloc, variable)?;
    let body = stored(alloc, Term::Bound(0))?;
    let map = local_map(alloc, LoadSet::Take, array, body)?;
    copied(alloc, numbers(alloc)?, map)
}

// Windows of an array.
fn windows(alloc: Global, array: Box<Term>) -> Result<Box<Term>, AllocError>
    requires { StandsInGroup false (term_of array.value) }
    ensures { IfOk result (λ t. StandsInGroup false (term_of t.value)) }
{
    let layout = Layout {
        form: UnaryForm::Slide(2, 1),
        ty: Ty::Number,
        operand: numbers(alloc)?,
    };
    Ok(Box::new(alloc, Term::Reshape(layout, array))?)
}

// Rows that are written one after another.
fn joined(alloc: Global, rows: Box<Term>) -> Result<Box<Term>, AllocError>
    requires { StandsInGroup true (term_of rows.value) }
    ensures { IfOk result (λ t. StandsInGroup true (term_of t.value)) }
{
    let layout = Layout {
        form: UnaryForm::Layout(forms::Layout::Join),
        ty: numbers(alloc)?,
        operand: numbers(alloc)?,
    };
    Ok(Box::new(alloc, Term::Reshape(layout, rows))?)
}

fn zipped(alloc: Global, a: Box<Term>, b: Box<Term>) -> Result<Box<Term>, AllocError>
    requires first { StandsInGroup false (term_of a.value) }
    requires second { StandsInGroup false (term_of b.value) }
    ensures { IfOk result (λ t. StandsInGroup false (term_of t.value)) }
{
    Ok(Box::new(alloc, Term::Zip(a, b))?)
}

fn let_array(alloc: Global, value: Box<Term>, body: Box<Term>) -> Result<Box<Term>, AllocError>
    requires value { StandsInGroup false (term_of value.value) }
    requires body { StandsInGroup true (term_of body.value) }
    ensures { IfOk result (λ t. StandsInGroup true (term_of t.value)) }
{
    Ok(Box::new(alloc, Term::LetArray(value, body))?)
}

// A map over the work-groups, of the tiles of an input.
fn over_groups(alloc: Global, body: Box<Term>) -> Result<Term, AllocError>
    requires { StandsInGroup true (term_of body.value) }
    ensures { IfOk result (λ t. StandsOverGroups (term_of t)) }
{
    let map = Map {
        kind: Kind::Over(Level::Groups, Dimension::X),
        length: Poly::zero(alloc),
        loads: LoadSet::Skip,
        array: Term::Source(0),
        body: Box::into_inner(body),
    };
    Ok(Term::Map(Box::new(alloc, map)?))
}

fn has(touch: &Touch, phase: u32, buffer: u32, writes: bool, aligned: bool) -> bool {
    (touch.phase, touch.buffer, touch.writes) == (phase, buffer, writes)
        && touch.aligned == aligned
        && touch.local
}

fn writes(touch: &Touch, phase: u32, buffer: u32, aligned: bool) -> bool {
    has(touch, phase, buffer, true, aligned)
}

fn reads(touch: &Touch, phase: u32, buffer: u32, aligned: bool) -> bool {
    has(touch, phase, buffer, false, aligned)
}

// Phase 0 writes array 0 and phase 1 reads it, aligned or not; there is no other use.
fn copies_and_reads(phases: &Phases, writes_aligned: bool, reads_aligned: bool) -> bool {
    phases
        .touches
        .iter()
        .any(|touch| writes(touch, 0, 0, writes_aligned))
        && phases
            .touches
            .iter()
            .any(|touch| reads(touch, 1, 0, reads_aligned))
        && phases.touches.iter().all(|touch| {
            writes(touch, 0, 0, writes_aligned) || reads(touch, 1, 0, reads_aligned)
        })
}

fn stands(barrier: &Barrier, before: Option<u32>, pair: (u32, u32)) -> bool {
    barrier.before == before && barrier.local && !barrier.global && barrier.pair == pair
}

// Each item reads what it copied: no barrier is needed.
#[test]
fn copied_tiles(rt: HostRuntime) -> Result<(), Fail> {
    let alloc = rt.alloc();
    let one = Box::new(alloc, Term::Literal(1))?;
    let sum = Term::Apply(Op::Add, Box::new(alloc, Term::Bound(0))?, one);
    let body = stored(alloc, sum)?;
    let map = local_map(alloc, LoadSet::Take, copy_of(alloc, 0)?, body)?;
    let root = over_groups(alloc, map)?;
    let phases = Phases::of(alloc, &root, false)?;
    assert_eq!(rt; phases.count, 2);
    assert!(rt; copies_and_reads(&phases, true, true));
    assert!(rt; phases.barriers.is_empty());
    Ok(())
}

// Each item reads a window of what others copied.
#[test]
fn a_stencil_by_tiles(rt: HostRuntime) -> Result<(), Fail> {
    let alloc = rt.alloc();
    let row = Box::new(alloc, Term::Bound(0))?;
    let body = summed(alloc, row, Term::Literal(0))?;
    let tile = windows(alloc, copy_of(alloc, 0)?)?;
    let map = local_map(alloc, LoadSet::Skip, tile, body)?;
    let root = over_groups(alloc, map)?;
    let phases = Phases::of(alloc, &root, false)?;
    assert_eq!(rt; phases.count, 2);
    assert!(rt; copies_and_reads(&phases, true, false));
    let barriers = phases.barriers;
    assert_eq!(rt; barriers.len(), 2);
    assert!(rt; stands(&barriers[0], Some(1), (0, 1)));
    assert!(rt; stands(&barriers[1], None, (1, 0)));
    Ok(())
}

// The sums of windows, kept; then each is copied by its item, and read with its window.
#[test]
fn two_barriers_and_none_that_closes(rt: HostRuntime) -> Result<(), Fail> {
    let alloc = rt.alloc();
    let row = Box::new(alloc, Term::Bound(0))?;
    let body = summed(alloc, row, Term::Literal(0))?;
    let tile = windows(alloc, copy_of(alloc, 0)?)?;
    let sums = local_map(alloc, LoadSet::Skip, tile, body)?;
    let sums = copied(alloc, numbers(alloc)?, sums)?;
    let kept = windows(alloc, bound(alloc, 0)?)?;
    let both = zipped(alloc, copy_of(alloc, 0)?, kept)?;
    let row = Term::Second(Box::new(alloc, Term::Bound(0))?);
    let start = Term::First(Box::new(alloc, Term::Bound(0))?);
    let body = summed(alloc, Box::new(alloc, row)?, start)?;
    let take = Box::new(alloc, LoadSet::Take)?;
    let loads = LoadSet::Each(take, Box::new(alloc, LoadSet::Skip)?);
    let map = local_map(alloc, loads, both, body)?;
    let root = over_groups(alloc, let_array(alloc, sums, map)?)?;
    let phases = Phases::of(alloc, &root, false)?;
    assert_eq!(rt; phases.count, 4);
    assert!(rt; phases.touches.iter().any(|touch| writes(touch, 1, 1, true)));
    assert!(rt; phases.touches.iter().any(|touch| reads(touch, 2, 1, true)));
    assert!(rt; phases.touches.iter().any(|touch| reads(touch, 3, 1, false)));
    assert!(rt; phases.touches.iter().any(|touch| reads(touch, 3, 2, true)));
    let barriers = phases.barriers;
    assert_eq!(rt; barriers.len(), 2);
    assert!(rt; stands(&barriers[0], Some(1), (0, 1)));
    assert!(rt; stands(&barriers[1], Some(3), (1, 3)));
    Ok(())
}

// There is an array for each component, and what isn't named isn't read.
#[test]
fn components_that_are_not_named(rt: HostRuntime) -> Result<(), Fail> {
    let alloc = rt.alloc();
    let element = Box::new(alloc, Term::Bound(0))?;
    let pair = Term::Pair(element, Box::new(alloc, Term::Literal(7))?);
    let pair = stored(alloc, pair)?;
    let map = local_map(alloc, LoadSet::Take, bound(alloc, 0)?, pair)?;
    let tile = copied(alloc, pairs(alloc)?, map)?;
    let second = Term::Second(Box::new(alloc, Term::Bound(0))?);
    let body = stored(alloc, second)?;
    let skip = Box::new(alloc, LoadSet::Skip)?;
    let loads = LoadSet::Each(skip, Box::new(alloc, LoadSet::Take)?);
    let map = local_map(alloc, loads, tile, body)?;
    let root = over_groups(alloc, map)?;
    let phases = Phases::of(alloc, &root, false)?;
    assert!(rt; phases.touches.iter().any(|touch| writes(touch, 0, 0, true)));
    assert!(rt; phases.touches.iter().any(|touch| writes(touch, 0, 1, true)));
    assert!(rt; phases.touches.iter().any(|touch| reads(touch, 1, 1, true)));
    assert!(rt; !phases.touches.iter().any(|touch| reads(touch, 1, 0, true)));
    assert!(rt; phases.barriers.is_empty());
    Ok(())
}

// An array that is bound outside the map is read, but not by the item's element.
#[test]
fn variables_of_the_body(rt: HostRuntime) -> Result<(), Fail> {
    let alloc = rt.alloc();
    let row = Box::new(alloc, Term::Bound(1))?;
    let body = summed(alloc, row, Term::Bound(0))?;
    let map = local_map(alloc, LoadSet::Take, bound(alloc, 1)?, body)?;
    let root = over_groups(alloc, let_array(alloc, copy_of(alloc, 0)?, map)?)?;
    let phases = Phases::of(alloc, &root, false)?;
    assert_eq!(rt; phases.count, 2);
    assert!(rt; copies_and_reads(&phases, true, false));
    let barriers = phases.barriers;
    assert_eq!(rt; barriers.len(), 2);
    assert!(rt; stands(&barriers[0], Some(1), (0, 1)));
    assert!(rt; stands(&barriers[1], None, (1, 0)));
    Ok(())
}

// A copy through a layout is written by others than its readers.
#[test]
fn writes_through_a_layout(rt: HostRuntime) -> Result<(), Fail> {
    let alloc = rt.alloc();
    let row = Box::new(alloc, Term::Bound(0))?;
    let map = local_map(
        alloc,
        LoadSet::Take,
        bound(alloc, 0)?,
        stored(alloc, Term::Bound(0))?,
    )?;
    let tile = copied(alloc, numbers(alloc)?, joined(alloc, map)?)?;
    let map = local_map(
        alloc,
        LoadSet::Skip,
        tile,
        summed(alloc, row, Term::Literal(0))?,
    )?;
    let root = over_groups(alloc, map)?;
    let phases = Phases::of(alloc, &root, false)?;
    assert!(rt; copies_and_reads(&phases, false, true));
    let barriers = phases.barriers;
    assert_eq!(rt; barriers.len(), 2);
    assert!(rt; stands(&barriers[0], Some(1), (0, 1)));
    assert!(rt; stands(&barriers[1], None, (1, 0)));
    Ok(())
}
