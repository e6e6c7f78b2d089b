//! Tiles of two of six numbers are copied to local memory, and one is added to each number:
//! join(mapWrg(\t. mapLcl(\x. add(x, 1), toLocal(mapLcl(\x. x, t))), split(2, xs))).

ghost use Rattle.std.specs.Prelude.{◌<◌, [], IfOk};
ghost use Rattle.lift_tree.specs.Types.{ty_of};
ghost use Rattle.lift_ir.specs.AtLaunch.{ty_at};
ghost use Rattle.lowering.specs.Terms.{term_of};
ghost use Rattle.item_emit.specs.Copies.{HasShortCopies, IsShortCopy};

use barrier_placement::Barrier;
use group_emit::groups::groups;
use group_emit::setting::Setting;
use item_emit::arguments::{Declared, output};
use item_emit::scope::Scope;
use kernel_tree::tree::{Array, Dimension, Expr, Start, Stmt, Stride};
use lift_tree::layout as forms;
use lift_tree::length::Product;
use lift_tree::term::{self, Level, UnaryForm};
use lift_tree::ty::Ty;
use lowering::term::{Kind, Layout, LoadSet, Map, Space, Term};
use scalar_ops::op::Op;
use size_arith::{Monomial, Names, Poly};
use std::alloc::{AllocError, Global};
use std::test::Fail;

fn number(alloc: Global, length: u32) -> Result<Poly, AllocError> {
    Poly::from_monomial(alloc, Monomial::number(length as i128))
}

fn six(alloc: Global) -> Result<Ty, AllocError> {
    Ok(Ty::Array(Box::new(alloc, Ty::Number)?, number(alloc, 6)?))
}

fn two(alloc: Global) -> Result<Ty, AllocError>
    ensures { IfOk result (λ t. IsShortCopy (ty_at [] (ty_of t))) }
{
    let length = Poly::from_monomial(alloc, Monomial::number(2))?;
    Ok(Ty::Array(Box::new(alloc, Ty::Number)?, length))
}

fn tiles(alloc: Global) -> Result<Ty, AllocError> {
    Ok(Ty::Array(Box::new(alloc, two(alloc)?)?, number(alloc, 3)?))
}

// A local map over two numbers, each of which is loaded.
fn over_two(alloc: Global, array: Term, body: Term) -> Result<Term, AllocError>
    requires { HasShortCopies (term_of array) }
    ensures { IfOk result (λ t. HasShortCopies (term_of t)) }
{
    let map = Map {
        kind: Kind::Over(Level::Items, term::Dimension::X),
        length: number(alloc, 2)?,
        loads: LoadSet::Take,
        array,
        body: Term::Store(Ty::Number, Box::new(alloc, body)?),
    };
    Ok(Term::Map(Box::new(alloc, map)?))
}

// The copy of a tile.
fn copied(alloc: Global) -> Result<Term, AllocError>
    ensures { IfOk result (λ t. HasShortCopies (term_of t)) }
{
    let copy = over_two(alloc, Term::Bound(0), Term::Bound(0))?;
    let copy = Box::new(alloc, copy)?;
    Ok(Term::Copy(Space::Local, two(alloc)?, copy))
}

// The sums of a tile's numbers and one.
fn sums(alloc: Global) -> Result<Term, AllocError>
    ensures { IfOk result (λ t. HasShortCopies (term_of t)) }
{
    let x = Box::new(alloc, Term::Bound(0))?;
    let one = Box::new(alloc, Term::Literal(1))?;
    over_two(alloc, copied(alloc)?, Term::Apply(Op::Add, x, one))
}

// The tiles of the input.
fn split_input(alloc: Global) -> Result<Term, AllocError>
    ensures { IfOk result (λ t. HasShortCopies (term_of t)) }
{
    let input = Box::new(alloc, Term::Source(0))?;
    let split = Layout {
        form: UnaryForm::Layout(forms::Layout::Split(Product::new(Vec::new(alloc)))),
        ty: tiles(alloc)?,
        operand: six(alloc)?,
    };
    Ok(Term::Reshape(split, input))
}

fn over_groups(alloc: Global) -> Result<Term, AllocError>
    ensures { IfOk result (λ t. HasShortCopies (term_of t)) }
{
    let map = Map {
        kind: Kind::Over(Level::Groups, term::Dimension::X),
        length: number(alloc, 3)?,
        loads: LoadSet::Skip,
        array: split_input(alloc)?,
        body: sums(alloc)?,
    };
    Ok(Term::Map(Box::new(alloc, map)?))
}

fn added_tiles(alloc: Global) -> Result<Term, AllocError>
    ensures { IfOk result (λ t. HasShortCopies (term_of t)) }
{
    let map = Box::new(alloc, over_groups(alloc)?)?;
    let join = Layout {
        form: UnaryForm::Layout(forms::Layout::Join),
        ty: six(alloc)?,
        operand: tiles(alloc)?,
    };
    Ok(Term::Reshape(join, map))
}

// A barrier for local memory alone.
fn barrier(before: Option<u32>) -> Barrier {
    Barrier {
        before,
        local: true,
        global: false,
        pair: (0, 1),
    }
}

// What the term's program declares: one input of six numbers.
#[derive(Drop)]
struct Sources {
    names: Names,
    inputs: Vec<Ty>,
}

fn one_input(alloc: Global) -> Result<Sources, AllocError> {
    let mut inputs = Vec::new(alloc);
    inputs.push(six(alloc)?)?;
    Ok(Sources {
        names: Names::new(alloc),
        inputs,
    })
}

fn code(alloc: Global, setting: &Setting) -> Result<Vec<Stmt>, AllocError> {
    let target = output(alloc, setting.declared.names, &six(alloc)?)?;
    let term = added_tiles(alloc)?;
    let block = groups(alloc, setting, &Scope::Empty, &term, &target)?;
    Ok(block.into_statements())
}

// The code of the program's term with these barriers.
fn printed(
    alloc: Global,
    sources: &Sources,
    barriers: &[Barrier],
) -> Result<Vec<Stmt>, AllocError> {
    let setting = Setting {
        declared: Declared {
            names: &sources.names,
            inputs: &sources.inputs,
        },
        barriers,
        phases: 2,
        local: None,
    };
    code(alloc, &setting)
}

// i * 2 + j, where i and j are the variables of the loop over groups and of that over items
fn is_place(index: &Expr) -> bool {
    match index {
        Expr::Binary(Op::Add, row, item) => match (&**row, &**item) {
            (Expr::Binary(Op::Mul, group, two), Expr::LoopVariable(1)) => {
                matches!((&**group, &**two), (Expr::LoopVariable(0), Expr::Number(2)))
            }
            _ => false,
        },
        _ => false,
    }
}

// v0 = a0[i * 2 + j];
fn is_input_load(statement: &Stmt) -> bool {
    match statement {
        Stmt::Load(0, Array::Input(0), place) => is_place(place),
        _ => false,
    }
}

// l0[j] = v0;
fn is_copy_store(statement: &Stmt) -> bool {
    match statement {
        Stmt::Store(Array::Local(0), index, value) => {
            matches!((index, value), (Expr::LoopVariable(1), Expr::Variable(0)))
        }
        _ => false,
    }
}

fn is_copy(turn: &[Stmt]) -> bool {
    match turn {
        [load, store] => is_input_load(load) && is_copy_store(store),
        _ => false,
    }
}

fn is_incremented(value: &Expr) -> bool {
    match value {
        Expr::Binary(Op::Add, a, b) => {
            matches!((&**a, &**b), (Expr::Variable(1), Expr::Number(1)))
        }
        _ => false,
    }
}

// v1 = l0[j]; o0[i * 2 + j] = v1 + 1;
fn is_sum(turn: &[Stmt]) -> bool {
    match turn {
        [
            Stmt::Load(1, Array::Local(0), Expr::LoopVariable(1)),
            Stmt::Store(Array::Output(0), place, value),
        ] => is_place(place) && is_incremented(value),
        _ => false,
    }
}

// The turn of a loop over the items of a group, of two turns.
fn over_items(statement: &Stmt) -> Option<&[Stmt]> {
    match statement {
        Stmt::Loop(
            Start::LocalId(Dimension::X),
            Expr::Number(2),
            Stride::LocalSize(Dimension::X),
            turn,
        ) => Some(turn),
        _ => None,
    }
}

fn are_phases(copy: &Stmt, sum: &Stmt) -> bool {
    over_items(copy).is_some_and(is_copy) && over_items(sum).is_some_and(is_sum)
}

// The turn of the loop over three tiles.
fn over_tiles(statements: &[Stmt]) -> Option<&[Stmt]> {
    match statements {
        [
            Stmt::Loop(
                Start::GroupId(Dimension::X),
                Expr::Number(3),
                Stride::GroupCount(Dimension::X),
                turn,
            ),
        ] => Some(turn),
        _ => None,
    }
}

fn is_local_barrier(statement: &Stmt) -> bool {
    matches!(
        statement,
        Stmt::Barrier {
            on_local: true,
            on_global: false
        }
    )
}

#[test]
fn tiles_without_barriers(rt: HostRuntime) -> Result<(), Fail> {
    let statements = printed(rt.alloc(), &one_input(rt.alloc())?, &[])?;
    match over_tiles(&statements) {
        Some([copy, sum]) => assert!(rt; are_phases(copy, sum)),
        _ => assert!(rt; false),
    }
    Ok(())
}

#[test]
fn tiles_with_two_barriers(rt: HostRuntime) -> Result<(), Fail> {
    let barriers = [barrier(Some(1)), barrier(None)];
    let statements = printed(rt.alloc(), &one_input(rt.alloc())?, &barriers)?;
    match over_tiles(&statements) {
        Some([copy, between, sum, closing]) => {
            assert!(rt; are_phases(copy, sum));
            assert!(rt; is_local_barrier(between) && is_local_barrier(closing));
        }
        _ => assert!(rt; false),
    }
    Ok(())
}
