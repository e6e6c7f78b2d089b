//! Loads and stores, one for each component of an element.

ghost use Rattle.std.specs.Prelude.{◌≡◌, [], IfOk, OnOk};
ghost use Rattle.kernel_tree.specs.Tree.{array_of, formula_of, lanes_of};
ghost use Rattle.lift_tree.specs.Types.{ty_of};
ghost use Rattle.lift_ir.specs.Lowering.{element_ty};
ghost use Rattle.printed_form.specs.Printer as printer;
ghost use Rattle.printed_form.specs.Views as views;
ghost use Rattle.array_views.specs.Arrays.{array_with};
ghost use Rattle.array_views.specs.Counts.{count_of};
ghost use Rattle.array_views.specs.Views.{loads_of, view_in};
ghost use Rattle.lowering.specs.Terms.{load_set_of};
ghost use Rattle.item_emit.specs.Blocks.{code_in};
ghost use Rattle.item_emit.specs.Parts.{parts_of};

use crate::block::Block;
use crate::counts::load_count;
use crate::expressions::Part;
use array_views::{Access, ArrayKind, Count, IndexStack, PairStack, View};
use kernel_tree::tree::{Array, Expr, Lanes, Stmt};
use length_spelling::spell_index;
use lift_tree::ty::Ty;
use lowering::term::LoadSet;
use std::alloc::{AllocError, Global};

fn array_at(kind: ArrayKind, number: u32) -> Array
    ensures { array_of result ≡ array_with kind number }
{
    match kind {
        ArrayKind::Input => Array::Input(number),
        ArrayKind::Output => Array::Output(number),
        ArrayKind::Local => Array::Local(number),
        ArrayKind::Private => Array::Private(number),
    }
}

// Stores a number where the view says.
fn put_store(alloc: Global, target: &View, value: Expr, block: &mut Block) -> Result<(), AllocError>
    ensures { OnOk result (code_in block.new
        ≡ printer.print_store (view_in target.now [] []) (formula_of value) (code_in block.old)) }
{
    match target.access(alloc, PairStack::new(alloc), IndexStack::new(alloc))? {
        Access::InCell(cell) => {
            let index = spell_index(alloc, &cell.index)?;
            block.put(Stmt::Store(array_at(cell.kind, cell.array), index, value))
        }
        Access::Nothing | Access::Variable(_) | Access::Vector(_) => Ok(()),
    }
}

// Stores a vector where the view says.
fn put_store_four(
    alloc: Global,
    target: &View,
    value: Lanes,
    block: &mut Block,
) -> Result<(), AllocError>
    ensures { OnOk result (code_in block.new ≡ printer.print_store_four (view_in target.now [] [])
        (lanes_of value) (code_in block.old)) }
{
    match target.access(alloc, PairStack::new(alloc), IndexStack::new(alloc))? {
        Access::InCell(cell) => {
            let offset = spell_index(alloc, &cell.index)?;
            block.put(Stmt::StoreFour(array_at(cell.kind, cell.array), offset, value))
        }
        Access::Nothing | Access::Variable(_) | Access::Vector(_) => Ok(()),
    }
}

// Loads the number that the view says into a private variable.
fn put_load(
    alloc: Global,
    source: &View,
    variable: u32,
    block: &mut Block,
) -> Result<(), AllocError>
    ensures { OnOk result (code_in block.new
        ≡ printer.print_load (view_in source.now [] []) variable (code_in block.old)) }
{
    match source.access(alloc, PairStack::new(alloc), IndexStack::new(alloc))? {
        Access::InCell(cell) => {
            let index = spell_index(alloc, &cell.index)?;
            block.put(Stmt::Load(variable, array_at(cell.kind, cell.array), index))
        }
        Access::Nothing | Access::Variable(_) | Access::Vector(_) => Ok(()),
    }
}

// Loads the vector that the view says into a private variable of four words.
fn put_load_four(
    alloc: Global,
    source: &View,
    variable: u32,
    block: &mut Block,
) -> Result<(), AllocError>
    ensures { OnOk result (code_in block.new
        ≡ printer.print_load_four (view_in source.now [] []) variable (code_in block.old)) }
{
    match source.access(alloc, PairStack::new(alloc), IndexStack::new(alloc))? {
        Access::InCell(cell) => {
            let offset = spell_index(alloc, &cell.index)?;
            block.put(Stmt::LoadFour(variable, array_at(cell.kind, cell.array), offset))
        }
        Access::Nothing | Access::Variable(_) | Access::Vector(_) => Ok(()),
    }
}

/// Stores the components of an element.
pub fn put_stored(
    alloc: Global,
    ty: &Ty,
    part: &Part,
    target: &View,
    block: &mut Block,
) -> Result<(), AllocError>
    ensures { OnOk result (code_in block.new ≡ printer.print_stored (element_ty (ty_of ty.now))
        (parts_of part.now) (view_in target.now) (code_in block.old)) }
{
    match ty {
        Ty::Number | Ty::Array(_, _) => put_store(alloc, target, part.number(alloc)?, block),
        Ty::Vector => put_store_four(alloc, target, part.lanes(alloc)?, block),
        Ty::Pair(a, b) => {
            let second = target.component(alloc, true)?;
            put_stored(alloc, b, &Part::Second(part), &second, block)?;
            let first = target.component(alloc, false)?;
            put_stored(alloc, a, &Part::First(part), &first, block)
        }
    }
}

/// Loads these of an element's components into private variables, before which there are so many.
pub fn put_loaded(
    alloc: Global,
    loads: &LoadSet,
    source: &View,
    first: Count,
    block: &mut Block,
) -> Result<(), AllocError>
    ensures { OnOk result (code_in block.new ≡ printer.print_loaded
        (load_set_of loads.now) (view_in source.now) (count_of first) (code_in block.old)) }
{
    match loads {
        LoadSet::Skip => Ok(()),
        LoadSet::Take => put_load(alloc, source, first.words, block),
        LoadSet::TakeFour => put_load_four(alloc, source, first.fours, block),
        LoadSet::Each(left, right) => {
            let second = first.more(load_count(left)?)?;
            put_loaded(alloc, right, &source.component(alloc, true)?, second, block)?;
            put_loaded(alloc, left, &source.component(alloc, false)?, first, block)
        }
    }
}

fn viewed_loads(alloc: Global, loads: &LoadSet) -> Result<array_views::LoadSet, AllocError>
    ensures { IfOk result (λ s. loads_of s ≡ load_set_of loads.now) }
{
    match loads {
        LoadSet::Skip => Ok(array_views::LoadSet::Skip),
        LoadSet::Take => Ok(array_views::LoadSet::Take),
        LoadSet::TakeFour => Ok(array_views::LoadSet::TakeFour),
        LoadSet::Each(left, right) => {
            let left = Box::new(alloc, viewed_loads(alloc, left)?)?;
            let right = Box::new(alloc, viewed_loads(alloc, right)?)?;
            Ok(array_views::LoadSet::Each(left, right))
        }
    }
}

/// What stands for an element once these of its components are loaded.
pub fn loaded(
    alloc: Global,
    loads: &LoadSet,
    source: &View,
    first: Count,
) -> Result<View, AllocError>
    ensures { IfOk result (λ v. view_in v
        ≡ views.loaded_view (load_set_of loads.now) (view_in source.now) (count_of first)) }
{
    source.loaded(alloc, &viewed_loads(alloc, loads)?, first)
}
