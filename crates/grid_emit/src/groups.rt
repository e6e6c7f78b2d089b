//! The code of a map over rows of work-groups around one over the groups of a row.

ghost use Rattle.std.specs.Prelude.{◌≡◌, IfOk};
ghost use Rattle.group_form.specs.GridPrinter as printer;
ghost use Rattle.group_form.specs.Printer.{depth_in, turn_from};
ghost use Rattle.kernel_tree.specs.Code.{FromGroupId, ByGroupCount};
ghost use Rattle.kernel_tree.specs.Tree.{formula_of};
ghost use Rattle.length_spelling.specs.Turns.{number_of, turn_formula};
ghost use Rattle.lift_ir.specs.Terms.{push};
ghost use Rattle.printed_form.specs.Counts.{load_count, no_variables};
ghost use Rattle.printed_form.specs.MapForms.{form_over_groups, statement_of};
ghost use Rattle.printed_form.specs.Printer.{print_loaded};
ghost use Rattle.printed_form.specs.Views.{loaded_view};
ghost use Rattle.array_views.specs.Counts.{count_of};
ghost use Rattle.array_views.specs.Views.{view_in};
ghost use Rattle.lowering.specs.Terms.{load_set_of, map_of, term_of};
ghost use Rattle.item_emit.specs.Blocks.{code_in};
ghost use Rattle.item_emit.specs.Copies.{HasShortCopies};
ghost use Rattle.item_emit.specs.Scopes.{scope_of};
ghost use Rattle.group_emit.specs.Settings.{fence_in, inputs_of, spell_of};
ghost use Rattle.grid_emit.specs.Settings.{grid_forms_in};

use crate::statements::put_written;
use array_views::{Count, View};
use group_emit::counts::{Used, phases_in};
use group_emit::setting::Setting;
use group_emit::statements::Site;
use item_emit::accesses::{loaded, put_loaded};
use item_emit::arguments::argument;
use item_emit::block::Block;
use item_emit::counts::{load_count, plus};
use item_emit::scope::Scope;
use item_emit::statements::at_turn;
use kernel_tree::tree::{Dimension, Expr, Start, Stride};
use length_spelling::{Turn, spell_length};
use lowering::term::{Map, Space, Term};
use std::alloc::{AllocError, Global};

/// Where a map over the groups of a row stands: within so many loops, with these binders in scope,
/// and with so many private variables taken.
#[derive(Clone, Copy)]
struct Row<'s> {
    depth: u32,
    scope: &'s Scope<'s>,
    variable: Count,
}

// A turn of a map over groups along a dimension: of its `if` where `once`, else of its loop, which
// stands within so many.
fn turn_over_groups(once: bool, dimension: Dimension, depth: u32) -> Turn
    ensures { turn_formula (number_of result)
        ≡ turn_from (form_over_groups once) (FromGroupId dimension) depth }
{
    if once {
        Turn::Group(dimension)
    } else {
        Turn::Loop(depth)
    }
}

// In how many loops such a turn's code stands.
fn depth_over_groups(once: bool, depth: u32) -> Result<u32, AllocError>
    ensures { IfOk result (λ n. n ≡ depth_in (form_over_groups once) depth) }
{
    if once { Ok(depth) } else { plus(depth, 1) }
}

// The statement of a map over so many groups along a dimension, with nothing behind it.
fn statement_over_groups(
    alloc: Global,
    once: bool,
    dimension: Dimension,
    length: Expr,
    turn: Block,
) -> Result<Block, AllocError>
    ensures { IfOk result (λ b. code_in b ≡ statement_of (form_over_groups once)
        (FromGroupId dimension) (ByGroupCount dimension) (formula_of length) (code_in turn)) }
{
    let start = Start::GroupId(dimension);
    let mut block = Block::new(alloc);
    if once {
        block.put_guard(start, length, turn)?;
        Ok(block)
    } else {
        block.put_loop(start, length, Stride::GroupCount(dimension), turn)?;
        Ok(block)
    }
}

// A turn over this element of a row: what is loaded of it, the body's phases, and the barrier that
// closes it.
fn group_turn(
    alloc: Global,
    setting: &Setting,
    row: &Row,
    map: &Map,
    element: &View,
    target: &View,
) -> Result<Block, AllocError>
    requires { HasShortCopies (term_of map.now.body) }
    ensures { IfOk result (λ b. code_in b ≡ printer.print_grid_turn (spell_of setting.now)
        (grid_forms_in setting.now) (inputs_of setting.now) (fence_in setting.now) row.now.depth
        (scope_of row.now.scope.now) (count_of row.now.variable) (load_set_of map.now.loads)
        (view_in element.now) (term_of map.now.body) (view_in target.now)) }
{
    let bound = loaded(alloc, &map.loads, element, row.variable)?;
    let site = Site {
        depth: row.depth,
        scope: &Scope::Bound(&bound, row.scope),
        used: Used {
            locals: 0,
            privates: 0,
            variables: row.variable.more(load_count(&map.loads)?)?,
            phases: 0,
        },
    };
    let mut turn = Block::new(alloc);
    setting.put_barrier(phases_in(&map.body)?, &mut turn)?;
    put_written(alloc, setting, &site, &map.body, target, &mut turn)?;
    put_loaded(alloc, &map.loads, element, row.variable, &mut turn)?;
    Ok(turn)
}

// A map over the groups of a row itself.
fn row_statement(
    alloc: Global,
    setting: &Setting,
    row: &Row,
    map: &Map,
    target: &View,
) -> Result<Block, AllocError>
    requires { HasShortCopies (map_of map.now) }
    ensures { IfOk result (λ b. code_in b ≡ printer.print_along_groups (spell_of setting.now)
        (grid_forms_in setting.now) (inputs_of setting.now) (fence_in setting.now) row.now.depth
        (scope_of row.now.scope.now) (count_of row.now.variable) (map_of map.now)
        (view_in target.now)) }
{
    let once = setting.is_over_one(Dimension::X, &map.length);
    let turn = turn_over_groups(once, Dimension::X, row.depth);
    let array = argument(
        alloc,
        &setting.declared,
        row.scope,
        Space::Private,
        0,
        &map.array,
    )?;
    let element = at_turn(alloc, &array, turn)?;
    let target = at_turn(alloc, target, turn)?;
    let within = Row {
        depth: depth_over_groups(once, row.depth)?,
        ..*row
    };
    let turn = group_turn(alloc, setting, &within, map, &element, &target)?;
    let length = spell_length(alloc, &map.length, setting.declared.names)?;
    statement_over_groups(alloc, once, Dimension::X, length, turn)
}

// The code of a map over the groups of a row, through layouts.
fn along_groups(
    alloc: Global,
    setting: &Setting,
    row: &Row,
    term: &Term,
    target: &View,
) -> Result<Block, AllocError>
    requires { HasShortCopies (term_of term.now) }
    ensures { IfOk result (λ b. code_in b ≡ printer.print_along_groups (spell_of setting.now)
        (grid_forms_in setting.now) (inputs_of setting.now) (fence_in setting.now) row.now.depth
        (scope_of row.now.scope.now) (count_of row.now.variable) (term_of term.now)
        (view_in target.now)) }
{
    match term {
        Term::Reshape(layout, a) => {
            let names = setting.declared.names;
            let target = target.writing(alloc, names, &layout.form, &layout.ty, &layout.operand)?;
            along_groups(alloc, setting, row, a, &target)
        }
        Term::Map(map) => row_statement(alloc, setting, row, map, target),
        Term::Literal(_)
        | Term::Bound(_)
        | Term::Source(_)
        | Term::Apply(_, _, _)
        | Term::ApplyNumber(_, _, _)
        | Term::ApplyLanes { .. }
        | Term::DivideLanes(_, _, _)
        | Term::Select(_, _, _)
        | Term::Pair(_, _)
        | Term::Zip(_, _)
        | Term::First(_)
        | Term::Second(_)
        | Term::LetArray(_, _)
        | Term::LetElement(_, _, _)
        | Term::Fold(_)
        | Term::Store(_, _)
        | Term::Copy(_, _, _) => Ok(Block::new(alloc)),
    }
}

// A turn over this row, within so many loops: what is loaded of it, and the map over its groups.
fn row_turn(
    alloc: Global,
    setting: &Setting,
    depth: u32,
    scope: &Scope,
    map: &Map,
    element: &View,
    target: &View,
) -> Result<Block, AllocError>
    requires { HasShortCopies (term_of map.now.body) }
    ensures { IfOk result (λ b. let loads = load_set_of map.now.loads in
        code_in b ≡ print_loaded loads (view_in element.now) no_variables
        (printer.print_along_groups (spell_of setting.now) (grid_forms_in setting.now)
        (inputs_of setting.now) (fence_in setting.now) depth
        (push (loaded_view loads (view_in element.now) no_variables) (scope_of scope.now))
        (load_count loads)
        (term_of map.now.body) (view_in target.now))) }
{
    let bound = loaded(alloc, &map.loads, element, Count::none())?;
    let row = Row {
        depth,
        scope: &Scope::Bound(&bound, scope),
        variable: load_count(&map.loads)?,
    };
    let mut turn = along_groups(alloc, setting, &row, &map.body, target)?;
    put_loaded(alloc, &map.loads, element, Count::none(), &mut turn)?;
    Ok(turn)
}

// A map over rows of groups itself.
fn grid_statement(
    alloc: Global,
    setting: &Setting,
    scope: &Scope,
    map: &Map,
    target: &View,
) -> Result<Block, AllocError>
    requires { HasShortCopies (map_of map.now) }
    ensures { IfOk result (λ b. code_in b ≡ printer.print_grid (spell_of setting.now)
        (grid_forms_in setting.now) (inputs_of setting.now) (fence_in setting.now)
        (scope_of scope.now) (map_of map.now) (view_in target.now)) }
{
    let once = setting.is_over_one(Dimension::Y, &map.length);
    let turn = turn_over_groups(once, Dimension::Y, 0);
    let array = argument(
        alloc,
        &setting.declared,
        scope,
        Space::Private,
        0,
        &map.array,
    )?;
    let element = at_turn(alloc, &array, turn)?;
    let target = at_turn(alloc, target, turn)?;
    let depth = depth_over_groups(once, 0)?;
    let turn = row_turn(alloc, setting, depth, scope, map, &element, &target)?;
    let length = spell_length(alloc, &map.length, setting.declared.names)?;
    statement_over_groups(alloc, once, Dimension::Y, length, turn)
}

/// The code of a map over rows of work-groups, through layouts and lets of inputs.
pub fn grid(
    alloc: Global,
    setting: &Setting,
    scope: &Scope,
    term: &Term,
    target: &View,
) -> Result<Block, AllocError>
    requires { HasShortCopies (term_of term.now) }
    ensures { IfOk result (λ b. code_in b ≡ printer.print_grid (spell_of setting.now)
        (grid_forms_in setting.now) (inputs_of setting.now) (fence_in setting.now)
        (scope_of scope.now) (term_of term.now) (view_in target.now)) }
{
    match term {
        Term::Reshape(layout, a) => {
            let names = setting.declared.names;
            let target = target.writing(alloc, names, &layout.form, &layout.ty, &layout.operand)?;
            grid(alloc, setting, scope, a, &target)
        }
        Term::LetArray(value, body) => {
            let bound = argument(alloc, &setting.declared, scope, Space::Private, 0, value)?;
            grid(alloc, setting, &Scope::Bound(&bound, &*scope), body, target)
        }
        Term::Map(map) => grid_statement(alloc, setting, scope, map, target),
        Term::Literal(_)
        | Term::Bound(_)
        | Term::Source(_)
        | Term::Apply(_, _, _)
        | Term::ApplyNumber(_, _, _)
        | Term::ApplyLanes { .. }
        | Term::DivideLanes(_, _, _)
        | Term::Select(_, _, _)
        | Term::Pair(_, _)
        | Term::Zip(_, _)
        | Term::First(_)
        | Term::Second(_)
        | Term::LetElement(_, _, _)
        | Term::Fold(_)
        | Term::Store(_, _)
        | Term::Copy(_, _, _) => Ok(Block::new(alloc)),
    }
}
