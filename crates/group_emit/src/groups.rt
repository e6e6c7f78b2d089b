//! The code of a map over work-groups.

ghost use Rattle.std.specs.Prelude.{◌≡◌, IfOk};
ghost use Rattle.group_form.specs.Printer as printer;
ghost use Rattle.kernel_tree.specs.Tree.{formula_of};
ghost use Rattle.length_spelling.specs.Turns.{number_of, turn_formula};
ghost use Rattle.lift_tree.specs.declared.term.Dimension.TheVariants.{X};
ghost use Rattle.lift_tree.specs.declared.term.Level.TheVariants.{Groups};
ghost use Rattle.lift_ir.specs.Terms.{Over};
ghost use Rattle.printed_form.specs.MapForms as map_forms;
ghost use Rattle.printed_form.specs.MapForms.{form_over_groups};
ghost use Rattle.array_views.specs.Views.{view_in};
ghost use Rattle.lowering.specs.Terms.{load_set_of, map_of, term_of};
ghost use Rattle.item_emit.specs.Blocks.{code_in};
ghost use Rattle.item_emit.specs.Copies.{HasShortCopies};
ghost use Rattle.item_emit.specs.Scopes.{scope_of};
ghost use Rattle.group_emit.specs.Settings.{fence_in, forms_in, inputs_of, spell_of};

use crate::counts::{Used, phases_in};
use crate::setting::Setting;
use crate::statements::{Site, put_written};
use array_views::{Count, View};
use item_emit::accesses::{loaded, put_loaded};
use item_emit::arguments::argument;
use item_emit::block::Block;
use item_emit::counts::load_count;
use item_emit::scope::Scope;
use item_emit::statements::at_turn;
use kernel_tree::tree::{Dimension, Expr, Start, Stride};
use length_spelling::{Turn, spell_length};
use lowering::term::{Map, Space, Term};
use std::alloc::{AllocError, Global};

// A turn of a map over work-groups, which stands in no loop: of its `if` where `once`, else of its
// own.
fn turn_over_groups(once: bool) -> Turn
    ensures { turn_formula (number_of result)
        ≡ printer.turn_formula (form_over_groups once) (Over Groups X) 0 }
{
    if once {
        Turn::Group(Dimension::X)
    } else {
        Turn::Loop(0)
    }
}

// In how many loops such a turn's code stands.
fn depth_over_groups(once: bool) -> u32
    ensures { result ≡ printer.depth_in (form_over_groups once) 0 }
{
    if once { 0 } else { 1 }
}

// The statement of a map over so many work-groups, with nothing behind it.
fn statement_over_groups(
    alloc: Global,
    once: bool,
    length: Expr,
    turn: Block,
) -> Result<Block, AllocError>
    ensures { IfOk result (λ b. code_in b
        ≡ map_forms.statement_over_groups X once (formula_of length) (code_in turn)) }
{
    let start = Start::GroupId(Dimension::X);
    let mut block = Block::new(alloc);
    if once {
        block.put_guard(start, length, turn)?;
        Ok(block)
    } else {
        block.put_loop(start, length, Stride::GroupCount(Dimension::X), turn)?;
        Ok(block)
    }
}

// A turn over this element, within so many loops: what is loaded of it, the body's phases, and the
// barrier that closes it.
fn group_turn(
    alloc: Global,
    setting: &Setting,
    depth: u32,
    scope: &Scope,
    map: &Map,
    element: &View,
    target: &View,
) -> Result<Block, AllocError>
    requires { HasShortCopies (term_of map.now.body) }
    ensures { IfOk result (λ b. code_in b ≡ printer.print_group_turn (spell_of setting.now)
        (forms_in setting.now) (inputs_of setting.now) (fence_in setting.now) depth
        (scope_of scope.now) (load_set_of map.now.loads) (view_in element.now)
        (term_of map.now.body) (view_in target.now)) }
{
    let bound = loaded(alloc, &map.loads, element, Count::none())?;
    let site = Site {
        depth,
        scope: &Scope::Bound(&bound, scope),
        used: Used {
            locals: 0,
            privates: 0,
            variables: load_count(&map.loads)?,
            phases: 0,
        },
    };
    let mut turn = Block::new(alloc);
    setting.put_barrier(phases_in(&map.body)?, &mut turn)?;
    put_written(alloc, setting, &site, &map.body, target, &mut turn)?;
    put_loaded(alloc, &map.loads, element, Count::none(), &mut turn)?;
    Ok(turn)
}

// A map over work-groups itself.
fn group_statement(
    alloc: Global,
    setting: &Setting,
    scope: &Scope,
    map: &Map,
    target: &View,
) -> Result<Block, AllocError>
    requires { HasShortCopies (map_of map.now) }
    ensures { IfOk result (λ b. code_in b ≡ printer.print_groups (spell_of setting.now)
        (forms_in setting.now) (inputs_of setting.now) (fence_in setting.now)
        (scope_of scope.now) (map_of map.now) (view_in target.now)) }
{
    let once = setting.is_over_one(Dimension::X, &map.length);
    let turn = turn_over_groups(once);
    let element = argument(
        alloc,
        &setting.declared,
        scope,
        Space::Private,
        0,
        &map.array,
    )?;
    let element = at_turn(alloc, &element, turn)?;
    let target = at_turn(alloc, target, turn)?;
    let depth = depth_over_groups(once);
    let turn = group_turn(alloc, setting, depth, scope, map, &element, &target)?;
    let length = spell_length(alloc, &map.length, setting.declared.names)?;
    statement_over_groups(alloc, once, length, turn)
}

/// The code of a map over work-groups, through layouts and lets of inputs.
pub fn groups(
    alloc: Global,
    setting: &Setting,
    scope: &Scope,
    term: &Term,
    target: &View,
) -> Result<Block, AllocError>
    requires { HasShortCopies (term_of term.now) }
    ensures { IfOk result (λ b. code_in b ≡ printer.print_groups (spell_of setting.now)
        (forms_in setting.now) (inputs_of setting.now) (fence_in setting.now)
        (scope_of scope.now) (term_of term.now) (view_in target.now)) }
{
    match term {
        Term::Reshape(layout, a) => {
            let names = setting.declared.names;
            let target = target.writing(alloc, names, &layout.form, &layout.ty, &layout.operand)?;
            groups(alloc, setting, scope, a, &target)
        }
        Term::LetArray(value, body) => {
            let bound = argument(alloc, &setting.declared, scope, Space::Private, 0, value)?;
            groups(alloc, setting, &Scope::Bound(&bound, &*scope), body, target)
        }
        Term::Map(map) => group_statement(alloc, setting, scope, map, target),
        Term::Literal(_)
        | Term::Bound(_)
        | Term::Source(_)
        | Term::Apply(_, _, _)
        | Term::ApplyNumber(_, _, _)
        | Term::ApplyLanes { .. }
        | Term::DivideLanes(_, _, _)
        | Term::Select(_, _, _)
        | Term::Pair(_, _)
        | Term::Zip(_, _)
        | Term::First(_)
        | Term::Second(_)
        | Term::LetElement(_, _, _)
        | Term::Fold(_)
        | Term::Store(_, _)
        | Term::Copy(_, _, _) => Ok(Block::new(alloc)),
    }
}
