//! The code of the items of a group together: local maps, and the copies
//! to local memory that they fill.

ghost use Rattle.std.specs.Prelude.{◌≡◌, IfOk, OnOk};
ghost use Rattle.group_form.specs.ChosenForms.{form_of};
ghost use Rattle.group_form.specs.Printer as printer;
ghost use Rattle.kernel_tree.specs.Code.{End};
ghost use Rattle.length_spelling.specs.Turns.{number_of, turn_formula};
ghost use Rattle.lift_tree.specs.declared.term.Dimension.TheVariants.{X};
ghost use Rattle.lift_tree.specs.declared.term.Level.TheVariants.{Items};
ghost use Rattle.printed_form.specs.Arguments.{argument_view, local_arrays};
ghost use Rattle.lift_ir.specs.Terms as terms;
ghost use Rattle.array_views.specs.Views.{view_in};
ghost use Rattle.lowering.specs.Terms.{load_set_of, map_of, term_of};
ghost use Rattle.item_emit.specs.Blocks.{code_in};
ghost use Rattle.item_emit.specs.Copies.{HasShortCopies};
ghost use Rattle.item_emit.specs.Scopes.{scope_of};
ghost use Rattle.group_emit.specs.Settings.{fence_in, forms_in, inputs_of, spell_of};
ghost use Rattle.group_emit.specs.Used.{used_of};

use crate::counts::Used;
use crate::setting::Setting;
use array_views::View;
use group_form::chosen::MapForm;
use item_emit::accesses::{loaded, put_loaded};
use item_emit::arguments::{argument, laid};
use item_emit::block::Block;
use item_emit::counts::{load_count, local_count, plus};
use item_emit::scope::Scope;
use item_emit::statements as item;
use kernel_tree::tree::{Dimension, Start, Stride};
use length_spelling::{Turn, spell_length};
use lowering::term::{Map, Space, Term};
use std::alloc::{AllocError, Global};

/// Where code stands: within so many loops, with these binders in scope, and
/// behind code that uses so much.
#[derive(Clone, Copy)]
pub struct Site<'s> {
    pub depth: u32,
    pub scope: &'s Scope<'s>,
    pub used: Used,
}

impl Site<'_> {
    /// What stands here for an argument, whose copies are local.
    pub fn argument(
        &self,
        alloc: Global,
        setting: &Setting,
        term: &Term,
    ) -> Result<View, AllocError>
        requires { HasShortCopies (term_of term.now) }
        ensures { IfOk result (λ v. view_in v ≡ argument_view local_arrays (spell_of setting.now)
            (inputs_of setting.now) (scope_of self.now.scope.now) self.now.used.locals
            (term_of term.now)) }
    {
        argument(
            alloc,
            &setting.declared,
            self.scope,
            Space::Local,
            self.used.locals,
            term,
        )
    }
}

// A turn of a local map in this form.
fn local_turn(form: MapForm, depth: u32) -> Turn
    ensures { turn_formula (number_of result)
        ≡ printer.turn_formula (form_of form) (terms.Over Items X) depth }
{
    match form {
        MapForm::Looped => Turn::Loop(depth),
        MapForm::Guarded | MapForm::Alone => Turn::Local(Dimension::X),
    }
}

/// In how many loops a turn of a map in this form stands, where the map stands in so many.
pub fn depth_in(form: MapForm, depth: u32) -> Result<u32, AllocError>
    ensures { IfOk result (λ n. n ≡ printer.depth_in (form_of form) depth) }
{
    match form {
        MapForm::Looped => plus(depth, 1),
        MapForm::Guarded | MapForm::Alone => Ok(depth),
    }
}

// A turn of a local map over this array.
fn put_local_turn(
    alloc: Global,
    setting: &Setting,
    site: &Site,
    map: &Map,
    array: &View,
    target: &View,
    block: &mut Block,
) -> Result<(), AllocError>
    requires { HasShortCopies (term_of map.now.body) }
    ensures { OnOk result (code_in block.new ≡ printer.print_local_turn (spell_of setting.now)
        (forms_in setting.now) (inputs_of setting.now) (fence_in setting.now) site.now.depth
        (scope_of site.now.scope.now) (used_of site.now.used) map.now.length
        (load_set_of map.now.loads) (view_in array.now) (term_of map.now.body)
        (view_in target.now) (code_in block.old)) }
{
    let form = setting.local_form(Dimension::X, &map.length);
    let turn = local_turn(form, site.depth);
    let element = item::at_turn(alloc, array, turn)?;
    let first_load = site.used.variables;
    let bound = loaded(alloc, &map.loads, &element, first_load)?;
    let inner = item::Site {
        depth: depth_in(form, site.depth)?,
        scope: &Scope::Bound(&bound, site.scope),
        array: site.used.privates,
        variable: first_load.more(load_count(&map.loads)?)?,
    };
    let target = item::at_turn(alloc, target, turn)?;
    item::put_written(alloc, &setting.declared, &inner, &map.body, &target, block)?;
    put_loaded(alloc, &map.loads, &element, first_load, block)
}

// A turn of a local map over this array, with nothing behind it.
fn local_block(
    alloc: Global,
    setting: &Setting,
    site: &Site,
    map: &Map,
    array: &View,
    target: &View,
) -> Result<Block, AllocError>
    requires { HasShortCopies (term_of map.now.body) }
    ensures { IfOk result (λ b. code_in b ≡ printer.print_local_turn (spell_of setting.now)
        (forms_in setting.now) (inputs_of setting.now) (fence_in setting.now) site.now.depth
        (scope_of site.now.scope.now) (used_of site.now.used) map.now.length
        (load_set_of map.now.loads) (view_in array.now) (term_of map.now.body)
        (view_in target.now) End) }
{
    let mut turn = Block::new(alloc);
    put_local_turn(alloc, setting, site, map, array, target, &mut turn)?;
    Ok(turn)
}

/// The statement of a local map along a row over this array, or its turn alone, as its length's
/// form is.
pub fn put_local_map(
    alloc: Global,
    setting: &Setting,
    site: &Site,
    map: &Map,
    array: &View,
    target: &View,
    block: &mut Block,
) -> Result<(), AllocError>
    requires { HasShortCopies (term_of map.now.body) }
    ensures { OnOk result (code_in block.new ≡ printer.print_local_map (spell_of setting.now)
        (forms_in setting.now) (inputs_of setting.now) (fence_in setting.now) site.now.depth
        (scope_of site.now.scope.now) (used_of site.now.used) map.now.length
        (load_set_of map.now.loads) (view_in array.now) (term_of map.now.body)
        (view_in target.now) (code_in block.old)) }
{
    match setting.local_form(Dimension::X, &map.length) {
        MapForm::Alone => put_local_turn(alloc, setting, site, map, array, target, block),
        MapForm::Guarded => {
            let turn = local_block(alloc, setting, site, map, array, target)?;
            let length = spell_length(alloc, &map.length, setting.declared.names)?;
            block.put_guard(Start::LocalId(Dimension::X), length, turn)
        }
        MapForm::Looped => {
            let turn = local_block(alloc, setting, site, map, array, target)?;
            let length = spell_length(alloc, &map.length, setting.declared.names)?;
            let stride = Stride::LocalSize(Dimension::X);
            block.put_loop(Start::LocalId(Dimension::X), length, stride, turn)
        }
    }
}

// The code of a local map, with the barrier before it.
#[cycle(statements)]
fn put_map(
    alloc: Global,
    setting: &Setting,
    site: &Site,
    map: &Map,
    target: &View,
    block: &mut Block,
) -> Result<(), AllocError>
    requires { HasShortCopies (map_of map.now) }
    ensures { OnOk result (code_in block.new ≡ printer.print_group_written (spell_of setting.now)
        (forms_in setting.now) (inputs_of setting.now) (fence_in setting.now) site.now.depth
        (scope_of site.now.scope.now)
        (used_of site.now.used) (map_of map.now) (view_in target.now) (code_in block.old)) }
{
    let view = site.argument(alloc, setting, &map.array)?;
    let after = Site {
        used: site.used.after(&map.array)?,
        ..*site
    };
    put_local_map(alloc, setting, &after, map, &view, target, block)?;
    setting.put_barrier(after.used.phases, block)?;
    put_argument(alloc, setting, site, &map.array, block)
}

// The code of a let of an array whose body is written.
#[cycle(statements)]
fn put_let(
    alloc: Global,
    setting: &Setting,
    site: &Site,
    value: &Term,
    body: &Term,
    target: &View,
    block: &mut Block,
) -> Result<(), AllocError>
    requires value { HasShortCopies (term_of value.now) }
    requires body { HasShortCopies (term_of body.now) }
    ensures { OnOk result (code_in block.new ≡ printer.print_group_written (spell_of setting.now)
        (forms_in setting.now) (inputs_of setting.now) (fence_in setting.now) site.now.depth
        (scope_of site.now.scope.now)
        (used_of site.now.used) (terms.LetArray (term_of value.now) (term_of body.now))
        (view_in target.now) (code_in block.old)) }
{
    let bound = site.argument(alloc, setting, value)?;
    let inner = Site {
        depth: site.depth,
        scope: &Scope::Bound(&bound, site.scope),
        used: site.used.after(value)?,
    };
    put_written(alloc, setting, &inner, body, target, block)?;
    put_argument(alloc, setting, site, value, block)
}

// The code of a let of an array whose body is an argument.
#[cycle(statements)]
fn put_argument_let(
    alloc: Global,
    setting: &Setting,
    site: &Site,
    value: &Term,
    body: &Term,
    block: &mut Block,
) -> Result<(), AllocError>
    requires value { HasShortCopies (term_of value.now) }
    requires body { HasShortCopies (term_of body.now) }
    ensures { OnOk result (code_in block.new ≡ printer.print_group_argument (spell_of setting.now)
        (forms_in setting.now) (inputs_of setting.now) (fence_in setting.now) site.now.depth
        (scope_of site.now.scope.now)
        (used_of site.now.used) (terms.LetArray (term_of value.now) (term_of body.now))
        (code_in block.old)) }
{
    let bound = site.argument(alloc, setting, value)?;
    let inner = Site {
        depth: site.depth,
        scope: &Scope::Bound(&bound, site.scope),
        used: site.used.after(value)?,
    };
    put_argument(alloc, setting, &inner, body, block)?;
    put_argument(alloc, setting, site, value, block)
}

/// The copies of an argument to local memory.
#[cycle(statements)]
pub fn put_argument(
    alloc: Global,
    setting: &Setting,
    site: &Site,
    term: &Term,
    block: &mut Block,
) -> Result<(), AllocError>
    requires { HasShortCopies (term_of term.now) }
    ensures { OnOk result (code_in block.new ≡ printer.print_group_argument (spell_of setting.now)
        (forms_in setting.now) (inputs_of setting.now) (fence_in setting.now) site.now.depth
        (scope_of site.now.scope.now)
        (used_of site.now.used) (term_of term.now) (code_in block.old)) }
{
    match term {
        Term::Pair(a, b) | Term::Zip(a, b) => {
            let next = Site {
                used: site.used.after(a)?,
                ..*site
            };
            put_argument(alloc, setting, &next, b, block)?;
            put_argument(alloc, setting, site, a, block)
        }
        Term::First(a) | Term::Second(a) | Term::Reshape(_, a) => {
            put_argument(alloc, setting, site, a, block)
        }
        Term::LetArray(value, body) => put_argument_let(alloc, setting, site, value, body, block),
        Term::Copy(_, ty, a) => {
            let first = plus(site.used.locals, local_count(a)?)?;
            let target = laid(alloc, Space::Local, first, ty)?;
            put_written(alloc, setting, site, a, &target, block)
        }
        Term::Literal(_)
        | Term::Bound(_)
        | Term::Source(_)
        | Term::Apply(_, _, _)
        | Term::ApplyNumber(_, _, _)
        | Term::ApplyLanes { .. }
        | Term::DivideLanes(_, _, _)
        | Term::Select(_, _, _)
        | Term::LetElement(_, _, _)
        | Term::Map(_)
        | Term::Fold(_)
        | Term::Store(_, _) => Ok(()),
    }
}

/// A term in writing position, which goes to the target.
#[cycle(statements)]
pub fn put_written(
    alloc: Global,
    setting: &Setting,
    site: &Site,
    term: &Term,
    target: &View,
    block: &mut Block,
) -> Result<(), AllocError>
    requires { HasShortCopies (term_of term.now) }
    ensures { OnOk result (code_in block.new ≡ printer.print_group_written (spell_of setting.now)
        (forms_in setting.now) (inputs_of setting.now) (fence_in setting.now) site.now.depth
        (scope_of site.now.scope.now)
        (used_of site.now.used) (term_of term.now) (view_in target.now) (code_in block.old)) }
{
    match term {
        Term::Reshape(layout, a) => {
            let names = setting.declared.names;
            let target = target.writing(alloc, names, &layout.form, &layout.ty, &layout.operand)?;
            put_written(alloc, setting, site, a, &target, block)
        }
        Term::LetArray(value, body) => put_let(alloc, setting, site, value, body, target, block),
        Term::Map(map) => put_map(alloc, setting, site, map, target, block),
        Term::Literal(_)
        | Term::Bound(_)
        | Term::Source(_)
        | Term::Apply(_, _, _)
        | Term::ApplyNumber(_, _, _)
        | Term::ApplyLanes { .. }
        | Term::DivideLanes(_, _, _)
        | Term::Select(_, _, _)
        | Term::Pair(_, _)
        | Term::Zip(_, _)
        | Term::First(_)
        | Term::Second(_)
        | Term::LetElement(_, _, _)
        | Term::Fold(_)
        | Term::Store(_, _)
        | Term::Copy(_, _, _) => Ok(()),
    }
}
