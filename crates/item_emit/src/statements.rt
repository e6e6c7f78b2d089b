//! The code of arguments and of terms in writing position, by one work-item.

ghost use Rattle.std.specs.Prelude.{◌≡◌, ◌+◌, suc, [], IfOk, OnOk};
ghost use Rattle.kernel_tree.specs.Code.{End, FromZero, ByOne, Loops};
ghost use Rattle.kernel_tree.specs.Formula as formula;
ghost use Rattle.kernel_tree.specs.Tree as tree;
ghost use Rattle.length_spelling.specs.Turns.{number_of, turn_formula};
ghost use Rattle.lift_ir.specs.Lowering.{element_ty};
ghost use Rattle.lift_ir.specs.Terms as terms;
ghost use Rattle.lift_ir.specs.Terms.{push};
ghost use Rattle.lift_tree.specs.Types.{ty_of};
ghost use Rattle.printed_form.specs.Arguments.{argument_view, private_arrays};
ghost use Rattle.printed_form.specs.Counts.{let_variables, load_count, more, private_count, variable_count};
ghost use Rattle.printed_form.specs.Form as form;
ghost use Rattle.printed_form.specs.Form.{dimension_of};
ghost use Rattle.printed_form.specs.Printer as printer;
ghost use Rattle.printed_form.specs.Views.{held_sign, held_view, loaded_view, view_at};
ghost use Rattle.array_views.specs.Counts.{count_of};
ghost use Rattle.array_views.specs.Views.{view_in};
ghost use Rattle.lowering.specs.Terms.{fold_of, kind_of, load_set_of, map_of, term_of};
ghost use Rattle.item_emit.specs.Blocks.{code_in};
ghost use Rattle.item_emit.specs.Copies.{HasShortCopies};
ghost use Rattle.item_emit.specs.Inputs.{inputs_in, spell_in};
ghost use Rattle.item_emit.specs.Scopes.{scope_of};

use crate::accesses::{loaded, put_loaded, put_stored};
use crate::arguments::{Declared, argument, laid};
use crate::block::Block;
use crate::counts::{let_variables, load_count, plus, private_count, variable_count};
use crate::elements::{put_bound, put_element, put_reassigned};
use crate::expressions::Part;
use crate::scope::Scope;
use array_views::{Count, View, held_count};
use index_expr::Index;
use kernel_tree::tree::{self, Expr, Start, Stride};
use length_spelling::{Turn, spell_length};
use lift_tree::term::{Dimension, Level};
use lift_tree::ty::Ty;
use lowering::term::{Fold, Kind, Map, Space, Term};
use std::alloc::{AllocError, Global};

/// Where code stands: within so many loops, with these binders in scope, with the number of the
/// first private array that isn't taken, and so many private variables taken.
#[derive(Clone, Copy)]
pub struct Site<'s> {
    pub depth: u32,
    pub scope: &'s Scope<'s>,
    pub array: u32,
    pub variable: Count,
}

impl<'s> Site<'s> {
    // The site behind the copies of an argument.
    fn after(&self, term: &Term) -> Result<Site<'s>, AllocError>
        ensures depth { IfOk result (λ site. site.depth ≡ self.now.depth) }
        ensures scope { IfOk result (λ site. site.scope.now ≡ self.now.scope.now) }
        ensures array { IfOk result
            (λ site. site.array ≡ self.now.array + private_count (term_of term.now)) }
        ensures variable { IfOk result
            (λ site. count_of site.variable
            ≡ more (count_of self.now.variable) (variable_count (term_of term.now))) }
    {
        Ok(Site {
            array: plus(self.array, private_count(term)?)?,
            variable: self.variable.more(variable_count(term)?)?,
            ..*self
        })
    }

    // What stands here for an argument, whose copies are private.
    fn argument(&self, alloc: Global, declared: &Declared, term: &Term) -> Result<View, AllocError>
        requires { HasShortCopies (term_of term.now) }
        ensures { IfOk result (λ v. view_in v ≡ argument_view private_arrays
            (spell_in declared.now) (inputs_in declared.now) (scope_of self.now.scope.now)
            self.now.array (term_of term.now)) }
    {
        argument(
            alloc,
            declared,
            self.scope,
            Space::Private,
            self.array,
            term,
        )
    }

    // The element of an argument at a turn of the loop here.
    fn element(&self, alloc: Global, declared: &Declared, array: &Term) -> Result<View, AllocError>
        requires { HasShortCopies (term_of array.now) }
        ensures { IfOk result (λ v. view_in v ≡ view_at (formula.LoopVariable self.now.depth)
            (argument_view private_arrays (spell_in declared.now) (inputs_in declared.now)
            (scope_of self.now.scope.now) self.now.array (term_of array.now))) }
    {
        let array = self.argument(alloc, declared, array)?;
        at_turn(alloc, &array, Turn::Loop(self.depth))
    }
}

// The device's dimension.
fn along(dimension: Dimension) -> tree::Dimension
    ensures { result ≡ dimension_of dimension }
{
    match dimension {
        Dimension::X => tree::Dimension::X,
        Dimension::Y => tree::Dimension::Y,
    }
}

// Where an item's turns of a map of this kind begin.
fn start_of(kind: Kind) -> Start
    ensures { tree.start_of result ≡ form.start_of (kind_of kind) }
{
    match kind {
        Kind::Over(Level::Launch, dimension) => Start::GlobalId(along(dimension)),
        Kind::Over(Level::Groups, dimension) => Start::GroupId(along(dimension)),
        Kind::Over(Level::Items, dimension) => Start::LocalId(along(dimension)),
        Kind::Sequential => Start::Zero,
    }
}

// How far they are from one another.
fn stride_of(kind: Kind) -> Stride
    ensures { tree.stride_of result ≡ form.stride_of (kind_of kind) }
{
    match kind {
        Kind::Over(Level::Launch, dimension) => Stride::GlobalSize(along(dimension)),
        Kind::Over(Level::Groups, dimension) => Stride::GroupCount(along(dimension)),
        Kind::Over(Level::Items, dimension) => Stride::LocalSize(along(dimension)),
        Kind::Sequential => Stride::One,
    }
}

/// The element at a turn. Where the turn has no number, the answer is want of memory: so many loops
/// take more.
#[tactic(auto, using(crate::proofs::Written::numbered))]
pub fn at_turn(alloc: Global, array: &View, turn: Turn) -> Result<View, AllocError>
    ensures { IfOk result
        (λ v. view_in v ≡ view_at (turn_formula (number_of turn)) (view_in array.now)) }
{
    match turn.number() {
        Some(number) => {
            let index = Index::Variable {
                number,
                least: 0,
                greatest: u32::MAX,
            };
            array.at(alloc, index)
        }
        None => Err(AllocError),
    }
}

// The first element.
fn at_first(alloc: Global, array: &View) -> Result<View, AllocError>
    ensures { IfOk result
        (λ v. view_in v ≡ view_at (formula.Number 0) (view_in array.now)) }
{
    array.at(alloc, Index::Literal(0))
}

// The code of an element in writing position.
fn put_store(
    alloc: Global,
    site: &Site,
    ty: &Ty,
    value: &Term,
    target: &View,
    block: &mut Block,
) -> Result<(), AllocError>
    ensures { OnOk result (code_in block.new ≡ printer.print_element
        (scope_of site.now.scope.now) (count_of site.now.variable) (term_of value.now)
        (printer.print_stored (element_ty (ty_of ty.now)) (printer.sign_exprs
        (scope_of site.now.scope.now) (count_of site.now.variable) (term_of value.now))
        (view_in target.now) (code_in block.old))) }
{
    let part = Part::Whole(site.scope, site.variable, value);
    put_stored(alloc, ty, &part, target, block)?;
    put_element(alloc, site.scope, site.variable, value, block)
}

// A turn of a fold over this element, where the accumulator is held from that variable on.
fn fold_turn(
    alloc: Global,
    scope: &Scope,
    fold: &Fold,
    element: &View,
    accumulator: Count,
) -> Result<Block, AllocError>
    ensures { IfOk result (λ turn. code_in turn ≡ printer.print_fold_turn (scope_of scope.now)
        (load_set_of fold.now.loads) (element_ty (ty_of fold.now.accumulator))
        (view_in element.now) (count_of accumulator) (term_of fold.now.body)) }
{
    let ty = &fold.accumulator;
    let body = &fold.body;
    let first_load = accumulator.more(held_count(ty)?)?;
    let first_let = first_load.more(load_count(&fold.loads)?)?;
    let temporary = first_let.more(let_variables(body)?)?;
    let held = View::held(alloc, ty, accumulator)?;
    let bound = loaded(alloc, &fold.loads, element, first_load)?;
    let scope = Scope::Bound(&held, scope);
    let scope = Scope::Bound(&bound, &scope);
    let value = Part::Whole(&scope, first_let, body);
    let mut turn = Block::new(alloc);
    put_reassigned(alloc, ty, &value, accumulator, temporary, &mut turn)?;
    put_element(alloc, &scope, first_let, body, &mut turn)?;
    put_loaded(alloc, &fold.loads, element, first_load, &mut turn)?;
    Ok(turn)
}

// Stores an accumulator, which is held from that variable on, as the target's first element.
fn put_result(
    alloc: Global,
    ty: &Ty,
    accumulator: Count,
    target: &View,
    block: &mut Block,
) -> Result<(), AllocError>
    ensures { OnOk result (let t = element_ty (ty_of ty.now) in
        code_in block.new ≡ printer.print_stored t
        (λ cs. held_sign (held_view t (count_of accumulator) cs []))
        (view_at (formula.Number 0) (view_in target.now)) (code_in block.old)) }
{
    let values = View::held(alloc, ty, accumulator)?;
    let scope = Scope::Bound(&values, &Scope::Empty);
    let target = at_first(alloc, target)?;
    put_stored(
        alloc,
        ty,
        &Part::Whole(&scope, Count::none(), &Term::Bound(0)),
        &target,
        block,
    )
}

// A fold's code after that of its array, of which this stands for the element at a turn.
fn put_fold_loop(
    alloc: Global,
    site: &Site,
    length: Expr,
    fold: &Fold,
    element: &View,
    target: &View,
    block: &mut Block,
) -> Result<(), AllocError>
    ensures { OnOk result (let env = scope_of site.now.scope.now in
        let n = count_of site.now.variable in let start = term_of fold.now.start in
        let acc = more n (let_variables start) in let t = element_ty (ty_of fold.now.accumulator) in
        code_in block.new ≡ printer.print_element env n start
        (printer.print_assigned t (printer.sign_exprs env n start) acc
        (Loops FromZero (tree.formula_of length) ByOne
        (printer.print_fold_turn env (load_set_of fold.now.loads) t (view_in element.now) acc
        (term_of fold.now.body))
        (printer.print_stored t (λ cs. held_sign (held_view t acc cs []))
        (view_at (formula.Number 0) (view_in target.now)) (code_in block.old))))) }
{
    let ty = &fold.accumulator;
    let accumulator = site.variable.more(let_variables(&fold.start)?)?;
    let turn = fold_turn(alloc, site.scope, fold, element, accumulator)?;
    put_result(alloc, ty, accumulator, target, block)?;
    block.put_loop(Start::Zero, length, Stride::One, turn)?;
    put_bound(
        alloc,
        site.scope,
        site.variable,
        ty,
        &fold.start,
        accumulator,
        block,
    )
}

/// The copies of an argument.
#[cycle(statements)]
pub fn put_argument(
    alloc: Global,
    declared: &Declared,
    site: &Site,
    term: &Term,
    block: &mut Block,
) -> Result<(), AllocError>
    requires { HasShortCopies (term_of term.now) }
    ensures { OnOk result (code_in block.new ≡ printer.print_argument (spell_in declared.now)
        (inputs_in declared.now) site.now.depth (scope_of site.now.scope.now) site.now.array
        (count_of site.now.variable) (term_of term.now) (code_in block.old)) }
{
    match term {
        Term::Pair(a, b) | Term::Zip(a, b) => {
            put_argument(alloc, declared, &site.after(a)?, b, block)?;
            put_argument(alloc, declared, site, a, block)
        }
        Term::First(a) | Term::Second(a) | Term::Reshape(_, a) => {
            put_argument(alloc, declared, site, a, block)
        }
        Term::LetArray(value, body) => put_argument_let(alloc, declared, site, value, body, block),
        Term::Copy(Space::Private, ty, a) => {
            let first = plus(site.array, private_count(a)?)?;
            let target = laid(alloc, Space::Private, first, ty)?;
            put_written(alloc, declared, site, a, &target, block)
        }
        Term::Literal(_)
        | Term::Bound(_)
        | Term::Source(_)
        | Term::Apply(_, _, _)
        | Term::ApplyNumber(_, _, _)
        | Term::ApplyLanes { .. }
        | Term::DivideLanes(_, _, _)
        | Term::Select(_, _, _)
        | Term::LetElement(_, _, _)
        | Term::Map(_)
        | Term::Fold(_)
        | Term::Store(_, _)
        | Term::Copy(Space::Local, _, _) => Ok(()),
    }
}

// The code of a let of an array whose body is an argument.
#[cycle(statements)]
fn put_argument_let(
    alloc: Global,
    declared: &Declared,
    site: &Site,
    value: &Term,
    body: &Term,
    block: &mut Block,
) -> Result<(), AllocError>
    requires value { HasShortCopies (term_of value.now) }
    requires body { HasShortCopies (term_of body.now) }
    ensures { OnOk result (code_in block.new ≡ printer.print_argument (spell_in declared.now)
        (inputs_in declared.now) site.now.depth (scope_of site.now.scope.now) site.now.array
        (count_of site.now.variable) (terms.LetArray (term_of value.now) (term_of body.now))
        (code_in block.old)) }
{
    let bound = site.argument(alloc, declared, value)?;
    let after = site.after(value)?;
    let inner = Site {
        scope: &Scope::Bound(&bound, site.scope),
        ..after
    };
    put_argument(alloc, declared, &inner, body, block)?;
    put_argument(alloc, declared, site, value, block)
}

// A turn of a map over this element, behind the copies of its array.
#[cycle(statements)]
fn map_turn(
    alloc: Global,
    declared: &Declared,
    site: &Site,
    map: &Map,
    element: &View,
    target: &View,
) -> Result<Block, AllocError>
    requires { HasShortCopies (term_of map.now.body) }
    ensures { IfOk result (λ turn. let n = (count_of site.now.variable) in
        let loads = load_set_of map.now.loads in let bound = view_in element.now in
        code_in turn ≡ printer.print_loaded loads bound n
        (printer.print_written (spell_in declared.now) (inputs_in declared.now)
        (suc site.now.depth) (push (loaded_view loads bound n) (scope_of site.now.scope.now))
        site.now.array (more n (load_count loads)) (term_of map.now.body) (view_in target.now)
        End)) }
{
    let bound = loaded(alloc, &map.loads, element, site.variable)?;
    let inner = Site {
        depth: plus(site.depth, 1)?,
        scope: &Scope::Bound(&bound, site.scope),
        array: site.array,
        variable: site.variable.more(load_count(&map.loads)?)?,
    };
    let mut turn = Block::new(alloc);
    put_written(alloc, declared, &inner, &map.body, target, &mut turn)?;
    put_loaded(alloc, &map.loads, element, site.variable, &mut turn)?;
    Ok(turn)
}

// A map's code.
#[cycle(statements)]
fn put_map(
    alloc: Global,
    declared: &Declared,
    site: &Site,
    map: &Map,
    target: &View,
    block: &mut Block,
) -> Result<(), AllocError>
    requires { HasShortCopies (map_of map.now) }
    ensures { OnOk result (code_in block.new ≡ printer.print_written (spell_in declared.now)
        (inputs_in declared.now) site.now.depth (scope_of site.now.scope.now) site.now.array
        (count_of site.now.variable) (map_of map.now) (view_in target.now) (code_in block.old)) }
{
    let element = site.element(alloc, declared, &map.array)?;
    let target = at_turn(alloc, target, Turn::Loop(site.depth))?;
    let after = site.after(&map.array)?;
    let turn = map_turn(alloc, declared, &after, map, &element, &target)?;
    let length = spell_length(alloc, &map.length, declared.names)?;
    block.put_loop(start_of(map.kind), length, stride_of(map.kind), turn)?;
    put_argument(alloc, declared, site, &map.array, block)
}

// The code of a let of an array.
#[cycle(statements)]
fn put_let_array(
    alloc: Global,
    declared: &Declared,
    site: &Site,
    value: &Term,
    body: &Term,
    target: &View,
    block: &mut Block,
) -> Result<(), AllocError>
    requires value { HasShortCopies (term_of value.now) }
    requires body { HasShortCopies (term_of body.now) }
    ensures { OnOk result (code_in block.new ≡ printer.print_written (spell_in declared.now)
        (inputs_in declared.now) site.now.depth (scope_of site.now.scope.now) site.now.array
        (count_of site.now.variable) (terms.LetArray (term_of value.now) (term_of body.now))
        (view_in target.now) (code_in block.old)) }
{
    let bound = site.argument(alloc, declared, value)?;
    let after = site.after(value)?;
    let inner = Site {
        scope: &Scope::Bound(&bound, site.scope),
        ..after
    };
    put_written(alloc, declared, &inner, body, target, block)?;
    put_argument(alloc, declared, site, value, block)
}

// The code of a let of an element.
#[cycle(statements)]
fn put_let_element(
    alloc: Global,
    declared: &Declared,
    site: &Site,
    ty: &Ty,
    value: &Term,
    body: &Term,
    target: &View,
    block: &mut Block,
) -> Result<(), AllocError>
    requires { HasShortCopies (term_of body.now) }
    ensures { OnOk result (code_in block.new ≡ printer.print_written (spell_in declared.now)
        (inputs_in declared.now) site.now.depth (scope_of site.now.scope.now) site.now.array
        (count_of site.now.variable) (terms.LetElement (element_ty (ty_of ty.now))
        (term_of value.now) (term_of body.now)) (view_in target.now) (code_in block.old)) }
{
    let variable = site.variable.more(let_variables(value)?)?;
    let bound = View::held(alloc, ty, variable)?;
    let inner = Site {
        depth: site.depth,
        scope: &Scope::Bound(&bound, site.scope),
        array: site.array,
        variable: variable.more(held_count(ty)?)?,
    };
    put_written(alloc, declared, &inner, body, target, block)?;
    put_bound(alloc, site.scope, site.variable, ty, value, variable, block)
}

// A fold's code.
#[cycle(statements)]
fn put_fold(
    alloc: Global,
    declared: &Declared,
    site: &Site,
    fold: &Fold,
    target: &View,
    block: &mut Block,
) -> Result<(), AllocError>
    requires { HasShortCopies (fold_of fold.now) }
    ensures { OnOk result (code_in block.new ≡ printer.print_written (spell_in declared.now)
        (inputs_in declared.now) site.now.depth (scope_of site.now.scope.now) site.now.array
        (count_of site.now.variable) (fold_of fold.now) (view_in target.now) (code_in block.old)) }
{
    let element = site.element(alloc, declared, &fold.array)?;
    let after = Site {
        variable: site.variable.more(variable_count(&fold.array)?)?,
        ..*site
    };
    let bound = spell_length(alloc, &fold.length, declared.names)?;
    put_fold_loop(alloc, &after, bound, fold, &element, target, block)?;
    put_argument(alloc, declared, site, &fold.array, block)
}

/// A term in writing position, which goes to the target.
#[cycle(statements)]
pub fn put_written(
    alloc: Global,
    declared: &Declared,
    site: &Site,
    term: &Term,
    target: &View,
    block: &mut Block,
) -> Result<(), AllocError>
    requires { HasShortCopies (term_of term.now) }
    ensures { OnOk result (code_in block.new ≡ printer.print_written (spell_in declared.now)
        (inputs_in declared.now) site.now.depth (scope_of site.now.scope.now) site.now.array
        (count_of site.now.variable) (term_of term.now) (view_in target.now) (code_in block.old)) }
{
    match term {
        Term::Store(ty, a) => put_store(alloc, site, ty, a, target, block),
        Term::Reshape(layout, a) => {
            let names = declared.names;
            let target = target.writing(alloc, names, &layout.form, &layout.ty, &layout.operand)?;
            put_written(alloc, declared, site, a, &target, block)
        }
        Term::LetArray(value, body) => {
            put_let_array(alloc, declared, site, value, body, target, block)
        }
        Term::LetElement(ty, value, body) => {
            put_let_element(alloc, declared, site, ty, value, body, target, block)
        }
        Term::Map(map) => put_map(alloc, declared, site, map, target, block),
        Term::Fold(fold) => put_fold(alloc, declared, site, fold, target, block),
        Term::Literal(_)
        | Term::Bound(_)
        | Term::Source(_)
        | Term::Apply(_, _, _)
        | Term::ApplyNumber(_, _, _)
        | Term::ApplyLanes { .. }
        | Term::DivideLanes(_, _, _)
        | Term::Select(_, _, _)
        | Term::Pair(_, _)
        | Term::Zip(_, _)
        | Term::First(_)
        | Term::Second(_)
        | Term::Copy(_, _, _) => Ok(()),
    }
}
