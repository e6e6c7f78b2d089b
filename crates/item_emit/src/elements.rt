//! The code of element terms: the assignments of their lets, and of their values.

ghost use Rattle.std.specs.Prelude.{◌≡◌, [], OnOk};
ghost use Rattle.lift_tree.specs.Types.{ty_of};
ghost use Rattle.lift_ir.specs.Lowering.{element_ty};
ghost use Rattle.lift_ir.specs.Terms as terms;
ghost use Rattle.printed_form.specs.Counts as spec;
ghost use Rattle.printed_form.specs.Printer as printer;
ghost use Rattle.printed_form.specs.Views as views;
ghost use Rattle.array_views.specs.Counts.{count_of};
ghost use Rattle.lowering.specs.Terms.{term_of};
ghost use Rattle.item_emit.specs.Blocks.{code_in};
ghost use Rattle.item_emit.specs.Parts.{parts_of};
ghost use Rattle.item_emit.specs.Scopes.{scope_of};

use crate::block::Block;
use crate::counts::let_variables;
use crate::expressions::Part;
use crate::scope::Scope;
use array_views::{Count, View, held_count};
use kernel_tree::tree::Stmt;
use lift_tree::ty::Ty;
use lowering::term::Term;
use std::alloc::{AllocError, Global};

/// Assigns the components of an element to private variables, before which there are so many.
pub fn put_assigned(
    alloc: Global,
    ty: &Ty,
    part: &Part,
    first: Count,
    block: &mut Block,
) -> Result<(), AllocError>
    ensures { OnOk result (code_in block.new ≡ printer.print_assigned (element_ty (ty_of ty.now))
        (parts_of part.now) (count_of first) (code_in block.old)) }
{
    match ty {
        Ty::Number | Ty::Array(_, _) => block.put(Stmt::Assign(first.words, part.number(alloc)?)),
        Ty::Vector => block.put(Stmt::AssignFour(first.fours, part.lanes(alloc)?)),
        Ty::Pair(a, b) => {
            let second = first.more(held_count(a)?)?;
            put_assigned(alloc, b, &Part::Second(part), second, block)?;
            put_assigned(alloc, a, &Part::First(part), first, block)
        }
    }
}

/// Assigns the private variables from `from` on to those from `to` on.
pub fn put_moved(
    alloc: Global,
    ty: &Ty,
    from: Count,
    to: Count,
    block: &mut Block,
) -> Result<(), AllocError>
    ensures { OnOk result (code_in block.new ≡ printer.print_assigned (element_ty (ty_of ty.now))
        (λ cs. views.held_sign
        (views.held_view (element_ty (ty_of ty.now)) (count_of from) cs []))
        (count_of to) (code_in block.old)) }
{
    let values = View::held(alloc, ty, from)?;
    let scope = Scope::Bound(&values, &Scope::Empty);
    put_assigned(
        alloc,
        ty,
        &Part::Whole(&scope, Count::none(), &Term::Bound(0)),
        to,
        block,
    )
}

/// Assigns a new accumulator, of a pair through temporaries, before which there are `temporary`
/// variables.
pub fn put_reassigned(
    alloc: Global,
    ty: &Ty,
    part: &Part,
    accumulator: Count,
    temporary: Count,
    block: &mut Block,
) -> Result<(), AllocError>
    ensures { OnOk result (code_in block.new ≡ printer.print_reassigned
        (element_ty (ty_of ty.now)) (parts_of part.now) (count_of accumulator)
        (count_of temporary) (code_in block.old)) }
{
    match ty {
        Ty::Number | Ty::Vector | Ty::Array(_, _) => {
            put_assigned(alloc, ty, part, accumulator, block)
        }
        Ty::Pair(_, _) => {
            put_moved(alloc, ty, temporary, accumulator, block)?;
            put_assigned(alloc, ty, part, temporary, block)
        }
    }
}

// The lets of two element terms, one after the other.
#[cycle(elements)]
fn put_two(
    alloc: Global,
    scope: &Scope,
    first: Count,
    a: &Term,
    b: &Term,
    block: &mut Block,
) -> Result<(), AllocError>
    ensures { OnOk result (code_in block.new ≡ printer.print_element
        (scope_of scope.now) (count_of first) (term_of a.now)
        (printer.print_element (scope_of scope.now)
        (spec.more (count_of first) (spec.let_variables (term_of a.now))) (term_of b.now)
        (code_in block.old))) }
{
    let second = first.more(let_variables(a)?)?;
    put_element(alloc, scope, second, b, block)?;
    put_element(alloc, scope, first, a, block)
}

// The lets of a choice by a number.
#[cycle(elements)]
fn put_selected(
    alloc: Global,
    scope: &Scope,
    first: Count,
    condition: &Term,
    yes: &Term,
    no: &Term,
    block: &mut Block,
) -> Result<(), AllocError>
    ensures { OnOk result (code_in block.new ≡ printer.print_element (scope_of scope.now)
        (count_of first) (terms.Select (term_of condition.now) (term_of yes.now) (term_of no.now))
        (code_in block.old)) }
{
    let second = first.more(let_variables(condition)?)?;
    put_two(alloc, scope, second, yes, no, block)?;
    put_element(alloc, scope, first, condition, block)
}

/// The code that sets the private variables of an element, before which there are `variable`, to a
/// term before whose variables there are `first`.
#[cycle(elements)]
pub fn put_bound(
    alloc: Global,
    scope: &Scope,
    first: Count,
    ty: &Ty,
    value: &Term,
    variable: Count,
    block: &mut Block,
) -> Result<(), AllocError>
    ensures { OnOk result (code_in block.new ≡ printer.print_element
        (scope_of scope.now) (count_of first) (term_of value.now)
        (printer.print_assigned (element_ty (ty_of ty.now)) (printer.sign_exprs
        (scope_of scope.now) (count_of first) (term_of value.now)) (count_of variable)
        (code_in block.old))) }
{
    let part = Part::Whole(&*scope, first, &*value);
    put_assigned(alloc, ty, &part, variable, block)?;
    put_element(alloc, scope, first, value, block)
}

// The lets of a let of an element.
#[cycle(elements)]
fn put_let(
    alloc: Global,
    scope: &Scope,
    first: Count,
    ty: &Ty,
    value: &Term,
    body: &Term,
    block: &mut Block,
) -> Result<(), AllocError>
    ensures { OnOk result (code_in block.new ≡ printer.print_element (scope_of scope.now)
        (count_of first) (terms.LetElement (element_ty (ty_of ty.now)) (term_of value.now)
        (term_of body.now)) (code_in block.old)) }
{
    let variable = first.more(let_variables(value)?)?;
    let next = variable.more(held_count(ty)?)?;
    let bound = View::held(alloc, ty, variable)?;
    put_element(alloc, &Scope::Bound(&bound, &*scope), next, body, block)?;
    put_bound(alloc, scope, first, ty, value, variable, block)
}

/// The lets of an element term, before whose variables there are so many.
#[cycle(elements)]
pub fn put_element(
    alloc: Global,
    scope: &Scope,
    first: Count,
    term: &Term,
    block: &mut Block,
) -> Result<(), AllocError>
    ensures { OnOk result (code_in block.new ≡ printer.print_element
        (scope_of scope.now) (count_of first) (term_of term.now) (code_in block.old)) }
{
    match term {
        Term::Apply(_, a, b) | Term::Pair(a, b) | Term::Zip(a, b) => {
            put_two(alloc, scope, first, a, b, block)
        }
        Term::ApplyLanes { left, right, .. } => put_two(alloc, scope, first, left, right, block),
        Term::ApplyNumber(_, _, a)
        | Term::DivideLanes(_, _, a)
        | Term::First(a)
        | Term::Second(a) => put_element(alloc, scope, first, a, block),
        Term::Select(condition, yes, no) => {
            put_selected(alloc, scope, first, condition, yes, no, block)
        }
        Term::LetElement(ty, value, body) => put_let(alloc, scope, first, ty, value, body, block),
        Term::Literal(_)
        | Term::Bound(_)
        | Term::Source(_)
        | Term::Reshape(_, _)
        | Term::LetArray(_, _)
        | Term::Map(_)
        | Term::Fold(_)
        | Term::Store(_, _)
        | Term::Copy(_, _, _) => Ok(()),
    }
}
