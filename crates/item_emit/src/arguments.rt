//! What stands for arguments: inputs, copies in the arrays of a space, bound elements, and layouts
//! of them.

ghost use Rattle.std.specs.Prelude.{◌≡◌, ◌+◌, [], if◌then◌else◌, IfOk, map};
ghost use Rattle.kernel_tree.specs.Code.{Input, Output};
ghost use Rattle.lift_tree.specs.Types.{ty_of};
ghost use Rattle.lift_ir.specs.AtLaunch.{shape_of, ty_at};
ghost use Rattle.lift_ir.specs.Types.{IsShort};
ghost use Rattle.array_views.specs.Arrays.{array_with};
ghost use Rattle.printed_form.specs.Arguments.{argument_view};
ghost use Rattle.printed_form.specs.Programs as programs;
ghost use Rattle.printed_form.specs.Views as views;
ghost use Rattle.length_spelling.specs.Formulas.{length_formula};
ghost use Rattle.array_views.specs.Views.{view_in};
ghost use Rattle.lowering.specs.Terms.{space_of, term_of};
ghost use Rattle.item_emit.specs.Copies.{HasShortCopies, copy_arrays};
ghost use Rattle.item_emit.specs.Inputs.{inputs_in, spell_in};
ghost use Rattle.item_emit.specs.Scopes.{scope_of};

use crate::counts::{array_count, plus, width};
use crate::scope::Scope;
use array_views::{ArrayKind, View};
use lift_tree::ty::Ty;
use lowering::term::{Space, Term};
use size_arith::{Names, Poly};
use std::alloc::{AllocError, Global};

/// What a program's terms name: the sizes, and the inputs' types.
#[derive(Clone, Copy)]
pub struct Declared<'p> {
    pub names: &'p Names,
    pub inputs: &'p [Ty],
}

// What stands for an array in buffers of a kind, the first of which has this number.
fn placed(
    alloc: Global,
    names: &Names,
    kind: ArrayKind,
    first: u32,
    ty: &Ty,
) -> Result<View, AllocError>
    ensures { IfOk result (λ v. view_in v ≡ views.placed_view (length_formula names.now)
        (array_with kind) first (shape_of (ty_of ty.now))) }
{
    plus(first, width(ty)?)?;
    View::placed(alloc, names, kind, first, ty)
}

/// What stands for the output.
pub fn output(alloc: Global, names: &Names, ty: &Ty) -> Result<View, AllocError>
    ensures { IfOk result (λ v. view_in v ≡ views.placed_view (length_formula names.now)
        Output 0 (shape_of (ty_of ty.now))) }
{
    placed(alloc, names, ArrayKind::Output, 0, ty)
}

/// What stands for the input of this number, where the first buffer
/// of the first input has that one.
pub fn input(
    alloc: Global,
    names: &Names,
    first: u32,
    inputs: &[Ty],
    number: u32,
) -> Result<View, AllocError>
    ensures { IfOk result (λ v. view_in v ≡ views.placed_view (length_formula names.now) Input
        (first + programs.first_buffer (map ty_of inputs.now) number)
        (programs.input_shape (map ty_of inputs.now) number)) }
{
    match inputs {
        [] => {
            let none = Ty::Array(Box::new(alloc, Ty::Number)?, Poly::zero(alloc));
            placed(alloc, names, ArrayKind::Input, first, &none)
        }
        [ty, rest @ ..] => {
            if number == 0 {
                return placed(alloc, names, ArrayKind::Input, first, ty);
            }
            input(alloc, names, plus(first, width(ty)?)?, rest, number - 1)
        }
    }
}

/// How many buffers the inputs have.
pub fn buffer_count(inputs: &[Ty]) -> Result<u32, AllocError>
    ensures { IfOk result (λ n. n ≡ programs.buffer_count (map ty_of inputs.now)) }
{
    match inputs {
        [] => Ok(0),
        [ty, rest @ ..] => plus(width(ty)?, buffer_count(rest)?),
    }
}

// The arrays of a space.
fn kind_of(space: Space) -> ArrayKind
    ensures { array_with result ≡ (copy_arrays space).array }
{
    match space {
        Space::Local => ArrayKind::Local,
        Space::Private => ArrayKind::Private,
    }
}

/// A copy in arrays of a space, the first of which has this number.
pub fn laid(alloc: Global, space: Space, first: u32, ty: &Ty) -> Result<View, AllocError>
    requires { IsShort (ty_at [] (ty_of ty.now)) }
    ensures { IfOk result (λ v. view_in v
        ≡ views.laid_view (copy_arrays space).array first (ty_at [] (ty_of ty.now))) }
{
    plus(first, width(ty)?)?;
    View::laid(alloc, kind_of(space), first, ty)
}

// Whether a copy to one space lies in the arrays of the other. All copies lie in local arrays,
// where those are asked for.
fn holds(space: Space, copied: Space) -> bool
    ensures { result ≡ (copy_arrays space).holds (space_of copied) }
{
    match (space, copied) {
        (Space::Private, Space::Local) => false,
        (Space::Private, Space::Private) | (Space::Local, _) => true,
    }
}

// What stands for a copy to a space, where the first array of its operand has this number.
fn copied(
    alloc: Global,
    space: Space,
    first: u32,
    to: Space,
    ty: &Ty,
    operand: &Term,
) -> Result<View, AllocError>
    requires { IsShort (ty_at [] (ty_of ty.now)) }
    ensures { IfOk result (λ v. view_in v ≡ (if (copy_arrays space).holds (space_of to)
        then views.laid_view (copy_arrays space).array
        (first + (copy_arrays space).count (term_of operand.now)) (ty_at [] (ty_of ty.now))
        else (λ cs is. views.Blank))) }
{
    if holds(space, to) {
        laid(alloc, space, plus(first, array_count(space, operand)?)?, ty)
    } else {
        View::nothing(alloc)
    }
}

/// What stands for an argument whose copies lie in arrays of a space, the first of which has this
/// number.
pub fn argument(
    alloc: Global,
    declared: &Declared,
    scope: &Scope,
    space: Space,
    first: u32,
    term: &Term,
) -> Result<View, AllocError>
    requires { HasShortCopies (term_of term.now) }
    ensures { IfOk result (λ v. view_in v ≡ argument_view (copy_arrays space)
        (spell_in declared.now) (inputs_in declared.now) (scope_of scope.now) first
        (term_of term.now)) }
{
    match term {
        Term::Bound(binder) => scope.view(alloc, *binder),
        Term::Source(number) => input(alloc, declared.names, 0, declared.inputs, *number),
        Term::Pair(a, b) | Term::Zip(a, b) => {
            let second = plus(first, array_count(space, a)?)?;
            let a = argument(alloc, declared, scope, space, first, a)?;
            View::both(
                alloc,
                a,
                argument(alloc, declared, scope, space, second, b)?,
            )
        }
        Term::First(a) => {
            argument(alloc, declared, scope, space, first, a)?.component(alloc, false)
        }
        Term::Second(a) => {
            argument(alloc, declared, scope, space, first, a)?.component(alloc, true)
        }
        Term::Reshape(layout, a) => {
            let a = argument(alloc, declared, scope, space, first, a)?;
            a.reading(
                alloc,
                declared.names,
                &layout.form,
                &layout.ty,
                &layout.operand,
            )
        }
        Term::LetArray(value, body) => {
            let second = plus(first, array_count(space, value)?)?;
            let value = argument(alloc, declared, scope, space, first, value)?;
            argument(
                alloc,
                declared,
                &Scope::Bound(&value, scope),
                space,
                second,
                body,
            )
        }
        Term::Copy(to, ty, a) => copied(alloc, space, first, *to, ty, a),
        Term::Literal(_)
        | Term::Apply(_, _, _)
        | Term::ApplyNumber(_, _, _)
        | Term::ApplyLanes { .. }
        | Term::DivideLanes(_, _, _)
        | Term::Select(_, _, _)
        | Term::LetElement(_, _, _)
        | Term::Map(_)
        | Term::Fold(_)
        | Term::Store(_, _) => View::nothing(alloc),
    }
}
