//! Through layouts and the bodies of lets to the map on top.

ghost use Rattle.std.specs.Prelude.{◌≡◌, ◌*◌, ◌<◌, ◌^◌, IfSome, MatchOption};
ghost use Rattle.lift_tree.specs.Annotations.{annotation_of};
ghost use Rattle.lift_tree.specs.Tree.{nodes, tree_of};
ghost use Rattle.lift_tree.specs.Types.{ty_of};
ghost use Rattle.launch_lengths.specs.Bases.{bases_of};
ghost use Rattle.output_owner.specs.Owners.{IsOfNone, IsOfTop};
ghost use Rattle.output_owner.specs.Numbers as numbers;
ghost use Rattle.output_owner.specs.Numbers.{
  HasStep,
  IsOfComponent,
  IsStepOf,
  operand_number,
  reversed,
  strided,
  transposed,
};
ghost use Rattle.output_owner.specs.Written.{IsScalarOf};
ghost use Rattle.size_arith.specs.Ranges.{AreNames};

use crate::lengths::{product, scalars};
use launch_lengths::length_of;
use lift_tree::layout::Layout;
use lift_tree::term::{MapKind, Term, UnaryForm};
use lift_tree::ty::Ty;
use lift_tree::typed::NodeTypes;
use size_arith::Name;

/// The turn of the map on top in which a scalar is written, and its number in what the body gives.
#[derive(Clone, Copy)]
pub struct OnTop<'t> {
    pub kind: MapKind,
    pub turn: u64,
    pub body: &'t Term,
    pub types: &'t NodeTypes,
    pub number: u64,
}

// The number in n rows of m elements, each of so many scalars, of a scalar of the m columns.
fn moved(n: u32, m: u32, scalar: u32, number: u64) -> u64
    ensures { number < n * (m * scalar) → n * (m * scalar) < 2 ^ 31
        → result ≡ numbers.moved n m scalar number }
{
    let scalar = scalar as u64;
    let column = n as u64 * scalar;
    if column == 0 {
        return number;
    }
    let in_column = number % column;
    let element = (in_column / scalar)
        .wrapping_mul(m as u64)
        .wrapping_add(number / column);
    element
        .wrapping_mul(scalar)
        .wrapping_add(in_column % scalar)
}

// The number in n elements, each of so many scalars, of a scalar of
// them from the last to the first.
fn turned(n: u32, scalar: u32, number: u64) -> u64
    ensures { number < n * scalar → n * scalar < 2 ^ 31
        → result ≡ numbers.turned n scalar number }
{
    let scalar = scalar as u64;
    if scalar == 0 {
        return number;
    }
    let element = (n as u64).saturating_sub(1).saturating_sub(number / scalar);
    element.wrapping_mul(scalar).wrapping_add(number % scalar)
}

// The number in the rows of a scalar of the columns.
fn in_rows(rows: &Ty, number: u64, names: &[Name], sizes: &[u32]) -> u64
    requires names { AreNames names.now }
    ensures { IsOfComponent (bases_of names.now sizes.now) (ty_of rows.now) number
        → result ≡ transposed (bases_of names.now sizes.now) (ty_of rows.now) number }
{
    match rows {
        Ty::Array(row, count) => match &**row {
            Ty::Array(element, width) => {
                let count = length_of(count, names, sizes);
                let width = length_of(width, names, sizes);
                moved(count, width, scalars(element, names, sizes), number)
            }
            Ty::Number | Ty::Vector | Ty::Pair(_, _) => number,
        },
        Ty::Number | Ty::Vector | Ty::Pair(_, _) => number,
    }
}

// The number in the elements of a scalar of them from the last to the first.
fn from_last(elements: &Ty, number: u64, names: &[Name], sizes: &[u32]) -> u64
    requires names { AreNames names.now }
    ensures { IsOfComponent (bases_of names.now sizes.now) (ty_of elements.now) number
        → result ≡ reversed (bases_of names.now sizes.now) (ty_of elements.now) number }
{
    match elements {
        Ty::Array(element, count) => {
            let count = length_of(count, names, sizes);
            turned(count, scalars(element, names, sizes), number)
        }
        Ty::Number | Ty::Vector | Ty::Pair(_, _) => number,
    }
}

// The number in the elements of a scalar of those this far from one another.
fn in_steps(elements: &Ty, step: u32, number: u64, names: &[Name], sizes: &[u32]) -> u64
    requires names { AreNames names.now }
    ensures { IsOfComponent (bases_of names.now sizes.now) (ty_of elements.now) number
        → IsStepOf (bases_of names.now sizes.now) step (ty_of elements.now)
        → result ≡ strided (bases_of names.now sizes.now) step (ty_of elements.now) number }
{
    match elements {
        Ty::Array(element, count) => {
            if step == 0 {
                return number;
            }
            let count = length_of(count, names, sizes);
            moved(count / step, step, scalars(element, names, sizes), number)
        }
        Ty::Number | Ty::Vector | Ty::Pair(_, _) => number,
    }
}

// The number in a layout's operand of a scalar of the layout.
fn in_operand(layout: &Layout, operand: &Ty, number: u64, names: &[Name], sizes: &[u32]) -> u64
    requires names { AreNames names.now }
    ensures { IsOfComponent (bases_of names.now sizes.now) (ty_of operand.now) number
        → HasStep sizes.now (bases_of names.now sizes.now) layout.now (ty_of operand.now)
        → result ≡ operand_number sizes.now (bases_of names.now sizes.now) layout.now
        (ty_of operand.now) number }
{
    match layout {
        Layout::Join | Layout::Split(_) | Layout::AsVector | Layout::AsScalar => number,
        Layout::Transpose => in_rows(operand, number, names, sizes),
        Layout::Reverse => from_last(operand, number, names, sizes),
        Layout::Stride(step) => {
            let step = product(step.factors(), sizes);
            in_steps(operand, step, number, names, sizes)
        }
    }
}

/// The map on top of a term that is written, seen through layouts and the bodies of lets of arrays,
/// with the turn of the scalar of this number.
pub fn on_top<'t>(
    term: &'t Term,
    types: &'t NodeTypes,
    number: u64,
    names: &[Name],
    sizes: &[u32],
) -> Option<OnTop<'t>>
    requires names { AreNames names.now }
    ensures scalar { IsScalarOf names.now sizes.now (tree_of term.now) (annotation_of types.now) number
        → MatchOption result
        (IsOfNone names.now (bases_of names.now sizes.now) (tree_of term.now) (annotation_of types.now) number)
        (IsOfTop names.now (bases_of names.now sizes.now) (tree_of term.now) (annotation_of types.now) number) }
    ensures body { IsScalarOf names.now sizes.now (tree_of term.now) (annotation_of types.now) number
        → IfSome result (λ top. IsScalarOf names.now sizes.now (tree_of top.body.now)
        (annotation_of top.types.now) top.number) }
    ensures smaller { IfSome result (λ top.
        nodes (tree_of top.body.now) < nodes (tree_of term.now)) }
{
    match term {
        Term::Unary(form, a) => match types {
            NodeTypes::One(_, n) => match form {
                UnaryForm::Layout(layout) => {
                    let number = in_operand(layout, n.own_type(), number, names, sizes);
                    on_top(a, n, number, names, sizes)
                }
                UnaryForm::Div(_)
                | UnaryForm::Rem(_)
                | UnaryForm::First
                | UnaryForm::Second
                | UnaryForm::Slide(_, _)
                | UnaryForm::Pad(_, _)
                | UnaryForm::ToLocal
                | UnaryForm::ToPrivate
                | UnaryForm::Then => None,
            },
            NodeTypes::Leaf(_) | NodeTypes::Two(_, _, _) | NodeTypes::Three(_, _, _, _) => None,
        },
        Term::Let(_, body) => match types {
            NodeTypes::Two(ty, n, m) => {
                if ty.is_element() {
                    return None;
                }
                if n.own_type().is_element() {
                    return None;
                }
                on_top(body, m, number, names, sizes)
            }
            NodeTypes::Leaf(_) | NodeTypes::One(_, _) | NodeTypes::Three(_, _, _, _) => None,
        },
        Term::Map(kind, _, body) => match types {
            NodeTypes::Two(_, _, m) => {
                let row = scalars(m.own_type(), names, sizes) as u64;
                if row == 0 {
                    return None;
                }
                Some(OnTop {
                    kind: *kind,
                    turn: number / row,
                    body,
                    types: m,
                    number: number % row,
                })
            }
            NodeTypes::Leaf(_) | NodeTypes::One(_, _) | NodeTypes::Three(_, _, _, _) => None,
        },
        Term::Variable(_)
        | Term::Number(_)
        | Term::Input(_)
        | Term::Binary(_, _, _)
        | Term::Select(_, _, _)
        | Term::Fold(_, _, _, _) => None,
    }
}
