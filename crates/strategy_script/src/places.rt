//! What stands around the nodes of a term.

ghost use Rattle.std.specs.Prelude.{◌≡◌, ◌∷◌, IfOk, OnOk, map, option_map};
ghost use Rattle.lift_tree.specs.Annotations.{annotation_of};
ghost use Rattle.lift_tree.specs.Tree.{tree_of};
ghost use Rattle.lift_tree.specs.Types.{ty_of};
ghost use Rattle.rewriting.specs.Around.{around_at, around_child, child_binders, child_types, context_of, element_of};

use lift_tree::place::Place;
use lift_tree::term::Term;
use lift_tree::ty::Ty;
use lift_tree::typed::{Context, NodeTypes};
use std::alloc::{AllocError, Global};

// The types of the child of this number, and of all nodes below it.
fn child_types(types: NodeTypes, number: u32) -> Option<NodeTypes>
    ensures { option_map annotation_of result ≡ child_types (annotation_of types) number }
{
    match types {
        NodeTypes::Leaf(_) => None,
        NodeTypes::One(_, a) => match number {
            0 => Some(Box::into_inner(a)),
            _ => None,
        },
        NodeTypes::Two(_, a, b) => match number {
            0 => Some(Box::into_inner(a)),
            1 => Some(Box::into_inner(b)),
            _ => None,
        },
        NodeTypes::Three(_, a, b, c) => match number {
            0 => Some(Box::into_inner(a)),
            1 => Some(Box::into_inner(b)),
            2 => Some(Box::into_inner(c)),
            _ => None,
        },
    }
}

// The type of an array's elements.
fn element_of(alloc: Global, ty: &Ty) -> Result<Ty, AllocError>
    ensures { IfOk result (λ element. ty_of element ≡ element_of (ty_of ty.now)) }
{
    match ty {
        Ty::Array(element, _) => element.copy(alloc),
        _ => Ok(Ty::Number),
    }
}

// The binder's type before the others.
fn put_binder(binders: &mut Vec<Ty>, ty: Ty) -> Result<(), AllocError>
    ensures { OnOk result (map ty_of binders.new.items ≡ ty_of ty ∷ map ty_of binders.old.items) }
{
    binders.insert(0, ty)?;
    Ok(())
}

// The types of the binders around a child, in place of those around the node.
fn put_binders(
    alloc: Global,
    binders: &mut Vec<Ty>,
    term: &Term,
    number: u32,
    types: &NodeTypes,
) -> Result<(), AllocError>
    ensures { OnOk result (map ty_of binders.new.items ≡ child_binders (tree_of term.now) number
        (annotation_of types.now) (map ty_of binders.old.items)) }
{
    match term {
        Term::Let(_, _) => match types {
            NodeTypes::Two(_, value, _) => match number {
                0 => Ok(()),
                1 => put_binder(binders, value.own_type().copy(alloc)?),
                _ => Ok(()),
            },
            _ => Ok(()),
        },
        Term::Map(_, _, _) => match types {
            NodeTypes::Two(_, array, _) => match number {
                0 => Ok(()),
                1 => put_binder(binders, element_of(alloc, array.own_type())?),
                _ => Ok(()),
            },
            _ => Ok(()),
        },
        Term::Fold(_, _, _, _) => match types {
            NodeTypes::Three(_, array, start, _) => match number {
                0 => Ok(()),
                1 => Ok(()),
                2 => {
                    put_binder(binders, start.own_type().copy(alloc)?)?;
                    put_binder(binders, element_of(alloc, array.own_type())?)
                }
                _ => Ok(()),
            },
            _ => Ok(()),
        },
        _ => Ok(()),
    }
}

// What stands around the child of this number.
fn around_child(
    alloc: Global,
    context: Context,
    term: &Term,
    number: u32,
) -> Result<Option<Context>, AllocError>
    ensures { IfOk result (λ c. option_map context_of c
        ≡ around_child (context_of context) (tree_of term.now) number) }
{
    let Context {
        names,
        mut binders,
        types,
    } = context;
    put_binders(alloc, &mut binders, term, number, &types)?;
    match child_types(types, number) {
        Some(types) => Ok(Some(Context {
            names,
            binders,
            types,
        })),
        None => Ok(None),
    }
}

/// What stands around the node at a place of the term, given what stands around the term; none
/// exactly where there is no such place.
pub fn context_at(
    alloc: Global,
    context: Context,
    term: &Term,
    place: &Place,
) -> Result<Option<Context>, AllocError>
    ensures { IfOk result (λ c. option_map context_of c
        ≡ around_at (context_of context) (tree_of term.now) place.now) }
{
    around_below(alloc, context, term, place.numbers())
}

fn around_below(
    alloc: Global,
    context: Context,
    term: &Term,
    numbers: &[u32],
) -> Result<Option<Context>, AllocError>
    ensures { IfOk result (λ c. option_map context_of c
        ≡ around_at (context_of context) (tree_of term.now) numbers.now) }
{
    let Some((first, rest)) = numbers.split_first() else {
        return Ok(Some(context));
    };
    let Some(below) = term.child(*first) else {
        return Ok(None);
    };
    match around_child(alloc, context, term, *first)? {
        Some(around) => around_below(alloc, around, below, rest),
        None => Ok(None),
    }
}
