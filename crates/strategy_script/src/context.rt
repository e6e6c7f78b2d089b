//! What stands around a whole typed term.

ghost use Rattle.std.specs.Prelude.{◌≡◌, IfOk};
ghost use Rattle.lift_tree.specs.Annotations.{annotation_of};
ghost use Rattle.lift_tree.specs.Belonging.{IsProper};
ghost use Rattle.lift_tree.specs.Programs.{program_of};
ghost use Rattle.rewriting.specs.Around.{context_of};
ghost use Rattle.strategy_script.specs.Steps.{whole};

use lift_tree::typed::{Context, NodeTypes, Typed};
use std::alloc::{AllocError, Global};

// Equal types in memory of their own.
#[cycle(types)]
fn copied_types(alloc: Global, types: &NodeTypes) -> Result<NodeTypes, AllocError>
    ensures { IfOk result (λ t. annotation_of t ≡ annotation_of types.now) }
{
    match types {
        NodeTypes::Leaf(ty) => Ok(NodeTypes::Leaf(ty.copy(alloc)?)),
        NodeTypes::One(ty, a) => Ok(NodeTypes::One(ty.copy(alloc)?, boxed_types(alloc, a)?)),
        NodeTypes::Two(ty, a, b) => {
            let ty = ty.copy(alloc)?;
            let a = boxed_types(alloc, a)?;
            Ok(NodeTypes::Two(ty, a, boxed_types(alloc, b)?))
        }
        NodeTypes::Three(ty, a, b, c) => {
            let ty = ty.copy(alloc)?;
            let a = boxed_types(alloc, a)?;
            let b = boxed_types(alloc, b)?;
            Ok(NodeTypes::Three(ty, a, b, boxed_types(alloc, c)?))
        }
    }
}

#[cycle(types)]
fn boxed_types(alloc: Global, types: &NodeTypes) -> Result<Box<NodeTypes>, AllocError>
    ensures { IfOk result (λ t. annotation_of t.value ≡ annotation_of types.now) }
{
    Ok(Box::new(alloc, copied_types(alloc, types)?)?)
}

/// What stands around the whole term.
pub fn around_whole(alloc: Global, typed: &Typed) -> Result<Context, AllocError>
    requires { IsProper (program_of typed.now.program) }
    ensures { IfOk result (λ c. context_of c ≡ whole typed.now) }
{
    let names = typed.program.names(alloc)?;
    let types = copied_types(alloc, &typed.types)?;
    Ok(Context {
        names,
        binders: Vec::new(alloc),
        types,
    })
}
