//! Equal types of nodes, in memory of their own.

ghost use Rattle.std.specs.Prelude.{◌≡◌, IfOk};
ghost use Rattle.lift_tree.specs.Annotations.{annotation_of};

use lift_tree::typed::NodeTypes;
use std::alloc::{AllocError, Global};

#[cycle(types)]
fn boxed(alloc: Global, types: &NodeTypes) -> Result<Box<NodeTypes>, AllocError>
    ensures { IfOk result (λ t. annotation_of t.value ≡ annotation_of types.now) }
{
    Ok(Box::new(alloc, copied_types(alloc, types)?)?)
}

/// Equal types in memory of their own.
#[cycle(types)]
pub fn copied_types(alloc: Global, types: &NodeTypes) -> Result<NodeTypes, AllocError>
    ensures { IfOk result (λ t. annotation_of t ≡ annotation_of types.now) }
{
    match types {
        NodeTypes::Leaf(ty) => Ok(NodeTypes::Leaf(ty.copy(alloc)?)),
        NodeTypes::One(ty, a) => Ok(NodeTypes::One(ty.copy(alloc)?, boxed(alloc, a)?)),
        NodeTypes::Two(ty, a, b) => {
            let ty = ty.copy(alloc)?;
            let a = boxed(alloc, a)?;
            Ok(NodeTypes::Two(ty, a, boxed(alloc, b)?))
        }
        NodeTypes::Three(ty, a, b, c) => {
            let ty = ty.copy(alloc)?;
            let a = boxed(alloc, a)?;
            let b = boxed(alloc, b)?;
            Ok(NodeTypes::Three(ty, a, b, boxed(alloc, c)?))
        }
    }
}
