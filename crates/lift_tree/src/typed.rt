//! Terms with the types of their nodes.

ghost use Rattle.std.specs.Prelude.{◌≡◌};
ghost use Rattle.lift_tree.specs.Types.{ty_of};
ghost use Rattle.lift_tree.specs.Annotations.{annotation_of, type_in};

use crate::program::Program;
use crate::term::Term;
use crate::ty::Ty;
use size_arith::Names;

/// The type of a node, and those of all nodes below it, by how many
/// children it has, in their order.
#[derive(Drop)]
pub enum NodeTypes {
    Leaf(Ty),
    One(Ty, Box<NodeTypes>),
    Two(Ty, Box<NodeTypes>, Box<NodeTypes>),
    Three(Ty, Box<NodeTypes>, Box<NodeTypes>, Box<NodeTypes>),
}

impl NodeTypes {
    /// The type of the node itself.
    pub fn own_type(&self) -> &Ty
        ensures { ty_of result.now ≡ type_in (annotation_of self.now) }
    {
        match self {
            NodeTypes::Leaf(ty)
            | NodeTypes::One(ty, _)
            | NodeTypes::Two(ty, _, _)
            | NodeTypes::Three(ty, _, _, _) => ty,
        }
    }
}

/// A term of a program, with the type of each node. The program's own body may be another term.
#[derive(Drop)]
pub struct Typed {
    pub program: Program,
    pub term: Term,
    pub types: NodeTypes,
}

/// What stands around a node: the sizes' names, the types of the binders, the nearest first, and
/// the types of the node and of all below it.
#[derive(Drop)]
pub struct Context {
    pub names: Names,
    pub binders: Vec<Ty>,
    pub types: NodeTypes,
}
