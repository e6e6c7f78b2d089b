//! Lowered terms, and those whose nest is legal.

ghost use Rattle.std.specs.Prelude.{◌≡◌, None, [], map};
ghost use Rattle.std.proofs.Props.{props};
ghost use Rattle.lift_tree.specs.Tree.{tree_of};
ghost use Rattle.lift_tree.specs.Annotations.{annotation_of};
ghost use Rattle.lift_tree.specs.Types.{ty_of};
ghost use Rattle.lift_tree.specs.LocalSizes.{IsLocalSize};
ghost use Rattle.lowered_tree.specs.Kinds.{is_task};
ghost use Rattle.lowered_tree.specs.Nest.{nest_fault, root_site};
ghost use Rattle.lowered_tree.specs.Nodes.{own_site};
ghost use Rattle.lowered_tree.specs.Spaces.{spaces_of};
ghost use Rattle.lowered_tree.specs.Whole.{IsSoundTerm};

use crate::around::{AddressSpace, Around, is_task};
use crate::node::Node;
use lift_tree::term::Term;
use lift_tree::ty::Ty;
use lift_tree::typed::NodeTypes;
use size_arith::Names;

/// A term with the type of each node, and what it may name: the ranges of the sizes, and the
/// inputs' types in order. It is typed within the limits, and copies nothing but arrays.
#[derive(Drop)]
pub struct Lowered {
    pub names: Names,
    pub inputs: Vec<Ty>,
    pub term: Term,
    pub types: NodeTypes,
    // The term is typed within the limits, over these sizes and inputs.
    ghost sound: { ∥ IsSoundTerm (record { names = names; inputs = map ty_of inputs.items })
        (tree_of term) (annotation_of types) ∥₁ },
}

impl Lowered {
    /// Whether one work-item runs it: it has no parallel map.
    pub fn is_task(&self) -> bool
        ensures { result ≡ is_task (tree_of self.now.term) }
    {
        is_task(&self.term)
    }

    /// The root.
    pub fn root(&self) -> Node<'_>
        ensures { own_site [] result
            ≡ root_site (tree_of self.now.term) (annotation_of self.now.types) }
    {
        Node {
            around: Around::root(&self.term),
            term: &self.term,
            types: &self.types,
        }
    }
}

/// A lowered term whose nest is legal, and the local size of all launches, both numbers at least 1
/// and their product at most 256, where the script fixes it.
#[derive(Drop)]
pub struct Mapped {
    pub lowered: Lowered,
    pub local: Option<(u32, u32)>,
    ghost legal: { nest_fault local (tree_of lowered.term) (annotation_of lowered.types) ≡ None },
    ghost sized: { IsLocalSize local } by { Prim.hlevel props },
}

/// A legal term, with the address space of each computing node: of each lowered map, sequential
/// fold and element term in writing position.
#[derive(Drop)]
pub struct Spaced {
    pub mapped: Mapped,
    /// The spaces in preorder of the nodes.
    pub spaces: Vec<AddressSpace>,
    ghost given: { spaces.items
        ≡ spaces_of (tree_of mapped.lowered.term) (annotation_of mapped.lowered.types) },
}
