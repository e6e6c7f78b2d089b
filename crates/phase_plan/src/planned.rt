//! Plans of legal terms.

ghost use Rattle.lift_tree.specs.Annotations.{annotation_of};
ghost use Rattle.lift_tree.specs.Tree.{tree_of};
ghost use Rattle.lowering.specs.Terms.{term_of};
ghost use Rattle.phase_plan.specs.Planned.{IsPlannedFor};

use crate::kind::Kind;
use buffer_allocation::buffers::Buffers;
use lowered_tree::lowered::Spaced;
use lowering::term::Term;

/// What the kernel of a legal term is made of.
#[derive(Drop)]
pub struct Plan<'s> {
    /// The legal term, with what it may name and the address spaces of its computing nodes.
    pub spaced: &'s Spaced,
    /// The arrays that its copies fill.
    pub buffers: &'s Buffers,
    /// What it is lowered to: its loops, in the order of their code.
    pub root: Term,
    /// Who runs it; over work-groups, its phases and their barriers.
    pub kind: Kind,
    ghost planned: { ∥ IsPlannedFor spaced.now.mapped.lowered.names
        spaced.now.mapped.local (tree_of spaced.now.mapped.lowered.term)
        (annotation_of spaced.now.mapped.lowered.types) buffers.now.local.items
        buffers.now.private.items (term_of root) kind ∥₁ },
}
