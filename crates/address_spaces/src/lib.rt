//! Which memory holds what a term computes: an address space for each computing node.
#![tactic(auto)]

ghost use Rattle.std.specs.Prelude.{◌≡◌, ◌++◌, [], IfOk, OnOk};
ghost use Rattle.lowered_tree.specs.Nodes.{own_site, sites_of, sites_among};
ghost use Rattle.lowered_tree.specs.Spaces.{computes_at, spaces_in};

use lowered_tree::around::AddressSpace;
use lowered_tree::forms::{is_lowered_fold, is_lowered_map};
use lowered_tree::lowered::{Mapped, Spaced};
use lowered_tree::node::{Children, Node};
use std::alloc::{AllocError, Global};

// Whether the node's value is stored by code of its own.
fn computes(node: Node<'_>) -> bool
    ensures { result ≡ computes_at (own_site [] node.entry) }
{
    node.around.is_written
        && (is_lowered_map(node.term) || is_lowered_fold(node.term) || node.ty().is_element())
}

// Adds the spaces of the children and of what is below them.
#[tactic(auto, using(crate::proofs::Listed::under_child, crate::proofs::Listed::of_two, crate::proofs::Listed::of_three))]
#[cycle(spacing)]
fn add_children(children: Children<'_>, spaces: &mut Vec<AddressSpace>) -> Result<(), AllocError>
    ensures { OnOk result
        (spaces.new.items ≡ spaces.old.items ++ spaces_in (sites_among [] [] children.entry)) }
{
    match children {
        Children::Leaf => Ok(()),
        Children::One(a) => add_spaces(a, spaces),
        Children::Two(a, b) => {
            add_spaces(a, spaces)?;
            add_spaces(b, spaces)
        }
        Children::Three(a, b, c) => {
            add_spaces(a, spaces)?;
            add_spaces(b, spaces)?;
            add_spaces(c, spaces)
        }
    }
}

// Adds the spaces of the computing nodes here and below, in preorder.
#[tactic(auto, using(crate::proofs::Listed::here, crate::proofs::Listed::of_children))]
#[cycle(spacing)]
fn add_spaces(node: Node<'_>, spaces: &mut Vec<AddressSpace>) -> Result<(), AllocError>
    ensures { OnOk result
        (spaces.new.items ≡ spaces.old.items ++ spaces_in (sites_of [] node.entry)) }
{
    if computes(node) {
        spaces.push(node.around.space)?;
    }
    add_children(node.children(), spaces)
}

/// Gives each computing node of a legal term its address space: that of the nearest
/// copy around it, else the output's.
pub fn spaces(alloc: Global, mapped: Mapped) -> Result<Spaced, AllocError>
    ensures { IfOk result (λ s. s.mapped ≡ mapped) }
{
    let mut spaces = Vec::new(alloc);
    add_spaces(mapped.lowered.root(), &mut spaces)?;
    Ok(Spaced { mapped, spaces })
}
