//! The rules of the nest, each at one node.

ghost use Rattle.std.specs.Prelude.{◌≡◌, [], reverse};
ghost use Rattle.lift_tree.specs.Annotations.{annotation_of};
ghost use Rattle.lift_tree.specs.Tree.{tree_of};
ghost use Rattle.lowered_tree.specs.Nest.{broken_at, is_in_order, leaves_items_idle, lowest, size_rule};
ghost use Rattle.lowered_tree.specs.Around.{around_of};
ghost use Rattle.lowered_tree.specs.Nodes.{own_site};
ghost use Rattle.lowered_tree.specs.Pairs.{is_awaited};
ghost use Rattle.lowered_tree.specs.declared.rule.NestRule.TheVariants.{N4, N5, N7, N15};
ghost use Rattle.thread_mapping.specs.Found.{writes_array};

use lift_tree::layout::Layout;
use lift_tree::term::{Term, UnaryForm};
use lowered_tree::aligned::is_aligned;
use lowered_tree::around::{AddressSpace, Around, has_rows, is_task};
use lowered_tree::forms::{
    copies_local_map, hangs_on_sizes, holds_vectors, is_awaited, is_copy, is_global_map,
    is_group_map, is_let_of_array, is_let_of_element, is_local_copy, is_local_map, is_lowered_fold,
    is_lowered_map, is_parallel_map, is_placed, is_private_copy, is_read_alone, is_sequential_map,
    is_then, is_undecided, is_unpaired,
};
use lowered_tree::node::Node;
use lowered_tree::rule::NestRule;

// In a group's body and outside its items': work that no item would do alone.
fn has_work_of_a_group(node: Node<'_>) -> bool
    ensures { result ≡ broken_at N4 (own_site [] node.entry) }
{
    node.around.in_group
        && !node.around.in_local
        && !node.around.is_between
        && (is_sequential_map(node.term)
            || is_lowered_fold(node.term)
            || node.around.is_written && node.ty().is_element()
            || is_let_of_element(node.term, node.types))
}

// A local copy that no group's items make.
fn is_misplaced_copy(node: Node<'_>) -> bool
    ensures { result ≡ broken_at N5 (own_site [] node.entry) }
{
    is_local_copy(node.term)
        && (!node.around.in_group
            || node.around.in_local
            || node.around.in_rows
            || !copies_local_map(node.term))
}

// Work in an argument that isn't copied, or an array that is let in an element term.
fn has_work_in_an_argument(node: Node<'_>) -> bool
    ensures { result ≡ broken_at N7 (own_site [] node.entry) }
{
    let is_work = is_lowered_map(node.term)
        || is_lowered_fold(node.term)
        || is_let_of_element(node.term, node.types);
    let is_element = node.around.in_element || node.ty().is_element();
    node.around.in_argument && is_work || is_element && is_let_of_array(node.term, node.types)
}

// An array is written here.
fn writes_array(node: Node<'_>) -> bool
    ensures { result
        ≡ writes_array (around_of node.entry.around []) (annotation_of node.entry.types.now) }
{
    node.around.is_written && !node.ty().is_element()
}

// The inner map of a pair.
fn is_inner(node: Node<'_>) -> bool
    ensures { result ≡ is_awaited node.entry.around.awaited (tree_of node.entry.term.now) }
{
    is_awaited(node.around.awaited, node.term)
}

// In writing position, with no layout but join and split up to the root or to a copy to local
// memory.
fn is_in_order(around: Around) -> bool
    ensures { result ≡ is_in_order (around_of around []) }
{
    around.is_written && !around.is_reordered && around.space != AddressSpace::Private
}

// Vectors that don't lie in fours of one array.
fn scatters_vectors(node: Node<'_>, aligned: &[bool]) -> bool
    ensures { result ≡ broken_at N15 (own_site (reverse aligned.now) node.entry) }
{
    match node.term {
        Term::Unary(UnaryForm::Layout(Layout::AsVector), a) => !is_aligned(aligned, a),
        Term::Unary(UnaryForm::Layout(Layout::AsScalar), _) => !is_in_order(node.around),
        _ => is_copy(node.term) && holds_vectors(node.ty()),
    }
}

/// Whether the rule is broken at this node, which none of the whole is. Of the binders around it is
/// told which are aligned, the nearest last.
pub fn breaks(rule: NestRule, node: Node<'_>, aligned: &[bool]) -> bool
    ensures { result ≡ broken_at rule (own_site (reverse aligned.now) node.entry) }
{
    match rule {
        NestRule::N1 => is_undecided(node.term),
        NestRule::N2 => {
            is_local_map(node.term) && !node.around.is_next_to_group && !is_inner(node)
        }
        NestRule::N3 => (is_global_map(node.term) || is_group_map(node.term))
            && node.around.in_parallel
            && !is_inner(node),
        NestRule::N4 => has_work_of_a_group(node),
        NestRule::N5 => is_misplaced_copy(node),
        NestRule::N6 => is_local_copy(node.term) && hangs_on_sizes(node.ty()),
        NestRule::N7 => has_work_in_an_argument(node),
        NestRule::N8 => {
            is_private_copy(node.term) && (!node.around.in_item || hangs_on_sizes(node.ty()))
        }
        NestRule::N9 => is_parallel_map(node.term) && node.around.in_serial,
        NestRule::N10 => writes_array(node) && is_read_alone(node.term),
        NestRule::N11 => writes_array(node) && is_placed(node.term),
        NestRule::N12 => false,
        NestRule::N13 => is_then(node.term),
        NestRule::N14 => node.around.is_paired && is_unpaired(node.around.awaited, node.term),
        NestRule::N15 => scatters_vectors(node, aligned),
    }
}

// A group would have more than one item, and one would do all the work of this whole term, or more
// than one row of items, and one row would.
fn leaves_items_idle(local: Option<(u32, u32)>, whole: &Term) -> bool
    ensures { result ≡ leaves_items_idle local (tree_of whole.now) }
{
    match local {
        Some((across, down)) => {
            1 < across.saturating_mul(down) && is_task(whole) || 1 < down && !has_rows(whole)
        }
        None => false,
    }
}

/// The rule that a local size breaks, where one is fixed for this whole term.
pub fn size_rule(local: Option<(u32, u32)>, whole: &Term) -> Option<NestRule>
    ensures { result ≡ size_rule local (tree_of whole.now) }
{
    if leaves_items_idle(local, whole) {
        Some(NestRule::N12)
    } else {
        None
    }
}

/// The first of these rules that is broken at this node.
pub fn lowest(rules: &[NestRule], node: Node<'_>, aligned: &[bool]) -> Option<NestRule>
    ensures { result ≡ lowest rules.now (own_site (reverse aligned.now) node.entry) }
{
    match rules {
        [] => None,
        [first, rest @ ..] => {
            if breaks(*first, node, aligned) {
                Some(*first)
            } else {
                lowest(rest, node, aligned)
            }
        }
    }
}
