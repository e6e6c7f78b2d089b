//! Judging a term's nest.

ghost use Rattle.std.specs.Prelude.{◌≡◌, [], ◌∷◌, IfErr, IfOk, OnOk, reverse};
ghost use Rattle.lift_tree.specs.Tree.{tree_of};
ghost use Rattle.lift_tree.specs.Annotations.{annotation_of};
ghost use Rattle.lift_tree.specs.FixedSizes.{size_fixed};
ghost use Rattle.lowered_tree.specs.Nest.{at_place, first_broken, first_broken_with, first_of, nest_fault, size_rule};
ghost use Rattle.lowered_tree.specs.Nodes.{sites_of, sites_among, under_last};
ghost use Rattle.thread_mapping.specs.Found.{found, from_child, under_bounds, Refuses};

use crate::rules::{lowest, size_rule};
use lift_tree::local_size::LocalSize;
use lift_tree::place::Place;
use lift_tree::term::Term;
use lowered_tree::aligned::is_aligned;
use lowered_tree::lowered::{Lowered, Mapped};
use lowered_tree::node::{Children, Node};
use lowered_tree::rule::NestRule;
use std::alloc::{AllocError, Global};

/// Why a term isn't printed.
#[derive(Drop)]
pub enum NestNo {
    /// The first cut between two kernels in preorder; or, where there is none, the first node at
    /// which a rule is broken, and the lowest such rule.
    Nest { place: Place, rule: NestRule },
    /// Memory ran out.
    Memory,
}

impl From<AllocError> for NestNo {
    ghost use Rattle.thread_mapping.specs.declared.judging.NestNo.TheVariants.{Memory};

    ghost from_gives = { λ _ e. e ≡ Memory };

    fn from(_: AllocError) -> NestNo {
        NestNo::Memory
    }
}

// A broken rule and its place.
#[derive(Drop)]
struct Broken {
    place: Place,
    rule: NestRule,
}

// A rule that is broken in the child of this number, seen from the parent.
fn in_child(number: u32, broken: Option<Broken>) -> Result<Option<Broken>, AllocError>
    ensures { IfOk result (λ b. found b ≡ from_child number (found broken)) }
{
    let Some(broken) = broken else {
        return Ok(None);
    };
    let mut numbers = broken.place.into_numbers();
    numbers.insert(0, number)?;
    Ok(Some(Broken {
        place: Place::new(numbers),
        rule: broken.rule,
    }))
}

// A node's own broken rule, at the node.
fn here(alloc: Global, rule: Option<NestRule>) -> Option<Broken>
    ensures { found result ≡ at_place [] rule }
{
    match rule {
        Some(rule) => Some(Broken {
            place: Place::new(Vec::new(alloc)),
            rule,
        }),
        None => None,
    }
}

// The earlier of two.
fn earlier(first: Option<Broken>, second: Option<Broken>) -> Option<Broken>
    ensures { found result ≡ first_of (found first) (found second) }
{
    if first.is_some() { first } else { second }
}

// What the binders around a node's last child, and not around the node, are bound to.
#[derive(Clone, Copy)]
enum Bounds {
    /// There are none.
    Nothing,
    /// One, to an aligned array or to an element of one, or not.
    Array(bool),
    /// A fold's accumulator and element.
    Fold,
}

// What a node binds for its last child.
fn bounds_in(term: &Term, aligned: &[bool]) -> Bounds
    ensures { under_bounds result (reverse aligned.now)
        ≡ under_last (reverse aligned.now) (tree_of term.now) }
{
    match term {
        Term::Let(a, _) | Term::Map(_, a, _) => Bounds::Array(is_aligned(aligned, a)),
        Term::Fold(_, _, _, _) => Bounds::Fold,
        Term::Variable(_)
        | Term::Number(_)
        | Term::Input(_)
        | Term::Unary(_, _)
        | Term::Binary(_, _, _)
        | Term::Select(_, _, _) => Bounds::Nothing,
    }
}

// A node below one more binder, which is aligned or isn't.
#[tactic(auto, using(crate::proofs::Bound::bound))]
#[cycle(judging)]
fn first_under(
    rules: &[NestRule],
    node: Node<'_>,
    is_bound_aligned: bool,
    aligned: &mut Vec<bool>,
    alloc: Global,
) -> Result<Option<Broken>, AllocError>
    ensures binders { OnOk result (aligned.new.items ≡ aligned.old.items) }
    ensures first { IfOk result (λ b. found b ≡ first_broken rules.now
        (sites_of (is_bound_aligned ∷ reverse aligned.old.items) node.entry)) }
{
    aligned.push(is_bound_aligned)?;
    let first = first_in(rules, node, aligned, alloc)?;
    aligned.pop();
    Ok(first)
}

// A node's last child, below what the node binds.
#[tactic(auto, using(crate::proofs::Bound::bound))]
#[cycle(judging)]
fn first_below(
    rules: &[NestRule],
    node: Node<'_>,
    bounds: Bounds,
    aligned: &mut Vec<bool>,
    alloc: Global,
) -> Result<Option<Broken>, AllocError>
    ensures binders { OnOk result (aligned.new.items ≡ aligned.old.items) }
    ensures first { IfOk result (λ b. found b ≡ first_broken rules.now
        (sites_of (under_bounds bounds (reverse aligned.old.items)) node.entry)) }
{
    match bounds {
        Bounds::Nothing => first_in(rules, node, aligned, alloc),
        Bounds::Array(is_bound_aligned) => {
            first_under(rules, node, is_bound_aligned, aligned, alloc)
        }
        Bounds::Fold => {
            aligned.push(false)?;
            let first = first_under(rules, node, false, aligned, alloc)?;
            aligned.pop();
            Ok(first)
        }
    }
}

// The first of these nodes and those below them at which one of the
// rules is broken, seen from their parent, which binds this for the last of them.
#[tactic(auto, using(crate::proofs::Sites::first_under, crate::proofs::Sites::first_of_two_children, crate::proofs::Sites::first_of_three_children))]
#[cycle(judging)]
fn first_among(
    rules: &[NestRule],
    children: Children<'_>,
    bounds: Bounds,
    aligned: &mut Vec<bool>,
    alloc: Global,
) -> Result<Option<Broken>, AllocError>
    ensures binders { OnOk result (aligned.new.items ≡ aligned.old.items) }
    ensures first { IfOk result (λ b. found b ≡ first_broken rules.now
        (sites_among (reverse aligned.old.items)
        (under_bounds bounds (reverse aligned.old.items)) children.entry)) }
{
    match children {
        Children::Leaf => Ok(None),
        Children::One(a) => in_child(0, first_below(rules, a, bounds, aligned, alloc)?),
        Children::Two(a, b) => {
            let first = in_child(0, first_in(rules, a, aligned, alloc)?)?;
            let second = in_child(1, first_below(rules, b, bounds, aligned, alloc)?)?;
            Ok(earlier(first, second))
        }
        Children::Three(a, b, c) => {
            let first = in_child(0, first_in(rules, a, aligned, alloc)?)?;
            let second = in_child(1, first_in(rules, b, aligned, alloc)?)?;
            let third = in_child(2, first_below(rules, c, bounds, aligned, alloc)?)?;
            Ok(earlier(first, earlier(second, third)))
        }
    }
}

// The first node, of this one and those below it in preorder, at which one of the rules is broken.
// Of the binders around it is told which are aligned, the nearest last.
#[cycle(judging)]
fn first_in(
    rules: &[NestRule],
    node: Node<'_>,
    aligned: &mut Vec<bool>,
    alloc: Global,
) -> Result<Option<Broken>, AllocError>
    ensures binders { OnOk result (aligned.new.items ≡ aligned.old.items) }
    ensures first { IfOk result (λ b. found b
        ≡ first_broken rules.now (sites_of (reverse aligned.old.items) node.entry)) }
{
    let own = here(alloc, lowest(rules, node, aligned));
    let bounds = bounds_in(node.term, aligned);
    let later = first_among(rules, node.children(), bounds, aligned, alloc)?;
    Ok(earlier(own, later))
}

// The first node of a whole term at which a rule is broken that isn't judged before all others,
// that of a fixed local size behind the root's own.
fn first_in_whole(
    root: Node<'_>,
    local: Option<(u32, u32)>,
    alloc: Global,
) -> Result<Option<Broken>, AllocError>
    ensures { IfOk result (λ b. found b
        ≡ first_broken_with (size_rule local (tree_of root.entry.term.now))
        (sites_of [] root.entry)) }
{
    let own = here(alloc, lowest(&NestRule::LATER, root, &[]));
    let of_size = here(alloc, size_rule(local, root.term));
    let bounds = bounds_in(root.term, &[]);
    let later = first_among(
        &NestRule::LATER,
        root.children(),
        bounds,
        &mut Vec::new(alloc),
        alloc,
    )?;
    Ok(earlier(own, earlier(of_size, later)))
}

// A cut between two kernels, wherever it is; else what else is broken first.
fn fault(
    alloc: Global,
    lowered: &Lowered,
    local: Option<(u32, u32)>,
) -> Result<Option<Broken>, AllocError>
    ensures { IfOk result (λ b. found b
        ≡ nest_fault local (tree_of lowered.now.term) (annotation_of lowered.now.types)) }
{
    let cut = first_in(
        &NestRule::EARLIEST,
        lowered.root(),
        &mut Vec::new(alloc),
        alloc,
    )?;
    let other = first_in_whole(lowered.root(), local, alloc)?;
    Ok(earlier(cut, other))
}

/// Judges the nest of a lowered term, with the local size of all launches, where one is fixed:
/// whether it has a cut between two kernels, then by thirteen rules at each node, and by one of
/// that size at the root, behind the root's own and before all nodes below it. `Nest` comes exactly
/// where there is a cut, with the first in preorder, or where another rule is broken, with the
/// first node in preorder and the lowest rule there.
pub fn judge(alloc: Global, lowered: Lowered, local: Option<LocalSize>) -> Result<Mapped, NestNo>
    ensures kept { IfOk result (λ m. m.lowered ≡ lowered) }
    ensures size { IfOk result (λ m. m.local ≡ size_fixed local) }
    ensures refused { IfErr result
        (λ e. Refuses e (size_fixed local) (tree_of lowered.term) (annotation_of lowered.types)) }
{
    let local = LocalSize::fixed(local);
    match fault(alloc, &lowered, local)? {
        Some(Broken { place, rule }) => Err(NestNo::Nest { place, rule }),
        None => Ok(Mapped { lowered, local }),
    }
}
