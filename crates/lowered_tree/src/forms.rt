//! Which form a node is of.

ghost use Rattle.std.specs.Prelude.{◌≡◌};
ghost use Rattle.lift_tree.specs.Tree.{tree_of};
ghost use Rattle.lift_tree.specs.Types.{ty_of};
ghost use Rattle.lift_tree.specs.Annotations.{annotation_of};
ghost use Rattle.lowered_tree.specs.Elements.{names_a_size, is_over_sizes, hangs_on_sizes, holds_vectors};
ghost use Rattle.lowered_tree.specs.Kinds.{is_global, is_local, is_over_groups, is_parallel, is_sequential};
ghost use Rattle.lowered_tree.specs.Pairs.{is_awaited, is_unpaired};
ghost use Rattle.lowered_tree.specs.Forms.{is_map_of, is_undecided, is_lowered_map, is_lowered_fold, is_local_copy, is_private_copy, is_copy, is_written_through, shows_local_map, copies_local_map, is_let_of_element, is_let_of_array, is_read_alone, is_placed, is_then};

use crate::around::{is_of_level, is_parallel, is_sequential, pair_begun};
use lift_tree::layout::Layout;
use lift_tree::term::{BinaryForm, Dimension, FoldKind, Level, MapKind, Term, UnaryForm};
use lift_tree::ty::Ty;
use lift_tree::typed::NodeTypes;
use size_arith::Monomial;

fn names_a_size(powers: &[u8]) -> bool
    ensures { result ≡ names_a_size powers.now }
{
    match powers {
        [] => false,
        [first, rest @ ..] => *first != 0 || names_a_size(rest),
    }
}

fn is_over_sizes(length: &[Monomial]) -> bool
    ensures { result ≡ is_over_sizes length.now }
{
    match length {
        [] => false,
        [first, rest @ ..] => names_a_size(&first.powers) || is_over_sizes(rest),
    }
}

/// Whether a length of the type names a size.
pub fn hangs_on_sizes(ty: &Ty) -> bool
    ensures { result ≡ hangs_on_sizes (ty_of ty.now) }
{
    match ty {
        Ty::Number | Ty::Vector => false,
        Ty::Pair(a, b) => hangs_on_sizes(a) || hangs_on_sizes(b),
        Ty::Array(element, length) => is_over_sizes(length.as_slice()) || hangs_on_sizes(element),
    }
}

/// Whether a vector is in a value of the type.
pub fn holds_vectors(ty: &Ty) -> bool
    ensures { result ≡ holds_vectors (ty_of ty.now) }
{
    match ty {
        Ty::Number => false,
        Ty::Vector => true,
        Ty::Pair(a, b) => holds_vectors(a) || holds_vectors(b),
        Ty::Array(element, _) => holds_vectors(element),
    }
}

/// Whether the node is a map over a group's items.
pub fn is_local_map(term: &Term) -> bool
    ensures { result ≡ is_map_of is_local (tree_of term.now) }
{
    match term {
        Term::Map(kind, _, _) => is_of_level(*kind, Level::Items),
        _ => false,
    }
}

/// Whether the node is a map over all work-items.
pub fn is_global_map(term: &Term) -> bool
    ensures { result ≡ is_map_of is_global (tree_of term.now) }
{
    match term {
        Term::Map(kind, _, _) => is_of_level(*kind, Level::Launch),
        _ => false,
    }
}

/// Whether the node is a map over work-groups.
pub fn is_group_map(term: &Term) -> bool
    ensures { result ≡ is_map_of is_over_groups (tree_of term.now) }
{
    match term {
        Term::Map(kind, _, _) => is_of_level(*kind, Level::Groups),
        _ => false,
    }
}

/// Whether the node is a sequential map.
pub fn is_sequential_map(term: &Term) -> bool
    ensures { result ≡ is_map_of is_sequential (tree_of term.now) }
{
    match term {
        Term::Map(kind, _, _) => is_sequential(*kind),
        _ => false,
    }
}

/// Whether the node is a map over work-items or work-groups.
pub fn is_parallel_map(term: &Term) -> bool
    ensures { result ≡ is_map_of is_parallel (tree_of term.now) }
{
    match term {
        Term::Map(kind, _, _) => is_parallel(*kind),
        _ => false,
    }
}

/// Whether the node is the inner map of a pair that is due here.
pub fn is_awaited(awaited: Option<Level>, term: &Term) -> bool
    ensures { result ≡ is_awaited awaited (tree_of term.now) }
{
    match (awaited, term) {
        (Some(level), Term::Map(kind, _, _)) => *kind == MapKind::Over(level, Dimension::X),
        _ => false,
    }
}

/// Whether the node is a parallel map that is of no pair, where this inner map is due here.
pub fn is_unpaired(awaited: Option<Level>, term: &Term) -> bool
    ensures { result ≡ is_unpaired awaited (tree_of term.now) }
{
    match term {
        Term::Map(MapKind::Over(_, Dimension::X), _, _) => !is_awaited(awaited, term),
        Term::Map(kind, _, body) => is_parallel(*kind) && pair_begun(*kind, body).is_none(),
        _ => false,
    }
}

/// Whether the node is a map of a kind that a script gave it.
pub fn is_lowered_map(term: &Term) -> bool
    ensures { result ≡ is_lowered_map (tree_of term.now) }
{
    match term {
        Term::Map(kind, _, _) => *kind != MapKind::Plain,
        _ => false,
    }
}

/// Whether the node is a sequential fold.
pub fn is_lowered_fold(term: &Term) -> bool
    ensures { result ≡ is_lowered_fold (tree_of term.now) }
{
    match term {
        Term::Fold(FoldKind::Sequential, _, _, _) => true,
        _ => false,
    }
}

/// Whether the node is a plain map, reduce or fold.
pub fn is_undecided(term: &Term) -> bool
    ensures { result ≡ is_undecided (tree_of term.now) }
{
    match term {
        Term::Map(MapKind::Plain, _, _)
        | Term::Fold(FoldKind::Plain, _, _, _)
        | Term::Binary(BinaryForm::Reduce(_), _, _) => true,
        _ => false,
    }
}

/// Whether the node is a local copy.
pub fn is_local_copy(term: &Term) -> bool
    ensures { result ≡ is_local_copy (tree_of term.now) }
{
    match term {
        Term::Unary(UnaryForm::ToLocal, _) => true,
        _ => false,
    }
}

/// Whether the node is a private copy.
pub fn is_private_copy(term: &Term) -> bool
    ensures { result ≡ is_private_copy (tree_of term.now) }
{
    match term {
        Term::Unary(UnaryForm::ToPrivate, _) => true,
        _ => false,
    }
}

/// Whether the node is a copy.
pub fn is_copy(term: &Term) -> bool
    ensures { result ≡ is_copy (tree_of term.now) }
{
    is_local_copy(term) || is_private_copy(term)
}

/// Whether the node is a cut between two kernels.
pub fn is_then(term: &Term) -> bool
    ensures { result ≡ is_then (tree_of term.now) }
{
    match term {
        Term::Unary(UnaryForm::Then, _) => true,
        _ => false,
    }
}

/// Whether the layout is written through: all are but that which makes vectors of numbers.
pub fn is_written_through(layout: &Layout) -> bool
    ensures { result ≡ is_written_through layout.now }
{
    match layout {
        Layout::Join
        | Layout::Transpose
        | Layout::Split(_)
        | Layout::Reverse
        | Layout::Stride(_)
        | Layout::AsScalar => true,
        Layout::AsVector => false,
    }
}

// Whether it is a map over a group's items, seen through layouts that are written
// through and the bodies of lets.
fn shows_local_map(term: &Term) -> bool
    ensures { result ≡ shows_local_map (tree_of term.now) }
{
    match term {
        Term::Unary(UnaryForm::Layout(layout), a) => {
            is_written_through(layout) && shows_local_map(a)
        }
        Term::Let(_, body) => shows_local_map(body),
        Term::Map(kind, _, _) => is_of_level(*kind, Level::Items),
        _ => false,
    }
}

/// Whether the node's operand is such a map.
pub fn copies_local_map(term: &Term) -> bool
    ensures { result ≡ copies_local_map (tree_of term.now) }
{
    match term {
        Term::Unary(_, a) => shows_local_map(a),
        _ => false,
    }
}

/// Whether the node is a let whose value is an element.
pub fn is_let_of_element(term: &Term, types: &NodeTypes) -> bool
    ensures { result ≡ is_let_of_element (tree_of term.now) (annotation_of types.now) }
{
    match (term, types) {
        (Term::Let(_, _), NodeTypes::Two(_, value, _)) => value.own_type().is_element(),
        _ => false,
    }
}

/// Whether the node is a let whose value is no element.
pub fn is_let_of_array(term: &Term, types: &NodeTypes) -> bool
    ensures { result ≡ is_let_of_array (tree_of term.now) (annotation_of types.now) }
{
    match (term, types) {
        (Term::Let(_, _), NodeTypes::Two(_, value, _)) => !value.own_type().is_element(),
        _ => false,
    }
}

/// Whether the node is zip, slide, pad, first or second, or makes vectors of numbers: through
/// which nothing is written.
pub fn is_read_alone(term: &Term) -> bool
    ensures { result ≡ is_read_alone (tree_of term.now) }
{
    match term {
        Term::Binary(BinaryForm::Zip, _, _)
        | Term::Unary(
            UnaryForm::Slide(_, _) | UnaryForm::Pad(_, _) | UnaryForm::First | UnaryForm::Second,
            _,
        ) => true,
        Term::Unary(UnaryForm::Layout(layout), _) => !is_written_through(layout),
        _ => false,
    }
}

/// Whether the node has its place in memory already: a variable, an input or a copy.
pub fn is_placed(term: &Term) -> bool
    ensures { result ≡ is_placed (tree_of term.now) }
{
    match term {
        Term::Variable(_)
        | Term::Input(_)
        | Term::Unary(UnaryForm::ToLocal | UnaryForm::ToPrivate, _) => true,
        _ => false,
    }
}
