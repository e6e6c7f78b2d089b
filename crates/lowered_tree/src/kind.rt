//! Who runs a term.

ghost use Rattle.std.specs.Prelude.{◌≡◌};
ghost use Rattle.lift_tree.specs.Tree.{tree_of};
ghost use Rattle.lowered_tree.specs.Kind.{nest_kind};

use crate::forms::is_written_through;
use lift_tree::term::{Dimension, Level, MapKind, Term, UnaryForm};

/// Who runs a term whose nest is legal.
#[derive(Clone, Copy, PartialEq, Eq)]
pub enum NestKind {
    /// One work-item: the term has no parallel map.
    Task,
    /// All work-items: a `mapGlb` or a `mapGlb1` is on top.
    OverLaunch,
    /// Work-groups: a `mapWrg` is on top.
    OverGroups,
    /// Rows of work-groups: a `mapWrg1` is on top.
    OverGrid,
}

/// Who runs the term, which is told by the map on top, seen through layouts that are written
/// through and the bodies of lets.
pub fn nest_kind(term: &Term) -> NestKind
    ensures { result ≡ nest_kind (tree_of term.now) }
{
    match term {
        Term::Unary(UnaryForm::Layout(layout), a) if is_written_through(layout) => nest_kind(a),
        Term::Let(_, body) => nest_kind(body),
        Term::Map(MapKind::Over(Level::Launch, _), _, _) => NestKind::OverLaunch,
        Term::Map(MapKind::Over(Level::Groups, Dimension::X), _, _) => NestKind::OverGroups,
        Term::Map(MapKind::Over(Level::Groups, Dimension::Y), _, _) => NestKind::OverGrid,
        Term::Map(MapKind::Over(Level::Items, _) | MapKind::Plain | MapKind::Sequential, _, _)
        | Term::Variable(_)
        | Term::Number(_)
        | Term::Input(_)
        | Term::Unary(_, _)
        | Term::Binary(_, _, _)
        | Term::Select(_, _, _)
        | Term::Fold(_, _, _, _) => NestKind::Task,
    }
}
