//! What is around a node of a term.

ghost use Rattle.std.specs.Prelude.{◌≡◌, ◌&&◌, Bool, List, []};
ghost use Rattle.lift_tree.specs.Types.{ty_of};
ghost use Rattle.lift_tree.specs.FixedSizes.{asked, size_fixed};
ghost use Rattle.lift_tree.specs.Tree.{Tree, tree_of};
ghost use Rattle.lowered_tree.specs.Kinds.{asks_of, has_rows, is_local, is_of_level, is_over_rows, is_parallel, is_sequential, is_task};
ghost use Rattle.lowered_tree.specs.Pairs.{pair_begun, shows_row};
ghost use Rattle.lowered_tree.specs.Around.{around_of, at_root, operand, passed, laid_out, reorders, copied, under_form, argument, let_body, outer_body, own_body, map_body, fold_body};
ghost use Rattle.lowered_tree.specs.Aligned.{under_bound, under_fold};

use crate::forms::is_written_through;
use lift_tree::asks::Asks;
use lift_tree::layout::Layout;
use lift_tree::local_size::LocalSize;
use lift_tree::term::{Dimension, Level, MapKind, Term, UnaryForm};
use lift_tree::ty::Ty;

/// Which memory holds what a node computes, after the address spaces of OpenCL 1.2, section 6.5.
#[derive(Clone, Copy, PartialEq, Eq)]
pub enum AddressSpace {
    /// The output's buffers, which all work-items see.
    Global,
    /// The work-group's own.
    Local,
    /// The work-item's own.
    Private,
}

/// What is around a node: the positions that it is in, and the bodies of maps, folds and lets.
#[derive(Clone, Copy)]
pub struct Around {
    /// What the node gives is stored.
    pub is_written: bool,
    /// The node is in an argument: the array of a map or fold, or a let's value that is no
    /// element, with no copy between.
    pub in_argument: bool,
    /// It is below an element term.
    pub in_element: bool,
    /// It is in a work-item's body: that of a map over all items or over a group's items, or
    /// anywhere in a term without parallel maps.
    pub in_item: bool,
    /// It is in the body of a map over work-groups.
    pub in_group: bool,
    /// It is in the body of a map over a group's items.
    pub in_local: bool,
    /// It is in a parallel map's body.
    pub in_parallel: bool,
    /// The nearest body of a map or fold around it is that of a map over work-groups.
    pub is_next_to_group: bool,
    /// It is in the body of a sequential map, or of a let of an element.
    pub in_serial: bool,
    /// The whole term has a map along dimension 1, so that its parallel maps are pairs.
    pub is_paired: bool,
    /// A map of this level along dimension 0 is due here: the node is the body of such a map along
    /// dimension 1, seen through join, split and transpose.
    pub awaited: Option<Level>,
    /// It stands between the two maps of a pair: in the outer one's body, and not in the inner
    /// one's.
    pub is_between: bool,
    /// It is in the body of a map over a group's items along dimension 1.
    pub in_rows: bool,
    /// A layout other than join and split stands between it and the nearest copy around it, or the
    /// root.
    pub is_reordered: bool,
    /// Where what is written here goes: to the nearest copy around it, else to the output.
    pub space: AddressSpace,
}

/// Whether a map of this kind spreads its turns over work-items or work-groups.
pub fn is_parallel(kind: MapKind) -> bool
    ensures { result ≡ is_parallel kind }
{
    match kind {
        MapKind::Over(_, _) => true,
        MapKind::Plain | MapKind::Sequential => false,
    }
}

/// Whether one work-item runs a map of this kind.
pub fn is_sequential(kind: MapKind) -> bool
    ensures { result ≡ is_sequential kind }
{
    match kind {
        MapKind::Sequential => true,
        MapKind::Over(_, _) | MapKind::Plain => false,
    }
}

/// Whether a map of this kind spreads its turns over this, along either dimension.
pub fn is_of_level(kind: MapKind, level: Level) -> bool
    ensures { result ≡ is_of_level level kind }
{
    match kind {
        MapKind::Over(own, _) => own == level,
        MapKind::Plain | MapKind::Sequential => false,
    }
}

/// Whether the term has no parallel map.
pub fn is_task(term: &Term) -> bool
    ensures { result ≡ is_task (tree_of term.now) }
{
    match term {
        Term::Variable(_) | Term::Number(_) | Term::Input(_) => true,
        Term::Unary(_, a) => is_task(a),
        Term::Binary(_, a, b) | Term::Let(a, b) => is_task(a) && is_task(b),
        Term::Select(a, b, c) | Term::Fold(_, a, b, c) => is_task(a) && is_task(b) && is_task(c),
        Term::Map(kind, array, body) => !is_parallel(*kind) && is_task(array) && is_task(body),
    }
}

/// Whether a map of this kind goes along dimension 1.
pub fn is_over_rows(kind: MapKind) -> bool
    ensures { result ≡ is_over_rows kind }
{
    match kind {
        MapKind::Over(_, Dimension::Y) => true,
        MapKind::Over(_, Dimension::X) | MapKind::Plain | MapKind::Sequential => false,
    }
}

// Whether a map of this kind goes over the rows of a group's items.
fn is_over_item_rows(kind: MapKind) -> bool
    ensures { result ≡ (is_local kind && is_over_rows kind) }
{
    is_of_level(kind, Level::Items) && is_over_rows(kind)
}

/// Whether the term has a map along dimension 1.
pub fn has_rows(term: &Term) -> bool
    ensures { result ≡ has_rows (tree_of term.now) }
{
    match term {
        Term::Variable(_) | Term::Number(_) | Term::Input(_) => false,
        Term::Unary(_, a) => has_rows(a),
        Term::Binary(_, a, b) | Term::Let(a, b) => has_rows(a) || has_rows(b),
        Term::Select(a, b, c) | Term::Fold(_, a, b, c) => has_rows(a) || has_rows(b) || has_rows(c),
        Term::Map(kind, array, body) => is_over_rows(*kind) || has_rows(array) || has_rows(body),
    }
}

// Whether it is a map of this level along dimension 0, seen through join, split and transpose.
fn shows_row(level: Level, term: &Term) -> bool
    ensures { result ≡ shows_row level (tree_of term.now) }
{
    match term {
        Term::Unary(UnaryForm::Layout(Layout::Split(_) | Layout::Join | Layout::Transpose), a) => {
            shows_row(level, a)
        }
        Term::Map(kind, _, _) => *kind == MapKind::Over(level, Dimension::X),
        _ => false,
    }
}

/// The level of the pair of maps that a map of this kind with this body begins, where it begins
/// one: it goes along dimension 1, and its body, seen through join, split and transpose, is a map
/// of the same level along dimension 0.
pub fn pair_begun(kind: MapKind, body: &Term) -> Option<Level>
    ensures { result ≡ pair_begun kind (tree_of body.now) }
{
    match kind {
        MapKind::Over(level, Dimension::Y) if shows_row(level, body) => Some(level),
        _ => None,
    }
}

// Whether the layout is another than join and split.
fn reorders(layout: &Layout) -> bool
    ensures { result ≡ reorders layout.now }
{
    match layout {
        Layout::Split(_) | Layout::Join => false,
        Layout::Transpose
        | Layout::Reverse
        | Layout::Stride(_)
        | Layout::AsVector
        | Layout::AsScalar => true,
    }
}

/// What a term asks of each launch, with the local size that its script fixes.
pub fn asks_of(term: &Term, local: Option<LocalSize>) -> Asks
    ensures { asked result ≡ asks_of (size_fixed local) (tree_of term.now) }
{
    let alone = is_task(term);
    Asks {
        alone,
        flat: !alone && !has_rows(term),
        local,
    }
}

impl Around {
    /// What is around the root: it is written, and in a term without parallel maps
    /// everything is one work-item's.
    pub fn root(term: &Term) -> Around
        ensures { around_of result [] ≡ at_root (tree_of term.now) }
    {
        Around {
            is_written: true,
            in_argument: false,
            in_element: false,
            in_item: is_task(term),
            in_group: false,
            in_local: false,
            in_parallel: false,
            is_next_to_group: false,
            in_serial: false,
            is_paired: has_rows(term),
            awaited: None,
            is_between: false,
            in_rows: false,
            is_reordered: false,
            space: AddressSpace::Global,
        }
    }

    /// What is around a child that is no argument, body or copy. The parent has
    /// this type, as in the calls below.
    pub fn operand(self, parent: &Ty) -> Around
        ensures { (g : List Bool)
            → around_of result g ≡ operand (around_of self g) (ty_of parent.now) }
    {
        Around {
            is_written: false,
            in_element: self.in_element || parent.is_element(),
            awaited: None,
            ..self
        }
    }

    // What is around the operand of a layout that is written through, which
    // is written where the layout is. A pair's inner map is seen through join, split and transpose
    // alone.
    fn passed(self, layout: &Layout, parent: &Ty) -> Around
        ensures { (g : List Bool)
            → around_of result g ≡ passed (around_of self g) layout.now (ty_of parent.now) }
    {
        let awaited = match layout {
            Layout::Split(_) | Layout::Join | Layout::Transpose => self.awaited,
            Layout::Reverse | Layout::Stride(_) | Layout::AsVector | Layout::AsScalar => None,
        };
        Around {
            is_written: self.is_written && !parent.is_element(),
            in_element: self.in_element || parent.is_element(),
            awaited,
            is_reordered: self.is_reordered || reorders(layout),
            ..self
        }
    }

    /// What is around the operand of a layout.
    pub fn laid_out(self, layout: &Layout, parent: &Ty) -> Around
        ensures { (g : List Bool)
            → around_of result g ≡ laid_out (around_of self g) layout.now (ty_of parent.now) }
    {
        if is_written_through(layout) {
            self.passed(layout, parent)
        } else {
            self.operand(parent)
        }
    }

    /// What is around the operand of a copy to this space.
    pub fn copied(self, space: AddressSpace, parent: &Ty) -> Around
        ensures { (g : List Bool)
            → around_of result g ≡ copied (around_of self g) space (ty_of parent.now) }
    {
        Around {
            is_written: true,
            in_argument: false,
            in_element: self.in_element || parent.is_element(),
            awaited: None,
            is_reordered: false,
            space,
            ..self
        }
    }

    /// What is around the one child of this form.
    pub fn under_form(self, form: &UnaryForm, parent: &Ty) -> Around
        ensures { (g : List Bool)
            → around_of result g ≡ under_form (around_of self g) form.now (ty_of parent.now) }
    {
        match form {
            UnaryForm::Layout(layout) => self.laid_out(layout, parent),
            UnaryForm::ToLocal => self.copied(AddressSpace::Local, parent),
            UnaryForm::ToPrivate => self.copied(AddressSpace::Private, parent),
            UnaryForm::Div(_)
            | UnaryForm::Rem(_)
            | UnaryForm::First
            | UnaryForm::Second
            | UnaryForm::Slide(_, _)
            | UnaryForm::Pad(_, _)
            | UnaryForm::Then => self.operand(parent),
        }
    }

    /// What is around the array of a map or fold, or around a let's
    /// value. An element is no argument.
    pub fn argument(self, of_element: bool, parent: &Ty) -> Around
        ensures { (g : List Bool)
            → around_of result g ≡ argument (around_of self g) of_element (ty_of parent.now) }
    {
        Around {
            is_written: false,
            in_argument: self.in_argument || !of_element,
            in_element: self.in_element || parent.is_element(),
            awaited: None,
            ..self
        }
    }

    /// What is around a let's body, where the value is an element or isn't.
    pub fn let_body(self, of_element: bool, parent: &Ty) -> Around
        ensures { (g : List Bool) (v : Tree) → around_of result (under_bound g v)
            ≡ let_body (around_of self g) of_element v (ty_of parent.now) }
    {
        Around {
            is_written: self.is_written && !parent.is_element(),
            in_element: self.in_element || parent.is_element(),
            in_serial: self.in_serial || of_element,
            awaited: None,
            ..self
        }
    }

    /// What is around the body of a map that begins a pair of this level: the pair is one map,
    /// whose body is the inner one's.
    fn outer_body(self, level: Level, parent: &Ty) -> Around
        ensures { (g : List Bool) (xs : Tree) → around_of result (under_bound g xs)
            ≡ outer_body (around_of self g) level xs (ty_of parent.now) }
    {
        Around {
            is_written: true,
            in_element: self.in_element || parent.is_element(),
            awaited: Some(level),
            is_between: true,
            in_rows: self.in_rows || level == Level::Items,
            ..self
        }
    }

    /// What is around the body of a map that begins no pair.
    fn own_body(self, kind: MapKind, parent: &Ty) -> Around
        ensures { (g : List Bool) (xs : Tree) → around_of result (under_bound g xs)
            ≡ own_body (around_of self g) kind xs (ty_of parent.now) }
    {
        let is_global = is_of_level(kind, Level::Launch);
        let is_group = is_of_level(kind, Level::Groups);
        let is_local = is_of_level(kind, Level::Items);
        Around {
            is_written: true,
            in_argument: self.in_argument,
            in_element: self.in_element || parent.is_element(),
            in_item: self.in_item || is_global || is_local,
            in_group: self.in_group || is_group,
            in_local: self.in_local || is_local,
            in_parallel: self.in_parallel || is_parallel(kind),
            is_next_to_group: is_group,
            in_serial: self.in_serial || is_sequential(kind),
            is_paired: self.is_paired,
            awaited: None,
            is_between: false,
            in_rows: self.in_rows || is_over_item_rows(kind),
            is_reordered: self.is_reordered,
            space: self.space,
        }
    }

    /// What is around the body of a map with this body.
    pub fn map_body(self, kind: MapKind, body: &Term, parent: &Ty) -> Around
        ensures { (g : List Bool) (xs : Tree) → around_of result (under_bound g xs)
            ≡ map_body (around_of self g) kind xs (tree_of body.now) (ty_of parent.now) }
    {
        match pair_begun(kind, body) {
            Some(level) => self.outer_body(level, parent),
            None => self.own_body(kind, parent),
        }
    }

    /// What is around a fold's body.
    pub fn fold_body(self, parent: &Ty) -> Around
        ensures { (g : List Bool) → around_of result (under_fold g)
            ≡ fold_body (around_of self g) (ty_of parent.now) }
    {
        Around {
            is_written: false,
            in_element: self.in_element || parent.is_element(),
            is_next_to_group: false,
            awaited: None,
            ..self
        }
    }
}
