//! The turns that a work-item is in, which are the variables of index expressions.

ghost use Rattle.std.specs.Prelude.{◌≡◌};
ghost use Rattle.kernel_tree.specs.Tree.{formula_of};
ghost use Rattle.length_spelling.specs.Turns.{as_number, number_of, turn_formula};

use kernel_tree::tree::{Dimension, Expr, IdForm};

/// A turn that a work-item is in.
#[derive(Clone, Copy)]
pub enum Turn {
    /// Its group's, in the launch, along a dimension: the group's id.
    Group(Dimension),
    /// Its own, in its group, along a dimension: its id there.
    Local(Dimension),
    /// That of the loop that stands within so many others.
    Loop(u32),
}

impl Turn {
    /// The turn whose number, as an index expression's variable, is this.
    pub fn of_number(number: u32) -> Self
        ensures { number_of result ≡ number }
    {
        match number {
            0 => Turn::Group(Dimension::X),
            1 => Turn::Local(Dimension::X),
            2 => Turn::Group(Dimension::Y),
            3 => Turn::Local(Dimension::Y),
            _ => Turn::Loop(number - 4),
        }
    }

    /// Its number, as an index expression's variable: 0 for the group's and 1 for the item's own
    /// along a row, 2 and 3 for those from row to row, and then those of the loops. The last four
    /// loops that a `u32` names have none.
    pub fn number(self) -> Option<u32>
        ensures { result ≡ as_number (number_of self) }
    {
        match self {
            Turn::Group(Dimension::X) => Some(0),
            Turn::Local(Dimension::X) => Some(1),
            Turn::Group(Dimension::Y) => Some(2),
            Turn::Local(Dimension::Y) => Some(3),
            Turn::Loop(depth) => depth.checked_add(4),
        }
    }

    /// What spells it in a kernel: an id, or the variable of its loop.
    pub fn expr(self) -> Expr
        ensures { formula_of result ≡ turn_formula (number_of self) }
    {
        match self {
            Turn::Group(dimension) => Expr::Id(dimension, IdForm::GroupId),
            Turn::Local(dimension) => Expr::Id(dimension, IdForm::LocalId),
            Turn::Loop(depth) => Expr::LoopVariable(depth),
        }
    }
}
