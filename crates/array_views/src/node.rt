//! Views as trees that share their parts.

ghost use Rattle.std.specs.Prelude.{◌≡◌, IfOk};
ghost use Rattle.array_views.specs.Stacks.{indices_in};
ghost use Rattle.array_views.specs.Accesses.{access_at, access_of};
ghost use Rattle.array_views.specs.Arrays.{extent_of};
ghost use Rattle.array_views.specs.Views as plain;
ghost use Rattle.array_views.specs.Views.{plain_of};

use crate::access::{Access, Cell};
use crate::layout::Layout;
use crate::placed::Placed;
use crate::stack::{IndexStack, PairStack};
use index_expr::Index;
use std::alloc::{AllocError, Global};
use std::rc::Rc;

/// A node of a view.
#[derive(Drop)]
pub enum Node {
    Nothing,
    /// A private variable, by its number.
    Variable(u32),
    /// A vector in a private variable of four words, by its number.
    Vector(u32),
    Placed(Placed),
    /// Both sides of a pair.
    Both(Rc<Node>, Rc<Node>),
    /// A side of it; `true` is the second.
    Component(bool, Rc<Node>),
    /// The element at an index.
    At(Index, Rc<Node>),
    /// Read through a layout.
    Reading(Layout, Rc<Node>),
    /// Written through a layout.
    Writing(Layout, Rc<Node>),
}

impl Node {
    /// What stands for the scalar at these choices and indices.
    pub fn access(
        &self,
        alloc: Global,
        choices: &mut PairStack,
        indices: &mut IndexStack,
    ) -> Result<Access, AllocError>
        ensures { IfOk result (λ a. access_of a
            ≡ access_at (plain_of self.now) choices.old (indices_in indices.old)) }
    {
        match self {
            Node::Nothing => Ok(Access::Nothing),
            Node::Variable(number) => Ok(Access::Variable(*number)),
            Node::Vector(number) => Ok(Access::Vector(*number)),
            Node::Placed(placed) => placed.access(alloc, choices, indices),
            Node::Both(left, right) => match choices.pop() {
                None => Ok(Access::Nothing),
                Some(false) => left.access(alloc, choices, indices),
                Some(true) => right.access(alloc, choices, indices),
            },
            Node::Component(second, pair) => {
                choices.push(*second)?;
                pair.access(alloc, choices, indices)
            }
            Node::At(index, array) => {
                indices.push(index.copy(alloc)?)?;
                array.access(alloc, choices, indices)
            }
            Node::Reading(layout, operand) => {
                let row = layout.to_operand(alloc, indices)?;
                operand.access(alloc, choices, indices)?.in_rows(alloc, row)
            }
            Node::Writing(layout, result) => {
                let row = layout.to_result(alloc, indices)?;
                result.access(alloc, choices, indices)?.in_rows(alloc, row)
            }
        }
    }
}

impl Placed {
    // The cell at these choices and indices.
    fn access(
        &self,
        alloc: Global,
        choices: &mut PairStack,
        indices: &mut IndexStack,
    ) -> Result<Access, AllocError>
        ensures { IfOk result (λ a. access_of a ≡ access_at
            (plain.Placed self.now.kind self.now.first (extent_of self.now.extent))
            choices.old (indices_in indices.old)) }
    {
        let index = self.extent.row_major(alloc, indices)?;
        Ok(Access::InCell(Cell {
            kind: self.kind,
            array: self.first + self.extent.component(choices),
            index,
        }))
    }
}
