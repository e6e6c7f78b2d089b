//! Stacks of pair choices and of indices, eight entries inline.

ghost use Rattle.std.specs.Prelude.{◌≡◌, [], ◌∷◌, IfOk, OnOk, MatchOption};
ghost use Rattle.index_expr.specs.Expression.{expression_of};
ghost use Rattle.array_views.specs.Stacks.{indices_in};

use index_expr::Index;
use smallvec::SmallVec;
use std::alloc::{AllocError, Global};
use std::marker::Model;

/// The pair choices that lead to a component, the outermost on top; `true` chooses the second.
#[derive(Drop)]
pub struct PairStack {
    choices: SmallVec<bool, 8>,
}

impl Model for PairStack {
    ghost use Rattle.std.specs.Prelude.{Bool, List, reverse};

    ghost Value = { List Bool };

    ghost view = { λ s. reverse s.choices.items };
}

impl PairStack {
    /// An empty stack.
    pub fn new(alloc: Global) -> Self
        ensures { result ≡ [] }
    {
        PairStack {
            choices: SmallVec::new(alloc),
        }
    }

    /// These choices, the first of them the outermost.
    pub fn from_choices(alloc: Global, choices: &[bool]) -> Result<Self, AllocError>
        ensures { IfOk result (λ s. s ≡ choices.now) }
    {
        match choices {
            [] => Ok(PairStack::new(alloc)),
            [second, rest @ ..] => {
                let mut stack = PairStack::from_choices(alloc, rest)?;
                stack.push(*second)?;
                Ok(stack)
            }
        }
    }

    /// Puts a choice on top.
    pub fn push(&mut self, second: bool) -> Result<(), AllocError>
        ensures { OnOk result (self.new ≡ second ∷ self.old) }
    {
        self.choices.push(second)?;
        Ok(())
    }

    /// Takes the choice on top.
    pub fn pop(&mut self) -> Option<bool>
        ensures { MatchOption result ((self.old ≡ []) × (self.new ≡ []))
            (λ c. self.old ≡ c ∷ self.new) }
    {
        self.choices.pop()
    }
}

/// The indices of an element, the outermost on top.
#[derive(Drop)]
pub struct IndexStack {
    indices: SmallVec<Index, 8>,
}

impl IndexStack {
    /// An empty stack.
    pub fn new(alloc: Global) -> Self
        ensures { indices_in result ≡ [] }
    {
        IndexStack {
            indices: SmallVec::new(alloc),
        }
    }

    /// Puts an index on top.
    pub fn push(&mut self, index: Index) -> Result<(), AllocError>
        ensures { OnOk result (indices_in self.new ≡ expression_of index ∷ indices_in self.old) }
    {
        self.indices.push(index)?;
        Ok(())
    }

    /// Takes the index on top.
    pub fn pop(&mut self) -> Option<Index>
        ensures { MatchOption result ((indices_in self.old ≡ []) × (indices_in self.new ≡ []))
            (λ i. indices_in self.old ≡ expression_of i ∷ indices_in self.new) }
    {
        self.indices.pop()
    }
}
