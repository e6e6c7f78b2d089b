//! Code that is put together from its end.

ghost use Rattle.std.specs.Prelude.{◌≡◌, OnOk};
ghost use Rattle.kernel_tree.specs.Code.{End, Guards, Loops};
ghost use Rattle.kernel_tree.specs.Tree.{before, code_then, formula_of, start_of, stride_of};
ghost use Rattle.item_emit.specs.Blocks.{code_in};

use kernel_tree::tree::{Expr, Start, Stmt, Stride};
use std::alloc::{AllocError, Global};

/// Statements that are put together from the last to the first.
#[derive(Drop)]
pub struct Block {
    reversed: Vec<Stmt>,
}

impl Block {
    /// No statement.
    pub fn new(alloc: Global) -> Self
        ensures { code_in result ≡ End }
    {
        Block {
            reversed: Vec::new(alloc),
        }
    }

    /// Puts a statement before all others.
    #[tactic(auto, using(crate::proofs::Blocks::put_before))]
    pub fn put(&mut self, statement: Stmt) -> Result<(), AllocError>
        ensures { OnOk result (code_in self.new ≡ before statement (code_in self.old)) }
    {
        self.reversed.push(statement)?;
        Ok(())
    }

    /// Puts a loop over this block before all others.
    #[tactic(auto, using(crate::proofs::Blocks::looped))]
    pub fn put_loop(
        &mut self,
        start: Start,
        bound: Expr,
        stride: Stride,
        body: Block,
    ) -> Result<(), AllocError>
        ensures { OnOk result (code_in self.new ≡ Loops (start_of start) (formula_of bound)
            (stride_of stride) (code_in body) (code_in self.old)) }
    {
        self.put(Stmt::Loop(start, bound, stride, body.into_statements()))
    }

    /// Puts this block, where the start is below the bound, before all others.
    #[tactic(auto, using(crate::proofs::Blocks::guarded))]
    pub fn put_guard(&mut self, start: Start, bound: Expr, body: Block) -> Result<(), AllocError>
        ensures { OnOk result (code_in self.new ≡ Guards (start_of start) (formula_of bound)
            (code_in body) (code_in self.old)) }
    {
        self.put(Stmt::If(start, bound, body.into_statements()))
    }

    /// The statements, from the first to the last.
    #[tactic(auto, using(crate::proofs::Blocks::turned))]
    pub fn into_statements(self) -> Vec<Stmt>
        ensures { code_then result.items End ≡ code_in self }
    {
        let mut statements = self.reversed;
        statements.reverse();
        statements
    }
}
