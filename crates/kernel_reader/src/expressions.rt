//! The expressions of a kernel's text: what their forms give way to.

ghost use Rattle.std.specs.Prelude.{◌≤◌, Some};
ghost use Rattle.kernel_tree.specs.Tree.{id_of, comparison_of};
ghost use Rattle.kernel_tree.specs.KernelText.{operated, compared};
ghost use Rattle.kernel_spelling.specs.Kinds.{kind_of};
ghost use Rattle.kernel_spelling.specs.Rows.{whole_row, value_row, opened_row, id_row, id_along_row, rest_row, after_less_row};
ghost use Rattle.kernel_reader.specs.Views.{Gave};
ghost use Rattle.kernel_reader.specs.Noted.{notes_of};

use crate::form::{
    BLANK, CLOSES, COLON, COMMA, DEEPEST, Debts, EQUALS, Form, GREATER, LESS, Mark, OPEN, OPENS,
    QUESTION, SPACE, UINT,
};
use crate::made::Made;
use kernel_spelling::{Kind, called, named_dimension, named_id, signed};
use kernel_tree::tree::{Comparison, IdForm};
use readings::{Owed, give, owe};
use scalar_ops::op::Op;
use std::alloc::AllocError;

/// Gives an operator's right part.
fn give_operated<'a>(
    bound: bool,
    loops: u32,
    depth: u32,
    op: Op,
    owed: &mut Debts<'a>,
) -> Result<bool, AllocError>
    ensures { let given = operated bound loops depth op in
        Gave result owed.old.items owed.new.items (Some given) }
{
    let right = Owed::Form(Form::Value(bound, loops, depth));
    give(owed, &[right, CLOSES, Owed::Mark(Mark::Both(op))])
}

/// Gives a comparison's right part, and the two choices.
fn give_compared<'a>(
    bound: bool,
    loops: u32,
    depth: u32,
    comparison: Comparison,
    owed: &mut Debts<'a>,
) -> Result<bool, AllocError>
    ensures { let given = compared bound loops depth (comparison_of comparison) in
        Gave result owed.old.items owed.new.items (Some given) }
{
    let part = Owed::Form(Form::Value(bound, loops, depth));
    let chosen = Owed::Mark(Mark::Either(comparison));
    owe(owed, &[SPACE, COLON, SPACE, part, CLOSES, chosen])?;
    give(owed, &[part, SPACE, QUESTION, SPACE, part])
}

/// Gives what follows the piece with which an expression that has parts begins.
fn give_whole<'a>(
    bound: bool,
    loops: u32,
    depth: u32,
    piece: &'a [u8],
    owed: &mut Debts<'a>,
) -> Result<bool, AllocError>
    requires { depth ≤ 1024 }
    ensures { let p = piece.entry.now in
        Gave result owed.old.items owed.new.items (whole_row bound loops depth p) }
{
    if piece == OPEN {
        return give(owed, &[Owed::Form(Form::Opened(bound, loops, depth))]);
    }
    let Some(op) = called(piece) else {
        return Ok(false);
    };
    let left = Owed::Form(Form::Value(bound, loops, depth + 1));
    give_operated(bound, loops, depth + 1, op, owed)?;
    give(owed, &[OPENS, left, Owed::Token(COMMA), SPACE])
}

impl<'a> Made<'a> {
    pub fn give_value(
        &self,
        bound: bool,
        loops: u32,
        depth: u32,
        piece: &'a [u8],
        owed: &mut Debts<'a>,
    ) -> Result<bool, AllocError>
        ensures { let n = notes_of self.now in
            let p = piece.entry.now in
            let row = value_row n bound loops depth p (kind_of p) in
            Gave result owed.old.items owed.new.items row }
    {
        match Kind::of(piece) {
            Kind::Variable(k) => {
                if bound || k >= self.variables || depth > DEEPEST {
                    return Ok(false);
                }
                give(owed, &[Owed::Mark(Mark::Variable(k))])
            }
            Kind::LoopVariable(k) => {
                if bound || k >= loops || depth > DEEPEST {
                    return Ok(false);
                }
                give(owed, &[Owed::Mark(Mark::LoopVariable(k))])
            }
            Kind::Size(k) => {
                if k >= self.sizes || depth > DEEPEST {
                    return Ok(false);
                }
                give(owed, &[Owed::Mark(Mark::Size(k))])
            }
            Kind::Literal(number) => {
                if depth > DEEPEST {
                    return Ok(false);
                }
                give(owed, &[Owed::Mark(Mark::Number(number))])
            }
            Kind::Other => {
                if depth > DEEPEST {
                    return Ok(false);
                }
                give_whole(bound, loops, depth, piece, owed)
            }
            _ => Ok(false),
        }
    }

    pub fn give_opened(
        &self,
        bound: bool,
        loops: u32,
        depth: u32,
        piece: &'a [u8],
        owed: &mut Debts<'a>,
    ) -> Result<bool, AllocError>
        ensures { let n = notes_of self.now in
            let p = piece.entry.now in
            let row = opened_row n bound loops depth p (kind_of p) in
            Gave result owed.old.items owed.new.items row }
    {
        if piece == UINT {
            if bound {
                return Ok(false);
            }
            return give(owed, &[CLOSES, Owed::Form(Form::IdName)]);
        }
        if depth >= DEEPEST {
            return Ok(false);
        }
        let rest = Owed::Form(Form::Rest(bound, loops, depth + 1));
        owe(owed, &[SPACE, rest])?;
        self.give_value(bound, loops, depth + 1, piece, owed)
    }

    pub fn give_id(&self, piece: &'a [u8], owed: &mut Debts<'a>) -> Result<bool, AllocError>
        ensures { let p = piece.entry.now in
            Gave result owed.old.items owed.new.items (id_row p) }
    {
        let Some(form) = named_id(piece) else {
            return Ok(false);
        };
        give(owed, &[OPENS, Owed::Form(Form::IdAlong(form))])
    }

    pub fn give_id_along(
        &self,
        form: IdForm,
        piece: &'a [u8],
        owed: &mut Debts<'a>,
    ) -> Result<bool, AllocError>
        ensures { let p = piece.entry.now in
            Gave result owed.old.items owed.new.items (id_along_row (id_of form) p) }
    {
        let Some(along) = named_dimension(piece) else {
            return Ok(false);
        };
        give(owed, &[CLOSES, Owed::Mark(Mark::Id(along, form))])
    }

    pub fn give_rest(
        &self,
        bound: bool,
        loops: u32,
        depth: u32,
        piece: &'a [u8],
        owed: &mut Debts<'a>,
    ) -> Result<bool, AllocError>
        ensures { let p = piece.entry.now in
            Gave result owed.old.items owed.new.items (rest_row bound loops depth p) }
    {
        if piece == LESS {
            return give(owed, &[Owed::Form(Form::AfterLess(bound, loops, depth))]);
        }
        if piece == GREATER {
            give_operated(bound, loops, depth, Op::Shr, owed)?;
            return give(owed, &[Owed::Token(GREATER), SPACE]);
        }
        if piece == EQUALS {
            give_compared(bound, loops, depth, Comparison::Equal, owed)?;
            return give(owed, &[Owed::Token(EQUALS), SPACE]);
        }
        let Some(op) = signed(piece) else {
            return Ok(false);
        };
        give_operated(bound, loops, depth, op, owed)?;
        give(owed, &[SPACE])
    }

    pub fn give_after_less(
        &self,
        bound: bool,
        loops: u32,
        depth: u32,
        piece: &'a [u8],
        owed: &mut Debts<'a>,
    ) -> Result<bool, AllocError>
        ensures { let p = piece.entry.now in
            Gave result owed.old.items owed.new.items (after_less_row bound loops depth p) }
    {
        if piece == LESS {
            give_operated(bound, loops, depth, Op::Shl, owed)?;
            return give(owed, &[SPACE]);
        }
        if piece == BLANK {
            return give_compared(bound, loops, depth, Comparison::Less, owed);
        }
        Ok(false)
    }
}
