//! The expressions of four words of a kernel's text: what their forms give way to.

ghost use Rattle.std.specs.Prelude.{◌≤◌, Some};
ghost use Rattle.kernel_tree.specs.KernelText.{operated_each};
ghost use Rattle.kernel_spelling.specs.Kinds.{kind_of};
ghost use Rattle.kernel_spelling.specs.Rows.{spreading, whole_lanes_row, lanes_row, lanes_opened_row, lanes_rest_row, lanes_after_less_row};
ghost use Rattle.kernel_reader.specs.Views.{Gave};
ghost use Rattle.kernel_reader.specs.Noted.{notes_of};

use crate::form::{
    CLOSES, COMMA, DEEPEST, Debts, Form, GREATER, LESS, Mark, OPEN, OPENS, Opening, SPACE, UINT4,
};
use crate::made::Made;
use kernel_spelling::{Kind, called, signed};
use readings::{Owed, give, owe};
use scalar_ops::op::Op;
use std::alloc::AllocError;

/// Gives an operator's right part.
fn give_operated<'a>(
    loops: u32,
    depth: u32,
    op: Op,
    owed: &mut Debts<'a>,
) -> Result<bool, AllocError>
    ensures { let given = operated_each loops depth op in
        Gave result owed.old.items owed.new.items (Some given) }
{
    let right = Owed::Form(Form::InLanes(loops, depth));
    give(owed, &[right, CLOSES, Owed::Mark(Mark::EachOf(op))])
}

/// Gives what follows the piece with which an expression that has parts begins.
fn give_whole<'a>(
    loops: u32,
    depth: u32,
    piece: &'a [u8],
    owed: &mut Debts<'a>,
) -> Result<bool, AllocError>
    requires { depth ≤ 1024 }
    ensures { let p = piece.entry.now in
        Gave result owed.old.items owed.new.items (whole_lanes_row loops depth p) }
{
    if piece == OPEN {
        return give(
            owed,
            &[Owed::Form(Form::LanesOpened(Opening { loops, depth }))],
        );
    }
    let Some(op) = called(piece) else {
        return Ok(false);
    };
    let left = Owed::Form(Form::InLanes(loops, depth + 1));
    give_operated(loops, depth + 1, op, owed)?;
    give(owed, &[OPENS, left, Owed::Token(COMMA), SPACE])
}

/// Gives what follows `uint4`.
fn give_spread<'a>(loops: u32, depth: u32, owed: &mut Debts<'a>) -> Result<bool, AllocError>
    requires { depth ≤ 1024 }
    ensures { let given = spreading loops depth in
        Gave result owed.old.items owed.new.items (Some given) }
{
    let word = Owed::Form(Form::Value(false, loops, depth + 1));
    give(
        owed,
        &[CLOSES, OPENS, word, CLOSES, Owed::Mark(Mark::SpreadOut)],
    )
}

impl<'a> Made<'a> {
    pub fn give_lanes(
        &self,
        loops: u32,
        depth: u32,
        piece: &'a [u8],
        owed: &mut Debts<'a>,
    ) -> Result<bool, AllocError>
        ensures { let n = notes_of self.now in
            let p = piece.entry.now in
            let row = lanes_row n loops depth p (kind_of p) in
            Gave result owed.old.items owed.new.items row }
    {
        match Kind::of(piece) {
            Kind::Vector(k) => {
                if k >= self.vectors || depth > DEEPEST {
                    return Ok(false);
                }
                give(owed, &[Owed::Mark(Mark::Vector(k))])
            }
            Kind::Other => {
                if depth > DEEPEST {
                    return Ok(false);
                }
                give_whole(loops, depth, piece, owed)
            }
            _ => Ok(false),
        }
    }

    pub fn give_lanes_opened(
        &self,
        opening: Opening,
        piece: &'a [u8],
        owed: &mut Debts<'a>,
    ) -> Result<bool, AllocError>
        ensures { let n = notes_of self.now in
            let p = piece.entry.now in
            let row = lanes_opened_row n opening.loops opening.depth p (kind_of p) in
            Gave result owed.old.items owed.new.items row }
    {
        if piece == UINT4 {
            return give_spread(opening.loops, opening.depth, owed);
        }
        let rest = Owed::Form(Form::LanesRest(opening.loops, opening.depth + 1));
        owe(owed, &[SPACE, rest])?;
        self.give_lanes(opening.loops, opening.depth + 1, piece, owed)
    }

    pub fn give_lanes_rest(
        &self,
        loops: u32,
        depth: u32,
        piece: &'a [u8],
        owed: &mut Debts<'a>,
    ) -> Result<bool, AllocError>
        ensures { let p = piece.entry.now in
            Gave result owed.old.items owed.new.items (lanes_rest_row loops depth p) }
    {
        if piece == LESS {
            return give(owed, &[Owed::Form(Form::LanesAfterLess(loops, depth))]);
        }
        if piece == GREATER {
            give_operated(loops, depth, Op::Shr, owed)?;
            return give(owed, &[Owed::Token(GREATER), SPACE]);
        }
        let Some(op) = signed(piece) else {
            return Ok(false);
        };
        give_operated(loops, depth, op, owed)?;
        give(owed, &[SPACE])
    }

    pub fn give_lanes_after_less(
        &self,
        loops: u32,
        depth: u32,
        piece: &'a [u8],
        owed: &mut Debts<'a>,
    ) -> Result<bool, AllocError>
        ensures { let p = piece.entry.now in
            Gave result owed.old.items owed.new.items (lanes_after_less_row loops depth p) }
    {
        if piece == LESS {
            give_operated(loops, depth, Op::Shl, owed)?;
            return give(owed, &[SPACE]);
        }
        Ok(false)
    }
}
