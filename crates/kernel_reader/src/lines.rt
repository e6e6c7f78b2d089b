//! Indents and the lines of loops and `if`s: what their forms give way to.

ghost use Rattle.std.specs.Prelude.{◌≡◌, ◌<◌, ◌^◌, Some, bytes_eq, option_map};
ghost use Rattle.kernel_tree.specs.KernelText.{indent, loop_test, guard_test, after_start, loop_body, is_id, start_at, stride_by};
ghost use Rattle.kernel_tree.specs.Tree.{id_of, start_of, stride_of};
ghost use Rattle.kernel_spelling.specs.Kinds.{kind_of};
ghost use Rattle.kernel_spelling.specs.Rows.{turn_row, beginning_row, beginning_id_row, beginning_along_row, step_row, step_id_row, step_along_row};
ghost use Rattle.kernel_reader.specs.Views.{Gave};

use crate::form::{
    Block, CLOSES, Debts, EQUALS, Form, LESS, LINE, Mark, ONE, OPEN, OPEN_BLOCK, OPENS, PLUS,
    Place, SEMICOLON, SPACE, UINT, ZERO,
};
use crate::made::Made;
use kernel_spelling::{Kind, named_dimension, named_id};
use kernel_tree::tree::{Dimension, IdForm, Start, Stride};
use readings::{Owed, give, owe};
use std::alloc::AllocError;

/// Whether the piece is the spaces of so many levels.
pub fn is_indent(piece: &[u8], level: u64) -> bool
    requires { level < 2 ^ 33 }
    ensures { result ≡ bytes_eq piece.now (indent level) }
{
    let mut left = 2 * level;
    for b in piece {
        if *b != b' ' || left == 0 {
            return false;
        }
        left -= 1;
    }
    left == 0
}

/// Gives what follows that with which a loop's variable begins.
fn give_test<'a>(block: Block, start: Start, owed: &mut Debts<'a>) -> Result<bool, AllocError>
    ensures { let given = loop_test block.loops block.nest (start_of start) in
        Gave result owed.old.items owed.new.items (Some given) }
{
    let turn = Owed::Form(Form::Turn(block.loops));
    let bound = Owed::Form(Form::Value(true, block.loops, 1));
    let step = Owed::Form(Form::Step(block, start));
    let equals = Owed::Token(EQUALS);
    owe(
        owed,
        &[SEMICOLON, SPACE, turn, SPACE, PLUS, equals, SPACE, step],
    )?;
    let less = Owed::Token(LESS);
    give(owed, &[SEMICOLON, SPACE, turn, SPACE, less, SPACE, bound])
}

/// Gives what follows that which an `if` compares.
fn give_guard<'a>(block: Block, start: Start, owed: &mut Debts<'a>) -> Result<bool, AllocError>
    ensures { let given = guard_test block.loops block.nest (start_of start) in
        Gave result owed.old.items owed.new.items (Some given) }
{
    let place = Place {
        loops: block.loops,
        nest: block.nest,
    };
    let inside = Place {
        loops: block.loops,
        nest: block.nest + 1,
    };
    let indent = Owed::Form(Form::Indent(block.nest + 2));
    let body = Owed::Form(Form::Statement(inside));
    let next = Owed::Form(Form::Next(place));
    let closed = Owed::Mark(Mark::If(start));
    owe(owed, &[LINE, indent, body, next, closed])?;
    let less = Owed::Token(LESS);
    let bound = Owed::Form(Form::Value(true, block.loops, 1));
    give(
        owed,
        &[SPACE, less, SPACE, bound, CLOSES, SPACE, OPEN_BLOCK],
    )
}

/// Gives what follows the start of an `if` or a loop.
fn give_start<'a>(
    guard: bool,
    block: Block,
    start: Start,
    owed: &mut Debts<'a>,
) -> Result<bool, AllocError>
    ensures { let given = after_start guard block.loops block.nest (start_of start) in
        Gave result owed.old.items owed.new.items (Some given) }
{
    if guard {
        give_guard(block, start, owed)
    } else {
        give_test(block, start, owed)
    }
}

/// Gives what follows that which is added to a loop's variable.
fn give_round<'a>(
    block: Block,
    start: Start,
    stride: Stride,
    owed: &mut Debts<'a>,
) -> Result<bool, AllocError>
    ensures { let given = loop_body block.loops block.nest (start_of start) (stride_of stride) in
        Gave result owed.old.items owed.new.items (Some given) }
{
    let place = Place {
        loops: block.loops,
        nest: block.nest,
    };
    let inside = Place {
        loops: block.loops + 1,
        nest: block.nest + 1,
    };
    let indent = Owed::Form(Form::Indent(block.nest + 2));
    let body = Owed::Form(Form::Statement(inside));
    let next = Owed::Form(Form::Next(place));
    let closed = Owed::Mark(Mark::Loop(start, stride));
    owe(owed, &[indent, body, next, closed])?;
    give(owed, &[CLOSES, SPACE, OPEN_BLOCK, LINE])
}

/// Whether the id is the item's place, as against a count.
fn is_id(form: IdForm) -> bool
    ensures { result ≡ is_id (id_of form) }
{
    match form {
        IdForm::GlobalId | IdForm::GroupId | IdForm::LocalId => true,
        IdForm::GlobalSize | IdForm::GroupCount | IdForm::LocalSize => false,
    }
}

/// The start at an id in a dimension, if it is the item's place.
fn start_at(form: IdForm, along: Dimension) -> Option<Start>
    ensures { option_map start_of result ≡ start_at (id_of form) along }
{
    match form {
        IdForm::GlobalId => Some(Start::GlobalId(along)),
        IdForm::GroupId => Some(Start::GroupId(along)),
        IdForm::LocalId => Some(Start::LocalId(along)),
        _ => None,
    }
}

/// The stride by an id in a dimension, if it is a count.
fn stride_by(form: IdForm, along: Dimension) -> Option<Stride>
    ensures { option_map stride_of result ≡ stride_by (id_of form) along }
{
    match form {
        IdForm::GlobalSize => Some(Stride::GlobalSize(along)),
        IdForm::GroupCount => Some(Stride::GroupCount(along)),
        IdForm::LocalSize => Some(Stride::LocalSize(along)),
        _ => None,
    }
}

impl<'a> Made<'a> {
    pub fn give_turn(
        &self,
        loops: u32,
        piece: &'a [u8],
        owed: &mut Debts<'a>,
    ) -> Result<bool, AllocError>
        ensures { let p = piece.entry.now in
            Gave result owed.old.items owed.new.items (turn_row loops (kind_of p)) }
    {
        match Kind::of(piece) {
            Kind::LoopVariable(k) => Ok(k == loops),
            _ => Ok(false),
        }
    }

    pub fn give_beginning(
        &self,
        guard: bool,
        block: Block,
        piece: &'a [u8],
        owed: &mut Debts<'a>,
    ) -> Result<bool, AllocError>
        ensures { let p = piece.entry.now in
            let row = beginning_row guard block.loops block.nest p in
            Gave result owed.old.items owed.new.items row }
    {
        if piece == ZERO {
            return give_start(guard, block, Start::Zero, owed);
        }
        if piece == OPEN {
            let uint = Owed::Token(UINT);
            let id = Owed::Form(Form::BeginningId(guard, block));
            return give(owed, &[uint, CLOSES, id]);
        }
        Ok(false)
    }

    pub fn give_beginning_id(
        &self,
        guard: bool,
        block: Block,
        piece: &'a [u8],
        owed: &mut Debts<'a>,
    ) -> Result<bool, AllocError>
        ensures { let p = piece.entry.now in
            let row = beginning_id_row guard block.loops block.nest p in
            Gave result owed.old.items owed.new.items row }
    {
        let Some(form) = named_id(piece) else {
            return Ok(false);
        };
        if !is_id(form) {
            return Ok(false);
        }
        give(
            owed,
            &[OPENS, Owed::Form(Form::BeginningAlong(guard, block, form))],
        )
    }

    pub fn give_beginning_along(
        &self,
        guard: bool,
        block: Block,
        form: IdForm,
        piece: &'a [u8],
        owed: &mut Debts<'a>,
    ) -> Result<bool, AllocError>
        ensures { let p = piece.entry.now in
            let row = beginning_along_row guard block.loops block.nest (id_of form) p in
            Gave result owed.old.items owed.new.items row }
    {
        let Some(along) = named_dimension(piece) else {
            return Ok(false);
        };
        let Some(start) = start_at(form, along) else {
            return Ok(false);
        };
        give_start(guard, block, start, owed)?;
        give(owed, &[CLOSES])
    }

    pub fn give_step(
        &self,
        block: Block,
        start: Start,
        piece: &'a [u8],
        owed: &mut Debts<'a>,
    ) -> Result<bool, AllocError>
        ensures { let p = piece.entry.now in
            let row = step_row block.loops block.nest (start_of start) p in
            Gave result owed.old.items owed.new.items row }
    {
        if piece == ONE {
            return give_round(block, start, Stride::One, owed);
        }
        if piece == OPEN {
            let uint = Owed::Token(UINT);
            let id = Owed::Form(Form::StepId(block, start));
            return give(owed, &[uint, CLOSES, id]);
        }
        Ok(false)
    }

    pub fn give_step_id(
        &self,
        block: Block,
        start: Start,
        piece: &'a [u8],
        owed: &mut Debts<'a>,
    ) -> Result<bool, AllocError>
        ensures { let p = piece.entry.now in
            let row = step_id_row block.loops block.nest (start_of start) p in
            Gave result owed.old.items owed.new.items row }
    {
        let Some(form) = named_id(piece) else {
            return Ok(false);
        };
        if is_id(form) {
            return Ok(false);
        }
        give(
            owed,
            &[OPENS, Owed::Form(Form::StepAlong(block, start, form))],
        )
    }

    pub fn give_step_along(
        &self,
        block: Block,
        start: Start,
        form: IdForm,
        piece: &'a [u8],
        owed: &mut Debts<'a>,
    ) -> Result<bool, AllocError>
        ensures { let p = piece.entry.now in
            let row = step_along_row block.loops block.nest (start_of start) (id_of form) p in
            Gave result owed.old.items owed.new.items row }
    {
        let Some(along) = named_dimension(piece) else {
            return Ok(false);
        };
        let Some(stride) = stride_by(form, along) else {
            return Ok(false);
        };
        give_round(block, start, stride, owed)?;
        give(owed, &[CLOSES])
    }
}
