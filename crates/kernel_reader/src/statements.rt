//! The statements of a kernel's text: what their forms give way to.

ghost use Rattle.std.specs.Prelude.{◌≡◌, Some};
ghost use Rattle.kernel_tree.specs.Grammar.{is_readable, is_writable, is_shared};
ghost use Rattle.kernel_tree.specs.KernelText.{counted, loop_head, guard_head, stored};
ghost use Rattle.kernel_tree.specs.Tree.{array_of};
ghost use Rattle.kernel_spelling.specs.Kinds.{kind_of};
ghost use Rattle.kernel_spelling.specs.Rows.{word_row, statement_row, source_row, source_of_four_row, loaded_four_row, stored_four_row, next_row, fence_row, after_local_row, storing, loading, loading_four, storing_four};
ghost use Rattle.kernel_reader.specs.Views.{Gave, note_of};
ghost use Rattle.kernel_reader.specs.Noted.{notes_of};

use crate::form::{
    BAR, BARRIER, BLANK, Block, CLOSE, CLOSE_BLOCK, CLOSE_INDEX, CLOSES, COMMA, DEEPEST, Debts,
    EQUALS, FOR, Form, GLOBAL_FENCE, IF, LINE, LOAD_FOUR, LOCAL_FENCE, Mark, OPEN_INDEX, OPENS,
    Place, SEMICOLON, SPACE, STORE_FOUR, UINT,
};
use crate::lines::is_indent;
use crate::made::Made;
use kernel_spelling::Kind;
use kernel_tree::tree::Array;
use readings::{Owed, give, owe};
use std::alloc::AllocError;

/// Gives the end of a statement's line, and what follows it, up to the statement's mark.
fn give_stored<'a>(place: Place, mark: Mark, owed: &mut Debts<'a>) -> Result<bool, AllocError>
    ensures { let given = stored place.loops place.nest (note_of mark) in
        Gave result owed.old.items owed.new.items (Some given) }
{
    let next = Owed::Form(Form::Next(place));
    give(owed, &[SEMICOLON, LINE, next, Owed::Mark(mark)])
}

/// Gives what follows the array that is stored to.
fn give_store<'a>(place: Place, array: Array, owed: &mut Debts<'a>) -> Result<bool, AllocError>
    ensures { let given = storing place.loops place.nest (array_of array) in
        Gave result owed.old.items owed.new.items (Some given) }
{
    let value = Owed::Form(Form::Value(false, place.loops, 1));
    let equals = Owed::Token(EQUALS);
    give_stored(place, Mark::Store(array), owed)?;
    give(
        owed,
        &[OPEN_INDEX, value, CLOSE_INDEX, SPACE, equals, SPACE, value],
    )
}

/// Gives what follows the array that a variable is loaded from.
fn give_load<'a>(
    place: Place,
    variable: u32,
    array: Array,
    owed: &mut Debts<'a>,
) -> Result<bool, AllocError>
    ensures { let given = loading place.loops place.nest variable (array_of array) in
        Gave result owed.old.items owed.new.items (Some given) }
{
    let index = Owed::Form(Form::Value(false, place.loops, 1));
    give_stored(place, Mark::Load(variable, array), owed)?;
    give(owed, &[OPEN_INDEX, index, CLOSE_INDEX])
}

/// Gives what follows the word with which four words are loaded.
fn give_load_four<'a>(place: Place, variable: u32, owed: &mut Debts<'a>) -> Result<bool, AllocError>
    ensures { let given = loading_four place.loops place.nest variable in
        Gave result owed.old.items owed.new.items (Some given) }
{
    let offset = Owed::Form(Form::Value(false, place.loops, 1));
    let array = Owed::Form(Form::LoadedFour(place, variable));
    give(owed, &[OPENS, offset, Owed::Token(COMMA), SPACE, array])
}

/// Gives what follows the word with which four words are stored.
fn give_store_four<'a>(place: Place, owed: &mut Debts<'a>) -> Result<bool, AllocError>
    ensures { let given = storing_four place.loops place.nest in
        Gave result owed.old.items owed.new.items (Some given) }
{
    let words = Owed::Form(Form::InLanes(place.loops, 1));
    let offset = Owed::Form(Form::Value(false, place.loops, 1));
    let array = Owed::Form(Form::StoredFour(place));
    let comma = Owed::Token(COMMA);
    owe(owed, &[SPACE, offset, comma, SPACE, array])?;
    give(owed, &[OPENS, words, comma])
}

/// Gives what follows the word with which a loop begins.
fn give_loop<'a>(block: Block, owed: &mut Debts<'a>) -> Result<bool, AllocError>
    ensures { let given = loop_head block.loops block.nest in
        Gave result owed.old.items owed.new.items (Some given) }
{
    let uint = Owed::Token(UINT);
    let turn = Owed::Form(Form::Turn(block.loops));
    let equals = Owed::Token(EQUALS);
    let beginning = Owed::Form(Form::Beginning(false, block));
    give(
        owed,
        &[
            SPACE, OPENS, uint, SPACE, turn, SPACE, equals, SPACE, beginning,
        ],
    )
}

/// Gives what follows the word with which an `if` begins.
fn give_if<'a>(block: Block, owed: &mut Debts<'a>) -> Result<bool, AllocError>
    ensures { let given = guard_head block.loops block.nest in
        Gave result owed.old.items owed.new.items (Some given) }
{
    let beginning = Owed::Form(Form::Beginning(true, block));
    give(owed, &[SPACE, OPENS, beginning])
}

/// Gives what follows the word with which a statement begins.
fn give_word<'a>(place: Place, piece: &'a [u8], owed: &mut Debts<'a>) -> Result<bool, AllocError>
    ensures { let p = piece.entry.now in
        Gave result owed.old.items owed.new.items (word_row place.loops place.nest p) }
{
    if piece == FOR {
        if place.nest >= DEEPEST {
            return Ok(false);
        }
        let block = Block {
            loops: place.loops,
            nest: place.nest,
        };
        return give_loop(block, owed);
    }
    if piece == IF {
        if place.nest >= DEEPEST {
            return Ok(false);
        }
        let block = Block {
            loops: place.loops,
            nest: place.nest,
        };
        return give_if(block, owed);
    }
    if piece == BARRIER {
        return give(owed, &[OPENS, Owed::Form(Form::Fence(place))]);
    }
    if piece == STORE_FOUR {
        return give_store_four(place, owed);
    }
    Ok(false)
}

/// Whether four cells of the array may be loaded and stored at once.
fn is_shared(array: Array) -> bool
    ensures { result ≡ is_shared (array_of array) }
{
    match array {
        Array::Private(_) => false,
        _ => true,
    }
}

impl<'a> Made<'a> {
    fn is_declared(&self, array: Array) -> bool
        ensures { result ≡ is_readable (counted (notes_of self.now)) (array_of array) }
    {
        match array {
            Array::Input(k) => k < self.inputs,
            Array::Output(k) => k < self.outputs,
            Array::Local(k) => (k as usize) < self.locals.len(),
            Array::Private(k) => (k as usize) < self.privates.len(),
        }
    }

    fn may_be_written(&self, array: Array) -> bool
        ensures { result ≡ is_writable (counted (notes_of self.now)) (array_of array) }
    {
        match array {
            Array::Input(_) => false,
            _ => self.is_declared(array),
        }
    }

    pub fn give_statement(
        &self,
        place: Place,
        piece: &'a [u8],
        owed: &mut Debts<'a>,
    ) -> Result<bool, AllocError>
        ensures { let n = notes_of self.now in
            let p = piece.entry.now in
            let row = statement_row n place.loops place.nest p (kind_of p) in
            Gave result owed.old.items owed.new.items row }
    {
        match Kind::of(piece) {
            Kind::Variable(k) => {
                if k >= self.variables {
                    return Ok(false);
                }
                let equals = Owed::Token(EQUALS);
                let source = Owed::Form(Form::Source(place, k));
                give(owed, &[SPACE, equals, SPACE, source])
            }
            Kind::Vector(k) => {
                if k >= self.vectors {
                    return Ok(false);
                }
                let equals = Owed::Token(EQUALS);
                let source = Owed::Form(Form::SourceOfFour(place, k));
                give(owed, &[SPACE, equals, SPACE, source])
            }
            Kind::Array(array) => {
                if !self.may_be_written(array) {
                    return Ok(false);
                }
                give_store(place, array, owed)
            }
            Kind::Other => give_word(place, piece, owed),
            _ => Ok(false),
        }
    }

    pub fn give_source(
        &self,
        place: Place,
        variable: u32,
        piece: &'a [u8],
        owed: &mut Debts<'a>,
    ) -> Result<bool, AllocError>
        ensures { let n = notes_of self.now in
            let p = piece.entry.now in
            let row = source_row n place.loops place.nest variable p (kind_of p) in
            Gave result owed.old.items owed.new.items row }
    {
        match Kind::of(piece) {
            Kind::Array(array) => {
                if !self.is_declared(array) {
                    return Ok(false);
                }
                give_load(place, variable, array, owed)
            }
            _ => {
                let next = Owed::Form(Form::Next(place));
                let assigned = Owed::Mark(Mark::Assign(variable));
                owe(owed, &[SEMICOLON, LINE, next, assigned])?;
                self.give_value(false, place.loops, 1, piece, owed)
            }
        }
    }

    pub fn give_source_of_four(
        &self,
        place: Place,
        variable: u32,
        piece: &'a [u8],
        owed: &mut Debts<'a>,
    ) -> Result<bool, AllocError>
        ensures { let n = notes_of self.now in
            let p = piece.entry.now in
            let row = source_of_four_row n place.loops place.nest variable p (kind_of p) in
            Gave result owed.old.items owed.new.items row }
    {
        if piece == LOAD_FOUR {
            return give_load_four(place, variable, owed);
        }
        let next = Owed::Form(Form::Next(place));
        let assigned = Owed::Mark(Mark::AssignFour(variable));
        owe(owed, &[SEMICOLON, LINE, next, assigned])?;
        self.give_lanes(place.loops, 1, piece, owed)
    }

    pub fn give_loaded_four(
        &self,
        place: Place,
        variable: u32,
        piece: &'a [u8],
        owed: &mut Debts<'a>,
    ) -> Result<bool, AllocError>
        ensures { let n = notes_of self.now in
            let p = piece.entry.now in
            let row = loaded_four_row n place.loops place.nest variable (kind_of p) in
            Gave result owed.old.items owed.new.items row }
    {
        match Kind::of(piece) {
            Kind::Array(array) => {
                if !is_shared(array) || !self.is_declared(array) {
                    return Ok(false);
                }
                give_stored(place, Mark::LoadFour(variable, array), owed)?;
                give(owed, &[CLOSES])
            }
            _ => Ok(false),
        }
    }

    pub fn give_stored_four(
        &self,
        place: Place,
        piece: &'a [u8],
        owed: &mut Debts<'a>,
    ) -> Result<bool, AllocError>
        ensures { let n = notes_of self.now in
            let p = piece.entry.now in
            let row = stored_four_row n place.loops place.nest (kind_of p) in
            Gave result owed.old.items owed.new.items row }
    {
        match Kind::of(piece) {
            Kind::Array(array) => {
                if !is_shared(array) || !self.may_be_written(array) {
                    return Ok(false);
                }
                give_stored(place, Mark::StoreFour(array), owed)?;
                give(owed, &[CLOSES])
            }
            _ => Ok(false),
        }
    }

    pub fn give_next(
        &self,
        place: Place,
        piece: &'a [u8],
        owed: &mut Debts<'a>,
    ) -> Result<bool, AllocError>
        ensures { let p = piece.entry.now in
            Gave result owed.old.items owed.new.items (next_row place.loops place.nest p) }
    {
        if is_indent(piece, place.nest as u64 + 1) {
            return give(owed, &[Owed::Form(Form::Statement(place))]);
        }
        let stop = Owed::Mark(Mark::Stop);
        if place.nest == 0 {
            if piece != CLOSE_BLOCK {
                return Ok(false);
            }
            return give(owed, &[LINE, stop]);
        }
        if !is_indent(piece, place.nest as u64) {
            return Ok(false);
        }
        give(owed, &[Owed::Token(CLOSE_BLOCK), LINE, stop])
    }

    pub fn give_fence(
        &self,
        place: Place,
        piece: &'a [u8],
        owed: &mut Debts<'a>,
    ) -> Result<bool, AllocError>
        ensures { let p = piece.entry.now in
            Gave result owed.old.items owed.new.items (fence_row place.loops place.nest p) }
    {
        if piece == LOCAL_FENCE {
            return give(owed, &[Owed::Form(Form::AfterLocal(place))]);
        }
        if piece == GLOBAL_FENCE {
            give_stored(place, Mark::Sync(false, true), owed)?;
            return give(owed, &[CLOSES]);
        }
        Ok(false)
    }

    pub fn give_after_local(
        &self,
        place: Place,
        piece: &'a [u8],
        owed: &mut Debts<'a>,
    ) -> Result<bool, AllocError>
        ensures { let p = piece.entry.now in
            Gave result owed.old.items owed.new.items (after_local_row place.loops place.nest p) }
    {
        if piece == CLOSE {
            return give_stored(place, Mark::Sync(true, false), owed);
        }
        if piece == BLANK {
            give_stored(place, Mark::Sync(true, true), owed)?;
            return give(owed, &[BAR, SPACE, Owed::Token(GLOBAL_FENCE), CLOSES]);
        }
        Ok(false)
    }
}
