//! The size of a kernel's groups and its parameters: what their forms give way to.

ghost use Rattle.std.specs.Prelude.{◌≡◌, ◌+◌, ◌<◌, ◌^◌, true, Some};
ghost use Rattle.kernel_tree.specs.KernelText as text;
ghost use Rattle.kernel_spelling.specs.Kinds.{kind_of};
ghost use Rattle.kernel_spelling.specs.Rows.{row, head_row, launching_row, width_row, fixing, height_row, is_next, new_input_row, new_output_row, new_size_row};
ghost use Rattle.kernel_reader.specs.Views.{Gave, part_of};
ghost use Rattle.kernel_reader.specs.Noted.{notes_of};

use crate::form::{
    ATTRIBUTE, CLOSE, CLOSES, COMMA, CONST, Debts, Form, GLOBAL, GROUP_SIZE, LARGEST_GROUP, Mark,
    ONE_LAYER, OPENS, SPACE, STAR, UINT, VOID,
};
use crate::made::Made;
use kernel_spelling::Kind;
use kernel_tree::tree::Array;
use readings::{Owed, give, owe};
use std::alloc::AllocError;

/// Whether a new name has the next number.
pub fn is_next(k: u32, count: u32) -> bool
    ensures is { result ≡ is_next k count }
    ensures fits { result ≡ true → count + 1 < 2 ^ 32 }
{
    k == count && count < u32::MAX
}

fn give_launching<'a>(piece: &'a [u8], owed: &mut Debts<'a>) -> Result<bool, AllocError>
    ensures { let p = piece.entry.now in
        Gave result owed.old.items owed.new.items (launching_row p) }
{
    if piece == VOID {
        return Ok(true);
    }
    if piece == ATTRIBUTE {
        let width = Owed::Form(Form::GroupWidth);
        return give(owed, &[OPENS, OPENS, GROUP_SIZE, OPENS, width]);
    }
    Ok(false)
}

fn give_width<'a>(piece: &'a [u8], owed: &mut Debts<'a>) -> Result<bool, AllocError>
    ensures { let p = piece.entry.now in
        Gave result owed.old.items owed.new.items (width_row (kind_of p)) }
{
    match Kind::of(piece) {
        Kind::Decimal(width) => {
            if width == 0 || width > LARGEST_GROUP {
                return Ok(false);
            }
            let comma = Owed::Token(COMMA);
            give(owed, &[comma, SPACE, Owed::Form(Form::GroupHeight(width))])
        }
        _ => Ok(false),
    }
}

/// Gives what stands behind the second number of a size.
fn give_size_end<'a>(width: u32, height: u32, owed: &mut Debts<'a>) -> Result<bool, AllocError>
    ensures { Gave result owed.old.items owed.new.items (Some (fixing width height)) }
{
    let fixed = Owed::Mark(Mark::FixLocal(width, height));
    let comma = Owed::Token(COMMA);
    let void = Owed::Token(VOID);
    owe(owed, &[CLOSES, CLOSES, CLOSES, SPACE, void])?;
    give(owed, &[fixed, comma, SPACE, ONE_LAYER])
}

fn give_height<'a>(width: u32, piece: &'a [u8], owed: &mut Debts<'a>) -> Result<bool, AllocError>
    ensures { let p = piece.entry.now in
        Gave result owed.old.items owed.new.items (height_row width (kind_of p)) }
{
    match Kind::of(piece) {
        Kind::Decimal(height) => {
            let items = width as u64 * height as u64;
            if height == 0 || items > LARGEST_GROUP as u64 {
                return Ok(false);
            }
            give_size_end(width, height, owed)
        }
        _ => Ok(false),
    }
}

impl<'a> Made<'a> {
    fn give_input(&self, piece: &'a [u8], owed: &mut Debts<'a>) -> Result<bool, AllocError>
        ensures { let n = notes_of self.now in
            let p = piece.entry.now in
            Gave result owed.old.items owed.new.items (new_input_row n (kind_of p)) }
    {
        match Kind::of(piece) {
            Kind::Array(Array::Input(k)) => {
                if !is_next(k, self.inputs) {
                    return Ok(false);
                }
                let declared = Owed::Mark(Mark::DeclareInput(self.inputs + 1));
                let comma = Owed::Token(COMMA);
                give(owed, &[declared, comma, SPACE, Owed::Form(Form::Parameter)])
            }
            _ => Ok(false),
        }
    }

    fn give_output(&self, piece: &'a [u8], owed: &mut Debts<'a>) -> Result<bool, AllocError>
        ensures { let n = notes_of self.now in
            let p = piece.entry.now in
            Gave result owed.old.items owed.new.items (new_output_row n (kind_of p)) }
    {
        match Kind::of(piece) {
            Kind::Array(Array::Output(k)) => {
                if !is_next(k, self.outputs) {
                    return Ok(false);
                }
                let declared = Owed::Mark(Mark::DeclareOutput(self.outputs + 1));
                give(owed, &[declared, Owed::Form(Form::AfterOutput)])
            }
            _ => Ok(false),
        }
    }

    fn give_size(&self, piece: &'a [u8], owed: &mut Debts<'a>) -> Result<bool, AllocError>
        ensures { let n = notes_of self.now in
            let p = piece.entry.now in
            Gave result owed.old.items owed.new.items (new_size_row n (kind_of p)) }
    {
        match Kind::of(piece) {
            Kind::Size(k) => {
                if !is_next(k, self.sizes) {
                    return Ok(false);
                }
                let declared = Owed::Mark(Mark::DeclareSize(self.sizes + 1));
                give(owed, &[declared, Owed::Form(Form::AfterSize)])
            }
            _ => Ok(false),
        }
    }

    fn give_parameter(&self, piece: &'a [u8], owed: &mut Debts<'a>) -> Result<bool, AllocError>
        ensures { let n = notes_of self.now in
            let p = piece.entry.now in
            Gave result owed.old.items owed.new.items (row n text.Parameter p) }
    {
        if piece == GLOBAL {
            return give(owed, &[SPACE, Owed::Form(Form::Pointer)]);
        }
        Ok(false)
    }

    fn give_pointer(&self, piece: &'a [u8], owed: &mut Debts<'a>) -> Result<bool, AllocError>
        ensures { let n = notes_of self.now in
            let p = piece.entry.now in
            Gave result owed.old.items owed.new.items (row n text.Pointer p) }
    {
        if piece == CONST {
            let uint = Owed::Token(UINT);
            return give(
                owed,
                &[SPACE, uint, SPACE, STAR, Owed::Form(Form::NewInput)],
            );
        }
        if piece == UINT {
            return give(owed, &[SPACE, STAR, Owed::Form(Form::NewOutput)]);
        }
        Ok(false)
    }

    fn give_after_output(&self, piece: &'a [u8], owed: &mut Debts<'a>) -> Result<bool, AllocError>
        ensures { let n = notes_of self.now in
            let p = piece.entry.now in
            Gave result owed.old.items owed.new.items (row n text.AfterOutput p) }
    {
        if piece == CLOSE {
            return Ok(true);
        }
        if piece == COMMA {
            return give(owed, &[SPACE, Owed::Form(Form::OutputOrSize)]);
        }
        Ok(false)
    }

    fn give_output_or_size(&self, piece: &'a [u8], owed: &mut Debts<'a>) -> Result<bool, AllocError>
        ensures { let n = notes_of self.now in
            let p = piece.entry.now in
            Gave result owed.old.items owed.new.items (row n text.OutputOrSize p) }
    {
        let uint = Owed::Token(UINT);
        if piece == GLOBAL {
            return give(
                owed,
                &[SPACE, uint, SPACE, STAR, Owed::Form(Form::NewOutput)],
            );
        }
        if piece == CONST {
            return give(owed, &[SPACE, uint, SPACE, Owed::Form(Form::NewSize)]);
        }
        Ok(false)
    }

    fn give_after_size(&self, piece: &'a [u8], owed: &mut Debts<'a>) -> Result<bool, AllocError>
        ensures { let n = notes_of self.now in
            let p = piece.entry.now in
            Gave result owed.old.items owed.new.items (row n text.AfterSize p) }
    {
        if piece == CLOSE {
            return Ok(true);
        }
        if piece == COMMA {
            let size = Owed::Form(Form::NewSize);
            return give(
                owed,
                &[
                    SPACE,
                    Owed::Token(CONST),
                    SPACE,
                    Owed::Token(UINT),
                    SPACE,
                    size,
                ],
            );
        }
        Ok(false)
    }

    /// The alternatives of the forms before the body.
    pub fn give_head(
        &self,
        form: Form,
        piece: &'a [u8],
        owed: &mut Debts<'a>,
    ) -> Result<bool, AllocError>
        ensures { let n = notes_of self.now in
            let p = piece.entry.now in
            Gave result owed.old.items owed.new.items (head_row n (part_of form) p) }
    {
        match form {
            Form::Launching => give_launching(piece, owed),
            Form::GroupWidth => give_width(piece, owed),
            Form::GroupHeight(width) => give_height(width, piece, owed),
            Form::Parameter => self.give_parameter(piece, owed),
            Form::Pointer => self.give_pointer(piece, owed),
            Form::NewInput => self.give_input(piece, owed),
            Form::NewOutput => self.give_output(piece, owed),
            Form::AfterOutput => self.give_after_output(piece, owed),
            Form::OutputOrSize => self.give_output_or_size(piece, owed),
            Form::NewSize => self.give_size(piece, owed),
            Form::AfterSize => self.give_after_size(piece, owed),
            _ => Ok(false),
        }
    }
}
