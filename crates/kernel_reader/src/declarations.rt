//! The declarations of a kernel's text: what their forms give way to.

ghost use Rattle.std.specs.Prelude.{◌≡◌, ◌<◌};
ghost use Rattle.kernel_tree.specs.KernelText as text;
ghost use Rattle.kernel_spelling.specs.Kinds.{kind_of};
ghost use Rattle.kernel_spelling.specs.Rows.{is_next, new_variable_row, new_vector_row, new_local_row, declared_row, length_row, vectors_row, variables_row, privates_row, locals_row, declaration_row};
ghost use Rattle.kernel_reader.specs.Views.{Gave, part_of};
ghost use Rattle.kernel_reader.specs.Noted.{notes_of};

use crate::form::{
    CLOSE_INDEX, Debts, Form, LINE, LOCAL, Mark, OPEN_INDEX, Place, SEMICOLON, SPACE, UINT, UINT4,
};
use crate::made::Made;
use crate::parameters::is_next;
use kernel_spelling::Kind;
use kernel_tree::tree::Array;
use readings::{Owed, give};
use std::alloc::AllocError;

/// Whether a new array has the next number.
fn is_next_array(k: u32, count: usize) -> bool
    ensures { result ≡ is_next k count }
{
    k as usize == count && k < u32::MAX
}

impl<'a> Made<'a> {
    fn give_local(&self, piece: &'a [u8], owed: &mut Debts<'a>) -> Result<bool, AllocError>
        ensures { let n = notes_of self.now in
            let p = piece.entry.now in
            Gave result owed.old.items owed.new.items (new_local_row n (kind_of p)) }
    {
        match Kind::of(piece) {
            Kind::Array(Array::Local(k)) => {
                if !is_next_array(k, self.locals.len()) {
                    return Ok(false);
                }
                give(owed, &[OPEN_INDEX, Owed::Form(Form::LocalLength)])
            }
            _ => Ok(false),
        }
    }

    fn give_variable(&self, piece: &'a [u8], owed: &mut Debts<'a>) -> Result<bool, AllocError>
        ensures { let n = notes_of self.now in
            let p = piece.entry.now in
            Gave result owed.old.items owed.new.items (new_variable_row n (kind_of p)) }
    {
        match Kind::of(piece) {
            Kind::Variable(k) => {
                if !is_next(k, self.variables) {
                    return Ok(false);
                }
                let declared = Owed::Mark(Mark::DeclareVariable(self.variables + 1));
                let indent = Owed::Form(Form::Indent(1));
                let variables = Owed::Form(Form::Variables);
                give(owed, &[declared, SEMICOLON, LINE, indent, variables])
            }
            _ => Ok(false),
        }
    }

    fn give_vector(&self, piece: &'a [u8], owed: &mut Debts<'a>) -> Result<bool, AllocError>
        ensures { let n = notes_of self.now in
            let p = piece.entry.now in
            Gave result owed.old.items owed.new.items (new_vector_row n (kind_of p)) }
    {
        match Kind::of(piece) {
            Kind::Vector(k) => {
                if !is_next(k, self.vectors) {
                    return Ok(false);
                }
                let declared = Owed::Mark(Mark::DeclareVector(self.vectors + 1));
                let indent = Owed::Form(Form::Indent(1));
                let vectors = Owed::Form(Form::Vectors);
                give(owed, &[declared, SEMICOLON, LINE, indent, vectors])
            }
            _ => Ok(false),
        }
    }

    fn give_declared(&self, piece: &'a [u8], owed: &mut Debts<'a>) -> Result<bool, AllocError>
        ensures { let n = notes_of self.now in
            let p = piece.entry.now in
            Gave result owed.old.items owed.new.items (declared_row n (kind_of p)) }
    {
        match Kind::of(piece) {
            Kind::Array(Array::Private(k)) => {
                if !is_next_array(k, self.privates.len()) {
                    return Ok(false);
                }
                give(owed, &[OPEN_INDEX, Owed::Form(Form::PrivateLength)])
            }
            _ => self.give_variable(piece, owed),
        }
    }

    fn give_local_length(&self, piece: &'a [u8], owed: &mut Debts<'a>) -> Result<bool, AllocError>
        ensures { let p = piece.entry.now in
            let row = length_row (λ v. text.DeclareLocal v) text.Locals (kind_of p) in
            Gave result owed.old.items owed.new.items row }
    {
        match Kind::of(piece) {
            Kind::Decimal(elements) => {
                if elements == 0 {
                    return Ok(false);
                }
                let declared = Owed::Mark(Mark::DeclareLocal(elements));
                let indent = Owed::Form(Form::Indent(1));
                let next = Owed::Form(Form::Locals);
                give(
                    owed,
                    &[declared, CLOSE_INDEX, SEMICOLON, LINE, indent, next],
                )
            }
            _ => Ok(false),
        }
    }

    fn give_private_length(&self, piece: &'a [u8], owed: &mut Debts<'a>) -> Result<bool, AllocError>
        ensures { let p = piece.entry.now in
            let row = length_row (λ v. text.DeclarePrivate v) text.Privates (kind_of p) in
            Gave result owed.old.items owed.new.items row }
    {
        match Kind::of(piece) {
            Kind::Decimal(elements) => {
                if elements == 0 {
                    return Ok(false);
                }
                let declared = Owed::Mark(Mark::DeclarePrivate(elements));
                let indent = Owed::Form(Form::Indent(1));
                let next = Owed::Form(Form::Privates);
                give(
                    owed,
                    &[declared, CLOSE_INDEX, SEMICOLON, LINE, indent, next],
                )
            }
            _ => Ok(false),
        }
    }

    fn give_vectors(&self, piece: &'a [u8], owed: &mut Debts<'a>) -> Result<bool, AllocError>
        ensures { let n = notes_of self.now in
            let p = piece.entry.now in
            Gave result owed.old.items owed.new.items (vectors_row n p) }
    {
        if piece == UINT4 {
            return give(owed, &[SPACE, Owed::Form(Form::NewVector)]);
        }
        self.give_statement(Place { loops: 0, nest: 0 }, piece, owed)
    }

    fn give_variables(&self, piece: &'a [u8], owed: &mut Debts<'a>) -> Result<bool, AllocError>
        ensures { let n = notes_of self.now in
            let p = piece.entry.now in
            Gave result owed.old.items owed.new.items (variables_row n p) }
    {
        if piece == UINT {
            return give(owed, &[SPACE, Owed::Form(Form::NewVariable)]);
        }
        self.give_vectors(piece, owed)
    }

    fn give_privates(&self, piece: &'a [u8], owed: &mut Debts<'a>) -> Result<bool, AllocError>
        ensures { let n = notes_of self.now in
            let p = piece.entry.now in
            Gave result owed.old.items owed.new.items (privates_row n p) }
    {
        if piece == UINT {
            return give(owed, &[SPACE, Owed::Form(Form::Declared)]);
        }
        self.give_vectors(piece, owed)
    }

    fn give_locals(&self, piece: &'a [u8], owed: &mut Debts<'a>) -> Result<bool, AllocError>
        ensures { let n = notes_of self.now in
            let p = piece.entry.now in
            Gave result owed.old.items owed.new.items (locals_row n p) }
    {
        if piece == LOCAL {
            let uint = Owed::Token(UINT);
            return give(owed, &[SPACE, uint, SPACE, Owed::Form(Form::NewLocal)]);
        }
        self.give_privates(piece, owed)
    }

    /// The alternatives of the forms before the statements.
    pub fn give_declaration(
        &self,
        form: Form,
        piece: &'a [u8],
        owed: &mut Debts<'a>,
    ) -> Result<bool, AllocError>
        ensures { let n = notes_of self.now in
            let p = piece.entry.now in
            Gave result owed.old.items owed.new.items (declaration_row n (part_of form) p) }
    {
        match form {
            Form::Locals => self.give_locals(piece, owed),
            Form::NewLocal => self.give_local(piece, owed),
            Form::LocalLength => self.give_local_length(piece, owed),
            Form::Privates => self.give_privates(piece, owed),
            Form::Declared => self.give_declared(piece, owed),
            Form::PrivateLength => self.give_private_length(piece, owed),
            Form::Variables => self.give_variables(piece, owed),
            Form::NewVariable => self.give_variable(piece, owed),
            Form::Vectors => self.give_vectors(piece, owed),
            Form::NewVector => self.give_vector(piece, owed),
            _ => self.give_head(form, piece, owed),
        }
    }
}
