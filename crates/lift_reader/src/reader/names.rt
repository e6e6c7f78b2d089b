//! What names mean where they stand.

ghost use Rattle.std.specs.Prelude.{◌≡◌, IfOk, position, bytes_eq};
ghost use Rattle.readings.specs.Given.{Gave};
ghost use Rattle.lift_reader.specs.Forms.{items, nonterminal_of};
ghost use Rattle.lift_reader.specs.Grammar.{size_named, input_named, binder_named, is_new};
ghost use Rattle.lift_reader.specs.Noted.{noted_by};
ghost use Rattle.lift_reader.specs.Rows.{name_row, size_row, term_row, variable_row};
ghost use Rattle.lift_reader.specs.Shown.{lexeme};

use crate::alternatives::{give, give_compound, give_fold, give_input, give_let, give_map};
use crate::grammar::{Action, Debts, Nonterminal};
use crate::reader::Reader;
use crate::token::Kind;
use lift_tree::length::Factor;
use readings::Owed;
use std::alloc::AllocError;
use std::collections::VecDeque;

/// The index as a term has it. More than 2^32 names don't fit into memory.
fn counted(index: usize) -> Result<u32, AllocError>
    ensures { IfOk result (λ n. n ≡ index) }
{
    match u32::try_from(index) {
        Ok(n) => Ok(n),
        Err(_) => Err(AllocError),
    }
}

fn place_of_binder(scope: &VecDeque<&[u8]>, name: &[u8]) -> Option<usize>
    ensures { result ≡ position (λ y. bytes_eq y.now name.now) scope.now.items }
{
    scope.iter().position(|binder| **binder == *name)
}

impl<'a> Reader<'a> {
    #[tactic(auto, using(crate::proofs::Named::size_is))]
    fn size_named(&self, name: &[u8]) -> Option<usize>
        ensures { result ≡ size_named (noted_by self.now) name.now }
    {
        self.sizes.get_index_of(name)
    }

    #[tactic(auto, using(crate::proofs::Named::input_is))]
    fn input_named(&self, name: &[u8]) -> Option<usize>
        ensures { result ≡ input_named (noted_by self.now) name.now }
    {
        self.inputs.get_index_of(name)
    }

    #[tactic(auto, using(crate::proofs::Named::binder_is))]
    fn binder_named(&self, name: &[u8]) -> Option<usize>
        ensures { result ≡ binder_named (noted_by self.now) name.now }
    {
        place_of_binder(&self.scope, name)
    }

    fn is_new(&self, name: &[u8]) -> bool
        ensures { result ≡ is_new (noted_by self.now) name.now }
    {
        self.size_named(name).is_none() && self.input_named(name).is_none()
    }

    fn give_variable(&self, name: &[u8], owed: &mut Debts<'a>) -> Result<bool, AllocError>
        ensures { Gave items result owed.old.items owed.new.items
            (variable_row (noted_by self.now) name.now) }
    {
        if let Some(index) = self.binder_named(name) {
            return give(owed, &[Owed::Mark(Action::Variable(counted(index)?))]);
        }
        if let Some(index) = self.input_named(name) {
            return give(owed, &[Owed::Mark(Action::Input(counted(index)?))]);
        }
        Ok(false)
    }

    pub fn give_term(
        &self,
        depth: u32,
        token: Kind<'a>,
        owed: &mut Debts<'a>,
    ) -> Result<bool, AllocError>
        ensures { Gave items result owed.old.items owed.new.items
            (term_row (noted_by self.now) depth (lexeme token.entry)) }
    {
        match token {
            Kind::Number(number) => give(owed, &[Owed::Mark(Action::Number(number))]),
            Kind::Name(name) => self.give_variable(name, owed),
            Kind::Word(word) => {
                if depth >= 256 {
                    return Ok(false);
                }
                give_compound(depth, word, owed)
            }
            _ => Ok(false),
        }
    }

    fn give_size(&self, name: &[u8], owed: &mut Debts<'a>) -> Result<bool, AllocError>
        ensures { Gave items result owed.old.items owed.new.items
            (size_row (noted_by self.now) name.now) }
    {
        match self.size_named(name) {
            Some(index) => {
                let size = Factor::Size(counted(index)?);
                give(owed, &[Owed::Mark(Action::Multiply(size))])
            }
            None => Ok(false),
        }
    }

    /// What a form gives way to that begins with a name of its own.
    pub fn give_name(
        &self,
        form: Nonterminal<'a>,
        name: &'a [u8],
        owed: &mut Debts<'a>,
    ) -> Result<bool, AllocError>
        ensures { Gave items result owed.old.items owed.new.items
            (name_row (noted_by self.now) (nonterminal_of form.entry) name.now) }
    {
        match form {
            Nonterminal::SizeName => {
                if !self.is_new(name) {
                    return Ok(false);
                }
                give(owed, &[Owed::Form(Nonterminal::SizeRange(name))])
            }
            Nonterminal::InputName => {
                if !self.is_new(name) {
                    return Ok(false);
                }
                give_input(name, owed)
            }
            Nonterminal::LetName(depth) => give_let(depth, name, owed),
            Nonterminal::MapName(depth) => give_map(depth, name, owed),
            Nonterminal::FoldName(depth) => {
                give(
                    owed,
                    &[Owed::Form(Nonterminal::FoldSecondName(depth, name))],
                )
            }
            Nonterminal::FoldSecondName(depth, first) => give_fold(depth, first, name, owed),
            Nonterminal::LengthFactor(_) => self.give_size(name, owed),
            _ => Ok(false),
        }
    }
}
