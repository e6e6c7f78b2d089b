//! What a reading of a program has noted.

ghost use Rattle.std.specs.Prelude.{◌≡◌, IfOk, map, option_map};
ghost use Rattle.lift_tree.specs.Programs.{program_of};
ghost use Rattle.lift_reader.specs.Decided.{decided};
ghost use Rattle.lift_reader.specs.Forms.{nonterminal_of, action_of};
ghost use Rattle.lift_reader.specs.Grammar as grammar;
ghost use Rattle.lift_reader.specs.Grammar.{Noted, programs};
ghost use Rattle.lift_reader.specs.Noted.{noted_by, declared_size, declared_input};
ghost use Rattle.lift_reader.specs.ProgramText.{program_noted};
ghost use Rattle.lift_reader.specs.Rows.{same, table};
ghost use Rattle.lift_reader.specs.Shown.{lexeme};
ghost use Rattle.lift_reader.specs.Tokens.{Lexeme};

mod marks;
mod names;

use crate::alternatives::{
    give_array, give_element, give_inputs, give_length_rest, give_number, give_operator,
    give_product_rest, give_range, give_sizes, give_type,
};
use crate::grammar::{Action, Debts, Nonterminal};
use crate::token::Kind;
use indexmap::IndexMap;
use lift_tree::input_type::InputType;
use lift_tree::length::{Part, Product};
use lift_tree::program::{Identifier, Input, Program, Size};
use lift_tree::term::Term;
use readings::Notes;
use std::alloc::{AllocError, Global};
use std::collections::VecDeque;

/// What a size ranges over: the multiples of `multiple` from `from` to `to`.
#[derive(Drop)]
pub struct Range {
    pub multiple: u32,
    pub from: u32,
    pub to: u32,
}

/// The sizes and inputs declared so far by their names, in order; the binders in scope, the nearest
/// first; the types, products and terms made so far, the last first; and the parts of a length so
/// far.
#[derive(Drop)]
pub struct Reader<'a> {
    sizes: IndexMap<Vec<u8>, Range>,
    inputs: IndexMap<Vec<u8>, InputType>,
    scope: VecDeque<&'a [u8]>,
    types: VecDeque<InputType>,
    products: VecDeque<Product>,
    parts: Vec<Part>,
    made: VecDeque<Term>,
}

fn sizes_of(alloc: Global, sizes: IndexMap<Vec<u8>, Range>) -> Result<Vec<Size>, AllocError>
    ensures { IfOk result (λ v. v.items ≡ map declared_size sizes.entries) }
{
    sizes
        .into_iter()
        .map(|(name, range)| Size {
            name: Identifier::new(name),
            multiple: range.multiple,
            from: range.from,
            to: range.to,
        })
        .collect(alloc)
}

fn inputs_of(alloc: Global, inputs: IndexMap<Vec<u8>, InputType>) -> Result<Vec<Input>, AllocError>
    ensures { IfOk result (λ v. v.items ≡ map declared_input inputs.entries) }
{
    inputs
        .into_iter()
        .map(|(name, ty)| Input {
            name: Identifier::new(name),
            ty,
        })
        .collect(alloc)
}

fn is_same(a: Kind, b: Kind) -> bool
    ensures { result ≡ same (lexeme a.entry) (lexeme b.entry) }
{
    match (a, b) {
        (Kind::Word(a), Kind::Word(b)) => *a.spelling() == *b.spelling(),
        (Kind::Name(a), Kind::Name(b)) => *a == *b,
        (Kind::Number(a), Kind::Number(b)) => a == b,
        (Kind::Symbol(a), Kind::Symbol(b)) => a == b,
        (Kind::Wrong, Kind::Wrong) => true,
        _ => false,
    }
}

impl<'a> Reader<'a> {
    pub fn new(alloc: Global) -> Self
        ensures { noted_by result ≡ grammar.nothing }
    {
        Reader {
            sizes: IndexMap::new(alloc),
            inputs: IndexMap::new(alloc),
            scope: VecDeque::new(alloc),
            types: VecDeque::new(alloc),
            products: VecDeque::new(alloc),
            parts: Vec::new(alloc),
            made: VecDeque::new(alloc),
        }
    }

    /// The program that was noted.
    pub fn into_program(self, alloc: Global) -> Result<Option<Program>, AllocError>
        ensures { IfOk result (λ p.
            option_map program_of p ≡ program_noted (noted_by self.entry)) }
    {
        let Reader {
            sizes,
            inputs,
            scope: _,
            types: _,
            products: _,
            parts: _,
            mut made,
        } = self;
        match made.pop_front() {
            Some(body) => Ok(Some(Program {
                sizes: sizes_of(alloc, sizes)?,
                inputs: inputs_of(alloc, inputs)?,
                body,
            })),
            None => Ok(None),
        }
    }
}

impl<'a> Notes for Reader<'a> {
    type Token = Kind<'a>;

    type Form = Nonterminal<'a>;

    type Mark = Action<'a>;

    ghost PlainToken = { Lexeme };

    ghost PlainForm = { grammar.Nonterminal };

    ghost PlainMark = { grammar.Action };

    ghost PlainNotes = { Noted };

    ghost token_of = { lexeme };

    ghost form_of = { nonterminal_of };

    ghost mark_of = { action_of };

    ghost notes_of = { noted_by };

    ghost grammar = { programs };

    ghost table = { table };

    fn is_same(a: Kind<'a>, b: Kind<'a>) -> bool {
        is_same(a, b)
    }

    fn give(
        &self,
        form: Nonterminal<'a>,
        token: Kind<'a>,
        owed: &mut Debts<'a>,
    ) -> Result<bool, AllocError> {
        match form {
            Nonterminal::Sizes => give_sizes(token, owed),
            Nonterminal::Inputs => give_inputs(token, owed),
            Nonterminal::SizeRange(name) => give_range(name, token, owed),
            Nonterminal::ArrayType(depth) => give_array(depth, token, owed),
            Nonterminal::ElementType(depth) => give_element(depth, token, owed),
            Nonterminal::AnyType(depth) => give_type(depth, token, owed),
            Nonterminal::LengthRest(sign) => give_length_rest(sign, token, owed),
            Nonterminal::ProductRest(grouping, depth) => {
                give_product_rest(grouping, depth, token, owed)
            },
            Nonterminal::Term(depth) => self.give_term(depth, token, owed),
            Nonterminal::ReduceOperator(depth) => give_operator(depth, token, owed),
            _ => match token {
                Kind::Name(name) => self.give_name(form, name, owed),
                Kind::Number(number) => give_number(form, number, owed),
                _ => Ok(false),
            },
        }
    }

    fn mark(&mut self, alloc: Global, mark: Action<'a>) -> Result<bool, AllocError> {
        match mark {
            Action::DeclareSize(name, multiple, from, to) => {
                self.declare_size(alloc, name, multiple, from, to)
            }
            Action::DeclareInput(name) => self.declare_input(alloc, name),
            Action::NumberType => self.number_type(),
            Action::PairType => self.pair_types(alloc),
            Action::ArrayOf => self.array_of(alloc),
            Action::BeginProduct => self.begin_product(alloc),
            Action::Multiply(factor) => self.multiply(factor),
            Action::EndPart(sign) => self.end_part(sign),
            Action::Number(number) => self.leaf(Term::Number(number)),
            Action::Variable(index) => self.leaf(Term::Variable(index)),
            Action::Input(index) => self.leaf(Term::Input(index)),
            Action::Bind(name) => self.bind(name),
            Action::Unbind => Ok(self.scope.pop_front().is_some()),
            Action::Make1(form) => self.make1(alloc, form),
            Action::Make2(form) => self.make2(alloc, form),
            Action::Make3(form) => self.make3(alloc, form),
            Action::MakeByProduct(grouping) => self.make_by_product(alloc, grouping),
            Action::Finish => Ok(self.made.len() == 1),
        }
    }

    ghost decides = { decided };
}
