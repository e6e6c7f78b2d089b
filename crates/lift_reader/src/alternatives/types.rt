//! Alternatives of types, and of the lengths in them.

ghost use Rattle.std.specs.Prelude.{◌≤◌, Some};
ghost use Rattle.readings.specs.Given.{Gave};
ghost use Rattle.lift_reader.specs.Forms.{items};
ghost use Rattle.lift_reader.specs.Grammar.{array, pair, part};
ghost use Rattle.lift_reader.specs.Rows.{array_row, element_row, rest_row, type_row};
ghost use Rattle.lift_reader.specs.Shown.{lexeme};

use crate::alternatives::{CLOSE, COMMA, SEMICOLON, give};
use crate::grammar::{Action, Debts, Nonterminal};
use crate::token::Kind;
use crate::word::Word;
use lift_tree::length::Sign;
use readings::Owed;
use std::alloc::AllocError;

fn give_pair(depth: u32, owed: &mut Debts<'_>) -> Result<bool, AllocError>
    requires { depth ≤ 64 }
    ensures { Gave items result owed.old.items owed.new.items (Some (pair depth)) }
{
    let element = Owed::Form(Nonterminal::ElementType(depth + 1));
    give(
        owed,
        &[element, COMMA, element, CLOSE, Owed::Mark(Action::PairType)],
    )
}

fn give_array_type(depth: u32, owed: &mut Debts<'_>) -> Result<bool, AllocError>
    requires { depth ≤ 64 }
    ensures { Gave items result owed.old.items owed.new.items (Some (array depth)) }
{
    let element = Owed::Form(Nonterminal::AnyType(depth + 1));
    let product = Owed::Mark(Action::BeginProduct);
    let factor = Owed::Form(Nonterminal::LengthFactor(0));
    let rest = Owed::Form(Nonterminal::LengthRest(Sign::Plus));
    give(owed, &[element, SEMICOLON, product, factor, rest])
}

pub fn give_element<'a>(
    depth: u32,
    token: Kind<'a>,
    owed: &mut Debts<'a>,
) -> Result<bool, AllocError>
    ensures { Gave items result owed.old.items owed.new.items
        (element_row depth (lexeme token.entry)) }
{
    match token {
        Kind::Word(Word::U32) => give(owed, &[Owed::Mark(Action::NumberType)]),
        Kind::Symbol(symbol) => {
            if symbol == b'(' && depth <= 64 {
                give_pair(depth, owed)
            } else {
                Ok(false)
            }
        }
        _ => Ok(false),
    }
}

pub fn give_array<'a>(depth: u32, token: Kind<'a>, owed: &mut Debts<'a>) -> Result<bool, AllocError>
    ensures { Gave items result owed.old.items owed.new.items
        (array_row depth (lexeme token.entry)) }
{
    match token {
        Kind::Symbol(symbol) => {
            if symbol == b'[' && depth <= 64 {
                give_array_type(depth, owed)
            } else {
                Ok(false)
            }
        }
        _ => Ok(false),
    }
}

pub fn give_type<'a>(depth: u32, token: Kind<'a>, owed: &mut Debts<'a>) -> Result<bool, AllocError>
    ensures { Gave items result owed.old.items owed.new.items
        (type_row depth (lexeme token.entry)) }
{
    match token {
        Kind::Word(Word::U32) => give(owed, &[Owed::Mark(Action::NumberType)]),
        Kind::Symbol(symbol) => {
            if depth > 64 {
                Ok(false)
            } else if symbol == b'[' {
                give_array_type(depth, owed)
            } else if symbol == b'(' {
                give_pair(depth, owed)
            } else {
                Ok(false)
            }
        }
        _ => Ok(false),
    }
}

fn give_part(done: Sign, next: Sign, owed: &mut Debts<'_>) -> Result<bool, AllocError>
    ensures { Gave items result owed.old.items owed.new.items (Some (part done next)) }
{
    let part = Owed::Mark(Action::EndPart(done));
    let product = Owed::Mark(Action::BeginProduct);
    let factor = Owed::Form(Nonterminal::LengthFactor(0));
    give(
        owed,
        &[
            part,
            product,
            factor,
            Owed::Form(Nonterminal::LengthRest(next)),
        ],
    )
}

pub fn give_length_rest<'a>(
    sign: Sign,
    token: Kind<'a>,
    owed: &mut Debts<'a>,
) -> Result<bool, AllocError>
    ensures { Gave items result owed.old.items owed.new.items
        (rest_row sign (lexeme token.entry)) }
{
    match token {
        Kind::Symbol(symbol) => {
            if symbol == b'*' {
                let factor = Owed::Form(Nonterminal::LengthFactor(0));
                give(owed, &[factor, Owed::Form(Nonterminal::LengthRest(sign))])
            } else if symbol == b'+' {
                give_part(sign, Sign::Plus, owed)
            } else if symbol == b'-' {
                give_part(sign, Sign::Minus, owed)
            } else if symbol == b']' {
                let part = Owed::Mark(Action::EndPart(sign));
                give(owed, &[part, Owed::Mark(Action::ArrayOf)])
            } else {
                Ok(false)
            }
        }
        _ => Ok(false),
    }
}
