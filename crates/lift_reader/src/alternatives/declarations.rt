//! Alternatives of sizes and inputs, and of what a number stands for.

ghost use Rattle.std.specs.Prelude.{◌≡◌, Some};
ghost use Rattle.readings.specs.Given.{Gave};
ghost use Rattle.lift_reader.specs.Forms.{items, division_form, window_form, window_least};
ghost use Rattle.lift_reader.specs.Grammar as grammar;
ghost use Rattle.lift_reader.specs.Grammar.{divides, behind_input};
ghost use Rattle.lift_reader.specs.Forms.{nonterminal_of};
ghost use Rattle.lift_reader.specs.Rows.{sizes_row, inputs_row, range_row, number_row};
ghost use Rattle.lift_reader.specs.Shown.{lexeme};

use crate::alternatives::{CLOSE, COLON, COMMA, SEMICOLON, give};
use crate::grammar::{Action, Debts, Division, Nonterminal, Window};
use crate::token::Kind;
use crate::word::Word;
use lift_tree::length::Factor;
use readings::Owed;
use std::alloc::AllocError;

pub fn give_sizes<'a>(token: Kind<'a>, owed: &mut Debts<'a>) -> Result<bool, AllocError>
    ensures { Gave items result owed.old.items owed.new.items (sizes_row (lexeme token.entry)) }
{
    match token {
        Kind::Word(Word::Size) => give(owed, &[Owed::Form(Nonterminal::SizeName)]),
        Kind::Word(Word::Input) => give(owed, &[Owed::Form(Nonterminal::InputName)]),
        Kind::Word(Word::Output) => give(owed, &[Owed::Form(Nonterminal::Term(1))]),
        _ => Ok(false),
    }
}

pub fn give_inputs<'a>(token: Kind<'a>, owed: &mut Debts<'a>) -> Result<bool, AllocError>
    ensures { Gave items result owed.old.items owed.new.items (inputs_row (lexeme token.entry)) }
{
    match token {
        Kind::Word(Word::Input) => give(owed, &[Owed::Form(Nonterminal::InputName)]),
        Kind::Word(Word::Output) => give(owed, &[Owed::Form(Nonterminal::Term(1))]),
        _ => Ok(false),
    }
}

pub fn give_range<'a>(
    name: &'a [u8],
    token: Kind<'a>,
    owed: &mut Debts<'a>,
) -> Result<bool, AllocError>
    ensures { Gave items result owed.old.items owed.new.items
        (range_row name.now (lexeme token.entry)) }
{
    match token {
        Kind::Word(Word::Multiple) => give(owed, &[Owed::Form(Nonterminal::Multiple(name))]),
        Kind::Word(Word::From) => give(owed, &[Owed::Form(Nonterminal::From(name, 1))]),
        _ => Ok(false),
    }
}

/// What follows the name of an input.
pub fn give_input<'a>(name: &'a [u8], owed: &mut Debts<'a>) -> Result<bool, AllocError>
    ensures { Gave items result owed.old.items owed.new.items (Some (behind_input name.now)) }
{
    let array = Owed::Form(Nonterminal::ArrayType(1));
    let declared = Owed::Mark(Action::DeclareInput(name));
    let next = Owed::Form(Nonterminal::Inputs);
    give(owed, &[COLON, array, SEMICOLON, declared, next])
}

fn divides(divisor: u32, number: u32) -> bool
    ensures { result ≡ divides divisor number }
{
    divisor > 0 && number % divisor == 0
}

fn give_multiple<'a>(name: &'a [u8], number: u32, owed: &mut Debts<'a>) -> Result<bool, AllocError>
    ensures { Gave items result owed.old.items owed.new.items
        (number_row (grammar.Multiple name.now) number) }
{
    if number < 1 || number > 1048576 {
        return Ok(false);
    }
    let from = Owed::Token(Kind::Word(Word::From));
    give(owed, &[from, Owed::Form(Nonterminal::From(name, number))])
}

fn give_from<'a>(
    name: &'a [u8],
    multiple: u32,
    number: u32,
    owed: &mut Debts<'a>,
) -> Result<bool, AllocError>
    ensures { Gave items result owed.old.items owed.new.items
        (number_row (grammar.From name.now multiple) number) }
{
    if number < 1 || !divides(multiple, number) {
        return Ok(false);
    }
    let to = Owed::Token(Kind::Word(Word::To));
    let most = Owed::Form(Nonterminal::To(name, multiple, number));
    give(owed, &[to, most])
}

fn give_to<'a>(
    name: &'a [u8],
    multiple: u32,
    least: u32,
    number: u32,
    owed: &mut Debts<'a>,
) -> Result<bool, AllocError>
    ensures { Gave items result owed.old.items owed.new.items
        (number_row (grammar.To name.now multiple least) number) }
{
    if number < least || number > 1048576 || !divides(multiple, number) {
        return Ok(false);
    }
    let size = Owed::Mark(Action::DeclareSize(name, multiple, least, number));
    give(owed, &[SEMICOLON, size, Owed::Form(Nonterminal::Sizes)])
}

fn give_factor(least: u32, number: u32, owed: &mut Debts<'_>) -> Result<bool, AllocError>
    ensures { Gave items result owed.old.items owed.new.items
        (number_row (grammar.LengthFactor least) number) }
{
    if number < least {
        return Ok(false);
    }
    give(
        owed,
        &[Owed::Mark(Action::Multiply(Factor::Number(number)))],
    )
}

fn give_divisor(division: Division, number: u32, owed: &mut Debts<'_>) -> Result<bool, AllocError>
    ensures { Gave items result owed.old.items owed.new.items
        (number_row (grammar.Divisor (division_form division)) number) }
{
    if number < 1 {
        return Ok(false);
    }
    give(
        owed,
        &[CLOSE, Owed::Mark(Action::Make1(division.by(number)))],
    )
}

fn give_first(
    window: Window,
    depth: u32,
    number: u32,
    owed: &mut Debts<'_>,
) -> Result<bool, AllocError>
    ensures { Gave items result owed.old.items owed.new.items
        (number_row (grammar.First (window_least window) (window_form window) depth) number) }
{
    if number < window.least() {
        return Ok(false);
    }
    let second = Owed::Form(Nonterminal::Second(window, number, depth));
    give(owed, &[COMMA, second])
}

fn give_second(
    window: Window,
    first: u32,
    depth: u32,
    number: u32,
    owed: &mut Debts<'_>,
) -> Result<bool, AllocError>
    ensures { Gave items result owed.old.items owed.new.items
        (number_row
        (grammar.Second (window_least window) (window_form window first) depth) number) }
{
    if number < window.least() {
        return Ok(false);
    }
    let below = Owed::Form(Nonterminal::Term(depth));
    let made = Owed::Mark(Action::Make1(window.of(first, number)));
    give(owed, &[COMMA, below, CLOSE, made])
}

pub fn give_number<'a>(
    form: Nonterminal<'a>,
    number: u32,
    owed: &mut Debts<'a>,
) -> Result<bool, AllocError>
    ensures { Gave items result owed.old.items owed.new.items
        (number_row (nonterminal_of form.entry) number) }
{
    match form {
        Nonterminal::Multiple(name) => give_multiple(name, number, owed),
        Nonterminal::From(name, multiple) => give_from(name, multiple, number, owed),
        Nonterminal::To(name, multiple, least) => give_to(name, multiple, least, number, owed),
        Nonterminal::LengthFactor(least) => give_factor(least, number, owed),
        Nonterminal::Divisor(division) => give_divisor(division, number, owed),
        Nonterminal::First(window, depth) => give_first(window, depth, number, owed),
        Nonterminal::Second(window, first, depth) => {
            give_second(window, first, depth, number, owed)
        }
        _ => Ok(false),
    }
}
