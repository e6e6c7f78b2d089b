//! Alternatives of terms.

ghost use Rattle.std.specs.Prelude.{◌<◌, ◌∷◌, [], Some};
ghost use Rattle.readings.specs.Readings.{Form};
ghost use Rattle.readings.specs.Given.{Gave};
ghost use Rattle.lift_reader.specs.Forms.{items, division_form, nonterminal_of};
ghost use Rattle.lift_reader.specs.Grammar.{Divisor, backslash, behind_fold, behind_let, behind_map, comma, of_product, opens, term};
ghost use Rattle.lift_reader.specs.Meant.{form_of, grouping_form};
ghost use Rattle.lift_reader.specs.Rows.{compound, one_term, operator_row, product_row, special, two_terms};
ghost use Rattle.lift_reader.specs.Shown.{lexeme};

use crate::alternatives::{BACKSLASH, CLOSE, COMMA, DOT, EQUALS, OPEN, UNBIND, give};
use crate::grammar::{
    Action, Debts, Division, Double, Grouping, Nonterminal, Single, Triple, Window, binary_of,
    reducer_of, unary_of,
};
use crate::token::Kind;
use crate::word::Word;
use lift_tree::term::BinaryForm;
use readings::Owed;
use std::alloc::AllocError;

/// What follows the name that a `let` binds.
pub fn give_let<'a>(depth: u32, name: &'a [u8], owed: &mut Debts<'a>) -> Result<bool, AllocError>
    ensures { Gave items result owed.old.items owed.new.items (Some (behind_let depth name.now)) }
{
    let below = Owed::Form(Nonterminal::Term(depth));
    let word = Owed::Token(Kind::Word(Word::In));
    let bind = Owed::Mark(Action::Bind(name));
    let made = Owed::Mark(Action::Make2(Double::Let));
    give(owed, &[EQUALS, below, word, bind, below, UNBIND, made])
}

/// What follows the name that a `map` binds.
pub fn give_map<'a>(depth: u32, name: &'a [u8], owed: &mut Debts<'a>) -> Result<bool, AllocError>
    ensures { Gave items result owed.old.items owed.new.items (Some (behind_map depth name.now)) }
{
    let below = Owed::Form(Nonterminal::Term(depth));
    let bind = Owed::Mark(Action::Bind(name));
    let made = Owed::Mark(Action::Make2(Double::Map));
    give(owed, &[DOT, bind, below, UNBIND, COMMA, below, CLOSE, made])
}

/// What follows the two names that a `fold` binds.
pub fn give_fold<'a>(
    depth: u32,
    first: &'a [u8],
    second: &'a [u8],
    owed: &mut Debts<'a>,
) -> Result<bool, AllocError>
    ensures { Gave items result owed.old.items owed.new.items
        (Some (behind_fold depth first.now second.now)) }
{
    let below = Owed::Form(Nonterminal::Term(depth));
    let outer = Owed::Mark(Action::Bind(first));
    let inner = Owed::Mark(Action::Bind(second));
    let made = Owed::Mark(Action::Make3(Triple::Fold));
    give(
        owed,
        &[
            DOT, outer, inner, below, UNBIND, UNBIND, COMMA, below, COMMA, below, CLOSE, made,
        ],
    )
}

pub fn give_product_rest<'a>(
    grouping: Grouping,
    depth: u32,
    token: Kind<'a>,
    owed: &mut Debts<'a>,
) -> Result<bool, AllocError>
    ensures { Gave items result owed.old.items owed.new.items
        (product_row (grouping_form grouping) depth (lexeme token.entry)) }
{
    match token {
        Kind::Symbol(symbol) => {
            if symbol == b'*' {
                let factor = Owed::Form(Nonterminal::LengthFactor(1));
                let rest = Owed::Form(Nonterminal::ProductRest(grouping, depth));
                give(owed, &[factor, rest])
            } else if symbol == b',' {
                let array = Owed::Form(Nonterminal::Term(depth));
                let made = Owed::Mark(Action::MakeByProduct(grouping));
                give(owed, &[array, CLOSE, made])
            } else {
                Ok(false)
            }
        }
        _ => Ok(false),
    }
}

pub fn give_operator<'a>(
    depth: u32,
    token: Kind<'a>,
    owed: &mut Debts<'a>,
) -> Result<bool, AllocError>
    ensures { Gave items result owed.old.items owed.new.items
        (operator_row depth (lexeme token.entry)) }
{
    match token {
        Kind::Word(word) => match reducer_of(word) {
            Some(reducer) => {
                let below = Owed::Form(Nonterminal::Term(depth));
                let made = Owed::Mark(Action::Make2(Double::Reduce(reducer)));
                give(owed, &[COMMA, below, COMMA, below, CLOSE, made])
            }
            None => Ok(false),
        },
        _ => Ok(false),
    }
}

fn give_select(depth: u32, owed: &mut Debts<'_>) -> Result<bool, AllocError>
    requires { depth < 256 }
    ensures { Gave items result owed.old.items owed.new.items (special depth Word.Select) }
{
    let below = Owed::Form(Nonterminal::Term(depth + 1));
    let made = Owed::Mark(Action::Make3(Triple::Select));
    give(
        owed,
        &[OPEN, below, COMMA, below, COMMA, below, CLOSE, made],
    )
}

/// What follows the word of a form with a product.
fn give_product(grouping: Grouping, depth: u32, owed: &mut Debts<'_>) -> Result<bool, AllocError>
    requires { depth < 256 }
    ensures { Gave items result owed.old.items owed.new.items
        (Some (of_product (grouping_form grouping) depth)) }
{
    let product = Owed::Mark(Action::BeginProduct);
    let factor = Owed::Form(Nonterminal::LengthFactor(1));
    let rest = Owed::Form(Nonterminal::ProductRest(grouping, depth + 1));
    give(owed, &[OPEN, product, factor, rest])
}

// What follows the word of a division, or of its remainder.
fn give_division(division: Division, below: u32, owed: &mut Debts<'_>) -> Result<bool, AllocError>
    ensures { Gave items result owed.old.items owed.new.items
        (Some (opens ∷ term below ∷ comma ∷ Form (Divisor (division_form division)) ∷ [])) }
{
    let term = Owed::Form(Nonterminal::Term(below));
    let divisor = Owed::Form(Nonterminal::Divisor(division));
    give(owed, &[OPEN, term, COMMA, divisor])
}

// A form in parentheses that are opened here.
fn give_opened<'a>(form: Nonterminal<'a>, owed: &mut Debts<'a>) -> Result<bool, AllocError>
    ensures { Gave items result owed.old.items owed.new.items
        (Some (opens ∷ Form (nonterminal_of form.entry) ∷ [])) }
{
    give(owed, &[OPEN, Owed::Form(form)])
}

// The same, where a name is bound first.
fn give_binder<'a>(form: Nonterminal<'a>, owed: &mut Debts<'a>) -> Result<bool, AllocError>
    ensures { Gave items result owed.old.items owed.new.items
        (Some (opens ∷ backslash ∷ Form (nonterminal_of form.entry) ∷ [])) }
{
    give(owed, &[OPEN, BACKSLASH, Owed::Form(form)])
}

/// What follows a word that no term like another begins with.
fn give_special(depth: u32, word: Word, owed: &mut Debts<'_>) -> Result<bool, AllocError>
    requires { depth < 256 }
    ensures { Gave items result owed.old.items owed.new.items (special depth word) }
{
    let below = depth + 1;
    match word {
        Word::Div => give_division(Division::Div, below, owed),
        Word::Rem => give_division(Division::Rem, below, owed),
        Word::Select => give_select(depth, owed),
        Word::Let => give(owed, &[Owed::Form(Nonterminal::LetName(below))]),
        Word::Map => give_binder(Nonterminal::MapName(below), owed),
        Word::Reduce => give_opened(Nonterminal::ReduceOperator(below), owed),
        Word::Fold => give_binder(Nonterminal::FoldName(below), owed),
        Word::Split => give_product(Grouping::Split, depth, owed),
        Word::Stride => give_product(Grouping::Stride, depth, owed),
        Word::Slide => give_opened(Nonterminal::First(Window::Slide, below), owed),
        Word::Pad => give_opened(Nonterminal::First(Window::Pad, below), owed),
        _ => Ok(false),
    }
}

// What follows the word of a form with two terms.
fn give_two(depth: u32, form: BinaryForm, owed: &mut Debts<'_>) -> Result<bool, AllocError>
    requires { depth < 256 }
    ensures { Gave items result owed.old.items owed.new.items (Some (two_terms depth form)) }
{
    let below = Owed::Form(Nonterminal::Term(depth + 1));
    let made = Owed::Mark(Action::Make2(Double::Binary(form)));
    give(owed, &[OPEN, below, COMMA, below, CLOSE, made])
}

// What follows the word of a form with one term.
fn give_one(depth: u32, form: Single, owed: &mut Debts<'_>) -> Result<bool, AllocError>
    requires { depth < 256 }
    ensures { Gave items result owed.old.items owed.new.items
        (Some (one_term depth (form_of form))) }
{
    let below = Owed::Form(Nonterminal::Term(depth + 1));
    let made = Owed::Mark(Action::Make1(form));
    give(owed, &[OPEN, below, CLOSE, made])
}

/// What follows a word that begins a term.
pub fn give_compound(depth: u32, word: Word, owed: &mut Debts<'_>) -> Result<bool, AllocError>
    requires { depth < 256 }
    ensures { Gave items result owed.old.items owed.new.items (compound depth word) }
{
    if let Some(form) = binary_of(word) {
        return give_two(depth, form, owed);
    }
    if let Some(form) = unary_of(word) {
        return give_one(depth, form, owed);
    }
    give_special(depth, word, owed)
}
