//! The forms and marks of the grammar of programs, as the reader owes them.

ghost use Rattle.std.specs.Prelude.{◌≡◌, option_map};
ghost use Rattle.lift_reader.specs.Meant.{reducer_of, binary_of, unary_of, form_of, grouping_form};
ghost use Rattle.lift_reader.specs.Forms.{division_form, window_form, window_least};

use crate::token::Kind;
use crate::word::Word;
use lift_tree::layout::Layout;
use lift_tree::length::{Factor, Product, Sign};
use lift_tree::term::{BinaryForm, Operator, UnaryForm};
use readings::Owed;
use scalar_ops::op::Reducer;
use std::collections::VecDeque;

/// What is owed: tokens, forms and marks.
pub type Debt<'a> = Owed<Kind<'a>, Nonterminal<'a>, Action<'a>>;

pub type Debts<'a> = VecDeque<Debt<'a>>;

/// A form of the grammar. Depths count the open types and terms.
#[derive(Clone, Copy)]
pub enum Nonterminal<'a> {
    Sizes,
    Inputs,
    SizeName,
    SizeRange(&'a [u8]),
    Multiple(&'a [u8]),
    /// The name and the multiple.
    From(&'a [u8], u32),
    /// The name, the multiple and the least value.
    To(&'a [u8], u32, u32),
    InputName,
    ArrayType(u32),
    ElementType(u32),
    AnyType(u32),
    /// A factor that, where it is a number, is at least this.
    LengthFactor(u32),
    LengthRest(Sign),
    Term(u32),
    Divisor(Division),
    First(Window, u32),
    Second(Window, u32, u32),
    LetName(u32),
    MapName(u32),
    FoldName(u32),
    FoldSecondName(u32, &'a [u8]),
    ReduceOperator(u32),
    ProductRest(Grouping, u32),
}

/// What a mark does with the notes.
#[derive(Clone, Copy)]
pub enum Action<'a> {
    /// The name, the multiple, and the least and greatest values.
    DeclareSize(&'a [u8], u32, u32, u32),
    DeclareInput(&'a [u8]),
    NumberType,
    PairType,
    ArrayOf,
    BeginProduct,
    Multiply(Factor),
    EndPart(Sign),
    Number(u32),
    Variable(u32),
    Input(u32),
    Bind(&'a [u8]),
    Unbind,
    Make1(Single),
    Make2(Double),
    Make3(Triple),
    /// Of the last product and the last term.
    MakeByProduct(Grouping),
    Finish,
}

/// A form with one child and with numbers.
#[derive(Clone, Copy)]
pub enum Single {
    Div(u32),
    Rem(u32),
    First,
    Second,
    Join,
    Transpose,
    Reverse,
    Slide(u32, u32),
    Pad(u32, u32),
}

/// How a term is made of the last two.
#[derive(Clone, Copy)]
pub enum Double {
    Binary(BinaryForm),
    /// Of the start and the array.
    Reduce(Reducer),
    Let,
    /// Of the body and the array.
    Map,
}

/// How a term is made of the last three.
#[derive(Clone, Copy)]
pub enum Triple {
    Select,
    /// Of the body, the start and the array.
    Fold,
}

/// A form with a term and a number.
#[derive(Clone, Copy)]
pub enum Division {
    Div,
    Rem,
}

/// A form with a product and a term.
#[derive(Clone, Copy)]
pub enum Grouping {
    Split,
    Stride,
}

/// A form with two numbers and a term.
#[derive(Clone, Copy)]
pub enum Window {
    Slide,
    Pad,
}

impl Single {
    pub fn form(self) -> UnaryForm
        ensures { result ≡ form_of self }
    {
        match self {
            Single::Div(n) => UnaryForm::Div(n),
            Single::Rem(n) => UnaryForm::Rem(n),
            Single::First => UnaryForm::First,
            Single::Second => UnaryForm::Second,
            Single::Join => UnaryForm::Layout(Layout::Join),
            Single::Transpose => UnaryForm::Layout(Layout::Transpose),
            Single::Reverse => UnaryForm::Layout(Layout::Reverse),
            Single::Slide(size, step) => UnaryForm::Slide(size, step),
            Single::Pad(before, after) => UnaryForm::Pad(before, after),
        }
    }
}

impl Division {
    pub fn by(self, divisor: u32) -> Single
        ensures { form_of result ≡ division_form self divisor }
    {
        match self {
            Division::Div => Single::Div(divisor),
            Division::Rem => Single::Rem(divisor),
        }
    }
}

impl Grouping {
    pub fn by(self, product: Product) -> UnaryForm
        ensures { result ≡ grouping_form self product }
    {
        match self {
            Grouping::Split => UnaryForm::Layout(Layout::Split(product)),
            Grouping::Stride => UnaryForm::Layout(Layout::Stride(product)),
        }
    }
}

impl Window {
    /// The least number that the form takes.
    pub fn least(self) -> u32
        ensures { result ≡ window_least self }
    {
        match self {
            Window::Slide => 1,
            Window::Pad => 0,
        }
    }

    pub fn of(self, first: u32, second: u32) -> Single
        ensures { form_of result ≡ window_form self first second }
    {
        match self {
            Window::Slide => Single::Slide(first, second),
            Window::Pad => Single::Pad(first, second),
        }
    }
}

/// The operator that a reduce may have.
pub fn reducer_of(word: Word) -> Option<Reducer>
    ensures { result ≡ reducer_of word }
{
    match word {
        Word::Add => Some(Reducer::Add),
        Word::Mul => Some(Reducer::Mul),
        Word::Min => Some(Reducer::Min),
        Word::Max => Some(Reducer::Max),
        Word::And => Some(Reducer::And),
        Word::Or => Some(Reducer::Or),
        Word::Xor => Some(Reducer::Xor),
        _ => None,
    }
}

/// What is written before two terms.
pub fn binary_of(word: Word) -> Option<BinaryForm>
    ensures { result ≡ binary_of word }
{
    match word {
        Word::Add => Some(BinaryForm::Operator(Operator::Regrouping(Reducer::Add))),
        Word::Mul => Some(BinaryForm::Operator(Operator::Regrouping(Reducer::Mul))),
        Word::Min => Some(BinaryForm::Operator(Operator::Regrouping(Reducer::Min))),
        Word::Max => Some(BinaryForm::Operator(Operator::Regrouping(Reducer::Max))),
        Word::And => Some(BinaryForm::Operator(Operator::Regrouping(Reducer::And))),
        Word::Or => Some(BinaryForm::Operator(Operator::Regrouping(Reducer::Or))),
        Word::Xor => Some(BinaryForm::Operator(Operator::Regrouping(Reducer::Xor))),
        Word::Sub => Some(BinaryForm::Operator(Operator::Sub)),
        Word::Shl => Some(BinaryForm::Operator(Operator::Shl)),
        Word::Shr => Some(BinaryForm::Operator(Operator::Shr)),
        Word::Lt => Some(BinaryForm::Operator(Operator::Lt)),
        Word::Eq => Some(BinaryForm::Operator(Operator::Eq)),
        Word::Pair => Some(BinaryForm::Pair),
        Word::Zip => Some(BinaryForm::Zip),
        _ => None,
    }
}

/// What is written before one term.
pub fn unary_of(word: Word) -> Option<Single>
    ensures { option_map form_of result ≡ unary_of word }
{
    match word {
        Word::First => Some(Single::First),
        Word::Second => Some(Single::Second),
        Word::Join => Some(Single::Join),
        Word::Transpose => Some(Single::Transpose),
        Word::Reverse => Some(Single::Reverse),
        _ => None,
    }
}
