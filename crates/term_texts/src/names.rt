//! Names in a term's text.

ghost use Rattle.std.specs.Prelude.{◌≡◌, ◌≤◌, ◌+◌, ◌∷◌, ◌++◌, OnOk, decimal, length, map};
ghost use Rattle.lift_tree.specs.Programs.{input_of};
ghost use Rattle.term_texts.specs.Names.{binary_start, coefficient, copies, fold_name, input_name, is_reduce, map_name, operator_name, product_text, reducer_name, starred};

use itoa::Buffer;
use lift_tree::length::Factor;
use lift_tree::program::{Input, Size};
use lift_tree::term::{BinaryForm, Dimension, FoldKind, Level, MapKind, Operator};
use scalar_ops::op::Reducer;
use std::alloc::{AllocError, Global};

pub fn push_number(text: &mut Vec<u8>, number: u64) -> Result<(), AllocError>
    ensures { OnOk result (text.new.items ≡ text.old.items ++ decimal number) }
{
    let mut buffer = Buffer::new();
    text.extend_from_slice(buffer.format(number).as_bytes())
}

fn reducer_name(reducer: Reducer) -> &'static [u8]
    ensures { result.now ≡ reducer_name reducer }
{
    match reducer {
        Reducer::Add => b"add",
        Reducer::Mul => b"mul",
        Reducer::Min => b"min",
        Reducer::Max => b"max",
        Reducer::And => b"and",
        Reducer::Or => b"or",
        Reducer::Xor => b"xor",
    }
}

fn operator_name(operator: Operator) -> &'static [u8]
    ensures { result.now ≡ operator_name operator }
{
    match operator {
        Operator::Regrouping(reducer) => reducer_name(reducer),
        Operator::Sub => b"sub",
        Operator::Shl => b"shl",
        Operator::Shr => b"shr",
        Operator::Lt => b"lt",
        Operator::Eq => b"eq",
    }
}

pub fn is_reduce(form: BinaryForm) -> bool
    ensures { result ≡ is_reduce form }
{
    match form {
        BinaryForm::Operator(_) | BinaryForm::Pair | BinaryForm::Zip => false,
        BinaryForm::Reduce(_) => true,
    }
}

// What stands before the first child.
pub fn push_binary_start(text: &mut Vec<u8>, form: BinaryForm) -> Result<(), AllocError>
    ensures { OnOk result (text.new.items ≡ text.old.items ++ binary_start form) }
{
    match form {
        BinaryForm::Operator(operator) => {
            text.extend_from_slice(operator_name(operator))?;
            text.extend_from_slice(b"(")
        }
        BinaryForm::Pair => text.extend_from_slice(b"pair("),
        BinaryForm::Zip => text.extend_from_slice(b"zip("),
        BinaryForm::Reduce(reducer) => {
            text.extend_from_slice(b"reduce(")?;
            text.extend_from_slice(reducer_name(reducer))?;
            text.extend_from_slice(b", ")
        }
    }
}

pub fn map_name(kind: MapKind) -> &'static [u8]
    ensures { result.now ≡ map_name kind }
{
    match kind {
        MapKind::Plain => b"map",
        MapKind::Over(Level::Launch, Dimension::X) => b"mapGlb",
        MapKind::Over(Level::Groups, Dimension::X) => b"mapWrg",
        MapKind::Over(Level::Items, Dimension::X) => b"mapLcl",
        MapKind::Over(Level::Launch, Dimension::Y) => b"mapGlb1",
        MapKind::Over(Level::Groups, Dimension::Y) => b"mapWrg1",
        MapKind::Over(Level::Items, Dimension::Y) => b"mapLcl1",
        MapKind::Sequential => b"mapSeq",
    }
}

pub fn fold_name(kind: FoldKind) -> &'static [u8]
    ensures { result.now ≡ fold_name kind }
{
    match kind {
        FoldKind::Plain => b"fold",
        FoldKind::Sequential => b"foldSeq",
    }
}

/// The name of the input of this number, which is empty where there is no such input.
pub fn input_name(inputs: &[Input], number: u32) -> &[u8]
    ensures { result.now ≡ input_name (map input_of inputs.now) number }
{
    let Some((first, rest)) = inputs.split_first() else {
        return b"".as_slice();
    };
    if number == 0 {
        first.name.bytes()
    } else {
        input_name(rest, number - 1)
    }
}

// The product of the numbers among the factors, which stands still at 2^64 - 1.
fn coefficient(factors: &[Factor]) -> u64
    ensures { result ≡ coefficient factors.now }
{
    let mut product = 1u64;
    for index in (0..factors.len()).rev() {
        if let Factor::Number(number) = factors[index] {
            product = u64::from(number).saturating_mul(product);
        }
    }
    product
}

// A star and the name.
fn push_star(text: &mut Vec<u8>, name: &[u8]) -> Result<(), AllocError>
    ensures { OnOk result (text.new.items ≡ text.old.items ++ 42 ∷ name.now) }
{
    text.push(b'*')?;
    text.extend_from_slice(name)
}

// A star and the name, once for each factor that names the size.
fn push_copies(
    text: &mut Vec<u8>,
    name: &[u8],
    size: u64,
    factors: &[Factor],
) -> Result<(), AllocError>
    ensures { OnOk result (text.new.items
        ≡ text.old.items ++ copies (42 ∷ name.now) size factors.now) }
{
    let Some((first, rest)) = factors.split_first() else {
        return Ok(());
    };
    match *first {
        Factor::Number(_) => push_copies(text, name, size, rest),
        Factor::Size(number) => {
            if u64::from(number) == size {
                push_star(text, name)?;
                push_copies(text, name, size, rest)
            } else {
                push_copies(text, name, size, rest)
            }
        }
    }
}

// The stars and names of the sizes, of which the first has this number.
fn push_starred(
    text: &mut Vec<u8>,
    sizes: &[Size],
    number: u64,
    factors: &[Factor],
) -> Result<(), AllocError>
    requires { number + length sizes.now ≤ u64.MAX }
    ensures { OnOk result (text.new.items
        ≡ text.old.items ++ starred sizes.now number factors.now) }
{
    let Some((first, rest)) = sizes.split_first() else {
        return Ok(());
    };
    push_copies(text, first.name.bytes(), number, factors)?;
    push_starred(text, rest, number + 1, factors)
}

// The product behind the text.
pub fn push_product(
    alloc: Global,
    text: &mut Vec<u8>,
    sizes: &[Size],
    factors: &[Factor],
) -> Result<(), AllocError>
    ensures { OnOk result (text.new.items ≡ text.old.items
        ++ product_text (coefficient factors.now) (starred sizes.now 0 factors.now)) }
{
    let mut names = Vec::new(alloc);
    push_starred(&mut names, sizes, 0, factors)?;
    let number = coefficient(factors);
    match names.as_slice() {
        [_, rest @ ..] if number == 1 => text.extend_from_slice(rest),
        all => {
            push_number(text, number)?;
            text.extend_from_slice(all)
        }
    }
}
