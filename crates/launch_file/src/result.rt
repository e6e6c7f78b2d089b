//! The line that a run or an evaluation prints.

ghost use Rattle.std.specs.Prelude.{◌≡◌, ◌+◌, ◌*◌, ◌<◌, ◌≤◌, ◌^◌, ◌++◌, IfOk, OnOk, decimal, get_or, length, map};
ghost use Rattle.lift_tree.specs.Types.{ty_of};
ghost use Rattle.lift_tree.specs.Values.{Word, array, value_of};
ghost use Rattle.value_lists.specs.Lists.{IsSmall, members_from, row, value_in, width};
ghost use Rattle.launch_file.specs.ResultLine.{counts_text, result_line, value_text};

use itoa::write_digits;
use lift_tree::ty::Ty;
use lift_tree::value::Val;
use size_arith::Sizes;
use std::alloc::{AllocError, Global};
use std::mem;
use value_lists::laws::elements_are_small;
use value_lists::{element_number, length_at, number_in, width};

// As many digits as a number of 64 bits has at most.
const MOST_DIGITS: usize = 20;

// A number in decimal digits, at the end of these bytes.
#[inline(always)]
#[tactic(auto, using(crate::proofs::Texts::most_digits))]
fn digits_in(bytes: &mut [u8; MOST_DIGITS], number: u64) -> &[u8]
    ensures { result.now ≡ decimal number }
{
    let start = write_digits(number, bytes, MOST_DIGITS);
    &bytes[start..]
}

// Writes a number in decimal digits behind the text.
#[inline(never)]
fn push_digits(text: &mut Vec<u8>, number: u64) -> Result<(), AllocError>
    ensures { OnOk result (text.new.items ≡ text.old.items ++ decimal number) }
{
    text.extend_from_slice(digits_in(&mut [0; MOST_DIGITS], number))
}

// Writes a number of one digit behind the text.
#[inline(always)]
#[tactic(auto, using(crate::proofs::Texts::one_digit))]
fn push_digit(text: &mut Vec<u8>, number: u64) -> Result<(), AllocError>
    requires { number < 10 }
    ensures { OnOk result (text.new.items ≡ text.old.items ++ decimal number) }
{
    text.push(b'0' + number as u8)?;
    Ok(())
}

// Writes a number in decimal digits behind the text. One digit needs no buffer and no call.
#[inline(always)]
pub(crate) fn push_number(text: &mut Vec<u8>, number: u64) -> Result<(), AllocError>
    ensures { OnOk result (text.new.items ≡ text.old.items ++ decimal number) }
{
    if number >= 10 {
        return push_digits(text, number);
    }
    push_digit(text, number)
}

// Writes a value behind the text.
#[tactic(auto, using(crate::proofs::Texts::value_texts))]
fn push_value(text: &mut Vec<u8>, value: &Val) -> Result<(), AllocError>
    ensures { OnOk result (text.new.items ≡ text.old.items ++ value_text (value_of value.now)) }
{
    match value {
        Val::Number(number) => push_number(text, u64::from(*number)),
        Val::Pair(left, right) => {
            text.push(b'[')?;
            push_value(text, left)?;
            text.push(b',')?;
            push_value(text, right)?;
            text.push(b']')?;
            Ok(())
        }
        Val::List(members) => {
            text.push(b'[')?;
            for (index, member) in members.iter().enumerate() {
                if index > 0 {
                    text.push(b',')?;
                }
                push_value(text, member)?;
            }
            text.push(b']')?;
            Ok(())
        }
    }
}

// The text with a number in decimal digits behind it.
#[inline(never)]
fn with_digits(text: Vec<u8>, number: u32) -> Result<Vec<u8>, AllocError>
    ensures { IfOk result (λ longer. longer.items ≡ text.items ++ decimal number) }
{
    let mut longer = text;
    longer.extend_from_slice(digits_in(&mut [0; MOST_DIGITS], u64::from(number)))?;
    Ok(longer)
}

// The text with a list of so many numbers behind it, from this one of a list on. It is moved, so
// that the loop has its length and its place at hand. One digit needs no call.
fn with_numbers(
    text: Vec<u8>,
    numbers: &[u32],
    first: usize,
    count: usize,
) -> Result<Vec<u8>, AllocError>
    requires { first + count ≤ length numbers.now }
    ensures { IfOk result (λ longer. longer.items ≡ text.items ++ value_text
        (array (members_from (λ j. Word (get_or numbers.now (first + j) 0)) 0 count))) }
{
    let mut longer = text;
    longer.push(b'[')?;
    for index in 0..count {
        if index > 0 {
            longer.push(b',')?;
        }
        let number = numbers[first + index];
        if number >= 10 {
            longer = with_digits(longer, number)?;
        } else {
            push_digit(&mut longer, u64::from(number))?;
        }
    }
    longer.push(b']')?;
    Ok(longer)
}

// Writes a list of so many numbers behind the text, from this one of a list on.
fn push_numbers(
    text: &mut Vec<u8>,
    numbers: &[u32],
    first: usize,
    count: usize,
) -> Result<(), AllocError>
    requires { first + count ≤ length numbers.now }
    ensures { OnOk result (text.new.items ≡ text.old.items ++ value_text
        (array (members_from (λ j. Word (get_or numbers.now (first + j) 0)) 0 count))) }
{
    let empty = Vec::new(*text.allocator());
    let taken = mem::replace(text, empty);
    *text = with_numbers(taken, numbers, first, count)?;
    Ok(())
}

// The list of this component.
fn list_of(lists: &[Vec<u32>], component: usize) -> &[u32]
    requires { component < length lists.now }
    ensures { result.now ≡ row (map (λ l. l.items) lists.entry.now) component }
{
    &lists[component]
}

// Writes the vector of this number in the list of the component behind the text.
fn push_lanes(
    text: &mut Vec<u8>,
    lists: &[Vec<u32>],
    component: usize,
    number: usize,
) -> Result<(), AllocError>
    requires small { (number + 1) * 4 ≤ 2 ^ 32 }
    requires within { component < length lists.now }
    ensures { OnOk result (text.new.items ≡ text.old.items ++ value_text (array (members_from
        (λ j. Word (get_or (row (map (λ l. l.items) lists.now) component) (number * 4 + j) 0))
        0 4))) }
{
    text.push(b'[')?;
    for lane in 0..4 {
        if lane > 0 {
            text.push(b',')?;
        }
        let at = element_number(number, 4, lane);
        push_number(text, u64::from(number_in(lists, component, at)))?;
    }
    text.push(b']')?;
    Ok(())
}

// Writes the value of this number among values of the type, one after another in lists, the first
// of which is this component's, behind the text. A list of numbers is written by one loop.
fn push_listed(
    text: &mut Vec<u8>,
    ty: &Ty,
    sizes: &Sizes,
    lists: &[Vec<u32>],
    component: usize,
    number: usize,
) -> Result<(), AllocError>
    requires small { IsSmall sizes.now (number + 1) (ty_of ty.now) }
    requires within { component + width (ty_of ty.now) ≤ length lists.now }
    ensures { OnOk result (text.new.items ≡ text.old.items ++ value_text
        (value_in sizes.now (ty_of ty.now) (map (λ l. l.items) lists.now) component number)) }
{
    match ty {
        Ty::Number => push_number(text, u64::from(number_in(lists, component, number))),
        Ty::Vector => push_lanes(text, lists, component, number),
        Ty::Pair(a, b) => {
            text.push(b'[')?;
            push_listed(text, a, sizes, lists, component, number)?;
            text.push(b',')?;
            push_listed(text, b, sizes, lists, component + width(a), number)?;
            text.push(b']')?;
            Ok(())
        }
        Ty::Array(element, length) => {
            elements_are_small();
            let count = length_at(length, sizes);
            if let Ty::Number = **element {
                let list = list_of(lists, component);
                if number * count + count <= list.len() {
                    return push_numbers(text, list, number * count, count);
                }
            }
            text.push(b'[')?;
            for index in 0..count {
                if index > 0 {
                    text.push(b',')?;
                }
                let at = element_number(number, count, index);
                push_listed(text, element, sizes, lists, component, at)?;
            }
            text.push(b']')?;
            Ok(())
        }
    }
}

// Writes the counts of events and of releases behind the text.
fn push_counts(text: &mut Vec<u8>, counts: Option<(u64, u64)>) -> Result<(), AllocError>
    ensures { OnOk result (text.new.items ≡ text.old.items ++ counts_text counts) }
{
    let Some((events, releases)) = counts else {
        return Ok(());
    };
    text.extend_from_slice(b",\"events\":")?;
    push_number(text, events)?;
    text.extend_from_slice(b",\"releases\":")?;
    push_number(text, releases)
}

/// The value, and the counts of events and of releases where there are any, as JSON on a line.
///
/// An array is a list, and a pair a list of its two parts. There are no spaces, and LF ends the
/// line.
pub fn result_text(
    alloc: Global,
    value: &Val,
    counts: Option<(u64, u64)>,
) -> Result<Vec<u8>, AllocError>
    ensures { IfOk result (λ line. line.items ≡ result_line (value_of value.now) counts) }
{
    let mut line = Vec::from_slice(alloc, b"{\"value\":")?;
    push_value(&mut line, value)?;
    push_counts(&mut line, counts)?;
    line.extend_from_slice(b"}\n")?;
    Ok(line)
}

/// The line of the value of a type at these sizes that lies in lists, one for each of its
/// components, and of the counts of events and of releases where there are any, as [`result_text`]
/// writes it.
pub fn listed_text(
    alloc: Global,
    ty: &Ty,
    sizes: &Sizes,
    lists: &[Vec<u32>],
    counts: Option<(u64, u64)>,
) -> Result<Vec<u8>, AllocError>
    requires small { IsSmall sizes.now 1 (ty_of ty.now) }
    requires within { width (ty_of ty.now) ≤ length lists.now }
    ensures { IfOk result (λ line. line.items ≡ result_line
        (value_in sizes.now (ty_of ty.now) (map (λ l. l.items) lists.now) 0 0) counts) }
{
    let mut line = Vec::from_slice(alloc, b"{\"value\":")?;
    push_listed(&mut line, ty, sizes, lists, 0, 0)?;
    push_counts(&mut line, counts)?;
    line.extend_from_slice(b"}\n")?;
    Ok(line)
}
