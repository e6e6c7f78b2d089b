//! Numbers and places.

ghost use Rattle.std.specs.Prelude.{◌≡◌, ◌<◌, ◌≤◌, ◌∷◌, IfOk, IfSome, length, option_map};
ghost use Rattle.std.specs.List.{position_or_len, slice_split};
ghost use Rattle.strategy_script.specs.Numbers.{are_digits, is_dot, number_of, numbers_of, parts_behind, place_of, value_after, within};

use lift_tree::place::Place;
use std::alloc::{AllocError, Global};

fn value_of(digits: &[u8]) -> Option<u32>
    ensures { result ≡ within (value_after 0 digits.now) }
{
    let mut value: u32 = 0;
    for digit in digits {
        let last = u32::from(digit.saturating_sub(b'0'));
        value = value.checked_mul(10)?.checked_add(last)?;
    }
    Some(value)
}

fn are_digits(word: &[u8]) -> bool
    ensures { result ≡ are_digits word.now }
{
    word.iter().all(|byte| byte.is_ascii_digit())
}

/// The number that a word writes: digits without a leading zero, at most 4294967295.
pub fn number_of(word: &[u8]) -> Option<u32>
    ensures { result ≡ number_of word.now }
{
    if !are_digits(word) {
        return None;
    }
    match word {
        [] => None,
        [b'0', _, ..] => None,
        _ => value_of(word),
    }
}

// How many bytes stand before the first dot.
fn part_len(text: &[u8]) -> usize
    ensures is { result ≡ position_or_len is_dot text.now }
    ensures within { result ≤ length text.now }
{
    text.iter().take_while(|byte| **byte != b'.').count()
}

// What stands before the first dot, and where there is one what stands behind it.
fn split_part(text: &[u8]) -> (&[u8], Option<&[u8]>)
    ensures parts { slice_split is_dot text.now ≡ result.0.now ∷ parts_behind result.1 }
    ensures shorter { IfSome result.1 (λ behind. length behind.now < length text.now) }
{
    let length = part_len(text);
    if length == text.len() {
        (text, None)
    } else {
        (&text[..length], Some(&text[length + 1..]))
    }
}

// The numbers that stand between dots.
fn numbers_of(alloc: Global, text: &[u8]) -> Result<Option<Vec<u32>>, AllocError>
    ensures { IfOk result
        (λ found. option_map (λ v. v.items) found ≡ numbers_of (slice_split is_dot text.now)) }
{
    let mut numbers = Vec::new(alloc);
    let mut rest = text;
    'parts: loop {
        let (part, behind) = split_part(rest);
        let number = match number_of(part) {
            Some(number) => number,
            None => return Ok(None),
        };
        numbers.push(number)?;
        match behind {
            Some(next) => rest = next,
            None => return Ok(Some(numbers)),
        }
    }
}

/// The place that a word writes: a dot, or child numbers with dots between.
pub fn place_of(alloc: Global, word: &[u8]) -> Result<Option<Place>, AllocError>
    ensures { IfOk result (λ found. found ≡ place_of word.now) }
{
    if word == b".".as_slice() {
        return Ok(Some(Place::new(Vec::new(alloc))));
    }
    match numbers_of(alloc, word)? {
        Some(numbers) => Ok(Some(Place::new(numbers))),
        None => Ok(None),
    }
}
