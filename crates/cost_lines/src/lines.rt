//! Lines of loads and stores.

ghost use Rattle.std.specs.Prelude.{◌≡◌, ◌++◌, OnOk, decimal};
ghost use Rattle.cost_lines.specs.Costs.{numbers_in};
ghost use Rattle.cost_lines.specs.Lines.{cost_line, item_line, traffic_text, piece};

use itoa::write_digits;
use plan_traffic::traffic::Traffic;
use std::alloc::AllocError;

// As many digits as a number of 64 bits has at most.
const MOST_DIGITS: usize = 20;

// A number in decimal digits, at the end of these bytes.
#[tactic(auto, using(crate::proofs::Digits::most_digits))]
fn digits_in(bytes: &mut [u8; MOST_DIGITS], number: u64) -> &[u8]
    ensures { result.now ≡ decimal number }
{
    let start = write_digits(number, bytes, MOST_DIGITS);
    &bytes[start..]
}

// Writes words and a number in decimal digits behind the text.
#[tactic(auto, unfolding(crate::specs::Lines::piece))]
fn push(text: &mut Vec<u8>, words: &[u8], number: u64) -> Result<(), AllocError>
    ensures { OnOk result (text.new.items ≡ text.old.items ++ piece words.now number) }
{
    text.extend_from_slice(words)?;
    text.extend_from_slice(digits_in(&mut [0; MOST_DIGITS], number))
}

// Writes the numbers behind the text, the first behind these words.
fn push_traffic(text: &mut Vec<u8>, words: &[u8], traffic: Traffic) -> Result<(), AllocError>
    ensures { OnOk result (text.new.items
        ≡ text.old.items ++ traffic_text words.now (numbers_in traffic)) }
{
    push(text, words, traffic.global_loads)?;
    push(text, b", global stores ", traffic.global_stores)?;
    push(text, b", local loads ", traffic.local_loads)?;
    push(text, b", local stores ", traffic.local_stores)
}

/// Writes an item's line behind the text.
pub fn push_item(text: &mut Vec<u8>, item: u32, traffic: Traffic) -> Result<(), AllocError>
    ensures { OnOk result (text.new.items
        ≡ text.old.items ++ item_line item (numbers_in traffic)) }
{
    push(text, b"item ", u64::from(item))?;
    push_traffic(text, b": global loads ", traffic)?;
    text.push(b'\n')?;
    Ok(())
}

/// Writes the line of all behind the text.
pub fn push_cost(text: &mut Vec<u8>, traffic: Traffic, releases: u64) -> Result<(), AllocError>
    ensures { OnOk result (text.new.items
        ≡ text.old.items ++ cost_line (numbers_in traffic) releases) }
{
    push_traffic(text, b"cost: global loads ", traffic)?;
    push(text, b", releases ", releases)?;
    text.push(b'\n')?;
    Ok(())
}
