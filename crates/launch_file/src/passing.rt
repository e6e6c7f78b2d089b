//! Passing over JSON that nobody asks for.

ghost use Rattle.std.specs.Prelude.{◌≡◌, ◌<◌, IfErr, None, OnOk, Some, length};
ghost use Rattle.serde_json.specs.Data.{Data, Items, Members};
ghost use Rattle.launch_file.specs.Tokens.{items_at, members_at, value_at};
ghost use Rattle.launch_file.specs.declared.refusal.LaunchNo.TheVariants.{NotJson};

use crate::numbers::number_in;
use crate::refusal::LaunchNo;
use json::{Reader, Token};

/// Passes over a value, nested so deep at most. Its numbers too must be such that 64 bits or a
/// finite float hold them.
#[cycle(pass)]
pub fn pass(reader: &mut Reader<'_>, depth: usize) -> Result<(), LaunchNo>
    ensures ok { OnOk result ((d : Data) × (value_at depth reader.old ≡ Some (d, reader.new))) }
    ensures shorter { OnOk result (length reader.new < length reader.old) }
    ensures refused { IfErr result (λ e. (e ≡ NotJson) × (value_at depth reader.old ≡ None)) }
{
    let token = reader.next().ok_or(LaunchNo::NotJson)?;
    match token {
        Token::String(_) | Token::Bool(_) | Token::Null => Ok(()),
        Token::Number(text) => match number_in(text) {
            Some(_) => Ok(()),
            None => Err(LaunchNo::NotJson),
        },
        Token::EndObject | Token::EndArray | Token::Key(_) | Token::Bad => Err(LaunchNo::NotJson),
        Token::BeginArray => {
            if depth == 0 {
                return Err(LaunchNo::NotJson);
            }
            pass_items(reader, depth - 1)
        }
        Token::BeginObject => {
            if depth == 0 {
                return Err(LaunchNo::NotJson);
            }
            pass_members(reader, depth - 1)
        }
    }
}

// Passes over the items of a list up to its end.
#[cycle(pass)]
fn pass_items(reader: &mut Reader<'_>, depth: usize) -> Result<(), LaunchNo>
    ensures ok { OnOk result ((ds : Items) × (items_at depth reader.old ≡ Some (ds, reader.new))) }
    ensures shorter { OnOk result (length reader.new < length reader.old) }
    ensures refused { IfErr result (λ e. (e ≡ NotJson) × (items_at depth reader.old ≡ None)) }
{
    'items: while !reader.take_end_array() {
        pass(reader, depth)?;
    }
    Ok(())
}

// Passes over the members of an object up to its end.
#[cycle(pass)]
fn pass_members(reader: &mut Reader<'_>, depth: usize) -> Result<(), LaunchNo>
    ensures ok { OnOk result
        ((ms : Members) × (members_at depth reader.old ≡ Some (ms, reader.new))) }
    ensures shorter { OnOk result (length reader.new < length reader.old) }
    ensures refused { IfErr result (λ e. (e ≡ NotJson) × (members_at depth reader.old ≡ None)) }
{
    'members: while let Some(_) = reader.next_key()? {
        pass(reader, depth)?;
    }
    Ok(())
}
