//! JSON values without what nobody asks for.

ghost use Rattle.std.specs.Prelude.{◌≡◌, ◌≢◌, ◌<◌, ◌≤◌, ◌∷◌, IfErr, IfOk, None, OnOk, Some, length};
ghost use Rattle.json.specs.Reads.{token_of};
ghost use Rattle.serde_json.specs.Data.{Data, Items, Members};
ghost use Rattle.serde_json.specs.View.{items_view, members_view, view};
ghost use Rattle.lift_tree.specs.Programs.{program_of};
ghost use Rattle.launch_file.specs.Asked.{Agree, AgreeItems, AgreeMembers};
ghost use Rattle.launch_file.specs.Json.{IsJson};
ghost use Rattle.launch_file.specs.Tokens.{items_at, members_at, value_at};
ghost use Rattle.launch_file.specs.declared.refusal.LaunchNo.TheVariants.{Memory, NotJson};

use crate::asked::is_asked;
use crate::numbers::number_in;
use crate::passing::pass;
use crate::refusal::LaunchNo;
use json::{Reader, Scratch, Token};
use lift_tree::program::Program;
use serde_json::{Map, Value};
use std::alloc::Global;
use std::str;

// How deep lists and objects may nest: as deep as serde_json takes them.
const MAX_DEPTH: usize = 127;

/// The JSON value that the bytes are, as far as launch files of the program are asked for it: what
/// objects have at other keys is checked and left out.
pub fn value_of(alloc: Global, program: &Program, bytes: &[u8]) -> Result<Value, LaunchNo>
    ensures ok { IfOk result (λ v. (d : Data) × IsJson bytes.now d
        × Agree (program_of program.now) (view v) d) }
    ensures refused { IfErr result (λ e. e ≢ Memory
        → (e ≡ NotJson) × ((d : Data) → ¬ IsJson bytes.now d)) }
{
    let Ok(text) = str::from_utf8(bytes) else {
        return Err(LaunchNo::NotJson);
    };
    let mut scratch = Scratch::new(alloc);
    let mut reader = Reader::new(text, &mut scratch)?;
    let value = read(alloc, program, &mut reader, MAX_DEPTH)?;
    if reader.next().is_some() {
        return Err(LaunchNo::NotJson);
    }
    Ok(value)
}

// The value that begins here. Numbers, of which lists have most, are read without a call each.
#[cycle(read)]
#[inline(always)]
fn read(
    alloc: Global,
    program: &Program,
    reader: &mut Reader<'_>,
    depth: usize,
) -> Result<Value, LaunchNo>
    ensures ok { IfOk result (λ v. (d : Data) × (value_at depth reader.old ≡ Some (d, reader.new))
        × Agree (program_of program.now) (view v) d) }
    ensures shorter { OnOk result (length reader.new < length reader.old) }
    ensures refused { IfErr result (λ e. e ≢ Memory
        → (e ≡ NotJson) × (value_at depth reader.old ≡ None)) }
{
    let token = reader.next().ok_or(LaunchNo::NotJson)?;
    if let Token::Number(text) = token {
        return match number_in(text) {
            Some(number) => Ok(Value::Number(number)),
            None => Err(LaunchNo::NotJson),
        };
    }
    read_from(alloc, program, token, reader, depth)
}

// The value whose first token this is.
#[cycle(read)]
#[inline(never)]
fn read_from(
    alloc: Global,
    program: &Program,
    first: Token<'_>,
    reader: &mut Reader<'_>,
    depth: usize,
) -> Result<Value, LaunchNo>
    ensures ok { IfOk result (λ v. (d : Data)
        × (value_at depth (token_of first.entry ∷ reader.old) ≡ Some (d, reader.new))
        × Agree (program_of program.now) (view v) d) }
    ensures shorter { OnOk result (length reader.new ≤ length reader.old) }
    ensures refused { IfErr result (λ e. e ≢ Memory
        → (e ≡ NotJson) × (value_at depth (token_of first.entry ∷ reader.old) ≡ None)) }
{
    match first {
        Token::String(text) => Ok(Value::String(String::from_str(alloc, text)?)),
        Token::Number(text) => match number_in(text) {
            Some(number) => Ok(Value::Number(number)),
            None => Err(LaunchNo::NotJson),
        },
        Token::Bool(b) => Ok(Value::Bool(b)),
        Token::Null => Ok(Value::Null),
        Token::EndObject | Token::EndArray | Token::Key(_) | Token::Bad => Err(LaunchNo::NotJson),
        Token::BeginArray => {
            if depth == 0 {
                return Err(LaunchNo::NotJson);
            }
            Ok(Value::Array(read_items(alloc, program, reader, depth - 1)?))
        }
        Token::BeginObject => {
            if depth == 0 {
                return Err(LaunchNo::NotJson);
            }
            Ok(Value::Object(read_members(alloc, program, reader, depth - 1)?))
        }
    }
}

// The items of a list up to its end.
#[cycle(read)]
#[inline(never)]
fn read_items(
    alloc: Global,
    program: &Program,
    reader: &mut Reader<'_>,
    depth: usize,
) -> Result<Vec<Value>, LaunchNo>
    ensures ok { IfOk result (λ vs. (ds : Items)
        × (items_at depth reader.old ≡ Some (ds, reader.new))
        × AgreeItems (program_of program.now) (items_view vs.items) ds) }
    ensures shorter { OnOk result (length reader.new < length reader.old) }
    ensures refused { IfErr result (λ e. e ≢ Memory
        → (e ≡ NotJson) × (items_at depth reader.old ≡ None)) }
{
    // Room for one: many lists have just one item, and the others grow.
    let mut found = Vec::with_capacity(alloc, 1)?;
    'items: while !reader.take_end_array() {
        let item = read(alloc, program, reader, depth)?;
        found.push(item)?;
    }
    Ok(found)
}

// The members of an object up to its end that are asked for.
#[cycle(read)]
#[inline(never)]
fn read_members(
    alloc: Global,
    program: &Program,
    reader: &mut Reader<'_>,
    depth: usize,
) -> Result<Map<String, Value>, LaunchNo>
    ensures ok { IfOk result (λ m. (ms : Members)
        × (members_at depth reader.old ≡ Some (ms, reader.new))
        × AgreeMembers (program_of program.now) (members_view m.entries) ms) }
    ensures shorter { OnOk result (length reader.new < length reader.old) }
    ensures refused { IfErr result (λ e. e ≢ Memory
        → (e ≡ NotJson) × (members_at depth reader.old ≡ None)) }
{
    let mut found = Map::new(alloc);
    'members: while let Some(name) = reader.next_key()? {
        if is_asked(program, name) {
            let key = String::from_str(alloc, name)?;
            let member = read(alloc, program, reader, depth)?;
            drop(found.insert(key, member)?);
        } else {
            pass(reader, depth)?;
        }
    }
    Ok(found)
}
