//! The inputs that a launch file gives.

ghost use Rattle.std.specs.Prelude.{◌≡◌, ◌≢◌, Err, IfErr, IfOk, Ok, map, option_map};
ghost use Rattle.serde_json.specs.View.{items_view, view};
ghost use Rattle.lift_tree.specs.InputTypes.{written_of};
ghost use Rattle.lift_tree.specs.Programs.{input_of};
ghost use Rattle.lift_tree.specs.Values.{Both, Word, array, value_of};
ghost use Rattle.launch_file.specs.Inputs.{InputsFit, LengthsFit, TypeFits, read_all, read_value};
ghost use Rattle.launch_file.specs.Json.{word_in};
ghost use Rattle.launch_file.specs.Judged.{input_judged, inputs_judged};
ghost use Rattle.launch_file.specs.declared.refusal.LaunchNo.TheVariants.{Memory};

use crate::length::length_at;
use crate::lookup::{named, word};
use crate::refusal::{Key, LaunchNo};
use lift_tree::input_type::InputType;
use lift_tree::program::Input;
use lift_tree::value::Val;
use serde_json::Value;
use std::alloc::{AllocError, Global};

fn pair_of(alloc: Global, first: Val, second: Val) -> Result<Val, AllocError>
    ensures { IfOk result (λ v. value_of v ≡ Both (value_of first) (value_of second)) }
{
    let first = Box::new(alloc, first)?;
    Ok(Val::Pair(first, Box::new(alloc, second)?))
}

// The array of these members, where there are any.
#[tactic(auto, using(crate::proofs::ReadValues::arrays))]
fn array_of(members: Option<Vec<Val>>) -> Option<Val>
    ensures { option_map value_of result
        ≡ option_map array (option_map (λ vs. map value_of vs.items) members) }
{
    match members {
        Some(members) => Some(Val::List(members)),
        None => None,
    }
}

// The numbers of a list as values, where all are whole and below 2^32.
fn numbers_in(alloc: Global, values: &[Value]) -> Result<Option<Vec<Val>>, AllocError>
    ensures { IfOk result (λ ns. option_map (λ ns. map value_of ns.items) ns
        ≡ read_all (λ d. option_map Word (word_in d)) (items_view values.now)) }
{
    let mut numbers = Vec::with_capacity(alloc, values.len())?;
    for value in values {
        let Some(number) = word(value) else {
            return Ok(None);
        };
        numbers.push_reserved(Val::Number(number));
    }
    Ok(Some(numbers))
}

// The values of the type that a list gives at these sizes, where each gives one. Numbers, of which
// lists have most, are read without a call each.
#[cycle(reading)]
fn members_in(
    alloc: Global,
    sizes: &[u32],
    ty: &InputType,
    values: &[Value],
) -> Result<Option<Vec<Val>>, AllocError>
    requires { LengthsFit sizes.now (written_of ty.now) }
    ensures { IfOk result (λ vs. option_map (λ vs. map value_of vs.items) vs
        ≡ read_all (read_value sizes.now (written_of ty.now)) (items_view values.now)) }
{
    if let InputType::Number = ty {
        return numbers_in(alloc, values);
    }
    let mut members = Vec::with_capacity(alloc, values.len())?;
    for member in values {
        match value_in(alloc, sizes, ty, member)? {
            Some(member) => members.push(member)?,
            None => return Ok(None),
        }
    }
    Ok(Some(members))
}

#[tactic(auto, using(crate::proofs::ReadValues::read_values))]
// The value of the type that JSON gives at these sizes, where it gives one.
#[cycle(reading)]
fn value_in(
    alloc: Global,
    sizes: &[u32],
    ty: &InputType,
    value: &Value,
) -> Result<Option<Val>, AllocError>
    requires { LengthsFit sizes.now (written_of ty.now) }
    ensures { IfOk result (λ v.
        option_map value_of v ≡ read_value sizes.now (written_of ty.now) (view value.now)) }
{
    match ty {
        InputType::Number => Ok(word(value).map(Val::Number)),
        InputType::Pair(left, right) => {
            let Some(values) = value.as_array() else {
                return Ok(None);
            };
            let [first, second] = values.as_slice() else {
                return Ok(None);
            };
            let Some(first) = value_in(alloc, sizes, left, first)? else {
                return Ok(None);
            };
            let Some(second) = value_in(alloc, sizes, right, second)? else {
                return Ok(None);
            };
            Ok(Some(pair_of(alloc, first, second)?))
        }
        InputType::Array(element, length) => {
            let Some(values) = value.as_array() else {
                return Ok(None);
            };
            if values.len() as u64 != length_at(sizes, length) {
                return Ok(None);
            }
            Ok(array_of(members_in(alloc, sizes, element, values)?))
        }
    }
}

// The input of this number.
fn input_in(
    alloc: Global,
    sizes: &[u32],
    index: usize,
    input: &Input,
    value: &Value,
) -> Result<Val, LaunchNo>
    requires { TypeFits sizes.now (written_of input.now.ty) }
    ensures ok { let judged = input_judged sizes.now index (input_of input.now) (view value.now) in
        IfOk result (λ v. judged ≡ Ok (value_of v)) }
    ensures refused { let judged =
        input_judged sizes.now index (input_of input.now) (view value.now) in
        IfErr result (λ e. e ≢ Memory → judged ≡ Err e) }
{
    let Some(found) = named(value, &input.name) else {
        return Err(LaunchNo::Missing(Key::InputAt(index)));
    };
    match value_in(alloc, sizes, &input.ty, found)? {
        Some(v) => Ok(v),
        None => Err(LaunchNo::Shape { input: index }),
    }
}

/// The inputs in turn, as the object gives them at these sizes.
pub fn inputs_in(
    alloc: Global,
    sizes: &[u32],
    inputs: &[Input],
    value: &Value,
) -> Result<Vec<Val>, LaunchNo>
    requires { InputsFit sizes.now (map input_of inputs.now) }
    ensures ok { let judged =
        inputs_judged sizes.now 0 (map input_of inputs.now) (view value.now) in
        IfOk result (λ vs. judged ≡ Ok (map value_of vs.items)) }
    ensures refused { let judged =
        inputs_judged sizes.now 0 (map input_of inputs.now) (view value.now) in
        IfErr result (λ e. e ≢ Memory → judged ≡ Err e) }
{
    let mut given = Vec::new(alloc);
    for (index, input) in inputs.iter().enumerate() {
        given.push(input_in(alloc, sizes, index, input, value)?)?;
    }
    Ok(given)
}
