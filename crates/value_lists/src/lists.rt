//! From a value to its lists.

ghost use Rattle.std.specs.Prelude.{◌≡◌, ◌++◌, ◌∷◌, [], map, OnOk};
ghost use Rattle.lift_tree.specs.InputTypes.{written_of};
ghost use Rattle.lift_tree.specs.Values.{list_of, value_of};
ghost use Rattle.value_lists.specs.Lists.{lists_below, side_of, ways};

use lift_tree::input_type::InputType;
use lift_tree::value::Val;
use std::alloc::{AllocError, Global};

// Adds the numbers of the component to which this way leads: a number, of which lists have most, is
// added without a call.
#[inline(always)]
#[cycle(numbers)]
fn add_member(value: &Val, way: &[bool], list: &mut Vec<u32>) -> Result<(), AllocError>
    ensures { OnOk result (list.new.items
        ≡ list.old.items ++ list_of (value_of value.now) (map side_of way.now)) }
{
    match value {
        Val::Number(number) => {
            list.push(*number)?;
            Ok(())
        }
        Val::Pair(_, _) | Val::List(_) => add_numbers(value, way, list),
    }
}

// Adds the numbers of the component to which this way through pairs leads: false to the left.
#[tactic(auto, using(crate::proofs::Listing::added))]
#[cycle(numbers)]
fn add_numbers(value: &Val, way: &[bool], list: &mut Vec<u32>) -> Result<(), AllocError>
    ensures { OnOk result (list.new.items
        ≡ list.old.items ++ list_of (value_of value.now) (map side_of way.now)) }
{
    match value {
        Val::Number(number) => {
            list.push(*number)?;
            Ok(())
        }
        Val::Pair(a, b) => match way {
            [] => Ok(()),
            [false, rest @ ..] => add_numbers(a, rest, list),
            [true, rest @ ..] => add_numbers(b, rest, list),
        },
        Val::List(members) => {
            for member in members {
                add_member(member, way, list)?;
            }
            Ok(())
        }
    }
}

// Adds a list for each component of the type that is found along this way and then on this side.
#[tactic(auto, using(crate::proofs::Listing::listed))]
#[cycle(adding)]
fn add_side(
    alloc: Global,
    ty: &InputType,
    value: &Val,
    way: &mut Vec<bool>,
    side: bool,
    lists: &mut Vec<Vec<u32>>,
) -> Result<(), AllocError>
    ensures way { OnOk result (way.new.items ≡ way.old.items) }
    ensures lists { OnOk result (map (λ l. l.items) lists.new.items
        ≡ map (λ l. l.items) lists.old.items
        ++ lists_below (map side_of (way.old.items ++ side ∷ [])) (written_of ty.now)
        (value_of value.now)) }
{
    way.push(side)?;
    add_below(alloc, ty, value, way, lists)?;
    way.pop();
    Ok(())
}

// Adds a list for each component of the type that is found along this way.
#[tactic(auto, using(crate::proofs::Listing::listed))]
#[cycle(adding)]
fn add_below(
    alloc: Global,
    ty: &InputType,
    value: &Val,
    way: &mut Vec<bool>,
    lists: &mut Vec<Vec<u32>>,
) -> Result<(), AllocError>
    ensures way { OnOk result (way.new.items ≡ way.old.items) }
    ensures lists { OnOk result (map (λ l. l.items) lists.new.items
        ≡ map (λ l. l.items) lists.old.items
        ++ lists_below (map side_of way.old.items) (written_of ty.now) (value_of value.now)) }
{
    match ty {
        InputType::Number => {
            let mut list = Vec::new(alloc);
            add_numbers(value, way, &mut list)?;
            lists.push(list)?;
            Ok(())
        }
        InputType::Pair(a, b) => {
            add_side(alloc, a, value, way, false, lists)?;
            add_side(alloc, b, value, way, true, lists)
        }
        InputType::Array(element, _) => add_below(alloc, element, value, way, lists),
    }
}

/// Adds the lists of an input's value, one for each component of its type.
#[tactic(auto, using(crate::proofs::Listing::listed))]
pub fn add_lists(
    alloc: Global,
    ty: &InputType,
    value: &Val,
    lists: &mut Vec<Vec<u32>>,
) -> Result<(), AllocError>
    ensures { OnOk result (map (λ l. l.items) lists.new.items
        ≡ map (λ l. l.items) lists.old.items
        ++ map (list_of (value_of value.now)) (ways (written_of ty.now))) }
{
    let mut way = Vec::new(alloc);
    add_below(alloc, ty, value, &mut way, lists)
}
