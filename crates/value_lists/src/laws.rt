//! Laws of the lists of values, each carried by a function that does nothing.

ghost use Rattle.value_lists.specs.Laws.{ComponentsAreCounted, ElementsAreSmall, ListsHaveLengths, ListsHoldOneValue, ListsTellValues, TypedOutputsAreSmall, WaysAreComponents};

/// The lists of a value are as long as its type says.
#[tactic(auto, using(crate::proofs::Lengths::lists_have_lengths))]
pub fn lists_have_lengths()
    ensures { ListsHaveLengths }
{}

/// The value of a type is what is read from its lists.
#[tactic(auto, using(crate::proofs::Held::lists_hold_one_value))]
pub fn lists_hold_one_value()
    ensures { ListsHoldOneValue }
{}

/// Values of one type with the same lists are the same.
#[tactic(auto, using(crate::proofs::Held::lists_tell_values))]
pub fn lists_tell_values()
    ensures { ListsTellValues }
{}

/// The components of an input's type may be read off the type as it is written.
#[tactic(auto, using(crate::proofs::Ways::ways_are_components))]
pub fn ways_are_components()
    ensures { WaysAreComponents }
{}

/// A type has as many components as its width says.
#[tactic(auto, using(crate::proofs::Held::width_is))]
pub fn components_are_counted()
    ensures { ComponentsAreCounted }
{}

/// The value of a typed output may be read from its lists.
#[tactic(auto, using(crate::proofs::Typed::typed_outputs_are_small))]
pub fn typed_outputs_are_small()
    ensures { TypedOutputsAreSmall }
{}

/// Where values of a type are few in lists, so are those of its elements up to any of them.
#[tactic(auto, using(crate::proofs::Small::of_element))]
pub fn elements_are_small()
    ensures { ElementsAreSmall }
{}
