//! Laws of the definitions.

ghost use Rattle.lift_tree.specs.Annotations.{AnnotatedIsTyped};
ghost use Rattle.lift_tree.specs.Limits.{LimitsFit};
ghost use Rattle.lift_tree.specs.Positions.{ReversesByPosition, StridesByPosition};
ghost use Rattle.lift_tree.specs.Typing.{OneType, ValuesHaveTypes};

/// A term has at most one type.
#[tactic(auto, using(crate::proofs::Unique::one_type))]
pub fn terms_have_one_type()
    ensures { OneType }
{}

/// A term whose nodes all have their types has the type of its root.
#[tactic(auto, using(crate::proofs::Annotated::annotated_is_typed))]
pub fn typed_nodes_type_the_term()
    ensures { AnnotatedIsTyped }
{}

/// The source value of a typed term has the term's type, at all admissible sizes and
/// inputs and all values of binders.
#[tactic(auto, using(crate::proofs::Sound::values_have_types))]
pub fn values_have_their_types()
    ensures { ValuesHaveTypes }
{}

/// Position i of an array of n elements turned round is position n - 1 - i of the array.
#[tactic(auto, using(crate::proofs::Strides::reverses_by_position))]
pub fn reverses_have_positions()
    ensures { ReversesByPosition }
{}

/// Where m divides n, position i of a stride by m of an array of n elements is position (i mod n/m)
/// * m + i / (n/m) of the array.
#[tactic(auto, using(crate::proofs::Strides::strides_by_position))]
pub fn strides_have_positions()
    ensures { StridesByPosition }
{}

/// What a program within its limits may name, and the nodes of its term, pass no limit.
#[tactic(auto, using(crate::proofs::Fitting::limits_fit))]
pub fn limits_fit()
    ensures { LimitsFit }
{}
