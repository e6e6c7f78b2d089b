//! Laws of the judgement.

ghost use Rattle.pattern_types.specs.Judgement.{JudgedTypesAreRight, JudgedInputsAreProper, TypesAreJudged, OutputsHaveTypes, OutputsBelong};
ghost use Rattle.pattern_types.specs.Refusals.{RefusalsNameTheFirst};

/// The types that a program's term is judged to have are those of the typing relation: the sizes
/// and inputs are proper, each node has its type, and the whole an output's.
pub fn judged_types_are_right()
    ensures { JudgedTypesAreRight }
{}

/// A program of which a term is judged to have types has proper inputs: those for which a launch
/// file
/// is read.
#[tactic(auto, using(crate::proofs::Proper::judged_inputs_are_proper))]
pub fn judged_inputs_are_proper()
    ensures { JudgedInputsAreProper }
{}

/// A program's term that has types is judged to have just these where they are within the limits,
/// and else to pass a limit; it is never judged ill-typed.
#[tactic(auto, using(crate::proofs::Reached::types_are_judged))]
pub fn types_are_judged()
    ensures { TypesAreJudged }
{}

/// A refusal names the first spot without a type within the limits, and what is wrong there: the
/// inputs, the children and the nodes judged before have types; the rule's demand isn't met, or an
/// array that is formed may be empty, or the count is that of the limited quantity, above its
/// limit.
#[tactic(auto, using(crate::proofs::Refused::refusals_name_the_first))]
pub fn refusals_name_the_first()
    ensures { RefusalsNameTheFirst }
{}

/// A program's term that has an output's type has types for all its nodes, of which the root's is
/// this one.
#[tactic(auto, using(crate::proofs::Reached::outputs_have_types))]
pub fn outputs_have_types()
    ensures { OutputsHaveTypes }
{}

/// A program's term that has an output's type names only binders around it and inputs and sizes of
/// the program, and its numbers are such as `type_of` requires.
#[tactic(auto, using(crate::proofs::Reached::outputs_belong))]
pub fn outputs_belong()
    ensures { OutputsBelong }
{}
