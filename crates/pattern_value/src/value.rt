//! The value of a typed term.

ghost use Rattle.std.specs.Prelude.{◌≡◌, IfOk, []};
ghost use Rattle.lift_tree.specs.Meaning.{meaning};
ghost use Rattle.lift_tree.specs.Tree.{tree_of};
ghost use Rattle.lift_tree.specs.Values as values;
ghost use Rattle.pattern_value.specs.World.{world_at, HasItsType};

use crate::evaluate::World;
use crate::scope::Scope;
use lift_tree::typed::Typed;
use lift_tree::value::Val;
use size_arith::Sizes;
use std::alloc::{AllocError, Global};

/// The source value of a typed term at these sizes and inputs, which are numbered as the program
/// declares them (the patterns of Lift, ICFP 2015; its stencils, CGO 2018).
///
/// The lowered kinds of maps and folds have the plain kind's value. Where the sizes are admissible
/// and the inputs have their types, the value has the term's type.
#[tactic(auto, using(crate::proofs::Typed::typed))]
pub fn value_of(
    alloc: Global,
    typed: &Typed,
    sizes: &Sizes,
    inputs: &[Val],
) -> Result<Val, AllocError>
    ensures value { IfOk result (λ v. values.value_of v
        ≡ meaning (world_at typed.now.program sizes.now inputs.now) []
        (tree_of typed.now.term)) }
    ensures typed { IfOk result (λ v. HasItsType typed.now (world_at typed.now.program sizes.now
        inputs.now) (values.value_of v)) }
{
    let world = World {
        sizes: &typed.program.sizes,
        bases: sizes.as_slice(),
        inputs,
    };
    world
        .value(alloc, &Scope::Empty, &typed.term)?
        .into_owned(alloc)
}
