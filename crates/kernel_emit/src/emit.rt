//! From a plan to its kernel.

ghost use Rattle.std.specs.Prelude.{◌≡◌, IfOk};
ghost use Rattle.kernel_tree.specs.Kernels.{kernel_of};
ghost use Rattle.kernel_emit.specs.Kernels.{IsKernelFor};
ghost use Rattle.kernel_emit.specs.Plans.{tidied_for};
ghost use Rattle.phase_plan.specs.Plans.{declared_in, local_in, tree_in, types_in};

use crate::laws::{plans_can_be_emitted, plans_give_kernels};
use crate::printed::printed;
use kernel_tree::tree::Kernel;
use phase_plan::planned::Plan;
use std::alloc::{AllocError, Global};
use tidy_kernels::pass::tidied;

/// The kernel of a plan: what is printed as its kind says, over work-groups with its barriers, and
/// simplified. It is printed for the plan's term at each admissible launch, of groups of
/// the local size that is fixed; every run there keeps what it owes with the term's
/// value, and its barriers serve.
pub fn emit(alloc: Global, plan: &Plan<'_>) -> Result<Kernel, AllocError>
    ensures printed { IfOk result (λ k. kernel_of k ≡ tidied_for plan.now) }
    ensures meets { IfOk result (λ k. ∥ IsKernelFor (declared_in plan.now) (local_in plan.now)
        (tree_in plan.now) (types_in plan.now) (kernel_of k) ∥₁) }
{
    plans_can_be_emitted();
    plans_give_kernels();
    let kernel = printed(alloc, plan)?;
    tidied(alloc, kernel, &plan.spaced.mapped.lowered.names)
}
