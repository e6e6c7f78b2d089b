//! The kernel that is printed for a plan, with its indices as they arise.

ghost use Rattle.std.specs.Prelude.{◌≡◌, ◌<◌, ◌^◌, IfOk, sum};
ghost use Rattle.kernel_tree.specs.Code.{End};
ghost use Rattle.kernel_tree.specs.Kernels.{kernel_of};
ghost use Rattle.kernel_tree.specs.Tree.{code_then};
ghost use Rattle.lift_tree.specs.Annotations.{type_in};
ghost use Rattle.lowering.specs.Terms.{term_of};
ghost use Rattle.item_emit.specs.Copies.{HasShortCopies};
ghost use Rattle.barrier_placement.specs.Fencing.{fence};
ghost use Rattle.group_emit.specs.Settings.{fence_in};
ghost use Rattle.kernel_emit.specs.Emittable.{IsEmittable};
ghost use Rattle.kernel_emit.specs.Plans.{code_for, printed_for};
ghost use Rattle.phase_plan.specs.Plans.{declared_in, local_in, types_in};

use grid_emit::kernel as grids;
use group_emit::kernel as groups;
use group_emit::setting::Setting;
use item_emit::arguments::Declared;
use item_emit::kernel as items;
use item_emit::kernel::counted;
use kernel_tree::tree::{Kernel, Stmt};
use phase_plan::kind::Kind;
use phase_plan::phases::Phases;
use phase_plan::planned::Plan;
use std::alloc::{AllocError, Global};

// What a map over work-groups is printed with, in these phases.
fn setting_in<'p>(
    declared: Declared<'p>,
    phases: &'p Phases,
    local: Option<(u32, u32)>,
) -> Setting<'p>
    ensures declared { result.declared ≡ declared.entry }
    ensures local { result.local ≡ local }
    ensures fence { fence_in result ≡ fence phases.now.count phases.now.barriers.items }
{
    Setting {
        declared,
        barriers: &phases.barriers,
        phases: phases.count,
        local,
    }
}

// The statements, as the plan's kind says.
fn statements(alloc: Global, plan: &Plan<'_>) -> Result<Vec<Stmt>, AllocError>
    requires { HasShortCopies (term_of plan.now.root) }
    ensures { IfOk result (λ ss. code_then ss.items End ≡ code_for (declared_in plan.now)
        (local_in plan.now) (term_of plan.now.root) (type_in (types_in plan.now)) plan.now.kind) }
{
    let lowered = &plan.spaced.mapped.lowered;
    let declared = Declared {
        names: &lowered.names,
        inputs: &lowered.inputs,
    };
    let local = plan.spaced.mapped.local;
    match &plan.kind {
        Kind::Task | Kind::OverLaunch => {
            items::statements(alloc, &declared, &plan.root, lowered.types.own_type())
        }
        Kind::OverGroups(phases) => {
            let setting = setting_in(declared, phases, local);
            groups::statements(alloc, &setting, &plan.root, lowered.types.own_type())
        }
        Kind::OverGrid(phases) => {
            let setting = setting_in(declared, phases, local);
            grids::statements(alloc, &setting, &plan.root, lowered.types.own_type())
        }
    }
}

// The lengths as words.
#[tactic(auto, using(crate::proofs::Lengths::each_small))]
fn words(alloc: Global, lengths: &[u64]) -> Result<Vec<u32>, AllocError>
    requires { sum lengths.now < 2 ^ 32 }
    ensures { IfOk result (λ words. words.items ≡ lengths.now) }
{
    let mut words = Vec::new(alloc);
    for length in lengths {
        words.push(*length as u32)?;
    }
    Ok(words)
}

/// The kernel that is printed for a plan: for each component of each input a parameter, then for
/// each of the output and for each size; private variables of a word and of four as the term needs
/// them, the plan's arrays, the local size that is fixed, and the code as its kind says.
pub fn printed(alloc: Global, plan: &Plan<'_>) -> Result<Kernel, AllocError>
    requires { IsEmittable plan.now }
    ensures { IfOk result (λ k. kernel_of k ≡ printed_for plan.now) }
{
    let counts = counted(&plan.spaced.mapped.lowered, &plan.root)?;
    let locals = words(alloc, &plan.buffers.local)?;
    let privates = words(alloc, &plan.buffers.private)?;
    let body = statements(alloc, plan)?;
    Ok(Kernel {
        inputs: counts.inputs,
        outputs: counts.outputs,
        sizes: counts.sizes,
        locals,
        privates,
        variables: counts.variables,
        vectors: counts.vectors,
        local: plan.spaced.mapped.local,
        body,
    })
}
