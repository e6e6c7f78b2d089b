//! The kernel of a term.
ghost use Rattle.std.specs.Prelude.{◌≡◌, ◌<◌, ◌^◌, IfErr, IfOk, Ok};
ghost use Rattle.lift_tree.specs.Annotations.{annotation_of, type_in};
ghost use Rattle.lift_tree.specs.Programs.{program_of};
ghost use Rattle.lift_tree.specs.Tree.{tree_of};
ghost use Rattle.lift_tree.specs.Typing.{declared_by};
ghost use Rattle.lowered_tree.specs.Named.{declared_of};
ghost use Rattle.buffer_allocation.specs.Allocated.{AreAllocated};
ghost use Rattle.kernel_tree.specs.Kernels.{kernel_of};
ghost use Rattle.kernel_emit.specs.Kernels.{IsKernelFor};
ghost use Rattle.lift_tree.specs.FixedSizes.{size_fixed};
ghost use Rattle.strategy_script.specs.Steps.{state_of};
ghost use Rattle.program_source.specs.Program.{StopsFor};
ghost use Rattle.compilation.specs.Legal.{
  CompilesTerm,
  IsAccepted,
  IsKernelOf,
  IsSoundLowered,
  IsTypedLast,
  lowered_state,
};
ghost use Rattle.compilation.specs.Meets.{CanBeLaidOut};
ghost use Rattle.compilation.specs.Placed.{AreOfLast, ArePlaced};

use address_spaces::spaces;
use buffer_allocation::allocation::buffers;
use buffer_allocation::buffers::Buffers;
use fault_lines::Refusal;
use kernel_emit::emit::emit;
use kernel_emit::laws::plans_give_kernels;
use kernel_tree::tree::Kernel;
use lift_tree::local_size::LocalSize;
use lift_tree::typed::Typed;
use lowered_tree::laws::legal_without_fault;
use lowered_tree::lowered::{Lowered, Spaced};
use lowered_tree::typed::lowered;
use nest_premises::laws::legal_terms_can_be_lowered;
use phase_plan::planning::plan;
use std::alloc::{AllocError, Global};
use thread_mapping::judge;

// Outputs have numbers of 32 bits.
fn has_few_outputs(kernel: &Kernel)
    ensures { (kernel_of kernel.now).outputs < 2 ^ 32 }
{
    let _count = kernel.outputs;
}

/// The last term, with what it may name.
pub fn lowered_last(alloc: Global, last: &Typed) -> Result<Lowered, AllocError>
    requires typed { IsTypedLast last.now }
    ensures sound { IfOk result IsSoundLowered }
    ensures state { IfOk result (λ l. lowered_state l ≡ state_of last.now) }
    ensures declared { IfOk result
        (λ l. declared_of l ≡ declared_by (program_of last.now.program)) }
{
    lowered(alloc, last)
}

// The kernel of a legal term with these buffers, which are those that `buffers` gives for it.
fn kernel_of_spaced(alloc: Global, spaced: &Spaced, buffers: &Buffers) -> Result<Kernel, AllocError>
    requires sound { IsSoundLowered spaced.now.mapped.lowered }
    requires allocated { AreAllocated buffers.now.local.items buffers.now.private.items
        (tree_of spaced.now.mapped.lowered.term)
        (annotation_of spaced.now.mapped.lowered.types) }
    ensures kernel { IfOk result (λ k. IsKernelOf spaced.now.mapped.lowered
        spaced.now.mapped.local (kernel_of k)) }
    ensures outputs { IfOk result (λ k. (kernel_of k).outputs < 2 ^ 32) }
{
    plans_give_kernels();
    let plan = plan(alloc, spaced, buffers)?;
    let kernel = emit(alloc, &plan)?;
    has_few_outputs(&kernel);
    Ok(kernel)
}

/// A legal term within the limits, with the address spaces of its computing nodes and the arrays
/// that its copies fill: what its kernel is planned from.
#[derive(Drop)]
pub struct Placed {
    pub spaced: Spaced,
    pub buffers: Buffers,
}

// The lowered term placed. `Nest` and `Alloc` come in this order, for the first rule or limit.
fn place(alloc: Global, lowered: Lowered, local: Option<LocalSize>) -> Result<Placed, Refusal>
    ensures placed { IfOk result (ArePlaced lowered (size_fixed local)) }
    ensures compiles { IfOk result (λ _. CompilesTerm (size_fixed local) (lowered_state lowered)
        (Ok (lowered_state lowered))) }
    ensures refused { IfErr result
        (StopsFor (CompilesTerm (size_fixed local) (lowered_state lowered))) }
{
    legal_without_fault();
    let mapped = judge(alloc, lowered, local)?;
    let spaced = spaces(alloc, mapped)?;
    let buffers = buffers(alloc, &spaced)?;
    Ok(Placed { spaced, buffers })
}

/// The kernel of a lowered term, printed for it at each admissible launch, which has groups of the
/// local size that is fixed, where one is. `Nest` and `Alloc` come in this order, for the first
/// rule or limit.
pub fn kernel_of_lowered(
    alloc: Global,
    lowered: Lowered,
    local: Option<LocalSize>,
) -> Result<Kernel, Refusal>
    requires sound { IsSoundLowered lowered }
    ensures kernel { IfOk result (λ k. IsKernelOf lowered (size_fixed local) (kernel_of k)) }
    ensures compiles { IfOk result (λ _. CompilesTerm (size_fixed local) (lowered_state lowered)
        (Ok (lowered_state lowered))) }
    ensures laid_out { IfOk result (λ _. CanBeLaidOut lowered.names
        (type_in (annotation_of lowered.types))) }
    ensures refused { IfErr result
        (StopsFor (CompilesTerm (size_fixed local) (lowered_state lowered))) }
{
    legal_terms_can_be_lowered();
    let term = place(alloc, lowered, local)?;
    let kernel = kernel_of_spaced(alloc, &term.spaced, &term.buffers)?;
    Ok(kernel)
}

/// A last term, placed as a lowered one.
pub fn placed_last(alloc: Global, last: &Typed, local: Option<LocalSize>) -> Result<Placed, Refusal>
    requires typed { IsTypedLast last.now }
    ensures placed { IfOk result (AreOfLast (declared_by (program_of last.now.program))
        (size_fixed local) (state_of last.now)) }
    ensures accepted { IfOk result (λ _. IsAccepted (program_of last.now.program)
        (tree_of last.now.term) (annotation_of last.now.types)) }
    ensures compiles { IfOk result (λ _. CompilesTerm (size_fixed local) (state_of last.now)
        (Ok (state_of last.now))) }
    ensures refused { IfErr result
        (StopsFor (CompilesTerm (size_fixed local) (state_of last.now))) }
{
    let lowered = lowered_last(alloc, last)?;
    place(alloc, lowered, local)
}

/// The kernel of a last term, printed for it at each admissible launch, as that of a lowered one.
pub fn compiled_kernel(
    alloc: Global,
    last: &Typed,
    local: Option<LocalSize>,
) -> Result<Kernel, Refusal>
    requires typed { IsTypedLast last.now }
    ensures kernel { IfOk result (λ k. IsKernelFor (declared_by (program_of last.now.program))
        (size_fixed local) (tree_of last.now.term) (annotation_of last.now.types) (kernel_of k)) }
    ensures accepted { IfOk result (λ _. IsAccepted (program_of last.now.program)
        (tree_of last.now.term) (annotation_of last.now.types)) }
    ensures compiles { IfOk result (λ _. CompilesTerm (size_fixed local) (state_of last.now)
        (Ok (state_of last.now))) }
    ensures laid_out { IfOk result (λ _. CanBeLaidOut
        (declared_by (program_of last.now.program)).names
        (type_in (annotation_of last.now.types))) }
    ensures refused { IfErr result
        (StopsFor (CompilesTerm (size_fixed local) (state_of last.now))) }
{
    let lowered = lowered_last(alloc, last)?;
    kernel_of_lowered(alloc, lowered, local)
}
