//! A program and a script, compiled to the text of kernels in order.
ghost use Rattle.std.specs.Prelude.{◌≡◌, ◌++◌, ◌∷◌, [], IfErr, IfOk, OnOk, length, map};
ghost use Rattle.kernel_tree.specs.Kernels.{kernel_of};
ghost use Rattle.lift_tree.specs.FixedSizes.{size_fixed};
ghost use Rattle.lift_tree.specs.Lists.{Every};
ghost use Rattle.lift_tree.specs.Programs.{program_of};
ghost use Rattle.lift_tree.specs.Types.{ty_of};
ghost use Rattle.kernel_sequence.specs.Parts.{term_part};
ghost use Rattle.program_source.specs.Program.{IsRefusedFor, OnProgram, StopsFor};
ghost use Rattle.strategy_script.specs.Steps.{state_of};
ghost use Rattle.compilation.specs.Legal.{IsSoundLowered, IsTypedLast};
ghost use Rattle.compilation.specs.Sequence.{
  AreKernelsOfLast,
  AreMadeOf,
  CompilesInTurn,
  CompilesParts,
  IsCompiledSequence,
  IsSequenceFor,
  SequenceOf,
  outline_in,
  outline_of,
};

use crate::compile::own_type;
use crate::kernel::{kernel_of_lowered, lowered_last};
use crate::laws::sequences_end_once;
use fault_lines::Refusal;
use kernel_printer::print_sequence;
use kernel_sequence::cut;
use kernel_sequence::laws::{kernels_are_counted, kernels_are_sound};
use kernel_tree::tree::Kernel;
use lift_tree::asks::Asks;
use lift_tree::local_size::LocalSize;
use lift_tree::program::Program;
use lift_tree::ty::Ty;
use lift_tree::typed::Typed;
use lowered_tree::around::asks_of;
use lowered_tree::lowered::Lowered;
use nest_premises::laws::rows_are_on_top;
use program_source::last_term;
use program_source::laws::sources_end_once;
use sequence_runs::laws::{last_kernels_make_the_output, sequences_keep};
use std::alloc::{AllocError, Global};

/// What is to be known of a kernel of a sequence before it is run.
#[derive(Drop)]
pub struct KernelOutline {
    /// What each launch of it has to meet.
    pub asks: Asks,
    /// The type of what it makes.
    pub output: Ty,
}

/// The text of kernels in order, with the program that they are compiled from.
#[derive(Drop)]
pub struct CompiledSequence {
    /// The program as it was read, before any step.
    pub program: Program,
    /// The type of its output, which the last kernel makes.
    pub output: Ty,
    /// Of each kernel in order, what is to be known before it is run.
    pub outlines: Vec<KernelOutline>,
    /// The text of all kernels.
    pub text: Vec<u8>,
    // The text is of kernels that keep the program's value where they are run in order.
    ghost text_for: { ∥ IsSequenceFor (program_of program) (ty_of output)
        (map outline_of outlines.items) text.items ∥₁ },
}

/// Compiles a program along a script to the text of kernels in order: one for each cut between two
/// kernels, and the last. Run in order at admissible launches with one valuation, each from the
/// buffers that the one before left, their runs leave the program's value.
///
/// It is refused just where a stage stops, for the first in their order: the program's text and its
/// limits, its types, the script's text and its limit, the steps; then a cut that a binder is
/// around, and the number of kernels; then for each kernel in turn its nest, its layouts, and its
/// local and private memory. Want of memory may come at any point.
pub fn compile_sequence(
    alloc: Global,
    program: &[u8],
    script: &[u8],
) -> Result<CompiledSequence, Refusal>
    ensures found { IfOk result (λ c. IsCompiledSequence program.now script.now
        (program_of c.program) (ty_of c.output) (map outline_of c.outlines.items) c.text.items) }
    ensures refused { IfErr result
        (StopsFor (OnProgram program.now (λ p. SequenceOf p script.now))) }
    ensures exact { IsRefusedFor (OnProgram program.now (λ p. SequenceOf p script.now)) result }
{
    kernels_are_counted();
    last_kernels_make_the_output();
    sequences_end_once();
    sequences_keep();
    sources_end_once();
    let found = last_term(alloc, program, script)?;
    let made = kernels_of_last(alloc, &found.typed, found.local)?;
    let text = print_sequence(alloc, &made.kernels)?;
    let last = found.typed;
    Ok(CompiledSequence {
        program: last.program,
        output: own_type(last.types),
        outlines: made.outlines,
        text,
    })
}

// Kernels in order, and what is to be known of each before it is run.
#[derive(Drop)]
struct Kernels {
    kernels: Vec<Kernel>,
    outlines: Vec<KernelOutline>,
}

impl Kernels {
    // Puts a kernel behind the others, and what is to be known of it.
    fn push(&mut self, kernel: Kernel, outline: KernelOutline) -> Result<(), AllocError>
        ensures kernels { OnOk result (map kernel_of self.new.kernels.items
            ≡ map kernel_of self.old.kernels.items ++ kernel_of kernel ∷ []) }
        ensures outlines { OnOk result (map outline_of self.new.outlines.items
            ≡ map outline_of self.old.outlines.items ++ outline_of outline ∷ []) }
    {
        self.kernels.push(kernel)?;
        self.outlines.push(outline)?;
        Ok(())
    }
}

// The kernels of the terms that a last term is cut into.
fn kernels_of_last(
    alloc: Global,
    last: &Typed,
    local: Option<LocalSize>,
) -> Result<Kernels, Refusal>
    requires typed { IsTypedLast last.now }
    ensures made { IfOk result (λ made. AreKernelsOfLast last.now (size_fixed local)
        (map kernel_of made.kernels.items) (map outline_of made.outlines.items)) }
    ensures refused { IfErr result
        (StopsFor (CompilesParts (length (program_of last.now.program).inputs) (size_fixed local)
        (state_of last.now))) }
{
    kernels_are_counted();
    kernels_are_sound();
    let whole = lowered_last(alloc, last)?;
    let terms = cut(alloc, &whole)?;
    kernels_of_each(alloc, terms, local)
}

// What is to be known of the kernel of a term, with the local size that is fixed.
fn outline(
    alloc: Global,
    term: &Lowered,
    local: Option<LocalSize>,
) -> Result<KernelOutline, AllocError>
    ensures { IfOk result
        (λ o. outline_of o ≡ outline_in (size_fixed local) (term_part term.now)) }
{
    let output = term.types.own_type().copy(alloc)?;
    Ok(KernelOutline {
        asks: asks_of(&term.term, local),
        output,
    })
}

// The kernels of these terms, each compiled before the next.
fn kernels_of_each(
    alloc: Global,
    terms: Vec<Lowered>,
    local: Option<LocalSize>,
) -> Result<Kernels, Refusal>
    requires { Every IsSoundLowered terms.items }
    ensures made { IfOk result (λ made. AreMadeOf (size_fixed local) terms.items
        (map kernel_of made.kernels.items) (map outline_of made.outlines.items)) }
    ensures refused { IfErr result
        (StopsFor (CompilesInTurn (size_fixed local) (map term_part terms.items))) }
{
    rows_are_on_top();
    let kernels = Vec::new(alloc);
    let outlines = Vec::new(alloc);
    let mut made = Kernels { kernels, outlines };
    for term in terms {
        let outline = outline(alloc, &term, local)?;
        let kernel = kernel_of_lowered(alloc, term, local)?;
        made.push(kernel, outline)?;
    }
    Ok(made)
}
