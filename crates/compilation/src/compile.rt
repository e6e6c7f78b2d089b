//! A program and a script, compiled to the text of a kernel.
ghost use Rattle.std.specs.Prelude.{◌≡◌, IfErr, IfOk};
ghost use Rattle.lift_tree.specs.Annotations.{annotation_of, type_in};
ghost use Rattle.lift_tree.specs.FixedSizes.{asked};
ghost use Rattle.lift_tree.specs.Programs.{program_of};
ghost use Rattle.lift_tree.specs.Types.{ty_of};
ghost use Rattle.program_source.specs.Program.{IsRefusedFor, OnProgram, StopsFor};
ghost use Rattle.compilation.specs.Compiled.{IsCompiled};
ghost use Rattle.compilation.specs.Legal.{LegalOf};
ghost use Rattle.compilation.specs.Meets.{IsTextFor};

use crate::kernel::compiled_kernel;
use crate::laws::compilation_ends_once;
use fault_lines::Refusal;
use kernel_printer::print;
use lift_tree::asks::Asks;
use lift_tree::program::Program;
use lift_tree::ty::Ty;
use lift_tree::typed::NodeTypes;
use lowered_tree::around::asks_of;
use nest_premises::laws::rows_are_on_top;
use program_source::last_term;
use program_source::laws::sources_end_once;
use std::alloc::Global;

/// The text of a kernel, with the program that it is compiled from.
#[derive(Drop)]
pub struct Compiled {
    /// The program as it was read, before any step.
    pub program: Program,
    /// The type of its output.
    pub output: Ty,
    /// What each launch has to meet.
    pub asks: Asks,
    /// The text of the kernel.
    pub text: Vec<u8>,
    // The text is of a kernel that leaves the program's value at each admissible launch.
    ghost text_for: { ∥ IsTextFor (program_of program) (ty_of output) (asked asks)
        text.items ∥₁ },
}

/// The type of the whole term.
pub(crate) fn own_type(types: NodeTypes) -> Ty
    ensures { ty_of result ≡ type_in (annotation_of types) }
{
    match types {
        NodeTypes::Leaf(ty) => ty,
        NodeTypes::One(ty, _first) => ty,
        NodeTypes::Two(ty, _first, _second) => ty,
        NodeTypes::Three(ty, _first, _second, _third) => ty,
    }
}

/// Compiles a program along a script: to the text of one kernel, of which every run at every
/// admissible launch leaves the program's value. It is refused just where a stage stops, for the
/// first in their order: the program's text and its limits, its types, the script's text and its
/// limit, the steps; then the last term's nest, its layouts, and its local and private memory. Want
/// of memory may come at any point.
pub fn compile_text(alloc: Global, program: &[u8], script: &[u8]) -> Result<Compiled, Refusal>
    ensures found { IfOk result (λ c. IsCompiled program.now script.now (program_of c.program)
        (ty_of c.output) (asked c.asks) c.text.items) }
    ensures refused { IfErr result
        (StopsFor (OnProgram program.now (λ p. LegalOf p script.now))) }
    ensures exact { IsRefusedFor (OnProgram program.now (λ p. LegalOf p script.now)) result }
{
    compilation_ends_once();
    rows_are_on_top();
    sources_end_once();
    let found = last_term(alloc, program, script)?;
    let kernel = compiled_kernel(alloc, &found.typed, found.local)?;
    let text = print(alloc, &kernel)?;
    let last = found.typed;
    Ok(Compiled {
        asks: asks_of(&last.term, found.local),
        program: last.program,
        output: own_type(last.types),
        text,
    })
}
