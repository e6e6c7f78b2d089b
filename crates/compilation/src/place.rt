//! A program and a script, up to what the kernel of the last term is planned from.
ghost use Rattle.std.specs.Prelude.{IfErr, IfOk};
ghost use Rattle.lift_tree.specs.FixedSizes.{asked};
ghost use Rattle.lift_tree.specs.Programs.{program_of};
ghost use Rattle.program_source.specs.Program.{IsRefusedFor, OnProgram, StopsFor};
ghost use Rattle.compilation.specs.Legal.{LegalOf};
ghost use Rattle.compilation.specs.Placed.{IsPlaced};

use crate::kernel::{Placed, placed_last};
use crate::laws::compilation_ends_once;
use fault_lines::Refusal;
use lift_tree::asks::Asks;
use lift_tree::program::Program;
use lowered_tree::around::asks_of;
use program_source::last_term;
use program_source::laws::sources_end_once;
use std::alloc::Global;

/// The last term of a program along a script, with what its kernel is planned from.
#[derive(Drop)]
pub struct PlacedText {
    /// The program as it was read, before any step.
    pub program: Program,
    /// What each launch has to meet.
    pub asks: Asks,
    /// The term.
    pub placed: Placed,
}

/// Makes all of a program and a script that [`crate::compile_text`] makes before it plans a kernel,
/// and is refused just where that is.
pub fn place_text(alloc: Global, program: &[u8], script: &[u8]) -> Result<PlacedText, Refusal>
    ensures found { IfOk result (λ x. IsPlaced program.now script.now (program_of x.program)
        (asked x.asks) x.placed) }
    ensures refused { IfErr result
        (StopsFor (OnProgram program.now (λ p. LegalOf p script.now))) }
    ensures exact { IsRefusedFor (OnProgram program.now (λ p. LegalOf p script.now)) result }
{
    compilation_ends_once();
    sources_end_once();
    let found = last_term(alloc, program, script)?;
    let placed = placed_last(alloc, &found.typed, found.local)?;
    let last = found.typed;
    Ok(PlacedText {
        asks: asks_of(&last.term, found.local),
        program: last.program,
        placed,
    })
}
