//! Reads programs.

ghost use Rattle.std.specs.Prelude.{◌≡◌, IfOk, IfErr, None, map};
ghost use Rattle.readings.specs.Exactly as exactly;
ghost use Rattle.lift_tree.specs.Belonging.{IsProper, IsTermOf};
ghost use Rattle.lift_tree.specs.Programs.{PlainProgram, program_of};
ghost use Rattle.lift_tree.specs.Tree.{tree_of};
ghost use Rattle.lift_reader.specs.Shown.{lexeme, placed};
ghost use Rattle.lift_reader.specs.Grammar.{IsProgram, programs, start, nothing};
ghost use Rattle.lift_reader.specs.ProgramText.{IsProgramText, ProgramsMayBeTyped, Refuses};
ghost use Rattle.lift_reader.specs.ProgramText.{Answers, Gives, first_limit, place_of};
ghost use Rattle.lift_reader.specs.TextTerms.{BodiesAreTextTerms};

use crate::grammar::{Action, Nonterminal};
use crate::reader::Reader;
use crate::refusal::{Quantity, ReadRefusal};
use crate::token::{Kind, Token, tokens};
use lift_tree::program::Program;
use readings::{Owed, ReadError, read};
use std::alloc::{AllocError, Global};

/// The program whose tokens these are.
fn read_tokens(alloc: Global, tokens: &[Kind]) -> Result<Program, ReadError>
    ensures found { IfOk result (λ p. IsProgram (map lexeme tokens.now) (program_of p)) }
    ensures only { (p : PlainProgram) → IsProgram (map lexeme tokens.now) p → Gives p result }
    ensures refused { IfErr result (exactly.Refuses programs start nothing
        (map lexeme tokens.now)) }
{
    let program = Owed::Form(Nonterminal::Sizes);
    let finish = Owed::Mark(Action::Finish);
    let reader = read(alloc, &[program, finish], Reader::new(alloc), tokens)?;
    let noted = reader.into_program(alloc)?;
    match noted {
        Some(program) => Ok(program),
        None => unreachable!(),
    }
}

fn place_of(tokens: &[Token], before: usize, end: usize) -> usize
    ensures { result ≡ place_of (map placed tokens.now) before end }
{
    match tokens.get(before) {
        Some(token) => token.offset,
        None => end,
    }
}

fn kinds_of<'a>(alloc: Global, tokens: &[Token<'a>]) -> Result<Vec<Kind<'a>>, AllocError>
    ensures { IfOk result (λ kinds. kinds.items ≡ map (λ t. t.kind) tokens.now) }
{
    tokens.iter().map(|token| token.kind).collect(alloc)
}

fn read_text(alloc: Global, text: &[u8]) -> Result<Program, ReadRefusal>
    ensures found { IfOk result (λ p. IsProgramText text.now (program_of p)) }
    ensures only { (p : PlainProgram) → IsProgramText text.now p → Answers p result }
    ensures refused { IfErr result (Refuses text.now) }
{
    let tokens = tokens(alloc, text)?;
    let kinds = kinds_of(alloc, &tokens)?;
    match read_tokens(alloc, &kinds) {
        Ok(program) => Ok(program),
        Err(ReadError::Memory) => Err(ReadRefusal::Memory),
        Err(ReadError::Refused { taken }) => Err(ReadRefusal::Syntax {
            token: taken + 1,
            offset: place_of(&tokens, taken, text.len()),
        }),
    }
}

/// The first quantity above its limit, with its count.
fn first_limit(program: &Program) -> Option<(Quantity, u64)>
    ensures { result ≡ first_limit (program_of program.now) }
{
    let sizes = program.sizes.len() as u64;
    if sizes > 8 {
        return Some((Quantity::Sizes, sizes));
    }
    let inputs = program.inputs.len() as u64;
    if inputs > 8 {
        return Some((Quantity::Inputs, inputs));
    }
    let nodes = program.body.node_count();
    if nodes > 4096 {
        return Some((Quantity::Nodes, nodes));
    }
    None
}

/// Reads the text of a program.
///
/// The text is refused at the first token at which no program goes on, or, once all of it is in the
/// grammar, by the first of the sizes, the inputs and the term's nodes that is above its limit.
pub fn read_program(alloc: Global, text: &[u8]) -> Result<Program, ReadRefusal>
    // What is answered is the text's program, and within the limits.
    ensures found { IfOk result (λ p.
        IsProgramText text.now (program_of p) × (first_limit (program_of p) ≡ None)) }
    // Its sizes are proper, and its inputs and its body name what it declares: it may be typed.
    ensures proper { IfOk result (λ p. IsProper (program_of p)) }
    ensures body { IfOk result (λ p. IsTermOf (program_of p) (tree_of p.body)) }
    // A program's text is answered with the program or its first limit, unless memory runs out.
    ensures only { (p : PlainProgram) → IsProgramText text.now p → Answers p result }
    // A refusal names the first token at which the text doesn't go on, or its first limit.
    ensures refused { IfErr result (Refuses text.now) }
{
    let program = read_text(alloc, text)?;
    match first_limit(&program) {
        Some((which, count)) => Err(ReadRefusal::Limit { which, count }),
        None => Ok(program),
    }
}

/// A text's program within its limits may be typed: its sizes are proper, and its inputs and its
/// body name what it declares.
pub fn programs_may_be_typed()
    ensures { ProgramsMayBeTyped }
{}

/// The term of a text's program is one that a text may have: it names its binders and what the
/// program declares alone, copies nothing, and at most 256 terms stand in one another.
pub fn bodies_are_text_terms()
    ensures { BodiesAreTextTerms }
{}
