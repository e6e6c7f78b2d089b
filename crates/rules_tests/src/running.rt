//! Programs and scripts, run.

ghost use Rattle.std.specs.Prelude.{IfOk, IfSome};
ghost use Rattle.strategy_script.specs.Steps.{IsReady};

use lift_reader::program::read_program;
use lift_tree::renumber::is_renumberable;
use lift_tree::typed::Typed;
use pattern_types::{belongs_to, is_proper, type_of};
use std::alloc::Global;
use std::test::Fail;
use strategy_script::{StepNo, last_term, read_script, run_script, script_lines};
use term_texts::term_text;

// The sizes and inputs of the tests' programs.
const DECLARATIONS: &str =
    "size N multiple 6 from 6 to 60; size M from 1 to 9; input xs: [u32; N]; input rows: [[u32; 4]; N]; input four: [u32; 4]; input eight: [u32; 8]; input nine: [u32; 9]; input ten: [u32; 10]; input cube: [u32; 2*N*N*M]; input odd: [u32; M*M*M - 3*M*M + 3*M]; output ";

/// The term behind these declarations.
pub fn declared(alloc: Global, term: &str) -> Result<Vec<u8>, Fail> {
    let mut program = Vec::from_slice(alloc, DECLARATIONS.as_bytes())?;
    program.extend_from_slice(term.as_bytes())?;
    Ok(program)
}

// The typed program; none where it is refused.
fn source(alloc: Global, program: &[u8]) -> Result<Option<Typed>, Fail>
    ensures { IfOk result (λ found. IfSome found IsReady) }
{
    let Ok(program) = read_program(alloc, program) else {
        return Ok(None);
    };
    let term = program.body.copy(alloc)?;
    if !is_proper(&program) || !belongs_to(&program, &term) || !is_renumberable(&term) {
        return Ok(None);
    }
    match type_of(alloc, program, term) {
        Ok(typed) => Ok(Some(typed)),
        Err(_) => Ok(None),
    }
}

/// The last term of the script; none where the program or the script is refused.
pub fn last(
    alloc: Global,
    program: &[u8],
    script: &[u8],
) -> Result<Option<Result<Typed, StepNo>>, Fail> {
    let Some(source) = source(alloc, program)? else {
        return Ok(None);
    };
    match read_script(alloc, script) {
        Ok(script) => Ok(Some(last_term(alloc, source, &script))),
        Err(_) => Ok(None),
    }
}

// Each term of the script on a line; none where one of the three is refused.
fn lines(alloc: Global, program: &[u8], script: &[u8]) -> Result<Option<Vec<u8>>, Fail> {
    let Some(source) = source(alloc, program)? else {
        return Ok(None);
    };
    let Ok(script) = read_script(alloc, script) else {
        return Ok(None);
    };
    match run_script(alloc, source, &script) {
        Ok(terms) => Ok(Some(written(alloc, terms.as_slice())?)),
        Err(_) => Ok(None),
    }
}

fn written(alloc: Global, terms: &[Typed]) -> Result<Vec<u8>, Fail> {
    let mut text = Vec::new(alloc);
    for typed in terms {
        text.extend_from_slice(&term_text(alloc, &typed.term, &typed.program)?)?;
        text.push(b'\n')?;
    }
    Ok(text)
}

// The same, each written as it is made.
fn lines_at_once(alloc: Global, program: &[u8], script: &[u8]) -> Result<Option<Vec<u8>>, Fail> {
    let Some(source) = source(alloc, program)? else {
        return Ok(None);
    };
    let Ok(script) = read_script(alloc, script) else {
        return Ok(None);
    };
    match script_lines(alloc, source, &script) {
        Ok(text) => Ok(Some(text)),
        Err(_) => Ok(None),
    }
}

fn is_text(found: &Option<Vec<u8>>, want: &[u8]) -> bool {
    match found {
        Some(text) => text.as_slice() == want,
        None => false,
    }
}

/// Whether these are the terms of the script, each on a line.
pub fn has_lines(alloc: Global, program: &[u8], script: &[u8], want: &[u8]) -> Result<bool, Fail> {
    let terms = lines(alloc, program, script)?;
    let written = lines_at_once(alloc, program, script)?;
    Ok(is_text(&terms, want) && is_text(&written, want))
}

/// Whether this is the last term of the script.
pub fn becomes(alloc: Global, program: &[u8], script: &[u8], want: &[u8]) -> Result<bool, Fail> {
    match last(alloc, program, script)? {
        Some(Ok(typed)) => { Ok(term_text(alloc, &typed.term, &typed.program)?.as_slice() == want) }
        _ => Ok(false),
    }
}

/// Whether the script isn't run to its end, for this reason.
pub fn stops(alloc: Global, program: &[u8], script: &[u8], want: StepNo) -> Result<bool, Fail> {
    match last(alloc, program, script)? {
        Some(Err(no)) => Ok(no == want),
        _ => Ok(false),
    }
}
