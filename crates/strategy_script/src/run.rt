//! Running a script.

ghost use Rattle.std.specs.Prelude.{◌≡◌, ◌≢◌, ◌++◌, Ok, Err, IfOk, IfErr, IfSome, OnOk, map};
ghost use Rattle.lift_tree.specs.Lists.{Every};
ghost use Rattle.lift_tree.specs.Programs.{program_of};
ghost use Rattle.lift_tree.specs.Types.{ty_of};
ghost use Rattle.pattern_types.specs.Judged.{AreInputs};
ghost use Rattle.lift_tree.specs.declared.typed.Typed.{Typed};
ghost use Rattle.strategy_script.specs.ScriptLines.{AreLines, line_of};
ghost use Rattle.strategy_script.specs.Steps.{IsAfter, IsLastTerm, IsReady, at_step};
ghost use Rattle.strategy_script.specs.Steps.{state_of, stepped, terms_of};
ghost use Rattle.strategy_script.specs.declared.faults.StepNo.TheVariants as no;

use crate::faults::StepNo;
use crate::script::{Script, Step};
use crate::steps::{stepped, stepped_on};
use lift_tree::ty::Ty;
use lift_tree::typed::Typed;
use rewriting::laws::keeping_goes_on;
use std::alloc::{AllocError, Global};
use std::collections::VecDeque;
use term_texts::term_text;

// The term after the step of this number.
fn term_after(
    alloc: Global,
    known: &mut Option<VecDeque<Ty>>,
    typed: &Typed,
    step: &Step,
    number: u64,
) -> Result<Typed, StepNo>
    requires ready { IsReady typed.now }
    requires known { IfSome known.old (λ inputs. AreInputs (program_of typed.now.program) (map ty_of inputs.items)) }
    ensures known { IfSome known.new (λ inputs. AreInputs (program_of typed.now.program) (map ty_of inputs.items)) }
    ensures made { IfOk result (λ t. at_step number
        (stepped (program_of typed.now.program) step.now (state_of typed.now)) ≡ Ok (state_of t)) }
    ensures after { IfOk result
        (λ t. (source : Typed) → IsAfter source typed.now → IsAfter source t) }
    ensures ready { IfOk result (λ t. IsReady t) }
    ensures refused { IfErr result (λ e. e ≢ no.Memory → at_step number
        (stepped (program_of typed.now.program) step.now (state_of typed.now)) ≡ Err e) }
{
    keeping_goes_on();
    match stepped(alloc, known, typed, step) {
        Ok(next) => Ok(next),
        Err(fault) => Err(fault.at(number)),
    }
}

// The same of a term that isn't wanted any longer: its program is moved on.
fn term_in_place(
    alloc: Global,
    known: &mut Option<VecDeque<Ty>>,
    typed: Typed,
    step: &Step,
    number: u64,
) -> Result<Typed, StepNo>
    requires ready { IsReady typed }
    requires known { IfSome known.old (λ inputs. AreInputs (program_of typed.program) (map ty_of inputs.items)) }
    ensures known { IfSome known.new (λ inputs. AreInputs (program_of typed.program) (map ty_of inputs.items)) }
    ensures made { IfOk result (λ t. at_step number
        (stepped (program_of typed.program) step.now (state_of typed)) ≡ Ok (state_of t)) }
    ensures after { IfOk result (λ t. (source : Typed) → IsAfter source typed → IsAfter source t) }
    ensures ready { IfOk result (λ t. IsReady t) }
    ensures refused { IfErr result (λ e. e ≢ no.Memory → at_step number
        (stepped (program_of typed.program) step.now (state_of typed)) ≡ Err e) }
{
    keeping_goes_on();
    match stepped_on(alloc, known, typed, step) {
        Ok(next) => Ok(next),
        Err(fault) => Err(fault.at(number)),
    }
}

/// The terms of a script: the source, then the term after each step. Each is typed, in the source's
/// program, and has the source's type and value at all admissible sizes and inputs.
///
/// A step rewrites the node at its place by its rule. Then the term's nodes (at most 4096), its
/// height (at most 256) and the limits on types are judged in this order. `Inapplicable` and
/// `Limit` come exactly at the first step that isn't made, each step before it made; a term that a
/// rule makes is never ill-typed. Want of memory may come at any point.
///
/// The source is typed, as [`type_of`](pattern_types::type_of) has it, and its variables' numbers
/// and its height are below 2^31.
#[tactic(auto, using(crate::proofs::Listed::begin_terms, crate::proofs::Listed::all_terms, crate::proofs::Listed::each_term))]
pub fn run_script(alloc: Global, source: Typed, script: &Script) -> Result<Vec<Typed>, StepNo>
    requires ready { IsReady source }
    ensures terms { IfOk result (λ terms.
        terms_of (program_of source.program) script.now.steps (state_of source)
        ≡ Ok (map state_of terms.items)) }
    ensures each { IfOk result (λ terms. Every (IsAfter source) terms.items) }
    ensures refused { IfErr result (λ e. e ≢ no.Memory
        → terms_of (program_of source.program) script.now.steps (state_of source) ≡ Err e) }
{
    let mut terms = Vec::new(alloc);
    let mut current = source;
    let mut known = None;
    let mut made = 0u64;
    let mut rest = script.steps();
    'steps: while let Some((step, further)) = rest.split_first() {
        made += 1;
        let next = term_after(alloc, &mut known, &current, step, made)?;
        terms.push(current)?;
        current = next;
        rest = further;
    }
    terms.push(current)?;
    Ok(terms)
}

/// The last of the terms that [`run_script`] gives, with the same refusals. It holds two terms at a
/// time.
pub fn last_term(alloc: Global, source: Typed, script: &Script) -> Result<Typed, StepNo>
    requires ready { IsReady source }
    ensures last { IfOk result (λ t. IsLastTerm (program_of source.program)
        script.now.steps (state_of source) (state_of t)) }
    ensures after { IfOk result (λ t. IsAfter source t) }
    ensures refused { IfErr result (λ e. e ≢ no.Memory
        → terms_of (program_of source.program) script.now.steps (state_of source) ≡ Err e) }
{
    let mut current = source;
    let mut known = None;
    let mut made = 0u64;
    let mut rest = script.steps();
    'steps: while let Some((step, further)) = rest.split_first() {
        made += 1;
        current = term_in_place(alloc, &mut known, current, step, made)?;
        rest = further;
    }
    Ok(current)
}

// Writes the term on a line behind the text.
fn push_line(alloc: Global, text: &mut Vec<u8>, typed: &Typed) -> Result<(), AllocError>
    ensures { OnOk result (text.new.items ≡ text.old.items
        ++ line_of (program_of typed.now.program) (state_of typed.now)) }
{
    let line = term_text(alloc, &typed.term, &typed.program)?;
    text.extend_from_slice(line.as_slice())?;
    text.push(b'\n')?;
    Ok(())
}

/// A line for each of the terms that [`run_script`] gives, with the same refusals. It holds two
/// terms at a time.
#[tactic(auto, using(crate::proofs::Written::begin_lines, crate::proofs::Written::all_lines))]
pub fn script_lines(alloc: Global, source: Typed, script: &Script) -> Result<Vec<u8>, StepNo>
    requires ready { IsReady source }
    ensures lines { IfOk result (λ text. AreLines source script.now.steps text.items) }
    ensures refused { IfErr result (λ e. e ≢ no.Memory
        → terms_of (program_of source.program) script.now.steps (state_of source) ≡ Err e) }
{
    let mut text = Vec::new(alloc);
    let mut current = source;
    let mut known = None;
    let mut made = 0u64;
    let mut rest = script.steps();
    'steps: while let Some((step, further)) = rest.split_first() {
        made += 1;
        push_line(alloc, &mut text, &current)?;
        current = term_in_place(alloc, &mut known, current, step, made)?;
        rest = further;
    }
    push_line(alloc, &mut text, &current)?;
    Ok(text)
}
