//! The text of a script.

ghost use Rattle.std.specs.Prelude.{◌≡◌, ◌⊎◌, ◌+◌, ◌<◌, ◌≤◌, ◌^◌, Err, IfOk, IfErr, length};
ghost use Rattle.std.specs.Result.{IsErrAnd};
ghost use Rattle.std.specs.Str.Lines.{lines};
ghost use Rattle.lift_tree.specs.FixedSizes.{size_fixed};
ghost use Rattle.strategy_script.specs.LocalSize.{local_in};
ghost use Rattle.strategy_script.specs.ScriptText.{
  AreSteps,
  IsScript,
  ReadsScript,
  RefusesScript,
  RefusesSteps,
  ended,
  good_lines,
  numbered_rule,
  rule_of,
  step_behind,
  step_lines,
  step_of,
  steps_in,
};
ghost use Rattle.strategy_script.specs.declared.script.ScriptNo.{ScriptNo};

use crate::lines::{is_no_step, split_line, split_word};
use crate::local_size::local_of;
use crate::numbers::{number_of, place_of};
use crate::rule::Rule;
use crate::script::{Script, ScriptLimit, ScriptNo, Step};
use lift_tree::local_size::LocalSize;
use std::alloc::{AllocError, Global};

/// The most steps that a script may have.
pub const STEP_LIMIT: u64 = 256;

// The rule, where no word follows.
fn ended(rule: Rule, behind: &[u8]) -> Option<Rule>
    ensures { result ≡ ended behind.now rule }
{
    let (end, _) = split_word(behind);
    if end.is_empty() { Some(rule) } else { None }
}

// The rule of this name with the number behind it.
fn numbered_rule(name: &[u8], behind: &[u8]) -> Option<Rule>
    ensures { result ≡ numbered_rule name.now behind.now }
{
    let (word, rest) = split_word(behind);
    let number = number_of(word)?;
    let rule = Rule::numbered(name, number)?;
    ended(rule, rest)
}

// The rule that the words of a line's rest name.
fn rule_of(text: &[u8]) -> Option<Rule>
    ensures { result ≡ rule_of text.now }
{
    let (name, behind) = split_word(text);
    match Rule::plain(name) {
        Some(rule) => ended(rule, behind),
        None => numbered_rule(name, behind),
    }
}

// The step whose place and rule are the words of a line's rest.
fn step_behind(alloc: Global, text: &[u8]) -> Result<Option<Step>, AllocError>
    ensures { IfOk result (λ step. step ≡ step_behind text.now) }
{
    let (word, behind) = split_word(text);
    let Some(place) = place_of(alloc, word)? else {
        return Ok(None);
    };
    match rule_of(behind) {
        Some(rule) => Ok(Some(Step { place, rule })),
        None => Ok(None),
    }
}

// The step that a line is.
fn step_of(alloc: Global, line: &[u8]) -> Result<Option<Step>, AllocError>
    ensures { IfOk result (λ step. step ≡ step_of line.now) }
{
    let (at, behind) = split_word(line);
    if at == b"at".as_slice() {
        step_behind(alloc, behind)
    } else {
        Ok(None)
    }
}

// How a text begins: the local size that it fixes, in how many lines, and what stands behind them.
#[derive(Clone, Copy)]
struct Opening<'a> {
    local: Option<LocalSize>,
    lines: u64,
    rest: &'a [u8],
}

// A text's lines of no step, and a line behind them that fixes the local size.
#[tactic(auto, using(crate::proofs::Openings::no_step, crate::proofs::Openings::no_step_but_size, crate::proofs::Openings::steps_passed, crate::proofs::Openings::size_passed, crate::proofs::Openings::good_passed, crate::proofs::Openings::size_here, crate::proofs::Openings::good_sized, crate::proofs::Openings::good_unsized))]
fn opening_of(text: &[u8]) -> Opening<'_>
    ensures size { size_fixed result.local ≡ local_in (lines text.now) }
    ensures good { result.lines + step_lines (lines result.rest.now) ≡ good_lines text.now }
    ensures all { result.lines + length (lines result.rest.now) ≡ length (lines text.now) }
    ensures steps { steps_in result.rest.now ≡ steps_in text.now }
    ensures few { result.lines + length result.rest.now ≤ length text.now }
{
    let mut lines = 0u64;
    let mut rest = text;
    while !rest.is_empty() {
        let (line, behind) = split_line(rest);
        if !is_no_step(line) {
            return match local_of(line) {
                Some(size) => Opening {
                    local: Some(size),
                    lines: lines + 1,
                    rest: behind,
                },
                None => Opening {
                    local: None,
                    lines,
                    rest,
                },
            };
        }
        lines += 1;
        rest = behind;
    }
    Opening {
        local: None,
        lines,
        rest,
    }
}

// The steps of a text's lines, in order, with so many lines before it.
fn steps_in(alloc: Global, text: &[u8], before: u64) -> Result<Vec<Step>, ScriptNo>
    requires { before + length text.now < 2 ^ 64 }
    ensures script { IfOk result (λ steps. AreSteps text.now steps.items) }
    ensures refused { IfErr result (RefusesSteps before text.now) }
{
    let mut steps = Vec::new(alloc);
    let mut lines = before;
    let mut rest = text;
    while !rest.is_empty() {
        let (line, behind) = split_line(rest);
        lines += 1;
        match step_of(alloc, line)? {
            Some(step) => steps.push(step)?,
            None => {
                if !is_no_step(line) {
                    return Err(ScriptNo::Syntax { line: lines });
                }
            }
        }
        rest = behind;
    }
    Ok(steps)
}

// The script of a local size and steps, where these aren't too many.
fn script_of(local: Option<LocalSize>, steps: Vec<Step>) -> Result<Script, ScriptNo>
    ensures script { IfOk result (λ script. (script.local ≡ size_fixed local)
        × (script.steps ≡ steps.items) × (length steps.items ≤ 256)) }
    ensures refused { IfErr result (λ no. (no
        ≡ ScriptNo.Limit ScriptLimit.Steps (length steps.items)) × (256 < length steps.items)) }
{
    let count = steps.len() as u64;
    if count > STEP_LIMIT {
        return Err(ScriptNo::Limit {
            which: ScriptLimit::Steps,
            count,
        });
    }
    Ok(Script::new(local, steps))
}

/// The script that a text is.
///
/// Each line is a step, `at PLACE RULE` with the rule's number where it has one, or is empty, of
/// blanks alone, or a comment. Blanks are spaces and tabs; a line ends with LF, which the last may
/// lack, and a CR just before it is passed over. A place is `.`, or child numbers joined by `.`. A
/// number is decimal, without a leading zero, at most 4294967295. One line before all steps may be
/// `launch local K`, with K from 1 to 256, or `launch local K M`, both at least 1 and their product
/// at most 256, which fixes the local size of all launches. It is no step.
///
/// `Syntax` comes just where a line is none of these or stands where it may not, and names the
/// first. `Limit` comes just where there is no such line, and more than 256 are steps.
pub fn read_script(alloc: Global, text: &[u8]) -> Result<Script, ScriptNo>
    ensures script { IfOk result
        (λ script. IsScript text.now script × (length script.steps ≤ 256)) }
    ensures refused { IfErr result (RefusesScript text.now) }
    ensures exact { (no : ScriptNo) → ReadsScript text.now (Err no)
        → IsErrAnd result (λ e. (e ≡ no) ⊎ (e ≡ ScriptNo.Memory)) }
{
    let opening = opening_of(text);
    script_of(opening.local, steps_in(alloc, opening.rest, opening.lines)?)
}
