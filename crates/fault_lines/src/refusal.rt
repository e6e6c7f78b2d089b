//! Why a program and a script have no kernel: the status, and the line.
ghost use Rattle.std.specs.Prelude.{◌≡◌};
ghost use Rattle.lift_io.specs.Causes.{Rose};
ghost use Rattle.fault_lines.specs.Lines.{TakesLine};
ghost use Rattle.fault_lines.specs.Refusal.{
  limit_line,
  line_of,
  memory_line,
  nest_line,
  status_of,
  step_line,
  type_line,
};

use crate::lines::{Piece, write_line};
use crate::names::{
    alloc_limit_name, condition_name, nest_rule_name, quantity_name, step_limit_name,
    type_limit_name,
};
use buffer_allocation::buffers::AllocNo;
use kernel_sequence::CutNo;
use lift_io::Sink;
use lift_reader::refusal::ReadRefusal;
use lift_tree::place::Place;
use pattern_types::{Rule, Spot, TypeRefusal};
use std::alloc::AllocError;
use strategy_script::{ScriptNo, StepNo, Why};
use thread_mapping::NestNo;

/// Why a program and a script have no kernel: the first cause in the order of the stages.
#[derive(Drop)]
pub enum Refusal {
    /// The program's text isn't one, or is too large.
    Program(ReadRefusal),
    /// The program has no types, or none within the limits.
    Typing(TypeRefusal),
    /// The script's text isn't one, or has too many steps.
    Script(ScriptNo),
    /// A step of the script can't be made, or passes a limit.
    Step(StepNo),
    /// The term isn't cut into kernels: a binder is around a cut, or there are too many.
    Cut(CutNo),
    /// The nest that the steps make of the program breaks a rule.
    Nest(NestNo),
    /// The term passes a limit on layouts or on memory.
    Alloc(AllocNo),
    /// Memory ran out, in whichever stage.
    Memory,
}

/// Writes which limit is passed, and the count.
pub fn report_limit<E: Sink>(err: &mut E, name: &[u8], count: u128)
    ensures { TakesLine (E.taken err.old) (E.taken err.new)
        (Rose (E.faults err.old) (E.faults err.new)) (limit_line name.now count) }
{
    write_line(
        err,
        &[
            Piece::Text(b"lift: limit "),
            Piece::Text(name),
            Piece::Text(b": "),
            Piece::Number(count),
        ],
    );
}

/// Writes that memory ran out.
pub fn report_memory<E: Sink>(err: &mut E)
    ensures { TakesLine (E.taken err.old) (E.taken err.new)
        (Rose (E.faults err.old) (E.faults err.new)) memory_line }
{
    write_line(err, &[Piece::Text(b"lift: memory")]);
}

// Writes where a program's text doesn't go on.
fn report_token<E: Sink>(err: &mut E, token: usize, offset: usize)
    ensures { TakesLine (E.taken err.old) (E.taken err.new)
        (Rose (E.faults err.old) (E.faults err.new))
        (line_of (Refusal.Program (ReadRefusal.Syntax token offset))) }
{
    write_line(
        err,
        &[
            Piece::Text(b"lift: program: token "),
            Piece::Number(token as u128),
            Piece::Text(b", byte "),
            Piece::Number(offset as u128),
        ],
    );
}

// Writes which rule is broken, and where.
fn report_rule<E: Sink>(err: &mut E, rule: Rule, spot: &Spot)
    ensures { TakesLine (E.taken err.old) (E.taken err.new)
        (Rose (E.faults err.old) (E.faults err.new)) (type_line rule spot.now) }
{
    match spot {
        Spot::Input(number) => write_line(
            err,
            &[
                Piece::Text(b"lift: type: "),
                Piece::Text(rule.name()),
                Piece::Text(b" at input "),
                Piece::Number(*number as u128),
            ],
        ),
        Spot::Node(place) => write_line(
            err,
            &[
                Piece::Text(b"lift: type: "),
                Piece::Text(rule.name()),
                Piece::Text(b" at "),
                Piece::Place(place.numbers()),
            ],
        ),
    }
}

fn report_program<E: Sink>(err: &mut E, no: &ReadRefusal)
    ensures { TakesLine (E.taken err.old) (E.taken err.new)
        (Rose (E.faults err.old) (E.faults err.new)) (line_of (Refusal.Program no.now)) }
{
    match no {
        ReadRefusal::Syntax { token, offset } => report_token(err, *token, *offset),
        ReadRefusal::Limit { which, count } => {
            report_limit(err, quantity_name(*which), *count as u128);
        }
        ReadRefusal::Memory => report_memory(err),
    }
}

fn report_typing<E: Sink>(err: &mut E, no: &TypeRefusal)
    ensures { TakesLine (E.taken err.old) (E.taken err.new)
        (Rose (E.faults err.old) (E.faults err.new)) (line_of (Refusal.Typing no.now)) }
{
    match no {
        TypeRefusal::IllTyped { spot, rule } => report_rule(err, *rule, spot),
        TypeRefusal::Limit { which, count, .. } => {
            report_limit(err, type_limit_name(*which), *count);
        }
        TypeRefusal::Memory => report_memory(err),
    }
}

fn report_script<E: Sink>(err: &mut E, no: ScriptNo)
    ensures { TakesLine (E.taken err.old) (E.taken err.new)
        (Rose (E.faults err.old) (E.faults err.new)) (line_of (Refusal.Script no)) }
{
    match no {
        ScriptNo::Syntax { line } => write_line(
            err,
            &[
                Piece::Text(b"lift: script: line "),
                Piece::Number(line as u128),
            ],
        ),
        ScriptNo::Limit { count, .. } => report_limit(err, b"steps", count as u128),
        ScriptNo::Memory => report_memory(err),
    }
}

// Writes why the rule of a step isn't applied.
fn report_why<E: Sink>(err: &mut E, step: u64, why: Why)
    ensures { TakesLine (E.taken err.old) (E.taken err.new)
        (Rose (E.faults err.old) (E.faults err.new)) (step_line step why) }
{
    match why {
        Why::NoPlace => write_line(
            err,
            &[
                Piece::Text(b"lift: step "),
                Piece::Number(step as u128),
                Piece::Text(b": no place"),
            ],
        ),
        Why::Shape => write_line(
            err,
            &[
                Piece::Text(b"lift: step "),
                Piece::Number(step as u128),
                Piece::Text(b": shape"),
            ],
        ),
        Why::Side(condition) => write_line(
            err,
            &[
                Piece::Text(b"lift: step "),
                Piece::Number(step as u128),
                Piece::Text(b": side "),
                Piece::Text(condition_name(condition)),
            ],
        ),
    }
}

fn report_step<E: Sink>(err: &mut E, no: StepNo)
    ensures { TakesLine (E.taken err.old) (E.taken err.new)
        (Rose (E.faults err.old) (E.faults err.new)) (line_of (Refusal.Step no)) }
{
    match no {
        StepNo::Inapplicable { step, why } => report_why(err, step, why),
        StepNo::Limit { which, count, .. } => report_limit(err, step_limit_name(which), count),
        StepNo::Memory => report_memory(err),
    }
}

// Writes which rule of the nest is broken, and where.
fn report_place<E: Sink>(err: &mut E, rule: &'static [u8], place: &Place)
    ensures { TakesLine (E.taken err.old) (E.taken err.new)
        (Rose (E.faults err.old) (E.faults err.new)) (nest_line rule.now place.now) }
{
    write_line(
        err,
        &[
            Piece::Text(b"lift: nest: "),
            Piece::Text(rule),
            Piece::Text(b" at "),
            Piece::Place(place.numbers()),
        ],
    );
}

fn report_cut<E: Sink>(err: &mut E, no: &CutNo)
    ensures { TakesLine (E.taken err.old) (E.taken err.new)
        (Rose (E.faults err.old) (E.faults err.new)) (line_of (Refusal.Cut no.now)) }
{
    match no {
        CutNo::Nest { place, rule } => report_place(err, nest_rule_name(*rule), place),
        CutNo::Limit { count } => report_limit(err, b"kernels", *count as u128),
        CutNo::Memory => report_memory(err),
    }
}

fn report_nest<E: Sink>(err: &mut E, no: &NestNo)
    ensures { TakesLine (E.taken err.old) (E.taken err.new)
        (Rose (E.faults err.old) (E.faults err.new)) (line_of (Refusal.Nest no.now)) }
{
    match no {
        NestNo::Nest { place, rule } => report_place(err, nest_rule_name(*rule), place),
        NestNo::Memory => report_memory(err),
    }
}

fn report_alloc<E: Sink>(err: &mut E, no: &AllocNo)
    ensures { TakesLine (E.taken err.old) (E.taken err.new)
        (Rose (E.faults err.old) (E.faults err.new)) (line_of (Refusal.Alloc no.now)) }
{
    match no {
        AllocNo::Limit { which, count } => {
            report_limit(err, alloc_limit_name(*which), *count as u128);
        }
        AllocNo::Memory => report_memory(err),
    }
}

impl Refusal {
    /// The status that the program ends with.
    pub fn status(&self) -> u8
        ensures { result ≡ status_of self.now }
    {
        match self {
            Refusal::Program(ReadRefusal::Syntax { .. }) => 6,
            Refusal::Typing(TypeRefusal::IllTyped { .. }) => 7,
            Refusal::Script(ScriptNo::Syntax { .. }) => 8,
            Refusal::Step(StepNo::Inapplicable { .. }) => 9,
            Refusal::Program(ReadRefusal::Limit { .. })
            | Refusal::Typing(TypeRefusal::Limit { .. })
            | Refusal::Script(ScriptNo::Limit { .. })
            | Refusal::Step(StepNo::Limit { .. })
            | Refusal::Cut(CutNo::Limit { .. })
            | Refusal::Alloc(AllocNo::Limit { .. }) => 10,
            Refusal::Cut(CutNo::Nest { .. }) | Refusal::Nest(NestNo::Nest { .. }) => 11,
            Refusal::Program(ReadRefusal::Memory)
            | Refusal::Typing(TypeRefusal::Memory)
            | Refusal::Script(ScriptNo::Memory)
            | Refusal::Step(StepNo::Memory)
            | Refusal::Cut(CutNo::Memory)
            | Refusal::Nest(NestNo::Memory)
            | Refusal::Alloc(AllocNo::Memory)
            | Refusal::Memory => 13,
        }
    }

    /// Writes the line that tells of it, without taking memory. A write that fails changes nothing
    /// else.
    pub fn report<E: Sink>(&self, err: &mut E)
        ensures { TakesLine (E.taken err.old) (E.taken err.new)
            (Rose (E.faults err.old) (E.faults err.new)) (line_of self.now) }
    {
        match self {
            Refusal::Program(no) => report_program(err, no),
            Refusal::Typing(no) => report_typing(err, no),
            Refusal::Script(no) => report_script(err, *no),
            Refusal::Step(no) => report_step(err, *no),
            Refusal::Cut(no) => report_cut(err, no),
            Refusal::Nest(no) => report_nest(err, no),
            Refusal::Alloc(no) => report_alloc(err, no),
            Refusal::Memory => report_memory(err),
        }
    }
}

impl From<AllocError> for Refusal {
    ghost use Rattle.fault_lines.specs.declared.refusal.Refusal.TheVariants.{Memory};

    ghost from_gives = { λ _ e. e ≡ Memory };

    fn from(_: AllocError) -> Self {
        Refusal::Memory
    }
}

impl From<ReadRefusal> for Refusal {
    ghost use Rattle.fault_lines.specs.Refusal.{program_refused};

    ghost from_gives = { λ no e. e ≡ program_refused no };

    fn from(no: ReadRefusal) -> Self {
        match no {
            ReadRefusal::Memory => Refusal::Memory,
            no => Refusal::Program(no),
        }
    }
}

impl From<TypeRefusal> for Refusal {
    ghost use Rattle.fault_lines.specs.Refusal.{typing_refused};

    ghost from_gives = { λ no e. e ≡ typing_refused no };

    fn from(no: TypeRefusal) -> Self {
        match no {
            TypeRefusal::Memory => Refusal::Memory,
            no => Refusal::Typing(no),
        }
    }
}

impl From<ScriptNo> for Refusal {
    ghost use Rattle.fault_lines.specs.Refusal.{script_refused};

    ghost from_gives = { λ no e. e ≡ script_refused no };

    fn from(no: ScriptNo) -> Self {
        match no {
            ScriptNo::Memory => Refusal::Memory,
            no => Refusal::Script(no),
        }
    }
}

impl From<StepNo> for Refusal {
    ghost use Rattle.fault_lines.specs.Refusal.{step_refused};

    ghost from_gives = { λ no e. e ≡ step_refused no };

    fn from(no: StepNo) -> Self {
        match no {
            StepNo::Memory => Refusal::Memory,
            no => Refusal::Step(no),
        }
    }
}

impl From<CutNo> for Refusal {
    ghost use Rattle.fault_lines.specs.Refusal.{cut_refused};

    ghost from_gives = { λ no e. e ≡ cut_refused no };

    fn from(no: CutNo) -> Self {
        match no {
            CutNo::Memory => Refusal::Memory,
            no => Refusal::Cut(no),
        }
    }
}

impl From<NestNo> for Refusal {
    ghost use Rattle.fault_lines.specs.Refusal.{nest_refused};

    ghost from_gives = { λ no e. e ≡ nest_refused no };

    fn from(no: NestNo) -> Self {
        match no {
            NestNo::Memory => Refusal::Memory,
            no => Refusal::Nest(no),
        }
    }
}

impl From<AllocNo> for Refusal {
    ghost use Rattle.fault_lines.specs.Refusal.{alloc_refused};

    ghost from_gives = { λ no e. e ≡ alloc_refused no };

    fn from(no: AllocNo) -> Self {
        match no {
            AllocNo::Memory => Refusal::Memory,
            no => Refusal::Alloc(no),
        }
    }
}
