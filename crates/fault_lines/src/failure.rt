//! Why a call ends without a result: its status and its line.
ghost use Rattle.std.specs.Prelude.{◌≡◌};
ghost use Rattle.lift_io.specs.Causes.{Rose};
ghost use Rattle.lift_tree.specs.Programs.{program_of};
ghost use Rattle.launch_file.specs.Line as launches;
ghost use Rattle.fault_lines.specs.Failure.{launch_failed, line_of, status_of};
ghost use Rattle.fault_lines.specs.Lines.{TakesLine, piece_text};
ghost use Rattle.fault_lines.specs.Shown.{failure_of};

use crate::lines::{Piece, write_line};
use crate::refusal::{Refusal, report_limit, report_memory};
use buffer_allocation::buffers::AllocNo;
use command_line::WordsNo;
use kernel_sequence::CutNo;
use launch_file::line::Detail;
use launch_file::refusal::LaunchNo;
use lift_io::Sink;
use lift_reader::refusal::ReadRefusal;
use lift_tree::program::Program;
use pattern_types::TypeRefusal;
use std::alloc::{AllocError, AllocFailed};
use strategy_script::{ScriptNo, StepNo};
use thread_mapping::NestNo;

/// Why a call ends without a result. Want of memory is handed on as that, and stands inside no
/// other variant of what a call answers.
#[derive(Drop)]
pub enum Failure {
    /// The words are no command.
    Words,
    /// The file of this name couldn't be read.
    Read(String),
    /// A file has more bytes than it may have; one more was counted.
    TooLong { count: u64 },
    /// The output couldn't be written.
    Write,
    /// The program and the script have no kernel.
    Source(Refusal),
    /// The launch file is none for this program, for this cause.
    Launch { program: Program, no: LaunchNo },
    /// Memory ran out.
    Memory,
}

// The part of a line that tells this.
fn told_by(detail: Detail<'_>) -> Piece<'_>
    ensures { piece_text result ≡ launches.detail_text detail.entry }
{
    match detail {
        Detail::Nothing => Piece::Text(b""),
        Detail::Name(name) => Piece::Text(name),
        Detail::Number(number) => Piece::Number(number as u128),
        Detail::Pair(first, second) => Piece::Pair(first, second),
    }
}

// Writes why a launch file is none for a program.
fn report_launch<E: Sink>(err: &mut E, program: &Program, no: LaunchNo)
    ensures { TakesLine (E.taken err.old) (E.taken err.new)
        (Rose (E.faults err.old) (E.faults err.new))
        (launches.line_of (program_of program.now) no) }
{
    let line = no.line(program);
    write_line(
        err,
        &[
            Piece::Text(line.head),
            told_by(line.first),
            Piece::Text(line.between),
            told_by(line.second),
        ],
    );
}

impl Failure {
    /// What it fails for whose launch file is none for this program.
    pub fn for_launch(program: Program, no: LaunchNo) -> Failure
        ensures { failure_of result ≡ launch_failed (program_of program) no }
    {
        match no {
            LaunchNo::Memory => Failure::Memory,
            no => Failure::Launch { program, no },
        }
    }

    /// The status that the program ends with.
    pub fn status(&self) -> u8
        ensures { result ≡ status_of (failure_of self.now) }
    {
        match self {
            Failure::Words => 2,
            Failure::Read(_) => 3,
            Failure::Write => 4,
            Failure::TooLong { .. } => 10,
            Failure::Source(no) => no.status(),
            Failure::Launch {
                no: LaunchNo::Memory,
                ..
            } => 13,
            Failure::Launch { .. } => 12,
            Failure::Memory => 13,
        }
    }

    /// Writes the line that tells of it, without taking memory. A write that fails changes nothing
    /// else.
    pub fn report<E: Sink>(&self, err: &mut E)
        ensures { TakesLine (E.taken err.old) (E.taken err.new)
            (Rose (E.faults err.old) (E.faults err.new)) (line_of (failure_of self.now)) }
    {
        match self {
            Failure::Words => write_line(err, &[Piece::Text(b"lift: words")]),
            Failure::Read(name) => write_line(
                err,
                &[
                    Piece::Text(b"lift: read "),
                    Piece::Text(name.as_str().as_bytes()),
                ],
            ),
            Failure::Write => write_line(err, &[Piece::Text(b"lift: write")]),
            Failure::TooLong { count } => report_limit(err, b"bytes", *count as u128),
            Failure::Source(no) => no.report(err),
            Failure::Launch { program, no } => report_launch(err, program, *no),
            Failure::Memory => report_memory(err),
        }
    }
}

impl From<AllocError> for Failure {
    ghost use Rattle.fault_lines.specs.declared.failure.Failure.TheVariants.{Memory};

    ghost from_gives = { λ _ e. e ≡ Memory };

    fn from(_: AllocError) -> Self {
        Failure::Memory
    }
}

impl<T: Drop> From<AllocFailed<T>> for Failure {
    ghost use Rattle.fault_lines.specs.declared.failure.Failure.TheVariants.{Memory};

    ghost from_gives = { λ _ e. e ≡ Memory };

    fn from(_: AllocFailed<T>) -> Self {
        Failure::Memory
    }
}

impl From<WordsNo> for Failure {
    ghost use Rattle.fault_lines.specs.Shown.{failure_of, words_failed};
    ghost use Rattle.std.specs.Prelude.{◌≡◌};

    ghost from_gives = { λ no e. failure_of e ≡ words_failed no };

    fn from(no: WordsNo) -> Self {
        match no {
            WordsNo::Refused => Failure::Words,
            WordsNo::Memory => Failure::Memory,
        }
    }
}

impl From<Refusal> for Failure {
    ghost use Rattle.std.specs.Prelude.{◌≡◌};
    ghost use Rattle.fault_lines.specs.Failure.{source_failed};
    ghost use Rattle.fault_lines.specs.Shown.{failure_of};

    ghost from_gives = { λ no e. failure_of e ≡ source_failed no };

    fn from(no: Refusal) -> Self {
        match no {
            Refusal::Program(ReadRefusal::Memory)
            | Refusal::Typing(TypeRefusal::Memory)
            | Refusal::Script(ScriptNo::Memory)
            | Refusal::Step(StepNo::Memory)
            | Refusal::Cut(CutNo::Memory)
            | Refusal::Nest(NestNo::Memory)
            | Refusal::Alloc(AllocNo::Memory)
            | Refusal::Memory => Failure::Memory,
            no => Failure::Source(no),
        }
    }
}
