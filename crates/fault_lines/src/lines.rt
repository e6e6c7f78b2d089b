//! Lines, written in pieces without taking memory.
ghost use Rattle.std.specs.Prelude.{◌∷◌, OnOk, decimal};
ghost use Rattle.std.specs.Io.KnownBytes.{Appends};
ghost use Rattle.launch_file.specs.Line.{pair_text};
ghost use Rattle.lift_io.specs.Causes.{HasCause, Rose};
ghost use Rattle.fault_lines.specs.Lines.{
  TakesLine,
  TakesPrefix,
  dotted,
  line_in_pieces,
  piece_text,
  place_text,
};

use itoa::Buffer;
use lift_io::{Sink, WriteFailed, write_whole};

/// A part of a line.
#[derive(Clone, Copy)]
pub enum Piece<'a> {
    /// These bytes.
    Text(&'a [u8]),
    /// A number in decimal.
    Number(u128),
    /// Two numbers: the first alone where the second is 1, else `[a,b]`.
    Pair(u64, u64),
    /// A place in a term: `.` for the root, or its numbers with `.` between.
    Place(&'a [u32]),
}

fn write_number<S: Sink>(sink: &mut S, number: u128) -> Result<(), WriteFailed>
    ensures all { OnOk result (Appends (S.taken sink.old) (S.taken sink.new)
        (decimal number)) }
    ensures prefix { TakesPrefix (S.taken sink.old) (S.taken sink.new) (decimal number) }
    ensures cause { HasCause (S.faults sink.old) (S.faults sink.new) result }
{
    let mut digits = Buffer::new();
    write_whole(sink, digits.format(number).as_bytes())
}

// Writes a dot, and then a number.
fn write_behind_dot<S: Sink>(sink: &mut S, number: u32) -> Result<(), WriteFailed>
    ensures all { OnOk result (Appends (S.taken sink.old) (S.taken sink.new)
        (46 ∷ decimal number)) }
    ensures prefix { TakesPrefix (S.taken sink.old) (S.taken sink.new) (46 ∷ decimal number) }
    ensures cause { HasCause (S.faults sink.old) (S.faults sink.new) result }
{
    write_whole(sink, b".")?;
    write_number(sink, number as u128)
}

// Writes numbers, each behind a dot.
fn write_dotted<S: Sink>(sink: &mut S, numbers: &[u32]) -> Result<(), WriteFailed>
    ensures all { OnOk result (Appends (S.taken sink.old) (S.taken sink.new)
        (dotted numbers.now)) }
    ensures prefix { TakesPrefix (S.taken sink.old) (S.taken sink.new) (dotted numbers.now) }
    ensures cause { HasCause (S.faults sink.old) (S.faults sink.new) result }
{
    match numbers {
        [] => write_whole(sink, b""),
        [first, rest @ ..] => {
            write_behind_dot(sink, *first)?;
            write_dotted(sink, rest)
        }
    }
}

fn write_place<S: Sink>(sink: &mut S, numbers: &[u32]) -> Result<(), WriteFailed>
    ensures all { OnOk result (Appends (S.taken sink.old) (S.taken sink.new)
        (place_text numbers.now)) }
    ensures prefix { TakesPrefix (S.taken sink.old) (S.taken sink.new) (place_text numbers.now) }
    ensures cause { HasCause (S.faults sink.old) (S.faults sink.new) result }
{
    match numbers {
        [] => write_whole(sink, b"."),
        [first, rest @ ..] => {
            write_number(sink, *first as u128)?;
            write_dotted(sink, rest)
        }
    }
}

fn write_pair<S: Sink>(sink: &mut S, first: u64, second: u64) -> Result<(), WriteFailed>
    ensures all { OnOk result (Appends (S.taken sink.old) (S.taken sink.new)
        (pair_text first second)) }
    ensures prefix { TakesPrefix (S.taken sink.old) (S.taken sink.new) (pair_text first second) }
    ensures cause { HasCause (S.faults sink.old) (S.faults sink.new) result }
{
    if second == 1 {
        return write_number(sink, first as u128);
    }
    write_whole(sink, b"[")?;
    write_number(sink, first as u128)?;
    write_whole(sink, b",")?;
    write_number(sink, second as u128)?;
    write_whole(sink, b"]")
}

fn write_piece<S: Sink>(sink: &mut S, piece: &Piece<'_>) -> Result<(), WriteFailed>
    ensures all { OnOk result (Appends (S.taken sink.old) (S.taken sink.new)
        (piece_text piece.now)) }
    ensures prefix { TakesPrefix (S.taken sink.old) (S.taken sink.new) (piece_text piece.now) }
    ensures cause { HasCause (S.faults sink.old) (S.faults sink.new) result }
{
    match piece {
        Piece::Text(text) => write_whole(sink, text),
        Piece::Number(number) => write_number(sink, *number),
        Piece::Pair(first, second) => write_pair(sink, *first, *second),
        Piece::Place(numbers) => write_place(sink, numbers),
    }
}

fn write_pieces<S: Sink>(sink: &mut S, pieces: &[Piece<'_>]) -> Result<(), WriteFailed>
    ensures all { OnOk result (Appends (S.taken sink.old) (S.taken sink.new)
        (line_in_pieces pieces.now)) }
    ensures prefix { TakesPrefix (S.taken sink.old) (S.taken sink.new) (line_in_pieces pieces.now) }
    ensures cause { HasCause (S.faults sink.old) (S.faults sink.new) result }
{
    match pieces {
        [] => write_whole(sink, b"\n"),
        [first, rest @ ..] => {
            write_piece(sink, first)?;
            write_pieces(sink, rest)
        }
    }
}

/// Writes a line, as far as the sink takes it. A write that fails changes nothing else.
pub fn write_line<E: Sink>(err: &mut E, pieces: &[Piece<'_>])
    ensures { TakesLine (E.taken err.old) (E.taken err.new)
        (Rose (E.faults err.old) (E.faults err.new)) (line_in_pieces pieces.now) }
{
    let _ = write_pieces(err, pieces);
}
