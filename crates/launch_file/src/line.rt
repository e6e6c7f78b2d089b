//! The line that tells why bytes are no launch file.

ghost use Rattle.std.specs.Prelude.{◌≡◌, ◌++◌, codes, decimal};
ghost use Rattle.lift_tree.specs.Programs.{program_of};
ghost use Rattle.launch_file.specs.Line.{input_name, line_of, line_text, size_name};

use crate::refusal::{Key, LaunchNo};
use lift_tree::program::Program;

/// What a part of a line tells.
#[derive(Clone, Copy)]
pub enum Detail<'a> {
    Nothing,
    /// A name, byte by byte.
    Name(&'a [u8]),
    /// A number, written in decimal.
    Number(u64),
    /// Two numbers: the first alone where the second is 1, else `[a,b]`.
    Pair(u64, u64),
}

/// A line without its end, in four parts: so it can be written without taking memory.
#[derive(Clone, Copy)]
pub struct Line<'a> {
    pub head: &'a [u8],
    pub first: Detail<'a>,
    pub between: &'a [u8],
    pub second: Detail<'a>,
}

impl<'a> Line<'a> {
    // The line of these words alone.
    fn words(head: &'a [u8]) -> Self
        ensures { line_text result ≡ head.entry.now }
    {
        Line {
            head,
            first: Detail::Nothing,
            between: b"",
            second: Detail::Nothing,
        }
    }

    // The line that a kernel's launch lacks this key.
    fn numbered(kernel: usize, key: &'a [u8]) -> Self
        ensures { line_text result ≡ codes "lift: launch: missing launches."
            ++ decimal kernel ++ key.entry.now }
    {
        Line {
            head: b"lift: launch: missing launches.",
            first: Detail::Number(kernel as u64),
            between: key,
            second: Detail::Nothing,
        }
    }

    // The line that ends with a name.
    fn named(head: &'a [u8], name: &'a [u8]) -> Self
        ensures { line_text result ≡ head.entry.now ++ name.entry.now }
    {
        Line {
            head,
            first: Detail::Name(name),
            between: b"",
            second: Detail::Nothing,
        }
    }
}

#[tactic(auto, using(crate::proofs::NamesAt::names_at))]
// The name of the declared size of this number, or no name.
fn size_name(program: &Program, number: usize) -> &[u8]
    ensures { result.now ≡ size_name (program_of program.entry.now) number }
{
    match program.sizes.get(number) {
        Some(size) => size.name.bytes(),
        None => b"",
    }
}

#[tactic(auto, using(crate::proofs::NamesAt::names_at))]
// The name of the input of this number, or no name.
fn input_name(program: &Program, number: usize) -> &[u8]
    ensures { result.now ≡ input_name (program_of program.entry.now) number }
{
    match program.inputs.get(number) {
        Some(input) => input.name.bytes(),
        None => b"",
    }
}

// The line on a key that is missing.
fn missing(key: Key, program: &Program) -> Line<'_>
    ensures { line_text result ++ codes "\n"
        ≡ line_of (program_of program.entry.now) (LaunchNo.Missing key) }
{
    match key {
        Key::Global => Line::words(b"lift: launch: missing global"),
        Key::Local => Line::words(b"lift: launch: missing local"),
        Key::Sizes => Line::words(b"lift: launch: missing sizes"),
        Key::Inputs => Line::words(b"lift: launch: missing inputs"),
        Key::Schedule => Line::words(b"lift: launch: missing schedule"),
        Key::SizeAt(size) => {
            Line::named(b"lift: launch: missing sizes.", size_name(program, size))
        }
        Key::InputAt(input) => {
            Line::named(b"lift: launch: missing inputs.", input_name(program, input))
        }
        Key::Launches => Line::words(b"lift: launch: missing launches"),
        Key::GlobalOf(kernel) => Line::numbered(kernel, b".global"),
        Key::LocalOf(kernel) => Line::numbered(kernel, b".local"),
    }
}

impl LaunchNo {
    /// The line that tells of it, by the program's names. Want of memory has the line of any other.
    pub fn line<'a>(&self, program: &'a Program) -> Line<'a>
        ensures { line_text result ++ codes "\n" ≡ line_of (program_of program.entry.now) self.now }
    {
        match self {
            LaunchNo::NotJson => Line::words(b"lift: launch: not json"),
            LaunchNo::Missing(key) => missing(*key, program),
            LaunchNo::Size { size, given } => Line {
                head: b"lift: launch: size ",
                first: Detail::Name(size_name(program, *size)),
                between: b" is ",
                second: Detail::Number(*given),
            },
            LaunchNo::Local { global, local } => Line {
                head: b"lift: launch: global ",
                first: Detail::Pair(global.0, global.1),
                between: b", local ",
                second: Detail::Pair(local.0, local.1),
            },
            LaunchNo::NotTask { global } => Line {
                head: b"lift: launch: global ",
                first: Detail::Pair(global.0, global.1),
                between: b" for one item",
                second: Detail::Nothing,
            },
            LaunchNo::NotFlat { rows } => Line {
                head: b"lift: launch: rows ",
                first: Detail::Number(*rows),
                between: b" for one row",
                second: Detail::Nothing,
            },
            LaunchNo::Shape { input } => {
                Line::named(b"lift: launch: shape ", input_name(program, *input))
            }
            LaunchNo::Memory => Line::words(b"lift: memory"),
        }
    }
}
