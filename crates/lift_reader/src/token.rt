//! The tokens of a program's text.

ghost use Rattle.std.specs.Prelude.{◌≡◌, ◌≤◌, ◌<◌, length, map, IfOk, ℕ, List};
ghost use Rattle.std.specs.List.{prefix_len};
ghost use Rattle.std.specs.Char.{is_ascii_digit};
ghost use Rattle.lift_reader.specs.Tokens.{is_space, is_inner, is_symbol, gap_len, run_len};
ghost use Rattle.lift_reader.specs.Tokens.{within, value_after, number_of, lexeme_of};
ghost use Rattle.lift_reader.specs.Tokens.{AreTokens, Lexeme};
ghost use Rattle.lift_reader.specs.Shown.{lexeme, placed};

use crate::word::Word;
use std::alloc::{AllocError, Global};

/// What a token is. A name borrows its bytes from the text.
#[derive(Clone, Copy, PartialEq, Eq)]
pub enum Kind<'a> {
    /// A reserved word.
    Word(Word),
    /// A letter, and then letters, digits and `_`; at most 32 bytes, and no reserved word.
    Name(&'a [u8]),
    /// Decimal digits without a leading zero.
    Number(u32),
    /// One of `( ) [ ] , ; : = . \ + - *`.
    Symbol(u8),
    /// A longer name, another run of digits, or any other byte: no program has it.
    Wrong,
}

/// A token, and the byte of the text at which it begins.
#[derive(Clone, Copy)]
pub struct Token<'a> {
    pub offset: usize,
    pub kind: Kind<'a>,
}

fn is_space(b: u8) -> bool
    ensures { result ≡ is_space b }
{
    b == b' ' || b == b'\t' || b == b'\r' || b == b'\n'
}

fn is_inner(b: u8) -> bool
    ensures { result ≡ is_inner b }
{
    b.is_ascii_alphabetic() || b.is_ascii_digit() || b == b'_'
}

fn is_symbol(b: u8) -> bool
    ensures { result ≡ is_symbol b }
{
    b == b'('
        || b == b')'
        || b == b'['
        || b == b']'
        || b == b','
        || b == b';'
        || b == b':'
        || b == b'='
        || b == b'.'
        || b == b'\\'
        || b == b'+'
        || b == b'-'
        || b == b'*'
}

/// How long the spaces and comments at the front are.
fn gap_len(text: &[u8]) -> usize
    ensures is { result ≡ gap_len text.now }
    ensures within { result ≤ length text.now }
{
    let mut n = 0;
    let mut comment = false;
    while n < text.len() {
        let b = text[n];
        if comment {
            comment = b != b'\n';
        } else if b == b'#' {
            comment = true;
        } else if !is_space(b) {
            break;
        }
        n += 1;
    }
    n
}

fn inner_len(text: &[u8]) -> usize
    ensures is { result ≡ prefix_len is_inner text.now }
    ensures within { result ≤ length text.now }
{
    text.iter().take_while(|b| is_inner(**b)).count()
}

fn digits_len(text: &[u8]) -> usize
    ensures is { result ≡ prefix_len is_ascii_digit text.now }
    ensures within { result ≤ length text.now }
{
    text.iter().take_while(|b| b.is_ascii_digit()).count()
}

/// How long the run at the front is.
fn run_len(text: &[u8]) -> usize
    ensures is { result ≡ run_len text.now }
    ensures within { result ≤ length text.now }
{
    match text {
        [] => 0,
        [first, rest @ ..] => {
            if first.is_ascii_alphabetic() {
                1 + inner_len(rest)
            } else if first.is_ascii_digit() {
                1 + digits_len(rest)
            } else {
                1
            }
        }
    }
}

fn value_of(digits: &[u8]) -> Option<u32>
    ensures { result ≡ within (value_after 0 digits.now) }
{
    let mut value: u32 = 0;
    for digit in digits {
        let last = u32::from(digit.saturating_sub(b'0'));
        value = value.checked_mul(10)?.checked_add(last)?;
    }
    Some(value)
}

/// The number that digits write, which has no leading zero.
fn number_of(digits: &[u8]) -> Option<u32>
    ensures { result ≡ number_of digits.now }
{
    match digits {
        [] => None,
        [b'0', _, ..] => None,
        _ => value_of(digits),
    }
}

/// What a run is.
fn kind_of(run: &[u8]) -> Kind<'_>
    ensures { lexeme result ≡ lexeme_of run.now }
{
    match run {
        [] => Kind::Wrong,
        [first, ..] => {
            if first.is_ascii_alphabetic() {
                if run.len() > 32 {
                    return Kind::Wrong;
                }
                match Word::from_bytes(run) {
                    Some(word) => Kind::Word(word),
                    None => Kind::Name(run),
                }
            } else if first.is_ascii_digit() {
                match number_of(run) {
                    Some(number) => Kind::Number(number),
                    None => Kind::Wrong,
                }
            } else if is_symbol(*first) {
                Kind::Symbol(*first)
            } else {
                Kind::Wrong
            }
        }
    }
}

/// The tokens of a text, in order.
///
/// Spaces, tabs, CR and LF part tokens, and so do comments, from `#` to the end of the line. The
/// error is want of memory.
pub fn tokens<'a>(alloc: Global, text: &'a [u8]) -> Result<Vec<Token<'a>>, AllocError>
    ensures { IfOk result (λ tokens. AreTokens 0 text.now (map placed tokens.items)) }
{
    let mut tokens = Vec::new(alloc);
    let mut at = 0;
    let mut rest = text;
    loop {
        let gap = gap_len(rest);
        let (_, after) = rest.split_at(gap);
        if after.is_empty() {
            return Ok(tokens);
        }
        let (run, behind) = after.split_at(run_len(after));
        tokens.push(Token {
            offset: at + gap,
            kind: kind_of(run),
        })?;
        at += gap + run.len();
        rest = behind;
    }
}

/// A text has one list of tokens.
pub fn one_list_of_tokens()
    ensures { (at : ℕ) (text : List ℕ) (some others : List (ℕ × Lexeme))
        → AreTokens at text some → AreTokens at text others → some ≡ others }
{}
