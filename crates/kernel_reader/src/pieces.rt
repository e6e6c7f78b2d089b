//! The pieces of a text.

ghost use Rattle.std.specs.Prelude.{◌≡◌, ◌≤◌, ◌<◌, ◌^◌, length, map, take, sum_by, IfOk};
ghost use Rattle.std.specs.List.{prefix_len};
ghost use Rattle.kernel_tree.specs.Pieces.{is_word, is_blank, piece_len, ArePieces};
ghost use Rattle.kernel_reader.specs.Views.{bytes_of};

use std::alloc::{AllocError, Global};

fn is_word(b: u8) -> bool
    ensures { result ≡ is_word b }
{
    b.is_ascii_alphabetic() || b.is_ascii_digit() || b == b'_'
}

fn word_len(text: &[u8]) -> usize
    ensures is { result ≡ prefix_len is_word text.now }
    ensures within { result ≤ length text.now }
{
    text.iter().take_while(|b| is_word(**b)).count()
}

fn blank_len(text: &[u8]) -> usize
    ensures is { result ≡ prefix_len is_blank text.now }
    ensures within { result ≤ length text.now }
{
    text.iter().take_while(|b| **b == b' ').count()
}

/// How long the piece at the front is.
fn piece_len(text: &[u8]) -> usize
    ensures is { result ≡ piece_len text.now }
    ensures within { result ≤ length text.now }
{
    match text {
        [] => 0,
        [first, rest @ ..] => {
            if is_word(*first) {
                1 + word_len(rest)
            } else if *first == b' ' {
                1 + blank_len(rest)
            } else {
                1
            }
        }
    }
}

/// The pieces of a text, in order: longest runs of letters, digits and `_`, longest runs of spaces,
/// and single other bytes.
pub fn pieces<'a>(alloc: Global, text: &'a [u8]) -> Result<Vec<&'a [u8]>, AllocError>
    ensures { IfOk result (λ pieces. ArePieces text.now (map bytes_of pieces.items)) }
{
    let mut pieces = Vec::new(alloc);
    let mut rest = text;
    loop {
        if rest.is_empty() {
            return Ok(pieces);
        }
        let (piece, behind) = rest.split_at(piece_len(rest));
        pieces.push(piece)?;
        rest = behind;
    }
}

/// The bytes of the first pieces together.
pub fn offset_of(pieces: &[&[u8]], taken: usize) -> usize
    requires within { taken ≤ length pieces.now }
    requires fits { sum_by (λ p. length (bytes_of p)) pieces.now < 2 ^ 64 }
    ensures { result ≡ sum_by (λ p. length (bytes_of p)) (take taken pieces.now) }
{
    let mut offset = 0;
    for i in 0..taken {
        offset += pieces[i].len();
    }
    offset
}
