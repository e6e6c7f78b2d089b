//! Lines and their words.

ghost use Rattle.std.specs.Prelude.{◌≡◌, ◌<◌, ◌≤◌, ◌∷◌, length};
ghost use Rattle.std.specs.List.{position_or_len, prefix_len};
ghost use Rattle.std.specs.Str.Lines.{lines, strip_carriage_return};
ghost use Rattle.strategy_script.specs.Lines.{behind_word, first_word, from_word, is_blank, is_inner, is_line_end, is_no_step};

fn is_blank(byte: u8) -> bool
    ensures { result ≡ is_blank byte }
{
    byte == b' ' || byte == b'\t'
}

fn blanks_len(line: &[u8]) -> usize
    ensures is { result ≡ prefix_len is_blank line.now }
    ensures within { result ≤ length line.now }
{
    line.iter().take_while(|byte| is_blank(**byte)).count()
}

fn word_len(line: &[u8]) -> usize
    ensures is { result ≡ prefix_len is_inner line.now }
    ensures within { result ≤ length line.now }
{
    line.iter().take_while(|byte| !is_blank(**byte)).count()
}

// A line from its first word on.
fn from_word(line: &[u8]) -> &[u8]
    ensures { result.now ≡ from_word line.now }
{
    let (_, rest) = line.split_at(blanks_len(line));
    rest
}

/// The first word of a line, which is empty where there is none, and what stands behind it.
pub fn split_word(line: &[u8]) -> (&[u8], &[u8])
    ensures first { result.0.now ≡ first_word line.now }
    ensures behind { result.1.now ≡ behind_word line.now }
{
    let rest = from_word(line);
    rest.split_at(word_len(rest))
}

/// Whether the line is empty, of blanks alone, or a comment.
pub fn is_no_step(line: &[u8]) -> bool
    ensures { result ≡ is_no_step line.now }
{
    match from_word(line) {
        [] => true,
        [first, ..] => *first == b'#',
    }
}

fn line_len(text: &[u8]) -> usize
    ensures is { result ≡ position_or_len is_line_end text.now }
    ensures within { result ≤ length text.now }
{
    text.iter().take_while(|byte| **byte != b'\n').count()
}

/// The first line of a text that isn't empty, and the text behind it.
pub fn split_line(text: &[u8]) -> (&[u8], &[u8])
    requires { 0 < length text.now }
    ensures lines { lines text.now ≡ result.0.now ∷ lines result.1.now }
    ensures shorter { length result.1.now < length text.now }
{
    let length = line_len(text);
    if length == text.len() {
        text.split_at(length)
    } else {
        (
            without_carriage_return(&text[..length]),
            &text[length + 1..],
        )
    }
}

fn without_carriage_return(line: &[u8]) -> &[u8]
    ensures { result.now ≡ strip_carriage_return line.now }
{
    match line {
        [rest @ .., b'\r'] => rest,
        _ => line,
    }
}
