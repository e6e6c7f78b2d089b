//! The line that fixes the local size of all launches.

ghost use Rattle.std.specs.Prelude.{◌≡◌};
ghost use Rattle.lift_tree.specs.FixedSizes.{size_fixed};
ghost use Rattle.strategy_script.specs.LocalSize.{last_size, local_of, rows_behind, size_behind, size_written};

use crate::lines::split_word;
use crate::numbers::number_of;
use lift_tree::local_size::LocalSize;

// The size that may be fixed, where no word follows.
fn last_size(across: u32, down: u32, behind: &[u8]) -> Option<LocalSize>
    ensures { size_fixed result ≡ last_size across down behind.now }
{
    let (end, _) = split_word(behind);
    if end.is_empty() {
        LocalSize::new(across, down)
    } else {
        None
    }
}

// The size of rows of so many work-items: one row where no word follows, else as many as the text's
// first word writes, where it is the last word.
fn rows_behind(across: u32, text: &[u8]) -> Option<LocalSize>
    ensures { size_fixed result ≡ rows_behind across text.now }
{
    let (word, behind) = split_word(text);
    if word.is_empty() {
        LocalSize::new(across, 1)
    } else {
        let down = number_of(word)?;
        last_size(across, down, behind)
    }
}

// The size that the text's first words write, where they are the last.
fn size_written(text: &[u8]) -> Option<LocalSize>
    ensures { size_fixed result ≡ size_written text.now }
{
    let (word, behind) = split_word(text);
    let across = number_of(word)?;
    rows_behind(across, behind)
}

// The size behind the word `local`.
fn size_behind(text: &[u8]) -> Option<LocalSize>
    ensures { size_fixed result ≡ size_behind text.now }
{
    let (local, behind) = split_word(text);
    if local == b"local".as_slice() {
        size_written(behind)
    } else {
        None
    }
}

/// The local size that a line fixes: `launch local K`, with K from 1 to 256, or `launch local K M`,
/// both at least 1 and their product at most 256; without M there is one row.
pub fn local_of(line: &[u8]) -> Option<LocalSize>
    ensures { size_fixed result ≡ local_of line.now }
{
    let (launch, behind) = split_word(line);
    if launch == b"launch".as_slice() {
        size_behind(behind)
    } else {
        None
    }
}
