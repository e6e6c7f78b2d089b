//! The demo's line.
ghost use Rattle.std.specs.Prelude.{◌≡◌, ◌++◌, IfOk, OnOk, decimal};
ghost use Rattle.demo_program.specs.Line.{demo_line};

use itoa::Buffer;
use std::alloc::{AllocError, Global};

// Writes a word and a number in decimal digits behind the text.
fn push_count(text: &mut Vec<u8>, word: &[u8], count: u64) -> Result<(), AllocError>
    ensures { OnOk result (text.new.items ≡ text.old.items ++ word.now ++ decimal count) }
{
    let mut digits = Buffer::new();
    text.extend_from_slice(word)?;
    text.extend_from_slice(digits.format(count).as_bytes())
}

/// The line of a demo: its seed, the counts of events and of releases, and the wrapped sum.
pub fn demo_line(
    alloc: Global,
    seed: u32,
    counts: (u64, u64),
    sum: u32,
) -> Result<Vec<u8>, AllocError>
    ensures { IfOk result (λ line. line.items ≡ demo_line seed counts sum) }
{
    let mut line = Vec::new(alloc);
    push_count(&mut line, b"demo ", u64::from(seed))?;
    push_count(&mut line, b": events ", counts.0)?;
    push_count(&mut line, b", releases ", counts.1)?;
    push_count(&mut line, b", sum ", u64::from(sum))?;
    line.push(b'\n')?;
    Ok(line)
}
