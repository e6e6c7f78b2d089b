//! The lines of a trace.

ghost use Rattle.std.specs.Prelude.{◌≡◌, ◌++◌, IfOk, OnOk};
ghost use Rattle.launch_file.specs.TraceLines as spec;
ghost use Rattle.launch_file.specs.TraceLines.{told, trace_line, trace_lines};

use crate::result::push_number;
use kernel_tree::events::{Access, Cell, Event, Seen};
use kernel_tree::tree::Array;
use std::alloc::{AllocError, Global};

// Writes what is done with a cell behind the text, but for an array of the work-item's own.
fn push_cell(text: &mut Vec<u8>, verb: &[u8], cell: Cell) -> Result<(), AllocError>
    ensures { OnOk result (text.new.items
        ≡ text.old.items ++ told cell.array (verb.now ++ spec.cell_text cell)) }
{
    let (letter, number) = match cell.array {
        Array::Input(k) => (b'a', k),
        Array::Output(k) => (b'o', k),
        Array::Local(k) => (b'l', k),
        Array::Private(_) => return Ok(()),
    };
    text.extend_from_slice(verb)?;
    text.push(letter)?;
    push_number(text, u64::from(number))?;
    text.push(b' ')?;
    push_number(text, cell.index)
}

// Writes the access of a step behind the text, where it has one.
fn push_access(text: &mut Vec<u8>, access: Option<Access>) -> Result<(), AllocError>
    ensures { OnOk result (text.new.items ≡ text.old.items ++ spec.access_text access) }
{
    match access {
        Some(Access::Read(cell)) => push_cell(text, b" reads ", cell),
        Some(Access::Write(cell)) => push_cell(text, b" writes ", cell),
        Some(Access::ReadFour(first)) => push_cell(text, b" reads4 ", first),
        Some(Access::WriteFour(first)) => push_cell(text, b" writes4 ", first),
        None => Ok(()),
    }
}

// Writes what is seen of an event behind the text.
fn push_event(text: &mut Vec<u8>, seen: Seen) -> Result<(), AllocError>
    ensures { OnOk result (text.new.items
        ≡ text.old.items ++ spec.event_text seen.event seen.access) }
{
    match seen.event {
        Event::Step(item) => {
            text.extend_from_slice(b"step ")?;
            push_number(text, u64::from(item))?;
            push_access(text, seen.access)
        }
        Event::Release(group) => {
            text.extend_from_slice(b"release ")?;
            push_number(text, u64::from(group))
        }
    }
}

fn push_line(text: &mut Vec<u8>, seen: Seen) -> Result<(), AllocError>
    ensures { OnOk result (text.new.items ≡ text.old.items ++ trace_line seen) }
{
    push_event(text, seen)?;
    text.push(b'\n')?;
    Ok(())
}

/// What is seen of events, a line for each: `step I`, `step I reads B C`, `step I writes B C`,
/// `step I reads4 B C`, `step I writes4 B C` or `release G`, where I is the work-item's number, B
/// the array's name in the kernel, C the number of the cell, or of the first of four, and G the
/// work-group. A step whose access is of a private array has none.
pub fn trace_text(alloc: Global, seen: &[Seen]) -> Result<Vec<u8>, AllocError>
    ensures { IfOk result (λ text. text.items ≡ trace_lines seen.now) }
{
    let mut text = Vec::new(alloc);
    for event in seen {
        push_line(&mut text, *event)?;
    }
    Ok(text)
}
