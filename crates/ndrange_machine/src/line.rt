//! The kernel's text, line by line.

ghost use Rattle.std.specs.Prelude.{◌≡◌, ◌+◌, ◌<◌, ◌^◌, [], ◌∷◌, ◌++◌, map, length, slice_get, IfOk, OnOk};
ghost use Rattle.kernel_tree.specs.Code.{Code, End};
ghost use Rattle.kernel_tree.specs.Tree.{before, code_then};
ghost use Rattle.ndrange_machine.specs.Lines.{lines_at, depth, past_line};
ghost use Rattle.ndrange_machine.specs.Takes.{is_going};
ghost use Rattle.ndrange_machine.specs.Wants.{text_of, with_exit};

use kernel_tree::tree::{Array, Expr, Lanes, Start, Stmt, Stride};
use std::alloc::{AllocError, Global};

/// A line of the kernel's text. Lines are numbered from 0.
#[derive(Drop)]
pub enum Line {
    /// `vK = E;`
    Assign(u32, Expr),
    /// `vK = M[E];`
    Load(u32, Array, Expr),
    /// `M[E] = E;`
    Store(Array, Expr, Expr),
    /// `wK = V;`
    AssignFour(u32, Lanes),
    /// `wK = vload4(E, M);`
    LoadFour(u32, Array, Expr),
    /// `vstore4(V, E, M);`
    StoreFour(Array, Expr, Lanes),
    /// The test of an `if`, with the number of the line after its body.
    Test(Start, Expr, usize),
    /// A loop's head, with the number of the line after the loop.
    Head(Start, Expr, Stride, usize),
    /// The end of a loop's body, with the number of the loop's head.
    Tail(usize),
    /// A barrier, with its flags.
    Barrier { on_local: bool, on_global: bool },
}

impl Line {
    // Tells a loop's head the line after the loop, or the test of an `if` the line after its body.
    fn set_exit(&mut self, line: usize)
        ensures { self.new ≡ with_exit self.old line }
    {
        match self {
            Line::Head(_, _, _, exit) => *exit = line,
            Line::Test(_, _, exit) => *exit = line,
            _ => {}
        }
    }
}

/// The lines of a block.
pub fn lines_of(alloc: Global, block: Vec<Stmt>) -> Result<Vec<Line>, AllocError>
    ensures { IfOk result (λ lines. map text_of lines.items ≡ lines_at 0 (code_then block.items End)) }
{
    let mut lines = Vec::new(alloc);
    lay(alloc, &mut lines, block)?;
    Ok(lines)
}

// Puts the lines of a block after those that are there.
#[cycle(laying)]
fn lay(alloc: Global, lines: &mut Vec<Line>, block: Vec<Stmt>) -> Result<(), AllocError>
    ensures { OnOk result (map text_of lines.new.items
        ≡ map text_of lines.old.items
        ++ lines_at (length lines.old.items) (code_then block.items End)) }
{
    for statement in block {
        lay_one(alloc, lines, statement)?;
    }
    Ok(())
}

#[cycle(laying)]
fn lay_one(alloc: Global, lines: &mut Vec<Line>, statement: Stmt) -> Result<(), AllocError>
    ensures { OnOk result (map text_of lines.new.items
        ≡ map text_of lines.old.items ++ lines_at (length lines.old.items) (before statement End)) }
{
    match statement {
        Stmt::Assign(v, e) => add_line(lines, Line::Assign(v, e)),
        Stmt::Load(v, a, i) => add_line(lines, Line::Load(v, a, i)),
        Stmt::Store(a, i, e) => add_line(lines, Line::Store(a, i, e)),
        Stmt::AssignFour(v, e) => add_line(lines, Line::AssignFour(v, e)),
        Stmt::LoadFour(v, a, i) => add_line(lines, Line::LoadFour(v, a, i)),
        Stmt::StoreFour(a, i, e) => add_line(lines, Line::StoreFour(a, i, e)),
        Stmt::If(start, bound, body) => {
            let test = lines.len();
            add_line(lines, Line::Test(start, bound, 0))?;
            lay(alloc, lines, body)?;
            let exit = lines.len();
            lines[test].set_exit(exit);
            Ok(())
        }
        Stmt::Loop(start, bound, stride, body) => {
            let head = lines.len();
            add_line(lines, Line::Head(start, bound, stride, 0))?;
            lay(alloc, lines, body)?;
            add_line(lines, Line::Tail(head))?;
            let exit = lines.len();
            lines[head].set_exit(exit);
            Ok(())
        }
        Stmt::Barrier {
            on_local,
            on_global,
        } => add_line(
            lines,
            Line::Barrier {
                on_local,
                on_global,
            },
        ),
    }
}

// Puts a line after those that are there.
fn add_line(lines: &mut Vec<Line>, line: Line) -> Result<(), AllocError>
    ensures { OnOk result (map text_of lines.new.items
        ≡ map text_of lines.old.items ++ text_of line ∷ []) }
{
    lines.push(line)?;
    Ok(())
}

/// How many loops a work-item may be in at once.
pub fn depth_of(lines: &[Line]) -> usize
    ensures { (code : Code) → map text_of lines.now ≡ lines_at 0 code → result ≡ depth code }
{
    let mut inside = 0usize;
    let mut most = 0usize;
    for line in lines {
        inside = loops_past(line, inside);
        most = most.max(inside);
    }
    most
}

// In how many loops a work-item is past the line.
fn loops_past(line: &Line, inside: usize) -> usize
    requires { inside + 1 < 2 ^ 64 }
    ensures { result ≡ past_line (text_of line.now) inside }
{
    match line {
        Line::Head(..) => inside + 1,
        Line::Tail(_) => inside.saturating_sub(1),
        _ => inside,
    }
}

/// Whether a work-item that stands at this line has neither ended nor stands at a barrier.
#[inline(always)]
pub fn steps_from(lines: &[Line], line: usize) -> bool
    ensures { result ≡ is_going (slice_get lines.now line) }
{
    match lines.get(line) {
        None | Some(Line::Barrier { .. }) => false,
        _ => true,
    }
}
