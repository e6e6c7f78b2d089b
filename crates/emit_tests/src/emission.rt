//! What is emitted for a program along a script, part by part, beside the kernel of a text.

ghost use Rattle.lowering.specs.Terms.{term_of};
ghost use Rattle.item_emit.specs.Copies.{HasShortCopies};

use crate::copies::has_short_copies;
use crate::last_terms::{LoweredLast, lowered_last};
use crate::sameness::is_same;
use array_views::Count;
use barrier_placement::Barrier;
use buffer_allocation::copies::{Memory, copy_lengths};
use group_emit::counts::phase_count;
use group_emit::groups::groups;
use group_emit::setting::Setting;
use item_emit::arguments::{Declared, output};
use item_emit::block::Block;
use item_emit::kernel::counted;
use item_emit::scope::Scope;
use item_emit::statements::{Site, put_written};
use kernel_reader::read_kernel;
use kernel_tree::tree::{Kernel, Stmt};
use lift_tree::local_size::LocalSize;
use lowered_tree::lowered::Lowered;
use lowering::lower::lower;
use lowering::term::Term;
use std::alloc::{AllocError, Global};
use std::test::Fail;

/// A program, a script, and the text of the kernel of its last term.
pub struct Row {
    pub program: &'static str,
    pub script: &'static str,
    pub kernel: &'static str,
}

// The code of a term that one work-item runs, or all of them.
fn items_code(alloc: Global, lowered: &Lowered, term: &Term) -> Result<Vec<Stmt>, AllocError>
    requires { HasShortCopies (term_of term.now) }
{
    let declared = Declared {
        names: &lowered.names,
        inputs: &lowered.inputs,
    };
    let target = output(alloc, declared.names, lowered.types.own_type())?;
    let site = Site {
        depth: 0,
        scope: &Scope::Empty,
        array: 0,
        variable: Count::none(),
    };
    let mut block = Block::new(alloc);
    put_written(alloc, &declared, &site, term, &target, &mut block)?;
    Ok(block.into_statements())
}

// The code of a term that work-groups, of this size where one is fixed, run with these barriers.
fn groups_code(
    alloc: Global,
    lowered: &Lowered,
    local: Option<(u32, u32)>,
    barriers: &[Barrier],
    term: &Term,
) -> Result<Vec<Stmt>, AllocError>
    requires { HasShortCopies (term_of term.now) }
{
    let setting = Setting {
        declared: Declared {
            names: &lowered.names,
            inputs: &lowered.inputs,
        },
        barriers,
        phases: phase_count(term)?,
        local,
    };
    let target = output(alloc, &lowered.names, lowered.types.own_type())?;
    let block = groups(alloc, &setting, &Scope::Empty, term, &target)?;
    Ok(block.into_statements())
}

fn are_equal(lengths: &[u64], words: &[u32]) -> bool {
    lengths.len() == words.len()
        && lengths
            .iter()
            .zip(words)
            .all(|(length, word)| *length == u64::from(*word))
}

// Whether the kernel declares what is counted for the term, and asks for groups of the size that is
// fixed.
fn declares(
    alloc: Global,
    kernel: &Kernel,
    lowered: &Lowered,
    local: Option<(u32, u32)>,
    term: &Term,
) -> Result<bool, AllocError> {
    let counts = counted(lowered, term)?;
    let locals = copy_lengths(alloc, Memory::Local, &lowered.term, &lowered.types)?;
    let privates = copy_lengths(alloc, Memory::Private, &lowered.term, &lowered.types)?;
    Ok(
        counts.inputs == kernel.inputs
            && counts.outputs == kernel.outputs
            && counts.sizes == kernel.sizes
            && counts.variables == kernel.variables
            && counts.vectors == kernel.vectors
            && kernel.local == local
            && are_equal(&locals, &kernel.locals)
            && are_equal(&privates, &kernel.privates),
    )
}

// Whether what is emitted for the row, with these barriers where work-groups run it, is the kernel
// of its text.
fn emits(alloc: Global, row: &Row, barriers: Option<&[Barrier]>) -> Result<bool, Fail> {
    let Some(LoweredLast { lowered, local }) = lowered_last(alloc, row.program, row.script)? else {
        return Ok(false);
    };
    let Ok(kernel) = read_kernel(alloc, row.kernel.as_bytes()) else {
        return Ok(false);
    };
    let local = LocalSize::fixed(local);
    let term = lower(alloc, &lowered.names, &lowered.term, &lowered.types)?;
    if !has_short_copies(alloc, &term) {
        return Ok(false);
    }
    let code = match barriers {
        None => items_code(alloc, &lowered, &term)?,
        Some(barriers) => groups_code(alloc, &lowered, local, barriers, &term)?,
    };
    Ok(declares(alloc, &kernel, &lowered, local, &term)? && is_same(&code, &kernel.body))
}

/// Whether what is emitted for each row is the kernel of its text.
pub fn all_are_emitted(alloc: Global, rows: &[Row]) -> Result<bool, Fail> {
    for row in rows {
        if !emits(alloc, row, None)? {
            return Ok(false);
        }
    }
    Ok(true)
}

/// The same of maps over work-groups, each with the barriers between its phases.
pub fn all_are_emitted_with(alloc: Global, rows: &[(&[Barrier], Row)]) -> Result<bool, Fail> {
    for (barriers, row) in rows {
        if !emits(alloc, row, Some(*barriers))? {
            return Ok(false);
        }
    }
    Ok(true)
}
