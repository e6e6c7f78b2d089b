//! A term's buffers, within their limits.

ghost use Rattle.std.specs.Prelude.{◌≡◌, ◌*◌, None, IfErr, IfOk};
ghost use Rattle.std.specs.List.{sum};
ghost use Rattle.lift_tree.specs.Tree.{tree_of};
ghost use Rattle.lift_tree.specs.Annotations.{annotation_of};
ghost use Rattle.buffer_allocation.specs.Copies.{copies, held};
ghost use Rattle.buffer_allocation.specs.Limits.{passed_limit, Refuses};
ghost use Rattle.buffer_allocation.specs.declared.copies.Memory.TheVariants as memory;

use crate::buffers::{AllocLimit, AllocNo, Buffers};
use crate::copies::{Memory, copy_lengths, total};
use crate::layouts::layouts;
use lowered_tree::lowered::Spaced;
use std::alloc::Global;

/// The most layouts that stand one on another over a buffer.
pub const LAYOUTS: u64 = 24;

/// The most bytes of all local arrays.
pub const LOCAL_BYTES: u64 = 32768;

/// The most cells of all private arrays.
pub const PRIVATE_CELLS: u64 = 256;

// The bytes of arrays of these lengths, which stand still at 2^64 - 1.
#[tactic(auto, using(crate::proofs::Held::bytes))]
fn bytes(lengths: &[u64]) -> u64
    ensures { result ≡ held (4 * sum lengths.now) }
{
    total(lengths).saturating_mul(4)
}

/// Allocates a legal term's buffers. `Limit` comes exactly where one is passed: layouts, local
/// bytes, private cells, the first in this order.
pub fn buffers(alloc: Global, spaced: &Spaced) -> Result<Buffers, AllocNo>
    ensures within { IfOk result (λ b. passed_limit (tree_of spaced.now.mapped.lowered.term)
        (annotation_of spaced.now.mapped.lowered.types) ≡ None) }
    ensures local { IfOk result (λ b. b.local.items
        ≡ copies memory.Local (tree_of spaced.now.mapped.lowered.term)
        (annotation_of spaced.now.mapped.lowered.types)) }
    ensures private { IfOk result (λ b. b.private.items
        ≡ copies memory.Private (tree_of spaced.now.mapped.lowered.term)
        (annotation_of spaced.now.mapped.lowered.types)) }
    ensures refused { IfErr result (λ e. Refuses e (tree_of spaced.now.mapped.lowered.term)
        (annotation_of spaced.now.mapped.lowered.types)) }
{
    let lowered = &spaced.mapped.lowered;
    let count = layouts(alloc, &lowered.term, &lowered.types)?;
    if LAYOUTS < count {
        return Err(AllocNo::Limit {
            which: AllocLimit::Layouts,
            count,
        });
    }
    let local = copy_lengths(alloc, Memory::Local, &lowered.term, &lowered.types)?;
    let count = bytes(&local);
    if LOCAL_BYTES < count {
        return Err(AllocNo::Limit {
            which: AllocLimit::Local,
            count,
        });
    }
    let private = copy_lengths(alloc, Memory::Private, &lowered.term, &lowered.types)?;
    let count = total(&private);
    if PRIVATE_CELLS < count {
        return Err(AllocNo::Limit {
            which: AllocLimit::Private,
            count,
        });
    }
    Ok(Buffers { local, private })
}
