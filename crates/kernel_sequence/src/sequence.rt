//! The kernels of a lowered term.

ghost use Rattle.std.specs.Prelude.{◌≡◌, ◌≤◌, ◌++◌, false, None, IfErr, IfOk, map};
ghost use Rattle.lift_tree.specs.Annotations.{annotation_of};
ghost use Rattle.lift_tree.specs.Tree.{tree_of};
ghost use Rattle.lift_tree.specs.Types.{ty_of};
ghost use Rattle.lowered_tree.specs.Whole.{IsSoundTerm};
ghost use Rattle.kernel_sequence.specs.Bound.{first_bound};
ghost use Rattle.kernel_sequence.specs.Cut as spec;
ghost use Rattle.kernel_sequence.specs.Parts.{part_of, term_part};
ghost use Rattle.kernel_sequence.specs.Refused.{Refuses};
ghost use Rattle.kernel_sequence.specs.Sequence.{AreKernels, AreKernelsOf, AreSoundParts};

use crate::bound::first_bound;
use crate::cutting::{cut_off, kernel_count};
use crate::no::CutNo;
use crate::parts::Part;
use lift_tree::place::Place;
use lift_tree::ty::Ty;
use lowered_tree::lowered::Lowered;
use lowered_tree::rule::NestRule;
use std::alloc::{AllocError, Global};

// The most kernels of a term.
const KERNELS: u64 = 16;

// Equal types in memory of their own.
fn copied(alloc: Global, types: &[Ty]) -> Result<Vec<Ty>, AllocError>
    ensures { IfOk result (λ r. map ty_of r.items ≡ map ty_of types.now) }
{
    let mut copies = Vec::new(alloc);
    for ty in types {
        copies.push(ty.copy(alloc)?)?;
    }
    Ok(copies)
}

// Copies of these types, and of others behind them.
fn joined(alloc: Global, first: &[Ty], second: &[Ty]) -> Result<Vec<Ty>, AllocError>
    ensures { IfOk result (λ r. map ty_of r.items ≡ map ty_of first.now ++ map ty_of second.now) }
{
    let mut all = copied(alloc, first)?;
    for ty in second {
        all.push(ty.copy(alloc)?)?;
    }
    Ok(all)
}

// A kernel's term with what it may name: the program's inputs, then
// what the kernels before it made.
fn kernel(alloc: Global, whole: &Lowered, scratch: &[Ty], part: Part) -> Result<Lowered, AllocError>
    requires { ∥ IsSoundTerm (record {
      names = whole.now.names;
      inputs = map ty_of whole.now.inputs.items ++ map ty_of scratch.now;
    })
        (part_of part).tree (part_of part).types ∥₁ }
    ensures term { IfOk result (λ l. term_part l ≡ part_of part) }
    ensures names { IfOk result (λ l. l.names ≡ whole.now.names) }
    ensures inputs { IfOk result (λ l. map ty_of l.inputs.items
        ≡ map ty_of whole.now.inputs.items ++ map ty_of scratch.now) }
{
    Ok(Lowered {
        names: whole.names.copy(alloc)?,
        inputs: joined(alloc, whole.inputs.as_slice(), scratch)?,
        term: part.term,
        types: part.types,
    })
}

// The kernels of these parts, in order.
fn kernels(alloc: Global, whole: &Lowered, parts: Vec<Part>) -> Result<Vec<Lowered>, AllocError>
    requires { AreSoundParts whole.now (map part_of parts.items) }
    ensures { IfOk result (λ ks. AreKernels whole.now (map part_of parts.items) ks.items) }
{
    let mut kernels = Vec::new(alloc);
    let mut scratch = Vec::new(alloc);
    for part in parts {
        let ty = part.types.own_type().copy(alloc)?;
        let next = kernel(alloc, whole, scratch.as_slice(), part)?;
        kernels.push(next)?;
        scratch.push(ty)?;
    }
    Ok(kernels)
}

// Refuses a term that isn't cut.
#[tactic(auto, using(crate::proofs::Count::too_many))]
fn judge(alloc: Global, lowered: &Lowered) -> Result<(), CutNo>
    ensures unbound { IfOk result (λ _. first_bound false (tree_of lowered.now.term) ≡ None) }
    ensures few { IfOk result (λ _. spec.cuts (tree_of lowered.now.term)
        (annotation_of lowered.now.types) ≤ 15) }
    ensures refused { IfErr result (λ no. Refuses no (tree_of lowered.now.term)
        (annotation_of lowered.now.types)) }
{
    if let Some(numbers) = first_bound(alloc, false, &lowered.term)? {
        return Err(CutNo::Nest {
            place: Place::new(numbers),
            rule: NestRule::N13,
        });
    }
    let count = kernel_count(&lowered.term, &lowered.types);
    if KERNELS < count {
        return Err(CutNo::Limit { count });
    }
    Ok(())
}

/// The kernels of a lowered term, in the order in which they are run: the operands of its `then`s
/// in postorder, last the whole, each with an input for the array of each kernel before it.
///
/// `Nest` comes exactly where a binder is around a `then`, with the first in preorder; `Limit`
/// exactly where there is none and there are more than sixteen kernels.
pub fn cut(alloc: Global, lowered: &Lowered) -> Result<Vec<Lowered>, CutNo>
    ensures kernels { IfOk result (λ ks. AreKernelsOf lowered.now ks.items) }
    ensures refused { IfErr result (λ no. Refuses no (tree_of lowered.now.term)
        (annotation_of lowered.now.types)) }
{
    judge(alloc, lowered)?;
    let inputs = lowered.inputs.len() as u32;
    let none = Vec::new(alloc);
    let cutting = cut_off(alloc, inputs, none, &lowered.term, &lowered.types)?;
    let mut parts = cutting.made;
    parts.push(cutting.left)?;
    Ok(kernels(alloc, lowered, parts)?)
}
