//! The text of several kernels in order, read back.

ghost use Rattle.std.specs.Prelude.{ℕ, ◌≡◌, ◌≢◌, ◌≤◌, List, IfOk, IfErr, length, map};
ghost use Rattle.readings.specs.declared.error.ReadError.TheVariants.{Memory, Refused};
ghost use Rattle.kernel_tree.specs.Code as code;
ghost use Rattle.kernel_tree.specs.Kernels.{kernel_of};
ghost use Rattle.kernel_spelling.specs.SequenceText.{IsSequenceText};
ghost use Rattle.kernel_reader.specs.Views.{bytes_of};
ghost use Rattle.kernel_reader.specs.Sequences.{AnswersAll, IsFront, FrontIs, RefusesSequence, StopsIn};

use crate::error::KernelNo;
use crate::pieces::{offset_of, pieces};
use crate::read::read_whole;
use kernel_spelling::{
    fronts_are_of_one_kernel, fronts_are_refused_behind, one_cut, sequence_name,
    texts_are_of_one_sequence, texts_are_whole,
};
use kernel_tree::tree::Kernel;
use readings::ReadError;
use std::alloc::Global;

// A kernel, and how many pieces are its own.
#[derive(Drop)]
struct Front {
    kernel: Kernel,
    own: usize,
}

// The kernel of this name at the front of the pieces: where they are more than its own, they are
// refused right behind it.
fn read_front(alloc: Global, name: &[u8], pieces: &[&[u8]]) -> Result<Front, ReadError>
    ensures found { IfOk result (λ front.
        IsFront name.now (map bytes_of pieces.now) front.own (kernel_of front.kernel)) }
    ensures only { (own : ℕ) (k : code.Kernel) →
        IsFront name.now (map bytes_of pieces.now) own k → FrontIs own k result }
    ensures refused { IfErr result (StopsIn name.now (map bytes_of pieces.now)) }
{
    fronts_are_of_one_kernel();
    fronts_are_refused_behind();
    match read_whole(alloc, name, pieces) {
        Ok(kernel) => Ok(Front {
            kernel,
            own: pieces.len(),
        }),
        Err(ReadError::Memory) => Err(ReadError::Memory),
        Err(ReadError::Refused { taken }) => read_before(alloc, name, pieces, taken),
    }
}

// The kernel of this name whose pieces are those before the first that is refused.
fn read_before(
    alloc: Global,
    name: &[u8],
    pieces: &[&[u8]],
    taken: usize,
) -> Result<Front, ReadError>
    requires { taken ≤ length pieces.now }
    ensures found { IfOk result (λ front. (front.own ≡ taken)
        × IsFront name.now (map bytes_of pieces.now) front.own (kernel_of front.kernel)) }
    ensures only { (k : code.Kernel) →
        IsFront name.now (map bytes_of pieces.now) taken k → FrontIs taken k result }
    ensures refused { IfErr result (λ e. e ≢ Memory → e ≡ Refused taken) }
{
    match read_whole(alloc, name, &pieces[..taken]) {
        Ok(kernel) => Ok(Front { kernel, own: taken }),
        Err(ReadError::Memory) => Err(ReadError::Memory),
        Err(ReadError::Refused { .. }) => Err(ReadError::Refused { taken }),
    }
}

/// The kernels whose text in order these bytes are, at least one.
pub fn read_sequence(alloc: Global, bytes: &[u8]) -> Result<Vec<Kernel>, KernelNo>
    // The grammar of sequences relates what is answered to the bytes.
    ensures found { IfOk result (λ ks. IsSequenceText bytes.now (map kernel_of ks.items)) }
    // Kernels that the grammar relates to the bytes are answered, unless memory runs out.
    ensures only { (ks : List code.Kernel) → IsSequenceText bytes.now ks → AnswersAll ks result }
    // A refusal names the first piece at which the text doesn't go on.
    ensures refused { IfErr result (RefusesSequence bytes.now) }
{
    one_cut();
    texts_are_whole();
    texts_are_of_one_sequence();
    let pieces = pieces(alloc, bytes)?;
    let mut kernels = Vec::new(alloc);
    let mut taken = 0;
    loop {
        let name = sequence_name(alloc, kernels.len() as u64)?;
        match read_front(alloc, name.as_slice(), &pieces[taken..]) {
            Ok(Front { kernel, own }) => {
                kernels.push(kernel)?;
                taken += own;
            }
            Err(ReadError::Memory) => return Err(KernelNo::Memory),
            Err(ReadError::Refused { taken: own }) => {
                return Err(KernelNo::Syntax {
                    offset: offset_of(&pieces, taken + own),
                });
            }
        }
        if taken == pieces.len() {
            return Ok(kernels);
        }
    }
}
