//! The names of kernels in order.

ghost use Rattle.std.specs.Prelude.{◌≡◌, IfOk};
ghost use Rattle.kernel_spelling.specs.Spelling.{IsName};
ghost use Rattle.kernel_spelling.specs.SequenceText.{name_of};

use itoa::Buffer;
use std::alloc::{AllocError, Global};

#[tactic(auto, using(crate::proofs::Sequences::named_so))]
/// The name of the kernel of this number, counted from 0, among several in order.
pub fn sequence_name(alloc: Global, number: u64) -> Result<Vec<u8>, AllocError>
    ensures is { IfOk result (λ name. name.items ≡ name_of number) }
    ensures name { IfOk result (λ name. IsName name.items) }
{
    let mut buffer = Buffer::new();
    let mut name = Vec::from_slice(alloc, b"lift")?;
    name.extend_from_slice(buffer.format(number).as_bytes())?;
    Ok(name)
}
