//! Kernel text, read back.

ghost use Rattle.std.specs.Prelude.{◌≡◌, List, IfOk, IfErr, [], map};
ghost use Rattle.readings.specs.Readings.{Reads};
ghost use Rattle.kernel_tree.specs.Code as code;
ghost use Rattle.kernel_tree.specs.Kernels.{kernel_of};
ghost use Rattle.kernel_tree.specs.KernelText.{IsKernelText, Piece, all_of, kernels, lift, start, nothing};
ghost use Rattle.kernel_spelling.specs.Spelling.{HasText, IsName, text_of};
ghost use Rattle.readings.specs.Exactly as exactly;
ghost use Rattle.kernel_reader.specs.Noted.{notes_of};
ghost use Rattle.kernel_reader.specs.Views.{bytes_of};
ghost use Rattle.kernel_reader.specs.Exactly.{Answers, Refuses};

use crate::error::KernelNo;
use crate::form::{Debt, Form, LINE, OPEN_BLOCK, OPENS, SPACE};
use crate::made::{Made, statements_of};
use crate::pieces::{offset_of, pieces};
use kernel_spelling::{fronts_are_of_one_kernel, one_cut, one_kernel, one_text, whole_readings};
use kernel_tree::tree::Kernel;
use readings::{Owed, ReadError, read};
use std::alloc::{AllocError, Global};
use std::collections::VecDeque;
use std::marker::PhantomData;

fn first<'a>(alloc: Global) -> Made<'a>
    ensures { notes_of result ≡ nothing }
{
    Made {
        inputs: 0,
        outputs: 0,
        sizes: 0,
        locals: Vec::new(alloc),
        privates: Vec::new(alloc),
        variables: 0,
        vectors: 0,
        local: None,
        values: VecDeque::new(alloc),
        lanes: VecDeque::new(alloc),
        blocks: VecDeque::new(alloc),
        text: PhantomData,
    }
}

// The kernel that a whole reading made.
fn kernel_from(alloc: Global, made: Made) -> Result<Kernel, AllocError>
    requires { (name : Piece) × (ps : List Piece)
        × Reads kernels (start name) nothing ps [] (notes_of made) }
    ensures { IfOk result (λ k. notes_of made.entry ≡ all_of (kernel_of k)) }
{
    whole_readings();
    let mut made = made;
    let Some(block) = made.blocks.pop_front() else {
        unreachable!();
    };
    let body = statements_of(alloc, block)?;
    Ok(Kernel {
        inputs: made.inputs,
        outputs: made.outputs,
        sizes: made.sizes,
        locals: made.locals,
        privates: made.privates,
        variables: made.variables,
        vectors: made.vectors,
        local: made.local,
        body,
    })
}

/// The kernel of this name whose text these bytes are.
fn read_named(alloc: Global, name: &[u8], bytes: &[u8]) -> Result<Kernel, KernelNo>
    requires { IsName name.now }
    // The kernel grammar relates what is answered to the bytes.
    ensures found { IfOk result (λ k. IsKernelText name.now bytes.now (kernel_of k)) }
    // A kernel that the grammar relates to the bytes is answered, unless memory runs out.
    ensures only { (k : code.Kernel) → IsKernelText name.now bytes.now k → Answers k result }
    // The bytes are that kernel's one text.
    ensures one { IfOk result (λ k. bytes.now ≡ text_of name.now (kernel_of k)) }
    // The text of a kernel is read as that kernel, unless memory runs out.
    ensures back { (k : code.Kernel) → HasText k → bytes.now ≡ text_of name.now k →
        Answers k result }
    // A refusal names the first piece at which the text doesn't go on.
    ensures refused { IfErr result (Refuses name.now bytes.now) }
{
    one_text();
    one_kernel();
    one_cut();
    let pieces = pieces(alloc, bytes)?;
    match read_whole(alloc, name, &pieces) {
        Ok(kernel) => Ok(kernel),
        Err(ReadError::Memory) => Err(KernelNo::Memory),
        Err(ReadError::Refused { taken }) => Err(KernelNo::Syntax {
            offset: offset_of(&pieces, taken),
        }),
    }
}

// The kernel of this name whose pieces these are, all of them.
pub fn read_whole(alloc: Global, name: &[u8], pieces: &[&[u8]]) -> Result<Kernel, ReadError>
    ensures found { IfOk result (λ k. Reads kernels (start name.now) nothing
        (map bytes_of pieces.now) [] (all_of (kernel_of k))) }
    ensures only { (k : code.Kernel) →
        Reads kernels (start name.now) nothing (map bytes_of pieces.now) [] (all_of k)
        → exactly.Answers kernel_of k result }
    ensures refused { IfErr result
        (exactly.Refuses kernels (start name.now) nothing (map bytes_of pieces.now)) }
{
    fronts_are_of_one_kernel();
    let made = read_pieces(alloc, name, pieces)?;
    Ok(kernel_from(alloc, made)?)
}

// What is noted of these pieces, where they are all of a kernel of this name.
fn read_pieces<'a>(
    alloc: Global,
    name: &'a [u8],
    pieces: &[&'a [u8]],
) -> Result<Made<'a>, ReadError>
    ensures found { IfOk result (λ made. Reads kernels (start name.entry.now) nothing
        (map bytes_of pieces.entry.now) [] (notes_of made)) }
    ensures only { (k : code.Kernel) →
        Reads kernels (start name.entry.now) nothing (map bytes_of pieces.entry.now) [] (all_of k)
        → exactly.Answers notes_of (all_of k) result }
    ensures refused { IfErr result
        (exactly.Refuses kernels (start name.entry.now) nothing (map bytes_of pieces.entry.now)) }
{
    let owed: [Debt<'_>; 12] = [
        Owed::Token(b"__kernel"),
        SPACE,
        Owed::Form(Form::Launching),
        SPACE,
        Owed::Token(name),
        OPENS,
        Owed::Form(Form::Parameter),
        LINE,
        OPEN_BLOCK,
        LINE,
        Owed::Form(Form::Indent(1)),
        Owed::Form(Form::Locals),
    ];
    read(alloc, &owed, first(alloc), pieces)
}

/// The kernel whose text these bytes are, where it stands alone.
pub fn read_kernel(alloc: Global, bytes: &[u8]) -> Result<Kernel, KernelNo>
    // The kernel grammar relates what is answered to the bytes.
    ensures found { IfOk result (λ k. IsKernelText lift bytes.now (kernel_of k)) }
    // A kernel that the grammar relates to the bytes is answered, unless memory runs out.
    ensures only { (k : code.Kernel) → IsKernelText lift bytes.now k → Answers k result }
    // The bytes are that kernel's one text.
    ensures one { IfOk result (λ k. bytes.now ≡ text_of lift (kernel_of k)) }
    // The text of a kernel is read as that kernel, unless memory runs out.
    ensures back { (k : code.Kernel) → HasText k → bytes.now ≡ text_of lift k → Answers k result }
    // A refusal names the first piece at which the text doesn't go on.
    ensures refused { IfErr result (Refuses lift bytes.now) }
{
    read_named(alloc, b"lift", bytes)
}
