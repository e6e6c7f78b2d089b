//! Programs.

ghost use Rattle.std.specs.Prelude.{◌≡◌, ◌≤◌, ◌+◌, ◌++◌, IfOk, OnOk, length, map};
ghost use Rattle.size_arith.specs.Ranges.{AreNames};
ghost use Rattle.lift_tree.specs.Programs.{input_of, program_of};
ghost use Rattle.lift_tree.specs.WorkedOut.{range_of};

use crate::input_type::InputType;
use crate::term::Term;
use size_arith::{Name, Names};
use std::alloc::{AllocError, Global};
use std::marker::Model;

/// The name of a size or an input: ASCII letters, digits and `_`.
/// Contracts see the list of its bytes.
#[derive(Drop)]
pub struct Identifier {
    bytes: Vec<u8>,
}

impl Model for Identifier {
    ghost use Rattle.std.specs.Prelude.{List, ℕ};

    ghost Value = { List ℕ };

    ghost view = { λ n. n.bytes.items };
}

impl Identifier {
    /// The name of these bytes.
    pub fn new(bytes: Vec<u8>) -> Self
        ensures { result ≡ bytes.items }
    {
        Identifier { bytes }
    }

    /// The bytes in order.
    pub fn bytes(&self) -> &[u8]
        ensures { result.now ≡ self.now }
    {
        self.bytes.as_slice()
    }

    /// An equal name in memory of its own.
    pub fn copy(&self, alloc: Global) -> Result<Self, AllocError>
        ensures { IfOk result (λ n. n ≡ self.now) }
    {
        Ok(Identifier::new(self.bytes.as_slice().to_vec(alloc)?))
    }
}

/// A declared size: it ranges over the multiples of `multiple` from `from` to `to`.
#[derive(Drop)]
pub struct Size {
    pub name: Identifier,
    pub multiple: u32,
    pub from: u32,
    pub to: u32,
}

impl Size {
    /// An equal size in memory of its own.
    pub fn copy(&self, alloc: Global) -> Result<Self, AllocError>
        ensures { IfOk result (λ s. s ≡ self.now) }
    {
        Ok(Size {
            name: self.name.copy(alloc)?,
            multiple: self.multiple,
            from: self.from,
            to: self.to,
        })
    }
}

/// A declared input with its type as written.
#[derive(Drop)]
pub struct Input {
    pub name: Identifier,
    pub ty: InputType,
}

impl Input {
    /// An equal input in memory of its own.
    pub fn copy(&self, alloc: Global) -> Result<Self, AllocError>
        ensures { IfOk result (λ i. input_of i ≡ input_of self.now) }
    {
        Ok(Input {
            name: self.name.copy(alloc)?,
            ty: self.ty.copy(alloc)?,
        })
    }
}

/// A program: its sizes and inputs in the order of declaration, and the term whose value it gives.
/// Terms and lengths name sizes and inputs by their numbers in that order, from 0.
#[derive(Drop)]
pub struct Program {
    pub sizes: Vec<Size>,
    pub inputs: Vec<Input>,
    pub body: Term,
}

impl Program {
    /// An equal program in memory of its own.
    pub fn copy(&self, alloc: Global) -> Result<Self, AllocError>
        ensures { IfOk result (λ p. program_of p ≡ program_of self.now) }
    {
        let sizes = copied_sizes(alloc, &self.sizes)?;
        let inputs = copied_inputs(alloc, &self.inputs)?;
        let body = self.body.copy(alloc)?;
        Ok(Program {
            sizes,
            inputs,
            body,
        })
    }

    /// The ranges of the declared sizes, in their order.
    pub fn names(&self, alloc: Global) -> Result<Names, AllocError>
        requires few { length self.now.sizes.items ≤ 8 }
        requires declared { AreNames (map range_of self.now.sizes.items) }
        ensures { IfOk result (λ names. names ≡ map range_of self.now.sizes.items) }
    {
        let mut names = Names::new(alloc);
        add_ranges(&mut names, &self.sizes)?;
        Ok(names)
    }
}

// Adds the ranges of declared sizes.
fn add_ranges(names: &mut Names, sizes: &[Size]) -> Result<(), AllocError>
    requires few { length names.old + length sizes.now ≤ 8 }
    requires declared { AreNames (map range_of sizes.now) }
    ensures { OnOk result (names.new ≡ names.old ++ map range_of sizes.now) }
{
    match sizes {
        [] => Ok(()),
        [first, rest @ ..] => {
            names.push(Name {
                multiple: first.multiple,
                from: first.from,
                to: first.to,
            })?;
            add_ranges(names, rest)
        }
    }
}

fn copied_sizes(alloc: Global, sizes: &[Size]) -> Result<Vec<Size>, AllocError>
    ensures { IfOk result (λ v. v.items ≡ sizes.now) }
{
    let mut copies = Vec::new(alloc);
    for size in sizes {
        copies.push(size.copy(alloc)?)?;
    }
    Ok(copies)
}

fn copied_inputs(alloc: Global, inputs: &[Input]) -> Result<Vec<Input>, AllocError>
    ensures { IfOk result (λ v. map input_of v.items ≡ map input_of inputs.now) }
{
    let mut copies = Vec::new(alloc);
    for input in inputs {
        copies.push(input.copy(alloc)?)?;
    }
    Ok(copies)
}
