//! Lengths as a program writes them.

ghost use Rattle.std.specs.Prelude.{◌≡◌, IfOk};

use std::alloc::{AllocError, Global};
use std::marker::Model;

/// A factor of a length as written: a number, or a declared size by its
/// number in the order of declaration.
#[derive(Clone, Copy, Debug, PartialEq, Eq)]
pub enum Factor {
    Number(u32),
    Size(u32),
}

/// A product of factors, in the order in which they are written.
/// Contracts see the list of its factors.
#[derive(Debug, Drop)]
pub struct Product {
    factors: Vec<Factor>,
}

impl Model for Product {
    ghost use Rattle.std.specs.Prelude.{List};
    ghost use Rattle.lift_tree.specs.declared.length.Factor.{Factor};

    ghost Value = { List Factor };

    ghost view = { λ p. p.factors.items };
}

impl Product {
    /// The product of these factors.
    pub fn new(factors: Vec<Factor>) -> Self
        ensures { result ≡ factors.items }
    {
        Product { factors }
    }

    /// The factors in order.
    pub fn factors(&self) -> &[Factor]
        ensures { result.now ≡ self.now }
    {
        self.factors.as_slice()
    }

    /// The factors, moved out.
    pub fn into_factors(self) -> Vec<Factor>
        ensures { result.items ≡ self }
    {
        self.factors
    }

    /// A product of the same factors in memory of its own.
    pub fn copy(&self, alloc: Global) -> Result<Self, AllocError>
        ensures { IfOk result (λ p. p ≡ self.now) }
    {
        Ok(Product::new(self.factors.as_slice().to_vec(alloc)?))
    }
}

/// Whether a part of a length is added or taken away.
#[derive(Clone, Copy, Debug, PartialEq, Eq)]
pub enum Sign {
    Plus,
    Minus,
}

/// A part of a length: a product with its sign.
#[derive(Debug, Drop)]
pub struct Part {
    pub sign: Sign,
    pub product: Product,
}

impl Part {
    /// An equal part in memory of its own.
    pub fn copy(&self, alloc: Global) -> Result<Self, AllocError>
        ensures { IfOk result (λ p. p ≡ self.now) }
    {
        Ok(Part {
            sign: self.sign,
            product: self.product.copy(alloc)?,
        })
    }
}

/// A length as written: its parts in order, of which the first has the sign plus. No sum or product
/// is worked out. Contracts see the list of the parts.
#[derive(Debug, Drop)]
pub struct Length {
    parts: Vec<Part>,
}

impl Model for Length {
    ghost use Rattle.std.specs.Prelude.{List};
    ghost use Rattle.lift_tree.specs.declared.length.Part.{Part};

    ghost Value = { List Part };

    ghost view = { λ l. l.parts.items };
}

impl Length {
    /// The length of these parts.
    pub fn new(parts: Vec<Part>) -> Self
        ensures { result ≡ parts.items }
    {
        Length { parts }
    }

    /// The parts in order.
    pub fn parts(&self) -> &[Part]
        ensures { result.now ≡ self.now }
    {
        self.parts.as_slice()
    }

    /// The parts, moved out.
    pub fn into_parts(self) -> Vec<Part>
        ensures { result.items ≡ self }
    {
        self.parts
    }

    /// An equal length in memory of its own.
    pub fn copy(&self, alloc: Global) -> Result<Self, AllocError>
        ensures { IfOk result (λ l. l ≡ self.now) }
    {
        let mut parts = Vec::new(alloc);
        for part in self.parts() {
            parts.push(part.copy(alloc)?)?;
        }
        Ok(Length::new(parts))
    }
}
