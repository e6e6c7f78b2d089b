//! Types.

ghost use Rattle.std.specs.Prelude.{◌≡◌, IfOk};
ghost use Rattle.lift_tree.specs.Types.{are_numbers, holds_elements, is_array, is_element, ty_of};

use size_arith::Poly;
use std::alloc::{AllocError, Global};

/// A type. Lengths are polynomials over the base names of the declared sizes, counted in elements.
#[derive(Drop)]
pub enum Ty {
    Number,
    /// Four numbers.
    Vector,
    Pair(Box<Ty>, Box<Ty>),
    /// Of this element type and length.
    Array(Box<Ty>, Poly),
}

impl Ty {
    /// An equal type in memory of its own.
    pub fn copy(&self, alloc: Global) -> Result<Self, AllocError>
        ensures { IfOk result (λ t. ty_of t ≡ ty_of self.now) }
    {
        match self {
            Ty::Number => Ok(Ty::Number),
            Ty::Vector => Ok(Ty::Vector),
            Ty::Pair(a, b) => {
                let a = Box::new(alloc, a.copy(alloc)?)?;
                Ok(Ty::Pair(a, Box::new(alloc, b.copy(alloc)?)?))
            }
            Ty::Array(element, length) => {
                let length = length.copy(alloc)?;
                Ok(Ty::Array(Box::new(alloc, element.copy(alloc)?)?, length))
            }
        }
    }

    /// Whether it is an array's type.
    pub fn is_array(&self) -> bool
        ensures { result ≡ is_array (ty_of self.now) }
    {
        match self {
            Ty::Number | Ty::Vector | Ty::Pair(_, _) => false,
            Ty::Array(_, _) => true,
        }
    }

    /// Whether it is u32, four of these, or a pair of such types.
    pub fn is_element(&self) -> bool
        ensures { result ≡ is_element (ty_of self.now) }
    {
        match self {
            Ty::Number | Ty::Vector => true,
            Ty::Pair(a, b) => a.is_element() && b.is_element(),
            Ty::Array(_, _) => false,
        }
    }

    // Whether it is u32, or a pair of such types.
    fn are_numbers(&self) -> bool
        ensures { result ≡ are_numbers (ty_of self.now) }
    {
        match self {
            Ty::Number => true,
            Ty::Pair(a, b) => a.are_numbers() && b.are_numbers(),
            Ty::Vector | Ty::Array(_, _) => false,
        }
    }

    /// Whether its pairs hold numbers only.
    pub fn holds_elements(&self) -> bool
        ensures { result ≡ holds_elements (ty_of self.now) }
    {
        match self {
            Ty::Number | Ty::Vector => true,
            Ty::Pair(a, b) => a.are_numbers() && b.are_numbers(),
            Ty::Array(element, _) => element.holds_elements(),
        }
    }
}
