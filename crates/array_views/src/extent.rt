//! Types whose lengths are index expressions.

ghost use Rattle.std.specs.Prelude.{◌≡◌, ◌≤◌, ◌<◌, ◌^◌, [], IfOk};
ghost use Rattle.lift_tree.specs.Types.{ty_of};
ghost use Rattle.lift_ir.specs.AtLaunch.{length_at, shape_of, ty_at};
ghost use Rattle.lift_ir.specs.Types.{ArrayOf, Scalar, width, component, IsShort};
ghost use Rattle.index_expr.specs.declared.operation.Operation.TheVariants.{Sum, Product};
ghost use Rattle.index_expr.specs.Expression.{Binary, Literal, expression_of};
ghost use Rattle.length_spelling.specs.Formulas.{spelled_length};
ghost use Rattle.array_views.specs.Arrays.{extent_of, spelled_shape};
ghost use Rattle.array_views.specs.Stacks.{indices_in};
ghost use Rattle.array_views.specs.Accesses.{row_major, row_major_from};

use crate::stack::{IndexStack, PairStack};
use index_expr::{Index, Operation};
use length_spelling::spelled_length;
use lift_tree::ty::Ty;
use size_arith::{Names, Poly, Sizes};
use std::alloc::{AllocError, Global};

/// A type whose lengths are index expressions.
#[derive(Drop)]
pub enum Extent {
    Scalar,
    Pair(Box<Extent>, Box<Extent>),
    /// Of this length, of this element type.
    Array(Index, Box<Extent>),
}

impl Extent {
    // Four numbers.
    fn four(alloc: Global) -> Result<Self, AllocError>
        ensures { IfOk result (λ e. extent_of e ≡ ArrayOf (Literal 4) Scalar) }
    {
        let element = Box::new(alloc, Extent::Scalar)?;
        Ok(Extent::Array(Index::Literal(4), element))
    }

    /// A type, its lengths spelled over the sizes.
    #[tactic(auto, using(crate::proofs::Shapes::spelled_four))]
    pub fn spelled(alloc: Global, names: &Names, ty: &Ty) -> Result<Self, AllocError>
        ensures { IfOk result (λ e. extent_of e
            ≡ spelled_shape (spelled_length names.now) (shape_of (ty_of ty.now))) }
    {
        match ty {
            Ty::Number => Ok(Extent::Scalar),
            Ty::Vector => Extent::four(alloc),
            Ty::Pair(a, b) => {
                let a = Box::new(alloc, Extent::spelled(alloc, names, a)?)?;
                Ok(Extent::Pair(a, Box::new(alloc, Extent::spelled(alloc, names, b)?)?))
            }
            Ty::Array(element, length) => {
                let element = Box::new(alloc, Extent::spelled(alloc, names, element)?)?;
                Ok(Extent::Array(spelled_length(alloc, length, names)?, element))
            }
        }
    }

    /// A type whose lengths are numbers, each a literal.
    pub fn literal(alloc: Global, ty: &Ty) -> Result<Self, AllocError>
        requires { IsShort (ty_at [] (ty_of ty.now)) }
        ensures { IfOk result (λ e. extent_of e ≡ spelled_shape Literal (ty_at [] (ty_of ty.now))) }
    {
        match ty {
            Ty::Number => Ok(Extent::Scalar),
            Ty::Vector => Extent::four(alloc),
            Ty::Pair(a, b) => {
                let a = Box::new(alloc, Extent::literal(alloc, a)?)?;
                Ok(Extent::Pair(a, Box::new(alloc, Extent::literal(alloc, b)?)?))
            }
            Ty::Array(element, length) => {
                let element = Box::new(alloc, Extent::literal(alloc, element)?)?;
                Ok(Extent::Array(literal_length(alloc, length), element))
            }
        }
    }

    // How many components the type has.
    fn width(&self) -> u32
        requires { width (extent_of self.now) < 2 ^ 32 }
        ensures { result ≡ width (extent_of self.now) }
    {
        match self {
            Extent::Scalar => 1,
            Extent::Pair(a, b) => a.width() + b.width(),
            Extent::Array(_, element) => element.width(),
        }
    }

    /// The number of the component that is chosen, from left to right.
    #[tactic(auto, using(crate::proofs::Shapes::some_width))]
    pub fn component(&self, choices: &mut PairStack) -> u32
        requires { width (extent_of self.now) ≤ 2 ^ 32 }
        ensures value { result ≡ component (extent_of self.now) choices.old }
        ensures below { result < width (extent_of self.now) }
    {
        match self {
            Extent::Scalar => 0,
            Extent::Pair(a, b) => match choices.pop() {
                None => 0,
                Some(false) => a.component(choices),
                Some(true) => a.width() + b.component(choices),
            },
            Extent::Array(_, element) => element.component(choices),
        }
    }

    /// The index of an element in row-major order: the index alone for an array of one dimension.
    pub fn row_major(&self, alloc: Global, indices: &mut IndexStack) -> Result<Index, AllocError>
        ensures { IfOk result (λ i. expression_of i
            ≡ row_major (extent_of self.now) (indices_in indices.old)) }
    {
        match self {
            Extent::Scalar | Extent::Pair(_, _) => Ok(Index::Literal(0)),
            Extent::Array(_, element) => match indices.pop() {
                None => Ok(Index::Literal(0)),
                Some(index) => element.row_major_from(alloc, index, indices),
            },
        }
    }

    // The same below the index of a row.
    fn row_major_from(
        &self,
        alloc: Global,
        row: Index,
        indices: &mut IndexStack,
    ) -> Result<Index, AllocError>
        ensures { IfOk result (λ i. expression_of i
            ≡ row_major_from (expression_of row) (extent_of self.now) (indices_in indices.old)) }
    {
        match self {
            Extent::Scalar | Extent::Pair(_, _) => Ok(row),
            Extent::Array(length, element) => match indices.pop() {
                None => Ok(row),
                Some(index) => {
                    let row = flat_index(alloc, row, length, index)?;
                    element.row_major_from(alloc, row, indices)
                }
            },
        }
    }
}

// A length that is a number.
fn literal_length(alloc: Global, length: &Poly) -> Index
    requires { length_at [] length.now < 2 ^ 31 }
    ensures { expression_of result ≡ Literal (length_at [] length.now) }
{
    Index::Literal(length.value_at(&Sizes::new(alloc)) as u32)
}

/// The index of an element of rows of this length one after another: row * length + index.
pub fn flat_index(
    alloc: Global,
    row: Index,
    length: &Index,
    index: Index,
) -> Result<Index, AllocError>
    ensures { IfOk result (λ i. expression_of i ≡ Binary Sum
        (Binary Product (expression_of row) (expression_of length.now)) (expression_of index)) }
{
    let length = length.copy(alloc)?;
    let begin = Index::binary(alloc, Operation::Product, row, length)?;
    Index::binary(alloc, Operation::Sum, begin, index)
}
