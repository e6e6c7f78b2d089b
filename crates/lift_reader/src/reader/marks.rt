//! What the marks of a reading note.

ghost use Rattle.std.specs.Prelude.{◌≡◌, ◌++◌, ◌∷◌, [], IfOk, OnOk};
ghost use Rattle.readings.specs.Given.{Noticed};
ghost use Rattle.lift_tree.specs.Tree as trees;
ghost use Rattle.lift_tree.specs.Tree.{tree_of};
ghost use Rattle.lift_reader.specs.Forms.{double_of, triple_of};
ghost use Rattle.lift_reader.specs.Grammar as grammar;
ghost use Rattle.lift_reader.specs.Grammar.{marked};
ghost use Rattle.lift_reader.specs.Meant.{form_of, grouping_form};
ghost use Rattle.lift_reader.specs.Noted.{noted_by};

use crate::grammar::{Double, Grouping, Single, Triple};
use crate::reader::{Range, Reader};
use indexmap::IndexMap;
use lift_tree::input_type::InputType;
use lift_tree::length::{Factor, Length, Part, Product, Sign};
use lift_tree::term::{BinaryForm, FoldKind, MapKind, Term};
use std::alloc::{AllocError, Global};
use std::mem;

fn doubled(alloc: Global, form: Double, a: Term, b: Term) -> Result<Term, AllocError>
    ensures { IfOk result (λ t. tree_of t ≡ double_of form (tree_of a) (tree_of b)) }
{
    let a = Box::new(alloc, a)?;
    let b = Box::new(alloc, b)?;
    Ok(match form {
        Double::Binary(form) => Term::Binary(form, a, b),
        Double::Reduce(reducer) => Term::Binary(BinaryForm::Reduce(reducer), b, a),
        Double::Let => Term::Let(a, b),
        Double::Map => Term::Map(MapKind::Plain, b, a),
    })
}

fn tripled(alloc: Global, form: Triple, a: Term, b: Term, c: Term) -> Result<Term, AllocError>
    ensures { IfOk result (λ t. tree_of t ≡ triple_of form (tree_of a) (tree_of b) (tree_of c)) }
{
    let a = Box::new(alloc, a)?;
    let b = Box::new(alloc, b)?;
    let c = Box::new(alloc, c)?;
    Ok(match form {
        Triple::Select => Term::Select(a, b, c),
        Triple::Fold => Term::Fold(FoldKind::Plain, c, b, a),
    })
}

/// Declares a name behind the others. A map has no room for a second of a name; none is ever asked
/// for, since the grammar takes new names alone.
fn declare<V: Drop>(
    declared: &mut IndexMap<Vec<u8>, V>,
    name: Vec<u8>,
    value: V,
) -> Result<(), AllocError>
    ensures { OnOk result
        (declared.new.entries ≡ declared.old.entries ++ (name, value) ∷ []) }
{
    let None = declared.insert(name, value)? else {
        return Err(AllocError);
    };
    Ok(())
}

impl<'a> Reader<'a> {
    pub fn declare_size(
        &mut self,
        alloc: Global,
        name: &[u8],
        multiple: u32,
        from: u32,
        to: u32,
    ) -> Result<bool, AllocError>
        ensures { Noticed result
            (marked
            (grammar.DeclareSize
            (record { name = name.now; multiple = multiple; from = from; to = to }))
            (noted_by self.old))
            (noted_by self.new) }
    {
        let range = Range { multiple, from, to };
        declare(&mut self.sizes, name.to_vec(alloc)?, range)?;
        Ok(true)
    }

    pub fn declare_input(&mut self, alloc: Global, name: &[u8]) -> Result<bool, AllocError>
        ensures { Noticed result
            (marked (grammar.DeclareInput name.now) (noted_by self.old)) (noted_by self.new) }
    {
        let Some(ty) = self.types.pop_front() else {
            return Ok(false);
        };
        declare(&mut self.inputs, name.to_vec(alloc)?, ty)?;
        Ok(true)
    }

    pub fn number_type(&mut self) -> Result<bool, AllocError>
        ensures { Noticed result
            (marked grammar.NumberType (noted_by self.old)) (noted_by self.new) }
    {
        self.types.push_front(InputType::Number)?;
        Ok(true)
    }

    pub fn pair_types(&mut self, alloc: Global) -> Result<bool, AllocError>
        ensures { Noticed result (marked grammar.PairType (noted_by self.old)) (noted_by self.new) }
    {
        let Some(second) = self.types.pop_front() else {
            return Ok(false);
        };
        let Some(first) = self.types.pop_front() else {
            return Ok(false);
        };
        let first = Box::new(alloc, first)?;
        let second = Box::new(alloc, second)?;
        self.types.push_front(InputType::Pair(first, second))?;
        Ok(true)
    }

    pub fn array_of(&mut self, alloc: Global) -> Result<bool, AllocError>
        ensures { Noticed result (marked grammar.ArrayOf (noted_by self.old)) (noted_by self.new) }
    {
        let Some(element) = self.types.pop_front() else {
            return Ok(false);
        };
        let parts = mem::replace(&mut self.parts, Vec::new(alloc));
        let element = Box::new(alloc, element)?;
        self.types
            .push_front(InputType::Array(element, Length::new(parts)))?;
        Ok(true)
    }

    pub fn begin_product(&mut self, alloc: Global) -> Result<bool, AllocError>
        ensures { Noticed result
            (marked grammar.BeginProduct (noted_by self.old)) (noted_by self.new) }
    {
        self.products.push_front(Product::new(Vec::new(alloc)))?;
        Ok(true)
    }

    pub fn multiply(&mut self, factor: Factor) -> Result<bool, AllocError>
        ensures { Noticed result
            (marked (grammar.Multiply factor) (noted_by self.old)) (noted_by self.new) }
    {
        let Some(product) = self.products.pop_front() else {
            return Ok(false);
        };
        let mut factors = product.into_factors();
        factors.push(factor)?;
        self.products.push_front(Product::new(factors))?;
        Ok(true)
    }

    pub fn end_part(&mut self, sign: Sign) -> Result<bool, AllocError>
        ensures { Noticed result
            (marked (grammar.EndPart sign) (noted_by self.old)) (noted_by self.new) }
    {
        let Some(product) = self.products.pop_front() else {
            return Ok(false);
        };
        self.parts.push(Part { sign, product })?;
        Ok(true)
    }

    pub fn bind(&mut self, name: &'a [u8]) -> Result<bool, AllocError>
        ensures { Noticed result
            (marked (grammar.Bind name.now) (noted_by self.old)) (noted_by self.new) }
    {
        self.scope.push_front(name)?;
        Ok(true)
    }

    pub fn leaf(&mut self, term: Term) -> Result<bool, AllocError>
        ensures { Noticed result
            (marked (grammar.Leaf (tree_of term)) (noted_by self.old)) (noted_by self.new) }
    {
        self.made.push_front(term)?;
        Ok(true)
    }

    pub fn make1(&mut self, alloc: Global, form: Single) -> Result<bool, AllocError>
        ensures { Noticed result
            (marked (grammar.Make1 (trees.Unary (form_of form))) (noted_by self.old))
            (noted_by self.new) }
    {
        let Some(a) = self.made.pop_front() else {
            return Ok(false);
        };
        let a = Box::new(alloc, a)?;
        self.made.push_front(Term::Unary(form.form(), a))?;
        Ok(true)
    }

    pub fn make2(&mut self, alloc: Global, form: Double) -> Result<bool, AllocError>
        ensures { Noticed result
            (marked (grammar.Make2 (double_of form)) (noted_by self.old)) (noted_by self.new) }
    {
        let Some(b) = self.made.pop_front() else {
            return Ok(false);
        };
        let Some(a) = self.made.pop_front() else {
            return Ok(false);
        };
        let term = doubled(alloc, form, a, b)?;
        self.made.push_front(term)?;
        Ok(true)
    }

    pub fn make3(&mut self, alloc: Global, form: Triple) -> Result<bool, AllocError>
        ensures { Noticed result
            (marked (grammar.Make3 (triple_of form)) (noted_by self.old)) (noted_by self.new) }
    {
        let Some(c) = self.made.pop_front() else {
            return Ok(false);
        };
        let Some(b) = self.made.pop_front() else {
            return Ok(false);
        };
        let Some(a) = self.made.pop_front() else {
            return Ok(false);
        };
        let term = tripled(alloc, form, a, b, c)?;
        self.made.push_front(term)?;
        Ok(true)
    }

    pub fn make_by_product(&mut self, alloc: Global, grouping: Grouping) -> Result<bool, AllocError>
        ensures { Noticed result
            (marked (grammar.MakeByProduct (grouping_form grouping)) (noted_by self.old))
            (noted_by self.new) }
    {
        let Some(product) = self.products.pop_front() else {
            return Ok(false);
        };
        let Some(array) = self.made.pop_front() else {
            return Ok(false);
        };
        let array = Box::new(alloc, array)?;
        self.made
            .push_front(Term::Unary(grouping.by(product), array))?;
        Ok(true)
    }
}
