//! The value of a term, by recursion on it.

ghost use Rattle.std.specs.Prelude.{◌≡◌, ◌∷◌, ◌/◌, [], IfOk, map, min, length};
ghost use Rattle.size_arith.specs.Ranges.{sizes_at};
ghost use Rattle.lift_tree.specs.Lists.{pieces, strided};
ghost use Rattle.lift_tree.specs.Meaning.{meaning, layout_value, unary_value, binary_value, product_at, factor_at, nth_size};
ghost use Rattle.lift_tree.specs.Tree as tree;
ghost use Rattle.lift_tree.specs.Tree.{tree_of};
ghost use Rattle.lift_tree.specs.Values.{value_of, array, members, nth};
ghost use Rattle.lift_tree.specs.WorkedOut.{range_of};
ghost use Rattle.pattern_value.specs.Held.{held, values_in};
ghost use Rattle.pattern_value.specs.Pieces.{pieces_in};
ghost use Rattle.pattern_value.specs.Shut.{map_under, fold_under, fold_by};
ghost use Rattle.pattern_value.specs.World.{world_of};

use crate::lanes::{operated, word_operator};
use crate::layout::{Pieces, joined, pad, reversed, transposed, windows, zipped};
use crate::lent::Held;
use crate::operator::combined;
use crate::part::{list, members_of, word_of};
use crate::scope::Scope;
use lift_tree::layout::Layout;
use lift_tree::length::Factor;
use lift_tree::program::Size;
use lift_tree::term::{BinaryForm, Term, UnaryForm};
use lift_tree::value::Val;
use scalar_ops::{Op, Reducer};
use std::alloc::{AllocError, Global};

/// The declared sizes, the base names' values, and the inputs.
#[derive(Clone, Copy)]
pub struct World<'a> {
    pub sizes: &'a [Size],
    pub bases: &'a [u32],
    pub inputs: &'a [Val],
}

// The declared size of this number, or 0.
#[tactic(auto, using(crate::proofs::Sizes::size_numbers))]
fn size_at(sizes: &[Size], bases: &[u32], number: u32) -> u64
    ensures { result ≡ nth_size (sizes_at (map range_of sizes.now) bases.now) number }
{
    match (sizes.get(number as usize), bases.get(number as usize)) {
        (Some(size), Some(base)) => size.multiple as u64 * *base as u64,
        _ => 0,
    }
}

impl World<'_> {
    // The factor's value.
    #[tactic(auto, using(crate::proofs::Sizes::world_sizes))]
    fn factor(&self, factor: Factor) -> u64
        ensures { result ≡ factor_at (world_of self.now).sizes factor }
    {
        match factor {
            Factor::Number(n) => n as u64,
            Factor::Size(number) => size_at(self.sizes, self.bases, number),
        }
    }

    // The product of the factors; it stands still at 2^64 - 1.
    #[tactic(auto, using(crate::proofs::Sizes::product_from))]
    fn product(&self, factors: &[Factor]) -> u64
        ensures { result ≡ min (product_at (world_of self.now).sizes factors.now) u64.MAX }
    {
        let mut product = 1u64;
        for index in (0..factors.len()).rev() {
            product = self.factor(factors[index]).saturating_mul(product);
        }
        product
    }

    // The consecutive pieces of this length.
    #[tactic(auto, using(crate::proofs::Sizes::splits))]
    fn split<'v>(&self, factors: &[Factor], v: &'v Val) -> Pieces<'v>
        ensures { pieces_in result ≡ map array (pieces
            (length (members (value_of v.now)) / product_at (world_of self.now).sizes factors.now)
            (product_at (world_of self.now).sizes factors.now)
            (product_at (world_of self.now).sizes factors.now)
            (members (value_of v.now))) }
    {
        let members = members_of(v);
        let size = self.product(factors) as usize;
        let count = if size == 0 { 0 } else { members.len() / size };
        Pieces {
            members,
            count,
            size,
            step: size,
        }
    }

    // The columns of the pieces of this length, one after another.
    #[tactic(auto, using(crate::proofs::Layouts::strides))]
    fn stride(&self, alloc: Global, factors: &[Factor], v: &Val) -> Result<Val, AllocError>
        ensures { IfOk result (λ u. value_of u ≡ array (strided
            (product_at (world_of self.now).sizes factors.now) (members (value_of v.now)))) }
    {
        let pieces = self.split(factors, v).cut(alloc)?;
        let columns = transposed(alloc, &pieces)?;
        Ok(joined(alloc, columns)?)
    }

    // The input of this number, or 0.
    #[tactic(auto, using(crate::proofs::Under::inputs))]
    fn input<'s>(&'s self, number: u32) -> Held<'s>
        ensures { held result ≡ nth (world_of self.now).inputs number }
    {
        match self.inputs.get(number as usize) {
            Some(v) => Held::Lent(v),
            None => Held::Owned(Val::Number(0)),
        }
    }

    // The value of a layout at its child's value.
    fn layout(&self, alloc: Global, layout: &Layout, v: Held<'_>) -> Result<Val, AllocError>
        ensures { IfOk result (λ u. value_of u
            ≡ layout_value (world_of self.now).sizes layout.now (held v.entry)) }
    {
        match layout {
            Layout::Join => joined(alloc, v.into_owned(alloc)?),
            Layout::Transpose => transposed(alloc, v.as_val()),
            Layout::Split(length) => self.split(length.factors(), v.as_val()).cut(alloc),
            Layout::Reverse => Ok(reversed(alloc, v.into_owned(alloc)?)),
            Layout::Stride(step) => self.stride(alloc, step.factors(), v.as_val()),
            Layout::AsVector => fours(v.as_val()).cut(alloc),
            Layout::AsScalar => joined(alloc, v.into_owned(alloc)?),
        }
    }

    // The value of a form at its child's value.
    fn unary<'s>(
        &self,
        alloc: Global,
        form: &UnaryForm,
        v: Held<'s>,
    ) -> Result<Held<'s>, AllocError>
        ensures { IfOk result (λ u. held u ≡ unary_value (world_of self.now) form.now (held v.entry)) }
    {
        match form {
            UnaryForm::Div(n) => {
                Ok(Held::Owned(operated(alloc, Op::Div, v.as_val(), &Val::Number(*n))?))
            }
            UnaryForm::Rem(n) => {
                Ok(Held::Owned(operated(alloc, Op::Rem, v.as_val(), &Val::Number(*n))?))
            }
            UnaryForm::First => Ok(v.into_first()),
            UnaryForm::Second => Ok(v.into_second()),
            UnaryForm::Layout(layout) => Ok(Held::Owned(self.layout(alloc, layout, v)?)),
            UnaryForm::Slide(size, step) => {
                Ok(Held::Owned(windows(v.as_val(), *size, *step).cut(alloc)?))
            }
            UnaryForm::Pad(before, after) => {
                Ok(Held::Owned(pad(alloc, v.as_val(), *before, *after)?))
            }
            UnaryForm::ToLocal | UnaryForm::ToPrivate | UnaryForm::Then => Ok(v),
        }
    }

    /// The term's value where the binders have these values. What is bound or an input is lent.
    #[tactic(auto, using(crate::proofs::Under::under))]
    #[cycle(valuing)]
    pub fn value<'s>(
        &'s self,
        alloc: Global,
        scope: &Scope<'s>,
        term: &Term,
    ) -> Result<Held<'s>, AllocError>
        ensures { IfOk result (λ v. held v
            ≡ meaning (world_of self.now) (values_in scope.now) (tree_of term.now)) }
    {
        match term {
            Term::Variable(n) => Ok(scope.binder(*n)),
            Term::Number(n) => Ok(Held::Owned(Val::Number(*n))),
            Term::Input(n) => Ok(self.input(*n)),
            Term::Unary(form, a) => {
                let v = self.value(alloc, scope, a)?;
                self.unary(alloc, form, v)
            }
            Term::Binary(form, a, b) => Ok(Held::Owned(self.binary(alloc, scope, *form, a, b)?)),
            Term::Select(condition, yes, no) => self.select(alloc, scope, condition, yes, no),
            Term::Let(value, body) => {
                let v = self.value(alloc, scope, value)?;
                Ok(Held::Owned(self.under(alloc, scope, v.as_val(), body)?))
            }
            Term::Map(_, array, body) => Ok(Held::Owned(self.map(alloc, scope, array, body)?)),
            Term::Fold(_, array, start, body) => {
                Ok(Held::Owned(self.fold(alloc, scope, array, start, body)?))
            }
        }
    }

    #[cycle(valuing)]
    fn binary<'s>(
        &'s self,
        alloc: Global,
        scope: &Scope<'s>,
        form: BinaryForm,
        a: &Term,
        b: &Term,
    ) -> Result<Val, AllocError>
        ensures { IfOk result (λ v. value_of v ≡ meaning (world_of self.now)
            (values_in scope.now) (tree.Binary form (tree_of a.now) (tree_of b.now))) }
    {
        let v = self.value(alloc, scope, a)?;
        let u = self.value(alloc, scope, b)?;
        binary(alloc, form, v, u)
    }

    #[tactic(auto, using(crate::proofs::Under::under))]
    #[cycle(valuing)]
    fn select<'s>(
        &'s self,
        alloc: Global,
        scope: &Scope<'s>,
        condition: &Term,
        yes: &Term,
        no: &Term,
    ) -> Result<Held<'s>, AllocError>
        ensures { IfOk result (λ v. held v ≡ meaning (world_of self.now) (values_in scope.now)
            (tree.Select (tree_of condition.now) (tree_of yes.now) (tree_of no.now))) }
    {
        let test = self.value(alloc, scope, condition)?;
        if word_of(test.as_val()) != 0 {
            self.value(alloc, scope, yes)
        } else {
            self.value(alloc, scope, no)
        }
    }

    #[cycle(valuing)]
    fn map<'s>(
        &'s self,
        alloc: Global,
        scope: &Scope<'s>,
        xs: &Term,
        body: &Term,
    ) -> Result<Val, AllocError>
        ensures { IfOk result (λ v. value_of v ≡ array (map_under (world_of self.now)
            (values_in scope.now) (tree_of body.now) (members (meaning (world_of self.now)
            (values_in scope.now) (tree_of xs.now))))) }
    {
        let all = self.mapped_array(alloc, scope, xs, body)?;
        Ok(list(all))
    }

    // The body's value at each member; pieces are cut one by one, as the map comes to them.
    #[tactic(auto, using(crate::proofs::Under::members_of_pieces))]
    #[cycle(valuing)]
    fn mapped_array<'s>(
        &'s self,
        alloc: Global,
        scope: &Scope<'s>,
        xs: &Term,
        body: &Term,
    ) -> Result<Vec<Val>, AllocError>
        ensures { IfOk result (λ c. map value_of c.items ≡ map_under (world_of self.now)
            (values_in scope.now) (tree_of body.now) (members (meaning (world_of self.now)
            (values_in scope.now) (tree_of xs.now)))) }
    {
        match xs {
            Term::Unary(UnaryForm::Slide(size, step), array) => {
                let array = self.value(alloc, scope, array)?;
                self.mapped_pieces(alloc, scope, windows(array.as_val(), *size, *step), body)
            }
            Term::Unary(UnaryForm::Layout(Layout::Split(length)), array) => {
                let array = self.value(alloc, scope, array)?;
                let pieces = self.split(length.factors(), array.as_val());
                self.mapped_pieces(alloc, scope, pieces, body)
            }
            _ => {
                let array = self.value(alloc, scope, xs)?;
                self.mapped(alloc, scope, members_of(array.as_val()), body)
            }
        }
    }

    #[cycle(valuing)]
    fn fold<'s>(
        &'s self,
        alloc: Global,
        scope: &Scope<'s>,
        xs: &Term,
        start: &Term,
        body: &Term,
    ) -> Result<Val, AllocError>
        ensures { IfOk result (λ v. value_of v ≡ array (fold_under (world_of self.now)
            (values_in scope.now) (tree_of body.now) (meaning (world_of self.now)
            (values_in scope.now) (tree_of start.now)) (members (meaning (world_of self.now)
            (values_in scope.now) (tree_of xs.now))) ∷ [])) }
    {
        let xs = self.value(alloc, scope, xs)?;
        let start = self.value(alloc, scope, start)?.into_owned(alloc)?;
        let end = self.folded(alloc, scope, start, members_of(xs.as_val()), body)?;
        alone(alloc, end)
    }

    // The body's value under one more binder.
    #[tactic(auto, using(crate::proofs::Under::under))]
    #[cycle(valuing)]
    fn under(
        &self,
        alloc: Global,
        scope: &Scope<'_>,
        v: &Val,
        body: &Term,
    ) -> Result<Val, AllocError>
        ensures { IfOk result (λ u. value_of u ≡ meaning (world_of self.now)
            (value_of v.now ∷ values_in scope.now) (tree_of body.now)) }
    {
        let u = (&*self).value(alloc, &Scope::Bound(&*v, &*scope), body)?;
        u.into_owned(alloc)
    }

    #[tactic(auto, using(crate::proofs::Under::under))]
    #[cycle(valuing)]
    fn mapped(
        &self,
        alloc: Global,
        scope: &Scope<'_>,
        xs: &[Val],
        body: &Term,
    ) -> Result<Vec<Val>, AllocError>
        ensures { IfOk result (λ c. map value_of c.items ≡ map_under (world_of self.now)
            (values_in scope.now) (tree_of body.now) (map value_of xs.now)) }
    {
        let mut all = Vec::new(alloc);
        for x in xs {
            all.push(self.under(alloc, scope, x, body)?)?;
        }
        Ok(all)
    }

    #[tactic(auto, using(crate::proofs::Under::under_pieces))]
    #[cycle(valuing)]
    fn mapped_pieces(
        &self,
        alloc: Global,
        scope: &Scope<'_>,
        pieces: Pieces<'_>,
        body: &Term,
    ) -> Result<Vec<Val>, AllocError>
        ensures { IfOk result (λ c. map value_of c.items ≡ map_under (world_of self.now)
            (values_in scope.now) (tree_of body.now) (pieces_in pieces.entry)) }
    {
        let mut all = Vec::new(alloc);
        let mut left = pieces;
        while left.count > 0 {
            let piece = left.first(alloc)?;
            all.push(self.under(alloc, scope, &piece, body)?)?;
            left = left.rest();
        }
        Ok(all)
    }

    // The last value of a fold that begins with `start`.
    #[tactic(auto, using(crate::proofs::Under::under))]
    #[cycle(valuing)]
    fn folded(
        &self,
        alloc: Global,
        scope: &Scope<'_>,
        start: Val,
        xs: &[Val],
        body: &Term,
    ) -> Result<Val, AllocError>
        ensures { IfOk result (λ v. value_of v ≡ fold_under (world_of self.now)
            (values_in scope.now) (tree_of body.now) (value_of start) (map value_of xs.now)) }
    {
        let mut end = start;
        for x in xs {
            end = self.under(alloc, &Scope::Bound(&end, &*scope), x, body)?;
        }
        Ok(end)
    }
}

// The consecutive pieces of four.
#[tactic(auto, using(crate::proofs::Sizes::splits))]
fn fours(v: &Val) -> Pieces<'_>
    ensures { pieces_in result ≡ map array
        (pieces (length (members (value_of v.now)) / 4) 4 4 (members (value_of v.now))) }
{
    let members = members_of(v);
    Pieces {
        members,
        count: members.len() / 4,
        size: 4,
        step: 4,
    }
}

// The value of a form at its children's values.
#[tactic(auto, using(crate::proofs::Under::reductions))]
fn binary(alloc: Global, form: BinaryForm, v: Held<'_>, u: Held<'_>) -> Result<Val, AllocError>
    ensures { IfOk result (λ w. value_of w ≡ binary_value form (held v.entry) (held u.entry)) }
{
    match form {
        BinaryForm::Operator(operator) => {
            operated(alloc, word_operator(operator), v.as_val(), u.as_val())
        }
        BinaryForm::Pair => {
            let v = Box::new(alloc, v.into_owned(alloc)?)?;
            Ok(Val::Pair(v, Box::new(alloc, u.into_owned(alloc)?)?))
        }
        BinaryForm::Zip => zipped(alloc, v.as_val(), u.as_val()),
        BinaryForm::Reduce(reducer) => {
            let start = u.into_owned(alloc)?;
            alone(alloc, reduced(reducer, start, members_of(v.as_val())))
        }
    }
}

#[tactic(auto, using(crate::proofs::Under::reductions))]
fn reduced(reducer: Reducer, start: Val, xs: &[Val]) -> Val
    ensures { value_of result ≡ fold_by reducer (value_of start) (map value_of xs.now) }
{
    let mut end = start;
    for x in xs {
        end = Val::Number(combined(reducer, word_of(&end), word_of(x)));
    }
    end
}

// The list of this value alone.
#[tactic(auto, using(crate::proofs::Held::held_values))]
fn alone(alloc: Global, v: Val) -> Result<Val, AllocError>
    ensures { IfOk result (λ u. value_of u ≡ array (value_of v ∷ [])) }
{
    let mut all = Vec::new(alloc);
    all.push(v)?;
    Ok(list(all))
}
