//! What the rules give.

ghost use Rattle.std.specs.Prelude.{◌≡◌, IfOk};
ghost use Rattle.scalar_ops.specs.Operators.{neutral};
ghost use Rattle.lift_tree.specs.declared.term.BinaryForm.TheVariants.{Reduce};
ghost use Rattle.lift_tree.specs.declared.layout.Layout.TheVariants.{Transpose};
ghost use Rattle.lift_tree.specs.declared.term.UnaryForm.TheVariants as unary;
ghost use Rattle.lift_tree.specs.Tree.{tree_of, Unary, Binary, Number, Variable};
ghost use Rattle.lift_tree.specs.Renumbering.{IsRenumberable};
ghost use Rattle.rules_split.specs.Rules.{in_pieces, mapped_by_rows, reduced_by_rows, joined, folded, tiled};

use lift_tree::layout::Layout;
use lift_tree::length::{Factor, Product};
use lift_tree::renumber::raised;
use lift_tree::term::{BinaryForm, FoldKind, MapKind, Operator, Term, UnaryForm};
use scalar_ops::{Reducer, Regroup};
use std::alloc::{AllocError, Global};

/// The array cut into pieces of this length.
pub fn in_pieces(alloc: Global, k: u32, array: Box<Term>) -> Result<Term, AllocError>
    ensures { IfOk result (λ t. tree_of t ≡ in_pieces k (tree_of array.value)) }
{
    let factors = vec![in alloc; Factor::Number(k)]?;
    let pieces = Layout::Split(Product::new(factors));
    Ok(Term::Unary(UnaryForm::Layout(pieces), array))
}

// The rows' images one after another.
fn joined(alloc: Global, rows: Term, body: Term) -> Result<Term, AllocError>
    ensures { IfOk result (λ t. tree_of t ≡ joined (tree_of rows) (tree_of body)) }
{
    let mapped = Term::map(alloc, MapKind::Plain, rows, body)?;
    Term::unary(alloc, UnaryForm::Layout(Layout::Join), mapped)
}

/// The rows, each mapped, one after another.
pub fn mapped_by_rows(alloc: Global, rows: Term, body: &Term) -> Result<Term, AllocError>
    requires { IsRenumberable (tree_of body.now) }
    ensures { IfOk result (λ t. tree_of t ≡ mapped_by_rows (tree_of rows) (tree_of body.now)) }
{
    let body = raised(alloc, body, 1)?;
    let mapped = Term::map(alloc, MapKind::Plain, Term::Variable(0), body)?;
    joined(alloc, rows, mapped)
}

// The nearest binder's array, reduced from the neutral element.
fn row_reduced<R: Regroup>(alloc: Global, form: BinaryForm) -> Result<Term, AllocError>
    requires { form ≡ Reduce R.operator }
    ensures { IfOk result
        (λ t. tree_of t ≡ Binary (Reduce R.operator) (Variable 0) (Number (neutral R.operator))) }
{
    Term::binary(alloc, form, Term::Variable(0), Term::Number(R::neutral()))
}

/// The rows reduced one by one from the neutral element, and what they give from the start.
pub fn reduced_by_rows<R: Regroup>(
    alloc: Global,
    form: BinaryForm,
    rows: Term,
    start: Box<Term>,
) -> Result<Term, AllocError>
    requires { form ≡ Reduce R.operator }
    ensures { IfOk result
        (λ t. tree_of t ≡ reduced_by_rows R.operator (tree_of rows) (tree_of start.value)) }
{
    let rows = joined(alloc, rows, row_reduced::<R>(alloc, form)?)?;
    Ok(Term::Binary(form, Box::new(alloc, rows)?, start))
}

/// The array's columns.
pub fn transposed(alloc: Global, array: Term) -> Result<Term, AllocError>
    ensures { IfOk result (λ t. tree_of t ≡ Unary (unary.Layout Transpose) (tree_of array)) }
{
    Term::unary(alloc, UnaryForm::Layout(Layout::Transpose), array)
}

/// The array folded by the operator, accumulator first.
pub fn folded(
    alloc: Global,
    reducer: Reducer,
    array: Box<Term>,
    start: Box<Term>,
) -> Result<Term, AllocError>
    ensures { IfOk result
        (λ t. tree_of t ≡ folded reducer (tree_of array.value) (tree_of start.value)) }
{
    let form = BinaryForm::Operator(Operator::Regrouping(reducer));
    let body = Term::binary(alloc, form, Term::Variable(1), Term::Variable(0))?;
    Ok(Term::Fold(FoldKind::Plain, array, start, Box::new(alloc, body)?))
}

/// The pieces of `size` elements that begin `step` apart, by tiles of
/// `tile` elements that begin v apart.
pub fn tiled(
    alloc: Global,
    size: u32,
    step: u32,
    tile: u32,
    v: u32,
    array: Box<Term>,
) -> Result<Term, AllocError>
    ensures { IfOk result (λ t. tree_of t ≡ tiled size step tile v (tree_of array.value)) }
{
    let tiles = Term::Unary(UnaryForm::Slide(tile, v), array);
    let of_tile = Term::unary(alloc, UnaryForm::Slide(size, step), Term::Variable(0))?;
    joined(alloc, tiles, of_tile)
}
