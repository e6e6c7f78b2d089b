//! The parts of terms, moved out, and terms from their parts.

ghost use Rattle.std.specs.Prelude.{◌≡◌, IfOk};
ghost use Rattle.lift_tree.specs.declared.term.MapKind.TheVariants.{Plain};
ghost use Rattle.lift_tree.specs.declared.term.FoldKind.TheVariants as fold;
ghost use Rattle.lift_tree.specs.declared.layout.Layout.TheVariants.{Join, Split, Transpose, Reverse, Stride};
ghost use Rattle.lift_tree.specs.declared.term.UnaryForm.TheVariants as unary;
ghost use Rattle.lift_tree.specs.Tree.{tree_of, Unary, Let, Map, Fold};
ghost use Rattle.rules_algebra.specs.Shapes.{IsPlainMap, IsPlainFold, IsLet, IsJoin, IsSplit, IsTranspose, IsReverse, IsStride, IsPad};

use lift_tree::layout::Layout;
use lift_tree::length::Product;
use lift_tree::term::{FoldKind, MapKind, Term, UnaryForm};
use std::alloc::{AllocError, Global};

pub fn boxed(alloc: Global, term: Term) -> Result<Box<Term>, AllocError>
    ensures { IfOk result (λ b. b.value ≡ term) }
{
    Ok(Box::new(alloc, term)?)
}

// A plain map's array and body.
pub fn map_parts(term: Term) -> (Box<Term>, Box<Term>)
    requires { IsPlainMap (tree_of term) }
    ensures { tree_of term ≡ Map Plain (tree_of result.0.value) (tree_of result.1.value) }
{
    match term {
        Term::Map(MapKind::Plain, array, body) => (array, body),
        _ => unreachable!(),
    }
}

// A plain fold's array, start and body.
pub fn fold_parts(term: Term) -> (Box<Term>, Box<Term>, Box<Term>)
    requires { IsPlainFold (tree_of term) }
    ensures { tree_of term ≡ Fold fold.Plain
        (tree_of result.0.value) (tree_of result.1.value) (tree_of result.2.value) }
{
    match term {
        Term::Fold(FoldKind::Plain, array, start, body) => (array, start, body),
        _ => unreachable!(),
    }
}

// A let's value and body.
pub fn let_parts(term: Term) -> (Box<Term>, Box<Term>)
    requires { IsLet (tree_of term) }
    ensures { tree_of term ≡ Let (tree_of result.0.value) (tree_of result.1.value) }
{
    match term {
        Term::Let(value, body) => (value, body),
        _ => unreachable!(),
    }
}

pub fn joined(term: Term) -> Box<Term>
    requires { IsJoin (tree_of term) }
    ensures { tree_of term ≡ Unary (unary.Layout Join) (tree_of result.value) }
{
    match term {
        Term::Unary(UnaryForm::Layout(Layout::Join), rows) => rows,
        _ => unreachable!(),
    }
}

// The pieces' length, and the array that is split.
pub fn split_parts(term: Term) -> (Product, Box<Term>)
    requires { IsSplit (tree_of term) }
    ensures { tree_of term ≡ Unary (unary.Layout (Split result.0)) (tree_of result.1.value) }
{
    match term {
        Term::Unary(form, array) => match form {
            UnaryForm::Layout(Layout::Split(length)) => (length, array),
            _ => unreachable!(),
        },
        _ => unreachable!(),
    }
}

pub fn transposed(term: Term) -> Box<Term>
    requires { IsTranspose (tree_of term) }
    ensures { tree_of term ≡ Unary (unary.Layout Transpose) (tree_of result.value) }
{
    match term {
        Term::Unary(UnaryForm::Layout(Layout::Transpose), rows) => rows,
        _ => unreachable!(),
    }
}

pub fn reversed(term: Term) -> Box<Term>
    requires { IsReverse (tree_of term) }
    ensures { tree_of term ≡ Unary (unary.Layout Reverse) (tree_of result.value) }
{
    match term {
        Term::Unary(UnaryForm::Layout(Layout::Reverse), array) => array,
        _ => unreachable!(),
    }
}

// How far the elements are apart, and the array that they are of.
pub fn stride_parts(term: Term) -> (Product, Box<Term>)
    requires { IsStride (tree_of term) }
    ensures { tree_of term ≡ Unary (unary.Layout (Stride result.0)) (tree_of result.1.value) }
{
    match term {
        Term::Unary(form, array) => match form {
            UnaryForm::Layout(Layout::Stride(step)) => (step, array),
            _ => unreachable!(),
        },
        _ => unreachable!(),
    }
}

// How many are put before and after, and the array that is padded.
pub fn pad_parts(term: Term) -> (u32, u32, Box<Term>)
    requires { IsPad (tree_of term) }
    ensures { tree_of term ≡ Unary (unary.Pad result.0 result.1) (tree_of result.2.value) }
{
    match term {
        Term::Unary(UnaryForm::Pad(before, after), array) => (before, after, array),
        _ => unreachable!(),
    }
}
