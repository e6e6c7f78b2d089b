//! Terms as texts.

ghost use Rattle.std.specs.Prelude.{◌≡◌, ◌+◌, ◌++◌, IfErr, IfOk, OnOk, codes};
ghost use Rattle.lift_tree.specs.Tree.{tree_of};
ghost use Rattle.lift_tree.specs.Programs.{program_of};
ghost use Rattle.term_texts.specs.TermText.{binder_text, fold_binders, fold_start, layout_start, let_start, map_start, text_at, text_of, two_numbers, unary_end, unary_start};

use crate::names::{
    fold_name, input_name, is_reduce, map_name, push_binary_start, push_number, push_product,
};
use lift_tree::layout::Layout;
use lift_tree::program::Program;
use lift_tree::term::{FoldKind, MapKind, Term, UnaryForm};
use std::alloc::{AllocError, Global};

/// A term of the program as a text, in the syntax of programs: the function first, and `_k` for a
/// binder with k binders around it.
///
/// Each variable has its binder in the term, and each input and size that the term names is the
/// program's. The product of each split's and each stride's numbers is at most 4,294,967,296; the
/// text's stands still at 2^64 - 1.
pub fn term_text(alloc: Global, term: &Term, program: &Program) -> Result<Vec<u8>, AllocError>
    ensures { IfOk result (λ text. text.items
        ≡ text_of (program_of program.now) (tree_of term.now)) }
{
    let mut text = Vec::new(alloc);
    push_term(alloc, &mut text, program, 0, term)?;
    Ok(text)
}

fn push_binder(text: &mut Vec<u8>, number: u64) -> Result<(), AllocError>
    ensures { OnOk result (text.new.items ≡ text.old.items ++ binder_text number) }
{
    text.extend_from_slice(b"_")?;
    push_number(text, number)
}

// What stands before the one child.
fn push_unary_start(
    alloc: Global,
    text: &mut Vec<u8>,
    program: &Program,
    form: &UnaryForm,
) -> Result<(), AllocError>
    ensures { OnOk result (text.new.items
        ≡ text.old.items ++ unary_start (program_of program.now).sizes form.now) }
{
    match form {
        UnaryForm::Div(_) => text.extend_from_slice(b"div("),
        UnaryForm::Rem(_) => text.extend_from_slice(b"rem("),
        UnaryForm::First => text.extend_from_slice(b"first("),
        UnaryForm::Second => text.extend_from_slice(b"second("),
        UnaryForm::Layout(layout) => push_layout_start(alloc, text, program, layout),
        UnaryForm::Slide(size, step) => {
            text.extend_from_slice(b"slide(")?;
            push_numbers(text, *size, *step)
        }
        UnaryForm::Pad(before, behind) => {
            text.extend_from_slice(b"pad(")?;
            push_numbers(text, *before, *behind)
        }
        UnaryForm::ToLocal => text.extend_from_slice(b"toLocal("),
        UnaryForm::ToPrivate => text.extend_from_slice(b"toPrivate("),
        UnaryForm::Then => text.extend_from_slice(b"then("),
    }
}

fn push_layout_start(
    alloc: Global,
    text: &mut Vec<u8>,
    program: &Program,
    layout: &Layout,
) -> Result<(), AllocError>
    ensures { OnOk result (text.new.items
        ≡ text.old.items ++ layout_start (program_of program.now).sizes layout.now) }
{
    match layout {
        Layout::Join => text.extend_from_slice(b"join("),
        Layout::Transpose => text.extend_from_slice(b"transpose("),
        Layout::Split(product) => {
            text.extend_from_slice(b"split(")?;
            push_product(alloc, text, &program.sizes, product.factors())?;
            text.extend_from_slice(b", ")
        }
        Layout::Reverse => text.extend_from_slice(b"reverse("),
        Layout::AsVector => text.extend_from_slice(b"asVector(4, "),
        Layout::AsScalar => text.extend_from_slice(b"asScalar("),
        Layout::Stride(product) => {
            text.extend_from_slice(b"stride(")?;
            push_product(alloc, text, &program.sizes, product.factors())?;
            text.extend_from_slice(b", ")
        }
    }
}

fn push_numbers(text: &mut Vec<u8>, first: u32, second: u32) -> Result<(), AllocError>
    ensures { OnOk result (text.new.items ≡ text.old.items ++ two_numbers first second) }
{
    push_number(text, u64::from(first))?;
    text.extend_from_slice(b", ")?;
    push_number(text, u64::from(second))?;
    text.extend_from_slice(b", ")
}

// What stands behind the one child.
fn push_unary_end(text: &mut Vec<u8>, form: &UnaryForm) -> Result<(), AllocError>
    ensures { OnOk result (text.new.items ≡ text.old.items ++ unary_end form.now) }
{
    match form {
        UnaryForm::Div(number) | UnaryForm::Rem(number) => {
            text.extend_from_slice(b", ")?;
            push_number(text, u64::from(*number))?;
            text.extend_from_slice(b")")
        }
        _ => text.extend_from_slice(b")"),
    }
}

// What stands before a let's value, with so many binders around it.
fn push_let_start(text: &mut Vec<u8>, depth: u64) -> Result<(), AllocError>
    ensures { OnOk result (text.new.items ≡ text.old.items ++ let_start depth) }
{
    text.extend_from_slice(b"let ")?;
    push_binder(text, depth)?;
    text.extend_from_slice(b" = ")
}

// What stands before a map's body.
fn push_map_start(text: &mut Vec<u8>, kind: MapKind, depth: u64) -> Result<(), AllocError>
    ensures { OnOk result (text.new.items ≡ text.old.items ++ map_start kind depth) }
{
    text.extend_from_slice(map_name(kind))?;
    text.extend_from_slice(b"(\\")?;
    push_binder(text, depth)?;
    text.extend_from_slice(b". ")
}

// What stands before a fold's body.
fn push_fold_start(
    text: &mut Vec<u8>,
    kind: FoldKind,
    depth: u64,
    element: u64,
) -> Result<(), AllocError>
    requires { element ≡ depth + 1 }
    ensures { OnOk result (text.new.items ≡ text.old.items ++ fold_start kind depth) }
{
    text.extend_from_slice(fold_name(kind))?;
    push_fold_binders(text, depth, element)?;
    text.extend_from_slice(b". ")
}

fn push_fold_binders(text: &mut Vec<u8>, depth: u64, element: u64) -> Result<(), AllocError>
    ensures { OnOk result (text.new.items ≡ text.old.items ++ fold_binders depth element) }
{
    text.extend_from_slice(b"(\\")?;
    push_binder(text, depth)?;
    text.extend_from_slice(b" ")?;
    push_binder(text, element)
}

// One binder more. No memory holds a term with 2^64 of them one in another.
fn one_more(depth: u64) -> Result<u64, AllocError>
    ensures ok { IfOk result (λ inside. inside ≡ depth + 1) }
    ensures refused { IfErr result (λ e. depth ≡ u64.MAX) }
{
    match depth.checked_add(1) {
        Some(inside) => Ok(inside),
        None => Err(AllocError),
    }
}

// The term behind the text, with so many binders around it.
#[tactic(auto, using(crate::proofs::Appended::three_behind, crate::proofs::Appended::four_behind))]
#[cycle(terms)]
fn push_term(
    alloc: Global,
    text: &mut Vec<u8>,
    program: &Program,
    depth: u64,
    term: &Term,
) -> Result<(), AllocError>
    ensures { OnOk result (text.new.items
        ≡ text.old.items ++ text_at (program_of program.now) depth (tree_of term.now)) }
{
    match term {
        Term::Variable(number) => push_binder(text, depth.saturating_sub(u64::from(*number) + 1)),
        Term::Number(number) => push_number(text, u64::from(*number)),
        Term::Input(number) => text.extend_from_slice(input_name(&program.inputs, *number)),
        Term::Unary(form, a) => {
            push_unary_start(alloc, text, program, form)?;
            push_term(alloc, text, program, depth, a)?;
            push_unary_end(text, form)
        }
        Term::Binary(form, a, b) => {
            push_binary_start(text, *form)?;
            if is_reduce(*form) {
                push_two(alloc, text, program, depth, b, a)
            } else {
                push_two(alloc, text, program, depth, a, b)
            }
        }
        Term::Select(a, b, c) => {
            text.extend_from_slice(b"select(")?;
            push_first(alloc, text, program, depth, a)?;
            push_two(alloc, text, program, depth, b, c)
        }
        Term::Let(value, body) => {
            let inside = one_more(depth)?;
            push_let_start(text, depth)?;
            push_term(alloc, text, program, depth, value)?;
            text.extend_from_slice(b" in ")?;
            push_term(alloc, text, program, inside, body)
        }
        Term::Map(kind, array, body) => {
            let inside = one_more(depth)?;
            push_map_start(text, *kind, depth)?;
            push_first(alloc, text, program, inside, body)?;
            push_last(alloc, text, program, depth, array)
        }
        Term::Fold(kind, array, start, body) => {
            let element = one_more(depth)?;
            let inside = one_more(element)?;
            push_fold_start(text, *kind, depth, element)?;
            push_first(alloc, text, program, inside, body)?;
            push_two(alloc, text, program, depth, start, array)
        }
    }
}

// A term with others behind it.
#[cycle(terms)]
fn push_first(
    alloc: Global,
    text: &mut Vec<u8>,
    program: &Program,
    depth: u64,
    term: &Term,
) -> Result<(), AllocError>
    ensures { OnOk result (text.new.items ≡ text.old.items
        ++ (text_at (program_of program.now) depth (tree_of term.now) ++ codes ", ")) }
{
    push_term(alloc, text, program, depth, term)?;
    text.extend_from_slice(b", ")
}

// The last of a function's terms.
#[cycle(terms)]
fn push_last(
    alloc: Global,
    text: &mut Vec<u8>,
    program: &Program,
    depth: u64,
    term: &Term,
) -> Result<(), AllocError>
    ensures { OnOk result (text.new.items ≡ text.old.items
        ++ (text_at (program_of program.now) depth (tree_of term.now) ++ codes ")")) }
{
    push_term(alloc, text, program, depth, term)?;
    text.extend_from_slice(b")")
}

// The last two of a function's terms.
#[cycle(terms)]
fn push_two(
    alloc: Global,
    text: &mut Vec<u8>,
    program: &Program,
    depth: u64,
    first: &Term,
    last: &Term,
) -> Result<(), AllocError>
    ensures { OnOk result (text.new.items ≡ text.old.items
        ++ (text_at (program_of program.now) depth (tree_of first.now) ++ codes ", "
        ++ text_at (program_of program.now) depth (tree_of last.now) ++ codes ")")) }
{
    push_first(alloc, text, program, depth, first)?;
    push_last(alloc, text, program, depth, last)
}
