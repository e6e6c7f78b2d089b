//! Whether terms and types name what the program declares.

ghost use Rattle.std.specs.Prelude.{◌<◌, ◌↔◌, ◌+◌, ◌*◌, ◌^◌, IsTrue, map};
ghost use Rattle.size_arith.specs.Ranges.{IsName, AreNames};
ghost use Rattle.lift_tree.specs.InputTypes.{written_of};
ghost use Rattle.lift_tree.specs.Tree.{tree_of, height};
ghost use Rattle.lift_tree.specs.WorkedOut.{range_of};
ghost use Rattle.lift_tree.specs.Programs.{PlainInput, input_of, program_of};
ghost use Rattle.lift_tree.specs.Belonging.{IsNamed, IsProper, IsTermOf, AreNamed, PartsAreNamed, TypeIsNamed, InputsAreNamed, IsElementType, HoldsElementTypes, IsInputType, LayoutIsNamed, FormIsNamed, Belongs};
ghost use Rattle.lift_tree.specs.Lists.{Every};

use lift_tree::input_type::InputType;
use lift_tree::layout::Layout;
use lift_tree::length::{Factor, Part};
use lift_tree::program::{Input, Program, Size};
use lift_tree::term::{Term, UnaryForm};

fn are_named(sizes: usize, least: u32, factors: &[Factor]) -> bool
    ensures { IsTrue result ↔ AreNamed sizes least factors.now }
{
    match factors {
        [] => true,
        [first, rest @ ..] => is_named(sizes, least, *first) && are_named(sizes, least, rest),
    }
}

fn is_named(sizes: usize, least: u32, factor: Factor) -> bool
    ensures { IsTrue result ↔ IsNamed sizes least factor }
{
    match factor {
        Factor::Number(n) => least <= n,
        Factor::Size(i) => (i as usize) < sizes,
    }
}

fn parts_are_named(sizes: usize, parts: &[Part]) -> bool
    ensures { IsTrue result ↔ PartsAreNamed sizes parts.now }
{
    match parts {
        [] => true,
        [first, rest @ ..] => {
            are_named(sizes, 0, first.product.factors()) && parts_are_named(sizes, rest)
        }
    }
}

fn type_is_named(sizes: usize, ty: &InputType) -> bool
    ensures { IsTrue result ↔ TypeIsNamed sizes (written_of ty.now) }
{
    match ty {
        InputType::Number => true,
        InputType::Pair(a, b) => type_is_named(sizes, a) && type_is_named(sizes, b),
        InputType::Array(element, parts) => {
            type_is_named(sizes, element) && parts_are_named(sizes, parts.parts())
        }
    }
}

fn is_element_type(ty: &InputType) -> bool
    ensures { IsTrue result ↔ IsElementType (written_of ty.now) }
{
    match ty {
        InputType::Number => true,
        InputType::Pair(a, b) => is_element_type(a) && is_element_type(b),
        InputType::Array(_, _) => false,
    }
}

fn holds_element_types(ty: &InputType) -> bool
    ensures { IsTrue result ↔ HoldsElementTypes (written_of ty.now) }
{
    match ty {
        InputType::Number => true,
        InputType::Pair(a, b) => is_element_type(a) && is_element_type(b),
        InputType::Array(element, _) => holds_element_types(element),
    }
}

fn is_input_type(ty: &InputType) -> bool
    ensures { IsTrue result ↔ IsInputType (written_of ty.now) }
{
    match ty {
        InputType::Number | InputType::Pair(_, _) => false,
        InputType::Array(element, _) => holds_element_types(element),
    }
}

fn are_input_types(inputs: &[Input]) -> bool
    ensures { IsTrue result
        ↔ Every (λ (i : PlainInput). IsInputType i.ty) (map input_of inputs.now) }
{
    match inputs {
        [] => true,
        [first, rest @ ..] => is_input_type(&first.ty) && are_input_types(rest),
    }
}

fn inputs_are_named(sizes: usize, inputs: &[Input]) -> bool
    ensures { IsTrue result ↔ InputsAreNamed sizes (map input_of inputs.now) }
{
    match inputs {
        [] => true,
        [first, rest @ ..] => type_is_named(sizes, &first.ty) && inputs_are_named(sizes, rest),
    }
}

fn layout_is_named(sizes: usize, layout: &Layout) -> bool
    ensures { IsTrue result ↔ LayoutIsNamed sizes layout.now }
{
    match layout {
        Layout::Split(step) | Layout::Stride(step) => are_named(sizes, 1, step.factors()),
        _ => true,
    }
}

fn form_is_named(sizes: usize, form: &UnaryForm) -> bool
    ensures { IsTrue result ↔ FormIsNamed sizes form.now }
{
    match form {
        UnaryForm::Div(n) | UnaryForm::Rem(n) => 1 <= *n,
        UnaryForm::Layout(layout) => layout_is_named(sizes, layout),
        UnaryForm::Slide(size, step) => 1 <= *size && 1 <= *step,
        UnaryForm::First
        | UnaryForm::Second
        | UnaryForm::Pad(_, _)
        | UnaryForm::ToLocal
        | UnaryForm::ToPrivate
        | UnaryForm::Then => true,
    }
}

fn belongs(sizes: usize, inputs: usize, binders: u64, term: &Term) -> bool
    requires { binders + 2 * height (tree_of term.now) < 2 ^ 34 }
    ensures { IsTrue result ↔ Belongs sizes inputs binders (tree_of term.now) }
{
    match term {
        Term::Variable(n) => (*n as u64) < binders,
        Term::Number(_) => true,
        Term::Input(n) => (*n as usize) < inputs,
        Term::Unary(form, a) => form_is_named(sizes, form) && belongs(sizes, inputs, binders, a),
        Term::Binary(_, a, b) => {
            belongs(sizes, inputs, binders, a) && belongs(sizes, inputs, binders, b)
        }
        Term::Select(a, b, c) => {
            belongs(sizes, inputs, binders, a)
                && (belongs(sizes, inputs, binders, b) && belongs(sizes, inputs, binders, c))
        }
        Term::Let(a, b) | Term::Map(_, a, b) => {
            belongs(sizes, inputs, binders, a) && belongs(sizes, inputs, binders + 1, b)
        }
        Term::Fold(_, a, b, c) => {
            belongs(sizes, inputs, binders, a)
                && (belongs(sizes, inputs, binders, b) && belongs(sizes, inputs, binders + 2, c))
        }
    }
}

fn is_range(size: &Size) -> bool
    ensures { IsTrue result ↔ IsName (range_of size.now) }
{
    1 <= size.multiple
        && size.multiple <= 1048576
        && 1 <= size.from
        && size.from <= size.to
        && size.to <= 1048576
        && size.from % size.multiple == 0
        && size.to % size.multiple == 0
}

fn are_ranges(sizes: &[Size]) -> bool
    ensures { IsTrue result ↔ AreNames (map range_of sizes.now) }
{
    match sizes {
        [] => true,
        [first, rest @ ..] => is_range(first) && are_ranges(rest),
    }
}

/// Whether the program's sizes are at most 8 with proper ranges, and its inputs arrays whose pairs
/// hold numbers only and whose lengths name these sizes alone.
pub fn is_proper(program: &Program) -> bool
    ensures { IsTrue result ↔ IsProper (program_of program.now) }
{
    program.sizes.len() <= 8
        && are_ranges(&program.sizes)
        && inputs_are_named(program.sizes.len(), &program.inputs)
        && are_input_types(&program.inputs)
}

/// Whether each variable of the term has its binder, its inputs and sizes are the program's, and
/// its
/// numbers that have to be at least 1 are. Terms of a height from 2^31 on are answered by false.
pub fn belongs_to(program: &Program, term: &Term) -> bool
    ensures { IsTrue result
        ↔ ((height (tree_of term.now) < 2 ^ 31)
        × IsTermOf (program_of program.now) (tree_of term.now)) }
{
    term.depth() < 1 << 31 && belongs(program.sizes.len(), program.inputs.len(), 0, term)
}
