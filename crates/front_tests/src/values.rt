//! Programs, and their values at given inputs.

use crate::types::typed;
use lift_tree::program::Program;
use lift_tree::term::{BinaryForm, Dimension, FoldKind, Level, MapKind, Operator, Term, UnaryForm};
use lift_tree::ty::Ty;
use lift_tree::typed::{NodeTypes, Typed};
use lift_tree::value::Val;
use pattern_value::value_of;
use scalar_ops::Reducer;
use size_arith::{Name, Sizes};
use std::alloc::{AllocError, Global};
use std::test::Fail;

// A value in prefix order: a list's length before its members, the parts of a pair, a number.

// The value of a term, once for the one element of the input. The five low bits of 33 are 1, of 34
// they are 2; sums, differences and products are taken modulo 2^32.
const WORDS: &[(&str, u32)] = &[
    ("add(4294967295, 1)", 0),
    ("mul(65536, 65536)", 0),
    ("mul(6, 7)", 42),
    ("min(3, 9)", 3),
    ("max(3, 9)", 9),
    ("and(12, 10)", 8),
    ("or(12, 10)", 14),
    ("xor(12, 10)", 6),
    ("sub(0, 1)", 4294967295),
    ("sub(5, 3)", 2),
    ("shl(1, 33)", 2),
    ("shr(12, 34)", 3),
    ("lt(2, 3)", 1),
    ("lt(3, 3)", 0),
    ("eq(3, 3)", 1),
    ("eq(2, 3)", 0),
    // 7 = 2 * 3 + 1
    ("div(7, 2)", 3),
    ("rem(7, 2)", 1),
    ("select(0, 4, 5)", 5),
    ("select(1, 4, 5)", 4),
    ("select(2, 4, 5)", 4),
    ("first(pair(1, 2))", 1),
    ("second(pair(1, 2))", 2),
    // the nearest binder counts
    ("let x = 7 in let y = 2 in sub(x, y)", 5),
];

// An input's type, a term, the numbers of the input, and the value.
const LISTS: &[(&str, &str, &[u32], &[u32])] = &[
    (
        "[u32; 2]",
        "map(\\x. mul(x, x), xs)",
        &[65536, 3],
        &[2, 0, 9],
    ),
    ("[u32; 2]", "map(\\x. shl(1, x), xs)", &[33, 0], &[2, 2, 1]),
    // 1 - 10 = -9, 2 + 9 = 11, 3 - 11 = -8
    (
        "[u32; 3]",
        "fold(\\a x. sub(x, a), 10, xs)",
        &[1, 2, 3],
        &[1, 4294967288],
    ),
    ("[u32; 3]", "reduce(add, 5, xs)", &[1, 2, 3], &[1, 11]),
    ("[u32; 3]", "reduce(mul, 5, xs)", &[1, 2, 3], &[1, 30]),
    ("[u32; 3]", "reduce(min, 5, xs)", &[1, 2, 3], &[1, 1]),
    ("[u32; 3]", "reduce(max, 5, xs)", &[1, 2, 3], &[1, 5]),
    ("[u32; 3]", "reduce(and, 5, xs)", &[1, 2, 3], &[1, 0]),
    ("[u32; 3]", "reduce(or, 5, xs)", &[1, 2, 3], &[1, 7]),
    // 1 xor 2 xor 3 = 0
    ("[u32; 3]", "reduce(xor, 5, xs)", &[1, 2, 3], &[1, 5]),
    // the pieces of 3 that begin at 0, 2 and 4
    (
        "[u32; 7]",
        "slide(3, 2, xs)",
        &[1, 2, 3, 4, 5, 6, 7],
        &[3, 3, 1, 2, 3, 3, 3, 4, 5, 3, 5, 6, 7],
    ),
    ("[u32; 2]", "pad(2, 1, xs)", &[1, 2], &[5, 1, 1, 1, 2, 2]),
    (
        "[u32; 4]",
        "join(split(2, xs))",
        &[1, 2, 3, 4],
        &[4, 1, 2, 3, 4],
    ),
    (
        "[u32; 4]",
        "split(2, xs)",
        &[1, 2, 3, 4],
        &[2, 2, 1, 2, 2, 3, 4],
    ),
    // a square, and two rows of three
    (
        "[u32; 4]",
        "transpose(split(2, xs))",
        &[1, 2, 3, 4],
        &[2, 2, 1, 3, 2, 2, 4],
    ),
    (
        "[u32; 6]",
        "transpose(split(3, xs))",
        &[1, 2, 3, 4, 5, 6],
        &[3, 2, 1, 4, 2, 2, 5, 2, 3, 6],
    ),
    ("[u32; 3]", "reverse(xs)", &[1, 2, 3], &[3, 3, 2, 1]),
    (
        "[u32; 6]",
        "reverse(split(3, xs))",
        &[1, 2, 3, 4, 5, 6],
        &[2, 3, 4, 5, 6, 3, 1, 2, 3],
    ),
    (
        "[u32; 6]",
        "stride(2, xs)",
        &[1, 2, 3, 4, 5, 6],
        &[6, 1, 3, 5, 2, 4, 6],
    ),
    (
        "[u32; 6]",
        "stride(3, xs)",
        &[1, 2, 3, 4, 5, 6],
        &[6, 1, 4, 2, 5, 3, 6],
    ),
    ("[u32; 3]", "stride(1, xs)", &[1, 2, 3], &[3, 1, 2, 3]),
    ("[u32; 3]", "stride(3, xs)", &[1, 2, 3], &[3, 1, 2, 3]),
    (
        "[u32; 6]",
        "stride(3, stride(2, xs))",
        &[1, 2, 3, 4, 5, 6],
        &[6, 1, 2, 3, 4, 5, 6],
    ),
    ("[u32; 2]", "zip(xs, xs)", &[3, 4], &[2, 3, 3, 4, 4]),
    (
        "[u32; 2]",
        "zip(xs, map(\\x. add(x, 1), xs))",
        &[3, 4],
        &[2, 3, 4, 4, 5],
    ),
    (
        "[u32; 2]",
        "map(\\x. pair(x, 9), xs)",
        &[3, 4],
        &[2, 3, 9, 4, 9],
    ),
];

// What is left of the value that is wanted, where it begins with this one.
#[cycle(values)]
fn without<'w>(value: &Val, want: &'w [u32]) -> Option<&'w [u32]> {
    match value {
        Val::Number(n) => {
            let (first, rest) = want.split_first()?;
            (*first == *n).then_some(rest)
        }
        Val::Pair(a, b) => without(b, without(a, want)?),
        Val::List(members) => {
            let (first, rest) = want.split_first()?;
            if *first as usize == members.len() {
                without_all(members, rest)
            } else {
                None
            }
        }
    }
}

#[cycle(values)]
fn without_all<'w>(members: &[Val], want: &'w [u32]) -> Option<&'w [u32]> {
    let mut rest = want;
    for member in members {
        rest = without(member, rest)?;
    }
    Some(rest)
}

fn is_value(value: &Val, want: &[u32]) -> bool {
    match without(value, want) {
        Some(rest) => rest.is_empty(),
        None => false,
    }
}

// The list of these numbers, for the one input.
fn one_list(alloc: Global, numbers: &[u32]) -> Result<Vec<Val>, AllocError> {
    let mut list = Vec::new(alloc);
    for number in numbers {
        list.push(Val::Number(*number))?;
    }
    let mut inputs = Vec::new(alloc);
    inputs.push(Val::List(list))?;
    Ok(inputs)
}

fn has_value(alloc: Global, typed: &Typed, numbers: &[u32], want: &[u32]) -> Result<bool, Fail> {
    let inputs = one_list(alloc, numbers)?;
    let value = value_of(alloc, typed, &Sizes::new(alloc), &inputs)?;
    Ok(is_value(&value, want))
}

fn program_has_value(
    alloc: Global,
    ty: &str,
    term: &str,
    numbers: &[u32],
    want: &[u32],
) -> Result<bool, Fail> {
    let typed = typed(alloc, &["input xs : ", ty, "; output ", term])?;
    has_value(alloc, &typed, numbers, want)
}

fn term_has_value(alloc: Global, term: &str, want: u32) -> Result<bool, Fail> {
    let typed = typed(
        alloc,
        &["input xs : [u32; 1]; output map(\\k. ", term, ", xs)"],
    )?;
    has_value(alloc, &typed, &[0], &[1, want])
}

// A term that no program's text has, without sizes.
fn lowered(alloc: Global, term: Term) -> Typed {
    let program = Program {
        sizes: Vec::new(alloc),
        inputs: Vec::new(alloc),
        body: Term::Number(0),
    };
    Typed {
        program,
        term,
        types: NodeTypes::Leaf(Ty::Number),
    }
}

// map(\x. add(x, 1), xs), run this way
fn next_map(alloc: Global, kind: MapKind) -> Result<Term, AllocError> {
    let x = Box::new(alloc, Term::Variable(0))?;
    let one = Box::new(alloc, Term::Number(1))?;
    let add = BinaryForm::Operator(Operator::Regrouping(Reducer::Add));
    let body = Box::new(alloc, Term::Binary(add, x, one))?;
    Ok(Term::Map(kind, Box::new(alloc, Term::Input(0))?, body))
}

// fold(\a x. sub(x, a), 10, xs), run this way
fn difference_fold(alloc: Global, kind: FoldKind) -> Result<Term, AllocError> {
    let x = Box::new(alloc, Term::Variable(0))?;
    let a = Box::new(alloc, Term::Variable(1))?;
    let sub = BinaryForm::Operator(Operator::Sub);
    let body = Box::new(alloc, Term::Binary(sub, x, a))?;
    let start = Box::new(alloc, Term::Number(10))?;
    Ok(Term::Fold(kind, Box::new(alloc, Term::Input(0))?, start, body))
}

fn stored(alloc: Global, memory: UnaryForm) -> Result<Term, AllocError> {
    Ok(Term::Unary(memory, Box::new(alloc, Term::Input(0))?))
}

#[test]
fn words_are_worked_out(rt: HostRuntime) -> Result<(), Fail> {
    for (term, want) in WORDS {
        assert!(rt; term_has_value(rt.alloc(), *term, *want)?, "{term}");
    }
    Ok(())
}

#[test]
fn lists_are_worked_out(rt: HostRuntime) -> Result<(), Fail> {
    for (ty, term, numbers, want) in LISTS {
        assert!(rt;
            program_has_value(rt.alloc(), *ty, *term, *numbers, *want)?,
            "{term}"
        );
    }
    Ok(())
}

fn map_has_value(alloc: Global, kind: MapKind) -> Result<bool, Fail> {
    let typed = lowered(alloc, next_map(alloc, kind)?);
    has_value(alloc, &typed, &[4294967295, 3], &[2, 0, 4])
}

fn fold_has_value(alloc: Global, kind: FoldKind) -> Result<bool, Fail> {
    let typed = lowered(alloc, difference_fold(alloc, kind)?);
    has_value(alloc, &typed, &[1, 2, 3], &[1, 4294967288])
}

fn memory_keeps_value(alloc: Global, memory: UnaryForm) -> Result<bool, Fail> {
    let typed = lowered(alloc, stored(alloc, memory)?);
    has_value(alloc, &typed, &[3, 4], &[2, 3, 4])
}

#[test]
fn maps_have_one_value_however_they_are_run(rt: HostRuntime) -> Result<(), Fail> {
    for kind in [
        MapKind::Over(Level::Launch, Dimension::X),
        MapKind::Over(Level::Groups, Dimension::X),
        MapKind::Over(Level::Items, Dimension::X),
        MapKind::Over(Level::Launch, Dimension::Y),
        MapKind::Over(Level::Groups, Dimension::Y),
        MapKind::Over(Level::Items, Dimension::Y),
        MapKind::Sequential,
    ] {
        assert!(rt; map_has_value(rt.alloc(), kind)?);
    }
    Ok(())
}

#[test]
fn folds_have_one_value_however_they_are_run(rt: HostRuntime) -> Result<(), Fail> {
    assert!(rt; fold_has_value(rt.alloc(), FoldKind::Sequential)?);
    Ok(())
}

#[test]
fn memories_keep_values(rt: HostRuntime) -> Result<(), Fail> {
    assert!(rt; memory_keeps_value(rt.alloc(), UnaryForm::ToLocal)?);
    assert!(rt; memory_keeps_value(rt.alloc(), UnaryForm::ToPrivate)?);
    assert!(rt; memory_keeps_value(rt.alloc(), UnaryForm::Then)?);
    Ok(())
}

const EVENS: Name = Name {
    multiple: 2,
    from: 2,
    to: 8,
};

fn two(alloc: Global) -> Result<Sizes, AllocError> {
    let mut sizes = Sizes::new(alloc);
    sizes.push(EVENS, 2)?;
    Ok(sizes)
}

// Pieces of n = 2.
fn split_by_a_size(alloc: Global) -> Result<Val, Fail> {
    let declared = "size n multiple 2 from 2 to 8; input xs : [u32; 2*n]; output ";
    let typed = typed(alloc, &[declared, "split(n, xs)"])?;
    let inputs = one_list(alloc, &[1, 2, 3, 4])?;
    Ok(value_of(alloc, &typed, &two(alloc)?, &inputs)?)
}

#[test]
fn splits_by_sizes(rt: HostRuntime) -> Result<(), Fail> {
    assert!(rt; is_value(&split_by_a_size(rt.alloc())?, &[2, 2, 1, 2, 2, 3, 4]));
    Ok(())
}

const SMALL: Name = Name {
    multiple: 1,
    from: 1,
    to: 8,
};

// So many sizes of 1, and one of 2 behind them.
fn ones_and_two(alloc: Global, ones: u32) -> Result<Sizes, AllocError> {
    let mut sizes = Sizes::new(alloc);
    for _ in 0..ones {
        sizes.push(SMALL, 1)?;
    }
    sizes.push(SMALL, 2)?;
    Ok(sizes)
}

// The sizes that are 1, the input's length, a stride where the last size, N, is 2, the numbers of
// the input, and the value.
const STRIDES: &[(&[&str], &str, &str, &[u32], &[u32])] = &[
    // by the third of the sizes
    (
        &["L", "M"],
        "2*N",
        "stride(N, xs)",
        &[1, 2, 3, 4],
        &[4, 1, 3, 2, 4],
    ),
    // of a length of two parts
    (
        &["M"],
        "2*N + 2*M",
        "stride(2, xs)",
        &[1, 2, 3, 4, 5, 6],
        &[6, 1, 3, 5, 2, 4, 6],
    ),
    // by a product, and by one of three factors
    (
        &[],
        "4*N",
        "stride(2*N, xs)",
        &[1, 2, 3, 4, 5, 6, 7, 8],
        &[8, 1, 5, 2, 6, 3, 7, 4, 8],
    ),
    (
        &["M"],
        "4*N*M",
        "stride(2*N*M, xs)",
        &[1, 2, 3, 4, 5, 6, 7, 8],
        &[8, 1, 5, 2, 6, 3, 7, 4, 8],
    ),
];

// The program's text up to the output.
fn sized(alloc: Global, ones: &[&str], length: &str) -> Result<String, Fail> {
    let mut text = String::new(alloc);
    for one in ones {
        text.push_str("size ")?;
        text.push_str(*one)?;
        text.push_str(" from 1 to 8; ")?;
    }
    text.push_str("size N from 1 to 8; input xs : [u32; ")?;
    text.push_str(length)?;
    text.push_str("]; output ")?;
    Ok(text)
}

fn stride_has_value(
    alloc: Global,
    declared: &str,
    stride: &str,
    sizes: &Sizes,
    numbers: &[u32],
    want: &[u32],
) -> Result<bool, Fail> {
    let typed = typed(alloc, &[declared, stride])?;
    let inputs = one_list(alloc, numbers)?;
    Ok(is_value(&value_of(alloc, &typed, sizes, &inputs)?, want))
}

#[test]
fn strides_by_sizes(rt: HostRuntime) -> Result<(), Fail> {
    for (ones, length, stride, numbers, want) in STRIDES {
        let declared = sized(rt.alloc(), *ones, *length)?;
        let sizes = ones_and_two(rt.alloc(), ones.len() as u32)?;
        assert!(rt;
            stride_has_value(rt.alloc(), &declared, *stride, &sizes, *numbers, *want)?,
            "{stride}"
        );
    }
    Ok(())
}

fn last_number(value: &Val) -> Option<u32> {
    match value {
        Val::List(members) => match members.last()? {
            Val::Number(n) => Some(*n),
            _ => None,
        },
        _ => None,
    }
}

// The input has the numbers from 0 to 65535.
fn many_numbers(alloc: Global) -> Result<Vec<Val>, AllocError> {
    let mut list = Vec::new(alloc);
    for word in 0..65536u32 {
        list.push(Val::Number(word))?;
    }
    let mut inputs = Vec::new(alloc);
    inputs.push(Val::List(list))?;
    Ok(inputs)
}

fn many_values(alloc: Global) -> Result<Val, AllocError> {
    let inputs = many_numbers(alloc)?;
    let typed = lowered(alloc, next_map(alloc, MapKind::Plain)?);
    value_of(alloc, &typed, &Sizes::new(alloc), &inputs)
}

#[test]
fn maps_many_numbers(rt: HostRuntime) -> Result<(), Fail> {
    // 65535 and 1
    assert_eq!(rt; last_number(&many_values(rt.alloc())?), Some(65536));
    Ok(())
}
