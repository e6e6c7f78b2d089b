//! Programs, and the types or the refusals that the typing table gives.

use lift_reader::program::read_program;
use lift_tree::ty::Ty;
use lift_tree::typed::Typed;
use pattern_types::{Rule, Spot, TypeLimit, TypeRefusal, belongs_to, is_proper, type_of};
use size_arith::Poly;
use std::alloc::Global;
use std::test::Fail;

// A type in prefix order: U32, PAIR before its parts, and the coefficient of an array's length, a
// single monomial, before its element type.
const U32: i128 = 0;

const PAIR: i128 = -1;

// xs: [u32; 4], ys: [u32; 3] and rows: [[u32; 3]; 2]
const ARRAYS: &str =
    "input xs : [u32; 4]; input ys : [u32; 3]; input rows : [[u32; 3]; 2]; output ";

const TYPED: &[(&str, &[i128])] = &[
    ("map(\\x. add(x, 1), xs)", &[4, U32]),
    ("map(\\x. rem(x, 3), xs)", &[4, U32]),
    ("map(\\x. div(x, 3), xs)", &[4, U32]),
    ("map(\\x. select(x, 1, 2), xs)", &[4, U32]),
    ("map(\\x. pair(x, x), xs)", &[4, PAIR, U32, U32]),
    ("map(\\x. first(x), zip(xs, xs))", &[4, U32]),
    ("let x = xs in x", &[4, U32]),
    ("map(\\row. row, rows)", &[2, 3, U32]),
    ("reduce(add, 5, xs)", &[1, U32]),
    ("fold(\\a x. add(a, x), 0, xs)", &[1, U32]),
    ("zip(xs, xs)", &[4, PAIR, U32, U32]),
    ("map(\\p. second(p), zip(rows, rows))", &[2, 3, U32]),
    ("join(rows)", &[6, U32]),
    ("transpose(rows)", &[3, 2, U32]),
    ("split(2, xs)", &[2, 2, U32]),
    ("reverse(rows)", &[2, 3, U32]),
    ("stride(2, xs)", &[4, U32]),
    ("stride(2*1, rows)", &[2, 3, U32]),
    ("slide(2, 1, xs)", &[3, 2, U32]),
    ("pad(1, 2, xs)", &[7, U32]),
];

const ILL_TYPED: &[(&str, Rule, &[u32])] = &[
    ("map(\\x. add(x, xs), xs)", Rule::Operator, &[1]),
    ("div(xs, 3)", Rule::Operator, &[]),
    ("map(\\x. select(x, 1, xs), xs)", Rule::Operator, &[1]),
    ("map(\\x. pair(x, xs), xs)", Rule::Pair, &[1]),
    ("map(\\x. second(x), xs)", Rule::Project, &[1]),
    ("let x = xs in 3", Rule::Output, &[]),
    ("1", Rule::Output, &[]),
    ("map(\\x. xs, 3)", Rule::Map, &[]),
    ("reduce(add, 5, rows)", Rule::Reduce, &[]),
    ("reduce(add, xs, xs)", Rule::Reduce, &[]),
    ("fold(\\a x. pair(a, x), 0, xs)", Rule::Fold, &[]),
    ("fold(\\a x. 0, xs, xs)", Rule::Fold, &[]),
    ("fold(\\a x. 0, 0, 1)", Rule::Fold, &[]),
    ("zip(xs, ys)", Rule::Zip, &[]),
    ("join(xs)", Rule::Join, &[]),
    ("transpose(xs)", Rule::Transpose, &[]),
    ("split(3, xs)", Rule::Split, &[]),
    ("reverse(3)", Rule::Reverse, &[]),
    ("stride(3, xs)", Rule::Stride, &[]),
    ("map(\\x. stride(1, x), xs)", Rule::Stride, &[1]),
    ("slide(3, 2, xs)", Rule::Slide, &[]),
    ("slide(5, 1, xs)", Rule::Slide, &[]),
    ("pad(1, 2, 0)", Rule::Pad, &[]),
    // the pairs of an output hold numbers only, in an array of arrays too
    ("zip(rows, rows)", Rule::Output, &[]),
    ("map(\\row. zip(rows, rows), rows)", Rule::Output, &[]),
    // the first fault counts
    ("zip(join(xs), first(ys))", Rule::Join, &[0]),
    ("fold(\\a x. join(x), first(xs), rows)", Rule::Project, &[1]),
    (
        "map(\\x. let y = first(x) in y, split(3, xs))",
        Rule::Split,
        &[0],
    ),
];

// Programs whose one input is the output.
const INPUTS: &[(&str, &[i128])] = &[
    ("input xs : [[[[u32; 1]; 1]; 1]; 1];", &[1, 1, 1, 1, U32]),
    (
        "input xs : [(((u32, u32), u32), u32); 1];",
        &[1, PAIR, PAIR, PAIR, U32, U32, U32, U32],
    ),
    ("size n from 1 to 2; input xs : [u32; n*n*n*n];", &[1, U32]),
    // 65535 * 32768 = 2147450880
    (
        "size n from 1 to 65535; size m from 1 to 32768; input xs : [[u32; n]; m];",
        &[1, 1, U32],
    ),
    ("input xs : [u32; 2147483647];", &[2147483647, U32]),
    ("input xs : [u32; 5 - 2];", &[3, U32]),
];

const LONG_INPUTS: &[(&str, TypeLimit, u128)] = &[
    (
        "input xs : [[[[[u32; 1]; 1]; 1]; 1]; 1];",
        TypeLimit::Arrays,
        5,
    ),
    (
        "input xs : [((((u32, u32), u32), u32), u32); 1];",
        TypeLimit::Components,
        5,
    ),
    // 2 * 4294967295 is above 2^32 before the 0 comes
    (
        "input xs : [u32; 2*4294967295*0];",
        TypeLimit::Coefficient,
        8589934590,
    ),
    // 2^32 is a length, of which there are too many scalars
    (
        "input xs : [u32; 2*2147483648];",
        TypeLimit::Scalars,
        4294967296,
    ),
    (
        "size n from 1 to 2; input xs : [u32; n*n*n*n*n];",
        TypeLimit::Degree,
        5,
    ),
    // the last product passes both, 4294967295 * 2 is its coefficient
    (
        "size n from 1 to 2; size m multiple 2 from 2 to 4; input xs : [u32; 4294967295*n*n*n*n*m];",
        TypeLimit::Degree,
        5,
    ),
    // 65536 * 32768
    (
        "size n from 1 to 65536; size m from 1 to 32768; input xs : [[u32; n]; m];",
        TypeLimit::Scalars,
        2147483648,
    ),
    // arrays and components before scalars
    (
        "input xs : [[[[[u32; 1]; 1]; 1]; 1]; 4294967295];",
        TypeLimit::Arrays,
        5,
    ),
    (
        "input xs : [((((u32, u32), u32), u32), u32); 4294967295];",
        TypeLimit::Components,
        5,
    ),
    (
        "input xs : [u32; 2147483648];",
        TypeLimit::Scalars,
        2147483648,
    ),
];

// The length is judged before the limits, and inner arrays before the outer's length.
const SHORT_INPUTS: &[&str] = &[
    "input xs : [u32; 0];",
    "size n from 1 to 2; input xs : [u32; n - 1];",
    "input xs : [[[[[u32; 1]; 1]; 1]; 1]; 0];",
    "input xs : [[u32; 0]; 2*4294967295];",
];

// six times as many as the base name's value
const SIXES: &str = "size n multiple 6 from 6 to 600; input xs : [u32; n]; output ";

const EIGHT_SIZES: &str =
    "size a from 1 to 1; size b from 1 to 1; size c from 1 to 1; size d from 1 to 1; size e from 1 to 1; size f from 1 to 1; size g from 1 to 1; size h from 1 to 1; input xs : [u32; ";

// of the 36 products of two of eight sizes, 32 and 33
const TERMS: &str =
    "a*a+a*b+a*c+a*d+a*e+a*f+a*g+a*h+b*b+b*c+b*d+b*e+b*f+b*g+b*h+c*c+c*d+c*e+c*f+c*g+c*h+d*d+d*e+d*f+d*g+d*h+e*e+e*f+e*g+e*h+f*f+f*g]; output xs";

const MORE_TERMS: &str =
    "a*a+a*b+a*c+a*d+a*e+a*f+a*g+a*h+b*b+b*c+b*d+b*e+b*f+b*g+b*h+c*c+c*d+c*e+c*f+c*g+c*h+d*d+d*e+d*f+d*g+d*h+e*e+e*f+e*g+e*h+f*f+f*g+f*h]; output xs";

// What typing says of the program whose text these parts are.
fn judged(alloc: Global, parts: &[&str]) -> Result<Result<Typed, TypeRefusal>, Fail> {
    let mut text = String::new(alloc);
    for part in parts {
        text.push_str(part)?;
    }
    let Ok(program) = read_program(alloc, text.as_bytes()) else {
        return Err(Fail::from("the text is no program"));
    };
    let term = program.body.copy(alloc)?;
    if !is_proper(&program) || !belongs_to(&program, &term) {
        return Err(Fail::from("the program isn't proper"));
    }
    Ok(type_of(alloc, program, term))
}

pub fn typed(alloc: Global, parts: &[&str]) -> Result<Typed, Fail> {
    match judged(alloc, parts)? {
        Ok(typed) => Ok(typed),
        Err(_) => Err(Fail::from("the program has no types")),
    }
}

// The length is one monomial with this coefficient.
fn is_length(length: &Poly, coefficient: i128) -> bool {
    match length.as_slice() {
        [monomial] => monomial.coefficient == coefficient,
        _ => false,
    }
}

// What is left of the type that is wanted, where it begins with this one.
fn without<'w>(ty: &Ty, want: &'w [i128]) -> Option<&'w [i128]> {
    let (first, rest) = want.split_first()?;
    match ty {
        Ty::Number => (*first == U32).then_some(rest),
        // no program has it
        Ty::Vector => None,
        Ty::Pair(a, b) => {
            if *first == PAIR {
                without(b, without(a, rest)?)
            } else {
                None
            }
        }
        Ty::Array(element, length) => {
            if is_length(length, *first) {
                without(element, rest)
            } else {
                None
            }
        }
    }
}

fn is_type(ty: &Ty, want: &[i128]) -> bool {
    match without(ty, want) {
        Some(rest) => rest.is_empty(),
        None => false,
    }
}

fn is_place(spot: &Spot, place: &[u32]) -> bool {
    match spot {
        Spot::Node(found) => found.numbers() == place,
        Spot::Input(_) => false,
    }
}

fn is_first_input(spot: &Spot) -> bool {
    match spot {
        Spot::Input(number) => *number == 0,
        Spot::Node(_) => false,
    }
}

fn breaks(answer: &Result<Typed, TypeRefusal>, rule: Rule, place: &[u32]) -> bool {
    match answer {
        Err(TypeRefusal::IllTyped { spot, rule: found }) => *found == rule && is_place(spot, place),
        _ => false,
    }
}

fn input_is_short(answer: &Result<Typed, TypeRefusal>) -> bool {
    match answer {
        Err(TypeRefusal::IllTyped { spot, rule }) => *rule == Rule::Length && is_first_input(spot),
        _ => false,
    }
}

fn input_passes(answer: &Result<Typed, TypeRefusal>, limit: TypeLimit, number: u128) -> bool {
    match answer {
        Err(TypeRefusal::Limit { which, spot, count }) => {
            *which == limit && *count == number && is_first_input(spot)
        }
        _ => false,
    }
}

fn has_type(alloc: Global, parts: &[&str], want: &[i128]) -> Result<bool, Fail> {
    Ok(is_type(typed(alloc, parts)?.types.own_type(), want))
}

fn is_refused(alloc: Global, parts: &[&str], rule: Rule, place: &[u32]) -> Result<bool, Fail> {
    Ok(breaks(&judged(alloc, parts)?, rule, place))
}

fn is_short(alloc: Global, parts: &[&str]) -> Result<bool, Fail> {
    Ok(input_is_short(&judged(alloc, parts)?))
}

fn passes(alloc: Global, parts: &[&str], limit: TypeLimit, count: u128) -> Result<bool, Fail> {
    Ok(input_passes(&judged(alloc, parts)?, limit, count))
}

#[test]
fn gives_the_types_of_the_table(rt: HostRuntime) -> Result<(), Fail> {
    for (term, want) in TYPED {
        assert!(rt; has_type(rt.alloc(), &[ARRAYS, *term], *want)?, "{term}");
    }
    Ok(())
}

#[test]
fn refuses_by_the_rules_of_the_table(rt: HostRuntime) -> Result<(), Fail> {
    for (term, rule, place) in ILL_TYPED {
        assert!(rt;
            is_refused(rt.alloc(), &[ARRAYS, *term], *rule, *place)?,
            "{term}"
        );
    }
    Ok(())
}

#[test]
fn gives_the_types_of_inputs(rt: HostRuntime) -> Result<(), Fail> {
    for (declared, want) in INPUTS {
        assert!(rt;
            has_type(rt.alloc(), &[*declared, " output xs"], *want)?,
            "{declared}"
        );
    }
    Ok(())
}

#[test]
fn limits_inputs(rt: HostRuntime) -> Result<(), Fail> {
    for (declared, limit, count) in LONG_INPUTS {
        assert!(rt;
            passes(rt.alloc(), &[*declared, " output xs"], *limit, *count)?,
            "{declared}"
        );
    }
    Ok(())
}

#[test]
fn refuses_inputs_that_may_be_empty(rt: HostRuntime) -> Result<(), Fail> {
    for declared in SHORT_INPUTS {
        assert!(rt;
            is_short(rt.alloc(), &[*declared, " output xs"])?,
            "{declared}"
        );
    }
    Ok(())
}

#[test]
fn limits_the_terms_of_a_length(rt: HostRuntime) -> Result<(), Fail> {
    assert!(rt; judged(rt.alloc(), &[EIGHT_SIZES, TERMS])?.is_ok());
    Ok(())
}

#[test]
fn refuses_more_terms(rt: HostRuntime) -> Result<(), Fail> {
    assert!(rt; passes(rt.alloc(), &[EIGHT_SIZES, MORE_TERMS], TypeLimit::Terms, 33)?);
    Ok(())
}

#[test]
fn splits_for_all_sizes_at_once(rt: HostRuntime) -> Result<(), Fail> {
    assert!(rt; has_type(rt.alloc(), &[SIXES, "split(3, xs)"], &[2, 3, U32])?);
    Ok(())
}

#[test]
fn refuses_a_split_for_all_sizes_at_once(rt: HostRuntime) -> Result<(), Fail> {
    assert!(rt; is_refused(rt.alloc(), &[SIXES, "split(4, xs)"], Rule::Split, &[])?);
    Ok(())
}
