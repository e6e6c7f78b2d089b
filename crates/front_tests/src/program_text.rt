//! Texts of programs: their tokens, what they are read as, and where they are refused.

use lift_reader::program::read_program;
use lift_reader::refusal::{Quantity, ReadRefusal};
use lift_reader::token::Kind::{self, Name, Number, Symbol, Word, Wrong};
use lift_reader::token::tokens;
use lift_reader::word;
use lift_tree::program::Program;
use std::alloc::Global;
use std::test::Fail;
use term_texts::term_text;

fn is_read(alloc: Global, text: &str) -> bool {
    read_program(alloc, text.as_bytes()).is_ok()
}

fn stops_at(alloc: Global, text: &[u8], place: (usize, usize)) -> bool {
    match read_program(alloc, text) {
        Err(ReadRefusal::Syntax { token, offset }) => (token, offset) == place,
        _ => false,
    }
}

fn passes(alloc: Global, text: &str, quantity: Quantity, most: u64) -> bool {
    match read_program(alloc, text.as_bytes()) {
        Err(ReadRefusal::Limit { which, count }) => which == quantity && count == most,
        _ => false,
    }
}

// Whether the text's tokens begin at these bytes, and are these.
fn has(alloc: Global, text: &[u8], expected: &[(usize, Kind)]) -> bool {
    let Ok(found) = tokens(alloc, text) else {
        return false;
    };
    found.len() == expected.len()
        && found.iter().zip(expected.iter()).all(|(token, (offset, kind))| token.offset == *offset
            && token.kind == *kind)
}

const SYMBOLS: &[(usize, Kind)] = &[
    (0, Word(word::Word::Size)),
    (5, Name(b"N_1")),
    (9, Number(7)),
    (10, Symbol(b'(')),
    (11, Symbol(b')')),
    (12, Symbol(b';')),
    (13, Symbol(b':')),
    (14, Symbol(b'=')),
    (15, Symbol(b'.')),
    (16, Symbol(b'\\')),
    (17, Symbol(b'+')),
    (18, Symbol(b'-')),
    (19, Symbol(b'*')),
    (20, Symbol(b'[')),
    (21, Symbol(b']')),
    (22, Symbol(b',')),
    (23, Wrong),
];

const RUNS: &[(&[u8], &[(usize, Kind)])] = &[
    (b"", &[]),
    (b" \t\r\n# (\xff\r\0", &[]),
    (b"a# b\rc\nd#", &[(0, Name(b"a")), (7, Name(b"d"))]),
    (b"\x0b\xc3\xa9", &[(0, Wrong), (1, Wrong), (2, Wrong)]),
    (b"1a", &[(0, Number(1)), (1, Name(b"a"))]),
    (b"01", &[(0, Wrong)]),
    (b"0 4294967295", &[(0, Number(0)), (2, Number(4294967295))]),
    (b"4294967296", &[(0, Wrong)]),
    (
        b"mapG _a",
        &[(0, Name(b"mapG")), (5, Wrong), (6, Name(b"a"))],
    ),
    (
        b"abcdefghijklmnopqrstuvwxyz012345",
        &[(0, Name(b"abcdefghijklmnopqrstuvwxyz012345"))],
    ),
    (b"abcdefghijklmnopqrstuvwxyz0123456", &[(0, Wrong)]),
];

#[test]
fn texts_have_their_tokens(rt: HostRuntime) -> Result<(), Fail> {
    assert!(rt; has(rt.alloc(), b"size N_1 7();:=.\\+-*[],?", SYMBOLS));
    for (text, expected) in RUNS {
        assert!(rt; has(rt.alloc(), text, expected));
    }
    Ok(())
}

const PROGRAM: &[u8] =
    b"size N from 1 to 1000;\ninput xs: [u32; N];\noutput map(\\x. add(x, 1), xs)";

fn declares_a_size(program: &Program) -> bool {
    let [size] = program.sizes.as_slice() else {
        return false;
    };
    size.name.bytes() == b"N".as_slice() && (size.multiple, size.from, size.to) == (1, 1, 1000)
}

fn declares_an_input(program: &Program) -> bool {
    let [input] = program.inputs.as_slice() else {
        return false;
    };
    input.name.bytes() == b"xs".as_slice()
}

#[test]
fn a_program_declares_its_names(rt: HostRuntime) -> Result<(), Fail> {
    match read_program(rt.alloc(), PROGRAM) {
        Ok(program) => {
            assert!(rt; declares_a_size(&program));
            assert!(rt; declares_an_input(&program));
        }
        Err(_) => assert!(rt; false, "refused"),
    }
    Ok(())
}

// Just behind each of the program's tokens but the last.
const ENDS: &[usize] = &[
    0, 4, 6, 11, 13, 16, 21, 22, 28, 31, 32, 34, 37, 38, 40, 41, 42, 49, 53, 54, 55, 56, 57, 61,
    62, 63, 64, 66, 67, 68, 71,
];

#[test]
fn a_program_cut_behind_a_token_stops_at_its_end(rt: HostRuntime) -> Result<(), Fail> {
    for (before, end) in ENDS.iter().enumerate() {
        let text = PROGRAM.get(..*end).unwrap_or(PROGRAM);
        assert!(rt; stops_at(rt.alloc(), text, (before + 1, *end)));
    }
    Ok(())
}

// What a term of two arrays is read as: the binder with k binders around it is _k.
const TERMS: &[(&str, &str)] = &[
    ("sub(1, div(2, 3))", "sub(1, div(2, 3))"),
    ("rem(eq(1, 2), 4294967295)", "rem(eq(1, 2), 4294967295)"),
    ("select(1, 2, 3)", "select(1, 2, 3)"),
    ("pair(first(xs), second(ys))", "pair(first(xs), second(ys))"),
    (
        "let a = xs in let xs = ys in a",
        "let _0 = xs in let _1 = ys in _0",
    ),
    (
        "map(\\x. map(\\x. x, x), xs)",
        "map(\\_0. map(\\_1. _1, _0), xs)",
    ),
    ("reduce(max, 7, xs)", "reduce(max, 7, xs)"),
    (
        "fold(\\a x. lt(a, x), 0, ys)",
        "fold(\\_0 _1. lt(_0, _1), 0, ys)",
    ),
    ("fold(\\x x. x, 0, ys)", "fold(\\_0 _1. _1, 0, ys)"),
    (
        "zip(join(xs), transpose(ys))",
        "zip(join(xs), transpose(ys))",
    ),
    ("split(2*N*3, split(N, xs))", "split(6*N, split(N, xs))"),
    (
        "reverse(stride(2*N*3, reverse(xs)))",
        "reverse(stride(6*N, reverse(xs)))",
    ),
    ("let N = 1 in split(N, N)", "let _0 = 1 in split(N, _0)"),
    ("slide(3, 1, pad(0, 2, xs))", "slide(3, 1, pad(0, 2, xs))"),
    // a name, though scripts have a form of it
    ("let then = xs in join(then)", "let _0 = xs in join(_0)"),
];

fn is_read_as(alloc: Global, term: &str, wanted: &str) -> Result<bool, Fail> {
    let head = "size N from 1 to 9; input xs: [u32; N]; input ys: [u32; 0]; output";
    let text = format!(in alloc; "{head} {term}")?;
    match read_program(alloc, text.as_bytes()) {
        Ok(program) => {
            Ok(term_text(alloc, &program.body, &program)?.as_slice() == wanted.as_bytes())
        }
        Err(_) => Ok(false),
    }
}

#[test]
fn terms_are_read(rt: HostRuntime) -> Result<(), Fail> {
    for (term, wanted) in TERMS {
        assert!(rt; is_read_as(rt.alloc(), term, wanted)?);
    }
    Ok(())
}

// The token, counted from 1, and the byte at which an independent implementation stops.
const STOPS: &[(&str, usize, usize)] = &[
    ("", 1, 0),
    ("input x0: [[[", 7, 13),
    (
        "input x0: [[u32; 4]; 4];\noutp{t map(\\b0. 4294967295, x0)",
        14,
        25,
    ),
    (
        "size N from 1 to 1;\ninput x0: [[u32; 6]; 2 + 1*NN];\noutput 1",
        22,
        47,
    ),
    (
        "size N multiple 2 from 2 to 2;\ninput x0: [[[(u32, u32);",
        22,
        55,
    ),
    (
        "size N multiple 2 from 2 to 6;\ninput x0: [[(u32, u32); 1]; 1];\noutput map(\\\\b0. map(\\b1. 1, b0), pad(0, 1, x0))",
        31,
        75,
    ),
    ("input x0: [[u32; 3]; 2];\noutput map(\\b0. 1, x0))", 24, 47),
    (
        "input x0: [u32; 4];\noutput let b0  x0 in map(\\b1. pair(b1, b1), b0)",
        13,
        35,
    ),
    (
        "input x0: [(u32, (u32, u32)); 2];\ninput x1: [[[u32; 4]; 3]; 3];\noutput let b0 = x0 in map(\\b1. rem(max(4294967295, 7), 1), slide(2, 1, x))",
        64,
        135,
    ),
    (
        "input x0: [[u32; 2]; 4];\noutput m(p(\\b0. mul(shr(1, eq(2, 4294967295)), 1), pad(1, 2, x0))",
        15,
        32,
    ),
    (
        "size N multiple 3 from 3 to 9;\ninput x0: [u32; 4];\noutput map(\\b0. let b1 = b0 in mmin(rem(b1, 1), or(b1, b0)), x0)",
        30,
        82,
    ),
    (
        "input x0: [[((u32, u32), u32); 6]; 3];\noutput split(1",
        26,
        53,
    ),
];

// A text for each condition of the grammar, and where it stops.
const CONDITIONS: &[(&str, usize, usize)] = &[
    ("size map from 1 to 2; output 1", 2, 5),
    ("size toLocal from 1 to 2; output 1", 2, 5),
    ("input then: [u32; 1]; output then(then)", 12, 33),
    ("size N from 1 to 2; size N from 1 to 2; output 1", 9, 25),
    ("size N from 1 to 2; input N: [u32; 1]; output 1", 9, 26),
    ("input x: [u32; 1]; input x: [u32; 1]; output 1", 11, 25),
    ("input x: [u32; 1]; size N from 1 to 2; output 1", 10, 19),
    ("size N multiple 0 from 1 to 2; output 1", 4, 16),
    ("size N multiple 1048577 from 1 to 2; output 1", 4, 16),
    ("size N from 0 to 2; output 1", 4, 12),
    ("size N multiple 4 from 6 to 8; output 1", 6, 23),
    ("size N multiple 4 from 4 to 6; output 1", 8, 28),
    ("size N from 3 to 2; output 1", 6, 17),
    ("size N from 3 to 1048577; output 1", 6, 17),
    ("size N from 3000000 to 3000000; output 1", 6, 23),
    ("input x: [u32; N]; output 1", 7, 15),
    ("input x: [u32; x]; output 1", 7, 15),
    ("input x: [u32; 1 1]; output 1", 8, 17),
    ("input x: u32; output 1", 4, 9),
    ("input x: (u32, u32); output 1", 4, 9),
    ("input x: [(u32, [u32; 1]); 1]; output 1", 8, 16),
    ("output x", 2, 7),
    ("size N from 1 to 2; output N", 9, 27),
    ("output map(\\x. x, x)", 9, 18),
    ("output let x = x in x", 5, 15),
    ("output fold(\\a . a, 1, 2)", 6, 15),
    ("output map(\\in. 1, 2)", 5, 12),
    ("output div(1, 0)", 6, 14),
    ("output div(1, add(1, 2))", 6, 14),
    ("output rem(1, 0)", 6, 14),
    ("output reduce(sub, 1, 2)", 4, 14),
    ("output split(0, 1)", 4, 13),
    ("output split(2*0, 1)", 6, 15),
    ("output split(2 + 1, 1)", 5, 15),
    ("output split(N, 1)", 4, 13),
    ("output stride(0, 1)", 4, 14),
    ("output stride(2*0, 1)", 6, 16),
    ("output stride(N, 1)", 4, 14),
    ("output stride(1)", 5, 15),
    ("output reverse(1, 2)", 5, 16),
    ("input reverse: [u32; 1]; output 1", 2, 6),
    ("output let stride = 1 in 1", 3, 11),
    ("output slide(0, 1, 1)", 4, 13),
    ("output slide(1, 0, 1)", 6, 16),
    ("output pad(0, 0)", 7, 15),
    ("output mapSeq(\\x. x, 1)", 2, 7),
    ("output toPrivate(1)", 2, 7),
    ("output 01", 2, 7),
    ("output _x", 2, 7),
    ("output 1 2", 3, 9),
    ("output 1;", 3, 8),
    ("output 1 \x0c", 3, 9),
];

#[test]
fn texts_stop_where_no_program_goes_on(rt: HostRuntime) -> Result<(), Fail> {
    for (text, token, offset) in STOPS {
        assert!(rt; stops_at(rt.alloc(), text.as_bytes(), (*token, *offset)));
    }
    for (text, token, offset) in CONDITIONS {
        assert!(rt; stops_at(rt.alloc(), text.as_bytes(), (*token, *offset)));
    }
    let comments = b"# \xff(\x00 \routput\n output # end\n 1 #";
    assert!(rt; read_program(rt.alloc(), comments).is_ok());
    Ok(())
}

// So many of the first part, the second, and so many of the third.
fn nested(alloc: Global, open: &str, core: &str, close: &str, depth: u32) -> Result<String, Fail> {
    let mut text = String::new(alloc);
    for _ in 0..depth {
        text.push_str(open)?;
    }
    text.push_str(core)?;
    for _ in 0..depth {
        text.push_str(close)?;
    }
    Ok(text)
}

fn nested_terms(alloc: Global, depth: u32) -> Result<String, Fail> {
    let term = nested(alloc, "add(", "1", ", 2)", depth)?;
    Ok(format!(in alloc; "output {term}")?)
}

fn nested_arrays(alloc: Global, depth: u32) -> Result<String, Fail> {
    let ty = nested(alloc, "[", "u32", "; 1]", depth)?;
    Ok(format!(in alloc; "input x: {ty}; output 1")?)
}

fn nested_pairs(alloc: Global, depth: u32) -> Result<String, Fail> {
    let ty = nested(alloc, "(", "u32", ", u32)", depth)?;
    Ok(format!(in alloc; "input x: [{ty}; 1]; output 1")?)
}

#[test]
fn terms_nest_256_deep(rt: HostRuntime) -> Result<(), Fail> {
    let alloc = rt.alloc();
    assert!(rt; is_read(alloc, nested_terms(alloc, 255)?.as_str()));
    assert!(rt; stops_at(alloc, nested_terms(alloc, 256)?.as_bytes(), (512, 1027)));
    Ok(())
}

#[test]
fn types_nest_64_deep(rt: HostRuntime) -> Result<(), Fail> {
    let alloc = rt.alloc();
    assert!(rt; is_read(alloc, nested_arrays(alloc, 64)?.as_str()));
    assert!(rt; stops_at(alloc, nested_arrays(alloc, 65)?.as_bytes(), (68, 73)));
    assert!(rt; is_read(alloc, nested_pairs(alloc, 63)?.as_str()));
    assert!(rt; stops_at(alloc, nested_pairs(alloc, 64)?.as_bytes(), (68, 73)));
    Ok(())
}

const SIZES: &str =
    "size a from 1 to 2; size b from 1 to 2; size c from 1 to 2; size d from 1 to 2; size e from 1 to 2; size f from 1 to 2; size g from 1 to 2; size h from 1 to 2; ";

const INPUTS: &str =
    "input s: [u32; 1]; input t: [u32; 1]; input u: [u32; 1]; input v: [u32; 1]; input w: [u32; 1]; input x: [u32; 1]; input y: [u32; 1]; input z: [u32; 1]; ";

#[test]
fn sizes_and_inputs_are_counted(rt: HostRuntime) -> Result<(), Fail> {
    let alloc = rt.alloc();
    let most = format!(in alloc; "{SIZES}{INPUTS}output 1")?;
    assert!(rt; is_read(alloc, most.as_str()));
    let sizes = format!(in alloc;
        "{SIZES}size N from 1 to 2; {INPUTS}input q: [u32; 1]; output 1"
    )?;
    assert!(rt; passes(alloc, sizes.as_str(), Quantity::Sizes, 9));
    let inputs = format!(in alloc; "{SIZES}{INPUTS}input q: [u32; 1]; output 1")?;
    assert!(rt; passes(alloc, inputs.as_str(), Quantity::Inputs, 9));
    Ok(())
}

// A term of 4,095 nodes.
fn tree(alloc: Global) -> Result<String, Fail> {
    let mut tree = "1".to_string(alloc)?;
    for _ in 0..11 {
        tree = format!(in alloc; "add({tree}, {tree})")?;
    }
    Ok(tree)
}

#[test]
fn nodes_are_counted(rt: HostRuntime) -> Result<(), Fail> {
    let alloc = rt.alloc();
    let tree = tree(alloc)?;
    let most = format!(in alloc; "output div({tree}, 1)")?;
    assert!(rt; is_read(alloc, most.as_str()));
    let more = format!(in alloc; "output div(div({tree}, 1), 1)")?;
    assert!(rt; passes(alloc, more.as_str(), Quantity::Nodes, 4097));
    Ok(())
}
