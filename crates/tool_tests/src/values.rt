//! The values of programs.
use crate::call::{Call, EVAL, FIRST, have_values};
use std::alloc::{AllocError, Global};
use std::test::Fail;

// A program, a launch file and the line of the value.
const VALUES: [(&str, &str, &str); 6] = [
    // 65536 * 65536 is 2^32, and 33 is 1 modulo 32.
    (
        "size N from 1 to 8; input xs: [u32; N]; output map(\\x. mul(x, x), xs)",
        "{\"sizes\":{\"N\":1},\"inputs\":{\"xs\":[65536]}}",
        "{\"value\":[0]}\n",
    ),
    (
        "size N from 1 to 8; input xs: [u32; N]; output map(\\x. shl(1, x), xs)",
        "{\"sizes\":{\"N\":1},\"inputs\":{\"xs\":[33]}}",
        "{\"value\":[2]}\n",
    ),
    (
        "size M from 1 to 65535; size N from 1 to 32768; input xs: [[u32; M]; N]; output xs",
        "{\"sizes\":{\"M\":2,\"N\":1},\"inputs\":{\"xs\":[[3,4]]}}",
        "{\"value\":[[3,4]]}\n",
    ),
    (
        "input xs: [u32; 7]; output slide(3, 2, xs)",
        "{\"sizes\":{},\"inputs\":{\"xs\":[1,2,3,4,5,6,7]}}",
        "{\"value\":[[1,2,3],[3,4,5],[5,6,7]]}\n",
    ),
    (
        "input xs: [u32; 2]; output pad(2, 1, xs)",
        "{\"sizes\":{},\"inputs\":{\"xs\":[1,2]}}",
        "{\"value\":[1,1,1,2,2]}\n",
    ),
    // 1 - 10, then 2 less that, then 3 less that: -9, 11, -8.
    (
        "input xs: [u32; 3]; output fold(\\a x. sub(x, a), 10, xs)",
        "{\"sizes\":{},\"inputs\":{\"xs\":[1,2,3]}}",
        "{\"value\":[4294967288]}\n",
    ),
];

#[test]
fn source_values_are_told(rt: HostRuntime) -> Result<(), Fail> {
    assert!(rt; have_values(rt.alloc(), &VALUES)?);
    Ok(())
}

const EXAMPLES: [(&str, &str, &str); 4] = [
    // 4 + 10 + 18
    (
        "size N from 1 to 4096; input xs: [u32; N]; input ys: [u32; N]; output reduce(add, 0, map(\\p. mul(first(p), second(p)), zip(xs, ys)))",
        "{\"global\":1,\"local\":1,\"sizes\":{\"N\":3},\"inputs\":{\"xs\":[1,2,3],\"ys\":[4,5,6]}}",
        "{\"value\":[32]}\n",
    ),
    (
        "size M from 1 to 256; size N from 1 to 256; input rows: [[u32; M]; N]; output transpose(rows)",
        "{\"global\":1,\"local\":1,\"sizes\":{\"M\":3,\"N\":2},\"inputs\":{\"rows\":[[1,2,3],[4,5,6]]}}",
        "{\"value\":[[1,4],[2,5],[3,6]]}\n",
    ),
    // The ends are repeated: 1 + 1 + 2, and at last 5 + 6 + 6.
    (
        "size N multiple 2 from 2 to 4096; input xs: [u32; N]; output join(map(\\w. reduce(add, 0, w), slide(3, 1, pad(1, 1, xs))))",
        "{\"global\":2,\"local\":2,\"sizes\":{\"N\":6},\"inputs\":{\"xs\":[1,2,3,4,5,6]}}",
        "{\"value\":[4,6,9,12,15,17]}\n",
    ),
    (
        "size K from 1 to 64; size M from 1 to 64; size N from 1 to 64; input a: [[u32; K]; M]; input b: [[u32; N]; K]; output map(\\row. join(map(\\column. reduce(add, 0, map(\\p. mul(first(p), second(p)), zip(row, column))), transpose(b))), a)",
        "{\"global\":1,\"local\":1,\"sizes\":{\"K\":2,\"M\":2,\"N\":2},\"inputs\":{\"a\":[[1,2],[3,4]],\"b\":[[5,6],[7,8]]}}",
        "{\"value\":[[19,22],[43,50]]}\n",
    ),
];

#[test]
fn the_examples_have_these_values(rt: HostRuntime) -> Result<(), Fail> {
    assert!(rt; have_values(rt.alloc(), &EXAMPLES)?);
    Ok(())
}

// The line that is told of the value of a term over xs = [1, 2, 3, 4294967295], ys = [5, 3, 33, 2]
// and rows = [[1, 2, 3], [4, 5, 6]].
fn has_value(alloc: Global, term: &str, value: &str) -> Result<bool, AllocError> {
    let declared = "input xs: [u32; 4]; input ys: [u32; 4]; input rows: [[u32; 3]; 2]; output ";
    let program = format!(in alloc; "{declared}{term}")?;
    let line = format!(in alloc; "{{\"value\":{value}}}\n")?;
    let call = Call {
        program: program.as_str(),
        launch: "{\"sizes\":{},\"inputs\":{\"xs\":[1,2,3,4294967295],\"ys\":[5,3,33,2],\"rows\":[[1,2,3],[4,5,6]]}}",
        ..FIRST
    };
    call.ends(alloc, &EVAL, 0, line.as_str(), "")
}

fn terms_have_values(alloc: Global, rows: &[(&str, &str)]) -> Result<bool, AllocError> {
    for &(term, value) in rows {
        if !has_value(alloc, term, value)? {
            return Ok(false);
        }
    }
    Ok(true)
}

// Modulo 2^32: 4294967295 is -1, 4294967292 is -4, 4294967266 is -30. A shift by 33 is one by 1.
const OPERATORS: [(&str, &str); 13] = [
    ("add", "[6,5,36,1]"),
    ("sub", "[4294967292,4294967295,4294967266,4294967293]"),
    ("mul", "[5,6,99,4294967294]"),
    ("min", "[1,2,3,2]"),
    ("max", "[5,3,33,4294967295]"),
    // 3 and 33 are 11 and 100001 in base 2.
    ("and", "[1,2,1,2]"),
    ("or", "[5,3,35,4294967295]"),
    ("xor", "[4,1,34,4294967293]"),
    ("shl", "[32,16,6,4294967292]"),
    ("shr", "[0,0,1,1073741823]"),
    ("lt", "[1,1,1,0]"),
    ("eq", "[0,0,0,0]"),
    ("pair", "[[1,5],[2,3],[3,33],[4294967295,2]]"),
];

const OPERATIONS: [(&str, &str); 4] = [
    ("map(\\x. eq(x, 3), xs)", "[0,0,1,0]"),
    // 4294967295 is 3 times 1431655765.
    ("map(\\x. div(x, 3), xs)", "[0,0,1,1431655765]"),
    ("map(\\x. rem(x, 3), xs)", "[1,2,0,0]"),
    // Each condition but 0 chooses the first.
    ("map(\\x. select(sub(x, 1), 10, x), xs)", "[1,10,10,10]"),
];

fn operators_have_values(alloc: Global, rows: &[(&str, &str)]) -> Result<bool, AllocError> {
    for &(operator, value) in rows {
        let term = format!(in alloc; "map(\\p. {operator}(first(p), second(p)), zip(xs, ys))")?;
        if !has_value(alloc, term.as_str(), value)? {
            return Ok(false);
        }
    }
    Ok(true)
}

#[test]
fn each_operator_has_its_value(rt: HostRuntime) -> Result<(), Fail> {
    assert!(rt; operators_have_values(rt.alloc(), &OPERATORS)?);
    assert!(rt; terms_have_values(rt.alloc(), &OPERATIONS)?);
    Ok(())
}

const PATTERNS: [(&str, &str); 25] = [
    ("xs", "[1,2,3,4294967295]"),
    ("map(\\x. 7, xs)", "[7,7,7,7]"),
    (
        "map(\\r. map(\\x. add(x, 1), r), rows)",
        "[[2,3,4],[5,6,7]]",
    ),
    // The nearer binder counts: the squares of 2, 3, 4 and 0.
    ("map(\\x. let x = add(x, 1) in mul(x, x), xs)", "[4,9,16,0]"),
    (
        "let y = map(\\x. add(x, 1), xs) in zip(y, xs)",
        "[[2,1],[3,2],[4,3],[0,4294967295]]",
    ),
    (
        "map(\\p. second(first(pair(pair(p, 8), p))), xs)",
        "[8,8,8,8]",
    ),
    // 1 + 2 + 3 - 1, from 10.
    ("reduce(add, 10, xs)", "[15]"),
    // 1 * 2 * 3 * -1 is -6.
    ("reduce(mul, 1, xs)", "[4294967290]"),
    ("reduce(min, 4294967295, xs)", "[1]"),
    ("reduce(max, 0, xs)", "[4294967295]"),
    ("reduce(and, 4294967295, xs)", "[0]"),
    ("reduce(or, 0, xs)", "[4294967295]"),
    // 1 and 2 differ in both bits of 3.
    ("reduce(xor, 0, xs)", "[4294967295]"),
    // From the left: 100 - 1, 99 - 2, 97 - 3, 94 + 1.
    ("fold(\\a x. sub(a, x), 100, xs)", "[95]"),
    // (0, 1), (1, 0 + 1), (1, 1 + 2), (3, 1 + 3), (4, 3 - 1)
    (
        "fold(\\a x. pair(second(a), add(first(a), x)), pair(0, 1), xs)",
        "[[4,2]]",
    ),
    ("map(\\r. reduce(add, 0, r), rows)", "[[6],[15]]"),
    ("join(rows)", "[1,2,3,4,5,6]"),
    ("transpose(rows)", "[[1,4],[2,5],[3,6]]"),
    ("transpose(split(2, xs))", "[[1,3],[2,4294967295]]"),
    ("split(2, join(rows))", "[[1,2],[3,4],[5,6]]"),
    ("slide(2, 1, xs)", "[[1,2],[2,3],[3,4294967295]]"),
    ("slide(1, 3, xs)", "[[1],[4294967295]]"),
    ("pad(2, 1, ys)", "[5,5,5,3,33,2,2]"),
    ("pad(0, 0, ys)", "[5,3,33,2]"),
    ("pad(1, 0, rows)", "[[1,2,3],[1,2,3],[4,5,6]]"),
];

#[test]
fn each_pattern_has_its_value(rt: HostRuntime) -> Result<(), Fail> {
    assert!(rt; terms_have_values(rt.alloc(), &PATTERNS)?);
    Ok(())
}
