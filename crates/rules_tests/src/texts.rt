//! Terms as texts.

use crate::running::{becomes, declared};
use std::alloc::Global;
use std::test::Fail;

// A term as a program has it, and its text.
const TERMS: [(&str, &str); 15] = [
    ("map(\\x. add(x, 1), xs)", "map(\\_0. add(_0, 1), xs)"),
    (
        "map(\\x. let y = 3 in let z = y in sub(z, x), xs)",
        "map(\\_0. let _1 = 3 in let _2 = _1 in sub(_2, _0), xs)",
    ),
    (
        "map(\\x. select(div(x, 2), 8, rem(x, 5)), xs)",
        "map(\\_0. select(div(_0, 2), 8, rem(_0, 5)), xs)",
    ),
    (
        "map(\\x. shl(shr(x, 1), lt(x, eq(x, 2))), xs)",
        "map(\\_0. shl(shr(_0, 1), lt(_0, eq(_0, 2))), xs)",
    ),
    (
        "map(\\x. xor(or(x, 1), and(max(x, 2), mul(x, 3))), xs)",
        "map(\\_0. xor(or(_0, 1), and(max(_0, 2), mul(_0, 3))), xs)",
    ),
    ("reduce(min, 4, xs)", "reduce(min, 4, xs)"),
    (
        "fold(\\a x. pair(second(a), add(first(a), x)), pair(0, 1), xs)",
        "fold(\\_0 _1. pair(second(_0), add(first(_0), _1)), pair(0, 1), xs)",
    ),
    ("zip(xs, xs)", "zip(xs, xs)"),
    (
        "transpose(slide(3, 1, pad(1, 2, join(rows))))",
        "transpose(slide(3, 1, pad(1, 2, join(rows))))",
    ),
    // the coefficient, then the names in the order of the declarations
    ("split(M*2*N*N, cube)", "split(2*N*N*M, cube)"),
    ("split(M, cube)", "split(M, cube)"),
    ("stride(M*2*N*N, cube)", "stride(2*N*N*M, cube)"),
    ("reverse(stride(1*N, cube))", "reverse(stride(N, cube))"),
    ("split(1*N, cube)", "split(N, cube)"),
    ("split(1, xs)", "split(1, xs)"),
];

fn is_written(alloc: Global, term: &str, want: &str) -> Result<bool, Fail> {
    becomes(alloc, &declared(alloc, term)?, b"", want.as_bytes())
}

#[test]
fn terms_are_written_in_the_syntax_of_programs(rt: HostRuntime) -> Result<(), Fail> {
    for (term, want) in TERMS {
        assert!(rt; is_written(rt.alloc(), term, want)?, "{term}");
    }
    Ok(())
}
