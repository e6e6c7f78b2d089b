//! What each rule makes of a term.

use crate::running::{becomes, declared, has_lines};
use std::alloc::Global;
use std::test::Fail;

// A term, a script, and the last term of the script.
const ALGEBRA: [(&str, &str, &str); 30] = [
    (
        "map(\\y. add(y, 1), map(\\x. mul(x, 2), xs))",
        "at . fuse-map",
        "map(\\_0. let _1 = mul(_0, 2) in add(_1, 1), xs)",
    ),
    (
        "fold(\\a y. sub(a, y), 5, map(\\x. mul(x, 2), xs))",
        "at . fuse-fold",
        "fold(\\_0 _1. let _2 = mul(_1, 2) in sub(_0, _2), 5, xs)",
    ),
    ("join(split(2, xs))", "at . join-split", "xs"),
    ("split(4, join(rows))", "at . split-join", "rows"),
    (
        "transpose(transpose(rows))",
        "at . transpose-transpose",
        "rows",
    ),
    (
        "map(\\x. add(x, 1), join(rows))",
        "at . map-join",
        "join(map(\\_0. map(\\_1. add(_1, 1), _0), rows))",
    ),
    (
        "map(\\r. map(\\x. add(x, 1), r), split(2, xs))",
        "at . map-split",
        "split(2, map(\\_0. add(_0, 1), xs))",
    ),
    (
        "map(\\r. map(\\x. add(x, 1), r), transpose(rows))",
        "at . map-transpose",
        "transpose(map(\\_0. map(\\_1. add(_1, 1), _0), rows))",
    ),
    (
        "pad(1, 2, map(\\x. add(x, 1), xs))",
        "at . pad-map",
        "map(\\_0. add(_0, 1), pad(1, 2, xs))",
    ),
    (
        "map(\\x. add(x, 1), pad(1, 2, xs))",
        "at . map-pad",
        "pad(1, 2, map(\\_0. add(_0, 1), xs))",
    ),
    (
        "map(\\x. let y = add(x, 1) in mul(y, y), xs)",
        "at 1 let-inline",
        "map(\\_0. mul(add(_0, 1), add(_0, 1)), xs)",
    ),
    ("join(rows)", "at 0 copy", "join(map(\\_0. _0, rows))"),
    ("reverse(reverse(rows))", "at . reverse-reverse", "rows"),
    (
        "map(\\x. add(x, 1), reverse(xs))",
        "at . map-reverse",
        "reverse(map(\\_0. add(_0, 1), xs))",
    ),
    (
        "map(\\x. add(x, 1), stride(2, xs))",
        "at . map-stride",
        "stride(2, map(\\_0. add(_0, 1), xs))",
    ),
    ("stride(2, stride(4, eight))", "at . stride-stride", "eight"),
    // the product of both over sizes, whatever the order of the factors
    (
        "stride(N*2*M, stride(N, cube))",
        "at . stride-stride",
        "cube",
    ),
    (
        "stride(2, xs)",
        "at . stride-layout",
        "join(transpose(split(2, xs)))",
    ),
    (
        "stride(M*N, cube)",
        "at . stride-layout",
        "join(transpose(split(N*M, cube)))",
    ),
    // by three factors
    (
        "stride(N*2*M, cube)",
        "at . stride-layout",
        "join(transpose(split(2*N*M, cube)))",
    ),
    (
        "map(\\x. add(x, 1), stride(M*2*N, cube))",
        "at . map-stride",
        "stride(2*N*M, map(\\_0. add(_0, 1), cube))",
    ),
    (
        "stride(1, rows)",
        "at . stride-layout",
        "join(transpose(split(1, rows)))",
    ),
    // under a binder z, the numbers of z's uses change
    (
        "map(\\z. map(\\y. add(y, z), map(\\x. mul(x, z), xs)), xs)",
        "at 1 fuse-map",
        "map(\\_0. map(\\_1. let _2 = mul(_1, _0) in add(_2, _0), xs), xs)",
    ),
    (
        "map(\\z. fold(\\a y. add(a, z), 7, map(\\x. mul(x, z), xs)), xs)",
        "at 1 fuse-fold",
        "map(\\_0. fold(\\_1 _2. let _3 = mul(_2, _0) in add(_1, _0), 7, xs), xs)",
    ),
    (
        "map(\\z. map(\\x. add(x, z), join(rows)), xs)",
        "at 1 map-join",
        "map(\\_0. join(map(\\_1. map(\\_2. add(_2, _0), _1), rows)), xs)",
    ),
    (
        "map(\\z. map(\\r. map(\\x. add(x, z), r), split(2, xs)), xs)",
        "at 1 map-split",
        "map(\\_0. split(2, map(\\_1. add(_1, _0), xs)), xs)",
    ),
    (
        "map(\\z. map(\\r. map(\\x. add(x, z), r), transpose(rows)), xs)",
        "at 1 map-transpose",
        "map(\\_0. transpose(map(\\_1. map(\\_2. add(_2, _0), _1), rows)), xs)",
    ),
    (
        "map(\\z. map(\\x. add(x, z), reverse(xs)), xs)",
        "at 1 map-reverse",
        "map(\\_0. reverse(map(\\_1. add(_1, _0), xs)), xs)",
    ),
    (
        "map(\\z. map(\\x. add(x, z), stride(3, xs)), xs)",
        "at 1 map-stride",
        "map(\\_0. stride(3, map(\\_1. add(_1, _0), xs)), xs)",
    ),
    (
        "map(\\z. let x = first(pair(z, 1)) in add(x, z), xs)",
        "at 1 let-inline",
        "map(\\_0. add(first(pair(_0, 1)), _0), xs)",
    ),
];

const SPLIT: [(&str, &str, &str); 12] = [
    (
        "map(\\x. add(x, 1), xs)",
        "at . split-map 3",
        "join(map(\\_0. map(\\_1. add(_1, 1), _0), split(3, xs)))",
    ),
    (
        "map(\\z. map(\\x. add(x, z), xs), xs)",
        "at 1 split-map 3",
        "map(\\_0. join(map(\\_1. map(\\_2. add(_2, _0), _1), split(3, xs))), xs)",
    ),
    // each piece begins with the neutral element, and the start is used once
    (
        "reduce(add, 5, eight)",
        "at . split-reduce 2",
        "reduce(add, 5, join(map(\\_0. reduce(add, 0, _0), split(2, eight))))",
    ),
    (
        "reduce(mul, 5, eight)",
        "at . split-reduce 2",
        "reduce(mul, 5, join(map(\\_0. reduce(mul, 1, _0), split(2, eight))))",
    ),
    (
        "reduce(min, 5, eight)",
        "at . split-reduce 2",
        "reduce(min, 5, join(map(\\_0. reduce(min, 4294967295, _0), split(2, eight))))",
    ),
    (
        "reduce(max, 5, eight)",
        "at . split-reduce 2",
        "reduce(max, 5, join(map(\\_0. reduce(max, 0, _0), split(2, eight))))",
    ),
    (
        "reduce(and, 5, eight)",
        "at . stride-reduce 4",
        "reduce(and, 5, join(map(\\_0. reduce(and, 4294967295, _0), transpose(split(4, eight)))))",
    ),
    (
        "reduce(or, 5, eight)",
        "at . stride-reduce 4",
        "reduce(or, 5, join(map(\\_0. reduce(or, 0, _0), transpose(split(4, eight)))))",
    ),
    (
        "reduce(xor, 5, eight)",
        "at . stride-reduce 4",
        "reduce(xor, 5, join(map(\\_0. reduce(xor, 0, _0), transpose(split(4, eight)))))",
    ),
    (
        "reduce(max, 7, xs)",
        "at . reduce-fold",
        "fold(\\_0 _1. max(_0, _1), 7, xs)",
    ),
    (
        "slide(3, 1, xs)",
        "at . tile-slide 2",
        "join(map(\\_0. slide(3, 1, _0), slide(4, 2, xs)))",
    ),
    // a tile of 6 has 2 pieces of 4 that begin 2 apart, and 2 tiles that begin 4
    // apart have 10 elements
    (
        "slide(4, 2, ten)",
        "at . tile-slide 4",
        "join(map(\\_0. slide(4, 2, _0), slide(6, 4, ten)))",
    ),
];

// Pieces and strides by the operators that the rows above leave out.
const REGROUPED: [(&str, &str, &str); 7] = [
    (
        "reduce(and, 5, eight)",
        "at . split-reduce 2",
        "reduce(and, 5, join(map(\\_0. reduce(and, 4294967295, _0), split(2, eight))))",
    ),
    (
        "reduce(or, 5, eight)",
        "at . split-reduce 2",
        "reduce(or, 5, join(map(\\_0. reduce(or, 0, _0), split(2, eight))))",
    ),
    (
        "reduce(xor, 5, eight)",
        "at . split-reduce 2",
        "reduce(xor, 5, join(map(\\_0. reduce(xor, 0, _0), split(2, eight))))",
    ),
    (
        "reduce(add, 5, eight)",
        "at . stride-reduce 4",
        "reduce(add, 5, join(map(\\_0. reduce(add, 0, _0), transpose(split(4, eight)))))",
    ),
    (
        "reduce(mul, 5, eight)",
        "at . stride-reduce 4",
        "reduce(mul, 5, join(map(\\_0. reduce(mul, 1, _0), transpose(split(4, eight)))))",
    ),
    (
        "reduce(min, 5, eight)",
        "at . stride-reduce 4",
        "reduce(min, 5, join(map(\\_0. reduce(min, 4294967295, _0), transpose(split(4, eight)))))",
    ),
    (
        "reduce(max, 5, eight)",
        "at . stride-reduce 4",
        "reduce(max, 5, join(map(\\_0. reduce(max, 0, _0), transpose(split(4, eight)))))",
    ),
];

const LOWER: [(&str, &str, &str); 23] = [
    ("map(\\x. x, xs)", "at . to-glb", "mapGlb(\\_0. _0, xs)"),
    ("map(\\x. x, xs)", "at . to-wrg", "mapWrg(\\_0. _0, xs)"),
    ("map(\\x. x, xs)", "at . to-lcl", "mapLcl(\\_0. _0, xs)"),
    ("map(\\x. x, xs)", "at . to-glb1", "mapGlb1(\\_0. _0, xs)"),
    ("map(\\x. x, xs)", "at . to-wrg1", "mapWrg1(\\_0. _0, xs)"),
    ("map(\\x. x, xs)", "at . to-lcl1", "mapLcl1(\\_0. _0, xs)"),
    (
        "map(\\r. map(\\x. add(x, 1), r), rows)",
        "at 1 to-glb\nat . to-glb1",
        "mapGlb1(\\_0. mapGlb(\\_1. add(_1, 1), _0), rows)",
    ),
    (
        "map(\\r. map(\\x. x, r), rows)",
        "at . to-lcl1\nat 1 to-lcl",
        "mapLcl1(\\_0. mapLcl(\\_1. _1, _0), rows)",
    ),
    ("map(\\x. x, xs)", "at . to-seq", "mapSeq(\\_0. _0, xs)"),
    (
        "fold(\\a x. x, 5, xs)",
        "at . fold-seq",
        "foldSeq(\\_0 _1. _1, 5, xs)",
    ),
    ("join(rows)", "at . local", "toLocal(join(rows))"),
    (
        "map(\\x. x, xs)",
        "at . local",
        "toLocal(map(\\_0. _0, xs))",
    ),
    ("join(rows)", "at 0 private", "join(toPrivate(rows))"),
    (
        "fold(\\a x. x, 5, xs)",
        "at . private",
        "toPrivate(fold(\\_0 _1. _1, 5, xs))",
    ),
    ("xs", "at . local-copy", "toLocal(mapLcl(\\_0. _0, xs))"),
    ("xs", "at . private-copy", "toPrivate(mapSeq(\\_0. _0, xs))"),
    ("join(rows)", "at 0 then", "join(then(rows))"),
    (
        "map(\\p. add(first(p), second(p)), zip(xs, xs))",
        "at 0 then",
        "map(\\_0. add(first(_0), second(_0)), then(zip(xs, xs)))",
    ),
    // an array that is let is under no binder of the let's own
    (
        "let y = map(\\x. x, xs) in y",
        "at 0 then",
        "let _0 = then(map(\\_0. _0, xs)) in _0",
    ),
    (
        "map(\\x. sub(div(x, 3), min(7, x)), eight)",
        "at . vector",
        "asScalar(map(\\_0. sub(div(_0, 3), min(7, _0)), asVector(4, eight)))",
    ),
    (
        "map(\\r. map(\\x. x, r), rows)",
        "at 1 vector",
        "map(\\_0. asScalar(map(\\_1. _1, asVector(4, _0))), rows)",
    ),
    // a number of the map around stands for four
    (
        "map(\\y. map(\\x. rem(add(x, y), 5), eight), xs)",
        "at 1 vector",
        "map(\\_0. asScalar(map(\\_1. rem(add(_1, _0), 5), asVector(4, eight))), xs)",
    ),
    (
        "map(\\y. y, map(\\x. x, eight))",
        "at 0 vector\nat . vector\nat 0.0 vector-scalar",
        "asScalar(map(\\_0. _0, map(\\_0. _0, asVector(4, eight))))",
    ),
];

fn rewrites(alloc: Global, term: &str, script: &str, want: &str) -> Result<bool, Fail> {
    becomes(
        alloc,
        &declared(alloc, term)?,
        script.as_bytes(),
        want.as_bytes(),
    )
}

#[test]
fn rules_of_the_patterns_algebra(rt: HostRuntime) -> Result<(), Fail> {
    for (term, script, want) in ALGEBRA {
        assert!(rt; rewrites(rt.alloc(), term, script, want)?, "{script}");
    }
    Ok(())
}

#[test]
fn rules_that_cut_arrays(rt: HostRuntime) -> Result<(), Fail> {
    for (term, script, want) in SPLIT {
        assert!(rt; rewrites(rt.alloc(), term, script, want)?, "{script}");
    }
    Ok(())
}

#[test]
fn reductions_by_each_operator(rt: HostRuntime) -> Result<(), Fail> {
    for (term, script, want) in REGROUPED {
        assert!(rt; rewrites(rt.alloc(), term, script, want)?, "{term}");
    }
    Ok(())
}

#[test]
fn rules_that_say_how_terms_are_run(rt: HostRuntime) -> Result<(), Fail> {
    for (term, script, want) in LOWER {
        assert!(rt; rewrites(rt.alloc(), term, script, want)?, "{script}");
    }
    Ok(())
}

// A sum by halves, step by step.
const SUM: &[u8] = b"input xs: [u32; 4]; output reduce(add, 5, xs)";

const SUM_SCRIPT: &[u8] =
    b"at . split-reduce 2\nat . reduce-fold\nat 0.0.1 reduce-fold\nat 0.0.1 fold-seq\nat 0.0 to-seq\nat 0 private\nat . fold-seq";

const SUM_TERMS: &[u8] =
    b"reduce(add, 5, xs)\nreduce(add, 5, join(map(\\_0. reduce(add, 0, _0), split(2, xs))))\nfold(\\_0 _1. add(_0, _1), 5, join(map(\\_0. reduce(add, 0, _0), split(2, xs))))\nfold(\\_0 _1. add(_0, _1), 5, join(map(\\_0. fold(\\_1 _2. add(_1, _2), 0, _0), split(2, xs))))\nfold(\\_0 _1. add(_0, _1), 5, join(map(\\_0. foldSeq(\\_1 _2. add(_1, _2), 0, _0), split(2, xs))))\nfold(\\_0 _1. add(_0, _1), 5, join(mapSeq(\\_0. foldSeq(\\_1 _2. add(_1, _2), 0, _0), split(2, xs))))\nfold(\\_0 _1. add(_0, _1), 5, toPrivate(join(mapSeq(\\_0. foldSeq(\\_1 _2. add(_1, _2), 0, _0), split(2, xs)))))\nfoldSeq(\\_0 _1. add(_0, _1), 5, toPrivate(join(mapSeq(\\_0. foldSeq(\\_1 _2. add(_1, _2), 0, _0), split(2, xs)))))\n";

// Overlapping tiles of a stencil.
const STENCIL: &[u8] =
    b"size N multiple 2 from 2 to 4096; input xs: [u32; N]; output join(map(\\w. reduce(add, 0, w), slide(3, 1, pad(1, 1, xs))))";

const STENCIL_SCRIPT: &[u8] =
    b"at 0.0 tile-slide 2\nat 0 map-join\nat 0.0 fuse-map\nat 0.0.1 let-inline\nat 0.0.1.0.0 local-copy\nat 0.0.1.1 reduce-fold\nat 0.0.1.1 fold-seq\nat 0.0.1 to-lcl\nat 0.0 to-wrg";

const STENCIL_LAST: &[u8] =
    b"join(join(mapWrg(\\_0. mapLcl(\\_1. foldSeq(\\_2 _3. add(_2, _3), 0, _1), slide(3, 1, toLocal(mapLcl(\\_1. _1, _0)))), slide(4, 2, pad(1, 1, xs)))))";

// A map in two kernels, step by step.
const MAPS: &[u8] = b"input xs: [u32; 4]; output map(\\x. add(x, 1), map(\\x. mul(x, 2), xs))";

const MAPS_SCRIPT: &[u8] = b"at 0 to-glb\nat 0 then\nat . to-glb";

const MAPS_TERMS: &[u8] =
    b"map(\\_0. add(_0, 1), map(\\_0. mul(_0, 2), xs))\nmap(\\_0. add(_0, 1), mapGlb(\\_0. mul(_0, 2), xs))\nmap(\\_0. add(_0, 1), then(mapGlb(\\_0. mul(_0, 2), xs)))\nmapGlb(\\_0. add(_0, 1), then(mapGlb(\\_0. mul(_0, 2), xs)))\n";

// A let that is cut off goes under a binder where its variable stands.
const INLINED: &[u8] =
    b"input xs: [u32; 4]; output let y = map(\\x. x, xs) in map(\\z. fold(\\a b. add(a, b), z, y), xs)";

const INLINED_SCRIPT: &[u8] = b"at 0 then\nat . let-inline";

const INLINED_LAST: &[u8] =
    b"map(\\_0. fold(\\_1 _2. add(_1, _2), _0, then(map(\\_1. _1, xs))), xs)";

#[test]
fn a_script_makes_a_term_each_step(rt: HostRuntime) -> Result<(), Fail> {
    assert!(rt; has_lines(rt.alloc(), SUM, SUM_SCRIPT, SUM_TERMS)?);
    assert!(rt; has_lines(rt.alloc(), MAPS, MAPS_SCRIPT, MAPS_TERMS)?);
    assert!(rt; becomes(rt.alloc(), INLINED, INLINED_SCRIPT, INLINED_LAST)?);
    Ok(())
}

#[test]
fn a_stencil_is_tiled(rt: HostRuntime) -> Result<(), Fail> {
    assert!(rt; becomes(rt.alloc(), STENCIL, STENCIL_SCRIPT, STENCIL_LAST)?);
    Ok(())
}
