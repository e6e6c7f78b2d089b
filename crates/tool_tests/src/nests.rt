//! The rules of the nest: for each a program and a script that break it, and neighbours that don't.
use crate::call::{COMPILE, Call, FIRST, RUN};
use std::alloc::{AllocError, Global};
use std::test::Fail;

const ROWS: &str = "input xs: [[u32; 4]; 4]; output map(\\r. map(\\x. x, r), xs)";

const NUMBERS: &str = "input xs: [u32; 4]; output map(\\x. x, xs)";

const TWICE: &str = "input xs: [u32; 4]; output map(\\x. x, map(\\x. x, xs))";

const TWO_KERNELS: &str = "input xs: [u32; 4]; output map(\\x. add(x, 1), map(\\x. mul(x, 2), xs))";

const SIZED: &str = "size N from 1 to 64; input xs: [u32; N]; output map(\\x. x, xs)";

const LET_ELEMENT: &str = "input xs: [u32; 4]; output let a = 1 in map(\\x. add(a, x), xs)";

const LET_ARRAY: &str = "input xs: [u32; 4]; output let ys = xs in map(\\x. x, ys)";

const TILES: &str = "at 0.1.0 local-copy\nat 0.1 to-lcl\nat 0 to-wrg";

// Programs and scripts, each with the first broken rule in preorder, and its place. Those of
// hostile scripts stand apart.
const REFUSED: [(&str, &str, &str); 11] = [
    (NUMBERS, "", "lift: nest: N1 at .\n"),
    (NUMBERS, "at . to-lcl", "lift: nest: N2 at .\n"),
    (ROWS, "at 1 to-lcl\nat . to-seq", "lift: nest: N2 at 1\n"),
    (ROWS, "at 1 to-wrg\nat . to-glb", "lift: nest: N3 at 1\n"),
    (
        ROWS,
        "at 1.0 local\nat 1 to-lcl\nat . to-wrg",
        "lift: nest: N5 at 1.0\n",
    ),
    (
        "size N from 1 to 64; input xs: [u32; 2*N]; output join(map(\\r. map(\\x. x, r), split(N, xs)))",
        TILES,
        "lift: nest: N6 at 0.1.0\n",
    ),
    (
        SIZED,
        "at 0 private-copy\nat . to-seq",
        "lift: nest: N8 at 0\n",
    ),
    (LET_ELEMENT, "at 1 to-glb", "lift: nest: N9 at 1\n"),
    (
        "input xs: [u32; 5]; output slide(3, 1, map(\\x. x, xs))",
        "at 0 to-seq",
        "lift: nest: N10 at .\n",
    ),
    (
        "input xs: [u32; 5]; output xs",
        "",
        "lift: nest: N11 at .\n",
    ),
    (
        "input xs: [[u32; 2]; 3]; output map(\\r. r, xs)",
        "at . to-seq",
        "lift: nest: N11 at 1\n",
    ),
];

#[test]
fn rules_are_broken_at_their_places(rt: HostRuntime) -> Result<(), Fail> {
    for (program, script, line) in REFUSED {
        let call = Call {
            program,
            script,
            ..FIRST
        };
        assert!(rt; call.ends(rt.alloc(), &COMPILE, 11, "", line)?);
    }
    Ok(())
}

// Terms that kernels of their own make, in place of one kernel: such a term is refused before all
// other rules, and the first in preorder.
const OF_SEVERAL_KERNELS: [(&str, &str, &str); 4] = [
    (
        TWO_KERNELS,
        "at 0 to-glb\nat 0 then\nat . to-glb",
        "lift: nest: N13 at 0\n",
    ),
    (TWICE, "at 0 then", "lift: nest: N13 at 0\n"),
    (
        TWICE,
        "launch local 2\nat 0 then\nat . then",
        "lift: nest: N13 at .\n",
    ),
    (
        "input xs: [u32; 4]; output let y = map(\\x. x, xs) in map(\\z. fold(\\a b. add(a, b), z, y), xs)",
        "at 0 then\nat . let-inline",
        "lift: nest: N13 at 1.0\n",
    ),
];

#[test]
fn one_kernel_is_not_several(rt: HostRuntime) -> Result<(), Fail> {
    for (program, script, line) in OF_SEVERAL_KERNELS {
        let call = Call {
            program,
            script,
            ..FIRST
        };
        assert!(rt; call.ends(rt.alloc(), &COMPILE, 11, "", line)?);
        assert!(rt; call.ends(rt.alloc(), &RUN, 11, "", line)?);
    }
    Ok(())
}

// Neighbours of these, which break none.
const ACCEPTED: [(&str, &str); 13] = [
    (NUMBERS, "at . to-seq"),
    (ROWS, "at 1 to-lcl\nat . to-wrg"),
    (ROWS, "at 1 to-seq\nat . to-glb"),
    (
        NUMBERS,
        "at . split-map 2\nat 0.1.0 local-copy\nat 0.1 to-lcl\nat 0 to-wrg",
    ),
    (ROWS, "at 1.0 local-copy\nat 1 to-lcl\nat . to-wrg"),
    (
        "size N from 1 to 64; input xs: [u32; 2*N]; output join(map(\\r. map(\\x. x, r), split(2, xs)))",
        TILES,
    ),
    (TWICE, "at 0 private\nat 0.0 to-seq\nat . to-seq"),
    (NUMBERS, "at 0 private-copy\nat . to-seq"),
    (LET_ARRAY, "at 1 to-glb"),
    (LET_ELEMENT, "at 1 to-seq"),
    (
        "input xs: [u32; 5]; output map(\\w. map(\\x. x, w), slide(3, 1, xs))",
        "at 1 to-seq\nat . to-seq",
    ),
    ("input xs: [u32; 5]; output xs", "at . copy\nat . to-seq"),
    (
        "input xs: [[u32; 2]; 3]; output map(\\r. r, xs)",
        "at 1 copy\nat 1 to-seq\nat . to-seq",
    ),
];

fn are_accepted(alloc: Global, rows: &[(&'static str, &'static str)]) -> Result<bool, AllocError> {
    for &(program, script) in rows {
        let call = Call {
            program,
            script,
            ..FIRST
        };
        if !call.is_accepted(alloc, &COMPILE)? {
            return Ok(false);
        }
    }
    Ok(true)
}

#[test]
fn their_neighbours_are_compiled(rt: HostRuntime) -> Result<(), Fail> {
    assert!(rt; are_accepted(rt.alloc(), &ACCEPTED)?);
    Ok(())
}
