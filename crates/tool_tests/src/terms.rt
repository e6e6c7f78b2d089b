//! The terms of scripts, each on a line.
use crate::call::{Call, FIRST, PROGRAM, STEPS};
use std::alloc::{AllocError, Global};
use std::test::Fail;

// A program, a script and the lines, each worked out from the one before by its rule.
const TERMS: [(&str, &str, &str); 4] = [
    (
        PROGRAM,
        "at . to-seq",
        "map(\\_0. add(_0, 1), xs)\nmapSeq(\\_0. add(_0, 1), xs)\n",
    ),
    (PROGRAM, "# none\n", "map(\\_0. add(_0, 1), xs)\n"),
    (
        "input xs: [u32; 4]; output reduce(add, 5, xs)",
        "at . split-reduce 2\nat . reduce-fold\nat 0.0.1 reduce-fold\nat 0.0.1 fold-seq\nat 0.0 to-seq\nat 0 private\nat . fold-seq\n",
        "reduce(add, 5, xs)\nreduce(add, 5, join(map(\\_0. reduce(add, 0, _0), split(2, xs))))\nfold(\\_0 _1. add(_0, _1), 5, join(map(\\_0. reduce(add, 0, _0), split(2, xs))))\nfold(\\_0 _1. add(_0, _1), 5, join(map(\\_0. fold(\\_1 _2. add(_1, _2), 0, _0), split(2, xs))))\nfold(\\_0 _1. add(_0, _1), 5, join(map(\\_0. foldSeq(\\_1 _2. add(_1, _2), 0, _0), split(2, xs))))\nfold(\\_0 _1. add(_0, _1), 5, join(mapSeq(\\_0. foldSeq(\\_1 _2. add(_1, _2), 0, _0), split(2, xs))))\nfold(\\_0 _1. add(_0, _1), 5, toPrivate(join(mapSeq(\\_0. foldSeq(\\_1 _2. add(_1, _2), 0, _0), split(2, xs)))))\nfoldSeq(\\_0 _1. add(_0, _1), 5, toPrivate(join(mapSeq(\\_0. foldSeq(\\_1 _2. add(_1, _2), 0, _0), split(2, xs)))))\n",
    ),
    (
        "size N multiple 2 from 2 to 4096; input xs: [u32; N]; output join(map(\\w. reduce(add, 0, w), slide(3, 1, pad(1, 1, xs))))",
        "at 0.0 tile-slide 2\nat 0 map-join\nat 0.0 fuse-map\nat 0.0.1 let-inline\nat 0.0.1.0.0 local-copy\nat 0.0.1.1 reduce-fold\nat 0.0.1.1 fold-seq\nat 0.0.1 to-lcl\nat 0.0 to-wrg",
        "join(map(\\_0. reduce(add, 0, _0), slide(3, 1, pad(1, 1, xs))))\njoin(map(\\_0. reduce(add, 0, _0), join(map(\\_0. slide(3, 1, _0), slide(4, 2, pad(1, 1, xs))))))\njoin(join(map(\\_0. map(\\_1. reduce(add, 0, _1), _0), map(\\_0. slide(3, 1, _0), slide(4, 2, pad(1, 1, xs))))))\njoin(join(map(\\_0. let _1 = slide(3, 1, _0) in map(\\_2. reduce(add, 0, _2), _1), slide(4, 2, pad(1, 1, xs)))))\njoin(join(map(\\_0. map(\\_1. reduce(add, 0, _1), slide(3, 1, _0)), slide(4, 2, pad(1, 1, xs)))))\njoin(join(map(\\_0. map(\\_1. reduce(add, 0, _1), slide(3, 1, toLocal(mapLcl(\\_1. _1, _0)))), slide(4, 2, pad(1, 1, xs)))))\njoin(join(map(\\_0. map(\\_1. fold(\\_2 _3. add(_2, _3), 0, _1), slide(3, 1, toLocal(mapLcl(\\_1. _1, _0)))), slide(4, 2, pad(1, 1, xs)))))\njoin(join(map(\\_0. map(\\_1. foldSeq(\\_2 _3. add(_2, _3), 0, _1), slide(3, 1, toLocal(mapLcl(\\_1. _1, _0)))), slide(4, 2, pad(1, 1, xs)))))\njoin(join(map(\\_0. mapLcl(\\_1. foldSeq(\\_2 _3. add(_2, _3), 0, _1), slide(3, 1, toLocal(mapLcl(\\_1. _1, _0)))), slide(4, 2, pad(1, 1, xs)))))\njoin(join(mapWrg(\\_0. mapLcl(\\_1. foldSeq(\\_2 _3. add(_2, _3), 0, _1), slide(3, 1, toLocal(mapLcl(\\_1. _1, _0)))), slide(4, 2, pad(1, 1, xs)))))\n",
    ),
];

fn are_written(
    alloc: Global,
    rows: &[(&'static str, &'static str, &str)],
) -> Result<bool, AllocError> {
    for &(program, script, lines) in rows {
        let call = Call {
            program,
            script,
            ..FIRST
        };
        if !call.ends(alloc, &STEPS, 0, lines, "")? {
            return Ok(false);
        }
    }
    Ok(true)
}

#[test]
fn the_terms_of_scripts_are_written(rt: HostRuntime) -> Result<(), Fail> {
    assert!(rt; are_written(rt.alloc(), &TERMS)?);
    Ok(())
}
