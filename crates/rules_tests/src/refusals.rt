//! Steps that aren't made.

use crate::running::{declared, stops};
use rewriting::Condition;
use std::alloc::Global;
use std::test::Fail;
use strategy_script::{StepNo, Why};

// A term, a script, and the step that isn't made, since the node isn't of the rule's shape.
const SHAPES: [(&str, &str, u64); 28] = [
    (
        "map(\\y. y, map(\\x. x, xs))",
        "at 0 to-glb\nat . fuse-map",
        2,
    ),
    ("fold(\\a x. a, 7, xs)", "at . fuse-fold", 1),
    ("join(rows)", "at . join-split", 1),
    ("xs", "at . split-join", 1),
    ("xs", "at . transpose-transpose", 1),
    ("map(\\x. x, xs)", "at . map-join", 1),
    (
        "map(\\r. map(\\x. x, xs), split(2, xs))",
        "at . map-split",
        1,
    ),
    ("map(\\r. map(\\x. x, r), rows)", "at . map-transpose", 1),
    ("pad(1, 2, xs)", "at . pad-map", 1),
    ("xs", "at . map-pad", 1),
    ("reverse(xs)", "at . reverse-reverse", 1),
    ("map(\\x. x, stride(2, xs))", "at . map-reverse", 1),
    ("map(\\x. x, reverse(xs))", "at . map-stride", 1),
    ("stride(2, xs)", "at . stride-stride", 1),
    ("reverse(xs)", "at . stride-layout", 1),
    ("stride(2, reverse(xs))", "at . stride-stride", 1),
    ("xs", "at . let-inline", 1),
    ("fold(\\a x. a, 7, xs)", "at . split-map 3", 1),
    ("fold(\\a x. add(a, x), 7, eight)", "at . split-reduce 0", 1),
    (
        "fold(\\a x. add(a, x), 7, eight)",
        "at . stride-reduce 4",
        1,
    ),
    ("map(\\x. x, xs)", "at . reduce-fold", 1),
    ("map(\\x. x, xs)", "at . tile-slide 0", 1),
    ("xs", "at . to-glb", 1),
    ("fold(\\a x. a, 7, xs)", "at . to-wrg", 1),
    ("xs", "at . to-lcl", 1),
    (
        "map(\\x. x, xs)",
        "at . to-glb\n\nat 0 copy\nat . to-seq",
        3,
    ),
    ("map(\\x. x, xs)", "at . fold-seq", 1),
    ("fold(\\a x. a, 7, xs)", "at . fold-seq\nat . fold-seq", 2),
];

// A term, a script, the step that isn't made, and the first condition that is false.
const SIDES: [(&str, &str, u64, Condition); 39] = [
    (
        "split(2, join(rows))",
        "at . split-join",
        1,
        Condition::Same,
    ),
    (
        "stride(3, stride(3, xs))",
        "at . stride-stride",
        1,
        Condition::Same,
    ),
    // the sum of both is the length, and the product isn't
    (
        "stride(4, stride(4, eight))",
        "at . stride-stride",
        1,
        Condition::Same,
    ),
    // the product is far beyond any length
    (
        "stride(2*N*N*M, stride(2*N*N*M, cube))",
        "at . stride-stride",
        1,
        Condition::Same,
    ),
    // M*M - 3*M + 3 is at least 1, but that isn't shown
    ("stride(M, odd)", "at . stride-layout", 1, Condition::Length),
    // map(\x. r, r) names the row r
    (
        "map(\\r. map(\\x. r, r), split(2, xs))",
        "at . map-split",
        1,
        Condition::Mentions,
    ),
    (
        "map(\\r. map(\\x. r, r), transpose(rows))",
        "at . map-transpose",
        1,
        Condition::Mentions,
    ),
    (
        "map(\\x. x, xs)",
        "at . to-glb\nat 1 copy",
        2,
        Condition::Array,
    ),
    (
        "map(\\x. x, xs)",
        "at . split-map 0",
        1,
        Condition::Positive,
    ),
    ("map(\\x. x, xs)", "at . split-map 4", 1, Condition::Divides),
    (
        "reduce(min, 7, eight)",
        "at . split-reduce 0",
        1,
        Condition::Positive,
    ),
    (
        "reduce(min, 7, eight)",
        "at . split-reduce 3",
        1,
        Condition::Divides,
    ),
    (
        "reduce(min, 7, eight)",
        "at . stride-reduce 0",
        1,
        Condition::Positive,
    ),
    (
        "reduce(min, 7, eight)",
        "at . stride-reduce 5",
        1,
        Condition::Divides,
    ),
    (
        "slide(3, 1, nine)",
        "at . tile-slide 0",
        1,
        Condition::Positive,
    ),
    // a step of 2 doesn't divide 3
    (
        "slide(3, 2, nine)",
        "at . tile-slide 3",
        1,
        Condition::Divides,
    ),
    // tiles of 6 are too long for 4 elements, and so are those of 2^32 + 1
    (
        "slide(3, 1, four)",
        "at . tile-slide 4",
        1,
        Condition::Length,
    ),
    (
        "slide(3, 1, nine)",
        "at . tile-slide 4294967295",
        1,
        Condition::Length,
    ),
    // 9 - 6 is no multiple of 4
    (
        "slide(3, 1, nine)",
        "at . tile-slide 4",
        1,
        Condition::Divides,
    ),
    // u = 6 + 3 - 1 = 8, and N may be 6
    ("slide(3, 1, xs)", "at . tile-slide 6", 1, Condition::Length),
    ("map(\\x. 3, xs)", "at 1 local", 1, Condition::Array),
    ("map(\\x. 3, xs)", "at 1 private", 1, Condition::Array),
    ("map(\\x. 3, xs)", "at 1 local-copy", 1, Condition::Array),
    ("map(\\x. 3, xs)", "at 1 private-copy", 1, Condition::Array),
    ("map(\\x. 3, xs)", "at 1 copy", 1, Condition::Array),
    // an element, though a binder is around it too
    ("map(\\x. 3, xs)", "at 1 then", 1, Condition::Array),
    (
        "join(map(\\r. r, rows))",
        "at 0.1 then",
        1,
        Condition::Closed,
    ),
    (
        "let y = map(\\x. x, xs) in map(\\z. add(z, 1), y)",
        "at 1.0 then",
        1,
        Condition::Closed,
    ),
    // its pairs hold arrays
    (
        "map(\\p. first(p), zip(rows, rows))",
        "at 0 then",
        1,
        Condition::Whole,
    ),
    // and so where a binder is around it too, and where it is such a pair alone
    (
        "map(\\r. map(\\p. first(p), zip(rows, rows)), rows)",
        "at 1.0 then",
        1,
        Condition::Whole,
    ),
    (
        "map(\\p. first(p), zip(rows, rows))",
        "at 1.0 then",
        1,
        Condition::Array,
    ),
    (
        "map(\\x. eq(x, 1), eight)",
        "at . vector",
        1,
        Condition::Lanes,
    ),
    (
        "map(\\x. select(x, 1, 2), eight)",
        "at . vector",
        1,
        Condition::Lanes,
    ),
    (
        "map(\\x. let y = x in y, eight)",
        "at . vector",
        1,
        Condition::Lanes,
    ),
    ("map(\\x. 3, eight)", "at . vector", 1, Condition::Lanes),
    ("map(\\r. r, rows)", "at . vector", 1, Condition::Lanes),
    (
        "map(\\p. first(p), zip(eight, eight))",
        "at . vector",
        1,
        Condition::Lanes,
    ),
    // of both the first is told
    ("map(\\x. lt(x, 1), xs)", "at . vector", 1, Condition::Lanes),
    (
        "map(\\x. add(x, 1), xs)",
        "at . vector",
        1,
        Condition::Divides,
    ),
];

const PLACES: [(&str, &str, u64); 3] = [
    ("map(\\x. add(x, 1), xs)", "at 7 copy", 1),
    ("map(\\x. add(x, 1), xs)", "at 1.0.0 copy", 1),
    ("map(\\x. add(x, 1), xs)", "at . to-seq\nat 2 copy", 2),
];

fn is_refused(alloc: Global, term: &str, script: &str, step: u64, why: Why) -> Result<bool, Fail> {
    stops(
        alloc,
        &declared(alloc, term)?,
        script.as_bytes(),
        StepNo::Inapplicable { step, why },
    )
}

#[test]
fn nodes_of_another_shape(rt: HostRuntime) -> Result<(), Fail> {
    for (term, script, step) in SHAPES {
        assert!(rt;
            is_refused(rt.alloc(), term, script, step, Why::Shape)?,
            "{script}"
        );
    }
    Ok(())
}

#[test]
fn conditions_that_are_false(rt: HostRuntime) -> Result<(), Fail> {
    for (term, script, step, side) in SIDES {
        assert!(rt;
            is_refused(rt.alloc(), term, script, step, Why::Side(side))?,
            "{script}"
        );
    }
    Ok(())
}

#[test]
fn places_that_are_none(rt: HostRuntime) -> Result<(), Fail> {
    for (term, script, step) in PLACES {
        assert!(rt;
            is_refused(rt.alloc(), term, script, step, Why::NoPlace)?,
            "{script}"
        );
    }
    Ok(())
}
