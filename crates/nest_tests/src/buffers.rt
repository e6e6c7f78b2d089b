//! Buffers of terms' copies, and the limits on layouts, local and private memory.

use crate::lowering::lowered_last;
use address_spaces::spaces;
use buffer_allocation::allocation::buffers;
use buffer_allocation::buffers::{AllocLimit, AllocNo, Buffers};
use std::alloc::Global;
use std::test::Fail;
use thread_mapping::judge;

const COPIED: &str = "input xs: [u32; 4]; output map(\\x. x, xs)";

const TILES: &str = "at . split-map 8192\nat 0.1.0 local-copy\nat 0.1 to-lcl\nat 0 to-wrg";

const WINDOWS: &str =
    "size N multiple 2 from 2 to 4096; input xs: [u32; N]; output join(map(\\w. reduce(add, 0, w), slide(3, 1, pad(1, 1, xs))))";

const TILED: &str =
    "at 0.0 tile-slide 2\nat 0 map-join\nat 0.0 fuse-map\nat 0.0.1 let-inline\nat 0.0.1.0.0 local-copy\nat 0.0.1.1 reduce-fold\nat 0.0.1.1 fold-seq\nat 0.0.1 to-lcl\nat 0.0 to-wrg";

// A legal term's buffers, by their lengths: those in local memory, then those in private memory.
const ALLOCATED: [(&str, &str, &[u64], &[u64]); 5] = [
    (COPIED, "at . to-seq", &[], &[]),
    (COPIED, "at 0 private-copy\nat . to-seq", &[], &[4]),
    (
        "input xs: [u32; 256]; output map(\\x. x, xs)",
        "at 0 private-copy\nat . to-seq",
        &[],
        &[256],
    ),
    (
        "input xs: [u32; 16384]; output map(\\x. x, xs)",
        TILES,
        &[8192],
        &[],
    ),
    (WINDOWS, TILED, &[4], &[]),
];

// A program, a script, and the first limit that its last term passes, with what is counted.
const PASSED: [(&str, &str, AllocLimit, u64); 2] = [
    (
        "input xs: [u32; 257]; output map(\\x. x, xs)",
        "at 0 private-copy\nat . to-seq",
        AllocLimit::Private,
        257,
    ),
    (
        "input xs: [u32; 16386]; output map(\\x. x, xs)",
        "at . split-map 8193\nat 0.1.0 local-copy\nat 0.1 to-lcl\nat 0 to-wrg",
        AllocLimit::Local,
        32772,
    ),
];

fn allocated(
    alloc: Global,
    program: &str,
    script: &str,
) -> Result<Option<Result<Buffers, AllocNo>>, Fail> {
    let Some(lowered) = lowered_last(alloc, program, script)? else {
        return Ok(None);
    };
    let Ok(mapped) = judge(alloc, lowered, None) else {
        return Ok(None);
    };
    Ok(Some(buffers(alloc, &spaces(alloc, mapped)?)))
}

fn has_buffers(
    alloc: Global,
    program: &str,
    script: &str,
    local: &[u64],
    private: &[u64],
) -> Result<bool, Fail> {
    match allocated(alloc, program, script)? {
        Some(Ok(buffers)) => {
            Ok(buffers.local.as_slice() == local && buffers.private.as_slice() == private)
        }
        _ => Ok(false),
    }
}

fn passes(
    alloc: Global,
    program: &str,
    script: &str,
    limit: AllocLimit,
    want: u64,
) -> Result<bool, Fail> {
    match allocated(alloc, program, script)? {
        Some(Err(AllocNo::Limit { which, count })) => Ok(which == limit && count == want),
        _ => Ok(false),
    }
}

// So many pads of nothing around a term.
fn push_pads(text: &mut String, pads: u32, term: &str) -> Result<(), Fail> {
    for _ in 0..pads {
        text.push_str("pad(0, 0, ")?;
    }
    text.push_str(term)?;
    for _ in 0..pads {
        text.push(')')?;
    }
    Ok(())
}

// A program that has such pads between these two parts of its text.
fn padded(alloc: Global, before: &str, pads: u32, term: &str, after: &str) -> Result<String, Fail> {
    let mut text = String::new(alloc);
    text.push_str("input xs: [u32; 4]; output ")?;
    text.push_str(before)?;
    push_pads(&mut text, pads, term)?;
    text.push_str(after)?;
    Ok(text)
}

#[test]
fn copies_have_their_buffers(rt: HostRuntime) -> Result<(), Fail> {
    for (program, script, local, private) in ALLOCATED {
        assert!(rt;
            has_buffers(rt.alloc(), program, script, local, private)?,
            "{program}"
        );
    }
    Ok(())
}

#[test]
fn the_limit_that_is_passed_is_told(rt: HostRuntime) -> Result<(), Fail> {
    for (program, script, limit, count) in PASSED {
        assert!(rt;
            passes(rt.alloc(), program, script, limit, count)?,
            "{program}"
        );
    }
    Ok(())
}

// The layouts of a term that has pads: the text before them, their number, the term in them, the
// text behind, a script, and the count where it is above 24.
const LAYOUTS: [(&str, u32, &str, &str, &str, Option<u64>); 12] = [
    ("map(\\x. x, ", 24, "xs", ")", "at . to-seq", None),
    ("map(\\x. x, ", 25, "xs", ")", "at . to-seq", Some(25)),
    (
        "let y = pad(0, 0, xs) in map(\\x. x, ",
        23,
        "y",
        ")",
        "at 1 to-seq",
        None,
    ),
    (
        "let y = pad(0, 0, xs) in map(\\x. x, ",
        24,
        "y",
        ")",
        "at 1 to-seq",
        Some(25),
    ),
    (
        "let y = ",
        25,
        "xs",
        " in map(\\x. x, xs)",
        "at 1 to-seq",
        Some(25),
    ),
    (
        "map(\\r. map(\\x. x, ",
        23,
        "r",
        "), split(2, xs))",
        "at 1 to-seq\nat . to-seq",
        None,
    ),
    (
        "map(\\r. map(\\x. x, ",
        24,
        "r",
        "), split(2, xs))",
        "at 1 to-seq\nat . to-seq",
        Some(25),
    ),
    (
        "map(\\p. first(p), zip(xs, ",
        24,
        "xs",
        "))",
        "at . to-seq",
        Some(25),
    ),
    (
        "map(\\x. x, ",
        25,
        "xs",
        ")",
        "at 0.0 private-copy\nat . to-seq",
        None,
    ),
    (
        "map(\\x. x, reverse(",
        22,
        "stride(2, xs)",
        "))",
        "at . to-seq",
        None,
    ),
    (
        "map(\\x. x, reverse(",
        23,
        "stride(2, xs)",
        "))",
        "at . to-seq",
        Some(25),
    ),
    (
        "map(\\x. x, stride(1, ",
        24,
        "xs",
        "))",
        "at . to-seq",
        Some(25),
    ),
];

// So many pairs of layouts around a map.
fn rearranged(
    alloc: Global,
    pair: &str,
    pairs: u32,
    outermost: &str,
    end: &str,
) -> Result<String, Fail> {
    let mut text = String::new(alloc);
    text.push_str("input xs: [u32; 4]; output ")?;
    text.push_str(outermost)?;
    for _ in 0..pairs {
        text.push_str(pair)?;
    }
    text.push_str("map(\\x. x, xs)")?;
    for _ in 0..pairs {
        text.push_str("))")?;
    }
    text.push_str(end)?;
    Ok(text)
}

#[test]
fn at_most_24_layouts_stand_one_on_another(rt: HostRuntime) -> Result<(), Fail> {
    let alloc = rt.alloc();
    for (before, pads, term, after, script, count) in LAYOUTS {
        let program = padded(alloc, before, pads, term, after)?;
        let is_right = match count {
            Some(count) => passes(alloc, &program, script, AllocLimit::Layouts, count)?,
            None => matches!(allocated(alloc, &program, script)?, Some(Ok(_))),
        };
        assert!(rt; is_right, "{program}");
    }
    Ok(())
}

// Two layouts, and one more.
const PAIRS: [(&str, &str); 2] = [
    ("join(split(2, ", "split(2, "),
    ("reverse(stride(2, ", "reverse("),
];

#[test]
fn layouts_are_counted_where_a_term_is_written(rt: HostRuntime) -> Result<(), Fail> {
    let alloc = rt.alloc();
    for (pair, one) in PAIRS {
        let place = "at 0.0.0.0.0.0.0.0.0.0.0.0.0.0.0.0.0.0.0.0.0.0.0.0 to-seq";
        let within = rearranged(alloc, pair, 12, "", "")?;
        assert!(rt; has_buffers(alloc, &within, place, &[], &[])?, "{pair}");
        let above = rearranged(alloc, pair, 12, one, ")")?;
        let place = "at 0.0.0.0.0.0.0.0.0.0.0.0.0.0.0.0.0.0.0.0.0.0.0.0.0 to-seq";
        assert!(rt;
            passes(alloc, &above, place, AllocLimit::Layouts, 25)?,
            "{pair}"
        );
    }
    Ok(())
}
