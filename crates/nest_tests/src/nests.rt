//! Nests that are legal or not, and the address spaces of legal ones.

use crate::lowering::lowered_last;
use address_spaces::spaces;
use lift_tree::local_size::LocalSize;
use lowered_tree::around::AddressSpace;
use lowered_tree::kind::{NestKind, nest_kind};
use lowered_tree::lowered::Mapped;
use lowered_tree::rule::NestRule;
use std::alloc::Global;
use std::test::Fail;
use thread_mapping::{NestNo, judge};

const ADDED: &str = "size N from 1 to 1000; input xs: [u32; N]; output map(\\x. add(x, 1), xs)";

const COPIED: &str = "input xs: [u32; 4]; output map(\\x. x, xs)";

const REVERSED: &str = "input xs: [u32; 4]; output reverse(map(\\x. add(x, 1), xs))";

const STRIDED: &str = "input xs: [u32; 4]; output stride(2, map(\\x. add(x, 1), xs))";

const TWICE: &str = "input xs: [u32; 4]; output map(\\x. add(x, 1), map(\\x. mul(x, 2), xs))";

const ROWS: &str = "input xs: [[u32; 4]; 4]; output map(\\r. map(\\x. x, r), xs)";

const GRID: &str =
    "input xs: [[[[u32; 2]; 3]; 2]; 4]; output map(\\a. map(\\b. map(\\c. map(\\d. add(d, 1), c), b), a), xs)";

const TURNED: &str =
    "input xs: [[u32; 4]; 4]; output map(\\r. transpose(split(2, map(\\x. x, r))), xs)";

const TWO_TURNS: &str =
    "input xs: [[[[u32; 2]; 3]; 2]; 4]; output map(\\a. map(\\b. map(\\c. map(\\d. d, map(\\e. e, c)), b), a), xs)";

const HALVES: &str =
    "size N from 1 to 64; input xs: [u32; 2*N]; output join(map(\\r. map(\\x. x, r), split(N, xs)))";

const WINDOWS: &str =
    "size N multiple 2 from 2 to 4096; input xs: [u32; N]; output join(map(\\w. reduce(add, 0, w), slide(3, 1, pad(1, 1, xs))))";

const SUM: &str = "input xs: [u32; 4]; output reduce(add, 5, xs)";

const TILED: &str =
    "at 0.0 tile-slide 2\nat 0 map-join\nat 0.0 fuse-map\nat 0.0.1 let-inline\nat 0.0.1.0.0 local-copy\nat 0.0.1.1 reduce-fold\nat 0.0.1.1 fold-seq\nat 0.0.1 to-lcl\nat 0.0 to-wrg";

const SUMMED: &str =
    "at . split-reduce 2\nat . reduce-fold\nat 0.0.1 reduce-fold\nat 0.0.1 fold-seq\nat 0.0 to-seq\nat 0 private\nat . fold-seq";

// A program, a script, and the first node at which a rule is broken: its place in
// digits, and the rule.
const BROKEN: [(&str, &str, &str, NestRule); 23] = [
    (ADDED, "", "", NestRule::N1),
    (ADDED, "at . to-lcl", "", NestRule::N2),
    (ROWS, "at 1 to-glb\nat . to-glb", "1", NestRule::N3),
    (ROWS, "at 1 to-seq\nat . to-wrg", "1", NestRule::N4),
    (COPIED, "at 0 local-copy\nat . to-seq", "0", NestRule::N5),
    (
        HALVES,
        "at 0.1.0 local-copy\nat 0.1 to-lcl\nat 0 to-wrg",
        "010",
        NestRule::N6,
    ),
    (
        "input xs: [u32; 4]; output map(\\x. x, map(\\x. x, xs))",
        "at 0 to-seq\nat . to-seq",
        "0",
        NestRule::N7,
    ),
    (COPIED, "at 0 private-copy\nat . to-glb", "0", NestRule::N8),
    (ROWS, "at 1 to-glb\nat . to-seq", "1", NestRule::N9),
    (
        "input xs: [u32; 5]; output slide(3, 1, map(\\x. x, xs))",
        "at 0 to-seq",
        "",
        NestRule::N10,
    ),
    ("input xs: [u32; 5]; output xs", "", "", NestRule::N11),
    // writing goes through a reverse or a stride
    (REVERSED, "", "0", NestRule::N1),
    (STRIDED, "", "0", NestRule::N1),
    (
        "input xs: [u32; 4]; output map(\\r. map(\\x. x, reverse(r)), split(2, xs))",
        "at 1.0 local\nat 1 to-lcl\nat . to-wrg",
        "10",
        NestRule::N5,
    ),
    (
        "input xs: [u32; 8]; output map(\\r. map(\\x. x, stride(2, r)), split(4, xs))",
        "at 1.0 local\nat 1 to-lcl\nat . to-wrg",
        "10",
        NestRule::N5,
    ),
    (
        "input xs: [u32; 5]; output reverse(slide(3, 1, map(\\x. x, xs)))",
        "at 0.0 to-seq",
        "0",
        NestRule::N10,
    ),
    (
        "input xs: [u32; 6]; output stride(2, slide(3, 1, map(\\x. x, xs)))",
        "at 0.0 to-seq",
        "0",
        NestRule::N10,
    ),
    (
        "input xs: [u32; 5]; output reverse(xs)",
        "",
        "0",
        NestRule::N11,
    ),
    (
        "input xs: [u32; 4]; output stride(2, xs)",
        "",
        "0",
        NestRule::N11,
    ),
    // a cut between two kernels is no part of one kernel's term, and is judged before all else
    (
        TWICE,
        "at 0 to-glb\nat 0 then\nat . to-glb",
        "0",
        NestRule::N13,
    ),
    (TWICE, "at 0 then", "0", NestRule::N13),
    (TWICE, "at 0 then\nat 0.0.0 then", "0", NestRule::N13),
    (
        "input xs: [u32; 4]; output let y = map(\\x. x, xs) in map(\\z. fold(\\a b. add(a, b), z, y), xs)",
        "at 0 then\nat . let-inline",
        "10",
        NestRule::N13,
    ),
];

// The same with maps along dimension 1.
const BROKEN_IN_ROWS: [(&str, &str, &str, NestRule); 18] = [
    // such a map begins a pair, or isn't printed
    (ADDED, "at . to-glb1", "", NestRule::N14),
    (ADDED, "at . to-wrg1", "", NestRule::N14),
    (ADDED, "at . to-lcl1", "", NestRule::N2),
    (ROWS, "at . to-glb1", "", NestRule::N14),
    (ROWS, "at 1 to-seq\nat . to-glb1", "", NestRule::N14),
    (ROWS, "at 1 to-wrg\nat . to-glb1", "", NestRule::N14),
    (ROWS, "at 1 to-glb1\nat . to-glb1", "", NestRule::N14),
    (ROWS, "at 1 to-glb1\nat . to-seq", "1", NestRule::N9),
    // and along dimension 0 a parallel map is the inner one of a pair
    (ROWS, "at 1 to-glb1\nat . to-glb", "", NestRule::N14),
    (
        GRID,
        "at 1.1.1 to-seq\nat 1.1 to-lcl\nat 1 to-wrg\nat . to-wrg1",
        "11",
        NestRule::N14,
    ),
    // it is seen through join, split and transpose alone
    (
        "input xs: [[u32; 4]; 4]; output map(\\r. reverse(map(\\x. x, r)), xs)",
        "at 1.0 to-glb\nat . to-glb1",
        "",
        NestRule::N14,
    ),
    (
        "input xs: [[u32; 4]; 4]; output map(\\r. stride(2, map(\\x. x, r)), xs)",
        "at 1.0 to-glb\nat . to-glb1",
        "",
        NestRule::N14,
    ),
    (
        "input xs: [[u32; 4]; 4]; output map(\\r. let y = r in map(\\x. x, y), xs)",
        "at 1.1 to-glb\nat . to-glb1",
        "",
        NestRule::N14,
    ),
    // the array of a pair's inner map is in no body of the pair
    (
        "input xs: [[u32; 4]; 4]; output map(\\r. map(\\x. x, map(\\y. y, r)), xs)",
        "at 1.0 to-glb\nat 1 to-glb\nat . to-glb1",
        "10",
        NestRule::N7,
    ),
    (
        ROWS,
        "at 1.0 private-copy\nat 1 to-glb\nat . to-glb1",
        "10",
        NestRule::N8,
    ),
    (
        TWO_TURNS,
        "at 1.1.1.0 to-seq\nat 1.1.1 to-lcl\nat 1.1 to-lcl1\nat 1 to-wrg\nat . to-wrg1",
        "1110",
        NestRule::N7,
    ),
    (
        TWO_TURNS,
        "at 1.1.1.0 to-lcl\nat 1.1.1.0 local\nat 1.1.1 to-lcl\nat 1.1 to-lcl1\nat 1 to-wrg\nat . to-wrg1",
        "1110",
        NestRule::N5,
    ),
    // a pair of maps over a group's items has all the work of a body of a pair over groups
    (
        GRID,
        "at 1.1.1 to-seq\nat 1.1 to-seq\nat 1 to-wrg\nat . to-wrg1",
        "11",
        NestRule::N4,
    ),
];

// Vectors of four.
const EIGHT: &str = "input xs: [u32; 8]; output map(\\x. x, xs)";

const IN_ROWS_OF_FOUR: &str =
    "input xs: [[u32; 4]; 2]; output map(\\r. map(\\x. x, map(\\y. y, r)), xs)";

const BROKEN_BY_VECTORS: [(&str, &str, &str, NestRule); 8] = [
    // what is read in fours is aligned
    (
        "input xs: [[u32; 4]; 4]; output map(\\r. map(\\x. x, r), transpose(xs))",
        "at 1 vector\nat 1.0 to-seq\nat . to-seq",
        "100",
        NestRule::N15,
    ),
    (
        "input xs: [u32; 8]; output map(\\x. x, reverse(xs))",
        "at . vector\nat 0 to-seq",
        "00",
        NestRule::N15,
    ),
    (
        "input xs: [u32; 8]; output map(\\w. map(\\x. x, w), slide(4, 4, xs))",
        "at 1 vector\nat 1.0 to-seq\nat . to-seq",
        "100",
        NestRule::N15,
    ),
    (
        EIGHT,
        "at . vector\nat 0 to-seq\nat 0.0.0 private-copy",
        "00",
        NestRule::N15,
    ),
    // no copy holds vectors
    (
        EIGHT,
        "at . vector\nat 0 to-seq\nat 0.0 private-copy",
        "00",
        NestRule::N15,
    ),
    // what is written in fours goes by join and split to the output, or to local memory
    (
        "input xs: [[u32; 4]; 4]; output transpose(map(\\r. map(\\x. x, r), xs))",
        "at 0.1 vector\nat 0.1.0 to-seq\nat 0 to-seq",
        "01",
        NestRule::N15,
    ),
    (
        IN_ROWS_OF_FOUR,
        "at 1.0 vector\nat 1.0.0 to-seq\nat 1.0 private\nat 1 to-seq\nat . to-seq",
        "100",
        NestRule::N15,
    ),
    (
        IN_ROWS_OF_FOUR,
        "at 1.0 vector\nat 1.0.0 to-seq\nat 1 to-seq\nat . to-seq",
        "10",
        NestRule::N15,
    ),
];

// A program, a script, and the spaces of its last term's computing nodes in preorder:
// global, local or private.
const LEGAL: [(&str, &str, &str); 14] = [
    (ADDED, "at . to-seq", "gg"),
    (ADDED, "at . to-glb", "gg"),
    (COPIED, "at 0 private-copy\nat . to-seq", "gppg"),
    (ROWS, "at 1 to-seq\nat . to-glb", "ggg"),
    (SUM, SUMMED, "gpp"),
    (WINDOWS, TILED, "ggllg"),
    (REVERSED, "at 0 to-glb", "gg"),
    (STRIDED, "at 0 to-seq", "gg"),
    // a copy whose map is seen through a reverse or a stride
    (
        "input xs: [u32; 4]; output map(\\r. map(\\x. x, reverse(map(\\y. y, r))), split(2, xs))",
        "at 1.0.0 to-lcl\nat 1.0 local\nat 1 to-lcl\nat . to-wrg",
        "ggllg",
    ),
    (
        "input xs: [u32; 8]; output map(\\r. map(\\x. x, stride(2, map(\\y. y, r))), split(4, xs))",
        "at 1.0.0 to-lcl\nat 1.0 local\nat 1 to-lcl\nat . to-wrg",
        "ggllg",
    ),
    // pairs of maps
    (ROWS, "at 1 to-glb\nat . to-glb1", "ggg"),
    (TURNED, "at 1.0.0 to-glb\nat . to-glb1", "ggg"),
    (
        GRID,
        "at 1.1.1 to-lcl\nat 1.1 to-lcl1\nat 1 to-wrg\nat . to-wrg1",
        "ggggg",
    ),
    (
        "input xs: [[[[u32; 2]; 3]; 2]; 4]; output map(\\a. map(\\b. map(\\c. map(\\d. d, c), map(\\e. map(\\f. f, e), b)), a), xs)",
        "at 1.1.0.1 to-lcl\nat 1.1.0 to-lcl1\nat 1.1.0 local\nat 1.1.1 to-lcl\nat 1.1 to-lcl1\nat 1 to-wrg\nat . to-wrg1",
        "ggglllgg",
    ),
];

// The same.
const LEGAL_WITH_VECTORS: [(&str, &str, &str); 5] = [
    (EIGHT, "at . vector\nat 0 to-seq", "gg"),
    (
        "input xs: [u32; 8]; output let ys = xs in map(\\x. x, ys)",
        "at 1 vector\nat 1.0 to-glb",
        "gg",
    ),
    (
        "input xs: [u32; 8]; output split(4, map(\\x. x, xs))",
        "at 0 vector\nat 0.0 to-seq",
        "gg",
    ),
    (
        "input xs: [u32; 8]; output join(map(\\r. map(\\x. x, r), split(4, xs)))",
        "at 0.1 vector\nat 0.1.0 to-seq\nat 0 to-glb",
        "ggg",
    ),
    (
        IN_ROWS_OF_FOUR,
        "at 1.0 vector\nat 1.0.0 to-lcl\nat 1.0 local\nat 1 to-lcl\nat . to-wrg",
        "ggllg",
    ),
];

// A program, a script, and who runs its last term.
const KINDS: [(&str, &str, NestKind); 13] = [
    (ADDED, "at . to-seq", NestKind::Task),
    (SUM, SUMMED, NestKind::Task),
    (ADDED, "at . to-glb", NestKind::OverLaunch),
    (ROWS, "at 1 to-seq\nat . to-glb", NestKind::OverLaunch),
    (
        "input xs: [u32; 4]; output transpose(split(2, map(\\x. x, xs)))",
        "at 0.0 to-glb",
        NestKind::OverLaunch,
    ),
    (
        "input xs: [u32; 4]; output let ys = split(2, xs) in map(\\r. map(\\x. x, r), ys)",
        "at 1.1 to-lcl\nat 1 to-wrg",
        NestKind::OverGroups,
    ),
    (ROWS, "at 1 to-lcl\nat . to-wrg", NestKind::OverGroups),
    (WINDOWS, TILED, NestKind::OverGroups),
    (REVERSED, "at 0 to-glb", NestKind::OverLaunch),
    (
        "input xs: [u32; 4]; output stride(2, reverse(map(\\x. x, xs)))",
        "at 0.0 to-glb",
        NestKind::OverLaunch,
    ),
    (ROWS, "at 1 to-glb\nat . to-glb1", NestKind::OverLaunch),
    (
        TURNED,
        "at 1.0.0 to-glb\nat . to-glb1",
        NestKind::OverLaunch,
    ),
    (
        GRID,
        "at 1.1.1 to-lcl\nat 1.1 to-lcl1\nat 1 to-wrg\nat . to-wrg1",
        NestKind::OverGrid,
    ),
];

// The same with a fixed local size.
const BROKEN_WITH_A_SIZE: [(&str, &str, (u32, u32), &str, NestRule); 10] = [
    (ADDED, "at . to-seq", (2, 1), "", NestRule::N12),
    (ROWS, "at . to-seq", (256, 1), "", NestRule::N12),
    (ADDED, "at . to-seq", (1, 2), "", NestRule::N12),
    // rows, and no map along dimension 1
    (ADDED, "at . to-glb", (1, 2), "", NestRule::N12),
    (ROWS, "at 1 to-lcl\nat . to-wrg", (2, 3), "", NestRule::N12),
    (ROWS, "at 1 to-seq\nat . to-glb1", (2, 3), "", NestRule::N14),
    (ADDED, "", (2, 1), "", NestRule::N1),
    (
        "input xs: [u32; 5]; output xs",
        "",
        (2, 1),
        "",
        NestRule::N11,
    ),
    (ROWS, "at 1 to-lcl\nat . to-seq", (2, 1), "1", NestRule::N2),
    (
        TWICE,
        "at 0 to-seq\nat 0 then\nat . to-seq",
        (2, 1),
        "0",
        NestRule::N13,
    ),
];

// Legal terms with a fixed local size.
const LEGAL_WITH_A_SIZE: [(&str, &str, (u32, u32)); 6] = [
    (ADDED, "at . to-seq", (1, 1)),
    (ADDED, "at . to-glb", (2, 1)),
    (ROWS, "at 1 to-lcl\nat . to-wrg", (256, 1)),
    (ROWS, "at 1 to-glb\nat . to-glb1", (2, 3)),
    (ROWS, "at 1 to-glb\nat . to-glb1", (1, 256)),
    (ROWS, "at 1 to-glb\nat . to-glb1", (256, 1)),
];

// What is judged of it, with this local size where one is fixed.
fn judged(
    alloc: Global,
    program: &str,
    script: &str,
    local: Option<(u32, u32)>,
) -> Result<Option<Result<Mapped, NestNo>>, Fail> {
    match lowered_last(alloc, program, script)? {
        Some(lowered) => Ok(Some(judge(alloc, lowered, size_of_groups(local)))),
        None => Ok(None),
    }
}

// The size, where groups may have it.
fn size_of_groups(size: Option<(u32, u32)>) -> Option<LocalSize> {
    match size {
        Some((across, down)) => LocalSize::new(across, down),
        None => None,
    }
}

fn is_place(numbers: &[u32], digits: &str) -> bool {
    numbers.iter().map(|n| *n).eq(digits.bytes().map(|digit| (digit as u32).wrapping_sub(48)))
}

fn breaks(judged: Option<Result<Mapped, NestNo>>, digits: &str, want: NestRule) -> bool {
    match judged {
        Some(Err(NestNo::Nest { place, rule })) => {
            is_place(place.numbers(), digits) && rule == want
        }
        _ => false,
    }
}

fn keeps_size(judged: Option<Result<Mapped, NestNo>>, local: (u32, u32)) -> bool {
    match judged {
        Some(Ok(mapped)) => mapped.local == Some(local),
        _ => false,
    }
}

fn letter(space: &AddressSpace) -> u8 {
    match space {
        AddressSpace::Global => b'g',
        AddressSpace::Local => b'l',
        AddressSpace::Private => b'p',
    }
}

fn has_spaces(alloc: Global, program: &str, script: &str, want: &str) -> Result<bool, Fail> {
    match judged(alloc, program, script, None)? {
        Some(Ok(mapped)) => {
            let spaced = spaces(alloc, mapped)?;
            Ok(spaced.spaces.iter().map(letter).eq(want.bytes()))
        }
        _ => Ok(false),
    }
}

#[test]
fn the_first_broken_rule_is_told(rt: HostRuntime) -> Result<(), Fail> {
    for (program, script, digits, rule) in BROKEN {
        let judged = judged(rt.alloc(), program, script, None)?;
        assert!(rt; breaks(judged, digits, rule), "{script}");
    }
    for (program, script, digits, rule) in BROKEN_IN_ROWS {
        let judged = judged(rt.alloc(), program, script, None)?;
        assert!(rt; breaks(judged, digits, rule), "{script}");
    }
    for (program, script, digits, rule) in BROKEN_BY_VECTORS {
        let judged = judged(rt.alloc(), program, script, None)?;
        assert!(rt; breaks(judged, digits, rule), "{script}");
    }
    Ok(())
}

// A size above 1 is refused at the root, behind the root's own rules and before all nodes below it.
#[test]
fn no_item_of_a_fixed_size_is_idle(rt: HostRuntime) -> Result<(), Fail> {
    for (program, script, local, digits, rule) in BROKEN_WITH_A_SIZE {
        let judged = judged(rt.alloc(), program, script, Some(local))?;
        assert!(rt; breaks(judged, digits, rule), "{script}");
    }
    for (program, script, local) in LEGAL_WITH_A_SIZE {
        let judged = judged(rt.alloc(), program, script, Some(local))?;
        assert!(rt; keeps_size(judged, local), "{script}");
    }
    Ok(())
}

#[test]
fn computing_nodes_have_their_spaces(rt: HostRuntime) -> Result<(), Fail> {
    for (program, script, want) in LEGAL {
        assert!(rt; has_spaces(rt.alloc(), program, script, want)?, "{script}");
    }
    for (program, script, want) in LEGAL_WITH_VECTORS {
        assert!(rt; has_spaces(rt.alloc(), program, script, want)?, "{script}");
    }
    Ok(())
}

fn is_run_by(alloc: Global, program: &str, script: &str, want: NestKind) -> Result<bool, Fail> {
    match lowered_last(alloc, program, script)? {
        Some(lowered) => Ok(nest_kind(&lowered.term) == want),
        None => Ok(false),
    }
}

#[test]
fn the_map_on_top_tells_who_runs_a_term(rt: HostRuntime) -> Result<(), Fail> {
    for (program, script, want) in KINDS {
        assert!(rt; is_run_by(rt.alloc(), program, script, want)?, "{script}");
    }
    Ok(())
}
