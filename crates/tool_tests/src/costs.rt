//! What kernels cost, worked out by hand from their loops.
use crate::call::{Call, FIRST, PROGRAM, RUN, SCRIPT};
use std::alloc::{AllocError, Global};
use std::test::Fail;

const COST: [&str; 4] = ["cost", "p.lift", "s.lift", "l.json"];

const BY_ITEMS: [&str; 5] = ["cost", "p.lift", "s.lift", "l.json", "--items"];

const STENCIL: &str =
    "size N multiple 2 from 2 to 4096; input xs: [u32; N]; output join(map(\\w. reduce(add, 0, w), slide(3, 1, pad(1, 1, xs))))";

// Tiles of two windows, copied to local memory.
const TILES: &str =
    "at 0.0 tile-slide 2\nat 0 map-join\nat 0.0 fuse-map\nat 0.0.1 let-inline\nat 0.0.1.0.0 local-copy\nat 0.0.1.1 reduce-fold\nat 0.0.1.1 fold-seq\nat 0.0.1 to-lcl\nat 0.0 to-wrg";

const SUM: &str = "input xs: [u32; 4]; output reduce(add, 5, xs)";

// The sums of two chunks, kept in private memory.
const CHUNKS: &str =
    "at . split-reduce 2\nat . reduce-fold\nat 0.0.1 reduce-fold\nat 0.0.1 fold-seq\nat 0.0 to-seq\nat 0 private\nat . fold-seq";

const SCALE: &str =
    "size N multiple 4 from 4 to 1000;\ninput xs: [u32; N];\noutput map(\\x. add(x, 1), xs)";

const MATRIX: &str =
    "size M from 1 to 32767; size N from 1 to 65536; input xs: [[u32; N]; M]; output map(\\r. reduce(add, 0, r), xs)";

// A program, a script, a launch file, and the lines of its cost, item by item.
type Row = (&'static str, &'static str, &'static str, &'static str);

const ROWS: [Row; 9] = [
    // One item takes all three turns, each with a load and a store.
    (
        PROGRAM,
        SCRIPT,
        "{\"global\":1,\"local\":1,\"sizes\":{\"N\":3}}",
        "item 0: global loads 3, global stores 3, local loads 0, local stores 0\ncost: global loads 3, global stores 3, local loads 0, local stores 0, releases 0\n",
    ),
    // Five elements by four items: the first takes two turns.
    (
        PROGRAM,
        "at . to-glb",
        "{\"global\":4,\"local\":2,\"sizes\":{\"N\":5}}",
        "item 0: global loads 2, global stores 2, local loads 0, local stores 0\nitem 1: global loads 1, global stores 1, local loads 0, local stores 0\nitem 2: global loads 1, global stores 1, local loads 0, local stores 0\nitem 3: global loads 1, global stores 1, local loads 0, local stores 0\ncost: global loads 5, global stores 5, local loads 0, local stores 0, releases 0\n",
    ),
    // Fewer elements than items.
    (
        PROGRAM,
        "at . to-glb",
        "{\"global\":3,\"local\":1,\"sizes\":{\"N\":1}}",
        "item 0: global loads 1, global stores 1, local loads 0, local stores 0\nitem 1: global loads 0, global stores 0, local loads 0, local stores 0\nitem 2: global loads 0, global stores 0, local loads 0, local stores 0\ncost: global loads 1, global stores 1, local loads 0, local stores 0, releases 0\n",
    ),
    // Three tiles by one group of two: in each an item copies two of four cells, and adds up three
    // for one; a barrier stands between, and one closes the turn.
    (
        STENCIL,
        TILES,
        "{\"global\":2,\"local\":2,\"sizes\":{\"N\":6}}",
        "item 0: global loads 6, global stores 3, local loads 9, local stores 6\nitem 1: global loads 6, global stores 3, local loads 9, local stores 6\ncost: global loads 12, global stores 6, local loads 18, local stores 12, releases 6\n",
    ),
    // Two tiles by three groups of three: an item without a window copies one cell and stores none,
    // and the last group has no turn.
    (
        STENCIL,
        TILES,
        "{\"global\":9,\"local\":3,\"sizes\":{\"N\":4}}",
        "item 0: global loads 2, global stores 1, local loads 3, local stores 2\nitem 1: global loads 1, global stores 1, local loads 3, local stores 1\nitem 2: global loads 1, global stores 0, local loads 0, local stores 1\nitem 3: global loads 2, global stores 1, local loads 3, local stores 2\nitem 4: global loads 1, global stores 1, local loads 3, local stores 1\nitem 5: global loads 1, global stores 0, local loads 0, local stores 1\nitem 6: global loads 0, global stores 0, local loads 0, local stores 0\nitem 7: global loads 0, global stores 0, local loads 0, local stores 0\nitem 8: global loads 0, global stores 0, local loads 0, local stores 0\ncost: global loads 8, global stores 4, local loads 12, local stores 8, releases 4\n",
    ),
    // Without tiles an item loads all of its window.
    (
        STENCIL,
        "at 0.1 reduce-fold\nat 0.1 fold-seq\nat 0 to-glb",
        "{\"global\":4,\"local\":2,\"sizes\":{\"N\":4}}",
        "item 0: global loads 3, global stores 1, local loads 0, local stores 0\nitem 1: global loads 3, global stores 1, local loads 0, local stores 0\nitem 2: global loads 3, global stores 1, local loads 0, local stores 0\nitem 3: global loads 3, global stores 1, local loads 0, local stores 0\ncost: global loads 12, global stores 4, local loads 0, local stores 0, releases 0\n",
    ),
    // The sums of two chunks go to private memory and come from there: neither is counted.
    (
        SUM,
        CHUNKS,
        "{\"global\":1,\"local\":1,\"sizes\":{}}",
        "item 0: global loads 4, global stores 1, local loads 0, local stores 0\ncost: global loads 4, global stores 1, local loads 0, local stores 0, releases 0\n",
    ),
    // A group of four for each four elements: an item has one turn of each map in a group's turn.
    (
        SCALE,
        "launch local 4\nat . split-map 4\nat 0.1.0 local-copy\nat 0.1 to-lcl\nat 0 to-wrg",
        "{\"global\":4,\"local\":4,\"sizes\":{\"N\":8}}",
        "item 0: global loads 2, global stores 2, local loads 2, local stores 2\nitem 1: global loads 2, global stores 2, local loads 2, local stores 2\nitem 2: global loads 2, global stores 2, local loads 2, local stores 2\nitem 3: global loads 2, global stores 2, local loads 2, local stores 2\ncost: global loads 8, global stores 8, local loads 8, local stores 8, releases 0\n",
    ),
    // 2147418112 elements, of which none is given: an item of two adds up 16384 rows or one less.
    (
        MATRIX,
        "at 1 reduce-fold\nat 1 fold-seq\nat . to-glb",
        "{\"global\":2,\"local\":1,\"sizes\":{\"M\":32767,\"N\":65536}}",
        "item 0: global loads 1073741824, global stores 16384, local loads 0, local stores 0\nitem 1: global loads 1073676288, global stores 16383, local loads 0, local stores 0\ncost: global loads 2147418112, global stores 32767, local loads 0, local stores 0, releases 0\n",
    ),
];

fn cost_so(alloc: Global) -> Result<bool, AllocError> {
    for (program, script, launch, lines) in ROWS {
        let call = Call {
            program,
            script,
            launch,
            ..FIRST
        };
        if !call.ends(alloc, &BY_ITEMS, 0, lines, "")? {
            return Ok(false);
        }
    }
    Ok(true)
}

#[test]
fn kernels_cost_what_their_loops_say(rt: HostRuntime) -> Result<(), Fail> {
    assert!(rt; cost_so(rt.alloc())?);
    Ok(())
}

#[test]
fn without_items_there_is_the_line_of_all(rt: HostRuntime) -> Result<(), Fail> {
    let call = Call {
        program: STENCIL,
        script: TILES,
        launch: "{\"global\":2,\"local\":2,\"sizes\":{\"N\":6}}",
        ..FIRST
    };
    let line =
        "cost: global loads 12, global stores 6, local loads 18, local stores 12, releases 6\n";
    assert!(rt; call.ends(rt.alloc(), &COST, 0, line, "")?);
    Ok(())
}

// Inputs and schedules that a run refuses.
const PASSED_OVER: [&str; 3] = [
    "{\"global\":1,\"local\":1,\"sizes\":{\"N\":3},\"inputs\":7}",
    "{\"global\":1,\"local\":1,\"sizes\":{\"N\":3},\"inputs\":{\"xs\":[1,2]}}",
    "{\"global\":1,\"local\":1,\"sizes\":{\"N\":3},\"inputs\":{\"xs\":[1,2,3]},\"schedule\":7}",
];

fn are_passed_over(alloc: Global) -> Result<bool, AllocError> {
    let line = "cost: global loads 3, global stores 3, local loads 0, local stores 0, releases 0\n";
    for launch in PASSED_OVER {
        let call = Call { launch, ..FIRST };
        if call.is_accepted(alloc, &RUN)? || !call.ends(alloc, &COST, 0, line, "")? {
            return Ok(false);
        }
    }
    Ok(true)
}

#[test]
fn inputs_and_schedules_are_passed_over(rt: HostRuntime) -> Result<(), Fail> {
    assert!(rt; are_passed_over(rt.alloc())?);
    Ok(())
}

// A launch file, and its line.
const REFUSED: [(&str, &str); 6] = [
    (
        "{\"global\":1,\"local\":1,\"sizes\":{\"N\":3}",
        "lift: launch: not json\n",
    ),
    (
        "{\"global\":1,\"sizes\":{\"N\":3}}",
        "lift: launch: missing local\n",
    ),
    (
        "{\"global\":1,\"local\":1,\"sizes\":{}}",
        "lift: launch: missing sizes.N\n",
    ),
    (
        "{\"global\":1,\"local\":1,\"sizes\":{\"N\":0}}",
        "lift: launch: size N is 0\n",
    ),
    (
        "{\"global\":6,\"local\":4,\"sizes\":{\"N\":3}}",
        "lift: launch: global 6, local 4\n",
    ),
    (
        "{\"global\":2,\"local\":1,\"sizes\":{\"N\":3}}",
        "lift: launch: global 2 for one item\n",
    ),
];

fn are_refused(alloc: Global) -> Result<bool, AllocError> {
    for (launch, line) in REFUSED {
        if !(Call { launch, ..FIRST }).ends(alloc, &COST, 12, "", line)? {
            return Ok(false);
        }
    }
    Ok(true)
}

#[test]
fn all_else_of_a_launch_file_is_judged(rt: HostRuntime) -> Result<(), Fail> {
    assert!(rt; are_refused(rt.alloc())?);
    Ok(())
}

#[test]
fn a_term_of_several_kernels_is_refused(rt: HostRuntime) -> Result<(), Fail> {
    let call = Call {
        script: "at 0 copy\nat 0 to-glb\nat 0 then\nat . to-glb",
        ..FIRST
    };
    assert!(rt; call.ends(rt.alloc(), &COST, 11, "", "lift: nest: N13 at 0\n")?);
    Ok(())
}
