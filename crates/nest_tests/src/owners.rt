//! Owners of cells, at launches of each kind.

ghost use Rattle.std.specs.Prelude.{◌≡◌, true};
ghost use Rattle.kernel_tree.specs.Launch.{IsDivided};

use crate::lowering::lowered_last;
use kernel_tree::launches::Launch;
use output_owner::owner;
use std::alloc::Global;
use std::test::Fail;

// A program, a script, the launch's sizes and its work-items in all and in a group, along a row and
// from row to row, and each cell's owner.
struct Row {
    program: &'static str,
    script: &'static str,
    sizes: &'static [u32],
    global: (u32, u32),
    local: (u32, u32),
    owners: &'static [u32],
}

const ADDED: &str = "size N from 1 to 1000; input xs: [u32; N]; output map(\\x. add(x, 1), xs)";

const SUMS: &str =
    "size N multiple 2 from 2 to 4096; input xs: [u32; N]; output join(map(\\w. reduce(add, 0, w), slide(3, 1, pad(1, 1, xs))))";

const TILED: &str =
    "at 0.0 tile-slide 2\nat 0 map-join\nat 0.0 fuse-map\nat 0.0.1 let-inline\nat 0.0.1.0.0 local-copy\nat 0.0.1.1 reduce-fold\nat 0.0.1.1 fold-seq\nat 0.0.1 to-lcl\nat 0.0 to-wrg";

const COPIED: &str = "at . split-map 2\nat 0.1.0 local-copy\nat 0.1 to-lcl\nat 0 to-wrg";

const TURNED: &str = "input xs: [[u32; 3]; 2]; output transpose(map(\\r. map(\\x. x, r), xs))";

const ROWS: [Row; 16] = [
    // One work-item has all.
    Row {
        program: ADDED,
        script: "at . to-seq",
        sizes: &[3],
        global: (1, 1),
        local: (1, 1),
        owners: &[0, 0, 0],
    },
    // Item i mod 4 has cell i.
    Row {
        program: ADDED,
        script: "at . to-glb",
        sizes: &[5],
        global: (4, 1),
        local: (2, 1),
        owners: &[0, 1, 2, 3, 0],
    },
    // Tiles of two cells, by one group.
    Row {
        program: SUMS,
        script: TILED,
        sizes: &[6],
        global: (2, 1),
        local: (2, 1),
        owners: &[0, 1, 0, 1, 0, 1],
    },
    // Two tiles by the first two of five groups of three items.
    Row {
        program: SUMS,
        script: TILED,
        sizes: &[4],
        global: (15, 1),
        local: (3, 1),
        owners: &[0, 1, 3, 4],
    },
    // Three tiles by two groups in turn.
    Row {
        program: SUMS,
        script: TILED,
        sizes: &[6],
        global: (4, 1),
        local: (2, 1),
        owners: &[0, 1, 2, 3, 0, 1],
    },
    Row {
        program: "size N multiple 2 from 2 to 1000; input xs: [u32; N]; output map(\\x. add(x, 1), xs)",
        script: COPIED,
        sizes: &[4],
        global: (4, 1),
        local: (2, 1),
        owners: &[0, 1, 2, 3],
    },
    // Rows are spread over two items, and stand in columns.
    Row {
        program: TURNED,
        script: "at 0.1 to-seq\nat 0 to-glb",
        sizes: &[],
        global: (2, 1),
        local: (1, 1),
        owners: &[0, 1, 0, 1, 0, 1],
    },
    // Cell i is written in turn 4 - i.
    Row {
        program: "input xs: [u32; 5]; output reverse(map(\\x. add(x, 1), xs))",
        script: "at 0 to-glb",
        sizes: &[],
        global: (4, 1),
        local: (2, 1),
        owners: &[0, 3, 2, 1, 0],
    },
    // The cells are written in the turns 0, 2, 4, 1, 3, 5.
    Row {
        program: "input xs: [u32; 6]; output stride(2, map(\\x. add(x, 1), xs))",
        script: "at 0 to-glb",
        sizes: &[],
        global: (4, 1),
        local: (2, 1),
        owners: &[0, 2, 0, 1, 3, 1],
    },
    // Cell i is written in turn 2 - i, and the fourth item has no turn.
    Row {
        program: "input xs: [u32; 3]; output reverse(map(\\x. add(x, 1), xs))",
        script: "at 0 to-glb",
        sizes: &[],
        global: (4, 1),
        local: (1, 1),
        owners: &[2, 1, 0],
    },
    // Whole rows are turned round.
    Row {
        program: "input xs: [[u32; 3]; 2]; output reverse(map(\\r. map(\\x. x, r), xs))",
        script: "at 0.1 to-seq\nat 0 to-glb",
        sizes: &[],
        global: (2, 1),
        local: (1, 1),
        owners: &[1, 1, 1, 0, 0, 0],
    },
    // Rows of two cells, by steps of a size that is 3: in the turns 0, 3, 1, 4, 2, 5.
    Row {
        program: "size N from 1 to 100; input xs: [[u32; 2]; 2*N]; output stride(N, map(\\r. map(\\x. x, r), xs))",
        script: "at 0.1 to-seq\nat 0 to-glb",
        sizes: &[3],
        global: (4, 1),
        local: (1, 1),
        owners: &[0, 0, 3, 3, 1, 1, 0, 0, 2, 2, 1, 1],
    },
    // Cell (i1, i0) of a pair of maps is item (i0 mod 2, i1 mod 2)'s, and two items are in a row.
    Row {
        program: "input xs: [[u32; 3]; 2]; output map(\\r. map(\\x. add(x, 1), r), xs)",
        script: "at 1 to-glb\nat . to-glb1",
        sizes: &[],
        global: (2, 2),
        local: (1, 1),
        owners: &[0, 1, 0, 2, 3, 2],
    },
    // The same in columns.
    Row {
        program: TURNED,
        script: "at 0.1 to-glb\nat 0 to-glb1",
        sizes: &[],
        global: (2, 2),
        local: (2, 1),
        owners: &[0, 2, 1, 3, 0, 2],
    },
    // All rows are one row's.
    Row {
        program: TURNED,
        script: "at 0.1 to-glb\nat 0 to-glb1",
        sizes: &[],
        global: (2, 1),
        local: (1, 1),
        owners: &[0, 0, 1, 1, 0, 0],
    },
    // Tiles of three rows of two cells, by two rows of two groups, of two rows of two items each.
    Row {
        program: "input xs: [[[[u32; 2]; 3]; 3]; 3]; output map(\\a. map(\\b. map(\\c. map(\\d. d, c), b), a), xs)",
        script: "at 1.1.1 to-lcl\nat 1.1 to-lcl1\nat 1 to-wrg\nat . to-wrg1",
        sizes: &[],
        global: (4, 4),
        local: (2, 2),
        owners: &[
            0, 1, 4, 5, 0, 1, 2, 3, 6, 7, 2, 3, 0, 1, 4, 5, 0, 1, 8, 9, 12, 13, 8, 9, 10, 11, 14,
            15, 10, 11, 8, 9, 12, 13, 8, 9, 0, 1, 4, 5, 0, 1, 2, 3, 6, 7, 2, 3, 0, 1, 4, 5, 0, 1,
        ],
    },
];

// Whether so many columns or rows of work-items make up whole groups of so many.
fn is_divided(global: u32, local: u32) -> bool
    ensures { result ≡ true → IsDivided global local }
{
    local > 0 && global / local * local == global
}

fn has_owners(alloc: Global, row: &Row) -> Result<bool, Fail> {
    let Some(lowered) = lowered_last(alloc, row.program, row.script)? else {
        return Ok(false);
    };
    let (columns, rows) = row.global;
    let (across, down) = row.local;
    if columns == 0 || rows == 0 || !is_divided(columns, across) || !is_divided(rows, down) {
        return Ok(false);
    }
    let launch = Launch {
        global: (columns, rows),
        local: (across, down),
        sizes: row.sizes.to_vec(alloc)?,
    };
    for (cell, item) in row.owners.iter().enumerate() {
        if owner(&lowered, &launch, cell as u64) != *item {
            return Ok(false);
        }
    }
    Ok(true)
}

#[test]
fn each_cell_has_its_owner(rt: HostRuntime) -> Result<(), Fail> {
    for row in &ROWS {
        assert!(rt; has_owners(rt.alloc(), row)?);
    }
    Ok(())
}
