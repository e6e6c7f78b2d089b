//! Launch files of several kernels in order.

ghost use Rattle.lift_tree.specs.Limits.{HasProperInputs};
ghost use Rattle.lift_tree.specs.Programs.{program_of};

use crate::launch_files::{Asked, Reading, ask_for, line_bytes, schedule_text, typed, with_inputs};
use launch_file::file::Ask;
use launch_file::stages::{StagesFile, read_stages};
use lift_tree::program::Program;
use std::alloc::{AllocError, Global};
use std::test::Fail;

const NUMBERS: &str = "size N from 1 to 1000; input xs: [u32; N]; output xs";

const GROUPS: Reading = Reading::Run(Asked {
    alone: false,
    flat: true,
    local: None,
});

const TASK: Reading = Reading::Run(Asked {
    alone: true,
    flat: false,
    local: None,
});

const BY_TWO: Reading = Reading::Run(Asked {
    alone: false,
    flat: true,
    local: Some((2, 1)),
});

// Two kernels, of which the second is for one work-item.
const TWO: [Reading; 2] = [GROUPS, TASK];

// Two kernels of groups of two.
const PAIRS: [Reading; 2] = [BY_TWO, BY_TWO];

// Two kernels, of which the first is of rows of groups.
const ROWS: [Reading; 2] = [
    Reading::Run(Asked {
        alone: false,
        flat: false,
        local: None,
    }),
    GROUPS,
];

// The work-items of each kernel, and then what all of them share.
fn head_text(alloc: Global, file: &StagesFile) -> Result<String, AllocError> {
    let mut text = String::new(alloc);
    for count in &file.counts {
        let (global, rows) = count.global;
        let (local, local_rows) = count.local;
        text.push_str(format!(in alloc; "{global}x{rows} by {local}x{local_rows}, ")?.as_str())?;
    }
    let sizes = file.shared.sizes.as_slice();
    let bases = file.shared.bases.as_slice();
    let schedule = schedule_text(alloc, &file.shared.schedule)?;
    text.push_str(format!(in alloc; "{sizes:?} {bases:?} {schedule} ")?.as_str())?;
    Ok(text)
}

// What the kernels are given, or the line that refuses the text.
fn answer(alloc: Global, program: &Program, asks: &[Ask], text: &str) -> Result<Vec<u8>, AllocError>
    requires { HasProperInputs (program_of program.now) }
{
    match read_stages(alloc, text.as_bytes(), program, asks) {
        Ok(file) => with_inputs(
            alloc,
            head_text(alloc, &file)?.as_str(),
            &file.shared.inputs,
        ),
        Err(no) => line_bytes(alloc, &no.line(program)),
    }
}

fn gives(alloc: Global, readings: &[Reading; 2], text: &str, wanted: &str) -> bool {
    let Some(typed) = typed(alloc, NUMBERS) else {
        return false;
    };
    let asks = [ask_for(readings[0]), ask_for(readings[1])];
    match answer(alloc, &typed.program, asks.as_slice(), text) {
        Ok(given) => given.as_slice() == wanted.as_bytes(),
        Err(_) => false,
    }
}

const ANSWERS: &[([Reading; 2], &str, &str)] = &[
    (
        TWO,
        "{\"launches\":[{\"global\":4,\"local\":2},{\"global\":1,\"local\":1}],\"sizes\":{\"N\":2},\"inputs\":{\"xs\":[3,4]}}",
        "4x1 by 2x1, 1x1 by 1x1, [2] [2] [] {\"value\":[3,4]}\n",
    ),
    // `global` and `local` beside `launches` are passed over
    (
        TWO,
        "{\"global\":\"x\",\"local\":0,\"schedule\":[5,6],\"launches\":[{\"global\":2,\"local\":2},{\"global\":1,\"local\":1}],\"sizes\":{\"N\":1},\"inputs\":{\"xs\":[9]}}",
        "2x1 by 2x1, 1x1 by 1x1, [1] [1] [5, 6] {\"value\":[9]}\n",
    ),
    (
        PAIRS,
        "{\"schedule\":{\"seed\":7},\"launches\":[{\"global\":2,\"local\":2},{\"global\":4,\"local\":2}],\"sizes\":{\"N\":1},\"inputs\":{\"xs\":[9]}}",
        "2x1 by 2x1, 4x1 by 2x1, [1] [1] seed 7 {\"value\":[9]}\n",
    ),
    (TWO, "7", "lift: launch: not json"),
    // the list isn't there, is of another kind or length, or has a member that is no object
    (
        TWO,
        "{\"global\":4,\"local\":2,\"sizes\":{\"N\":2},\"inputs\":{\"xs\":[3,4]}}",
        "lift: launch: missing launches",
    ),
    (TWO, "{\"launches\":{}}", "lift: launch: missing launches"),
    (
        TWO,
        "{\"launches\":[{\"global\":4,\"local\":2}],\"sizes\":{\"N\":2},\"inputs\":{\"xs\":[3,4]}}",
        "lift: launch: missing launches",
    ),
    (
        TWO,
        "{\"launches\":[{},{},{}],\"sizes\":{\"N\":2},\"inputs\":{\"xs\":[3,4]}}",
        "lift: launch: missing launches",
    ),
    (
        TWO,
        "{\"launches\":[{\"global\":4,\"local\":2},1],\"sizes\":{\"N\":2},\"inputs\":{\"xs\":[3,4]}}",
        "lift: launch: missing launches",
    ),
    (
        TWO,
        "{\"launches\":[{},{}],\"inputs\":[]}",
        "lift: launch: missing sizes",
    ),
    (
        TWO,
        "{\"launches\":[{},{}],\"sizes\":{\"N\":0},\"inputs\":{},\"schedule\":1}",
        "lift: launch: missing schedule",
    ),
    // sizes come before the kernels, and these in turn before the inputs
    (
        TWO,
        "{\"launches\":[{},{}],\"sizes\":{\"N\":0},\"inputs\":{}}",
        "lift: launch: size N is 0",
    ),
    (
        TWO,
        "{\"launches\":[{\"local\":2},{}],\"sizes\":{\"N\":2},\"inputs\":{}}",
        "lift: launch: missing launches.0.global",
    ),
    (
        TWO,
        "{\"launches\":[{\"global\":4},{}],\"sizes\":{\"N\":2},\"inputs\":{}}",
        "lift: launch: missing launches.0.local",
    ),
    (
        TWO,
        "{\"launches\":[{\"global\":4,\"local\":3},{}],\"sizes\":{\"N\":2},\"inputs\":{}}",
        "lift: launch: global 4, local 3",
    ),
    (
        TWO,
        "{\"launches\":[{\"global\":4,\"local\":2},{\"global\":-1}],\"sizes\":{\"N\":2},\"inputs\":{}}",
        "lift: launch: missing launches.1.global",
    ),
    (
        TWO,
        "{\"launches\":[{\"global\":4,\"local\":2},{\"global\":2,\"local\":1}],\"sizes\":{\"N\":2},\"inputs\":{}}",
        "lift: launch: global 2 for one item",
    ),
    (
        PAIRS,
        "{\"launches\":[{\"global\":4,\"local\":2},{\"global\":4,\"local\":4}],\"sizes\":{\"N\":2},\"inputs\":{}}",
        "lift: launch: global 4, local 4",
    ),
    (
        PAIRS,
        "{\"launches\":[{\"global\":4,\"local\":2},{\"global\":4,\"local\":2}],\"sizes\":{\"N\":2},\"inputs\":{\"xs\":[3]}}",
        "lift: launch: shape xs",
    ),
    // pairs of each
    (
        ROWS,
        "{\"launches\":[{\"global\":[4,6],\"local\":[2,3]},{\"global\":[4,1],\"local\":2}],\"sizes\":{\"N\":2},\"inputs\":{\"xs\":[3,4]}}",
        "4x6 by 2x3, 4x1 by 2x1, [2] [2] [] {\"value\":[3,4]}\n",
    ),
    (
        ROWS,
        "{\"launches\":[{\"global\":4,\"local\":2},{\"global\":[4,6],\"local\":[2,3]}],\"sizes\":{\"N\":2},\"inputs\":{}}",
        "lift: launch: rows 6 for one row",
    ),
    (
        ROWS,
        "{\"launches\":[{\"global\":[4,6],\"local\":[3,3]},{}],\"sizes\":{\"N\":2},\"inputs\":{}}",
        "lift: launch: global [4,6], local [3,3]",
    ),
    (
        ROWS,
        "{\"launches\":[{\"global\":[4,6,1],\"local\":2},{}],\"sizes\":{\"N\":2},\"inputs\":{}}",
        "lift: launch: missing launches.0.global",
    ),
];

#[test]
fn files_of_kernels_in_order_are_read_or_refused(rt: HostRuntime) -> Result<(), Fail> {
    for (readings, text, wanted) in ANSWERS {
        assert!(rt; gives(rt.alloc(), readings, text, wanted), "{text}");
    }
    Ok(())
}
