//! Launch files of programs, and the lines that tell of them.

ghost use Rattle.std.specs.Prelude.{IfSome};
ghost use Rattle.lift_tree.specs.Limits.{HasProperInputs};
ghost use Rattle.lift_tree.specs.Programs.{program_of};

use kernel_tree::launches::Schedule;
use launch_file::file::{Ask, LaunchFile, read_launch};
use launch_file::line::{Detail, Line};
use launch_file::result::result_text;
use lift_reader::program::read_program;
use lift_tree::asks::Asks;
use lift_tree::local_size::LocalSize;
use lift_tree::program::Program;
use lift_tree::typed::Typed;
use lift_tree::value::Val;
use pattern_types::type_of;
use std::alloc::{AllocError, Global};
use std::test::Fail;

/// What is asked of a launch: one work-item alone, one row of them, and a local size.
#[derive(Clone, Copy)]
pub struct Asked {
    pub alone: bool,
    pub flat: bool,
    pub local: Option<(u32, u32)>,
}

/// What a launch file is read for.
#[derive(Clone, Copy)]
pub enum Reading {
    Run(Asked),
    Eval,
    Cost(Asked),
}

const ONE: Asked = Asked {
    alone: true,
    flat: false,
    local: None,
};

const TASK: Reading = Reading::Run(ONE);

const GROUPS: Reading = Reading::Run(Asked {
    alone: false,
    flat: true,
    local: None,
});

const BY_TWO: Asked = Asked {
    alone: false,
    flat: true,
    local: Some((2, 1)),
};

// A script fixes groups of two.
const PAIRS: Reading = Reading::Run(BY_TWO);

// A script fixes groups of one, for one work-item.
const ALONE: Reading = Reading::Run(Asked {
    alone: true,
    flat: false,
    local: Some((1, 1)),
});

// Rows of groups, of any size, or of three rows of two.
const ROWS: Reading = Reading::Run(Asked {
    alone: false,
    flat: false,
    local: None,
});

const THREE_ROWS: Reading = Reading::Run(Asked {
    alone: false,
    flat: false,
    local: Some((2, 3)),
});

// The cost of one work-item's kernel, and that of a kernel by groups of two.
const COST_OF_TASK: Reading = Reading::Cost(ONE);

const COST_OF_PAIRS: Reading = Reading::Cost(BY_TWO);

fn asks(asked: Asked) -> Asks {
    Asks {
        alone: asked.alone,
        flat: asked.flat,
        local: match asked.local {
            Some((across, down)) => LocalSize::new(across, down),
            None => None,
        },
    }
}

/// What a file that is read for this has to meet.
pub fn ask_for(reading: Reading) -> Ask {
    match reading {
        Reading::Run(asked) => Ask::Run(asks(asked)),
        Reading::Eval => Ask::Eval,
        Reading::Cost(asked) => Ask::Cost(asks(asked)),
    }
}

const NUMBERS: &str = "size N from 1 to 1000; input xs: [u32; N]; output xs";

const TABLES: &str =
    "size N multiple 2 from 2 to 8; size M from 1 to 3; input xs: [u32; N]; input ps: [[(u32, u32); 2]; N - 1]; output xs";

pub fn typed(alloc: Global, text: &str) -> Option<Typed>
    ensures { IfSome result (λ t. HasProperInputs (program_of t.program)) }
{
    let Ok(program) = read_program(alloc, text.as_bytes()) else {
        return None;
    };
    let Ok(body) = program.body.copy(alloc) else {
        return None;
    };
    type_of(alloc, program, body).ok()
}

fn push_detail(alloc: Global, text: &mut Vec<u8>, detail: Detail<'_>) -> Result<(), AllocError> {
    match detail {
        Detail::Nothing => Ok(()),
        Detail::Name(name) => text.extend_from_slice(name),
        Detail::Number(number) | Detail::Pair(number, 1) => {
            text.extend_from_slice(format!(in alloc; "{number}")?.as_str().as_bytes())
        }
        Detail::Pair(across, down) => {
            text.extend_from_slice(format!(in alloc; "[{across},{down}]")?.as_str().as_bytes())
        }
    }
}

pub fn line_bytes(alloc: Global, line: &Line<'_>) -> Result<Vec<u8>, AllocError> {
    let mut text = Vec::from_slice(alloc, line.head)?;
    push_detail(alloc, &mut text, line.first)?;
    text.extend_from_slice(line.between)?;
    push_detail(alloc, &mut text, line.second)?;
    Ok(text)
}

pub fn schedule_text(alloc: Global, schedule: &Schedule) -> Result<String, AllocError> {
    match schedule {
        Schedule::Numbers(numbers) => format!(in alloc; "{numbers:?}"),
        Schedule::Seed(seed) => format!(in alloc; "seed {seed}"),
    }
}

fn head_text(alloc: Global, file: &LaunchFile) -> Result<String, AllocError> {
    let (global, rows) = file.launch.global;
    let (local, local_rows) = file.launch.local;
    let sizes = file.launch.sizes.as_slice();
    let bases = file.sizes.as_slice();
    let schedule = schedule_text(alloc, &file.schedule)?;
    format!(in alloc; "{global}x{rows} {local}x{local_rows} {sizes:?} {bases:?} {schedule} ")
}

// The head, and behind it the inputs as result lines.
pub fn with_inputs(alloc: Global, head: &str, inputs: &[Val]) -> Result<Vec<u8>, AllocError> {
    let mut text = Vec::from_slice(alloc, head.as_bytes())?;
    for input in inputs {
        text.extend_from_slice(&result_text(alloc, input, None)?)?;
    }
    Ok(text)
}

// What a launch text gives for the program, or the line that refuses it.
fn answer(alloc: Global, program: &Program, ask: Ask, text: &str) -> Result<Vec<u8>, AllocError>
    requires { HasProperInputs (program_of program.now) }
{
    match read_launch(alloc, text.as_bytes(), program, ask) {
        Ok(file) => with_inputs(alloc, head_text(alloc, &file)?.as_str(), &file.inputs),
        Err(no) => line_bytes(alloc, &no.line(program)),
    }
}

fn gives(alloc: Global, program: &str, reading: Reading, text: &str, wanted: &str) -> bool {
    let Some(typed) = typed(alloc, program) else {
        return false;
    };
    match answer(alloc, &typed.program, ask_for(reading), text) {
        Ok(given) => given.as_slice() == wanted.as_bytes(),
        Err(_) => false,
    }
}

const ANSWERS: &[(Reading, &str, &str)] = &[
    (
        TASK,
        "{\"global\":1,\"local\":1,\"sizes\":{\"N\":3},\"inputs\":{\"xs\":[1,2,4294967295]}}",
        "1x1 1x1 [3] [3] [] {\"value\":[1,2,4294967295]}\n",
    ),
    (
        TASK,
        "{\"global\":1,\"local\":1,\"sizes\":{\"N\":0},\"inputs\":{\"xs\":[]}}",
        "lift: launch: size N is 0",
    ),
    (
        TASK,
        "{\"global\":1,\"local\":1,\"sizes\":{\"N\":1001},\"inputs\":{\"xs\":[1]}}",
        "lift: launch: size N is 1001",
    ),
    (
        TASK,
        "{\"global\":2,\"local\":1,\"sizes\":{\"N\":1},\"inputs\":{\"xs\":[7]}}",
        "lift: launch: global 2 for one item",
    ),
    (
        GROUPS,
        "{\"global\":6,\"local\":4,\"sizes\":{\"N\":5},\"inputs\":{\"xs\":[1,2,3,4,5]}}",
        "lift: launch: global 6, local 4",
    ),
    (
        TASK,
        "{\"global\":1,\"local\":1,\"sizes\":{\"N\":3},\"inputs\":{\"xs\":[1,2]}}",
        "lift: launch: shape xs",
    ),
    (
        PAIRS,
        "{\"global\":4,\"local\":2,\"sizes\":{\"N\":2},\"inputs\":{\"xs\":[3,4]}}",
        "4x1 2x1 [2] [2] [] {\"value\":[3,4]}\n",
    ),
    (
        PAIRS,
        "{\"global\":4,\"local\":1,\"sizes\":{\"N\":2},\"inputs\":{\"xs\":[3,4]}}",
        "lift: launch: global 4, local 1",
    ),
    (
        PAIRS,
        "{\"global\":4,\"local\":4,\"sizes\":{\"N\":2},\"inputs\":{\"xs\":[3,4]}}",
        "lift: launch: global 4, local 4",
    ),
    (
        PAIRS,
        "{\"global\":4,\"local\":4,\"sizes\":{\"N\":0},\"inputs\":{\"xs\":[]}}",
        "lift: launch: size N is 0",
    ),
    (
        PAIRS,
        "{\"global\":4,\"local\":4,\"sizes\":{\"N\":2},\"inputs\":{\"xs\":[3]}}",
        "lift: launch: global 4, local 4",
    ),
    (
        ALONE,
        "{\"global\":2,\"local\":2,\"sizes\":{\"N\":1},\"inputs\":{\"xs\":[7]}}",
        "lift: launch: global 2, local 2",
    ),
    (
        ALONE,
        "{\"global\":2,\"local\":1,\"sizes\":{\"N\":1},\"inputs\":{\"xs\":[7]}}",
        "lift: launch: global 2 for one item",
    ),
    (
        TASK,
        "{\"global\":1,\"local\":1,\"sizes\":{\"N\":3},\"inputs\":{\"xs\":[1,4294967296,3]}}",
        "lift: launch: shape xs",
    ),
    (
        TASK,
        "{\"global\":1,\"local\":1,\"sizes\":{\"N\":3},\"inputs\":{\"xs\":[1,2,3]}",
        "lift: launch: not json",
    ),
    (
        TASK,
        "{\"global\":1,\"sizes\":{\"N\":3},\"inputs\":{\"xs\":[1,2,3]}}",
        "lift: launch: missing local",
    ),
    (
        Reading::Eval,
        "{\"global\":-1,\"schedule\":7,\"sizes\":{\"N\":1},\"inputs\":{\"xs\":[7],\"ys\":8}}",
        "1x1 1x1 [1] [1] [] {\"value\":[7]}\n",
    ),
    // a cost passes over inputs and schedule, and over nothing else
    (
        COST_OF_PAIRS,
        "{\"global\":4,\"local\":2,\"schedule\":7,\"sizes\":{\"N\":9},\"inputs\":{\"xs\":[1]}}",
        "4x1 2x1 [9] [9] [] ",
    ),
    (
        COST_OF_TASK,
        "{\"global\":1,\"local\":1,\"sizes\":{\"N\":9}}",
        "1x1 1x1 [9] [9] [] ",
    ),
    (
        COST_OF_PAIRS,
        "{\"global\":4,\"local\":4,\"sizes\":{\"N\":9}}",
        "lift: launch: global 4, local 4",
    ),
    (
        COST_OF_TASK,
        "{\"global\":2,\"local\":1,\"sizes\":{\"N\":9}}",
        "lift: launch: global 2 for one item",
    ),
    (
        COST_OF_TASK,
        "{\"global\":1,\"local\":1,\"sizes\":{\"N\":0}}",
        "lift: launch: size N is 0",
    ),
    (
        GROUPS,
        "{\"global\":4,\"local\":2,\"schedule\":{\"seed\":7},\"sizes\":{\"N\":1},\"inputs\":{\"xs\":[7]}}",
        "4x1 2x1 [1] [1] seed 7 {\"value\":[7]}\n",
    ),
    (
        GROUPS,
        "{\"global\":4,\"local\":2,\"schedule\":[3,2],\"sizes\":{\"N\":1},\"inputs\":{\"xs\":[7]}}",
        "4x1 2x1 [1] [1] [3, 2] {\"value\":[7]}\n",
    ),
    (
        GROUPS,
        "{\"global\":512,\"local\":256,\"sizes\":{\"N\":1},\"inputs\":{\"xs\":[7]}}",
        "512x1 256x1 [1] [1] [] {\"value\":[7]}\n",
    ),
    // a pair of each; the number n is the pair of n and 1
    (
        ROWS,
        "{\"global\":[4,6],\"local\":[2,3],\"sizes\":{\"N\":1},\"inputs\":{\"xs\":[7]}}",
        "4x6 2x3 [1] [1] [] {\"value\":[7]}\n",
    ),
    (
        ROWS,
        "{\"global\":4,\"local\":2,\"sizes\":{\"N\":1},\"inputs\":{\"xs\":[7]}}",
        "4x1 2x1 [1] [1] [] {\"value\":[7]}\n",
    ),
    (
        ROWS,
        "{\"global\":[4,1],\"local\":2,\"sizes\":{\"N\":1},\"inputs\":{\"xs\":[7]}}",
        "4x1 2x1 [1] [1] [] {\"value\":[7]}\n",
    ),
    (
        ROWS,
        "{\"global\":[256,256],\"local\":[16,16],\"sizes\":{\"N\":1},\"inputs\":{\"xs\":[7]}}",
        "256x256 16x16 [1] [1] [] {\"value\":[7]}\n",
    ),
    (
        ROWS,
        "{\"global\":[1,65536],\"local\":[1,256],\"sizes\":{\"N\":1},\"inputs\":{\"xs\":[7]}}",
        "1x65536 1x256 [1] [1] [] {\"value\":[7]}\n",
    ),
    (
        THREE_ROWS,
        "{\"global\":[4,6],\"local\":[2,3],\"sizes\":{\"N\":1},\"inputs\":{\"xs\":[7]}}",
        "4x6 2x3 [1] [1] [] {\"value\":[7]}\n",
    ),
    (
        GROUPS,
        "{\"global\":[4,1],\"local\":[2,1],\"sizes\":{\"N\":1},\"inputs\":{\"xs\":[7]}}",
        "4x1 2x1 [1] [1] [] {\"value\":[7]}\n",
    ),
    (
        TASK,
        "{\"global\":[1,1],\"local\":[1,1],\"sizes\":{\"N\":1},\"inputs\":{\"xs\":[7]}}",
        "1x1 1x1 [1] [1] [] {\"value\":[7]}\n",
    ),
    // along a dimension there are none, too many in all, or no whole groups
    (
        ROWS,
        "{\"global\":[4,0],\"local\":1,\"sizes\":{\"N\":1},\"inputs\":{\"xs\":[7]}}",
        "lift: launch: global [4,0], local 1",
    ),
    (
        ROWS,
        "{\"global\":[4,6],\"local\":[0,3],\"sizes\":{\"N\":1},\"inputs\":{\"xs\":[7]}}",
        "lift: launch: global [4,6], local [0,3]",
    ),
    (
        ROWS,
        "{\"global\":[32,34],\"local\":[16,17],\"sizes\":{\"N\":1},\"inputs\":{\"xs\":[7]}}",
        "lift: launch: global [32,34], local [16,17]",
    ),
    (
        ROWS,
        "{\"global\":[256,257],\"local\":1,\"sizes\":{\"N\":1},\"inputs\":{\"xs\":[7]}}",
        "lift: launch: global [256,257], local 1",
    ),
    (
        ROWS,
        "{\"global\":[4294967296,4294967296],\"local\":1,\"sizes\":{\"N\":1},\"inputs\":{\"xs\":[7]}}",
        "lift: launch: global [4294967296,4294967296], local 1",
    ),
    (
        ROWS,
        "{\"global\":[3,6],\"local\":[2,3],\"sizes\":{\"N\":1},\"inputs\":{\"xs\":[7]}}",
        "lift: launch: global [3,6], local [2,3]",
    ),
    (
        ROWS,
        "{\"global\":[4,4],\"local\":[2,3],\"sizes\":{\"N\":1},\"inputs\":{\"xs\":[7]}}",
        "lift: launch: global [4,4], local [2,3]",
    ),
    (
        THREE_ROWS,
        "{\"global\":[6,6],\"local\":[3,2],\"sizes\":{\"N\":1},\"inputs\":{\"xs\":[7]}}",
        "lift: launch: global [6,6], local [3,2]",
    ),
    (
        THREE_ROWS,
        "{\"global\":[4,1],\"local\":2,\"sizes\":{\"N\":1},\"inputs\":{\"xs\":[7]}}",
        "lift: launch: global 4, local 2",
    ),
    (
        PAIRS,
        "{\"global\":[4,2],\"local\":[2,2],\"sizes\":{\"N\":1},\"inputs\":{\"xs\":[7]}}",
        "lift: launch: global [4,2], local [2,2]",
    ),
    // for one work-item, or for one row of them
    (
        TASK,
        "{\"global\":[1,2],\"local\":1,\"sizes\":{\"N\":1},\"inputs\":{\"xs\":[7]}}",
        "lift: launch: global [1,2] for one item",
    ),
    (
        ALONE,
        "{\"global\":[2,3],\"local\":[1,1],\"sizes\":{\"N\":1},\"inputs\":{\"xs\":[7]}}",
        "lift: launch: global [2,3] for one item",
    ),
    (
        GROUPS,
        "{\"global\":[2,2],\"local\":[1,1],\"sizes\":{\"N\":1},\"inputs\":{\"xs\":[7]}}",
        "lift: launch: rows 2 for one row",
    ),
    (
        PAIRS,
        "{\"global\":[4,3],\"local\":2,\"sizes\":{\"N\":1},\"inputs\":{\"xs\":[7]}}",
        "lift: launch: rows 3 for one row",
    ),
    // a list of other numbers than two
    (
        ROWS,
        "{\"global\":[4],\"local\":1,\"sizes\":{\"N\":1},\"inputs\":{\"xs\":[7]}}",
        "lift: launch: missing global",
    ),
    (
        ROWS,
        "{\"global\":[4,1,1],\"local\":1,\"sizes\":{\"N\":1},\"inputs\":{\"xs\":[7]}}",
        "lift: launch: missing global",
    ),
    (
        ROWS,
        "{\"global\":[4,-1],\"local\":1,\"sizes\":{\"N\":1},\"inputs\":{\"xs\":[7]}}",
        "lift: launch: missing global",
    ),
    (
        ROWS,
        "{\"global\":[4,1],\"local\":[1,[1]],\"sizes\":{\"N\":1},\"inputs\":{\"xs\":[7]}}",
        "lift: launch: missing local",
    ),
    // a cost of rows
    (
        COST_OF_PAIRS,
        "{\"global\":[4,2],\"local\":2,\"sizes\":{\"N\":9}}",
        "lift: launch: rows 2 for one row",
    ),
];

#[test]
fn launch_files_are_read_or_refused(rt: HostRuntime) -> Result<(), Fail> {
    for (reading, text, wanted) in ANSWERS {
        assert!(rt; gives(rt.alloc(), NUMBERS, *reading, text, wanted));
    }
    Ok(())
}

// Each text fails at two checks, of which the first is told, or at one alone.
const FIRST_FAILURES: &[(Reading, &str, &str)] = &[
    (TASK, "[]", "lift: launch: not json"),
    (
        TASK,
        "{\"global\":-1,\"local\":2.0}",
        "lift: launch: missing global",
    ),
    (
        TASK,
        "{\"global\":2,\"local\":1e0,\"inputs\":[]}",
        "lift: launch: missing local",
    ),
    (
        TASK,
        "{\"global\":2,\"local\":3,\"sizes\":[],\"inputs\":[]}",
        "lift: launch: missing sizes",
    ),
    (
        TASK,
        "{\"global\":2,\"local\":3,\"sizes\":{},\"schedule\":7}",
        "lift: launch: missing inputs",
    ),
    (
        TASK,
        "{\"global\":2,\"local\":3,\"sizes\":{},\"inputs\":{},\"schedule\":null}",
        "lift: launch: missing schedule",
    ),
    (
        TASK,
        "{\"global\":2,\"local\":3,\"sizes\":{},\"inputs\":{},\"schedule\":[4294967296]}",
        "lift: launch: missing schedule",
    ),
    (
        TASK,
        "{\"global\":2,\"local\":3,\"sizes\":{\"M\":0},\"inputs\":{},\"schedule\":{\"seed\":7}}",
        "lift: launch: missing sizes.N",
    ),
    (
        TASK,
        "{\"global\":2,\"local\":3,\"sizes\":{\"N\":3},\"inputs\":{}}",
        "lift: launch: size N is 3",
    ),
    (
        TASK,
        "{\"global\":2,\"local\":3,\"sizes\":{\"N\":4,\"M\":18446744073709551615},\"inputs\":{}}",
        "lift: launch: size M is 18446744073709551615",
    ),
    (
        TASK,
        "{\"global\":514,\"local\":257,\"sizes\":{\"N\":4,\"M\":1},\"inputs\":{}}",
        "lift: launch: global 514, local 257",
    ),
    (
        GROUPS,
        "{\"global\":65537,\"local\":1,\"sizes\":{\"N\":4,\"M\":1},\"inputs\":{}}",
        "lift: launch: global 65537, local 1",
    ),
    (
        TASK,
        "{\"global\":4,\"local\":2,\"sizes\":{\"N\":4,\"M\":1},\"inputs\":{}}",
        "lift: launch: global 4 for one item",
    ),
    (
        GROUPS,
        "{\"global\":4,\"local\":2,\"sizes\":{\"N\":4,\"M\":1},\"inputs\":{\"ps\":7}}",
        "lift: launch: missing inputs.xs",
    ),
    (
        Reading::Eval,
        "{\"sizes\":{\"N\":2,\"M\":1},\"inputs\":{\"xs\":null}}",
        "lift: launch: shape xs",
    ),
    (
        Reading::Eval,
        "{\"sizes\":{\"N\":2,\"M\":1},\"inputs\":{\"xs\":[1,2]}}",
        "lift: launch: missing inputs.ps",
    ),
    (
        Reading::Eval,
        "{\"sizes\":{\"N\":2,\"M\":1},\"inputs\":{\"xs\":[1,2],\"ps\":[[[1,2],[3,4,5]]]}}",
        "lift: launch: shape ps",
    ),
];

#[test]
fn the_first_check_that_fails_is_told(rt: HostRuntime) -> Result<(), Fail> {
    for (reading, text, wanted) in FIRST_FAILURES {
        assert!(rt; gives(rt.alloc(), TABLES, *reading, text, wanted));
    }
    Ok(())
}

#[test]
fn tables_of_pairs_are_read(rt: HostRuntime) -> Result<(), Fail> {
    let text =
        "{\"sizes\":{\"N\":4,\"M\":3},\"inputs\":{\"xs\":[0,4,0,7],\"ps\":[[[1,2],[3,4]],[[5,6],[7,8]],[[9,0],[4294967295,1]]]}}";
    let wanted =
        "1x1 1x1 [4, 3] [2, 3] [] {\"value\":[0,4,0,7]}\n{\"value\":[[[1,2],[3,4]],[[5,6],[7,8]],[[9,0],[4294967295,1]]]}\n";
    assert!(rt; gives(rt.alloc(), TABLES, Reading::Eval, text, wanted));
    Ok(())
}

fn pair(alloc: Global, left: u32, right: u32) -> Result<Val, AllocError> {
    let left = Box::new(alloc, Val::Number(left))?;
    Ok(Val::Pair(left, Box::new(alloc, Val::Number(right))?))
}

fn is_written(
    alloc: Global,
    members: Vec<Val>,
    counts: Option<(u64, u64)>,
    wanted: &str,
) -> Result<bool, AllocError> {
    Ok(result_text(alloc, &Val::List(members), counts)?.as_slice() == wanted.as_bytes())
}

#[test]
fn counts_stand_behind_the_value(rt: HostRuntime) -> Result<(), Fail> {
    let alloc = rt.alloc();
    let members = vec![in alloc; pair(alloc, 7, 12)?]?;
    let line = "{\"value\":[[7,12]],\"events\":23,\"releases\":0}\n";
    assert!(rt; is_written(alloc, members, Some((23, 0)), line)?);
    assert!(rt; is_written(alloc, Vec::new(alloc), None, "{\"value\":[]}\n")?);
    Ok(())
}
