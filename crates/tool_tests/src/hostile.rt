//! Hostile programs, scripts and launches: what each is refused with, and what just isn't.
use crate::call::{COMPILE, Call, FIRST, PROGRAM, RUN, SCRIPT, STEPS, repeated};
use std::alloc::{AllocError, Global};
use std::test::Fail;

/// A text of a row.
#[derive(Clone, Copy)]
enum Text {
    /// As it stands here.
    Written(&'static str),
    /// A text so many times, and then another.
    Repeated(&'static str, usize, &'static str),
    /// A map over four numbers in so many layouts, each of which opens and closes so.
    Layered(&'static str, &'static str, usize),
    /// A map whose body is a sum of 2,047 leaves, divided so many times by 1.
    Divided(usize),
}

/// The sum of two texts' terms.
pub fn sum(alloc: Global, a: &str, b: &str) -> Result<String, AllocError> {
    format!(in alloc; "add({a}, {b})")
}

// A sum of 2,047 leaves, 12 high.
fn large_sum(alloc: Global) -> Result<String, AllocError> {
    let mut full = sum(alloc, "x", "x")?;
    let mut short = String::from_str(alloc, "x")?;
    for _ in 0..10 {
        short = sum(alloc, short.as_str(), full.as_str())?;
        full = sum(alloc, full.as_str(), full.as_str())?;
    }
    Ok(short)
}

fn layered(alloc: Global, open: &str, close: &str, times: usize) -> Result<String, AllocError> {
    let opened = repeated(alloc, open, times, "xs")?;
    let closed = repeated(alloc, close, times, ")")?;
    format!(in alloc; "input xs: [u32; 4]; output map(\\x. x, {opened}{closed}")
}

fn divided(alloc: Global, times: usize) -> Result<String, AllocError> {
    let sum = large_sum(alloc)?;
    let opened = repeated(alloc, "div(", times, sum.as_str())?;
    let closed = repeated(alloc, ", 1)", times, ", xs)")?;
    format!(in alloc; "size N from 1 to 1000; input xs: [u32; N]; output map(\\x. {opened}{closed}")
}

impl Text {
    fn whole(&self, alloc: Global) -> Result<String, AllocError> {
        match self {
            Text::Written(text) => String::from_str(alloc, *text),
            Text::Repeated(text, times, rest) => repeated(alloc, *text, *times, *rest),
            Text::Layered(open, close, times) => layered(alloc, *open, *close, *times),
            Text::Divided(times) => divided(alloc, *times),
        }
    }
}

const ROWS: Text = Text::Written("input xs: [[u32; 4]; 4]; output map(\\r. map(\\x. x, r), xs)");

const NUMBERS: Text = Text::Written("input xs: [u32; 4]; output map(\\x. x, xs)");

const OF_COMPILE: &[&[&str]] = &[&COMPILE];

const OF_STEPS: &[&[&str]] = &[&STEPS];

const OF_ALL: &[&[&str]] = &[&STEPS, &COMPILE, &RUN];

// Commands, a program and a script, and how each of the commands ends: with a status and a line, or
// accepted at 0.
const SCRIPTS: [(&[&[&str]], Text, Text, u8, &str); 28] = [
    (
        OF_COMPILE,
        ROWS,
        Text::Written("at 1 to-glb\nat . to-glb"),
        11,
        "lift: nest: N3 at 1\n",
    ),
    (
        OF_COMPILE,
        ROWS,
        Text::Written("at 1 to-seq\nat . to-wrg"),
        11,
        "lift: nest: N4 at 1\n",
    ),
    (
        OF_COMPILE,
        NUMBERS,
        Text::Written("at 0 local-copy\nat . to-seq"),
        11,
        "lift: nest: N5 at 0\n",
    ),
    (
        OF_COMPILE,
        Text::Written("input xs: [u32; 4]; output map(\\x. x, map(\\x. x, xs))"),
        Text::Written("at 0 to-seq\nat . to-seq"),
        11,
        "lift: nest: N7 at 0\n",
    ),
    (
        OF_COMPILE,
        NUMBERS,
        Text::Written("at 0 private-copy\nat . to-glb"),
        11,
        "lift: nest: N8 at 0\n",
    ),
    (
        OF_COMPILE,
        ROWS,
        Text::Written("at 1 to-glb\nat . to-seq"),
        11,
        "lift: nest: N9 at 1\n",
    ),
    (
        OF_ALL,
        Text::Written("input xs: [[u32; 2]; 6]; output split(3, join(xs))"),
        Text::Written("at . split-join"),
        9,
        "lift: step 1: side same\n",
    ),
    (
        OF_ALL,
        Text::Written(
            "input xs: [u32; 4]; output map(\\r. map(\\x. reduce(add, x, r), r), split(2, xs))",
        ),
        Text::Written("at . map-split"),
        9,
        "lift: step 1: side mentions\n",
    ),
    (
        OF_ALL,
        Text::Written(PROGRAM),
        Text::Written("at 1 copy"),
        9,
        "lift: step 1: side array\n",
    ),
    (
        OF_ALL,
        Text::Written("input xs: [u32; 4]; output slide(3, 1, xs)"),
        Text::Written("at . tile-slide 4"),
        9,
        "lift: step 1: side length\n",
    ),
    (
        OF_ALL,
        Text::Written("input xs: [u32; 9]; output slide(3, 1, xs)"),
        Text::Written("at . tile-slide 4"),
        9,
        "lift: step 1: side divides\n",
    ),
    (
        OF_ALL,
        Text::Written("input xs: [u32; 9]; output slide(3, 2, xs)"),
        Text::Written("at . tile-slide 3"),
        9,
        "lift: step 1: side divides\n",
    ),
    (
        &[&RUN],
        Text::Written(
            "size a from 1 to 1;size b from 1 to 1;size c from 1 to 1;size d from 1 to 1;size e from 1 to 1;size f from 1 to 1;size g from 1 to 1;size h from 1 to 1;size i from 1 to 1;output 1",
        ),
        Text::Written(SCRIPT),
        10,
        "lift: limit sizes: 9\n",
    ),
    (
        &[&RUN],
        Text::Written(
            "input a: [u32; 1];input b: [u32; 1];input c: [u32; 1];input d: [u32; 1];input e: [u32; 1];input f: [u32; 1];input g: [u32; 1];input h: [u32; 1];input i: [u32; 1];output 1",
        ),
        Text::Written(SCRIPT),
        10,
        "lift: limit inputs: 9\n",
    ),
    // a map, an input, the sum's 2,047 leaves and 2,046 operators, and each quotient are nodes
    (OF_COMPILE, Text::Divided(1), Text::Written(SCRIPT), 0, ""),
    (
        OF_COMPILE,
        Text::Divided(2),
        Text::Written(SCRIPT),
        10,
        "lift: limit nodes: 4097\n",
    ),
    // each copy makes the term higher
    (
        OF_STEPS,
        Text::Written(PROGRAM),
        Text::Repeated("at 0 copy\n", 254, ""),
        0,
        "",
    ),
    (
        OF_STEPS,
        Text::Written(PROGRAM),
        Text::Repeated("at 0 copy\n", 255, ""),
        10,
        "lift: limit depth: 257\n",
    ),
    // a pad and a map change places in each step
    (
        OF_STEPS,
        Text::Written("input xs: [u32; 4]; output pad(1, 1, map(\\x. x, xs))"),
        Text::Repeated("at . pad-map\nat . map-pad\n", 128, ""),
        0,
        "",
    ),
    (
        OF_STEPS,
        Text::Written("input xs: [u32; 4]; output pad(1, 1, map(\\x. x, xs))"),
        Text::Repeated("at . pad-map\nat . map-pad\n", 128, "at . pad-map"),
        10,
        "lift: limit steps: 257\n",
    ),
    (
        OF_COMPILE,
        Text::Layered("pad(0, 0, ", ")", 24),
        Text::Written(SCRIPT),
        0,
        "",
    ),
    (
        OF_COMPILE,
        Text::Layered("pad(0, 0, ", ")", 25),
        Text::Written(SCRIPT),
        10,
        "lift: limit layouts: 25\n",
    ),
    (
        OF_COMPILE,
        Text::Layered("join(split(1, ", "))", 13),
        Text::Written(SCRIPT),
        10,
        "lift: limit layouts: 26\n",
    ),
    (
        OF_COMPILE,
        Text::Written("input xs: [u32; 256]; output map(\\x. x, xs)"),
        Text::Written("at 0 private-copy\nat . to-seq"),
        0,
        "",
    ),
    (
        OF_COMPILE,
        Text::Written("input xs: [u32; 257]; output map(\\x. x, xs)"),
        Text::Written("at 0 private-copy\nat . to-seq"),
        10,
        "lift: limit private: 257\n",
    ),
    (
        OF_COMPILE,
        Text::Written("input xs: [[[[[u32; 1]; 1]; 1]; 1]; 1]; output xs"),
        Text::Written(SCRIPT),
        10,
        "lift: limit arrays: 5\n",
    ),
    (
        OF_COMPILE,
        Text::Written("input xs: [((u32, u32), ((u32, u32), u32)); 1]; output xs"),
        Text::Written(SCRIPT),
        10,
        "lift: limit components: 5\n",
    ),
    (
        OF_STEPS,
        Text::Written("input xs: [[[[u32; 2]; 2]; 2]; 2]; output map(\\x. x, xs)"),
        Text::Written("at . split-map 2"),
        10,
        "lift: limit arrays: 5\n",
    ),
];

// Whether each of these commands ends so, or is accepted at 0.
fn all_end(
    alloc: Global,
    commands: &[&[&str]],
    call: Call<'_>,
    status: u8,
    line: &str,
) -> Result<bool, AllocError> {
    for words in commands {
        let ends = if status == 0 {
            call.is_accepted(alloc, *words)?
        } else {
            call.ends(alloc, *words, status, "", line)?
        };
        if !ends {
            return Ok(false);
        }
    }
    Ok(true)
}

fn scripts_end(alloc: Global) -> Result<bool, AllocError> {
    for (commands, program, script, status, line) in SCRIPTS {
        let program = program.whole(alloc)?;
        let script = script.whole(alloc)?;
        let call = Call {
            program: program.as_str(),
            script: script.as_str(),
            ..FIRST
        };
        if !all_end(alloc, commands, call, status, line)? {
            return Ok(false);
        }
    }
    Ok(true)
}

#[test]
fn hostile_scripts_end_so(rt: HostRuntime) -> Result<(), Fail> {
    assert!(rt; scripts_end(rt.alloc())?);
    Ok(())
}

// Launches of a map over all work-items, each with its line.
const LAUNCHES: [(&str, &str); 3] = [
    (
        "{\"global\":6,\"local\":4,\"sizes\":{\"N\":5},\"inputs\":{\"xs\":[1,2,3,4,5]}}",
        "lift: launch: global 6, local 4\n",
    ),
    (
        "{\"global\":65537,\"local\":1,\"sizes\":{\"N\":5},\"inputs\":{\"xs\":[1,2,3,4,5]}}",
        "lift: launch: global 65537, local 1\n",
    ),
    (
        "{\"global\":257,\"local\":257,\"sizes\":{\"N\":5},\"inputs\":{\"xs\":[1,2,3,4,5]}}",
        "lift: launch: global 257, local 257\n",
    ),
];

#[test]
fn hostile_launches_are_refused(rt: HostRuntime) -> Result<(), Fail> {
    for (launch, line) in LAUNCHES {
        let call = Call {
            script: "at . to-glb",
            launch,
            ..FIRST
        };
        assert!(rt; call.ends(rt.alloc(), &RUN, 12, "", line)?);
    }
    Ok(())
}
