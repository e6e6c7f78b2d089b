//! Refusals: each with its line.
use crate::call::{
    COMPILE, Call, EVAL, FIRST, PROGRAM, RUN, STEPS, launches_end, programs_end, repeated,
    scripts_end,
};
use std::alloc::{AllocError, Global};
use std::test::Fail;

// The first token at which the text doesn't go on, counted from 1, and its byte.
const TOKENS: [(&str, &str); 15] = [
    ("", "lift: program: token 1, byte 0\n"),
    (
        "size N from 1 to 1000; input xs: [u32; N]; output map(",
        "lift: program: token 20, byte 54\n",
    ),
    (
        "size N from 0 to 1000; input xs: [u32; N]; output map(\\x. add(x, 1), xs)",
        "lift: program: token 4, byte 12\n",
    ),
    (
        "size N from 4 to 3; input xs: [u32; N]; output map(\\x. add(x, 1), xs)",
        "lift: program: token 6, byte 17\n",
    ),
    (
        "size N from 1 to 1048577; input xs: [u32; N]; output map(\\x. add(x, 1), xs)",
        "lift: program: token 6, byte 17\n",
    ),
    (
        "size N from 1 to 1000; input N: [u32; N]; output map(\\x. add(x, 1), N)",
        "lift: program: token 9, byte 29\n",
    ),
    (
        "size N from 1 to 1000; input xs: [u32; M]; output map(\\x. add(x, 1), xs)",
        "lift: program: token 14, byte 39\n",
    ),
    (
        "size N from 1 to 1000; input xs: [u32; N]; output map(\\x. add(y, 1), xs)",
        "lift: program: token 25, byte 62\n",
    ),
    (
        "size N from 1 to 1000; input xs: [u32; N]; output map(\\x. add(x, 1), ys)",
        "lift: program: token 30, byte 69\n",
    ),
    (
        "size N from 1 to 1000; input xs: [u32; N]; output map(\\x. add(x, 01), xs)",
        "lift: program: token 27, byte 65\n",
    ),
    (
        "size N from 1 to 1000; input xs: [u32; N]; output map(\\x. add(x, 4294967296), xs)",
        "lift: program: token 27, byte 65\n",
    ),
    (
        "size N from 1 to 1000; input map: [u32; N]; output map(\\x. add(x, 1), map)",
        "lift: program: token 9, byte 29\n",
    ),
    (
        "size N from 1 to 1000; input xs: [u32; N]; output map(\\x. add(x, 1), xs);",
        "lift: program: token 32, byte 72\n",
    ),
    (
        "size N from 1 to 3; input xs: [u32; N]; output map(\\a23456789012345678901234567890123. add(a23456789012345678901234567890123, 1), xs)",
        "lift: program: token 21, byte 52\n",
    ),
    (
        "size N from 1 to 1000; input xs: [u32; N]; output mapSeq(\\x. add(x, 1), xs)",
        "lift: program: token 18, byte 50\n",
    ),
];

#[test]
fn texts_that_are_no_programs_are_refused_at_a_token(rt: HostRuntime) -> Result<(), Fail> {
    assert!(rt; programs_end(rt.alloc(), &RUN, 6, &TOKENS)?);
    Ok(())
}

const ILL_TYPED: [(&str, &str); 5] = [
    (
        "size N multiple 6 from 6 to 600; input xs: [u32; N]; output split(4, xs)",
        "lift: type: split at .\n",
    ),
    (
        "input xs: [u32; 3]; input ys: [[u32; 2]; 0]; output xs",
        "lift: type: length at input 1\n",
    ),
    (
        "input xs: [u32; 3]; output map(\\x. add(xs, 1), xs)",
        "lift: type: operator at 1\n",
    ),
    (
        "input xs: [u32; 3]; output map(\\x. let y = first(x) in y, xs)",
        "lift: type: project at 1.0\n",
    ),
    ("output 1", "lift: type: output at .\n"),
];

// Types come before the script's text, which is none here.
fn are_ill_typed(alloc: Global, rows: &[(&str, &str)]) -> Result<bool, AllocError> {
    for &(program, line) in rows {
        let call = Call {
            program,
            script: "at",
            ..FIRST
        };
        if !call.ends(alloc, &COMPILE, 7, "", line)? {
            return Ok(false);
        }
    }
    Ok(true)
}

#[test]
fn ill_typed_programs_are_refused_at_a_spot(rt: HostRuntime) -> Result<(), Fail> {
    assert!(rt; are_ill_typed(rt.alloc(), &ILL_TYPED)?);
    Ok(())
}

const TYPE_LIMITS: [(&str, &str); 3] = [
    (
        "size M from 1 to 65536; size N from 1 to 32768; input xs: [[u32; M]; N]; output xs",
        "lift: limit scalars: 2147483648\n",
    ),
    (
        "input xs: [u32; 2*4294967295*0]; output xs",
        "lift: limit coefficient: 8589934590\n",
    ),
    (
        "size N from 1 to 2; input xs: [u32; N*N*N*N*N]; output xs",
        "lift: limit degree: 5\n",
    ),
];

#[test]
fn limits_are_told_with_their_counts(rt: HostRuntime) -> Result<(), Fail> {
    assert!(rt; programs_end(rt.alloc(), &COMPILE, 10, &TYPE_LIMITS)?);
    Ok(())
}

const SCRIPTS: [(&str, &str); 8] = [
    ("at . to-seq\nat . to-sequence", "lift: script: line 2\n"),
    ("at . to-seq # why", "lift: script: line 1\n"),
    ("# first\r\n\r\nat . to-seq\r", "lift: script: line 3\n"),
    ("at . to-seq\r\r\n", "lift: script: line 1\n"),
    ("\n\nat 0 to-seq\nat", "lift: script: line 4\n"),
    ("at. to-seq", "lift: script: line 1\n"),
    ("at . to-seq 1", "lift: script: line 1\n"),
    ("at . to-seq\n\x0b", "lift: script: line 2\n"),
];

#[test]
fn lines_of_scripts_are_told_apart(rt: HostRuntime) -> Result<(), Fail> {
    assert!(rt; scripts_end(rt.alloc(), &RUN, 8, &SCRIPTS)?);
    Ok(())
}

// The program, the script and the line of the first step that isn't made.
const FOLD: &str = "input xs: [u32; 8]; output fold(\\a x. add(a, x), 0, xs)";

const STOPPED: [(&str, &str, &str); 7] = [
    (FOLD, "at . stride-reduce 4", "lift: step 1: shape\n"),
    (FOLD, "at 7 copy", "lift: step 1: no place\n"),
    (PROGRAM, "at . split-map 0", "lift: step 1: side positive\n"),
    (PROGRAM, "at . split-map 4", "lift: step 1: side divides\n"),
    (
        PROGRAM,
        "at 0 copy\nat 1 copy",
        "lift: step 2: side array\n",
    ),
    (FOLD, "at . to-seq", "lift: step 1: shape\n"),
    (
        PROGRAM,
        "at . to-seq\n\nat . to-seq\n",
        "lift: step 2: shape\n",
    ),
];

fn are_stopped(
    alloc: Global,
    words: &[&str],
    rows: &[(&'static str, &'static str, &str)],
) -> Result<bool, AllocError> {
    for &(program, script, line) in rows {
        let call = Call {
            program,
            script,
            ..FIRST
        };
        if !call.ends(alloc, words, 9, "", line)? {
            return Ok(false);
        }
    }
    Ok(true)
}

#[test]
fn steps_that_are_not_made_are_told_with_their_causes(rt: HostRuntime) -> Result<(), Fail> {
    assert!(rt; are_stopped(rt.alloc(), &STEPS, &STOPPED)?);
    assert!(rt; are_stopped(rt.alloc(), &COMPILE, &STOPPED)?);
    assert!(rt; are_stopped(rt.alloc(), &RUN, &STOPPED)?);
    Ok(())
}

// Along the first script, whose map becomes sequential: the first broken rule in preorder.
const PROGRAMS: [(&str, &str); 6] = [
    (
        "input xs: [[u32; 2]; 3]; output map(\\r. map(\\x. x, r), transpose(map(\\r. r, xs)))",
        "lift: nest: N1 at 0.0\n",
    ),
    (
        "input xs: [[u32; 2]; 3]; output map(\\r. map(\\x. x, r), transpose(xs))",
        "lift: nest: N1 at 1\n",
    ),
    (
        "input xs: [[u32; 2]; 3]; output map(\\r. let y = 1 in reduce(add, y, r), xs)",
        "lift: nest: N1 at 1.1\n",
    ),
    (
        "input xs: [[u32; 2]; 3]; output map(\\r. select(1, 2, let y = map(\\x. x, r) in 3), xs)",
        "lift: nest: N7 at 1.2\n",
    ),
    (
        "input xs: [[u32; 2]; 3]; output map(\\r. zip(r, map(\\x. x, r)), xs)",
        "lift: nest: N10 at 1\n",
    ),
    (
        "input xs: [[u32; 2]; 3]; output map(\\r. r, xs)",
        "lift: nest: N11 at 1\n",
    ),
];

const NESTS: [(&str, &str); 6] = [
    ("", "lift: nest: N1 at .\n"),
    ("# nothing\n", "lift: nest: N1 at .\n"),
    ("at . to-lcl", "lift: nest: N2 at .\n"),
    ("at . to-seq\nat . local", "lift: nest: N5 at .\n"),
    ("at . split-map 1", "lift: nest: N1 at 0\n"),
    ("at 0 copy\nat . to-seq", "lift: nest: N1 at 0\n"),
];

// Programs with scripts of their own.
const MAPPED: [(&str, &str, &str); 3] = [
    (
        "input xs: [u32; 5]; output xs",
        "",
        "lift: nest: N11 at .\n",
    ),
    (
        "input xs: [u32; 5]; output slide(3, 1, map(\\x. x, xs))",
        "at 0 to-seq",
        "lift: nest: N10 at .\n",
    ),
    (
        "size N from 1 to 64; input xs: [u32; 2*N]; output join(map(\\r. map(\\x. x, r), split(N, xs)))",
        "at 0.1.0 local-copy\nat 0.1 to-lcl\nat 0 to-wrg",
        "lift: nest: N6 at 0.1.0\n",
    ),
];

fn mapped_end(alloc: Global) -> Result<bool, AllocError> {
    for (program, script, line) in MAPPED {
        let call = Call {
            program,
            script,
            ..FIRST
        };
        if !call.ends(alloc, &COMPILE, 11, "", line)? {
            return Ok(false);
        }
    }
    Ok(true)
}

#[test]
fn nests_are_refused_by_the_first_broken_rule(rt: HostRuntime) -> Result<(), Fail> {
    assert!(rt; programs_end(rt.alloc(), &RUN, 11, &PROGRAMS)?);
    assert!(rt; scripts_end(rt.alloc(), &COMPILE, 11, &NESTS)?);
    assert!(rt; mapped_end(rt.alloc())?);
    Ok(())
}

const LAUNCHES: [(&str, &str); 15] = [
    (
        "{\"global\":1,\"local\":1,\"sizes\":{\"N\":3},\"inputs\":{\"xs\":[1,2,4294967295]}",
        "lift: launch: not json\n",
    ),
    ("[]", "lift: launch: not json\n"),
    (
        "{\"global\":2,\"local\":1,\"sizes\":{\"N\":3},\"inputs\":{\"xs\":[1,2,3]}}",
        "lift: launch: global 2 for one item\n",
    ),
    (
        "{\"global\":1,\"local\":2,\"sizes\":{\"N\":3},\"inputs\":{\"xs\":[1,2,3]}}",
        "lift: launch: global 1, local 2\n",
    ),
    (
        "{\"global\":6,\"local\":4,\"sizes\":{\"N\":3},\"inputs\":{\"xs\":[1,2]}}",
        "lift: launch: global 6, local 4\n",
    ),
    (
        "{\"global\":1,\"sizes\":{\"N\":3},\"inputs\":{\"xs\":[1,2,3]}}",
        "lift: launch: missing local\n",
    ),
    (
        "{\"global\":1,\"local\":1,\"inputs\":{\"xs\":[1,2,3]}}",
        "lift: launch: missing sizes\n",
    ),
    (
        "{\"global\":1,\"local\":1,\"sizes\":{\"N\":3},\"inputs\":{\"xs\":[1,2,3]},\"schedule\":null}",
        "lift: launch: missing schedule\n",
    ),
    (
        "{\"global\":1,\"local\":1,\"sizes\":{\"N\":0},\"inputs\":{\"xs\":[]}}",
        "lift: launch: size N is 0\n",
    ),
    (
        "{\"global\":1,\"local\":1,\"sizes\":{\"N\":1001},\"inputs\":{\"xs\":[1,2,3]}}",
        "lift: launch: size N is 1001\n",
    ),
    (
        "{\"global\":1,\"local\":1,\"sizes\":{\"N\":3.0},\"inputs\":{\"xs\":[1,2,3]}}",
        "lift: launch: missing sizes.N\n",
    ),
    (
        "{\"global\":1,\"local\":1,\"sizes\":{\"N\":18446744073709551616},\"inputs\":{\"xs\":[1,2,3]}}",
        "lift: launch: missing sizes.N\n",
    ),
    (
        "{\"global\":1,\"local\":1,\"sizes\":{\"N\":3},\"inputs\":{\"ys\":[1,2,3]}}",
        "lift: launch: missing inputs.xs\n",
    ),
    (
        "{\"global\":1,\"local\":1,\"sizes\":{\"N\":3},\"inputs\":{\"xs\":[1,2]}}",
        "lift: launch: shape xs\n",
    ),
    (
        "{\"global\":1,\"local\":1,\"sizes\":{\"N\":3},\"inputs\":{\"xs\":[1,2,4294967296]}}",
        "lift: launch: shape xs\n",
    ),
];

const EVALUATIONS: [(&str, &str); 8] = [
    (
        "{\"sizes\":{\"N\":0},\"inputs\":{\"xs\":[]}}",
        "lift: launch: size N is 0\n",
    ),
    (
        "{\"sizes\":{\"N\":1001},\"inputs\":{}}",
        "lift: launch: size N is 1001\n",
    ),
    (
        "{\"sizes\":{\"N\":3},\"inputs\":{\"xs\":[1,2]}}",
        "lift: launch: shape xs\n",
    ),
    (
        "{\"sizes\":{\"N\":3},\"inputs\":{\"xs\":[1,2,4294967296]}}",
        "lift: launch: shape xs\n",
    ),
    (
        "{\"sizes\":{\"N\":3},\"inputs\":{\"xs\":[1,2,3]}",
        "lift: launch: not json\n",
    ),
    (
        "{\"inputs\":{\"xs\":[1,2,3]}}",
        "lift: launch: missing sizes\n",
    ),
    (
        "{\"sizes\":{},\"inputs\":{}}",
        "lift: launch: missing sizes.N\n",
    ),
    (
        "{\"sizes\":{\"N\":3},\"inputs\":{}}",
        "lift: launch: missing inputs.xs\n",
    ),
];

#[test]
fn launch_files_are_refused_by_the_first_check(rt: HostRuntime) -> Result<(), Fail> {
    assert!(rt; launches_end(rt.alloc(), &RUN, 12, &LAUNCHES)?);
    assert!(rt; launches_end(rt.alloc(), &EVAL, 12, &EVALUATIONS)?);
    let deep = repeated(rt.alloc(), "[", 100_000, "")?;
    let launch = deep.as_str();
    assert!(rt;
        Call { launch, ..FIRST }.ends(rt.alloc(), &EVAL, 12, "", "lift: launch: not json\n")?
    );
    Ok(())
}
