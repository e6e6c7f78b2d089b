//! The order of causes, failed reads and writes, and words.
use crate::call::{
    COMPILE, Call, EVAL, FIRST, KERNEL, LAUNCH, PROGRAM, RUN, SCRIPT, STEPS, repeated,
};
use std::alloc::{AllocError, Global};
use std::test::Fail;

const EMPTY: Call<'static> = Call {
    program: "",
    script: "",
    launch: "",
    failing_reads: &[],
    failing_out: &[],
    failing_err: &[],
};

// A program, a script, and the status and the line with an empty launch file.
const CAUSES: [(&str, &str, u8, &str); 4] = [
    ("", "", 6, "lift: program: token 1, byte 0\n"),
    (PROGRAM, "at", 8, "lift: script: line 1\n"),
    (PROGRAM, "", 11, "lift: nest: N1 at .\n"),
    (PROGRAM, SCRIPT, 12, "lift: launch: not json\n"),
];

fn is_told(alloc: Global, row: (&'static str, &'static str, u8, &str)) -> Result<bool, AllocError> {
    let (program, script, status, line) = row;
    let call = Call {
        program,
        script,
        ..EMPTY
    };
    call.ends(alloc, &RUN, status, "", line)
}

#[test]
fn the_first_cause_is_told(rt: HostRuntime) -> Result<(), Fail> {
    for row in CAUSES {
        assert!(rt; is_told(rt.alloc(), row)?);
    }
    let long = repeated(rt.alloc(), "\n", 65_537, "")?;
    let script = long.as_str();
    assert!(rt;
        Call { script, ..EMPTY }.ends(rt.alloc(), &RUN, 10, "", "lift: limit bytes: 65537\n")?
    );
    let unread = Call {
        program: long.as_str(),
        failing_reads: &[2],
        ..EMPTY
    };
    assert!(rt; unread.ends(rt.alloc(), &RUN, 10, "", "lift: limit bytes: 65537\n")?);
    Ok(())
}

// Whether a call whose read of this number fails ends with this line.
fn is_unread(alloc: Global, read: u64, words: &[&str], line: &str) -> Result<bool, AllocError> {
    let call = Call {
        failing_reads: &[read],
        ..FIRST
    };
    call.ends(alloc, words, 3, "", line)
}

#[test]
fn a_failed_read_is_told_by_its_name(rt: HostRuntime) -> Result<(), Fail> {
    assert!(rt; is_unread(rt.alloc(), 1, &RUN, "lift: read p.lift\n")?);
    assert!(rt; is_unread(rt.alloc(), 2, &RUN, "lift: read s.lift\n")?);
    assert!(rt; is_unread(rt.alloc(), 3, &RUN, "lift: read l.json\n")?);
    assert!(rt; is_unread(rt.alloc(), 2, &COMPILE, "lift: read s.lift\n")?);
    assert!(rt; is_unread(rt.alloc(), 2, &STEPS, "lift: read s.lift\n")?);
    assert!(rt; is_unread(rt.alloc(), 2, &EVAL, "lift: read l.json\n")?);
    let words = ["run", "p.lift", "x.lift", "l.json"];
    assert!(rt; FIRST.ends(rt.alloc(), &words, 3, "", "lift: read x.lift\n")?);
    Ok(())
}

// Whether a call whose write of this number fails leaves this prefix.
fn is_cut(alloc: Global, write: u64, words: &[&str], out: &str) -> Result<bool, AllocError> {
    let call = Call {
        failing_out: &[write],
        ..FIRST
    };
    call.ends(alloc, words, 4, out, "lift: write\n")
}

#[test]
fn a_failed_write_leaves_a_prefix(rt: HostRuntime) -> Result<(), Fail> {
    assert!(rt; is_cut(rt.alloc(), 3, &RUN, "{\"value\":[2,3,0],\"events\":10,\"re")?);
    assert!(rt; is_cut(rt.alloc(), 2, &COMPILE, "__kernel void li")?);
    assert!(rt; is_cut(rt.alloc(), 2, &STEPS, "map(\\_0. add(_0,")?);
    Ok(())
}

// The kernel's 180 bytes are taken in 12 calls, of 16 bytes each but for the last. Where one of
// them fails, those before it were taken; a 13th is never made.
fn kernel_is_cut(alloc: Global, failing: u64, taken: usize) -> Result<bool, AllocError> {
    let call = Call {
        failing_out: &[failing],
        ..FIRST
    };
    match KERNEL.as_bytes().get(..taken) {
        Some(taken) => call.leaves(alloc, &COMPILE, 4, taken, b"lift: write\n"),
        None => call.leaves(alloc, &COMPILE, 0, KERNEL.as_bytes(), b""),
    }
}

#[test]
fn a_kernel_is_cut_at_the_call_that_fails(rt: HostRuntime) -> Result<(), Fail> {
    for before in 0..13u64 {
        assert!(rt; kernel_is_cut(rt.alloc(), before + 1, 16 * before as usize)?);
    }
    Ok(())
}

// A program, a script, a launch file, the words and the status. Words that go on to write find that
// the output fails.
const REFUSED: [(&str, &str, &str, &[&str], u8); 10] = [
    (PROGRAM, SCRIPT, LAUNCH, &["compile", "p.lift"], 2),
    (PROGRAM, SCRIPT, LAUNCH, &["compile", "p.lift", "x.lift"], 3),
    (PROGRAM, SCRIPT, LAUNCH, &RUN, 4),
    ("", SCRIPT, LAUNCH, &RUN, 6),
    ("output 1", SCRIPT, LAUNCH, &RUN, 7),
    (PROGRAM, "at", LAUNCH, &RUN, 8),
    (PROGRAM, "at 7 copy", LAUNCH, &RUN, 9),
    (
        "input xs: [[[[[u32; 1]; 1]; 1]; 1]; 1]; output xs",
        SCRIPT,
        LAUNCH,
        &RUN,
        10,
    ),
    (PROGRAM, "", LAUNCH, &RUN, 11),
    (PROGRAM, SCRIPT, "", &RUN, 12),
];

fn are_silent(
    alloc: Global,
    rows: &[(&'static str, &'static str, &'static str, &[&str], u8)],
) -> Result<bool, AllocError> {
    for &(program, script, launch, words, status) in rows {
        let call = Call {
            program,
            script,
            launch,
            failing_reads: &[],
            failing_out: &[1],
            failing_err: &[1],
        };
        if !call.ends(alloc, words, status, "", "")? {
            return Ok(false);
        }
    }
    Ok(true)
}

#[test]
fn a_line_that_fails_at_once_changes_no_status(rt: HostRuntime) -> Result<(), Fail> {
    assert!(rt; are_silent(rt.alloc(), &REFUSED)?);
    Ok(())
}

// Whether a call whose first read and whose write of this number to the error's sink fail ends so.
fn is_told_in_part(alloc: Global, write: u64, line: &str) -> Result<bool, AllocError> {
    let call = Call {
        failing_reads: &[1],
        failing_err: &[write],
        ..FIRST
    };
    call.ends(alloc, &RUN, 3, "", line)
}

#[test]
fn a_failed_write_of_the_line_leaves_a_prefix(rt: HostRuntime) -> Result<(), Fail> {
    assert!(rt; is_told_in_part(rt.alloc(), 1, "")?);
    assert!(rt; is_told_in_part(rt.alloc(), 2, "lift: re")?);
    assert!(rt; is_told_in_part(rt.alloc(), 3, "lift: read ")?);
    assert!(rt; is_told_in_part(rt.alloc(), 4, "lift: read p.lift")?);
    Ok(())
}

const WORDS: [&[&str]; 10] = [
    &[],
    &["run"],
    &["run", "p.lift", "s.lift"],
    &["compile", "p.lift", "s.lift", "--trace"],
    &["run", "p.lift", "-s.lift", "l.json"],
    &["compile", "p.lift", "s.lift", "l.json"],
    &["compile", "p"],
    &["steps", "p.lift"],
    &["steps", "p.lift", "s.lift", "l.json"],
    &["demo", "07"],
];

#[test]
fn other_words_are_refused(rt: HostRuntime) -> Result<(), Fail> {
    for words in WORDS {
        assert!(rt; FIRST.ends(rt.alloc(), words, 2, "", "lift: words\n")?);
    }
    Ok(())
}
