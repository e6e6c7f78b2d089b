//! Limits on the terms of a script.

use crate::running::{declared, has_lines, stops};
use pattern_types::TypeLimit;
use std::alloc::Global;
use std::test::Fail;
use strategy_script::{StepLimit, StepNo};

// The last under so many sums with the first: 2 * count + 1 nodes, and so many higher than a leaf.
fn sums(alloc: Global, first: &[u8], last: &[u8], count: u32) -> Result<Vec<u8>, Fail> {
    let mut text = Vec::new(alloc);
    for _ in 0..count {
        text.extend_from_slice(b"add(")?;
        text.extend_from_slice(first)?;
        text.extend_from_slice(b", ")?;
    }
    text.extend_from_slice(last)?;
    for _ in 0..count {
        text.push(b')')?;
    }
    Ok(text)
}

// The map that binds v to a sum of so many numbers, in so many sums of the first with v.
fn sums_of_sums(alloc: Global, numbers: u32, first: &[u8], values: u32) -> Result<Vec<u8>, Fail> {
    let mut text = Vec::from_slice(alloc, b"input xs: [u32; 3]; output map(\\x. let v = ")?;
    text.extend_from_slice(&sums(alloc, b"1", b"1", numbers)?)?;
    text.extend_from_slice(b" in ")?;
    text.extend_from_slice(&sums(alloc, first, b"v", values)?)?;
    text.extend_from_slice(b", xs)")?;
    Ok(text)
}

// So many times the line.
fn repeated(alloc: Global, line: &[u8], times: u32) -> Result<Vec<u8>, Fail> {
    let mut text = Vec::new(alloc);
    for _ in 0..times {
        text.extend_from_slice(line)?;
    }
    Ok(text)
}

// Whether the first step, which puts the sum of numbers for v, passes this limit with this count.
fn inlining_passes(
    alloc: Global,
    numbers: u32,
    first: &[u8],
    values: u32,
    which: StepLimit,
    count: u128,
) -> Result<bool, Fail> {
    let program = sums_of_sums(alloc, numbers, first, values)?;
    let want = StepNo::Limit {
        which,
        step: 1,
        count,
    };
    // the second step isn't looked at
    stops(alloc, &program, b"at 1 let-inline\nat 9 copy", want)
}

#[test]
fn nodes_and_height_are_limited(rt: HostRuntime) -> Result<(), Fail> {
    let alloc = rt.alloc();
    // 63 sums of 64 sums of 127 nodes, the map and xs
    assert!(rt; inlining_passes(alloc, 63, b"v", 63, StepLimit::Nodes, 8193)?);
    // 60 sums of 61 sums of 401 nodes, the map and xs; a height of 262 comes second
    assert!(rt; inlining_passes(alloc, 200, b"v", 60, StepLimit::Nodes, 24523)?);
    // the map, 60 sums, 200 sums and a number
    assert!(rt; inlining_passes(alloc, 200, b"1", 60, StepLimit::Depth, 262)?);
    Ok(())
}

// The map is 3 high, and each step makes it one higher.
#[test]
fn a_term_may_be_256_high(rt: HostRuntime) -> Result<(), Fail> {
    let alloc = rt.alloc();
    let program = declared(alloc, "map(\\x. add(x, 1), xs)")?;
    let script = repeated(alloc, b"at . local\n", 256)?;
    let want = StepNo::Limit {
        which: StepLimit::Depth,
        step: 254,
        count: 257,
    };
    assert!(rt; stops(alloc, &program, &script, want)?);
    Ok(())
}

// split(2, deep) has five arrays.
#[test]
fn types_are_limited(rt: HostRuntime) -> Result<(), Fail> {
    let want = StepNo::Limit {
        which: StepLimit::Types(TypeLimit::Arrays),
        step: 1,
        count: 5,
    };
    let program = b"input deep: [[[[u32; 2]; 2]; 2]; 4]; output map(\\x. x, deep)";
    assert!(rt; stops(rt.alloc(), program, b"at . split-map 2", want)?);
    Ok(())
}

// A map is put under a padding and back, as often as a script may have steps.
#[test]
fn a_script_has_up_to_256_steps(rt: HostRuntime) -> Result<(), Fail> {
    let alloc = rt.alloc();
    let program = declared(alloc, "map(\\x. x, pad(1, 1, xs))")?;
    let script = repeated(alloc, b"at . map-pad\nat . pad-map\n", 128)?;
    let mut want = repeated(
        alloc,
        b"map(\\_0. _0, pad(1, 1, xs))\npad(1, 1, map(\\_0. _0, xs))\n",
        128,
    )?;
    want.extend_from_slice(b"map(\\_0. _0, pad(1, 1, xs))\n")?;
    assert!(rt; has_lines(alloc, &program, &script, &want)?);
    Ok(())
}
