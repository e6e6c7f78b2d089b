//! The demo's line, whatever its seed, and the seeds that are refused.
use crate::call::{Call, FIRST};
use std::alloc::{AllocError, Global};
use std::test::Fail;

// Worked out from the generator, apart from any kernel.
const SEVENTH: &str = "demo 7: events 72448, releases 128, sum 1541060608\n";

// Each number of the data is in three windows: itself, and once more for each of its neighbours,
// for which it stands itself at the ends.
fn tripled_sum(seed: u32) -> u32 {
    let mut state = seed;
    let mut sum: u32 = 0;
    for _ in 0..4096 {
        state = state.wrapping_mul(1_664_525).wrapping_add(1_013_904_223);
        sum = sum.wrapping_add(state);
    }
    sum.wrapping_mul(3)
}

// A demo, whose reads would fail: it makes none.
fn tells(alloc: Global, word: &str, line: &str) -> Result<bool, AllocError> {
    let call = Call {
        failing_reads: &[1, 2, 3],
        ..FIRST
    };
    call.ends(alloc, &["demo", word], 0, line, "")
}

fn tells_its_sum(alloc: Global, word: &str, seed: u32) -> Result<bool, AllocError> {
    let sum = tripled_sum(seed);
    let line = format!(in alloc; "demo {seed}: events 72448, releases 128, sum {sum}\n")?;
    tells(alloc, word, line.as_str())
}

// The events and releases are the same for each seed.
const SEEDS: [(&str, u32); 3] = [("7", 7), ("0", 0), ("4294967295", 4_294_967_295)];

#[test]
fn a_demo_tells_events_releases_and_sum(rt: HostRuntime) -> Result<(), Fail> {
    assert!(rt; tells(rt.alloc(), "7", SEVENTH)?);
    for (word, seed) in SEEDS {
        assert!(rt; tells_its_sum(rt.alloc(), word, seed)?);
    }
    Ok(())
}

fn is_refused(alloc: Global, words: &[&str]) -> Result<bool, AllocError> {
    FIRST.ends(alloc, words, 2, "", "lift: words\n")
}

#[test]
fn a_seed_is_a_decimal_of_32_bits(rt: HostRuntime) -> Result<(), Fail> {
    for word in ["07", "00", "4294967296", "+7", "7 ", "x", ""] {
        assert!(rt; is_refused(rt.alloc(), &["demo", word])?);
    }
    assert!(rt; is_refused(rt.alloc(), &["demo", "-7"])?);
    assert!(rt; is_refused(rt.alloc(), &["demo"])?);
    assert!(rt; is_refused(rt.alloc(), &["demo", "7", "7"])?);
    Ok(())
}

// The first 16 bytes were taken.
#[test]
fn a_demo_whose_output_fails_has_written_a_prefix(rt: HostRuntime) -> Result<(), Fail> {
    let call = Call {
        failing_out: &[2],
        ..FIRST
    };
    assert!(rt;
        call.ends(
            rt.alloc(),
            &["demo", "7"],
            4,
            "demo 7: events 7",
            "lift: write\n"
        )?
    );
    Ok(())
}
