//! Kernels that nest as deep as a text's kernel may, run.

use crate::texts::{Run, text_leaves};
use std::alloc::{AllocError, Global};
use std::test::Fail;

// One work-item, and an output of one cell.
const ONE: Run = Run {
    text: "",
    global: (1, 1),
    local: (1, 1),
    input: &[],
    sizes: &[],
    output: 1,
};

const HEAD: &str = "__kernel void lift(__global uint *o0)\n{\n";

fn repeat(text: &mut String, part: &str, times: usize) -> Result<(), AllocError> {
    for _ in 0..times {
        text.push_str(part)?;
    }
    Ok(())
}

// Stores a sum of ones, so many sums deep.
fn sums(alloc: Global, depth: usize) -> Result<String, AllocError> {
    let mut text = String::from_str(alloc, HEAD)?;
    text.push_str("  o0[0u] = ")?;
    repeat(&mut text, "(", depth)?;
    text.push_str("1u")?;
    repeat(&mut text, " + 1u)", depth)?;
    text.push_str(";\n}\n")?;
    Ok(text)
}

// Stores 7 within so many loops of one turn, one in another.
fn loops(alloc: Global, depth: u16) -> Result<String, AllocError> {
    let mut text = String::from_str(alloc, HEAD)?;
    for level in 0..depth as usize {
        repeat(&mut text, "  ", level + 1)?;
        let line = format!(in alloc;
            "for (uint i{level} = 0u; i{level} < 1u; i{level} += 1u) {{\n"
        )?;
        text.push_str(line.as_str())?;
    }
    repeat(&mut text, "  ", depth as usize + 1)?;
    text.push_str("o0[0u] = 7u;\n")?;
    for level in 0..depth as usize {
        repeat(&mut text, "  ", depth as usize - level)?;
        text.push_str("}\n")?;
    }
    text.push_str("}\n")?;
    Ok(text)
}

#[test]
fn the_deepest_sum_is_run(rt: HostRuntime) -> Result<(), Fail> {
    let text = sums(rt.alloc(), 1023)?;
    assert!(rt; text_leaves(rt.alloc(), text.as_bytes(), &ONE, 1024, 1));
    Ok(())
}

// Each loop is tested twice.
#[test]
fn the_deepest_loops_are_run(rt: HostRuntime) -> Result<(), Fail> {
    let text = loops(rt.alloc(), 1024)?;
    assert!(rt; text_leaves(rt.alloc(), text.as_bytes(), &ONE, 7, 2049));
    Ok(())
}
