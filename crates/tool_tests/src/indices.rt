//! Indices and bounds of compiled kernels.
use crate::call::{COMPILE, Call, FIRST, RUN};
use std::alloc::{AllocError, Global};
use std::test::Fail;

// A program, what its kernel declares behind the output, its bound, and where it reads. In the last
// one the layouts don't undo one another.
const COPIES: [(&str, &str, &str, &str); 4] = [
    (
        "input xs: [[u32; 3]; 2]; output map(\\x. x, join(xs))",
        "",
        "6u",
        "i0",
    ),
    (
        "size N multiple 2 from 2 to 8; input xs: [u32; N]; output map(\\x. x, xs)",
        ", const uint s0",
        "s0",
        "i0",
    ),
    (
        "size N multiple 2 from 2 to 8; input xs: [u32; N]; output map(\\x. x, join(split(2, xs)))",
        ", const uint s0",
        "s0",
        "i0",
    ),
    (
        "input xs: [u32; 6]; output map(\\x. x, join(transpose(split(3, xs))))",
        "",
        "6u",
        "(((i0 % 2u) * 3u) + (i0 / 2u))",
    ),
];

fn copies(
    alloc: Global,
    program: &str,
    sizes: &str,
    bound: &str,
    index: &str,
) -> Result<bool, AllocError> {
    let kernel = format!(in alloc;
        "__kernel void lift(__global const uint *a0, __global uint *o0{sizes})\n{{\n  uint v0;\n  for (uint i0 = 0u; i0 < {bound}; i0 += 1u) {{\n    v0 = a0[{index}];\n    o0[i0] = v0;\n  }}\n}}\n"
    )?;
    Call { program, ..FIRST }.ends(alloc, &COMPILE, 0, kernel.as_str(), "")
}

#[test]
fn copies_have_tidy_indices(rt: HostRuntime) -> Result<(), Fail> {
    for (program, sizes, bound, index) in COPIES {
        assert!(rt; copies(rt.alloc(), program, sizes, bound, index)?);
    }
    Ok(())
}

#[test]
fn a_join_is_copied_in_order(rt: HostRuntime) -> Result<(), Fail> {
    let call = Call {
        program: COPIES[0].0,
        launch: "{\"global\":1,\"local\":1,\"sizes\":{},\"inputs\":{\"xs\":[[1,2,3],[4,5,6]]}}",
        ..FIRST
    };
    let line = "{\"value\":[1,2,3,4,5,6],\"events\":19,\"releases\":0}\n";
    assert!(rt; call.ends(rt.alloc(), &RUN, 0, line, "")?);
    Ok(())
}

// In rows as long as the inner loop the layouts undo one another.
const ROWS: &str =
    "__kernel void lift(__global const uint *a0, __global uint *o0, const uint s0, const uint s1)\n{\n  uint v0;\n  for (uint i0 = 0u; i0 < s0; i0 += 1u) {\n    for (uint i1 = 0u; i1 < s1; i1 += 1u) {\n      v0 = a0[((i1 * s0) + i0)];\n      o0[((i0 * s1) + i1)] = v0;\n    }\n  }\n}\n";

#[test]
fn layouts_that_undo_one_another_are_left_out(rt: HostRuntime) -> Result<(), Fail> {
    let call = Call {
        program: "size N from 1 to 8; size M from 1 to 8; input xs: [[u32; N]; M]; output map(\\r. map(\\x. x, r), split(M, join(transpose(xs))))",
        script: "at 1 to-seq\nat . to-seq",
        ..FIRST
    };
    assert!(rt; call.ends(rt.alloc(), &COMPILE, 0, ROWS, "")?);
    Ok(())
}
