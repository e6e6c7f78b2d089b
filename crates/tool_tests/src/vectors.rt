//! Vectors of four: kernels, runs, costs and refusals, worked out by hand.
use crate::call::{COMPILE, Call, FIRST, RUN, STEPS};
use std::alloc::{AllocError, Global};
use std::test::Fail;

const TRACED: [&str; 5] = ["run", "p.lift", "s.lift", "l.json", "--trace"];

const BY_ITEMS: [&str; 5] = ["cost", "p.lift", "s.lift", "l.json", "--items"];

const STAGES: [&str; 3] = ["stages", "p.lift", "s.lift"];

const RUN_STAGES: [&str; 4] = ["run-stages", "p.lift", "s.lift", "l.json"];

// Two vectors, by two work-items.
const ONE_ADDED: Call<'static> = Call {
    program: "input xs: [u32; 8]; output map(\\x. add(x, 1), xs)",
    script: "at . vector\nat 0 to-glb",
    launch: "{\"global\":2,\"local\":1,\"sizes\":{},\"inputs\":{\"xs\":[1,2,3,4,5,6,7,8]}}",
    ..FIRST
};

const ONE_ADDED_KERNEL: &str = "__kernel void lift(__global const uint *a0, __global uint *o0)
{
  uint4 w0;
  for (uint i0 = (uint)get_global_id(0); i0 < 2u; i0 += (uint)get_global_size(0)) {
    w0 = vload4(i0, a0);
    vstore4((w0 + (uint4)(1u)), i0, o0);
  }
}
";

const ONE_ADDED_TOLD: &str =
    "step 0\nstep 0 reads4 a0 0\nstep 0 writes4 o0 0\nstep 0\nstep 1\nstep 1 reads4 a0 4\nstep 1 writes4 o0 4\nstep 1\n{\"value\":[2,3,4,5,6,7,8,9],\"events\":8,\"releases\":0}\n";

// A load or a store of four counts four.
const ONE_ADDED_COST: &str =
    "item 0: global loads 4, global stores 4, local loads 0, local stores 0\nitem 1: global loads 4, global stores 4, local loads 0, local stores 0\ncost: global loads 8, global stores 8, local loads 0, local stores 0, releases 0\n";

const ONE_ADDED_STEPS: &str =
    "map(\\_0. add(_0, 1), xs)\nasScalar(map(\\_0. add(_0, 1), asVector(4, xs)))\nasScalar(mapGlb(\\_0. add(_0, 1), asVector(4, xs)))\n";

#[test]
fn a_map_is_worked_out_in_fours(rt: HostRuntime) -> Result<(), Fail> {
    assert!(rt; ONE_ADDED.ends(rt.alloc(), &COMPILE, 0, ONE_ADDED_KERNEL, "")?);
    assert!(rt; ONE_ADDED.ends(rt.alloc(), &TRACED, 0, ONE_ADDED_TOLD, "")?);
    assert!(rt; ONE_ADDED.ends(rt.alloc(), &BY_ITEMS, 0, ONE_ADDED_COST, "")?);
    assert!(rt; ONE_ADDED.ends(rt.alloc(), &STEPS, 0, ONE_ADDED_STEPS, "")?);
    Ok(())
}

// Three maps, fused: three variables of four.
const FUSED: Call<'static> = Call {
    program: "input xs: [u32; 4]; output map(\\x. div(x, 3), map(\\x. min(x, mul(x, x)), map(\\x. sub(9, x), xs)))",
    script: "at 0.0 vector\nat 0 vector\nat . vector\nat 0.0 vector-scalar\nat 0.0.0 vector-scalar\nat 0.0 fuse-map\nat 0 fuse-map\nat 0 to-seq",
    launch: "{\"global\":1,\"local\":1,\"sizes\":{},\"inputs\":{\"xs\":[1,7,8,9]}}",
    ..FIRST
};

// The loop has one turn, and the offset is its variable alone.
const FUSED_KERNEL: &str = "__kernel void lift(__global const uint *a0, __global uint *o0)
{
  uint4 w0;
  uint4 w1;
  uint4 w2;
  for (uint i0 = 0u; i0 < 1u; i0 += 1u) {
    w0 = vload4(i0, a0);
    w1 = ((uint4)(9u) - w0);
    w2 = min(w1, (w1 * w1));
    vstore4((w2 / (uint4)(3u)), i0, o0);
  }
}
";

const FUSED_LINE: &str = "{\"value\":[2,0,0,0],\"events\":6,\"releases\":0}\n";

#[test]
fn maps_in_fours_are_fused(rt: HostRuntime) -> Result<(), Fail> {
    assert!(rt; FUSED.ends(rt.alloc(), &COMPILE, 0, FUSED_KERNEL, "")?);
    assert!(rt; FUSED.ends(rt.alloc(), &RUN, 0, FUSED_LINE, "")?);
    Ok(())
}

// A number of another array beside the vectors: a variable of each kind.
const BESIDE: Call<'static> = Call {
    program: "input xs: [u32; 8]; input ys: [u32; 3]; output map(\\y. map(\\x. xor(x, add(y, 1)), xs), ys)",
    script: "at 1 vector\nat 1.0 to-seq\nat . to-glb",
    launch: "{\"global\":3,\"local\":1,\"sizes\":{},\"inputs\":{\"xs\":[0,1,2,3,4,5,6,7],\"ys\":[0,1,7]}}",
    ..FIRST
};

// Each of three items has a turn of a load and two turns of two.
const BESIDE_LINE: &str =
    "{\"value\":[[1,0,3,2,5,4,7,6],[2,3,0,1,6,7,4,5],[8,9,10,11,12,13,14,15]],\"events\":30,\"releases\":0}\n";

#[test]
fn a_number_stands_for_four(rt: HostRuntime) -> Result<(), Fail> {
    assert!(rt; BESIDE.ends(rt.alloc(), &RUN, 0, BESIDE_LINE, "")?);
    Ok(())
}

// A row for a group, through local memory, which its items read in fours.
const BY_GROUPS: Call<'static> = Call {
    program: "input xs: [[u32; 8]; 2]; output map(\\r. map(\\x. mul(x, 3), r), xs)",
    script: "at 1 vector\nat 1.0.0.0 local-copy\nat 1.0 to-lcl\nat . to-wrg",
    launch: "{\"global\":4,\"local\":2,\"sizes\":{},\"inputs\":{\"xs\":[[1,2,3,4,5,6,7,8],[0,0,0,0,0,0,0,9]]}}",
    ..FIRST
};

// An item has a turn of the group's loop, in it four turns of the copy and one of two statements;
// neighbours read what it copied, so both barriers stand.
const BY_GROUPS_LINE: &str =
    "{\"value\":[[3,6,9,12,15,18,21,24],[0,0,0,0,0,0,0,27]],\"events\":80,\"releases\":4}\n";

const BY_GROUPS_COST: &str =
    "item 0: global loads 4, global stores 4, local loads 4, local stores 4\nitem 1: global loads 4, global stores 4, local loads 4, local stores 4\nitem 2: global loads 4, global stores 4, local loads 4, local stores 4\nitem 3: global loads 4, global stores 4, local loads 4, local stores 4\ncost: global loads 16, global stores 16, local loads 16, local stores 16, releases 4\n";

#[test]
fn groups_read_local_arrays_in_fours(rt: HostRuntime) -> Result<(), Fail> {
    assert!(rt; BY_GROUPS.ends(rt.alloc(), &RUN, 0, BY_GROUPS_LINE, "")?);
    assert!(rt; BY_GROUPS.ends(rt.alloc(), &BY_ITEMS, 0, BY_GROUPS_COST, "")?);
    Ok(())
}

// Two kernels: an array of numbers between them, and one of vectors, whose text is the same.
const TWICE: &str = "input xs: [u32; 8]; output map(\\x. add(x, 1), map(\\x. mul(x, 2), xs))";

const NUMBERS_BETWEEN: &str = "at 0 vector\nat 0.0 to-glb\nat 0 then\nat . vector\nat 0 to-glb";

const VECTORS_BETWEEN: &str =
    "at 0 vector\nat . vector\nat 0.0 vector-scalar\nat 0.0 to-glb\nat 0.0 then\nat 0 to-glb";

const IN_ORDER: Call<'static> = Call {
    program: TWICE,
    script: NUMBERS_BETWEEN,
    launch: "{\"launches\":[{\"global\":2,\"local\":1},{\"global\":1,\"local\":1}],\"sizes\":{},\"inputs\":{\"xs\":[1,2,3,4,5,6,7,8]}}",
    ..FIRST
};

const IN_ORDER_TEXT: &str = "__kernel void lift0(__global const uint *a0, __global uint *o0)
{
  uint4 w0;
  for (uint i0 = (uint)get_global_id(0); i0 < 2u; i0 += (uint)get_global_size(0)) {
    w0 = vload4(i0, a0);
    vstore4((w0 * (uint4)(2u)), i0, o0);
  }
}
__kernel void lift1(__global const uint *a0, __global const uint *a1, __global uint *o0)
{
  uint4 w0;
  for (uint i0 = (uint)get_global_id(0); i0 < 2u; i0 += (uint)get_global_size(0)) {
    w0 = vload4(i0, a1);
    vstore4((w0 + (uint4)(1u)), i0, o0);
  }
}
";

const IN_ORDER_LINE: &str = "{\"value\":[3,5,7,9,11,13,15,17],\"events\":15,\"releases\":0}\n";

#[test]
fn kernels_in_order_hand_on_vectors(rt: HostRuntime) -> Result<(), Fail> {
    for script in [NUMBERS_BETWEEN, VECTORS_BETWEEN] {
        let call = Call { script, ..IN_ORDER };
        assert!(rt; call.ends(rt.alloc(), &STAGES, 0, IN_ORDER_TEXT, "")?);
        assert!(rt; call.ends(rt.alloc(), &RUN_STAGES, 0, IN_ORDER_LINE, "")?);
    }
    Ok(())
}

// Under a fixed local size a vector for each item of a group has no loop.
const FIXED: Call<'static> = Call {
    program: "input xs: [u32; 16]; output map(\\x. add(x, 1), xs)",
    script: "launch local 2\nat . vector\nat 0 split-map 2\nat 0.0.1 to-lcl\nat 0.0 to-wrg",
    launch: "{\"global\":4,\"local\":2,\"sizes\":{},\"inputs\":{\"xs\":[0,1,2,3,4,5,6,7,8,9,10,11,12,13,14,15]}}",
    ..FIRST
};

const FIXED_LINE: &str =
    "{\"value\":[1,2,3,4,5,6,7,8,9,10,11,12,13,14,15,16],\"events\":16,\"releases\":0}\n";

// In rows and along them: two rows of two vectors, by as many items.
const IN_ROWS: Call<'static> = Call {
    script: "at . vector\nat 0 split-map 2\nat 0.0.1 to-glb\nat 0.0 to-glb1",
    launch: "{\"global\":[2,2],\"local\":[1,1],\"sizes\":{},\"inputs\":{\"xs\":[0,1,2,3,4,5,6,7,8,9,10,11,12,13,14,15]}}",
    ..FIXED
};

const IN_ROWS_LINE: &str =
    "{\"value\":[1,2,3,4,5,6,7,8,9,10,11,12,13,14,15,16],\"events\":24,\"releases\":0}\n";

#[test]
fn vectors_stand_in_groups_of_a_size_and_in_rows(rt: HostRuntime) -> Result<(), Fail> {
    assert!(rt; FIXED.ends(rt.alloc(), &RUN, 0, FIXED_LINE, "")?);
    assert!(rt; IN_ROWS.ends(rt.alloc(), &RUN, 0, IN_ROWS_LINE, "")?);
    Ok(())
}

// A program, a script, the status of `compile` and its line.
const REFUSED: [(&str, &str, u8, &str); 9] = [
    (
        "input xs: [u32; 10]; output map(\\x. add(x, 1), xs)",
        "at . vector",
        9,
        "lift: step 1: side divides\n",
    ),
    (
        "input xs: [u32; 8]; output map(\\x. lt(x, 1), xs)",
        "at . vector",
        9,
        "lift: step 1: side lanes\n",
    ),
    (
        "input xs: [u32; 8]; output map(\\x. 1, xs)",
        "at . vector",
        9,
        "lift: step 1: side lanes\n",
    ),
    (
        "input xs: [u32; 8]; output map(\\x. x, xs)",
        "at . vector\nat 0 to-seq\nat . vector-scalar",
        9,
        "lift: step 3: shape\n",
    ),
    (
        "input xs: [[u32; 4]; 4]; output map(\\r. map(\\x. x, r), transpose(xs))",
        "at 1 vector\nat 1.0 to-seq\nat . to-seq",
        11,
        "lift: nest: N15 at 1.0.0\n",
    ),
    (
        "input xs: [[u32; 4]; 4]; output transpose(map(\\r. map(\\x. x, r), xs))",
        "at 0.1 vector\nat 0.1.0 to-seq\nat 0 to-seq",
        11,
        "lift: nest: N15 at 0.1\n",
    ),
    (
        TWICE,
        "at 0 vector\nat 0.0 to-seq\nat . to-seq",
        11,
        "lift: nest: N15 at 0\n",
    ),
    (
        "input xs: [u32; 8]; output map(\\x. add(x, 1), xs)",
        "at . vector\nat 0 to-seq\nat 0.0 private-copy",
        11,
        "lift: nest: N15 at 0.0\n",
    ),
    (
        "input xs: [u32; 8]; output map(\\x. add(x, 1), xs)",
        "at . vector\nat 0 to-seq\nat 0.0.0 private-copy",
        11,
        "lift: nest: N15 at 0.0\n",
    ),
];

fn are_refused(alloc: Global) -> Result<bool, AllocError> {
    for (program, script, status, line) in REFUSED {
        if !(Call {
            program,
            script,
            ..FIRST
        })
        .ends(alloc, &COMPILE, status, "", line)?
        {
            return Ok(false);
        }
    }
    Ok(true)
}

#[test]
fn what_cannot_be_vectors_is_refused(rt: HostRuntime) -> Result<(), Fail> {
    assert!(rt; are_refused(rt.alloc())?);
    Ok(())
}
