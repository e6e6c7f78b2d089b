//! Maps over work-groups, compiled and run: values, events and releases, worked out by hand.
use crate::call::{COMPILE, Call, FIRST, RUN};
use crate::kernels::around;
use std::alloc::{AllocError, Global};
use std::test::Fail;

const STENCIL: &str =
    "size N multiple 2 from 2 to 4096; input xs: [u32; N]; output join(map(\\w. reduce(add, 0, w), slide(3, 1, pad(1, 1, xs))))";

// Tiles of two windows, copied to local memory.
const TILES: &str =
    "at 0.0 tile-slide 2\nat 0 map-join\nat 0.0 fuse-map\nat 0.0.1 let-inline\nat 0.0.1.0.0 local-copy\nat 0.0.1.1 reduce-fold\nat 0.0.1.1 fold-seq\nat 0.0.1 to-lcl\nat 0.0 to-wrg";

// Three tiles use one local array in turn, by one group.
const THREE_TILES: &str =
    "{\"global\":2,\"local\":2,\"sizes\":{\"N\":6},\"inputs\":{\"xs\":[1,2,3,4,5,6]},\"schedule\":";

const SCHEDULES: [&str; 22] = [
    "[]",
    "[1,0,1]",
    "{\"seed\":1}",
    "{\"seed\":2}",
    "{\"seed\":3}",
    "{\"seed\":4}",
    "{\"seed\":5}",
    "{\"seed\":6}",
    "{\"seed\":7}",
    "{\"seed\":8}",
    "{\"seed\":9}",
    "{\"seed\":10}",
    "{\"seed\":11}",
    "{\"seed\":12}",
    "{\"seed\":13}",
    "{\"seed\":14}",
    "{\"seed\":15}",
    "{\"seed\":16}",
    "{\"seed\":17}",
    "{\"seed\":18}",
    "{\"seed\":19}",
    "{\"seed\":20}",
];

fn tiles_run_alike(alloc: Global) -> Result<bool, AllocError> {
    let line = "{\"value\":[4,6,9,12,15,17],\"events\":140,\"releases\":6}\n";
    for schedule in SCHEDULES {
        let launch = around(alloc, THREE_TILES, schedule, 1, "}")?;
        let call = Call {
            program: STENCIL,
            script: TILES,
            launch: launch.as_str(),
            ..FIRST
        };
        if !call.ends(alloc, &RUN, 0, line, "")? {
            return Ok(false);
        }
    }
    Ok(true)
}

#[test]
fn tiles_of_a_stencil_run_alike_under_each_schedule(rt: HostRuntime) -> Result<(), Fail> {
    assert!(rt; tiles_run_alike(rt.alloc())?);
    Ok(())
}

// Two tiles by five groups of three: three groups have no turn, and in each other one the last
// work-item has no window.
#[test]
fn work_items_without_a_window_meet_the_barriers(rt: HostRuntime) -> Result<(), Fail> {
    let call = Call {
        program: STENCIL,
        script: TILES,
        launch: "{\"global\":15,\"local\":3,\"sizes\":{\"N\":4},\"inputs\":{\"xs\":[1,2,3,4]}}",
        ..FIRST
    };
    let line = "{\"value\":[4,6,9,11],\"events\":113,\"releases\":4}\n";
    assert!(rt; call.ends(rt.alloc(), &RUN, 0, line, "")?);
    Ok(())
}

// Each work-item reads from local memory only what it wrote there, so no barrier stands.
#[test]
fn aligned_phases_have_no_barrier(rt: HostRuntime) -> Result<(), Fail> {
    let call = Call {
        program: "size N multiple 2 from 2 to 1000; input xs: [u32; N]; output map(\\x. add(x, 1), xs)",
        script: "at . split-map 2\nat 0.1.0 local-copy\nat 0.1 to-lcl\nat 0 to-wrg",
        launch: "{\"global\":4,\"local\":2,\"sizes\":{\"N\":4},\"inputs\":{\"xs\":[1,2,3,4]}}",
        ..FIRST
    };
    let line = "{\"value\":[2,3,4,5],\"events\":40,\"releases\":0}\n";
    assert!(rt; call.ends(rt.alloc(), &RUN, 0, line, "")?);
    Ok(())
}

// Two tiles of 8,192 numbers, copied to local memory one after another.
const LARGE_TILES: &str = "__kernel void lift(__global const uint *a0, __global uint *o0)
{
  __local uint l0[8192];
  uint v0;
  uint v1;
  for (uint i0 = (uint)get_group_id(0); i0 < 2u; i0 += (uint)get_num_groups(0)) {
    for (uint i1 = (uint)get_local_id(0); i1 < 8192u; i1 += (uint)get_local_size(0)) {
      v0 = a0[((i0 * 8192u) + i1)];
      l0[i1] = v0;
    }
    for (uint i1 = (uint)get_local_id(0); i1 < 8192u; i1 += (uint)get_local_size(0)) {
      v1 = l0[i1];
      o0[((i0 * 8192u) + i1)] = v1;
    }
  }
}
";

#[test]
fn local_memory_may_have_32768_bytes(rt: HostRuntime) -> Result<(), Fail> {
    let call = Call {
        program: "input xs: [u32; 16384]; output map(\\x. x, xs)",
        script: "at . split-map 8192\nat 0.1.0 local-copy\nat 0.1 to-lcl\nat 0 to-wrg",
        ..FIRST
    };
    assert!(rt; call.ends(rt.alloc(), &COMPILE, 0, LARGE_TILES, "")?);
    Ok(())
}

#[test]
fn local_bytes_are_limited(rt: HostRuntime) -> Result<(), Fail> {
    let call = Call {
        program: "input xs: [u32; 16386]; output map(\\x. x, xs)",
        script: "at . split-map 8193\nat 0.1.0 local-copy\nat 0.1 to-lcl\nat 0 to-wrg",
        ..FIRST
    };
    assert!(rt; call.ends(rt.alloc(), &COMPILE, 10, "", "lift: limit local: 32772\n")?);
    Ok(())
}
