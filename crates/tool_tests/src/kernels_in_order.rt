//! Kernels in order: their text and their runs, and what is refused, worked out by hand.
use crate::call::{COMPILE, Call, FIRST, RUN};
use crate::kernels::around;
use std::alloc::{AllocError, Global};
use std::test::Fail;

const STAGES: [&str; 3] = ["stages", "p.lift", "s.lift"];

const RUN_STAGES: [&str; 4] = ["run-stages", "p.lift", "s.lift", "l.json"];

const TWO_MAPS: &str = "input xs: [u32; 4]; output map(\\x. add(x, 1), map(\\x. mul(x, 2), xs))";

const CUT: &str = "at 0 to-glb\nat 0 then\nat . to-glb";

const BY_TWO: &str =
    "{\"launches\":[{\"global\":2,\"local\":1},{\"global\":2,\"local\":1}],\"sizes\":{},\"inputs\":{\"xs\":[1,2,3,4]}}";

const IN_ORDER: Call<'static> = Call {
    program: TWO_MAPS,
    script: CUT,
    launch: BY_TWO,
    ..FIRST
};

// The second kernel reads what the first made, its last input.
const TEXT: &str = "__kernel void lift0(__global const uint *a0, __global uint *o0)
{
  uint v0;
  for (uint i0 = (uint)get_global_id(0); i0 < 4u; i0 += (uint)get_global_size(0)) {
    v0 = a0[i0];
    o0[i0] = (v0 * 2u);
  }
}
__kernel void lift1(__global const uint *a0, __global const uint *a1, __global uint *o0)
{
  uint v0;
  for (uint i0 = (uint)get_global_id(0); i0 < 4u; i0 += (uint)get_global_size(0)) {
    v0 = a1[i0];
    o0[i0] = (v0 + 1u);
  }
}
";

// Each of two items has 2 turns of 3 events and the end of its loop, in each of two kernels.
const LINE: &str = "{\"value\":[3,5,7,9],\"events\":28,\"releases\":0}\n";

#[test]
fn two_maps_are_two_kernels(rt: HostRuntime) -> Result<(), Fail> {
    assert!(rt; IN_ORDER.ends(rt.alloc(), &STAGES, 0, TEXT, "")?);
    assert!(rt; IN_ORDER.ends(rt.alloc(), &RUN_STAGES, 0, LINE, "")?);

    // Neither is a kernel of one text.
    assert!(rt; IN_ORDER.ends(rt.alloc(), &COMPILE, 11, "", "lift: nest: N13 at 0\n")?);
    assert!(rt; IN_ORDER.ends(rt.alloc(), &RUN, 11, "", "lift: nest: N13 at 0\n")?);
    Ok(())
}

// A launch file's other keys are passed over, and every schedule leads to the same line: that each
// kernel begins it anew is proved, and shows in none.
const RUN_ALIKE: [&str; 3] = [
    "{\"global\":7,\"local\":[],\"launches\":[{\"global\":2,\"local\":1,\"name\":0},{\"global\":2,\"local\":1}],\"sizes\":{},\"inputs\":{\"xs\":[1,2,3,4]}}",
    "{\"launches\":[{\"global\":2,\"local\":2},{\"global\":2,\"local\":1}],\"sizes\":{},\"inputs\":{\"xs\":[1,2,3,4]},\"schedule\":[1,0,1]}",
    "{\"launches\":[{\"global\":2,\"local\":1},{\"global\":2,\"local\":1}],\"sizes\":{},\"inputs\":{\"xs\":[1,2,3,4]},\"schedule\":{\"seed\":7}}",
];

fn run_alike(alloc: Global) -> Result<bool, AllocError> {
    for launch in RUN_ALIKE {
        if !(Call { launch, ..IN_ORDER }).ends(alloc, &RUN_STAGES, 0, LINE, "")? {
            return Ok(false);
        }
    }
    Ok(true)
}

#[test]
fn other_launch_files_run_alike(rt: HostRuntime) -> Result<(), Fail> {
    assert!(rt; run_alike(rt.alloc())?);
    Ok(())
}

// Each kernel has launches of its own: one item has 4 turns of 3 events and the end of its loop,
// and each of four a turn and the end.
#[test]
fn each_kernel_has_its_own_launch(rt: HostRuntime) -> Result<(), Fail> {
    let call = Call {
        launch: "{\"launches\":[{\"global\":1,\"local\":1},{\"global\":4,\"local\":2}],\"sizes\":{},\"inputs\":{\"xs\":[1,2,3,4]}}",
        ..IN_ORDER
    };
    let line = "{\"value\":[3,5,7,9],\"events\":29,\"releases\":0}\n";
    assert!(rt; call.ends(rt.alloc(), &RUN_STAGES, 0, line, "")?);
    Ok(())
}

// A term without a cut is one kernel.
#[test]
fn a_term_without_a_cut_is_one_kernel(rt: HostRuntime) -> Result<(), Fail> {
    let one = Call {
        launch: "{\"launches\":[{\"global\":1,\"local\":1}],\"sizes\":{\"N\":1},\"inputs\":{\"xs\":[7]}}",
        ..FIRST
    };
    let text =
        "__kernel void lift0(__global const uint *a0, __global uint *o0, const uint s0)\n{\n  uint v0;\n  for (uint i0 = 0u; i0 < s0; i0 += 1u) {\n    v0 = a0[i0];\n    o0[i0] = (v0 + 1u);\n  }\n}\n";
    let line = "{\"value\":[8],\"events\":4,\"releases\":0}\n";
    assert!(rt; one.ends(rt.alloc(), &STAGES, 0, text, "")?);
    assert!(rt; one.ends(rt.alloc(), &RUN_STAGES, 0, line, "")?);
    Ok(())
}

const SIZED_TEXT: &str =
    "__kernel __attribute__((reqd_work_group_size(2, 1, 1))) void lift0(__global const uint *a0, __global uint *o0)
{
  uint v0;
  for (uint i0 = (uint)get_global_id(0); i0 < 4u; i0 += (uint)get_global_size(0)) {
    v0 = a0[i0];
    o0[i0] = (v0 * 2u);
  }
}
__kernel __attribute__((reqd_work_group_size(2, 1, 1))) void lift1(__global const uint *a0, __global const uint *a1, __global uint *o0)
{
  uint v0;
  for (uint i0 = (uint)get_global_id(0); i0 < 4u; i0 += (uint)get_global_size(0)) {
    v0 = a1[i0];
    o0[i0] = (v0 + 1u);
  }
}
";

// The size that a script fixes is every kernel's.
#[test]
fn a_fixed_size_is_of_each_kernel(rt: HostRuntime) -> Result<(), Fail> {
    let sized = Call {
        script: "launch local 2\nat 0 to-glb\nat 0 then\nat . to-glb",
        launch: "{\"launches\":[{\"global\":2,\"local\":2},{\"global\":2,\"local\":2}],\"sizes\":{},\"inputs\":{\"xs\":[1,2,3,4]}}",
        ..IN_ORDER
    };
    assert!(rt; sized.ends(rt.alloc(), &STAGES, 0, SIZED_TEXT, "")?);
    assert!(rt; sized.ends(rt.alloc(), &RUN_STAGES, 0, LINE, "")?);
    let other = Call {
        launch: "{\"launches\":[{\"global\":2,\"local\":2},{\"global\":2,\"local\":1}],\"sizes\":{},\"inputs\":{\"xs\":[1,2,3,4]}}",
        ..sized
    };
    let line = "lift: launch: global 2, local 1\n";
    assert!(rt; other.ends(rt.alloc(), &RUN_STAGES, 12, "", line)?);
    Ok(())
}

// A program, a script, and the line of the nest: a binder is around a cut, before any kernel is
// judged; and then the first kernel's first broken rule, before the second's.
const NESTS: [(&str, &str, &str); 3] = [
    (
        "input xs: [u32; 4]; output let y = map(\\x. x, xs) in map(\\z. fold(\\a b. add(a, b), z, y), xs)",
        "at 0 then\nat . let-inline",
        "lift: nest: N13 at 1.0\n",
    ),
    (TWO_MAPS, "at 0 then\nat . to-glb", "lift: nest: N1 at .\n"),
    (TWO_MAPS, "at 0 to-lcl\nat 0 then", "lift: nest: N2 at .\n"),
];

fn nests_end(alloc: Global, words: &[&str]) -> Result<bool, AllocError> {
    for (program, script, line) in NESTS {
        let call = Call {
            program,
            script,
            ..IN_ORDER
        };
        if !call.ends(alloc, words, 11, "", line)? {
            return Ok(false);
        }
    }
    Ok(true)
}

#[test]
fn nests_are_judged_kernel_by_kernel(rt: HostRuntime) -> Result<(), Fail> {
    assert!(rt; nests_end(rt.alloc(), &STAGES)?);
    assert!(rt; nests_end(rt.alloc(), &RUN_STAGES)?);
    Ok(())
}

// One map that is cut off so many times, and the map over it.
#[test]
fn at_most_sixteen_kernels_are_cut(rt: HostRuntime) -> Result<(), Fail> {
    let script = around(rt.alloc(), "", "at 0 then\n", 16, "")?;
    let call = Call {
        script: script.as_str(),
        ..IN_ORDER
    };
    let line = "lift: limit kernels: 17\n";
    assert!(rt; call.ends(rt.alloc(), &STAGES, 10, "", line)?);
    assert!(rt; call.ends(rt.alloc(), &RUN_STAGES, 10, "", line)?);
    let script = around(rt.alloc(), "", "at 0 then\n", 15, "")?;
    let call = Call {
        script: script.as_str(),
        ..IN_ORDER
    };
    assert!(rt; call.ends(rt.alloc(), &STAGES, 11, "", "lift: nest: N1 at .\n")?);
    Ok(())
}

const LAUNCHES: [(&str, &str); 12] = [
    ("[]", "lift: launch: not json\n"),
    (
        "{\"global\":2,\"local\":1,\"sizes\":{},\"inputs\":{\"xs\":[1,2,3,4]}}",
        "lift: launch: missing launches\n",
    ),
    (
        "{\"launches\":{},\"sizes\":{},\"inputs\":{\"xs\":[1,2,3,4]}}",
        "lift: launch: missing launches\n",
    ),
    (
        "{\"launches\":[{\"global\":2,\"local\":1}],\"sizes\":{},\"inputs\":{\"xs\":[1,2,3,4]}}",
        "lift: launch: missing launches\n",
    ),
    (
        "{\"launches\":[{\"global\":2,\"local\":1},{\"global\":2,\"local\":1},{\"global\":2,\"local\":1}],\"sizes\":{},\"inputs\":{\"xs\":[1,2,3,4]}}",
        "lift: launch: missing launches\n",
    ),
    (
        "{\"launches\":[{\"global\":2,\"local\":1},7],\"sizes\":{},\"inputs\":{\"xs\":[1,2,3,4]}}",
        "lift: launch: missing launches\n",
    ),
    (
        "{\"launches\":[{\"global\":2,\"local\":1},{\"local\":1}],\"sizes\":{},\"inputs\":{\"xs\":[1,2,3,4]}}",
        "lift: launch: missing launches.1.global\n",
    ),
    (
        "{\"launches\":[{\"global\":2.0,\"local\":1},{\"local\":1}],\"sizes\":{},\"inputs\":{\"xs\":[1,2,3,4]}}",
        "lift: launch: missing launches.0.global\n",
    ),
    (
        "{\"launches\":[{\"global\":2},{}],\"sizes\":{},\"inputs\":{\"xs\":[1,2,3,4]}}",
        "lift: launch: missing launches.0.local\n",
    ),
    // All of one kernel's checks come before the next kernel's, and before the inputs'.
    (
        "{\"launches\":[{\"global\":3,\"local\":2},{}],\"sizes\":{},\"inputs\":{\"xs\":[1,2,3]}}",
        "lift: launch: global 3, local 2\n",
    ),
    (
        "{\"launches\":[{\"global\":2,\"local\":1},{\"global\":2,\"local\":1}],\"sizes\":{},\"inputs\":{\"xs\":[1,2,3]}}",
        "lift: launch: shape xs\n",
    ),
    (
        "{\"launches\":[{\"global\":2,\"local\":1},{\"global\":2,\"local\":1}],\"sizes\":{},\"inputs\":{}}",
        "lift: launch: missing inputs.xs\n",
    ),
];

fn launches_end(alloc: Global) -> Result<bool, AllocError> {
    for (launch, line) in LAUNCHES {
        if !(Call { launch, ..IN_ORDER }).ends(alloc, &RUN_STAGES, 12, "", line)? {
            return Ok(false);
        }
    }
    Ok(true)
}

// The first kernel has no parallel map.
#[test]
fn launches_are_refused_by_the_first_check(rt: HostRuntime) -> Result<(), Fail> {
    assert!(rt; launches_end(rt.alloc())?);
    let alone = Call {
        script: "at 0 to-seq\nat 0 then\nat . to-glb",
        ..IN_ORDER
    };
    let line = "lift: launch: global 2 for one item\n";
    assert!(rt; alone.ends(rt.alloc(), &RUN_STAGES, 12, "", line)?);
    Ok(())
}

#[test]
fn other_words_are_refused(rt: HostRuntime) -> Result<(), Fail> {
    let few = ["stages", "p.lift"].as_slice();
    assert!(rt; IN_ORDER.ends(rt.alloc(), few, 2, "", "lift: words\n")?);
    let traced = ["run-stages", "p.lift", "s.lift", "l.json", "--trace"].as_slice();
    assert!(rt; IN_ORDER.ends(rt.alloc(), traced, 2, "", "lift: words\n")?);
    Ok(())
}

#[test]
fn reads_and_writes_fail_as_for_other_commands(rt: HostRuntime) -> Result<(), Fail> {
    let second = Call {
        failing_reads: &[2],
        ..IN_ORDER
    };
    assert!(rt; second.ends(rt.alloc(), &STAGES, 3, "", "lift: read s.lift\n")?);
    let third = Call {
        failing_reads: &[3],
        ..IN_ORDER
    };
    assert!(rt; third.ends(rt.alloc(), &RUN_STAGES, 3, "", "lift: read l.json\n")?);
    let cut = Call {
        failing_out: &[2],
        ..IN_ORDER
    };
    assert!(rt; cut.ends(rt.alloc(), &STAGES, 4, "__kernel void li", "lift: write\n")?);
    assert!(rt;
        cut.ends(
            rt.alloc(),
            &RUN_STAGES,
            4,
            "{\"value\":[3,5,7,",
            "lift: write\n"
        )?
    );
    Ok(())
}
