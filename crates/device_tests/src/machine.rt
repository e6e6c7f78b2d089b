//! The machine, event by event.

ghost use Rattle.std.specs.Prelude.{◌≡◌, None, length};

use crate::kernels::{nested, past_the_output, sums};
use kernel_tree::events::{Access, Cell, Event, Fault, FaultKind, Seen};
use kernel_tree::launches::{Cells, Launch};
use kernel_tree::tree::{Array, Kernel};
use ndrange_machine::Machine;
use std::alloc::{AllocError, Global};

// Words, what they are when 1 is added to each, and how many events that takes.
const SUMS: [(&[u32], &[u32], u32); 4] = [
    (&[1, 2, 4294967295], &[2, 3, 0], 10),
    (&[5, 0], &[6, 1], 7),
    (&[7], &[8], 4),
    (&[], &[], 1),
];

const FIRST_INPUT: Cell = Cell {
    array: Array::Input(0),
    index: 0,
};

const FIRST_OUTPUT: Cell = Cell {
    array: Array::Output(0),
    index: 0,
};

// One work-item of a kernel of one output, with these sizes.
fn start(
    alloc: Global,
    kernel: Kernel,
    sizes: Vec<u32>,
    ins: Vec<Vec<u32>>,
    out: Vec<u32>,
) -> Result<Machine, AllocError>
    requires inputs { kernel.inputs ≡ length ins.items }
    requires outputs { kernel.outputs ≡ 1 }
    requires sizes { kernel.sizes ≡ length sizes.items }
    requires local { kernel.local ≡ None }
{
    let launch = Launch {
        global: (1, 1),
        local: (1, 1),
        sizes,
    };
    let outs = vec![in alloc; out]?;
    Machine::start(alloc, kernel, launch, Cells { ins, outs, rest: 9 })
}

// The kernel that adds 1 to each word.
fn start_sums(alloc: Global, words: &[u32]) -> Result<Machine, AllocError> {
    let Ok(size) = u32::try_from(words.len()) else {
        return Err(AllocError);
    };
    let kernel = sums(alloc, 1)?;
    let ins = vec![in alloc; words.to_vec(alloc)?]?;
    let out = vec![in alloc; 0; words.len()]?;
    start(alloc, kernel, vec![in alloc; size]?, ins, out)
}

// Takes the first enabled event until there is none, and counts.
fn run(machine: &mut Machine) -> u32 {
    for events in 0..10_000 {
        if machine.enabled() == 0 {
            return events;
        }
        let event = machine.nth_enabled(0);
        let _ = machine.step(event);
    }
    10_000
}

fn leaves(machine: Machine, want: &[u32]) -> bool {
    let outs = machine.outputs();
    outs.len() == 1 && outs[0].as_slice() == want
}

// The next event is the first work-item's, and this is seen of it.
fn sees(machine: &mut Machine, access: Option<Access>, fault: Option<Fault>) -> bool {
    if machine.enabled() != 1 {
        return false;
    }
    let event = machine.nth_enabled(0);
    let want = Seen {
        event: Event::Step(0),
        access,
        fault,
    };
    machine.step(event) == want
}

fn sums_are(alloc: Global, words: &[u32], want: &[u32], events: u32) -> Result<bool, AllocError> {
    let mut machine = start_sums(alloc, words)?;
    Ok(run(&mut machine) == events && leaves(machine, want))
}

#[test]
fn increments(rt: HostRuntime) {
    for (words, want, events) in SUMS {
        let holds = sums_are(rt.alloc(), words, want, events).expect(&rt, "memory");
        assert!(rt; holds);
    }
}

#[test]
fn counts_three_events_a_turn(rt: HostRuntime) {
    let alloc = rt.alloc();
    let words = vec![in alloc; 5; 1000].expect(&rt, "memory");
    let sums = vec![in alloc; 6; 1000].expect(&rt, "memory");
    let holds = sums_are(alloc, words.as_slice(), sums.as_slice(), 3001).expect(&rt, "memory");
    assert!(rt; holds);
}

#[test]
fn tells_accesses(rt: HostRuntime) {
    let mut machine = start_sums(rt.alloc(), &[7]).expect(&rt, "memory");
    let accesses = [
        None,
        Some(Access::Read(FIRST_INPUT)),
        Some(Access::Write(FIRST_OUTPUT)),
        None,
    ];
    for access in accesses {
        assert!(rt; !machine.finished() && sees(&mut machine, access, None));
    }
    assert!(rt; machine.enabled() == 0 && machine.finished());
}

// Three events of the outer loop, and in each of its two turns three of the inner loop, two stores
// and an assignment.
#[test]
fn nests_loops(rt: HostRuntime) {
    let alloc = rt.alloc();
    let kernel = nested(alloc).expect(&rt, "memory");
    let sizes = vec![in alloc; 2].expect(&rt, "memory");
    let out = vec![in alloc; 0, 0].expect(&rt, "memory");
    let mut machine = start(alloc, kernel, sizes, Vec::new(alloc), out).expect(&rt, "memory");
    assert!(rt; run(&mut machine) == 15 && leaves(machine, &[1, 2]));
}

#[test]
fn tells_an_access_outside(rt: HostRuntime) {
    let alloc = rt.alloc();
    let kernel = past_the_output(alloc).expect(&rt, "memory");
    let out = vec![in alloc; 0].expect(&rt, "memory");
    let mut machine = start(alloc, kernel, Vec::new(alloc), Vec::new(alloc), out).expect(
        &rt, "memory",
    );
    let cell = Cell {
        array: Array::Output(0),
        index: 1,
    };
    let fault = Fault {
        kind: FaultKind::OutOfRange,
        cell: None,
    };
    assert!(rt; sees(&mut machine, Some(Access::Write(cell)), Some(fault)));
    assert!(rt; leaves(machine, &[0]));
}
