//! What a run leaves, and why it leaves nothing.

ghost use Rattle.std.specs.Prelude.{◌≡◌};
ghost use Rattle.ndrange_device.specs.declared.outcome.DeviceNo.TheVariants as no;
ghost use Rattle.ndrange_device.specs.Progress.{found_of};

use kernel_tree::events::{Cell, Event, Fault, FaultKind};
use std::alloc::AllocError;

/// What is left when a run is over: the cells of each output, and how many events and how many
/// releases it had. Both counts stay at 2^64 - 1 once there.
#[derive(Drop)]
pub struct Outcome {
    pub outputs: Vec<Vec<u32>>,
    pub events: u64,
    pub releases: u64,
}

/// Why a run has no outcome.
#[derive(Drop)]
pub enum DeviceNo {
    /// The event of this number, from 1, is a fault. It is a step of this work-item. A race has its
    /// cell, the least where several race. The number stays at 2^64 - 1 once there.
    Fault {
        kind: FaultKind,
        event: u64,
        item: u32,
        cell: Option<Cell>,
    },
    /// Memory ran out.
    Memory,
}

impl From<AllocError> for DeviceNo {
    ghost from_gives = { λ _ e. e ≡ no.Memory };

    fn from(_e: AllocError) -> DeviceNo {
        DeviceNo::Memory
    }
}

/// The fault in which a run ends.
#[derive(Drop)]
pub struct FaultFound {
    pub kind: FaultKind,
    pub event: u64,
    pub item: u32,
    pub cell: Option<Cell>,
}

impl From<FaultFound> for DeviceNo {
    ghost from_gives = { λ f e. e ≡ no.Fault f.kind f.event f.item f.cell };

    fn from(found: FaultFound) -> DeviceNo {
        DeviceNo::Fault {
            kind: found.kind,
            event: found.event,
            item: found.item,
            cell: found.cell,
        }
    }
}

/// What is found where the event of this number has this fault. A release has none.
#[inline(always)]
pub fn found(event: Event, fault: Option<Fault>, number: u64) -> Option<FaultFound>
    ensures { result ≡ found_of event fault number }
{
    match (event, fault) {
        (Event::Step(item), Some(fault)) => Some(FaultFound {
            kind: fault.kind,
            event: number,
            item,
            cell: fault.cell,
        }),
        _ => None,
    }
}
