//! How far a run along a schedule has come.

ghost use Rattle.std.specs.Prelude.{◌≡◌, ◌+◌, ◌*◌, ◌%◌, ◌^◌, ◌∷◌, ◌++◌, List, [], length, slice_index, if◌then◌else◌};
ghost use Rattle.kernel_tree.specs.declared.events.Event as held_event;
ghost use Rattle.kernel_tree.specs.Schedule.{schedule_of, number_at};
ghost use Rattle.kernel_tree.specs.Schedule as order;
ghost use Rattle.ndrange_device.specs.Outcomes.{is_release};

use kernel_tree::events::Event;
use kernel_tree::launches::Schedule;

/// How many events and how many releases there were, both held at 2^64 - 1, and the state of a
/// seed's generator.
#[derive(Drop)]
pub struct Progress {
    pub events: u64,
    pub releases: u64,
    generator: u32,
}

impl Progress {
    ghost use Rattle.ndrange_device.specs.Progress.{HasCome};

    /// No event yet.
    pub fn start(schedule: &Schedule) -> Progress
        ensures { HasCome (schedule_of schedule.now) [] result }
    {
        let generator = match schedule {
            Schedule::Numbers(_) => 0,
            Schedule::Seed(seed) => *seed,
        };
        Progress {
            events: 0,
            releases: 0,
            generator,
        }
    }

    /// The schedule's number for the next event.
    #[inline(always)]
    pub fn number(&self, schedule: &Schedule) -> u32
        ensures { (es : List held_event.Event) → HasCome (schedule_of schedule.now) es self.now
            → result ≡ number_at (schedule_of schedule.now) (length es) }
    {
        match schedule {
            Schedule::Numbers(numbers) => word_at(numbers, self.events),
            Schedule::Seed(_) => generate(self.generator) / 65536,
        }
    }

    /// Counts an event.
    #[inline(always)]
    pub fn count(&mut self, event: Event)
        ensures { (schedule : order.Schedule) (es : List held_event.Event)
            → HasCome schedule es self.old → HasCome schedule (es ++ event ∷ []) self.new }
    {
        self.events = self.events.saturating_add(1);
        self.releases = self.releases.saturating_add(releases_of(event));
        self.generator = generate(self.generator);
    }
}

#[inline(always)]
fn releases_of(event: Event) -> u64
    ensures { result ≡ (if is_release event then 1 else 0) }
{
    match event {
        Event::Step(_) => 0,
        Event::Release(_) => 1,
    }
}

// The generator's next state.
#[inline(always)]
fn generate(state: u32) -> u32
    ensures { result ≡ (1664525 * state + 1013904223) % 2 ^ 32 }
{
    ((1664525 * u64::from(state) + 1013904223) % (1 << 32)) as u32
}

// The number at a place of the list, or 0 past its end.
#[inline(always)]
fn word_at(numbers: &[u32], place: u64) -> u32
    ensures { result ≡ slice_index numbers.now place }
{
    match numbers.get(place as usize) {
        Some(number) => *number,
        None => 0,
    }
}
