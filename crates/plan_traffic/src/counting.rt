//! The traffic of a planned term, item by item and group by group.

ghost use Rattle.std.specs.Prelude.{◌≡◌, ◌<◌, ◌≤◌, ◌+◌, ℕ};
ghost use Rattle.kernel_tree.specs.Launch.{first_item, group_count, group_of, ids_of, item_count, IsWhole};
ghost use Rattle.lift_ir.specs.AtLaunch.{length_at};
ghost use Rattle.lowering.specs.Terms.{term_of};
ghost use Rattle.size_arith.specs.Ranges.{AreNames};
ghost use Rattle.term_traffic.specs.Short.{HasShortLoops};
ghost use Rattle.term_traffic.specs.Traffic.{group_turns, releases_of, row_turns as turns_in_row, traffic_of, whole_traffic};
ghost use Rattle.launch_lengths.specs.Bases.{bases_of};
ghost use Rattle.item_traffic.specs.Counts.{held, load_of, store_of};
ghost use Rattle.plan_traffic.specs.Plans.{bases_at, fence_of, IsHeld, IsLaunchFor};

use crate::traffic::Traffic;
use item_traffic::access::Access;
use item_traffic::alike::items_load_and_store_alike;
use item_traffic::counts::Count;
use item_traffic::region::{Region, Scope};
use kernel_tree::launches::Launch;
use kernel_tree::laws::layout;
use lift_tree::term::{Dimension, Level};
use lowered_tree::laws::legal_without_fault;
use lowering::term::{Kind, Term};
use nest_premises::groups::legal_terms_are_printable;
use phase_plan::kind::Kind as PlanKind;
use phase_plan::planned::Plan;
use term_traffic::laws::typed_terms_have_short_loops;

// Those of one kind.
fn counted(plan: &Plan<'_>, launch: &Launch, item: u32, access: Access) -> u64
    requires launch { IsLaunchFor plan.now launch.now }
    requires within { item < item_count launch.now }
    ensures { result ≡ held (whole_traffic (load_of access) (store_of access)
        (length_at (bases_at plan.now launch.now)) (ids_of launch.now item)
        (term_of plan.now.root)) }
{
    legal_terms_are_printable();
    legal_without_fault();
    typed_terms_have_short_loops();
    let lowered = &plan.spaced.mapped.lowered;
    let count = Count {
        access,
        names: lowered.names.as_slice(),
        launch,
        item,
    };
    count.written(&Scope::Empty, &plan.root, Region::Global)
}

/// What a work-item of an admissible launch loads and stores of global and of local memory in every
/// run, as a sum over the turns that it takes.
pub fn traffic(plan: &Plan<'_>, launch: &Launch, item: u32) -> Traffic
    requires launch { IsLaunchFor plan.now launch.now }
    requires within { item < item_count launch.now }
    ensures { IsHeld (traffic_of (length_at (bases_at plan.now launch.now))
        (ids_of launch.now item) (term_of plan.now.root)) result }
{
    Traffic {
        global_loads: counted(plan, launch, item, Access::GlobalLoad),
        global_stores: counted(plan, launch, item, Access::GlobalStore),
        local_loads: counted(plan, launch, item, Access::LocalLoad),
        local_stores: counted(plan, launch, item, Access::LocalStore),
    }
}

/// How many work-items from this one on, of an admissible launch, load and store as much as it
/// does: at least itself, and none behind the last.
pub fn items_alike(plan: &Plan<'_>, launch: &Launch, item: u32) -> u32
    requires launch { IsLaunchFor plan.now launch.now }
    requires within { item < item_count launch.now }
    ensures some { 0 < result }
    ensures few { item + result ≤ item_count launch.now }
    ensures alike { (k : ℕ) → k < result
        → traffic_of (length_at (bases_at plan.now launch.now)) (ids_of launch.now item)
        (term_of plan.now.root)
        ≡ traffic_of (length_at (bases_at plan.now launch.now)) (ids_of launch.now (item + k))
        (term_of plan.now.root) }
{
    legal_terms_are_printable();
    typed_terms_have_short_loops();
    items_load_and_store_alike();
    let lowered = &plan.spaced.mapped.lowered;
    let count = Count {
        access: Access::GlobalLoad,
        names: lowered.names.as_slice(),
        launch,
        item,
    };
    count.alike(&plan.root)
}

// The turns of the map over the groups of a row that a group takes, as its first item does.
fn row_turns(count: &Count, row: &Term) -> u64
    requires names { AreNames count.now.names.now }
    requires whole { IsWhole count.now.launch.now }
    requires within { count.now.item < item_count count.now.launch.now }
    requires short { HasShortLoops
        (length_at (bases_of count.now.names.now count.now.launch.now.sizes)) (term_of row.now) }
    ensures { result ≡ turns_in_row
        (length_at (bases_of count.now.names.now count.now.launch.now.sizes))
        (ids_of count.now.launch.now count.now.item) (term_of row.now) }
{
    match row {
        Term::Reshape(_, a) => row_turns(count, a),
        Term::Map(map) => match map.kind {
            Kind::Over(Level::Groups, Dimension::X) => count.turns(map.kind, &map.length),
            Kind::Over(Level::Groups, Dimension::Y)
            | Kind::Over(Level::Launch, _)
            | Kind::Over(Level::Items, _)
            | Kind::Sequential => 0,
        },
        Term::Literal(_)
        | Term::Bound(_)
        | Term::Source(_)
        | Term::Apply(_, _, _)
        | Term::ApplyNumber(_, _, _)
        | Term::ApplyLanes { .. }
        | Term::DivideLanes(_, _, _)
        | Term::Select(_, _, _)
        | Term::Pair(_, _)
        | Term::Zip(_, _)
        | Term::First(_)
        | Term::Second(_)
        | Term::LetArray(_, _)
        | Term::LetElement(_, _, _)
        | Term::Fold(_)
        | Term::Store(_, _)
        | Term::Copy(_, _, _) => 0,
    }
}

// And those of the maps over work-groups in all, in a term.
fn turns(count: &Count, root: &Term) -> u64
    requires names { AreNames count.now.names.now }
    requires whole { IsWhole count.now.launch.now }
    requires within { count.now.item < item_count count.now.launch.now }
    requires short { HasShortLoops
        (length_at (bases_of count.now.names.now count.now.launch.now.sizes)) (term_of root.now) }
    ensures { result ≡ held (group_turns
        (length_at (bases_of count.now.names.now count.now.launch.now.sizes))
        (ids_of count.now.launch.now count.now.item) (term_of root.now)) }
{
    match root {
        Term::Reshape(_, a) | Term::LetArray(_, a) => turns(count, a),
        Term::Map(map) => match map.kind {
            Kind::Over(Level::Groups, Dimension::X) => count.turns(map.kind, &map.length),
            Kind::Over(Level::Groups, Dimension::Y) => {
                let rows = count.turns(map.kind, &map.length);
                rows.saturating_mul(row_turns(count, &map.body))
            }
            Kind::Over(Level::Launch, _) | Kind::Over(Level::Items, _) | Kind::Sequential => 0,
        },
        Term::Literal(_)
        | Term::Bound(_)
        | Term::Source(_)
        | Term::Apply(_, _, _)
        | Term::ApplyNumber(_, _, _)
        | Term::ApplyLanes { .. }
        | Term::DivideLanes(_, _, _)
        | Term::Select(_, _, _)
        | Term::Pair(_, _)
        | Term::Zip(_, _)
        | Term::First(_)
        | Term::Second(_)
        | Term::LetElement(_, _, _)
        | Term::Fold(_)
        | Term::Store(_, _)
        | Term::Copy(_, _, _) => 0,
    }
}

// The first item of a group.
#[tactic(auto, using(crate::proofs::Groups::first_below, crate::proofs::Groups::first_small))]
fn first_item_of(launch: &Launch, group: u32) -> u32
    requires whole { IsWhole launch.now }
    requires few { item_count launch.now ≤ 65536 }
    requires within { group < group_count launch.now }
    ensures is { result ≡ first_item launch.now group }
    ensures below { result < item_count launch.now }
{
    let across = launch.global.0 / launch.local.0;
    let column = group % across * launch.local.0;
    let row = group / across * launch.local.1;
    column + row * launch.global.0
}

/// How often a group of an admissible launch is released in every run: its turns of the maps over
/// work-groups, times the barriers of the body, held at 2^64 - 1.
pub fn releases(plan: &Plan<'_>, launch: &Launch, group: u32) -> u64
    requires launch { IsLaunchFor plan.now launch.now }
    requires within { group < group_count launch.now }
    ensures { (item : ℕ) → item < item_count launch.now → group_of launch.now item ≡ group
        → result ≡ held (releases_of (length_at (bases_at plan.now launch.now))
        (ids_of launch.now item) (fence_of plan.now.kind) (term_of plan.now.root)) }
{
    legal_terms_are_printable();
    typed_terms_have_short_loops();
    layout();
    match &plan.kind {
        PlanKind::Task | PlanKind::OverLaunch => 0,
        PlanKind::OverGroups(phases) | PlanKind::OverGrid(phases) => {
            let lowered = &plan.spaced.mapped.lowered;
            let count = Count {
                access: Access::GlobalLoad,
                names: lowered.names.as_slice(),
                launch,
                item: first_item_of(launch, group),
            };
            let turns = turns(&count, &plan.root);
            turns.saturating_mul(phases.barriers.len() as u64)
        }
    }
}
