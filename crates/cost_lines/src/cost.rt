//! The cost of a plan at a launch.

ghost use Rattle.std.specs.Prelude.{◌≡◌, ◌≤◌, ◌-◌, ◌++◌, IfOk, OnOk, []};
ghost use Rattle.kernel_tree.specs.Launch.{group_count, item_count};
ghost use Rattle.item_traffic.specs.Counts.{held};
ghost use Rattle.plan_traffic.specs.Plans.{IsLaunchFor};
ghost use Rattle.cost_lines.specs.Costs.{releases_at, traffic_at, numbers_in};
ghost use Rattle.cost_lines.specs.Lines.{both_traffic, cost_lines, held_traffic, lines_from, lines_if, sum_traffic, sum_to, times_traffic};

use crate::lines::{push_cost, push_item};
use kernel_tree::launches::Launch;
use kernel_tree::laws::layout;
use phase_plan::planned::Plan;
use plan_traffic::counting::{items_alike, releases, traffic};
use plan_traffic::traffic::Traffic;
use std::alloc::{AllocError, Global};

// Two together, held.
fn both(a: Traffic, b: Traffic) -> Traffic
    ensures { numbers_in result ≡ held_traffic (both_traffic (numbers_in a) (numbers_in b)) }
{
    Traffic {
        global_loads: a.global_loads.saturating_add(b.global_loads),
        global_stores: a.global_stores.saturating_add(b.global_stores),
        local_loads: a.local_loads.saturating_add(b.local_loads),
        local_stores: a.local_stores.saturating_add(b.local_stores),
    }
}

// As much so many times, held.
fn times(a: Traffic, count: u32) -> Traffic
    ensures { numbers_in result ≡ held_traffic (times_traffic (numbers_in a) count) }
{
    let count = count as u64;
    Traffic {
        global_loads: a.global_loads.saturating_mul(count),
        global_stores: a.global_stores.saturating_mul(count),
        local_loads: a.local_loads.saturating_mul(count),
        local_stores: a.local_stores.saturating_mul(count),
    }
}

// Writes a line with this for each item of a range behind the text.
fn push_items(text: &mut Vec<u8>, first: u32, end: u32, traffic: Traffic) -> Result<(), AllocError>
    requires { first ≤ end }
    ensures { OnOk result (text.new.items
        ≡ text.old.items ++ lines_from first (end - first) (numbers_in traffic)) }
{
    for item in first..end {
        push_item(text, item, traffic)?;
    }
    Ok(())
}

// The sum over the items, whose lines are written behind the text, where they are asked for: items
// that do as much are counted at once.
fn add_items(
    plan: &Plan<'_>,
    launch: &Launch,
    items: bool,
    text: &mut Vec<u8>,
) -> Result<Traffic, AllocError>
    requires launch { IsLaunchFor plan.now launch.now }
    requires empty { text.old.items ≡ [] }
    ensures sum { IfOk result (λ all. numbers_in all
        ≡ held_traffic (sum_traffic (traffic_at plan.now launch.now) (item_count launch.now))) }
    ensures lines { OnOk result (text.new.items
        ≡ lines_if items (traffic_at plan.now launch.now) (item_count launch.now)) }
{
    let mut all = Traffic {
        global_loads: 0,
        global_stores: 0,
        local_loads: 0,
        local_stores: 0,
    };
    let count = launch.global.0 * launch.global.1;
    let mut item = 0;
    while item < count {
        let counted = traffic(plan, launch, item);
        let end = item + items_alike(plan, launch, item);
        if items {
            push_items(text, item, end, counted)?;
        }
        all = both(all, times(counted, end - item));
        item = end;
    }
    Ok(all)
}

// The releases of all groups.
fn all_releases(plan: &Plan<'_>, launch: &Launch) -> u64
    requires { IsLaunchFor plan.now launch.now }
    ensures { result ≡ held (sum_to (releases_at plan.now launch.now)
        (group_count launch.now)) }
{
    layout();
    let mut all = 0u64;
    let across = launch.global.0 / launch.local.0;
    let down = launch.global.1 / launch.local.1;
    for group in 0..across * down {
        all = all.saturating_add(releases(plan, launch, group));
    }
    all
}

/// The lines of a plan's cost at an admissible launch: a line for each work-item, where they are
/// asked for, and that of all.
pub fn plan_cost(
    alloc: Global,
    plan: &Plan<'_>,
    launch: &Launch,
    items: bool,
) -> Result<Vec<u8>, AllocError>
    requires { IsLaunchFor plan.now launch.now }
    ensures { IfOk result (λ text. text.items ≡ cost_lines items
        (traffic_at plan.now launch.now) (item_count launch.now)
        (releases_at plan.now launch.now) (group_count launch.now)) }
{
    let mut text = Vec::new(alloc);
    let all = add_items(plan, launch, items, &mut text)?;
    push_cost(&mut text, all, all_releases(plan, launch))?;
    Ok(text)
}
