//! Laws of the traffic of plans, each carried by a function that does nothing.

ghost use Rattle.plan_traffic.specs.Plans.{PlansPlaceNeededBarriers, PlansTellTraffic};

use nest_premises::groups::legal_terms_are_printable;
use term_traffic::laws::runs_have_traffic;

/// At each admissible launch and on all inputs, every run that can't go on, of a kernel that is
/// printed for a plan's term, has the traffic that the plan tells: each item's loads and stores of
/// global and of local memory, and each group's releases.
pub fn plans_tell_traffic()
    ensures { PlansTellTraffic }
{
    legal_terms_are_printable();
    runs_have_traffic();
}

/// The barriers that a plan places are those that its term needs.
pub fn plans_place_needed_barriers()
    ensures { PlansPlaceNeededBarriers }
{}
