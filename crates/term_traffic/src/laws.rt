//! Laws of the traffic of terms, each carried by a function that does nothing.

ghost use Rattle.term_traffic.specs.Laws.{RunsHaveTraffic, TypedTermsHaveShortLoops};

use barrier_placement::laws::needed_barriers_are_determined;
use group_form::kernels::kernels_keep;
use kernel_traffic::laws::{code_tells_traffic, turns_go_one_by_one};

/// At each admissible launch and on all inputs, in every run that can't go on, of a kernel that is
/// printed for a typed term, each item has made just as many loads and stores of global and of
/// local memory as the term says by the turns that the item takes, and its group has been released
/// as often as it says.
pub fn runs_have_traffic()
    ensures { RunsHaveTraffic }
{
    code_tells_traffic();
    kernels_keep();
    needed_barriers_are_determined();
    turns_go_one_by_one();
}

/// The maps and folds of a typed term are over less than 2^31.
pub fn typed_terms_have_short_loops()
    ensures { TypedTermsHaveShortLoops }
{}
