//! The way down from the root to a flag.

ghost use Rattle.std.specs.Prelude.{◌≡◌, ◌+◌, ◌-◌, ◌*◌, ◌^◌, ◌<◌, ◌≤◌, ℕ, length, take, slice_index};
ghost use Rattle.std.specs.List.{sum};
ghost use Rattle.count_tree.specs.Nodes.{IsTree};
ghost use Rattle.count_tree.specs.Ways.{IsLeft, IsRight};

use crate::counts::Counts;
use crate::steps::Steps;
use std::sync::ledger::Ledger;

/// A node on the way, and how many flags below it come before the flag that is looked for.
#[derive(Clone, Copy)]
pub(crate) struct Way {
    pub node: usize,
    pub rest: u32,
}

impl Way {
    // The part of the node in which the flag is, by one look.
    #[inline(always)]
    fn part<L: Ledger>(self, counts: &Counts, steps: &mut Steps<L>) -> Way
        requires inside { self.node < length counts.now.lefts }
        requires small { length counts.now.lefts ≤ 65536 }
        ensures below { (2 * self.node ≤ result.node) × (result.node ≤ 2 * self.node + 1) }
        ensures left { IsLeft self (slice_index counts.now.lefts self.node) result }
        ensures right { IsRight self (slice_index counts.now.lefts self.node) result }
        ensures cost { steps.new ≡ steps.old + 1 }
    {
        let left = counts.look(self.node, steps);
        let rest = less_if_within(self.rest, left);
        let on_the_left = if self.rest < left { 1 } else { 0 };
        Way {
            node: 2 * self.node + on_the_left,
            rest,
        }
    }
}

// The difference, or the number itself where it is below the other. Of numbers up to 2^31 the
// difference has its highest bit just where it wraps: so that, after one subtraction that also
// tells the part, no branch is taken and nothing is compared again.
#[inline(always)]
fn less_if_within(rest: u32, left: u32) -> u32
    ensures below { left ≤ 2 ^ 31 → rest < left → result ≡ rest }
    ensures within { rest < 2 ^ 31 → left ≤ rest → result ≡ rest - left }
{
    let less = rest.wrapping_sub(left);
    if less < 1 << 31 { less } else { rest }
}

/// The place of the flag that comes after `k` others, in as many looks as the tree is high. Four
/// levels are taken at a time.
#[inline(always)]
pub(crate) fn find<L: Ledger>(counts: &Counts, k: u32, steps: &mut Steps<L>) -> usize
    requires tree { IsTree counts.now }
    requires within { k < counts.now.total }
    ensures place { result < length counts.now.flags }
    ensures others { sum (take result counts.now.flags) ≡ k }
    ensures there { slice_index counts.now.flags result ≡ 1 }
    ensures cost { (n : ℕ) → length counts.now.flags ≡ 2 ^ n → steps.new ≡ steps.old + n }
{
    let leaves = counts.leaves();
    let mut at = Way { node: 1, rest: k };
    while 8 * at.node + 7 < leaves {
        at = at.part(counts, steps);
        at = at.part(counts, steps);
        at = at.part(counts, steps);
        at = at.part(counts, steps);
    }
    while at.node < leaves {
        at = at.part(counts, steps);
    }
    2 * leaves - 1 - at.node
}
