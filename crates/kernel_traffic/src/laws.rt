//! Laws of the traffic of kernels, each carried by a function that does nothing.

ghost use Rattle.kernel_traffic.specs.Laws.{CodeTellsAccesses, CodeTellsReleases, TurnsGoOneByOne};

/// The turns below a bound, by a stride that isn't 0, are counted one by one.
pub fn turns_go_one_by_one()
    ensures { TurnsGoOneByOne }
{}

/// In every run without a failure, an item that has ended has made just as many loads and stores,
/// of any arrays, as its code says by its loops' bounds and the item's ids, and its group has been
/// released just as often.
pub fn code_tells_traffic()
    ensures accesses { CodeTellsAccesses }
    ensures releases { CodeTellsReleases }
{}
