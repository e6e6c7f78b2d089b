//! Kinds of loads and stores.

ghost use Rattle.std.specs.Prelude.{◌≡◌};
ghost use Rattle.item_traffic.specs.Counts.{load_of, store_of};
ghost use Rattle.item_traffic.specs.Places.{region_in};

use crate::region::Region;

/// Which loads or stores are counted.
#[derive(Clone, Copy)]
pub enum Access {
    GlobalLoad,
    GlobalStore,
    LocalLoad,
    LocalStore,
}

impl Access {
    /// How much a load from there counts.
    pub fn load(self, from: Region) -> u64
        ensures { result ≡ load_of self (region_in from) }
    {
        match (self, from) {
            (Access::GlobalLoad, Region::Global) | (Access::LocalLoad, Region::Local) => 1,
            _ => 0,
        }
    }

    /// How much a store to there counts.
    pub fn store(self, to: Region) -> u64
        ensures { result ≡ store_of self (region_in to) }
    {
        match (self, to) {
            (Access::GlobalStore, Region::Global) | (Access::LocalStore, Region::Local) => 1,
            _ => 0,
        }
    }
}
