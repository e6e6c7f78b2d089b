//! The laws of flags, each carried by a function that does nothing.

ghost use Rattle.enabled_events.specs.Laws.{FlagsTellEnabled, FlagsTellOneList, FlagsFollow};

/// Where flags are those of a state, their events are the enabled ones in order, and no other list
/// is.
pub fn flags_tell()
    ensures enabled { FlagsTellEnabled }
    ensures only { FlagsTellOneList }
{}

/// After an event only the flags of the items that it moves and of their group need be set.
pub fn flags_follow()
    ensures { FlagsFollow }
{}
