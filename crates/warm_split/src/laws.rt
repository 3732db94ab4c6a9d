//! Laws of warm transactions, over the definitions alone.

ghost use Rattle.warm_split.specs.Laws.{WarmRepliesAreSerial, JoinedAreLocal};

/// What a script's operations on hosts find in a map and what its packet finds in the map's registers,
/// joined, is the script's reply on the map.
pub fn warm_replies_are_serial()
    ensures { WarmRepliesAreSerial }
{}

/// Joined pairs follow from what the script's operations found exactly where the packet's pairs follow
/// from what its operations found.
pub fn joined_are_local()
    ensures { JoinedAreLocal }
{}
