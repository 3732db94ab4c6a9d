//! Laws of packets, over the definitions alone.

ghost use Rattle.std.specs.Prelude.{◌≡◌};
ghost use Rattle.switch_packet.specs.declared.limits.TheConstants.{LONGEST_TEXT};
ghost use Rattle.switch_packet.specs.Laws.{TextsDiffer, IsLongestText, OnePairEach, ReplaysInTurn, ReplaysAreChains};

/// Each text is that of one packet, and no packet's text begins another's.
pub fn texts_differ()
    ensures { TextsDiffer }
{}

/// No packet's text has more than 772 bytes, and some packet's text has so many.
pub fn texts_are_short()
    ensures { (LONGEST_TEXT ≡ 772) × IsLongestText 772 }
{}

/// The replay of a packet gives one pair per operation.
pub fn one_pair_each()
    ensures { OnePairEach }
{}

/// To replay one list of packets and then another is to replay them as one list.
pub fn replays_in_turn()
    ensures { ReplaysInTurn }
{}

/// What each operation of a replay finds at its place is what the one before at that place left, or the
/// first number there. What it leaves follows from that and from its packet's own pairs.
pub fn replays_are_chains()
    ensures { ReplaysAreChains }
{}
