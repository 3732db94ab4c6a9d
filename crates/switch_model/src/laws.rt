//! Laws of the switch, each a function with an empty body whose contract is the law.
//!
//! They speak of every state that fitting events reach from a fresh or a restored switch, in any order.

ghost use Rattle.switch_model.specs.Laws.{
  AnswersAreReplayed,
  FirstPassesKeepOrder,
  FreshIsReached,
  NoPacketIsStuck,
  PacketsComeThrough,
  RegionsAreHeldInTurn,
  RegionsAreShared,
  RegistersAreLeft,
  RegistersAreReplayed,
  RestoredHasEntered,
  RestoredIsReached,
  SlotsHoldOnePacket,
  SwitchesGoOn,
};
ghost use Rattle.switch_model.specs.Order.{OrdersAreReplays};

/// Each answer is that of a packet of its client, and has the pairs that this packet has when all packets
/// that have entered are executed whole, one after another in the order of their numbers.
pub fn answers_are_replayed()
    ensures { AnswersAreReplayed }
{}

/// When no client has a packet in the pipeline or waiting for a later pass, the registers are what is left
/// when all packets that have entered are executed whole, one after another in the order of their numbers.
pub fn registers_are_replayed()
    ensures { RegistersAreReplayed }
{}

/// A fresh switch and a restored one are states to begin with. Each fitting event leads to a reached state,
/// and what has entered only grows: by the packet that an entry for a first pass adds, and by nothing else.
pub fn switches_go_on()
    ensures fresh { FreshIsReached }
    ensures restored { RestoredIsReached }
    ensures entered { RestoredHasEntered }
    ensures goes_on { SwitchesGoOn }
{}

/// While a client has something under way, a stage, a port or a client can go on. Each entry and each stage
/// lessens by one what one client's packet still has before it.
pub fn packets_come_through()
    ensures not_stuck { NoPacketIsStuck }
    ensures lessens { PacketsComeThrough }
{}

/// A region is taken at the first entry by a packet of two or more passes that touches it, and is given
/// back at the entry for its last pass. Nothing else changes which regions are held.
pub fn regions_are_held_in_turn()
    ensures { RegionsAreHeldInTurn }
{}

/// A slot holds one packet, and there is no slot but those of the stages.
pub fn slots_hold_one_packet()
    ensures { SlotsHoldOnePacket }
{}

/// Among packets in slots in their first pass the one ahead has the smaller number.
pub fn first_passes_keep_order()
    ensures { FirstPassesKeepOrder }
{}

/// Of two packets that have entered and touch a common region, the one with the smaller number has entered
/// for its last pass. While it stands in a slot, the other one stands in a slot behind it.
pub fn regions_are_shared()
    ensures { RegionsAreShared }
{}

/// At any time, each executed operation found what the one before it on its place left, in the order of the
/// packets' numbers, and the register has what the last one left.
pub fn registers_are_left()
    ensures { RegistersAreLeft }
{}

/// The operations of a packet that fits, taken by pass, then by stage, then in script order, each on its
/// place, give the pairs and the map of its replay, which takes them in script order alone.
pub fn orders_are_replays()
    ensures { OrdersAreReplays }
{}
