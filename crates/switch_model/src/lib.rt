//! The switch as a machine: packets of any number of passes that go through its stages, and laws over
//! all that it reaches.
//!
//! Definitions and laws alone. Seen from outside, the switch takes whole packets one after another in
//! the order of their numbers; regions, slots, passes and overtaking stay inside. It knows no client's
//! phase, no lock on a host, no history and no log.
#![tactic(auto)]

mod laws;

pub use laws::{
    answers_are_replayed, first_passes_keep_order, orders_are_replays, packets_come_through,
    regions_are_held_in_turn, regions_are_shared, registers_are_left, registers_are_replayed,
    slots_hold_one_packet, switches_go_on,
};
