//! The whole fabric as a machine: clients, the switch and the hosts, the step of each actor, and laws over
//! runs.
//!
//! Definitions and laws alone: transactions in the switch, on hosts, and on both stand in one order. A
//! client with operations in the switch locks its tuples on hosts first, writes what it is about to do into
//! its log, and posts one packet; the packet's number is its stamp, and the answer fixes its reply. Every
//! move is one event; a run is the fold of the step over a list of actors. An item of a client may lose the
//! switch with all that it has; recovery rebuilds it from the clients' logs.
#![tactic(auto)]

mod items;
mod laws;
mod locks;
mod records;
mod room;
mod rounds;

pub use items::{
    answered_entries_stand, hot_ones_are_never_refused, items_are_in_order, items_end,
    refusals_are_true, stamps_stand_above,
};
pub use laws::{
    histories_are_legal, logs_have_placements, packets_fit, recovery_takes_the_first_placement,
    values_are_serial,
};
pub use locks::{chains_are_cold, locks_are_two_phase};
pub use records::{
    finished_ones_are_answered, numbers_are_known, records_answer_each_other, records_stand,
};
pub use room::room_is_enough;
pub use rounds::{
    bounds_are_small, driven_runs_finish, moves_are_bounded, rounds_make_a_run, someone_can_move,
};
