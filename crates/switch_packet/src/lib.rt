//! Packets: the hot operations of transactions, and the bytes that they are sent and logged as.
//!
//! A packet's text is defined apart from the code that reads and writes it (`specs/PacketText.antt`), with
//! the ranges of its fields (`specs/Ranges.antt`). What packets do, one after another, is their replay
//! (`specs/Replay.antt`). This crate knows no stage, no pipeline and no log.
#![tactic(auto)]

mod decode;
mod encode;
mod fault;
mod format;
mod laws;
mod length;
mod limits;
mod packet;
mod reader;
mod record;
mod writer;

pub use decode::{decode_into, read_packet};
pub use encode::encode_into;
pub use fault::PacketFault;
pub use laws::{one_pair_each, replays_are_chains, replays_in_turn, texts_are_short, texts_differ};
pub use length::packet_len;
pub use limits::{
    ARRAYS, BOTH_HALVES, CELLS, CLIENTS, LONGEST_TEXT, MOST_NEEDS, MOST_PACKET_OPS, MOST_PASSES,
    STAGES,
};
pub use packet::{Packet, PacketOp, PacketOps};
pub use reader::Reader;
pub use record::{Intent, Intents, LogView, Outcome, Outcomes};
pub use writer::{push_bytes, push_i64, push_u16, push_u32, push_u64};

#[cfg(test)]
mod tests;
