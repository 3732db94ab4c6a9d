//! The ranges of a packet's fields, as the code names them. The definitions have them as numbers.

/// How many clients there may be.
pub const CLIENTS: u8 = 8;
/// The most passes of a packet.
pub const MOST_PASSES: u8 = 16;
/// Both halves of the pipeline: 1 stands for the left one, and 2 for the right one.
pub const BOTH_HALVES: u8 = 3;
/// The most operations of a packet.
pub const MOST_PACKET_OPS: u8 = 16;
/// The most needs of an operation.
pub const MOST_NEEDS: u8 = 4;
/// How many stages there may be.
pub const STAGES: u8 = 12;
/// How many register arrays a stage may have.
pub const ARRAYS: u8 = 4;
/// How many cells a register array may have.
pub const CELLS: u16 = 4096;
/// How many bytes the longest text of a packet has.
pub const LONGEST_TEXT: usize = 772;
