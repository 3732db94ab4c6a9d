//! The bytes that stand for something in a packet's text.

/// The first byte: `P`.
pub const PACKET_MARK: u8 = 0x50;
/// The second one: which version of the format it is.
pub const VERSION: u8 = 1;

pub const READ: u8 = 0;

pub const PUT: u8 = 1;

pub const ADD: u8 = 2;

pub const CHOOSE: u8 = 3;

pub const OLD: u8 = 0;

pub const MOVED: u8 = 1;
