//! Why bytes are not a packet's text.

/// What is wrong with bytes that should begin with a text.
#[derive(Clone, Copy, Debug, PartialEq, Eq)]
pub enum PacketFault {
    /// They end too early: they begin some text, and are less than the whole of it.
    Short,
    /// The byte at this place is the first that no text has there, after the bytes before it.
    BadByte(usize),
}
