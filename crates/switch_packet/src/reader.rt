//! Reading texts from left to right, each byte judged as soon as it is reached.

ghost use Rattle.std.specs.Prelude.{◌≡◌, ◌≤◌, ◌⊎◌, ◌↔◌, [], ◌∷◌, IfOk, IsTrue, MatchResult};
ghost use Rattle.switch_packet.specs.Reading.{Cursor, Reads, start, byte_at, either_at, zeros_at, u32_at, u64_at, i64_at};

use crate::fault::PacketFault;
use std::marker::Model;

/// Where reading has come to: how many bytes were read, and the bytes that are left. After a fault it is
/// used no more.
#[derive(Debug, Drop)]
pub struct Reader<'a> {
    at: usize,
    left: &'a [u8],
}

impl<'a> Model for Reader<'a> {
    ghost use Rattle.std.specs.Prelude.{◌+◌, ◌<◌, ◌^◌, length};
    ghost use Rattle.switch_packet.specs.Reading.{Cursor};

    ghost Value = { Cursor };

    ghost view = { λ r. record { at = r.at; left = r.left.now } };

    ghost invariant = { λ r. r.at + length r.left.now < 2 ^ 64 };
}

impl<'a> Reader<'a> {
    /// A reader at the front of the bytes.
    pub fn new(bytes: &'a [u8]) -> Self
        ensures { result ≡ start bytes.now }
    {
        Reader { at: 0, left: bytes }
    }

    /// How many bytes were read.
    pub fn place(&self) -> usize
        ensures { result ≡ self.now.at }
    {
        self.at
    }

    /// Whether no byte is left.
    pub fn is_at_end(&self) -> bool
        ensures { IsTrue result ↔ (self.now.left ≡ []) }
    {
        self.left.is_empty()
    }

    /// The next byte, and the bytes behind it.
    fn front(&self) -> Result<(u8, &'a [u8]), PacketFault>
        ensures { MatchResult result (λ front. self.now.left ≡ front.0 ∷ front.1.now)
            (λ fault. (fault ≡ PacketFault.Short) × (self.now.left ≡ [])) }
    {
        match self.left {
            [] => Err(PacketFault::Short),
            [byte, rest @ ..] => Ok((*byte, rest)),
        }
    }

    fn bad_byte(&self) -> PacketFault
        ensures { result ≡ PacketFault.BadByte self.now.at }
    {
        PacketFault::BadByte(self.at)
    }

    /// The next byte, which is to be `least` to `most`.
    pub fn byte(&mut self, least: u8, most: u8) -> Result<u8, PacketFault>
        ensures value { Reads self.new result (byte_at least most self.old) }
        ensures range { IfOk result (λ byte. (least ≤ byte) × (byte ≤ most)) }
    {
        let (byte, rest) = self.front()?;
        if byte < least || byte > most {
            return Err(self.bad_byte());
        }
        self.at += 1;
        self.left = rest;
        Ok(byte)
    }

    /// The next byte, which is to be one of two.
    pub fn either(&mut self, one: u8, other: u8) -> Result<u8, PacketFault>
        ensures value { Reads self.new result (either_at one other self.old) }
        ensures choice { IfOk result (λ byte. (byte ≡ one) ⊎ (byte ≡ other)) }
    {
        let (byte, rest) = self.front()?;
        if byte != one && byte != other {
            return Err(self.bad_byte());
        }
        self.at += 1;
        self.left = rest;
        Ok(byte)
    }

    /// The next bytes, each of which is to be 0: this many.
    pub fn zeros(&mut self, count: u8) -> Result<(), PacketFault>
        ensures { Reads self.new result (zeros_at count self.old) }
    {
        for _ in 0..count {
            self.byte(0, 0)?;
        }
        Ok(())
    }

    /// The number in the next 4 bytes.
    #[tactic(auto, unfolding(crate::specs::Reading::u32_at))]
    pub fn u32(&mut self) -> Result<u32, PacketFault>
        ensures { Reads self.new result (u32_at self.old) }
    {
        if self.left.len() < 4 {
            return Err(PacketFault::Short);
        }
        let (front, rest) = self.left.split_at(4);
        self.at += 4;
        self.left = rest;
        Ok(u32::from_be_bytes([front[0], front[1], front[2], front[3]]))
    }

    /// The number in the next 8 bytes.
    #[tactic(auto, unfolding(crate::specs::Reading::u64_at))]
    pub fn u64(&mut self) -> Result<u64, PacketFault>
        ensures { Reads self.new result (u64_at self.old) }
    {
        if self.left.len() < 8 {
            return Err(PacketFault::Short);
        }
        let (front, rest) = self.left.split_at(8);
        self.at += 8;
        self.left = rest;
        Ok(u64::from_be_bytes([
            front[0], front[1], front[2], front[3], front[4], front[5], front[6], front[7],
        ]))
    }

    /// The number in the next 8 bytes, in two's complement.
    #[tactic(auto, unfolding(crate::specs::Reading::i64_at))]
    pub fn i64(&mut self) -> Result<i64, PacketFault>
        ensures { Reads self.new result (i64_at self.old) }
    {
        Ok(self.u64()?.cast_signed())
    }
}
