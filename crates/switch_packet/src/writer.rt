//! Adding numbers at the end of a buffer that has room for them, the highest byte first.

ghost use Rattle.std.specs.Prelude.{◌≡◌, ◌≤◌, ◌+◌, [], ◌∷◌, length};
ghost use Rattle.std.specs.Int.{w16, w32, w64, to_be_bytes};
ghost use Rattle.switch_packet.specs.PacketText.{i64_text};
ghost use Rattle.switch_packet.specs.Writing.{HasRoom, Adds};

use byteorder::{BigEndian, ByteOrder};

/// Adds these bytes.
pub fn push_bytes(to: &mut Vec<u8>, bytes: &[u8])
    requires { HasRoom to.old (length bytes.now) }
    ensures { Adds to.old to.new bytes.now }
{
    for byte in bytes {
        to.push_reserved(*byte);
    }
}

/// Adds the number in 2 bytes.
pub fn push_u16(to: &mut Vec<u8>, number: u16)
    requires { HasRoom to.old 2 }
    ensures { Adds to.old to.new (to_be_bytes w16 number) }
{
    let mut bytes = [0; 2];
    BigEndian::write_u16(&mut bytes, number);
    push_bytes(to, &bytes);
}

/// Adds the number in 4 bytes.
pub fn push_u32(to: &mut Vec<u8>, number: u32)
    requires { HasRoom to.old 4 }
    ensures { Adds to.old to.new (to_be_bytes w32 number) }
{
    let mut bytes = [0; 4];
    BigEndian::write_u32(&mut bytes, number);
    push_bytes(to, &bytes);
}

/// Adds the number in 8 bytes.
pub fn push_u64(to: &mut Vec<u8>, number: u64)
    requires { HasRoom to.old 8 }
    ensures { Adds to.old to.new (to_be_bytes w64 number) }
{
    let mut bytes = [0; 8];
    BigEndian::write_u64(&mut bytes, number);
    push_bytes(to, &bytes);
}

/// Adds the number in 8 bytes, in two's complement.
pub fn push_i64(to: &mut Vec<u8>, number: i64)
    requires { HasRoom to.old 8 }
    ensures { Adds to.old to.new (i64_text number) }
{
    let mut bytes = [0; 8];
    BigEndian::write_i64(&mut bytes, number);
    push_bytes(to, &bytes);
}
