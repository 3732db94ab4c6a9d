//! Reading a log.

ghost use Rattle.std.specs.Prelude.{◌≡◌, ◌<◌, ◌≤◌, length, IfOk, IfErr, IsErr, IsErrOf, IsTrue, vec_len};
ghost use Rattle.port_io.specs.Cause.{HasCause};
ghost use Rattle.port_io.specs.LogRack.{AllStay};
ghost use Rattle.intent_log.specs.Told.{IsTold, GivesSome, HasRead, StopsReading};

use crate::fault::LogFault;
use crate::records::read_records;
use port_io::{Failed, LogRack};
use std::alloc::{AllocError, Global};
use switch_packet::LogView;

/// The most bytes of a log.
pub const MOST_LOG_BYTES: usize = 16_777_216;

/// How many bytes one read asks for at most.
const PIECE: usize = 65536;

/// Reads a client's log: what its records say, and whether its end is torn.
///
/// The log is read to its end, or to the first byte beyond 16,777,216, before it is judged. The faults stand
/// in this order: `Failed`, which comes only where the rack's count of failures rose; `TooLong`, exactly where
/// a byte beyond 16,777,216 was read; `Damaged`, exactly where the bytes are no log of this client, with the
/// place. `NoMemory` may come at any point. The rack tells the logs that it told before.
pub fn read_log<L: LogRack>(alloc: Global, rack: &mut L, client: u8) -> Result<LogView, LogFault>
    requires client { client < 8 }
    ensures read { HasRead client (L.told rack.old client) result }
    ensures unchanged { AllStay (L.told rack.old) (L.told rack.new) }
    ensures keeps_on { IsTrue (L.keeps rack.old) → IsTrue (L.keeps rack.new) }
    ensures cause { HasCause (L.faults rack.old) (L.faults rack.new) (IsErrOf result LogFault.Failed) }
{
    let bytes = read_bytes(alloc, rack, client)?;
    read_records(alloc, client, &bytes)
}

/// All bytes of a client's log, if there are not too many.
fn read_bytes<L: LogRack>(alloc: Global, rack: &mut L, client: u8) -> Result<Vec<u8>, LogFault>
    requires client { client < 8 }
    ensures ok { IfOk result (λ bytes. IsTold (L.told rack.old client) bytes.items) }
    ensures within { IfOk result (λ bytes. length bytes.items ≤ 16777216) }
    ensures err { IfErr result (λ fault. StopsReading (L.told rack.old client) fault) }
    ensures unchanged { AllStay (L.told rack.old) (L.told rack.new) }
    ensures keeps_on { IsTrue (L.keeps rack.old) → IsTrue (L.keeps rack.new) }
    ensures cause { HasCause (L.faults rack.old) (L.faults rack.new) (IsErrOf result LogFault.Failed) }
{
    let mut buf = zeros(alloc, PIECE)?;
    let mut bytes = Vec::new(alloc);
    loop {
        // One byte beyond the limit tells that the log is too long.
        let room = (MOST_LOG_BYTES - bytes.len()).saturating_add(1).min(PIECE);
        let Ok(count) = read_some(rack, client, bytes.len(), &mut buf, room) else {
            return Err(LogFault::Failed);
        };
        if count == 0 {
            return Ok(bytes);
        }
        if count > MOST_LOG_BYTES - bytes.len() {
            return Err(LogFault::TooLong);
        }
        bytes.extend_from_slice(&buf[..count])?;
    }
}

/// One read of at most `room` bytes of a client's log from `at` on, to the front of `buf`.
pub(crate) fn read_some<L: LogRack>(
    rack: &mut L,
    client: u8,
    at: usize,
    buf: &mut [u8],
    room: usize,
) -> Result<usize, Failed>
    requires client { client < 8 }
    requires some { 0 < room }
    requires fits { room ≤ length buf.old }
    ensures bound { IfOk result (λ n. n ≤ room) }
    ensures bytes { IfOk result (λ n. GivesSome (L.told rack.old client) at n buf.new) }
    ensures unchanged { AllStay (L.told rack.old) (L.told rack.new) }
    ensures keeps_on { IsTrue (L.keeps rack.old) → IsTrue (L.keeps rack.new) }
    ensures cause { HasCause (L.faults rack.old) (L.faults rack.new) (IsErr result) }
{
    rack.read(client, at as u64, &mut buf[..room])
}

/// A buffer of this length.
fn zeros(alloc: Global, len: usize) -> Result<Vec<u8>, AllocError>
    ensures { IfOk result (λ buf. vec_len buf ≡ len) }
{
    vec![in alloc; 0; len]
}
