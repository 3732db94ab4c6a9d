//! Reading a source to its end, and writing a text in whole.
ghost use Rattle.std.specs.Prelude.{◌≡◌, ℕ, ◌<◌, ◌≤◌, length, IfOk, IfErr, OnOk, OnErr, IsErr, IsErrOf, vec_len};
ghost use Rattle.std.specs.Io.KnownBytes.{Appends, ReadConsumes};
ghost use Rattle.port_io.specs.declared.whole.ReadAllFault.TheVariants.{NoMemory};
ghost use Rattle.port_io.specs.Cause.{HasCause};
ghost use Rattle.port_io.specs.ReadAll.{TakesAll, StopsAfter};
ghost use Rattle.port_io.specs.WriteAll.{AppendsFront};

use crate::{Failed, Sink, SinkFault, Source};
use std::alloc::{AllocError, Global};

/// Why a source was not read to its end.
#[derive(Clone, Copy, Debug, PartialEq, Eq)]
pub enum ReadAllFault {
    /// A read failed, and the source's count of failures rose.
    Failed,
    /// A byte beyond the limit was read.
    TooLong,
    /// No memory was left.
    NoMemory,
}

impl From<AllocError> for ReadAllFault {
    ghost from_gives = { λ _ fault. fault ≡ NoMemory };

    fn from(_: AllocError) -> Self {
        ReadAllFault::NoMemory
    }
}

/// How many bytes one read asks for at most.
const PIECE: usize = 65536;

/// Reads all that is left in a source, if that is at most `most` bytes.
///
/// `TooLong` comes exactly where a byte beyond `most` was read, and one is read if there is one.
/// `Failed` comes only where the source's count of failures rose, `NoMemory` at any point. After a
/// fault the bytes that were read are lost, and the source goes on behind them.
pub fn read_all<S: Source>(
    alloc: Global,
    source: &mut S,
    most: usize,
) -> Result<Vec<u8>, ReadAllFault>
    ensures ok { IfOk result (λ bytes. TakesAll most (S.left source.old) (S.left source.new) bytes.items) }
    ensures stopped { IfErr result (λ fault. StopsAfter fault most (S.left source.old) (S.left source.new)) }
    ensures cause { HasCause (S.faults source.old) (S.faults source.new) (IsErrOf result ReadAllFault.Failed) }
{
    let mut buf = zeros(alloc, PIECE)?;
    let mut bytes = Vec::new(alloc);
    loop {
        // One byte beyond the limit tells that the source is too long.
        let room = (most - bytes.len()).saturating_add(1).min(PIECE);
        let Ok(count) = read_some(source, &mut buf, room) else {
            return Err(ReadAllFault::Failed);
        };
        if count == 0 {
            return Ok(bytes);
        }
        if count > most - bytes.len() {
            return Err(ReadAllFault::TooLong);
        }
        bytes.extend_from_slice(&buf[..count])?;
    }
}

/// One read of at most `room` bytes, to the front of `buf`.
fn read_some<S: Source>(source: &mut S, buf: &mut [u8], room: usize) -> Result<usize, Failed>
    requires some { 0 < room }
    requires fits { room ≤ length buf.old }
    ensures bound { IfOk result (λ n. n ≤ room) }
    ensures bytes { ReadConsumes (S.left source.old) (S.left source.new) result buf.new }
    ensures cause { HasCause (S.faults source.old) (S.faults source.new) (IsErr result) }
{
    source.read(&mut buf[..room])
}

/// A buffer of this length.
fn zeros(alloc: Global, len: usize) -> Result<Vec<u8>, AllocError>
    ensures { IfOk result (λ buf. vec_len buf ≡ len) }
{
    vec![in alloc; 0; len]
}

/// Appends all the bytes to a sink.
///
/// After a fault a front of them stands. `Failed` comes only where the sink's count of failures
/// rose.
pub fn write_all<K: Sink>(alloc: Global, sink: &mut K, bytes: &[u8]) -> Result<(), SinkFault>
    ensures ok { OnOk result (Appends (K.content sink.old) (K.content sink.new) bytes.now) }
    ensures err { OnErr result (AppendsFront (K.content sink.old) (K.content sink.new) bytes.now) }
    ensures cause { HasCause (K.faults sink.old) (K.faults sink.new) (IsErrOf result SinkFault.Failed) }
{
    let mut at = 0;
    while at < bytes.len() {
        at += sink.write(alloc, &bytes[at..])?;
    }
    Ok(())
}
