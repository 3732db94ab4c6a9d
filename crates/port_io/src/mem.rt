//! In memory: a source and a sink whose calls fail by number.
ghost use Rattle.std.specs.Prelude.{◌≡◌, ◌↔◌, ℕ, ◌^◌, ◌<◌, ◌≤◌, List, [], length, Some, IsTrue, IsErr, IfOk, IsErrOf};
ghost use Rattle.std.specs.Io.{ReadsAtMost, WritesAtMost};
ghost use Rattle.std.specs.Io.KnownBytes.{ReadConsumes, WriteAppends};
ghost use Rattle.port_io.specs.Calls.{no_calls, next_number, next_fails, after_next};
ghost use Rattle.port_io.specs.Cause.{HasCause};

use crate::calls::Calls;
use crate::{CleanSink, CleanSource, Failed, Sink, SinkFault, Source};
use std::alloc::Global;
use std::marker::Model;

/// Gives the bytes that it was made of, and fails at the calls whose numbers are listed. All its
/// calls count, from 1 on.
#[derive(Debug, Drop)]
pub struct MemSource {
    source: CleanSource,
    calls: Calls,
}

impl Model for MemSource {
    ghost use Rattle.port_io.specs.InMemory.{SourceInMemory};

    ghost Value = { SourceInMemory };

    ghost view = { λ memory. record { left = memory.source; calls = memory.calls } };
}

impl MemSource {
    /// A source in which these bytes are left, with the numbers of the calls that are to fail.
    pub fn of(bytes: Vec<u8>, fails: Vec<u32>) -> MemSource
        ensures left { result.left ≡ bytes.items }
        ensures calls { result.calls ≡ no_calls fails.items }
    {
        MemSource {
            source: CleanSource::of(bytes),
            calls: Calls::of(fails),
        }
    }
}

impl Source for MemSource {
    ghost left = { λ memory. Some memory.left };

    ghost faults = { λ memory. memory.calls.failed };

    fn read(&mut self, buf: &mut [u8]) -> Result<usize, Failed>
        ensures bound { ReadsAtMost result buf.new }
        ensures bytes { ReadConsumes (Some self.old.left) (Some self.new.left) result buf.new }
        ensures cause { HasCause self.old.calls.failed self.new.calls.failed (IsErr result) }

        // Which calls fail.
        ensures fails { IsErr result ↔ IsTrue (next_fails self.old.calls) }
        ensures not_late { IsErr result → next_number self.old.calls < 2 ^ 32 }
        ensures calls { self.new.calls ≡ after_next self.old.calls }
    {
        if self.calls.next_fails() {
            return Err(Failed);
        }
        self.source.read(buf)
    }
}

/// Holds the bytes that were written, at most `most` of a call, and fails at the calls whose numbers
/// are listed. All its calls count, from 1 on, also one that answers `NoMemory`.
#[derive(Debug, Drop)]
pub struct MemSink {
    sink: CleanSink,
    most: usize,
    calls: Calls,
}

impl Model for MemSink {
    ghost use Rattle.std.specs.Prelude.{◌<◌};
    ghost use Rattle.port_io.specs.InMemory.{SinkInMemory};

    ghost Value = { SinkInMemory };

    ghost view = { λ memory. record { content = memory.sink; most = memory.most; calls = memory.calls } };

    ghost invariant = { λ memory. 0 < memory.most };
}

impl MemSink {
    /// A sink that holds nothing yet, with the numbers of the calls that are to fail.
    pub fn of(alloc: Global, most: usize, fails: Vec<u32>) -> MemSink
        requires { 1 ≤ most }
        ensures content { result.content ≡ [] }
        ensures most { result.most ≡ most }
        ensures calls { result.calls ≡ no_calls fails.items }
    {
        MemSink {
            sink: CleanSink::fresh(alloc),
            most,
            calls: Calls::of(fails),
        }
    }

    /// The bytes that were written.
    pub fn content(&self) -> &[u8]
        ensures { result.now ≡ self.now.content }
    {
        self.sink.content()
    }
}

impl Sink for MemSink {
    ghost content = { λ memory. Some memory.content };

    ghost faults = { λ memory. memory.calls.failed };

    fn write(&mut self, alloc: Global, piece: &[u8]) -> Result<usize, SinkFault>
        ensures bound { WritesAtMost result piece.now }
        ensures progress { IfOk result (λ n. 0 < length piece.now → 0 < n) }
        ensures bytes { WriteAppends (Some self.old.content) (Some self.new.content) result piece.now }
        ensures cause { HasCause self.old.calls.failed self.new.calls.failed (IsErrOf result SinkFault.Failed) }

        // How much a call takes, and which calls fail.
        ensures most { IfOk result (λ n. n ≤ self.old.most) }
        ensures same_most { self.new.most ≡ self.old.most }
        ensures fails { IsErrOf result SinkFault.Failed ↔ IsTrue (next_fails self.old.calls) }
        ensures not_late { IsErrOf result SinkFault.Failed → next_number self.old.calls < 2 ^ 32 }
        ensures calls { self.new.calls ≡ after_next self.old.calls }
    {
        if self.calls.next_fails() {
            return Err(SinkFault::Failed);
        }
        let count = piece.len().min(self.most);
        self.sink.write(alloc, &piece[..count])
    }
}
