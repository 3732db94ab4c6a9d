//! The process's own standard input and standard output.
ghost use Rattle.std.specs.Prelude.{◌≡◌, ◌<◌, ◌≤◌, length, take, None, is_ok, IsNone, IfSome, IfOk, OnErr, IsErr, IsErrOf, if◌then◌else◌};
ghost use Rattle.std.specs.Io.{ReadsAtMost, WritesAtMost};
ghost use Rattle.std.specs.Io.KnownBytes.{Appends, ReadConsumes, WriteAppends};
ghost use Rattle.port_io.specs.Cause.{HasCause, count_on};
ghost use Rattle.port_io.specs.WriteAll.{AppendsFront};

use crate::{Failed, Sink, SinkFault, Source};
use std::alloc::Global;
use std::io::{Printer, Read, Write};
use std::marker::Model;

/// Standard input. It tells nothing, but it gives what its reader gives. Its count of failures
/// stays at `u64::MAX` once it is there.
#[derive(Drop)]
pub struct StdSource<R: Read> {
    reader: R,
    failed: u64,
}

impl<R: Read> Model for StdSource<R> {
    ghost use Rattle.port_io.specs.Stream.{Stream};

    ghost Value = { Stream R };

    ghost view = { λ source. record { stream = source.reader; failed = source.failed } };
}

impl<R: Read> StdSource<R> {
    /// The standard input of the process, with no failure yet.
    pub fn fresh<I: Input<Reader = R>>(rt: &I) -> StdSource<R>
        ensures { result.failed ≡ 0 }
    {
        StdSource {
            reader: rt.reader(),
            failed: 0,
        }
    }
}

impl<R: Read> Source for StdSource<R> {
    ghost left = { λ _. None };

    ghost faults = { λ source. source.failed };

    fn read(&mut self, buf: &mut [u8]) -> Result<usize, Failed>
        ensures bound { ReadsAtMost result buf.new }
        ensures bytes { ReadConsumes None None result buf.new }
        ensures cause { HasCause self.old.failed self.new.failed (IsErr result) }

        // What is read is what the reader gives, and each failure counts once.
        ensures passed { ReadConsumes (R.remaining self.old.stream) (R.remaining self.new.stream) result buf.new }
        ensures count { self.new.failed ≡ (if is_ok result then self.old.failed else count_on self.old.failed) }
    {
        match self.reader.read(buf) {
            Ok(count) => Ok(count),
            Err(_) => {
                self.failed = self.failed.saturating_add(1);
                Err(Failed)
            }
        }
    }
}

/// Standard output, flushed after each piece. It tells nothing, but what it takes goes to its
/// writer. After a failure a front of the piece may have gone there too. Its count of failures
/// stays at `u64::MAX` once it is there.
#[derive(Drop)]
pub struct StdSink<W: Write> {
    writer: W,
    failed: u64,
}

impl<W: Write> Model for StdSink<W> {
    ghost use Rattle.port_io.specs.Stream.{Stream};

    ghost Value = { Stream W };

    ghost view = { λ sink. record { stream = sink.writer; failed = sink.failed } };
}

impl<'a, P: Print> StdSink<Printer<'a, P>> {
    /// The standard output of the process, with no failure yet.
    pub fn fresh(rt: &'a P) -> StdSink<Printer<'a, P>>
        ensures { result.failed ≡ 0 }
    {
        StdSink {
            writer: std::io::writer(rt),
            failed: 0,
        }
    }
}

impl<W: Write> Sink for StdSink<W> {
    ghost content = { λ _. None };

    ghost faults = { λ sink. sink.failed };

    fn write(&mut self, _alloc: Global, piece: &[u8]) -> Result<usize, SinkFault>
        ensures bound { WritesAtMost result piece.now }
        ensures progress { IfOk result (λ n. 0 < length piece.now → 0 < n) }
        ensures bytes { WriteAppends None None result piece.now }
        ensures cause { HasCause self.old.failed self.new.failed (IsErrOf result SinkFault.Failed) }

        // What is taken went to the writer, and of a piece that failed a front at most. Each failure counts once.
        ensures passed { IfOk result (λ n. Appends (W.contents self.old.stream) (W.contents self.new.stream) (take n piece.now)) }
        ensures front { OnErr result (AppendsFront (W.contents self.old.stream) (W.contents self.new.stream) piece.now) }
        ensures count { self.new.failed ≡ (if is_ok result then self.old.failed else count_on self.old.failed) }
    {
        match write_through(&mut self.writer, piece) {
            Some(count) => Ok(count),
            None => {
                self.failed = self.failed.saturating_add(1);
                Err(SinkFault::Failed)
            }
        }
    }
}

/// Writes and flushes. A write that takes nothing of a piece, or a flush that fails, is a failure.
fn write_through<W: Write>(writer: &mut W, piece: &[u8]) -> Option<usize>
    ensures bound { IfSome result (λ n. n ≤ length piece.now) }
    ensures progress { IfSome result (λ n. 0 < length piece.now → 0 < n) }
    ensures passed { IfSome result (λ n. Appends (W.contents writer.old) (W.contents writer.new) (take n piece.now)) }
    ensures front { IsNone result → AppendsFront (W.contents writer.old) (W.contents writer.new) piece.now }
{
    let count = writer.write(piece).ok()?;
    writer.flush().ok()?;
    if count == 0 && !piece.is_empty() {
        return None;
    }
    Some(count)
}

#[cfg(test)]
mod tests {
    use super::*;
    use std::io;
    use std::io::ErrorKind;
    use std::test::Fail;

    // Fails at every other call, and else gives the letter a until none is left.
    #[derive(Drop)]
    struct Flickering {
        is_on: bool,
        left: usize,
    }

    impl Read for Flickering {
        fn read(&mut self, buf: &mut [u8]) -> io::Result<usize> {
            self.is_on = !self.is_on;
            if self.is_on {
                return Err(io::Error::from(ErrorKind::Other));
            }
            let count = buf.len().min(self.left);
            buf[..count].fill(b'a');
            self.left -= count;
            Ok(count)
        }
    }

    // Takes at most so many bytes of a piece.
    #[derive(Drop)]
    struct Narrow {
        takes: usize,
        flushes: bool,
    }

    impl Write for Narrow {
        fn write(&mut self, buf: &[u8]) -> io::Result<usize> {
            Ok(buf.len().min(self.takes))
        }

        fn flush(&mut self) -> io::Result<()> {
            if self.flushes {
                Ok(())
            } else {
                Err(io::Error::from(ErrorKind::Other))
            }
        }
    }

    #[test]
    fn each_failure_of_a_reader_counts_and_its_end_does_not(rt: HostRuntime) {
        let reader = Flickering {
            is_on: false,
            left: 2,
        };
        let mut source = StdSource { reader, failed: 0 };
        let mut buf = [0; 2];
        let cases = [(Err(Failed), 1), (Ok(2), 1), (Err(Failed), 2), (Ok(0), 2)];
        for (want, count) in cases {
            assert_eq!(rt; source.read(&mut buf), want);
            assert_eq!(rt; source.failed, count);
        }
        assert_eq!(rt; buf, *b"aa");
    }

    #[test]
    fn each_failure_of_a_writer_counts(rt: HostRuntime) {
        let failed = Err(SinkFault::Failed);
        let cases = [
            (2, true, b"abc".as_slice(), Ok(2), 0),
            (0, true, b"abc".as_slice(), failed, 1),
            (0, true, b"".as_slice(), Ok(0), 0),
            (2, false, b"abc".as_slice(), failed, 1),
        ];
        for (takes, flushes, piece, want, count) in cases {
            let writer = Narrow { takes, flushes };
            let mut sink = StdSink { writer, failed: 0 };
            assert_eq!(rt; sink.write(rt.alloc(), piece), want);
            assert_eq!(rt; sink.failed, count);
        }
    }

    #[test]
    fn the_process_has_both_streams(rt: HostRuntime) -> Result<(), Fail> {
        let mut source = StdSource::fresh(&rt);
        assert_eq!(rt; source.read(&mut []), Ok(0));
        let mut sink = StdSink::fresh(&rt);
        assert_eq!(rt; sink.write(rt.alloc(), b""), Ok(0));
        assert_eq!(rt;
            crate::write_all(rt.alloc(), &mut sink, b"written\n"),
            Ok(())
        );
        Ok(())
    }
}
