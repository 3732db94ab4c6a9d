//! In memory: a source, a sink and a rack that never fail.
ghost use Rattle.std.specs.Prelude.{◌≡◌, ℕ, ◌<◌, min, List, [], length, take, Some, true, refl};
ghost use Rattle.port_io.specs.LogRack.{log_of};

use crate::{Failed, LogRack, RackFault, Sink, SinkFault, Source};
use std::alloc::Global;
use std::marker::Model;

/// Gives the bytes that it was made of, and never fails.
#[derive(Debug, Drop)]
pub struct CleanSource {
    bytes: Vec<u8>,
    at: usize,
}

impl Model for CleanSource {
    ghost use Rattle.std.specs.Prelude.{ℕ, ◌≤◌, List, drop, vec_len};

    ghost Value = { List ℕ };

    ghost view = { λ source. drop source.at source.bytes.items };

    ghost invariant = { λ source. source.at ≤ vec_len source.bytes };
}

impl CleanSource {
    /// A source in which these bytes are left.
    pub fn of(bytes: Vec<u8>) -> CleanSource
        ensures { result ≡ bytes.items }
    {
        CleanSource { bytes, at: 0 }
    }

    /// The bytes that are still to come.
    fn rest(&self) -> &[u8]
        ensures { result.now ≡ self.now }
    {
        &self.bytes[self.at..]
    }
}

impl Source for CleanSource {
    ghost left = { λ source. Some source };

    ghost faults = { λ _. 0 };

    fn read(&mut self, buf: &mut [u8]) -> Result<usize, Failed> {
        let count = copy_front(self.rest(), buf);
        self.at += count;
        Ok(count)
    }
}

/// Holds the bytes that were written, and never fails. Contracts see it as these bytes.
#[derive(Debug, Drop)]
pub struct CleanSink {
    content: Vec<u8>,
}

impl Model for CleanSink {
    ghost use Rattle.std.specs.Prelude.{ℕ, List};

    ghost Value = { List ℕ };

    ghost view = { λ sink. sink.content.items };
}

impl CleanSink {
    /// A sink that holds nothing yet.
    pub fn fresh(alloc: Global) -> CleanSink
        ensures { result ≡ [] }
    {
        CleanSink {
            content: Vec::new(alloc),
        }
    }

    /// The bytes that were written.
    pub fn content(&self) -> &[u8]
        ensures { result.now ≡ self.now }
    {
        self.content.as_slice()
    }
}

impl Sink for CleanSink {
    ghost content = { λ sink. Some sink };

    ghost faults = { λ _. 0 };

    fn write(&mut self, _alloc: Global, piece: &[u8]) -> Result<usize, SinkFault> {
        self.content.extend_from_slice(piece)?;
        Ok(piece.len())
    }
}

/// Holds the clients' logs, keeps them, and never fails. Contracts see it as the list of the logs.
#[derive(Debug, Drop)]
pub struct CleanRack {
    logs: [Vec<u8>; 8],
}

impl Model for CleanRack {
    ghost use Rattle.std.specs.Prelude.{◌≡◌, ℕ, List, length, map};

    ghost Value = { List (List ℕ) };

    ghost view = { λ rack. map (λ log. log.items) rack.logs };

    ghost invariant = { λ rack. length rack.logs ≡ 8 };
}

impl CleanRack {
    /// A rack whose logs are empty.
    pub fn fresh(alloc: Global) -> CleanRack
        ensures { (client : ℕ) → log_of result client ≡ [] }
    {
        CleanRack {
            logs: [
                Vec::new(alloc),
                Vec::new(alloc),
                Vec::new(alloc),
                Vec::new(alloc),
                Vec::new(alloc),
                Vec::new(alloc),
                Vec::new(alloc),
                Vec::new(alloc),
            ],
        }
    }

    /// A client's log.
    pub fn bytes(&self, client: u8) -> &[u8]
        requires { client < 8 }
        ensures { result.now ≡ log_of self.now client }
    {
        self.logs[client as usize].as_slice()
    }
}

impl LogRack for CleanRack {
    ghost told = { λ rack client. Some (log_of rack client) };

    ghost keeps = { λ _. true };

    ghost faults = { λ _. 0 };

    fn reset(&mut self, client: u8) -> Result<(), Failed> {
        self.logs[client as usize].clear();
        Ok(())
    }

    fn append(&mut self, _alloc: Global, client: u8, piece: &[u8]) -> Result<(), RackFault> {
        self.logs[client as usize].extend_from_slice(piece)?;
        Ok(())
    }

    fn read(&mut self, client: u8, at: u64, buf: &mut [u8]) -> Result<usize, Failed> {
        let log = &self.logs[client as usize];
        let from = log.len().min(at as usize);
        Ok(copy_front(&log[from..], buf))
    }

    ghost keeping_tells = { λ rack client keeps. refl };
}

/// Copies as many bytes as both have, and says how many.
fn copy_front(from: &[u8], to: &mut [u8]) -> usize
    ensures count { result ≡ min (length from.now) (length to.old) }
    ensures front { take result to.new ≡ take result from.now }
{
    let count = from.len().min(to.len());
    to[..count].copy_from_slice(&from[..count]);
    count
}
