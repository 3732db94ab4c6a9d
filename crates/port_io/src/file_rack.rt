//! The clients' logs in the files of a folder.
ghost use Rattle.std.specs.Prelude.{◌≡◌, ◌⊎◌, ◌<◌, [], Some, Ok, false, is_ok, IsTrue, IfSome, IsErr, IsErrOf, IsOkUnless, IfOk, OnOk, OnErr, MatchResult, if◌then◌else◌};
ghost use Rattle.std.specs.Io.{ReadsAtMost};
ghost use Rattle.std.specs.Io.KnownBytes.{Appends};
ghost use Rattle.port_io.specs.Cause.{HasCause, count_on};
ghost use Rattle.port_io.specs.LogRack.{told_nothing, AllStay, OthersStay, GivesFrom};
ghost use Rattle.port_io.specs.WriteAll.{AppendsFront};

use crate::{Failed, LogRack, RackFault};
use arrayvec::ArrayString;
use std::alloc::Global;
use std::fmt::Write as _;
use std::fs::{File, OpenFile, OpenOptions};
use std::io::{ErrorKind, Read, Seek, SeekFrom, Write};
use std::marker::Model;
use std::rt::Files;
use std::{fs, io};

/// One more byte than the longest path that the system takes.
const PATH_MAX: usize = 4096;

/// Holds the clients' logs in the files `client0.log` to `client7.log` of a folder. It tells nothing,
/// doesn't keep, and counts each failure; the count stays at `u64::MAX` once it is there.
///
/// A file that isn't there reads as empty. Each read goes to the file by its name, and appends go on
/// behind what stands there. No call takes memory.
#[derive(Drop)]
pub struct FileRack<'a, R: Files<File = File>> {
    rt: &'a R,
    folder: &'static str,
    /// What is open for appending, by client.
    appending: [Option<File>; 8],
    failed: u64,
}

impl<'a, R: Files<File = File>> Model for FileRack<'a, R> {
    ghost use Rattle.std.specs.Prelude.{◌≡◌, length};
    ghost use Rattle.port_io.specs.Stream.{Counted};

    ghost Value = { Counted };

    ghost view = { λ rack. record { failed = rack.failed } };

    ghost invariant = { λ rack. length rack.appending ≡ 8 };
}

impl<'a, R: Files<File = File>> FileRack<'a, R> {
    /// The logs in this folder, with no failure yet. Nothing is opened or made.
    pub fn at(rt: &'a R, folder: &'static str) -> FileRack<'a, R>
        ensures { result.failed ≡ 0 }
    {
        FileRack {
            rt,
            folder,
            appending: [None, None, None, None, None, None, None, None],
            failed: 0,
        }
    }

    /// Makes a client's file empty, or new where there is none, and the folder if need be.
    fn make_empty(&self, client: u8) -> io::Result<()> {
        let path = log_path(self.folder, client)?;
        let made = match fs::create(self.rt, path.as_str()) {
            Err(error) if error.kind() == ErrorKind::NotFound => {
                fs::create_dir(self.rt, self.folder)?;
                fs::create(self.rt, path.as_str())
            }
            made => made,
        };
        made.map(|_| ())
    }

    /// Opens a client's file for appending, and makes it where there is none.
    fn open_log(&self, client: u8) -> io::Result<File> {
        let path = log_path(self.folder, client)?;
        OpenOptions::new()
            .append(true)
            .create(true)
            .open(self.rt, path.as_str())
    }

    /// Appends a piece to a client's file.
    fn write_behind(&mut self, client: u8, piece: &[u8]) -> io::Result<()>
        requires { client < 8 }
        ensures { self.new.failed ≡ self.old.failed }
    {
        if self.appending[client as usize].is_none() {
            self.appending[client as usize] = Some(self.open_log(client)?);
        }
        match &mut self.appending[client as usize] {
            Some(file) => file.write_all(piece),
            None => Ok(()),
        }
    }

    /// Reads a client's file from `at` on.
    fn read_at(&self, client: u8, at: u64, buf: &mut [u8]) -> io::Result<usize>
        ensures { ReadsAtMost result buf.new }
    {
        let path = log_path(self.folder, client)?;
        let mut file = match fs::open(self.rt, path.as_str()) {
            Err(error) if error.kind() == ErrorKind::NotFound => return Ok(0),
            opened => opened?,
        };
        let len = file.metadata()?.len();
        file.seek(SeekFrom::Start(at.min(len)))?;
        file.read(buf)
    }

    /// The answer, counted where it is a failure.
    fn counted<T>(&mut self, answer: io::Result<T>) -> Result<T, Failed>
        ensures answer { MatchResult answer (λ value. result ≡ Ok value) (λ _. IsErr result) }
        ensures cause { HasCause self.old.failed self.new.failed (IsErr result) }
        ensures count { self.new.failed ≡ (if is_ok result then self.old.failed else count_on self.old.failed) }
    {
        match answer {
            Ok(value) => Ok(value),
            Err(_) => {
                self.failed = self.failed.saturating_add(1);
                Err(Failed)
            }
        }
    }
}

impl<'a, R: Files<File = File>> LogRack for FileRack<'a, R> {
    ghost told = { λ _. told_nothing };

    ghost keeps = { λ _. false };

    ghost faults = { λ rack. rack.failed };

    fn reset(&mut self, client: u8) -> Result<(), Failed>
        requires { client < 8 }
        ensures cause { HasCause self.old.failed self.new.failed (IsErr result) }
        ensures others { OthersStay client told_nothing told_nothing }

        // Nothing is kept.
        ensures emptied { IsTrue false → OnOk result (told_nothing client ≡ Some []) }
        ensures old_or_empty { IsTrue false → OnErr result
            ((told_nothing client ≡ told_nothing client) ⊎ (told_nothing client ≡ Some [])) }

        // Each failure counts once.
        ensures count { self.new.failed ≡ (if is_ok result then self.old.failed else count_on self.old.failed) }
    {
        self.appending[client as usize] = None;
        let answer = self.make_empty(client);
        self.counted(answer)
    }

    fn append(&mut self, _alloc: Global, client: u8, piece: &[u8]) -> Result<(), RackFault>
        requires { client < 8 }
        ensures cause { HasCause self.old.failed self.new.failed (IsErrOf result RackFault.Failed) }
        ensures no_memory { IsErrOf result RackFault.NoMemory → AllStay told_nothing told_nothing }
        ensures others { OthersStay client told_nothing told_nothing }

        // Nothing is kept.
        ensures appended { IsTrue false → OnOk result (Appends (told_nothing client) (told_nothing client) piece.now) }
        ensures front { IsTrue false → IsErrOf result RackFault.Failed
            → AppendsFront (told_nothing client) (told_nothing client) piece.now }

        // Each failure counts once, and there is no other fault.
        ensures failed { IsOkUnless result RackFault.Failed }
        ensures count { self.new.failed ≡ (if is_ok result then self.old.failed else count_on self.old.failed) }
    {
        let answer = self.write_behind(client, piece);
        match self.counted(answer) {
            Ok(()) => Ok(()),
            Err(Failed) => Err(RackFault::Failed),
        }
    }

    fn read(&mut self, client: u8, at: u64, buf: &mut [u8]) -> Result<usize, Failed>
        requires { client < 8 }
        ensures bound { ReadsAtMost result buf.new }
        ensures bytes { IfOk result (λ n. IfSome (told_nothing client) (λ log. GivesFrom log at n buf.new)) }
        ensures unchanged { AllStay told_nothing told_nothing }
        ensures cause { HasCause self.old.failed self.new.failed (IsErr result) }

        // Each failure counts once.
        ensures count { self.new.failed ≡ (if is_ok result then self.old.failed else count_on self.old.failed) }
    {
        let answer = self.read_at(client, at, buf);
        self.counted(answer)
    }

    ghost keeping_tells = { λ rack client keeps. keeps };
}

/// The path of a client's file.
fn log_path(folder: &str, client: u8) -> io::Result<ArrayString<PATH_MAX>> {
    let mut path = ArrayString::new();
    match write!(path, "{folder}/client{client}.log") {
        Ok(()) => Ok(path),
        Err(_) => Err(io::Error::from(ErrorKind::InvalidInput)),
    }
}
