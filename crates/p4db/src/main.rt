//! The program `p4db`: hands its words and the process's streams to the library's top call.
#![tactic(auto)]

use client_gate::OpenGate;
use p4db_top::{Note, top};
use port_io::{FileRack, StdSink, StdSource, Word};
use std::io::ErrorKind;
use std::process::ExitCode;
use std::rt::Env;
use std::{env, io};

/// The folder of the clients' logs, where the program runs.
const LOGS: &str = "p4db-logs";

/// The words behind the program's name. Words that aren't UTF-8 are no command.
fn words_of<R: Env + AllocGlobal>(rt: &R) -> Result<Vec<Word>, Note> {
    let mut words = Vec::new(rt.alloc());
    for text in env::args(rt).map_err(note_of)?.skip(1) {
        words.push(Word::of(text)).map_err(|_| Note::NoMemory)?;
    }
    Ok(words)
}

fn note_of(error: io::Error) -> Note {
    match error.kind() {
        ErrorKind::OutOfMemory => Note::NoMemory,
        _ => Note::Usage,
    }
}

fn main(rt: HostRuntime) -> ExitCode {
    let note = match words_of(&rt) {
        Ok(words) => {
            let mut source = StdSource::fresh(&rt);
            let mut sink = StdSink::fresh(&rt);
            let logs = FileRack::at(&rt, LOGS);
            let gate = OpenGate;
            top(
                &rt,
                rt.alloc(),
                words.as_slice(),
                &mut source,
                &mut sink,
                logs,
                &gate,
            )
            .note
        }
        Err(note) => note,
    };

    // Where the line can't be written, the status still tells.
    let _ = rt.eprint(note);
    ExitCode::from(note.status())
}
