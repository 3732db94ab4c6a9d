use super::*;
use client_gate::{MeetGate, OpenGate};
use port_io::{CleanRack, CleanSink, CleanSource, DamagedRack, MemRack, MemSink, MemSource, Word};
use std::alloc::{AllocError, Global};
use std::test::Fail;

const SESSION: &str =
    r#"{"shape":{"stages":2,"arrays":1,"cells":2,"split":1,"hosts":2},"tuples":[[0,10],[1,20],[2,30],[3,40],[4,50]],"layout":[],"tries":1,"clients":[[[["add",2,5,[]]]],[[["add",2,1,[]]]]],"schedule":"c0 c1"}"#;

const REPORT: &str =
    "replies 2\nc0 1 cold 0.1 30>35\nc1 1 abort t2 c0 @1\nhistory 1\n0.1 c0 1\ntuples 5\nt0 10\nt1 20\nt2 35\nt3 40\nt4 50\nschedule c0 c1 c0 c0\n";

/// One client is in the switch in two passes, one in one pass, and one is on hosts and in the switch.
const PACKETS: &str =
    r#"{"shape":{"stages":2,"arrays":1,"cells":2,"split":1,"hosts":2},"tuples":[[0,10],[1,20],[2,30],[3,40],[4,50]],"layout":[[0,0,0,0],[1,1,0,0],[4,0,0,1]],"tries":2,"clients":[[[["add",0,1,[]],["add",4,0,[["moved",0]]]]],[[["add",1,1,[]]]],[[["read",2],["add",0,0,[["old",0]]],["put",3,1,[["old",1]]]]]],"schedule":"c0 c0 c1 c1 p0 s0 s1 p1"}"#;

const PACKETS_REPORT: &str =
    "replies 3\nc0 1 hot 1.0 10>11 50>49\nc1 1 hot 2.0 20>21\nc2 1 warm 3.0 30>30 11>41 40>12\nhistory 3\n1.0 c0 1\n2.0 c1 1\n3.0 c2 1\ntuples 5\nt0 41\nt1 21\nt2 30\nt3 12\nt4 49\nschedule c0 c0 c1 c1 p0 s0 s1 p1 c2 s0 c2 p0 s1 s0 c1 c2 s1 c0 c2 p2 s0 s1 c2 c2 c2\n";

/// The rack is called for two resets and for two intents, and then for the second client's outcome.
const SHARED: &str =
    r#"{"shape":{"stages":2,"arrays":1,"cells":2,"split":1,"hosts":2},"tuples":[[0,10],[1,20],[2,30],[3,40],[4,50]],"layout":[[0,0,0,0],[1,1,0,0],[4,0,0,1]],"tries":2,"clients":[[[["add",0,1,[]]]],[[["add",0,1,[]]]]],"schedule":"c0 c0 c1 c1 p1 s0 p0"}"#;

const LOSES: &str =
    r#"{"shape":{"stages":1,"arrays":1,"cells":1,"split":0,"hosts":1},"tuples":[],"layout":[],"tries":1,"clients":[["lose"]],"schedule":""}"#;

const LOSES_REPORT: &str = "replies 1\nc0 1 lose\nhistory 0\ntuples 0\nschedule c0 r\n";

/// The switch is lost when two packets have no logged answer, and the third has seen both.
const LOST: &str =
    r#"{"shape":{"stages":2,"arrays":1,"cells":2,"split":1,"hosts":2},"tuples":[[0,10],[1,20],[2,30],[3,40],[4,50]],"layout":[[0,0,0,0],[1,1,0,0],[4,0,0,1]],"tries":2,"clients":[[[["add",0,1,[]]]],[[["put",0,5,[]]]],[[["read",0]]],["lose"]],"schedule":"c0 c0 c1 c1 c2 c2 p1 s0 s1 p0 s0 s1 p2 s0 s1 c2 c3 r"}"#;

const LOST_REPORT: &str =
    "replies 4\nc0 1 hot 2.0 5>6\nc1 1 hot 1.0 10>5\nc2 1 hot 3.0 6>6\nc3 1 lose\nhistory 3\n1.0 c1 1\n2.0 c0 1\n3.0 c2 1\ntuples 5\nt0 6\nt1 20\nt2 30\nt3 40\nt4 50\nschedule c0 c0 c1 c1 c2 c2 p1 s0 s1 p0 s0 s1 p2 s0 s1 c2 c3 r c0 c1\n";

/// Two clients on hosts, each with a tuple of its own.
const APART: &str =
    r#"{"shape":{"stages":2,"arrays":1,"cells":2,"split":1,"hosts":2},"tuples":[[0,10],[1,20],[2,30],[3,40],[4,50]],"layout":[[0,0,0,0],[1,1,0,0],[4,0,0,1]],"tries":2,"clients":[[[["add",2,5,[]]]],[[["add",3,1,[]]]]],"schedule":""}"#;

fn words(alloc: Global, texts: &[&str]) -> Result<Vec<Word>, AllocError> {
    let mut words = Vec::new(alloc);
    for text in texts {
        words.push(Word::of(String::from_str(alloc, text)?))?;
    }
    Ok(words)
}

fn bytes(alloc: Global, text: &str) -> Result<Vec<u8>, AllocError> {
    Vec::from_slice(alloc, text.as_bytes())
}

// Each row has the number of the rack's call that fails; no call has the number 0.
#[test]
fn texts_get_these_answers(rt: HostRuntime) -> Result<(), Fail> {
    let run: &[&str] = &["run"];
    let cases = [
        (run, SESSION, 0, Note::Done, REPORT),
        (run, SESSION, 1, Note::LogFault(0), ""),
        (run, PACKETS, 0, Note::Done, PACKETS_REPORT),
        (run, SHARED, 5, Note::LogFault(1), ""),
        (run, LOSES, 0, Note::Done, LOSES_REPORT),
        (run, LOST, 0, Note::Done, LOST_REPORT),
        (run, "", 1, Note::Session(SessionFault::NotJson), ""),
        (
            run,
            "1",
            1,
            Note::Session(SessionFault::BadShape(Section::Whole)),
            "",
        ),
        (["run", "5"].as_slice(), SESSION, 1, Note::Usage, ""),
        (["help"].as_slice(), SESSION, 1, Note::Usage, ""),
        ([].as_slice(), SESSION, 1, Note::Usage, ""),
    ];
    for (texts, text, fails, note, printed) in cases {
        let alloc = rt.alloc();
        let mut source = CleanSource::of(bytes(alloc, text)?);
        let mut sink = CleanSink::fresh(alloc);
        let words = words(alloc, texts)?;
        let rack = MemRack::of(alloc, vec![in alloc; fails]?);
        let ended = top(
            &rt,
            alloc,
            words.as_slice(),
            &mut source,
            &mut sink,
            rack,
            &OpenGate,
        );
        assert_eq!(rt; ended.note, note);
        assert_eq!(rt; ended.status, note.status());
        assert_eq!(rt; sink.content(), printed.as_bytes());
    }
    Ok(())
}

#[test]
fn faults_of_streams_are_told(rt: HostRuntime) -> Result<(), Fail> {
    let alloc = rt.alloc();
    let words = words(alloc, &["run"])?;
    let mut failing = MemSource::of(bytes(alloc, SESSION)?, vec![in alloc; 1]?);
    let mut sink = CleanSink::fresh(alloc);
    let rack = CleanRack::fresh(alloc);
    let ended = top(
        &rt,
        alloc,
        words.as_slice(),
        &mut failing,
        &mut sink,
        rack,
        &OpenGate,
    );
    assert_eq!(rt; ended.note, Note::ReadFault);
    assert_eq!(rt; sink.content(), b"".as_slice());

    let mut source = CleanSource::of(bytes(alloc, SESSION)?);
    let mut slow = MemSink::of(alloc, 10, vec![in alloc; 2]?);
    let rack = CleanRack::fresh(alloc);
    let ended = top(
        &rt,
        alloc,
        words.as_slice(),
        &mut source,
        &mut slow,
        rack,
        &OpenGate,
    );
    assert_eq!(rt; ended.note, Note::WriteFault);
    assert_eq!(rt; slow.content(), b"replies 2\n".as_slice());
    Ok(())
}

#[test]
fn a_changed_log_stops_the_recovery(rt: HostRuntime) -> Result<(), Fail> {
    let alloc = rt.alloc();
    let words = words(alloc, &["run"])?;
    let mut source = CleanSource::of(bytes(alloc, LOST)?);
    let mut sink = CleanSink::fresh(alloc);
    let rack = DamagedRack::of(alloc, 2, 0, 0);
    let ended = top(
        &rt,
        alloc,
        words.as_slice(),
        &mut source,
        &mut sink,
        rack,
        &OpenGate,
    );
    assert_eq!(rt; ended.note, Note::LogChanged(2, 0));
    assert_eq!(rt; ended.status, 7);
    assert_eq!(rt; sink.content(), b"".as_slice());
    Ok(())
}

// No run by a single thread passes: neither of the first two clients' first turns is let pass without the other.
#[test]
fn two_threads_meet_in_a_race(rt: HostRuntime) -> Result<(), Fail> {
    let alloc = rt.alloc();
    let words = words(alloc, &["race", "--threads", "4"])?;
    let mut source = CleanSource::of(bytes(alloc, APART)?);
    let mut sink = CleanSink::fresh(alloc);
    let rack = CleanRack::fresh(alloc);
    let gate = MeetGate::of(100_000_000);
    let ended = top(
        &rt,
        alloc,
        words.as_slice(),
        &mut source,
        &mut sink,
        rack,
        &gate,
    );
    assert_eq!(rt; ended.note, Note::Done);
    assert!(rt; !gate.gave_up());
    let printed = sink.content();
    assert!(rt; printed.starts_with(b"replies 2\nc0 1 cold 0.1 30>35\nc1 1 cold 0.1 40>41\n"));
    assert!(rt; printed.ends_with(b" c0 c0\n"));
    Ok(())
}

/// A client that reads each of sixteen records.
const READS: &[&str] = &[
    "ycsb",
    "--records=16",
    "--ops=16",
    "--mix=c",
    "--hot=0",
    "--clients=1",
    "--scripts=1",
];

/// The words of a command with that load.
fn load_words(alloc: Global, name: &str) -> Result<Vec<Word>, AllocError> {
    let mut all = words(alloc, &[name])?;
    for text in READS {
        all.push(Word::of(String::from_str(alloc, text)?))?;
    }
    Ok(all)
}

// What is generated is a session that runs.
#[test]
fn a_generated_session_is_run(rt: HostRuntime) -> Result<(), Fail> {
    let alloc = rt.alloc();
    let generating = load_words(alloc, "gen")?;
    let mut empty = CleanSource::of(bytes(alloc, "")?);
    let mut text = CleanSink::fresh(alloc);
    let rack = CleanRack::fresh(alloc);
    let ended = top(
        &rt,
        alloc,
        generating.as_slice(),
        &mut empty,
        &mut text,
        rack,
        &OpenGate,
    );
    assert_eq!(rt; ended.note, Note::Done);
    assert!(rt; text.content().ends_with(b",[15,100]]}\n"));

    let running = words(alloc, &["run"])?;
    let mut source = CleanSource::of(Vec::from_slice(alloc, text.content())?);
    let mut sink = CleanSink::fresh(alloc);
    let ended = top(
        &rt,
        alloc,
        running.as_slice(),
        &mut source,
        &mut sink,
        ended.logs,
        &OpenGate,
    );
    assert_eq!(rt; ended.note, Note::Done);
    assert!(rt;
        sink.content()
            .starts_with(b"replies 1\nc0 1 cold 0.1 100>100 100>100 100>100 ")
    );
    Ok(())
}

#[test]
fn a_generated_session_is_driven(rt: HostRuntime) -> Result<(), Fail> {
    let alloc = rt.alloc();
    let words = load_words(alloc, "drive")?;
    let mut source = CleanSource::of(bytes(alloc, "")?);
    let mut sink = CleanSink::fresh(alloc);
    let rack = CleanRack::fresh(alloc);
    let ended = top(
        &rt,
        alloc,
        words.as_slice(),
        &mut source,
        &mut sink,
        rack,
        &OpenGate,
    );
    assert_eq!(rt; ended.note, Note::Done);
    let printed = sink.content();
    assert!(rt; printed.starts_with(b"hot 0\nwarm 0\ncold 1\naborted 0\nlost 0\nmoves "));
    assert!(rt; printed.ends_with(b"\ntotal 1600\n"));
    Ok(())
}
