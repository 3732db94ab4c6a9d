//! What no clause says: that the calls succeed where memory is left, over tables of small inputs.

use super::*;
use std::convert::AsStr;
use std::fs;
use std::test::Fail;

#[test]
fn a_source_fails_once_and_then_gives_all(rt: HostRuntime) -> Result<(), Fail> {
    let alloc = rt.alloc();
    let mut source = MemSource::of(b"abcde".to_vec(alloc)?, [1, 3].to_vec(alloc)?);
    let mut buf = [0; 3];
    for want in [Err(Failed), Ok(3), Err(Failed), Ok(2), Ok(0)] {
        assert_eq!(rt; source.read(&mut buf), want);
    }
    assert_eq!(rt; buf, *b"dec");
    Ok(())
}

#[test]
fn read_all_keeps_to_its_limit(rt: HostRuntime) -> Result<(), Fail> {
    let alloc = rt.alloc();
    let cases: [(&[u8], &[u32], usize, Result<&[u8], ReadAllFault>); 7] = [
        (b"", &[], 0, Ok(b"")),
        (b"a", &[], 0, Err(ReadAllFault::TooLong)),
        (b"abc", &[], 3, Ok(b"abc")),
        (b"abc", &[], 2, Err(ReadAllFault::TooLong)),
        (b"abc", &[], usize::MAX, Ok(b"abc")),
        (b"abc", &[1], 3, Err(ReadAllFault::Failed)),
        (b"abc", &[2], 3, Err(ReadAllFault::Failed)),
    ];
    for (bytes, fails, most, want) in cases {
        let mut source = MemSource::of(bytes.to_vec(alloc)?, fails.to_vec(alloc)?);
        match read_all(alloc, &mut source, most) {
            Ok(got) => assert_eq!(rt; Ok(got.as_slice()), want),
            Err(fault) => assert_eq!(rt; Err(fault), want),
        }
    }
    Ok(())
}

#[test]
fn read_all_joins_many_pieces(rt: HostRuntime) -> Result<(), Fail> {
    let alloc = rt.alloc();
    let bytes = vec![in alloc; 7; 300_000]?;
    let mut source = CleanSource::of(bytes.clone()?);
    match read_all(alloc, &mut source, 300_000) {
        Ok(got) => assert!(rt; got == bytes),
        Err(_) => panic!(rt; "the source is clean"),
    }
    Ok(())
}

#[test]
fn write_all_leaves_a_front(rt: HostRuntime) -> Result<(), Fail> {
    let alloc = rt.alloc();
    let failed = Err(SinkFault::Failed);
    let cases: [(usize, &[u32], Result<(), SinkFault>, &[u8]); 5] = [
        (2, &[], Ok(()), b"abcdefg"),
        (100, &[2], Ok(()), b"abcdefg"),
        (2, &[1], failed, b""),
        (2, &[3], failed, b"abcd"),
        (1, &[7, 8], failed, b"abcdef"),
    ];
    for (most, fails, want, content) in cases {
        let mut sink = MemSink::of(alloc, most, fails.to_vec(alloc)?);
        assert_eq!(rt; write_all(alloc, &mut sink, b"abcdefg"), want);
        assert_eq!(rt; sink.content(), content);
    }
    let mut sink = CleanSink::fresh(alloc);
    assert_eq!(rt; write_all(alloc, &mut sink, b"ab"), Ok(()));
    assert_eq!(rt; write_all(alloc, &mut sink, b"cd"), Ok(()));
    assert_eq!(rt; sink.content(), b"abcd".as_slice());
    Ok(())
}

// A rack goes to the threads of a race.
fn goes_to_a_thread<T: Send>(value: T) -> T {
    value
}

#[test]
fn a_clean_rack_keeps_each_log(rt: HostRuntime) -> Result<(), Fail> {
    let alloc = rt.alloc();
    let mut rack = goes_to_a_thread(CleanRack::fresh(alloc));
    assert_eq!(rt; rack.append(alloc, 0, b"abc"), Ok(()));
    assert_eq!(rt; rack.append(alloc, 7, b"xy"), Ok(()));
    assert_eq!(rt; rack.append(alloc, 0, b"de"), Ok(()));
    let mut buf = [0; 4];
    for (client, at, want) in [(0, 0, 4), (0, 2, 3), (0, 5, 0), (7, 1, 1), (3, 0, 0)] {
        assert_eq!(rt; rack.read(client, at, &mut buf), Ok(want));
    }
    assert_eq!(rt; rack.reset(0), Ok(()));
    assert_eq!(rt; rack.bytes(0), b"".as_slice());
    assert_eq!(rt; rack.bytes(7), b"xy".as_slice());
    assert_eq!(rt; rack.read(7, u64::MAX, &mut buf), Ok(0));
    Ok(())
}

#[test]
fn a_rack_fails_by_number_and_keeps_a_half(rt: HostRuntime) -> Result<(), Fail> {
    let alloc = rt.alloc();
    let mut rack = goes_to_a_thread(MemRack::of(alloc, [2, 4, 5].to_vec(alloc)?));
    let mut buf = [0; 8];
    assert_eq!(rt; rack.append(alloc, 1, b"ab"), Ok(()));
    assert_eq!(rt; rack.append(alloc, 1, b"cdefg"), Err(RackFault::Failed));
    assert_eq!(rt; rack.append(alloc, 6, b"xy"), Ok(()));
    assert_eq!(rt; rack.read(1, 0, &mut buf), Err(Failed));
    assert_eq!(rt; rack.reset(1), Err(Failed));
    assert_eq!(rt; rack.bytes(1), b"abcd".as_slice());
    assert_eq!(rt; rack.read(1, 1, &mut buf), Ok(3));
    assert_eq!(rt; rack.reset(1), Ok(()));
    assert_eq!(rt; rack.bytes(1), b"".as_slice());
    assert_eq!(rt; rack.bytes(6), b"xy".as_slice());
    Ok(())
}

#[test]
fn a_damaged_rack_shows_one_wrong_byte(rt: HostRuntime) -> Result<(), Fail> {
    let alloc = rt.alloc();
    let cases = [
        (2, 0, 0, b"!bcd".as_slice()),
        (2, 3, 0, b"abc!".as_slice()),
        (2, 3, 2, b"c!".as_slice()),
        (2, 1, 2, b"cd".as_slice()),
        (2, 4, 0, b"abcd".as_slice()),
        (2, u64::MAX, 1, b"bcd".as_slice()),
        (3, 0, 0, b"abcd".as_slice()),
    ];
    for (client, place, at, want) in cases {
        let mut rack = goes_to_a_thread(DamagedRack::of(alloc, client, place, b'!'));
        let mut buf = [0; 9];
        assert_eq!(rt; rack.append(alloc, 2, b"abcd"), Ok(()));
        assert_eq!(rt; rack.read(2, at, &mut buf), Ok(want.len()));
        assert!(rt; buf.starts_with(want));
        assert_eq!(rt; rack.bytes(2), b"abcd".as_slice());
        assert_eq!(rt; rack.reset(2), Ok(()));
        assert_eq!(rt; rack.read(2, 0, &mut buf), Ok(0));
    }
    Ok(())
}

#[test]
fn a_rack_in_files_reads_the_files(rt: HostRuntime) -> Result<(), Fail> {
    const FOLDER: &str = "rack-in-files";
    let alloc = rt.alloc();
    let mut rack = goes_to_a_thread(FileRack::at(&rt, FOLDER));
    let mut buf = [0; 8];
    assert_eq!(rt; rack.read(3, 0, &mut buf), Ok(0));
    assert_eq!(rt; rack.append(alloc, 3, b"no folder"), Err(RackFault::Failed));
    assert_eq!(rt; rack.reset(3), Ok(()));
    assert_eq!(rt; rack.append(alloc, 3, b"abc"), Ok(()));
    assert_eq!(rt; rack.append(alloc, 3, b"de"), Ok(()));
    assert_eq!(rt; rack.read(3, 1, &mut buf), Ok(4));
    assert!(rt; buf.starts_with(b"bcde"));

    // What another writes there is read, and appends go on behind it.
    fs::write(&rt, "rack-in-files/client3.log", b"other".as_slice())?;
    assert_eq!(rt; rack.append(alloc, 3, b"!"), Ok(()));
    assert_eq!(rt; rack.read(3, 0, &mut buf), Ok(6));
    assert!(rt; buf.starts_with(b"other!"));
    for at in [6, 7, u64::MAX] {
        assert_eq!(rt; rack.read(3, at, &mut buf), Ok(0));
    }
    assert_eq!(rt; rack.reset(3), Ok(()));
    assert_eq!(rt; rack.read(3, 0, &mut buf), Ok(0));
    fs::remove_dir_all(&rt, FOLDER)?;

    let mut not_a_folder = FileRack::at(&rt, "/dev/null");
    assert_eq!(rt; not_a_folder.reset(0), Err(Failed));
    Ok(())
}

#[test]
fn a_word_is_its_text(rt: HostRuntime) -> Result<(), Fail> {
    let word = Word::of(String::from_str(rt.alloc(), "run\u{e9}")?);
    assert_eq!(rt; word.as_str(), "run\u{e9}");
    assert_eq!(rt; AsStr::as_str(&word), "run\u{e9}");
    Ok(())
}
