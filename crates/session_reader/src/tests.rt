use super::*;
use catalogue::Actor;
use std::test::Fail;

const SOUND: &[u8] = b"{\"clients\":[[\"lose\",[[\"read\",4],[\"put\",2,-3,[[\"old\",0]]]]],[]],\
    \"layout\":[[0,0,0,0]],\"schedule\":\"c1 r\",\
    \"shape\":{\"stages\":2,\"arrays\":1,\"cells\":2,\"split\":1,\"hosts\":3},\
    \"tries\":2,\"tuples\":[[0,10],[2,30],[4,50]]}";

#[test]
fn a_session_is_read(rt: HostRuntime) -> Result<(), Fail> {
    let session = read_session(rt.alloc(), SOUND).ok().ok_or("a fault")?;
    assert_eq!(rt; (session.clients(), session.tries), (2, 2));
    assert_eq!(rt;
        session.schedule.as_slice(),
        [Actor::Client(1), Actor::Recover].as_slice()
    );
    Ok(())
}

#[test]
fn no_session(rt: HostRuntime) {
    let cases: [(&[u8], SessionFault); 3] = [
        (b"\xff", SessionFault::NotJson),
        (b"{", SessionFault::NotJson),
        (
            b"{\"shape\":0,\"name\":0}",
            SessionFault::BadShape(Section::Whole),
        ),
    ];
    for (bytes, expected) in cases {
        let fault = read_session(rt.alloc(), bytes).err();
        assert_eq!(rt; fault, Some(expected), "{bytes:?}");
    }
}
