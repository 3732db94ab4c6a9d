use super::*;
use std::test::Fail;

/// A sound session with each form of each part.
const SOUND: &str = "{\"clients\":[[\"lose\",[[\"read\",0],\
    [\"add\",4,0,[[\"old\",0]]],\
    [\"choose\",5,-9223372036854775808,7,-1,[]],\
    [\"put\",2,-3,[[\"moved\",1],[\"old\",2]]]]],[]],\
    \"layout\":[[0,0,0,0],[4,1,0,1]],\
    \"schedule\":\"c1 p0 s1 r\",\
    \"shape\":{\"arrays\":1,\"cells\":2,\"hosts\":3,\"split\":1,\"stages\":2},\
    \"tries\":2,\
    \"tuples\":[[0,10],[2,30],[4,50],[5,-1]]}";

#[test]
fn a_text_gives_its_session_back(rt: HostRuntime) -> Result<(), Fail> {
    let session = read_session(rt.alloc(), SOUND.as_bytes());
    let session = session.ok().ok_or("a fault")?;
    let written = write_session(rt.alloc(), &session)?;
    assert_eq!(rt; written.as_slice(), SOUND.as_bytes());
    Ok(())
}
