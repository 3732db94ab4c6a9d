use super::*;
use std::alloc::{AllocError, Global};
use std::test::Fail;
use txn_model::{Act, Need, Place, TupleId, Which};

const SHAPE: &str = "{\"stages\":2,\"arrays\":1,\"cells\":65535,\"split\":0,\"hosts\":255}";

/// The sections of a sound text, in the order in which they are looked at.
const SOUND: [&str; 6] = [SHAPE, "[[0,10],[1,-20]]", "[]", "2", "[[]]", "\"\""];

/// The sound sections with another one in place of this one.
fn with(section: Section, written: &'static str) -> [&'static str; 6] {
    let [shape, tuples, layout, tries, clients, schedule] = SOUND;
    match section {
        Section::Whole => SOUND,
        Section::Shape => [written, tuples, layout, tries, clients, schedule],
        Section::Tuples => [shape, written, layout, tries, clients, schedule],
        Section::Layout => [shape, tuples, written, tries, clients, schedule],
        Section::Tries => [shape, tuples, layout, written, clients, schedule],
        Section::Clients => [shape, tuples, layout, tries, written, schedule],
        Section::Schedule => [shape, tuples, layout, tries, clients, written],
    }
}

/// A text with these sections.
fn text(alloc: Global, sections: [&str; 6]) -> Result<String, AllocError> {
    let [shape, tuples, layout, tries, clients, schedule] = sections;
    format!(in alloc;
        "{{\"schedule\":{schedule},\"clients\":{clients},\"tries\":{tries},\
         \"layout\":{layout},\"tuples\":{tuples},\"shape\":{shape}}}"
    )
}

fn fault(alloc: Global, text: &str) -> Option<DraftFault> {
    read_draft(alloc, text.as_bytes()).err()
}

#[test]
fn a_draft_holds_its_sections(rt: HostRuntime) -> Result<(), Fail> {
    let tuples = "[[0,9223372036854775807],[4294967295,-9223372036854775808]]";
    let layout = "[[9,255,0,65535],[9,255,0,65535]]";
    let sections = [SHAPE, tuples, layout, "255", "[]", "\"c0  x\""];
    let text = text(rt.alloc(), sections)?;
    let draft = read_draft(rt.alloc(), text.as_bytes())
        .ok()
        .ok_or("a fault")?;
    let shape = ShapeDraft {
        stages: 2,
        arrays: 1,
        split: 0,
        hosts: 255,
        cells: 65535,
    };
    let row = RowDraft {
        tuple: TupleId(9),
        place: Place {
            stage: 255,
            array: 0,
            cell: 65535,
        },
    };
    let rows = [(TupleId(0), i64::MAX), (TupleId(u32::MAX), i64::MIN)];
    assert_eq!(rt; draft.shape, shape);
    assert_eq!(rt; draft.tuples.as_slice(), rows.as_slice());
    assert_eq!(rt; draft.layout.as_slice(), [row, row].as_slice());
    assert_eq!(rt; draft.tries, 255);
    assert!(rt; draft.clients.is_empty());
    assert_eq!(rt; draft.schedule.as_str(), "c0  x");
    Ok(())
}

#[test]
fn a_draft_holds_its_items(rt: HostRuntime) -> Result<(), Fail> {
    let clients = "[[\"lose\"],[[[\"read\",7],[\"put\",1,-1,[[\"old\",0],[\"moved\",255]]]]],\
                   [[],[[\"add\",2,5,[]],[\"choose\",3,1,-2,3,[]]]]]";
    let text = text(rt.alloc(), with(Section::Clients, clients))?;
    let draft = read_draft(rt.alloc(), text.as_bytes())
        .ok()
        .ok_or("a fault")?;
    let read = "OpDraft { tuple: TupleId(7), act: Read, needs: [] }";
    let put = "OpDraft { tuple: TupleId(1), act: Put { base: -1 }, needs: \
               [Need { from: 0, which: Old }, Need { from: 255, which: Moved }] }";
    let add = "OpDraft { tuple: TupleId(2), act: Add { base: 5 }, needs: [] }";
    let choose = "OpDraft { tuple: TupleId(3), \
                  act: Choose { limit: 1, above: -2, below: 3 }, needs: [] }";
    let expected = format!(in rt.alloc();
        "[[Lose], [Run([{read}, {put}])], [Run([]), Run([{add}, {choose}])]]"
    )?;
    let clients = draft.clients;
    let found = format!(in rt.alloc(); "{clients:?}")?;
    assert_eq!(rt; found.as_str(), expected.as_str());
    Ok(())
}

#[test]
fn bytes_that_are_no_json(rt: HostRuntime) {
    let texts: [&[u8]; 6] = [
        b"",
        b"\xff",
        b"{\"tries\":1",
        b"[1e999]",
        b"\"\\ud800\"",
        &[b'['; 200],
    ];
    for bytes in texts {
        let fault = read_draft(rt.alloc(), bytes).err();
        assert_eq!(rt; fault, Some(DraftFault::NotJson), "{bytes:?}");
    }
}

#[test]
fn sections_have_these_faults(rt: HostRuntime) -> Result<(), Fail> {
    let cases = [
        (Section::Shape, "[2,1,1,1,1]"),
        (
            Section::Shape,
            "{\"stages\":2,\"arrays\":1,\"cells\":1,\"split\":1}",
        ),
        (
            Section::Shape,
            "{\"stages\":2,\"arrays\":1,\"cells\":1,\"split\":1,\"hosts\":1,\"x\":1}",
        ),
        (
            Section::Shape,
            "{\"stages\":256,\"arrays\":1,\"cells\":1,\"split\":1,\"hosts\":1}",
        ),
        (
            Section::Shape,
            "{\"stages\":2,\"arrays\":-1,\"cells\":1,\"split\":1,\"hosts\":1}",
        ),
        (
            Section::Shape,
            "{\"stages\":2,\"arrays\":1,\"cells\":65536,\"split\":1,\"hosts\":1}",
        ),
        (
            Section::Shape,
            "{\"stages\":2,\"arrays\":1,\"cells\":1,\"split\":1.0,\"hosts\":1}",
        ),
        (Section::Tuples, "{}"),
        (Section::Tuples, "[[0]]"),
        (Section::Tuples, "[[0,1,2]]"),
        (Section::Tuples, "[[0,1],[0,1]]"),
        (Section::Tuples, "[[0,1],[2,1],[1,1]]"),
        (Section::Tuples, "[[4294967296,0]]"),
        (Section::Tuples, "[[0,9223372036854775808]]"),
        (Section::Tuples, "[[0,-0]]"),
        (Section::Tuples, "[[0,1e0]]"),
        (Section::Layout, "[[0,0,0]]"),
        (Section::Layout, "[[0,256,0,0]]"),
        (Section::Layout, "[[0,0,0,65536]]"),
        (Section::Tries, "256"),
        (Section::Tries, "\"1\""),
        (Section::Clients, "{}"),
        (Section::Clients, "[\"lose\"]"),
        (Section::Clients, "[[\"lost\"]]"),
        (Section::Clients, "[[[[]]]]"),
        (Section::Clients, "[[[[\"write\",0]]]]"),
        (Section::Clients, "[[[[\"read\",0,[]]]]]"),
        (Section::Clients, "[[[[\"put\",0,1]]]]"),
        (Section::Clients, "[[[[\"choose\",0,1,2,[]]]]]"),
        (Section::Clients, "[[[[\"add\",0,1,[[\"new\",0]]]]]]"),
        (Section::Clients, "[[[[\"add\",0,1,[[\"old\",256]]]]]]"),
        (Section::Schedule, "0"),
        (Section::Schedule, "[]"),
    ];
    for (section, written) in cases {
        let text = text(rt.alloc(), with(section, written))?;
        let expected = Some(DraftFault::BadShape(section));
        assert_eq!(rt; fault(rt.alloc(), text.as_str()), expected, "{text}");
    }
    Ok(())
}

#[test]
fn the_first_section_is_told(rt: HostRuntime) {
    let whole = Some(DraftFault::BadShape(Section::Whole));
    let shape = Some(DraftFault::BadShape(Section::Shape));
    let cases = [
        ("1", whole),
        ("[]", whole),
        ("{\"shape\":1,\"hosts\":1}", whole),
        ("{}", shape),
        ("{\"schedule\":1,\"clients\":1,\"shape\":1}", shape),
        (
            "{\"tries\":[],\"schedule\":\"\",\"clients\":[],\"tries\":2,\"layout\":[],\"tuples\":[],\
             \"shape\":{\"stages\":[],\"stages\":2,\"arrays\":1,\"cells\":1,\"split\":1,\"hosts\":1}}",
            None,
        ),
    ];
    for (text, expected) in cases {
        assert_eq!(rt; fault(rt.alloc(), text), expected, "{text}");
    }
}
