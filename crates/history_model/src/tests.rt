use super::*;
use txn_model::Stamp;

fn entry(number: u64, sub: u32, client: u8, seq: u32) -> Entry {
    Entry {
        stamp: Stamp { number, sub },
        client,
        seq,
    }
}

#[test]
fn entries_stand_by_number_then_sub_then_client(rt: HostRuntime) {
    let ascending = [
        entry(0, 1, 7, 9),
        entry(0, 2, 3, 8),
        entry(1, 0, 5, 7),
        entry(1, 1, 0, 6),
        entry(1, 1, 1, 5),
    ];
    for (i, a) in ascending.iter().enumerate() {
        for (j, b) in ascending.iter().enumerate() {
            assert_eq!(rt; a.stands_before(b), i < j, "{a:?} and {b:?}");
        }
    }
}
