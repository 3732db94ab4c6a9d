use super::*;
use Admission::{Entered, Taken};

#[test]
fn one_pass_takes_no_half(rt: HostRuntime) {
    let mut halves = Halves::free();
    assert_eq!(rt; halves.try_enter(3, 1, 5), Entered);
    assert_eq!(rt; halves.try_enter(3, 2, 6), Entered);
    assert_eq!(rt; halves.try_enter(2, 1, 7), Taken(6));
}

#[test]
fn the_left_holder_is_named_first(rt: HostRuntime) {
    let mut halves = Halves::free();
    assert_eq!(rt; halves.try_enter(2, 2, 0), Entered);
    assert_eq!(rt;
        halves.try_enter(3, 2, 1),
        Taken(0),
        "the right half alone is held"
    );
    assert_eq!(rt; halves.try_enter(1, 16, 1), Entered);
    assert_eq!(rt; halves.try_enter(3, 1, 2), Taken(1));
    assert_eq!(rt; halves.try_enter(2, 2, 2), Taken(0));
    halves.leave(1);
    assert_eq!(rt; halves.try_enter(3, 2, 2), Taken(0));
    halves.leave(0);
    assert_eq!(rt; halves.try_enter(3, 2, 2), Entered);
}
