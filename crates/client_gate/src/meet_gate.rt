//! A gate at which the first two clients meet.

ghost use Rattle.std.specs.Prelude.{◌≡◌};
ghost use Rattle.client_gate.specs.Holds.{hold_of};

use crate::gate::Gate;
use catalogue::Actor;
use std::hint;
use std::sync::atomic::{AtomicU64, Ordering};

/// What a call is held for: until the call of this client with this number, counted from 1, has come.
#[derive(Clone, Copy, Debug, PartialEq, Eq)]
pub(crate) struct Hold {
    pub(crate) client: u8,
    pub(crate) call: u64,
}

/// What the call of a client with this number, counted from 1, is held for. None where it isn't held.
pub(crate) fn hold_of(client: u8, call: u64) -> Option<Hold>
    ensures { result ≡ hold_of client call }
{
    match (client, call) {
        (0, 1) => Some(Hold { client: 1, call: 1 }),
        (1, 1) => Some(Hold { client: 0, call: 1 }),
        (0, 2) => Some(Hold { client: 1, call: 4 }),
        _ => None,
    }
}

/// A gate for tests, at which workers on two threads meet: the first call for client 0 is held until the first
/// one for client 1 has come, and that one until the other has; the second call for client 0 is held until the
/// fourth one for client 1 has come. Neither of the first two can pass alone. A hold that lasts too long makes the
/// gate give up, and then it holds nothing more.
#[derive(Drop)]
pub struct MeetGate {
    /// How many turns of its loop a hold lasts at most.
    turns: u32,
    /// How many calls for client 0 have come.
    calls_of_zero: AtomicU64,
    /// How many calls for client 1 have come.
    calls_of_one: AtomicU64,
    /// 1 where a hold lasted too long, else 0.
    given_up: AtomicU64,
}

impl MeetGate {
    /// A gate whose holds last for at most this many turns of a loop.
    pub fn of(turns: u32) -> MeetGate {
        MeetGate {
            turns,
            calls_of_zero: AtomicU64::new(0),
            calls_of_one: AtomicU64::new(0),
            given_up: AtomicU64::new(0),
        }
    }

    /// Whether a hold lasted too long. It is also true while one of the three held calls hasn't come.
    pub fn gave_up(&self) -> bool {
        self.has_given_up() || !self.has_come(0, 2) || !self.has_come(1, 1)
    }

    fn has_given_up(&self) -> bool {
        self.given_up.load(Ordering::SeqCst) == 1
    }

    /// How many calls have come for client 0, or else for client 1.
    fn calls_of(&self, client: u8) -> &AtomicU64 {
        if client == 0 {
            &self.calls_of_zero
        } else {
            &self.calls_of_one
        }
    }

    /// Whether the call of this client with this number has come.
    fn has_come(&self, client: u8, call: u64) -> bool {
        self.calls_of(client).load(Ordering::SeqCst) >= call
    }

    /// Waits in a loop until the call has come or the gate has given up; after too many turns it gives up.
    fn wait_for(&self, hold: Hold) {
        for _ in 0..self.turns {
            if self.has_come(hold.client, hold.call) || self.has_given_up() {
                return;
            }
            hint::spin_loop();
        }
        if !self.has_come(hold.client, hold.call) {
            self.given_up.store(1, Ordering::SeqCst);
        }
    }
}

impl Gate for MeetGate {
    fn before(&self, _worker: u8, actor: Actor) {
        let Actor::Client(client) = actor else {
            return;
        };
        if client > 1 {
            return;
        }
        let earlier = self.calls_of(client).fetch_add(1, Ordering::SeqCst);
        if let Some(hold) = hold_of(client, earlier.wrapping_add(1)) {
            self.wait_for(hold);
        }
    }
}
