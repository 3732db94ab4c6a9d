//! What is kept of a client, and what its moves make of it.

ghost use Rattle.std.specs.Prelude.{◌≡◌, ◌+◌, ◌-◌, ◌<◌, ◌≤◌, length, replicate, IfOk, None};
ghost use Rattle.txn_model.specs.ScriptCheck.{script_fault};
ghost use Rattle.history_model.specs.History.{greater};
ghost use Rattle.core_model.specs.Decision.{next_sub};
ghost use Rattle.core_model.specs.State.{zero_stamp};
ghost use Rattle.core_model.specs.declared.phase.Phase.TheVariants as phase;
ghost use Rattle.client_phase.specs.ColdNumbers.{cold_count};
ghost use Rattle.client_phase.specs.Shown.{plain_client, room_of, zero_pair};
ghost use Rattle.client_phase.specs.Stepped.{begins, aborted, pairs_to_fill, granted, answered, installed};

use crate::cold_numbers::cold_count;
use core_model::Phase;
use history_model::greater;
use std::alloc::Global;
use txn_model::{MOST_OPS, NoMemory, Pair, Pairs, Script, Seen, Stamp};
use warm_split::{Parts, fill_before};

const ZERO_STAMP: Stamp = Stamp { number: 0, sub: 0 };

/// A client between two moves.
#[derive(Debug, Drop)]
pub struct ClientState {
    pub phase: Phase,
    /// The number of its present item, counted from 1.
    pub seq: u32,
    /// How many tries of the present item were refused.
    pub refused: u8,
    /// How many locks of this try were granted and not released in aborting.
    pub locked: u8,
    /// How many values of the present transaction are installed.
    pub installed: u8,
    /// The stamp of its last transaction that is decided or answered; 0.0 before the first.
    pub last: Stamp,
    /// The greatest stamp that this try read, until its transaction has a stamp; else 0.0.
    pub met: Stamp,
    /// From its first lock or its intent on, a pair for each operation: an operation on a host has what was read
    /// with its lock, and every other number is 0 until the last lock is granted, when the operations before the
    /// switch are executed. While it installs, the reply. Empty in other phases, with room for 16.
    pub pairs: Pairs,
}

impl ClientState {
    /// A client at the first of this many items, or finished where there is none.
    pub fn fresh(alloc: Global, items: u32) -> Result<ClientState, NoMemory>
        ensures client { IfOk result (λ state. plain_client state ≡ begins items 1 zero_stamp) }
        ensures room { IfOk result (λ state. 16 ≤ room_of state) }
    {
        Ok(ClientState {
            phase: phase_at(items, 1),
            seq: 1,
            refused: 0,
            locked: 0,
            installed: 0,
            last: ZERO_STAMP,
            met: ZERO_STAMP,
            pairs: Pairs::of(Vec::with_capacity(alloc, MOST_OPS)?),
        })
    }

    /// The lock of this operation is granted, and this was read with it.
    pub(crate) fn grant(&mut self, script: &Script, parts: &Parts, op: u8, seen: Seen)
        requires fit { script_fault script.now.items ≡ None }
        requires there { op < length script.now.items }
        requires next { self.old.locked < cold_count parts.now script.now.items }
        requires pairs { 1 ≤ self.old.locked → length self.old.pairs.items ≡ length script.now.items }
        requires room { 16 ≤ room_of self.old }
        ensures client { plain_client self.new ≡ granted parts.now script.now.items op seen (plain_client self.old) }
        ensures room { room_of self.new ≡ room_of self.old }
    {
        self.prepare(script.len() as u8);
        let was = seen.value;
        self.pairs.set(op, Pair { was, now: 0 });
        self.phase = Phase::Locking;
        self.locked += 1;
        self.met = greater(self.met, seen.stamp);
        if self.locked == cold_count(script, parts) {
            fill_before(script, parts, &mut self.pairs);
        }
    }

    /// Goes on in aborting, with the locks that are left: the try ends, or they are to be released first. The
    /// client has this many items, and this many tries for each.
    pub(crate) fn abort(&mut self, items: u32, tries: u8)
        requires tries { self.old.refused < tries }
        requires seq { self.old.seq < 4294967295 }
        ensures client { plain_client self.new ≡ aborted items tries self.old.locked (plain_client self.old) }
        ensures room { room_of self.new ≡ room_of self.old }
    {
        self.met = ZERO_STAMP;
        self.pairs.clear();
        if self.locked > 0 {
            self.phase = Phase::Aborting;
        } else if self.refused + 1 == tries {
            self.begin_item(items);
        } else {
            self.phase = Phase::Ready;
            self.refused += 1;
            self.installed = 0;
        }
    }

    /// The lock that it took last is released in aborting.
    pub(crate) fn release(&mut self, items: u32, tries: u8)
        requires locked { 1 ≤ self.old.locked }
        requires tries { self.old.refused < tries }
        requires seq { self.old.seq < 4294967295 }
        ensures client { plain_client self.new ≡ aborted items tries (self.old.locked - 1) (plain_client self.old) }
        ensures room { room_of self.new ≡ room_of self.old }
    {
        self.locked -= 1;
        self.abort(items, tries);
    }

    /// The transaction is decided, above its client's last one and above all that it read. Its pairs are the
    /// reply.
    pub(crate) fn decide(&mut self)
        requires last { self.old.last.sub < 4294967295 }
        requires met { self.old.met.sub < 4294967295 }
        ensures client { plain_client self.new ≡ record (plain_client self.old) { phase = phase.Installing; last = next_sub (greater self.old.last self.old.met); met = zero_stamp } }
        ensures room { room_of self.new ≡ room_of self.old }
    {
        let above = greater(self.last, self.met);
        self.phase = Phase::Installing;
        self.last = Stamp {
            number: above.number,
            sub: above.sub + 1,
        };
        self.met = ZERO_STAMP;
    }

    /// The log has what the script of this many operations is about to do in the switch.
    pub(crate) fn log_intent(&mut self, len: u8)
        requires few { len ≤ 16 }
        requires room { 16 ≤ room_of self.old }
        ensures client { plain_client self.new ≡ record (plain_client self.old) { phase = phase.Logged; pairs = pairs_to_fill len (plain_client self.old) } }
        ensures room { room_of self.new ≡ room_of self.old }
    {
        self.prepare(len);
        self.phase = Phase::Logged;
    }

    /// Its packet, which has this number, is answered, and its pairs are the reply. The client has this many items.
    pub(crate) fn answer(&mut self, script: &Script, parts: &Parts, items: u32, number: u64)
        requires fit { script_fault script.now.items ≡ None }
        requires seq { self.old.seq < 4294967295 }
        ensures client { plain_client self.new ≡ answered parts.now script.now.items items number (plain_client self.old) }
        ensures room { room_of self.new ≡ room_of self.old }
    {
        self.last = Stamp { number, sub: 0 };
        if cold_count(script, parts) == 0 {
            self.begin_item(items);
        } else {
            self.phase = Phase::Installing;
            self.met = ZERO_STAMP;
        }
    }

    /// One more value of the reply is installed; behind the last one its client goes on to its next item.
    pub(crate) fn install(&mut self, script: &Script, parts: &Parts, items: u32)
        requires fit { script_fault script.now.items ≡ None }
        requires left { self.old.installed < cold_count parts.now script.now.items }
        requires seq { self.old.seq < 4294967295 }
        ensures client { plain_client self.new ≡ installed parts.now script.now.items items (plain_client self.old) }
        ensures room { room_of self.new ≡ room_of self.old }
    {
        self.installed += 1;
        if self.installed == cold_count(script, parts) {
            self.begin_item(items);
        }
    }

    /// Goes on to its next item, where there is one of this many.
    pub(crate) fn begin_item(&mut self, items: u32)
        requires seq { self.old.seq < 4294967295 }
        ensures client { plain_client self.new ≡ begins items (self.old.seq + 1) self.old.last }
        ensures room { room_of self.new ≡ room_of self.old }
    {
        self.seq += 1;
        self.phase = phase_at(items, self.seq);
        self.refused = 0;
        self.locked = 0;
        self.installed = 0;
        self.met = ZERO_STAMP;
        self.pairs.clear();
    }

    /// Makes its pairs this many zeros, unless it has a lock.
    fn prepare(&mut self, len: u8)
        requires few { len ≤ 16 }
        requires room { 16 ≤ room_of self.old }
        ensures client { plain_client self.new ≡ record (plain_client self.old) { pairs = pairs_to_fill len (plain_client self.old) } }
        ensures room { room_of self.new ≡ room_of self.old }
    {
        if self.locked == 0 {
            make_zeros(len, &mut self.pairs);
        }
    }
}

/// Makes it this many pairs of zeros, in the room that the pairs have.
fn make_zeros(len: u8, pairs: &mut Pairs)
    requires room { len ≤ length pairs.old.items + pairs.old.spare }
    ensures items { pairs.new.items ≡ replicate len zero_pair }
    ensures room { length pairs.new.items + pairs.new.spare ≡ length pairs.old.items + pairs.old.spare }
{
    pairs.clear();
    for _ in 0..len {
        pairs.push(Pair::ZERO);
    }
}

fn phase_at(items: u32, seq: u32) -> Phase
    ensures { result ≡ (begins items seq zero_stamp).phase }
{
    if seq <= items {
        Phase::Ready
    } else {
        Phase::Finished
    }
}
