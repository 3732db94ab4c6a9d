//! Scripts, and what makes one unfit to run.

ghost use Rattle.std.specs.Prelude.{◌≡◌, ◌<◌, ◌≤◌, length, slice_get, Some};
ghost use Rattle.std.specs.Result.{result_err};
ghost use Rattle.txn_model.specs.ScriptCheck.{names, uses_badly, first_repeat, first_bad_use, script_fault};

use crate::items::Items;
use crate::op::{Act, Op, TupleId};

/// A transaction: its operations in order.
pub type Script = Items<Op>;

/// The most operations that a script may have.
pub const MOST_OPS: usize = 16;

/// Why a script can't be run. Operations are counted from 0.
#[derive(Clone, Copy, Debug, PartialEq, Eq)]
pub enum ScriptFault {
    /// It has no operation.
    Empty,
    /// It has more than 16 operations: this many.
    TooLong(usize),
    /// This operation is the first that names the tuple of an earlier one.
    TupleTwice(u8),
    /// This operation is the first with a need of one that isn't earlier, or that is a read with a need.
    BadUse(u8),
}

impl Items<Op> {
    /// The operation at a place, counted from 0.
    pub fn op(&self, i: u8) -> Op
        requires { i < length self.now.items }
        ensures { slice_get self.now.items i ≡ Some result }
    {
        *self.get(i as usize)
    }

    /// What is wrong with the script: the first fault in the order of `ScriptFault`.
    #[tactic(auto, unfolding(crate::specs::ScriptCheck::script_fault))]
    pub fn check(&self) -> Result<(), ScriptFault>
        ensures { result_err result ≡ script_fault self.now.items }
    {
        let ops = self.as_slice();
        if ops.is_empty() {
            return Err(ScriptFault::Empty);
        }
        if ops.len() > MOST_OPS {
            return Err(ScriptFault::TooLong(ops.len()));
        }
        if let Some(op) = first_repeat(ops) {
            return Err(ScriptFault::TupleTwice(op));
        }
        match first_bad_use(ops) {
            Some(op) => Err(ScriptFault::BadUse(op)),
            None => Ok(()),
        }
    }
}

fn names(ops: &[Op], tuple: TupleId) -> bool
    ensures { result ≡ names ops.now tuple }
{
    ops.iter().any(|op| op.tuple.0 == tuple.0)
}

#[tactic(auto, using(crate::proofs::FirstPlaces::first_counted))]
fn first_repeat(ops: &[Op]) -> Option<u8>
    requires { length ops.now ≤ 16 }
    ensures { result ≡ first_repeat ops.now }
{
    for (i, op) in ops.iter().enumerate() {
        if names(&ops[..i], op.tuple) {
            return Some(i as u8);
        }
    }
    None
}

fn uses_badly(number: u8, op: &Op) -> bool
    ensures { result ≡ uses_badly number op.now }
{
    let is_read = matches!(op.act, Act::Read);
    for i in 0..op.needs.len() {
        if is_read || op.needs.get(i).from >= number {
            return true;
        }
    }
    false
}

#[tactic(auto, using(crate::proofs::FirstPlaces::first_counted))]
fn first_bad_use(ops: &[Op]) -> Option<u8>
    requires { length ops.now ≤ 16 }
    ensures { result ≡ first_bad_use ops.now }
{
    for (i, op) in ops.iter().enumerate() {
        if uses_badly(i as u8, op) {
            return Some(i as u8);
        }
    }
    None
}
