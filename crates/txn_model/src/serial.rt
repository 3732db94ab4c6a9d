//! What operations and scripts do when they are run serially.

ghost use Rattle.std.specs.Prelude.{◌≡◌, ◌<◌, length, pos, All, None, IsSome};
ghost use Rattle.std.specs.FinMap.{get};
ghost use Rattle.txn_model.specs.Needs.{needs_list};
ghost use Rattle.txn_model.specs.Serial.{operand, effect, serial, part_of};
ghost use Rattle.txn_model.specs.ScriptCheck.{script_fault};

use crate::number::{minus, plus};
use crate::op::{Act, Needs, Which};
use crate::pairs::{Pair, Pairs};
use crate::script::Script;
use crate::tuple_map::TupleMap;

/// What an operation found, or by how much it lowered it.
fn part_of(which: Which, pair: Pair) -> i64
    ensures { result ≡ part_of which pair }
{
    match which {
        Which::Old => pair.was,
        Which::Moved => minus(pair.was, pair.now),
    }
}

/// The wrapped sum of the bias and of what the needs stand for in these pairs.
pub fn operand(needs: &Needs, bias: i64, done: &Pairs) -> i64
    requires { All (λ need. need.from < length done.now.items) (needs_list needs.now) }
    ensures { result ≡ operand (needs_list needs.now) bias done.now.items }
{
    let mut sum = bias;
    for i in 0..needs.len() {
        let need = needs.get(i);
        sum = plus(sum, part_of(need.which, done.get(need.from)));
    }
    sum
}

/// The new value of a tuple, from the old one and the operand.
#[tactic(auto, unfolding(crate::specs::Serial::effect))]
pub fn effect(act: &Act, was: i64, operand: i64) -> i64
    ensures { result ≡ effect act.now was operand }
{
    match *act {
        Act::Read => was,
        Act::Put { base } => plus(base, operand),
        Act::Add { base } => plus(plus(was, base), operand),
        Act::Choose {
            limit,
            above,
            below,
        } => {
            if plus(was, operand) >= limit {
                plus(was, above)
            } else {
                plus(was, below)
            }
        }
    }
}

/// Runs a script serially: `map` becomes the map that it leaves, and `out` its reply.
pub fn run_serial(script: &Script, map: &mut TupleMap, out: &mut Pairs)
    requires fit { script_fault script.now.items ≡ None }
    requires there { All (λ op. IsSome (get map.old op.tuple)) script.now.items }
    requires room { length out.old.items ≡ length script.now.items }
    ensures reply { out.new.items ≡ (serial script.now.items map.old).reply }
    ensures map { map.new ≡ (serial script.now.items map.old).after }
    ensures spare { out.new.spare ≡ out.old.spare }
{
    for i in 0..out.len() {
        let op = script.op(i);
        let was = map.get(op.tuple).unwrap_or(0);
        let now = effect(&op.act, was, operand(&op.needs, 0, out));
        map.set(op.tuple, now);
        out.set(i, Pair { was, now });
    }
}
