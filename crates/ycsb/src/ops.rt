//! Scripts of drawn operations.

ghost use Rattle.std.specs.Prelude.{◌≡◌, ◌-◌, IfOk};
ghost use Rattle.std.specs.List.{find, range_with_len};
ghost use Rattle.txn_model.specs.ScriptCheck.{names};
ghost use Rattle.catalogue.specs.LoadPlans.{IsYcsbPlan};
ghost use Rattle.schedule.specs.Dice.{words_of};
ghost use Rattle.load_base.specs.Load.{IsFitFor, tuple};
ghost use Rattle.ycsb.specs.Ycsb.{ycsb_size, ycsb_script, reads_of, is_free, free_key, drawn_act, drawn_op};

use catalogue::{Mix, YcsbPlan};
use schedule::Dice;
use std::alloc::Global;
use txn_model::{Act, Needs, NoMemory, Op, Script, TupleId};

/// A script of drawn operations, no two of them on one record.
pub(crate) fn drawn_ops(alloc: Global, plan: &YcsbPlan, dice: &mut Dice) -> Result<Script, NoMemory>
    requires { IsYcsbPlan plan.now }
    ensures drawn { IfOk result (λ drawn. (drawn.items, words_of dice.new) ≡ ycsb_script plan.now (words_of dice.old)) }
    ensures fit { IfOk result (λ drawn. IsFitFor (ycsb_size plan.now) drawn.items) }
{
    let mut ops = Vec::with_capacity(alloc, plan.ops as usize)?;
    for _ in 0..plan.ops {
        let op = drawn_op(plan, ops.as_slice(), dice);
        ops.push(op)?;
    }
    Ok(Script::of(ops))
}

/// The operation behind these ones.
fn drawn_op(plan: &YcsbPlan, ops: &[Op], dice: &mut Dice) -> Op
    requires { IsYcsbPlan plan.now }
    ensures { (result, words_of dice.new) ≡ drawn_op plan.now ops.now (words_of dice.old) }
{
    let key = dice.key(plan.records, plan.hot, plan.share);
    let tuple = TupleId(free_key(plan.records, ops, key));
    Op {
        tuple,
        act: drawn_act(plan.mix, dice),
        needs: Needs::none(),
    }
}

/// A read, or a put of a drawn value.
fn drawn_act(mix: Mix, dice: &mut Dice) -> Act
    ensures { (result, words_of dice.new) ≡ drawn_act mix (words_of dice.old) }
{
    if dice.draw(100) < reads_of(mix) {
        Act::Read
    } else {
        Act::Put {
            base: i64::from(dice.draw(1000)),
        }
    }
}

/// How many of 100 operations read.
fn reads_of(mix: Mix) -> u32
    ensures { result ≡ reads_of mix }
{
    match mix {
        Mix::A => 50,
        Mix::B => 95,
        Mix::C => 100,
    }
}

/// The first key that no operation has, from this one upwards and after the last one from 0.
#[tactic(auto, unfolding(crate::specs::Ycsb::free_key), using(crate::proofs::FreeKeys::found_here, crate::proofs::FreeKeys::found_behind))]
fn free_key(records: u32, ops: &[Op], key: u32) -> u32
    ensures { result ≡ free_key records ops.now key }
{
    match first_free(ops, key, records) {
        Some(free) => free,
        None => first_free(ops, 0, key).unwrap_or(key),
    }
}

/// The first key of the range that no operation has.
fn first_free(ops: &[Op], from: u32, to: u32) -> Option<u32>
    ensures { result ≡ find (is_free ops.now) (range_with_len from (to - from)) }
{
    (from..to).find(|key| !names(ops, *key))
}

/// Whether an operation has that key.
fn names(ops: &[Op], key: u32) -> bool
    ensures { result ≡ names ops.now (tuple key) }
{
    ops.iter().any(|op| op.tuple.0 == key)
}
