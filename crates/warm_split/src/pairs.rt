//! The pairs of a warm transaction: those that are made on hosts, before the switch and after it.

ghost use Rattle.std.specs.Prelude.{◌≡◌, ℕ, ◌<◌, ◌≤◌, true, false, List, length, slice_get, slice_set, Some, None};
ghost use Rattle.txn_model.specs.ScriptCheck.{script_fault};
ghost use Rattle.txn_model.specs.Serial.{pair_at, pair_of};
ghost use Rattle.txn_model.specs.declared.op.Op.{Op};
ghost use Rattle.stage_layout.specs.declared.layout.LayoutRow.{LayoutRow};
ghost use Rattle.warm_split.specs.Filled.{executed, AreExecuted};
ghost use Rattle.warm_split.specs.Joined.{joined};
ghost use Rattle.warm_split.specs.OpSet.{contains, members};
ghost use Rattle.warm_split.specs.Parts.{IsParts};
ghost use Rattle.warm_split.specs.Sides.{IsOneVisit, found_values};

use crate::op_set::OpSet;
use crate::parts::Parts;
use txn_model::{Pair, Pairs, Script, effect, operand};

/// Executes an operation on a host: it leaves the effect of what it found and of the pairs before it.
fn execute(script: &Script, op: u8, pairs: &mut Pairs)
    requires fit { script_fault script.now.items ≡ None }
    requires size { length pairs.old.items ≡ length script.now.items }
    requires there { op < length script.now.items }
    ensures items { (o : Op) → slice_get script.now.items op ≡ Some o → pairs.new.items ≡ slice_set pairs.old.items op (pair_of o pairs.old.items (pair_at pairs.old.items op).was) }
    ensures spare { pairs.new.spare ≡ pairs.old.spare }
{
    let was = pairs.get(op).was;
    let this = script.op(op);
    let now = effect(&this.act, was, operand(&this.needs, 0, pairs));
    pairs.set(op, Pair { was, now });
}

/// Executes the operations of the set, in script order.
fn execute_all(script: &Script, set: OpSet, pairs: &mut Pairs)
    requires fit { script_fault script.now.items ≡ None }
    requires size { length pairs.old.items ≡ length script.now.items }
    ensures items { pairs.new.items ≡ executed set script.now.items pairs.old.items }
    ensures executed { AreExecuted set script.now.items pairs.new.items }
    ensures spare { pairs.new.spare ≡ pairs.old.spare }
{
    for op in 0..pairs.len() {
        if set.has(op) {
            execute(script, op, pairs);
        }
    }
}

/// Puts the hot pairs to the operations of the set, in script order.
fn place(set: OpSet, hot: &Pairs, pairs: &mut Pairs)
    requires enough { members set (length pairs.old.items) ≤ length hot.now.items }
    ensures size { length pairs.new.items ≡ length pairs.old.items }
    ensures placed { (k : ℕ) → k < length pairs.old.items → contains set k ≡ true → pair_at pairs.new.items k ≡ pair_at hot.now.items (members set k) }
    ensures others { (k : ℕ) → contains set k ≡ false → pair_at pairs.new.items k ≡ pair_at pairs.old.items k }
    ensures spare { pairs.new.spare ≡ pairs.old.spare }
{
    let mut next = 0;
    for op in 0..pairs.len() {
        if set.has(op) {
            pairs.set(op, hot.get(next));
            next += 1;
        }
    }
}

/// Executes the operations before the switch, where the pairs have what the script's operations on hosts
/// found. It takes no memory.
pub fn fill_before(script: &Script, parts: &Parts, pairs: &mut Pairs)
    requires fit { script_fault script.now.items ≡ None }
    requires size { length pairs.old.items ≡ length script.now.items }
    ensures items { pairs.new.items ≡ executed parts.now.before script.now.items pairs.old.items }
    ensures filled { AreExecuted parts.now.before script.now.items pairs.new.items }
    ensures spare { pairs.new.spare ≡ pairs.old.spare }
{
    execute_all(script, parts.before, pairs);
}

/// Puts the pairs of the hot operations into the script's, and then executes the late ones: the pairs
/// become the reply. The operations before the switch have been executed. It takes no memory.
///
/// For every layout in which the script touches each tuple once and has these parts, the reply is the join of
/// what its operations on hosts found and of the hot pairs.
pub fn join_pairs(script: &Script, parts: &Parts, hot: &Pairs, pairs: &mut Pairs)
    requires fit { script_fault script.now.items ≡ None }
    requires hot { length hot.now.items ≡ members parts.now.hot (length script.now.items) }
    requires filled { AreExecuted parts.now.before script.now.items pairs.old.items }
    ensures items { (rows : List LayoutRow) → IsOneVisit rows script.now.items → IsParts rows script.now.items parts.now
        → pairs.new.items ≡ joined rows script.now.items (found_values rows script.now.items pairs.old.items) hot.now.items }
    ensures spare { pairs.new.spare ≡ pairs.old.spare }
{
    place(parts.hot, hot, pairs);
    execute_all(script, parts.after, pairs);
}
