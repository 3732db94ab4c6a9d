//! Where the operations of a script are executed.

ghost use Rattle.std.specs.Prelude.{◌≡◌, ◌<◌, ◌≤◌, List, [], ◌∷◌, ◌++◌, length, IfOk, None, Some, if◌then◌else◌};
ghost use Rattle.std.specs.List.{list_any};
ghost use Rattle.std.specs.Option.{option_map};
ghost use Rattle.std.specs.Result.{result_err};
ghost use Rattle.txn_model.specs.Needs.{needs_list};
ghost use Rattle.txn_model.specs.ScriptCheck.{script_fault};
ghost use Rattle.stage_layout.specs.Late.{Part, next_part, turns_badly, first_bad_turn};
ghost use Rattle.warm_split.specs.OpSet.{contains};
ghost use Rattle.warm_split.specs.Parts.{AreSets, IsParts};

use crate::op_set::OpSet;
use stage_layout::Layout;
use txn_model::{MOST_OPS, Needs, Op, Script};

/// The operations of a script, by where they are executed.
#[derive(Clone, Copy, Debug, PartialEq, Eq)]
pub struct Parts {
    /// The cold operations that aren't late: on hosts, before the switch.
    pub before: OpSet,
    /// The hot operations: in the switch.
    pub hot: OpSet,
    /// The late operations: on hosts, after the switch.
    pub after: OpSet,
}

/// This operation is the first hot one that needs a late one. Such a script would have to visit the
/// switch twice.
#[derive(Clone, Copy, Debug, PartialEq, Eq)]
pub struct BadTurn(pub u8);

/// The parts of a script; `BadTurn` exactly where one visit of the switch isn't enough.
pub fn split(script: &Script, layout: &Layout) -> Result<Parts, BadTurn>
    requires fit { script_fault script.now.items ≡ None }
    ensures parts { IfOk result (IsParts layout.now script.now.items) }
    ensures turn { option_map (λ turn. turn.0) (result_err result) ≡ first_bad_turn layout.now script.now.items }
{
    split_ops(script.as_slice(), layout)
}

fn split_ops(ops: &[Op], layout: &Layout) -> Result<Parts, BadTurn>
    requires { length ops.now ≤ MOST_OPS }
    ensures parts { IfOk result (IsParts layout.now ops.now) }
    ensures turn { option_map (λ turn. turn.0) (result_err result) ≡ first_bad_turn layout.now ops.now }
{
    let mut parts = Parts {
        before: OpSet::EMPTY,
        hot: OpSet::EMPTY,
        after: OpSet::EMPTY,
    };
    for (i, op) in ops.iter().enumerate() {
        parts = placed(parts, i as u8, op, layout)?;
    }
    Ok(parts)
}

/// The parts with one more operation, which has this number.
fn placed(parts: Parts, number: u8, op: &Op, layout: &Layout) -> Result<Parts, BadTurn>
    requires { number < 32 }
    ensures parts { (done : List Part) → length done ≡ number → AreSets done parts → IfOk result (AreSets (done ++ next_part layout.now done op.now ∷ [])) }
    ensures turn { (done : List Part) → AreSets done parts → option_map (λ turn. turn.0) (result_err result) ≡ (if turns_badly layout.now done op.now then Some number else None) }
{
    if layout.place_of(op.tuple).is_some() {
        if needs_any(&op.needs, parts.after) {
            return Err(BadTurn(number));
        }
        let hot = parts.hot.with(number);
        return Ok(Parts { hot, ..parts });
    }
    if needs_any(&op.needs, parts.hot.or(parts.after)) {
        let after = parts.after.with(number);
        return Ok(Parts { after, ..parts });
    }
    let before = parts.before.with(number);
    Ok(Parts { before, ..parts })
}

/// Whether one of the needs is of an operation in the set.
fn needs_any(needs: &Needs, set: OpSet) -> bool
    ensures { result ≡ list_any (λ need. contains set need.from) (needs_list needs.now) }
{
    for i in 0..needs.len() {
        if set.has(needs.get(i).from) {
            return true;
        }
    }
    false
}
