//! The tuples that a session's transactions use.

ghost use Rattle.std.specs.Prelude.{◌≡◌, ◌++◌, ◌<◌, ◌^◌, length, map, IfOk, OnOk};
ghost use Rattle.std.specs.List.{count_by, flat_map};
ghost use Rattle.std.specs.List.Sorted.{IsNonDecreasingBy};
ghost use Rattle.txn_model.specs.declared.op.TupleId.{TupleId};
ghost use Rattle.stage_layout.specs.Layout.{same_tuple};
ghost use Rattle.catalogue.specs.Items.{plain_item, plain_items};
ghost use Rattle.catalogue.specs.PlanOf.{plan_of};
ghost use Rattle.hot_set.specs.Uses.{tuples_in, used_tuples};

use catalogue::{Item, Session};
use std::alloc::Global;
use txn_model::{NoMemory, Op, TupleId};

/// The tuple of each operation of each transaction, in order.
pub(crate) fn used_tuples(alloc: Global, session: &Session) -> Result<Vec<TupleId>, NoMemory>
    ensures { IfOk result (λ used. used.items ≡ used_tuples (plan_of session.now)) }
{
    let mut used = Vec::new(alloc);
    for client in 0..session.clients() {
        push_items(session.clients.items(client), &mut used)?;
    }
    Ok(used)
}

fn push_items(items: &[Item], used: &mut Vec<TupleId>) -> Result<(), NoMemory>
    ensures { OnOk result (used.new.items ≡ used.old.items ++ flat_map tuples_in (plain_items items.now)) }
{
    for item in items {
        push_item(item, used)?;
    }
    Ok(())
}

fn push_item(item: &Item, used: &mut Vec<TupleId>) -> Result<(), NoMemory>
    ensures { OnOk result (used.new.items ≡ used.old.items ++ tuples_in (plain_item item.now)) }
{
    match item {
        Item::Run(script) => push_ops(script.as_slice(), used),
        Item::Lose => Ok(()),
    }
}

fn push_ops(ops: &[Op], used: &mut Vec<TupleId>) -> Result<(), NoMemory>
    ensures { OnOk result (used.new.items ≡ used.old.items ++ map (λ op. op.tuple) ops.now) }
{
    for op in ops {
        used.push(op.tuple)?;
    }
    Ok(())
}

/// How often the tuple is among these, which are in order.
pub(crate) fn uses_in(used: &[TupleId], tuple: TupleId) -> u32
    requires sorted { IsNonDecreasingBy (λ (t : TupleId). t.0) used.now }
    requires few { length used.now < 2 ^ 32 }
    ensures { result ≡ count_by (λ t. same_tuple t tuple) used.now }
{
    let from = used.partition_point(|t| t.0 < tuple.0);
    let to = used.partition_point(|t| t.0 <= tuple.0);
    (to - from) as u32
}
