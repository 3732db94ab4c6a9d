//! Which items use a tuple.

ghost use Rattle.std.specs.Prelude.{◌≡◌, ◌++◌, ◌+◌, ◌<◌, ◌≤◌, ◌^◌, length, map, filter, IfOk, OnOk};
ghost use Rattle.std.specs.List.Sorted.{IsNonDecreasingBy};
ghost use Rattle.stage_layout.specs.Layout.{same_tuple};
ghost use Rattle.catalogue.specs.Items.{plain_item, plain_items};
ghost use Rattle.catalogue.specs.PlanOf.{plan_of};
ghost use Rattle.catalogue.specs.Sound.{IsSound};
ghost use Rattle.declust.specs.Greedy.{all_items};
ghost use Rattle.declust.specs.Uses.{tuple_number, uses_in, uses_from, AreUsesOf};

use catalogue::{Item, Session};
use std::alloc::Global;
use txn_model::{NoMemory, Op, TupleId};

/// An operation of a transaction.
#[derive(Clone, Copy)]
pub(crate) struct Use {
    pub(crate) tuple: TupleId,
    /// The number of the item, counted from 0 over all clients.
    pub(crate) item: u32,
}

/// All operations of a session's transactions, in the order of their tuples.
#[derive(Drop)]
pub(crate) struct Uses {
    list: Vec<Use>,
    /// How many items there are.
    pub(crate) items: u32,
}

impl Uses {
    /// The operations of the session's items.
    pub(crate) fn in_session(alloc: Global, session: &Session) -> Result<Uses, NoMemory>
        requires { IsSound (plan_of session.now) }
        ensures { IfOk result (AreUsesOf (plan_of session.now)) }
    {
        let mut list = Vec::new(alloc);
        let mut items = 0;
        for client in 0..session.clients() {
            let of_client = session.clients.items(client);
            push_items(of_client, items, &mut list)?;
            items += of_client.len() as u32;
        }
        list.sort_unstable_by_key(|used| used.tuple.0);
        Ok(Uses { list, items })
    }

    /// The uses of a tuple.
    pub(crate) fn of(&self, tuple: TupleId) -> &[Use]
        requires { IsNonDecreasingBy tuple_number self.now.list.items }
        ensures { result.now ≡ filter (λ used. same_tuple used.tuple tuple) self.now.list.items }
    {
        uses_of(self.list.as_slice(), tuple)
    }
}

/// The uses of a tuple among these, which are in the order of their tuples.
fn uses_of(uses: &[Use], tuple: TupleId) -> &[Use]
    requires { IsNonDecreasingBy tuple_number uses.now }
    ensures { result.now ≡ filter (λ used. same_tuple used.tuple tuple) uses.now }
{
    let from = uses.partition_point(|used| used.tuple.0 < tuple.0);
    let to = uses.partition_point(|used| used.tuple.0 <= tuple.0);
    &uses[from..to]
}

/// Adds the uses by a client's items; the first of these has this number.
fn push_items(items: &[Item], first: u32, list: &mut Vec<Use>) -> Result<(), NoMemory>
    requires { first + length items.now < 2 ^ 32 }
    ensures { OnOk result (list.new.items ≡ list.old.items ++ uses_from first (plain_items items.now)) }
{
    let mut number = first;
    for item in items {
        push_item(item, number, list)?;
        number += 1;
    }
    Ok(())
}

fn push_item(item: &Item, number: u32, list: &mut Vec<Use>) -> Result<(), NoMemory>
    ensures { OnOk result (list.new.items ≡ list.old.items ++ uses_in number (plain_item item.now)) }
{
    match item {
        Item::Run(script) => push_ops(script.as_slice(), number, list),
        Item::Lose => Ok(()),
    }
}

fn push_ops(ops: &[Op], number: u32, list: &mut Vec<Use>) -> Result<(), NoMemory>
    ensures { OnOk result (list.new.items ≡ list.old.items ++ map (λ op. record { tuple = op.tuple; item = number }) ops.now) }
{
    for op in ops {
        list.push(Use {
            tuple: op.tuple,
            item: number,
        })?;
    }
    Ok(())
}
