//! What clients do: a list of items for each of them.

ghost use Rattle.std.specs.Prelude.{◌≡◌, ◌<◌, ◌≤◌, ◌^◌, length, All, IfOk, IsTrue, ◌↔◌};
ghost use Rattle.catalogue.specs.Items.{plain_items};

use std::alloc::Global;
use std::marker::Model;
use txn_model::{NoMemory, Script};

/// The most clients of a session.
pub const MOST_CLIENTS: u8 = 8;

/// What a client does next.
#[derive(Debug, Drop)]
pub enum Item {
    /// It runs a transaction.
    Run(Script),
    /// It makes the switch lose all that it holds.
    Lose,
}

impl Item {
    ghost use Rattle.catalogue.specs.Items.{plain_item};

    /// An equal item.
    pub fn copy(&self, alloc: Global) -> Result<Item, NoMemory>
        ensures { IfOk result (λ copy. plain_item copy ≡ plain_item self.now) }
    {
        match self {
            Item::Run(script) => Ok(Item::Run(script.copy(alloc)?)),
            Item::Lose => Ok(Item::Lose),
        }
    }
}

/// The items of at most 8 clients. Clients are counted from 0, the items of a client from 1.
#[derive(Debug, Drop)]
pub struct Clients {
    lists: Vec<Vec<Item>>,
}

impl Model for Clients {
    ghost use Rattle.std.specs.Prelude.{List};
    ghost use Rattle.catalogue.specs.Plan.{PlainItem};

    ghost Value = { List (List PlainItem) };

    ghost use Rattle.catalogue.specs.Items.{plain_lists, AreFew};

    ghost view = { λ a. plain_lists a.lists.items };

    ghost invariant = { λ a. AreFew a.lists.items };
}

impl Clients {
    ghost use Rattle.std.specs.Prelude.{[], slice_index_or};
    ghost use Rattle.catalogue.specs.Items.{plain_lists};

    /// The clients with these lists of items.
    pub fn of(lists: Vec<Vec<Item>>) -> Clients
        requires few { length lists.items ≤ 8 }
        requires short { All (λ list. length list.items < 2 ^ 32) lists.items }
        ensures { result ≡ plain_lists lists.items }
    {
        Clients { lists }
    }

    /// How many clients there are: 0 to 8.
    pub fn len(&self) -> u8
        ensures value { result ≡ length self.now }
        ensures bound { length self.now ≤ 8 }
    {
        self.lists.len() as u8
    }

    /// Whether there are none.
    pub fn is_empty(&self) -> bool
        ensures { IsTrue result ↔ (self.now ≡ []) }
    {
        self.lists.is_empty()
    }

    /// The items of a client in order.
    pub fn items(&self, client: u8) -> &[Item]
        requires { client < length self.now }
        ensures items { plain_items result.now ≡ slice_index_or self.now client [] }
        ensures bound { length result.now < 2 ^ 32 }
    {
        self.lists[client as usize].as_slice()
    }

    /// Equal clients.
    pub fn copy(&self, alloc: Global) -> Result<Clients, NoMemory>
        ensures { IfOk result (λ copy. copy ≡ self.now) }
    {
        let mut lists = Vec::with_capacity(alloc, self.lists.len())?;
        for list in &self.lists {
            lists.push(copy_list(alloc, list.as_slice())?)?;
        }
        Ok(Clients { lists })
    }
}

fn copy_list(alloc: Global, items: &[Item]) -> Result<Vec<Item>, NoMemory>
    ensures len { IfOk result (λ copy. length copy.items ≡ length items.now) }
    ensures items { IfOk result (λ copy. plain_items copy.items ≡ plain_items items.now) }
{
    let mut copy = Vec::with_capacity(alloc, items.len())?;
    for item in items {
        copy.push(item.copy(alloc)?)?;
    }
    Ok(copy)
}
