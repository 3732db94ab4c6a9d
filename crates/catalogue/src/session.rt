//! Sessions.

ghost use Rattle.std.specs.Prelude.{◌≡◌, ◌≤◌, ◌<◌, ◌%◌, length, IfOk};
ghost use Rattle.std.specs.List.{list_all, list_any};
ghost use Rattle.std.specs.Option.{option_map};
ghost use Rattle.stage_layout.specs.Late.{is_hot};
ghost use Rattle.catalogue.specs.Items.{plain_item};
ghost use Rattle.catalogue.specs.Plan.{items_of, item_of, script_of, host_of, kind_of, hot_cells};
ghost use Rattle.catalogue.specs.PlanOf.{plan_of};

use crate::actor::Actors;
use crate::item::{Clients, Item};
use crate::kind::Kind;
use stage_layout::{Layout, Shape};
use std::alloc::Global;
use txn_model::{NoMemory, Op, PlaceMap, Script, TupleId, TupleMap};

/// The most tuples of a session.
pub const MOST_TUPLES: usize = 65_536;

/// The most rows of a layout.
pub const MOST_ROWS: usize = 65_536;

/// The most tries of a transaction.
pub const MOST_TRIES: u8 = 16;

/// The most items of all clients together.
pub const MOST_ITEMS: usize = 4096;

/// What is to be run: which switch, which tuples, and what each client does.
#[derive(Debug, Drop)]
pub struct Session {
    pub shape: Shape,
    /// The first value of each tuple.
    pub tuples: TupleMap,
    /// Which tuples are hot, and where.
    pub layout: Layout,
    /// How often a transaction that finds a lock taken is tried before it is given up: 1 to 16.
    pub tries: u8,
    pub clients: Clients,
    /// Who acts first, in order.
    pub schedule: Actors,
}

impl Session {
    /// How many clients there are: 0 to 8.
    pub fn clients(&self) -> u8
        ensures value { result ≡ length (plan_of self.now).clients }
        ensures bound { result ≤ 8 }
    {
        self.clients.len()
    }

    /// How many items the client has.
    pub fn items(&self, client: u8) -> u32
        requires { client < length (plan_of self.now).clients }
        ensures { result ≡ length (items_of (plan_of self.now) client) }
    {
        self.clients.items(client).len() as u32
    }

    /// The item of the client with this number, counted from 1; None exactly where there is none.
    pub fn item(&self, client: u8, seq: u32) -> Option<&Item>
        ensures { option_map (λ item. plain_item item.now) result ≡ item_of (plan_of self.now) client seq }
    {
        if client >= self.clients() || seq == 0 {
            return None;
        }
        self.clients.items(client).get(seq as usize - 1)
    }

    /// The transaction that is the client's item with this number, counted from 1; None exactly where there is
    /// no such item, or it isn't a transaction.
    pub fn script(&self, client: u8, seq: u32) -> Option<&Script>
        ensures { option_map (λ script. script.now.items) result ≡ script_of (plan_of self.now) client seq }
    {
        match self.item(client, seq) {
            Some(Item::Run(script)) => Some(script),
            Some(Item::Lose) | None => None,
        }
    }

    /// The host of the tuple.
    pub fn host_of(&self, tuple: TupleId) -> u8
        requires { 1 ≤ self.now.shape.hosts }
        ensures { result ≡ host_of (plan_of self.now) tuple }
    {
        (tuple.0 % u32::from(self.shape.hosts)) as u8
    }

    /// Whether the tuple is kept in the switch.
    pub fn is_hot(&self, tuple: TupleId) -> bool
        ensures { result ≡ is_hot self.now.layout tuple }
    {
        self.layout.place_of(tuple).is_some()
    }

    /// Where the tuples of the script are kept.
    pub fn kind_of(&self, script: &Script) -> Kind
        ensures { result ≡ kind_of self.now.layout script.now.items }
    {
        let ops = script.as_slice();
        if self.are_all_hot(ops) {
            Kind::Hot
        } else if self.is_any_hot(ops) {
            Kind::Warm
        } else {
            Kind::Cold
        }
    }

    fn are_all_hot(&self, ops: &[Op]) -> bool
        ensures { result ≡ list_all (λ op. is_hot self.now.layout op.tuple) ops.now }
    {
        ops.iter().all(|op| self.is_hot(op.tuple))
    }

    fn is_any_hot(&self, ops: &[Op]) -> bool
        ensures { result ≡ list_any (λ op. is_hot self.now.layout op.tuple) ops.now }
    {
        ops.iter().any(|op| self.is_hot(op.tuple))
    }

    /// How many hosts there are.
    pub fn host_count(&self) -> u8
        ensures { result ≡ self.now.shape.hosts }
    {
        self.shape.hosts
    }

    /// The first values of the hot tuples, by their places.
    pub fn hot_cells(&self, alloc: Global) -> Result<PlaceMap, NoMemory>
        ensures { IfOk result (λ cells. cells ≡ hot_cells (plan_of self.now)) }
    {
        self.layout.first_cells(alloc, &self.tuples)
    }

    /// An equal session.
    pub fn copy(&self, alloc: Global) -> Result<Session, NoMemory>
        ensures { IfOk result (λ copy. plan_of copy ≡ plan_of self.now) }
    {
        Ok(Session {
            shape: self.shape,
            tuples: self.tuples.copy(alloc)?,
            layout: self.layout.copy(alloc)?,
            tries: self.tries,
            clients: self.clients.copy(alloc)?,
            schedule: self.schedule.copy(alloc)?,
        })
    }
}
