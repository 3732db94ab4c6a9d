//! Sessions that are generated from loads.

ghost use Rattle.std.specs.Prelude.{◌≡◌, ◌<◌, ◌^◌, length, All, IfOk};
ghost use Rattle.catalogue.specs.Items.{plain_items};
ghost use Rattle.catalogue.specs.PlanOf.{plan_of};
ghost use Rattle.catalogue.specs.Sound.{IsSound};
ghost use Rattle.schedule.specs.Dice.{seeded, words_of};
ghost use Rattle.load_base.specs.Load.{load_of, run_drawn, drawn_clients, IsSize, IsFitItemFor};
ghost use Rattle.load_base.specs.Times.{times};

use crate::rows::{first_tuples, hot_layout};
use crate::size::Load;
use catalogue::{Actors, Clients, Item, Session};
use schedule::Dice;
use stage_layout::Shape;
use std::alloc::Global;
use txn_model::NoMemory;

const SHAPE: Shape = Shape {
    stages: 12,
    arrays: 4,
    cells: 4096,
    split: 6,
    hosts: 4,
};

const TRIES: u8 = 8;

/// The session of the load. It is sound.
pub fn load_session<L: Load>(alloc: Global, load: &L) -> Result<Session, NoMemory>
    requires { IsSize (L.size load.now) }
    ensures session { IfOk result (λ session. plan_of session ≡ load_of (L.size load.now) (L.script load.now)) }
    ensures sound { IfOk result (λ session. IsSound (plan_of session)) }
{
    let size = load.size();
    Ok(Session {
        shape: SHAPE,
        tuples: first_tuples(alloc, &size)?,
        layout: hot_layout(alloc, size.hot)?,
        tries: TRIES,
        clients: drawn_clients(alloc, load)?,
        schedule: Actors::of(Vec::new(alloc)),
    })
}

fn drawn_clients<L: Load>(alloc: Global, load: &L) -> Result<Clients, NoMemory>
    requires { IsSize (L.size load.now) }
    ensures drawn { IfOk result (λ clients. clients ≡ (drawn_clients (L.size load.now) (L.script load.now) (words_of (seeded (L.size load.now).number))).0) }
    ensures fit { IfOk result (λ clients. All (All (IsFitItemFor (L.size load.now))) clients) }
{
    let size = load.size();
    let mut dice = Dice::of(size.number);
    let mut clients = Vec::with_capacity(alloc, size.clients as usize)?;
    for _ in 0..size.clients {
        clients.push(drawn_items(alloc, load, &mut dice)?)?;
    }
    Ok(Clients::of(clients))
}

/// The items of one client.
fn drawn_items<L: Load>(alloc: Global, load: &L, dice: &mut Dice) -> Result<Vec<Item>, NoMemory>
    ensures drawn { IfOk result (λ items. (plain_items items.items, words_of dice.new) ≡ times (run_drawn (L.script load.now)) (L.size load.now).scripts (words_of dice.old)) }
    ensures fit { IfOk result (λ items. All (IsFitItemFor (L.size load.now)) (plain_items items.items)) }
    ensures short { IfOk result (λ items. length items.items < 2 ^ 32) }
{
    let scripts = load.size().scripts;
    let mut items = Vec::with_capacity(alloc, scripts as usize)?;
    for _ in 0..scripts {
        items.push(Item::Run(load.draw(alloc, dice)?))?;
    }
    Ok(items)
}
