//! Generated sessions.

ghost use Rattle.std.specs.Prelude.{◌≡◌, IfOk};
ghost use Rattle.catalogue.specs.PlanOf.{plan_of};
ghost use Rattle.catalogue.specs.Sound.{IsSound};
ghost use Rattle.words_cli.specs.Ranges.{IsWork};
ghost use Rattle.p4db_top.specs.Loads.{load_draws, load_plan};

use catalogue::Session;
use smallbank::bank_session;
use std::alloc::Global;
use txn_model::NoMemory;
use words_cli::{Draws, Work};
use ycsb::ycsb_session;

/// How many actors are drawn for each item.
const DRAWS_PER_ITEM: u32 = 16;

/// The session that is generated. It is sound.
pub(crate) fn load_session(alloc: Global, work: &Work) -> Result<Session, NoMemory>
    requires { IsWork work.now }
    ensures session { IfOk result (λ session. plan_of session ≡ load_plan work.now) }
    ensures sound { IfOk result (λ session. IsSound (plan_of session)) }
{
    match work {
        Work::SmallBank(plan) => bank_session(alloc, plan),
        Work::Ycsb(plan) => ycsb_session(alloc, plan),
    }
}

/// What the actors of its run are drawn from.
pub(crate) fn load_draws(work: &Work) -> Draws
    requires { IsWork work.now }
    ensures { result ≡ load_draws work.now }
{
    let (clients, scripts, number) = match work {
        Work::SmallBank(plan) => (plan.clients, plan.scripts, plan.number),
        Work::Ycsb(plan) => (plan.clients, plan.scripts, plan.number),
    };
    Draws {
        count: DRAWS_PER_ITEM * (u32::from(clients) * scripts),
        number,
    }
}
