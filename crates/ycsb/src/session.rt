//! The session of a plan.

ghost use Rattle.std.specs.Prelude.{◌≡◌, ◌≤◌, IfOk};
ghost use Rattle.catalogue.specs.LoadPlans.{IsYcsbPlan};
ghost use Rattle.catalogue.specs.PlanOf.{plan_of};
ghost use Rattle.catalogue.specs.Sound.{IsSound};
ghost use Rattle.ycsb.specs.Ycsb.{ycsb_load};

use crate::load::Ycsb;
use catalogue::{Session, YcsbPlan};
use load_base::load_session;
use std::alloc::Global;
use txn_model::NoMemory;

/// The session of the plan. It is sound.
pub fn ycsb_session(alloc: Global, plan: &YcsbPlan) -> Result<Session, NoMemory>
    requires { IsYcsbPlan plan.now }
    ensures session { IfOk result (λ session. plan_of session ≡ ycsb_load plan.now) }
    ensures sound { IfOk result (λ session. IsSound (plan_of session)) }
{
    load_session(alloc, &Ycsb { plan: *plan })
}
