//! The list of the most used tuples.

ghost use Rattle.std.specs.Prelude.{◌≡◌, ◌<◌, ◌^◌, All, IsSome, IfOk, length, map};
ghost use Rattle.std.specs.List.Sorted.{IsNonDecreasingBy};
ghost use Rattle.std.specs.FinMap.{get};
ghost use Rattle.txn_model.specs.declared.op.TupleId.{TupleId};
ghost use Rattle.catalogue.specs.PlanOf.{plan_of};
ghost use Rattle.catalogue.specs.Sound.{IsSound};
ghost use Rattle.hot_set.specs.Hottest.{use_row, IsHotList, IsOnceEach};

use crate::used::{used_tuples, uses_in};
use catalogue::Session;
use std::alloc::Global;
use std::cmp::Reverse;
use txn_model::{Items, NoMemory, TupleId};

/// A tuple, and how many operations of transactions are on it.
#[derive(Clone, Copy, Debug, PartialEq, Eq)]
pub struct HotRow {
    pub tuple: TupleId,
    pub uses: u32,
}

/// A list of tuples with their uses.
pub type HotList = Items<HotRow>;

/// The `k` most used tuples of the session: those with more uses first, and of tuples with as many uses the
/// one with the lower number first. All tuples where `k` is larger.
pub fn pick(alloc: Global, session: &Session, k: u32) -> Result<HotList, NoMemory>
    requires { IsSound (plan_of session.now) }
    ensures list { IfOk result (λ hot. IsHotList (plan_of session.now) k hot.items) }
    ensures there { IfOk result (λ hot. All (λ row. IsSome (get session.now.tuples row.tuple)) hot.items) }
    ensures once { IfOk result (λ hot. IsOnceEach hot.items) }
{
    let mut used = used_tuples(alloc, session)?;
    used.sort_unstable();
    let mut rows = use_rows(alloc, session.tuples.rows(), used.as_slice())?;
    rows.sort_unstable_by_key(|row| (Reverse(row.uses), row.tuple));
    rows.truncate(k as usize);
    Ok(HotList::of(rows))
}

/// The tuples in their order, each with its uses.
fn use_rows(
    alloc: Global,
    tuples: &[(TupleId, i64)],
    used: &[TupleId],
) -> Result<Vec<HotRow>, NoMemory>
    requires sorted { IsNonDecreasingBy (λ (t : TupleId). t.0) used.now }
    requires few { length used.now < 2 ^ 32 }
    ensures { IfOk result (λ rows. rows.items ≡ map (λ row. use_row used.now row.0) tuples.now) }
{
    let mut rows = Vec::with_capacity(alloc, tuples.len())?;
    for &(tuple, _) in tuples {
        let uses = uses_in(used, tuple);
        rows.push(HotRow { tuple, uses })?;
    }
    Ok(rows)
}
