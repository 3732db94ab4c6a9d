//! The layout that is chosen for a list of tuples.

ghost use Rattle.std.specs.Prelude.{◌≡◌, ◌≤◌, ◌*◌, All, IsSome, IfOk, None, length};
ghost use Rattle.std.specs.FinMap.{get};
ghost use Rattle.stage_layout.specs.Layout.{layout_fault};
ghost use Rattle.catalogue.specs.PlanOf.{plan_of};
ghost use Rattle.catalogue.specs.Sound.{IsSound};
ghost use Rattle.hot_set.specs.Hottest.{IsOnceEach};
ghost use Rattle.declust.specs.Arrays.{array_count};
ghost use Rattle.declust.specs.Plain.{tuples_of};
ghost use Rattle.declust.specs.Spread.{IsSpread};

use crate::greedy::greedy_rows;
use crate::passes::total;
use crate::plain::plain_rows;
use catalogue::Session;
use hot_set::HotList;
use stage_layout::Layout;
use std::alloc::Global;
use txn_model::NoMemory;

/// A layout with the passes that all transactions of a session need under it.
#[derive(Debug, Drop)]
pub struct SpreadLayout {
    pub layout: Layout,
    pub passes: u32,
    /// The passes under the plain layout.
    pub plain: u32,
}

/// A layout of the hot tuples in the order of their list: the greedy one, or the plain one where that needs
/// fewer passes. The session's own layout has no part in it.
///
/// In the plain layout the tuples fill one register array after the other. In the greedy one each tuple is put
/// into an array with a free cell: into the one that has tuples of the fewest transactions that use this tuple,
/// and into the lowest of several such.
pub fn spread(alloc: Global, session: &Session, hot: &HotList) -> Result<SpreadLayout, NoMemory>
    requires sound { IsSound (plan_of session.now) }
    requires there { All (λ row. IsSome (get session.now.tuples row.tuple)) hot.now.items }
    requires once { IsOnceEach hot.now.items }
    requires fit { length hot.now.items ≤ array_count session.now.shape * session.now.shape.cells }
    ensures spread { IfOk result (IsSpread (plan_of session.now) (tuples_of hot.now.items)) }
    ensures valid { IfOk result (λ spread. layout_fault session.now.shape session.now.tuples spread.layout ≡ None) }
    ensures not_worse { IfOk result (λ spread. spread.passes ≤ spread.plain) }
{
    let hot = hot.as_slice();
    let plain = Layout::of(alloc, plain_rows(alloc, &session.shape, hot)?)?;
    let greedy = Layout::of(alloc, greedy_rows(alloc, session, hot)?)?;
    let plain_total = total(session, &plain);
    let greedy_total = total(session, &greedy);
    Ok(if plain_total < greedy_total {
        SpreadLayout {
            layout: plain,
            passes: plain_total,
            plain: plain_total,
        }
    } else {
        SpreadLayout {
            layout: greedy,
            passes: greedy_total,
            plain: plain_total,
        }
    })
}
