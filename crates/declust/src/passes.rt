//! The passes that a session's transactions need under a layout.

ghost use Rattle.std.specs.Prelude.{◌≡◌, ◌<◌, ◌≤◌, ◌*◌, List, [], ◌∷◌, ◌++◌, All, length, sum_by, IsTrue};
ghost use Rattle.std.specs.List.{list_any, AllByRecursion};
ghost use Rattle.txn_model.specs.Needs.{needs_list};
ghost use Rattle.txn_model.specs.ScriptCheck.{script_fault};
ghost use Rattle.stage_layout.specs.Late.{Part, is_hot, next_part, parts_of};
ghost use Rattle.stage_layout.specs.Shape.{has_place};
ghost use Rattle.catalogue.specs.Items.{plain_item, plain_items};
ghost use Rattle.catalogue.specs.Plan.{Run};
ghost use Rattle.catalogue.specs.PlanOf.{plan_of};
ghost use Rattle.catalogue.specs.Sound.{IsSound};
ghost use Rattle.warm_split.specs.OpSet.{contains};
ghost use Rattle.warm_split.specs.Parts.{AreSets, IsParts};
ghost use Rattle.declust.specs.Total as definition;
ghost use Rattle.declust.specs.Total.{passes_of, HaveNoFault, AreInside};

use catalogue::{Item, Session};
use stage_layout::{Layout, Shape};
use txn_model::{MOST_OPS, Needs, Op, Script};
use warm_split::{OpSet, Parts, hot_plan};

/// The passes of all transactions of the session, where the tuples of the layout are the hot ones.
pub(crate) fn total(session: &Session, layout: &Layout) -> u32
    requires sound { IsSound (plan_of session.now) }
    requires inside { AreInside session.now.shape layout.now }
    ensures { result ≡ definition.total (plan_of session.now) layout.now }
{
    let mut passes = 0;
    for client in 0..session.clients() {
        passes += list_passes(&session.shape, layout, session.clients.items(client));
    }
    passes
}

/// The passes of a client's items.
fn list_passes(shape: &Shape, layout: &Layout, items: &[Item]) -> u32
    requires few { length items.now ≤ 4096 }
    requires sound { HaveNoFault (plain_items items.now) }
    requires inside { AreInside shape.now layout.now }
    ensures value { result ≡ sum_by (passes_of shape.now layout.now) (plain_items items.now) }
    ensures bound { result ≤ length items.now * 255 }
{
    let mut passes = 0;
    for item in items {
        passes += u32::from(item_passes(shape, layout, item));
    }
    passes
}

fn item_passes(shape: &Shape, layout: &Layout, item: &Item) -> u8
    requires sound { HaveNoFault (plain_item item.now ∷ []) }
    requires inside { AreInside shape.now layout.now }
    ensures { result ≡ passes_of shape.now layout.now (plain_item item.now) }
{
    match item {
        Item::Run(script) => script_passes(shape, layout, script),
        Item::Lose => 0,
    }
}

/// The passes of a script's hot operations; 0 where it has none.
fn script_passes(shape: &Shape, layout: &Layout, script: &Script) -> u8
    requires sound { script_fault script.now.items ≡ None }
    requires inside { AreInside shape.now layout.now }
    ensures { result ≡ passes_of shape.now layout.now (Run script.now.items) }
{
    let ops = script.as_slice();
    if !any_hot(layout, ops) {
        return 0;
    }
    hot_plan(shape, layout, script, &parts_of(layout, ops)).passes()
}

fn any_hot(layout: &Layout, ops: &[Op]) -> bool
    ensures { result ≡ list_any (λ op. is_hot layout.now op.tuple) ops.now }
{
    ops.iter().any(|op| layout.place_of(op.tuple).is_some())
}

/// Where the operations of a script are executed. Scripts that would have to visit the switch twice have
/// parts here too: they have passes like others.
fn parts_of(layout: &Layout, ops: &[Op]) -> Parts
    requires { length ops.now ≤ MOST_OPS }
    ensures { IsParts layout.now ops.now result }
{
    let mut parts = Parts {
        before: OpSet::EMPTY,
        hot: OpSet::EMPTY,
        after: OpSet::EMPTY,
    };
    for (i, op) in ops.iter().enumerate() {
        parts = placed(parts, i as u8, op, layout);
    }
    parts
}

/// The parts with one more operation, which has this number.
fn placed(parts: Parts, number: u8, op: &Op, layout: &Layout) -> Parts
    requires { number < 32 }
    ensures { (done : List Part) → length done ≡ number → AreSets done parts → AreSets (done ++ next_part layout.now done op.now ∷ []) result }
{
    if layout.place_of(op.tuple).is_some() {
        let hot = parts.hot.with(number);
        return Parts { hot, ..parts };
    }
    if needs_any(&op.needs, parts.hot.or(parts.after)) {
        let after = parts.after.with(number);
        return Parts { after, ..parts };
    }
    let before = parts.before.with(number);
    Parts { before, ..parts }
}

/// Whether one of the needs is of an operation in the set.
fn needs_any(needs: &Needs, set: OpSet) -> bool
    ensures { result ≡ list_any (λ need. contains set need.from) (needs_list needs.now) }
{
    for i in 0..needs.len() {
        if set.has(needs.get(i).from) {
            return true;
        }
    }
    false
}
