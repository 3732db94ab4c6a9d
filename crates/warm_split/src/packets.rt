//! The packet of a script, and how often it goes through the pipeline.

ghost use Rattle.std.specs.Prelude.{◌≡◌, ◌≢◌, ◌+◌, ◌≤◌, [], length, map, take};
ghost use Rattle.std.specs.List.{zip};
ghost use Rattle.txn_model.specs.ScriptCheck.{script_fault};
ghost use Rattle.stage_layout.specs.Late.{parts_of};
ghost use Rattle.stage_layout.specs.Passes.{plan_of};
ghost use Rattle.switch_packet.specs.Packets.{plain, room_of};
ghost use Rattle.warm_split.specs.Filled.{AreExecuted};
ghost use Rattle.warm_split.specs.Parts.{IsHotSet, IsParts};
ghost use Rattle.warm_split.specs.Resolved.{planned_ops, packet_op, packet_of};
ghost use Rattle.warm_split.specs.Sides.{IsOneVisit, HasPlaces, hot_ops, hot_place, found_values};

use crate::needs::{cold_needs, hot_needs};
use crate::op_set::OpSet;
use crate::parts::Parts;
use stage_layout::{HotOp, Layout, PassPlan, Shape, plan};
use switch_packet::{Packet, PacketOp, PacketOps};
use txn_model::{MOST_OPS, Needs, Pairs, Place, Script, TupleId, operand};

/// The operations of a script in the switch.
#[derive(Clone, Copy)]
struct PlannedOps {
    ops: [HotOp; MOST_OPS],
    count: usize,
}

/// The place of a hot tuple.
fn hot_place(layout: &Layout, tuple: TupleId) -> Place
    ensures { result ≡ hot_place layout.now tuple }
{
    layout.place_of(tuple).unwrap_or(Place {
        stage: 0,
        array: 0,
        cell: 0,
    })
}

/// What the pass plan of a script is made of.
fn planned_ops(layout: &Layout, script: &Script, hot: OpSet) -> PlannedOps
    requires fit { script_fault script.now.items ≡ None }
    requires sets { IsHotSet (parts_of layout.now script.now.items) hot }
    ensures ops { take result.count result.ops ≡ planned_ops layout.now script.now.items }
    ensures few { result.count ≤ 16 }
{
    let none = HotOp {
        place: Place {
            stage: 0,
            array: 0,
            cell: 0,
        },
        needs: Needs::none(),
    };
    let mut ops = [none; MOST_OPS];
    let mut count = 0;
    let len = script.len() as u8;
    for i in 0..len {
        let this = script.op(i);
        if hot.has(i) {
            let place = hot_place(layout, this.tuple);
            let needs = hot_needs(&this.needs, hot);
            ops[count] = HotOp { place, needs };
            count += 1;
        }
    }
    PlannedOps { ops, count }
}

/// The pass plan of a script's hot operations with their needs of one another. It takes no memory.
pub fn hot_plan(shape: &Shape, layout: &Layout, script: &Script, parts: &Parts) -> PassPlan
    requires fit { script_fault script.now.items ≡ None }
    requires sets { IsParts layout.now script.now.items parts.now }
    requires hot { hot_ops layout.now script.now.items ≢ [] }
    requires places { HasPlaces shape.now layout.now script.now.items }
    ensures { result ≡ plan_of shape.now (planned_ops layout.now script.now.items) }
{
    let planned = planned_ops(layout, script, parts.hot);
    plan(shape, &planned.ops[..planned.count])
}

/// Adds the operations of the packet, in script order.
fn push_ops(
    plan: &PassPlan,
    layout: &Layout,
    script: &Script,
    hot: OpSet,
    pairs: &Pairs,
    to: &mut PacketOps,
)
    requires visit { IsOneVisit layout.now script.now.items }
    requires sets { IsHotSet (parts_of layout.now script.now.items) hot }
    requires size { length pairs.now.items ≡ length script.now.items }
    requires passes { length plan.now.passes ≡ length (hot_ops layout.now script.now.items) }
    requires none { to.old.items ≡ [] }
    requires room { 16 ≤ to.old.spare }
    ensures ops { to.new.items ≡ map (λ step. packet_op layout.now (parts_of layout.now script.now.items) pairs.now.items step.0 step.1) (zip plan.now.passes (hot_ops layout.now script.now.items)) }
    ensures room { length to.new.items + to.new.spare ≡ to.old.spare }
{
    let len = script.len() as u8;
    for i in 0..len {
        let this = script.op(i);
        if hot.has(i) {
            let pass = plan.pass(to.len() as u8);
            let place = hot_place(layout, this.tuple);
            let cold = cold_needs(&this.needs, hot);
            let bias = operand(&cold, 0, pairs);
            let needs = hot_needs(&this.needs, hot);
            to.push(PacketOp {
                pass,
                place,
                act: this.act,
                bias,
                needs,
            });
        }
    }
}

/// Makes the packet of a script: its hot operations in script order, each with the operand that its needs
/// of operations on hosts come to and with its needs of hot ones, by their numbers in the packet. The
/// pairs have what the operations on hosts found, and those before the switch have been executed. It
/// takes no memory.
pub fn resolve(
    shape: &Shape,
    layout: &Layout,
    script: &Script,
    parts: &Parts,
    client: u8,
    seq: u32,
    pairs: &Pairs,
    to: &mut Packet,
)
    requires visit { IsOneVisit layout.now script.now.items }
    requires sets { IsParts layout.now script.now.items parts.now }
    requires hot { hot_ops layout.now script.now.items ≢ [] }
    requires places { HasPlaces shape.now layout.now script.now.items }
    requires filled { AreExecuted parts.now.before script.now.items pairs.now.items }
    requires room { 16 ≤ room_of to.old.ops }
    ensures packet { plain to.new ≡ packet_of shape.now layout.now client seq script.now.items (found_values layout.now script.now.items pairs.now.items) }
    ensures room { room_of to.new.ops ≡ room_of to.old.ops }
{
    let plan = hot_plan(shape, layout, script, parts);
    to.clear();
    to.client = client;
    to.seq = seq;
    to.passes = plan.passes();
    to.halves = plan.halves();
    push_ops(&plan, layout, script, parts.hot, pairs, &mut to.ops);
}
