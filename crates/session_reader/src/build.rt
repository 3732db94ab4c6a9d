//! Sessions from drafts that are within the limits.

ghost use Rattle.std.specs.Prelude.{◌≡◌, ◌<◌, ◌^◌, map, length, IfOk, None};
ghost use Rattle.catalogue.specs.Items.{plain_item, plain_items, plain_lists};
ghost use Rattle.catalogue.specs.PlanOf.{plan_of};
ghost use Rattle.txn_model.specs.Needs.{needs_of};
ghost use Rattle.session_draft.specs.Written.{written_op, written_item, written_items, written};
ghost use Rattle.session_reader.specs.Built.{op_of, item_of, row_of, shape_of, unscheduled};
ghost use Rattle.session_reader.specs.Limits.{over_limit};

use catalogue::{Actors, Clients, Item, Session};
use session_draft::{Draft, ItemDraft, OpDraft, RowDraft, ShapeDraft};
use stage_layout::{Layout, LayoutRow, Shape};
use std::alloc::{AllocError, Global};
use txn_model::{Need, Needs, NoMemory, Op, Script, TupleMap};

/// The session of a draft, with an empty schedule.
pub(crate) fn unscheduled(alloc: Global, draft: &Draft) -> Result<Session, NoMemory>
    requires { over_limit (written draft.now) ≡ None }
    ensures { IfOk result (λ session. plan_of session ≡ unscheduled (written draft.now)) }
{
    Ok(Session {
        shape: shape_of(&draft.shape),
        tuples: TupleMap::of(alloc, draft.tuples.as_slice())?,
        layout: Layout::of(alloc, rows_of(alloc, draft.layout.as_slice())?)?,
        tries: draft.tries,
        clients: Clients::of(lists_of(alloc, draft.clients.as_slice())?),
        schedule: Actors::of(Vec::new(alloc)),
    })
}

fn shape_of(shape: &ShapeDraft) -> Shape
    ensures { result ≡ shape_of shape.now }
{
    Shape {
        stages: shape.stages,
        arrays: shape.arrays,
        cells: shape.cells,
        split: shape.split,
        hosts: shape.hosts,
    }
}

fn row_of(row: &RowDraft) -> LayoutRow
    ensures { result ≡ row_of row.now }
{
    LayoutRow {
        tuple: row.tuple,
        place: row.place,
    }
}

fn rows_of(alloc: Global, rows: &[RowDraft]) -> Result<Vec<LayoutRow>, AllocError>
    ensures { IfOk result (λ layout. layout.items ≡ map row_of rows.now) }
{
    rows.iter().map(row_of).collect(alloc)
}

fn lists_of(alloc: Global, clients: &[Vec<ItemDraft>]) -> Result<Vec<Vec<Item>>, AllocError>
    ensures { IfOk result (λ lists. plain_lists lists.items ≡ map (map item_of) (map written_items clients.now)) }
{
    let mut lists = Vec::with_capacity(alloc, clients.len())?;
    for items in clients {
        lists.push(items_of(alloc, items.as_slice())?)?;
    }
    Ok(lists)
}

fn items_of(alloc: Global, items: &[ItemDraft]) -> Result<Vec<Item>, AllocError>
    ensures { IfOk result (λ built. plain_items built.items ≡ map item_of (map written_item items.now)) }
{
    let mut built = Vec::with_capacity(alloc, items.len())?;
    for item in items {
        built.push(item_of(alloc, item)?)?;
    }
    Ok(built)
}

fn item_of(alloc: Global, item: &ItemDraft) -> Result<Item, AllocError>
    ensures { IfOk result (λ built. plain_item built ≡ item_of (written_item item.now)) }
{
    match item {
        ItemDraft::Run(ops) => Ok(Item::Run(Script::of(ops_of(alloc, ops.as_slice())?))),
        ItemDraft::Lose => Ok(Item::Lose),
    }
}

fn ops_of(alloc: Global, ops: &[OpDraft]) -> Result<Vec<Op>, AllocError>
    ensures { IfOk result (λ built. built.items ≡ map (λ op. op_of (written_op op)) ops.now) }
{
    ops.iter().map(op_of).collect(alloc)
}

fn op_of(op: &OpDraft) -> Op
    ensures { result ≡ op_of (written_op op.now) }
{
    Op {
        tuple: op.tuple,
        act: op.act,
        needs: needs_of(op.needs.as_slice()),
    }
}

/// The needs of an operation, of which there are at most four.
fn needs_of(needs: &[Need]) -> Needs
    ensures { result ≡ needs_of needs.now }
{
    Needs::of(&needs[..needs.len().min(4)])
}
