//! The sections of a session text, each by its own part of the grammar.

ghost use Rattle.std.specs.Prelude.{◌≡◌, map, string_bytes, IfOk, IsTrue};
ghost use Rattle.std.specs.BTreeMap.{keys};
ghost use Rattle.std.specs.List.{list_all};
ghost use Rattle.std.specs.FinMap.{is_sorted};
ghost use Rattle.serde_json.specs.View.{view};
ghost use Rattle.txn_model.specs.Tuples.{tuple_cmp};
ghost use Rattle.session_draft.specs.Answers.{Gives};
ghost use Rattle.session_draft.specs.Json.{each, list_each};
ghost use Rattle.session_draft.specs.OpText.{op_of};
ghost use Rattle.session_draft.specs.Sections.{is_section_name, is_shape_name, is_session, is_shape, number_at, shape_of, tuple_row_of, tuples_of, layout_row_of, layout_of, item_of, clients_of};
ghost use Rattle.session_draft.specs.Written.{written_op, written_item, written_items};

use crate::data::{Misread, as_i64, as_list, as_u8, as_u16};
use crate::draft::{ItemDraft, OpDraft, RowDraft, ShapeDraft};
use crate::operation::{as_tuple, operation};
use serde_json::{Map, Value};
use std::alloc::Global;
use txn_model::{Place, TupleId, ascend};

fn is_section_name(name: &str) -> bool
    ensures { result ≡ is_section_name name.now }
{
    matches!(
        name,
        "shape" | "tuples" | "layout" | "tries" | "clients" | "schedule"
    )
}

fn names_sections(map: &Map<String, Value>) -> bool
    ensures { result ≡ list_all (λ key. is_section_name (string_bytes key)) (keys map.now) }
{
    map.keys().all(|key| is_section_name(key.as_str()))
}

/// Whether it is an object with no other keys than the six sections.
pub(crate) fn is_session(value: &Value) -> bool
    ensures { result ≡ is_session (view value.now) }
{
    match value.as_object() {
        Some(map) => names_sections(map),
        None => false,
    }
}

fn is_shape_name(name: &str) -> bool
    ensures { result ≡ is_shape_name name.now }
{
    matches!(name, "stages" | "arrays" | "split" | "hosts" | "cells")
}

fn names_sizes(map: &Map<String, Value>) -> bool
    ensures { result ≡ list_all (λ key. is_shape_name (string_bytes key)) (keys map.now) }
{
    map.keys().all(|key| is_shape_name(key.as_str()))
}

fn is_shape(value: &Value) -> bool
    ensures { result ≡ is_shape (view value.now) }
{
    match value.as_object() {
        Some(map) => names_sizes(map),
        None => false,
    }
}

/// The shape: an object with exactly its five keys.
#[tactic(auto, unfolding(crate::specs::Sections::shape_of))]
pub(crate) fn shape(value: &Value) -> Option<ShapeDraft>
    ensures { result ≡ shape_of (view value.now) }
{
    if !is_shape(value) {
        return None;
    }
    Some(ShapeDraft {
        stages: as_u8(value.get("stages")?)?,
        arrays: as_u8(value.get("arrays")?)?,
        split: as_u8(value.get("split")?)?,
        hosts: as_u8(value.get("hosts")?)?,
        cells: as_u16(value.get("cells")?)?,
    })
}

fn tuple_row(value: &Value) -> Option<(TupleId, i64)>
    ensures { result ≡ tuple_row_of (view value.now) }
{
    let [id, value] = as_list(value)? else {
        return None;
    };
    Some((as_tuple(id)?, as_i64(value)?))
}

fn each_tuple_row(alloc: Global, list: &[Value]) -> Result<Vec<(TupleId, i64)>, Misread>
    ensures { Gives (λ rows. rows.items) result (each tuple_row_of (map view list.now)) }
{
    let mut rows = Vec::with_capacity(alloc, list.len())?;
    for value in list {
        rows.push(tuple_row(value).ok_or(Misread::Misfit)?)?;
    }
    Ok(rows)
}

/// The tuples with their values, ascending.
#[tactic(auto, unfolding(crate::specs::Sections::tuples_of))]
pub(crate) fn tuples(alloc: Global, value: &Value) -> Result<Vec<(TupleId, i64)>, Misread>
    ensures drafted { Gives (λ rows. rows.items) result (tuples_of (view value.now)) }
    ensures ascending { IfOk result (λ rows. IsTrue (is_sorted tuple_cmp rows.items)) }
{
    let rows = each_tuple_row(alloc, as_list(value).ok_or(Misread::Misfit)?)?;
    if ascend(rows.as_slice()) {
        Ok(rows)
    } else {
        Err(Misread::Misfit)
    }
}

fn layout_row(value: &Value) -> Option<RowDraft>
    ensures { result ≡ layout_row_of (view value.now) }
{
    let [tuple, stage, array, cell] = as_list(value)? else {
        return None;
    };
    Some(RowDraft {
        tuple: as_tuple(tuple)?,
        place: Place {
            stage: as_u8(stage)?,
            array: as_u8(array)?,
            cell: as_u16(cell)?,
        },
    })
}

fn each_layout_row(alloc: Global, list: &[Value]) -> Result<Vec<RowDraft>, Misread>
    ensures { Gives (λ rows. rows.items) result (each layout_row_of (map view list.now)) }
{
    let mut rows = Vec::with_capacity(alloc, list.len())?;
    for value in list {
        rows.push(layout_row(value).ok_or(Misread::Misfit)?)?;
    }
    Ok(rows)
}

/// The rows of the layout.
#[tactic(auto, unfolding(crate::specs::Sections::layout_of))]
pub(crate) fn layout(alloc: Global, value: &Value) -> Result<Vec<RowDraft>, Misread>
    ensures { Gives (λ rows. rows.items) result (layout_of (view value.now)) }
{
    each_layout_row(alloc, as_list(value).ok_or(Misread::Misfit)?)
}

fn each_operation(alloc: Global, list: &[Value]) -> Result<Vec<OpDraft>, Misread>
    ensures { Gives (λ ops. map written_op ops.items) result (each op_of (map view list.now)) }
{
    let mut ops = Vec::with_capacity(alloc, list.len())?;
    for value in list {
        ops.push(operation(alloc, value)?)?;
    }
    Ok(ops)
}

fn item(alloc: Global, value: &Value) -> Result<ItemDraft, Misread>
    ensures { Gives written_item result (item_of (view value.now)) }
{
    if let Some("lose") = value.as_str() {
        return Ok(ItemDraft::Lose);
    }
    let ops = each_operation(alloc, as_list(value).ok_or(Misread::Misfit)?)?;
    Ok(ItemDraft::Run(ops))
}

fn each_item(alloc: Global, list: &[Value]) -> Result<Vec<ItemDraft>, Misread>
    ensures { Gives written_items result (each item_of (map view list.now)) }
{
    let mut items = Vec::with_capacity(alloc, list.len())?;
    for value in list {
        items.push(item(alloc, value)?)?;
    }
    Ok(items)
}

fn client(alloc: Global, value: &Value) -> Result<Vec<ItemDraft>, Misread>
    ensures { Gives written_items result (list_each item_of (view value.now)) }
{
    each_item(alloc, as_list(value).ok_or(Misread::Misfit)?)
}

fn each_client(alloc: Global, list: &[Value]) -> Result<Vec<Vec<ItemDraft>>, Misread>
    ensures { Gives (λ clients. map written_items clients.items) result
        (each (list_each item_of) (map view list.now)) }
{
    let mut clients = Vec::with_capacity(alloc, list.len())?;
    for value in list {
        clients.push(client(alloc, value)?)?;
    }
    Ok(clients)
}

/// The items of each client.
#[tactic(auto, unfolding(crate::specs::Sections::clients_of))]
pub(crate) fn clients(alloc: Global, value: &Value) -> Result<Vec<Vec<ItemDraft>>, Misread>
    ensures { Gives (λ clients. map written_items clients.items) result (clients_of (view value.now)) }
{
    each_client(alloc, as_list(value).ok_or(Misread::Misfit)?)
}
