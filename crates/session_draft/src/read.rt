//! Reading a draft: JSON first, then section by section.

ghost use Rattle.std.specs.Prelude.{◌≡◌, codes, map, string_bytes, IfOk, IsTrue};
ghost use Rattle.std.specs.FinMap.{is_sorted};
ghost use Rattle.serde_json.specs.Find.{as_str};
ghost use Rattle.serde_json.specs.View.{view};
ghost use Rattle.txn_model.specs.Tuples.{tuple_cmp};
ghost use Rattle.session_draft.specs.Answers.{Answers};
ghost use Rattle.session_draft.specs.Draft.{draft_of, draft_of_bytes, section, section_fault};
ghost use Rattle.session_draft.specs.Json.{number_to};
ghost use Rattle.session_draft.specs.Sections.{shape_of, tuples_of, layout_of, clients_of};
ghost use Rattle.session_draft.specs.Written.{written, written_items};

use crate::data::{Misread, as_u8};
use crate::draft::{Draft, ItemDraft, RowDraft, ShapeDraft};
use crate::section::{clients, is_session, layout, shape, tuples};
use serde_json::Value;
use std::alloc::Global;
use txn_model::TupleId;

/// A part of a session text, in the order in which they're looked at.
#[derive(Clone, Copy, Debug, PartialEq, Eq)]
pub enum Section {
    /// The text as an object with the other six as its keys.
    Whole,
    Shape,
    Tuples,
    Layout,
    Tries,
    Clients,
    Schedule,
}

/// Why bytes are no draft.
#[derive(Clone, Copy, Debug, PartialEq, Eq)]
pub enum DraftFault {
    /// They aren't UTF-8, or no JSON.
    NotJson,
    /// This section is the first that isn't as the grammar says. A key that isn't there is a fault of its
    /// own section; one that isn't known is a fault of the whole.
    BadShape(Section),
    NoMemory,
}

/// The fault of a section where a part of it isn't read.
fn fault(section: Section, misread: Misread) -> DraftFault
    ensures { result ≡ section_fault section misread }
{
    match misread {
        Misread::Misfit => DraftFault::BadShape(section),
        Misread::NoMemory => DraftFault::NoMemory,
    }
}

#[tactic(auto, unfolding(crate::specs::Draft::draft_of))]
fn draft(alloc: Global, value: &Value) -> Result<Draft, DraftFault>
    ensures { Answers DraftFault.NoMemory written result (draft_of (view value.now)) }
{
    if !is_session(value) {
        return Err(DraftFault::BadShape(Section::Whole));
    }
    Ok(Draft {
        shape: shape_section(value)?,
        tuples: tuples_section(alloc, value)?,
        layout: layout_section(alloc, value)?,
        tries: tries_section(value)?,
        clients: clients_section(alloc, value)?,
        schedule: schedule_section(alloc, value)?,
    })
}

fn shape_section(whole: &Value) -> Result<ShapeDraft, DraftFault>
    ensures { result ≡ section Section.Shape (codes "shape") shape_of (view whole.now) }
{
    whole
        .get("shape")
        .and_then(shape)
        .ok_or(DraftFault::BadShape(Section::Shape))
}

fn tuples_section(alloc: Global, whole: &Value) -> Result<Vec<(TupleId, i64)>, DraftFault>
    ensures drafted { Answers DraftFault.NoMemory (λ rows. rows.items) result
        (section Section.Tuples (codes "tuples") tuples_of (view whole.now)) }
    ensures ascending { IfOk result (λ rows. IsTrue (is_sorted tuple_cmp rows.items)) }
{
    let value = whole
        .get("tuples")
        .ok_or(DraftFault::BadShape(Section::Tuples))?;
    tuples(alloc, value).map_err(|misread| fault(Section::Tuples, misread))
}

fn layout_section(alloc: Global, whole: &Value) -> Result<Vec<RowDraft>, DraftFault>
    ensures { Answers DraftFault.NoMemory (λ rows. rows.items) result
        (section Section.Layout (codes "layout") layout_of (view whole.now)) }
{
    let value = whole
        .get("layout")
        .ok_or(DraftFault::BadShape(Section::Layout))?;
    layout(alloc, value).map_err(|misread| fault(Section::Layout, misread))
}

fn tries_section(whole: &Value) -> Result<u8, DraftFault>
    ensures { result ≡ section Section.Tries (codes "tries") (number_to 255) (view whole.now) }
{
    whole
        .get("tries")
        .and_then(as_u8)
        .ok_or(DraftFault::BadShape(Section::Tries))
}

fn clients_section(alloc: Global, whole: &Value) -> Result<Vec<Vec<ItemDraft>>, DraftFault>
    ensures { Answers DraftFault.NoMemory (λ clients. map written_items clients.items) result
        (section Section.Clients (codes "clients") clients_of (view whole.now)) }
{
    let value = whole
        .get("clients")
        .ok_or(DraftFault::BadShape(Section::Clients))?;
    clients(alloc, value).map_err(|misread| fault(Section::Clients, misread))
}

fn schedule_section(alloc: Global, whole: &Value) -> Result<String, DraftFault>
    ensures { Answers DraftFault.NoMemory (λ text. string_bytes text) result
        (section Section.Schedule (codes "schedule") as_str (view whole.now)) }
{
    let text = whole
        .get("schedule")
        .and_then(Value::as_str)
        .ok_or(DraftFault::BadShape(Section::Schedule))?;
    String::from_str(alloc, text).map_err(|_| DraftFault::NoMemory)
}

/// Reads the draft that the bytes are, in time and memory linear in their number.
pub fn read_draft(alloc: Global, bytes: &[u8]) -> Result<Draft, DraftFault>
    ensures { Answers DraftFault.NoMemory written result (draft_of_bytes bytes.now) }
{
    match Value::from_slice(alloc, bytes) {
        Ok(value) => draft(alloc, &value),
        Err(error) if error.is_memory() => Err(DraftFault::NoMemory),
        Err(_) => Err(DraftFault::NotJson),
    }
}
