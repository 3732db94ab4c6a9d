//! The other sections of a session, as JSON at the end of a text.

ghost use Rattle.std.specs.Prelude.{◌≡◌, ◌++◌, IfOk, OnOk, string_bytes};
ghost use Rattle.std.specs.FinMap.{entries};
ghost use Rattle.std.specs.List.{AllByRecursion};
ghost use Rattle.serde_json.specs.Data.{string};
ghost use Rattle.serde_json.specs.Written.{compact_text};
ghost use Rattle.catalogue.specs.ActorWord.{actor_word};
ghost use Rattle.session_text.specs.SessionData.{tuple_row_data, tuples_data, layout_row_data, layout_data, shape_data, schedule_text};
ghost use Rattle.session_text.specs.Typed.{IsTypedRow, IsTypedLayoutRow, IsTypedShape, IsTypedActor};

use crate::item::push_comma;
use crate::number::{push_integer, push_natural};
use catalogue::{Actor, Actors};
use stage_layout::{Layout, LayoutRow, Shape};
use std::alloc::AllocError;
use txn_model::{Place, TupleId, TupleMap};

/// Appends the sizes of the switch, and the number of hosts.
#[tactic(auto, unfolding(json::specs::Print::escape_byte))]
pub(crate) fn push_shape(text: &mut String, shape: &Shape) -> Result<(), AllocError>
    ensures text { OnOk result (string_bytes text.new
        ≡ string_bytes text.old ++ compact_text (shape_data shape.now)) }
    ensures typed { IfOk result (λ _. IsTypedShape shape.now) }
{
    let Shape {
        stages,
        arrays,
        cells,
        split,
        hosts,
    } = *shape;
    push_natural(text, "{\"arrays\":", u64::from(arrays))?;
    push_natural(text, ",\"cells\":", u64::from(cells))?;
    push_natural(text, ",\"hosts\":", u64::from(hosts))?;
    push_natural(text, ",\"split\":", u64::from(split))?;
    push_natural(text, ",\"stages\":", u64::from(stages))?;
    text.push_str("}")?;
    Ok(())
}

fn push_tuple_row(text: &mut String, row: (TupleId, i64)) -> Result<(), AllocError>
    ensures text { OnOk result (string_bytes text.new
        ≡ string_bytes text.old ++ compact_text (tuple_row_data row)) }
    ensures typed { IfOk result (λ _. IsTypedRow row) }
{
    push_natural(text, "[", u64::from(row.0.0))?;
    push_integer(text, ",", row.1)?;
    text.push_str("]")?;
    Ok(())
}

/// Appends each tuple with its first value.
pub(crate) fn push_tuples(text: &mut String, tuples: &TupleMap) -> Result<(), AllocError>
    ensures text { OnOk result (string_bytes text.new
        ≡ string_bytes text.old ++ compact_text (tuples_data tuples.now)) }
    ensures typed { IfOk result (λ _. AllByRecursion IsTypedRow (entries tuples.now)) }
{
    text.push_str("[")?;
    let mut later = false;
    for &row in tuples.rows() {
        push_comma(text, later)?;
        push_tuple_row(text, row)?;
        later = true;
    }
    text.push_str("]")
}

fn push_layout_row(text: &mut String, row: LayoutRow) -> Result<(), AllocError>
    ensures text { OnOk result (string_bytes text.new
        ≡ string_bytes text.old ++ compact_text (layout_row_data row)) }
    ensures typed { IfOk result (λ _. IsTypedLayoutRow row) }
{
    let Place { stage, array, cell } = row.place;
    push_natural(text, "[", u64::from(row.tuple.0))?;
    push_natural(text, ",", u64::from(stage))?;
    push_natural(text, ",", u64::from(array))?;
    push_natural(text, ",", u64::from(cell))?;
    text.push_str("]")?;
    Ok(())
}

/// Appends each hot tuple with its place.
pub(crate) fn push_layout(text: &mut String, layout: &Layout) -> Result<(), AllocError>
    ensures text { OnOk result (string_bytes text.new
        ≡ string_bytes text.old ++ compact_text (layout_data layout.now)) }
    ensures typed { IfOk result (λ _. AllByRecursion IsTypedLayoutRow layout.now) }
{
    text.push_str("[")?;
    let mut later = false;
    for &row in layout.as_slice() {
        push_comma(text, later)?;
        push_layout_row(text, row)?;
        later = true;
    }
    text.push_str("]")
}

fn push_word(text: &mut String, actor: Actor) -> Result<(), AllocError>
    ensures text { OnOk result (string_bytes text.new ≡ string_bytes text.old ++ actor_word actor) }
    ensures typed { IfOk result (λ _. IsTypedActor actor) }
{
    match actor {
        Actor::Client(client) => push_natural(text, "c", u64::from(client)),
        Actor::Port(client) => push_natural(text, "p", u64::from(client)),
        Actor::Stage(stage) => push_natural(text, "s", u64::from(stage)),
        Actor::Recover => text.push_str("r"),
    }
}

fn push_words(text: &mut String, actors: &[Actor]) -> Result<(), AllocError>
    ensures text { OnOk result (string_bytes text.new
        ≡ string_bytes text.old ++ schedule_text actors.now) }
    ensures typed { IfOk result (λ _. AllByRecursion IsTypedActor actors.now) }
{
    if let Some((&first, others)) = actors.split_first() {
        push_word(text, first)?;
        for &actor in others {
            text.push_str(" ")?;
            push_word(text, actor)?;
        }
    }
    Ok(())
}

/// Appends the words of the actors, as one string.
pub(crate) fn push_schedule(text: &mut String, actors: &Actors) -> Result<(), AllocError>
    ensures text { OnOk result (string_bytes text.new
        ≡ string_bytes text.old ++ compact_text (string (schedule_text actors.now.items))) }
    ensures typed { IfOk result (λ _. AllByRecursion IsTypedActor actors.now.items) }
{
    // No letter, digit or space of a word is written as an escape.
    text.push_str("\"")?;
    push_words(text, actors.as_slice())?;
    text.push_str("\"")?;
    Ok(())
}
