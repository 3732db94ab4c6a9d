//! What clients do, as JSON at the end of a text: needs, operations and items.

ghost use Rattle.std.specs.Prelude.{◌≡◌, ◌++◌, codes, IfOk, OnOk, map, string_bytes};
ghost use Rattle.std.specs.List.{AllByRecursion};
ghost use Rattle.serde_json.specs.Data.{string};
ghost use Rattle.serde_json.specs.Written.{comma_if, compact_text};
ghost use Rattle.txn_model.specs.Needs.{needs_list};
ghost use Rattle.catalogue.specs.Items.{plain_item, plain_items};
ghost use Rattle.session_text.specs.SessionData.{which_name, natural, integer, need_data, needs_data, op_data, list, item_data, client_data, clients_data};
ghost use Rattle.session_text.specs.Typed.{IsTypedNeed, IsTypedOp, IsTypedItem};

use crate::number::{push_integer, push_natural};
use catalogue::{Clients, Item};
use std::alloc::AllocError;
use txn_model::{Act, Need, Needs, Op, TupleId, Which};

/// Appends the comma before an item, unless the item is the first of its list.
pub(crate) fn push_comma(text: &mut String, later: bool) -> Result<(), AllocError>
    ensures { OnOk result (string_bytes text.new ≡ string_bytes text.old ++ comma_if later) }
{
    if later { text.push_str(",") } else { Ok(()) }
}

/// What stands before the number of a need.
#[tactic(auto, unfolding(json::specs::Print::escape_byte))]
fn need_lead(which: Which) -> &'static str
    ensures { result.now ≡ codes "[" ++ (compact_text (string (which_name which)) ++ codes ",") }
{
    match which {
        Which::Old => "[\"old\",",
        Which::Moved => "[\"moved\",",
    }
}

fn push_need(text: &mut String, need: Need) -> Result<(), AllocError>
    ensures text { OnOk result (string_bytes text.new
        ≡ string_bytes text.old ++ compact_text (need_data need)) }
    ensures typed { IfOk result (λ _. IsTypedNeed need) }
{
    push_natural(text, need_lead(need.which), u64::from(need.from))?;
    text.push_str("]")
}

fn push_needs(text: &mut String, needs: &Needs) -> Result<(), AllocError>
    ensures text { OnOk result (string_bytes text.new
        ≡ string_bytes text.old ++ compact_text (needs_data needs.now)) }
    ensures typed { IfOk result (λ _. AllByRecursion IsTypedNeed (needs_list needs.now)) }
{
    text.push_str("[")?;
    for i in 0..needs.len() {
        push_comma(text, i > 0)?;
        push_need(text, needs.get(i))?;
    }
    text.push_str("]")
}

/// Appends the rest of an operation: its needs, and the closing bracket.
fn push_rest(text: &mut String, needs: &Needs) -> Result<(), AllocError>
    ensures text { OnOk result (string_bytes text.new
        ≡ string_bytes text.old ++ (codes "," ++ (compact_text (needs_data needs.now) ++ codes "]"))) }
    ensures typed { IfOk result (λ _. AllByRecursion IsTypedNeed (needs_list needs.now)) }
{
    text.push_str(",")?;
    push_needs(text, needs)?;
    text.push_str("]")
}

fn push_read(text: &mut String, tuple: TupleId) -> Result<(), AllocError>
    ensures { OnOk result (string_bytes text.new
        ≡ string_bytes text.old ++ (codes "[\"read\"," ++ (compact_text (natural tuple.0) ++ codes "]"))) }
{
    push_natural(text, "[\"read\",", u64::from(tuple.0))?;
    text.push_str("]")
}

/// Appends a put or an add, whose name the lead has.
fn push_change(
    text: &mut String,
    lead: &str,
    tuple: TupleId,
    base: i64,
    needs: &Needs,
) -> Result<(), AllocError>
    ensures text { OnOk result (string_bytes text.new
        ≡ string_bytes text.old ++ (lead.now ++ (compact_text (natural tuple.0)
        ++ (codes "," ++ (compact_text (integer base)
        ++ (codes "," ++ (compact_text (needs_data needs.now) ++ codes "]"))))))) }
    ensures typed { IfOk result (λ _. AllByRecursion IsTypedNeed (needs_list needs.now)) }
{
    push_natural(text, lead, u64::from(tuple.0))?;
    push_integer(text, ",", base)?;
    push_rest(text, needs)
}

/// Appends what a choice adds above its limit and below, and the rest of it.
fn push_outcomes(text: &mut String, above: i64, below: i64, needs: &Needs) -> Result<(), AllocError>
    ensures text { OnOk result (string_bytes text.new
        ≡ string_bytes text.old ++ (codes "," ++ (compact_text (integer above)
        ++ (codes "," ++ (compact_text (integer below)
        ++ (codes "," ++ (compact_text (needs_data needs.now) ++ codes "]"))))))) }
    ensures typed { IfOk result (λ _. AllByRecursion IsTypedNeed (needs_list needs.now)) }
{
    push_integer(text, ",", above)?;
    push_integer(text, ",", below)?;
    push_rest(text, needs)
}

fn push_choice(
    text: &mut String,
    tuple: TupleId,
    limit: i64,
    above: i64,
    below: i64,
    needs: &Needs,
) -> Result<(), AllocError>
    ensures text { OnOk result (string_bytes text.new
        ≡ string_bytes text.old ++ (codes "[\"choose\"," ++ (compact_text (natural tuple.0)
        ++ (codes "," ++ (compact_text (integer limit)
        ++ (codes "," ++ (compact_text (integer above)
        ++ (codes "," ++ (compact_text (integer below)
        ++ (codes "," ++ (compact_text (needs_data needs.now) ++ codes "]"))))))))))) }
    ensures typed { IfOk result (λ _. AllByRecursion IsTypedNeed (needs_list needs.now)) }
{
    push_natural(text, "[\"choose\",", u64::from(tuple.0))?;
    push_integer(text, ",", limit)?;
    push_outcomes(text, above, below, needs)
}

#[tactic(auto, unfolding(json::specs::Print::escape_byte))]
fn push_op(text: &mut String, op: Op) -> Result<(), AllocError>
    ensures text { OnOk result (string_bytes text.new
        ≡ string_bytes text.old ++ compact_text (op_data op)) }
    ensures typed { IfOk result (λ _. IsTypedOp op) }
{
    let Op { tuple, act, needs } = op;
    match act {
        Act::Read => push_read(text, tuple)?,
        Act::Put { base } => push_change(text, "[\"put\",", tuple, base, &needs)?,
        Act::Add { base } => push_change(text, "[\"add\",", tuple, base, &needs)?,
        Act::Choose {
            limit,
            above,
            below,
        } => push_choice(text, tuple, limit, above, below, &needs)?,
    }
    Ok(())
}

fn push_ops(text: &mut String, ops: &[Op]) -> Result<(), AllocError>
    ensures text { OnOk result (string_bytes text.new
        ≡ string_bytes text.old ++ compact_text (list (map op_data ops.now))) }
    ensures typed { IfOk result (λ _. AllByRecursion IsTypedOp ops.now) }
{
    text.push_str("[")?;
    let mut later = false;
    for &op in ops {
        push_comma(text, later)?;
        push_op(text, op)?;
        later = true;
    }
    text.push_str("]")
}

#[tactic(auto, unfolding(json::specs::Print::escape_byte))]
fn push_item(text: &mut String, item: &Item) -> Result<(), AllocError>
    ensures text { OnOk result (string_bytes text.new
        ≡ string_bytes text.old ++ compact_text (item_data (plain_item item.now))) }
    ensures typed { IfOk result (λ _. IsTypedItem (plain_item item.now)) }
{
    match item {
        Item::Run(script) => push_ops(text, script.as_slice()),
        Item::Lose => text.push_str("\"lose\""),
    }
}

fn push_client(text: &mut String, items: &[Item]) -> Result<(), AllocError>
    ensures text { OnOk result (string_bytes text.new
        ≡ string_bytes text.old ++ compact_text (client_data (plain_items items.now))) }
    ensures typed { IfOk result (λ _. AllByRecursion IsTypedItem (plain_items items.now)) }
{
    text.push_str("[")?;
    let mut later = false;
    for item in items {
        push_comma(text, later)?;
        push_item(text, item)?;
        later = true;
    }
    text.push_str("]")
}

/// Appends the items of each client.
pub(crate) fn push_clients(text: &mut String, clients: &Clients) -> Result<(), AllocError>
    ensures text { OnOk result (string_bytes text.new
        ≡ string_bytes text.old ++ compact_text (clients_data clients.now)) }
    ensures typed { IfOk result (λ _. AllByRecursion (AllByRecursion IsTypedItem) clients.now) }
{
    text.push_str("[")?;
    for client in 0..clients.len() {
        push_comma(text, client > 0)?;
        push_client(text, clients.items(client))?;
    }
    text.push_str("]")
}
