//! The operations of a script: what each does, and what it needs of earlier ones.

ghost use Rattle.std.specs.Prelude.{◌≡◌, map};
ghost use Rattle.serde_json.specs.View.{view};
ghost use Rattle.session_draft.specs.Answers.{Gives};
ghost use Rattle.session_draft.specs.Json.{each, list_each};
ghost use Rattle.session_draft.specs.OpText.{tuple_of, which_of, need_of, read_in, put_in, add_in, choose_in, op_of};
ghost use Rattle.session_draft.specs.Written.{written_op};

use crate::data::{Misread, as_i64, as_list, as_u8, as_u32};
use crate::draft::OpDraft;
use serde_json::Value;
use std::alloc::Global;
use txn_model::{Act, Need, TupleId, Which};

/// A tuple's number.
pub(crate) fn as_tuple(value: &Value) -> Option<TupleId>
    ensures { result ≡ tuple_of (view value.now) }
{
    Some(TupleId(as_u32(value)?))
}

fn as_which(value: &Value) -> Option<Which>
    ensures { result ≡ which_of (view value.now) }
{
    match value.as_str()? {
        "old" => Some(Which::Old),
        "moved" => Some(Which::Moved),
        _ => None,
    }
}

fn as_need(value: &Value) -> Option<Need>
    ensures { result ≡ need_of (view value.now) }
{
    let [which, from] = as_list(value)? else {
        return None;
    };
    Some(Need {
        from: as_u8(from)?,
        which: as_which(which)?,
    })
}

fn each_need(alloc: Global, list: &[Value]) -> Result<Vec<Need>, Misread>
    ensures { Gives (λ needs. needs.items) result (each need_of (map view list.now)) }
{
    let mut needs = Vec::new(alloc);
    for value in list {
        needs.push(as_need(value).ok_or(Misread::Misfit)?)?;
    }
    Ok(needs)
}

fn needs(alloc: Global, value: &Value) -> Result<Vec<Need>, Misread>
    ensures { Gives (λ needs. needs.items) result (list_each need_of (view value.now)) }
{
    each_need(alloc, as_list(value).ok_or(Misread::Misfit)?)
}

fn read(alloc: Global, operands: &[Value]) -> Result<OpDraft, Misread>
    ensures { Gives written_op result (read_in (map view operands.now)) }
{
    let [tuple] = operands else {
        return Err(Misread::Misfit);
    };
    Ok(OpDraft {
        tuple: as_tuple(tuple).ok_or(Misread::Misfit)?,
        act: Act::Read,
        needs: Vec::new(alloc),
    })
}

fn put(alloc: Global, operands: &[Value]) -> Result<OpDraft, Misread>
    ensures { Gives written_op result (put_in (map view operands.now)) }
{
    let [tuple, base, list] = operands else {
        return Err(Misread::Misfit);
    };
    Ok(OpDraft {
        tuple: as_tuple(tuple).ok_or(Misread::Misfit)?,
        act: Act::Put {
            base: as_i64(base).ok_or(Misread::Misfit)?,
        },
        needs: needs(alloc, list)?,
    })
}

fn add(alloc: Global, operands: &[Value]) -> Result<OpDraft, Misread>
    ensures { Gives written_op result (add_in (map view operands.now)) }
{
    let [tuple, base, list] = operands else {
        return Err(Misread::Misfit);
    };
    Ok(OpDraft {
        tuple: as_tuple(tuple).ok_or(Misread::Misfit)?,
        act: Act::Add {
            base: as_i64(base).ok_or(Misread::Misfit)?,
        },
        needs: needs(alloc, list)?,
    })
}

fn choose(alloc: Global, operands: &[Value]) -> Result<OpDraft, Misread>
    ensures { Gives written_op result (choose_in (map view operands.now)) }
{
    let [tuple, limit, above, below, list] = operands else {
        return Err(Misread::Misfit);
    };
    Ok(OpDraft {
        tuple: as_tuple(tuple).ok_or(Misread::Misfit)?,
        act: Act::Choose {
            limit: as_i64(limit).ok_or(Misread::Misfit)?,
            above: as_i64(above).ok_or(Misread::Misfit)?,
            below: as_i64(below).ok_or(Misread::Misfit)?,
        },
        needs: needs(alloc, list)?,
    })
}

/// An operation: its name, its tuple, and what its act takes.
#[tactic(auto, unfolding(crate::specs::OpText::op_of))]
pub(crate) fn operation(alloc: Global, value: &Value) -> Result<OpDraft, Misread>
    ensures { Gives written_op result (op_of (view value.now)) }
{
    let [name, operands @ ..] = as_list(value).ok_or(Misread::Misfit)? else {
        return Err(Misread::Misfit);
    };
    match name.as_str() {
        Some("read") => read(alloc, operands),
        Some("put") => put(alloc, operands),
        Some("add") => add(alloc, operands),
        Some("choose") => choose(alloc, operands),
        _ => Err(Misread::Misfit),
    }
}
