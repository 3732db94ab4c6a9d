//! The last refusal of each item of a client.

ghost use Rattle.std.specs.Prelude.{◌≡◌, ◌+◌, IfOk, None, map, replicate};
ghost use Rattle.core_model.specs.Rota.{numbers_below};
ghost use Rattle.report_text.specs.Refused.{noted};
ghost use Rattle.report_text.specs.RunReport.{last_refusal};

use core_model::Refusal;
use std::alloc::Global;
use txn_model::NoMemory;

/// The last refusal of each of the client's items, in one pass; None where an item has none.
pub(crate) fn last_refusals(
    alloc: Global,
    refusals: &[Refusal],
    client: u8,
    items: u32,
) -> Result<Vec<Option<Refusal>>, NoMemory>
    ensures { IfOk result (λ last. last.items ≡ map (λ i. last_refusal client (i + 1) refusals.now) (numbers_below items)) }
{
    let mut last = nothing(alloc, items)?;
    for refusal in refusals {
        note(&mut last, client, *refusal);
    }
    Ok(last)
}

/// As many items without a refusal.
fn nothing(alloc: Global, items: u32) -> Result<Vec<Option<Refusal>>, NoMemory>
    ensures { IfOk result (λ last. last.items ≡ replicate items None) }
{
    Ok(vec![in alloc; None; items as usize]?)
}

/// Puts a refusal at the place of its item, if it is one of this client.
fn note(last: &mut Vec<Option<Refusal>>, client: u8, refusal: Refusal)
    ensures { last.new.items ≡ noted client refusal last.old.items }
{
    if refusal.client != client || refusal.seq == 0 {
        return;
    }
    if let Some(place) = last.get_mut(refusal.seq as usize - 1) {
        *place = Some(refusal);
    }
}
