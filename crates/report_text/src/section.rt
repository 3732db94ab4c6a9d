//! The sections of a report that tell of a world's history and of its tuples.

ghost use Rattle.std.specs.Prelude.{◌≡◌, ◌++◌, OnOk, map, string_bytes};
ghost use Rattle.fabric_core.specs.Running.{state_in};
ghost use Rattle.report_text.specs.ReportText.{history_text, tuples_text};
ghost use Rattle.report_text.specs.RunReport.{tuples_told};

use crate::line::{push_count, push_entry, push_tuple};
use fabric_core::{RunName, World};
use history_core::History;
use port_io::LogRack;
use txn_model::NoMemory;

/// Appends how many entries there are, and the line of each. After `NoMemory` a part of that may have
/// been appended.
#[tactic(auto, unfolding(crate::specs::ReportText::history_text))]
pub(crate) fn push_history(text: &mut String, history: &History) -> Result<(), NoMemory>
    ensures { OnOk result (string_bytes text.new
        ≡ string_bytes text.old ++ history_text (map (λ e. e.entry) history.now.items)) }
{
    push_count(text, "history", history.count() as usize)?;
    for entry in history.walk() {
        push_entry(text, entry)?;
    }
    Ok(())
}

/// Appends how many tuples the session has, and the line of each with its value now. After `NoMemory` a
/// part of that may have been appended.
#[tactic(auto, unfolding(crate::specs::ReportText::tuples_text))]
pub(crate) fn push_tuples<L: LogRack, N: RunName>(
    text: &mut String,
    world: &World<L, N>,
) -> Result<(), NoMemory>
    ensures { OnOk result (string_bytes text.new
        ≡ string_bytes text.old ++ tuples_text (tuples_told world.now.plan (state_in world.now))) }
{
    let rows = world.session().tuples.rows();
    push_count(text, "tuples", rows.len())?;
    for (tuple, _) in rows {
        push_tuple(text, *tuple, world.tuple_now(*tuple))?;
    }
    Ok(())
}
