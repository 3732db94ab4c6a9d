//! The text of the most used tuples.

ghost use Rattle.std.specs.Prelude.{◌≡◌, ◌++◌, IfOk, OnOk, string_bytes};
ghost use Rattle.std.specs.List.{flat_map};
ghost use Rattle.list_text.specs.HotText as definition;
ghost use Rattle.list_text.specs.HotText.{row_line};

use hot_set::{HotList, HotRow};
use std::alloc::Global;
use txn_model::NoMemory;

/// The text of a list of tuples with their uses: a line with their number, and a line for each.
#[tactic(auto, unfolding(crate::specs::HotText::hot_text))]
pub fn hot_text(alloc: Global, hot: &HotList) -> Result<String, NoMemory>
    ensures { IfOk result (λ text. string_bytes text ≡ definition.hot_text hot.now.items) }
{
    let mut text = String::new(alloc);
    let count = hot.len();
    write!(text, "hot {count}\n")?;
    push_rows(&mut text, hot.as_slice())?;
    Ok(text)
}

fn push_rows(text: &mut String, rows: &[HotRow]) -> Result<(), NoMemory>
    ensures { OnOk result (string_bytes text.new ≡ string_bytes text.old ++ flat_map row_line rows.now) }
{
    for row in rows {
        push_row(text, row)?;
    }
    Ok(())
}

#[tactic(auto, unfolding(crate::specs::HotText::row_line))]
fn push_row(text: &mut String, row: &HotRow) -> Result<(), NoMemory>
    ensures { OnOk result (string_bytes text.new ≡ string_bytes text.old ++ row_line row.now) }
{
    let id = row.tuple.0;
    let uses = row.uses;
    write!(text, "t{id} {uses}\n")?;
    Ok(())
}
