//! The text of a layout.

ghost use Rattle.std.specs.Prelude.{◌≡◌, ◌++◌, IfOk, OnOk, string_bytes};
ghost use Rattle.std.specs.List.{flat_map};
ghost use Rattle.list_text.specs.LayoutText as definition;
ghost use Rattle.list_text.specs.LayoutText.{place_line};

use declust::SpreadLayout;
use stage_layout::LayoutRow;
use std::alloc::Global;
use txn_model::NoMemory;

/// The text of a layout: a line with the number of its tuples, a line with the place of each, and a line with
/// the passes of all transactions.
#[tactic(auto, unfolding(crate::specs::LayoutText::layout_text))]
pub fn layout_text(alloc: Global, spread: &SpreadLayout) -> Result<String, NoMemory>
    ensures { IfOk result (λ text. string_bytes text ≡ definition.layout_text spread.now) }
{
    let mut text = String::new(alloc);
    let rows = spread.layout.as_slice();
    let count = rows.len();
    write!(text, "layout {count}\n")?;
    push_rows(&mut text, rows)?;
    let passes = spread.passes;
    let plain = spread.plain;
    write!(text, "passes {passes} plain {plain}\n")?;
    Ok(text)
}

fn push_rows(text: &mut String, rows: &[LayoutRow]) -> Result<(), NoMemory>
    ensures { OnOk result (string_bytes text.new ≡ string_bytes text.old ++ flat_map place_line rows.now) }
{
    for row in rows {
        push_row(text, row)?;
    }
    Ok(())
}

#[tactic(auto, unfolding(crate::specs::LayoutText::place_line))]
fn push_row(text: &mut String, row: &LayoutRow) -> Result<(), NoMemory>
    ensures { OnOk result (string_bytes text.new ≡ string_bytes text.old ++ place_line row.now) }
{
    let id = row.tuple.0;
    let stage = row.place.stage;
    let array = row.place.array;
    let cell = row.place.cell;
    write!(text, "t{id} {stage} {array} {cell}\n")?;
    Ok(())
}
