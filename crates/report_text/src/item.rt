//! The lines of items: one for each way in which an item ends.

ghost use Rattle.std.specs.Prelude.{◌≡◌, ◌++◌, OnOk, string_bytes};
ghost use Rattle.report_text.specs.Report.{Committed, Aborted, Lost};
ghost use Rattle.report_text.specs.Words.{kind_word, pairs_text};
ghost use Rattle.report_text.specs.Lines.{item_line};

use catalogue::Kind;
use txn_model::{NoMemory, Pair, Stamp, TupleId};

/// Appends the line of an item that was answered with these pairs. After `NoMemory` a part of it may
/// have been appended.
#[tactic(auto, unfolding(crate::specs::Lines::item_line))]
pub(crate) fn push_committed(
    text: &mut String,
    client: u8,
    seq: u32,
    kind: Kind,
    stamp: Stamp,
    pairs: &[Pair],
) -> Result<(), NoMemory>
    ensures { OnOk result (string_bytes text.new ≡ string_bytes text.old
        ++ item_line (record { client = client; seq = seq; end = Committed kind stamp pairs.now })) }
{
    let word = kind_word(kind);
    let number = stamp.number;
    let sub = stamp.sub;
    write!(text, "c{client} {seq} {word} {number}.{sub}")?;
    push_pairs(text, pairs)?;
    text.push_str("\n")?;
    Ok(())
}

/// Appends the line of an item that was given up after this refusal: the tuple, the client that held it,
/// and the place in the trace, counted from 0. After `NoMemory` a part of it may have been appended.
#[tactic(auto, unfolding(crate::specs::Lines::item_line))]
pub(crate) fn push_aborted(
    text: &mut String,
    client: u8,
    seq: u32,
    tuple: TupleId,
    holder: u8,
    at: u32,
) -> Result<(), NoMemory>
    ensures { OnOk result (string_bytes text.new ≡ string_bytes text.old
        ++ item_line (record { client = client; seq = seq; end = Aborted tuple holder at })) }
{
    let id = tuple.0;
    write!(text, "c{client} {seq} abort t{id} c{holder} @{at}\n")?;
    Ok(())
}

/// Appends the line of an item that was the loss of the switch. After `NoMemory` a part of it may have
/// been appended.
#[tactic(auto, unfolding(crate::specs::Lines::item_line))]
pub(crate) fn push_lost(text: &mut String, client: u8, seq: u32) -> Result<(), NoMemory>
    ensures { OnOk result (string_bytes text.new ≡ string_bytes text.old
        ++ item_line (record { client = client; seq = seq; end = Lost })) }
{
    write!(text, "c{client} {seq} lose\n")?;
    Ok(())
}

/// Appends each pair after a space. After `NoMemory` a part of that may have been appended.
pub(crate) fn push_pairs(text: &mut String, pairs: &[Pair]) -> Result<(), NoMemory>
    ensures { OnOk result (string_bytes text.new ≡ string_bytes text.old ++ pairs_text pairs.now) }
{
    for pair in pairs {
        let was = pair.was;
        let now = pair.now;
        write!(text, " {was}>{now}")?;
    }
    Ok(())
}

fn kind_word(kind: Kind) -> &'static str
    ensures { result.now ≡ kind_word kind }
{
    match kind {
        Kind::Hot => "hot",
        Kind::Warm => "warm",
        Kind::Cold => "cold",
    }
}
