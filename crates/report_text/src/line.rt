//! The other lines of a report: of entries, of tuples, of the schedule, and those that count lines.

ghost use Rattle.std.specs.Prelude.{◌≡◌, ◌<◌, ◌++◌, ◌∷◌, OnOk, string_bytes, codes, decimal};
ghost use Rattle.catalogue.specs.ActorWord.{actor_word};
ghost use Rattle.report_text.specs.Lines.{count_line, entry_line, tuple_line, schedule_line};

use catalogue::Actor;
use history_model::Entry;
use txn_model::{NoMemory, TupleId};

/// Appends the line that heads a section: its word, and how many lines follow. After `NoMemory` a part of
/// it may have been appended.
#[tactic(auto, unfolding(crate::specs::Lines::count_line))]
pub(crate) fn push_count(text: &mut String, word: &str, count: usize) -> Result<(), NoMemory>
    ensures { OnOk result (string_bytes text.new
        ≡ string_bytes text.old ++ count_line word.now count) }
{
    write!(text, "{word} {count}\n")?;
    Ok(())
}

/// Appends the line of an entry of the history. After `NoMemory` a part of it may have been appended.
#[tactic(auto, unfolding(crate::specs::Lines::entry_line))]
pub(crate) fn push_entry(text: &mut String, entry: &Entry) -> Result<(), NoMemory>
    ensures { OnOk result (string_bytes text.new ≡ string_bytes text.old ++ entry_line entry.now) }
{
    let number = entry.stamp.number;
    let sub = entry.stamp.sub;
    let client = entry.client;
    let seq = entry.seq;
    write!(text, "{number}.{sub} c{client} {seq}\n")?;
    Ok(())
}

/// Appends the line of a tuple and its final value. After `NoMemory` a part of it may have been appended.
#[tactic(auto, unfolding(crate::specs::Lines::tuple_line))]
pub(crate) fn push_tuple(text: &mut String, tuple: TupleId, value: i64) -> Result<(), NoMemory>
    ensures { OnOk result (string_bytes text.new
        ≡ string_bytes text.old ++ tuple_line (tuple, value)) }
{
    let id = tuple.0;
    write!(text, "t{id} {value}\n")?;
    Ok(())
}

/// Appends the schedule line: a word for each actor of the trace. After `NoMemory` a part of it may have
/// been appended.
#[tactic(auto, unfolding(crate::specs::Lines::schedule_line))]
pub(crate) fn push_schedule(text: &mut String, trace: &[Actor]) -> Result<(), NoMemory>
    ensures { OnOk result (string_bytes text.new
        ≡ string_bytes text.old ++ schedule_line trace.now) }
{
    text.push_str("schedule")?;
    for actor in trace {
        push_actor(text, *actor)?;
    }
    text.push_str("\n")?;
    Ok(())
}

/// Appends a space and the actor's word.
fn push_actor(text: &mut String, actor: Actor) -> Result<(), NoMemory>
    ensures { OnOk result (string_bytes text.new
        ≡ string_bytes text.old ++ (codes " " ++ actor_word actor)) }
{
    match actor {
        Actor::Client(client) => push_numbered(text, 'c', client)?,
        Actor::Port(client) => push_numbered(text, 'p', client)?,
        Actor::Stage(stage) => push_numbered(text, 's', stage)?,
        Actor::Recover => text.push_str(" r")?,
    }
    Ok(())
}

/// Appends a space, the letter and the number. A trace has such a word for each move, so that a number of
/// one digit is not formatted.
fn push_numbered(text: &mut String, letter: char, number: u8) -> Result<(), NoMemory>
    requires ascii { letter < 128 }
    ensures { OnOk result (string_bytes text.new
        ≡ string_bytes text.old ++ (codes " " ++ letter ∷ decimal number)) }
{
    text.push(' ')?;
    text.push(letter)?;
    if number < 10 {
        text.push(char::from(b'0' + number))?;
    } else {
        write!(text, "{number}")?;
    }
    Ok(())
}
