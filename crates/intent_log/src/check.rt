//! Comparing a log with what it should say.

ghost use Rattle.std.specs.Prelude.{◌≡◌, ◌≢◌, ℕ, ◌+◌, ◌*◌, ◌<◌, ◌≤◌, ◌^◌, length, take, drop, false, map, slice_get, IfSome, IsNone, IsErrOf, IsTrue, vec_capacity};
ghost use Rattle.std.specs.Option.{option_map};
ghost use Rattle.port_io.specs.Cause.{HasCause};
ghost use Rattle.port_io.specs.LogRack.{AllStay};
ghost use Rattle.switch_packet.specs.Packets.{plain, plain_log, plain_intent, plain_outcome};
ghost use Rattle.switch_packet.specs.Ranges.{Fits};
ghost use Rattle.intent_log.specs.Ahead.{IsPieceOf};
ghost use Rattle.intent_log.specs.Checking.{GoesOn, EndsAt, text_if};
ghost use Rattle.intent_log.specs.LogText.{intent_text, outcome_text, log_text};
ghost use Rattle.intent_log.specs.Records.{HasPairs};
ghost use Rattle.intent_log.specs.Told.{DifferAt, HasChecked, CanBeWritten, TextsFit};

use crate::ahead::Ahead;
use crate::encode::{encode_intent, encode_outcome};
use crate::fault::CheckFault;
use port_io::LogRack;
use switch_packet::{Intent, LogView, Outcome, Outcomes};

/// Compares a client's log with the text of what it should say, in pieces.
///
/// `want` can be written, as what any log says can, and `buf` has room for the text of each of its records;
/// what `buf` holds afterwards is left open. `Failed` comes only where the rack's count of failures rose, and
/// `Changed` exactly where the log differs, with the first place. It takes no memory. The rack tells the logs
/// that it told before.
pub fn check_log<L: LogRack>(
    rack: &mut L,
    client: u8,
    want: &LogView,
    buf: &mut Vec<u8>,
) -> Result<(), CheckFault>
    requires client { client < 8 }
    requires written { CanBeWritten (plain_log want.now) }
    requires whole { want.now.torn ≡ false }
    requires room { TextsFit (plain_log want.now) (vec_capacity buf.old) }
    ensures checked { HasChecked (L.told rack.old client) (log_text (plain_log want.now)) result }
    ensures unchanged { AllStay (L.told rack.old) (L.told rack.new) }
    ensures keeps_on { IsTrue (L.keeps rack.old) → IsTrue (L.keeps rack.new) }
    ensures cause { HasCause (L.faults rack.old) (L.faults rack.new) (IsErrOf result CheckFault.Failed) }
    ensures buf { vec_capacity buf.new ≡ vec_capacity buf.old }
{
    let mut ahead = Ahead::nothing();
    let mut at = 0;
    for k in 0..want.intents.len() {
        at = check_intent(rack, client, at, want.intents.get(k), buf, &mut ahead)?;
        at = check_outcome(
            rack,
            client,
            at,
            outcome_at(&want.outcomes, k),
            buf,
            &mut ahead,
        )?;
    }
    check_end(rack, client, at, &mut ahead)
}

/// The outcome at a place, counted from 0, where there is one.
fn outcome_at(outcomes: &Outcomes, k: usize) -> Option<&Outcome>
    ensures { option_map (λ o. plain_outcome o.now) result ≡ slice_get (map plain_outcome outcomes.now.items) k }
{
    outcomes.as_slice().get(k)
}

/// Compares the bytes of a client's log from `at` on with an intent's text, and answers the place behind it.
fn check_intent<L: LogRack>(
    rack: &mut L,
    client: u8,
    at: usize,
    intent: &Intent,
    buf: &mut Vec<u8>,
    ahead: &mut Ahead,
) -> Result<usize, CheckFault>
    requires client { client < 8 }
    requires ahead { IsPieceOf (L.told rack.old client) ahead.old }
    requires intent { Fits (plain intent.now.packet) }
    requires fits { at + length (intent_text (plain_intent intent.now)) < 2 ^ 64 }
    requires room { length (intent_text (plain_intent intent.now)) ≤ vec_capacity buf.old }
    ensures goes_on { GoesOn (L.told rack.old client) at (intent_text (plain_intent intent.now)) result }
    ensures unchanged { AllStay (L.told rack.old) (L.told rack.new) }
    ensures keeps_on { IsTrue (L.keeps rack.old) → IsTrue (L.keeps rack.new) }
    ensures cause { HasCause (L.faults rack.old) (L.faults rack.new) (IsErrOf result CheckFault.Failed) }
    ensures buf { vec_capacity buf.new ≡ vec_capacity buf.old }
    ensures ahead { IsPieceOf (L.told rack.old client) ahead.new }
{
    encode_intent(intent, buf);
    check_text(rack, client, at, buf.as_slice(), ahead)
}

/// The same with an outcome's text, where there is an outcome.
fn check_outcome<L: LogRack>(
    rack: &mut L,
    client: u8,
    at: usize,
    outcome: Option<&Outcome>,
    buf: &mut Vec<u8>,
    ahead: &mut Ahead,
) -> Result<usize, CheckFault>
    requires client { client < 8 }
    requires ahead { IsPieceOf (L.told rack.old client) ahead.old }
    requires outcome { IfSome (option_map (λ o. plain_outcome o.now) outcome) HasPairs }
    requires fits { IfSome (option_map (λ o. plain_outcome o.now) outcome) (λ o. at + length (outcome_text o) < 2 ^ 64) }
    requires room { IfSome (option_map (λ o. plain_outcome o.now) outcome) (λ o. length (outcome_text o) ≤ vec_capacity buf.old) }
    ensures goes_on { GoesOn (L.told rack.old client) at (text_if (option_map (λ o. plain_outcome o.now) outcome.entry)) result }
    ensures unchanged { AllStay (L.told rack.old) (L.told rack.new) }
    ensures keeps_on { IsTrue (L.keeps rack.old) → IsTrue (L.keeps rack.new) }
    ensures cause { HasCause (L.faults rack.old) (L.faults rack.new) (IsErrOf result CheckFault.Failed) }
    ensures buf { vec_capacity buf.new ≡ vec_capacity buf.old }
    ensures ahead { IsPieceOf (L.told rack.old client) ahead.new }
{
    match outcome {
        None => Ok(at),
        Some(outcome) => {
            encode_outcome(outcome, buf);
            check_text(rack, client, at, buf.as_slice(), ahead)
        }
    }
}

/// The same with any text.
fn check_text<L: LogRack>(
    rack: &mut L,
    client: u8,
    at: usize,
    text: &[u8],
    ahead: &mut Ahead,
) -> Result<usize, CheckFault>
    requires client { client < 8 }
    requires ahead { IsPieceOf (L.told rack.old client) ahead.old }
    requires fits { at + length text.now < 2 ^ 64 }
    ensures goes_on { GoesOn (L.told rack.old client) at text.now result }
    ensures unchanged { AllStay (L.told rack.old) (L.told rack.new) }
    ensures keeps_on { IsTrue (L.keeps rack.old) → IsTrue (L.keeps rack.new) }
    ensures cause { HasCause (L.faults rack.old) (L.faults rack.new) (IsErrOf result CheckFault.Failed) }
    ensures ahead { IsPieceOf (L.told rack.old client) ahead.new }
{
    let mut done = 0;
    while done < text.len() {
        let place = at + done;
        ahead.reach(rack, client, place)?;
        let found = ahead.from(place, text.len() - done);
        if found.is_empty() {
            return Err(CheckFault::Changed(place as u64));
        }
        if let Some(i) = first_difference(found, text, done) {
            return Err(CheckFault::Changed((place + i) as u64));
        }
        done += found.len();
    }
    Ok(at + done)
}

/// The first place at which the bytes differ from those of the text from `done` on.
fn first_difference(found: &[u8], text: &[u8], done: usize) -> Option<usize>
    requires { done + length found.now ≤ length text.now }
    ensures none { IsNone result → take (length found.now) (drop done text.now) ≡ found.now }
    ensures some { IfSome result (λ i. (i < length found.now) × DifferAt found.now (drop done text.now) i) }
{
    for (i, byte) in found.iter().enumerate() {
        if *byte != text[done + i] {
            return Some(i);
        }
    }
    None
}

/// Looks whether a client's log ends at this place.
fn check_end<L: LogRack>(
    rack: &mut L,
    client: u8,
    at: usize,
    ahead: &mut Ahead,
) -> Result<(), CheckFault>
    requires client { client < 8 }
    requires ahead { IsPieceOf (L.told rack.old client) ahead.old }
    ensures ends { EndsAt (L.told rack.old client) at result }
    ensures unchanged { AllStay (L.told rack.old) (L.told rack.new) }
    ensures keeps_on { IsTrue (L.keeps rack.old) → IsTrue (L.keeps rack.new) }
    ensures cause { HasCause (L.faults rack.old) (L.faults rack.new) (IsErrOf result CheckFault.Failed) }
{
    ahead.reach(rack, client, at)?;
    if ahead.from(at, 1).is_empty() {
        Ok(())
    } else {
        Err(CheckFault::Changed(at as u64))
    }
}
