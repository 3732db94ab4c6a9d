//! The texts of records, put into a buffer that has room for them.

ghost use Rattle.std.specs.Prelude.{◌≡◌, ◌≤◌, length, vec_capacity};
ghost use Rattle.std.specs.List.{flat_map};
ghost use Rattle.switch_packet.specs.Packets.{plain, plain_intent, plain_outcome};
ghost use Rattle.switch_packet.specs.Ranges.{Fits};
ghost use Rattle.switch_packet.specs.Writing.{HasRoom, Adds};
ghost use Rattle.intent_log.specs.LogText.{intent_text, pair_text, outcome_text};
ghost use Rattle.intent_log.specs.Records.{HasPairs};

use switch_packet::{Intent, Outcome, encode_into, push_bytes, push_i64, push_u32, push_u64};
use txn_model::{Pair, Pairs};

/// The first byte of an intent: `I`.
pub(crate) const INTENT_MARK: u8 = 0x49;
/// The first byte of an outcome: `O`.
pub(crate) const OUTCOME_MARK: u8 = 0x4f;
/// The second byte of each: which version of the format it is.
pub(crate) const VERSION: u8 = 1;

/// Puts the intent's text into `buf`, in place of what it held.
#[tactic(auto, unfolding(crate::specs::LogText::intent_text))]
pub(crate) fn encode_intent(intent: &Intent, buf: &mut Vec<u8>)
    requires fits { Fits (plain intent.now.packet) }
    requires room { length (intent_text (plain_intent intent.now)) ≤ vec_capacity buf.old }
    ensures text { buf.new.items ≡ intent_text (plain_intent intent.now) }
    ensures room { vec_capacity buf.new ≡ vec_capacity buf.old }
{
    buf.clear();
    push_bytes(buf, &[INTENT_MARK, VERSION, 0, 0]);
    push_u64(buf, intent.floor);
    encode_into(&intent.packet, buf);
}

/// Puts the outcome's text into `buf`, in place of what it held.
#[tactic(auto, unfolding(crate::specs::LogText::outcome_text))]
pub(crate) fn encode_outcome(outcome: &Outcome, buf: &mut Vec<u8>)
    requires pairs { HasPairs (plain_outcome outcome.now) }
    requires room { length (outcome_text (plain_outcome outcome.now)) ≤ vec_capacity buf.old }
    ensures text { buf.new.items ≡ outcome_text (plain_outcome outcome.now) }
    ensures room { vec_capacity buf.new ≡ vec_capacity buf.old }
{
    buf.clear();
    push_bytes(buf, &[OUTCOME_MARK, VERSION, outcome.pairs.len(), 0]);
    push_u32(buf, outcome.seq);
    push_u64(buf, outcome.number);
    push_pairs(buf, &outcome.pairs);
}

fn push_pairs(to: &mut Vec<u8>, pairs: &Pairs)
    requires { HasRoom to.old (length (flat_map pair_text pairs.now.items)) }
    ensures { Adds to.old to.new (flat_map pair_text pairs.now.items) }
{
    for pair in pairs.as_slice() {
        push_pair(to, *pair);
    }
}

#[tactic(auto, unfolding(crate::specs::LogText::pair_text))]
fn push_pair(to: &mut Vec<u8>, pair: Pair)
    requires { HasRoom to.old (length (pair_text pair)) }
    ensures { Adds to.old to.new (pair_text pair) }
{
    push_i64(to, pair.was);
    push_i64(to, pair.now);
}
