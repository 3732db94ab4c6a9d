//! Actor words: `r`, or a letter and a number.

ghost use Rattle.std.specs.Prelude.{◌≡◌, ◌<◌, length};
ghost use Rattle.catalogue.specs.PlanOf.{plan_of};
ghost use Rattle.schedule.specs.Words.{actor_of, below, number_of, read_digits, NamesByWord};

use catalogue::{Actor, Session};

/// The actor of the session that the word names: `c` and a client, `p` and the client of a port, `s`
/// and a stage, each with its decimal number without leading zeros, or `r`. None exactly where the word
/// names no actor of the session.
pub fn actor_of(word: &[u8], session: &Session) -> Option<Actor>
    ensures { result ≡ actor_of (plan_of session.now) word.now }
{
    let (&kind, digits) = word.split_first()?;
    match kind {
        b'c' => Some(Actor::Client(number_below(digits, session.clients())?)),
        b'p' => Some(Actor::Port(number_below(digits, session.clients())?)),
        b's' => Some(Actor::Stage(number_below(digits, session.shape.stages)?)),
        b'r' if digits.is_empty() => Some(Actor::Recover),
        _ => None,
    }
}

/// The number that the digits write, where it is below the limit.
fn number_below(digits: &[u8], limit: u8) -> Option<u8>
    ensures { result ≡ below limit (number_of digits.now) }
{
    match digits {
        [] | [b'0', _, ..] => None,
        _ => read_below(digits, limit),
    }
}

fn read_below(digits: &[u8], limit: u8) -> Option<u8>
    requires { 0 < length digits.now }
    ensures { result ≡ below limit (read_digits 0 digits.now) }
{
    let limit = u16::from(limit);
    let mut number = 0u16;
    for &digit in digits {
        if !digit.is_ascii_digit() {
            return None;
        }
        number = 10 * number + u16::from(digit - b'0');
        if number >= limit {
            return None;
        }
    }
    Some(number as u8)
}

/// A word names exactly the actor of the session whose word it is: no two words name one actor.
pub fn words_name_actors()
    ensures { NamesByWord }
{}
