//! Stamps as they stand to each other.

ghost use Rattle.std.specs.Prelude.{◌≡◌};
ghost use Rattle.history_model.specs.History.{greater};

use txn_model::Stamp;

/// The greater of two stamps, by number, then by sub.
pub fn greater(a: Stamp, b: Stamp) -> Stamp
    ensures { result ≡ greater a b }
{
    if a < b { b } else { a }
}
