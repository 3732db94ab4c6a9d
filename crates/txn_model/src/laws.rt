//! Laws on the values of tuples, each a function with an empty body whose contract is the law.

ghost use Rattle.std.specs.Prelude.{ℤ};
ghost use Rattle.txn_model.specs.Number.{wrap, IsInRange, IsCongruent};

/// A wrapped number is in the range of an `i64`, and differs from the number by a multiple of 2^64.
pub fn wraps_around()
    ensures range { (z : ℤ) → IsInRange (wrap z) }
    ensures congruent { (z : ℤ) → IsCongruent z (wrap z) }
{}
