//! Rows of tuples, ascending, and where a tuple's row stands among them.

ghost use Rattle.std.specs.Prelude.{◌≡◌, ◌<◌, IsTrue, MatchOption, HoldsAt, length, None};
ghost use Rattle.std.specs.declared.cmp.Ordering.TheVariants.{Equal};
ghost use Rattle.std.specs.FinMap.{find, is_sorted};
ghost use Rattle.txn_model.specs.Tuples.{tuple_cmp};

use crate::op::TupleId;

/// Whether each row's tuple is above the one before.
pub fn ascend<X>(rows: &[(TupleId, X)]) -> bool
    ensures { result ≡ is_sorted tuple_cmp rows.now }
{
    rows.is_sorted_by(|a, b| a.0.0 < b.0.0)
}

/// The place of the tuple's row; None where there is none. It takes logarithmic time, or one look where the
/// tuples are numbered without gaps, as they are in most sessions.
pub fn row_of<X>(rows: &[(TupleId, X)], tuple: TupleId) -> Option<usize>
    requires { IsTrue (is_sorted tuple_cmp rows.now) }
    ensures { MatchOption result (find tuple_cmp tuple rows.now ≡ None) (λ i. (i < length rows.now) × HoldsAt (λ row. tuple_cmp row.0 tuple ≡ Equal) rows.now i) }
{
    let guess = place_without_gaps(rows, tuple);
    match rows.get(guess) {
        Some(row) if row.0 == tuple => Some(guess),
        _ => rows.binary_search_by_key(&tuple.0, |row| row.0.0).ok(),
    }
}

/// Where the tuple's row would stand if no tuple were missing behind the first one.
fn place_without_gaps<X>(rows: &[(TupleId, X)], tuple: TupleId) -> usize {
    match rows.first() {
        Some(first) => tuple.0.wrapping_sub(first.0.0) as usize,
        None => 0,
    }
}
