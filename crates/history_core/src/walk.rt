//! Walks over a history in stamp order.

ghost use Rattle.std.specs.Prelude.{◌≡◌, ◌<◌, ◌≤◌, false, [], ◌∷◌, length, map, MatchOption, IfSome};
ghost use Rattle.std.specs.Iterator.{YieldsFirstBy, YieldsFirstRef, item_count, IsFinite, size, UpTo};
ghost use Rattle.std.specs.Iterator.SizeHint.{IsWithinCount};
ghost use Rattle.std.specs.Option.{option_map};
ghost use Rattle.history_core.specs.Cursors.{left_of, earlier_of, IsFirst};
ghost use Rattle.history_core.specs.Merge.{AreOwn, all_entries};
ghost use Rattle.history_core.specs.Own.{plain_kept};

use crate::own_entries::{Kept, OwnEntries};
use history_model::Entry;
use std::iter::ExactSizeIterator;
use std::marker::Model;

/// The entries of a history that are left, in stamp order. It gives one after another, and then None for
/// good, and knows how many it still gives.
///
/// It takes no memory: the clients' lists are merged as it goes, by where it stands in each.
#[derive(Drop)]
pub struct Walk<'a> {
    owns: &'a [OwnEntries],
    /// How many entries of each list were given.
    given: [usize; 8],
    left: usize,
}

impl<'a> Model for Walk<'a> {
    ghost use Rattle.history_model.specs.History.{History};
    ghost use Rattle.std.specs.Coded.{coded_list};
    ghost use Rattle.history_core.specs.Recorded.{coded_entry};

    ghost Value = { History };

    ghost coded = { coded_list coded_entry };

    ghost use Rattle.history_core.specs.Cursors.{left_of, IsWalk};

    ghost view = { λ a. left_of a.owns.now a.given };

    ghost invariant = { λ a. IsWalk a.owns.now a.given a.left };
}

impl<'a> Walk<'a> {
    /// A walk over the entries of all lists, of which there are this many.
    pub(crate) fn over(owns: &'a [OwnEntries], left: usize) -> Walk<'a>
        requires lists { AreOwn owns.now }
        requires many { left ≡ length (all_entries owns.now) }
        ensures { result ≡ all_entries owns.now }
    {
        Walk {
            owns,
            given: [0; 8],
            left,
        }
    }

    /// The next entry with its reply; None exactly where none is left.
    pub(crate) fn next_kept(&mut self) -> Option<&'a Kept>
        ensures { YieldsFirstBy (λ kept. plain_kept kept.now) (λ left. left) self.old result self.new }
    {
        let (client, kept) = first(self.owns, &self.given)?;
        self.given[client] += 1;
        self.left -= 1;
        Some(kept)
    }
}

impl<'a> Iterator for Walk<'a> {
    type Item = &'a Entry;

    ghost next_gives = { YieldsFirstRef (λ left. map (λ e. e.entry) left) };

    ghost remaining = { item_count (λ left. left) };

    fn next(&mut self) -> Option<&'a Entry> {
        let kept = self.next_kept()?;
        Some(&kept.entry)
    }

    fn size_hint(&self) -> (usize, Option<usize>) {
        (self.left, Some(self.left))
    }
}

impl<'a> ExactSizeIterator for Walk<'a> {
    fn len(&self) -> usize {
        self.left
    }
}

/// The list whose next entry stands before those of the others, and that entry; None exactly where all
/// entries were given.
fn first<'a>(owns: &'a [OwnEntries], given: &[usize; 8]) -> Option<(usize, &'a Kept)>
    requires { AreOwn owns.now }
    ensures { MatchOption result (left_of owns.now given.now ≡ []) (λ found. IsFirst owns.now given.now found.0 (plain_kept found.1.now)) }
{
    let mut first = None;
    for i in 0..owns.len() {
        first = earlier(first, i, owns[i].get(given[i]));
    }
    first
}

/// The one of both that stands before the other one; the first where they tie.
fn earlier<'a>(
    first: Option<(usize, &'a Kept)>,
    i: usize,
    next: Option<&'a Kept>,
) -> Option<(usize, &'a Kept)>
    ensures { option_map (λ x. (x.0, plain_kept x.1.now)) result ≡ earlier_of (option_map (λ x. (x.0, plain_kept x.1.now)) first.entry) i (option_map (λ kept. plain_kept kept.now) next.entry) }
{
    match (first, next) {
        (Some((at, kept)), Some(other)) => {
            if other.entry.stands_before(&kept.entry) {
                Some((i, other))
            } else {
                Some((at, kept))
            }
        }
        (None, Some(other)) => Some((i, other)),
        (first, None) => first,
    }
}
