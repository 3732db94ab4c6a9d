//! Tuples, and the operations of a script: an act on one tuple, and what it needs of earlier operations.

ghost use Rattle.std.specs.Prelude.{◌≡◌, ◌<◌, ◌≤◌, [], ◌∷◌, ◌++◌, length, slice_get, Some, IsTrue, ◌↔◌};

/// The name of a tuple.
#[derive(Clone, Copy, Debug, PartialEq, Eq, PartialOrd, Ord)]
pub struct TupleId(pub u32);

/// Which part of an earlier operation's reply is needed.
#[derive(Clone, Copy, Debug, PartialEq, Eq)]
pub enum Which {
    /// The value that it found.
    Old,
    /// The value that it found less the one that it left, wrapped.
    Moved,
}

/// What an operation needs of an earlier one of the same script.
#[derive(Clone, Copy, Debug, PartialEq, Eq)]
pub struct Need {
    /// The number of the earlier operation, counted from 0.
    pub from: u8,
    pub which: Which,
}

/// A list of at most four needs. Equal lists are equal values.
#[derive(Clone, Copy, Debug, PartialEq, Eq)]
pub struct Needs(Form);

/// Each list of needs has one form.
#[derive(Clone, Copy, Debug, PartialEq, Eq)]
enum Form {
    Zero,
    One(Need),
    Two(Need, Need),
    Three(Need, Need, Need),
    Four(Need, Need, Need, Need),
}

impl Needs {
    ghost use Rattle.txn_model.specs.Needs.{needs_list};

    /// No needs.
    pub fn none() -> Needs
        ensures { needs_list result ≡ [] }
    {
        Needs(Form::Zero)
    }

    /// These needs, in their order.
    pub fn of(list: &[Need]) -> Needs
        requires { length list.now ≤ 4 }
        ensures { needs_list result ≡ list.now }
    {
        Needs(match *list {
            [] => Form::Zero,
            [a] => Form::One(a),
            [a, b] => Form::Two(a, b),
            [a, b, c] => Form::Three(a, b, c),
            [a, b, c, d] => Form::Four(a, b, c, d),
            _ => unreachable!(),
        })
    }

    /// Adds one need at the end.
    pub fn push(&mut self, need: Need)
        requires { length (needs_list self.old) < 4 }
        ensures { needs_list self.new ≡ needs_list self.old ++ need ∷ [] }
    {
        self.0 = match self.0 {
            Form::Zero => Form::One(need),
            Form::One(a) => Form::Two(a, need),
            Form::Two(a, b) => Form::Three(a, b, need),
            Form::Three(a, b, c) => Form::Four(a, b, c, need),
            Form::Four(..) => unreachable!(),
        };
    }

    /// How many needs there are: 0 to 4.
    pub fn len(&self) -> u8
        ensures value { result ≡ length (needs_list self.now) }
        ensures bound { result ≤ 4 }
    {
        match self.0 {
            Form::Zero => 0,
            Form::One(..) => 1,
            Form::Two(..) => 2,
            Form::Three(..) => 3,
            Form::Four(..) => 4,
        }
    }

    /// Whether there are none.
    pub fn is_empty(&self) -> bool
        ensures { IsTrue result ↔ (needs_list self.now ≡ []) }
    {
        matches!(self.0, Form::Zero)
    }

    /// The need at a place, counted from 0.
    pub fn get(&self, i: u8) -> Need
        requires { i < length (needs_list self.now) }
        ensures { slice_get (needs_list self.now) i ≡ Some result }
    {
        match (self.0, i) {
            (Form::One(a) | Form::Two(a, _) | Form::Three(a, _, _) | Form::Four(a, _, _, _), 0) =>
                a,
            (Form::Two(_, b) | Form::Three(_, b, _) | Form::Four(_, b, _, _), 1) => b,
            (Form::Three(_, _, c) | Form::Four(_, _, c, _), 2) => c,
            (Form::Four(_, _, _, d), 3) => d,
            _ => unreachable!(),
        }
    }
}

/// What an operation does to its tuple. All arithmetic is modulo 2^64.
#[derive(Clone, Copy, Debug, PartialEq, Eq)]
pub enum Act {
    /// Leaves the value as it is.
    Read,
    /// Leaves the base and the operand, added.
    Put { base: i64 },
    /// Adds the base and the operand to the value.
    Add { base: i64 },
    /// Adds `above` where the value and the operand together are at least `limit`, else `below`.
    Choose { limit: i64, above: i64, below: i64 },
}

/// One operation of a script.
#[derive(Clone, Copy, Debug, PartialEq, Eq)]
pub struct Op {
    pub tuple: TupleId,
    pub act: Act,
    /// What its operand is made of; a read has none.
    pub needs: Needs,
}
