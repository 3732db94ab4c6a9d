//! Sets of operation numbers.

ghost use Rattle.std.specs.Prelude.{◌≡◌, ℕ, ◌<◌, ◌^◌, ◌||◌, ◌==◌, ◌↔◌, IsTrue};

/// A set of operation numbers below 32: number k is in it where bit k is set.
#[derive(Clone, Copy, Debug, PartialEq, Eq)]
pub struct OpSet(pub u32);

impl OpSet {
    ghost use Rattle.warm_split.specs.OpSet.{contains};

    /// The set without numbers.
    pub const EMPTY: OpSet = OpSet(0);

    /// Whether the number is in the set.
    pub fn has(self, op: u8) -> bool
        ensures { result ≡ contains self op }
    {
        op < 32 && self.0 >> op & 1 == 1
    }

    /// The set with this number in it.
    pub fn with(self, op: u8) -> OpSet
        requires { op < 32 }
        ensures { (k : ℕ) → contains result k ≡ (k == op || contains self k) }
    {
        OpSet(self.0 | 1 << op)
    }

    /// What is in one of the sets.
    pub fn or(self, other: OpSet) -> OpSet
        ensures { (k : ℕ) → contains result k ≡ (contains self k || contains other k) }
    {
        OpSet(self.0 | other.0)
    }

    /// Whether nothing is in the set.
    pub fn is_empty(self) -> bool
        ensures { IsTrue result ↔ (self.0 ≡ 0) }
    {
        self.0 == 0
    }
}
