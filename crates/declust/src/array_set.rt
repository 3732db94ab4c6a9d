//! Sets of register arrays.

ghost use Rattle.std.specs.Prelude.{◌≡◌, ℕ, ◌<◌, ◌||◌, ◌==◌};

/// A set of register arrays: array k is in it where bit k is set. A switch has at most 48 of them.
#[derive(Clone, Copy)]
pub(crate) struct ArraySet(u64);

impl ArraySet {
    ghost use Rattle.std.specs.Prelude.{false};
    ghost use Rattle.declust.specs.ArraySet.{contains};

    /// The set without arrays.
    pub(crate) const EMPTY: ArraySet = ArraySet(0);

    /// Whether the array is in the set.
    pub(crate) fn has(self, array: u8) -> bool
        requires { array < 64 }
        ensures { result ≡ contains self array }
    {
        self.0 >> array & 1 == 1
    }

    /// The set with this array in it.
    pub(crate) fn with(self, array: u8) -> ArraySet
        requires { array < 64 }
        ensures { (k : ℕ) → contains result k ≡ (k == array || contains self k) }
    {
        ArraySet(self.0 | 1 << array)
    }
}
