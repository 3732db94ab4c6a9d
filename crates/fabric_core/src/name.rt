//! Names of runs.

ghost use Rattle.std.specs.Prelude.{ℕ, Bool};
ghost use Rattle.catalogue.specs.Plan.{Plan};

use std::marker::Brand;

/// Names a run in the type of its world: whatever became of a world, it is still a run of this session.
pub trait RunName {
    /// What is run.
    ghost session: { Plan };

    /// How many failures its rack of logs had counted when it began.
    ghost faults: { ℕ };

    /// Whether its rack kept what was appended when it began.
    ghost kept: { Bool };
}

impl RunName for Brand {
    ghost use Rattle.std.specs.Prelude.{false};
    ghost use Rattle.fabric_core.specs.Unnamed.{no_plan};

    // The proof of a call that passes this name picks what it stands for there.
    ghost session = { no_plan };

    ghost faults = { 0 };

    ghost kept = { false };
}
