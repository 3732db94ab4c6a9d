//! The shape of a switch and of the hosts beside it.

ghost use Rattle.std.specs.Prelude.{◌≡◌};

use txn_model::Place;

/// The most stages of a switch.
pub const MOST_STAGES: u8 = 12;

/// The most register arrays of a stage.
pub const MOST_ARRAYS: u8 = 4;

/// The most cells of a register array.
pub const MOST_CELLS: u16 = 4096;

/// The most hosts.
pub const MOST_HOSTS: u8 = 8;

/// How large a switch is, and how many hosts there are.
#[derive(Clone, Copy, Debug, PartialEq, Eq)]
pub struct Shape {
    /// Stages of the switch: 1 to 12.
    pub stages: u8,
    /// Register arrays of each stage: 1 to 4.
    pub arrays: u8,
    /// Cells of each register array: 1 to 4,096.
    pub cells: u16,
    /// The left half is the stages below it: 0 to the number of stages.
    pub split: u8,
    /// Hosts: 1 to 8.
    pub hosts: u8,
}

impl Shape {
    ghost use Rattle.stage_layout.specs.Shape.{has_place};
    ghost use Rattle.stage_layout.specs.Regions.{region_of};

    /// Whether the place is one of the switch.
    pub fn has(&self, place: Place) -> bool
        ensures { result ≡ has_place self.now place }
    {
        place.stage < self.stages && place.array < self.arrays && place.cell < self.cells
    }

    /// The region of a stage: 0 for the left half, 1 for the right one.
    pub fn region(&self, stage: u8) -> u8
        ensures { result ≡ region_of self.now stage }
    {
        u8::from(stage >= self.split)
    }
}
