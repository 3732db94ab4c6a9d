//! Laws of pass plans, over the definitions alone.

ghost use Rattle.stage_layout.specs.PlanLaws.{PassesAreLeast, PlansAreInOrder};

/// The passes of operations are the least ones, each behind those of the operations before it, and no
/// others are.
pub fn passes_are_least()
    ensures { PassesAreLeast }
{}

/// What an operation needs was executed before it, two operations of one pass are on different register
/// arrays, and there are at most as many passes as operations.
pub fn plans_are_in_order()
    ensures { PlansAreInOrder }
{}
