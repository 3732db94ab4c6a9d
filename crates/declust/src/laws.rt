//! A law of layouts, over the definitions alone.

ghost use Rattle.declust.specs.Laws.{GreedyLayoutsAreOne};

/// A list of tuples has one greedy layout.
pub fn greedy_layouts_are_one()
    ensures { GreedyLayoutsAreOne }
{}
