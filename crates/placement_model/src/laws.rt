//! Laws of placements, each a function with an empty body whose contract is the law.

ghost use Rattle.placement_model.specs.Laws.{FirstOrderIsFirst, NoOrderIsNoPlacement};

/// The first order, as a function, is the first placement. Where it is none, there is no placement. This holds of
/// logs of which each has at most one intent without an outcome.
pub fn first_order_is_first()
    ensures first { FirstOrderIsFirst }
    ensures none { NoOrderIsNoPlacement }
{}
