//! A law on the room that a session takes.

ghost use Rattle.catalogue.specs.Plan.{Plan};
ghost use Rattle.fabric_model.specs.Laws.{IsReached};
ghost use Rattle.fabric_model.specs.Room.{FitsRoom};
ghost use Rattle.fabric_model.specs.State.{State};

/// At any time there are no more entries and no more packets than items, no more intents and no more
/// outcomes of a client than it has items, no more refusals than tries of items, and no more moves than the
/// session's bound. The number of each stamp is no greater than there are items, and its sub no greater than
/// the moves so far.
pub fn room_is_enough()
    ensures { (plan : Plan) (s : State) → IsReached plan s → FitsRoom plan s }
{}
