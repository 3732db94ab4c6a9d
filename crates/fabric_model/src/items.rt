//! Laws on the items of the clients: which locks they are refused, where their entries stand, and how they
//! end.

ghost use Rattle.std.specs.Prelude.{◌≡◌, List, Some};
ghost use Rattle.std.specs.List.{AllByRecursion};
ghost use Rattle.catalogue.specs.Plan.{Plan};
ghost use Rattle.catalogue.specs.declared.actor.Actor.{Actor};
ghost use Rattle.fabric_model.specs.Asking.{IsTrue, IsOnHost, HotAreNotRefused};
ghost use Rattle.fabric_model.specs.Ends.{HasEnds};
ghost use Rattle.fabric_model.specs.Fixed.{HasStampsAbove};
ghost use Rattle.fabric_model.specs.Laws.{IsReached, HasItemsInOrder, HasRisingStamps, AnswersStand};
ghost use Rattle.fabric_model.specs.Run.{state_of};
ghost use Rattle.fabric_model.specs.State.{State};
ghost use Rattle.fabric_model.specs.Step.{step};

/// Each refusal of a lock is true: behind as many moves as it says, its client was at that item and asked
/// for a lock on that tuple, and the holder was the least other client whose lock stood in the way. This
/// holds of each plan and each list of moves.
pub fn refusals_are_true()
    ensures { (plan : Plan) (trace : List Actor) (s : State) → state_of plan trace ≡ Some s
        → AllByRecursion (IsTrue plan trace) s.refusals }
{}

/// Each refused lock was for an operation on a tuple of a host. So a script with all its operations in the
/// switch is never refused a lock, and never aborted.
pub fn hot_ones_are_never_refused()
    ensures hosts { (plan : Plan) (trace : List Actor) (s : State) → state_of plan trace ≡ Some s
        → AllByRecursion (IsOnHost plan) s.refusals }
    ensures hot { (plan : Plan) (trace : List Actor) (s : State) → state_of plan trace ≡ Some s
        → HotAreNotRefused plan s }
{}

/// At any time, each client's entries stand in its own order, each of its items has at most one, and no
/// item behind its present one has any. The present one has one only while its client waits for an answer
/// or installs values. Of two entries of one client the one with the lower number has the lower stamp.
pub fn items_are_in_order()
    ensures order { (plan : Plan) (s : State) → IsReached plan s → HasItemsInOrder s }
    ensures stamps { (plan : Plan) (s : State) → IsReached plan s → HasRisingStamps s }
{}

/// The stamp of each entry was fixed by a move of the trace. In the state before that move it was above its
/// client's last stamp and above each stamp that was noted with a lock which the client then held.
pub fn stamps_stand_above()
    ensures { (plan : Plan) (s : State) (reached : IsReached plan s) → HasStampsAbove plan reached.trace s }
{}

/// Each transaction before a client's present item is committed, and so has an answered entry, or it is
/// aborted: each of its tries was refused a lock, and it has no entry. Each item there that loses the switch
/// has ended as lost.
pub fn items_end()
    ensures { (plan : Plan) (s : State) → IsReached plan s → HasEnds plan s }
{}

/// No move changes an answered entry, or takes it away, neither a loss of the switch nor its recovery.
pub fn answered_entries_stand()
    ensures { (plan : Plan) (s next : State) (actor : Actor) → IsReached plan s → step plan s actor ≡ Some next
        → AnswersStand s.history next.history }
{}
