//! Laws on the locks of the tuples of hosts.

ghost use Rattle.std.specs.Prelude.{◌≡◌, ℕ, Some};
ghost use Rattle.catalogue.specs.Plan.{Plan};
ghost use Rattle.catalogue.specs.declared.actor.Actor.{Actor};
ghost use Rattle.fabric_model.specs.ColdChains.{HasColdChains};
ghost use Rattle.fabric_model.specs.Laws.{IsReached};
ghost use Rattle.fabric_model.specs.State.{State};
ghost use Rattle.fabric_model.specs.Step.{step};
ghost use Rattle.fabric_model.specs.TwoPhases.{KeepsLocks};

/// Each lock stands from the move that grants it to the move that installs its tuple or releases it in
/// aborting, and a client that has given a lock back takes none until it has given back all. So the locks of
/// a transaction with a packet stand while that is on its way.
pub fn locks_are_two_phase()
    ensures { (plan : Plan) (s next : State) (actor : Actor) → IsReached plan s → step plan s actor ≡ Some next
        → (c : ℕ) → KeepsLocks plan s next actor c }
{}

/// What ties the tuples of hosts, the locks on them and the history to each other. Two locks of two clients
/// on one tuple are both shared. The value that was noted with a lock is the stored one as long as the lock
/// stands, and the stamp is at least that of each past entry that changes the tuple; with an exclusive lock,
/// of each past entry. A tuple has the value that its last past entry left, and a stamp that is at least
/// that of each past entry. A client whose packet is in its log or on its way holds all its locks. An
/// answered entry of a tuple is past when its client gave back the lock that it took for it.
pub fn chains_are_cold()
    ensures { (plan : Plan) (s : State) → IsReached plan s → HasColdChains plan s }
{}
