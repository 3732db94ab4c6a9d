//! Laws on how many moves a run takes, and on driven runs: the listed actors are taken in order, and then
//! the rota again and again until all have finished.

ghost use Rattle.std.specs.Prelude.{◌≡◌, ◌≤◌, ◌↔◌, true, false, length, List, ◌++◌, Some};
ghost use Rattle.catalogue.specs.Plan.{Plan};
ghost use Rattle.catalogue.specs.Sound.{IsSound};
ghost use Rattle.catalogue.specs.declared.actor.Actor.{Actor};
ghost use Rattle.fabric_model.specs.Bound.{move_bound};
ghost use Rattle.fabric_model.specs.Driven.{IsFinished, Finishes, TakesInTurn, IsRound};
ghost use Rattle.fabric_model.specs.Laws.{IsReached, IsBounded, SomeoneCanMove};
ghost use Rattle.fabric_model.specs.Rota.{all_finished};
ghost use Rattle.fabric_model.specs.Run.{opening, state_behind, state_of};
ghost use Rattle.fabric_model.specs.State.{State};

/// A sound session has no more than 4,096 items of 16 tries of 16 operations, and a switch of 12 stages, and
/// so no more than 2,039,808 moves. A state counts those that were made.
pub fn bounds_are_small()
    ensures bound { (plan : Plan) → IsSound plan → move_bound plan ≤ 2039808 }
    ensures counted { (plan : Plan) (trace : List Actor) (s : State) → state_of plan trace ≡ Some s → s.moves ≡ length trace }
{}

/// The moves that were made, with those that are left at most, are no more than the session's bound: each
/// move leaves fewer. A loss of the switch counts two, its own and that of the recovery.
pub fn moves_are_bounded()
    ensures { (plan : Plan) (s : State) → IsReached plan s → IsBounded plan s }
{}

/// One of the session's actors can move until all clients have finished and the switch is up. A lost switch
/// can be rebuilt, since the clients' logs have a placement.
pub fn someone_can_move()
    ensures { (plan : Plan) (s : State) → IsReached plan s → all_finished s ≡ false → SomeoneCanMove plan s }
{}

/// The driven trace of a session finishes, and so does every run that is driven on from a state which a
/// session reaches, whatever actors are taken first.
pub fn driven_runs_finish()
    ensures finishes { (plan : Plan) (s : State) (actors : List Actor) → IsReached plan s → Finishes plan s actors }
    ensures sessions { (plan : Plan) (actors : List Actor) → IsSound plan → Finishes plan (opening plan) actors }
    ensures test { (s : State) → (all_finished s ≡ true) ↔ IsFinished s }
{}

/// A run is made of parts: the moves of some actors, then those of the actors that follow, from the state
/// that the first ones left. Where all have finished none moves. A driven run is made of rounds, one rota
/// each, and each leaves fewer moves than the one before.
pub fn rounds_make_a_run()
    ensures turns { (plan : Plan) (s : State) (actors : List Actor) → TakesInTurn plan s actors }
    ensures rounds { (plan : Plan) (s : State) → IsReached plan s → all_finished s ≡ false → IsRound plan s }
    ensures traces { (plan : Plan) (trace more : List Actor) (s : State) → state_of plan trace ≡ Some s
        → state_of plan (trace ++ more) ≡ state_behind plan s more }
{}
