//! Laws on the records of the clients' logs, and on the numbers of stamps.

ghost use Rattle.std.specs.Prelude.{◌≡◌, ℕ, Some};
ghost use Rattle.catalogue.specs.Plan.{Plan};
ghost use Rattle.catalogue.specs.declared.actor.Actor.{Actor};
ghost use Rattle.fabric_model.specs.Known.{HasKnownNumbers, HasLastStamps};
ghost use Rattle.fabric_model.specs.Laws.{IsReached, AllFinished};
ghost use Rattle.fabric_model.specs.Recorded.{HasRecords, IsAllAnswered, IsLonger};
ghost use Rattle.fabric_model.specs.State.{State, log_at};
ghost use Rattle.fabric_model.specs.Step.{step};

/// At any time, the k-th outcome of a client answers its k-th intent: it has the number and the pairs of that
/// item's packet in the switch and of its answered entry, and its number is above the intent's floor. Of a
/// client that has its packet in the log, or waits for the answer, the last intent has no outcome yet, and is
/// that of its present item; of the others each has one. A client's intents are in the order of its items.
/// Each answered entry of a transaction with a packet has its outcome.
pub fn records_answer_each_other()
    ensures { (plan : Plan) (s : State) → IsReached plan s → (c : ℕ) → HasRecords plan s c }
{}

/// When all clients have finished, each intent has its outcome, at its place, and no entry is unanswered, however
/// often the switch was lost.
pub fn finished_ones_are_answered()
    ensures { (plan : Plan) (s : State) → IsReached plan s → AllFinished s → IsAllAnswered plan s }
{}

/// No move changes a record, or takes it away.
pub fn records_stand()
    ensures { (plan : Plan) (s next : State) (actor : Actor) → IsReached plan s → step plan s actor ≡ Some next
        → (c : ℕ) → IsLonger (log_at s c) (log_at next c) }
{}

/// At any time, the number of each stamp that a client has or noted, of each tuple's stamp, and of each entry
/// of a transaction on hosts is that of a packet whose transaction is answered, or 0. Each client's last stamp
/// is that of its last answered entry, or 0.0 where it has none.
pub fn numbers_are_known()
    ensures numbers { (plan : Plan) (s : State) → IsReached plan s → HasKnownNumbers s }
    ensures last { (plan : Plan) (s : State) → IsReached plan s → HasLastStamps s }
{}
