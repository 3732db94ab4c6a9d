//! Laws on the order in which transactions in the switch, on hosts, and on both stand.
//!
//! They speak of every state that some moves make of the opening of a sound session, in whatever order its
//! actors move (Jasny et al., P4DB, SIGMOD 2022).

ghost use Rattle.std.specs.Prelude.{◌≡◌, IsSome, Some};
ghost use Rattle.catalogue.specs.Plan.{Plan};
ghost use Rattle.catalogue.specs.Sound.{IsSound};
ghost use Rattle.catalogue.specs.declared.actor.Actor.TheVariants.{Recover};
ghost use Rattle.fabric_model.specs.Fits.{PacketsFit, PacketsArePlanned, PacketsHaveRanges};
ghost use Rattle.fabric_model.specs.Laws.{IsReached, HasLegalHistory, AllFinished, HasSerialValues};
ghost use Rattle.fabric_model.specs.Placed.{HasPlacements, IsRecovered};
ghost use Rattle.fabric_model.specs.State.{State};
ghost use Rattle.fabric_model.specs.Step.{step};

/// The packet of each transaction with an operation in the switch fits the switch: its passes and stages are
/// there, what an operation needs is executed before it, and no two operations are on one register. It names
/// the halves that it touches, and places that there are, and each of its fields is in the range that its text
/// has: at most 16 passes and 16 operations, and a client from 0 to 7.
pub fn packets_fit()
    ensures fit { (plan : Plan) → IsSound plan → PacketsFit plan }
    ensures planned { (plan : Plan) → IsSound plan → PacketsArePlanned plan }
    ensures ranges { (plan : Plan) → IsSound plan → PacketsHaveRanges plan }
{}

/// Whichever actors move, and whenever: while the switch is up, the history is in stamp order and legal.
/// Transactions in the switch, on hosts and on both stand in one order, and running the scripts of all entries
/// one after another in that order gives each answered one exactly its reply.
pub fn histories_are_legal()
    ensures { (plan : Plan) (s : State) → IsReached plan s → IsSome s.switch → HasLegalHistory plan s }
{}

/// When all clients have finished and the switch is up, each entry is answered, and the values in the registers
/// and on the hosts are those that this serial run leaves.
pub fn values_are_serial()
    ensures { (plan : Plan) (s : State) → IsReached plan s → IsSome s.switch → AllFinished s → HasSerialValues plan s }
{}

/// At any time, the clients' logs have a placement, and whichever they have: with an unanswered entry for each
/// open intent, at its number in the placement, the answered entries are in stamp order and legal. This holds
/// while the switch is lost, and while it is up, of what a loss would leave.
pub fn logs_have_placements()
    ensures { (plan : Plan) (s : State) → IsReached plan s → HasPlacements plan s }
{}

/// Recovery takes the first placement of the logs, gives each open intent an unanswered entry with its number
/// there, and sets the registers and the next number to what all packets leave in that order. The history is
/// then legal again.
pub fn recovery_takes_the_first_placement()
    ensures { (plan : Plan) (s next : State) → IsReached plan s → step plan s Recover ≡ Some next → IsRecovered plan s next }
{}
