//! Laws on serial runs, each a function with an empty body whose contract is the law.

ghost use Rattle.std.specs.Prelude.{◌≡◌, List, map, ◌++◌};
ghost use Rattle.txn_model.specs.Serial.{serial_run};
ghost use Rattle.txn_model.specs.Tuples.{Tuples};
ghost use Rattle.txn_model.specs.declared.op.Op.{Op};
ghost use Rattle.txn_model.specs.declared.op.TupleId.{TupleId};
ghost use Rattle.history_model.specs.Chain.{Answered, HasChains, IsRunOf, IsInserted, MayStandBefore, all_steps, answered_on, map_after, steps_of};

/// Scripts with pairs are a serial run exactly where their pairs are local and form a chain at each tuple.
pub fn serial_runs_are_chains()
    ensures runs { (h : List Answered) (m : Tuples) → HasChains h m → IsRunOf h m }
    ensures chains { (h : List Answered) (m : Tuples)
        → (serial_run (map (λ e. e.0) h) m).replies ≡ map (λ e. e.1) h → HasChains h m }
{}

/// A script may be put into the middle of a serial run where, at each tuple, it and those behind it
/// leave what they find, or one of both doesn't name the tuple. It is then answered as it would be
/// behind all, all others are answered as before, and the last map is the one that it leaves behind all.
pub fn insertion_keeps_replies()
    ensures { (a b : List Answered) (m : Tuples) (script : List Op)
        → (serial_run (map (λ e. e.0) (a ++ b)) m).replies ≡ map (λ e. e.1) (a ++ b)
        → ((t : TupleId) → MayStandBefore t (steps_of script (answered_on (map_after (a ++ b) m) script).1) (all_steps b))
        → IsInserted a b script m }
{}
