//! A law on histories: a function with an empty body whose contract is the law.

ghost use Rattle.std.specs.Prelude.{◌≡◌, List, Some, None};
ghost use Rattle.txn_model.specs.declared.pairs.Pair.{Pair};
ghost use Rattle.history_model.specs.declared.entry.Entry.{Entry};
ghost use Rattle.history_model.specs.History.{History, with_entry};
ghost use Rattle.history_core.specs.Answers.{HasNone, with_reply};

/// To put an entry in and answer it is to put it in answered, where its item has no other entry.
pub fn answered_insertion()
    ensures { (entry : Entry) (pairs : List Pair) (h : History) → HasNone entry.client entry.seq h
        → with_reply entry.client entry.seq pairs (with_entry (record { entry = entry; pairs = None }) h)
        ≡ with_entry (record { entry = entry; pairs = Some pairs }) h }
{}
