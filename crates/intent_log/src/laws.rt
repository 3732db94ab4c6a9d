//! Laws of logs, over the definitions alone.

ghost use Rattle.intent_log.specs.Laws.{LogsDiffer, LogsAreWhole, DamageHasOnePlace, LogsAreTexts, LogsGoOn, ViewsCanBeWritten};

/// Bytes say one thing at most, or are damaged at one place.
pub fn logs_say_one_thing()
    ensures says { LogsDiffer }
    ensures whole { LogsAreWhole }
    ensures damage { DamageHasOnePlace }
{}

/// A log is the text of what it says, and behind it what is torn.
pub fn logs_are_texts()
    ensures { LogsAreTexts }
{}

/// What is appended to a log that isn't torn is read back, where it fits.
pub fn logs_go_on()
    ensures { LogsGoOn }
{}

/// What some log of a client says can be written.
pub fn views_can_be_written()
    ensures { ViewsCanBeWritten }
{}
