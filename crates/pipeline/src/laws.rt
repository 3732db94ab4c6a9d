//! Laws: a pipeline that shows a reached state of the switch's model goes on as the model does.

ghost use Rattle.pipeline.specs.ModelLaws.{AdvancesAreEvents, AnswersAreTaken, EntriesAreEvents, PostsAreEvents, FreshIsShown, RestoredIsShown};

/// A fresh pipeline shows the fresh switch of its layout's first values.
pub fn beginnings_are_shown()
    ensures { FreshIsShown }
{}

/// Where a client has nothing under way, nothing of it is seen, and a packet that it posts is seen at the port
/// as it is in the model.
pub fn posts_are_events()
    ensures { PostsAreEvents }
{}

/// A packet enters exactly where it does in the model, and then what is seen is what is seen of the model. A
/// packet that enters for the first time gets the next number. The numbers of 64 bits must not be used up.
pub fn entries_are_events()
    ensures { EntriesAreEvents }
{}

/// A packet leaves a stage exactly where it does in the model, and then what is seen is what is seen of the
/// model.
pub fn advances_are_events()
    ensures { AdvancesAreEvents }
{}

/// A box has the model's answer, and an answer that is dropped is taken there.
pub fn answers_are_taken()
    ensures { AnswersAreTaken }
{}

/// An erased pipeline that gets the registers and the next number behind a list of packets, and the answers of
/// those whose clients wait for one, shows the switch that is restored with them.
pub fn restored_is_shown()
    ensures { RestoredIsShown }
{}
