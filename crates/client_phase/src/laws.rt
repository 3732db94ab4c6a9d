//! Laws on clients, each a function with an empty body whose contract is the law: what is kept of a client is
//! what the client of the fabric's model shows.

ghost use Rattle.client_phase.specs.Laws.{ActionsAreMoves, LocksAreTheModels, CommitsAreTheModels, PairsAreFound, ClientsFitTheirScripts, RowsAreStepped, LossesAreStepped};

/// What a client does next is its move in the model.
pub fn actions_are_moves()
    ensures { ActionsAreMoves }
{}

/// A script takes as many locks as in the model, and the operation that a client's action names is the one for
/// which the model's client takes, releases or installs.
pub fn locks_are_the_models()
    ensures { LocksAreTheModels }
{}

/// A client with all its locks decides where the model's client does, and else logs what it is about to do in the
/// switch.
pub fn commits_are_the_models()
    ensures { CommitsAreTheModels }
{}

/// With all its locks, a client's pairs have what was read with each of them, and the operations before the switch
/// are executed.
pub fn pairs_are_found()
    ensures { PairsAreFound }
{}

/// Each client of a state that some moves make of the opening of a sound session is at its present item, and what
/// is kept of it fits that item.
pub fn clients_fit_their_scripts()
    ensures { ClientsFitTheirScripts }
{}

/// What is shown of a client behind each of its moves in the model is what its action makes of what was shown
/// before, at a script and at a loss of the switch.
pub fn moves_are_stepped()
    ensures scripts { RowsAreStepped }
    ensures losses { LossesAreStepped }
{}
