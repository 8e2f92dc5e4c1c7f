//! What is accepted as a history.
ghost use Rattle.replay_laws.specs.Meant.{MeansLines, TakesMeant};
ghost use Rattle.replay_laws.specs.Taken.{TakesBoth, TakesHistory, TakesOlder, TakesOwn, TakesRuns};

/// What is accepted as a history is a run, so that it is lawful and its tree says what it says.
pub fn runs_taken()
    ensures { TakesRuns }
{}

/// What a run writes after the listing of its tables is accepted as this run.
pub fn own_taken()
    ensures { TakesOwn }
{}

/// A history with its tree is accepted as the run that it describes, in each format.
pub fn history_taken()
    ensures { TakesHistory }
{}

/// What is accepted in one format is accepted in the other, as the same events.
pub fn taken_in_both()
    ensures { TakesBoth }
{}

/// The tables that a configuration means have each of their words within one line, if the name of its file is.
pub fn meant_in_lines()
    ensures { MeansLines }
{}

/// What a run of an accepted configuration writes after the listing of its tables is accepted as this run, if the name
/// of its file is within one line.
pub fn meant_taken()
    ensures { TakesMeant }
{}

/// A text of formed events that is accepted in format 2 is accepted in format 1, as the same events.
pub fn older_taken()
    ensures { TakesOlder }
{}
