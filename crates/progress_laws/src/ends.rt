//! Every run ends, in whatever order its callers take their turns.
ghost use Rattle.history_laws.specs.Always.{OfEveryRun};
ghost use Rattle.progress_laws.specs.Ends.{ComesToRest, EachLowers, EndsInTime, RoundsEnd};

/// Whatever a caller does next lowers what is left of the run.
pub fn each_lowers()
    ensures { EachLowers }
{}

/// A run has no more events than a number that is computed from its machine and its scripts.
pub fn runs_end()
    ensures { OfEveryRun EndsInTime }
{}

/// Whatever was done so far, the run can be continued until no caller does anything.
pub fn comes_to_rest()
    ensures { OfEveryRun ComesToRest }
{}

/// If all callers take turns in rounds, no caller does anything after as many rounds as the run may have events.
pub fn rounds_end()
    ensures { RoundsEnd }
{}
