//! What a boot leaves, and what a device that comes leaves of the candidates. See autoconf(9).
ghost use Rattle.history_laws.specs.Always.{OfEveryRun};
ghost use Rattle.history_laws.specs.Calm.{OfEveryBoot};
ghost use Rattle.boot_laws.specs.Settled.{FewerCandidates, LeavesUnwanted, NoNewWinner, Settles};
ghost use Rattle.boot_laws.specs.Thorough.{IsThorough};

/// A device that comes makes no row a candidate for a spot.
pub fn fewer_candidates()
    ensures { FewerCandidates }
{}

/// A device that comes gives no spot a winner that had none.
pub fn no_new_winner()
    ensures { NoNewWinner }
{}

/// After a boot a row would take a spot that is present, not hidden and free only on an indirect bus, and only if the row that
/// comes first for the spot has one unit alone, which is taken.
pub fn boot_settles()
    ensures { OfEveryBoot Settles }
{}

/// If no bus is indirect, or no row has one unit alone, a boot leaves no hardware without a driver that some row would take.
pub fn boot_settled()
    ensures { OfEveryBoot LeavesUnwanted }
{}

/// Every history is thorough: it has no more events than such a run may have, and the boot that it begins with leaves nothing out.
pub fn runs_are_thorough()
    ensures { OfEveryRun IsThorough }
{}
