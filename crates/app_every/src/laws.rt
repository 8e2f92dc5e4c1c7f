//! What is told of every order, by the runs of the definitions.
ghost use Rattle.app_every.specs.Laws.{EveryTellsRuns};

/// Each order that `drvall` tells, played behind the boot, leads to the tree or to the standstill under which it is told, and the
/// tree or the standstill of each run is told. Nothing runs here: the contract is a law.
pub fn every_tells_runs()
    ensures { EveryTellsRuns }
{}
