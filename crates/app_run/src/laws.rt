//! That what the program prints is accepted as a history.
ghost use Rattle.app_run.specs.Laws.{TakesPrinted};

use drv_workers::Medium;

/// What `drvrun` prints for an accepted configuration whose name is within one line is accepted as a history, also if the scripts
/// stand still: as the run that it shows, with the same tree. Nothing runs here: the contract is a law.
pub fn printed_taken<M: Medium>()
    ensures { TakesPrinted M.carried }
{}
