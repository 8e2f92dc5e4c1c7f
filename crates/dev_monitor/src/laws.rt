//! Laws of notes, and of all that subscribers read.
ghost use Rattle.history_laws.specs.Always.{OfEveryEvent};
ghost use Rattle.dev_monitor.specs.Calls.{ReadsInOrder};
ghost use Rattle.dev_monitor.specs.Notes.{TellsFreed};

/// In the history of a run each device that is freed has a note, with the parent that it had.
pub fn each_detach_told()
    ensures { OfEveryEvent TellsFreed }
{}

/// What a subscriber reads by any list of calls is in the order of the history, no note comes twice, and `lost` counts what is missing
/// before each one.
pub fn reads_in_order()
    ensures { ReadsInOrder }
{}
