//! Laws of every history, taken whole. What holds of every run holds of each prefix of a history, since that is a run too.
ghost use Rattle.run_rules.specs.Tree.{tree_lines};
ghost use Rattle.history_laws.specs.Always.{OfEveryRun, OfEveryEvent};
ghost use Rattle.whole_laws.specs.Below.{ChainsLive, FreesBare, ReachesRoot, SleepsThroughout};
ghost use Rattle.whole_laws.specs.Order.{AreInOrder, CommandsInOrder, FirstAnswers, OfEveryPlace};
ghost use Rattle.whole_laws.specs.Transfers.{DoneAfterStarted, DoneNext};
ghost use Rattle.whole_laws.specs.Tree.{TellsWholeTree};

/// The parents of a device that lives, and their parents in turn, live, up to the root.
pub fn chains_live()
    ensures { OfEveryRun (λ h v. ChainsLive h) }
{}

/// From each device that lives a chain of parents leads to the root.
pub fn root_reached()
    ensures { OfEveryRun (λ h v. ReachesRoot h) }
{}

/// No descendant of a device that is freed lives: no chain of parents leads up to it from a device that lives.
pub fn nothing_lives_below()
    ensures { OfEveryEvent FreesBare }
{}

/// All descendants of a sleeping device that live sleep. See pmf(9).
pub fn whole_subtree_sleeps()
    ensures { OfEveryRun (λ h v. SleepsThroughout h) }
{}

/// The events of a script's caller are in the order of its commands: their numbers never fall, the first event of a number is
/// the answer of that command, `drop` and `end` come after all commands, and nothing comes after `end`.
pub fn commands_in_order()
    ensures { OfEveryPlace CommandsInOrder }
{}

/// So it is of each event of every history.
pub fn all_in_order()
    ensures { OfEveryRun AreInOrder }
{}

/// The first event of a script's caller with a number is the answer of the command of that number.
pub fn first_answers()
    ensures { OfEveryRun FirstAnswers }
{}

/// The event of a caller before the end of a transfer is its start, with the same number and on the same device.
pub fn done_after_started()
    ensures { OfEveryEvent DoneAfterStarted }
{}

/// The event of a caller after the start of a transfer is its end, with the same number.
pub fn started_then_done()
    ensures { OfEveryEvent DoneNext }
{}

/// The tree has for each device that lives what the history gives: its parent, its sleep, who holds it, its row, and whether it
/// is condemned, that is, whether a `detach` or an `unplug` that was answered ok took it since it came. The lines are depth first,
/// children in the order in which they came.
pub fn tree_told_whole()
    ensures { OfEveryRun (λ h v. TellsWholeTree h (tree_lines v)) }
{}
