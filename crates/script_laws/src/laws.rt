//! What the end of a script means, and the end of all of them.
ghost use Rattle.history_laws.specs.Always.{OfEveryRun};
ghost use Rattle.script_laws.specs.Whole.{WholeOnceEnded, WholeWhereAllEnded};

/// If the caller of a script has ended, each command of the script was answered once, in the order of the script.
pub fn ended_whole()
    ensures { OfEveryRun WholeOnceEnded }
{}

/// If a history has as many ends of scripts as there are scripts, each of them ran to its end.
pub fn all_whole()
    ensures { OfEveryRun WholeWhereAllEnded }
{}
