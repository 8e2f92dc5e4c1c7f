//! What is accepted of that which the program prints.
ghost use Rattle.app_config.specs.Laws.{TakesBooted, TakesPlayed, TakesUpgraded};

/// What `devconf boot` and `devconf play` print of an accepted configuration, whose name is within one line, is accepted as a history: as
/// the run that it shows, which leads to the same tree. What `devconf upgrade` prints is accepted as the history that was read. Nothing
/// runs here: the contract is a law.
pub fn printed_taken()
    ensures boot { TakesBooted }
    ensures play { TakesPlayed }
    ensures upgrade { TakesUpgraded }
{}
