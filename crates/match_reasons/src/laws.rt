//! Laws of reasons. Nothing here runs: the contract of each function is a law.
ghost use Rattle.match_reasons.specs.Laws.{AllTold, FirstReasons, WinnerAlone};

/// A row has no reason exactly if it is the winner.
pub fn winner_alone()
    ensures { WinnerAlone }
{}

/// What a reason says of its row is so, and no reason before it in the order applies.
pub fn first_reasons()
    ensures { FirstReasons }
{}

/// The winner is among the rows that are told one by one, and each row is told or counted.
pub fn all_told()
    ensures { AllTold }
{}
