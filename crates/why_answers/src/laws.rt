//! Laws of the answers. Nothing here runs: the contract of each function is a law.
ghost use Rattle.why_answers.specs.Laws.{UnsearchedHaveReasons};

/// If no search of a boot came to a spot, there is a reason in the world in which the boot ends.
pub fn unsearched_have_reasons()
    ensures { UnsearchedHaveReasons }
{}
