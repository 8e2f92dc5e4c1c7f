//! What an order of callers leads to. Nothing here runs.
ghost use Rattle.every_order.specs.Reach.{IsPlayed, LeadsAsRuns};

/// An order leads where the runs lead whose events are of its callers.
pub fn leads_as_runs()
    ensures { LeadsAsRuns }
{}

/// If an order leads to a world, its turns, played one after the other, end in this world.
pub fn order_is_played()
    ensures { IsPlayed }
{}
