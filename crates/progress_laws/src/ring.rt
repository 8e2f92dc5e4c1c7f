//! A world in which nobody goes on, and worlds in which somebody does.
ghost use Rattle.history_laws.specs.Always.{OfEveryRun};
ghost use Rattle.progress_laws.specs.Ring.{EndsAlone, GoesEndsOrRings, NeverStuck, RingWhereStuck, StuckInARing};

/// If no caller does anything, each has ended, or it detaches or unplugs and waits for a device that another caller holds,
/// which itself waits for a device. No wait is for the boot, for a scan or for the power turn.
pub fn stuck_in_a_ring()
    ensures { OfEveryRun StuckInARing }
{}

/// If no caller does anything and one waits, there is a ring: each of its callers waits for a device that the next one holds.
pub fn ring_where_stuck()
    ensures { OfEveryRun RingWhereStuck }
{}

/// In each world of a run some caller does something, or all have ended, or callers wait for each other in a ring.
pub fn goes_ends_or_rings()
    ensures { OfEveryRun GoesEndsOrRings }
{}

/// If no caller that detaches or unplugs holds a device, some caller does something, or all have ended.
pub fn never_stuck()
    ensures { OfEveryRun NeverStuck }
{}

/// A script alone never waits forever: some caller does something, or all have ended.
pub fn ends_alone()
    ensures { OfEveryRun EndsAlone }
{}
