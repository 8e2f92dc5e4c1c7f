//! Laws of the searches of a boot. Nothing here runs: the contract of each function is a law.
ghost use Rattle.boot_looks.specs.Laws.{BootsAreTurns, BootsMissNone, VisitsTakeWinners};

/// The events of a boot lead to the world to which as many turns of caller 0 lead, and each turn leads to such a world.
pub fn boots_are_turns()
    ensures { BootsAreTurns }
{}

/// What an event of the boot attaches to the spot to which it comes is by the row that wins the spot below that device.
pub fn visits_take_winners()
    ensures { VisitsTakeWinners }
{}

/// When a boot has ended, some turn of it came to each spot that is neither absent nor hidden then, and hangs below the root or below
/// a device that offers its attribute.
pub fn boots_miss_none()
    ensures { BootsMissNone }
{}
