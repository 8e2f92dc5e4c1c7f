//! Laws of every history, counted on its lines. What holds of every run holds of each prefix of a history, since that is a
//! run too.
ghost use Rattle.run_rules.specs.Laws.{
  Lawful,
  FreesUnheld,
  FreesChildless,
  SleepsBelow,
  HoldsFew,
  HoldsLiving,
  HoldsInUse,
  HoldsAlone,
  ComesFresh,
  ComesBelowAwake,
};
ghost use Rattle.run_rules.specs.Sound.{HaveOwnNames};
ghost use Rattle.run_rules.specs.Tree.{tree_lines};
ghost use Rattle.history_laws.specs.Counted.{AreAllCounted, Counted};
ghost use Rattle.history_laws.specs.Reliable.{IsReliable};
ghost use Rattle.history_laws.specs.Calm.{IsCalm, OfEveryBoot};
ghost use Rattle.history_laws.specs.Tells.{TellsTree};
ghost use Rattle.history_laws.specs.Always.{FreesLiving, OfEveryEvent, OfEveryRun};

/// What is counted on the lines of a run is what the world after it has.
pub fn counted()
    ensures { OfEveryRun Counted }
{}

/// Every history of a run is lawful: all laws below that hold of callers, names and events.
pub fn lawful()
    ensures { OfEveryRun (λ h v. Lawful h) }
{}

/// Nobody holds a device that is freed.
pub fn freed_unheld()
    ensures { OfEveryEvent FreesUnheld }
{}

/// Nothing lives below a device that is freed.
pub fn freed_childless()
    ensures { OfEveryEvent FreesChildless }
{}

/// A device that is freed came before, and was not freed since.
pub fn freed_living()
    ensures { OfEveryEvent FreesLiving }
{}

/// What lives below a sleeping device sleeps. See pmf(9).
pub fn sleep_below()
    ensures { OfEveryRun (λ h v. SleepsBelow h) }
{}

/// A caller holds a device 0 to 15 times.
pub fn held_few()
    ensures { OfEveryRun (λ h v. HoldsFew h) }
{}

/// Only devices that live are held.
pub fn held_living()
    ensures { OfEveryRun (λ h v. HoldsLiving h) }
{}

/// A caller holds the device of each transfer that it starts or ends.
pub fn held_in_use()
    ensures { OfEveryEvent HoldsInUse }
{}

/// A caller that has a device solely holds it once, and nobody else holds it.
pub fn held_alone()
    ensures { OfEveryRun (λ h v. HoldsAlone h) }
{}

/// References granted, less those that came back, are those that are held: of each caller, and in all.
pub fn references_counted()
    ensures { OfEveryRun (λ h v. AreAllCounted h v.refs) }
{}

/// A device that comes did not live under that name. See autoconf(9).
pub fn comes_fresh()
    ensures { OfEveryEvent ComesFresh }
{}

/// A device comes below the root, or below a device that lives and is awake.
pub fn comes_below_awake()
    ensures { OfEveryEvent ComesBelowAwake }
{}

/// Live devices print different names.
pub fn names_differ()
    ensures { OfEveryRun (λ h v. HaveOwnNames v.setup v.live) }
{}

/// The tree has one line for each device that lives, with its parent, its sleep and who holds it how often.
pub fn tree_told()
    ensures { OfEveryRun (λ h v. TellsTree h (tree_lines v)) }
{}

/// What may be relied on in what a run prints: no device is freed before its references are returned and its children
/// are freed, its history is lawful, and its tree shows what the history says.
pub fn reliable()
    ensures { OfEveryRun IsReliable }
{}

/// After a boot nothing is condemned, nothing is held, and no script has done anything.
pub fn boot_calm()
    ensures { OfEveryBoot IsCalm }
{}
