//! What a deed means for the leases of its caller.
ghost use Rattle.std.specs.Prelude.{◌≡◌, nat_lt, if◌then◌else◌};
ghost use Rattle.run_rules.specs.References.{count_in};
ghost use Rattle.run_rules.specs.After.{after};
ghost use Rattle.run_rules.specs.declared.deed.Choice.TheVariants.{Does};
ghost use Rattle.run_rules.specs.Next.{next};
ghost use Rattle.run_rules.specs.World.{device_at, holds_in};
ghost use Rattle.std.specs.Option.{option_map_or};
ghost use Rattle.dev_board.specs.declared.answer.LeaseStep.TheVariants.{Keep, Take, Give};
ghost use Rattle.dev_board.specs.Witness.{lease_step};

use crate::answer::LeaseStep;
use run_rules::Deed;
use run_world::Going;

/// The slot of a device is taken.
fn take_of(going: &Going, of: u64) -> LeaseStep
    ensures { option_map_or (λ d. Take d.spot) (device_at going.now.live of) Keep ≡ result }
{
    match going.device(of) {
        Some(device) => LeaseStep::Take(device.spot),
        None => LeaseStep::Keep,
    }
}

/// The slot of a device is given back.
fn give_of(going: &Going, of: u64) -> LeaseStep
    ensures { option_map_or (λ d. Give d.spot) (device_at going.now.live of) Keep ≡ result }
{
    match going.device(of) {
        Some(device) => LeaseStep::Give(device.spot),
        None => LeaseStep::Keep,
    }
}

/// The first reference of a caller to a device takes its slot.
fn opening_step(going: &Going, caller: u8, of: u64) -> LeaseStep
    ensures { (if holds_in going.now.refs caller of then Keep else option_map_or (λ d. Take d.spot) (device_at going.now.live of) Keep) ≡ result }
{
    if going.refs().holds(of, caller) {
        LeaseStep::Keep
    } else {
        take_of(going, of)
    }
}

/// The return of the last one gives it back.
fn return_step(going: &Going, caller: u8, of: u64) -> LeaseStep
    ensures { (if nat_lt 1 (count_in going.now.refs caller of) then Keep
        else option_map_or (λ d. Give d.spot) (device_at going.now.live of) Keep) ≡ result }
{
    if going.refs().count(of, caller) > 1 {
        LeaseStep::Keep
    } else {
        give_of(going, of)
    }
}

/// The slot that a deed of a caller takes or gives back, on a board that has not done it yet: the deed opens a device,
/// or closes one.
#[inline(always)]
pub fn lease_of(going: &Going, caller: u8, deed: &Deed) -> LeaseStep
    requires { next going.now caller ≡ Does deed.now }
    ensures { lease_step going.now (after going.now caller deed.now) caller ≡ result }
{
    match *deed {
        Deed::Open { of, .. } => opening_step(going, caller, of),
        Deed::Close { of } => return_step(going, caller, of),
        Deed::Drop { of } => return_step(going, caller, of),
        _ => LeaseStep::Keep,
    }
}
