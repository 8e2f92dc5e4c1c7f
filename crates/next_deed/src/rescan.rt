//! What a rescan searches, or why it does not begin. See drvctl(8).
ghost use Rattle.std.specs.Prelude.{◌≡◌, ◌∷◌, true, Some, map, is_some};
ghost use Rattle.std.specs.List.{list_any};
ghost use Rattle.cf_types.specs.Lookups.{place_of_name};
ghost use Rattle.run_rules.specs.declared.deed.Deed.TheVariants.{Rescan};
ghost use Rattle.run_rules.specs.declared.world.Dev.{Dev};
ghost use Rattle.run_rules.specs.Next as next;
ghost use Rattle.run_rules.specs.Next.{has_nothing, rescan_of, rescanning, wanted_of};
ghost use Rattle.run_rules.specs.World as world;
ghost use Rattle.run_rules.specs.World.{is_number, offered_by};
ghost use Rattle.next_deed.specs.Choices.{or_refused};

use crate::hindered::is_pinned;
use crate::looks::offers_of;
use cf_types::{Given, Locator, Name, Place};
use locator_rules::locators_at;
use run_rules::{CommandRefusal, Deed, Dev};
use run_world::{Going, attr_named, has, locator_place, policy_of};

/// Whether a locator that is given has this place.
fn stands_at(locators: &[Locator], given: &Given, place: usize) -> bool
    ensures { result ≡ is_number (place_of_name (map (λ l. l.name) locators.now) given.now.name) place }
{
    match locator_place(locators, given.name.bytes()) {
        Some(found) => found == place,
        None => false,
    }
}

/// Whether a locator of this place is given.
fn is_given(locators: &[Locator], place: usize, given: &[Given]) -> bool
    ensures { result ≡ list_any (λ h. is_number (place_of_name (map (λ l. l.name) locators.now) h.name) place) given.now }
{
    given.iter().any(|given| stands_at(locators, given, place))
}

/// Whether a locator may be given beside others: it is one of these, and not given again.
fn is_new(locators: &[Locator], first: &Given, rest: &[Given]) -> bool
    requires { is_some (wanted_of (map (λ l. l.name) locators.now) rest.now) ≡ true }
    ensures { is_some (wanted_of (map (λ l. l.name) locators.now) (first.now ∷ rest.now)) ≡ result }
{
    match locator_place(locators, first.name.bytes()) {
        Some(place) => !is_given(locators, place, rest),
        None => false,
    }
}

/// Whether each locator that is given is one of these, and none is given twice.
fn are_wanted(locators: &[Locator], given: &[Given]) -> bool
    ensures { is_some (wanted_of (map (λ l. l.name) locators.now) given.now) ≡ result }
{
    match given {
        [] => true,
        [first, rest @ ..] => are_wanted(locators, rest) && is_new(locators, first, rest),
    }
}

/// Whether a list is empty.
#[inline(always)]
fn is_nothing(offers: &[u32]) -> bool
    ensures { result ≡ has_nothing offers.now }
{
    match offers {
        [] => true,
        [..] => false,
    }
}

/// The attribute of a name, if a rescan with these locator values may search it alone.
fn attr_of(
    going: &Going,
    offers: &[u32],
    name: &[u8],
    given: &[Given],
) -> Result<Option<u32>, CommandRefusal>
    ensures { (d : Dev) → offered_by going.now.setup d.row ≡ offers.now
        → rescan_of going.now d (Some name.now) given.now ≡ or_refused (Rescan d.serial) result }
{
    going.stands();
    let setup = going.setup();
    match attr_named(setup, name) {
        None => Err(CommandRefusal::BadAttribute),
        Some(attr) => {
            if !has(offers, attr) {
                Err(CommandRefusal::BadAttribute)
            } else if !are_wanted(locators_at(&setup.tables, Place::At(attr)), given) {
                Err(CommandRefusal::BadLocator)
            } else {
                Ok(Some(attr))
            }
        }
    }
}

/// What a rescan of a device searches: one attribute alone, or all that the device offers.
#[inline(always)]
fn only_of(
    going: &Going,
    offers: &[u32],
    attr: &Option<Name>,
    given: &[Given],
) -> Result<Option<u32>, CommandRefusal>
    ensures { (d : Dev) → offered_by going.now.setup d.row ≡ offers.now
        → rescan_of going.now d attr.now given.now ≡ or_refused (Rescan d.serial) result }
{
    match attr {
        None => Ok(None),
        Some(name) => attr_of(going, offers, name.bytes(), given),
    }
}

/// A command to search a device again.
pub fn plan_search(
    going: &Going,
    device: Dev,
    attr: &Option<Name>,
    given: &[Given],
) -> Result<Deed, CommandRefusal>
    requires { world.device_at going.now.live device.serial ≡ Some device }
    ensures { rescanning going.now device attr.now given.now ≡ or_refused (λ deed. deed) result }
{
    if is_pinned(going, device.serial) {
        return Err(CommandRefusal::Busy(device.serial));
    }
    if device.asleep {
        return Err(CommandRefusal::Asleep);
    }
    let offers = offers_of(going, device.row);
    if policy_of(going.setup(), device.row).norescan || is_nothing(offers) {
        return Err(CommandRefusal::NoRescan);
    }
    let only = only_of(going, offers, attr, given)?;
    Ok(Deed::Rescan {
        of: device.serial,
        only,
    })
}
