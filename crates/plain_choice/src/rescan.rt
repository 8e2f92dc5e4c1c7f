//! What a rescan searches, or why it does not begin. See drvctl(8).
ghost use Rattle.std.specs.Prelude.{◌≡◌, IfOk};
ghost use Rattle.run_rules.specs.Next as next;
ghost use Rattle.plain_world.specs.Plain.{world_of};

use cf_types::{Given, Memory, Name, Place};
use locator_rules::locators_at;
use plain_world::{
    Plain, Rules, attr_named, driver_of, has, is_nothing, is_pinned, offered, policy_of, wanted_of,
};
use run_rules::{CommandRefusal, Deed, Dev};
use std::alloc::Global;

/// What a rescan is limited to: an attribute, if one is named, and values of its locators.
#[derive(Clone, Copy)]
pub struct Limits<'a> {
    pub attr: &'a Option<Name>,
    pub given: &'a [Given],
}

/// A rescan of a device, of one attribute alone or of all, or why it does not begin.
#[tactic(auto, unfolding(run_rules::specs::Next::rescan_of))]
fn rescan_of(
    alloc: Global,
    rules: &Rules,
    plain: &Plain,
    device: Dev,
    limits: &Limits<'_>,
) -> Result<Deed, Memory>
    ensures { IfOk result (λ does. next.rescan_of (world_of rules.now plain.now) device limits.now.attr.now limits.now.given.now ≡ does) }
{
    let Some(name) = limits.attr else {
        return Ok(Deed::Rescan {
            of: device.serial,
            only: None,
        });
    };
    let Some(attr) = attr_named(rules, name.bytes()) else {
        return Ok(Deed::Refuse(CommandRefusal::BadAttribute));
    };
    if !has(offered(rules, driver_of(rules, device.row)), attr) {
        return Ok(Deed::Refuse(CommandRefusal::BadAttribute));
    }
    match wanted_of(
        alloc,
        locators_at(rules.tables, Place::At(attr)),
        limits.given,
    )? {
        Some(_) => Ok(Deed::Rescan {
            of: device.serial,
            only: Some(attr),
        }),
        None => Ok(Deed::Refuse(CommandRefusal::BadLocator)),
    }
}

/// A command to search a device again.
pub fn rescanning(
    alloc: Global,
    rules: &Rules,
    plain: &Plain,
    device: Dev,
    limits: &Limits<'_>,
) -> Result<Deed, Memory>
    ensures { IfOk result (λ does. next.rescanning (world_of rules.now plain.now) device limits.now.attr.now limits.now.given.now ≡ does) }
{
    if is_pinned(plain, device.serial) {
        return Ok(Deed::Refuse(CommandRefusal::Busy(device.serial)));
    }
    if device.asleep {
        return Ok(Deed::Refuse(CommandRefusal::Asleep));
    }
    let offers = offered(rules, driver_of(rules, device.row));
    if policy_of(rules, device.row).norescan || is_nothing(offers) {
        return Ok(Deed::Refuse(CommandRefusal::NoRescan));
    }
    rescan_of(alloc, rules, plain, device, limits)
}
