//! Look-ups in the setup: rows, drivers, spots and policies.
ghost use Rattle.std.specs.Prelude.{◌≡◌, false, slice_get};
ghost use Rattle.std.specs.Option.{option_map_or};
ghost use Rattle.run_rules.specs.Search as search;
ghost use Rattle.run_rules.specs.World as world;
ghost use Rattle.run_world.specs.Late.{place_on};

use cf_types::{Place, Policy};
use dev_tree::DevTree;
use run_rules::Setup;

/// The driver of a row.
#[inline(always)]
pub fn driver_of(setup: &Setup, row: u32) -> u32
    ensures { result ≡ world.driver_of setup.now row }
{
    match setup.tables.rows.items().get(row as usize) {
        Some(r) => r.device,
        None => 0,
    }
}

/// The attachment of a row.
#[inline(always)]
pub fn attach_of(setup: &Setup, row: u32) -> u32
    ensures { result ≡ world.attach_of setup.now row }
{
    match setup.tables.rows.items().get(row as usize) {
        Some(r) => r.attach,
        None => 0,
    }
}

/// What the driver of a row does, by the row's attachment.
#[inline(always)]
pub fn policy_of(setup: &Setup, row: u32) -> Policy
    ensures { result ≡ world.policy_of setup.now row }
{
    match setup
        .machine
        .policies
        .items()
        .get(attach_of(setup, row) as usize)
    {
        Some(policy) => *policy,
        None => Policy::none(),
    }
}

/// Whether the machine marks a spot absent.
#[inline(always)]
pub fn is_absent(setup: &Setup, spot: u16) -> bool
    ensures { result ≡ option_map_or (λ spot. spot.absent) (slice_get setup.now.machine.spots spot) false }
{
    match setup.machine.spots.items().get(spot as usize) {
        Some(s) => s.absent,
        None => false,
    }
}

/// Whether the machine marks a spot late.
#[inline(always)]
pub fn is_late(setup: &Setup, spot: u16) -> bool
    ensures { result ≡ option_map_or (λ spot. spot.late) (slice_get setup.now.machine.spots spot) false }
{
    match setup.machine.spots.items().get(spot as usize) {
        Some(s) => s.late,
        None => false,
    }
}

/// The place of a spot.
#[inline(always)]
pub fn place_of(setup: &Setup, spot: u16) -> Place
    ensures { result ≡ place_on setup.now spot }
{
    match setup.machine.spots.items().get(spot as usize) {
        Some(s) => s.place,
        None => Place::Root,
    }
}

/// Whether a list has a number.
#[inline(always)]
pub fn has(list: &[u32], n: u32) -> bool
    ensures { result ≡ world.has list.now n }
{
    list.iter().any(|x| *x == n)
}

/// Whether a live device is on the spot.
#[inline(always)]
pub fn is_occupied(tree: &DevTree, spot: u16) -> bool
    ensures { result ≡ search.is_occupied tree.now.live spot }
{
    tree.on_spot(spot).is_some()
}

/// The name of a driver.
#[inline(always)]
pub fn driver_name(setup: &Setup, driver: u32) -> &[u8]
    ensures { result.now ≡ world.driver_name setup.now driver }
{
    match setup.tables.devices.items().get(driver as usize) {
        Some(d) => d.name.bytes(),
        None => &[],
    }
}
