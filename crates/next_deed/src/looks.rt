//! What is looked up of a run that goes on.
ghost use Rattle.std.specs.Prelude.{◌≡◌, ◌≤◌, length};
ghost use Rattle.run_rules.specs.World as world;

use run_world::{Going, driver_of};
use scan_engine::offered;

/// How many spots there are.
#[inline(always)]
pub fn spot_count(going: &Going) -> u16
    ensures count { result ≡ length going.now.setup.machine.spots }
    ensures few { result ≤ 1024 }
{
    going.stands();
    going.setup().machine.spots.len() as u16
}

/// Whether the hardware of a spot is absent.
#[inline(always)]
pub fn is_absent(going: &Going, spot: u16) -> bool
    ensures { result ≡ world.has going.now.absent spot }
{
    let held = &going.held;
    held.core.absent.has(spot)
}

/// Whether a spot is hidden.
#[inline(always)]
pub fn is_hidden(going: &Going, spot: u16) -> bool
    ensures { result ≡ world.has going.now.hidden spot }
{
    let held = &going.held;
    held.core.hidden.has(spot)
}

/// The caller that has the power turn.
#[inline(always)]
pub fn power_owner(going: &Going) -> Option<u8>
    ensures { result ≡ going.now.power_owner }
{
    let held = &going.held;
    held.core.power_owner
}

/// The attributes that the driver of a row offers.
#[inline(always)]
pub fn offers_of(going: &Going, row: u32) -> &[u32]
    ensures { result.now ≡ world.offered_by going.now.setup row }
{
    let held = &going.held;
    let site = &held.site;
    offered(&site.graph, &site.setup.tables, driver_of(&site.setup, row))
}
