//! How the boot comes to a spot.
ghost use Rattle.std.specs.Prelude.{◌≡◌, [], false};
ghost use Rattle.std.specs.Option.{option_map_or};
ghost use Rattle.run_rules.specs.Search as rule;
ghost use Rattle.plain_world.specs.Plain.{world_of};
ghost use Rattle.boot_looks.specs.Looks.{is_on_row_bus, is_passed, visit_by, visit_if};

use plain_choice::hangs_below;
use plain_search::{Seeker, is_indirect, is_open};
use plain_world::{Live, Plain, attach_of, device_at, is_number, place_of};
use run_rules::{Deed, Dev};

/// How a search comes to a spot: below the device of which serial, 0 for the root; and whether it goes row by row and ends
/// while the spot is open.
#[derive(Clone, Copy)]
pub struct Visit {
    pub parent: u64,
    pub passed: bool,
}

/// A search that came to a spot, with the devices that were live then.
#[derive(Drop)]
pub struct Look {
    pub live: Live,
    pub visit: Visit,
}

/// Whether a spot is below a device, at an attribute that the device offers and searches row by row.
fn is_on_row_bus(seeker: &Seeker, device: Dev, spot: u16) -> bool
    ensures { result ≡ is_on_row_bus seeker.now.rules.now device spot }
{
    let rules = seeker.rules;
    let attach = attach_of(rules, device.row);
    hangs_below(rules, device, spot) && is_indirect(seeker, Some(attach), place_of(rules, spot))
}

/// Whether the end of the search below the device of a serial passes a spot.
fn is_passed(seeker: &Seeker, plain: &Plain, serial: u64, spot: u16) -> bool
    ensures { result ≡ is_passed (world_of seeker.now.rules.now plain.now) serial spot }
{
    match device_at(&plain.live, serial) {
        Some(device) => {
            is_on_row_bus(seeker, device, spot) && is_open(seeker.rules, plain, &[], spot)
        }
        None => false,
    }
}

/// A visit, if it is one.
fn visit_if(comes: bool, visit: Visit) -> Option<Visit>
    ensures { result ≡ visit_if comes visit }
{
    if comes { Some(visit) } else { None }
}

/// How a deed of the boot comes to a spot, if it does.
pub fn visit_by(seeker: &Seeker, plain: &Plain, deed: &Deed, spot: u16) -> Option<Visit>
    ensures { result ≡ visit_by (world_of seeker.now.rules.now plain.now) deed.now spot }
{
    match *deed {
        Deed::Search {
            parent,
            spot: at,
            ..
        } => visit_if(
            at == spot,
            Visit {
                parent,
                passed: false,
            },
        ),
        Deed::Finalise { of, shown, .. } => visit_if(
            is_number(shown, spot),
            Visit {
                parent: of,
                passed: false,
            },
        ),
        Deed::EndScan { of } => visit_if(
            is_passed(seeker, plain, of, spot),
            Visit {
                parent: of,
                passed: true,
            },
        ),
        _ => None,
    }
}
