//! The references to devices as a plain list.

use cf_types::Memory;

/// A reference: of which device, by its serial, and who holds it.
#[derive(Clone, Copy)]
pub struct Held {
    pub serial: u64,
    pub caller: u8,
}

/// Whether anybody holds a reference to a device.
pub fn is_held(refs: &[Held], serial: u64) -> bool {
    refs.iter().any(|held| held.serial == serial)
}

/// How many references a caller has to a device.
pub fn count_of(refs: &[Held], serial: u64, caller: u8) -> usize {
    refs.iter()
        .filter(|held| held.serial == serial && held.caller == caller)
        .count()
}

/// Removes one reference of a caller to a device. Returns whether there was one.
pub fn give_back(refs: &mut Vec<Held>, serial: u64, caller: u8) -> bool {
    let place = refs
        .iter()
        .position(|held| held.serial == serial && held.caller == caller);
    match place {
        Some(place) => {
            let _ = refs.remove(place);
            true
        }
        None => false,
    }
}
