//! What the masks tell beside a look at each reference, over many references that are granted and given back.

use crate::refs::Refs;
use cf_types::Memory;
use run_rules::Ref;
use std::test::*;

// Who holds a device: bit k-1 is caller k.
fn holders(refs: &[Ref], serial: u64) -> u16 {
    let mut holders = 0;
    for held in refs {
        if held.serial == serial && held.caller >= 1 && held.caller <= 16 {
            holders |= 1 << (held.caller - 1);
        }
    }
    holders
}

// The least serial of a device that a caller holds.
fn least_held(refs: &[Ref], caller: u8) -> Option<u64> {
    refs.iter()
        .filter(|held| held.caller == caller)
        .map(|held| held.serial)
        .min()
}

// Whether a caller has a reference to a device.
fn is_held(refs: &[Ref], serial: u64, caller: u8) -> bool {
    refs.iter()
        .any(|held| held.serial == serial && held.caller == caller)
}

// Whether both tell the same of a caller.
fn agree_on(ledger: &Refs, refs: &[Ref], caller: u8) -> bool {
    for serial in 0..9u64 {
        if ledger.holds(serial, caller) != is_held(refs, serial, caller) {
            return false;
        }
    }
    ledger.first_held(caller) == least_held(refs, caller)
}

// Whether both tell the same of each device and each caller, and of callers that there are not.
fn agree(ledger: &Refs, refs: &[Ref]) -> bool {
    for serial in 0..9u64 {
        let callers = holders(refs, serial);
        if ledger.holders(serial) != callers || ledger.refers(serial) != (callers != 0) {
            return false;
        }
    }
    for caller in 0..18u8 {
        if !agree_on(ledger, refs, caller) {
            return false;
        }
    }
    ledger.total() == refs.len() as u64
}

// Grants a reference, if that may be.
fn grant(
    ledger: &mut Refs,
    refs: &mut Vec<Ref>,
    serial: u64,
    number: u8,
    sole: bool,
) -> Result<(), Memory> {
    let caller = number % 16 + 1;
    if sole {
        if !ledger.refers(serial) {
            ledger.grant(serial, caller, true)?;
            refs.push(Ref { serial, caller })?;
        }
    } else if !ledger.is_sole(serial) && ledger.count(serial, caller) < 15 {
        ledger.grant(serial, caller, false)?;
        refs.push(Ref { serial, caller })?;
    }
    Ok(())
}

// Gives a reference back, if there is one.
fn give_back(ledger: &mut Refs, refs: &mut Vec<Ref>, serial: u64, number: u8) {
    let caller = number % 16 + 1;
    if ledger.holds(serial, caller) {
        ledger.give_back(serial, caller);
    }
    let place = refs
        .iter()
        .position(|held| held.serial == serial && held.caller == caller);
    match place {
        Some(place) if place < refs.len() => {
            let _ = refs.remove(place);
        }
        _ => {}
    }
}

#[test]
fn masks_tell_what_the_references_tell(rt: HostRuntime) -> Result<(), Fail> {
    let mut ledger = Refs::make(rt.alloc());
    let mut refs = Vec::new(rt.alloc());
    let mut state: u64 = 1;
    for _turn in 0..600u64 {
        state = state
            .wrapping_mul(6_364_136_223_846_793_005)
            .wrapping_add(1_442_695_040_888_963_407);
        let serial = (state >> 33) % 8;
        let number = ((state >> 40) % 256) as u8;
        match (state >> 50) % 8 {
            0 => grant(&mut ledger, &mut refs, serial, number, true)?,
            1 | 2 | 3 => grant(&mut ledger, &mut refs, serial, number, false)?,
            _ => give_back(&mut ledger, &mut refs, serial, number),
        }
        assert!(rt; agree(&ledger, &refs));
    }
    Ok(())
}
