//! A table from spots to the devices on them.
ghost use Rattle.std.specs.Prelude.{◌≡◌, ◌<◌, ◌==◌, ℕ, Some, None, if◌then◌else◌, length, OnOk};
ghost use Rattle.std.specs.List.{slice_index_or};

use cf_types::Memory;

/// Makes a table reach a spot, with nothing on those that it did not reach. At `Memory` it is as before.
pub fn reach(spots: &mut Vec<Option<u64>>, spot: u16) -> Result<(), Memory>
    ensures same { (x : ℕ) → slice_index_or spots.new.items x None ≡ slice_index_or spots.old.items x None }
    ensures ok { OnOk result (spot < length spots.new.items) }
{
    let wanted = spot as usize + 1;
    if spots.len() < wanted {
        spots.resize(wanted, None)?;
    }
    Ok(())
}

/// Puts a device on a spot that the table reaches.
pub fn put_on(spots: &mut Vec<Option<u64>>, spot: u16, serial: u64)
    requires { spot < length spots.old.items }
    ensures { (x : ℕ) → slice_index_or spots.new.items x None ≡ (if spot == x then Some serial else slice_index_or spots.old.items x None) }
{
    spots[spot as usize] = Some(serial);
}

/// Takes the device off a spot.
pub fn take_off(spots: &mut Vec<Option<u64>>, spot: u16)
    ensures { (x : ℕ) → slice_index_or spots.new.items x None ≡ (if spot == x then None else slice_index_or spots.old.items x None) }
{
    if (spot as usize) < spots.len() {
        spots[spot as usize] = None;
    }
}
