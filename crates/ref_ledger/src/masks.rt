//! Who holds each device, as a mask of callers for each device that is held.
ghost use Rattle.std.specs.Prelude.{◌≡◌, ◌≤◌, ◌<◌, ◌-◌, ◌==◌, ◌^◌, false, length, vec_len, vec_capacity, find, insert, option_map, MatchResult};
ghost use Rattle.std.specs.Int.{bit_at};
ghost use Rattle.ref_ledger.specs.Masks.{AreBySerial, IsGap, IsOwn, IsPlace, IsWritten, has_caller, mask_in, with_caller, without_caller};
ghost use Rattle.ref_ledger.specs.Refs.{IsHolder};

/// Who holds a device: bit k-1 stands for caller k.
#[derive(Clone, Copy)]
pub struct Mask {
    pub serial: u64,
    pub callers: u16,
}

/// Whether a mask has a caller.
pub fn has_bit(callers: u16, caller: u8) -> bool
    ensures { result ≡ has_caller callers caller }
{
    caller != 0 && caller <= 16 && (callers >> (caller - 1)) & 1 == 1
}

/// The place of a device's mask, or the one to which it belongs.
fn place_of(masks: &[Mask], serial: u64) -> usize
    requires { AreBySerial masks.now }
    ensures { IsPlace masks.now serial result }
{
    masks.partition_point(|mask| mask.serial < serial)
}

/// The place of a device's mask; if it has none, the one to which it belongs.
fn seat_of(masks: &[Mask], serial: u64) -> Result<usize, usize>
    requires { AreBySerial masks.now }
    ensures { MatchResult result (IsOwn masks.now serial) (IsGap masks.now serial) }
{
    let place = place_of(masks, serial);
    if place < masks.len() && masks[place].serial == serial {
        Ok(place)
    } else {
        Err(place)
    }
}

/// Who holds a device; 0 if nobody does.
pub fn mask_of(masks: &[Mask], serial: u64) -> u16
    requires { AreBySerial masks.now }
    ensures { result ≡ mask_in masks.now serial }
{
    match seat_of(masks, serial) {
        Ok(place) => masks[place].callers,
        Err(_) => 0,
    }
}

/// Puts a mask at a place, in a list that has room.
fn put_at(masks: &mut Vec<Mask>, place: usize, mask: Mask)
    requires place { place ≤ vec_len masks.old }
    requires room { vec_len masks.old < vec_capacity masks.old }
    ensures { masks.new.items ≡ insert masks.old.items place mask }
{
    let _ = masks.insert(place, mask);
}

/// Adds a caller to a device's mask, in a list that has room for a new one.
pub fn add_caller(masks: &mut Vec<Mask>, serial: u64, caller: u8)
    requires order { AreBySerial masks.old.items }
    requires caller { IsHolder caller }
    requires room { vec_len masks.old < vec_capacity masks.old }
    ensures { IsWritten masks.old.items serial (with_caller (mask_in masks.old.items serial) caller) masks.new.items }
{
    let bit = 1 << (caller - 1);
    match seat_of(masks, serial) {
        Ok(place) => {
            let callers = masks[place].callers | bit;
            masks[place] = Mask { serial, callers };
        }
        Err(place) => put_at(
            masks,
            place,
            Mask {
                serial,
                callers: bit,
            },
        ),
    }
}

/// Removes a caller from a device's mask. A device that nobody holds has none.
pub fn remove_caller(masks: &mut Vec<Mask>, serial: u64, caller: u8)
    requires order { AreBySerial masks.old.items }
    requires caller { IsHolder caller }
    ensures { IsWritten masks.old.items serial (without_caller (mask_in masks.old.items serial) caller) masks.new.items }
{
    match seat_of(masks, serial) {
        Ok(place) => {
            let callers = masks[place].callers & !(1 << (caller - 1));
            if callers == 0 {
                masks.remove(place);
            } else {
                masks[place] = Mask { serial, callers };
            }
        }
        Err(_) => {}
    }
}

/// The first device that a caller holds, by serial.
pub fn first_with(masks: &[Mask], caller: u8) -> Option<u64>
    ensures { result ≡ option_map (λ m. m.serial) (find (λ m. has_caller m.callers caller) masks.now) }
{
    masks
        .iter()
        .find(|mask| has_bit(mask.callers, caller))
        .map(|mask| mask.serial)
}
