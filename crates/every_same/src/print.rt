//! The print of a world: a number by which it is found.
ghost use Rattle.std.specs.Prelude.{◌≡◌, ◌<◌, ◌^◌, fold};
ghost use Rattle.run_rules.specs.declared.world.Setup.{Setup};
ghost use Rattle.plain_world.specs.Plain.{world_of};
ghost use Rattle.every_same.specs.Print.{hardware_print, mark_number, mixed, option_number, print_of, whole_print, with_activity, with_caller, with_deferred, with_device, with_frame, with_ref};

use plain_world::{Caller, Plain};
use run_rules::{Activity, Deferred, Dev, Frame, Ref};

/// An odd number whose product spreads its factor's bits: 2^64 divided by the golden ratio.
const SPREAD: u64 = 11_400_714_819_323_198_485;

/// A print with one number more.
#[inline(always)]
#[tactic(auto, unfolding(crate::specs::Print::mixed))]
fn mix(print: u64, number: u64) -> u64
    ensures { result ≡ mixed print number }
{
    (print ^ number).wrapping_mul(SPREAD)
}

/// A print with a mark more.
#[inline(always)]
fn mix_mark(print: u64, mark: bool) -> u64
    ensures { result ≡ mixed print (mark_number mark) }
{
    mix(print, u64::from(mark))
}

/// A print with a caller more, if there is one.
#[inline(always)]
fn mix_option(print: u64, caller: Option<u8>) -> u64
    ensures { result ≡ mixed print (option_number caller) }
{
    match caller {
        None => mix(print, 0),
        Some(caller) => mix(print, u64::from(caller) + 1),
    }
}

/// A print with a device more.
#[inline(always)]
fn mix_device(print: u64, device: &Dev) -> u64
    ensures { result ≡ with_device print device.now }
{
    let print = mix(print, device.serial);
    let print = mix(print, u64::from(device.row));
    let print = mix(print, u64::from(device.unit));
    let print = mix(print, u64::from(device.spot));
    mix_option(mix_mark(print, device.asleep), device.condemned)
}

/// A print with a reference more.
#[inline(always)]
fn mix_ref(print: u64, held: &Ref) -> u64
    ensures { result ≡ with_ref print held.now }
{
    mix(mix(print, held.serial), u64::from(held.caller))
}

/// A print with a deferred scan more.
#[inline(always)]
fn mix_deferred(print: u64, put_off: &Deferred) -> u64
    ensures { result ≡ with_deferred print put_off.now }
{
    mix(print, put_off.child)
}

/// A print with a frame more.
#[inline(always)]
fn mix_frame(print: u64, frame: &Frame) -> u64
    ensures { result ≡ with_frame print frame.now }
{
    match frame {
        Frame::Scan {
            serial,
            only: _,
            filter: _,
            position,
        } => {
            let print = mix(mix(print, *serial), u64::from(position.attr));
            mix(
                mix(print, u64::from(position.row)),
                u64::from(position.spot),
            )
        }
        Frame::Finaliser { serial } => mix(mix(print, 7), *serial),
    }
}

/// A print with what a caller is in the middle of.
#[inline(always)]
fn mix_activity(print: u64, doing: Activity) -> u64
    ensures { result ≡ with_activity print doing }
{
    match doing {
        Activity::Idle => mix(print, 1),
        Activity::Transfer(ticket) => mix(mix(print, 2), ticket.serial),
        Activity::Frees(serial) => mix(mix(print, 3), serial),
        Activity::Scans => mix(print, 4),
        Activity::Power(_, serial) => mix(mix(print, 5), serial),
        Activity::Ended => mix(print, 6),
    }
}

/// A print with a caller more.
fn mix_caller(print: u64, caller: &Caller) -> u64
    ensures { result ≡ with_caller print caller.now }
{
    let print = mix_activity(mix(print, u64::from(caller.over())), caller.doing());
    caller
        .stack()
        .iter()
        .fold(print, |print, frame| mix_frame(print, frame))
}

/// A print with spots more.
fn mix_spots(print: u64, spots: &[u16]) -> u64
    ensures { result ≡ fold mixed print spots.now }
{
    spots
        .iter()
        .fold(print, |print, spot| mix(print, u64::from(*spot)))
}

/// The print of the devices, of who holds them, and of the spots.
fn hardware_print(plain: &Plain) -> u64
    ensures { (s : Setup) → result ≡ hardware_print (world_of s plain.now) }
{
    let print = plain.live.devices().iter().fold(
        plain.live.next(),
        |print, device| mix_device(print, device),
    );
    let print = plain
        .refs
        .list()
        .iter()
        .fold(print, |print, held| mix_ref(print, held));
    mix_spots(mix_spots(print, plain.absent.spots()), plain.hidden.spots())
}

/// A print with deferred scans more.
fn mix_all_deferred(print: u64, deferred: &[Deferred]) -> u64
    ensures { result ≡ fold with_deferred print deferred.now }
{
    deferred
        .iter()
        .fold(print, |print, put_off| mix_deferred(print, put_off))
}

/// A print with callers more.
fn mix_callers(print: u64, callers: &[Caller]) -> u64
    ensures { result ≡ fold with_caller print callers.now }
{
    callers
        .iter()
        .fold(print, |print, caller| mix_caller(print, caller))
}

/// The print of all that a world has.
fn whole_print(plain: &Plain) -> u64
    ensures { (s : Setup) → result ≡ whole_print (world_of s plain.now) }
{
    let print = mix_option(hardware_print(plain), plain.power_owner);
    mix_callers(
        mix_all_deferred(print, plain.deferred.list()),
        &plain.callers,
    )
}

/// The print of a world.
pub fn print_of(plain: &Plain) -> u64
    ensures { (s : Setup) → result ≡ print_of (world_of s plain.now) }
{
    whole_print(plain)
}
