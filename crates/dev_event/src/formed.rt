//! Whether an event is formed. See `Lines` for what that means.
ghost use Rattle.std.specs.Prelude.{◌≡◌, ◌<◌, ◌^◌, ◌↔◌, IsTrue, IfSome};
ghost use Rattle.std.specs.List.{AllByRecursion};
ghost use Rattle.run_rules.specs.Lines as rule;

use crate::cut::is_known_name;
use cf_text::is_name;
use cf_types::{List, Name};
use run_rules::{Act, DepthName, Event, Got, IoAnswer, Reply, Shown};

/// The greatest number of a row.
const MAX_ROW: u32 = 8191;

/// The greatest length of a name that may be written.
const MAX_WRITTEN: usize = 63;

/// The greatest caller.
const MAX_CALLER: u8 = 16;

fn is_name_of_device(name: &Name) -> bool
    ensures { result ≡ rule.is_device_name name.now }
{
    let bytes = name.bytes();
    is_known_name(bytes) && bytes[bytes.len() - 1].is_ascii_digit()
}

fn is_formed_name(name: &Name) -> bool
    ensures { result ≡ rule.is_known_name name.now }
{
    is_known_name(name.bytes())
}

#[tactic(auto, unfolding(run_rules::specs::World::root_name))]
fn is_spot_name(name: &Name) -> bool
    ensures { result ≡ rule.is_spot_name name.now }
{
    let bytes = name.bytes();
    bytes.len() <= MAX_WRITTEN && is_name(bytes) && bytes != b"root".as_slice()
}

fn may_open(reply: &Reply) -> bool
    ensures { IsTrue result ↔ rule.MayOpen reply.now }
{
    match reply {
        Reply::Ok | Reply::NoDevice | Reply::Gone | Reply::Exclusive | Reply::TooMany => true,
        _ => false,
    }
}

fn may_open_sole(reply: &Reply) -> bool
    ensures { IsTrue result ↔ rule.MayOpenSole reply.now }
{
    match reply {
        Reply::Ok | Reply::NoDevice | Reply::Gone | Reply::Shared => true,
        _ => false,
    }
}

fn may_close(reply: &Reply) -> bool
    ensures { IsTrue result ↔ rule.MayClose reply.now }
{
    match reply {
        Reply::Ok | Reply::NotHeld => true,
        _ => false,
    }
}

fn may_start(reply: &Reply) -> bool
    ensures { IsTrue result ↔ rule.MayStart reply.now }
{
    match reply {
        Reply::Ok | Reply::NotHeld | Reply::Asleep => true,
        _ => false,
    }
}

fn may_detach(reply: &Reply) -> bool
    ensures { IsTrue result ↔ rule.MayDetach reply.now }
{
    match reply {
        Reply::Ok | Reply::NoDevice | Reply::Gone => true,
        Reply::Busy(name) => is_name_of_device(name),
        _ => false,
    }
}

fn may_rescan(reply: &Reply) -> bool
    ensures { IsTrue result ↔ rule.MayRescan reply.now }
{
    match reply {
        Reply::Ok | Reply::NoDevice | Reply::Gone | Reply::Asleep => true,
        Reply::NoRescan | Reply::BadAttribute | Reply::BadLocator => true,
        Reply::Busy(name) => is_name_of_device(name),
        _ => false,
    }
}

fn may_power(reply: &Reply) -> bool
    ensures { IsTrue result ↔ rule.MayPower reply.now }
{
    match reply {
        Reply::Ok | Reply::NoDevice | Reply::Gone => true,
        _ => false,
    }
}

fn may_end_power(reply: &Reply) -> bool
    ensures { IsTrue result ↔ rule.MayEndPower reply.now }
{
    match reply {
        Reply::Ok | Reply::Gone => true,
        Reply::NotSupported(name) | Reply::SuspendFailed(name) => is_name_of_device(name),
        _ => false,
    }
}

fn may_plug(reply: &Reply) -> bool
    ensures { IsTrue result ↔ rule.MayPlug reply.now }
{
    match reply {
        Reply::Ok | Reply::NoSpot => true,
        _ => false,
    }
}

fn may_unplug(reply: &Reply) -> bool
    ensures { IsTrue result ↔ rule.MayUnplug reply.now }
{
    match reply {
        Reply::Ok | Reply::NoSpot => true,
        Reply::Busy(name) => is_name_of_device(name),
        _ => false,
    }
}

fn is_formed_got(got: &Option<Got>) -> bool
    ensures { IsTrue result ↔ IfSome got.now rule.IsFormedGot }
{
    match got {
        Some(got) => is_name_of_device(&got.name) && got.row <= MAX_ROW,
        None => true,
    }
}

fn is_formed_shown(shown: &Option<Shown>) -> bool
    ensures { IsTrue result ↔ IfSome shown.now rule.IsFormedShown }
{
    match shown {
        Some(shown) => is_spot_name(&shown.spot) && is_formed_got(&shown.got),
        None => true,
    }
}

fn are_devices(names: &[Name]) -> bool
    ensures { IsTrue result ↔ AllByRecursion rule.IsDeviceName names.now }
{
    names.iter().all(|name| is_name_of_device(name))
}

fn is_deep_device(one: &DepthName) -> bool
    ensures { IsTrue result ↔ rule.IsFormedDepthName one.now }
{
    let _depth = one.depth;
    is_name_of_device(&one.name)
}

fn are_deep_devices(names: &[DepthName]) -> bool
    ensures { IsTrue result ↔ AllByRecursion rule.IsFormedDepthName names.now }
{
    for one in names {
        if !is_deep_device(one) {
            return false;
        }
    }
    true
}

fn may_list(device: &Option<Name>, names: &Option<List<Name>>) -> bool
    ensures { IsTrue result ↔ rule.MayTell rule.IsDeviceName device.now names.now }
{
    match (device, names) {
        (None, None) => false,
        (None, Some(names)) => are_devices(names.items()),
        (Some(device), None) => is_formed_name(device),
        (Some(device), Some(names)) => is_formed_name(device) && are_devices(names.items()),
    }
}

fn may_tree(device: &Option<Name>, names: &Option<List<DepthName>>) -> bool
    ensures { IsTrue result ↔ rule.MayTell rule.IsFormedDepthName device.now names.now }
{
    match (device, names) {
        (None, None) => false,
        (None, Some(names)) => are_deep_devices(names.items()),
        (Some(device), None) => is_formed_name(device),
        (Some(device), Some(names)) => is_formed_name(device) && are_deep_devices(names.items()),
    }
}

fn is_formed_transfer(device: &Name, value: u32, reply: &Reply) -> bool
    ensures { IsTrue result ↔ (rule.IsFormedName device.now × rule.MayStart reply.now × (value < 2 ^ 32)) }
{
    is_formed_name(device) && may_start(reply)
}

fn is_formed_answer(device: &Name, answer: IoAnswer) -> bool
    ensures { IsTrue result ↔ (rule.IsFormedName device.now × rule.IsFormedAnswer answer) }
{
    match answer {
        IoAnswer::Number(_) => is_formed_name(device),
        IoAnswer::DeviceError => is_formed_name(device),
    }
}

fn is_formed_act(act: &Act) -> bool
    ensures { IsTrue result ↔ rule.IsFormedAct act.now }
{
    match act {
        Act::Found { parent, spot, got } => {
            is_formed_name(parent) && is_spot_name(spot) && is_formed_got(got)
        }
        Act::ScanEnd { device } => is_formed_name(device),
        Act::Interrupts => true,
        Act::Final { device, shown } => is_formed_name(device) && is_formed_shown(shown),
        Act::End => true,
        Act::DropRef { device } => is_formed_name(device),
        Act::OpenDev { device, reply } => is_formed_name(device) && may_open(reply),
        Act::OpenSole { device, reply } => is_formed_name(device) && may_open_sole(reply),
        Act::CloseDev { device, reply } => is_formed_name(device) && may_close(reply),
        Act::IoStart {
            device,
            value,
            reply,
        } => is_formed_transfer(device, *value, reply),
        Act::IoDone { device, answer } => is_formed_answer(device, *answer),
        Act::Detach { device, reply } => is_formed_name(device) && may_detach(reply),
        Act::Free { device } => is_formed_name(device),
        Act::Rescan { device, reply } => is_formed_name(device) && may_rescan(reply),
        Act::ListDev { device, names } => may_list(device, names),
        Act::TreeDev { device, names } => may_tree(device, names),
        Act::Power { device, reply, .. } => is_formed_name(device) && may_power(reply),
        Act::Sleep { device } => is_formed_name(device),
        Act::Wake { device } => is_formed_name(device),
        Act::PowerEnd { device, reply } => is_formed_name(device) && may_end_power(reply),
        Act::Plug { spot, reply } => is_formed_name(spot) && may_plug(reply),
        Act::Unplug { spot, reply } => is_formed_name(spot) && may_unplug(reply),
    }
}

/// Whether an event is formed.
pub fn is_formed(event: &Event) -> bool
    ensures { IsTrue result ↔ rule.IsFormed event.now }
{
    let _number = event.number;
    event.caller <= MAX_CALLER && is_formed_act(event.act.get())
}
