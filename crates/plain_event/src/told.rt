//! The event of a deed.
ghost use Rattle.std.specs.Prelude.{◌≡◌, ◌<◌, ◌≤◌, ℕ, true, IfOk, IfSome, Some, length};
ghost use Rattle.run_rules.specs.declared.event.Act.TheVariants as act;
ghost use Rattle.run_rules.specs.Next.{name_at};
ghost use Rattle.run_rules.specs.Run as run;
ghost use Rattle.run_rules.specs.World as world;
ghost use Rattle.run_rules.specs.World.{World};
ghost use Rattle.run_rules.specs.declared.world.Setup.{Setup};
ghost use Rattle.plain_event.specs.Tellers.{KeepsRules, setup_in, world_in};
ghost use Rattle.run_rules.specs.Said.{MayBeTold, found_act};
ghost use Rattle.plain_event.specs.Told.{device_told, event_with};
ghost use Rattle.plain_names.specs.Names.{name_live};
ghost use Rattle.plain_world.specs.Plain.{HasCaller, world_of};

use crate::act::KnownAct;
use crate::command_act::{answered_act, over_of, power_end_act};
use crate::teller::Teller;
use crate::telling::{keep, live_name, parent_name, told_before};
use cf_types::{Memory, Name};
use plain_names::{got_of, shown_of, spot_name};
use plain_world::{Live, Plain};
use run_rules::{Act, Arrival, Deed, Event, IoAnswer, SharedAct};

/// A search of a spot, with what came there.
fn found_act(
    teller: &mut Teller,
    live: &Live,
    parent: u64,
    spot: u16,
    got: Option<Arrival>,
) -> Result<Act, Memory>
    requires spot { spot < length teller.old.rules.now.machine.spots }
    ensures act { IfOk result (λ a. a ≡ found_act (setup_in teller.old) live.now.devices parent spot got) }
    ensures rules { KeepsRules teller.old teller.new }
{
    let alloc = teller.alloc;
    let rules = teller.rules;
    let parent = parent_name(teller, live, parent)?;
    let spot = spot_name(rules, spot)?;
    let got = got_of(alloc, rules, got)?;
    Ok(Act::Found { parent, spot, got })
}

/// The end of a scan.
fn scan_end_act(teller: &mut Teller, live: &Live, of: u64) -> Result<Act, Memory>
    ensures act { IfOk result (λ a. a ≡ act.ScanEnd (world.parent_name (setup_in teller.old) live.now.devices of)) }
    ensures rules { KeepsRules teller.old teller.new }
{
    let device = parent_name(teller, live, of)?;
    Ok(Act::ScanEnd { device })
}

/// A call of a finalizer, with what it showed.
#[inline(never)]
fn final_act(
    teller: &mut Teller,
    live: &Live,
    of: u64,
    shown: Option<u16>,
    got: Option<Arrival>,
) -> Result<Act, Memory>
    requires live { world.is_live live.now.devices of ≡ true }
    requires spot { IfSome shown (λ x. x < length teller.old.rules.now.machine.spots) }
    ensures act { IfOk result (λ a. a ≡ act.Final (name_live (setup_in teller.old) live.now.devices of) (run.shown_of (setup_in teller.old) shown got)) }
    ensures rules { KeepsRules teller.old teller.new }
{
    let alloc = teller.alloc;
    let rules = teller.rules;
    let device = live_name(teller, live, of)?;
    let shown = shown_of(alloc, rules, shown, got)?;
    Ok(Act::Final { device, shown })
}

/// The line of a deed that names only this device, which has this name.
#[tactic(auto, unfolding(run_rules::specs::Run::printed))]
fn line_with(deed: &Deed, of: u64, device: Name) -> Act
    requires { device_told deed.now ≡ Some of }
    ensures { (w : World) (k : ℕ) → device ≡ name_at w of → run.printed w k deed.now ≡ result }
{
    match *deed {
        Deed::Drop { .. } => Act::DropRef { device },
        Deed::Done(ticket) => Act::IoDone {
            device,
            answer: IoAnswer::of(ticket),
        },
        Deed::Free { .. } => Act::Free { device },
        Deed::Sleep { .. } => Act::Sleep { device },
        Deed::Wake { .. } => Act::Wake { device },
        _ => unreachable!(),
    }
}

/// What happens by a deed that names only this device.
fn device_act(teller: &mut Teller, plain: &Plain, of: u64, deed: &Deed) -> Result<Act, Memory>
    requires live { world.is_live plain.now.live.devices of ≡ true }
    requires told { device_told deed.now ≡ Some of }
    ensures act { (k : ℕ) → IfOk result (λ a. a ≡ run.printed (world_in teller.old plain.now) k deed.now) }
    ensures rules { KeepsRules teller.old teller.new }
{
    match live_name(teller, &plain.live, of) {
        Ok(device) => Ok(line_with(deed, of, device)),
        Err(_) => Err(Memory),
    }
}

/// What happens by a deed; a deed of a command is described by its command.
#[tactic(auto, unfolding(run_rules::specs::Run::printed))]
fn act_of(teller: &mut Teller, plain: &Plain, caller: u8, deed: &Deed) -> Result<Act, Memory>
    requires few { length plain.now.live.devices ≤ 1024 }
    requires there { caller < length plain.now.callers.items }
    requires may { MayBeTold (world_in teller.old plain.now) caller deed.now }
    ensures act { IfOk result (λ a. a ≡ run.printed (world_in teller.old plain.now) caller deed.now) }
    ensures rules { KeepsRules teller.old teller.new }
{
    let live = &plain.live;
    match *deed {
        Deed::Search {
            parent,
            spot,
            got,
            ..
        } => found_act(teller, live, parent, spot, got),
        Deed::EndScan { of } => scan_end_act(teller, live, of),
        Deed::BeginInterrupts => Ok(Act::Interrupts),
        Deed::Finalise { of, shown, got, .. } => final_act(teller, live, of, shown, got),
        Deed::EndCaller => Ok(Act::End),
        Deed::Drop { of } => device_act(teller, plain, of, deed),
        Deed::Done(ticket) => device_act(teller, plain, ticket.serial, deed),
        Deed::Free { of } => device_act(teller, plain, of, deed),
        Deed::Sleep { of } => device_act(teller, plain, of, deed),
        Deed::Wake { of } => device_act(teller, plain, of, deed),
        Deed::EndPower(end) => power_end_act(teller, plain, caller, end),
        Deed::Refuse(why) => answered_act(teller, plain, caller, Some(why)),
        _ => answered_act(teller, plain, caller, None),
    }
}

/// The number of a caller's next event.
pub fn number_of(plain: &Plain, caller: u8) -> u32
    requires { HasCaller plain.now caller 500 }
    ensures { (s : Setup) → result ≡ run.number_of (world_of s plain.now) caller }
{
    if caller == 0 {
        0
    } else {
        over_of(plain, caller) + 1
    }
}

/// What happens by a deed, which was not kept before.
fn act_anew(
    teller: &mut Teller,
    plain: &Plain,
    caller: u8,
    deed: &Deed,
) -> Result<SharedAct, Memory>
    requires few { length plain.now.live.devices ≤ 1024 }
    requires there { caller < length plain.now.callers.items }
    requires may { MayBeTold (world_in teller.old plain.now) caller deed.now }
    ensures act { IfOk result (λ a. a ≡ run.printed (world_in teller.old plain.now) caller deed.now) }
    ensures rules { KeepsRules teller.old teller.new }
{
    let act = act_of(teller, plain, caller, deed)?;
    let shared = SharedAct::make(teller.alloc, act)?;
    keep(teller, plain, caller, deed, &shared)?;
    Ok(shared)
}

/// The event of a deed whose act was kept.
fn event_again(plain: &Plain, caller: u8, kept: &KnownAct) -> Result<Event, Memory>
    requires caller { HasCaller plain.now caller 500 }
    ensures { (s : Setup) → IfOk result (λ e. e ≡ event_with (world_of s plain.now) caller kept.now.act) }
{
    let act = kept.act.clone()?;
    Ok(Event {
        caller,
        number: number_of(plain, caller),
        act,
    })
}

/// The event of a deed that was not kept before.
#[tactic(auto, unfolding(run_rules::specs::Run::event_of))]
fn event_anew(teller: &mut Teller, plain: &Plain, caller: u8, deed: &Deed) -> Result<Event, Memory>
    requires few { length plain.now.live.devices ≤ 1024 }
    requires caller { HasCaller plain.now caller 500 }
    requires may { MayBeTold (world_in teller.old plain.now) caller deed.now }
    ensures event { IfOk result (λ e. e ≡ run.event_of (world_in teller.old plain.now) caller deed.now) }
    ensures rules { KeepsRules teller.old teller.new }
{
    let act = act_anew(teller, plain, caller, deed)?;
    Ok(Event {
        caller,
        number: number_of(plain, caller),
        act,
    })
}

/// The event of what a caller does next. What it says about devices is shared with earlier events.
#[tactic(auto, unfolding(run_rules::specs::Run::event_of))]
pub fn event_of(
    teller: &mut Teller,
    plain: &Plain,
    caller: u8,
    deed: &Deed,
) -> Result<Event, Memory>
    requires few { length plain.now.live.devices ≤ 1024 }
    requires caller { HasCaller plain.now caller 500 }
    requires may { MayBeTold (world_in teller.old plain.now) caller deed.now }
    ensures event { IfOk result (λ e. e ≡ run.event_of (world_in teller.old plain.now) caller deed.now) }
    ensures rules { KeepsRules teller.old teller.new }
{
    match told_before(teller, plain, deed) {
        Some(kept) => event_again(plain, caller, kept),
        None => event_anew(teller, plain, caller, deed),
    }
}
