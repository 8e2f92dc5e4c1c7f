//! The event of a deed.
ghost use Rattle.std.specs.Prelude.{◌≡◌, ◌<◌, ◌+◌, ℕ, false, IfOk, IfSome, None, Some, length};
ghost use Rattle.run_rules.specs.declared.deed.Choice.TheVariants.{Does};
ghost use Rattle.run_rules.specs.declared.event.Act.TheVariants as act;
ghost use Rattle.run_rules.specs.Lines.{IsFormed};
ghost use Rattle.run_rules.specs.Next.{name_at, next};
ghost use Rattle.run_rules.specs.Run as run;
ghost use Rattle.run_rules.specs.Run.{event_of};
ghost use Rattle.run_rules.specs.World.{World, name_of, parent_name};
ghost use Rattle.run_world.specs.Events.{IsLive, name_live};
ghost use Rattle.run_world.specs.Recent.{act_telling, called_at};
ghost use Rattle.deed_event.specs.Sayings.{device_told, is_kept};
ghost use Rattle.run_rules.specs.Said.{MayBeTold};
ghost use Rattle.run_world.specs.Arrivals.{got_of};
ghost use Rattle.told_names.specs.Naming.{HasRow};
ghost use Rattle.deed_event.specs.Resting.{rest_of, resting};

use crate::command_act::{answered_act, power_end_act};
use cf_types::{Memory, Name};
use dev_event::put_act;
use run_rules::{Act, Arrival, Deed, Dev, Event, IoAnswer, SharedAct};
use run_world::{Called, Going, Telling};
use std::alloc::Global;
use std::mem::drop;
use told_names::{arrival_got, device_name, live_name, parent_name, shown_of, spot_name};

/// The number of a caller's next event.
#[inline(always)]
fn number_of(going: &Going, caller: u8) -> u32
    requires { caller < length going.now.callers }
    ensures { run.number_of going.now caller ≡ result }
{
    if caller == 0 {
        0
    } else {
        going.caller(caller).over + 1
    }
}

/// How the live device of a serial is called; the root has no row.
#[inline(always)]
fn called_at(going: &Going, serial: u64) -> Option<Called>
    ensures { result ≡ called_at going.now.live serial }
{
    match going.device(serial) {
        Some(device) => Some(Called::of(&device)),
        None => None,
    }
}

/// How many bytes are enough for most texts.
const USUAL: usize = 48;

/// An act with its text.
fn spelled(alloc: Global, act: Act) -> Result<SharedAct, Memory>
    ensures { IfOk result (λ a. a ≡ act) }
{
    let mut text = Vec::with_capacity(alloc, USUAL)?;
    put_act(&mut text, &act)?;
    SharedAct::with_text(alloc, act, text)
}

/// Makes an act with its text, and keeps it for later events that say this about the spot, or about the device there.
fn keep(going: &mut Going, telling: Telling, spot: u16, act: Act) -> Result<SharedAct, Memory>
    requires { act ≡ act_telling going.old.setup telling }
    ensures act { IfOk result (λ a. a ≡ act) }
    ensures same { going.new ≡ going.old }
{
    let act = spelled(going.alloc(), act)?;
    going.keep_act(telling, spot, act.clone()?);
    Ok(act)
}

/// A search of a spot that found nothing, for the first time below this parent.
#[inline(never)]
fn first_nothing_found(going: &mut Going, parent: u64, spot: u16) -> Result<SharedAct, Memory>
    requires spot { spot < length going.old.setup.machine.spots }
    ensures act { IfOk result (λ a. a ≡ act.Found (parent_name going.old.setup going.old.live parent) (run.spot_name going.old.setup spot) None) }
    ensures same { going.new ≡ going.old }
{
    let telling = Telling::NothingFound {
        parent: called_at(going, parent),
        spot,
    };
    let act = Act::Found {
        parent: parent_name(going, parent)?,
        spot: spot_name(going.setup(), spot)?,
        got: None,
    };
    keep(going, telling, spot, act)
}

/// A search of a spot that found nothing.
#[inline(always)]
fn nothing_found(going: &mut Going, parent: u64, spot: u16) -> Result<SharedAct, Memory>
    requires spot { spot < length going.old.setup.machine.spots }
    ensures act { IfOk result (λ a. a ≡ act.Found (parent_name going.old.setup going.old.live parent) (run.spot_name going.old.setup spot) None) }
    ensures same { going.new ≡ going.old }
{
    let telling = Telling::NothingFound {
        parent: called_at(going, parent),
        spot,
    };
    match going.kept_act(telling, spot) {
        Some(act) => Ok(act.clone()?),
        None => first_nothing_found(going, parent, spot),
    }
}

/// A search of a spot to which a device came.
fn attached(
    going: &mut Going,
    parent: u64,
    spot: u16,
    arrival: Arrival,
) -> Result<SharedAct, Memory>
    requires spot { spot < length going.old.setup.machine.spots }
    requires row { arrival.row < length going.old.setup.tables.rows }
    ensures act { IfOk result (λ a. a
        ≡ act.Found (parent_name going.old.setup going.old.live parent) (run.spot_name going.old.setup spot) (run.got_of going.old.setup (Some arrival))) }
    ensures same { going.new ≡ going.old }
{
    let parent = parent_name(going, parent)?;
    let spot = spot_name(going.setup(), spot)?;
    let got = arrival_got(going, arrival)?;
    SharedAct::make(
        going.alloc(),
        Act::Found {
            parent,
            spot,
            got: Some(got),
        },
    )
}

/// A call of a finalizer, with what it showed.
fn finalised(
    going: &mut Going,
    of: u64,
    shown: Option<u16>,
    got: Option<Arrival>,
) -> Result<SharedAct, Memory>
    requires live { IsLive going.old.live of }
    requires spot { IfSome shown (λ x. x < length going.old.setup.machine.spots) }
    requires row { HasRow going.old.setup got }
    ensures act { IfOk result (λ a. a ≡ act.Final (name_live going.old.setup going.old.live of) (run.shown_of going.old.setup shown got)) }
    ensures same { going.new ≡ going.old }
{
    let device = live_name(going, of)?;
    let shown = shown_of(going, shown, got)?;
    SharedAct::make(going.alloc(), Act::Final { device, shown })
}

/// That a device fell asleep, or woke, for the first time.
#[inline(never)]
fn first_rest(going: &mut Going, device: Dev, asleep: bool) -> Result<SharedAct, Memory>
    requires row { device.row < length going.old.setup.tables.rows }
    ensures act { IfOk result (λ a. a ≡ rest_of asleep (name_of going.old.setup device)) }
    ensures same { going.new ≡ going.old }
{
    let name = device_name(going, &device)?;
    keep(
        going,
        resting(asleep, Called::of(&device)),
        device.spot,
        rest_act(asleep, name),
    )
}

/// The act by which a device of this name fell asleep, or woke.
fn rest_act(asleep: bool, device: Name) -> Act
    ensures { result ≡ rest_of asleep device }
{
    if asleep {
        Act::Sleep { device }
    } else {
        Act::Wake { device }
    }
}

/// What the act of a device that fell asleep, or woke, says.
#[inline(always)]
fn resting(asleep: bool, of: Called) -> Telling
    ensures { result ≡ resting asleep of }
{
    if asleep {
        Telling::Sleeps(of)
    } else {
        Telling::Wakes(of)
    }
}

/// That a live device fell asleep, or woke.
#[inline(always)]
fn rest(going: &mut Going, of: u64, asleep: bool) -> Result<SharedAct, Memory>
    requires live { IsLive going.old.live of }
    ensures act { IfOk result (λ a. a ≡ rest_of asleep (name_live going.old.setup going.old.live of)) }
    ensures same { going.new ≡ going.old }
{
    let Some(device) = going.device(of) else {
        unreachable!();
    };
    match going.kept_act(resting(asleep, Called::of(&device)), device.spot) {
        Some(act) => Ok(act.clone()?),
        None => first_rest(going, device, asleep),
    }
}

/// The line of a deed that names only this device, which has this name.
#[tactic(auto, unfolding(run_rules::specs::Run::printed))]
#[inline(always)]
fn line_with(deed: &Deed, of: u64, device: Name) -> Act
    requires { device_told deed.now ≡ Some of }
    ensures { (w : World) (k : ℕ) → device ≡ name_at w of → run.printed w k deed.now ≡ result }
{
    match *deed {
        Deed::Drop { .. } => Act::DropRef { device },
        Deed::Done(ticket) => Act::IoDone {
            device,
            answer: IoAnswer::of(ticket),
        },
        Deed::Free { .. } => Act::Free { device },
        _ => unreachable!(),
    }
}

/// What happens by a deed that names only this device.
#[inline(always)]
fn device_act(going: &Going, of: u64, deed: &Deed) -> Result<Act, Memory>
    requires live { IsLive going.now.live of }
    requires told { device_told deed.now ≡ Some of }
    ensures { (k : ℕ) → IfOk result (λ a. a ≡ run.printed going.now k deed.now) }
{
    match live_name(going, of) {
        Ok(device) => Ok(line_with(deed, of, device)),
        Err(_) => Err(Memory),
    }
}

/// What happens by a deed of which nothing is kept; a deed of a command is described by its command.
#[tactic(auto, unfolding(run_rules::specs::Run::printed))]
#[inline(never)]
fn other_act(going: &Going, caller: u8, deed: &Deed) -> Result<Act, Memory>
    requires caller { caller < length going.now.callers }
    requires may { MayBeTold going.now caller deed.now }
    requires other { is_kept deed.now ≡ false }
    ensures { IfOk result (λ a. a ≡ run.printed going.now caller deed.now) }
{
    match *deed {
        Deed::EndScan { of } => match parent_name(going, of) {
            Ok(device) => Ok(Act::ScanEnd { device }),
            Err(_) => Err(Memory),
        },
        Deed::BeginInterrupts => Ok(Act::Interrupts),
        Deed::EndCaller => Ok(Act::End),
        Deed::Drop { of } => device_act(going, of, deed),
        Deed::Done(ticket) => device_act(going, ticket.serial, deed),
        Deed::Free { of } => device_act(going, of, deed),
        Deed::EndPower(end) => power_end_act(going, caller, end),
        Deed::Refuse(why) => answered_act(going, caller, Some(why)),
        Deed::Search { .. } | Deed::Finalise { .. } | Deed::Sleep { .. } | Deed::Wake { .. } => {
            unreachable!()
        }
        _ => answered_act(going, caller, None),
    }
}

/// Keeps the act of a tree for later events.
fn keep_tree(going: &mut Going, tree: SharedAct) -> Result<SharedAct, Memory>
    ensures act { IfOk result (λ a. a ≡ tree) }
    ensures same { going.new ≡ going.old }
{
    going.keep_tree(tree.clone()?);
    Ok(tree)
}

/// A tree. It shares the last tree, if that is the same; the second time, it has its text.
fn tree_told(going: &mut Going, tree: Act) -> Result<SharedAct, Memory>
    ensures act { IfOk result (λ a. a ≡ tree) }
    ensures same { going.new ≡ going.old }
{
    match going.kept_tree(&tree) {
        Some(told) if told.text().is_some() => {
            let act: Result<_, _> = told.clone();
            drop(tree);
            Ok(act?)
        }
        Some(_) => {
            let tree = spelled(going.alloc(), tree)?;
            keep_tree(going, tree)
        }
        None => {
            let tree = SharedAct::make(going.alloc(), tree)?;
            keep_tree(going, tree)
        }
    }
}

/// The act of a deed of which nothing is kept for its spot.
fn other_told(going: &mut Going, caller: u8, deed: &Deed) -> Result<SharedAct, Memory>
    requires caller { caller < length going.old.callers }
    requires may { MayBeTold going.old caller deed.now }
    requires other { is_kept deed.now ≡ false }
    ensures act { IfOk result (λ a. a ≡ run.printed going.old caller deed.now) }
    ensures same { going.new ≡ going.old }
{
    let act = other_act(going, caller, deed)?;
    match act {
        Act::TreeDev { .. } => tree_told(going, act),
        _ => SharedAct::make(going.alloc(), act),
    }
}

/// What happens by a deed.
#[tactic(auto, unfolding(run_rules::specs::Run::printed))]
#[inline(always)]
fn deed_act(going: &mut Going, caller: u8, deed: &Deed) -> Result<SharedAct, Memory>
    requires caller { caller < length going.old.callers }
    requires may { MayBeTold going.old caller deed.now }
    requires row { HasRow going.old.setup (got_of deed.now) }
    ensures act { IfOk result (λ a. a ≡ run.printed going.old caller deed.now) }
    ensures same { going.new ≡ going.old }
{
    match *deed {
        Deed::Search {
            parent,
            spot,
            got: None,
            ..
        } => nothing_found(going, parent, spot),
        Deed::Search {
            parent,
            spot,
            got: Some(arrival),
            ..
        } => attached(going, parent, spot, arrival),
        Deed::Finalise { of, shown, got, .. } => finalised(going, of, shown, got),
        Deed::Sleep { of } => rest(going, of, true),
        Deed::Wake { of } => rest(going, of, false),
        _ => other_told(going, caller, deed),
    }
}

/// The event of what a caller does next. An act that came before is shared; nothing else of the board changes.
#[tactic(auto, unfolding(run_rules::specs::Run::event_of))]
#[inline(always)]
pub fn deed_event(going: &mut Going, caller: u8, deed: &Deed) -> Result<Event, Memory>
    requires { next going.old caller ≡ Does deed.now }
    ensures event { IfOk result (λ e. e ≡ event_of going.old caller deed.now) }
    ensures formed { IfOk result IsFormed }
    ensures same { going.new ≡ going.old }
{
    going.stands();
    let number = number_of(going, caller);
    let act = deed_act(going, caller, deed)?;
    Ok(Event {
        caller,
        number,
        act,
    })
}
