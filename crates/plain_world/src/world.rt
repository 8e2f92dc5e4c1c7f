//! The world in plain lists.
ghost use Rattle.std.specs.Prelude.{◌≡◌, false, IfOk, slice_get};
ghost use Rattle.std.specs.Option.{option_map_or};
ghost use Rattle.run_rules.specs.World as world;
ghost use Rattle.run_rules.specs.declared.world.Setup.{Setup};
ghost use Rattle.plain_world.specs.Plain.{world_of};

use crate::caller::Caller;
use crate::live::Live;
use crate::put_off::PutOff;
use crate::refs::Refs;
use crate::rules::Rules;
use crate::spot_list::SpotList;
use cf_types::Memory;
use std::alloc::Global;

/// What a run has come to.
#[derive(Drop)]
pub struct Plain {
    /// The live devices in the order in which they were attached, and the serial of the next one.
    pub live: Live,
    /// The references, and the devices that are held solely.
    pub refs: Refs,
    pub sole: Vec<u64>,
    /// The spots without hardware, and the late spots that no finalizer has shown yet.
    pub absent: SpotList,
    pub hidden: SpotList,
    /// Whether interrupts work.
    pub interrupts_on: bool,
    /// The caller that has the power turn.
    pub power_owner: Option<u8>,
    /// The deferred scans.
    pub deferred: PutOff,
    /// The devices with a finalizer, the position in this list, and whether one of this pass answered 1.
    pub finalisers: Vec<u64>,
    pub next_finaliser: u64,
    pub pass_repeats: bool,
    /// Caller 0, which boots, and then the caller of each script.
    pub callers: Vec<Caller>,
}

/// Whether the machine marks a spot late.
fn is_late(rules: &Rules, spot: u16) -> bool
    ensures { result ≡ option_map_or (λ spot. spot.late) (slice_get rules.now.machine.spots spot) false }
{
    match rules.machine.spots.items().get(spot as usize) {
        Some(spot) => spot.late,
        None => false,
    }
}

/// Whether the machine marks a spot absent.
fn is_absent(rules: &Rules, spot: u16) -> bool
    ensures { result ≡ option_map_or (λ spot. spot.absent) (slice_get rules.now.machine.spots spot) false }
{
    match rules.machine.spots.items().get(spot as usize) {
        Some(spot) => spot.absent,
        None => false,
    }
}

/// The late spots.
fn late_spots(alloc: Global, rules: &Rules) -> Result<SpotList, Memory>
    ensures { IfOk result (λ spots. spots ≡ world.late_spots rules.now) }
{
    let mut spots = SpotList::make(alloc);
    for spot in 0..rules.machine.spots.len() as u16 {
        if is_late(rules, spot) {
            spots.push(spot)?;
        }
    }
    Ok(spots)
}

/// The spots without hardware.
fn absent_spots(alloc: Global, rules: &Rules) -> Result<SpotList, Memory>
    ensures { IfOk result (λ spots. spots ≡ world.absent_spots rules.now) }
{
    let mut spots = SpotList::make(alloc);
    for spot in 0..rules.machine.spots.len() as u16 {
        if is_absent(rules, spot) {
            spots.push(spot)?;
        }
    }
    Ok(spots)
}

/// The callers before any event: the one that boots has the scan of the root as its frame.
#[tactic(auto, unfolding(run_rules::specs::World::opening))]
fn beginning(alloc: Global, rules: &Rules) -> Result<Vec<Caller>, Memory>
    ensures { IfOk result (λ callers. callers.items ≡ (world.opening rules.now).callers) }
{
    let mut callers = Vec::new(alloc);
    callers.push(Caller::booting(alloc)?)?;
    for _script in rules.scripts {
        callers.push(Caller::beginning(alloc))?;
    }
    Ok(callers)
}

/// The world before any event.
#[tactic(auto, unfolding(run_rules::specs::World::opening))]
pub fn opening(alloc: Global, rules: &Rules) -> Result<Plain, Memory>
    ensures { IfOk result (λ plain. world_of rules.now plain ≡ world.opening rules.now) }
{
    let absent = absent_spots(alloc, rules)?;
    let hidden = late_spots(alloc, rules)?;
    let callers = beginning(alloc, rules)?;
    Ok(Plain {
        live: Live::make(alloc),
        refs: Refs::make(alloc),
        sole: Vec::new(alloc),
        absent,
        hidden,
        interrupts_on: false,
        power_owner: None,
        deferred: PutOff::make(alloc),
        finalisers: Vec::new(alloc),
        next_finaliser: 0,
        pass_repeats: false,
        callers,
    })
}

/// Copies of callers.
fn copied_callers(alloc: Global, callers: &[Caller]) -> Result<Vec<Caller>, Memory>
    ensures { IfOk result (λ copy. copy.items ≡ callers.now) }
{
    let mut copy = Vec::new(alloc);
    for caller in callers {
        copy.push(caller.copied(alloc)?)?;
    }
    Ok(copy)
}

/// A copy of a world.
pub fn copied(alloc: Global, plain: &Plain) -> Result<Plain, Memory>
    ensures { IfOk result (λ copy. (s : Setup) → world_of s copy ≡ world_of s plain.now) }
{
    let live = plain.live.copied(alloc)?;
    let refs = plain.refs.copied(alloc)?;
    let sole = Vec::from_slice(alloc, &plain.sole)?;
    let absent = plain.absent.copied(alloc)?;
    let hidden = plain.hidden.copied(alloc)?;
    let deferred = plain.deferred.copied(alloc)?;
    let finalisers = Vec::from_slice(alloc, &plain.finalisers)?;
    let callers = copied_callers(alloc, &plain.callers)?;
    Ok(Plain {
        live,
        refs,
        sole,
        absent,
        hidden,
        interrupts_on: plain.interrupts_on,
        power_owner: plain.power_owner,
        deferred,
        finalisers,
        next_finaliser: plain.next_finaliser,
        pass_repeats: plain.pass_repeats,
        callers,
    })
}
