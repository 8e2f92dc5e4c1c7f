//! The parts of a board that events change.
ghost use Rattle.std.specs.Prelude.{◌≡◌, ◌≤◌, ◌<◌, ◌+◌, ◌++◌, ◌∷◌, [], length, IfOk, vec_len, vec_capacity};
ghost use Rattle.run_rules.specs.World as world;
ghost use Rattle.run_world.specs.View.{IsFirst, callers_of};

use crate::caller::{CallerState, new_scan};
use crate::recent::Recent;
use crate::spot_set::SpotSet;
use crate::spots::{is_absent, is_late};
use cf_types::Memory;
use defer_queue::DeferQueue;
use dev_tree::DevTree;
use match_search::LiveRows;
use ref_ledger::Refs;
use run_rules::Setup;
use std::alloc::Global;
use unit_alloc::Units;

/// What events change.
#[derive(Drop)]
pub struct Core {
    pub tree: DevTree,
    /// For each row whether it is live.
    pub rows: LiveRows,
    /// The units of live devices.
    pub units: Units,
    pub refs: Refs,
    /// The spots without hardware, and the late spots that no finalizer has shown yet.
    pub absent: SpotSet,
    pub hidden: SpotSet,
    /// Whether interrupts work.
    pub interrupts_on: bool,
    /// The caller that has the power turn.
    pub power_owner: Option<u8>,
    /// The deferred scans.
    pub deferred: DeferQueue,
    /// The devices with a finalizer, the position in this list, and whether one of this pass answered 1.
    pub finalisers: Vec<u64>,
    pub next_finaliser: u64,
    pub pass_repeats: bool,
    /// Caller 0, which boots, and then the caller of each script.
    pub callers: Vec<CallerState>,
    /// What was last printed for each spot, so that it need not be made again. The world does not show it.
    pub recent: Recent,
}

/// The late spots.
fn late_spots(alloc: Global, setup: &Setup) -> Result<SpotSet, Memory>
    requires few { length setup.now.machine.spots ≤ 1024 }
    ensures { IfOk result (λ spots. spots ≡ world.late_spots setup.now) }
{
    let mut spots = SpotSet::make(alloc);
    for spot in 0..setup.machine.spots.len() as u16 {
        if is_late(setup, spot) {
            spots.push(spot)?;
        }
    }
    Ok(spots)
}

/// The spots without hardware.
fn absent_spots(alloc: Global, setup: &Setup) -> Result<SpotSet, Memory>
    requires few { length setup.now.machine.spots ≤ 1024 }
    ensures { IfOk result (λ spots. spots ≡ world.absent_spots setup.now) }
{
    let mut spots = SpotSet::make(alloc);
    for spot in 0..setup.machine.spots.len() as u16 {
        if is_absent(setup, spot) {
            spots.push(spot)?;
        }
    }
    Ok(spots)
}

/// The callers before any event: the one that boots has the scan of the root as its frame.
fn beginning(alloc: Global, setup: &Setup) -> Result<Vec<CallerState>, Memory>
    ensures { IfOk result (λ callers. callers_of callers.items ≡ (world.opening setup.now).callers) }
{
    let mut callers = Vec::new(alloc);
    let mut booting = CallerState::beginning(alloc);
    booting.stack.reserve(1)?;
    booting.push(new_scan(alloc, 0));
    callers.push(booting)?;
    for _script in setup.scripts.items() {
        callers.push(CallerState::beginning(alloc))?;
    }
    Ok(callers)
}

/// The parts before any event: the scan of the root is before caller 0, and late spots are hidden.
pub fn opening_core(alloc: Global, setup: &Setup) -> Result<Core, Memory>
    requires few { length setup.now.machine.spots ≤ 1024 }
    requires few_devices { length setup.now.tables.devices ≤ 65536 }
    ensures { IfOk result (IsFirst setup.now) }
{
    let hidden = late_spots(alloc, setup)?;
    let absent = absent_spots(alloc, setup)?;
    let rows = LiveRows::make(alloc, &setup.tables)?;
    let units = Units::make(alloc, setup.tables.devices.len() as u32)?;
    let callers = beginning(alloc, setup)?;
    let recent = Recent::make(alloc, setup.machine.spots.len())?;
    Ok(Core {
        tree: DevTree::make(alloc),
        rows,
        units,
        refs: Refs::make(alloc),
        absent,
        hidden,
        interrupts_on: false,
        power_owner: None,
        deferred: DeferQueue::make(alloc),
        finalisers: Vec::new(alloc),
        next_finaliser: 0,
        pass_repeats: false,
        callers,
        recent,
    })
}

/// Appends to a vector that has room.
#[inline(always)]
pub fn append<T: Drop>(list: &mut Vec<T>, value: T)
    requires { vec_len list.old < vec_capacity list.old }
    ensures items { list.new.items ≡ list.old.items ++ value ∷ [] }
    ensures len { vec_len list.new ≡ vec_len list.old + 1 }
    ensures room { vec_capacity list.old ≤ vec_capacity list.new }
{
    list.push_reserved(value);
}
