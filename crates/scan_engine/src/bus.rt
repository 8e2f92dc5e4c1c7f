//! The turns of one place that a scan goes through.
ghost use Rattle.std.specs.Prelude.{◌≡◌, ◌≤◌, map, flat_map, length, true, false};
ghost use Rattle.cf_types.specs.Numbers.{below};
ghost use Rattle.run_rules.specs.Search.{bus_turns, child_spots};
ghost use Rattle.scan_engine.specs.Buses.{begin_in, row_turn, turn_on};
ghost use Rattle.run_rules.specs.Spans.{HoldsChildren};
ghost use Rattle.scan_engine.specs.Turns.{first_from};

use crate::spans::Children;
use crate::spots::next_child;
use cf_types::{Machine, Place};
use run_rules::{Position, Turn};

/// A place that a scan goes through: its number among those places, the place, and whether it is searched row by row.
#[derive(Clone, Copy)]
pub struct Bus {
    pub attr: u16,
    pub place: Place,
    pub indirect: bool,
}

impl Bus {
    /// Where a scan that goes on from a position begins on this bus: there, or at the start of a later bus.
    #[inline(always)]
    pub fn begin(self, from: Position) -> Position
        ensures { result ≡ begin_in self.attr from }
    {
        if self.attr == from.attr {
            from
        } else {
            Position {
                attr: self.attr,
                row: 0,
                spot: 0,
            }
        }
    }
}

/// The first turn of a row from a spot on.
#[inline(always)]
fn row_turn(machine: &Machine, children: Children, bus: Bus, row: u32, spot: u16) -> Option<Turn>
    requires few { length machine.now.spots ≤ 1024 }
    requires span { HoldsChildren machine.now children.spot children.span }
    ensures { row_turn machine.now children.spot bus row spot ≡ result }
{
    let spot = next_child(machine, children.spot, children.span, bus.place, spot)?;
    Some(Turn {
        at: Position {
            attr: bus.attr,
            row,
            spot,
        },
        place: bus.place,
        indirect: bus.indirect,
    })
}

/// The first turn of a direct bus that is not before a position on it: spot by spot.
#[inline(always)]
fn direct_turn(machine: &Machine, children: Children, bus: Bus, from: Position) -> Option<Turn>
    requires few { length machine.now.spots ≤ 1024 }
    requires span { HoldsChildren machine.now children.spot children.span }
    requires here { from.attr ≡ bus.attr }
    ensures { first_from (map (turn_on bus 0) (child_spots machine.now children.spot bus.place)) from ≡ result }
{
    if from.row > 0 {
        return None;
    }
    row_turn(machine, children, bus, 0, from.spot)
}

/// The first turn of an indirect bus that is not before a position on it: row by row, and in each row spot by spot.
#[inline(always)]
fn indirect_turn(
    machine: &Machine,
    rows: u32,
    children: Children,
    bus: Bus,
    from: Position,
) -> Option<Turn>
    requires few { length machine.now.spots ≤ 1024 }
    requires span { HoldsChildren machine.now children.spot children.span }
    requires few_rows { rows ≤ 8192 }
    requires here { from.attr ≡ bus.attr }
    ensures { first_from (flat_map (λ r. map (turn_on bus r) (child_spots machine.now children.spot bus.place)) (below rows)) from ≡ result }
{
    if from.row >= rows {
        return None;
    }
    let next = from.row + 1;
    match row_turn(machine, children, bus, from.row, from.spot) {
        Some(turn) => Some(turn),
        None => {
            if next < rows {
                row_turn(machine, children, bus, next, 0)
            } else {
                None
            }
        }
    }
}

/// The first turn of a bus that is not before a position on it.
#[inline(always)]
pub fn bus_turn(
    machine: &Machine,
    rows: u32,
    children: Children,
    bus: Bus,
    from: Position,
) -> Option<Turn>
    requires few { length machine.now.spots ≤ 1024 }
    requires span { HoldsChildren machine.now children.spot children.span }
    requires few_rows { rows ≤ 8192 }
    requires here { from.attr ≡ bus.attr }
    ensures { first_from (bus_turns machine.now rows bus.indirect children.spot (bus.attr, bus.place)) from ≡ result }
{
    if bus.indirect {
        indirect_turn(machine, rows, children, bus, from)
    } else {
        direct_turn(machine, children, bus, from)
    }
}
