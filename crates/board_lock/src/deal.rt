//! The seats of a run.
ghost use Rattle.std.specs.Prelude.{◌≡◌, ◌<◌, ◌≤◌, ◌+◌, ◌++◌, IfOk, OnOk, length};
ghost use Rattle.lease_table.specs.Shown.{first_seat, first_seats};
ghost use Rattle.board_lock.specs.Boards.{scripts_of, spots_of};
ghost use Rattle.board_lock.specs.Seats.{fresh_seat, seats_below};
ghost use Rattle.board_lock.specs.Tallies.{unused};

use crate::names::Naming;
use crate::seat::Seat;
use crate::tally::Shares;
use cf_types::{List, Memory};
use lease_table::{LeaseSeat, Leases};
use std::alloc::Global;

// The seat of a caller.
fn deal<N: Naming>(shares: Shares<N>, caller: u8, leases: Leases) -> Seat<N>
    requires caller { (1 ≤ caller) × (caller ≤ scripts_of N.opening) }
    requires shares { shares ≡ unused 1 }
    requires leases { leases ≡ first_seat N.table (spots_of N.opening) caller }
    ensures { result ≡ fresh_seat (spots_of N.opening) caller }
{
    Seat {
        caller,
        shares,
        ends: 0,
        halted: false,
        looked: None,
        leases,
    }
}

// Deals the seats of the first callers, in order.
fn deal_all<N: Naming>(
    alloc: Global,
    shares: &mut Shares<N>,
    slots: u16,
    callers: &mut Vec<LeaseSeat>,
    seats: &mut List<Seat<N>>,
) -> Result<(), Memory>
    requires callers { callers.old.items ≡ first_seats N.table (spots_of N.opening) (length callers.old.items) }
    requires range { length callers.old.items ≤ scripts_of N.opening }
    requires slots { (slots ≡ spots_of N.opening) × (slots + 1 ≡ N.table.words) }
    requires shares { (shares.old ≡ unused shares.old.parts) × (length callers.old.items ≤ shares.old.parts) }
    ensures { OnOk result (seats.new ≡ seats.old ++ seats_below (spots_of N.opening) (length callers.old.items)) }
{
    let Some(leases) = callers.pop() else {
        return Ok(());
    };
    let caller = leases.caller();
    let leases = Leases::make(alloc, leases, slots)?;
    let seat = deal(shares.split_off(), caller, leases);
    deal_all(alloc, shares, slots, callers, seats)?;
    seats.push(seat)?;
    Ok(())
}

/// The seats of all callers, in order.
pub fn deal_seats<N: Naming>(
    alloc: Global,
    slots: u16,
    shares: Shares<N>,
    callers: List<LeaseSeat>,
) -> Result<List<Seat<N>>, Memory>
    requires callers { callers ≡ first_seats N.table (spots_of N.opening) (scripts_of N.opening) }
    requires slots { (slots ≡ spots_of N.opening) × (slots + 1 ≡ N.table.words) }
    requires shares { shares ≡ unused (scripts_of N.opening) }
    ensures { IfOk result (λ seats. seats ≡ seats_below (spots_of N.opening) (scripts_of N.opening)) }
{
    let mut shares = shares;
    let mut callers = callers.into_vec();
    let mut seats = List::make(alloc);
    deal_all(alloc, &mut shares, slots, &mut callers, &mut seats)?;
    Ok(seats)
}
