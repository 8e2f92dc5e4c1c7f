//! The table of the leases, its seats and its keeper.
ghost use Rattle.std.specs.Prelude.{◌≡◌, ◌≢◌, ℕ, ◌<◌, ◌≤◌, ◌+◌, ◌-◌, ◌*◌, ◌/◌, ◌%◌, ◌^◌, true, [], length, IfOk, Some, slice_get};
ghost use Rattle.std.specs.Int.{bit_at};
ghost use Rattle.atomic_table.specs.Seated.{TableId};
ghost use Rattle.ref_ledger.specs.declared.state.SlotState.TheVariants.{Free, Live, Condemned};
ghost use Rattle.lease_table.specs.declared.view.Claim.TheVariants.{Nothing, Held};
ghost use Rattle.lease_table.specs.Leases.{claim_at, showing, with_claim, gained_from, without, keeper_view, drawn_view, dealt, dealt_to, slot_at, knowing};
ghost use Rattle.lease_table.specs.Shown.{SeatShown, KeeperShown, first_seats, states_in, BuryIs};
ghost use Rattle.lease_table.specs.Taken.{TakenIs};
ghost use Rattle.lease_table.specs.Words.{is_holder, said};

use crate::lease::Lease;
use crate::rule::{Condemns, Deals, Frees, Gives, LeaseRule, Looks, Peeks, Publishes, Takes};
use crate::view::{SlotWord, View};
use atomic_table::{Seat, Table};
use cf_types::{List, Memory};
use ref_ledger::{Buried, Bury};
use std::alloc::Global;
use std::marker::Model;

/// The words of the slots. It is shared by `&`: no call waits, and once the table is made none takes memory. Contracts
/// see which table it is.
#[derive(Drop)]
pub struct LeaseTable {
    table: Table<(), View, u16, LeaseRule, Global>,
}

impl Model for LeaseTable {
    ghost Value = { TableId };

    ghost view = { λ t. t.table.shared.table_id };

    ghost invariant = { λ t. t.table.shared.table_id.words ≡ t.table.shared.key + 1 };
}

/// The seat of a caller from 1 to 16. Contracts see its table, its caller and its view: what the caller has of each slot, how
/// many words were shown to it, and the last of them with its slot.
#[derive(Drop)]
pub struct LeaseSeat {
    seat: Seat<(), View>,
    caller: u8,
}

impl Model for LeaseSeat {
    ghost Value = { SeatShown };

    ghost view = { λ s. record { table = s.seat.table_id; caller = s.caller; view = s.seat.me.0 } };

    ghost invariant = { λ s. (s.seat.me.0.standing.number ≡ s.caller) × (0 < s.caller) × (s.caller ≤ 16) };
}

/// The seat that publishes, condemns and buries slots; there is one, and it is behind the device lock. Contracts see
/// its table and its view: the record of each slot, how many burials were denied, and the word of the last denial.
#[derive(Drop)]
pub struct LeaseKeeper {
    seat: Seat<(), View>,
}

impl Model for LeaseKeeper {
    ghost Value = { KeeperShown };

    ghost view = { λ s. record { table = s.seat.table_id; view = s.seat.me.0 } };

    ghost invariant = { λ s. (s.seat.me.0.standing.keeps ≡ true) × (length s.seat.me.0.standing.slots + 1 ≡ s.seat.table_id.words) };
}

/// The answer to a try for a lease: a lease, or the generation of a slot that is condemned or not live.
pub enum Taken {
    Lease(Lease),
    Condemned(u64),
    Free(u64),
}

fn word_of(word: u64) -> SlotWord
    ensures { result ≡ said word }
{
    SlotWord {
        generation: word >> 18,
        live: (word >> 16) & 1 == 1,
        condemned: (word >> 17) & 1 == 1,
        holders: (word & 0xffff) as u16,
    }
}

// The holders that a word names.
fn low_of(word: u64) -> u16
    ensures { result ≡ (said word).holders }
{
    (word & 0xffff) as u16
}

// The free word of the next generation.
fn free_word(generation: u64) -> u64
    requires { generation < 2 ^ 46 }
    ensures { result ≡ ((generation + 1) % 2 ^ 46) * 2 ^ 18 }
{
    ((generation + 1) % 0x4000_0000_0000) * 0x4_0000
}

// The bit of a caller.
fn own_bit(caller: u8) -> u64
    requires { (0 < caller) × (caller ≤ 16) }
    ensures { result ≡ 2 ^ (caller - 1) }
{
    1 << (caller - 1)
}

// All bits but the caller's.
fn other_bits(caller: u8) -> u64
    requires { (0 < caller) × (caller ≤ 16) }
    ensures own { bit_at result (caller - 1) ≡ 0 }
    ensures others { (b : ℕ) → b < 64 → b ≢ caller - 1 → bit_at result b ≡ 1 }
{
    let bit = own_bit(caller);
    !bit
}

impl LeaseSeat {
    /// The caller's number.
    pub fn caller(&self) -> u8
        ensures caller { result ≡ self.now.caller }
        ensures range { (0 < result) × (result ≤ 16) }
    {
        self.caller
    }
}

impl LeaseTable {
    /// A table with free slots, and its keeper.
    fn open(alloc: Global, slots: u16) -> Result<(LeaseTable, LeaseKeeper), Memory>
        ensures keeper { IfOk result (λ r. r.1.view ≡ keeper_view slots) }
        ensures table { IfOk result (λ r. r.1.table ≡ r.0) }
        ensures words { IfOk result (λ r. r.0.words ≡ slots + 1) }
    {
        let words = vec![in alloc; 0u64; slots as usize + 1]?;
        let (table, seat) = Table::<(), View, u16, LeaseRule, Global>::of_words(
            alloc,
            words.as_slice(),
            &slots,
        )?;
        Ok((LeaseTable { table }, LeaseKeeper { seat }))
    }

    /// A table with free slots, its keeper, and the seats of callers 1, 2, .. in order.
    pub fn make(
        alloc: Global,
        slots: u16,
        callers: u8,
    ) -> Result<(LeaseTable, LeaseKeeper, List<LeaseSeat>), Memory>
        requires { callers ≤ 16 }
        ensures keeper { IfOk result (λ r. r.1 ≡ record { table = r.0; view = drawn_view slots callers }) }
        ensures words { IfOk result (λ r. r.0.words ≡ slots + 1) }
        ensures seats { IfOk result (λ r. r.2 ≡ first_seats r.0 slots callers) }
    {
        let (table, mut keeper) = LeaseTable::open(alloc, slots)?;
        let mut seats = List::make(alloc);
        for i in 0..callers {
            seats.push(table.seat(&mut keeper, i + 1))?;
        }
        Ok((table, keeper, seats))
    }

    /// The seat of the next caller.
    fn seat(&self, keeper: &mut LeaseKeeper, caller: u8) -> LeaseSeat
        requires table { keeper.old.table ≡ self.now }
        requires next { (caller ≡ keeper.old.view.standing.drawn + 1) × (caller ≤ 16) }
        ensures keeper { (keeper.new.view ≡ dealt keeper.old.view) × (keeper.new.table ≡ keeper.old.table) }
        ensures seat { (result.view ≡ dealt_to keeper.old.view) × (result.caller ≡ caller) × (result.table ≡ keeper.old.table) }
    {
        LeaseSeat {
            seat: self.table.shared.split_seat::<Deals>(&mut keeper.seat),
            caller,
        }
    }

    /// Looks at the slot of a lease by one load. The answer is the word that the seat saw last: it has the lease's
    /// generation, is live, and has the caller's own bit, whatever other threads do.
    pub fn look(&self, seat: &mut LeaseSeat, lease: &Lease) -> SlotWord
        requires table { seat.old.table ≡ self.now }
        requires slot { lease.now.slot + 1 < self.now.words }
        requires held { claim_at seat.old.view.standing lease.now.slot ≡ Held lease.now.generation }
        ensures live { result.live ≡ true }
        ensures generation { result.generation ≡ lease.now.generation }
        ensures own { is_holder result seat.old.caller ≡ true }
        ensures shown { seat.new.view ≡ showing seat.old.view seat.old.view.standing lease.now.slot result }
        ensures same { (seat.new.table ≡ seat.old.table) × (seat.new.caller ≡ seat.old.caller) }
    {
        let word = self
            .table
            .shared
            .load::<Looks>(&mut seat.seat, lease.slot as usize);
        word_of(word)
    }

    /// Tries for a lease: one step sets the caller's bit, and the word that was there decides. If there is no lease,
    /// the bit is cleared again.
    pub fn take(&self, seat: &mut LeaseSeat, slot: u16) -> Taken
        requires table { seat.old.table ≡ self.now }
        requires slot { slot + 1 < self.now.words }
        requires none { claim_at seat.old.view.standing slot ≡ Nothing }
        ensures taken { TakenIs slot seat.old.view result seat.new.view }
        ensures same { (seat.new.table ≡ seat.old.table) × (seat.new.caller ≡ seat.old.caller) }
    {
        let bit = own_bit(seat.caller);
        let word = self
            .table
            .shared
            .fetch_or::<Takes>(&mut seat.seat, slot as usize, bit);
        let said = word_of(word);
        if said.condemned {
            self.clear(seat, slot);
            return Taken::Condemned(said.generation);
        }
        if said.live {
            return Taken::Lease(Lease {
                slot,
                generation: said.generation,
            });
        }
        self.clear(seat, slot);
        Taken::Free(said.generation)
    }

    /// Gives a lease back: one step clears the caller's bit.
    pub fn give(&self, seat: &mut LeaseSeat, lease: Lease)
        requires table { seat.old.table ≡ self.now }
        requires slot { lease.slot + 1 < self.now.words }
        requires held { claim_at seat.old.view.standing lease.slot ≡ Held lease.generation }
        ensures given { seat.new.view ≡ without seat.old.view lease.slot }
        ensures same { (seat.new.table ≡ seat.old.table) × (seat.new.caller ≡ seat.old.caller) }
    {
        let Lease {
            slot,
            generation: _,
        } = lease;
        self.clear(seat, slot);
    }

    /// Takes a slot from free to live.
    pub fn publish(&self, keeper: &mut LeaseKeeper, slot: u16)
        requires table { keeper.old.table ≡ self.now }
        requires state { slice_get (states_in keeper.old.view) slot ≡ Some Free }
        ensures changed { keeper.new.view ≡ knowing keeper.old.view slot Live }
        ensures same { keeper.new.table ≡ keeper.old.table }
    {
        self.table
            .shared
            .fetch_or::<Publishes>(&mut keeper.seat, slot as usize, 0x1_0000);
    }

    /// Takes a slot from live to condemned; whoever holds it keeps the lease.
    pub fn condemn(&self, keeper: &mut LeaseKeeper, slot: u16)
        requires table { keeper.old.table ≡ self.now }
        requires state { slice_get (states_in keeper.old.view) slot ≡ Some Live }
        ensures changed { keeper.new.view ≡ knowing keeper.old.view slot Condemned }
        ensures same { keeper.new.table ≡ keeper.old.table }
    {
        self.table
            .shared
            .fetch_or::<Condemns>(&mut keeper.seat, slot as usize, 0x2_0000);
    }

    /// Takes a slot from condemned to free and raises its generation, if nobody holds it: one load, and one
    /// compare-and-exchange from a word without holders. Else it returns who holds it, bit k-1 for caller k, and at
    /// least one bit is set.
    pub fn bury(&self, keeper: &mut LeaseKeeper, slot: u16) -> Bury
        requires table { keeper.old.table ≡ self.now }
        requires state { slice_get (states_in keeper.old.view) slot ≡ Some Condemned }
        ensures bury { BuryIs slot keeper.old.view result keeper.new.view }
        ensures same { keeper.new.table ≡ keeper.old.table }
    {
        let word = self
            .table
            .shared
            .load::<Peeks>(&mut keeper.seat, slot as usize);
        let mask = low_of(word);
        if mask != 0 {
            return Bury::Held(mask);
        }
        let generation = word >> 18;
        let found = self.table.shared.compare_exchange::<Frees>(
            &mut keeper.seat,
            slot as usize,
            word,
            free_word(generation),
        );
        if found == word {
            Bury::Buried(Buried::make(slot, generation))
        } else {
            Bury::Held(low_of(found))
        }
    }

    // Clears the caller's bit.
    fn clear(&self, seat: &mut LeaseSeat, slot: u16)
        requires table { seat.old.table ≡ self.now }
        requires slot { slot + 1 < self.now.words }
        ensures cleared { seat.new.view ≡ without seat.old.view slot }
        ensures same { (seat.new.table ≡ seat.old.table) × (seat.new.caller ≡ seat.old.caller) }
    {
        let mask = other_bits(seat.caller);
        self.table
            .shared
            .fetch_and::<Gives>(&mut seat.seat, slot as usize, mask);
    }
}
