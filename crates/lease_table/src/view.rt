//! What a word of the table says, and what a seat knows. Of the types of what a seat knows no value is made: only contracts use them.
use ref_ledger::SlotState;
use std::collections::LinkedList;

/// What a slot's word says: its generation, below 2^46; whether it is live, and condemned; its holders, bit k-1 for caller k.
#[derive(Clone, Copy, Debug, PartialEq, Eq)]
pub struct SlotWord {
    pub generation: u64,
    pub live: bool,
    pub condemned: bool,
    pub holders: u16,
}

/// What a caller has on a slot: nothing, its bit without a lease, or a lease of this generation.
#[derive(Drop)]
pub enum Claim {
    Nothing,
    Trying,
    Held(u64),
}

/// What the keeper knows of a slot: its state, and its generation, below 2^46.
#[derive(Drop)]
pub struct SlotRecord {
    pub state: SlotState,
    pub generation: u64,
}

/// What the rule speaks of: whether the seat is the keeper's; the caller's number, or 0; what the caller has of each slot;
/// and what the keeper knows, the record of each slot and how many callers' numbers were drawn.
#[derive(Drop)]
pub struct SeatRecord {
    pub keeps: bool,
    pub number: u64,
    pub claims: LinkedList<Claim>,
    pub slots: LinkedList<SlotRecord>,
    pub drawn: u64,
}

/// A seat's standing, with the number of words that were shown to the seat, and the last of them with its slot.
#[derive(Drop)]
pub struct View {
    pub standing: SeatRecord,
    pub shown: u64,
    pub slot: u64,
    pub word: SlotWord,
}
