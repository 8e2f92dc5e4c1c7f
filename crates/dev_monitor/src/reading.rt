use crate::note::Note;

/// What a subscriber was told by a read: a note, or that there is none.
#[derive(Drop)]
pub struct Reading {
    pub who: u8,
    pub note: Option<Note>,
}
