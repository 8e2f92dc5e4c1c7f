//! The words that a program is called with.

use cf_types::Memory;
use std::alloc::Global;
use std::env::{Env, FillError};

/// The room for a word at first, in bytes. The word is asked for again with twice the room until it fits.
const FIRST_ROOM: usize = 256;

/// The bytes of the word with this number, or `None` after the last one.
fn bytes_of_word<R: Env>(rt: &R, alloc: Global, number: usize) -> Result<Option<Vec<u8>>, Memory> {
    let mut room = FIRST_ROOM;
    for _ in 0..usize::BITS {
        let mut bytes = Vec::new(alloc);
        bytes.resize(room, 0)?;
        match rt.arg(number, &mut bytes) {
            Ok(length) => {
                bytes.truncate(length);
                return Ok(Some(bytes));
            }
            Err(FillError::NotPresent) => return Ok(None),
            Err(FillError::TooLong) => room = room.saturating_mul(2),
        }
    }
    Err(Memory)
}

/// The words after the program's name, which may be any bytes. If one of them is not UTF-8, there are no words, and no
/// form has none.
pub fn words_behind_name<R: Env>(rt: &R, alloc: Global) -> Result<Vec<String>, Memory> {
    let mut words = Vec::new(alloc);
    for number in 1..usize::MAX {
        let Some(bytes) = bytes_of_word(rt, alloc, number)? else {
            break;
        };
        let Ok(word) = String::from_utf8(bytes) else {
            return Ok(Vec::new(alloc));
        };
        words.push(word)?;
    }
    Ok(words)
}
