//! What the words of reasons go by.

use plain_world::{Live, Rules};

/// A search of a spot: the rules of the run, the devices that were live then, the serial of the device below which it went,
/// 0 for the root, and the spot.
#[derive(Drop)]
pub struct Look<'a> {
    pub rules: &'a Rules<'a>,
    pub live: &'a Live,
    pub parent: u64,
    pub spot: u16,
}
