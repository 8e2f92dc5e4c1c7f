//! Which devices are known to be without children.
ghost use Rattle.std.specs.Prelude.{◌≡◌, IsTrue, true, length, vec_len, vec_capacity};
ghost use Rattle.run_rules.specs.World.{is_live};
ghost use Rattle.dev_tree.specs.Bare.{AreBare, AreUnmarked, IsBare};
ghost use Rattle.dev_tree.specs.Tree.{AreInOrder};

use crate::lookup::place_of;
use run_rules::Dev;

/// Clears the mark of the device of a serial, which may have children from now on.
#[inline(always)]
pub fn unmark(live: &[Dev], bare: &mut Vec<bool>, serial: u64)
    requires order { AreInOrder live.now }
    requires count { length bare.old.items ≡ length live.now }
    ensures count { length bare.new.items ≡ length bare.old.items }
    ensures room { (vec_len bare.new ≡ vec_len bare.old) × (vec_capacity bare.new ≡ vec_capacity bare.old) }
    ensures marks { AreUnmarked live.now serial bare.old.items bare.new.items }
{
    match place_of(live, serial) {
        Some(place) => bare[place] = false,
        None => {}
    }
}

/// Whether the device of a serial is marked.
#[inline(always)]
pub fn is_marked(live: &[Dev], bare: &[bool], serial: u64) -> bool
    requires order { AreInOrder live.now }
    requires marks { AreBare live.now bare.now }
    ensures there { result ≡ true → IsTrue (is_live live.now serial) }
    ensures bare { result ≡ true → IsBare live.now serial }
{
    match place_of(live, serial) {
        Some(place) => bare[place],
        None => false,
    }
}
