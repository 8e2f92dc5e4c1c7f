//! The worlds that were met, found by their prints.
ghost use Rattle.std.specs.Prelude.{◌≡◌, ◌++◌, ◌∷◌, [], ℕ, IsTrue, OnOk, false, length, nat_eq};
ghost use Rattle.std.specs.HashMap.{get, Updates};
ghost use Rattle.run_rules.specs.declared.world.Setup.{Setup};
ghost use Rattle.plain_world.specs.Plain.{world_of};
ghost use Rattle.every_same.specs.Print.{print_of};
ghost use Rattle.every_order.specs.Search.{IsIndexed, IsNew, IsThere};
ghost use Rattle.every_order.specs.Meeting.{IsAdded, Meets};

use cf_types::Memory;
use every_same::{print_of, same_world};
use plain_world::Plain;
use std::alloc::Global;
use std::collections::HashMap;

/// A world that was met: the turn by which it was met first, from which world, by its place, and whose; how many turns it is
/// from the first world; its print; and the last world before it with the same print.
#[derive(Drop)]
pub struct Met {
    pub plain: Plain,
    pub from: usize,
    pub caller: u8,
    pub depth: usize,
    pub print: u64,
    pub earlier: Option<usize>,
}

/// The worlds in the order in which they were met, and for each print the last world that has it.
#[derive(Drop)]
pub struct Known {
    pub met: Vec<Met>,
    pub heads: HashMap<u64, usize>,
}

/// The last world that has a print.
fn head_of(known: &Known, print: u64) -> Option<usize>
    ensures { result ≡ get nat_eq known.now.heads print }
{
    known.heads.get(&print).copied()
}

/// Whether a world was met.
fn has_world(known: &Known, print: u64, plain: &Plain) -> bool
    requires indexed { IsIndexed known.now }
    requires print { (s : Setup) → print_of (world_of s plain.now) ≡ print }
    ensures yes { IsTrue result → (place : ℕ) × IsThere known.now.met.items plain.now place }
    ensures no { result ≡ false → IsNew known.now.met.items plain.now }
{
    let mut at = head_of(known, print);
    while let Some(place) = at {
        let one = &known.met[place];
        if same_world(&one.plain, plain) {
            return true;
        }
        at = one.earlier;
    }
    false
}

/// Adds a world at the end, as the last one that has its print.
fn add(known: &mut Known, one: Met) -> Result<(), Memory>
    ensures { OnOk result (IsAdded known.old one known.new) }
{
    known.heads.insert(one.print, known.met.len())?;
    known.met.push(one)?;
    Ok(())
}

/// Adds a world that a turn left, unless it was met.
pub fn meet(
    known: &mut Known,
    plain: Plain,
    from: usize,
    caller: u8,
    depth: usize,
) -> Result<(), Memory>
    requires { IsIndexed known.old }
    ensures { OnOk result (Meets known.old plain from caller depth known.new) }
{
    let print = print_of(&plain);
    if has_world(known, print, &plain) {
        return Ok(());
    }
    let earlier = head_of(known, print);
    add(
        known,
        Met {
            plain,
            from,
            caller,
            depth,
            print,
            earlier,
        },
    )
}
