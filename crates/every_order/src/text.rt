//! What is said of a world in which nobody can go on: its tree, and who waits for whom.
ghost use Rattle.std.specs.Prelude.{◌≡◌, ◌≤◌, ◌++◌, ◌∷◌, ◌+◌, ℕ, IfOk, OnOk, length, map, true};
ghost use Rattle.cf_types.specs.Lines.{ended, text_of};
ghost use Rattle.run_rules.specs.References.{count_in};
ghost use Rattle.run_rules.specs.References as held_by;
ghost use Rattle.run_rules.specs.Next as choices;
ghost use Rattle.run_rules.specs.Tree as tree;
ghost use Rattle.run_rules.specs.World.{is_live};
ghost use Rattle.run_sound.specs.Kept.{Kept};
ghost use Rattle.plain_world.specs.Plain.{world_of};
ghost use Rattle.plain_search.specs.Open.{Follows};
ghost use Rattle.wait_lines.specs.Waits.{lines_at, wait_line};
ghost use Rattle.every_order.specs.Kinds.{wait_text};

use cf_types::{DevLine, Hold, List, Memory, Name};
use plain_choice::next;
use plain_names::{tree_lines, unit_name};
use plain_search::Seeker;
use plain_world::{Plain, Refs, Rules, device_at, is_sole};
use run_rules::{Choice, Wait};
use std::alloc::Global;
use tree_text::put_dev;
use wait_lines::put_wait;

/// Appends the lines of devices.
fn put_devices(out: &mut Vec<u8>, devices: &[DevLine]) -> Result<(), Memory>
    ensures { OnOk result (out.new.items ≡ out.old.items ++ text_of (map tree.dev_text devices.now)) }
{
    for device in devices {
        put_dev(device, out)?;
        out.push(b'\n')?;
    }
    Ok(())
}

/// The tree of a world.
#[tactic(auto, unfolding(run_rules::specs::Tree::tree_text))]
pub fn tree_of(alloc: Global, seeker: &Seeker, plain: &Plain) -> Result<Vec<u8>, Memory>
    requires kept { Kept (world_of seeker.now.rules.now plain.now) }
    ensures { IfOk result (λ text. text.items ≡ tree.tree_text (world_of seeker.now.rules.now plain.now)) }
{
    seeker.rules.stands();
    let devices = tree_lines(alloc, seeker.rules, plain)?;
    let mut text = Vec::new(alloc);
    text.extend_from_slice(b"tree\n")?;
    put_devices(&mut text, devices.items())?;
    Ok(text)
}

/// The name of a live device.
fn name_at(alloc: Global, rules: &Rules, plain: &Plain, serial: u64) -> Result<Name, Memory>
    requires live { is_live plain.now.live.devices serial ≡ true }
    ensures { IfOk result (λ name. name ≡ choices.name_at (world_of rules.now plain.now) serial) }
{
    match device_at(&plain.live, serial) {
        Some(device) => unit_name(alloc, rules, device.row, device.unit),
        None => unreachable!(),
    }
}

/// Who holds a device, by caller.
fn holds_on(
    alloc: Global,
    references: &Refs,
    sole: &[u64],
    serial: u64,
) -> Result<List<Hold>, Memory>
    requires { (k s : ℕ) → count_in references.now k s ≤ 15 }
    ensures { IfOk result (λ held. held ≡ held_by.holds_on references.now sole.now serial) }
{
    let mut list = List::make(alloc);
    let sole = is_sole(sole, serial);
    for index in 0..16u8 {
        let caller = index + 1;
        if references.holds(caller, serial) {
            list.push(Hold {
                caller,
                count: references.count(caller, serial) as u8,
                sole,
            })?;
        }
    }
    Ok(list)
}

/// Appends the line of a caller that waits until nobody holds a device.
fn put_waiting(
    out: &mut Vec<u8>,
    rules: &Rules,
    plain: &Plain,
    caller: u8,
    serial: u64,
) -> Result<(), Memory>
    requires live { is_live plain.now.live.devices serial ≡ true }
    requires counted { (k s : ℕ) → count_in plain.now.refs k s ≤ 15 }
    ensures { OnOk result (out.new.items ≡ out.old.items ++ ended (wait_line (world_of rules.now plain.now) caller serial)) }
{
    let alloc = *out.allocator();
    let device = name_at(alloc, rules, plain, serial)?;
    let holders = holds_on(alloc, &plain.refs, &plain.sole, serial)?;
    put_wait(out, caller, &device, holders.items())?;
    out.push(b'\n')?;
    Ok(())
}

/// Appends the line of a caller, if it waits until nobody holds a device.
fn put_caller(out: &mut Vec<u8>, seeker: &Seeker, plain: &Plain, caller: u8) -> Result<(), Memory>
    requires kept { Kept (world_of seeker.now.rules.now plain.now) }
    requires follows { Follows seeker.now plain.now.live.devices }
    ensures { OnOk result (out.new.items ≡ out.old.items ++ text_of (lines_at (world_of seeker.now.rules.now plain.now) caller)) }
{
    seeker.rules.stands();
    match next(*out.allocator(), seeker, plain, caller)? {
        Choice::Waits(Wait::Refs(serial)) => {
            put_waiting(out, seeker.rules, plain, caller, serial)
        }
        _ => Ok(()),
    }
}

/// Who waits for whom in a world, a line each.
#[tactic(auto, unfolding(wait_lines::specs::Waits::wait_lines))]
pub fn waits_of(alloc: Global, seeker: &Seeker, plain: &Plain) -> Result<Vec<u8>, Memory>
    requires kept { Kept (world_of seeker.now.rules.now plain.now) }
    requires follows { Follows seeker.now plain.now.live.devices }
    ensures { IfOk result (λ text. text.items ≡ wait_text (world_of seeker.now.rules.now plain.now)) }
{
    let mut text = Vec::new(alloc);
    let rules = seeker.rules;
    for place in 0..rules.scripts.len() as u8 {
        put_caller(&mut text, seeker, plain, place + 1)?;
    }
    Ok(text)
}
