//! What the scripts say, and whether a caller has come to the end of its own.
ghost use Rattle.std.specs.Prelude.{◌≡◌, ◌-◌, [], option_copied, slice_get, slice_index_or};
ghost use Rattle.run_rules.specs.Next as next;
ghost use Rattle.run_rules.specs.World as world;
ghost use Rattle.plain_world.specs.Plain.{state_at, world_of};

use crate::caller::Caller;
use crate::rules::Rules;
use crate::world::Plain;
use cf_types::Command;

/// The command that is next for a caller with so many commands over.
pub fn command_at<'a>(rules: &'a Rules, caller: u8, over: u32) -> Option<&'a Command>
    ensures { slice_get (slice_index_or rules.now.scripts (caller - 1) []) over ≡ option_copied result }
{
    match rules.scripts.get(caller.saturating_sub(1) as usize) {
        Some(script) => script.items().get(over as usize),
        None => None,
    }
}

/// Whether a caller has ended, or there is no such caller.
pub fn has_ended(callers: &[Caller], caller: u8) -> bool
    ensures { result ≡ world.is_ended (state_at callers.now caller).doing }
{
    match callers.get(caller as usize) {
        Some(state) => state.is_ended(),
        None => true,
    }
}

/// How many commands of a caller are over.
pub fn over_of(callers: &[Caller], caller: u8) -> u32
    ensures { result ≡ (state_at callers.now caller).over }
{
    match callers.get(caller as usize) {
        Some(state) => state.over(),
        None => 0,
    }
}

/// The command that a caller is at, if its script has one left.
pub fn command_of<'a>(rules: &'a Rules, plain: &Plain, caller: u8) -> Option<&'a Command>
    ensures { next.command_of (world_of rules.now plain.now) caller ≡ option_copied result }
{
    command_at(rules, caller, over_of(&plain.callers, caller))
}
