//! The command that a caller is at.
ghost use Rattle.std.specs.Prelude.{◌≡◌, ◌<◌, ◌-◌, [], length, option_copied, slice_get, slice_index_or};
ghost use Rattle.run_rules.specs.After as rule;
ghost use Rattle.run_rules.specs.Next as next;
ghost use Rattle.run_world.specs.View.{world_of};

use crate::parts::Core;
use cf_types::{Command, Given};
use run_rules::Setup;

/// The command that is next for a caller with so many commands over.
#[inline(always)]
fn command_at(setup: &Setup, caller: u8, over: u32) -> Option<&Command>
    ensures { slice_get (slice_index_or setup.now.scripts (caller - 1) []) over ≡ option_copied result }
{
    match setup.scripts.items().get(caller.saturating_sub(1) as usize) {
        Some(script) => script.items().get(over as usize),
        None => None,
    }
}

/// The command that a caller is at; none if its script is over.
#[inline(always)]
pub fn command_of<'a>(setup: &'a Setup, core: &Core, caller: u8) -> Option<&'a Command>
    requires { caller < length core.now.callers.items }
    ensures { next.command_of (world_of setup.now core.now) caller ≡ option_copied result }
{
    command_at(setup, caller, core.callers[caller as usize].over)
}

/// The locator values that a command gives.
#[inline(always)]
fn given_in(said: &Command) -> &[Given]
    ensures { result.now ≡ rule.given_in said.now }
{
    match said {
        Command::Rescan { given, .. } => given.items(),
        _ => &[],
    }
}

/// The locator values that the command of a caller gives.
pub fn given_by<'a>(setup: &'a Setup, core: &Core, caller: u8) -> &'a [Given]
    requires { caller < length core.now.callers.items }
    ensures { result.now ≡ rule.given_by (next.command_of (world_of setup.now core.now) caller) }
{
    match command_of(setup, core, caller) {
        Some(said) => given_in(said),
        None => &[],
    }
}
