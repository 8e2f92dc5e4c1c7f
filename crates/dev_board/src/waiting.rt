//! Whether any caller of a board does something, and who waits for whom where none does.
ghost use Rattle.std.specs.Prelude.{◌≡◌, ◌≤◌, ◌<◌, ◌++◌, IfOk, OnOk, length};
ghost use Rattle.dev_board.specs.Waiting.{StandsSo};
ghost use Rattle.run_rules.specs.declared.deed.Choice.TheVariants.{Waits};
ghost use Rattle.run_rules.specs.declared.world.Wait.TheVariants.{Refs};
ghost use Rattle.run_rules.specs.Next.{next};
ghost use Rattle.wait_lines.specs.Waits.{lines_at, wait_line, wait_lines};

use cf_types::{List, Memory, Text};
use next_deed::choose;
use run_rules::{Choice, Wait};
use run_world::Going;
use told_names::live_name;
use wait_lines::put_wait;

/// What a caller does next.
fn choice_of(going: &Going, caller: u8) -> Result<Choice, Memory>
    requires { caller ≤ length going.now.setup.scripts }
    ensures { IfOk result (λ does. next going.now caller ≡ does) }
{
    going.stands();
    choose(going, caller)
}

/// Whether anybody goes on.
#[derive(Clone, Copy, Debug, PartialEq, Eq)]
pub enum Outlook {
    /// Some caller does something.
    Goes,
    /// No caller does anything, and some wait.
    Stuck,
    /// All have ended.
    Over,
}

/// Whether any caller goes on.
pub fn how_it_stands(going: &Going) -> Result<Outlook, Memory>
    ensures { IfOk result (λ how. StandsSo how going.now) }
{
    going.stands();
    let scripts = going.setup().scripts.len() as u8;
    let mut waits = false;
    for caller in 0..scripts + 1 {
        match choice_of(going, caller)? {
            Choice::Does(_) => return Ok(Outlook::Goes),
            Choice::Waits(_) => waits = true,
            Choice::Ended => {}
        }
    }
    Ok(if waits { Outlook::Stuck } else { Outlook::Over })
}

/// The line of a caller that waits for a device.
fn line_of(going: &Going, caller: u8, serial: u64) -> Result<Text, Memory>
    requires { next going.now caller ≡ Waits (Refs serial) }
    ensures { IfOk result (λ line. line ≡ wait_line going.now caller serial) }
{
    let device = live_name(going, serial)?;
    let holders = going.refs().holds_on(going.alloc(), serial)?;
    let mut line = Vec::new(going.alloc());
    put_wait(&mut line, caller, &device, holders.items())?;
    Ok(List::from_vec(line))
}

/// Appends the line of a caller, if it waits for a device.
fn push_line(going: &Going, caller: u8, lines: &mut List<Text>) -> Result<(), Memory>
    requires { caller ≤ length going.now.setup.scripts }
    ensures { OnOk result (lines.new ≡ lines.old ++ lines_at going.now caller) }
{
    if let Choice::Waits(Wait::Refs(serial)) = choice_of(going, caller)? {
        lines.push(line_of(going, caller, serial)?)?;
    }
    Ok(())
}

/// The lines of all callers that wait for a device, in their order.
pub fn lines_of(going: &Going) -> Result<List<Text>, Memory>
    ensures { IfOk result (λ lines. lines ≡ wait_lines going.now) }
{
    going.stands();
    let mut lines = List::make(going.alloc());
    let scripts = going.setup().scripts.len() as u8;
    for i in 0..scripts {
        push_line(going, i + 1, &mut lines)?;
    }
    Ok(lines)
}
