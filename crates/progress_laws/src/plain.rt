//! A plain test of the texts of scripts: no script detaches or unplugs while it may hold a device.
ghost use Rattle.std.specs.Prelude.{◌≡◌, length, position, IfOk, bytes_eq};
ghost use Rattle.history_laws.specs.Always.{OfEveryRun};
ghost use Rattle.progress_laws.specs.Plain.{AllHoldAtMostText, EndsForAll, PlainFreeEmptyHanded, PlainScriptsGoOn, RoundsEndForAll, SparingPass, TestDecides, is_freeing, lets_go_first, open_after};
ghost use Rattle.run_rules.specs.References.{without_first};

use cf_types::{Command, Memory, Name};
use std::alloc::Global;

/// The place of the first of these names that is this one.
fn place_of(names: &[Name], name: &Name) -> Option<usize>
    ensures { result ≡ position (λ n. bytes_eq n name.now) names.now }
{
    names.iter().position(|n| n == name)
}

/// Removes a name once, if it is there.
fn take_out(names: &mut Vec<Name>, name: &Name)
    ensures { names.new.items ≡ without_first (λ n. bytes_eq n name.now) names.old.items }
{
    if let Some(place) = place_of(names, name) {
        names.remove(place);
    }
}

/// Whether a command condemns devices.
fn condemns(command: &Command) -> bool
    ensures { result ≡ is_freeing command.now }
{
    match command {
        Command::Detach(_) => true,
        Command::Unplug(_) => true,
        _ => false,
    }
}

/// The names of the references that may be open after a command, from those that may be before it.
fn go_on(names: &mut Vec<Name>, command: &Command) -> Result<(), Memory>
    ensures { IfOk result (λ done. names.new.items ≡ open_after names.old.items command.now) }
{
    match command {
        Command::OpenDev(name) => names.push(name.clone()?)?,
        Command::OpenSole(name) => names.push(name.clone()?)?,
        Command::CloseDev(name) => take_out(names, name),
        _ => {}
    }
    Ok(())
}

/// Whether a script passes the test: no `detach` and no `unplug` comes where the commands before it may leave a
/// reference open.
pub fn passes(alloc: Global, script: &[Command]) -> Result<bool, Memory>
    ensures { IfOk result (λ yes. yes ≡ lets_go_first script.now) }
{
    let mut names: Vec<Name> = Vec::new(alloc);
    for command in script {
        if condemns(command) && !names.is_empty() {
            return Ok(false);
        }
        go_on(&mut names, command)?;
    }
    Ok(true)
}

/// The test of a script decides whether each detach and each unplug comes where the commands before it leave nothing open.
pub fn test_decides()
    ensures { TestDecides }
{}

/// A script without a detach or an unplug passes the test.
pub fn sparing_pass()
    ensures { SparingPass }
{}

/// A caller holds of each name no more than the opens of that name less its closes, in the commands that it began.
pub fn held_at_most_text()
    ensures { OfEveryRun AllHoldAtMostText }
{}

/// If each script passes the test, no caller that detaches or unplugs holds a device.
pub fn plain_scripts_free_empty_handed()
    ensures { OfEveryRun PlainFreeEmptyHanded }
{}

/// If each script passes the test, some caller does something, or all have ended.
pub fn plain_scripts_go_on()
    ensures { OfEveryRun PlainScriptsGoOn }
{}

/// If each script passes the test, every run can be continued until all callers have ended.
pub fn ends_for_all()
    ensures { OfEveryRun EndsForAll }
{}

/// If each script passes the test and all callers take turns in rounds, all have ended after as many rounds as the run may
/// have events.
pub fn rounds_end_for_all()
    ensures { RoundsEndForAll }
{}

#[cfg(test)]
mod tests {
    use super::*;
    use std::test::Fail;

    // Whether a script passes that holds com0 while it detaches com1, and whether it does once it closes com0 first.
    fn answers(alloc: Global) -> Result<(bool, bool), Memory> {
        let com0 = Name::make(alloc, b"com0")?;
        let com1 = Name::make(alloc, b"com1")?;
        let mut script = Vec::new(alloc);
        script.push(Command::OpenSole(com0.clone()?))?;
        script.push(Command::Detach(com1))?;
        let holds = passes(alloc, &script)?;
        script.insert(1, Command::CloseDev(com0))?;
        let closes = passes(alloc, &script)?;
        Ok((holds, closes))
    }

    #[test]
    fn a_script_that_closes_first_passes(rt: HostRuntime) -> Result<(), Fail> {
        assert_eq!(rt; answers(rt.alloc()), Ok((false, true)));
        Ok(())
    }
}
