ghost use Rattle.std.specs.Prelude.{◌≡◌, IfOk};
ghost use Rattle.dev_event.specs.Reading as reading;

use crate::cut::{before, behind, is, name_in, number_in};
use crate::read_names::{depth_names_in, names_in};
use crate::read_reply::{answer_in, reply_in, started_in};
use crate::word::{ActWord, Named, Said, word_in};
use cf_types::{Memory, Name};
use run_rules::{Act, Got, PowerKind, Reply, Shown};
use std::alloc::Global;

/// What was attached, as `NAME row R` says it: `Some(None)` if nothing was.
fn got_in(alloc: Global, text: &[u8]) -> Result<Option<Option<Got>>, Memory>
    ensures { IfOk result (λ got. got ≡ reading.got_in text.now) }
{
    if is(text, b"not configured") {
        return Ok(Some(None));
    }
    let Some(name) = name_in(alloc, before(text, b' '))? else {
        return Ok(None);
    };
    let row = number_in(behind(behind(text, b' '), b' '));
    Ok(Some(Some(Got { name, row })))
}

/// The spot, and what was attached there, as `SPOT: NAME row R` says it.
fn placed_in(alloc: Global, text: &[u8]) -> Result<Option<Shown>, Memory>
    ensures { IfOk result (λ shown. shown ≡ reading.placed_in text.now) }
{
    let Some(spot) = name_in(alloc, before(text, b':'))? else {
        return Ok(None);
    };
    let Some(got) = got_in(alloc, behind(text, b' '))? else {
        return Ok(None);
    };
    Ok(Some(Shown { spot, got }))
}

/// What a finalizer showed, as `1 on SPOT: NAME row R` says it: `Some(None)` if nothing was left.
fn shown_in(alloc: Global, text: &[u8]) -> Result<Option<Option<Shown>>, Memory>
    ensures { IfOk result (λ shown. shown ≡ reading.shown_in text.now) }
{
    if is(text, b"0") {
        return Ok(Some(None));
    }
    match placed_in(alloc, behind(behind(text, b' '), b' '))? {
        Some(shown) => Ok(Some(Some(shown))),
        None => Ok(None),
    }
}

/// The device and the reply, as `DEVICE: TEXT` says them.
fn told_in(alloc: Global, rest: &[u8]) -> Result<Option<(Name, Reply)>, Memory>
    ensures { IfOk result (λ told. told ≡ reading.told_in rest.now) }
{
    let Some(device) = name_in(alloc, before(rest, b':'))? else {
        return Ok(None);
    };
    let Some(reply) = reply_in(alloc, behind(rest, b' '))? else {
        return Ok(None);
    };
    Ok(Some((device, reply)))
}

fn found_in(alloc: Global, rest: &[u8]) -> Result<Option<Act>, Memory>
    ensures { IfOk result (λ act. act ≡ reading.found_in rest.now) }
{
    let Some(parent) = name_in(alloc, before(rest, b' '))? else {
        return Ok(None);
    };
    let Some(at) = placed_in(alloc, behind(behind(rest, b' '), b' '))? else {
        return Ok(None);
    };
    let Shown { spot, got } = at;
    Ok(Some(Act::Found { parent, spot, got }))
}

fn scan_in(alloc: Global, rest: &[u8]) -> Result<Option<Act>, Memory>
    ensures { IfOk result (λ act. act ≡ reading.act_by ActWord.Scan rest.now) }
{
    let Some(device) = name_in(alloc, before(rest, b':'))? else {
        return Ok(None);
    };
    Ok(Some(Act::ScanEnd { device }))
}

fn final_in(alloc: Global, rest: &[u8]) -> Result<Option<Act>, Memory>
    ensures { IfOk result (λ act. act ≡ reading.final_in rest.now) }
{
    let Some(device) = name_in(alloc, before(rest, b':'))? else {
        return Ok(None);
    };
    let Some(shown) = shown_in(alloc, behind(rest, b' '))? else {
        return Ok(None);
    };
    Ok(Some(Act::Final { device, shown }))
}

fn open_in(alloc: Global, rest: &[u8]) -> Result<Option<Act>, Memory>
    ensures { IfOk result (λ act. act ≡ reading.open_in rest.now) }
{
    if is(before(rest, b' '), b"-x") {
        let Some((device, reply)) = told_in(alloc, behind(rest, b' '))? else {
            return Ok(None);
        };
        return Ok(Some(Act::OpenSole { device, reply }));
    }
    let Some((device, reply)) = told_in(alloc, rest)? else {
        return Ok(None);
    };
    Ok(Some(Act::OpenDev { device, reply }))
}

fn io_in(alloc: Global, rest: &[u8]) -> Result<Option<Act>, Memory>
    ensures { IfOk result (λ act. act ≡ reading.io_in rest.now) }
{
    let Some(device) = name_in(alloc, before(rest, b' '))? else {
        return Ok(None);
    };
    let value = number_in(before(behind(rest, b' '), b':'));
    let Some(reply) = started_in(alloc, behind(behind(rest, b' '), b' '))? else {
        return Ok(None);
    };
    Ok(Some(Act::IoStart {
        device,
        value,
        reply,
    }))
}

fn done_in(alloc: Global, rest: &[u8]) -> Result<Option<Act>, Memory>
    ensures { IfOk result (λ act. act ≡ reading.done_in rest.now) }
{
    let Some(device) = name_in(alloc, before(rest, b':'))? else {
        return Ok(None);
    };
    let answer = answer_in(behind(rest, b' '));
    Ok(Some(Act::IoDone { device, answer }))
}

fn list_in(alloc: Global, rest: &[u8]) -> Result<Option<Act>, Memory>
    ensures { IfOk result (λ act. act ≡ reading.list_in rest.now) }
{
    let Some(name) = name_in(alloc, before(rest, b':'))? else {
        return Ok(None);
    };
    let Some(names) = names_in(alloc, behind(behind(rest, b':'), b' '))? else {
        return Ok(None);
    };
    let device = Some(name);
    Ok(Some(Act::ListDev { device, names }))
}

fn list_all_in(alloc: Global, rest: &[u8]) -> Result<Option<Act>, Memory>
    ensures { IfOk result (λ act. act ≡ reading.act_by ActWord.ListAll rest.now) }
{
    let Some(names) = names_in(alloc, rest)? else {
        return Ok(None);
    };
    Ok(Some(Act::ListDev {
        device: None,
        names,
    }))
}

fn tree_in(alloc: Global, rest: &[u8]) -> Result<Option<Act>, Memory>
    ensures { IfOk result (λ act. act ≡ reading.tree_in rest.now) }
{
    let Some(name) = name_in(alloc, before(rest, b':'))? else {
        return Ok(None);
    };
    let Some(names) = depth_names_in(alloc, behind(behind(rest, b':'), b' '))? else {
        return Ok(None);
    };
    let device = Some(name);
    Ok(Some(Act::TreeDev { device, names }))
}

fn tree_all_in(alloc: Global, rest: &[u8]) -> Result<Option<Act>, Memory>
    ensures { IfOk result (λ act. act ≡ reading.act_by ActWord.TreeAll rest.now) }
{
    let Some(names) = depth_names_in(alloc, rest)? else {
        return Ok(None);
    };
    Ok(Some(Act::TreeDev {
        device: None,
        names,
    }))
}

fn named_act(named: Named, device: Name) -> Act
    ensures { result ≡ reading.named_act named device }
{
    match named {
        Named::Drop => Act::DropRef { device },
        Named::Free => Act::Free { device },
        Named::Sleep => Act::Sleep { device },
        Named::Wake => Act::Wake { device },
    }
}

fn power_act(kind: PowerKind, device: Name, reply: Reply) -> Act
    ensures { result ≡ Act.Power kind device reply }
{
    Act::Power {
        kind,
        device,
        reply,
    }
}

fn said_act(said: Said, device: Name, reply: Reply) -> Act
    ensures { result ≡ reading.said_act said device reply }
{
    match said {
        Said::Close => Act::CloseDev { device, reply },
        Said::Detach => Act::Detach { device, reply },
        Said::Rescan => Act::Rescan { device, reply },
        Said::Suspend => power_act(PowerKind::Suspend, device, reply),
        Said::Resume => power_act(PowerKind::Resume, device, reply),
        Said::ResumeTree => power_act(PowerKind::ResumeTree, device, reply),
        Said::Power => Act::PowerEnd { device, reply },
        Said::Plug => Act::Plug {
            spot: device,
            reply,
        },
        Said::Unplug => Act::Unplug {
            spot: device,
            reply,
        },
    }
}

fn named_in(alloc: Global, named: Named, rest: &[u8]) -> Result<Option<Act>, Memory>
    ensures { IfOk result (λ act. act ≡ reading.act_by (ActWord.Names named) rest.now) }
{
    let Some(device) = name_in(alloc, rest)? else {
        return Ok(None);
    };
    Ok(Some(named_act(named, device)))
}

fn said_in(alloc: Global, said: Said, rest: &[u8]) -> Result<Option<Act>, Memory>
    ensures { IfOk result (λ act. act ≡ reading.act_by (ActWord.Says said) rest.now) }
{
    let Some((device, reply)) = told_in(alloc, rest)? else {
        return Ok(None);
    };
    Ok(Some(said_act(said, device, reply)))
}

/// The act that a word begins, by what follows it.
fn act_by(alloc: Global, word: ActWord, rest: &[u8]) -> Result<Option<Act>, Memory>
    ensures { IfOk result (λ act. act ≡ reading.act_by word rest.now) }
{
    match word {
        ActWord::Found => found_in(alloc, rest),
        ActWord::Scan => scan_in(alloc, rest),
        ActWord::Interrupts => Ok(Some(Act::Interrupts)),
        ActWord::Final => final_in(alloc, rest),
        ActWord::End => Ok(Some(Act::End)),
        ActWord::Open => open_in(alloc, rest),
        ActWord::Io => io_in(alloc, rest),
        ActWord::Done => done_in(alloc, rest),
        ActWord::List => list_in(alloc, rest),
        ActWord::ListAll => list_all_in(alloc, rest),
        ActWord::Tree => tree_in(alloc, rest),
        ActWord::TreeAll => tree_all_in(alloc, rest),
        ActWord::Names(named) => named_in(alloc, named, rest),
        ActWord::Says(said) => said_in(alloc, said, rest),
    }
}

/// The act that a text may spell. The text spells no other act; it may not spell this one either.
#[tactic(auto, unfolding(crate::specs::Reading::act_in))]
pub fn act_in(alloc: Global, text: &[u8]) -> Result<Option<Act>, Memory>
    ensures { IfOk result (λ act. act ≡ reading.act_in text.now) }
{
    match word_in(before(text, b' ')) {
        Some(word) => act_by(alloc, word, behind(text, b' ')),
        None => Ok(None),
    }
}
