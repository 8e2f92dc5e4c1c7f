ghost use Rattle.std.specs.Prelude.{◌≡◌, ◌++◌, OnOk, codes, decimal};
ghost use Rattle.run_rules.specs.Lines as text;

use crate::parts::{
    put_answer, put_depth_names, put_got, put_got_1, put_named, put_names, put_number, put_of,
    put_reply, put_said, put_shown, put_shown_1, put_started,
};
use cf_types::{List, Memory, Name, put_bytes};
use run_rules::{Act, DepthName, Got, IoAnswer, PowerKind, Reply, Shown};

#[inline(always)]
fn power_word(kind: PowerKind) -> &'static [u8]
    ensures { result.now ≡ text.power_word kind }
{
    match kind {
        PowerKind::Suspend => b"suspend ",
        PowerKind::Resume => b"resume ",
        PowerKind::ResumeTree => b"resumetree ",
    }
}

/// Appends a command, its name and its reply.
#[inline(always)]
fn put_replied(out: &mut Vec<u8>, word: &[u8], name: &Name, reply: &Reply) -> Result<(), Memory>
    ensures { OnOk result (out.new.items ≡ out.old.items ++ text.said_of word.now name.now (text.reply_text reply.now)) }
{
    put_said(out, word, name)?;
    put_reply(out, reply)
}

/// Appends which spot was searched, and what was attached there.
#[inline(always)]
fn put_found(out: &mut Vec<u8>, parent: &Name, spot: &Name, got: &Option<Got>) -> Result<(), Memory>
    ensures { OnOk result (out.new.items ≡ out.old.items ++ text.said_of (codes "found ") (parent.now ++ codes " on " ++ spot.now) (text.got_text got.now)) }
{
    put_named(out, b"found ", parent)?;
    put_named(out, b" on ", spot)?;
    put_got(out, got)
}

/// Appends what was attached below a device: format 1.
fn put_found_1(out: &mut Vec<u8>, parent: &Name, got: &Option<Got>) -> Result<(), Memory>
    ensures { OnOk result (out.new.items ≡ out.old.items ++ text.said_of (codes "found ") parent.now (text.got_text_1 got.now)) }
{
    put_said(out, b"found ", parent)?;
    put_got_1(out, got)
}

/// Appends that a scan of a device is done.
#[inline(always)]
fn put_scan(out: &mut Vec<u8>, device: &Name) -> Result<(), Memory>
    ensures { OnOk result (out.new.items ≡ out.old.items ++ text.said_of (codes "scan ") device.now (codes "done")) }
{
    put_named(out, b"scan ", device)?;
    put_bytes(out, b": done")
}

/// Appends what a finalizer answered.
fn put_finaliser(out: &mut Vec<u8>, device: &Name, shown: &Option<Shown>) -> Result<(), Memory>
    ensures { OnOk result (out.new.items ≡ out.old.items ++ text.said_of (codes "final ") device.now (text.shown_text shown.now)) }
{
    put_said(out, b"final ", device)?;
    put_shown(out, shown)
}

/// Appends what a finalizer answered: format 1.
fn put_finaliser_1(out: &mut Vec<u8>, device: &Name, shown: &Option<Shown>) -> Result<(), Memory>
    ensures { OnOk result (out.new.items ≡ out.old.items ++ text.said_of (codes "final ") device.now (text.shown_text_1 shown.now)) }
{
    put_said(out, b"final ", device)?;
    put_shown_1(out, shown)
}

/// Appends how a transfer begins.
fn put_transfer(out: &mut Vec<u8>, device: &Name, value: u32, reply: &Reply) -> Result<(), Memory>
    ensures { OnOk result (out.new.items ≡ out.old.items
        ++ (codes "io " ++ device.now ++ codes " " ++ decimal value ++ codes ": " ++ text.started_text reply.now)) }
{
    put_named(out, b"io ", device)?;
    put_bytes(out, b" ")?;
    put_number(out, value)?;
    put_bytes(out, b": ")?;
    put_started(out, reply)
}

/// Appends how a transfer ends.
#[inline(always)]
fn put_done(out: &mut Vec<u8>, device: &Name, answer: IoAnswer) -> Result<(), Memory>
    ensures { OnOk result (out.new.items ≡ out.old.items ++ text.said_of (codes "done ") device.now (text.answer_text answer)) }
{
    put_said(out, b"done ", device)?;
    put_answer(out, answer)
}

/// Appends the children of a device, or of the root.
fn put_list(
    out: &mut Vec<u8>,
    device: &Option<Name>,
    names: &Option<List<Name>>,
) -> Result<(), Memory>
    ensures { OnOk result (out.new.items ≡ out.old.items ++ (codes "list" ++ text.of_text device.now ++ text.names_text names.now)) }
{
    put_bytes(out, b"list")?;
    put_of(out, device)?;
    put_names(out, names)
}

/// Appends the tree below a device, or below the root.
fn put_tree(
    out: &mut Vec<u8>,
    device: &Option<Name>,
    names: &Option<List<DepthName>>,
) -> Result<(), Memory>
    ensures { OnOk result (out.new.items ≡ out.old.items ++ (codes "tree" ++ text.of_text device.now ++ text.depth_names_text names.now)) }
{
    put_bytes(out, b"tree")?;
    put_of(out, device)?;
    put_depth_names(out, names)
}

/// Appends the text of an act. If memory runs out, some of it may have been appended.
#[tactic(auto, unfolding(run_rules::specs::Lines::act_text))]
#[inline(always)]
pub fn put_act(out: &mut Vec<u8>, act: &Act) -> Result<(), Memory>
    ensures { OnOk result (out.new.items ≡ out.old.items ++ text.act_text act.now) }
{
    match act {
        Act::Found { parent, spot, got } => put_found(out, parent, spot, got),
        Act::ScanEnd { device } => put_scan(out, device),
        Act::Interrupts => put_bytes(out, b"interrupts"),
        Act::Final { device, shown } => put_finaliser(out, device, shown),
        Act::End => put_bytes(out, b"end"),
        Act::DropRef { device } => put_named(out, b"drop ", device),
        Act::OpenDev { device, reply } => put_replied(out, b"open ", device, reply),
        Act::OpenSole { device, reply } => put_replied(out, b"open -x ", device, reply),
        Act::CloseDev { device, reply } => put_replied(out, b"close ", device, reply),
        Act::IoStart {
            device,
            value,
            reply,
        } => put_transfer(out, device, *value, reply),
        Act::IoDone { device, answer } => put_done(out, device, *answer),
        Act::Detach { device, reply } => put_replied(out, b"detach ", device, reply),
        Act::Free { device } => put_named(out, b"free ", device),
        Act::Rescan { device, reply } => put_replied(out, b"rescan ", device, reply),
        Act::ListDev { device, names } => put_list(out, device, names),
        Act::TreeDev { device, names } => put_tree(out, device, names),
        Act::Power {
            kind,
            device,
            reply,
        } => put_replied(out, power_word(*kind), device, reply),
        Act::Sleep { device } => put_named(out, b"sleep ", device),
        Act::Wake { device } => put_named(out, b"wake ", device),
        Act::PowerEnd { device, reply } => put_replied(out, b"power ", device, reply),
        Act::Plug { spot, reply } => put_replied(out, b"plug ", spot, reply),
        Act::Unplug { spot, reply } => put_replied(out, b"unplug ", spot, reply),
    }
}

/// Appends the text of an act in format 1. If memory runs out, some of it may have been appended.
#[tactic(auto, unfolding(run_rules::specs::Lines::act_text_1))]
pub fn put_act_1(out: &mut Vec<u8>, act: &Act) -> Result<(), Memory>
    ensures { OnOk result (out.new.items ≡ out.old.items ++ text.act_text_1 act.now) }
{
    match act {
        Act::Found { parent, got, .. } => put_found_1(out, parent, got),
        Act::Final { device, shown } => put_finaliser_1(out, device, shown),
        _ => put_act(out, act),
    }
}
