//! The texts of worlds, each once, with a shortest order that leads there.
ghost use Rattle.std.specs.Prelude.{◌≡◌, ◌<◌, ◌≤◌, ◌*◌, ◌^◌, IfOk, OnOk, length};
ghost use Rattle.run_rules.specs.declared.world.Setup.{Setup};
ghost use Rattle.every_order.specs.Noted.{AddsText, AreBack, AreNoted, AreSorted, IsOrderTo, Notes, ways_in};
ghost use Rattle.every_order.specs.Search.{AreMet};

use crate::kind::{Kind, goers_in, kind_of};
use crate::known::Met;
use crate::text::{tree_of, waits_of};
use cf_types::Memory;
use plain_search::Seeker;
use std::alloc::Global;
use std::collections::BTreeMap;

/// A text of worlds that orders lead to, and the callers of a shortest order that leads to one of them.
#[derive(Drop)]
pub struct Way {
    pub text: Vec<u8>,
    pub order: Vec<u8>,
}

/// What was noted of worlds: the texts of the ends and of the worlds that stand still, each with a shortest order, and how many
/// turns there are.
#[derive(Drop)]
pub struct Noted {
    pub ends: BTreeMap<Vec<u8>, Vec<u8>>,
    pub stuck: BTreeMap<Vec<u8>, Vec<u8>>,
    pub turns: u64,
}

/// The callers of the order by which the world at a place was met first.
fn order_to(alloc: Global, met: &[Met], place: usize) -> Result<Vec<u8>, Memory>
    requires back { AreBack met.now }
    requires place { place < length met.now }
    ensures { IfOk result (λ order. (s : Setup) → AreMet s met.now → IsOrderTo s met.now place order.items) }
{
    let mut order = Vec::new(alloc);
    let mut at = place;
    while at > 0 {
        let one = &met[at];
        order.insert(0, one.caller)?;
        at = one.from;
    }
    Ok(order)
}

/// Adds the text of the world at a place, with the order by which it was met, unless the text is there.
fn add_text(
    alloc: Global,
    met: &[Met],
    place: usize,
    text: Vec<u8>,
    texts: &mut BTreeMap<Vec<u8>, Vec<u8>>,
) -> Result<(), Memory>
    requires back { AreBack met.now }
    requires place { place < length met.now }
    ensures { OnOk result (AddsText met.now place text.items texts.old texts.new) }
{
    if texts.contains_key(&text) {
        return Ok(());
    }
    let order = order_to(alloc, met, place)?;
    texts.insert(text, order)?;
    Ok(())
}

/// Notes the world at a place: how many callers can go on in it, and its text, if nobody can.
fn note(
    alloc: Global,
    seeker: &mut Seeker,
    met: &[Met],
    place: usize,
    noted: &mut Noted,
) -> Result<(), Memory>
    requires met { AreMet seeker.old.rules.now met.now }
    requires place { place < length met.now }
    requires turns { noted.old.turns ≤ 17 * place }
    requires few { place < 2 ^ 32 }
    ensures rules { seeker.new.rules.now ≡ seeker.old.rules.now }
    ensures noted { OnOk result (Notes seeker.old.rules.now met.now place noted.old noted.new) }
{
    seeker.rules.stands();
    let plain = &met[place].plain;
    seeker.recount(alloc, &plain.live)?;
    let goers = goers_in(alloc, seeker, plain)?;
    noted.turns += goers;
    match kind_of(plain, goers) {
        Kind::End => {
            let text = tree_of(alloc, seeker, plain)?;
            add_text(alloc, met, place, text, &mut noted.ends)
        }
        Kind::Stuck => {
            let text = waits_of(alloc, seeker, plain)?;
            add_text(alloc, met, place, text, &mut noted.stuck)
        }
        Kind::GoesOn => Ok(()),
    }
}

/// Notes all worlds of a list.
pub fn notes_of(alloc: Global, seeker: &mut Seeker, met: &[Met]) -> Result<Noted, Memory>
    requires met { AreMet seeker.old.rules.now met.now }
    requires few { length met.now < 2 ^ 32 }
    ensures { IfOk result (AreNoted seeker.old.rules.now met.now (length met.now)) }
{
    seeker.rules.stands();
    let ends = BTreeMap::new(alloc);
    let stuck = BTreeMap::new(alloc);
    let mut noted = Noted {
        ends,
        stuck,
        turns: 0,
    };
    for place in 0..met.len() {
        note(alloc, seeker, met, place, &mut noted)?;
    }
    Ok(noted)
}

/// The ways, in the order of their texts.
pub fn ways_of(alloc: Global, texts: BTreeMap<Vec<u8>, Vec<u8>>) -> Result<Vec<Way>, Memory>
    ensures same { IfOk result (λ ways. ways.items ≡ ways_in texts) }
    ensures in_order { OnOk result (AreSorted (ways_in texts)) }
{
    let mut texts = texts;
    let mut ways = Vec::with_capacity(alloc, texts.len())?;
    while let Some((text, order)) = texts.pop_first() {
        ways.push(Way { text, order })?;
    }
    Ok(ways)
}
