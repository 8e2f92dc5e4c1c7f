//! The styles of buses, by attachment and attribute.
ghost use Rattle.std.specs.Prelude.{◌≡◌, ◌<◌, ◌==◌, ℕ, List, [], ◌∷◌, ◌++◌, false, if◌then◌else◌, length, IfOk, OnOk};
ghost use Rattle.cf_types.specs.declared.machine.Machine.{Machine};
ghost use Rattle.cf_types.specs.declared.machine.StyleLine.{StyleLine as Line};
ghost use Rattle.run_rules.specs.Search.{is_bus_indirect};
ghost use Rattle.scan_engine.specs.Styled.{AreStylesBy, AreStylesOf, style_in, styled};

use cf_types::{Machine, Memory, Place, StyleLine};
use std::alloc::Global;
use std::collections::BTreeMap;

/// For each attachment the attributes that style lines name, each with whether the last such line says `indirect`.
#[derive(Drop)]
pub struct Styles {
    lists: Vec<BTreeMap<u32, bool>>,
}

/// Makes a list reach an attachment, with no styles for those that it did not reach.
fn reach(lists: &mut Vec<BTreeMap<u32, bool>>, attach: u32) -> Result<(), Memory>
    ensures same { (a i : ℕ) → style_in lists.new.items a i ≡ style_in lists.old.items a i }
    ensures ok { OnOk result (attach < length lists.new.items) }
{
    let alloc = *lists.allocator();
    for _attach in lists.len()..attach as usize + 1 {
        lists.push(BTreeMap::new(alloc))?;
    }
    Ok(())
}

/// Notes that a bus of an attachment is indirect, or is not.
fn note(list: &mut BTreeMap<u32, bool>, attr: u32, indirect: bool) -> Result<(), Memory>
    ensures { OnOk result ((i : ℕ) → styled list.new i ≡ (if attr == i then indirect else styled list.old i)) }
{
    match list.insert(attr, indirect) {
        Ok(_) => Ok(()),
        Err(_) => Err(Memory),
    }
}

/// Notes one style line more.
fn add_line(lists: &mut Vec<BTreeMap<u32, bool>>, line: &StyleLine) -> Result<(), Memory>
    ensures { OnOk result ((lines : List Line) → AreStylesBy lines lists.old.items → AreStylesBy (lines ++ line.now ∷ []) lists.new.items) }
{
    reach(lists, line.attach)?;
    note(&mut lists[line.attach as usize], line.attr, line.indirect)?;
    Ok(())
}

impl Styles {
    /// The styles that the lines of a machine give.
    pub fn make(alloc: Global, machine: &Machine) -> Result<Styles, Memory>
        ensures { IfOk result (AreStylesOf machine.now) }
    {
        let mut lists = Vec::new(alloc);
        for line in machine.styles.items() {
            add_line(&mut lists, line)?;
        }
        Ok(Styles { lists })
    }

    /// Whether a device of this attachment searches an attribute row by row.
    #[inline(always)]
    fn is_indirect_by(&self, attach: u32, attr: u32) -> bool
        ensures { result ≡ style_in self.now.lists.items attach attr }
    {
        match self.lists.get(attach as usize) {
            Some(list) => match list.get(&attr) {
                Some(indirect) => *indirect,
                None => false,
            },
            None => false,
        }
    }
    /// Whether a device of this attachment searches a place row by row.
    #[tactic(auto, unfolding(run_rules::specs::Search::is_bus_indirect))]
    #[inline(always)]
    pub fn is_indirect(&self, attach: Option<u32>, place: Place) -> bool
        ensures { (m : Machine) → AreStylesOf m self.now → result ≡ is_bus_indirect m attach place }
    {
        match (attach, place) {
            (_, Place::Root) => false,
            (None, Place::At(_)) => false,
            (Some(attach), Place::At(attr)) => self.is_indirect_by(attach, attr),
        }
    }
}
