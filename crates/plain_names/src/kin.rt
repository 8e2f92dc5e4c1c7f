//! The children of each live device, together.
ghost use Rattle.std.specs.Prelude.{◌≡◌, ◌<◌, ◌%◌, ◌^◌, IfOk, OnOk, length};
ghost use Rattle.run_rules.specs.World.{children};
ghost use Rattle.plain_names.specs.Kin.{AreEmpty, AreKin, HasDevice};

use cf_types::Memory;
use run_rules::Dev;
use std::alloc::Global;

/// Live devices. Where they are apart they are in lists by their parents too: all children of a device are in one list,
/// in their order.
#[derive(Drop)]
pub struct Kin<'a> {
    pub live: &'a [Dev],
    lists: Vec<Vec<Dev>>,
}

/// So many lists, without devices.
fn no_lists(alloc: Global, count: usize) -> Result<Vec<Vec<Dev>>, Memory>
    ensures { IfOk result (λ lists. AreEmpty count lists.items) }
{
    let mut lists = Vec::with_capacity(alloc, count)?;
    for _list in 0..count {
        lists.push(Vec::new(alloc))?;
    }
    Ok(lists)
}

/// The place of the list of a parent among so many.
#[inline(always)]
fn place_of(count: usize, parent: u64) -> usize
    requires { 0 < count }
    ensures is { result ≡ parent % count }
    ensures within { result < count }
{
    (parent % count as u64) as usize
}

/// Adds a device to the list of its parent.
fn add(lists: &mut Vec<Vec<Dev>>, device: Dev) -> Result<(), Memory>
    requires { 0 < length lists.old.items }
    ensures { OnOk result (HasDevice lists.old.items lists.new.items device) }
{
    let place = place_of(lists.len(), device.parent);
    lists[place].push(device)?;
    Ok(())
}

impl<'a> Kin<'a> {
    /// These devices, apart by their parents or not. Lists pay off where most devices are asked for.
    pub fn make(alloc: Global, live: &'a [Dev], apart: bool) -> Result<Kin<'a>, Memory>
        requires { length live.now < 2 ^ 32 }
        ensures made { IfOk result AreKin }
        ensures of { IfOk result (λ kin. kin.live.now ≡ live.now) }
    {
        if !apart {
            let lists = Vec::new(alloc);
            return Ok(Kin { live, lists });
        }
        let mut lists = no_lists(alloc, live.len() + 1)?;
        for device in live {
            add(&mut lists, *device)?;
        }
        Ok(Kin { live, lists })
    }

    /// Devices among which are the children of one, in their order.
    pub fn near(&self, parent: u64) -> &[Dev]
        requires { AreKin self.now }
        ensures { children result.now parent ≡ children self.now.live.now parent }
    {
        if self.lists.is_empty() {
            return self.live;
        }
        let place = place_of(self.lists.len(), parent);
        match self.lists.get(place) {
            Some(list) => list,
            None => &[],
        }
    }
}
