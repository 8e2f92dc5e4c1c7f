//! The parents of the devices that live.
ghost use Rattle.std.specs.Prelude.{OnErr, OnOk, true};
ghost use Rattle.dev_monitor.specs.Parents.{KeepsParents, NotesParent};

use crate::news::News;
use cf_types::{Memory, Name};
use std::collections::HashMap;

/// The parent of each device that lives, by the device's name.
pub type Parents = HashMap<Name, Name>;

/// Notes the parent of a device that came.
fn enter(parents: &mut Parents, news: &News) -> Result<(), Memory>
    ensures ok { OnOk result (NotesParent (record news.now { attach = true }) parents.old parents.new) }
    ensures err { OnErr result (KeepsParents parents.old parents.new) }
{
    let device = news.device.clone()?;
    let parent = news.parent.clone()?;
    match parents.insert(device, parent) {
        Ok(_) => Ok(()),
        Err(_) => Err(Memory),
    }
}

/// Notes what becomes of a device's parent: it is kept for a device that came, and forgotten for one that went.
pub fn note_parent(parents: &mut Parents, news: &News) -> Result<(), Memory>
    ensures ok { OnOk result (NotesParent news.now parents.old parents.new) }
    ensures err { OnErr result (KeepsParents parents.old parents.new) }
{
    if news.attach {
        return enter(parents, news);
    }
    parents.remove(&news.device);
    Ok(())
}
