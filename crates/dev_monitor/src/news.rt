//! What an event tells.
ghost use Rattle.std.specs.Prelude.{◌≡◌, All, IfOk, length};
ghost use Rattle.dev_monitor.specs.Notes.{came, went};
ghost use Rattle.dev_monitor.specs.Parents.{news_by};

use crate::parents::Parents;
use cf_types::{Memory, Name};
use run_rules::{Act, Shown};
use std::alloc::{AllocError, Global};

/// A device came below its parent, or went from below it.
#[derive(Drop)]
pub struct News {
    pub attach: bool,
    pub device: Name,
    pub parent: Name,
}

impl Clone for News {
    fn clone(&self) -> Result<News, AllocError>
        ensures { IfOk result (λ news. news ≡ self.now) }
    {
        Ok(News {
            attach: self.attach,
            device: self.device.clone()?,
            parent: self.parent.clone()?,
        })
    }
}

/// A device that came.
fn came(parent: &Name, device: &Name) -> Result<News, Memory>
    ensures { IfOk result (λ news. news ≡ came parent.now device.now) }
{
    Ok(News {
        attach: true,
        device: device.clone()?,
        parent: parent.clone()?,
    })
}

/// A device that went.
fn went(parent: &Name, device: &Name) -> Result<News, Memory>
    ensures { IfOk result (λ news. news ≡ went parent.now device.now) }
{
    Ok(News {
        attach: false,
        device: device.clone()?,
        parent: parent.clone()?,
    })
}

/// What an act tells, by the parents of the devices that live.
pub fn news_of(parents: &Parents, act: &Act) -> Result<Option<News>, Memory>
    ensures { IfOk result (λ news. news ≡ news_by parents.now act.now) }
{
    match act {
        Act::Found {
            parent,
            got: Some(got),
            ..
        } => Ok(Some(came(parent, &got.name)?)),
        Act::Final {
            device,
            shown: Some(Shown { got: Some(got), .. }),
        } => Ok(Some(came(device, &got.name)?)),
        Act::Free { device } => match parents.get(device) {
            Some(parent) => Ok(Some(went(parent, device)?)),
            None => Ok(None),
        },
        _ => Ok(None),
    }
}

/// So many copies of the same.
pub fn copies_of(alloc: Global, news: &News, count: usize) -> Result<Vec<News>, Memory>
    ensures count { IfOk result (λ copies. length copies.items ≡ count) }
    ensures same { IfOk result (λ copies. All (λ copy. copy ≡ news.now) copies.items) }
{
    let mut copies = Vec::with_capacity(alloc, count)?;
    for _ in 0..count {
        copies.push(news.clone()?)?;
    }
    Ok(copies)
}
