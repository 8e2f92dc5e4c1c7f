ghost use Rattle.std.specs.Prelude.{◌≡◌, ℕ, ◌<◌, ◌==◌, [], ◌∷◌, ◌++◌, length, filter, None, IfOk, OnOk};
ghost use Rattle.std.specs.List.{slice_index_or};
ghost use Rattle.std.specs.Option.{unwrap_or};
ghost use Rattle.cf_rows.specs.Rows.{seen};

use crate::group::Group;
use cf_types::{Instance, Memory};
use std::alloc::Global;

/// No instance for this many devices.
fn no_groups<'a>(alloc: Global, count: u32) -> Result<Vec<Option<Group<'a>>>, Memory>
    ensures size { IfOk result (λ groups. length groups.items ≡ count) }
    ensures empty { IfOk result (λ groups. (d : ℕ) → slice_index_or groups.items d None ≡ None) }
{
    let mut groups = Vec::with_capacity(alloc, count as usize)?;
    for _device in 0..count {
        groups.push(None)?;
    }
    Ok(groups)
}

/// Adds an instance to those of its device.
fn add_own<'a>(
    alloc: Global,
    own: &mut Option<Group<'a>>,
    instance: &'a Instance,
) -> Result<(), Memory>
    ensures { OnOk result (unwrap_or own.new [] ≡ unwrap_or own.old [] ++ instance.entry ∷ []) }
{
    match own {
        Some(group) => group.push(instance),
        None => {
            *own = Some(Group::make(alloc, instance));
            Ok(())
        }
    }
}

/// The instances of each device below `devices`, in order. Most devices have one or none, which needs no list.
pub fn by_device<'a>(
    alloc: Global,
    devices: u32,
    instances: &[&'a Instance],
) -> Result<Vec<Option<Group<'a>>>, Memory>
    ensures size { IfOk result (λ groups. length groups.items ≡ devices) }
    ensures own { IfOk result (λ groups. (d : ℕ) → d < devices
        → seen (unwrap_or (slice_index_or groups.items d None) []) ≡ filter (λ i. i.joined.device == d) (seen instances.now)) }
{
    let mut groups = no_groups(alloc, devices)?;
    for instance in instances {
        if instance.joined.device < devices {
            add_own(
                alloc,
                &mut groups[instance.joined.device as usize],
                instance,
            )?;
        }
    }
    Ok(groups)
}
