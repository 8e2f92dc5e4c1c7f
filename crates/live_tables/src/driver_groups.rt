//! The group of each driver.
ghost use Rattle.std.specs.Prelude.{◌≡◌, ◌<◌, ◌^◌, ℕ, ◌==◌, None, if◌then◌else◌, length, IfOk, OnOk};
ghost use Rattle.std.specs.List.{slice_index_or};
ghost use Rattle.live_rules.specs.Live.{group_of};
ghost use Rattle.live_tables.specs.Joining.{joined, joined_by};

use cf_types::Memory;
use live_rules::Group;
use std::alloc::Global;

/// Puts a driver into a group, if it is in none.
fn join(table: &mut Vec<Option<u32>>, driver: u32, group: u32) -> Result<(), Memory>
    ensures { OnOk result ((d : ℕ) → slice_index_or table.new.items d None ≡ joined driver group d (slice_index_or table.old.items d None)) }
{
    let place = driver as usize;
    if table.len() <= place {
        table.resize(place + 1, None)?;
    }
    if table[place].is_none() {
        table[place] = Some(group);
    }
    Ok(())
}

/// Puts the drivers of a group into it, those that are in none.
fn join_all(table: &mut Vec<Option<u32>>, drivers: &[u32], group: u32) -> Result<(), Memory>
    ensures { OnOk result ((d : ℕ) → slice_index_or table.new.items d None ≡ joined_by drivers.now group d (slice_index_or table.old.items d None)) }
{
    for driver in drivers {
        join(table, *driver, group)?;
    }
    Ok(())
}

/// Of each driver the number of the group that it is in; those beyond the end are in none.
pub fn driver_groups(alloc: Global, groups: &[Group]) -> Result<Vec<Option<u32>>, Memory>
    requires { length groups.now < 2 ^ 32 }
    ensures { IfOk result (λ table. (d : ℕ) → slice_index_or table.items d None ≡ group_of groups.now d) }
{
    let mut table = Vec::new(alloc);
    for (number, group) in groups.iter().enumerate() {
        join_all(&mut table, group.devices.items(), number as u32)?;
    }
    Ok(table)
}
