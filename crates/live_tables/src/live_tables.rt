//! Tables whose groups of rows come and go while devices live.
ghost use Rattle.std.specs.Prelude.{◌≡◌, ◌<◌, ◌≤◌, ◌^◌, [], length, IfOk};
ghost use Rattle.config_rules.specs.Formed.{FormedTables, FittingMachine};
ghost use Rattle.live_rules.specs.Laws.{IsSound};
ghost use Rattle.live_rules.specs.Live as rule;
ghost use Rattle.run_rules.specs.World.{setup_of};
ghost use Rattle.run_world.specs.Input.{Bounded};
ghost use Rattle.live_tables.specs.Running.{AreFirst};

use crate::driver_groups::driver_groups;
use crate::on_groups::OnGroups;
use cf_tables::Compiled;
use cf_types::{List, Machine, Memory};
use dev_tree::DevTree;
use live_rules::Group;
use match_search::LiveRows;
use run_rules::Setup;
use run_world::Site;
use std::alloc::Global;
use std::marker::Model;
use std::mem::drop;
use unit_alloc::Units;

/// Live devices on a machine, and groups of rows that are on or off. Every value keeps that the devices are sound and that
/// each came by a row that is on. See config_cfdata_attach(9).
#[derive(Drop)]
pub struct LiveTables {
    pub(crate) alloc: Global,
    pub(crate) site: Site,
    pub(crate) groups: List<Group>,
    /// The group of each driver.
    pub(crate) driver_groups: Vec<Option<u32>>,
    pub(crate) on: OnGroups,
    pub(crate) tree: DevTree,
    /// Of each row whether its unit is free, on or off.
    pub(crate) rows: LiveRows,
    /// The units of live devices.
    pub(crate) units: Units,
}

impl Model for LiveTables {
    ghost use Rattle.live_tables.specs.Running.{Running};

    ghost Value = { Running };

    ghost use Rattle.live_tables.specs.Kept.{LiveKept, live_view};

    ghost view = { live_view };

    ghost invariant = { LiveKept };
}

/// What is kept beside the devices before there are any.
fn parts_of(
    alloc: Global,
    setup: &Setup,
    groups: &[Group],
) -> Result<(Vec<Option<u32>>, OnGroups, LiveRows, Units), Memory>
    requires few { length groups.now < 2 ^ 32 }
    requires devices { length setup.now.tables.devices ≤ 65536 }
    ensures { IfOk result (λ parts. AreFirst setup.now groups.now parts.0.items parts.1 parts.2 parts.3) }
{
    let driver_groups = driver_groups(alloc, groups)?;
    let on = OnGroups::make(alloc, groups.len())?;
    let rows = LiveRows::make(alloc, &setup.tables)?;
    let units = Units::make(alloc, setup.tables.devices.len() as u32)?;
    Ok((driver_groups, on, rows, units))
}

impl LiveTables {
    /// No devices on a machine that fits formed tables, and every group off.
    pub fn start(
        alloc: Global,
        tables: Compiled,
        machine: Machine,
        groups: List<Group>,
    ) -> Result<LiveTables, Memory>
        requires tables { FormedTables tables }
        requires machine { FittingMachine tables machine }
        requires few { length groups < 2 ^ 32 }
        ensures site { IfOk result (λ it. it.site ≡ record { setup = setup_of tables machine []; groups = groups }) }
        ensures world { IfOk result (λ it. it.world ≡ rule.opening) }
    {
        let scripts = List::make(alloc);
        match Site::make(alloc, tables, machine, scripts) {
            Ok(site) => LiveTables::on_site(alloc, site, groups),
            Err(_) => {
                drop(groups);
                Err(Memory)
            }
        }
    }

    /// The same on a site.
    fn on_site(alloc: Global, site: Site, groups: List<Group>) -> Result<LiveTables, Memory>
        requires few { length groups < 2 ^ 32 }
        requires devices { length site.setup.tables.devices ≤ 65536 }
        ensures site { IfOk result (λ it. it.site ≡ record { setup = site.setup; groups = groups }) }
        ensures world { IfOk result (λ it. it.world ≡ rule.opening) }
    {
        let parts = parts_of(alloc, &site.setup, groups.items());
        match parts {
            Ok((driver_groups, on, rows, units)) => Ok(LiveTables {
                alloc,
                site,
                groups,
                driver_groups,
                on,
                tree: DevTree::make(alloc),
                rows,
                units,
            }),
            Err(_) => {
                drop(site);
                drop(groups);
                Err(Memory)
            }
        }
    }

    /// What every value keeps; nothing is done.
    pub fn stands(&self)
        ensures sound { IsSound self.now.site self.now.world }
        ensures bounded { Bounded self.now.site.setup }
    {
        let _ = &self.site;
    }
}
