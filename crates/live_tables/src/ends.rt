//! What is left of a plan when its commands are through.
ghost use Rattle.std.specs.Prelude.{◌≡◌};

use crate::live_tables::LiveTables;
use cf_tables::Compiled;
use live_rules::Group;
use run_rules::Setup;
use run_world::Site;
use std::mem::drop;

impl LiveTables {
    /// The groups, in their order.
    pub fn groups(&self) -> &[Group]
        ensures { result.now ≡ self.now.site.groups }
    {
        self.groups.items()
    }

    /// The tables with their graph.
    pub fn into_tables(self) -> Compiled
        ensures { result ≡ self.site.setup.tables }
    {
        let LiveTables { alloc, site, .. } = self;
        let Site { setup, graph, .. } = site;
        let Setup { tables, .. } = setup;
        Compiled::make(alloc, tables, graph)
    }
}
