//! Groups of rows are added, and free spots are searched.
ghost use Rattle.std.specs.Prelude.{◌≡◌, ◌<◌, ◌^◌, ◌∷◌, false, length, IfOk, OnOk, OnErr};
ghost use Rattle.run_rules.specs.World.{has};
ghost use Rattle.live_rules.specs.declared.plan.LiveReply.TheVariants as replies;
ghost use Rattle.live_rules.specs.Laws.{IsCutShort};
ghost use Rattle.live_rules.specs.Live as rule;
ghost use Rattle.live_tables.specs.Answers.{Answers, Leaves, MayUndo};

use crate::live_tables::LiveTables;
use cf_types::{List, Memory};
use live_rules::{LiveLine, LiveReply, PlanCommand};
use std::mem::replace;

impl LiveTables {
    /// Searches every free spot that is present and not late, until no row that is on would take one. At `Memory` the
    /// devices stay that came, and they have their lines. See config_search(9).
    pub fn scan(&mut self, lines: &mut List<LiveLine>) -> Result<(), Memory>
        requires serials { self.old.world.next < 2 ^ 63 }
        ensures ok { OnOk result (Leaves self.old self.new lines.old lines.new (rule.scan self.old.site self.old.world)) }
        ensures settled { OnOk result (rule.Settled self.new.site self.new.world) }
        ensures err { OnErr result (IsCutShort self.old.site self.old.world self.new.world lines.old lines.new) }
        ensures site { self.new.site ≡ self.old.site }
    {
        self.stands();
        let mut told = replace(lines, List::make(self.alloc)).into_vec();
        let done = self.pass(&mut told);
        self.stands();
        *lines = List::from_vec(told);
        done
    }

    /// Turns a group on that is off. It takes no memory.
    fn turn_on(&mut self, group: u32)
        requires there { group < length self.old.site.groups }
        requires off { has self.old.world.on group ≡ false }
        ensures { self.new ≡ record self.old { world = rule.turned_on self.old.world group } }
    {
        self.on.turn_on(group);
    }

    /// Adds a group of rows that is off, and searches. At `Memory` the group is on, the devices stay that came, and they have
    /// their lines. See config_cfdata_attach(9).
    pub fn add(&mut self, group: u32, lines: &mut List<LiveLine>) -> Result<LiveReply, Memory>
        requires group { group < length self.old.site.groups }
        requires serials { self.old.world.next < 2 ^ 63 }
        ensures ok { IfOk result (Answers self.old self.new lines.old lines.new (rule.add self.old.site self.old.world group)) }
        ensures settled { IfOk result (λ reply. reply ≡ replies.Ok → rule.Settled self.new.site self.new.world) }
        ensures undone { IfOk result (λ reply. reply ≡ replies.Ok → MayUndo self.old group self.new) }
        ensures err { OnErr result (IsCutShort self.old.site (rule.turned_on self.old.world group) self.new.world lines.old lines.new) }
        ensures site { self.new.site ≡ self.old.site }
    {
        self.stands();
        if self.on.has(group) {
            return Ok(LiveReply::OnAlready);
        }
        self.turn_on(group);
        self.scan(lines)?;
        Ok(LiveReply::Ok)
    }
}
