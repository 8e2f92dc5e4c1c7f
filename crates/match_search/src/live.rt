ghost use Rattle.std.specs.Prelude.{◌≡◌, ◌<◌, true, false, length, map, slice_set, IfOk};
ghost use Rattle.std.specs.List.{slice_index_or};

use cf_types::{Memory, Tables};
use std::alloc::Global;
use std::marker::Model;

/// For each row whether it is live: starred, or of a name and a unit that no live device has. Contracts see the truth
/// values in the order of the rows.
#[derive(Drop)]
pub struct LiveRows {
    marks: Vec<bool>,
}

impl Model for LiveRows {
    ghost use Rattle.std.specs.Prelude.{List, Bool};

    ghost Value = { List Bool };

    ghost view = { λ rows. rows.marks.items };
}

impl LiveRows {
    /// Each row of the tables live, as before any device.
    pub fn make(alloc: Global, tables: &Tables) -> Result<LiveRows, Memory>
        ensures { IfOk result (λ rows. rows ≡ map (λ r. true) tables.now.rows) }
    {
        let mut marks = Vec::new(alloc);
        for _row in tables.rows.items() {
            marks.push(true)?;
        }
        Ok(LiveRows { marks })
    }

    /// Sets the truth value of a row.
    pub fn set(&mut self, row: u32, live: bool)
        requires { row < length self.old }
        ensures { self.new ≡ slice_set self.old row live }
    {
        self.marks[row as usize] = live;
    }

    /// The truth value of a row; false if there is no such row.
    pub fn is_live(&self, row: u32) -> bool
        ensures { result ≡ slice_index_or self.now row false }
    {
        match self.marks.get(row as usize) {
            Some(live) => *live,
            None => false,
        }
    }
}
