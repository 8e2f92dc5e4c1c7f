//! What the search for the next deed uses.
ghost use Rattle.std.specs.Prelude.{◌≡◌, length};
ghost use Rattle.plain_rows.specs.Drivers.{AreByDriver};
ghost use Rattle.plain_rows.specs.Styles.{AreStyles};
ghost use Rattle.plain_rows.specs.Suited.{AreSuited};

use plain_rows::{DriverRows, Styles, Suited, Taken};
use plain_world::Rules;

/// What the search for the next deed uses: the rules of a run, for each spot the rows that suit it, the styles, the rows of each
/// driver, and for each row how many live devices have its driver and unit.
#[derive(Drop)]
pub struct Seeker<'a> {
    pub rules: &'a Rules<'a>,
    pub suited: Suited,
    pub taken: Taken,
    pub styles: Styles,
    pub drivers: DriverRows,
    pub ghost listed: { AreSuited rules.now.tables rules.now.machine suited },
    pub ghost styled: { AreStyles rules.now.machine.styles styles },
    pub ghost driven: { AreByDriver rules.now.tables.rows drivers },
    pub ghost counted: { length taken ≡ length rules.now.tables.rows },
}
