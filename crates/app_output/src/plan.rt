//! Puts what a plan prints.
ghost use Rattle.std.specs.Prelude.{◌++◌};
ghost use Rattle.cf_types.specs.Lines.{text_of};
ghost use Rattle.config_rules.specs.Listing.{listing};
ghost use Rattle.app_output.specs.Output.{Puts};

use crate::listing::put_listing;
use crate::paths::put_paths;
use crate::stop::OutputStop;
use cf_io::Sink;
use cf_tables::Compiled;
use cf_types::Text;
use std::alloc::Global;

/// Puts the listing of tables, and the lines behind it, each with a newline.
pub fn put_plan<S: Sink>(
    alloc: Global,
    tables: &Compiled,
    lines: &[Text],
    out: &mut S,
) -> Result<(), OutputStop>
    ensures { Puts (listing tables.now ++ text_of lines.now) (S.told out.old) (S.told out.new) result }
{
    put_listing(alloc, tables.tables(), tables.graph(), out)?;
    put_paths(alloc, lines, out)
}
