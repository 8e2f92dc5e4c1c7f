//! Puts the listing of tables.
ghost use Rattle.std.specs.Prelude.{◌≡◌};
ghost use Rattle.attr_graph.specs.Graphs.{IsGraphOf, declared_by};
ghost use Rattle.config_rules.specs.Listing.{listing};
ghost use Rattle.app_output.specs.Output.{Puts};

use crate::lines::{Lines, put_lines};
use crate::stop::OutputStop;
use attr_graph::Graph;
use cf_io::Sink;
use cf_types::{Memory, Tables};
use ioconf_text::put_line_at_once;
use std::alloc::Global;

/// The lines of the listing of tables, with their graph.
#[derive(Drop)]
struct Listing<'a> {
    tables: &'a Tables,
    graph: &'a Graph,
    ghost graphed: { IsGraphOf (declared_by tables.now) graph.now },
}

impl<'a> Lines for Listing<'a> {
    ghost use Rattle.config_rules.specs.Listing as rules;

    ghost lines = { λ it. rules.lines it.tables.now };

    fn put_line(&self, place: u64, line: &mut Vec<u8>) -> Result<bool, Memory> {
        match u32::try_from(place) {
            Ok(place) => put_line_at_once(self.tables, self.graph, place, line),
            Err(_) => Err(Memory),
        }
    }
}

/// Puts the listing of tables by their graph.
pub fn put_listing<S: Sink>(
    alloc: Global,
    tables: &Tables,
    graph: &Graph,
    out: &mut S,
) -> Result<(), OutputStop>
    requires { IsGraphOf (declared_by tables.now) graph.now }
    ensures { Puts (listing tables.now) (S.told out.old) (S.told out.new) result }
{
    put_lines(alloc, &Listing { tables, graph }, out)
}
