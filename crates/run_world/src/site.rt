//! What a run goes by, which never changes.
ghost use Rattle.std.specs.Prelude.{◌≡◌, IfOk};
ghost use Rattle.std.proofs.Props.{props};
ghost use Rattle.attr_graph.specs.Graphs.{IsGraphOf, declared_by};
ghost use Rattle.match_search.specs.Fixed.{AreFixed};
ghost use Rattle.match_search.specs.Index.{IsIndexOf};
ghost use Rattle.match_search.specs.Leaders.{AreLeadersOf};
ghost use Rattle.run_rules.specs.World.{setup_of};
ghost use Rattle.run_world.specs.Input.{Bounded, EachLater-prop};
ghost use Rattle.run_world.specs.Known.{IsKnownOf};
ghost use Rattle.scan_engine.specs.Spans.{AreSpansOf};
ghost use Rattle.scan_engine.specs.Styled.{AreStylesOf};

use attr_graph::Graph;
use cf_tables::Compiled;
use cf_types::{List, Machine, Memory, Placed, Script};
use match_search::{FixedRows, Leaders, RowIndex};
use run_rules::Setup;
use scan_engine::{ChildSpans, Styles};
use std::alloc::Global;
use std::mem::drop;

/// The tables, the machine and the scripts of a run, the graph of what devices offer, the rows that suit each spot and
/// which of them are looked at, the rows of each device and unit, where the spots below each one are, and the styles of
/// buses. Each value keeps that these are those of its tables and machine, and the limits that a board goes by.
#[derive(Drop)]
pub struct Site {
    pub alloc: Global,
    pub setup: Setup,
    pub graph: Graph,
    pub index: RowIndex,
    pub leaders: Leaders,
    pub fixed: FixedRows,
    pub spans: ChildSpans,
    pub styles: Styles,
    /// The statements that the tables were made from: they are freed with the site, and a program that ends soon frees
    /// neither.
    pub placed: List<Placed>,
    pub ghost graphed: { IsGraphOf (declared_by setup.tables) graph },
    pub ghost indexed: { IsIndexOf setup.tables setup.machine index } by { Prim.hlevel (props, EachLater-prop) },
    pub ghost led: { AreLeadersOf setup.tables index leaders } by { Prim.hlevel props },
    pub ghost listed: { AreFixed setup.tables.rows fixed } by { Prim.hlevel props },
    pub ghost spanned: { AreSpansOf setup.machine spans } by { Prim.hlevel props },
    pub ghost styled: { AreStylesOf setup.machine styles } by { Prim.hlevel props },
    pub ghost bounded: { Bounded setup } by { Prim.hlevel (props, EachLater-prop) },
}

/// What is known about a setup before any event.
#[derive(Drop)]
struct Known {
    index: RowIndex,
    leaders: Leaders,
    fixed: FixedRows,
    spans: ChildSpans,
    styles: Styles,
}

/// The rows that suit each spot, which of them are looked at, the rows of each device and unit, where the spots below
/// each one are, and the styles of buses.
fn known_of(alloc: Global, setup: &Setup) -> Result<Known, Memory>
    requires { Bounded setup.now }
    ensures { IfOk result (IsKnownOf setup.now) }
{
    let index = RowIndex::make(alloc, &setup.tables, &setup.machine)?;
    let leaders = Leaders::make(alloc, &setup.tables, &index)?;
    let fixed = FixedRows::make(alloc, setup.tables.rows.items())?;
    let spans = ChildSpans::make(alloc, &setup.machine)?;
    let styles = Styles::make(alloc, &setup.machine)?;
    Ok(Known {
        index,
        leaders,
        fixed,
        spans,
        styles,
    })
}

impl Site {
    /// The site of a run by these tables, with this machine and these scripts.
    pub fn make(
        alloc: Global,
        tables: Compiled,
        machine: Machine,
        scripts: List<Script>,
    ) -> Result<Site, Memory>
        requires { Bounded (setup_of tables machine scripts) }
        ensures { IfOk result (λ site. site.setup ≡ setup_of tables machine scripts) }
    {
        let (tables, graph, placed) = tables.into_parts();
        let setup = Setup {
            tables,
            machine,
            scripts,
        };
        match known_of(alloc, &setup) {
            Ok(known) => Ok(Site {
                alloc,
                setup,
                graph,
                index: known.index,
                leaders: known.leaders,
                fixed: known.fixed,
                spans: known.spans,
                styles: known.styles,
                placed,
            }),
            Err(_) => {
                drop(placed);
                drop(graph);
                drop(setup);
                Err(Memory)
            }
        }
    }
}
