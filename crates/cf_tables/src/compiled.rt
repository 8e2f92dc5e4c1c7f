ghost use Rattle.std.specs.Prelude.{◌≡◌, IfOk};
ghost use Rattle.attr_graph.specs.Graphs.{FitGraph, IsGraphOf, declared_by};

use attr_graph::{Graph, graph_of};
use cf_types::{List, Memory, Placed, Tables};
use std::alloc::Global;
use std::marker::Model;
use std::mem::drop;

/// The tables of a configuration, with the graph of their attributes. Contracts see the tables. The statements that they
/// were made from may go with them, so that a program that ends soon need not free these.
#[derive(Drop)]
pub struct Compiled {
    tables: Tables,
    graph: Graph,
    placed: List<Placed>,
}

impl Model for Compiled {
    ghost use Rattle.cf_types.specs.declared.tables.Tables.{Tables};
    ghost use Rattle.attr_graph.specs.Graphs.{IsGraphOf, declared_by};

    ghost Value = { Tables };

    ghost view = { λ it. it.tables };

    ghost invariant = { λ it. IsGraphOf (declared_by it.tables) it.graph };
}

impl Compiled {
    /// These tables with their graph.
    pub fn make(alloc: Global, tables: Tables, graph: Graph) -> Compiled
        requires { IsGraphOf (declared_by tables) graph }
        ensures { result ≡ tables }
    {
        Compiled {
            tables,
            graph,
            placed: List::make(alloc),
        }
    }

    /// These tables, whose graph is made here.
    pub fn of(alloc: Global, tables: Tables) -> Result<Compiled, Memory>
        requires { FitGraph tables }
        ensures { IfOk result (λ it. it ≡ tables) }
    {
        match graph_of(alloc, &tables) {
            Ok(graph) => Ok(Compiled::make(alloc, tables, graph)),
            Err(stop) => {
                drop(tables);
                Err(stop)
            }
        }
    }

    /// The same, with the statements that they were made from.
    pub fn with_placed(self, placed: List<Placed>) -> Compiled
        ensures { result ≡ self }
    {
        let Compiled {
            tables,
            graph,
            placed: none,
        } = self;
        drop(none);
        Compiled {
            tables,
            graph,
            placed,
        }
    }

    /// The tables.
    pub fn tables(&self) -> &Tables
        ensures { result.now ≡ self.now }
    {
        &self.tables
    }

    /// The graph of their attributes and devices.
    pub fn graph(&self) -> &Graph
        ensures { IsGraphOf (declared_by self.now) result.now }
    {
        &self.graph
    }

    /// The tables, their graph, and the statements that went with them.
    pub fn into_parts(self) -> (Tables, Graph, List<Placed>)
        ensures tables { result.0 ≡ self }
        ensures graph { IsGraphOf (declared_by self) result.1 }
    {
        let Compiled {
            tables,
            graph,
            placed,
        } = self;
        (tables, graph, placed)
    }

    /// The tables alone.
    pub fn into_tables(self) -> Tables
        ensures { result ≡ self }
    {
        let (tables, graph, placed) = self.into_parts();
        drop(graph);
        drop(placed);
        tables
    }
}
