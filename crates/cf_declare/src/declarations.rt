ghost use Rattle.std.specs.Prelude.{◌≡◌, ◌<◌, ℕ, [], None, false, length, IfOk, IfSome};
ghost use Rattle.config_rules.specs.Fault.{code_of, is_instance};
ghost use Rattle.config_rules.specs.Joined.{join};
ghost use Rattle.cf_declare.specs.Declare.{declare};
ghost use Rattle.attr_graph.specs.Graphs.{IsGraphOf};
ghost use Rattle.cf_declare.specs.Graphs.{FitsDeclared};
ghost use Rattle.cf_declare.specs.Limits.{HasFewLocators};

use crate::join::join;
use crate::judge::take;
use crate::names::{name_hash, room_of};
use attr_graph::Graph;
use cf_names::Catalog;
use cf_types::{AtSpec, Declared, GivenLoc, Joined, Memory, Name, Placed, Stmt};
use std::alloc::Global;
use std::marker::Model;

/// What the statements of a configuration declare so far, with the graph of what devices offer. Contracts see the lists
/// of attributes, devices and attachments. See config(5).
#[derive(Drop)]
pub struct Declarations {
    lists: Catalog,
    graph: Graph,
}

impl Model for Declarations {
    ghost use Rattle.cf_types.specs.declared.declared.Declared.{Declared as Lists};
    ghost use Rattle.attr_graph.specs.Graphs.{IsGraphOf};
    ghost use Rattle.cf_declare.specs.Graphs.{LocatorsFit};

    ghost Value = { Lists };

    ghost view = { λ it. it.lists };

    ghost invariant = { λ it. IsGraphOf it.lists it.graph × LocatorsFit it.lists };
}

impl Declarations {
    /// Nothing is declared yet; names will be found by a hash whose key is computed from all names that these
    /// statements declare. It takes no memory.
    pub fn make(alloc: Global, placed: &[Placed]) -> Declarations
        ensures { result ≡ record { attrs = []; devices = []; attaches = [] } }
    {
        Declarations {
            lists: Catalog::make(alloc, name_hash(placed)),
            graph: Graph::make(alloc),
        }
    }

    /// Makes room for what these statements declare. If memory runs out, what is declared is as before.
    pub fn reserve(&mut self, placed: &[Placed]) -> Result<(), Memory>
        ensures { self.new ≡ self.old }
    {
        let room = room_of(placed);
        self.lists.reserve(room)?;
        self.graph.reserve(room.attrs, room.devices)?;
        Ok(())
    }

    /// What an instance joins, or its first code.
    #[inline(always)]
    pub fn join(&self, base: &Name, at: &AtSpec, pairs: &[GivenLoc]) -> Result<Joined, u8>
        requires { FitsDeclared self.now }
        ensures { result ≡ join self.now base.now at.now pairs.now }
    {
        join(&self.lists, &self.graph, base, at, pairs)
    }

    /// The first code of a statement that is not an instance. If it has none, what it declares is added. If memory runs
    /// out, nothing remains declared.
    pub fn take(&mut self, alloc: Global, stmt: &Stmt) -> Result<Option<u8>, Memory>
        requires fits { FitsDeclared self.old }
        requires few { HasFewLocators stmt.now }
        requires attrs { length self.old.attrs < 65536 }
        requires devices { length self.old.devices < 65536 }
        requires instance { is_instance stmt.now ≡ false }
        ensures code { IfOk result (λ code. (n : ℕ) → code ≡ code_of self.old n stmt.now) }
        ensures declared { IfOk result (λ code. code ≡ None → self.new ≡ declare self.old stmt.now) }
        ensures same { IfOk result (λ code. IfSome code (λ _. self.new ≡ self.old)) }
    {
        match take(alloc, &mut self.lists, &mut self.graph, stmt) {
            Ok(code) => Ok(code),
            Err(stop) => {
                *self = Declarations::make(alloc, &[]);
                Err(stop)
            }
        }
    }

    /// The lists and the graph of them.
    pub fn into_parts(self) -> (Declared, Graph)
        ensures lists { result.0 ≡ self }
        ensures graph { IsGraphOf result.0 result.1 }
    {
        let Declarations { lists, graph } = self;
        (lists.into_lists(), graph)
    }
}
