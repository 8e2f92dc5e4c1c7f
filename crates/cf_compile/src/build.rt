ghost use Rattle.std.specs.Prelude.{◌≡◌, ◌<◌, [], None, All, IfOk, length};
ghost use Rattle.config_rules.specs.Declared.{Declared, declared};
ghost use Rattle.config_rules.specs.Fault.{first_code, stmts_of};
ghost use Rattle.config_rules.specs.Meaning.{idle_insts, surviving};
ghost use Rattle.attr_graph.specs.Graphs.{IsGraphOf};
ghost use Rattle.config_rules.specs.Written.{AreWritten};
ghost use Rattle.cf_compile.specs.Meant.{IsMeant, IsSplit};

use attr_graph::Graph;
use cf_options::items;
use cf_rows::{Split, Warned, rows_of, split_by_marks, warnings};
use cf_select::rooted;
use cf_types::{Declared, Instance, List, Memory, Placed, Tables, Text};
use std::alloc::Global;

/// The surviving instances that are rooted, and the orphans.
pub fn split_by_root<'a>(
    alloc: Global,
    graph: &Graph,
    instances: &'a [Instance],
) -> Result<Split<'a>, Memory>
    requires { All (λ x. x.joined.device < length graph.now.devices) instances.now }
    ensures { IfOk result (λ parts. (d : Declared) → IsGraphOf d graph.now → IsSplit d instances.now parts) }
{
    let marks = rooted(alloc, graph, instances)?;
    Ok(split_by_marks(alloc, instances, marks.items())?)
}

/// The tables of statements that were accepted, with what they declare, the surviving instances among them and the
/// places of the negations of instances that take nothing back.
pub fn tables_of(
    alloc: Global,
    files: &[Text],
    placed: &[Placed],
    idle: &[u32],
    lists: Declared,
    graph: &Graph,
    instances: List<Instance>,
) -> Result<Tables, Memory>
    requires written { AreWritten placed.now }
    requires accepted { first_code files.now [] placed.now ≡ None }
    requires declared { lists ≡ declared (stmts_of placed.now) }
    requires graph { IsGraphOf lists graph.now }
    requires instances { instances ≡ surviving [] (stmts_of placed.now) }
    requires idle { idle.now ≡ idle_insts [] (stmts_of placed.now) }
    ensures { IfOk result (IsMeant files.now placed.now) }
{
    let Split { rooted, orphans } = split_by_root(alloc, graph, instances.items())?;
    let rows = rows_of(alloc, lists.devices.len() as u32, rooted.items())?;
    drop(rooted);
    drop(instances);
    let kept = items(alloc, placed)?;
    let warned = Warned {
        instances: idle,
        items: kept.idle.items(),
        orphans: orphans.items(),
    };
    let warnings = warnings(alloc, files, placed, &warned)?;
    Ok(Tables {
        attrs: lists.attrs,
        devices: lists.devices,
        attaches: lists.attaches,
        rows,
        pseudos: kept.pseudos,
        options: kept.options,
        makeoptions: kept.makeoptions,
        file_systems: kept.file_systems,
        warnings,
    })
}
