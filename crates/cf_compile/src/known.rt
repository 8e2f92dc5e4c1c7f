//! A configuration together with its statements.
ghost use Rattle.std.specs.Prelude.{◌≡◌, ◌<◌, [], None, All, IfOk, IfSome, length};
ghost use Rattle.config_rules.specs.Fault.{first_code};
ghost use Rattle.config_rules.specs.Formed.{FormedTables};
ghost use Rattle.config_rules.specs.Reading.{reading};
ghost use Rattle.config_rules.specs.Written.{AreWritten};
ghost use Rattle.cf_compile.specs.Compiles.{AsksDue};
ghost use Rattle.cf_compile.specs.Known.{AreOrphans, AreOrphansIn, FindsKnown, Knows};
ghost use Rattle.cf_compile.specs.Meant.{reading_of};

use crate::build::split_by_root;
use crate::compiler::compile_placed;
use crate::judge::{Selection, Verdict, judge};
use crate::stop::CompileStop;
use cf_expand::expand;
use cf_io::Files;
use cf_rows::Split;
use cf_select::{SurvivingInstances, survivors};
use cf_tables::Compiled;
use cf_types::{Expanded, List, Memory, Placed, Text};
use std::alloc::Global;

/// The tables of a configuration with their graph, and the statements that they were made from.
#[derive(Drop)]
pub struct Known {
    pub tables: Compiled,
    /// The statements in reading order.
    pub placed: List<Placed>,
    /// The names of the files, in the order in which they were loaded.
    pub files: List<Text>,
    /// The places of the instances that are orphans, in their order.
    pub orphans: List<u32>,
}

/// The places of the orphans among the instances that stand.
fn orphans_in(alloc: Global, selection: Selection) -> Result<List<u32>, Memory>
    requires { All (λ x. x.joined.device < length selection.declarations.devices) selection.instances }
    ensures { IfOk result (AreOrphansIn selection.declarations selection.instances) }
{
    let Selection {
        declarations,
        instances,
    } = selection;
    let (declared, graph) = declarations.into_parts();
    drop(declared);
    let Split { rooted, orphans } = split_by_root(alloc, &graph, instances.items())?;
    drop(rooted);
    Ok(orphans)
}

/// The places of the orphans among accepted statements.
fn orphans_of(alloc: Global, files: &[Text], placed: &[Placed]) -> Result<List<u32>, Memory>
    requires written { AreWritten placed.now }
    requires accepted { first_code files.now [] placed.now ≡ None }
    ensures { IfOk result (AreOrphans placed.now) }
{
    let SurvivingInstances { kept, idle } = survivors(alloc, placed)?;
    drop(idle);
    match judge(alloc, files, placed, kept.items())? {
        Verdict::Accepted(selection) => orphans_in(alloc, selection),
        Verdict::Refused(_) => unreachable!(),
    }
}

/// The tables of what was read, with its statements, or its first fault.
fn known_of(alloc: Global, read: Expanded) -> Result<Known, CompileStop>
    requires { AreWritten read.placed }
    ensures { FindsKnown (reading_of read) result }
{
    let Expanded {
        placed,
        files,
        fault,
    } = read;
    let tables = match compile_placed(alloc, files.items(), placed.items(), fault) {
        Ok(tables) => tables,
        Err(stop) => {
            drop(placed);
            drop(files);
            return Err(stop);
        }
    };
    match orphans_of(alloc, files.items(), placed.items()) {
        Ok(orphans) => Ok(Known {
            tables,
            placed,
            files,
            orphans,
        }),
        Err(_) => {
            drop(tables);
            drop(placed);
            drop(files);
            Err(CompileStop::Memory)
        }
    }
}

/// Compiles the named configuration as `compile` does, and keeps its statements: with the tables it returns the statements, the names
/// of the files, and which instances are orphans. Each file is loaded once. See config(5).
pub fn compile_known<F: Files>(
    alloc: Global,
    files: &mut F,
    name: &[u8],
) -> Result<Known, CompileStop>
    ensures told { F.told files.new ≡ F.told files.old }
    ensures knows { Knows (F.told files.old) name.now (F.faults files.old) (F.faults files.new) result }
    ensures asked { IfSome (F.told files.old) (λ named. AsksDue (reading named name.now).asked result (F.asked files.old) (F.asked files.new)) }
    ensures formed { IfOk result (λ known. FormedTables known.tables) }
{
    let read = expand(alloc, files, name)?;
    known_of(alloc, read)
}
