ghost use Rattle.std.specs.Prelude.{◌≡◌, [], IfOk, IfSome};
ghost use Rattle.config_rules.specs.Fault.{stmts_of};
ghost use Rattle.config_rules.specs.Formed.{FormedTables};
ghost use Rattle.config_rules.specs.Meaning.{idle_insts};
ghost use Rattle.config_rules.specs.Reading.{reading};
ghost use Rattle.cf_compile.specs.Compiles.{AsksDue, Compiles};
ghost use Rattle.cf_compile.specs.Judged.{Judges};
ghost use Rattle.config_rules.specs.Written.{AreWritten};
ghost use Rattle.cf_compile.specs.Meant.{Finds, IsMeant, read_from, reading_of};

use crate::build::tables_of;
use crate::judge::{Selection, Verdict, judge};
use crate::stop::CompileStop;
use crate::tokens::lightened;
use cf_expand::expand;
use cf_io::Files;
use cf_select::{SurvivingInstances, survivors};
use cf_tables::Compiled;
use cf_types::{Expanded, Memory, Placed, Refusal, Text};
use std::alloc::Global;

/// The tables of accepted statements, with the graph by which they were judged.
fn tables_of_selection(
    alloc: Global,
    files: &[Text],
    placed: &[Placed],
    idle: &[u32],
    selection: Selection,
) -> Result<Compiled, Memory>
    requires written { AreWritten placed.now }
    requires accepted { Judges files.now placed.now (Verdict.Accepted selection) }
    requires idle { idle.now ≡ idle_insts [] (stmts_of placed.now) }
    ensures { IfOk result (IsMeant files.now placed.now) }
{
    let Selection {
        declarations,
        instances,
    } = selection;
    let (declared, graph) = declarations.into_parts();
    let tables = tables_of(alloc, files, placed, idle, declared, &graph, instances)?;
    Ok(Compiled::make(alloc, tables, graph))
}

/// The tables of placed statements, or their first fault, or else this fault of the reading.
pub fn compile_placed(
    alloc: Global,
    files: &[Text],
    placed: &[Placed],
    fault: Option<Refusal>,
) -> Result<Compiled, CompileStop>
    requires { AreWritten placed.now }
    ensures { Finds (record (read_from files.now placed.now) { fault = fault }) result }
{
    let SurvivingInstances { kept, idle } = survivors(alloc, placed)?;
    match judge(alloc, files, placed, kept.items())? {
        Verdict::Refused(refusal) => Err(CompileStop::Refused(refusal)),
        Verdict::Accepted(selection) => match fault {
            Some(fault) => Err(CompileStop::Refused(fault)),
            None => Ok(tables_of_selection(alloc, files, placed, idle.items(), selection)?),
        },
    }
}

/// The tables of what was read, or its first fault: that of a statement, or else that of the reading. If there are many
/// statements, their tokens are freed first, because nobody reads them from here on.
fn compile_read(alloc: Global, read: Expanded) -> Result<Compiled, CompileStop>
    requires { AreWritten read.placed }
    ensures { Finds (reading_of read) result }
{
    let Expanded {
        placed,
        files,
        fault,
    } = read;
    let placed = lightened(alloc, placed);
    let found = compile_placed(alloc, files.items(), placed.items(), fault);
    drop(files);
    match found {
        Ok(compiled) => Ok(compiled.with_placed(placed)),
        Err(stop) => {
            drop(placed);
            Err(stop)
        }
    }
}

/// Compiles the named configuration with all that it includes: its tables, which have their graph with them, or its
/// first fault in reading order with its file, line and code. A read fault comes before any fault of the configuration.
/// See config(1) and config(5).
pub fn compile<F: Files>(alloc: Global, files: &mut F, name: &[u8]) -> Result<Compiled, CompileStop>
    ensures told { F.told files.new ≡ F.told files.old }
    ensures compiles { Compiles (F.told files.old) name.now (F.faults files.old) (F.faults files.new) result }
    ensures asked { IfSome (F.told files.old) (λ named. AsksDue (reading named name.now).asked result (F.asked files.old) (F.asked files.new)) }
    ensures formed { IfOk result FormedTables }
{
    let read = expand(alloc, files, name)?;
    compile_read(alloc, read)
}
