//! Loads a plan.
ghost use Rattle.std.specs.Prelude.{◌≡◌, ◌≤◌, [], ◌∷◌, IfErr, IfOk, length};
ghost use Rattle.cf_io.specs.declared.files.TheConstants.{MAX_FILE};
ghost use Rattle.config_rules.specs.Formed.{FormedTables};
ghost use Rattle.live_rules.specs.PlanText.{FormedPlan, plan_of};
ghost use Rattle.app_input.specs.Asked.{IsAskedFor};
ghost use Rattle.app_input.specs.Plans.{plan_from};
ghost use Rattle.app_input.specs.Scripted.{IsCalledFor, IsOfFile, Says};
ghost use Rattle.app_words.specs.Status.{Counts, status_of};

use crate::file::load_file;
use app_words::Status;
use cf_io::Files;
use cf_tables::Compiled;
use cf_types::Tables;
use live_tables::{Plan, read_plan};
use script_text::ScriptStop;
use std::alloc::Global;

/// The plan that a text says.
fn judge_plan(alloc: Global, text: &[u8], tables: &Tables) -> Result<Plan, Status>
    requires short { length text.now ≤ MAX_FILE }
    requires formed { FormedTables tables.now }
    ensures says { Says 0 (plan_of tables.now text.now) result }
    ensures formed { IfOk result FormedPlan }
{
    match read_plan(alloc, text, tables) {
        Ok(plan) => Ok(plan),
        Err(ScriptStop::Fault { line, code }) => Err(Status::ScriptRefused {
            which: 0,
            line,
            code,
        }),
        Err(ScriptStop::Memory) => Err(Status::Memory),
    }
}

/// Loads a plan and reads it with the tables of the configuration.
pub fn load_plan<F: Files>(
    alloc: Global,
    files: &mut F,
    name: &[u8],
    tables: &Compiled,
) -> Result<Plan, Status>
    requires { FormedTables tables.now }
    ensures told { F.told files.new ≡ F.told files.old }
    ensures reads { IsCalledFor (F.told files.old) (λ files. plan_from files tables.now name.now) result }
    ensures of { IfErr result (IsOfFile 0 name.now) }
    ensures asked { IsAskedFor (name.now ∷ []) (status_of result) (F.asked files.old) (F.asked files.new) }
    ensures counted { Counts (F.faults files.old) (F.faults files.new) result }
    ensures formed { IfOk result FormedPlan }
{
    match load_file(alloc, files, name) {
        Ok(text) => judge_plan(alloc, text.items(), tables.tables()),
        Err(status) => Err(status),
    }
}
