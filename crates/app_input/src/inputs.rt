ghost use Rattle.std.specs.Prelude.{◌≡◌, ◌≢◌, ◌≤◌, ◌⊎◌, Err, Option, IfOk, IfSome, Some, length, map, string_bytes};
ghost use Rattle.cf_io.specs.Faults.{Rose};
ghost use Rattle.config_rules.specs.Formed.{FormedTables};
ghost use Rattle.config_rules.specs.Reading.{Files as NamedFiles, reading};
ghost use Rattle.app_input.specs.Asked.{AsksForm, AsksInputs, IsAskedFor};
ghost use Rattle.app_input.specs.Inputs.{FormedInputs, IsDue, IsInputsOf, Reads, ReadsTables, inputs_by};
ghost use Rattle.app_words.specs.Status.{Counts, status_of};
ghost use Rattle.app_words.specs.Words.{boot, following, form_of, ioconf, load, scripted, side_by_side, sources};

use crate::machine_file::load_machine;
use crate::made::made_files;
use crate::plans::load_plan;
use crate::scripts::{Course, Scripted, load_scripted, load_scripts};
use crate::stop::status_of_stop;
use app_words::{Program, Status, Task, WordStop, Words, read_words};
use cf_compile::compile;
use cf_io::Files;
use cf_tables::Compiled;
use cf_types::{List, Machine, Script, Text};
use live_tables::Plan;
use script_text::WatchLine;
use std::alloc::Global;

/// What the words ask for, read from the files that they name. All tables have their graph with them.
#[derive(Drop)]
pub enum Inputs {
    /// The tables of a configuration. See config(5).
    Ioconf {
        tables: Compiled,
    },
    /// The name of a configuration whose sources are to be selected. It is not read yet. See config(5).
    Files {
        name: Text,
    },
    /// The tables of a configuration, and a machine that is to boot by them.
    Boot {
        tables: Compiled,
        machine: Machine,
    },
    /// The same for a generated machine and its configuration; the machine has this many spots on its bus, 1 to 1,000.
    Load {
        count: u32,
        tables: Compiled,
        machine: Machine,
    },
    /// The tables of a configuration and a machine, and a plan by which groups of rows come and go. See
    /// config_cfdata_attach(9).
    Follow {
        tables: Compiled,
        machine: Machine,
        plan: Plan,
    },
    /// The same with 1 to 16 scripts to run after the boot, and the order of their turns: numbers of scripts, counted
    /// from 1. See drvctl(8).
    Play {
        tables: Compiled,
        machine: Machine,
        scripts: List<Script>,
        order: List<u8>,
    },
    /// The same with a history to be checked in place of the order. The history is not judged yet.
    Replay {
        tables: Compiled,
        machine: Machine,
        scripts: List<Script>,
        history: Text,
    },
    /// The same; the history is also to be written in format 2.
    Upgrade {
        tables: Compiled,
        machine: Machine,
        scripts: List<Script>,
        history: Text,
    },
    /// The same with the lines of a watch file, which have turns, subscriptions and reads.
    Watch {
        tables: Compiled,
        machine: Machine,
        scripts: List<Script>,
        watch: List<WatchLine>,
    },
    /// The tables of a configuration, a machine that is to boot by them, and 1 to 16 scripts to run side by side after
    /// the boot. See drvctl(8).
    Run {
        tables: Compiled,
        machine: Machine,
        scripts: List<Script>,
    },
}

/// Compiles the configuration.
fn read_tables<F: Files>(alloc: Global, files: &mut F, file: &[u8]) -> Result<Compiled, Status>
    ensures told { F.told files.new ≡ F.told files.old }
    ensures reads { ReadsTables (F.told files.old) file.now result }
    ensures asked { IfSome (F.told files.old)
        (λ named. IsAskedFor (reading named file.now).asked (status_of result) (F.asked files.old) (F.asked files.new)) }
    ensures counted { Counts (F.faults files.old) (F.faults files.new) result }
    ensures formed { IfOk result FormedTables }
{
    match compile(alloc, files, file) {
        Ok(tables) => Ok(tables),
        Err(stop) => Err(status_of_stop(stop)),
    }
}

/// Reads the inputs of `ioconf FILE`.
fn read_ioconf<F: Files>(alloc: Global, files: &mut F, file: &[u8]) -> Result<Inputs, Status>
    ensures told { F.told files.new ≡ F.told files.old }
    ensures reads { Reads (Some (ioconf file.now)) (F.told files.old) result }
    ensures asked { IfSome (F.told files.old)
        (λ named. AsksForm (ioconf file.now) named (status_of result) (F.asked files.old) (F.asked files.new)) }
    ensures counted { Counts (F.faults files.old) (F.faults files.new) result }
    ensures formed { IfOk result FormedInputs }
{
    match read_tables(alloc, files, file) {
        Ok(tables) => Ok(Inputs::Ioconf { tables }),
        Err(status) => Err(status),
    }
}

/// The inputs of `files FILE`. No file is loaded.
fn read_files(alloc: Global, file: &[u8]) -> Result<Inputs, Status>
    ensures reads { (told : Option NamedFiles) → Reads (Some (sources file.now)) told result }
    ensures quiet { result ≢ Err Status.ReadFault }
    ensures formed { IfOk result FormedInputs }
{
    match Text::copied(alloc, file) {
        Ok(name) => Ok(Inputs::Files { name }),
        Err(_) => Err(Status::Memory),
    }
}

/// Reads the inputs of `boot FILE MACHINE`: the configuration first.
fn read_boot<F: Files>(
    alloc: Global,
    files: &mut F,
    file: &[u8],
    name: &[u8],
) -> Result<Inputs, Status>
    ensures told { F.told files.new ≡ F.told files.old }
    ensures reads { Reads (Some (boot file.now name.now)) (F.told files.old) result }
    ensures asked { IfSome (F.told files.old)
        (λ named. AsksForm (boot file.now name.now) named (status_of result) (F.asked files.old) (F.asked files.new)) }
    ensures counted { Counts (F.faults files.old) (F.faults files.new) result }
    ensures formed { IfOk result FormedInputs }
{
    let tables = match read_tables(alloc, files, file) {
        Ok(tables) => tables,
        Err(status) => return Err(status),
    };
    match load_machine(alloc, files, name, &tables) {
        Ok(machine) => Ok(Inputs::Boot { tables, machine }),
        Err(status) => {
            drop(tables);
            Err(status)
        }
    }
}

/// Reads the inputs of `tables FILE MACHINE PLAN`: the configuration, the machine, the plan.
fn read_follow<F: Files>(
    alloc: Global,
    files: &mut F,
    config: &[u8],
    name: &[u8],
    plan: &[u8],
) -> Result<Inputs, Status>
    ensures told { F.told files.new ≡ F.told files.old }
    ensures reads { Reads (Some (following config.now name.now plan.now)) (F.told files.old) result }
    ensures asked { IfSome (F.told files.old)
        (λ named. AsksForm (following config.now name.now plan.now) named (status_of result) (F.asked files.old) (F.asked files.new)) }
    ensures counted { Counts (F.faults files.old) (F.faults files.new) result }
    ensures formed { IfOk result FormedInputs }
{
    let tables = match read_tables(alloc, files, config) {
        Ok(tables) => tables,
        Err(status) => return Err(status),
    };
    let machine = match load_machine(alloc, files, name, &tables) {
        Ok(machine) => machine,
        Err(status) => {
            drop(tables);
            return Err(status);
        }
    };
    match load_plan(alloc, files, plan, &tables) {
        Ok(plan) => Ok(Inputs::Follow {
            tables,
            machine,
            plan,
        }),
        Err(status) => {
            drop(tables);
            drop(machine);
            Err(status)
        }
    }
}

/// The inputs of a machine and its scripts with their course.
fn inputs_by(tables: Compiled, machine: Machine, run: Scripted) -> Inputs
    ensures { result ≡ inputs_by tables machine run }
{
    let Scripted { scripts, course } = run;
    match course {
        Course::Play(order) => Inputs::Play {
            tables,
            machine,
            scripts,
            order,
        },
        Course::Replay(history) => Inputs::Replay {
            tables,
            machine,
            scripts,
            history,
        },
        Course::Upgrade(history) => Inputs::Upgrade {
            tables,
            machine,
            scripts,
            history,
        },
        Course::Watch(watch) => Inputs::Watch {
            tables,
            machine,
            scripts,
            watch,
        },
    }
}

/// Reads the inputs of `play FILE MACHINE ORDER SCRIPT..`, of `replay` or `upgrade` with a history, or of `watch` with a watch file: the
/// configuration, the machine, the scripts, the order file, history or watch file.
fn read_scripted<F: Files>(
    alloc: Global,
    files: &mut F,
    task: Task,
    config: &[u8],
    name: &[u8],
    course: &[u8],
    scripts: &[String],
) -> Result<Inputs, Status>
    requires some { 1 ≤ length scripts.now }
    requires few { length scripts.now ≤ 16 }
    ensures told { F.told files.new ≡ F.told files.old }
    ensures reads { Reads (Some (scripted task config.now name.now course.now (map string_bytes scripts.now))) (F.told files.old) result }
    ensures asked { IfSome (F.told files.old)
        (λ named. AsksForm (scripted task config.now name.now course.now (map string_bytes scripts.now))
        named (status_of result) (F.asked files.old) (F.asked files.new)) }
    ensures counted { Counts (F.faults files.old) (F.faults files.new) result }
    ensures formed { IfOk result FormedInputs }
{
    let tables = match read_tables(alloc, files, config) {
        Ok(tables) => tables,
        Err(status) => return Err(status),
    };
    let machine = match load_machine(alloc, files, name, &tables) {
        Ok(machine) => machine,
        Err(status) => {
            drop(tables);
            return Err(status);
        }
    };
    match load_scripted(alloc, files, task, scripts, course) {
        Ok(found) => Ok(inputs_by(tables, machine, found)),
        Err(status) => {
            drop(tables);
            drop(machine);
            Err(status)
        }
    }
}

/// Reads the inputs of `FILE MACHINE SCRIPT..`: the configuration, the machine, the scripts.
fn read_side_by_side<F: Files>(
    alloc: Global,
    files: &mut F,
    config: &[u8],
    name: &[u8],
    scripts: &[String],
) -> Result<Inputs, Status>
    requires some { 1 ≤ length scripts.now }
    requires few { length scripts.now ≤ 16 }
    ensures told { F.told files.new ≡ F.told files.old }
    ensures reads { Reads (Some (side_by_side config.now name.now (map string_bytes scripts.now))) (F.told files.old) result }
    ensures asked { IfSome (F.told files.old)
        (λ named. AsksForm (side_by_side config.now name.now (map string_bytes scripts.now))
        named (status_of result) (F.asked files.old) (F.asked files.new)) }
    ensures counted { Counts (F.faults files.old) (F.faults files.new) result }
    ensures formed { IfOk result FormedInputs }
{
    let tables = match read_tables(alloc, files, config) {
        Ok(tables) => tables,
        Err(status) => return Err(status),
    };
    let machine = match load_machine(alloc, files, name, &tables) {
        Ok(machine) => machine,
        Err(status) => {
            drop(tables);
            return Err(status);
        }
    };
    match load_scripts(alloc, files, scripts) {
        Ok(scripts) => Ok(Inputs::Run {
            tables,
            machine,
            scripts,
        }),
        Err(status) => {
            drop(tables);
            drop(machine);
            Err(status)
        }
    }
}

/// Reads the inputs of `load N` from the generated files, the configuration first. No other file is asked for.
fn read_load(alloc: Global, count: u32) -> Result<Inputs, Status>
    requires some { 1 ≤ count }
    requires few { count ≤ 1000 }
    ensures reads { (told : Option NamedFiles) → Reads (Some (load count)) told result }
    ensures quiet { result ≢ Err Status.ReadFault }
    ensures formed { IfOk result FormedInputs }
{
    let mut files = match made_files(alloc, count) {
        Ok(files) => files,
        Err(_) => return Err(Status::Memory),
    };
    let tables = match read_tables(alloc, &mut files, b"conf") {
        Ok(tables) => tables,
        Err(status) => {
            drop(files);
            return Err(status);
        }
    };
    let machine = load_machine(alloc, &mut files, b"mach", &tables);
    drop(files);
    match machine {
        Ok(machine) => Ok(Inputs::Load {
            count,
            tables,
            machine,
        }),
        Err(status) => {
            drop(tables);
            Err(status)
        }
    }
}

/// Reads the words behind a program's name and the files that they name, the configuration before the machine: what they
/// give, or the first refusal in this order: the words, the configuration, the machine file, the scripts in order, the
/// order file, history or watch file, or the plan. Each file is judged before the next is loaded, but for a history, which is judged when it is
/// replayed. See config(1), config(5) and drvctl(8).
pub fn read_inputs<F: Files>(
    alloc: Global,
    program: Program,
    words: &[String],
    files: &mut F,
) -> Result<Inputs, Status>
    ensures told { F.told files.new ≡ F.told files.old }
    ensures reads { Reads (form_of program (map string_bytes words.now)) (F.told files.old) result }
    ensures asked { AsksInputs (form_of program (map string_bytes words.now)) (F.told files.old) (status_of result) (F.asked files.old) (F.asked files.new) }
    ensures counted { Counts (F.faults files.old) (F.faults files.new) result }
    ensures kind { IfOk result (IsInputsOf program) }
    ensures formed { IfOk result FormedInputs }

    // If the files are told and no fault was counted, the result is the one that is due, or memory ran out.
    ensures due { IfSome (F.told files.old) (λ named. ¬ Rose (F.faults files.old) (F.faults files.new)
        → (result ≡ Err Status.Memory) ⊎ IsDue (form_of program (map string_bytes words.now)) named result) }
{
    match read_words(alloc, program, words) {
        Ok(Words::Ioconf { file }) => read_ioconf(alloc, files, file.as_bytes()),
        Ok(Words::Files { file }) => read_files(alloc, file.as_bytes()),
        Ok(Words::Boot { file, machine }) => {
            read_boot(alloc, files, file.as_bytes(), machine.as_bytes())
        }
        Ok(
            Words::Follow {
                file,
                machine,
                plan,
            },
        ) => {
            read_follow(
                alloc,
                files,
                file.as_bytes(),
                machine.as_bytes(),
                plan.as_bytes(),
            )
        }
        Ok(Words::Load { count }) => read_load(alloc, count),
        Ok(
            Words::Scripted {
                task,
                file,
                machine,
                course,
                scripts,
            },
        ) => {
            read_scripted(
                alloc,
                files,
                task,
                file.as_bytes(),
                machine.as_bytes(),
                course.as_bytes(),
                scripts,
            )
        }
        Ok(
            Words::Run {
                file,
                machine,
                scripts,
            },
        ) => { read_side_by_side(alloc, files, file.as_bytes(), machine.as_bytes(), scripts) }
        Err(WordStop::Usage) => Err(Status::Usage),
        Err(WordStop::Memory) => Err(Status::Memory),
    }
}
