//! Loads the scripts of a run and the file with their course.
ghost use Rattle.std.specs.Prelude.{◌≡◌, ◌≤◌, [], ◌∷◌, All, IfErr, IfOk, IfSome, length, map, string_bytes};
ghost use Rattle.cf_io.specs.declared.files.TheConstants.{MAX_FILE};
ghost use Rattle.config_rules.specs.ScriptText.{FormedScript, commands_of, order_of};
ghost use Rattle.script_text.specs.WatchText.{FormedWatchLine, watch_of};
ghost use Rattle.app_input.specs.Asked.{IsAskedFor, script_files, scripted_files, up_to_refused};
ghost use Rattle.app_input.specs.Scripted.{FormedCourse, FormedRun, IsCalledFor, IsCourseOf, IsOfFile, IsOfScript, IsOfScripted, Says, course_of, script_of, scripted_of, scripts_of, task_of};
ghost use Rattle.app_words.specs.Status.{Counts, status_of};

use crate::file::load_file;
use app_words::{Status, Task};
use cf_io::Files;
use cf_types::{List, Script, Text};
use script_text::{ScriptStop, WatchLine, read_order, read_script, read_watch};
use std::alloc::Global;

/// The course of the scripts of a run, and what is done by it.
#[derive(Drop)]
pub enum Course {
    /// They take turns: their numbers, from 1.
    Play(List<u8>),
    /// This history of them is checked.
    Replay(Text),
    /// This history of them is checked and written in format 2.
    Upgrade(Text),
    /// They take turns while others read which devices came and went, by these lines.
    Watch(List<WatchLine>),
}

/// The scripts of a run, and their course.
#[derive(Drop)]
pub struct Scripted {
    pub scripts: List<Script>,
    pub course: Course,
}

/// The script that a text spells.
fn judge_script(alloc: Global, text: &[u8], which: u8) -> Result<Script, Status>
    requires { length text.now ≤ MAX_FILE }
    ensures says { Says which (commands_of text.now) result }
    ensures formed { IfOk result FormedScript }
{
    match read_script(alloc, text) {
        Ok(script) => Ok(script),
        Err(ScriptStop::Fault { line, code }) => Err(Status::ScriptRefused { which, line, code }),
        Err(ScriptStop::Memory) => Err(Status::Memory),
    }
}

/// The turns that a text spells.
fn judge_order(alloc: Global, text: &[u8], callers: u8) -> Result<List<u8>, Status>
    requires short { length text.now ≤ MAX_FILE }
    requires some { 1 ≤ callers }
    requires few { callers ≤ 16 }
    ensures says { Says 0 (order_of callers text.now) result }
    ensures turns { IfOk result (λ order. All (λ turn. (1 ≤ turn) × (turn ≤ callers)) order) }
{
    match read_order(alloc, text, callers) {
        Ok(order) => Ok(order),
        Err(ScriptStop::Fault { line, code }) => Err(Status::ScriptRefused {
            which: 0,
            line,
            code,
        }),
        Err(ScriptStop::Memory) => Err(Status::Memory),
    }
}

/// The lines of a watch file that a text says.
fn judge_watch(alloc: Global, text: &[u8], callers: u8) -> Result<List<WatchLine>, Status>
    requires { length text.now ≤ MAX_FILE }
    ensures says { Says 0 (watch_of callers text.now) result }
    ensures formed { IfOk result (All (FormedWatchLine callers)) }
{
    match read_watch(alloc, text, callers) {
        Ok(lines) => Ok(lines),
        Err(ScriptStop::Fault { line, code }) => Err(Status::ScriptRefused {
            which: 0,
            line,
            code,
        }),
        Err(ScriptStop::Memory) => Err(Status::Memory),
    }
}

/// The course that a text gives to this many callers. A history is judged when it is replayed.
fn judge_course(alloc: Global, task: Task, text: Text, callers: u8) -> Result<Course, Status>
    requires short { length text ≤ MAX_FILE }
    requires some { 1 ≤ callers }
    requires few { callers ≤ 16 }
    ensures says { IsCourseOf task callers text result }
    ensures formed { IfOk result (FormedCourse callers) }
{
    match task {
        Task::Play => match judge_order(alloc, text.items(), callers) {
            Ok(turns) => Ok(Course::Play(turns)),
            Err(status) => Err(status),
        },
        Task::Replay => Ok(Course::Replay(text)),
        Task::Upgrade => Ok(Course::Upgrade(text)),
        Task::Watch => match judge_watch(alloc, text.items(), callers) {
            Ok(lines) => Ok(Course::Watch(lines)),
            Err(status) => Err(status),
        },
    }
}

/// Loads a script and reads it.
fn load_script<F: Files>(
    alloc: Global,
    files: &mut F,
    name: &[u8],
    which: u8,
) -> Result<Script, Status>
    ensures told { F.told files.new ≡ F.told files.old }
    ensures reads { IsCalledFor (F.told files.old) (λ files. script_of files which name.now) result }
    ensures of { IfErr result (IsOfFile which name.now) }
    ensures asked { IsAskedFor (name.now ∷ []) (status_of result) (F.asked files.old) (F.asked files.new) }
    ensures counted { Counts (F.faults files.old) (F.faults files.new) result }
    ensures formed { IfOk result FormedScript }
{
    match load_file(alloc, files, name) {
        Ok(text) => judge_script(alloc, text.items(), which),
        Err(status) => Err(status),
    }
}

/// Loads the file with the course of this many callers.
fn load_course<F: Files>(
    alloc: Global,
    files: &mut F,
    task: Task,
    name: &[u8],
    callers: u8,
) -> Result<Course, Status>
    requires some { 1 ≤ callers }
    requires few { callers ≤ 16 }
    ensures told { F.told files.new ≡ F.told files.old }
    ensures reads { IsCalledFor (F.told files.old) (λ files. course_of task files callers name.now) result }
    ensures of { IfErr result (IsOfFile 0 name.now) }
    ensures asked { IsAskedFor (name.now ∷ []) (status_of result) (F.asked files.old) (F.asked files.new) }
    ensures counted { Counts (F.faults files.old) (F.faults files.new) result }
    ensures task { IfOk result (λ course. task_of course ≡ task) }
    ensures formed { IfOk result (FormedCourse callers) }
{
    match load_file(alloc, files, name) {
        Ok(text) => judge_course(alloc, task, text, callers),
        Err(status) => Err(status),
    }
}

/// Loads the scripts of these names and reads them, each before the next is loaded.
pub fn load_scripts<F: Files>(
    alloc: Global,
    files: &mut F,
    names: &[String],
) -> Result<List<Script>, Status>
    requires { length names.now ≤ 16 }
    ensures told { F.told files.new ≡ F.told files.old }
    ensures reads { IsCalledFor (F.told files.old) (λ files. scripts_of files (map string_bytes names.now)) result }
    ensures of { IfErr result (IsOfScript (map string_bytes names.now)) }
    ensures asked { IfSome (F.told files.old)
        (λ named. IsAskedFor (up_to_refused (script_files named 1 (map string_bytes names.now))) (status_of result) (F.asked files.old) (F.asked files.new)) }
    ensures counted { Counts (F.faults files.old) (F.faults files.new) result }
    ensures all { IfOk result (λ scripts. length scripts ≡ length names.now) }
    ensures formed { IfOk result (λ scripts. All FormedScript scripts) }
{
    let mut scripts = List::make(alloc);
    let mut which = 1;
    for name in names {
        match load_script(alloc, files, name.as_bytes(), which) {
            Ok(script) => {
                if scripts.push(script).is_err() {
                    return Err(Status::Memory);
                }
            }
            Err(status) => return Err(status),
        }
        which += 1;
    }
    Ok(scripts)
}

/// Loads the scripts of these names, and then the file with their course.
pub fn load_scripted<F: Files>(
    alloc: Global,
    files: &mut F,
    task: Task,
    names: &[String],
    course: &[u8],
) -> Result<Scripted, Status>
    requires some { 1 ≤ length names.now }
    requires few { length names.now ≤ 16 }
    ensures told { F.told files.new ≡ F.told files.old }
    ensures reads { IsCalledFor (F.told files.old) (λ files. scripted_of task files (map string_bytes names.now) course.now) result }
    ensures of { IfErr result (IsOfScripted (map string_bytes names.now) course.now) }
    ensures asked { IfSome (F.told files.old)
        (λ named. IsAskedFor (up_to_refused (scripted_files task named (map string_bytes names.now) course.now))
        (status_of result) (F.asked files.old) (F.asked files.new)) }
    ensures counted { Counts (F.faults files.old) (F.faults files.new) result }
    ensures task { IfOk result (λ run. task_of run.course ≡ task) }
    ensures formed { IfOk result FormedRun }
{
    let scripts = match load_scripts(alloc, files, names) {
        Ok(scripts) => scripts,
        Err(status) => return Err(status),
    };
    match load_course(alloc, files, task, course, names.len() as u8) {
        Ok(course) => Ok(Scripted { scripts, course }),
        Err(status) => Err(status),
    }
}
