//! Does what the inputs ask for. Nothing here sees the output, so a run has ended before any of it is put.
ghost use Rattle.std.specs.Prelude.{◌≡◌};
ghost use Rattle.app_input.specs.Inputs.{FormedInputs, IsInputsOf};
ghost use Rattle.app_words.specs.declared.program.Program.TheVariants as Program;
ghost use Rattle.app_words.specs.Status.{Counts, status_of};
ghost use Rattle.app_output.specs.Output.{Puts};
ghost use Rattle.app_config.specs.FilesAsked.{AsksThen};
ghost use Rattle.app_config.specs.Found.{FindsFor, found_text};

use app_input::{Inputs, status_of_stop};
use app_output::{
    OutputStop, put_history, put_listing, put_paths, put_piece, put_plan, put_run, put_tree,
    put_watch,
};
use app_tasks::{RetoldRun, WatchedRun, booted, loaded, played, retold, watched};
use app_words::Status;
use cf_io::{Files, Sink};
use cf_tables::Compiled;
use cf_types::{List, Text};
use dev_board::Board;
use file_select::select;
use live_run::{LiveRun, live_run};
use std::alloc::Global;

/// What was found for the inputs.
#[derive(Drop)]
pub enum Found {
    /// The tables of a configuration.
    Listed(Compiled),
    /// The paths of the sources that a configuration selects.
    Selected(List<Text>),
    /// The board of a run that has ended.
    Ran(Board),
    /// A run that was watched.
    Watched(WatchedRun),
    /// What a plan left.
    Followed(LiveRun),
    /// A line with its newline.
    Line(Vec<u8>),
    /// A history that was read, of which the device tree is to be put.
    Tree(RetoldRun),
    /// A history that was read, which is to be put with its tree.
    Retold(RetoldRun),
}

/// Compiles, selects, boots, plays, watches, replays and follows a plan as the inputs ask for. Files are read for the sources alone.
pub fn found_by<F: Files>(alloc: Global, files: &mut F, inputs: Inputs) -> Result<Found, Status>
    requires formed { FormedInputs inputs }
    requires kind { IsInputsOf Program.Devconf inputs }
    ensures told { F.told files.new ≡ F.told files.old }
    ensures found { FindsFor (F.told files.old) inputs result }
    ensures asked { AsksThen (F.told files.old) inputs (status_of result) (F.asked files.old) (F.asked files.new) }
    ensures counted { Counts (F.faults files.old) (F.faults files.new) result }
{
    match inputs {
        Inputs::Ioconf { tables } => Ok(Found::Listed(tables)),
        Inputs::Files { name } => {
            let paths = match select(alloc, files, name.items()) {
                Ok(paths) => paths,
                Err(stop) => return Err(status_of_stop(stop)),
            };
            Ok(Found::Selected(paths))
        }
        Inputs::Boot { tables, machine } => {
            let board = booted(alloc, tables, machine)?;
            Ok(Found::Ran(board))
        }
        Inputs::Load {
            count,
            tables,
            machine,
        } => {
            let line = loaded(alloc, count, tables, machine)?;
            Ok(Found::Line(line))
        }
        Inputs::Play {
            tables,
            machine,
            scripts,
            order,
        } => {
            let board = played(alloc, tables, machine, scripts, order.items())?;
            Ok(Found::Ran(board))
        }
        Inputs::Replay {
            tables,
            machine,
            scripts,
            history,
        } => {
            let run = retold(alloc, tables, machine, scripts, history)?;
            Ok(Found::Tree(run))
        }
        Inputs::Upgrade {
            tables,
            machine,
            scripts,
            history,
        } => {
            let run = retold(alloc, tables, machine, scripts, history)?;
            Ok(Found::Retold(run))
        }
        Inputs::Watch {
            tables,
            machine,
            scripts,
            watch,
        } => {
            let run = watched(alloc, tables, machine, scripts, watch.items())?;
            Ok(Found::Watched(run))
        }
        Inputs::Follow {
            tables,
            machine,
            plan,
        } => {
            let run = live_run(alloc, tables, machine, plan)?;
            Ok(Found::Followed(run))
        }
        Inputs::Run { .. } => unreachable!(),
    }
}

/// Puts what was found: the listing, or the paths, or the listing, the history and the device tree, or the line, or the
/// tree, or a history with its tree.
pub fn put_found<S: Sink>(alloc: Global, found: &Found, out: &mut S) -> Result<(), OutputStop>
    ensures { Puts (found_text found.now) (S.told out.old) (S.told out.new) result }
{
    match found {
        Found::Listed(found) => put_listing(alloc, found.tables(), found.graph(), out),
        Found::Selected(paths) => put_paths(alloc, paths.items(), out),
        Found::Ran(board) => put_run(alloc, board, out),
        Found::Watched(run) => put_watch(alloc, &run.board, run.readings.items(), out),
        Found::Followed(run) => put_plan(alloc, &run.tables, run.lines.items(), out),
        Found::Line(line) => put_piece(line, out),
        Found::Tree(run) => put_tree(alloc, run.told.tree.items(), out),
        Found::Retold(run) => {
            put_history(alloc, run.told.events.items(), run.told.tree.items(), out)
        }
    }
}
