ghost use Rattle.std.specs.Prelude.{◌≡◌, ℕ, List as Items, [], IfOk, OnOk, IfSome};
ghost use Rattle.config_rules.specs.Formed.{FormedTables};
ghost use Rattle.config_rules.specs.Select.{has_name};
ghost use Rattle.file_rules.specs.Chosen.{is_chosen};
ghost use Rattle.file_rules.specs.Sources.{file_pieces};
ghost use Rattle.cf_compile.specs.Compiles.{AsksDue};
ghost use Rattle.file_select.specs.Answers.{SelectsFrom, SelectsPlaced, SelectsRead, Takes, TakesOptional, asked_for, with_path};

use crate::names::chosen_set;
use crate::statement::{Finding, file_pieces, find};
use crate::texts::TextSet;
use cf_compile::{CompileStop, compile, refusal};
use cf_expand::expand;
use cf_io::Files;
use cf_types::{Expanded, List, Memory, PieceView, Placed, Stmt, Tables, Text};
use std::alloc::Global;
use std::marker::Model;

/// The paths that are selected, each at its first place, with a set of them. Contracts see only the list.
#[derive(Drop)]
struct Selection {
    paths: Vec<Text>,
    seen: TextSet,
}

impl Model for Selection {
    ghost use Rattle.std.specs.Prelude.{◌≡◌, List as Items, ℕ};
    ghost use Rattle.config_rules.specs.Select.{has_name};

    ghost Value = { Items (Items ℕ) };

    ghost view = { λ it. it.paths.items };

    ghost invariant = { λ it. (text : Items ℕ) → has_name it.seen text ≡ has_name it.paths.items text };
}

impl Selection {
    /// No path.
    fn make(alloc: Global) -> Selection
        ensures { result ≡ [] }
    {
        Selection {
            paths: Vec::new(alloc),
            seen: TextSet::make(alloc),
        }
    }

    /// Appends a path, unless it is there.
    fn push(&mut self, alloc: Global, path: &[u8]) -> Result<(), Memory>
        ensures { OnOk result (self.new ≡ with_path self.old path.now) }
    {
        let copy = Text::copied(alloc, path)?;
        self.paths.reserve(1)?;
        if self.seen.insert(alloc, path)? {
            self.paths.push_reserved(copy);
        }
        Ok(())
    }

    /// The paths.
    fn into_paths(self) -> List<Text>
        ensures { result ≡ self }
    {
        let Selection { paths, .. } = self;
        List::from_vec(paths)
    }
}

/// Takes what follows the word of a `file` statement. `Some` has its code.
fn take_pieces(
    alloc: Global,
    names: &TextSet,
    selection: &mut Selection,
    pieces: &[PieceView<'_>],
) -> Result<Option<u8>, Memory>
    ensures { IfOk result (λ code. Takes (has_name names.now) pieces.now selection.old code selection.new) }
{
    match find(alloc, names, pieces)? {
        Finding::Bad(code) => return Ok(Some(code)),
        Finding::Good(false) => {}
        Finding::Good(true) => if let Some(path) = pieces.first() {
            selection.push(alloc, path.text)?;
        },
    }
    Ok(None)
}

/// Takes a statement. `Some` has the code of a `file` statement that has one.
fn take(
    alloc: Global,
    names: &TextSet,
    selection: &mut Selection,
    stmt: &Stmt,
) -> Result<Option<u8>, Memory>
    ensures { IfOk result (λ code. TakesOptional (has_name names.now) (file_pieces stmt.now) selection.old code selection.new) }
{
    match file_pieces(stmt) {
        Some(pieces) => {
            let pieces = pieces.views(alloc)?;
            take_pieces(alloc, names, selection, &pieces)
        }
        None => Ok(None),
    }
}

/// The paths that the statements select if these names are chosen, or the first of them that has a code.
fn select_placed(
    alloc: Global,
    names: &TextSet,
    files: &[Text],
    placed: &[Placed],
) -> Result<List<Text>, CompileStop>
    ensures { SelectsPlaced (has_name names.now) files.now placed.now result }
{
    let mut selection = Selection::make(alloc);
    for statement in placed {
        if let Some(code) = take(alloc, names, &mut selection, &statement.stmt)? {
            return Err(CompileStop::Refused(refusal(alloc, files, statement, code)?));
        }
    }
    Ok(selection.into_paths())
}

/// The paths that placed statements select by what the tables choose, or the first of them that has a code.
fn select_chosen(
    alloc: Global,
    tables: &Tables,
    files: &[Text],
    placed: &[Placed],
) -> Result<List<Text>, CompileStop>
    requires { FormedTables tables.now }
    ensures { SelectsPlaced (is_chosen tables.now) files.now placed.now result }
{
    let names = chosen_set(alloc, tables)?;
    select_placed(alloc, &names, files, placed)
}

/// The paths that the statements of what was read select by what the tables choose.
fn select_read(alloc: Global, tables: &Tables, read: Expanded) -> Result<List<Text>, CompileStop>
    requires { FormedTables tables.now }
    ensures { SelectsRead (is_chosen tables.now) read result }
{
    let Expanded {
        placed,
        files,
        fault,
    } = read;
    let found = match fault {
        Some(fault) => Err(CompileStop::Refused(fault)),
        None => select_chosen(alloc, tables, files.items(), placed.items()),
    };
    drop(placed);
    drop(files);
    found
}

/// The paths of the sources that the named configuration selects by its `file` statements, in reading order, each once:
/// of those without a condition and of those whose condition is true by the names that it chooses. It compiles the
/// configuration and then reads it again. A refusal is the first fault of the configuration, or else that of its first
/// `file` statement without a form. A read fault comes before any fault of the configuration. See config(5).
pub fn select<F: Files>(
    alloc: Global,
    files: &mut F,
    name: &[u8],
) -> Result<List<Text>, CompileStop>
    ensures told { F.told files.new ≡ F.told files.old }
    ensures selects { SelectsFrom (F.told files.old) name.now (F.faults files.old) (F.faults files.new) result }
    ensures asked { IfSome (F.told files.old) (λ named. AsksDue (asked_for named name.now) result (F.asked files.old) (F.asked files.new)) }
{
    let compiled = compile(alloc, files, name)?;
    let tables = compiled.into_tables();
    let read = match expand(alloc, files, name) {
        Ok(read) => read,
        Err(stop) => {
            drop(tables);
            return Err(CompileStop::from(stop));
        }
    };
    let found = select_read(alloc, &tables, read);
    drop(tables);
    found
}
