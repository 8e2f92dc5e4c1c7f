ghost use Rattle.std.specs.Prelude.{◌≡◌, ℕ, ◌+◌, ◌-◌, ◌≤◌, ◌<◌, [], ◌∷◌, IfOk, IfSome, OnOk, length};
ghost use Rattle.config_rules.specs.Reading.{Statement, asking, nothing_read, read_first};
ghost use Rattle.cf_io.specs.Asked.{Asks};
ghost use Rattle.cf_expand.specs.Asked.{AsksAt, AsksStep};
ghost use Rattle.cf_expand.specs.Loaded.{IsLoaded, IsShort};
ghost use Rattle.cf_expand.specs.Stop.{Counted};
ghost use Rattle.cf_expand.specs.Steps.{IsBelow, Opens, WhereTold, entered, include_at, when_absent};

use crate::alone::read_alone;
use crate::progress::Progress;
use crate::source::{Include, Limits, Opened, Place, Source};
use crate::stop::ExpandStop;
use cf_io::{Files, Load};
use cf_lexer::{LexStop, cut};
use cf_types::code::configuration as code;
use cf_types::{List, Memory, Stmt, Text};
use std::alloc::Global;

/// The most files that are loaded.
const MAX_FILES: usize = 4_096;

/// The most levels of files below the named one.
const MAX_LEVELS: u32 = 16;

/// The most conditions that are open at once, over all files.
const MAX_CONDITIONS: usize = 16;

/// A file that was asked for.
#[derive(Drop)]
enum Loaded {
    Text(Vec<u8>),
    Absent,
    TooLong,
}

/// Asks for a file.
fn load<F: Files>(alloc: Global, files: &mut F, name: &[u8]) -> Result<Loaded, ExpandStop>
    ensures told { F.told files.new ≡ F.told files.old }
    ensures counted { Counted (F.faults files.old) (F.faults files.new) result }
    ensures short { IfOk result IsShort }
    ensures content { WhereTold (F.told files.old) (λ named. IfOk result (λ loaded. IsLoaded (named name.now) loaded)) }
    ensures asked { Asks (name.now ∷ []) result (F.asked files.old) (F.asked files.new) }
{
    let mut text = Vec::new(alloc);
    match files.load(name, &mut text) {
        Load::Whole => Ok(Loaded::Text(text)),
        Load::Absent => Ok(Loaded::Absent),
        Load::TooLong => Ok(Loaded::TooLong),
        Load::Failed => Err(ExpandStop::ReadFault),
        Load::Memory => Err(ExpandStop::Memory),
    }
}

/// Asks for a file, and notes that.
fn ask<F: Files>(
    alloc: Global,
    files: &mut F,
    progress: &mut Progress,
    name: &[u8],
) -> Result<Loaded, ExpandStop>
    ensures told { F.told files.new ≡ F.told files.old }
    ensures counted { Counted (F.faults files.old) (F.faults files.new) result }
    ensures short { IfOk result IsShort }
    ensures content { WhereTold (F.told files.old) (λ named. IfOk result (λ loaded. IsLoaded (named name.now) loaded)) }
    ensures noted { OnOk result (progress.new ≡ asking name.now progress.old) }
    ensures asked { Asks (name.now ∷ []) result (F.asked files.old) (F.asked files.new) }
{
    progress.push_asked(alloc, name)?;
    load(alloc, files, name)
}

/// Opens a file that was loaded. `None` if it cannot be cut into tokens, which is noted as the fault; or if it is one
/// statement, which is read at once.
fn open(
    alloc: Global,
    progress: &mut Progress,
    name: Text,
    text: Vec<u8>,
    limits: Limits,
) -> Result<Option<Opened>, Memory>
    requires short { length text.items ≤ 1048576 }
    requires few { length progress.old.files < 4096 }
    ensures below { IfOk result (λ opened. IsBelow limits.room limits.levels opened) }
    ensures asked { OnOk result (progress.new.asked ≡ progress.old.asked) }
    ensures read { IfOk result (λ opened. Opens limits.levels name text.items progress.old opened progress.new) }
{
    if read_alone(alloc, progress, name.items(), &text)? {
        return Ok(None);
    }
    let Limits { room, levels } = limits;
    let number = progress.files_len() as u32;
    progress.push_file(alloc, name.items())?;
    match cut(alloc, &text) {
        Ok(cutting) => Ok(Some(Opened {
            source: Source {
                name,
                number,
                text: List::from_vec(text),
                room,
                levels,
            },
            cutting,
        })),
        Err(LexStop::Fault { line, code }) => {
            progress.refuse(alloc, name.items(), line, code)?;
            Ok(None)
        }
        Err(LexStop::Memory) => Err(Memory),
    }
}

/// Opens the named file.
pub fn open_first<F: Files>(
    alloc: Global,
    files: &mut F,
    progress: &mut Progress,
    name: &[u8],
) -> Result<Option<Opened>, ExpandStop>
    requires { progress.old ≡ nothing_read }
    ensures told { F.told files.new ≡ F.told files.old }
    ensures counted { Counted (F.faults files.old) (F.faults files.new) result }
    ensures below { IfOk result (λ opened. IsBelow 16 16 opened) }
    ensures read { WhereTold (F.told files.old) (λ named. IfOk result (λ opened.
        entered named 0 opened progress.new ≡ read_first named name.now (named name.now))) }
    ensures asked { WhereTold (F.told files.old) (λ named.
        AsksStep (read_first named name.now (named name.now)).asked progress.new.asked result (F.asked files.old) (F.asked files.new)) }
{
    match ask(alloc, files, progress, name)? {
        Loaded::Text(text) => {
            let name = List::copied(alloc, name)?;
            let limits = Limits {
                room: MAX_CONDITIONS,
                levels: MAX_LEVELS,
            };
            Ok(open(alloc, progress, name, text, limits)?)
        }
        Loaded::Absent => {
            progress.refuse(alloc, name, 0, code::FILE_ABSENT)?;
            Ok(None)
        }
        Loaded::TooLong => {
            progress.refuse(alloc, name, 0, code::FILE_TOO_LONG)?;
            Ok(None)
        }
    }
}

/// Places an include whose file is absent, if that is allowed.
fn absent(
    alloc: Global,
    progress: &mut Progress,
    source: &Source,
    line: u32,
    wanted: Include,
) -> Result<(), Memory>
    requires { length progress.old.placed < 65536 }
    ensures read { OnOk result (progress.new ≡ when_absent source.now line wanted.path wanted.optional progress.old) }
{
    if wanted.optional {
        let Include { path, optional } = wanted;
        return progress.place(source.number, line, Stmt::Include { path, optional });
    }
    progress.refuse(alloc, source.name.items(), line, code::FILE_ABSENT)
}

/// Loads and opens the file of an include, unless that is too deep, one too many, absent or too long.
pub fn open_include<F: Files>(
    files: &mut F,
    progress: &mut Progress,
    place: Place<'_>,
    line: u32,
    wanted: Include,
) -> Result<Option<Opened>, ExpandStop>
    requires { length progress.old.placed < 65536 }
    ensures told { F.told files.new ≡ F.told files.old }
    ensures counted { Counted (F.faults files.old) (F.faults files.new) result }
    ensures below { IfOk result (λ opened. IfSome opened (λ _. 1 ≤ place.entry.source.now.levels)
        × IsBelow (place.entry.source.now.room - length place.entry.conditions.now) (place.entry.source.now.levels - 1) opened) }
    ensures read { WhereTold (F.told files.old) (λ named. IfOk result (λ opened. (around : ℕ) (s : Statement) → s.line ≡ line
        → entered named (around + length place.entry.conditions.now) opened progress.new
        ≡ include_at named around place.entry.source.now place.entry.conditions.now s wanted progress.old)) }
    ensures asked { AsksAt (F.told files.old) line progress.old progress.new
        (λ named around s. include_at named around place.entry.source.now place.entry.conditions.now s wanted progress.old)
        result (F.asked files.old) (F.asked files.new) }
{
    let alloc = progress.alloc();
    let Place { source, conditions } = place;
    if source.levels == 0 || progress.files_len() >= MAX_FILES {
        progress.refuse(alloc, source.name.items(), line, code::TOO_MANY_FILES)?;
        return Ok(None);
    }
    let path = progress.under_prefix(alloc, wanted.path.items())?;
    match ask(alloc, files, progress, path.items())? {
        Loaded::Text(text) => {
            let Include {
                path: written,
                optional,
            } = wanted;
            progress.place(
                source.number,
                line,
                Stmt::Include {
                    path: written,
                    optional,
                },
            )?;
            let limits = Limits {
                room: source.room.saturating_sub(conditions.len()),
                levels: source.levels - 1,
            };
            Ok(open(alloc, progress, path, text, limits)?)
        }
        Loaded::Absent => {
            absent(alloc, progress, source, line, wanted)?;
            Ok(None)
        }
        Loaded::TooLong => {
            progress.refuse(alloc, source.name.items(), line, code::FILE_TOO_LONG)?;
            Ok(None)
        }
    }
}
