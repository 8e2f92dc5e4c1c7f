ghost use Rattle.std.specs.Prelude.{◌≡◌, ℕ, ◌<◌, IfOk, IfSome, OnOk, if◌then◌else◌, length};
ghost use Rattle.cf_types.specs.declared.code.configuration.TheConstants.{BAD_NESTING};
ghost use Rattle.config_rules.specs.Reading.{Statement, condition_of, refused};
ghost use Rattle.cf_expand.specs.Levels.{is_misplaced, treat};
ghost use Rattle.config_rules.specs.Written.{IsWritten};
ghost use Rattle.cf_expand.specs.Steps.{Follows, here_of, turned};

use crate::progress::Progress;
use crate::source::{Include, Place, Source};
use crate::statement::Head;
use cf_types::code::configuration as code;
use cf_types::{Memory, Stmt, Text};
use std::alloc::Global;

fn turn_prefix(
    alloc: Global,
    progress: &mut Progress,
    source: &Source,
    line: u32,
    path: Option<Text>,
) -> Result<(), Memory>
    requires { length progress.old.placed < 65536 }
    ensures asked { OnOk result (progress.new.asked ≡ progress.old.asked) }
    ensures turned { OnOk result ((around : ℕ) (s : Statement) → s.line ≡ line
        → progress.new ≡ turned (here_of around source.now) s path progress.old) }
{
    match path {
        Some(path) => {
            progress.push_prefix(path.items())?;
            progress.place(source.number, line, Stmt::Prefix { path: Some(path) })
        }
        None => if progress.pop_prefix() {
            progress.place(source.number, line, Stmt::Prefix { path: None })
        } else {
            progress.refuse(alloc, source.name.items(), line, code::NO_PREFIX)
        },
    }
}

/// Reads a statement on this line, with its condition word, if it begins with one, and its form, up to the file that it
/// includes.
pub fn treat(
    progress: &mut Progress,
    place: Place<'_>,
    head: Head,
    stmt: Stmt,
) -> Result<Option<Include>, Memory>
    requires few { length progress.old.placed < 65536 }
    requires written { IsWritten stmt }
    ensures few { IfOk result (λ wanted. IfSome wanted (λ _. length progress.new.placed < 65536)) }
    ensures asked { OnOk result (progress.new.asked ≡ progress.old.asked) }
    ensures steps { (s : Statement) → s.line ≡ head.line → condition_of s ≡ head.word
        → Follows (λ files below here levels s. treat files below here levels s stmt)
        place.entry.source.now place.entry.conditions.now s progress.old result progress.new }
{
    let alloc = progress.alloc();
    let Place { source, conditions } = place;
    let Head { word, line } = head;
    match stmt {
        Stmt::Include { path, optional } => return Ok(Some(Include { path, optional })),
        Stmt::Prefix { path } => turn_prefix(alloc, progress, source, line, path)?,
        Stmt::Cond { word: named, name } => if conditions.is_misplaced(source.room, word) {
            progress.refuse(alloc, source.name.items(), line, code::BAD_NESTING)?
        } else {
            progress.place(source.number, line, Stmt::Cond { word: named, name })?
        },
        other => progress.place(source.number, line, other)?,
    }
    Ok(None)
}

/// Reads a statement of a part that is left out: only its first word is looked at.
#[inline(always)]
pub fn pass_over(progress: &mut Progress, place: Place<'_>, head: Head) -> Result<(), Memory>
    ensures asked { OnOk result (progress.new.asked ≡ progress.old.asked) }
    ensures read { OnOk result (progress.new ≡ (if is_misplaced place.entry.source.now.room head.word place.entry.conditions.now
        then refused place.entry.source.now.name head.line BAD_NESTING progress.old else progress.old)) }
{
    let Place { source, conditions } = place;
    let Head { word, line } = head;
    if conditions.is_misplaced(source.room, word) {
        let alloc = progress.alloc();
        progress.refuse(alloc, source.name.items(), line, code::BAD_NESTING)?;
    }
    Ok(())
}
