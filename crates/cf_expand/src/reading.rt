ghost use Rattle.std.specs.Prelude.{◌≡◌, ℕ, false, ◌-◌, ◌<◌, IfOk, IfSome, OnOk, Some, length};
ghost use Rattle.cf_io.specs.Asked.{Asks};
ghost use Rattle.config_rules.specs.Written.{AreWritten, IsWritten};
ghost use Rattle.config_rules.specs.Reading.{nothing_read, reading};
ghost use Rattle.cf_expand.specs.Alone.{IsPlacedAtOnce};
ghost use Rattle.cf_expand.specs.Levels.{read_end};
ghost use Rattle.cf_expand.specs.Asked.{AsksIn};
ghost use Rattle.cf_expand.specs.Stop.{Counted};
ghost use Rattle.cf_expand.specs.Steps.{AsksTreating, IsCutting, Treats, WhereTold, entered, expanded, here_of, statement_at};

use crate::conditions::Conditions;
use crate::open::{open_first, open_include};
use crate::placed::MAX_PLACED;
use crate::progress::Progress;
use crate::source::{Opened, Place, Source};
use crate::statement::{Head, Statement};
use crate::steps::{pass_over, treat};
use crate::stop::ExpandStop;
use crate::unread::Unread;
use cf_grammar::GrammarStop;
use cf_io::Files;
use cf_lexer::Cutting;
use cf_types::code::configuration as code;
use cf_types::{Expanded, Memory, Stmt};
use cf_words::Word;
use std::alloc::Global;

/// Ends a file: no condition may be open.
fn read_end(
    alloc: Global,
    progress: &mut Progress,
    source: &Source,
    conditions: &Conditions,
) -> Result<(), Memory>
    ensures asked { OnOk result (progress.new.asked ≡ progress.old.asked) }
    ensures read { OnOk result ((around : ℕ) → progress.new ≡ read_end (here_of around source.now) conditions.now progress.old) }
{
    match conditions.innermost() {
        Some(line) => progress.refuse(alloc, source.name.items(), line, code::BAD_NESTING),
        None => Ok(()),
    }
}

/// Whether a statement says how to read on. All others are placed, and do nothing else.
#[inline(always)]
fn is_directive(stmt: &Stmt) -> bool
    ensures { result ≡ false → IsPlacedAtOnce stmt.now }
{
    matches!(
        stmt,
        Stmt::Include { .. } | Stmt::Prefix { .. } | Stmt::Cond { .. }
    )
}

/// Reads a statement of this form, with the file that it includes. It is a function of its own so that those which read
/// each statement stay small.
#[cycle(statements)]
#[inline(never)]
fn read_directive<F: Files>(
    files: &mut F,
    progress: &mut Progress,
    place: Place<'_>,
    head: Head,
    stmt: Stmt,
) -> Result<(), ExpandStop>
    requires few { length progress.old.placed < 65536 }
    requires written { IsWritten stmt }
    ensures told { F.told files.new ≡ F.told files.old }
    ensures counted { Counted (F.faults files.old) (F.faults files.new) result }
    ensures read { Treats (F.told files.old) place.entry.source.now place.entry.conditions.now head stmt progress.old result progress.new }
    ensures asked { AsksTreating (F.told files.old) place.entry.source.now place.entry.conditions.now head stmt progress.old result
        (F.asked files.old) (F.asked files.new) }
{
    let Some(wanted) = treat(progress, place, head, stmt)? else {
        return Ok(());
    };
    let Some(below) = open_include(files, progress, place, head.line, wanted)? else {
        return Ok(());
    };
    let Opened {
        source: inner,
        cutting,
    } = below;
    let alloc = progress.alloc();
    read_source(alloc, files, progress, &inner, cutting)
}

/// Reads a statement, with the file that it includes. The words are room for those of the statement.
#[cycle(statements)]
#[inline(always)]
fn read_with_include<'a, F: Files>(
    files: &mut F,
    progress: &mut Progress,
    place: Place<'_>,
    statement: &Statement<'a, '_>,
    words: &mut Vec<Word<'a>>,
) -> Result<(), ExpandStop>
    ensures told { F.told files.new ≡ F.told files.old }
    ensures counted { Counted (F.faults files.old) (F.faults files.new) result }
    ensures read { WhereTold (F.told files.old) (λ named. OnOk result ((around : ℕ) → place.entry.source.now.room ≡ 16 - around
        → progress.new ≡ statement_at named around place.entry.source.now place.entry.conditions.now statement.now progress.old)) }
    ensures asked { AsksIn (F.told files.old) place.entry.source.now progress.old
        (λ named around. statement_at named around place.entry.source.now place.entry.conditions.now statement.now progress.old)
        result (F.asked files.old) (F.asked files.new) }
{
    let head = statement.head();
    if !place.conditions.is_placed(head.word) {
        return Ok(pass_over(progress, place, head)?);
    }
    let alloc = progress.alloc();
    if progress.placed_len() >= MAX_PLACED {
        let code = code::TOO_MANY_STATEMENTS;
        return Ok(progress.refuse(alloc, place.source.name.items(), head.line, code)?);
    }
    match statement.read(progress, words) {
        Ok(stmt) => if is_directive(&stmt) {
            read_directive(files, progress, place, head, stmt)
        } else {
            Ok(progress.place(place.source.number, head.line, stmt)?)
        },
        Err(GrammarStop::Fault { code }) => {
            Ok(progress.refuse(alloc, place.source.name.items(), head.line, code)?)
        }
        Err(GrammarStop::Memory) => Err(ExpandStop::Memory),
    }
}

/// Reads the statements of a file whose text was cut, up to the first fault.
#[cycle(statements)]
fn read_source<F: Files>(
    alloc: Global,
    files: &mut F,
    progress: &mut Progress,
    source: &Source,
    cutting: Cutting,
) -> Result<(), ExpandStop>
    requires { IsCutting source.now.text cutting }
    ensures told { F.told files.new ≡ F.told files.old }
    ensures counted { Counted (F.faults files.old) (F.faults files.new) result }
    ensures read { WhereTold (F.told files.old) (λ named. OnOk result ((around : ℕ) → source.now.room ≡ 16 - around
        → progress.new ≡ entered named around (Some (record { source = source.now; cutting = cutting })) progress.old)) }
    ensures asked { AsksIn (F.told files.old) source.now progress.old
        (λ named around. entered named around (Some (record { source = source.now; cutting = cutting })) progress.old)
        result (F.asked files.old) (F.asked files.new) }
{
    let mut conditions = Conditions::make(alloc);
    let mut words = Vec::new(alloc);
    let mut left = Unread::make(source.text.items(), cutting);
    left.refill(true)?;
    while let Some((first, rest)) = left.first() {
        let statement = source.statement(first);
        let condition_holds = statement.holds(progress);
        let place = Place {
            source,
            conditions: &conditions,
        };
        read_with_include(files, progress, place, &statement, &mut words)?;
        if progress.has_fault() {
            return Ok(());
        }
        conditions.follow(statement.word(), statement.line(), condition_holds)?;
        let count = rest.len();
        left.keep_last(count);
        left.refill(conditions.is_live())?;
    }
    read_end(alloc, progress, source, &conditions)?;
    Ok(())
}

fn read_named<F: Files>(
    alloc: Global,
    files: &mut F,
    progress: &mut Progress,
    name: &[u8],
) -> Result<(), ExpandStop>
    requires { progress.old ≡ nothing_read }
    ensures told { F.told files.new ≡ F.told files.old }
    ensures counted { Counted (F.faults files.old) (F.faults files.new) result }
    ensures read { WhereTold (F.told files.old) (λ named. OnOk result (progress.new ≡ reading named name.now)) }
    ensures asked { WhereTold (F.told files.old) (λ named. Asks (reading named name.now).asked result (F.asked files.old) (F.asked files.new)) }
{
    let Some(opened) = open_first(alloc, files, progress, name)? else {
        return Ok(());
    };
    let Opened { source, cutting } = opened;
    read_source(alloc, files, progress, &source, cutting)
}

/// Reads the named configuration file with all that it includes, as config(5) has it: the statements outside the parts
/// that conditions leave out, the names of the files as they were loaded, and the first fault with its file, line and
/// code. Whatever the files hold, the statements keep the limits of the language. If it returns `ReadFault`, the count
/// of faults rose; if it returns `Memory`, nothing is known about the files.
pub fn expand<F: Files>(alloc: Global, files: &mut F, name: &[u8]) -> Result<Expanded, ExpandStop>
    ensures told { F.told files.new ≡ F.told files.old }
    ensures counted { Counted (F.faults files.old) (F.faults files.new) result }
    ensures reading { IfSome (F.told files.old) (λ named. IfOk result (λ read. read ≡ expanded (reading named name.now))) }
    ensures asked { IfSome (F.told files.old) (λ named. Asks (reading named name.now).asked result (F.asked files.old) (F.asked files.new)) }
    ensures written { IfOk result (λ read. AreWritten read.placed) }
{
    let mut progress = Progress::make(alloc);
    read_named(alloc, files, &mut progress, name)?;
    Ok(progress.into_expanded())
}
