//! What a status says on standard error.
ghost use Rattle.std.specs.Prelude.{◌≡◌, [], ◌++◌, ◌∷◌, ◌⊎◌, OnOk, IfOk, codes, decimal, map, slice_index_or, string_bytes};
ghost use Rattle.cf_types.specs.Lines.{ended};
ghost use Rattle.cf_io.specs.Told.{Takes};
ghost use Rattle.app_output.specs.Status.{err_text, machine_word, place_text, refused_text, script_word, usage_text};

use app_words::{Program, Status, bound_words};
use cf_io::{Put, Sink};
use cf_types::{Memory, put_decimal};
use std::alloc::Global;

const DEVCONF_USAGE: &[u8] =
    b"usage: devconf ioconf FILE | boot FILE MACHINE | play FILE MACHINE ORDER SCRIPT.. | replay FILE MACHINE HISTORY SCRIPT.. | upgrade FILE MACHINE HISTORY SCRIPT.. | files FILE | tables FILE MACHINE PLAN | watch FILE MACHINE WATCH SCRIPT.. | load N\n";

const DRVRUN_USAGE: &[u8] = b"usage: drvrun FILE MACHINE SCRIPT..\n";

const DRVALL_USAGE: &[u8] = b"usage: drvall [-w N] FILE MACHINE SCRIPT..\n";

const DEVWHY_USAGE: &[u8] = b"usage: devwhy FILE [MACHINE] NAME\n";

/// The forms that the words of a program may have, with a newline.
fn usage(program: Program) -> &'static [u8]
    ensures { result.now ≡ ended (usage_text program) }
{
    match program {
        Program::Devconf => DEVCONF_USAGE,
        Program::Drvrun => DRVRUN_USAGE,
        Program::Drvall => DRVALL_USAGE,
        Program::Devwhy => DEVWHY_USAGE,
    }
}

/// Appends a file of a kind, at a line.
fn put_place(out: &mut Vec<u8>, kind: &[u8], file: &[u8], line: u32) -> Result<(), Memory>
    ensures { OnOk result (out.new.items ≡ out.old.items ++ place_text kind.now file.now line) }
{
    out.extend_from_slice(kind)?;
    out.extend_from_slice(b" ")?;
    out.extend_from_slice(file)?;
    out.extend_from_slice(b":")?;
    put_decimal(out, i64::from(line))?;
    Ok(())
}

/// Appends the line of a refusal.
fn put_refused(
    out: &mut Vec<u8>,
    kind: &[u8],
    file: &[u8],
    line: u32,
    code: u8,
) -> Result<(), Memory>
    ensures { OnOk result (out.new.items ≡ out.old.items ++ (refused_text kind.now file.now line code ++ 10 ∷ [])) }
{
    put_place(out, kind, file, line)?;
    out.extend_from_slice(b": code ")?;
    put_decimal(out, i64::from(code))?;
    out.push(b'\n')?;
    Ok(())
}

/// Appends a line that says something about a file.
fn put_named(out: &mut Vec<u8>, name: &[u8], text: &[u8]) -> Result<(), Memory>
    ensures { OnOk result (out.new.items ≡ out.old.items ++ ((name.now ++ text.now) ++ 10 ∷ [])) }
{
    out.extend_from_slice(name)?;
    out.extend_from_slice(text)?;
    out.push(b'\n')?;
    Ok(())
}

/// Appends the line about a bound on worlds that is exceeded.
fn put_bound(out: &mut Vec<u8>, most: u32) -> Result<(), Memory>
    ensures { OnOk result (out.new.items ≡ out.old.items ++ ((codes "more than " ++ decimal most ++ codes " worlds") ++ 10 ∷ [])) }
{
    out.extend_from_slice(b"more than ")?;
    put_decimal(out, i64::from(most))?;
    out.extend_from_slice(b" worlds\n")?;
    Ok(())
}

/// The word at a place, counted from 0.
fn word_at(words: &[String], place: usize) -> &[u8]
    ensures { result.now ≡ slice_index_or (map string_bytes words.now) place [] }
{
    match words.get(place) {
        Some(word) => word.as_bytes(),
        None => &[],
    }
}

/// The word that names the machine file.
fn machine_word(program: Program, words: &[String]) -> &[u8]
    ensures { result.now ≡ machine_word program (map string_bytes words.now) }
{
    match program {
        Program::Devconf => word_at(words, 2),
        Program::Drvrun | Program::Devwhy => word_at(words, 1),
        Program::Drvall => word_at(words, 1 + bound_words(words)),
    }
}

/// The word that names the script with this number, or by 0 the order file, the history or the watch file.
fn script_word(program: Program, words: &[String], which: u8) -> &[u8]
    ensures { result.now ≡ script_word program (map string_bytes words.now) which }
{
    match program {
        Program::Devconf => word_at(words, 3 + which as usize),
        Program::Drvrun => word_at(words, 1 + which as usize),
        Program::Drvall => word_at(words, 1 + bound_words(words) + which as usize),
        Program::Devwhy => &[],
    }
}

/// The line that reports a status for these words.
fn err_line(
    alloc: Global,
    program: Program,
    words: &[String],
    status: &Status,
) -> Result<Vec<u8>, Memory>
    ensures { IfOk result (λ line. line.items ≡ err_text program (map string_bytes words.now) status.now) }
{
    let mut line = Vec::new(alloc);
    match status {
        Status::Ok => {}
        Status::ConfigRefused {
            file,
            line: at,
            code,
        } => put_refused(&mut line, b"config", file.items(), *at, *code)?,
        Status::Usage => line.extend_from_slice(usage(program))?,
        Status::MachineRefused { line: at, code } => {
            let word = machine_word(program, words);
            put_refused(&mut line, b"machine", word, *at, *code)?;
        }
        Status::ScriptRefused {
            which,
            line: at,
            code,
        } => {
            let word = script_word(program, words, *which);
            put_refused(&mut line, b"script", word, *at, *code)?;
        }
        Status::HistoryRefused { line: at } => {
            put_place(&mut line, b"history", script_word(program, words, 0), *at)?;
            line.extend_from_slice(b": refused\n")?;
        }
        Status::Absent { name } => put_named(&mut line, name.items(), b": absent")?,
        Status::TooLong { name } => put_named(&mut line, name.items(), b": too long")?,
        Status::ReadFault => line.extend_from_slice(b"read fault\n")?,
        Status::WriteFault => line.extend_from_slice(b"write fault\n")?,
        Status::Memory => line.extend_from_slice(b"out of memory\n")?,
        Status::Stuck { waits } => line.extend_from_slice(waits.items())?,
        Status::Worlds { most } => put_bound(&mut line, *most)?,
        Status::Unknown { name } => put_named(&mut line, name.items(), b": unknown")?,
    }
    Ok(line)
}

/// Puts a text, and hands on what is held back. A fault is only counted by the sink.
fn deliver<E: Sink>(text: &[u8], err: &mut E)
    ensures { Takes text.now (E.told err.old) (E.told err.new) }
{
    if let Put::Failed(_) = err.put(text) {
        return;
    }
    let _ = err.flush();
}

/// Delivers a text. If it is empty, nothing is put.
fn tell<E: Sink>(text: &[u8], err: &mut E)
    ensures { Takes text.now (E.told err.old) (E.told err.new) }
{
    if !text.is_empty() {
        return deliver(text, err);
    }
    let _ = err.flush();
}

/// Reports a status, and returns it; if memory runs out on the way, it returns `Memory`.
pub fn report<E: Sink>(
    alloc: Global,
    program: Program,
    words: &[String],
    status: Status,
    err: &mut E,
) -> Status
    ensures told { Takes (err_text program (map string_bytes words.now) result) (E.told err.old) (E.told err.new) }
    ensures status { (result ≡ status) ⊎ (result ≡ Status.Memory) }
{
    match err_line(alloc, program, words, &status) {
        Ok(line) => {
            tell(&line, err);
            status
        }
        Err(_) => {
            tell(b"out of memory\n", err);
            Status::Memory
        }
    }
}
