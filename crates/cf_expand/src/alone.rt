//! Files whose text is one long statement: it is placed at once, and kept with the text.
ghost use Rattle.std.specs.Prelude.{◌≡◌, ℕ, ◌+◌, ◌<◌, ◌≤◌, IfOk, IfSome, Ok, OnOk, false, length, true};
ghost use Rattle.config_rules.specs.Cut.{cut_of};
ghost use Rattle.config_rules.specs.Form.{Form};
ghost use Rattle.config_rules.specs.Reading.{Files as Told, reader};
ghost use Rattle.config_rules.specs.Written.{IsWritten};
ghost use Rattle.cf_lexer.specs.Rest.{all_tokens};
ghost use Rattle.cf_expand.specs.Alone.{IsPlacedAtOnce, ReadsAs};
ghost use Rattle.cf_expand.specs.Steps.{IsCutting};

use crate::known_text::Alone;
use crate::lines::first_statement;
use crate::placed::MAX_PLACED;
use crate::progress::Progress;
use crate::statement::Statement;
use cf_grammar::GrammarStop;
use cf_lexer::{Cutting, LexStop, cut};
use cf_types::{Memory, Stmt};
use std::alloc::Global;

/// How long a text is at least that is kept, in bytes.
const LONG: usize = 8_192;

/// Whether a text begins like a statement that others can share.
fn begins_shared(text: &[u8]) -> bool {
    text.starts_with(b"file")
        || text.starts_with(b"options")
        || text.starts_with(b"makeoptions")
        || text.starts_with(b"device-major")
        || text.starts_with(b"defflag")
        || text.starts_with(b"defparam")
        || text.starts_with(b"deffs")
        || text.starts_with(b"obsolete")
        || text.starts_with(b"version")
}

/// Whether a text has one line, which begins like a statement that others can share.
fn looks_alone(text: &[u8]) -> bool {
    let line = text.iter().take_while(|&&byte| byte != b'\n').count();
    text.len().saturating_sub(line) <= 1 && begins_shared(text)
}

/// The form of a statement, if others can share what it has.
fn read_shared(
    progress: &mut Progress,
    statement: &Statement<'_, '_>,
) -> Result<Option<Stmt>, Memory>
    ensures same { progress.new ≡ progress.old }
    ensures form { IfOk result (λ found. IfSome found (λ s. Form statement.now.pieces s)) }
    ensures written { IfOk result (λ found. IfSome found IsWritten) }
    ensures at_once { IfOk result (λ found. IfSome found IsPlacedAtOnce) }
{
    let mut words = Vec::new(progress.alloc());
    match statement.read(progress, &mut words) {
        Ok(Stmt::Free { word, rest }) => Ok(Some(Stmt::Free { word, rest })),
        Ok(Stmt::Options { items }) => Ok(Some(Stmt::Options { items })),
        Ok(Stmt::MakeOptions { items }) => Ok(Some(Stmt::MakeOptions { items })),
        Ok(_) | Err(GrammarStop::Fault { .. }) => Ok(None),
        Err(GrammarStop::Memory) => Err(Memory),
    }
}

/// The statement that a text is, if it is one that others can share.
fn alone(progress: &mut Progress, text: &[u8], cutting: &Cutting) -> Result<Option<Alone>, Memory>
    requires whole { cut_of text.now ≡ Ok (all_tokens text.now cutting.now) }
    requires cutting { IsCutting text.now cutting.now }
    ensures same { progress.new ≡ progress.old }
    ensures reads { IfOk result (λ found. IfSome found (λ one. ReadsAs text.now one.line one.stmt)) }
    ensures written { IfOk result (λ found. IfSome found (λ one. IsWritten one.stmt)) }
{
    if cutting.rest.is_some() {
        return Ok(None);
    }
    let Some((first, rest)) = first_statement(cutting.tokens.items()) else {
        return Ok(None);
    };
    let statement = Statement::make(text, first);
    if !rest.is_empty() || statement.word().is_some() {
        return Ok(None);
    }
    let line = statement.line();
    match read_shared(progress, &statement)? {
        Some(stmt) => Ok(Some(Alone { line, stmt })),
        None => Ok(None),
    }
}

/// The statement that a text is, if it is one that others can share. It is kept with the text.
fn cut_alone(alloc: Global, progress: &mut Progress, text: &[u8]) -> Result<Option<Alone>, Memory>
    requires { length text.now ≤ 1048576 }
    ensures same { progress.new ≡ progress.old }
    ensures reads { IfOk result (λ found. IfSome found (λ one. ReadsAs text.now one.line one.stmt)) }
    ensures written { IfOk result (λ found. IfSome found (λ one. IsWritten one.stmt)) }
{
    let cutting = match cut(alloc, text) {
        Ok(cutting) => cutting,
        Err(LexStop::Fault { .. }) => return Ok(None),
        Err(LexStop::Memory) => return Err(Memory),
    };
    let Some(one) = alone(progress, text, &cutting)? else {
        return Ok(None);
    };
    match progress.keep(alloc, text, &one) {
        Ok(()) => Ok(Some(one)),
        Err(stop) => {
            drop(one);
            Err(stop)
        }
    }
}

/// The statement that a long text is, if it is one that others can share and the text was perhaps read before. A text that
/// is known is not cut again.
fn one_of(alloc: Global, progress: &mut Progress, text: &[u8]) -> Result<Option<Alone>, Memory>
    requires { length text.now ≤ 1048576 }
    ensures same { progress.new ≡ progress.old }
    ensures reads { IfOk result (λ found. IfSome found (λ one. ReadsAs text.now one.line one.stmt)) }
    ensures written { IfOk result (λ found. IfSome found (λ one. IsWritten one.stmt)) }
{
    if let Some(one) = progress.known(text)? {
        return Ok(Some(one));
    }
    if !progress.note_len(text.len())? || !looks_alone(text) {
        return Ok(None);
    }
    cut_alone(alloc, progress, text)
}

/// Reads a file, if its text is long, was perhaps read before and is one statement that others can share, and returns
/// whether it is.
pub fn read_alone(
    alloc: Global,
    progress: &mut Progress,
    name: &[u8],
    text: &[u8],
) -> Result<bool, Memory>
    requires short { length text.now ≤ 1048576 }
    requires few { length progress.old.files < 4096 }
    ensures asked { OnOk result (progress.new.asked ≡ progress.old.asked) }
    ensures same { IfOk result (λ read. read ≡ false → progress.new ≡ progress.old) }
    ensures read { IfOk result (λ read. read ≡ true → (n : ℕ) (files : Told) (around : ℕ)
        → progress.new ≡ reader (n + 1) files around name.now text.now progress.old) }
{
    if text.len() < LONG || progress.placed_len() >= MAX_PLACED {
        return Ok(false);
    }
    let number = progress.files_len() as u32;
    let Some(one) = one_of(alloc, progress, text)? else {
        return Ok(false);
    };
    let Alone { line, stmt } = one;
    progress.place(number, line, stmt)?;
    progress.push_file(alloc, name)?;
    Ok(true)
}
