ghost use Rattle.std.specs.Prelude.{◌≡◌, ◌==◌, ◌||◌, ◌∷◌, [], IfOk, MatchOption, OnOk, position};
ghost use Rattle.cf_types.specs.Lines.{lines_of};
ghost use Rattle.config_rules.specs.Cut.{is_space};
ghost use Rattle.config_rules.specs.MachineText.{has_bad_byte, is_allowed, uncommented, words_of};
ghost use Rattle.machine_text.specs.Words.{IsFirstLine, IsFirstPart, parted, seen, some_word};

use cf_text::is_space;
use cf_types::{List, Memory as NoMemory, Text};
use memchr::memchr;
use std::alloc::{AllocError, Global};
use thiserror::Error;

/// Why a machine file could not be read.
#[derive(Clone, Copy, Debug, PartialEq, Eq, Error)]
pub enum MachineStop {
    /// The first bad line, counted from 1, and its code, of those of machine files.
    #[error("line {line}: code {code}")]
    Fault { line: u32, code: u8 },
    /// Memory ran out.
    #[error("out of memory")]
    Memory,
}

impl From<NoMemory> for MachineStop {
    ghost use Rattle.std.specs.Prelude.{◌≡◌};
    ghost use Rattle.machine_text.specs.declared.line.MachineStop.TheVariants.{Memory};

    ghost from_gives = { λ _ e. e ≡ Memory };

    fn from(_error: NoMemory) -> MachineStop {
        MachineStop::Memory
    }
}

impl From<AllocError> for MachineStop {
    ghost use Rattle.std.specs.Prelude.{◌≡◌};
    ghost use Rattle.machine_text.specs.declared.line.MachineStop.TheVariants.{Memory};

    ghost from_gives = { λ _ e. e ≡ Memory };

    fn from(_error: AllocError) -> MachineStop {
        MachineStop::Memory
    }
}

/// Each allowed byte is at its own place; every other place has a newline.
static ALLOWED_BYTES: [u8; 256] = *b"\
    \n\n\n\n\n\n\n\n\n\t\n\n\n\n\n\n\n\n\n\n\n\n\n\n\n\n\n\n\n\n\n\n\
    \x20!\"#$%&'()*+,-./0123456789:;<=>?\
    @ABCDEFGHIJKLMNOPQRSTUVWXYZ[\\]^_\
    `abcdefghijklmnopqrstuvwxyz{|}~\n\
    \n\n\n\n\n\n\n\n\n\n\n\n\n\n\n\n\n\n\n\n\n\n\n\n\n\n\n\n\n\n\n\n\
    \n\n\n\n\n\n\n\n\n\n\n\n\n\n\n\n\n\n\n\n\n\n\n\n\n\n\n\n\n\n\n\n\
    \n\n\n\n\n\n\n\n\n\n\n\n\n\n\n\n\n\n\n\n\n\n\n\n\n\n\n\n\n\n\n\n\
    \n\n\n\n\n\n\n\n\n\n\n\n\n\n\n\n\n\n\n\n\n\n\n\n\n\n\n\n\n\n\n\n";

#[inline(always)]
fn is_allowed(byte: u8) -> bool
    ensures { result ≡ is_allowed byte }
{
    ALLOWED_BYTES[byte as usize] != b'\n'
}

/// What comes before the first `#`: a line without its comment.
pub fn uncommented(line: &[u8]) -> &[u8]
    ensures { result.now ≡ uncommented line.now }
{
    match memchr(b'#', line) {
        Some(place) => &line[..place],
        None => line,
    }
}

/// Whether there is a byte that is not allowed outside the comment.
pub fn has_bad_byte(line: &[u8]) -> bool
    ensures { result ≡ has_bad_byte line.now }
{
    uncommented(line).iter().any(|&byte| !is_allowed(byte))
}

/// The parts between spaces and tabs that are not empty.
fn parted(alloc: Global, bytes: &[u8]) -> Result<List<Text>, NoMemory>
    ensures { IfOk result (λ words. words ≡ parted bytes.now) }
{
    let mut words = List::make(alloc);
    for word in bytes.split(|&byte| is_space(byte)) {
        if !word.is_empty() {
            words.push(Text::copied(alloc, word)?)?;
        }
    }
    Ok(words)
}

/// The first line of a text, and what is after its newline; none if it has no newline.
pub fn first_line(text: &[u8]) -> (&[u8], Option<&[u8]>)
    ensures { MatchOption result.1 (lines_of text.now ≡ result.0.now ∷ []) (λ rest. IsFirstLine text.now result.0.now rest.now) }
{
    match memchr(b'\n', text) {
        Some(place) => (&text[..place], Some(&text[place + 1..])),
        None => (text, None),
    }
}

/// Whether a byte ends a word: a space, a tab, or the mark before a comment.
#[inline(always)]
fn ends_word(byte: u8) -> bool
    ensures { result ≡ (is_space byte || byte == 35) }
{
    byte <= b'#' && (is_space(byte) || byte == b'#')
}

/// The place of the first byte that ends a word.
#[inline(always)]
fn part_end(line: &[u8]) -> Option<usize>
    ensures { result ≡ position (λ c. is_space c || c == 35) line.now }
{
    line.iter().position(|&byte| ends_word(byte))
}

/// What is before the first space, tab or comment of a line, and what is after it; none if that is a comment or nothing.
#[inline(always)]
fn first_part(line: &[u8]) -> (&[u8], Option<&[u8]>)
    ensures { MatchOption result.1 (words_of line.now ≡ some_word result.0.now) (λ rest. IsFirstPart line.now result.0.now rest.now) }
{
    let Some(end) = part_end(line) else {
        return (line, None);
    };
    if line[end] == b'#' {
        return (&line[..end], None);
    }
    (&line[..end], Some(&line[end + 1..]))
}

/// Replaces the words by those of a line. They are borrowed from the line, and the room of the list is reused.
pub fn cut_words<'t>(words: &mut Vec<&'t [u8]>, line: &'t [u8]) -> Result<(), NoMemory>
    ensures { OnOk result (seen words.new.items ≡ words_of line.now) }
{
    words.clear();
    let mut left = Some(line);
    while let Some(text) = left {
        let (part, rest) = first_part(text);
        if !part.is_empty() {
            words.push(part)?;
        }
        left = rest;
    }
    Ok(())
}

/// The words of a line, separated by spaces and tabs.
pub fn words_of(alloc: Global, line: &[u8]) -> Result<List<Text>, NoMemory>
    ensures { IfOk result (λ words. words ≡ words_of line.now) }
{
    parted(alloc, uncommented(line))
}
