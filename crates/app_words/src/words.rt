ghost use Rattle.std.specs.Prelude.{◌≡◌, map, option_map, string_bytes, true};
ghost use Rattle.std.specs.List.{list_all};
ghost use Rattle.app_words.specs.Words.{HasForm, asked_name, bounded_form, devconf_form, devwhy_form, drvall_form, drvrun_form, file_in, form_of, ioconf, is_operand, following_form, load_form, named_form, sources};

use crate::bound::{bound_of, is_bound_word};
use crate::count::count_of;
use crate::operands::{MAX_SCRIPTS, boot_words, file_word, scripted_words};
use crate::program::Program;
use std::alloc::Global;

/// What is done with the scripts of a machine and the file that gives their course.
#[derive(Clone, Copy)]
pub enum Task {
    /// They take turns, in the order of an order file.
    Play,
    /// A history of them is checked.
    Replay,
    /// A history of them is checked and written in format 2.
    Upgrade,
    /// They take turns while others read which devices came and went, in the order of a watch file.
    Watch,
}

/// What words ask for.
#[derive(Drop)]
pub enum Words<'a> {
    /// `ioconf FILE`, or `FILE NAME` of `devwhy`
    Ioconf {
        file: &'a str,
    },
    /// `files FILE`
    Files {
        file: &'a str,
    },
    /// `boot FILE MACHINE`, or `FILE MACHINE NAME` of `devwhy`
    Boot {
        file: &'a str,
        machine: &'a str,
    },
    /// `tables FILE MACHINE PLAN`
    Follow {
        file: &'a str,
        machine: &'a str,
        plan: &'a str,
    },
    /// `load N`, N from 1 to 1,000.
    Load {
        count: u32,
    },
    /// `play FILE MACHINE ORDER SCRIPT..`, or `replay` or `upgrade` with a history in place of the order file, or `watch` with a
    /// watch file, with 1 to 16 scripts.
    Scripted {
        task: Task,
        file: &'a str,
        machine: &'a str,
        course: &'a str,
        scripts: &'a [String],
    },
    /// `FILE MACHINE SCRIPT..`, with 1 to 16 scripts: the words of `drvrun`, and of `drvall` behind its bound.
    Run {
        file: &'a str,
        machine: &'a str,
        scripts: &'a [String],
    },
}

/// Why words were not read.
#[derive(Drop)]
pub enum WordStop {
    /// They have none of the forms.
    Usage,
    /// Memory ran out.
    Memory,
}

fn is_operand(word: &[u8]) -> bool
    ensures { result ≡ is_operand word.now }
{
    !word.is_empty() && word[0] != b'-'
}

fn are_operands(words: &[String]) -> bool
    ensures { result ≡ list_all is_operand (map string_bytes words.now) }
{
    words.iter().all(|word| is_operand(word.as_bytes()))
}

/// Reads the operand of `ioconf FILE`.
fn ioconf_words<'a>(alloc: Global, operands: &'a [String]) -> Result<Words<'a>, WordStop>
    requires { list_all is_operand (map string_bytes operands.now) ≡ true }
    ensures { HasForm (option_map ioconf (file_in (map string_bytes operands.now))) result }
{
    match file_word(alloc, operands) {
        Ok(file) => Ok(Words::Ioconf { file }),
        Err(stop) => Err(stop),
    }
}

/// Reads the operand of `files FILE`.
fn files_words<'a>(alloc: Global, operands: &'a [String]) -> Result<Words<'a>, WordStop>
    requires { list_all is_operand (map string_bytes operands.now) ≡ true }
    ensures { HasForm (option_map sources (file_in (map string_bytes operands.now))) result }
{
    match file_word(alloc, operands) {
        Ok(file) => Ok(Words::Files { file }),
        Err(stop) => Err(stop),
    }
}

/// Reads the operand `N`.
fn load_words<'a>(operands: &'a [String]) -> Result<Words<'a>, WordStop>
    ensures { HasForm (load_form (map string_bytes operands.now)) result }
{
    let Some((word, more)) = operands.split_first() else {
        return Err(WordStop::Usage);
    };
    if !more.is_empty() {
        return Err(WordStop::Usage);
    }
    match count_of(word.as_bytes()) {
        Some(count) => Ok(Words::Load { count }),
        None => Err(WordStop::Usage),
    }
}

/// Reads the operands `FILE MACHINE PLAN`.
fn tables_words<'a>(operands: &'a [String]) -> Result<Words<'a>, WordStop>
    ensures { HasForm (following_form (map string_bytes operands.now)) result }
{
    let [file, machine, plan] = operands else {
        return Err(WordStop::Usage);
    };
    Ok(Words::Follow {
        file: file.as_str(),
        machine: machine.as_str(),
        plan: plan.as_str(),
    })
}

fn devconf_words<'a>(alloc: Global, words: &'a [String]) -> Result<Words<'a>, WordStop>
    ensures { HasForm (devconf_form (map string_bytes words.now)) result }
{
    let Some((word, operands)) = words.split_first() else {
        return Err(WordStop::Usage);
    };
    if !are_operands(operands) {
        return Err(WordStop::Usage);
    }
    if word.as_bytes() == b"ioconf".as_slice() {
        return ioconf_words(alloc, operands);
    }
    if word.as_bytes() == b"files".as_slice() {
        return files_words(alloc, operands);
    }
    if word.as_bytes() == b"boot".as_slice() {
        return boot_words(alloc, operands);
    }
    if word.as_bytes() == b"load".as_slice() {
        return load_words(operands);
    }
    if word.as_bytes() == b"play".as_slice() {
        return scripted_words(alloc, Task::Play, operands);
    }
    if word.as_bytes() == b"replay".as_slice() {
        return scripted_words(alloc, Task::Replay, operands);
    }
    if word.as_bytes() == b"upgrade".as_slice() {
        return scripted_words(alloc, Task::Upgrade, operands);
    }
    if word.as_bytes() == b"watch".as_slice() {
        return scripted_words(alloc, Task::Watch, operands);
    }
    if word.as_bytes() == b"tables".as_slice() {
        return tables_words(operands);
    }
    Err(WordStop::Usage)
}

/// Reads the words `FILE MACHINE SCRIPT..`.
fn drvrun_words<'a>(words: &'a [String]) -> Result<Words<'a>, WordStop>
    ensures { HasForm (drvrun_form (map string_bytes words.now)) result }
{
    if !are_operands(words) {
        return Err(WordStop::Usage);
    }
    let Some((file, operands)) = words.split_first() else {
        return Err(WordStop::Usage);
    };
    let Some((machine, scripts)) = operands.split_first() else {
        return Err(WordStop::Usage);
    };
    if scripts.is_empty() || MAX_SCRIPTS < scripts.len() {
        return Err(WordStop::Usage);
    }
    Ok(Words::Run {
        file: file.as_str(),
        machine: machine.as_str(),
        scripts,
    })
}

/// Reads the words `N FILE MACHINE SCRIPT..`. The bound N is read by `most_worlds`.
fn bounded_words<'a>(words: &'a [String]) -> Result<Words<'a>, WordStop>
    ensures { HasForm (bounded_form (map string_bytes words.now)) result }
{
    let Some((word, more)) = words.split_first() else {
        return Err(WordStop::Usage);
    };
    match bound_of(word.as_bytes()) {
        Some(_) => drvrun_words(more),
        None => Err(WordStop::Usage),
    }
}

/// Reads the words `FILE MACHINE SCRIPT..` or `-w N FILE MACHINE SCRIPT..`.
fn drvall_words<'a>(words: &'a [String]) -> Result<Words<'a>, WordStop>
    ensures { HasForm (drvall_form (map string_bytes words.now)) result }
{
    let Some((word, more)) = words.split_first() else {
        return Err(WordStop::Usage);
    };
    if is_bound_word(word.as_bytes()) {
        bounded_words(more)
    } else {
        drvrun_words(words)
    }
}

/// The name that the words of `devwhy` ask about.
pub fn asked_name(words: &[String]) -> &[u8]
    ensures { result.now ≡ asked_name (map string_bytes words.now) }
{
    match words.last() {
        Some(word) => word.as_bytes(),
        None => &[],
    }
}

/// Reads the operands `FILE NAME` or `FILE MACHINE NAME`, where the name is of no file.
fn named_words<'a>(operands: &'a [String]) -> Result<Words<'a>, WordStop>
    ensures { HasForm (named_form (map string_bytes operands.now)) result }
{
    match operands {
        [file, _] => Ok(Words::Ioconf {
            file: file.as_str(),
        }),
        [file, machine, _] => Ok(Words::Boot {
            file: file.as_str(),
            machine: machine.as_str(),
        }),
        _ => Err(WordStop::Usage),
    }
}

/// Reads the words `FILE NAME` or `FILE MACHINE NAME`.
fn devwhy_words<'a>(words: &'a [String]) -> Result<Words<'a>, WordStop>
    ensures { HasForm (devwhy_form (map string_bytes words.now)) result }
{
    if !are_operands(words) {
        return Err(WordStop::Usage);
    }
    named_words(words)
}

/// Reads the words after the program's name, by the form that they have.
pub fn read_words<'a>(
    alloc: Global,
    program: Program,
    words: &'a [String],
) -> Result<Words<'a>, WordStop>
    ensures { HasForm (form_of program (map string_bytes words.now)) result }
{
    match program {
        Program::Devconf => devconf_words(alloc, words),
        Program::Drvrun => drvrun_words(words),
        Program::Drvall => drvall_words(words),
        Program::Devwhy => devwhy_words(words),
    }
}
