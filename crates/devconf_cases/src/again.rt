//! Plays and runs that were watched, run once more: `replay` has to give their tree, and `upgrade` their history with it; where there
//! is one script and it has ended, `drvrun` has to write the same.

use crate::case::Case;
use crate::stop::Stop;
use app_words::Program;
use cf_io::MemFile;
use cf_types::{List, Text};
use std::alloc::Global;

/// The name of the history.
const HISTORY: &str = "the-history";

/// Whether the case is a play or is watched, and ends well.
fn is_play(case: &Case) -> bool {
    let plays = match (case.program, case.words.first()) {
        (Program::Devconf, Some(word)) => matches!(word.as_str(), "play" | "watch"),
        _ => false,
    };
    plays && case.answer.status == 0
}

/// What a text says before the line `notes`: what a run that was watched has in common with a play.
pub fn text_before_notes(alloc: Global, text: &[u8]) -> Result<Vec<u8>, Stop> {
    let mut told = Vec::new(alloc);
    for line in text.split(|byte| *byte == b'\n') {
        if line == b"notes".as_slice() {
            return Ok(told);
        }
        told.extend_from_slice(line)?;
        told.push(b'\n')?;
    }
    // After the last newline there is no line.
    let _ = told.pop();
    Ok(told)
}

/// A text from this line on.
fn text_from(alloc: Global, text: &[u8], head: &[u8]) -> Result<Vec<u8>, Stop> {
    let mut rest = Vec::new(alloc);
    let mut begun = false;
    for line in text.split(|byte| *byte == b'\n') {
        begun = begun || line == head;
        if begun {
            rest.extend_from_slice(line)?;
            rest.push(b'\n')?;
        }
    }
    // After the last newline there is no line.
    let _ = rest.pop();
    Ok(rest)
}

/// The words of a play with another first one, and the history in place of the order file or the watch file.
fn words_again(alloc: Global, words: &[String], form: &str) -> Result<Vec<String>, Stop> {
    let mut again = Vec::new(alloc);
    for (place, word) in words.iter().enumerate() {
        let word = match place {
            0 => form,
            3 => HISTORY,
            _ => word.as_str(),
        };
        again.push(String::from_str(alloc, word)?)?;
    }
    Ok(again)
}

/// The files of a play, and what it wrote as the history.
fn files_again(alloc: Global, case: &Case, told: &[u8]) -> Result<List<MemFile>, Stop> {
    let mut files = case.copied_files(alloc)?;
    files.push(MemFile {
        name: Text::copied(alloc, HISTORY.as_bytes())?,
        bytes: Text::copied(alloc, told)?,
    })?;
    Ok(files)
}

/// The play read again by another form, which has to print what the play printed from this line on.
fn case_again(alloc: Global, case: &Case, form: &str, head: &[u8]) -> Result<Case, Stop> {
    let told = text_before_notes(alloc, &case.answer.output)?;
    let mut again = Case::make(alloc, format!(in alloc; "{} ({form})", case.name)?);
    again.words = words_again(alloc, &case.words, form)?;
    again.files = files_again(alloc, case, &told)?;
    again.answer.output = text_from(alloc, &told, head)?;
    Ok(again)
}

/// Two more cases for each play that ends well.
pub fn cases_again(alloc: Global, cases: &[Case]) -> Result<Vec<Case>, Stop> {
    let mut again = Vec::new(alloc);
    for case in cases {
        if is_play(case) {
            again.push(case_again(alloc, case, "replay", b"tree")?)?;
            again.push(case_again(alloc, case, "upgrade", b"history 2")?)?;
        }
    }
    Ok(again)
}

/// Whether the case is a play of one script that has ended, so that there were enough turns for all its events.
fn is_whole_of_one(case: &Case) -> bool {
    is_play(case)
        && case.words.len() == 5
        && case
            .answer
            .output
            .split(|byte| *byte == b'\n')
            .any(|line| line.starts_with(b"1.") && line.ends_with(b" end"))
}

/// The words of a play without the form and the order file or the watch file.
fn words_of_run(alloc: Global, words: &[String]) -> Result<Vec<String>, Stop> {
    let mut left = Vec::new(alloc);
    for (place, word) in words.iter().enumerate() {
        if place != 0 && place != 3 {
            left.push(String::from_str(alloc, word.as_str())?)?;
        }
    }
    Ok(left)
}

/// One more case for each play of one script that has ended: `drvrun` runs it in a thread.
pub fn cases_of_one(alloc: Global, cases: &[Case]) -> Result<Vec<Case>, Stop> {
    let mut runs = Vec::new(alloc);
    for case in cases {
        if is_whole_of_one(case) {
            let told = text_before_notes(alloc, &case.answer.output)?;
            let mut run = Case::make(alloc, format!(in alloc; "{} (drvrun)", case.name)?);
            run.program = Program::Drvrun;
            run.words = words_of_run(alloc, &case.words)?;
            run.files = files_again(alloc, case, &told)?;
            run.answer.output = told;
            runs.push(run)?;
        }
    }
    Ok(runs)
}
