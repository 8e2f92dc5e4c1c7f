//! Boots, plays and runs that were watched, followed by plain looks.

use crate::again::text_before_notes;
use crate::case::Case;
use crate::stop::Stop;
use app_input::{Inputs, read_inputs};
use app_words::Program;
use cf_io::MemFiles;
use cf_types::{List, Memory};
use plain_forms::{Followed, follow};
use std::alloc::Global;
use std::mem::drop;

/// Whether the case has a history and ends well.
fn has_history(case: &Case) -> bool {
    let boots = match (case.program, case.words.first()) {
        (Program::Devconf, Some(word)) => matches!(word.as_str(), "boot" | "play" | "watch"),
        _ => false,
    };
    boots && case.answer.status == 0
}

/// How far plain looks follow a text by the tables and the machine of a run.
fn followed_by(alloc: Global, inputs: &Inputs, text: &[u8]) -> Result<Option<Followed>, Memory> {
    match inputs {
        Inputs::Boot { tables, machine } => Ok(Some(follow(
            alloc,
            tables.tables(),
            machine,
            text,
        )?)),
        Inputs::Play {
            tables,
            machine,
            ..
        }
        | Inputs::Watch {
            tables,
            machine,
            ..
        } => Ok(Some(follow(alloc, tables.tables(), machine, text)?)),
        _ => Ok(None),
    }
}

/// How far linear search agrees with the history that a case wants; nothing if it wants none.
pub fn followed(alloc: Global, case: &Case) -> Result<Option<Followed>, Stop> {
    if !has_history(case) {
        return Ok(None);
    }
    let told = text_before_notes(alloc, &case.answer.output)?;
    let mut files = MemFiles::make(case.copied_files(alloc)?, List::make(alloc));
    let Ok(inputs) = read_inputs(alloc, case.program, &case.words, &mut files) else {
        return Ok(None);
    };
    let answer = followed_by(alloc, &inputs, &told);
    drop(inputs);
    Ok(answer?)
}
