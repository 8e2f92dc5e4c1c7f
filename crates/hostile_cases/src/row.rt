//! Rows: command lines, and what is done to their files.

use app_words::Program;
use cf_types::Memory;
use std::alloc::Global;

/// What is done to the files of a command line.
#[derive(Clone, Copy)]
pub enum Harm {
    /// Each load in turn is refused memory.
    Loads,
    /// A file is cut at each place, and each of its bytes is changed.
    Bytes,
}

/// A command line, and what is done to its files.
#[derive(Drop)]
pub struct Row {
    /// The line that it was read from.
    pub line: String,
    pub harm: Harm,
    /// The file with the output of an undisturbed call; or the file that is changed.
    pub file: String,
    pub program: Program,
    /// The words behind the program's name.
    pub words: Vec<String>,
}

fn harm_of(word: Option<&str>) -> Option<Harm> {
    match word? {
        "loads" => Some(Harm::Loads),
        "bytes" => Some(Harm::Bytes),
        _ => None,
    }
}

fn program_of(word: Option<&str>) -> Option<Program> {
    match word? {
        "devconf" => Some(Program::Devconf),
        "drvrun" => Some(Program::Drvrun),
        "drvall" => Some(Program::Drvall),
        _ => None,
    }
}

/// Reads a row: `loads` or `bytes`, a file, the program and its words. Returns `None` if the line is no row.
pub fn row_of(alloc: Global, line: &str) -> Result<Option<Row>, Memory> {
    let mut parts = line.split_whitespace();
    let harm = harm_of(parts.next());
    let file = parts.next();
    let program = program_of(parts.next());
    let (Some(harm), Some(file), Some(program)) = (harm, file, program) else {
        return Ok(None);
    };
    let mut words = Vec::new(alloc);
    for word in parts {
        words.push(String::from_str(alloc, word)?)?;
    }
    Ok(Some(Row {
        line: String::from_str(alloc, line)?,
        harm,
        file: String::from_str(alloc, file)?,
        program,
        words,
    }))
}
