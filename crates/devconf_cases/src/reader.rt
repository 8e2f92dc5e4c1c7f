//! Reads files of cases. docs/CASES.md describes them.

use crate::case::Case;
use crate::form::put_form;
use crate::stop::Stop;
use app_words::Program;
use cf_io::MemFile;
use cf_types::{List, Text};
use std::alloc::Global;
use std::mem;

/// What the next lines are.
#[derive(Drop)]
enum Section {
    /// A remark.
    Nothing,
    /// A text of this name that sections may begin with.
    Text(Text),
    /// A file of the case.
    File(Text),
    Output,
    Errors,
}

/// Reads the files of topics one after the other. Their texts may be used in later ones.
#[derive(Drop)]
pub struct Reader {
    alloc: Global,
    texts: Vec<MemFile>,
    cases: Vec<Case>,
    section: Section,
    /// The lines of this section so far.
    bytes: Vec<u8>,
}

/// A word, and what follows the blank after it.
fn parted(line: &str) -> (&str, &str) {
    line.split_once(' ').unwrap_or((line, ""))
}

fn number(word: &str) -> Result<u64, Stop> {
    word.parse().map_err(|_| Stop::BadLine(0))
}

impl Reader {
    pub fn make(alloc: Global) -> Reader {
        Reader {
            alloc,
            texts: Vec::new(alloc),
            cases: Vec::new(alloc),
            section: Section::Nothing,
            bytes: Vec::new(alloc),
        }
    }

    /// The cases that were read since the last call.
    pub fn take_cases(&mut self) -> Vec<Case> {
        mem::replace(&mut self.cases, Vec::new(self.alloc))
    }

    /// Reads the file of a topic; the error names its first bad line.
    pub fn read(&mut self, file: &[u8]) -> Result<(), Stop> {
        let Ok(text) = str::from_utf8(file) else {
            return Err(Stop::BadLine(0));
        };
        let mut number: usize = 0;
        for line in text.lines() {
            number = number.saturating_add(1);
            match self.take_line(line) {
                // The function that takes a line does not know its number.
                Err(Stop::BadLine(_)) => return Err(Stop::BadLine(number)),
                other => other?,
            }
        }
        self.close()
    }

    fn take_line(&mut self, line: &str) -> Result<(), Stop> {
        if let Some(head) = line.strip_prefix("=== ") {
            return self.begin(head);
        }
        if let Some(said) = line.strip_prefix("--- ") {
            return self.direct(said);
        }
        self.bytes.extend_from_slice(line.as_bytes())?;
        self.bytes.push(b'\n')?;
        Ok(())
    }

    /// Begins a case, a text or a remark.
    fn begin(&mut self, head: &str) -> Result<(), Stop> {
        let (word, name) = parted(head);
        self.close()?;
        match word {
            "case" => {
                let name = String::from_str(self.alloc, name)?;
                self.cases.push(Case::make(self.alloc, name))?;
            }
            "text" => self.section = Section::Text(Text::copied(self.alloc, name.as_bytes())?),
            "remark" => {}
            _ => return Err(Stop::BadLine(0)),
        }
        Ok(())
    }

    /// The case that is being read.
    fn case(&mut self) -> Result<&mut Case, Stop> {
        self.cases.last_mut().ok_or(Stop::BadLine(0))
    }

    /// Ends the section, and gives its lines to what they belong to.
    fn close(&mut self) -> Result<(), Stop> {
        let bytes = mem::replace(&mut self.bytes, Vec::new(self.alloc));
        match mem::replace(&mut self.section, Section::Nothing) {
            Section::Nothing => {}
            Section::Text(name) => self.texts.push(MemFile {
                name,
                bytes: List::from_vec(bytes),
            })?,
            Section::File(name) => self.case()?.files.push(MemFile {
                name,
                bytes: List::from_vec(bytes),
            })?,
            Section::Output => self.case()?.answer.output = bytes,
            Section::Errors => self.case()?.answer.errors = bytes,
        }
        Ok(())
    }

    /// Takes a line that says something about the case.
    fn direct(&mut self, said: &str) -> Result<(), Stop> {
        let (word, rest) = parted(said);
        match word {
            "words" => self.set_words(Program::Devconf, rest),
            "drvrun" => self.set_words(Program::Drvrun, rest),
            "drvall" => self.set_words(Program::Drvall, rest),
            "together" => self.set_together(rest),
            "file" => self.open_file(rest),
            "output" => self.open(Section::Output, rest),
            "errors" => self.open(Section::Errors, rest),
            "status" => self.set_status(rest),
            "fail" => self.set_failing(rest),
            "up" => self.add_upwards(rest),
            "down" => self.add_downwards(rest),
            "bytes" => self.add_bytes(rest),
            "no" if rest == "newline" => {
                let _ = self.bytes.pop();
                Ok(())
            }
            _ => Err(Stop::BadLine(0)),
        }
    }

    /// Opens a section that begins with the texts after the `=`, if there is one.
    fn open(&mut self, section: Section, rest: &str) -> Result<(), Stop> {
        self.close()?;
        self.section = section;
        let mut names = rest.split_whitespace();
        match names.next() {
            None => return Ok(()),
            Some("=") => {}
            Some(_) => return Err(Stop::BadLine(0)),
        }
        for name in names {
            self.add_text(name)?;
        }
        Ok(())
    }

    fn open_file(&mut self, rest: &str) -> Result<(), Stop> {
        let (name, texts) = parted(rest);
        let name = Text::copied(self.alloc, name.as_bytes())?;
        self.open(Section::File(name), texts)
    }

    fn add_text(&mut self, name: &str) -> Result<(), Stop> {
        for text in &self.texts {
            if text.name.items() == name.as_bytes() {
                self.bytes.extend_from_slice(text.bytes.items())?;
                return Ok(());
            }
        }
        Err(Stop::BadLine(0))
    }

    fn set_words(&mut self, program: Program, rest: &str) -> Result<(), Stop> {
        self.close()?;
        let alloc = self.alloc;
        let case = self.case()?;
        case.program = program;
        for word in rest.split_whitespace() {
            let word = if word == "''" { "" } else { word };
            case.words.push(String::from_str(alloc, word)?)?;
        }
        Ok(())
    }

    fn set_status(&mut self, rest: &str) -> Result<(), Stop> {
        self.close()?;
        self.case()?.answer.status = number(rest)?;
        Ok(())
    }

    fn set_together(&mut self, rest: &str) -> Result<(), Stop> {
        self.close()?;
        self.case()?.together = number(rest)?;
        Ok(())
    }

    fn set_failing(&mut self, rest: &str) -> Result<(), Stop> {
        self.close()?;
        let (what, numbers) = parted(rest);
        let mut calls = List::make(self.alloc);
        for call in numbers.split_whitespace() {
            calls.push(number(call)?)?;
        }
        let case = self.case()?;
        match what {
            "load" => case.failing_loads = calls,
            "output" => case.failing_puts = calls,
            "errors" => case.failing_errors = calls,
            _ => return Err(Stop::BadLine(0)),
        }
        Ok(())
    }

    /// Adds this many copies of a form, numbered from 0 upwards.
    fn add_upwards(&mut self, rest: &str) -> Result<(), Stop> {
        let (copies, form) = parted(rest);
        for copy in 0..number(copies)? {
            put_form(&mut self.bytes, form, copy)?;
        }
        Ok(())
    }

    /// Adds this many copies of a form, numbered downwards to 0.
    fn add_downwards(&mut self, rest: &str) -> Result<(), Stop> {
        let (copies, form) = parted(rest);
        for copy in (0..number(copies)?).rev() {
            put_form(&mut self.bytes, form, copy)?;
        }
        Ok(())
    }

    /// Adds bytes that are given by two hexadecimal digits each.
    fn add_bytes(&mut self, rest: &str) -> Result<(), Stop> {
        for digits in rest.split_whitespace() {
            let byte = u8::from_str_radix(digits, 16).map_err(|_| Stop::BadLine(0))?;
            self.bytes.push(byte)?;
        }
        Ok(())
    }
}
