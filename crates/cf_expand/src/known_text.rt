//! Long texts of one statement that were read, so that a file with the same text is not read again.
ghost use Rattle.std.specs.Prelude.{◌≡◌, IfOk, IfSome};
ghost use Rattle.config_rules.specs.Written.{IsWritten};
ghost use Rattle.cf_expand.specs.Alone.{ReadsAs};

use cf_types::{List, Memory, Stmt, Text};
use std::alloc::Global;
use std::marker::Model;

/// How many texts are kept.
const TEXTS: usize = 16;

/// A statement that is all that a text has, and its line.
#[derive(Drop)]
pub struct Alone {
    pub line: u32,
    pub stmt: Stmt,
}

impl Alone {
    /// The same statement once more, if statements can share what it has.
    pub fn again(&self) -> Result<Option<Alone>, Memory>
        ensures { IfOk result (λ found. IfSome found (λ one. one ≡ self.now)) }
    {
        let stmt = match &self.stmt {
            Stmt::Free { word, rest } => match rest.again()? {
                Some(rest) => Stmt::Free {
                    word: word.clone()?,
                    rest,
                },
                None => return Ok(None),
            },
            Stmt::Options { items } => match items.again()? {
                Some(items) => Stmt::Options { items },
                None => return Ok(None),
            },
            Stmt::MakeOptions { items } => match items.again()? {
                Some(items) => Stmt::MakeOptions { items },
                None => return Ok(None),
            },
            _ => return Ok(None),
        };
        Ok(Some(Alone {
            line: self.line,
            stmt,
        }))
    }
}

/// A text with the statement that it is.
#[derive(Drop)]
struct KnownText {
    text: Text,
    one: Alone,
}

impl Model for KnownText {
    ghost use Rattle.std.specs.Prelude.{List, ℕ};
    ghost use Rattle.config_rules.specs.Written.{IsWritten};
    ghost use Rattle.cf_expand.specs.Alone.{ReadsAs, Spoken};

    ghost Value = { Spoken };

    ghost view = { λ it. record { text = it.text; line = it.one.line; stmt = it.one.stmt } };

    ghost invariant = { λ it. ReadsAs it.text it.one.line it.one.stmt × IsWritten it.one.stmt };
}

impl KnownText {
    /// The statement, if this is the text.
    fn of(&self, text: &[u8]) -> Result<Option<Alone>, Memory>
        ensures reads { IfOk result (λ found. IfSome found (λ one. ReadsAs text.now one.line one.stmt)) }
        ensures written { IfOk result (λ found. IfSome found (λ one. IsWritten one.stmt)) }
    {
        if self.text.items() == text {
            return self.one.again();
        }
        Ok(None)
    }
}

/// The long texts of one statement that were read last.
#[derive(Drop)]
pub struct KnownTexts {
    texts: Vec<KnownText>,
    /// The place of the text that the next one replaces.
    next: usize,
    /// How long the last long texts were.
    lens: Vec<usize>,
    /// The place of the length that the next one replaces.
    next_len: usize,
}

/// The place that follows one of those for texts.
fn behind(place: usize) -> usize {
    if place < TEXTS - 1 { place + 1 } else { 0 }
}

impl KnownTexts {
    /// No text is known. It takes no memory.
    pub fn make(alloc: Global) -> KnownTexts {
        KnownTexts {
            texts: Vec::new(alloc),
            next: 0,
            lens: Vec::new(alloc),
            next_len: 0,
        }
    }

    /// The statement that a text is, if it is known.
    pub fn find(&self, text: &[u8]) -> Result<Option<Alone>, Memory>
        ensures reads { IfOk result (λ found. IfSome found (λ one. ReadsAs text.now one.line one.stmt)) }
        ensures written { IfOk result (λ found. IfSome found (λ one. IsWritten one.stmt)) }
    {
        for known in &self.texts {
            if let Some(one) = known.of(text)? {
                return Ok(Some(one));
            }
        }
        Ok(None)
    }

    /// Notes how long a text is, and returns whether one of the last long texts was as long.
    pub fn note_len(&mut self, len: usize) -> Result<bool, Memory> {
        if self.lens.iter().any(|&noted| noted == len) {
            return Ok(true);
        }
        if self.lens.len() < TEXTS {
            self.lens.push(len)?;
            return Ok(false);
        }
        if let Some(place) = self.lens.get_mut(self.next_len) {
            *place = len;
        }
        self.next_len = behind(self.next_len);
        Ok(false)
    }

    /// Keeps a text with the statement that it is, perhaps in the place of another one.
    fn put(&mut self, known: KnownText) -> Result<(), Memory> {
        if self.texts.len() < TEXTS {
            self.texts.push(known)?;
            return Ok(());
        }
        if let Some(place) = self.texts.get_mut(self.next) {
            *place = known;
        }
        self.next = behind(self.next);
        Ok(())
    }

    /// Keeps a text with the statement that it is, if statements can share what that one has.
    pub fn keep(&mut self, text: Vec<u8>, one: &Alone) -> Result<(), Memory>
        requires reads { ReadsAs text.items one.now.line one.now.stmt }
        requires written { IsWritten one.now.stmt }
    {
        match one.again()? {
            Some(one) => self.put(KnownText {
                text: List::from_vec(text),
                one,
            }),
            None => Ok(()),
        }
    }
}
