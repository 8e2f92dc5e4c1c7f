ghost use Rattle.std.specs.Prelude.{◌≡◌, ◌<◌, [], ◌∷◌, ◌++◌, IfErr, IfOk, IfSome, OnOk, Some, is_some, length};
ghost use Rattle.cf_grammar.specs.Statement.{AreWithin, IsFaultOf};
ghost use Rattle.config_rules.specs.Cut.{pieces};
ghost use Rattle.config_rules.specs.Form.{Form};
ghost use Rattle.config_rules.specs.Reading.{asking, is_declared, nothing_read, refused, under_prefix};
ghost use Rattle.config_rules.specs.Written.{AreWritten, IsWritten};
ghost use Rattle.cf_expand.specs.Alone.{ReadsAs};
ghost use Rattle.cf_expand.specs.Prefixes.{Pops};
ghost use Rattle.cf_expand.specs.Steps.{expanded};

use crate::known_text::{Alone, KnownTexts};
use crate::placed::PlacedList;
use crate::prefixes::Prefixes;
use cf_grammar::{GrammarStop, statement};
use cf_types::{Expanded, List, Memory, Placed, Refusal, Stmt, Text, Token};
use cf_words::{Known, Word};
use std::alloc::Global;
use std::marker::Model;

/// What has been read so far.
#[derive(Drop)]
pub struct Progress {
    placed: PlacedList,
    files: List<Text>,
    /// The names of the files that were asked for, in this order.
    asked: List<Text>,
    prefixes: Prefixes,
    fault: Option<Refusal>,
    /// Names of statements, which later ones share.
    known: Known,
    /// Long texts of one statement, which later files share.
    texts: KnownTexts,
}

impl Model for Progress {
    ghost use Rattle.config_rules.specs.Reading.{Reading};

    ghost Value = { Reading };

    ghost view = { λ it. record { placed = it.placed; files = it.files; asked = it.asked; prefixes = it.prefixes; fault = it.fault } };
}

impl Progress {
    /// Nothing was read.
    pub fn make(alloc: Global) -> Progress
        ensures { result ≡ nothing_read }
    {
        Progress {
            placed: PlacedList::make(alloc),
            files: List::make(alloc),
            asked: List::make(alloc),
            prefixes: Prefixes::make(alloc),
            fault: None,
            known: Known::make(alloc),
            texts: KnownTexts::make(alloc),
        }
    }

    /// The allocator that gives memory to what is read.
    #[inline(always)]
    pub fn alloc(&self) -> Global {
        self.known.alloc()
    }

    /// Reads the tokens of one statement, without its `Stop`, as `statement` does.
    #[inline(always)]
    pub fn read<'a>(
        &mut self,
        words: &mut Vec<Word<'a>>,
        text: &'a [u8],
        tokens: &[Token],
    ) -> Result<Stmt, GrammarStop>
        requires { AreWithin text.now tokens.now }
        ensures same { self.new ≡ self.old }
        ensures form { IfOk result (λ s. Form (pieces text.now tokens.now) s) }
        ensures fault { IfErr result (λ stop. IsFaultOf (pieces text.now tokens.now) stop) }
    {
        statement(&mut self.known, words, text, tokens)
    }

    /// The statement that a text is, if the text was read before and others can share the statement.
    pub fn known(&self, text: &[u8]) -> Result<Option<Alone>, Memory>
        ensures reads { IfOk result (λ found. IfSome found (λ one. ReadsAs text.now one.line one.stmt)) }
        ensures written { IfOk result (λ found. IfSome found (λ one. IsWritten one.stmt)) }
    {
        self.texts.find(text)
    }

    /// Notes how long a long text is, and returns whether one of the last ones was as long.
    pub fn note_len(&mut self, len: usize) -> Result<bool, Memory>
        ensures { self.new ≡ self.old }
    {
        self.texts.note_len(len)
    }

    /// Keeps a text with the statement that it is, if others can share that.
    pub fn keep(&mut self, alloc: Global, text: &[u8], one: &Alone) -> Result<(), Memory>
        requires reads { ReadsAs text.now one.now.line one.now.stmt }
        requires written { IsWritten one.now.stmt }
        ensures { self.new ≡ self.old }
    {
        let text = Vec::from_slice(alloc, text)?;
        self.texts.keep(text, one)
    }

    /// How many statements were placed.
    #[inline(always)]
    pub fn placed_len(&self) -> usize
        ensures { result ≡ length self.now.placed }
    {
        self.placed.len()
    }

    /// How many files were loaded.
    pub fn files_len(&self) -> usize
        ensures { result ≡ length self.now.files }
    {
        self.files.len()
    }

    /// Whether there is a fault.
    #[inline(always)]
    pub fn has_fault(&self) -> bool
        ensures { result ≡ is_some self.now.fault }
    {
        self.fault.is_some()
    }

    /// Whether one of the placed statements declares this name.
    pub fn is_declared(&self, name: &[u8]) -> bool
        ensures { result ≡ is_declared self.now.placed name.now }
    {
        self.placed.declare(name)
    }

    /// Notes a fault.
    #[inline(never)]
    #[cold]
    pub fn refuse(&mut self, alloc: Global, file: &[u8], line: u32, code: u8) -> Result<(), Memory>
        ensures { OnOk result (self.new ≡ refused file.now line code self.old) }
    {
        let file = List::copied(alloc, file)?;
        self.fault = Some(Refusal { file, line, code });
        Ok(())
    }

    /// Appends a statement.
    #[inline(always)]
    pub fn place(&mut self, file: u32, line: u32, stmt: Stmt) -> Result<(), Memory>
        requires few { length self.old.placed < 65536 }
        requires written { IsWritten stmt }
        ensures { OnOk result (self.new ≡ record self.old { placed = self.old.placed ++ record { stmt = stmt; file = file; line = line } ∷ [] }) }
    {
        self.placed.push(Placed { stmt, file, line })
    }

    /// Appends the name of a file that was loaded.
    pub fn push_file(&mut self, alloc: Global, name: &[u8]) -> Result<(), Memory>
        ensures { OnOk result (self.new ≡ record self.old { files = self.old.files ++ name.now ∷ [] }) }
    {
        let name = List::copied(alloc, name)?;
        self.files.push(name)
    }

    /// Notes that a file is asked for.
    pub fn push_asked(&mut self, alloc: Global, name: &[u8]) -> Result<(), Memory>
        ensures { OnOk result (self.new ≡ asking name.now self.old) }
    {
        let name = List::copied(alloc, name)?;
        self.asked.push(name)
    }

    /// The path after the top prefix; the path alone, if it begins with `/` or there is no prefix.
    pub fn under_prefix(&self, alloc: Global, path: &[u8]) -> Result<Text, Memory>
        ensures { IfOk result (λ text. text ≡ under_prefix self.now.prefixes path.now) }
    {
        self.prefixes.under(alloc, path)
    }

    /// Pushes a prefix: the path of the top one with this one after it.
    pub fn push_prefix(&mut self, path: &[u8]) -> Result<(), Memory>
        ensures { OnOk result (self.new ≡ record self.old { prefixes = under_prefix self.old.prefixes path.now ∷ self.old.prefixes }) }
    {
        self.prefixes.push(path)
    }

    /// Removes the top prefix; `false` if there is none.
    pub fn pop_prefix(&mut self) -> bool
        ensures { Pops self.old result self.new }
    {
        self.prefixes.pop()
    }

    /// What was read, without the prefixes.
    pub fn into_expanded(self) -> Expanded
        ensures same { result ≡ expanded self }
        ensures written { AreWritten result.placed }
    {
        let Progress {
            placed,
            files,
            fault,
            ..
        } = self;
        Expanded {
            placed: placed.into_list(),
            files,
            fault,
        }
    }
}
