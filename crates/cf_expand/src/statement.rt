//! A statement of a file, with the condition word that it begins with.
ghost use Rattle.std.specs.Prelude.{◌≡◌, IfErr, IfOk};
ghost use Rattle.cf_words.specs.Words.{piece_of};
ghost use Rattle.cf_grammar.specs.Statement.{AreWithin, IsFaultOf};
ghost use Rattle.config_rules.specs.Form.{Form, condition_spelling, is_word};
ghost use Rattle.config_rules.specs.Reading.{condition_of, holds, names_declared};
ghost use Rattle.config_rules.specs.Written.{IsWritten};
ghost use Rattle.cf_expand.specs.Lines.{condition_in, statement_of};
ghost use Rattle.cf_expand.specs.Steps.{BeginsSo};

use crate::progress::Progress;
use cf_grammar::{GrammarStop, condition_spelling, word_of};
use cf_types::{CONDITION_WORDS, CondWord, Stmt, Token};
use cf_words::Word;
use std::marker::Model;

#[inline(always)]
fn spells(word: Word, condition: CondWord) -> bool
    ensures { result ≡ is_word (condition_spelling condition) (piece_of word.entry) }
{
    word.is_word(condition_spelling(condition))
}

fn find_condition(word: Word) -> Option<CondWord>
    ensures { result ≡ condition_in (piece_of word.entry) }
{
    CONDITION_WORDS
        .iter()
        .copied()
        .find(|&condition| spells(word, condition))
}

/// The condition word that a word is. Few words begin as those do.
#[inline(always)]
fn condition_of(word: Word) -> Option<CondWord>
    ensures { result ≡ condition_in (piece_of word.entry) }
{
    match word.text {
        [b'e' | b'i', ..] => find_condition(word),
        _ => None,
    }
}

/// The condition word with which a statement begins, if it does.
#[inline(always)]
fn condition_word(text: &[u8], tokens: &[Token]) -> Option<CondWord>
    requires { AreWithin text.now tokens.now }
    ensures { result ≡ condition_of (statement_of text.now tokens.now) }
{
    match tokens {
        [first, ..] => condition_of(word_of(text, *first)),
        [] => None,
    }
}

/// How a statement begins: its condition word, if it begins with one, and its line.
#[derive(Clone, Copy)]
pub struct Head {
    pub word: Option<CondWord>,
    pub line: u32,
}

/// A statement of a file by its tokens, with its condition word, if it begins with one. Contracts see its line and its
/// pieces.
#[derive(Drop)]
pub struct Statement<'a, 't> {
    text: &'a [u8],
    tokens: &'t [Token],
    word: Option<CondWord>,
}

impl<'a, 't> Model for Statement<'a, 't> {
    ghost use Rattle.std.specs.Prelude.{◌≡◌};
    ghost use Rattle.cf_grammar.specs.Statement.{AreWithin};
    ghost use Rattle.config_rules.specs.Reading.{Statement as Spoken, condition_of};
    ghost use Rattle.cf_expand.specs.Lines.{statement_of};

    ghost Value = { Spoken };

    ghost view = { λ it. statement_of it.text.now it.tokens.now };

    ghost invariant = { λ it. AreWithin it.text.now it.tokens.now
        × (it.word ≡ condition_of (statement_of it.text.now it.tokens.now)) };
}

impl<'a, 't> Statement<'a, 't> {
    /// The statement of these tokens of a text.
    #[inline(always)]
    pub fn make(text: &'a [u8], tokens: &'t [Token]) -> Statement<'a, 't>
        requires { AreWithin text.now tokens.now }
        ensures { result ≡ statement_of text.now tokens.now }
    {
        Statement {
            text,
            tokens,
            word: condition_word(text, tokens),
        }
    }

    /// The condition word with which it begins.
    #[inline(always)]
    pub fn word(&self) -> Option<CondWord>
        ensures { result ≡ condition_of self.now }
    {
        self.word
    }

    /// Its line: that of its first token.
    #[inline(always)]
    pub fn line(&self) -> u32
        ensures { result ≡ self.now.line }
    {
        match self.tokens {
            [first, ..] => first.line,
            [] => 0,
        }
    }

    /// How it begins.
    #[inline(always)]
    pub fn head(&self) -> Head
        ensures { BeginsSo result self.now }
    {
        Head {
            word: self.word(),
            line: self.line(),
        }
    }

    /// Whether its second word is a name that was declared.
    #[inline(always)]
    fn names_declared(&self, progress: &Progress) -> bool
        ensures { result ≡ names_declared progress.now.placed self.now }
    {
        match self.tokens {
            [_, name, ..] => progress.is_declared(word_of(self.text, *name).text),
            _ => false,
        }
    }

    /// Whether the condition that it names holds.
    #[inline(always)]
    pub fn holds(&self, progress: &Progress) -> bool
        ensures { result ≡ holds (condition_of self.now) (names_declared progress.now.placed self.now) }
    {
        match self.word {
            Some(CondWord::IfDef | CondWord::ElifDef) => self.names_declared(progress),
            Some(CondWord::IfNDef | CondWord::ElifNDef) => !self.names_declared(progress),
            Some(CondWord::Else) => true,
            Some(CondWord::EndIf) | None => false,
        }
    }

    /// Reads it, as `statement` of cf_grammar does.
    #[inline(always)]
    pub fn read(
        &self,
        progress: &mut Progress,
        words: &mut Vec<Word<'a>>,
    ) -> Result<Stmt, GrammarStop>
        ensures same { progress.new ≡ progress.old }
        ensures form { IfOk result (λ s. Form self.now.pieces s) }
        ensures written { IfOk result IsWritten }
        ensures fault { IfErr result (λ stop. IsFaultOf self.now.pieces stop) }
    {
        progress.read(words, self.text, self.tokens)
    }
}
