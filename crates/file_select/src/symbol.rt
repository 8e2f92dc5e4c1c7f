ghost use Rattle.std.specs.Prelude.{◌≡◌, option_map};
ghost use Rattle.cf_words.specs.Words.{piece_of};
ghost use Rattle.config_rules.specs.Select.{has_name};
ghost use Rattle.file_rules.specs.Condition as rules;
ghost use Rattle.file_select.specs.Steps.{mark_of, valued};

use crate::texts::TextSet;
use cf_types::PieceView;
use cf_words::{Word, is_name_word};

/// A symbol of a condition; a word is a name, true if it is chosen.
#[derive(Clone, Copy)]
pub enum Symbol {
    Word(bool),
    Not,
    And,
    Or,
    Open,
    Close,
}

/// A token of a statement as a word.
pub fn word_of<'a>(piece: &PieceView<'a>) -> Word<'a>
    ensures { piece_of result ≡ piece.now }
{
    Word {
        kind: piece.kind,
        text: piece.text,
    }
}

fn mark_of(word: Word) -> Option<Symbol>
    ensures { result ≡ mark_of (piece_of word.entry) }
{
    if word.is_mark(b"!") {
        return Some(Symbol::Not);
    }
    if word.is_mark(b"&") {
        return Some(Symbol::And);
    }
    if word.is_mark(b"|") {
        return Some(Symbol::Or);
    }
    if word.is_mark(b"(") {
        return Some(Symbol::Open);
    }
    if word.is_mark(b")") {
        return Some(Symbol::Close);
    }
    None
}

/// The symbol that a word is, if it is one.
pub fn symbol_of(names: &TextSet, word: Word) -> Option<Symbol>
    ensures { result ≡ option_map (valued (has_name names.now)) (rules.symbol_of (piece_of word.entry)) }
{
    if is_name_word(word) {
        return Some(Symbol::Word(names.contains(word.text)));
    }
    mark_of(word)
}
