//! Reads a condition from left to right, and evaluates it on the way. It uses no recursion, however long and deep the
//! condition is.
ghost use Rattle.std.specs.Prelude.{◌≡◌, true, false, IfOk};
ghost use Rattle.config_rules.specs.Select.{has_name};
ghost use Rattle.file_select.specs.Findings.{Judges};
ghost use Rattle.file_select.specs.Steps.{closed, deeper, fresh, opened, run, start, step, value_of, answer_of, with_not, with_or, with_term, with_word};

use crate::symbol::{Symbol, symbol_of, word_of};
use crate::texts::TextSet;
use cf_types::{Memory, PieceView};
use std::alloc::Global;
use std::collections::VecDeque;
use std::marker::Model;

/// The most parentheses and `!` that may be open at a name.
const MAX_NESTING: u32 = 64;

/// How many are open if one more is; beyond the limit they are not counted.
fn deeper(depth: u32) -> u32
    ensures { result ≡ deeper depth }
{
    if depth > MAX_NESTING {
        depth
    } else {
        depth + 1
    }
}

/// A disjunction that is read up to a term.
#[derive(Clone, Copy)]
pub struct Level {
    /// Whether an earlier conjunction is true.
    any: bool,
    /// Whether all earlier terms of the conjunction are true.
    all: bool,
    /// Whether the term is negated.
    negated: bool,
    /// How many parentheses and `!` are open around the disjunction.
    around: u32,
    /// How many parentheses and `!` are open at the term.
    depth: u32,
}

impl Level {
    fn fresh(depth: u32) -> Level
        ensures { result ≡ fresh depth }
    {
        Level {
            any: false,
            all: true,
            negated: false,
            around: depth,
            depth,
        }
    }

    fn value(self) -> bool
        ensures { result ≡ value_of self }
    {
        self.any || self.all
    }

    fn with_term(self, value: bool) -> Level
        ensures { result ≡ with_term value self }
    {
        Level {
            any: self.any,
            all: self.all && self.negated != value,
            negated: false,
            around: self.around,
            depth: self.around,
        }
    }

    fn with_not(self) -> Level
        ensures { result ≡ with_not self }
    {
        Level {
            any: self.any,
            all: self.all,
            negated: !self.negated,
            around: self.around,
            depth: deeper(self.depth),
        }
    }

    fn with_or(self) -> Level
        ensures { result ≡ with_or self }
    {
        Level {
            any: self.value(),
            all: true,
            negated: self.negated,
            around: self.around,
            depth: self.depth,
        }
    }
}

/// How far a condition is read.
#[derive(Drop)]
struct Evaluation {
    /// The disjunctions around the one that is read, the innermost first.
    outer: VecDeque<Level>,
    level: Level,
    /// Whether a term is next.
    wants_term: bool,
    /// Whether a name nests too deep.
    is_deep: bool,
}

impl Model for Evaluation {
    ghost use Rattle.file_select.specs.Steps.{State};

    ghost Value = { State };

    ghost view = { λ it. record { outer = it.outer.items; level = it.level; wants = it.wants_term; deep = it.is_deep } };
}

impl Evaluation {
    fn make(alloc: Global) -> Evaluation
        ensures { result ≡ start }
    {
        Evaluation {
            outer: VecDeque::new(alloc),
            level: Level::fresh(0),
            wants_term: true,
            is_deep: false,
        }
    }

    /// The same with another disjunction that is read.
    fn at(self, level: Level, wants_term: bool) -> Evaluation
        ensures { result ≡ record self { level = level; wants = wants_term } }
    {
        let Evaluation { outer, is_deep, .. } = self;
        Evaluation {
            outer,
            level,
            wants_term,
            is_deep,
        }
    }

    /// Reads a name that is true or not.
    fn with_word(self, value: bool) -> Evaluation
        ensures { result ≡ with_word value self }
    {
        let Evaluation {
            outer,
            level,
            is_deep,
            ..
        } = self;
        Evaluation {
            outer,
            level: level.with_term(value),
            wants_term: false,
            is_deep: is_deep || level.depth > MAX_NESTING,
        }
    }

    /// Opens a parenthesis.
    fn opened(self) -> Result<Evaluation, Memory>
        ensures { IfOk result (λ next. next ≡ opened self) }
    {
        let Evaluation {
            mut outer,
            level,
            wants_term,
            is_deep,
        } = self;
        outer.push_front(level)?;
        Ok(Evaluation {
            outer,
            level: Level::fresh(deeper(level.depth)),
            wants_term,
            is_deep,
        })
    }

    /// Closes a parenthesis, if one is open.
    fn closed(self) -> Option<Evaluation>
        ensures { result ≡ closed self self.outer }
    {
        let Evaluation {
            mut outer,
            level,
            wants_term,
            is_deep,
        } = self;
        let around = outer.pop_front()?;
        Some(Evaluation {
            outer,
            level: around.with_term(level.value()),
            wants_term,
            is_deep,
        })
    }

    /// Reads a symbol if a term is next.
    fn wanting(self, symbol: Symbol) -> Result<Option<Evaluation>, Memory>
        requires { self.wants ≡ true }
        ensures { IfOk result (λ next. next ≡ step symbol self) }
    {
        let level = self.level;
        match symbol {
            Symbol::Word(value) => Ok(Some(self.with_word(value))),
            Symbol::Not => Ok(Some(self.at(level.with_not(), true))),
            Symbol::Open => Ok(Some(self.opened()?)),
            Symbol::And | Symbol::Or | Symbol::Close => Ok(None),
        }
    }

    /// Reads a symbol after a term.
    fn behind(self, symbol: Symbol) -> Option<Evaluation>
        requires { self.wants ≡ false }
        ensures { result ≡ step symbol self }
    {
        let level = self.level;
        match symbol {
            Symbol::And => Some(self.at(level, true)),
            Symbol::Or => Some(self.at(level.with_or(), true)),
            Symbol::Close => self.closed(),
            Symbol::Word(_) | Symbol::Not | Symbol::Open => None,
        }
    }

    /// Reads one more symbol. `None` if it may not be here.
    fn step(self, symbol: Symbol) -> Result<Option<Evaluation>, Memory>
        ensures { IfOk result (λ next. next ≡ step symbol self) }
    {
        if self.wants_term {
            return self.wanting(symbol);
        }
        Ok(self.behind(symbol))
    }

    /// What was read, at its end.
    fn answer(&self) -> ConditionAnswer
        ensures { result ≡ answer_of self.now }
    {
        if self.wants_term || !self.outer.is_empty() {
            return ConditionAnswer::NoForm;
        }
        if self.is_deep {
            return ConditionAnswer::TooDeep;
        }
        ConditionAnswer::Value(self.level.value())
    }
}

/// What a condition is found to be.
#[derive(Clone, Copy)]
pub enum ConditionAnswer {
    /// It is not a condition.
    NoForm,
    /// More parentheses and `!` are open at a name than may be.
    TooDeep,
    /// It is true or not.
    Value(bool),
}

/// Reads all symbols. `None` if one of them is at a place where it may not be.
fn evaluate(
    alloc: Global,
    names: &TextSet,
    pieces: &[PieceView<'_>],
) -> Result<Option<Evaluation>, Memory>
    ensures { IfOk result (λ read. read ≡ run (has_name names.now) pieces.now start) }
{
    let mut state = Evaluation::make(alloc);
    for piece in pieces {
        let Some(symbol) = symbol_of(names, word_of(piece)) else {
            return Ok(None);
        };
        match state.step(symbol)? {
            Some(next) => state = next,
            None => return Ok(None),
        }
    }
    Ok(Some(state))
}

/// What these tokens are as a condition, if these names are true.
pub fn judge(
    alloc: Global,
    names: &TextSet,
    pieces: &[PieceView<'_>],
) -> Result<ConditionAnswer, Memory>
    ensures { IfOk result (Judges (has_name names.now) pieces.now) }
{
    match evaluate(alloc, names, pieces)? {
        Some(read) => Ok(read.answer()),
        None => Ok(ConditionAnswer::NoForm),
    }
}
