ghost use Rattle.std.specs.Prelude.{◌≡◌, [], ◌∷◌, length, OnOk};
ghost use Rattle.config_rules.specs.Reading.{branches, closes, is_else, opens};
ghost use Rattle.cf_expand.specs.Levels.{is_live, is_misplaced, is_placed, levels_after, next_branch, opened};
ghost use Rattle.cf_expand.specs.Conditions.{innermost, is_behind_else};

use cf_types::{CondWord, Memory};
use std::alloc::Global;
use std::collections::VecDeque;
use std::marker::Model;

#[inline(always)]
fn opens(word: Option<CondWord>) -> bool
    ensures { result ≡ opens word }
{
    matches!(word, Some(CondWord::IfDef | CondWord::IfNDef))
}

#[inline(always)]
fn branches(word: Option<CondWord>) -> bool
    ensures { result ≡ branches word }
{
    matches!(
        word,
        Some(CondWord::ElifDef | CondWord::ElifNDef | CondWord::Else)
    )
}

#[inline(always)]
fn closes(word: Option<CondWord>) -> bool
    ensures { result ≡ closes word }
{
    matches!(word, Some(CondWord::EndIf))
}

#[inline(always)]
fn is_else(word: Option<CondWord>) -> bool
    ensures { result ≡ is_else word }
{
    matches!(word, Some(CondWord::Else))
}

/// An open condition.
#[derive(Drop)]
struct Condition {
    /// The line of its opening.
    line: u32,
    /// Whether the part around it is not left out.
    outer: bool,
    /// Whether one of its branches has been taken.
    taken: bool,
    /// Whether the branch that is open now is taken.
    live: bool,
    /// Whether that is the branch of `else`.
    last: bool,
}

impl Model for Condition {
    ghost use Rattle.cf_expand.specs.Levels.{Level};

    ghost Value = { Level };

    ghost view = { λ it. record { line = it.line; outer = it.outer; taken = it.taken; live = it.live; last = it.last } };
}

impl Condition {
    fn next_branch(self, holds: bool, last: bool) -> Condition
        ensures { result ≡ next_branch holds last self }
    {
        let Condition {
            line,
            outer,
            taken,
            ..
        } = self;
        Condition {
            line,
            outer,
            taken: taken || (outer && holds),
            live: outer && !taken && holds,
            last,
        }
    }
}

/// The conditions of one file that are open, the innermost first.
#[derive(Drop)]
pub struct Conditions {
    open: VecDeque<Condition>,
}

impl Model for Conditions {
    ghost use Rattle.std.specs.Prelude.{List};
    ghost use Rattle.cf_expand.specs.Levels.{Level};

    ghost Value = { List Level };

    ghost view = { λ it. it.open.items };
}

impl Conditions {
    /// No open condition.
    pub fn make(alloc: Global) -> Conditions
        ensures { result ≡ [] }
    {
        Conditions {
            open: VecDeque::new(alloc),
        }
    }

    /// How many are open.
    pub fn len(&self) -> usize
        ensures { result ≡ length self.now }
    {
        self.open.len()
    }

    /// The line of the opening of the innermost one.
    pub fn innermost(&self) -> Option<u32>
        ensures { result ≡ innermost self.now }
    {
        match self.open.front() {
            Some(condition) => Some(condition.line),
            None => None,
        }
    }

    /// Whether the part that begins here is not left out.
    #[inline(always)]
    pub fn is_live(&self) -> bool
        ensures { result ≡ is_live self.now }
    {
        match self.open.front() {
            Some(condition) => condition.live,
            None => true,
        }
    }

    /// Whether a statement that begins with this word is not left out.
    #[inline(always)]
    pub fn is_placed(&self, word: Option<CondWord>) -> bool
        ensures { result ≡ is_placed word self.now }
    {
        match self.open.front() {
            Some(condition) => if branches(word) || closes(word) {
                condition.outer
            } else {
                condition.live
            },
            None => true,
        }
    }

    #[inline(always)]
    fn is_behind_else(&self) -> bool
        ensures { result ≡ is_behind_else self.now }
    {
        match self.open.front() {
            Some(condition) => condition.last,
            None => false,
        }
    }

    /// Whether a statement with this word may not be here, if this many conditions may be open.
    #[inline(always)]
    pub fn is_misplaced(&self, room: usize, word: Option<CondWord>) -> bool
        ensures { result ≡ is_misplaced room word self.now }
    {
        (opens(word) && self.len() >= room)
            || ((branches(word) || closes(word)) && self.len() == 0)
            || (branches(word) && self.is_behind_else())
    }

    fn push(&mut self, line: u32, holds: bool) -> Result<(), Memory>
        ensures { OnOk result (self.new ≡ opened line holds self.old ∷ self.old) }
    {
        let outer = self.is_live();
        self.open.push_front(Condition {
            line,
            outer,
            taken: outer && holds,
            live: outer && holds,
            last: false,
        })?;
        Ok(())
    }

    fn turn(&mut self, word: Option<CondWord>, line: u32, holds: bool) -> Result<(), Memory>
        ensures { OnOk result (self.new ≡ levels_after word line holds self.old) }
    {
        if opens(word) {
            return self.push(line, holds);
        }
        if !branches(word) && !closes(word) {
            return Ok(());
        }
        let Some(condition) = self.open.pop_front() else {
            return Ok(());
        };
        if branches(word) {
            self.open
                .push_front(condition.next_branch(holds, is_else(word)))?;
        }
        Ok(())
    }

    /// Follows a statement with this word on this line, whose condition holds or does not. Most statements have none.
    #[inline(always)]
    pub fn follow(&mut self, word: Option<CondWord>, line: u32, holds: bool) -> Result<(), Memory>
        ensures { OnOk result (self.new ≡ levels_after word line holds self.old) }
    {
        if word.is_none() {
            return Ok(());
        }
        self.turn(word, line, holds)
    }
}
