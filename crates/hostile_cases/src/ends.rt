//! How calls ended.

use crate::answer::Answer;
use cf_types::Memory;
use std::alloc::Global;

/// How many statuses there are.
const STATUSES: usize = 11;

/// How many calls there were, how many ended with each status, and how many wrongly.
#[derive(Drop)]
pub struct Ends {
    calls: u64,
    by_status: Vec<u64>,
    wrong: u64,
}

impl Ends {
    pub fn make(alloc: Global) -> Result<Ends, Memory> {
        Ok(Ends {
            calls: 0,
            by_status: vec![in alloc; 0; STATUSES]?,
            wrong: 0,
        })
    }

    /// How many ended wrongly.
    pub fn wrong(&self) -> u64 {
        self.wrong
    }

    pub fn count(&mut self, answer: &Answer) {
        self.calls = self.calls.saturating_add(1);
        if let Some(count) = self.by_status.get_mut(usize::from(answer.status)) {
            *count = count.saturating_add(1);
        }
        if !answer.is_fit() {
            self.wrong = self.wrong.saturating_add(1);
        }
    }

    /// The words for it: `12 calls, 5 with status 0, 7 with status 1`.
    pub fn words(&self, alloc: Global) -> Result<String, Memory> {
        let mut words = format!(in alloc; "{} calls", self.calls)?;
        for (status, count) in self.by_status.iter().enumerate() {
            if *count != 0 {
                words.push_str(&format!(in alloc; ", {count} with status {status}")?)?;
            }
        }
        if self.wrong != 0 {
            words.push_str(&format!(in alloc; ", {} wrong", self.wrong)?)?;
        }
        Ok(words)
    }
}
