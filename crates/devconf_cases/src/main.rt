//! Runs the cases of the programs `devconf`, `drvrun` and `drvall`: each file that a word names is a topic, whose cases are run
//! over files and sinks in memory. Each play that ends well is read again by `replay` and by `upgrade`, each play of
//! one script that has ended is also run by `drvrun`, and the history of each boot and play is re-checked by linear
//! search. For each topic it prints how many of each there are, and for each case whose answer differs, the first line
//! that differs. The status is 0 if none differs.
#![tactic(auto)]

mod again;
mod callers;
mod case;
mod difference;
mod followed;
mod form;
mod medium;
mod reader;
mod run;
mod stop;

use crate::again::{cases_again, cases_of_one};
use crate::case::Case;
use crate::difference::put_differences;
use crate::followed::followed;
use crate::reader::Reader;
use crate::run::answer_to;
use crate::stop::Stop;
use cf_io::{Files, HostFiles, Load};
use plain_forms::Followed;
use std::alloc::Global;
use std::env;
use std::io::Write;
use std::process::ExitCode;
use std::sync::Wait;
use std::thread::Threads;

/// How many cases there are, how many plays were read again, how many were also run by `drvrun`, how many histories
/// were re-checked by linear search, and how many of all these differ.
#[derive(Clone, Copy)]
struct Count {
    cases: usize,
    again: usize,
    run: usize,
    followed: usize,
    different: usize,
}

impl Count {
    fn and(self, other: Count) -> Count {
        Count {
            cases: self.cases.saturating_add(other.cases),
            again: self.again.saturating_add(other.again),
            run: self.run.saturating_add(other.run),
            followed: self.followed.saturating_add(other.followed),
            different: self.different.saturating_add(other.different),
        }
    }

    /// The words for it: `12 cases`, `12 cases, 10 replayed and upgraded, 4 run by drvrun, 12 followed`, `12 cases, 1 different`.
    fn words(self, alloc: Global) -> Result<String, Stop> {
        let mut words = format!(in alloc; "{} cases", self.cases)?;
        if self.again != 0 {
            words.push_str(&format!(in alloc; ", {} replayed and upgraded", self.again)?)?;
        }
        if self.run != 0 {
            words.push_str(&format!(in alloc; ", {} run by drvrun", self.run)?)?;
        }
        if self.followed != 0 {
            words.push_str(&format!(in alloc; ", {} followed", self.followed)?)?;
        }
        if self.different != 0 {
            words.push_str(&format!(in alloc; ", {} different", self.different)?)?;
        }
        Ok(words)
    }
}

/// Runs cases, and prints where each of those that differ does; returns how many differ.
fn try_cases<R: Threads + Wait + Sync, W: Write>(
    threads: &R,
    alloc: Global,
    topic: &str,
    cases: Vec<Case>,
    out: &mut W,
) -> Result<usize, Stop> {
    let mut different: usize = 0;
    for case in cases {
        let (wanted, answer) = answer_to(threads, alloc, case)?;
        let mut report = Vec::new(alloc);
        put_differences(&wanted, &answer, topic, &mut report)?;
        if !report.is_empty() {
            different = different.saturating_add(1);
            out.write_all(&report)?;
        }
    }
    Ok(different)
}

/// Re-checks the histories of cases by linear search, and prints where each of those that differ does; returns how many
/// there are, and how many differ.
fn follow_all<W: Write>(
    alloc: Global,
    topic: &str,
    cases: &[Case],
    out: &mut W,
) -> Result<(usize, usize), Stop> {
    let mut histories: usize = 0;
    let mut different: usize = 0;
    for case in cases {
        match followed(alloc, case)? {
            Some(Followed::Whole(_)) => histories = histories.saturating_add(1),
            Some(Followed::UpTo(line)) => {
                different = different.saturating_add(1);
                let name = case.name.as_str();
                let report = format!(in alloc;
                    "{topic}: {name}: plain looks differ at line {line}\n"
                )?;
                out.write_all(report.as_bytes())?;
            }
            None => {}
        }
    }
    Ok((histories, different))
}

/// Runs the cases of a topic, and its plays once more as they are read again, or run by `drvrun`.
fn try_all<R: Threads + Wait + Sync, W: Write>(
    threads: &R,
    alloc: Global,
    topic: &str,
    cases: Vec<Case>,
    out: &mut W,
) -> Result<Count, Stop> {
    let again = cases_again(alloc, &cases)?;
    let of_one = cases_of_one(alloc, &cases)?;
    let (followed, different) = follow_all(alloc, topic, &cases, out)?;
    let mut count = Count {
        cases: cases.len(),
        again: again.len() / 2,
        run: of_one.len(),
        followed,
        different,
    };
    for cases in [cases, again, of_one] {
        let different = try_cases(threads, alloc, topic, cases, out)?;
        count.different = count.different.saturating_add(different);
    }
    Ok(count)
}

/// Reads the file of a topic and runs its cases.
fn try_topic<R: Threads + Wait + Sync, W: Write>(
    rt: &HostRuntime,
    threads: &R,
    reader: &mut Reader,
    topic: &str,
    out: &mut W,
) -> Result<Count, Stop> {
    let mut bytes = Vec::new(rt.alloc());
    match HostFiles::make(*rt).load(topic.as_bytes(), &mut bytes) {
        Load::Whole => {}
        Load::Memory => return Err(Stop::Memory),
        _ => return Err(Stop::NoFile),
    }
    reader.read(&bytes)?;
    let cases = reader.take_cases();
    let count = try_all(threads, rt.alloc(), topic, cases, out)?;
    let line = format!(in rt.alloc(); "{topic}: {}\n", count.words(rt.alloc())?)?;
    out.write_all(line.as_bytes())?;
    Ok(count)
}

/// Runs the topics that the words name, and returns whether no case differs.
fn try_topics<R: Threads + Wait + Sync>(rt: &HostRuntime, threads: &R) -> Result<bool, Stop> {
    let mut reader = Reader::make(rt.alloc());
    let mut out = rt.stdout();
    let mut count = Count {
        cases: 0,
        again: 0,
        run: 0,
        followed: 0,
        different: 0,
    };
    for topic in env::args(rt)?.skip(1) {
        match try_topic(rt, threads, &mut reader, topic.as_str(), &mut out) {
            Ok(more) => count = count.and(more),
            Err(stop) => {
                let line = format!(in rt.alloc(); "{topic}: {stop}\n")?;
                out.write_all(line.as_bytes())?;
                return Ok(false);
            }
        }
    }
    let line = format!(in rt.alloc(); "all: {}\n", count.words(rt.alloc())?)?;
    out.write_all(line.as_bytes())?;
    Ok(count.different == 0)
}

fn main(rt: HostRuntime) -> ExitCode {
    match try_topics(&rt, &rt) {
        Ok(true) => ExitCode::SUCCESS,
        _ => ExitCode::FAILURE,
    }
}
