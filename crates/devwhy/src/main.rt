//! `devwhy` says why a driver takes a spot in the boot of a machine, and why others do not. See config(1) and autoconf(9).
#![tactic(auto)]

use app_why::devwhy_top;
use app_words::{Status, words_behind_name};
use cf_io::{Buffered, HostFiles, HostSink, Sink};
use cf_types::Memory;
use std::mem::forget;
use std::process::ExitCode;

/// Runs the program on the words that it is called with, over the system's files and its output.
fn run<E: Sink>(rt: &HostRuntime, err: &mut E) -> Result<Status, Memory> {
    let words = words_behind_name(rt, rt.alloc())?;
    let mut files = HostFiles::make(*rt);
    let mut out = Buffered::make(rt.alloc(), HostSink::make(rt.stdout()))?;
    let ended = devwhy_top(rt.alloc(), &words, &mut files, &mut out, err);
    // What was read and found is not freed, because the process ends here.
    forget(ended.found);
    Ok(ended.status)
}

fn main(rt: HostRuntime) -> ExitCode {
    let mut err = HostSink::make(rt.stderr());
    let status = run(&rt, &mut err).unwrap_or_else(|_| {
        let _ = err.put(b"out of memory\n");
        Status::Memory
    });
    ExitCode::from(status.number())
}
