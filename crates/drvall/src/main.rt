//! `drvall` compiles a configuration of devices, boots a machine by it and goes through every order in which scripts can take their
//! turns on the machine. See config(1), autoconf(9) and drvctl(8).
#![tactic(auto)]

use app_every::drvall_top;
use app_words::{Status, words_behind_name};
use cf_io::{Buffered, HostFiles, HostSink, Sink};
use cf_types::Memory;
use std::mem::forget;
use std::process::ExitCode;

/// Runs the program on the words that it is called with, over the system's files and its output.
fn run<E: Sink>(rt: &HostRuntime, err: &mut E) -> Result<Status, Memory> {
    let words = words_behind_name(rt, rt.alloc())?;
    let mut files = HostFiles::make(*rt);
    let mut out = Buffered::make(rt.alloc(), HostSink::make(rt.stdout()))?;
    let ended = drvall_top(rt.alloc(), &words, &mut files, &mut out, err);
    // What the orders lead to is not freed, because the process ends here.
    forget(ended.found);
    Ok(ended.status)
}

fn main(rt: HostRuntime) -> ExitCode {
    let mut err = HostSink::make(rt.stderr());
    let status = run(&rt, &mut err).unwrap_or_else(|_| {
        let _ = err.put(b"out of memory\n");
        Status::Memory
    });
    ExitCode::from(status.number())
}
