//! `drvrun` compiles a configuration of devices, boots a machine by it and runs scripts on the machine, each in a thread of its
//! own. See config(1), autoconf(9) and drvctl(8).
#![tactic(auto)]

use app_run::drvrun_top;
use app_words::{Status, words_behind_name};
use cf_io::{Buffered, HostFiles, HostSink, Sink};
use cf_types::Memory;
use drv_workers::SoftMedium;
use std::mem::forget;
use std::process::ExitCode;
use std::sync::Wait;
use std::thread::Threads;

/// Runs the program on the words that it is called with, over the system's files, its output and its threads.
fn run<R: Threads + Wait + Sync, E: Sink>(
    rt: &HostRuntime,
    threads: &R,
    err: &mut E,
) -> Result<Status, Memory> {
    let words = words_behind_name(rt, rt.alloc())?;
    let mut files = HostFiles::make(*rt);
    let mut out = Buffered::make(rt.alloc(), HostSink::make(rt.stdout()))?;
    let ended = drvrun_top(
        threads,
        rt.alloc(),
        &words,
        &mut files,
        &mut out,
        err,
        &SoftMedium,
    );
    // What is left of the run is not freed, because the process ends here.
    forget(ended.found);
    Ok(ended.status)
}

fn main(rt: HostRuntime) -> ExitCode {
    let mut err = HostSink::make(rt.stderr());
    let status = run(&rt, &rt, &mut err).unwrap_or_else(|_| {
        let _ = err.put(b"out of memory\n");
        Status::Memory
    });
    ExitCode::from(status.number())
}
