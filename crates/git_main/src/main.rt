//! The program: the words of the command line, standard input and standard output, handed to the top call.
#![tactic(auto)]

mod progress;
mod runs;

use git_base::{StdSink, StdSource};
use progress::{Cleared, Progress};
use runs::{exit_code, run};
use std::io::IsTerminal;
use std::process::ExitCode;
use std::{env, io};

/// The words after the program's name.
fn words_after_name(rt: &HostRuntime) -> io::Result<Vec<String>> {
    Ok(env::args(rt)?.skip(1).collect(rt.alloc())?)
}

fn main(rt: HostRuntime) -> ExitCode {
    let words = words_after_name(&rt);
    let progress = Progress::new(&rt, rt.stderr().is_terminal());
    let mut source = StdSource::new(rt.reader());
    let mut sink = Cleared::new(StdSink::new(io::writer(&rt)), &progress);
    let status = run(&rt, rt.alloc(), words, &progress, &mut source, &mut sink);
    progress.clear();
    exit_code(status)
}
