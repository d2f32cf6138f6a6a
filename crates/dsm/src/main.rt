//! The program: its words, the files and the standard output of the machine that it runs on.
#![tactic(auto)]

use dsm_adapt::{HostFiles, StdSink};
use dsm_top::run_tool;
use std::process::ExitCode;
use std::{env, io};

/// The words behind the program's name.
fn words(rt: &HostRuntime) -> io::Result<Vec<String>> {
    let mut words = Vec::new(rt.alloc());
    for word in env::args(rt)?.skip(1) {
        words.push(word)?;
    }
    Ok(words)
}

fn main(rt: HostRuntime) -> ExitCode {
    let alloc = rt.alloc();
    let words = words(&rt).unwrap_or(Vec::new(alloc));
    let mut out = StdSink::new(rt.stdout());
    let mut files = HostFiles::new(rt);
    let report = run_tool(alloc, &words, &mut files, &mut out);
    ExitCode::from(report.status.number())
}
