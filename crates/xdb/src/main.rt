//! The program `xdb`: `xdb FOLDER WORDS`.
//!
//! `main` passes the words behind the folder, standard input and standard output to `tool` of `xdb_top`, whose contract
//! says what comes of them, writes the fault to standard error where there is one, and ends with the status.
#![tactic(auto)]

use byte_edge::{StdSink, StdSource};
use clap::{Arg, ArgAction, Command};
use std::alloc::{AllocError, Global};
use std::env;
use std::io::ErrorKind;
use std::process::ExitCode;
use xdb_top::{TopEnd, TopFault, end_of, tool};

/// The words behind the folder. A word that is not UTF-8 makes a faulty command line.
fn words_of(rt: &HostRuntime) -> Result<Vec<String>, TopFault> {
    let all = match env::args(rt) {
        Ok(all) => all,
        Err(fault) if fault.kind() == ErrorKind::InvalidData => return Err(TopFault::BadWords),
        Err(_) => return Err(TopFault::NoMemory),
    };
    match all.skip(2).collect(rt.alloc()) {
        Ok(words) => Ok(words),
        Err(_) => Err(TopFault::NoMemory),
    }
}

fn run(rt: &HostRuntime) -> TopEnd {
    match words_of(rt) {
        Ok(words) => {
            let mut source = StdSource::of(rt.stdin());
            let mut sink = StdSink::of(rt.stdout());
            tool(rt.alloc(), &words, &mut source, &mut sink)
        }
        Err(fault) => end_of(rt.alloc(), Some(fault)),
    }
}

/// How the program is called.
fn usage(alloc: Global) -> Result<String, AllocError> {
    let folder = Arg::new(alloc, "FOLDER").action(ArgAction::Set);
    let words = Arg::new(alloc, "WORDS").action(ArgAction::Append);
    Command::new(alloc, "xdb")
        .arg(folder)?
        .arg(words)?
        .render_usage()
}

/// Writes the fault to standard error and, where the words are no command, how the program is called.
fn complain(rt: &HostRuntime, fault: TopFault) {
    let _ = eprintln!(rt; "xdb: {fault}");
    if fault == TopFault::BadWords
        && let Ok(text) = usage(rt.alloc())
    {
        let _ = eprintln!(rt; "{text}");
    }
}

fn main(rt: HostRuntime) -> ExitCode {
    let end = run(&rt);
    if let Some(fault) = end.fault {
        complain(&rt, fault);
    }
    ExitCode::from(end.status)
}
