//! The program of an operator: it serves a node over its files and sockets, asks one that is served or the files alone, looks for
//! a bad line, checks a proof, and tells what answers say.
#![tactic(auto)]

mod ask;
mod check;
mod command;
mod ending;
mod explain;
mod lint;
mod look;
mod nodes_file;
mod overview;
mod owners;
mod refusal;
mod registry;
mod serve;
mod text;

use crate::command::Command;
use crate::ending::Ending;
use spl_device::hold_descriptors;
use std::alloc::AllocError;
use std::io::Write;
use std::process::ExitCode;
use std::{env, io};

// The words after the program's name.
fn words_of(rt: &HostRuntime) -> io::Result<Vec<String>> {
    let mut words = Vec::new(rt.alloc());
    for word in env::args(rt)?.skip(1) {
        words.push(word)?;
    }
    Ok(words)
}

fn run(rt: &HostRuntime) -> Result<Ending, AllocError> {
    let Ok(words) = words_of(rt) else {
        return Ok(Ending::Usage);
    };
    match Command::of(words.as_slice()) {
        Some(
            Command::Serve {
                registry,
                node,
                folder,
                is_new,
            },
        ) => serve::serve(rt, registry, node, folder, is_new),
        Some(Command::AskLines { folder }) => ask::ask_lines(rt, folder),
        Some(Command::Ask { folder, line }) => ask::ask_words(rt, folder, line),
        Some(Command::Check { words }) => check::check(rt, words),
        Some(Command::Lint { registry, schedule }) => lint::lint(rt, registry, schedule),
        Some(
            Command::Look {
                registry,
                folder,
                line,
            },
        ) => look::look(rt, registry, folder, line),
        Some(Command::Owners { registry, folder }) => owners::owners(rt, registry, folder),
        Some(Command::Tell { telling, file }) => explain::tell(rt, telling, file),
        Some(Command::Status { folder }) => overview::overview(rt, folder),
        None => Ok(Ending::Usage),
    }
}

// One line on standard error.
fn report(rt: &HostRuntime, ending: &Ending) -> io::Result<()> {
    let mut error = rt.stderr();
    if ending.is_memory() {
        // It may lack the memory for its text, too.
        return error.write_all(b"out of memory\n");
    }
    let text = ending.text(rt.alloc())?;
    error.write_all(text.bytes())?;
    error.write_all(b"\n")
}

fn main(rt: HostRuntime) -> ExitCode {
    let _held = hold_descriptors(&rt);
    let ending = run(&rt).unwrap_or(Ending::memory());
    if ending.is_told() {
        let _ = report(&rt, &ending);
    }
    ExitCode::from(ending.code())
}
