//! The program: it opens the files that its words name, runs, and says how that ended.
#![tactic(auto)]

ghost use Rattle.std.specs.{Prelude.{◌≡◌, ◌≢◌}, IoError.error_kind};
ghost use Rattle.spl_edge.specs.Devices.{bench};

use spl_app::splinter;
use spl_cli::{Command, Status, command_of};
use spl_device::{Access, FileSource, Folder, StdSink, TcpFabric, hold_descriptors, registry_of};
use spl_memory::blank_bench;
use std::alloc::AllocError;
use std::fs::File;
use std::io::{ErrorKind, IsTerminal, Write};
use std::process::ExitCode;
use std::{env, fs, io};

// The words after the program's name.
fn words_of(rt: &HostRuntime) -> io::Result<Vec<String>> {
    let mut words = Vec::new(rt.alloc());
    for word in env::args(rt)?.skip(1) {
        words.push(word)?;
    }
    Ok(words)
}

// How a run ends whose words can't be read.
fn unread(error: &io::Error) -> Status
    ensures memory { error_kind error.now ≡ ErrorKind.OutOfMemory → result ≡ Status.NoMemory }
    ensures others { error_kind error.now ≢ ErrorKind.OutOfMemory → result ≡ Status.Usage }
{
    match error.kind() {
        ErrorKind::OutOfMemory => Status::NoMemory,
        _ => Status::Usage,
    }
}

// The file of this name. One that can't be opened is a source whose first read fails.
fn source(rt: &HostRuntime, name: Option<&String>) -> FileSource<File> {
    let file = match name {
        Some(name) => fs::open(rt, name.as_str()).ok(),
        None => None,
    };
    FileSource::new(rt.alloc(), file)
}

// What a command opens: the files of the registry and of the schedule, and the folder that has the disks of nodes.
#[derive(Drop)]
struct Names<'a> {
    registry: Option<&'a String>,
    schedule: Option<&'a String>,
    folder: Option<&'a String>,
    access: Access,
}

// The names among the words of a command line. Words that are no command name nothing.
fn names_in(words: &[String]) -> Names<'_> {
    let (registry, schedule, folder, access) = match command_of(words) {
        Some(Command::Replay | Command::Trace) => (words.get(1), words.get(2), None, Access::Read),
        Some(Command::Links | Command::Resume) => {
            (words.get(1), words.get(2), words.get(3), Access::Change)
        }
        Some(Command::Audit) => (words.get(1), None, words.get(2), Access::Read),
        Some(Command::Paxos(_)) => (None, words.get(3), None, Access::Read),
        Some(Command::Gen { .. }) | None => (None, None, None, Access::Read),
    };
    Names {
        registry,
        schedule,
        folder,
        access,
    }
}

// Over links the registry is read here, for the endpoints, and handed on from its first byte. Without one no file is made.
fn run(rt: &HostRuntime) -> Result<Status, AllocError> {
    let words = match words_of(rt) {
        Ok(words) => words,
        Err(error) => return Ok(unread(&error)),
    };
    let names = names_in(&words);
    let mut registry = source(rt, names.registry);
    let mut schedule = source(rt, names.schedule);
    let stdout = rt.stdout();
    let prompt = stdout.is_terminal();
    let mut out = StdSink::new(stdout, prompt);
    let mut bench = blank_bench(rt.alloc())?;
    let (mut folder, mut nodes) = (names.folder, None);
    if names.access == Access::Change {
        nodes = registry_of(rt.alloc(), &mut registry)?;
        registry = registry.again(rt.alloc());
        if nodes.is_none() {
            folder = None;
        }
    }
    let mut folder = Folder::open(rt, folder, names.access)?;
    let mut fabric = TcpFabric::new(rt.alloc(), rt, nodes.as_ref())?;
    Ok(splinter(
        rt.alloc(),
        &words,
        &mut registry,
        &mut schedule,
        &mut out,
        &mut bench,
        &mut folder.shelf,
        &mut fabric,
    ))
}

// One line on standard error.
fn report(rt: &HostRuntime, status: &Status) -> io::Result<()> {
    let mut error = rt.stderr();
    if matches!(status, Status::NoMemory) {
        // It may lack the memory for its text, too.
        return error.write_all(b"out of memory\n");
    }
    let text = status.text(rt.alloc())?;
    error.write_all(text.bytes())?;
    error.write_all(b"\n")
}

fn main(rt: HostRuntime) -> ExitCode {
    let _held = hold_descriptors(&rt);
    let status = run(&rt).unwrap_or(Status::NoMemory);
    if !matches!(status, Status::Ok) {
        let _ = report(&rt, &status);
    }
    ExitCode::from(status.code())
}
