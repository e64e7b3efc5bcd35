//! `look`: the lines of an operator, answered by the files of a node alone.
ghost use Rattle.std.specs.Prelude.{◌≡◌, None};
ghost use Rattle.spl_edge.specs.Devices.{image_now};
ghost use Rattle.spl_look.specs.Questions.{IsAsked};

use crate::ending::Ending;
use crate::owners::first_of_another;
use crate::refusal::refusal_of;
use crate::registry::read;
use crate::text::joined;
use spl_answer::append_text;
use spl_cli::Status;
use spl_device::{Access, Folder};
use spl_edge::{Disk, Pair};
use spl_look::{Question, Unasked, read_question};
use spl_short::write_out;
use std::alloc::AllocError;
use std::io::Write;

// Writes an answer without its line feed, and says how the program ends after it.
fn say(rt: &HostRuntime, mut answer: Vec<u8>) -> Result<Ending, AllocError> {
    answer.push(b'\n')?;
    if rt.stdout().write_all(answer.as_slice()).is_err() {
        return Ok(Ending::As(Status::WriteFault));
    }
    if answer.starts_with(b"ok") {
        return Ok(Ending::As(Status::Ok));
    }
    Ok(Ending::Refused {
        why: refusal_of(answer.as_slice()),
    })
}

fn say_bad_line(rt: &HostRuntime) -> Result<Ending, AllocError> {
    say(rt, Vec::from_slice(rt.alloc(), b"bad line")?)
}

// The answer to a question over the disks of its node, which don't say what they hold.
fn answer<D: Disk>(
    rt: &HostRuntime,
    question: &Question,
    disks: &mut Pair<D>,
) -> Result<Ending, AllocError>
    requires first { image_now (D.view disks.old.first) ≡ None }
    requires second { image_now (D.view disks.old.second) ≡ None }
    requires asked { IsAsked question.now }
{
    match spl_look::tell(rt.alloc(), question, disks) {
        Ok(answer) => {
            let mut text = Vec::new(rt.alloc());
            append_text(&answer, &mut text)?;
            say(rt, text)
        }
        Err(fault) => Ok(Ending::of_journal(question.node(), fault)),
    }
}

/// Answers a line, of these words, by the files that a folder has of the node that it names, and changes none.
pub(crate) fn look(
    rt: &HostRuntime,
    registry: &String,
    folder: &String,
    words: &[String],
) -> Result<Ending, AllocError> {
    let registry = match read(rt, registry) {
        Ok(registry) => registry,
        Err(ending) => return Ok(ending),
    };
    let line = write_out(rt.alloc(), joined(rt, words)?.as_slice())?;
    let question = match read_question(rt.alloc(), line.as_slice()) {
        Ok(question) => question,
        Err(Unasked::BadLine) => return say_bad_line(rt),
        Err(Unasked::NoMemory) => return Err(AllocError),
    };
    let Some(position) = registry.slot(&question.node()) else {
        return say_bad_line(rt);
    };
    let nodes = registry.ids(rt.alloc())?;
    if let Some(ending) = first_of_another(rt, folder, &nodes)? {
        return Ok(ending);
    }
    let mut folder = Folder::open(rt, Some(folder), Access::Read)?;
    answer(
        rt,
        &question,
        &mut folder.shelf.pairs[usize::from(position)],
    )
}
