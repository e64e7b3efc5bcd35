//! The text of a note.
ghost use Rattle.std.specs.Prelude.{◌≡◌, ◌++◌, OnOk, decimal};
ghost use Rattle.spl_answer.specs.Texts.{reason_text, note_text};

use crate::part::{append, append_number};
use spl_agree::{Note, Reason, Round};
use std::alloc::AllocError;

pub(crate) fn append_reason(
    name: &[u8],
    reason: Reason,
    out: &mut Vec<u8>,
) -> Result<(), AllocError>
    ensures { OnOk result (out.new.items ≡ out.old.items ++ (name.now ++ reason_text reason)) }
{
    append(name, out)?;
    append_number(u64::from(reason.code), out)?;
    append(b" ", out)?;
    append_number(u64::from(reason.at), out)
}

fn append_round(name: &[u8], round: Round, out: &mut Vec<u8>) -> Result<(), AllocError>
    ensures { OnOk result (out.new.items ≡ out.old.items ++ (name.now ++ decimal round)) }
{
    append(name, out)?;
    append_number(round.0, out)
}

/// Appends the text of the note (docs/RULES.md, Messages).
pub(crate) fn append_note(note: Note, out: &mut Vec<u8>) -> Result<(), AllocError>
    ensures { OnOk result (out.new.items ≡ out.old.items ++ note_text note) }
{
    match note {
        Note::Idle => append(b"idle", out),
        Note::Asked(round) => append_round(b"asked ", round, out),
        Note::Refused(reason) => append_reason(b"refused ", reason, out),
        Note::Begun(round) => append_round(b"begun ", round, out),
        Note::Forwarded => append(b"forwarded", out),
        Note::Expired(round) => append_round(b"expired ", round, out),
        Note::Declined(round) => append_round(b"declined ", round, out),
        Note::Again(round) => append_round(b"again ", round, out),
        Note::Ignored => append(b"ignored", out),
        Note::Promised(round) => append_round(b"promised ", round, out),
        Note::Counted(round) => append_round(b"counted ", round, out),
        Note::Committed(round) => append_round(b"committed ", round, out),
        Note::Aborted(round) => append_round(b"aborted ", round, out),
        Note::Told(round, commit) => {
            append_round(b"told ", round, out)?;
            append(if commit { b" commit" } else { b" abort" }, out)
        }
        Note::Returned(reason) => append_reason(b"returned ", reason, out),
        Note::Queued => append(b"queued", out),
        Note::Off => append(b"-", out),
    }
}
