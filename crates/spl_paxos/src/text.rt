//! The text of an answer.
ghost use Rattle.std.specs.Prelude.{◌≡◌, ◌++◌, OnOk, decimal};
ghost use Rattle.spl_paxos.specs.Texts.{paxos_note_text, paxos_answer_text};

use spl_acceptor::{PaxosAnswer, PaxosNote, PaxosRefusal};
use std::alloc::AllocError;

fn append(bytes: &[u8], out: &mut Vec<u8>) -> Result<(), AllocError>
    ensures { OnOk result (out.new.items ≡ out.old.items ++ bytes.now) }
{
    out.extend_from_slice(bytes)
}

/// Appends the number in decimal digits.
#[tactic(auto, using(std::proofs::lemmas::Fmt::decimal_digit))]
fn append_number(n: u64, out: &mut Vec<u8>) -> Result<(), AllocError>
    ensures { OnOk result (out.new.items ≡ out.old.items ++ decimal n) }
{
    if n < 10 {
        return append(&[b'0' + n as u8], out);
    }
    append_number(n / 10, out)?;
    append(&[b'0' + (n % 10) as u8], out)
}

fn append_ballot(name: &[u8], ballot: u64, out: &mut Vec<u8>) -> Result<(), AllocError>
    ensures { OnOk result (out.new.items ≡ out.old.items ++ (name.now ++ decimal ballot)) }
{
    append(name, out)?;
    append_number(ballot, out)
}

fn append_note(note: PaxosNote, out: &mut Vec<u8>) -> Result<(), AllocError>
    ensures { OnOk result (out.new.items ≡ out.old.items ++ paxos_note_text note) }
{
    match note {
        PaxosNote::Voted => append(b"voted", out),
        PaxosNote::Spent => append(b"spent", out),
        PaxosNote::Ballot(ballot) => append_ballot(b"ballot ", ballot, out),
        PaxosNote::Promised(ballot) => append_ballot(b"promised ", ballot, out),
        PaxosNote::Higher(ballot) => append_ballot(b"higher ", ballot, out),
        PaxosNote::Accepted => append(b"accepted", out),
        PaxosNote::Counted => append(b"counted", out),
        PaxosNote::Sent(ballot) => append_ballot(b"sent ", ballot, out),
        PaxosNote::Noted(ballot) => append_ballot(b"noted ", ballot, out),
        PaxosNote::Abort => append(b"abort", out),
        PaxosNote::Commit => append(b"commit", out),
        PaxosNote::Ignored => append(b"ignored", out),
    }
}

/// Appends the text of an answer. The only error is that memory ran out; part of the text may then be there.
pub fn append_answer(answer: PaxosAnswer, out: &mut Vec<u8>) -> Result<(), AllocError>
    ensures { OnOk result (out.new.items ≡ out.old.items ++ paxos_answer_text answer) }
{
    match answer {
        PaxosAnswer::Told(note) => {
            append(b"ok ", out)?;
            append_note(note, out)
        }
        PaxosAnswer::Undecided => append(b"ok undecided", out),
        PaxosAnswer::Decided(true) => append(b"ok commit", out),
        PaxosAnswer::Decided(false) => append(b"ok abort", out),
        PaxosAnswer::IsDown => append(b"ok down", out),
        PaxosAnswer::IsUp => append(b"ok up", out),
        PaxosAnswer::Refused(PaxosRefusal::Down) => append(b"refused 1", out),
        PaxosAnswer::Refused(PaxosRefusal::Voted) => append(b"refused 2", out),
        PaxosAnswer::Refused(PaxosRefusal::NoMessage) => append(b"refused 3", out),
    }
}
