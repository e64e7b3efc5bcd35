//! What a line does at its process.
ghost use Rattle.std.specs.Prelude.{◌≡◌, []};

use spl_acceptor::{PaxosAnswer, PaxosSends, Stepped};
use std::alloc::Global;

/// What a line gives at its process: the answer to it, and the messages that it sends, in order.
#[derive(Drop)]
pub struct SeatStep {
    pub answer: PaxosAnswer,
    pub sends: PaxosSends,
}

impl SeatStep {
    /// Of a step that a process made.
    pub(crate) fn of(stepped: Stepped) -> SeatStep
        ensures answer { result.answer ≡ PaxosAnswer.Told stepped.note }
        ensures sends { result.sends ≡ stepped.sends }
    {
        let Stepped { note, sends } = stepped;
        SeatStep {
            answer: PaxosAnswer::Told(note),
            sends,
        }
    }

    /// Of a line that sends nothing.
    pub(crate) fn silent(alloc: Global, answer: PaxosAnswer) -> SeatStep
        ensures answer { result.answer ≡ answer }
        ensures sends { result.sends ≡ [] }
    {
        SeatStep {
            answer,
            sends: PaxosSends::new(alloc),
        }
    }
}
