//! One message to each process of a kind.
ghost use Rattle.std.specs.Prelude.{◌≡◌, ◌++◌, OnOk};
ghost use Rattle.spl_acceptor.specs.{Quorums.numbers, Rows.{named, to_each_process}};

use crate::{Name, PaxosMsg, PaxosSends};
use std::alloc::{AllocError, Global};

/// The messages to the processes with the numbers from 1 to `count`, in their order.
fn push_up_to(
    alloc: Global,
    sends: &mut PaxosSends,
    kind: u8,
    count: u8,
    message: &PaxosMsg,
) -> Result<(), AllocError>
    ensures { OnOk result (sends.new ≡ sends.old ++ to_each_process (named kind) message.now (numbers count)) }
{
    if count == 0 {
        return Ok(());
    }
    push_up_to(alloc, sends, kind, count - 1, message)?;
    let to = Name {
        kind,
        number: count,
    };
    sends.push(to, message.copy(alloc)?)
}

/// Sends a message to each process of a kind with a number from 1 to `count`, in their order. An error comes for want of
/// memory alone; some of them may then stand among the messages.
pub fn push_each(
    alloc: Global,
    sends: &mut PaxosSends,
    kind: u8,
    count: u8,
    message: &PaxosMsg,
) -> Result<(), AllocError>
    ensures { OnOk result (sends.new ≡ sends.old ++ to_each_process (named kind) message.now (numbers count)) }
{
    sends.make_room(count)?;
    push_up_to(alloc, sends, kind, count, message)
}
