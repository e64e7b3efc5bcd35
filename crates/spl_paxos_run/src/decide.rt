//! The members of Paxos Commit decide alike. The function's contract is a law, and its body does nothing.
ghost use Rattle.std.specs.Prelude.{ℕ, List};
ghost use Rattle.spl_acceptor.specs.declared.group.Group.{Group};
ghost use Rattle.spl_paxos.specs.declared.line.PaxosLine.{PaxosLine};
ghost use Rattle.spl_paxos_run.specs.Paxos.{RoundsDecide};

use spl_paxos_safety::{leaders_settle, rounds_agree};

/// Whatever lines a schedule of Paxos Commit has, no two members decide a round differently, no decision changes, and two turns
/// of a leader settle a round where the lines before are within the limits.
pub fn rounds_decide()
    ensures { (g : Group) (ls : List (ℕ × PaxosLine)) → RoundsDecide g ls }
{
    rounds_agree();
    leaders_settle();
}
