//! What two schedules are answered.
ghost use Rattle.std.specs.Prelude.{◌≡◌};
ghost use Rattle.spl_acceptor.specs.Worlds.{answers_to};
ghost use Rattle.spl_paxos_safety.specs.Examples.{two_members, commit_lines, commit_answers, three_acceptors, abort_lines, abort_answers};

/// A round that two members commit, and one that a leader aborts for a member whose other is silent.
pub fn schedules_are_answered()
    ensures commit { answers_to two_members commit_lines ≡ commit_answers }
    ensures abort { answers_to three_acceptors abort_lines ≡ abort_answers }
{}
