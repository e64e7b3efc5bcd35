//! What a coordinator reports of a round.
ghost use Rattle.std.specs.{Prelude.{◌≡◌, ◌==◌}, List.list_any};
ghost use Rattle.spl_agree.specs.Member.{decision_by};
ghost use Rattle.spl_coord.specs.Votes.{is_the_open};

use spl_agree::Round;

/// The decision of a round, where it is known: commit where the round is among those of the
/// history, abort where it was begun and is not open.
pub fn decision_of(
    rounds: &[Round],
    next: Round,
    opened: Option<Round>,
    round: Round,
) -> Option<bool>
    ensures { result ≡ decision_by (list_any (λ r. r == round) rounds.now) next (is_the_open round opened) round }
{
    if rounds.contains(&round) {
        return Some(true);
    }
    if round.0 >= next.0 || opened == Some(round) {
        return None;
    }
    Some(false)
}
