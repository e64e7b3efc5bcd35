//! Lists, side by side.
ghost use Rattle.std.specs.Prelude.{◌≡◌, ◌↔◌, true};
ghost use Rattle.spl_audit.specs.{Clashes.ShareMember, Searching.IsFirstDifference};

use spl_base::Value;
use spl_circuit::Definition;

/// The first place at which two lists have different values, if there is one.
pub(crate) fn first_difference<T: Value>(ours: &[T], theirs: &[T]) -> Option<usize>
    ensures { IsFirstDifference ours.now theirs.now result }
{
    let both = ours.len().min(theirs.len());
    'places: for place in 0..both {
        if !ours[place].same(&theirs[place]) {
            return Some(place);
        }
    }
    None
}

/// Whether two definitions have a member in common.
pub(crate) fn share_member(one: &Definition, other: &Definition) -> bool
    ensures { (result ≡ true) ↔ ShareMember one.now other.now }
{
    'members: for member in one.members.as_slice() {
        if other.is_member(member) {
            return true;
        }
    }
    false
}
