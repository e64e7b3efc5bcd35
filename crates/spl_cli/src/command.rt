//! The words of a command line.
ghost use Rattle.std.specs.Prelude.{◌≡◌, ◌<◌, ◌^◌, ◌↔◌, ℕ, Some, IfSome, IsTrue, decimal, map, string_bytes};
ghost use Rattle.spl_acceptor.specs.declared.group.Group.{Group};
ghost use Rattle.spl_cli.specs.Command.{Asks, HasThree, HasTwo, IsGen, IsNameAlone, IsPaxos};

use itoa::Buffer;
use spl_acceptor::Group;
use spl_gen::MOST_BATCHES;

/// What a command line asks for.
#[derive(Clone, Copy, PartialEq, Eq)]
pub enum Command {
    /// To run a schedule in memory.
    Replay,
    /// The same, but to write the trace of each line in place of its answer.
    Trace,
    /// To run a schedule over links and files.
    Links,
    /// The same, but to begin with what a former run left in the files.
    Resume,
    /// To compare what the files of a former run hold.
    Audit,
    /// To run the schedule of so many batches that is made from this seed.
    Gen { batches: u16, seed: u64 },
    /// To run a schedule of Paxos Commit over the processes of such a run.
    Paxos(Group),
}

// The number that a word spells in decimal digits, where it has 64 bits. The first digit is 0 only
// where it is alone.
fn read_number(word: &str) -> Option<u64>
    ensures spelled { IfSome result (λ n. word.now ≡ decimal n) }
    ensures all { (n : ℕ) → n < 2 ^ 64 → word.now ≡ decimal n → result ≡ Some n }
{
    match word.parse::<u64>() {
        Ok(n) if Buffer::new().format(n) == word => Some(n),
        _ => None,
    }
}

// How many batches and which seed the words `gen N SEED` name.
fn read_gen(words: &[String]) -> Option<(u16, u64)>
    ensures spelled { IfSome result (λ found. IsGen (map string_bytes words.now) found.0 found.1) }
    ensures all { (n seed : ℕ) → IsGen (map string_bytes words.now) n seed → result ≡ Some (n, seed) }
{
    match words {
        [first, batches, seed] if first.as_str() == "gen" => {
            let batches = read_number(batches.as_str())?;
            let seed = read_number(seed.as_str())?;
            if 1 <= batches && batches <= u64::from(MOST_BATCHES) {
                Some((batches as u16, seed))
            } else {
                None
            }
        }
        _ => None,
    }
}

// How many members and faults the words `paxos MEMBERS F SCHEDULE` name.
fn read_paxos(words: &[String]) -> Option<Group>
    ensures spelled { IfSome result (λ g. IsPaxos (map string_bytes words.now) g) }
    ensures all { (g : Group) → IsPaxos (map string_bytes words.now) g → result ≡ Some g }
{
    match words {
        [first, members, faults, _] if first.as_str() == "paxos" => {
            let members = read_number(members.as_str())?;
            let faults = read_number(faults.as_str())?;
            if 2 <= members && members <= 8 && faults <= 2 {
                Some(Group {
                    members: members as u8,
                    faults: faults as u8,
                })
            } else {
                None
            }
        }
        _ => None,
    }
}

// Whether the words are this one and two more.
fn has_two(words: &[String], name: &str) -> bool
    ensures { IsTrue result ↔ HasTwo name.now (map string_bytes words.now) }
{
    match words {
        [first, _, _] => first.as_str() == name,
        _ => false,
    }
}

// Whether the words are this one and three more.
fn has_three(words: &[String], name: &str) -> bool
    ensures { IsTrue result ↔ HasThree name.now (map string_bytes words.now) }
{
    match words {
        [first, _, _, _] => first.as_str() == name,
        _ => false,
    }
}

// The command that one word names, whatever the others are.
fn named(words: &[String]) -> Option<Command>
    ensures asked { IfSome result (λ m. Asks (map string_bytes words.now) m) }
    ensures named { IfSome result IsNameAlone }
    ensures all { (m : Command) → Asks (map string_bytes words.now) m → IsNameAlone m → result ≡ Some m }
{
    if has_two(words, "replay") {
        return Some(Command::Replay);
    }
    if has_two(words, "trace") {
        return Some(Command::Trace);
    }
    if has_two(words, "audit") {
        return Some(Command::Audit);
    }
    if has_three(words, "links") {
        return Some(Command::Links);
    }
    if has_three(words, "resume") {
        return Some(Command::Resume);
    }
    None
}

/// What the words ask for, where they are a command.
pub fn command_of(words: &[String]) -> Option<Command>
    ensures asked { IfSome result (λ m. Asks (map string_bytes words.now) m) }
    ensures all { (m : Command) → Asks (map string_bytes words.now) m → result ≡ Some m }
{
    if let Some(command) = named(words) {
        return Some(command);
    }
    if let Some((batches, seed)) = read_gen(words) {
        return Some(Command::Gen { batches, seed });
    }
    match read_paxos(words) {
        Some(group) => Some(Command::Paxos(group)),
        None => None,
    }
}
