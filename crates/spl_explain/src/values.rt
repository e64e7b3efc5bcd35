//! What values of answers say.

/// A value of a field, and what it says.
#[derive(Clone, Copy)]
pub struct Value {
    /// What the field is about: its name, or of what a group did `note`.
    pub(crate) about: &'static [u8],
    pub(crate) text: &'static [u8],
    /// What it says.
    pub(crate) words: &'static [u8],
}

// The values that have words (docs/RULES.md).
static VALUES: [Value; 64] = [
    Value {
        about: b"number",
        text: b"1",
        words: b"the node is down",
    },
    Value {
        about: b"number",
        text: b"2",
        words: b"the node has no such circuit",
    },
    Value {
        about: b"number",
        text: b"3",
        words: b"the definition breaks the rule of this number",
    },
    Value {
        about: b"number",
        text: b"4",
        words: b"the proposing node isn't a member",
    },
    Value {
        about: b"number",
        text: b"5",
        words: b"the generation has to be above this one",
    },
    Value {
        about: b"number",
        text: b"6",
        words: b"the node has the circuit already",
    },
    Value {
        about: b"number",
        text: b"7",
        words: b"an act of this node is pending",
    },
    Value {
        about: b"number",
        text: b"8",
        words: b"nothing is proposed",
    },
    Value {
        about: b"number",
        text: b"9",
        words: b"this node has accepted already",
    },
    Value {
        about: b"number",
        text: b"10",
        words: b"this node didn't propose it",
    },
    Value {
        about: b"number",
        text: b"11",
        words: b"the circuit doesn't run here, or for disband isn't active",
    },
    Value {
        about: b"number",
        text: b"12",
        words: b"the node has abandoned the circuit",
    },
    Value {
        about: b"number",
        text: b"13",
        words: b"the batch breaks the rule of this number",
    },
    Value {
        about: b"number",
        text: b"14",
        words: b"another batch has this id",
    },
    Value {
        about: b"number",
        text: b"15",
        words: b"64 batches are pending here",
    },
    Value {
        about: b"number",
        text: b"16",
        words: b"the circuit can't be purged yet",
    },
    Value {
        about: b"number",
        text: b"17",
        words: b"no such message was sent",
    },
    Value {
        about: b"number",
        text: b"18",
        words: b"the message isn't routed, by the test of this number",
    },
    Value {
        about: b"number",
        text: b"19",
        words: b"the batch is nowhere here",
    },
    Value {
        about: b"number",
        text: b"20",
        words: b"a circuit of version 1 can't be disbanded",
    },
    Value {
        about: b"number",
        text: b"21",
        words: b"the name is taken",
    },
    Value {
        about: b"number",
        text: b"22",
        words: b"the node has only so many batches",
    },
    Value {
        about: b"number",
        text: b"23",
        words: b"there is no such watcher",
    },
    Value {
        about: b"number",
        text: b"24",
        words: b"the node has another circuit of this id",
    },
    Value {
        about: b"number",
        text: b"25",
        words: b"the circuit has 16 watchers",
    },
    Value {
        about: b"number",
        text: b"26",
        words: b"the bytes aren't a proof, from this place on",
    },
    Value {
        about: b"reason",
        text: b"1",
        words: b"its node isn't a member",
    },
    Value {
        about: b"reason",
        text: b"2",
        words: b"the lifecycle doesn't admit it now",
    },
    Value {
        about: b"reason",
        text: b"3",
        words: b"the member has accepted already",
    },
    Value {
        about: b"reason",
        text: b"4",
        words: b"only the node that proposed it may do this",
    },
    Value {
        about: b"reason",
        text: b"5",
        words: b"another definition is proposed",
    },
    Value {
        about: b"reason",
        text: b"6",
        words: b"a member can't take the circuit",
    },
    Value {
        about: b"reason",
        text: b"7",
        words: b"a member voted no",
    },
    Value {
        about: b"reason",
        text: b"8",
        words: b"another batch with this id is committed",
    },
    Value {
        about: b"reason",
        text: b"9",
        words: b"a transaction writes outside its outputs",
    },
    Value {
        about: b"reason",
        text: b"10",
        words: b"a transaction reads outside its inputs",
    },
    Value {
        about: b"reason",
        text: b"11",
        words: b"the command invalid ran",
    },
    Value {
        about: b"reason",
        text: b"12",
        words: b"the command error ran",
    },
    Value {
        about: b"reason",
        text: b"13",
        words: b"a rule of batches is broken",
    },
    Value {
        about: b"reason",
        text: b"14",
        words: b"the circuit's version is 1",
    },
    Value {
        about: b"lifecycle",
        text: b"none",
        words: b"none: nothing is proposed here",
    },
    Value {
        about: b"lifecycle",
        text: b"proposed",
        words: b"proposed: the members behind accepted have accepted it",
    },
    Value {
        about: b"lifecycle",
        text: b"active",
        words: b"active: it runs",
    },
    Value {
        about: b"lifecycle",
        text: b"rejected",
        words: b"rejected: a member said no",
    },
    Value {
        about: b"lifecycle",
        text: b"removed",
        words: b"removed: who proposed it took it back",
    },
    Value {
        about: b"lifecycle",
        text: b"disbanding",
        words: b"disbanding: its end is proposed, and the members behind accepted have accepted that",
    },
    Value {
        about: b"lifecycle",
        text: b"disbanded",
        words: b"disbanded: it has ended",
    },
    Value {
        about: b"mark",
        text: b"abandoned",
        words: b"abandoned: this node takes no part in it any more",
    },
    Value {
        about: b"status",
        text: b"committed",
        words: b"committed",
    },
    Value {
        about: b"status",
        text: b"pending",
        words: b"pending: not decided yet",
    },
    Value {
        about: b"status",
        text: b"refused",
        words: b"refused",
    },
    Value {
        about: b"outcome",
        text: b"kept",
        words: b"kept: its record is on the disks",
    },
    Value {
        about: b"outcome",
        text: b"lost",
        words: b"lost: its record isn't on the disks",
    },
    Value {
        about: b"outcome",
        text: b"none",
        words: b"none: it had no such call",
    },
    Value {
        about: b"list",
        text: b"definitions",
        words: b"they are bound to different definitions",
    },
    Value {
        about: b"list",
        text: b"acts",
        words: b"of acts",
    },
    Value {
        about: b"list",
        text: b"batches",
        words: b"of batches",
    },
    Value {
        about: b"note",
        text: b"idle",
        words: b"idle: there is nothing to do",
    },
    Value {
        about: b"note",
        text: b"asked",
        words: b"asked: asks again for the votes, or for the decision, of this round",
    },
    Value {
        about: b"note",
        text: b"refused",
        words: b"refused: with this reason",
    },
    Value {
        about: b"note",
        text: b"begun",
        words: b"begun: begins this round, and asks for votes",
    },
    Value {
        about: b"note",
        text: b"forwarded",
        words: b"forwarded: the value goes to the coordinator",
    },
    Value {
        about: b"note",
        text: b"expired",
        words: b"expired: gives up this round; the value stays pending",
    },
    Value {
        about: b"note",
        text: b"-",
        words: b"-: the group doesn't run here",
    },
];

// Those of rounds of Paxos Commit.
static ROUND_VALUES: [Value; 3] = [
    Value {
        about: b"number",
        text: b"1",
        words: b"the process is down",
    },
    Value {
        about: b"number",
        text: b"2",
        words: b"the member has voted in this round",
    },
    Value {
        about: b"number",
        text: b"3",
        words: b"no such message was sent",
    },
];

/// The values that have words (docs/RULES.md).
pub fn all_values() -> &'static [Value] {
    &VALUES
}

/// Those of rounds of Paxos Commit.
pub fn all_round_values() -> &'static [Value] {
    &ROUND_VALUES
}
