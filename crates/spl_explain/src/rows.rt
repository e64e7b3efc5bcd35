//! The forms of answers, and what answers of a form say.
use std::alloc::{AllocError, Global};

/// Answers of one form.
#[derive(Clone, Copy)]
pub struct Row {
    /// Words with one space between: each stands for itself, or is a field, whose first byte is a mark, and its name behind it. A
    /// field stands for one word: `#` a number, `$` a text, `,` a list of texts, `{` an object, `!` what a group did; or for all
    /// words that are left: `*` texts, `+` numbers.
    pub(crate) form: &'static [u8],
    /// What such an answer is called.
    pub(crate) name: &'static [u8],
    /// What it says.
    pub(crate) words: &'static [u8],
}

// Of circuits and what they hold.
static CIRCUITS: [Row; 11] = [
    Row {
        form: b"refused #number",
        name: b"refused",
        words: b"refused",
    },
    Row {
        form: b"refused #number #detail",
        name: b"refused",
        words: b"refused",
    },
    Row {
        form: b"ok queued",
        name: b"queued",
        words: b"kept, and decided later: status or show tell the outcome",
    },
    Row {
        form: b"ok known",
        name: b"known",
        words: b"this batch is known already, with this content",
    },
    Row {
        form: b"ok abandoned",
        name: b"abandoned",
        words: b"this node takes no part in the circuit any more",
    },
    Row {
        form: b"ok purged",
        name: b"purged",
        words: b"this node has forgotten the circuit",
    },
    Row {
        form: b"ok circuit generation #generation lifecycle $lifecycle mark $mark accepted ,accepted acts #acts #acts_pending batches #batches #batches_pending",
        name: b"circuit",
        words: b"behind acts and batches: how many are committed here, and how many are pending",
    },
    Row {
        form: b"ok detail {circuit",
        name: b"detail",
        words: b"what the circuit is, and how it stands here",
    },
    Row {
        form: b"ok root #batches $root",
        name: b"root",
        words: b"how many batches are committed here, and the root of the state that they left",
    },
    Row {
        form: b"ok history #count +batches",
        name: b"history",
        words: b"how many batches are committed here, and their ids in order",
    },
    Row {
        form: b"ok value $value",
        name: b"value",
        words: b"what the address has, two digits a byte",
    },
];

// Of batches and proofs.
static BATCHES: [Row; 12] = [
    Row {
        form: b"ok none",
        name: b"none",
        words: b"the address has no value",
    },
    Row {
        form: b"ok proof $root $proof",
        name: b"proof",
        words: b"the root, and a proof under it of what the address has, for check",
    },
    Row {
        form: b"ok yes",
        name: b"yes",
        words: b"the proof is accepted",
    },
    Row {
        form: b"ok no",
        name: b"no",
        words: b"the proof isn't accepted",
    },
    Row {
        form: b"yes",
        name: b"yes",
        words: b"the proof is accepted",
    },
    Row {
        form: b"no",
        name: b"no",
        words: b"the proof isn't accepted",
    },
    Row {
        form: b"ok entries #count *entries",
        name: b"entries",
        words: b"how many addresses have a value there, and each with its own",
    },
    Row {
        form: b"ok status $status",
        name: b"status",
        words: b"of the batch",
    },
    Row {
        form: b"ok status $status #place",
        name: b"status",
        words: b"of the batch; behind it its place in the circuit's list, from 0 on",
    },
    Row {
        form: b"ok status $status #reason #transaction",
        name: b"status",
        words: b"of the batch; behind it the reason, and the transaction at fault, from 1 on, 0 for none",
    },
    Row {
        form: b"ok receipt {receipt",
        name: b"receipt",
        words: b"what the transactions of the batch did",
    },
    Row {
        form: b"ok routed",
        name: b"routed",
        words: b"such a message would be handed on",
    },
];

// Of nodes and watchers.
static NODES: [Row; 8] = [
    Row {
        form: b"ok calm #passes",
        name: b"calm",
        words: b"so many passes of ticks and deliveries",
    },
    Row {
        form: b"ok down",
        name: b"down",
        words: b"it is stopped",
    },
    Row {
        form: b"ok up",
        name: b"up",
        words: b"it runs",
    },
    Row {
        form: b"ok roll #count *circuits",
        name: b"roll",
        words: b"how many circuits the node has, and their ids",
    },
    Row {
        form: b"ok watching #place",
        name: b"watching",
        words: b"the watcher takes what the batches change from this place on",
    },
    Row {
        form: b"ok delta #count *deltas",
        name: b"delta",
        words: b"how many batches the watcher took, and of each its place, its id and what it changed",
    },
    Row {
        form: b"ok peers *peers",
        name: b"peers",
        words: b"of each other node: whether it is there and for how many seconds, then messages and bytes",
    },
    Row {
        form: b"ok waits *waits",
        name: b"waits",
        words: b"what waits, and for which member",
    },
];

// Of ticks and deliveries.
static NOTES: [Row; 11] = [
    Row {
        form: b"ok idle",
        name: b"idle",
        words: b"there is nothing to do",
    },
    Row {
        form: b"ok asked #round",
        name: b"asked",
        words: b"asks again for the votes, or for the decision, of this round",
    },
    Row {
        form: b"ok refused #reason #transaction",
        name: b"refused",
        words: b"the value is refused",
    },
    Row {
        form: b"ok begun #round",
        name: b"begun",
        words: b"begins this round, and asks for votes",
    },
    Row {
        form: b"ok forwarded",
        name: b"forwarded",
        words: b"the value goes to the coordinator",
    },
    Row {
        form: b"ok expired #round",
        name: b"expired",
        words: b"gives up this round; the value stays pending",
    },
    Row {
        form: b"ok declined #round",
        name: b"declined",
        words: b"votes no in this round",
    },
    Row {
        form: b"ok again #round",
        name: b"again",
        words: b"votes yes again in this round",
    },
    Row {
        form: b"ok ignored",
        name: b"ignored",
        words: b"it changes nothing",
    },
    Row {
        form: b"ok promised #round",
        name: b"promised",
        words: b"votes yes in this round, and keeps that as a promise; in Paxos Commit, hears no lower ballot than this",
    },
    Row {
        form: b"ok counted #round",
        name: b"counted",
        words: b"counts a vote of this round; others are missing",
    },
];

// More of them.
static MORE_NOTES: [Row; 5] = [
    Row {
        form: b"ok committed #round",
        name: b"committed",
        words: b"the value of this round is committed here",
    },
    Row {
        form: b"ok aborted #round",
        name: b"aborted",
        words: b"the value of this round isn't committed",
    },
    Row {
        form: b"ok told #round $decision",
        name: b"told",
        words: b"tells the decision of this round",
    },
    Row {
        form: b"ok returned #reason #transaction",
        name: b"returned",
        words: b"the value goes back to who sent it",
    },
    Row {
        form: b"ok -",
        name: b"-",
        words: b"the group doesn't run here",
    },
];

// Of ticks at both groups.
static TURNS: [Row; 9] = [
    Row {
        form: b"ok !admin / !service",
        name: b"notes",
        words: b"what the two groups did, that of acts first",
    },
    Row {
        form: b"ok !admin #admin_number / !service",
        name: b"notes",
        words: b"what the two groups did, that of acts first",
    },
    Row {
        form: b"ok !admin #admin_number #admin_detail / !service",
        name: b"notes",
        words: b"what the two groups did, that of acts first",
    },
    Row {
        form: b"ok !admin / !service #service_number",
        name: b"notes",
        words: b"what the two groups did, that of acts first",
    },
    Row {
        form: b"ok !admin #admin_number / !service #service_number",
        name: b"notes",
        words: b"what the two groups did, that of acts first",
    },
    Row {
        form: b"ok !admin #admin_number #admin_detail / !service #service_number",
        name: b"notes",
        words: b"what the two groups did, that of acts first",
    },
    Row {
        form: b"ok !admin / !service #service_number #service_detail",
        name: b"notes",
        words: b"what the two groups did, that of acts first",
    },
    Row {
        form: b"ok !admin #admin_number / !service #service_number #service_detail",
        name: b"notes",
        words: b"what the two groups did, that of acts first",
    },
    Row {
        form: b"ok !admin #admin_number #admin_detail / !service #service_number #service_detail",
        name: b"notes",
        words: b"what the two groups did, that of acts first",
    },
];

// Of stops in an event, of Paxos Commit and of audits.
static OTHERS: [Row; 17] = [
    Row {
        form: b"cut $outcome",
        name: b"cut",
        words: b"whether the node kept what the line did",
    },
    Row {
        form: b"fault $outcome",
        name: b"fault",
        words: b"whether the node kept what the line did",
    },
    Row {
        form: b"ok voted",
        name: b"voted",
        words: b"the vote is kept",
    },
    Row {
        form: b"ok spent",
        name: b"spent",
        words: b"the leader has no higher ballot left",
    },
    Row {
        form: b"ok ballot #ballot",
        name: b"ballot",
        words: b"the leader opens this ballot",
    },
    Row {
        form: b"ok higher #ballot",
        name: b"higher",
        words: b"the acceptor has promised this ballot, which is higher",
    },
    Row {
        form: b"ok accepted",
        name: b"accepted",
        words: b"the acceptor accepts it",
    },
    Row {
        form: b"ok counted",
        name: b"counted",
        words: b"it is counted; others are missing",
    },
    Row {
        form: b"ok sent #ballot",
        name: b"sent",
        words: b"the leader orders what this ballot accepts",
    },
    Row {
        form: b"ok noted #ballot",
        name: b"noted",
        words: b"the leader notes that this ballot is used",
    },
    Row {
        form: b"ok undecided",
        name: b"undecided",
        words: b"the member doesn't know how the round ends",
    },
    Row {
        form: b"ok commit",
        name: b"commit",
        words: b"the round commits",
    },
    Row {
        form: b"ok abort",
        name: b"abort",
        words: b"the round aborts",
    },
    Row {
        form: b"bad line",
        name: b"bad line",
        words: b"the line isn't one that may stand here",
    },
    Row {
        form: b"agreed",
        name: b"agreed",
        words: b"no two nodes disagree",
    },
    Row {
        form: b"disagreed $circuit #generation $list $first $second #place",
        name: b"disagreed",
        words: b"these two nodes have something else at this place of the list",
    },
    Row {
        form: b"$circuit #generation acts #acts batches #batches",
        name: b"lists",
        words: b"how many acts and batches the nodes have committed",
    },
];

/// The answers that there are (docs/RULES.md). The first that fits tells.
pub fn all_rows(alloc: Global) -> Result<Vec<Row>, AllocError> {
    let mut rows = Vec::new(alloc);
    rows.extend_from_slice(&CIRCUITS)?;
    rows.extend_from_slice(&BATCHES)?;
    rows.extend_from_slice(&NODES)?;
    rows.extend_from_slice(&NOTES)?;
    rows.extend_from_slice(&MORE_NOTES)?;
    rows.extend_from_slice(&TURNS)?;
    rows.extend_from_slice(&OTHERS)?;
    Ok(rows)
}
