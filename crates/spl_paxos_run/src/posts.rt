//! The messages of a run.
ghost use Rattle.std.specs.Prelude.{◌≡◌, ◌++◌, ◌∷◌, [], ℕ, List, OnOk, MatchOption, None, Some};
ghost use Rattle.spl_acceptor.specs.{Records.IsChangedAt, Worlds.{SentPaxosMessage, paxos_posted, message_numbered}};
ghost use Rattle.spl_paxos_run.specs.Posts.{IsName, pair_key, posts_at, HoldsSent};

use spl_acceptor::{Name, PaxosMsg, PaxosSends};
use std::alloc::{AllocError, Global};
use std::collections::BTreeMap;

/// All messages that were ever sent in a run, by the number of their pair. A look-up takes time by the logarithm of the
/// number of pairs.
#[derive(Drop)]
pub struct Posts {
    pairs: BTreeMap<u64, Vec<PaxosMsg>>,
}

/// The number of a pair of processes.
fn pair_key(from: Name, to: Name) -> u64
    ensures key { result ≡ pair_key from to }
    ensures names { IsName from × IsName to }
{
    let first = u64::from(from.kind) * 256 + u64::from(from.number);
    (first * 256 + u64::from(to.kind)) * 256 + u64::from(to.number)
}

impl Posts {
    /// Nothing was sent yet; nothing is allocated.
    pub fn new(alloc: Global) -> Posts
        ensures { HoldsSent result [] }
    {
        Posts {
            pairs: BTreeMap::new(alloc),
        }
    }

    fn push(&mut self, alloc: Global, pair: u64, message: PaxosMsg) -> Result<(), AllocError>
        ensures { OnOk result (IsChangedAt (posts_at self.old) pair (λ ms. ms ++ message ∷ []) (posts_at self.new)) }
    {
        if let Some(sent) = self.pairs.get_mut(&pair) {
            sent.push(message)?;
            return Ok(());
        }
        let mut sent = Vec::new(alloc);
        sent.push(message)?;
        self.pairs.insert(pair, sent)?;
        Ok(())
    }

    fn post_one(
        &mut self,
        alloc: Global,
        from: Name,
        to: Name,
        message: PaxosMsg,
    ) -> Result<(), AllocError>
        ensures { OnOk result ((ss : List SentPaxosMessage) → HoldsSent self.old ss
            → HoldsSent self.new (ss ++ record { from = from; to = to; message = message } ∷ [])) }
    {
        self.push(alloc, pair_key(from, to), message)
    }

    /// Sends these messages of a process, in order. The only error is that memory ran out; some of them may then be
    /// sent.
    pub fn post(&mut self, alloc: Global, from: Name, sends: PaxosSends) -> Result<(), AllocError>
        ensures { OnOk result ((ss : List SentPaxosMessage) → HoldsSent self.old ss → HoldsSent self.new (ss ++ paxos_posted from sends)) }
    {
        for (to, message) in sends.into_vec() {
            self.post_one(alloc, from, to, message)?;
        }
        Ok(())
    }

    /// The message of this number, from 1, that was sent on a pair; None exactly where fewer were sent.
    pub fn message(&self, from: Name, to: Name, number: u32) -> Option<&PaxosMsg>
        ensures message { MatchOption result (message_numbered (posts_at self.now (pair_key from to)) number ≡ None)
            (λ m. message_numbered (posts_at self.now (pair_key from to)) number ≡ Some m.now) }
        ensures names { IsName from × IsName to }
    {
        if number == 0 {
            return None;
        }
        match self.pairs.get(&pair_key(from, to)) {
            None => None,
            Some(sent) => sent.get(number as usize - 1),
        }
    }
}
