//! What the processes say to one another.
ghost use Rattle.std.specs.Prelude.{◌≡◌, [], ◌∷◌, ◌++◌, OnOk, OnErr};

use spl_agree::Round;
use spl_base::{Listing, Value};
use std::alloc::{AllocError, Global};
use std::marker::Model;

/// A process: its kind, and its number among those of its kind, from 1.
#[derive(Clone, Copy, PartialEq, Eq)]
pub struct Name {
    pub kind: u8,
    pub number: u8,
}

/// What an acceptor accepted of a member: the ballot, and whether the member is prepared.
#[derive(Clone, Copy, PartialEq, Eq)]
pub struct Pledge {
    pub member: u8,
    pub ballot: u64,
    pub prepared: bool,
}

impl Value for Pledge {
    fn same(&self, other: &Pledge) -> bool {
        self == other
    }

    fn copy(&self, _alloc: Global) -> Result<Pledge, AllocError> {
        Ok(*self)
    }
}

/// Pledges in the order of their members. Contracts see them as a list.
pub type PledgeList = Listing<Pledge>;

/// That an acceptor accepted this of a member.
#[derive(Clone, Copy, PartialEq, Eq)]
pub struct Acceptance {
    pub acceptor: u8,
    pub member: u8,
    pub ballot: u64,
    pub prepared: bool,
}

/// A message between two processes. Whoever hears it knows who sent it.
#[derive(Drop)]
pub enum PaxosMsg {
    /// A leader asks an acceptor for the promise of a ballot.
    Ask {
        round: Round,
        ballot: u64,
    },
    /// An acceptor is to accept this of a member.
    Accept {
        round: Round,
        member: u8,
        ballot: u64,
        prepared: bool,
    },
    /// An acceptor has promised a ballot, and says what it has accepted.
    Promise {
        round: Round,
        ballot: u64,
        pairs: PledgeList,
    },
    /// An acceptor has promised a higher ballot than the one it was asked for.
    Higher {
        round: Round,
        ballot: u64,
    },
    /// An acceptor has accepted this of a member.
    Accepted {
        round: Round,
        member: u8,
        ballot: u64,
        prepared: bool,
    },
}

impl PaxosMsg {
    ghost use Rattle.std.specs.Prelude.{◌≡◌, IfOk};

    /// An equal message. The only error is that memory ran out.
    pub fn copy(&self, alloc: Global) -> Result<PaxosMsg, AllocError>
        ensures { IfOk result (λ m. m ≡ self.now) }
    {
        match self {
            PaxosMsg::Ask { round, ballot } => Ok(PaxosMsg::Ask {
                round: *round,
                ballot: *ballot,
            }),
            PaxosMsg::Accept {
                round,
                member,
                ballot,
                prepared,
            } => Ok(PaxosMsg::Accept {
                round: *round,
                member: *member,
                ballot: *ballot,
                prepared: *prepared,
            }),
            PaxosMsg::Promise {
                round,
                ballot,
                pairs,
            } => Ok(PaxosMsg::Promise {
                round: *round,
                ballot: *ballot,
                pairs: pairs.copy(alloc)?,
            }),
            PaxosMsg::Higher { round, ballot } => Ok(PaxosMsg::Higher {
                round: *round,
                ballot: *ballot,
            }),
            PaxosMsg::Accepted {
                round,
                member,
                ballot,
                prepared,
            } => Ok(PaxosMsg::Accepted {
                round: *round,
                member: *member,
                ballot: *ballot,
                prepared: *prepared,
            }),
        }
    }
}

/// Messages in the order in which they are sent, each with the process that it goes to. Contracts see them as a list of pairs.
#[derive(Drop)]
pub struct PaxosSends {
    items: Vec<(Name, PaxosMsg)>,
}

impl Model for PaxosSends {
    ghost use Rattle.std.specs.Prelude.{List};
    ghost use Rattle.spl_acceptor.specs.declared.message.{Name.Name, PaxosMsg.PaxosMsg};

    ghost Value = { List (Name × PaxosMsg) };

    ghost view = { λ s. s.items.items };
}

impl PaxosSends {
    /// No messages; nothing is allocated.
    pub fn new(alloc: Global) -> Self
        ensures { result ≡ [] }
    {
        PaxosSends {
            items: Vec::new(alloc),
        }
    }

    /// Takes memory for so many messages more. There are none more yet, also where there is no memory.
    pub fn make_room(&mut self, more: u8) -> Result<(), AllocError>
        ensures { self.new ≡ self.old }
    {
        self.items.try_reserve(usize::from(more))?;
        Ok(())
    }

    /// One message more, at the end. When memory runs out the list is as it was.
    pub fn push(&mut self, to: Name, message: PaxosMsg) -> Result<(), AllocError>
        ensures ok { OnOk result (self.new ≡ self.old ++ (to, message) ∷ []) }
        ensures err { OnErr result (self.new ≡ self.old) }
    {
        self.items.push((to, message))?;
        Ok(())
    }

    /// The messages, in order.
    pub fn as_slice(&self) -> &[(Name, PaxosMsg)]
        ensures { result.now ≡ self.now }
    {
        self.items.as_slice()
    }

    /// The messages, in order.
    pub fn into_vec(self) -> Vec<(Name, PaxosMsg)>
        ensures { result.items ≡ self }
    {
        let PaxosSends { items } = self;
        items
    }
}
