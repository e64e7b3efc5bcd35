//! One side of a handshake.
ghost use Rattle.std.specs.Prelude.{◌≡◌, ◌≤◌, Ok, Err, length, IfOk, IfErr};
ghost use Rattle.spl_link.specs.{Greetings.greeting, Heard.heard};

use crate::fault::LinkFault;
use crate::greeting::{name_in, write_greeting};
use spl_base::{NodeId, Piece};
use spl_registry::Registry;
use std::alloc::{AllocError, Global};
use std::marker::Model;

/// A side that doesn't know yet whom it is linked with.
#[derive(Clone, Copy, Drop, PartialEq, Eq)]
pub struct Opening {
    here: NodeId,
    peer: NodeId,
    opens: bool,
}

impl Model for Opening {
    ghost use Rattle.spl_link.specs.Sides.{Side};

    ghost Value = { Side };

    ghost view = { λ o. record { here = o.here; peer = o.peer; opens = o.opens } };

    ghost inverse = { λ s. record { here = s.here; peer = s.peer; opens = s.opens } };
}

/// A side whose peer named itself. Contracts see the peer's id.
#[derive(Clone, Copy, Drop, PartialEq, Eq)]
pub struct Named {
    peer: NodeId,
}

impl Model for Named {
    ghost use Rattle.std.specs.Prelude.{List, ℕ};

    ghost Value = { List ℕ };

    ghost view = { λ n. n.peer };

    ghost inverse = { λ xs. record { peer = xs } };
}

impl Named {
    /// The peer.
    pub fn peer(&self) -> NodeId
        ensures { result ≡ self.now }
    {
        self.peer
    }
}

impl Opening {
    /// The side of a node, which greets first or second, and the node that it expects.
    pub fn new(here: NodeId, peer: NodeId, opens: bool) -> Opening
        ensures { result ≡ record { here = here; peer = peer; opens = opens } }
    {
        Opening { here, peer, opens }
    }

    /// What this side sends.
    pub fn hello(&self, alloc: Global) -> Result<Piece, AllocError>
        ensures greeting { IfOk result (λ p. p ≡ greeting self.now.opens self.now.here) }
        ensures short { IfOk result (λ p. length p ≤ 37) }
    {
        write_greeting(alloc, self.opens, &self.here)
    }

    /// Hears what the other side sent. Where that isn't the peer's greeting, the side is given back.
    pub fn on_frame(self, registry: &Registry, body: &[u8]) -> Result<Named, (Opening, LinkFault)>
        ensures ok { IfOk result (λ peer. heard registry.now self body.now ≡ Ok peer) }
        ensures peer { IfOk result (λ peer. peer ≡ self.peer) }
        ensures err { IfErr result (λ e. heard registry.now self body.now ≡ Err e.1) }
        ensures unchanged { IfErr result (λ e. e.0 ≡ self) }
    {
        let Some(found) = name_in(!self.opens, body) else {
            return Err((self, LinkFault::NotHello));
        };
        if !registry.knows(&found) {
            return Err((self, LinkFault::Unknown { identity: found }));
        }
        if found != self.peer {
            let expected = self.peer;
            return Err((self, LinkFault::WrongName { expected, found }));
        }
        Ok(Named { peer: found })
    }
}
