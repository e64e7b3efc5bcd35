//! One end of a connection between two nodes.
ghost use Rattle.std.specs.Prelude.{◌≡◌, ◌≢◌, ◌≤◌, ◌++◌, [], length, Some, None, true, false, option_map, IfSome, IfNone, IsTrue, IfOk, IfErr, OnOk, IsErrOf};
ghost use Rattle.spl_frame.specs.{Frames.{fault_of, frames_of}, declared.header.TheConstants.LONGEST_BODY};
ghost use Rattle.spl_fragments.specs.Joining.{join_answer};
ghost use Rattle.spl_fragments.specs.Joining as parts;
ghost use Rattle.spl_base.specs.Form.{IsBytes};
ghost use Rattle.spl_wire.specs.Forms.{message_form};
ghost use Rattle.spl_talk.specs.Talks.{FrameFails, HasForm, HearsFrame, talk_end_after, hello, listening, opening, says, tells};
ghost use Rattle.spl_talk.specs.declared.side.Side.TheVariants.{Failed};
ghost use Rattle.spl_talk.specs.declared.fault.TalkFault.TheVariants as fault;

use crate::fault::TalkFault;
use crate::names::{expected, opener};
use crate::side::Side;
use crate::spoken::Spoken;
use spl_base::{Boxed, NodeId, Piece};
use spl_fragments::{JoinFault, Joiner};
use spl_frame::{Framer, write_frame};
use spl_link::Opening;
use spl_registry::Registry;
use spl_wire::Message;
use std::alloc::{AllocError, Global};
use std::marker::Model;

/// The frame by which a node names itself.
fn hello(alloc: Global, opens: bool, here: NodeId) -> Result<Piece, AllocError>
    ensures { IfOk result (λ p. p ≡ hello opens here) }
{
    let greeting = Opening::new(here, here, opens).hello(alloc)?;
    write_frame(alloc, greeting.bytes())
}

/// Joins a body to those before it.
fn join(alloc: Global, joiner: &mut Joiner, body: &[u8]) -> Result<Option<Message>, JoinFault>
    requires short { length body.now ≤ LONGEST_BODY }
    requires bytes { IsBytes joiner.old.held }
    ensures answer { (result ≢ Err JoinFault.NoMemory) → result ≡ join_answer joiner.old body.now }
    ensures next { (result ≢ Err JoinFault.NoMemory) → joiner.new ≡ parts.joining_after joiner.old body.now }
    ensures held { IsBytes joiner.new.held }
    ensures form { IfOk result (λ o. IfSome o (λ m. IsTrue (message_form.fits m))) }
{
    joiner.take(alloc, body)
}

/// Hears a body of a message.
fn told(alloc: Global, joiner: &mut Joiner, from: NodeId, body: &[u8]) -> Result<Spoken, TalkFault>
    requires short { length body.now ≤ LONGEST_BODY }
    requires bytes { IsBytes joiner.old.held }
    ensures told { (result ≢ Err TalkFault.NoMemory) → result ≡ tells from (join_answer joiner.old body.now) }
    ensures next { OnOk result (joiner.new ≡ parts.joining_after joiner.old body.now) }
    ensures held { IsBytes joiner.new.held }
    ensures form { IfOk result HasForm }
{
    match join(alloc, joiner, body)? {
        Some(message) => Ok(Spoken::Message {
            from,
            message: Boxed::new(alloc, message)?,
        }),
        None => Ok(Spoken::Part),
    }
}

/// One end of a connection between two nodes: it has the bytes that came and whose frames weren't heard yet, and knows the
/// peer once that has named itself. Of two nodes the one that stands first in the registry opens.
#[derive(Drop)]
pub struct Talk {
    here: NodeId,
    side: Side,
    framer: Framer,
    joiner: Joiner,
}

impl Model for Talk {
    ghost use Rattle.spl_base.specs.Form.{IsBytes};
    ghost use Rattle.spl_talk.specs.Talks.{Talking};

    ghost Value = { Talking };

    ghost view = { λ t. record { end = record { here = t.here; side = t.side; parts = t.joiner }; bytes = t.framer } };

    ghost invariant = { λ t. IsBytes t.joiner.held };
}

impl Talk {
    /// The end of the node that opens a connection to a peer, and the frame that it sends first, by which it names itself.
    pub fn open(alloc: Global, here: NodeId, peer: NodeId) -> Result<(Talk, Piece), AllocError>
        ensures end { IfOk result (λ r. r.0 ≡ record { end = opening here peer; bytes = [] }) }
        ensures hello { IfOk result (λ r. r.1 ≡ hello true here) }
    {
        let hello = hello(alloc, true, here)?;
        let talk = Talk {
            here,
            side: Side::Expects(peer),
            framer: Framer::new(alloc),
            joiner: Joiner::new(alloc),
        };
        Ok((talk, hello))
    }

    /// The end of a node to which a connection was opened, by a peer that it doesn't know yet.
    pub fn listen(alloc: Global, here: NodeId) -> Talk
        ensures { result ≡ record { end = listening here; bytes = [] } }
    {
        Talk {
            here,
            side: Side::Listens,
            framer: Framer::new(alloc),
            joiner: Joiner::new(alloc),
        }
    }

    /// Takes the next bytes that came. A fault is that of the first header that has one: the frames before it are still
    /// heard, and each later call answers it again.
    pub fn feed(&mut self, piece: &[u8]) -> Result<(), TalkFault>
        ensures end { self.new.end ≡ self.old.end }
        ensures ok { OnOk result (self.new.bytes ≡ self.old.bytes ++ piece.now) }
        ensures no_fault { OnOk result (fault_of self.new.bytes ≡ None) }
        ensures fault { IfErr result (λ e. (e ≢ TalkFault.NoMemory) → option_map fault.Frame (fault_of (self.old.bytes ++ piece.now)) ≡ Some e) }
        ensures frames { IfErr result (λ e. (e ≢ TalkFault.NoMemory) → frames_of self.new.bytes ≡ frames_of (self.old.bytes ++ piece.now)) }
        ensures again { IfErr result (λ e. (e ≢ TalkFault.NoMemory) → option_map fault.Frame (fault_of self.new.bytes) ≡ Some e) }
        ensures memory { IsErrOf result TalkFault.NoMemory → self.new ≡ self.old }
    {
        Ok(self.framer.feed(piece)?)
    }

    /// Hears a body, by whom this end knows.
    fn hear_body(
        &mut self,
        alloc: Global,
        registry: &Registry,
        body: &[u8],
    ) -> Result<Spoken, TalkFault>
        requires short { length body.now ≤ LONGEST_BODY }
        ensures told { (result ≢ Err TalkFault.NoMemory) → result ≡ says registry.now self.old.end body.now }
        ensures end { IfOk result (λ said. self.new.end ≡ talk_end_after self.old.end body.now said) }
        ensures form { IfOk result HasForm }
        ensures bytes { self.new.bytes ≡ self.old.bytes }
    {
        match &self.side {
            Side::Expects(peer) => {
                let peer = *peer;
                let peer = expected(self.here, peer, registry, body)?;
                self.side = Side::Knows(peer);
                Ok(Spoken::Name { peer, hello: None })
            }
            Side::Listens => {
                let peer = opener(self.here, registry, body)?;
                let hello = Some(hello(alloc, false, self.here)?);
                self.side = Side::Knows(peer);
                Ok(Spoken::Name { peer, hello })
            }
            Side::Knows(from) => {
                let from = *from;
                told(alloc, &mut self.joiner, from, body)
            }
            Side::Failed(fault) => Err(*fault),
        }
    }

    /// Hears the next frame.
    fn hear(&mut self, alloc: Global, registry: &Registry) -> Result<Option<Spoken>, TalkFault>
        ensures some { IfOk result (λ o. IfSome o (λ said. HearsFrame registry.now self.old said self.new)) }
        ensures form { IfOk result (λ o. IfSome o HasForm) }
        ensures none { IfOk result (λ o. IfNone o (frames_of self.old.bytes ≡ [])) }
        ensures unchanged { IfOk result (λ o. IfNone o (self.new ≡ self.old)) }
        ensures fault { IfErr result (λ e. (e ≢ TalkFault.NoMemory) → FrameFails registry.now self.old e) }
    {
        let Some(body) = self.framer.next(alloc)? else {
            return Ok(None);
        };
        Ok(Some(self.hear_body(alloc, registry, body.bytes())?))
    }

    /// What the next frame says; None where no whole one is left. After a fault nothing is heard: each later frame is
    /// answered by that fault.
    ///
    /// `Name` comes where the first frame isn't the greeting that is due, `NotLower` where it is one of a node that doesn't
    /// stand before this one in the registry, and opened the connection; `Message` where a later one isn't the body of a
    /// message, as a second greeting isn't.
    pub fn next(&mut self, alloc: Global, registry: &Registry) -> Result<Option<Spoken>, TalkFault>
        ensures some { IfOk result (λ o. IfSome o (λ said. HearsFrame registry.now self.old said self.new)) }
        ensures form { IfOk result (λ o. IfSome o HasForm) }
        ensures none { IfOk result (λ o. IfNone o (frames_of self.old.bytes ≡ [])) }
        ensures unchanged { IfOk result (λ o. IfNone o (self.new ≡ self.old)) }
        ensures fault { IfErr result (λ e. (e ≢ TalkFault.NoMemory) → FrameFails registry.now self.old e) }
        ensures failed { IfErr result (λ e. self.new.end.side ≡ Failed e) }
    {
        let heard = self.hear(alloc, registry);
        if let Err(fault) = &heard {
            self.side = Side::Failed(*fault);
        }
        heard
    }
}
