//! What carries messages between nodes.
ghost use Rattle.std.specs.Prelude.{◌≡◌, ◌≢◌, ◌<◌, ◌++◌, ℕ, true, false, List, [], IfOk, IfErr, OnOk, OnErr};
ghost use Rattle.spl_agree.specs.World.{IsPrefixOf};
ghost use Rattle.spl_wire.specs.Bounds.{IsSendable};
ghost use Rattle.spl_pump.specs.{Moves.LinkHasCause, Wires.{AllBytesTaken, Carried, CarryView, WireGoesOn, only}};

use crate::fault::PumpFault;
use spl_base::Boxed;
use spl_edge::Fabric;
use spl_wire::Message;
use std::alloc::Global;

/// What carries messages from one node to another. Nodes are named by their positions in the registry.
pub trait Carry {
    ghost use Rattle.spl_pump.specs.Wires.{IsMessageDue, LiesOf, Puts, PutsPart, TakesPart};

    /// What it reports of itself.
    ghost view: { Self → CarryView };

    /// Carries a message: what comes out is equal to it, and the bytes taken are those put. `Link` comes only where the fabric failed more often;
    /// `Lied` where other bytes were taken than were put, on the way there in place of the message's frames or of the greeting
    /// of its sender, or on the way back in place of that of its recipient. Any other error is running out of memory. After an
    /// error a prefix of the message's bytes was put, and one of them taken: then, on one of the two ways, no more bytes than those
    /// that were due there next. Nothing more is carried.
    fn carry<F: Fabric>(
        &mut self,
        alloc: Global,
        fabric: &mut F,
        from: u8,
        to: u8,
        message: &Boxed<Message>,
    ) -> Result<Boxed<Message>, PumpFault>
        requires apart { from ≢ to }
        requires from { from < (view self.old).slots }
        requires to { to < (view self.old).slots }
        requires going { (view self.old).failed ≡ false }
        requires sendable { IsSendable message.now }
        requires taken { AllBytesTaken (F.view fabric.old).put (F.view fabric.old).taken }
        ensures same { IfOk result (λ m. m ≡ message.now) }
        ensures slots { (view self.new).slots ≡ (view self.old).slots }
        ensures going { OnOk result ((view self.new).failed ≡ false) }
        ensures done { OnErr result ((view self.new).failed ≡ true) }
        ensures put { OnOk result (Puts ((view self.old).wire (only from to message.now)) (F.view fabric.old).put (F.view fabric.new).put) }
        ensures heard { OnOk result (Puts ((view self.old).wire (only from to message.now)) (F.view fabric.old).taken (F.view fabric.new).taken) }
        ensures part { PutsPart ((view self.old).wire (only from to message.now)) (F.view fabric.old).put (F.view fabric.new).put }
        ensures came { OnErr result (TakesPart (IsMessageDue (view self.old).hello from to message.now) ((view self.old).wire (only from to message.now))
            (F.view fabric.old).taken (F.view fabric.new).taken) }
        ensures onward { OnOk result (WireGoesOn (only from to message.now) (view self.old).wire (view self.new).wire) }
        ensures taken { OnOk result (AllBytesTaken (F.view fabric.new).put (F.view fabric.new).taken) }
        ensures cause { LinkHasCause (F.view fabric.old).faults (F.view fabric.new).faults result }
        ensures lied { IfErr result (λ e. LiesOf (IsMessageDue (view self.old).hello from to message.now) e (F.view fabric.new).put (F.view fabric.new).taken) }
        ensures hello { (view self.new).hello ≡ (view self.old).hello };

    /// Where no message is carried, nothing is put.
    ghost idle: { (carrier : Self) (a b : ℕ) → (view carrier).wire [] a b ≡ [] };

    /// What some messages put begins what they and later ones put.
    ghost prefix: { (carrier : Self) (sent later : List Carried) (a b : ℕ)
        → IsPrefixOf ((view carrier).wire sent a b) ((view carrier).wire (sent ++ later) a b) };
}
