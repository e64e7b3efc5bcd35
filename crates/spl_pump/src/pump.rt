//! Messages in frames over a fabric.
ghost use Rattle.std.specs.Prelude.{min, max, ◌≡◌, ◌≢◌, ◌<◌, [], false, true, IfOk, IfErr, OnErr, OnOk, length};
ghost use Rattle.spl_edge.specs.Devices.{AreTaken};
ghost use Rattle.spl_wire.specs.Bounds.{IsSendable};
ghost use Rattle.spl_pump.specs.{Moves.{Grows, GrowsAtMost, GrowsPart, LinkHasCause, IsLie}, Wires.{WireGoesOn, hand, hands, hands_if, bytes_on_pair, only}};
ghost use Rattle.spl_pump.specs.Wires.{have_met, met_after, wire_from, Puts, PutsPart, AllBytesTaken, sent_as, IsMessageDue, IsGreeting, IsOn, LiesOf};
ghost use Rattle.spl_pump.specs.Wires.{TakesPart};

use crate::carry::Carry;
use crate::exchange::exchange;
use crate::fault::PumpFault;
use crate::message::carry_message;
use spl_base::Boxed;
use spl_edge::Fabric;
use spl_link::{Opening, a_peer_is_heard};
use spl_registry::Registry;
use spl_wire::Message;
use std::alloc::{AllocError, Global};
use std::marker::Model;

/// One node names itself to another.
fn greet<F: Fabric>(
    alloc: Global,
    fabric: &mut F,
    registry: &Registry,
    from: u8,
    to: u8,
) -> Result<(), PumpFault>
    requires apart { from ≢ to }
    requires from { from < length registry.now }
    requires to { to < length registry.now }
    requires taken { AreTaken ((F.view fabric.old).put from to) ((F.view fabric.old).taken from to) }
    ensures put { OnOk result (Grows from to (hand registry.now from to) (F.view fabric.old).put (F.view fabric.new).put) }
    ensures taken { OnOk result (Grows from to (hand registry.now from to) (F.view fabric.old).taken (F.view fabric.new).taken) }
    ensures all { OnOk result (AreTaken ((F.view fabric.new).put from to) ((F.view fabric.new).taken from to)) }
    ensures part { GrowsPart from to (hand registry.now from to) (F.view fabric.old).put (F.view fabric.new).put }
    ensures came { OnErr result (GrowsAtMost from to (length (hand registry.now from to)) (F.view fabric.old).taken (F.view fabric.new).taken) }
    ensures cause { LinkHasCause (F.view fabric.old).faults (F.view fabric.new).faults result }
    ensures lied { IfErr result (λ e. IsLie from to (hand registry.now from to) (F.view fabric.old).put (F.view fabric.new).put
        (F.view fabric.old).taken (F.view fabric.new).taken e) }
{
    a_peer_is_heard();
    let here = registry.node(from);
    let peer = registry.node(to);
    let opens = from < to;
    let hello = Opening::new(here, peer, opens).hello(alloc)?;
    let body = exchange(alloc, fabric, from, to, hello.bytes())?;
    match Opening::new(peer, here, !opens).on_frame(registry, body.bytes()) {
        Ok(_) => Ok(()),
        Err(_) => unreachable!(),
    }
}

/// One node names itself to another, as all pairs see it.
#[tactic(auto, using(crate::proofs::Wires::grows_puts, crate::proofs::Wires::part_puts, crate::proofs::Wires::all_taken, crate::proofs::Wires::lies_of))]
fn present<F: Fabric>(
    alloc: Global,
    fabric: &mut F,
    registry: &Registry,
    from: u8,
    to: u8,
) -> Result<(), PumpFault>
    requires apart { from ≢ to }
    requires from { from < length registry.now }
    requires to { to < length registry.now }
    requires taken { AllBytesTaken (F.view fabric.old).put (F.view fabric.old).taken }
    ensures put { OnOk result (Puts (bytes_on_pair from to (hand registry.now from to)) (F.view fabric.old).put (F.view fabric.new).put) }
    ensures heard { OnOk result (Puts (bytes_on_pair from to (hand registry.now from to)) (F.view fabric.old).taken (F.view fabric.new).taken) }
    ensures part { PutsPart (bytes_on_pair from to (hand registry.now from to)) (F.view fabric.old).put (F.view fabric.new).put }
    ensures came { OnErr result (TakesPart (IsOn from to (hand registry.now from to)) (bytes_on_pair from to (hand registry.now from to))
        (F.view fabric.old).taken (F.view fabric.new).taken) }
    ensures taken { OnOk result (AllBytesTaken (F.view fabric.new).put (F.view fabric.new).taken) }
    ensures cause { LinkHasCause (F.view fabric.old).faults (F.view fabric.new).faults result }
    ensures lied { IfErr result (λ e. LiesOf (IsOn from to (hand registry.now from to)) e (F.view fabric.new).put (F.view fabric.new).taken) }
{
    match greet(alloc, fabric, registry, from, to) {
        Ok(()) => Ok(()),
        Err(fault) => Err(fault),
    }
}

/// Sends a message, as all pairs see it.
#[tactic(auto, using(crate::proofs::Wires::grows_puts, crate::proofs::Wires::part_puts, crate::proofs::Wires::all_taken, crate::proofs::Wires::lies_of))]
fn send<F: Fabric>(
    alloc: Global,
    fabric: &mut F,
    from: u8,
    to: u8,
    message: &Message,
) -> Result<Boxed<Message>, PumpFault>
    requires sendable { IsSendable message.now }
    requires taken { AllBytesTaken (F.view fabric.old).put (F.view fabric.old).taken }
    ensures same { IfOk result (λ m. m ≡ message.now) }
    ensures put { OnOk result (Puts (bytes_on_pair from to (sent_as message.now)) (F.view fabric.old).put (F.view fabric.new).put) }
    ensures heard { OnOk result (Puts (bytes_on_pair from to (sent_as message.now)) (F.view fabric.old).taken (F.view fabric.new).taken) }
    ensures part { PutsPart (bytes_on_pair from to (sent_as message.now)) (F.view fabric.old).put (F.view fabric.new).put }
    ensures came { OnErr result (TakesPart (IsOn from to (sent_as message.now)) (bytes_on_pair from to (sent_as message.now))
        (F.view fabric.old).taken (F.view fabric.new).taken) }
    ensures taken { OnOk result (AllBytesTaken (F.view fabric.new).put (F.view fabric.new).taken) }
    ensures cause { LinkHasCause (F.view fabric.old).faults (F.view fabric.new).faults result }
    ensures lied { IfErr result (λ e. LiesOf (IsOn from to (sent_as message.now)) e (F.view fabric.new).put (F.view fabric.new).taken) }
{
    match carry_message(alloc, fabric, from, to, message) {
        Ok(copy) => Ok(copy),
        Err(fault) => Err(fault),
    }
}

/// Two nodes name themselves to each other; the lower position goes first.
fn introduce<F: Fabric>(
    alloc: Global,
    fabric: &mut F,
    registry: &Registry,
    low: u8,
    high: u8,
) -> Result<(), PumpFault>
    requires order { low < high }
    requires high { high < length registry.now }
    requires taken { AllBytesTaken (F.view fabric.old).put (F.view fabric.old).taken }
    ensures put { OnOk result (Puts (hands registry.now low high) (F.view fabric.old).put (F.view fabric.new).put) }
    ensures heard { OnOk result (Puts (hands registry.now low high) (F.view fabric.old).taken (F.view fabric.new).taken) }
    ensures part { PutsPart (hands registry.now low high) (F.view fabric.old).put (F.view fabric.new).put }
    ensures came { OnErr result (TakesPart (IsGreeting (hand registry.now) low high) (hands registry.now low high)
        (F.view fabric.old).taken (F.view fabric.new).taken) }
    ensures taken { OnOk result (AllBytesTaken (F.view fabric.new).put (F.view fabric.new).taken) }
    ensures cause { LinkHasCause (F.view fabric.old).faults (F.view fabric.new).faults result }
    ensures lied { IfErr result (λ e. LiesOf (IsGreeting (hand registry.now) low high) e (F.view fabric.new).put (F.view fabric.new).taken) }
{
    present(alloc, fabric, registry, low, high)?;
    present(alloc, fabric, registry, high, low)?;
    Ok(())
}

/// Whether two nodes have met.
fn have_met(met: &[(u8, u8)], low: u8, high: u8) -> bool
    ensures { result ≡ have_met met.now low high }
{
    met.iter().any(|pair| pair.0 == low && pair.1 == high)
}

/// Carries messages in frames over a fabric. Before the first message between two nodes these name themselves to each
/// other.
#[derive(Drop)]
pub struct Pump {
    registry: Registry,
    met: Vec<(u8, u8)>,
    failed: bool,
}

impl Model for Pump {
    ghost use Rattle.spl_pump.specs.Wires.{Pumped};

    ghost Value = { Pumped };

    ghost view = { λ p. record { entries = p.registry; met = p.met.items; failed = p.failed } };
}

impl Pump {
    /// A pump between the nodes of a registry, of which none have met.
    pub fn new(alloc: Global, registry: &Registry) -> Result<Pump, AllocError>
        ensures { IfOk result (λ p. p ≡ record { entries = registry.now; met = []; failed = false }) }
    {
        Ok(Pump {
            registry: registry.copy(alloc)?,
            met: Vec::new(alloc),
            failed: false,
        })
    }

    /// Makes two nodes meet, unless they have met.
    fn meet<F: Fabric>(
        &mut self,
        alloc: Global,
        fabric: &mut F,
        low: u8,
        high: u8,
    ) -> Result<(), PumpFault>
        requires order { low < high }
        requires high { high < length self.old.entries }
        requires taken { AllBytesTaken (F.view fabric.old).put (F.view fabric.old).taken }
        ensures entries { self.new.entries ≡ self.old.entries }
        ensures failed { self.new.failed ≡ self.old.failed }
        ensures met { OnOk result (self.new.met ≡ met_after self.old.met low high) }
        ensures put { OnOk result (Puts (hands_if self.old.entries (have_met self.old.met low high) low high) (F.view fabric.old).put (F.view fabric.new).put) }
        ensures heard { OnOk result (Puts (hands_if self.old.entries (have_met self.old.met low high) low high)
            (F.view fabric.old).taken (F.view fabric.new).taken) }
        ensures part { PutsPart (hands_if self.old.entries (have_met self.old.met low high) low high) (F.view fabric.old).put (F.view fabric.new).put }
        ensures came { OnErr result (TakesPart (IsGreeting (hand self.old.entries) low high)
            (hands_if self.old.entries (have_met self.old.met low high) low high) (F.view fabric.old).taken (F.view fabric.new).taken) }
        ensures taken { OnOk result (AllBytesTaken (F.view fabric.new).put (F.view fabric.new).taken) }
        ensures cause { LinkHasCause (F.view fabric.old).faults (F.view fabric.new).faults result }
        ensures lied { IfErr result (λ e. LiesOf (IsGreeting (hand self.old.entries) low high) e (F.view fabric.new).put (F.view fabric.new).taken) }
    {
        if have_met(self.met.as_slice(), low, high) {
            return Ok(());
        }
        introduce(alloc, fabric, &self.registry, low, high)?;
        self.met.push((low, high))?;
        Ok(())
    }

    /// Carries a message between nodes that meet before, unless they have met.
    fn carry_over<F: Fabric>(
        &mut self,
        alloc: Global,
        fabric: &mut F,
        from: u8,
        to: u8,
        message: &Message,
    ) -> Result<Boxed<Message>, PumpFault>
        requires apart { from ≢ to }
        requires from { from < length self.old.entries }
        requires to { to < length self.old.entries }
        requires sendable { IsSendable message.now }
        requires taken { AllBytesTaken (F.view fabric.old).put (F.view fabric.old).taken }
        ensures same { IfOk result (λ m. m ≡ message.now) }
        ensures entries { self.new.entries ≡ self.old.entries }
        ensures failed { self.new.failed ≡ self.old.failed }
        ensures met { OnOk result (self.new.met ≡ met_after self.old.met (min from to) (max from to)) }
        ensures put { OnOk result (Puts (wire_from self.old.entries self.old.met (only from to message.now)) (F.view fabric.old).put (F.view fabric.new).put) }
        ensures heard { OnOk result (Puts (wire_from self.old.entries self.old.met (only from to message.now))
            (F.view fabric.old).taken (F.view fabric.new).taken) }
        ensures part { PutsPart (wire_from self.old.entries self.old.met (only from to message.now)) (F.view fabric.old).put (F.view fabric.new).put }
        ensures came { OnErr result (TakesPart (IsMessageDue (hand self.old.entries) from to message.now)
            (wire_from self.old.entries self.old.met (only from to message.now)) (F.view fabric.old).taken (F.view fabric.new).taken) }
        ensures onward { OnOk result (WireGoesOn (only from to message.now) (wire_from self.old.entries self.old.met)
            (wire_from self.new.entries self.new.met)) }
        ensures taken { OnOk result (AllBytesTaken (F.view fabric.new).put (F.view fabric.new).taken) }
        ensures cause { LinkHasCause (F.view fabric.old).faults (F.view fabric.new).faults result }
        ensures lied { IfErr result
            (λ e. LiesOf (IsMessageDue (hand self.old.entries) from to message.now) e (F.view fabric.new).put (F.view fabric.new).taken) }
    {
        self.meet(alloc, fabric, from.min(to), from.max(to))?;
        let got = send(alloc, fabric, from, to, message)?;
        Ok(got)
    }
}

impl Carry for Pump {
    ghost use Rattle.std.specs.Prelude.{length};
    ghost use Rattle.spl_pump.specs.{Wires.{hand, wire_from}, Idle.idle_wire, Prefixes.wire_prefix};

    ghost view = { λ p. record { slots = length p.entries; failed = p.failed; wire = wire_from p.entries p.met; hello = hand p.entries } };

    ghost idle = { λ p. idle_wire p.entries p.met };

    ghost prefix = { λ p. wire_prefix p.entries p.met };

    fn carry<F: Fabric>(
        &mut self,
        alloc: Global,
        fabric: &mut F,
        from: u8,
        to: u8,
        message: &Boxed<Message>,
    ) -> Result<Boxed<Message>, PumpFault> {
        match self.carry_over(alloc, fabric, from, to, message.get()) {
            Ok(copy) => Ok(copy),
            Err(fault) => {
                self.failed = true;
                Err(fault)
            }
        }
    }
}
