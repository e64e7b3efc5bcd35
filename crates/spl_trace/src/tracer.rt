//! What writes a trace.
ghost use Rattle.std.specs.Prelude.{◌≡◌, ◌++◌, ◌∷◌, [], OnOk};
ghost use Rattle.spl_sched.specs.Grammar.{spelling};

use itoa::Buffer;
use spl_base::{CircuitId, NodeId};
use spl_sched::{Line, Step, write_line};
use spl_wire::Event;
use std::alloc::{AllocError, Global};
use std::marker::Model;

/// Writes the lines of a trace, where it is on. Contracts see whether it is, and the text.
#[derive(Drop)]
pub struct Tracer {
    on: bool,
    text: Vec<u8>,
}

impl Model for Tracer {
    ghost use Rattle.spl_trace.specs.Tracers.{Tracing};

    ghost Value = { Tracing };

    ghost view = { λ t. record { on = t.on; text = t.text.items } };
}

impl Tracer {
    /// Nothing is written yet.
    pub fn new(alloc: Global, on: bool) -> Tracer
        ensures on { result.on ≡ on }
        ensures text { result.text ≡ [] }
    {
        Tracer {
            on,
            text: Vec::new(alloc),
        }
    }

    /// Whether what it is given is to be written.
    pub fn is_on(&self) -> bool
        ensures { result ≡ self.now.on }
    {
        self.on
    }

    /// What is written since it was cleared.
    pub fn text(&self) -> &[u8]
        ensures { result.now ≡ self.now.text }
    {
        self.text.as_slice()
    }

    /// Forgets what is written.
    pub fn clear(&mut self)
        ensures on { self.new.on ≡ self.old.on }
        ensures text { self.new.text ≡ [] }
    {
        self.text.clear();
    }

    // Writes a word of a line that has more, and the space after it.
    fn word(&mut self, bytes: &[u8]) -> Result<(), AllocError>
        ensures on { self.new.on ≡ self.old.on }
        ensures text { OnOk result (self.new.text ≡ self.old.text ++ (bytes.now ++ 32 ∷ [])) }
    {
        self.text.extend_from_slice(bytes)?;
        self.text.push(b' ')?;
        Ok(())
    }

    // Writes the last words of a line, and a line feed.
    fn end(&mut self, bytes: &[u8]) -> Result<(), AllocError>
        ensures on { self.new.on ≡ self.old.on }
        ensures text { OnOk result (self.new.text ≡ self.old.text ++ (bytes.now ++ 10 ∷ [])) }
    {
        self.text.extend_from_slice(bytes)?;
        self.text.push(b'\n')?;
        Ok(())
    }

    // Writes a tick.
    fn tick(&mut self, node: &NodeId, circuit: &CircuitId) -> Result<(), AllocError>
        ensures on { self.new.on ≡ self.old.on }
        ensures text { OnOk result (self.new.text ≡ self.old.text ++ (spelling (Line.Step (Step.At node.now circuit.now Event.Tick)) ++ 10 ∷ [])) }
    {
        self.word(b"tick")?;
        self.word(node.bytes())?;
        self.end(circuit.bytes())
    }

    // Writes a delivery.
    fn delivery(
        &mut self,
        from: &NodeId,
        to: &NodeId,
        circuit: &CircuitId,
        number: u32,
    ) -> Result<(), AllocError>
        ensures on { self.new.on ≡ self.old.on }
        ensures text { OnOk result (self.new.text ≡ self.old.text ++ (spelling (Line.Step (Step.Deliver from.now to.now circuit.now number)) ++ 10 ∷ [])) }
    {
        let mut buffer = Buffer::new();
        self.word(b"deliver")?;
        self.word(from.bytes())?;
        self.word(to.bytes())?;
        self.word(circuit.bytes())?;
        self.end(buffer.format(number).as_bytes())
    }

    // Writes any line.
    fn other(&mut self, alloc: Global, event: &Line) -> Result<(), AllocError>
        ensures on { self.new.on ≡ self.old.on }
        ensures text { OnOk result (self.new.text ≡ self.old.text ++ (spelling event.now ++ 10 ∷ [])) }
    {
        let line = write_line(alloc, event)?;
        self.end(line.bytes())
    }

    /// Writes a line, with a line feed after it. The only error is that memory ran out; a part of the line may be
    /// written then.
    pub fn line(&mut self, alloc: Global, event: &Line) -> Result<(), AllocError>
        ensures on { self.new.on ≡ self.old.on }
        ensures text { OnOk result (self.new.text ≡ self.old.text ++ (spelling event.now ++ 10 ∷ [])) }
    {
        // A calm has no other lines, and each takes no memory but the text's.
        match event {
            Line::Step(
                Step::At {
                    node,
                    circuit,
                    event: Event::Tick,
                },
            ) => self.tick(node, circuit),
            Line::Step(
                Step::Deliver {
                    from,
                    to,
                    circuit,
                    number,
                },
            ) => self.delivery(from, to, circuit, *number),
            _ => self.other(alloc, event),
        }
    }
}
