//! Ids: fixed arrays of bytes, which are copied, compared, ordered and hashed by their bytes.
ghost use Rattle.std.specs.{Prelude.{◌≡◌, ℕ, ◌≤◌, IsTrue, length, nat_eq}, List.list_all, Cmp.{partial_equiv_from_equiv, Lexicographic.pointwise}};
ghost use Rattle.std.specs.Cmp.Lexicographic.{nat_list_eq_equiv};
ghost use Rattle.spl_base.specs.Ids.{is_circuit_id, is_node_id, is_service_id, is_label, within, is_node_byte, is_base62, is_graphic};

use crate::fault::Malformed;
use crate::field::Field;
use crate::reader::Reader;
use crate::short::Short;
use crate::writer::Writer;
use std::alloc::{AllocError, Global};
use std::marker::Model;

/// The id of a node: 1 to 32 bytes of `a`-`z`, `0`-`9` and `-` (docs/RULES.md, Ids). Contracts see its bytes.
#[derive(Clone, Copy, PartialEq, Eq, PartialOrd, Ord, Hash)]
pub struct NodeId {
    text: Short<32>,
}

impl Model for NodeId {
    ghost use Rattle.std.specs.Prelude.{List, ℕ, IsTrue};
    ghost use Rattle.spl_base.specs.Ids.{is_node_id};

    ghost Value = { List ℕ };

    ghost view = { λ a. a.text };

    ghost invariant = { λ a. IsTrue (is_node_id a.text) };

    ghost inverse = { λ xs. record { text = xs } };
}

fn is_node_byte(b: u8) -> bool
    ensures { result ≡ is_node_byte b }
{
    b.is_ascii_lowercase() || b.is_ascii_digit() || b == b'-'
}

fn all_node_bytes(bytes: &[u8]) -> bool
    ensures { result ≡ list_all is_node_byte bytes.now }
{
    bytes.iter().all(|b| is_node_byte(*b))
}

fn is_node_id(bytes: &[u8]) -> bool
    ensures { result ≡ is_node_id bytes.now }
{
    !bytes.is_empty() && bytes.len() <= 32 && all_node_bytes(bytes)
}

impl NodeId {
    /// The id that the bytes spell; None exactly where they are outside the grammar.
    pub fn read(bytes: &[u8]) -> Option<NodeId>
        ensures { result ≡ within is_node_id bytes.now }
    {
        if !is_node_id(bytes) {
            return None;
        }
        Some(NodeId {
            text: Short::new(bytes),
        })
    }

    /// Its bytes, which are in the grammar.
    pub fn bytes(&self) -> &[u8]
        ensures value { result.now ≡ self.now }
        ensures spelled { IsTrue (is_node_id self.now) }
    {
        self.text.bytes()
    }
}

impl Field for NodeId {
    ghost use Rattle.std.proofs.Common.{lit<};
    ghost use Rattle.spl_base.specs.{Form.text, Ids.is_node_id, FormLaws.exact_text};

    ghost form = { text 32 is_node_id };

    #[tactic(auto, unfolding(crate::specs::Form::number_bytes))]
    fn put_parts(&self, w: &mut Writer) -> Result<(), AllocError> {
        w.put_text(self.bytes())
    }

    fn take_parts(_alloc: Global, r: &mut Reader) -> Result<NodeId, Malformed> {
        let at = r.place();
        let bytes = r.take_text(32)?;
        NodeId::read(bytes).ok_or(Malformed::At { at })
    }

    ghost exact = { exact_text 32 is_node_id (lit< tt) };
}

/// A label: 0 to 128 bytes of 0x21 to 0x7e (docs/RULES.md, Ids). Contracts see its bytes.
#[derive(Clone, Copy, PartialEq, Eq, PartialOrd, Ord, Hash)]
pub struct Label {
    text: Short<128>,
}

impl Model for Label {
    ghost use Rattle.std.specs.Prelude.{List, ℕ, IsTrue};
    ghost use Rattle.spl_base.specs.Ids.{is_label};

    ghost Value = { List ℕ };

    ghost view = { λ a. a.text };

    ghost invariant = { λ a. IsTrue (is_label a.text) };

    ghost inverse = { λ xs. record { text = xs } };
}

fn all_graphic(bytes: &[u8]) -> bool
    ensures { result ≡ list_all is_graphic bytes.now }
{
    bytes.iter().all(|b| b.is_ascii_graphic())
}

fn is_label(bytes: &[u8]) -> bool
    ensures { result ≡ is_label bytes.now }
{
    bytes.len() <= 128 && all_graphic(bytes)
}

impl Label {
    /// The label that the bytes spell; None exactly where they are outside the grammar.
    pub fn read(bytes: &[u8]) -> Option<Label>
        ensures { result ≡ within is_label bytes.now }
    {
        if !is_label(bytes) {
            return None;
        }
        Some(Label {
            text: Short::new(bytes),
        })
    }

    /// Its bytes, which are in the grammar.
    pub fn bytes(&self) -> &[u8]
        ensures value { result.now ≡ self.now }
        ensures spelled { IsTrue (is_label self.now) }
    {
        self.text.bytes()
    }
}

impl Field for Label {
    ghost use Rattle.std.proofs.Common.{lit<};
    ghost use Rattle.spl_base.specs.{Form.text, Ids.is_label, FormLaws.exact_text};

    ghost form = { text 128 is_label };

    #[tactic(auto, unfolding(crate::specs::Form::number_bytes))]
    fn put_parts(&self, w: &mut Writer) -> Result<(), AllocError> {
        w.put_text(self.bytes())
    }

    fn take_parts(_alloc: Global, r: &mut Reader) -> Result<Label, Malformed> {
        let at = r.place();
        let bytes = r.take_text(128)?;
        Label::read(bytes).ok_or(Malformed::At { at })
    }

    ghost exact = { exact_text 128 is_label (lit< tt) };
}

/// The id of a service in its circuit: four base62 characters (docs/RULES.md, Ids). Contracts see its bytes.
#[derive(Clone, Copy, Eq, PartialOrd, Ord, Hash)]
pub struct ServiceId {
    cells: [u8; 4],
}

// Four tests, where the derived impl would call a search of slices.
impl PartialEq for ServiceId {
    ghost eq = { pointwise nat_eq };

    ghost laws = { partial_equiv_from_equiv nat_list_eq_equiv };

    fn eq(&self, other: &Self) -> bool {
        let [a, b, c, d] = self.cells;
        let [e, f, g, h] = other.cells;
        a == e && b == f && c == g && d == h
    }
}

impl Model for ServiceId {
    ghost use Rattle.std.specs.Prelude.{List, ℕ, IsTrue};
    ghost use Rattle.spl_base.specs.Ids.{is_service_id};

    ghost Value = { List ℕ };

    ghost view = { λ a. a.cells };

    ghost invariant = { λ a. IsTrue (is_service_id a.cells) };

    ghost inverse = { λ xs. record { cells = xs } };
}

fn is_base62(b: u8) -> bool
    ensures { result ≡ is_base62 b }
{
    b.is_ascii_alphanumeric()
}

fn all_base62(bytes: &[u8]) -> bool
    ensures { result ≡ list_all is_base62 bytes.now }
{
    bytes.iter().all(|b| is_base62(*b))
}

fn is_service_id(bytes: &[u8]) -> bool
    ensures { result ≡ is_service_id bytes.now }
{
    bytes.len() == 4 && all_base62(bytes)
}

impl ServiceId {
    /// The id that the bytes spell; None exactly where they are outside the grammar.
    pub fn read(bytes: &[u8]) -> Option<ServiceId>
        ensures { result ≡ within is_service_id bytes.now }
    {
        if !is_service_id(bytes) {
            return None;
        }
        let mut cells = [0; 4];
        cells.copy_from_slice(bytes);
        Some(ServiceId { cells })
    }

    /// Its bytes, which are in the grammar.
    pub fn bytes(&self) -> &[u8]
        ensures value { result.now ≡ self.now }
        ensures spelled { IsTrue (is_service_id self.now) }
    {
        &self.cells
    }
}

impl Field for ServiceId {
    ghost use Rattle.spl_base.specs.{Form.raw, Ids.is_service_id, FormLaws.exact_raw};

    ghost form = { raw 4 is_service_id };

    #[tactic(auto, unfolding(crate::specs::Form::number_bytes))]
    fn put_parts(&self, w: &mut Writer) -> Result<(), AllocError> {
        w.put_raw(self.bytes())
    }

    fn take_parts(_alloc: Global, r: &mut Reader) -> Result<ServiceId, Malformed> {
        let at = r.place();
        let bytes = r.take_raw(4)?;
        ServiceId::read(bytes).ok_or(Malformed::At { at })
    }

    ghost exact = { exact_raw 4 is_service_id };
}

/// The id of a circuit: five base62 characters, a `-`, and five more (docs/RULES.md, Ids). Contracts see its bytes.
#[derive(Clone, Copy, PartialEq, Eq, PartialOrd, Ord, Hash)]
pub struct CircuitId {
    text: Short<11>,
}

impl Model for CircuitId {
    ghost use Rattle.std.specs.Prelude.{List, ℕ, IsTrue};
    ghost use Rattle.spl_base.specs.Ids.{is_circuit_id};

    ghost Value = { List ℕ };

    ghost view = { λ a. a.text };

    ghost invariant = { λ a. IsTrue (is_circuit_id a.text) };

    ghost inverse = { λ xs. record { text = xs } };
}

fn is_circuit_id(bytes: &[u8]) -> bool
    ensures { result ≡ is_circuit_id bytes.now }
{
    bytes.len() == 11 && bytes[5] == b'-' && all_base62(&bytes[..5]) && all_base62(&bytes[6..])
}

impl CircuitId {
    /// The id that the bytes spell; None exactly where they are outside the grammar.
    pub fn read(bytes: &[u8]) -> Option<CircuitId>
        ensures { result ≡ within is_circuit_id bytes.now }
    {
        if !is_circuit_id(bytes) {
            return None;
        }
        Some(CircuitId {
            text: Short::new(bytes),
        })
    }

    /// Its bytes, which are in the grammar.
    pub fn bytes(&self) -> &[u8]
        ensures value { result.now ≡ self.now }
        ensures spelled { IsTrue (is_circuit_id self.now) }
    {
        self.text.bytes()
    }
}

impl Field for CircuitId {
    ghost use Rattle.spl_base.specs.{Form.raw, Ids.is_circuit_id, FormLaws.exact_raw};

    ghost form = { raw 11 is_circuit_id };

    #[tactic(auto, unfolding(crate::specs::Form::number_bytes))]
    fn put_parts(&self, w: &mut Writer) -> Result<(), AllocError> {
        w.put_raw(self.bytes())
    }

    fn take_parts(_alloc: Global, r: &mut Reader) -> Result<CircuitId, Malformed> {
        let at = r.place();
        let bytes = r.take_raw(11)?;
        match CircuitId::read(bytes) {
            Some(id) => Ok(id),
            None => Err(Malformed::At { at }),
        }
    }

    ghost exact = { exact_raw 11 is_circuit_id };
}
