//! The definition of a circuit, which is looked through once.
ghost use Rattle.std.specs.Prelude.{◌≡◌, None, IfOk, IsTrue};
ghost use Rattle.sha2.specs.Sha256.{sha256};
ghost use Rattle.spl_circuit.specs.{Checked.AreFindings, DefinitionForms.definition, Rules.broken, declared.definition.Definition.Definition};

use crate::definition::Definition;
use sha2::{Digest, Sha256};
use spl_base::{Field, Malformed, Piece, Reader, Value, Writer};
use std::alloc::{AllocError, Global};
use std::marker::Model;
use std::rc::Rc;

/// The bytes that memory is taken for before a definition is spelled: the form of most is shorter.
const USUAL: usize = 256;

/// What is found of a definition.
#[derive(Drop)]
enum Findings {
    /// Nothing was looked for: it was read, and may be written no more.
    Unsought,
    /// It breaks this rule, and none before it.
    Broken(u8),
    /// It breaks no rule, and this is its byte form.
    Sound(Piece),
}

/// A definition, and what is found of it.
#[derive(Drop)]
struct Checked {
    definition: Definition,
    findings: Findings,
}

/// The definition of a circuit on the heap, shared by its copies, with what is found of it once where it is made: its byte form
/// and the first broken rule. Of one that is read again it is looked for when it is asked. Contracts see the definition.
#[derive(Drop)]
pub struct CheckedDefinition {
    inner: Rc<Checked>,
}

impl Model for CheckedDefinition {
    ghost Value = { Definition };

    ghost view = { λ d. d.inner.value.definition };

    ghost invariant = { λ d. AreFindings d.inner.value.definition d.inner.value.findings };
}

/// What is found of a definition. The only error is that memory ran out.
#[tactic(auto, using(crate::proofs::Valid::bounded_from_valid))]
fn look_through(alloc: Global, definition: &Definition) -> Result<Findings, AllocError>
    ensures { IfOk result (AreFindings definition.now) }
{
    if let Some(rule) = definition.fault() {
        return Ok(Findings::Broken(rule));
    }
    let mut form = Writer::with_room(alloc, USUAL)?;
    definition.put_parts(&mut form)?;
    Ok(Findings::Sound(Piece::from(alloc, form.bytes())?))
}

impl CheckedDefinition {
    /// The definition, moved to the heap, of which nothing is looked for.
    fn unsought(alloc: Global, definition: Definition) -> Result<CheckedDefinition, AllocError>
        ensures { IfOk result (λ d. d ≡ definition) }
    {
        let checked = Checked {
            definition,
            findings: Findings::Unsought,
        };
        Ok(CheckedDefinition {
            inner: Rc::new(alloc, checked)?,
        })
    }

    /// The definition, moved to the heap. The only error is that memory ran out.
    pub fn new(alloc: Global, definition: Definition) -> Result<CheckedDefinition, AllocError>
        ensures { IfOk result (λ d. d ≡ definition) }
    {
        let findings = look_through(alloc, &definition)?;
        let checked = Checked {
            definition,
            findings,
        };
        Ok(CheckedDefinition {
            inner: Rc::new(alloc, checked)?,
        })
    }

    /// The definition.
    pub fn get(&self) -> &Definition
        ensures { result.now ≡ self.now }
    {
        &self.inner.definition
    }

    /// The number of the first rule that it breaks, None where it keeps all nine.
    pub fn fault(&self) -> Option<u8>
        ensures { result ≡ broken self.now }
    {
        match &self.inner.findings {
            Findings::Unsought => self.get().fault(),
            Findings::Broken(rule) => Some(*rule),
            Findings::Sound(_) => None,
        }
    }

    /// SHA-256 of the byte form.
    pub fn hash(&self, alloc: Global) -> Result<[u8; 32], AllocError>
        requires few { IsTrue (definition.bounded self.now) }
        ensures { IfOk result (λ h. h ≡ sha256 (definition.spell self.now)) }
    {
        match &self.inner.findings {
            Findings::Sound(form) => Ok(digest(form.bytes())),
            _ => self.get().hash(alloc),
        }
    }
}

/// The SHA-256 of bytes.
fn digest(bytes: &[u8]) -> [u8; 32]
    ensures { result ≡ sha256 bytes.now }
{
    let mut hasher = Sha256::new();
    hasher.update(bytes);
    hasher.finalize()
}

impl Field for CheckedDefinition {
    ghost use Rattle.spl_circuit.specs.DefinitionForms.{definition, exact_definition};

    ghost form = { definition };

    fn put_parts(&self, w: &mut Writer) -> Result<(), AllocError> {
        match &self.inner.findings {
            Findings::Sound(form) => w.put_raw(form.bytes()),
            _ => self.inner.definition.put_parts(w),
        }
    }

    fn take_parts(alloc: Global, r: &mut Reader) -> Result<CheckedDefinition, Malformed> {
        let definition = Definition::take_parts(alloc, r)?;
        Ok(CheckedDefinition::unsought(alloc, definition)?)
    }

    ghost exact = { exact_definition };
}

impl Value for CheckedDefinition {
    fn same(&self, other: &CheckedDefinition) -> bool {
        match (&self.inner.findings, &other.inner.findings) {
            (Findings::Sound(a), Findings::Sound(b)) => a.same(b),
            _ => self.get().same(other.get()),
        }
    }

    fn copy(&self, _alloc: Global) -> Result<CheckedDefinition, AllocError> {
        Ok(CheckedDefinition {
            inner: self.inner.clone()?,
        })
    }
}
