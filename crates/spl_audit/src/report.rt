//! The report of an audit.
ghost use Rattle.std.specs.{Prelude.{◌≡◌, ◌≤◌, ◌++◌, [], ◌∷◌, map, take, drop, length, IfOk, OnOk}, List.list_any};
ghost use Rattle.spl_circuit.specs.Equality.{same_definition};
ghost use Rattle.spl_audit.specs.{Keepers.keepers, Reporting.{bound_to, definitions_with, definition_finding, found_of, ids_with, placed_by_generation}};
ghost use Rattle.spl_audit.specs.Reporting.{report, with_ids};

use spl_agree::Generation;
use spl_base::{CircuitId, Listing, Value};
use spl_cell::Held;
use spl_circuit::Definition;
use spl_node::Keeper;
use std::alloc::{AllocError, Global};
use std::collections::BTreeSet;

/// A circuit that is bound at a node, with the lengths of the longest histories of its acts and of
/// its batches.
#[derive(Clone, Copy)]
pub struct Found {
    pub circuit: CircuitId,
    pub generation: Generation,
    pub acts: usize,
    pub batches: usize,
}

/// What an audit finds: one of each circuit that is bound at a node.
pub type Report = Listing<Found>;

/// More ids in a set.
fn insert_all(ids: &mut BTreeSet<CircuitId>, more: &[CircuitId]) -> Result<(), AllocError>
    ensures { OnOk result (ids.new.keys ≡ with_ids ids.old.keys more.now) }
{
    'more: for id in more {
        ids.insert(*id)?;
    }
    Ok(())
}

/// The ids of the circuits that are bound at a node, in order.
fn circuits_of(alloc: Global, nodes: &[Keeper]) -> Result<BTreeSet<CircuitId>, AllocError>
    ensures { IfOk result (λ ids. ids.keys ≡ ids_with [] (keepers nodes.now)) }
{
    let mut ids = BTreeSet::new(alloc);
    'nodes: for node in nodes {
        let bound = node.roll(alloc)?;
        insert_all(&mut ids, bound.as_slice())?;
    }
    Ok(ids)
}

/// What nodes keep of a circuit, in their order.
fn held_by<'a>(
    alloc: Global,
    nodes: &'a [Keeper],
    circuit: &CircuitId,
) -> Result<Vec<&'a Held>, AllocError>
    ensures { IfOk result (λ hs. map (λ h. h.now.bound) hs.items ≡ bound_to circuit.now (keepers nodes.now)) }
{
    let mut all = Vec::new(alloc);
    'nodes: for node in nodes {
        if let Some(held) = node.held(circuit) {
            all.push(held)?;
        }
    }
    Ok(all)
}

/// Whether two definitions are the same.
fn same_definition(one: &Definition, other: &Definition) -> bool
    ensures { result ≡ same_definition one.now other.now }
{
    one.same(other)
}

/// Whether a definition is among others.
fn has_definition(definitions: &[&Definition], definition: &Definition) -> bool
    ensures { result ≡ list_any (same_definition definition.now) (map (λ d. d.now) definitions.now) }
{
    'definitions: for other in definitions {
        if same_definition(definition, other) {
            return true;
        }
    }
    false
}

/// How many definitions stand before the first of a higher generation.
fn place_of(definitions: &[&Definition], definition: &Definition) -> usize
    ensures within { result ≤ length definitions.now }
    ensures place { map (λ d. d.now) (take result definitions.now) ++ definition.now ∷ map (λ d. d.now) (drop result definitions.now)
        ≡ placed_by_generation definition.now (map (λ d. d.now) definitions.now) }
{
    'definitions: for place in 0..definitions.len() {
        let other = definitions[place];
        if definition.generation.0 < other.generation.0 {
            return place;
        }
    }
    definitions.len()
}

/// A definition joins others, before the first of a higher generation.
fn place<'a>(
    definitions: &mut Vec<&'a Definition>,
    definition: &'a Definition,
) -> Result<(), AllocError>
    ensures { OnOk result (map (λ d. d.now) definitions.new.items ≡ placed_by_generation definition.now (map (λ d. d.now) definitions.old.items)) }
{
    let place = place_of(definitions, definition);
    definitions.insert(place, definition)?;
    Ok(())
}

/// The definitions that cells are bound to, by generation, each once.
fn definitions_of<'a>(alloc: Global, held: &[&'a Held]) -> Result<Vec<&'a Definition>, AllocError>
    ensures { IfOk result (λ ds. map (λ d. d.now) ds.items ≡ definitions_with [] (map (λ h. h.now.bound) held.now)) }
{
    let mut all = Vec::new(alloc);
    'held: for one in held {
        let definition = one.definition();
        if !has_definition(&all, definition) {
            place(&mut all, definition)?;
        }
    }
    Ok(all)
}

/// What is found of a definition, by the cells that are bound to it.
fn measure(circuit: CircuitId, held: &[&Held], definition: &Definition) -> Found
    ensures { result ≡ definition_finding circuit (map (λ h. h.now.bound) held.now) definition.now }
{
    let mut acts = 0;
    let mut batches = 0;
    'held: for one in held {
        if same_definition(one.definition(), definition) {
            acts = one.acts().len().max(acts);
            batches = one.batches().len().max(batches);
        }
    }
    Found {
        circuit,
        generation: definition.generation,
        acts,
        batches,
    }
}

/// What is found of a circuit joins a report.
fn join_circuit(
    report: &mut Report,
    alloc: Global,
    nodes: &[Keeper],
    circuit: &CircuitId,
) -> Result<(), AllocError>
    ensures { OnOk result (report.new ≡ report.old ++ found_of (keepers nodes.now) circuit.now) }
{
    let held = held_by(alloc, nodes, circuit)?;
    let definitions = definitions_of(alloc, &held)?;
    'definitions: for definition in &definitions {
        report.push(measure(*circuit, &held, definition))?;
    }
    Ok(())
}

/// What is found at some nodes. The only error is that memory ran out.
pub(crate) fn report_of(alloc: Global, nodes: &[Keeper]) -> Result<Report, AllocError>
    ensures { IfOk result (λ r. r ≡ report (keepers nodes.now)) }
{
    let circuits = circuits_of(alloc, nodes)?;
    let mut all = Listing::new(alloc);
    'circuits: for circuit in &circuits {
        join_circuit(&mut all, alloc, nodes, circuit)?;
    }
    Ok(all)
}
