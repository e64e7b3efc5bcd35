//! The nodes that a document spells.
ghost use Rattle.std.specs.Prelude.{◌≡◌, ◌≢◌, ◌≤◌, [], Ok, Err, length, IfOk, IfErr};
ghost use Rattle.toml.specs.View.{items_view, table_view};
ghost use Rattle.spl_registry.specs.Nodes.{IsRegistry, entries_from, registry_of_items, registry_of_tree, registry_of_text, registry_of};

use crate::fault::RegistryFault;
use crate::node::{Node, knows};
use crate::tree::{entry_of, list_at};
use std::alloc::Global;
use toml::{Table, Value};

/// The nodes that at most 16 values spell.
fn entries_of(alloc: Global, values: &[Value]) -> Result<Vec<Node>, RegistryFault>
    requires { length values.now ≤ 16 }
    ensures ok { IfOk result (λ v. entries_from [] 1 (items_view values.now) ≡ Ok v.items) }
    ensures err { IfErr result (λ e. (e ≢ RegistryFault.NoMemory) → entries_from [] 1 (items_view values.now) ≡ Err e) }
{
    let mut found = Vec::new(alloc);
    for (i, value) in values.iter().enumerate() {
        let index = i as u32 + 1;
        let Some(node) = entry_of(alloc, value)? else {
            return Err(RegistryFault::BadEntry { index });
        };
        if knows(found.as_slice(), node.identity()) {
            return Err(RegistryFault::Repeated { index });
        }
        found.push(node)?;
    }
    Ok(found)
}

/// The nodes that the values of a list spell.
#[tactic(auto, using(crate::proofs::Trees::items_len_view, crate::proofs::Registries::read_is_registry))]
fn nodes_of(alloc: Global, values: &[Value]) -> Result<Vec<Node>, RegistryFault>
    ensures ok { IfOk result (λ v. registry_of_items (items_view values.now) ≡ Ok v.items) }
    ensures registry { IfOk result (λ v. IsRegistry v.items) }
    ensures err { IfErr result (λ e. (e ≢ RegistryFault.NoMemory) → registry_of_items (items_view values.now) ≡ Err e) }
{
    if values.len() > 16 {
        let count = values.len().min(u32::MAX as usize) as u32;
        return Err(RegistryFault::TooMany { count });
    }
    entries_of(alloc, values)
}

/// The nodes that a document's tree spells.
fn nodes_of_tree(alloc: Global, table: &Table) -> Result<Vec<Node>, RegistryFault>
    ensures ok { IfOk result (λ v. registry_of_tree (table_view table.now) ≡ Ok v.items) }
    ensures registry { IfOk result (λ v. IsRegistry v.items) }
    ensures err { IfErr result (λ e. (e ≢ RegistryFault.NoMemory) → registry_of_tree (table_view table.now) ≡ Err e) }
{
    match list_at(table, "node") {
        Some(values) => nodes_of(alloc, values.as_slice()),
        None => Err(RegistryFault::NotToml),
    }
}

/// The nodes that a text spells.
fn nodes_of_text(alloc: Global, text: &str) -> Result<Vec<Node>, RegistryFault>
    ensures ok { IfOk result (λ v. registry_of_text text.now ≡ Ok v.items) }
    ensures registry { IfOk result (λ v. IsRegistry v.items) }
    ensures err { IfErr result (λ e. (e ≢ RegistryFault.NoMemory) → registry_of_text text.now ≡ Err e) }
{
    match toml::table_from_str(alloc, text) {
        Ok(table) => nodes_of_tree(alloc, &table),
        Err(e) => {
            if e.is_memory() {
                return Err(RegistryFault::NoMemory);
            }
            Err(RegistryFault::NotToml)
        }
    }
}

/// The nodes that bytes spell.
#[tactic(auto, using(crate::proofs::Trees::utf8_true, crate::proofs::Trees::utf8_false))]
pub(crate) fn nodes_of_bytes(alloc: Global, bytes: &[u8]) -> Result<Vec<Node>, RegistryFault>
    ensures ok { IfOk result (λ v. registry_of bytes.now ≡ Ok v.items) }
    ensures registry { IfOk result (λ v. IsRegistry v.items) }
    ensures err { IfErr result (λ e. (e ≢ RegistryFault.NoMemory) → registry_of bytes.now ≡ Err e) }
{
    match std::str::from_utf8(bytes) {
        Ok(text) => nodes_of_text(alloc, text),
        Err(_) => Err(RegistryFault::NotToml),
    }
}
