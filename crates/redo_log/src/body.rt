//! A record's bytes, made before it is appended.
ghost use Rattle.std.specs.Prelude.{◌≡◌, ◌≤◌, ◌++◌, ◌∷◌, [], Option, Some, All, List, ℕ, length, drop, IfOk, OnOk};
ghost use Rattle.std.specs.List.{flat_map};
ghost use Rattle.xq_ast.specs.declared.limits.TheConstants.{DOCUMENT_NAME_BYTES_MAX};
ghost use Rattle.page_bytes.specs.declared.ids.DocEntry.{DocEntry};
ghost use Rattle.redo_log.specs.Record.{number, name_bytes, space_bytes, form_byte, entry_bytes, id_bytes, named_bytes, name_change, page_change, body_of, tail_of};

use crate::change::{Change, LogName};
use page_bytes::{DocEntry, PageChange, PageId, Space};
use std::alloc::Global;
use std::marker::Model;
use xq_ast::{NoMemory, Str};

/// A record that can be appended. Contracts see the bytes of its body.
#[derive(Drop)]
pub struct LogBody {
    // what is written behind the gate: the body's length, the body, and the next gate
    tail: Vec<u8>,
}

impl Model for LogBody {
    ghost use Rattle.std.specs.Prelude.{List, ℕ};
    ghost use Rattle.redo_log.specs.Body.{body_in, IsTail};

    ghost Value = { List ℕ };

    ghost view = { λ b. body_in b.tail.items };

    ghost invariant = { λ b. IsTail b.tail.items };
}

impl LogBody {
    /// The bytes that stand after the record's gate: its length, its body, and the next gate, which is closed.
    pub fn tail(&self) -> &[u8]
        ensures { result.now ≡ tail_of self.now }
    {
        self.tail.as_slice()
    }
}

/// The record of a change.
pub fn build(alloc: Global, change: &Change) -> Result<LogBody, NoMemory>
    requires { All (λ n. length n.name ≤ DOCUMENT_NAME_BYTES_MAX) change.now.names }
    ensures { IfOk result (λ b. b ≡ body_of change.now) }
{
    let mut tail = Vec::new(alloc);
    push_number(&mut tail, 0)?;
    push_body(&mut tail, change)?;
    let long = tail.len() - 8;
    set_length(&mut tail, long as u64);
    tail.push(0)?;
    Ok(LogBody { tail })
}

// Writes the body's length before it.
fn set_length(tail: &mut Vec<u8>, long: u64)
    requires { 8 ≤ length tail.old.items }
    ensures { tail.new.items ≡ number long ++ drop 8 tail.old.items }
{
    put_number(tail.as_mut_slice(), long);
}

fn push_body(out: &mut Vec<u8>, change: &Change) -> Result<(), NoMemory>
    requires { All (λ n. length n.name ≤ DOCUMENT_NAME_BYTES_MAX) change.now.names }
    ensures { OnOk result (out.new.items ≡ out.old.items ++ body_of change.now) }
{
    let names = change.names.as_slice();
    let pages = change.pages.as_slice();
    push_number(out, change.commit)?;
    push_number(out, names.len() as u64)?;
    push_names(out, names)?;
    push_number(out, pages.len() as u64)?;
    push_pages(out, pages)
}

fn push_names(out: &mut Vec<u8>, names: &[LogName]) -> Result<(), NoMemory>
    requires { All (λ n. length n.name ≤ DOCUMENT_NAME_BYTES_MAX) names.now }
    ensures { OnOk result (out.new.items ≡ out.old.items ++ flat_map name_change names.now) }
{
    for change in names {
        push_name(out, change)?;
    }
    Ok(())
}

fn push_name(out: &mut Vec<u8>, change: &LogName) -> Result<(), NoMemory>
    requires { length change.now.name ≤ DOCUMENT_NAME_BYTES_MAX }
    ensures { OnOk result (out.new.items ≡ out.old.items ++ name_change change.now) }
{
    match &change.entry {
        None => {
            out.push(0)?;
            push_text(out, &change.name)
        }
        Some(entry) => {
            out.push(1)?;
            push_text(out, &change.name)?;
            push_entry(out, entry)
        }
    }
}

/// Writes a name: its length in one byte, and its bytes.
pub fn push_text(out: &mut Vec<u8>, name: &Str) -> Result<(), NoMemory>
    requires { length name.now ≤ DOCUMENT_NAME_BYTES_MAX }
    ensures { OnOk result (out.new.items ≡ out.old.items ++ name_bytes name.now) }
{
    let bytes = name.as_bytes();
    out.push(bytes.len() as u8)?;
    Ok(out.extend_from_slice(bytes)?)
}

/// Writes a document of the catalogue: its space, and whether it is clustered.
pub fn push_entry(out: &mut Vec<u8>, entry: &DocEntry) -> Result<(), NoMemory>
    ensures { OnOk result (out.new.items ≡ out.old.items ++ entry_bytes entry.now) }
{
    push_space(out, &entry.space)?;
    Ok(out.push(if entry.clustered { 1 } else { 0 })?)
}

/// Writes a space.
pub fn push_space(out: &mut Vec<u8>, space: &Space) -> Result<(), NoMemory>
    ensures { OnOk result (out.new.items ≡ out.old.items ++ space_bytes space.now) }
{
    push_number(out, space.commit)?;
    push_number(out, space.ordinal)
}

fn push_pages(out: &mut Vec<u8>, pages: &[PageChange]) -> Result<(), NoMemory>
    ensures { OnOk result (out.new.items ≡ out.old.items ++ flat_map page_change pages.now) }
{
    for change in pages {
        push_page(out, change)?;
    }
    Ok(())
}

fn push_page(out: &mut Vec<u8>, change: &PageChange) -> Result<(), NoMemory>
    ensures { OnOk result (out.new.items ≡ out.old.items ++ page_change change.now) }
{
    push_id(out, &change.id)?;
    match &change.page {
        None => Ok(out.push(0)?),
        Some(page) => {
            out.push(1)?;
            Ok(out.extend_from_slice(page.bytes())?)
        }
    }
}

/// Writes a page's space and its number.
pub fn push_id(out: &mut Vec<u8>, id: &PageId) -> Result<(), NoMemory>
    ensures { OnOk result (out.new.items ≡ out.old.items ++ id_bytes id.now) }
{
    push_space(out, &id.space)?;
    push_number(out, id.number)
}

/// Writes a number of eight bytes, the highest first.
#[tactic(auto, unfolding(crate::specs::Record::number))]
pub fn push_number(out: &mut Vec<u8>, value: u64) -> Result<(), NoMemory>
    ensures { OnOk result (out.new.items ≡ out.old.items ++ number value) }
{
    Ok(out.extend_from_slice(&value.to_be_bytes())?)
}

#[tactic(auto, unfolding(crate::specs::Record::number))]
fn put_number(bytes: &mut [u8], value: u64)
    requires { 8 ≤ length bytes.old }
    ensures { bytes.new ≡ number value ++ drop 8 bytes.old }
{
    bytes[..8].copy_from_slice(&value.to_be_bytes());
}
