//! The bytes of a head.
ghost use Rattle.std.specs.Prelude.{◌≡◌, ◌≤◌, ◌+◌, ◌*◌, ◌++◌, All, length, take, IfOk, OnOk};
ghost use Rattle.std.specs.List.{flat_map};
ghost use Rattle.xq_ast.specs.declared.limits.TheConstants.{DOCUMENT_NAME_BYTES_MAX};
ghost use Rattle.redo_log.specs.Record.{number};
ghost use Rattle.slot_store.specs.Planned.{placed_bytes};
ghost use Rattle.slot_store.specs.Head.{magic, document_bytes, front_bytes};

use crate::planning::Placed;
use redo_log::{LogName, push_entry, push_number, push_text};
use std::alloc::Global;
use xq_ast::NoMemory;

/// How many bytes a row has.
pub const ROW_BYTES: usize = 32;

/// The front of a head: the bytes by which a log is known, the generation, the commit, both counts, the documents.
pub fn front_of(
    alloc: Global,
    generation: u64,
    commit: u64,
    entries: &[LogName],
    pages: usize,
) -> Result<Vec<u8>, NoMemory>
    requires { All (λ n. length n.name ≤ DOCUMENT_NAME_BYTES_MAX) entries.now }
    ensures { IfOk result (λ front. front.items ≡ front_bytes generation commit entries.now pages) }
{
    let mut out = Vec::new(alloc);
    out.extend_from_slice(b"XDBLOG01")?;
    push_number(&mut out, generation)?;
    push_number(&mut out, commit)?;
    push_number(&mut out, entries.len() as u64)?;
    push_number(&mut out, pages as u64)?;
    push_documents(&mut out, entries)?;
    Ok(out)
}

fn push_documents(out: &mut Vec<u8>, entries: &[LogName]) -> Result<(), NoMemory>
    requires { All (λ n. length n.name ≤ DOCUMENT_NAME_BYTES_MAX) entries.now }
    ensures { OnOk result (out.new.items ≡ out.old.items ++ flat_map document_bytes entries.now) }
{
    for entry in entries {
        push_document(out, entry)?;
    }
    Ok(())
}

fn push_document(out: &mut Vec<u8>, document: &LogName) -> Result<(), NoMemory>
    requires { length document.now.name ≤ DOCUMENT_NAME_BYTES_MAX }
    ensures { OnOk result (out.new.items ≡ out.old.items ++ document_bytes document.now) }
{
    push_text(out, &document.name)?;
    match &document.entry {
        None => Ok(()),
        Some(entry) => push_entry(out, entry),
    }
}

/// Writes rows into a buffer, from its front on.
pub fn fill_rows(buffer: &mut [u8], rows: &[Placed])
    requires { length rows.now * 32 ≤ length buffer.old }
    ensures bytes { take (length rows.now * 32) buffer.new ≡ flat_map placed_bytes rows.now }
    ensures long { length buffer.new ≡ length buffer.old }
{
    let mut at = 0;
    for row in rows {
        fill_row(buffer, at, row);
        at += ROW_BYTES;
    }
}

fn fill_row(buffer: &mut [u8], at: usize, row: &Placed)
    requires { at + 32 ≤ length buffer.old }
    ensures bytes { take (at + 32) buffer.new ≡ take at buffer.old ++ placed_bytes row.now }
    ensures long { length buffer.new ≡ length buffer.old }
{
    fill_number(buffer, at, row.id.space.commit);
    fill_number(buffer, at + 8, row.id.space.ordinal);
    fill_number(buffer, at + 16, row.id.number);
    fill_number(buffer, at + 24, row.slot);
}

#[tactic(auto, unfolding(redo_log::specs::Record::number))]
fn fill_number(buffer: &mut [u8], at: usize, value: u64)
    requires { at + 8 ≤ length buffer.old }
    ensures bytes { take (at + 8) buffer.new ≡ take at buffer.old ++ number value }
    ensures long { length buffer.new ≡ length buffer.old }
{
    buffer[at..at + 8].copy_from_slice(&value.to_be_bytes());
}
