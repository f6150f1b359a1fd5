//! A sink that writes a text into flat pages.
ghost use Rattle.std.specs.Prelude.{◌≡◌, ◌<◌, ◌≤◌, ◌+◌, ◌*◌, ◌^◌, ◌++◌, ◌∷◌, [], length, take, vec_len, IfOk, IfSome, OnOk, OnErr};
ghost use Rattle.std.specs.Io.KnownBytes.{append_known};
ghost use Rattle.byte_edge.specs.Faults.{HasCause, Rises};
ghost use Rattle.page_bytes.specs.Fields.{with_bytes};
ghost use Rattle.flat_doc.specs.Putting.{flat_pages, page_of};
ghost use Rattle.flat_doc.specs.Sink.{IsWritten, HasRoom, with_length};

use crate::forms::{LENGTH_BYTES, PIECE_AT, PIECE_BYTES, empty_page};
use byte_edge::{Failed, Sink};
use page_bytes::{Draft, NoMemory, PAGE_BYTES};
use std::alloc::Global;
use std::marker::Model;
use std::mem;

/// Pages that a text is written into, behind room for its length: the full ones, and the one that is written now, up to a
/// place. Contracts see the text, and how often memory was refused.
#[derive(Drop)]
pub struct FlatSink {
    alloc: Global,
    full: Vec<Draft>,
    page: Draft,
    at: usize,
    failed: u64,
}

impl Model for FlatSink {
    ghost use Rattle.flat_doc.specs.Sink.{Written, written_on, IsWritten};

    ghost Value = { Written };

    ghost view = { λ s. written_on s.full.items s.page s.at s.failed };

    ghost invariant = { λ s. IsWritten s.full.items s.page s.at };
}

impl FlatSink {
    /// The pages of the empty text.
    pub fn new(alloc: Global) -> Result<FlatSink, NoMemory>
        ensures { IfOk result (λ sink. sink ≡ record { text = []; faults = 0 }) }
    {
        Ok(FlatSink {
            alloc,
            full: Vec::new(alloc),
            page: empty_page(alloc)?,
            at: PIECE_AT + LENGTH_BYTES,
            failed: 0,
        })
    }

    fn fail(&mut self) -> Failed
        ensures text { self.new.text ≡ self.old.text }
        ensures rose { Rises self.old.faults self.new.faults }
    {
        self.failed = self.failed.saturating_add(1);
        Failed
    }

    /// The pages of the text, with its length. A text of more than 64 bits' length finds no memory.
    pub fn finish(self) -> Result<Vec<Draft>, NoMemory>
        ensures pages { IfOk result (λ pages. pages.items ≡ flat_pages self.text) }
        ensures length { OnOk result (length self.text < 2 ^ 64) }
    {
        let FlatSink { full, page, at, .. } = self;
        let mut pages = full;
        let Some(length) = length_on(pages.len(), at) else {
            return Err(NoMemory);
        };
        if pages.reserve(1).is_err() {
            return Err(NoMemory);
        }
        pages.push_reserved(page);
        set_length(&mut pages, length);
        Ok(pages)
    }
}

// How long the text is that runs through so many full pages and one more up to a place.
fn length_on(full: usize, at: usize) -> Option<u64>
    requires { 9 ≤ full * 4095 + at }
    ensures { IfSome result (λ length. length + 9 ≡ full * 4095 + at) }
{
    let before = (full as u64).checked_mul(PIECE_BYTES as u64)?;
    let all = before.checked_add(at as u64)?;
    Some(all - (PIECE_AT + LENGTH_BYTES) as u64)
}

// Writes the length into page 0.
fn set_length(pages: &mut Vec<Draft>, length: u64)
    requires { 0 < vec_len pages.old }
    ensures { pages.new.items ≡ with_length pages.old.items length }
{
    pages[0].write_u64(PIECE_AT, length);
}

// Puts the page to the full ones, and begins a new one.
fn turn(alloc: Global, full: &mut Vec<Draft>, page: &mut Draft) -> Result<(), NoMemory>
    ensures full { OnOk result (full.new.items ≡ full.old.items ++ page.old ∷ []) }
    ensures page { OnOk result (page.new ≡ page_of []) }
    ensures kept_full { OnErr result (full.new.items ≡ full.old.items) }
    ensures kept_page { OnErr result (page.new ≡ page.old) }
{
    let fresh = empty_page(alloc)?;
    if full.reserve(1).is_err() {
        return Err(NoMemory);
    }
    full.push_reserved(mem::replace(page, fresh));
    Ok(())
}

// Makes room for a byte more: where the page is full, a new one is begun.
fn make_room(
    alloc: Global,
    full: &mut Vec<Draft>,
    page: &mut Draft,
    at: &mut usize,
) -> Result<(), NoMemory>
    requires { IsWritten full.old.items page.old at.old }
    ensures ok { OnOk result (HasRoom full.old.items page.old at.old full.new.items page.new at.new) }
    ensures kept_full { OnErr result (full.new.items ≡ full.old.items) }
    ensures kept_page { OnErr result (page.new ≡ page.old) }
    ensures kept_at { OnErr result (at.new ≡ at.old) }
{
    if *at < PAGE_BYTES {
        return Ok(());
    }
    turn(alloc, full, page)?;
    *at = PIECE_AT;
    Ok(())
}

// Writes the first of these bytes, as many as the page has room for, and answers how many.
fn write_front(page: &mut Draft, at: usize, bytes: &[u8]) -> usize
    requires { at < 4096 }
    ensures within { result ≤ length bytes.now }
    ensures room { at + result ≤ 4096 }
    ensures some { 0 < length bytes.now → 0 < result }
    ensures written { page.new ≡ with_bytes page.old at (take result bytes.now) }
{
    let count = bytes.len().min(PAGE_BYTES - at);
    page.write_bytes(at, &bytes[..count]);
    count
}

impl Sink for FlatSink {
    ghost use Rattle.std.specs.Prelude.{Some};

    ghost written = { λ s. Some s.text };

    ghost faults = { λ s. s.faults };

    fn put(&mut self, bytes: &[u8]) -> Result<usize, Failed>
        ensures within { IfOk result (λ n. n ≤ length bytes.now) }
        ensures some { IfOk result (λ n. 0 < length bytes.now → 0 < n) }
        ensures appended { IfOk result (λ n. Some self.new.text ≡ append_known (Some self.old.text) (take n bytes.now)) }
        ensures stays { OnErr result (Some self.new.text ≡ Some self.old.text) }
        ensures cause { HasCause self.old.faults self.new.faults result }
    {
        if bytes.is_empty() {
            return Ok(0);
        }
        match make_room(self.alloc, &mut self.full, &mut self.page, &mut self.at) {
            Ok(()) => {}
            Err(_) => return Err(self.fail()),
        }
        let count = write_front(&mut self.page, self.at, bytes);
        self.at += count;
        Ok(count)
    }
}
