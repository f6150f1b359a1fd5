//! A text that comes in pieces, read as a document line by line.
ghost use Rattle.std.specs.Prelude.{◌≡◌, ◌∷◌, ◌++◌, [], List, ℕ, OnOk, IsUtf8};
ghost use Rattle.xml_model.specs.Pyx.{IsPlain};
ghost use Rattle.page_bytes.specs.declared.end.PageEnd.TheVariants.{Damaged};
ghost use Rattle.page_bytes.specs.Head.{head_of};
ghost use Rattle.flat_doc.specs.Lines.{IsRead, Reads, GivesDoc};

use crate::cuts::cut_line;
use page_bytes::{PageEnd, PageId, Space};
use pyx_text::{PyxFault, PyxReader};
use std::alloc::Global;
use std::mem;
use xml_model::Doc;
use xq_ast::Str;

/// What has been read of a text, and the bytes of its last line so far.
#[derive(Drop)]
pub struct Lines {
    alloc: Global,
    space: Space,
    reader: PyxReader,
    line: Vec<u8>,
}

impl Lines {
    /// Nothing has been read.
    pub fn new(alloc: Global, space: Space) -> Lines
        ensures space { result.space ≡ space }
        ensures read { IsRead [] result.reader result.line.items }
    {
        Lines {
            alloc,
            space,
            reader: PyxReader::new(alloc),
            line: Vec::new(alloc),
        }
    }

    /// Reads more bytes. Where the text is no document's, page 0 is damaged.
    pub fn read(&mut self, bytes: &[u8]) -> Result<(), PageEnd>
        ensures space { self.new.space ≡ self.old.space }
        ensures read { (text : List ℕ) → IsRead text self.old.reader self.old.line.items → Reads self.old.space (text ++ bytes.now) result self.new.reader self.new.line.items }
    {
        let mut rest = bytes;
        while let Some(cut) = cut_line(rest) {
            match self.end_line(cut.line) {
                Ok(()) => {}
                Err(end) => return Err(end),
            }
            rest = cut.rest;
        }
        self.add(rest)
    }

    // Adds bytes to the line. None of them ends it.
    fn add(&mut self, bytes: &[u8]) -> Result<(), PageEnd>
        requires { IsPlain bytes.now }
        ensures space { self.new.space ≡ self.old.space }
        ensures read { (text : List ℕ) → IsRead text self.old.reader self.old.line.items → Reads self.old.space (text ++ bytes.now) result self.new.reader self.new.line.items }
    {
        match self.line.extend_from_slice(bytes) {
            Ok(()) => Ok(()),
            Err(_) => Err(PageEnd::NoMemory),
        }
    }

    // Adds the last bytes of the line, and gives it to the reader.
    fn end_line(&mut self, bytes: &[u8]) -> Result<(), PageEnd>
        requires { IsPlain bytes.now }
        ensures space { self.new.space ≡ self.old.space }
        ensures read { (text : List ℕ) → IsRead text self.old.reader self.old.line.items → Reads self.old.space (text ++ (bytes.now ++ 10 ∷ [])) result self.new.reader self.new.line.items }
    {
        match self.add(bytes) {
            Ok(()) => self.take_line(),
            Err(end) => Err(end),
        }
    }

    // Gives the reader the line, which is whole.
    fn take_line(&mut self) -> Result<(), PageEnd>
        ensures space { self.new.space ≡ self.old.space }
        ensures empty { OnOk result (self.new.line.items ≡ []) }
        ensures read { (text : List ℕ) → IsRead text self.old.reader self.old.line.items → Reads self.old.space (text ++ 10 ∷ []) result self.new.reader self.new.line.items }
    {
        let bytes = mem::replace(&mut self.line, Vec::new(self.alloc));
        let Ok(text) = String::from_utf8(bytes) else {
            return Err(damaged(self.space));
        };
        let line = Str::from_string(text);
        let taken = give(&mut self.reader, self.space, &line);
        self.line = line.into_string().into_bytes();
        self.line.clear();
        taken
    }

    /// The document, once the whole text has been read.
    pub fn end(self) -> Result<Doc, PageEnd>
        ensures { (text : List ℕ) → IsRead text self.reader self.line.items → GivesDoc self.space text result }
    {
        let mut lines = self;
        if lines.line.is_empty() {
            return lines.finish();
        }
        match lines.take_line() {
            Ok(()) => lines.finish(),
            Err(end) => Err(end),
        }
    }

    // The document, where no line has begun.
    fn finish(self) -> Result<Doc, PageEnd>
        ensures { (text : List ℕ) → IsRead text self.reader [] → GivesDoc self.space text result }
    {
        let Lines { reader, space, .. } = self;
        match reader.end() {
            Ok(doc) => Ok(doc),
            Err(PyxFault::Refused(_)) => Err(damaged(space)),
            Err(PyxFault::NoMemory) => Err(PageEnd::NoMemory),
        }
    }
}

fn damaged(space: Space) -> PageEnd
    ensures { result ≡ Damaged (head_of space) }
{
    PageEnd::Damaged {
        page: PageId { space, number: 0 },
    }
}

// Gives a reader a line.
fn give(reader: &mut PyxReader, space: Space, line: &Str) -> Result<(), PageEnd>
    requires { IsUtf8 line.now }
    ensures { (text : List ℕ) → IsRead text reader.old line.now → Reads space (text ++ 10 ∷ []) result reader.new [] }
{
    match reader.line(line) {
        Ok(()) => Ok(()),
        Err(PyxFault::Refused(_)) => Err(damaged(space)),
        Err(PyxFault::NoMemory) => Err(PageEnd::NoMemory),
    }
}
