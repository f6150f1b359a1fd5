//! The reader of PYX lines.
ghost use Rattle.std.specs.Prelude.{◌≡◌, ◌∷◌, Option, Some, Result, Ok, Err};
ghost use Rattle.xml_model.specs.Pyx.{start};
ghost use Rattle.pyx_text.specs.Reader.{TakesLine, Ends, end_of};

use crate::fault::PyxFault;
use crate::lines::take_line;
use crate::progress::Progress;
use std::alloc::Global;
use std::marker::Model;
use xml_model::{Doc, RefusedLine};
use xq_ast::Str;

/// Reads a document line by line. Contracts see what has been read so far, or the refusal.
#[derive(Drop)]
pub struct PyxReader {
    alloc: Global,
    progress: Progress,
    failed: Option<RefusedLine>,
}

impl Model for PyxReader {
    ghost use Rattle.std.specs.Prelude.{Result};
    ghost use Rattle.xml_model.specs.declared.node.RefusedLine.{RefusedLine};
    ghost use Rattle.xml_model.specs.Pyx.{Reading};
    ghost use Rattle.xml_model.specs.contracts.node.Node as node;
    ghost use Rattle.std.specs.Coded.{codes};

    ghost Value = { Result Reading RefusedLine };

    ghost coded = { Prim.hlevel (codes, node.the_row.coded) };

    ghost use Rattle.pyx_text.specs.Progress.{read_so_far};

    ghost view = { λ r. read_so_far r.failed r.progress };
}

impl PyxReader {
    /// A reader that has read nothing. Takes no memory.
    pub fn new(alloc: Global) -> PyxReader
        ensures { result ≡ Ok start }
    {
        PyxReader {
            alloc,
            progress: Progress::new(alloc),
            failed: None,
        }
    }

    /// Takes the next line, which is given without its newline. After a refusal it answers the same
    /// refusal to each line; after `NoMemory` the line counts as not given.
    pub fn line(&mut self, text: &Str) -> Result<(), PyxFault>
        ensures { TakesLine result text.now self.old self.new }
    {
        if let Some(refusal) = self.failed {
            return Err(PyxFault::Refused(refusal));
        }
        let taken = take_line(self.alloc, &mut self.progress, text.as_str());
        if let Err(PyxFault::Refused(refusal)) = taken {
            self.failed = Some(refusal);
        }
        taken
    }

    /// The document that the lines spell, or the first refusal. Takes no memory.
    pub fn end(self) -> Result<Doc, PyxFault>
        ensures { Ends result (end_of self) }
    {
        if let Some(refusal) = self.failed {
            return Err(PyxFault::Refused(refusal));
        }
        self.progress.finish()
    }
}
