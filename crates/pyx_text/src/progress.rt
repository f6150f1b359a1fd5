//! What has been read so far.
ghost use Rattle.std.specs.Prelude.{◌≡◌, ◌≤◌};
ghost use Rattle.xml_model.specs.Pyx as spec;
ghost use Rattle.xml_model.specs.declared.limits.TheConstants.{NODES_MAX, TEXT_BYTES_MAX};

use crate::edits::{add_attribute, add_characters, closes_innermost, has_already, texts_added};
use crate::fault::PyxFault;
use crate::open_tag::OpenTag;
use crate::room::push_in_room;
use std::alloc::Global;
use std::mem;
use xml_model::{Attr, DEPTH_MAX, Doc, NODES_MAX, Node, RefusedLine, TEXT_BYTES_MAX, is_name};
use xq_ast::{Items, PyxRefusal, Sequence, Str};

/// What has been read: the open elements, the innermost last, and the nodes inside the innermost.
#[derive(Drop)]
pub(crate) struct Progress {
    alloc: Global,
    stack: Vec<OpenTag>,
    here: Vec<Node>,
    in_tag: bool,
    nodes: u64,
    bytes: u64,
    lines: u64,
    ghost few_nodes: { nodes ≤ NODES_MAX },
    ghost few_bytes: { bytes ≤ TEXT_BYTES_MAX },
}

impl Progress {
    ghost use Rattle.pyx_text.specs.Progress.{reading_of, stack_of, Takes};
    ghost use Rattle.xml_model.specs.Pyx.{start};
    ghost use Rattle.pyx_text.specs.Reader.{Ends};

    pub(crate) fn new(alloc: Global) -> Progress
        ensures { reading_of result ≡ start }
    {
        Progress {
            alloc,
            stack: Vec::new(alloc),
            here: Vec::new(alloc),
            in_tag: false,
            nodes: 0,
            bytes: 0,
            lines: 0,
        }
    }

    /// The refusal of the next line.
    pub(crate) fn refused(&self, why: PyxRefusal) -> PyxFault
        ensures { result ≡ PyxFault.Refused (record { why = why; line = spec.next_line self.now.lines }) }
    {
        PyxFault::Refused(RefusedLine {
            why,
            line: self.lines.saturating_add(1),
        })
    }

    /// A line that begins an element.
    pub(crate) fn begin(&mut self, name: &str) -> Result<(), PyxFault>
        ensures { Takes result (reading_of self.old) (reading_of self.new) (spec.begins name.now) }
    {
        if !is_name(name) {
            return Err(self.refused(PyxRefusal::BadName));
        }
        if self.stack.len() >= DEPTH_MAX {
            return Err(self.refused(PyxRefusal::TooDeep));
        }
        if self.nodes >= NODES_MAX {
            return Err(self.refused(PyxRefusal::TooManyNodes));
        }
        let name = Str::of(self.alloc, name)?;
        self.stack.reserve(1)?;
        let before = mem::replace(&mut self.here, Vec::new(self.alloc));
        push_in_room(&mut self.stack, OpenTag::new(self.alloc, name, before));
        self.in_tag = true;
        self.nodes += 1;
        self.lines = self.lines.saturating_add(1);
        Ok(())
    }
    /// A line that ends an element.
    pub(crate) fn end(&mut self, name: &str) -> Result<(), PyxFault>
        ensures { Takes result (reading_of self.old) (reading_of self.new) (spec.ends name.now) }
    {
        if !is_name(name) {
            return Err(self.refused(PyxRefusal::BadName));
        }
        if !closes_innermost(&self.stack, name) {
            return Err(self.refused(PyxRefusal::EndMismatch));
        }
        let Some(mut tag) = self.stack.pop() else {
            return Err(self.refused(PyxRefusal::EndMismatch));
        };
        if tag.before.reserve(1).is_err() {
            push_in_room(&mut self.stack, tag);
            return Err(PyxFault::NoMemory);
        }
        let OpenTag {
            name,
            mut attrs,
            before,
            ..
        } = tag;
        let mut kids = mem::replace(&mut self.here, before);
        attrs.shrink_to_fit();
        kids.shrink_to_fit();
        push_in_room(
            &mut self.here,
            Node::Element {
                name,
                attrs: Sequence::from_vec(attrs),
                kids: Items::from_vec(kids),
            },
        );
        self.in_tag = false;
        self.lines = self.lines.saturating_add(1);
        Ok(())
    }

    /// An attribute line.
    pub(crate) fn attribute(&mut self, name: &str, value: Str) -> Result<(), PyxFault>
        ensures { Takes result (reading_of self.old) (reading_of self.new) (spec.attribute name.now value) }
    {
        if !is_name(name) {
            return Err(self.refused(PyxRefusal::BadName));
        }
        if !self.in_tag {
            return Err(self.refused(PyxRefusal::AttributeLate));
        }
        if has_already(&self.stack, name) {
            return Err(self.refused(PyxRefusal::AttributeTwice));
        }
        if self.nodes >= NODES_MAX {
            return Err(self.refused(PyxRefusal::TooManyNodes));
        }
        let bytes = self.bytes + value.len() as u64;
        if bytes > TEXT_BYTES_MAX {
            return Err(self.refused(PyxRefusal::TooMuchText));
        }
        let name = Str::of(self.alloc, name)?;
        add_attribute(self.alloc, &mut self.stack, Attr { name, value })?;
        self.nodes += 1;
        self.bytes = bytes;
        self.lines = self.lines.saturating_add(1);
        Ok(())
    }

    /// A line of characters.
    pub(crate) fn characters(&mut self, value: Str) -> Result<(), PyxFault>
        ensures { Takes result (reading_of self.old) (reading_of self.new) (spec.characters value) }
    {
        let nodes = self.nodes + texts_added(&value, &self.here);
        if nodes > NODES_MAX {
            return Err(self.refused(PyxRefusal::TooManyNodes));
        }
        let bytes = self.bytes + value.len() as u64;
        if bytes > TEXT_BYTES_MAX {
            return Err(self.refused(PyxRefusal::TooMuchText));
        }
        add_characters(&mut self.here, value)?;
        self.in_tag = false;
        self.nodes = nodes;
        self.bytes = bytes;
        self.lines = self.lines.saturating_add(1);
        Ok(())
    }

    /// An instruction line.
    pub(crate) fn instruction(&mut self, target: &str, value: Str) -> Result<(), PyxFault>
        ensures { Takes result (reading_of self.old) (reading_of self.new) (spec.instruction target.now value) }
    {
        if !is_name(target) {
            return Err(self.refused(PyxRefusal::BadName));
        }
        if self.nodes >= NODES_MAX {
            return Err(self.refused(PyxRefusal::TooManyNodes));
        }
        let bytes = self.bytes + value.len() as u64;
        if bytes > TEXT_BYTES_MAX {
            return Err(self.refused(PyxRefusal::TooMuchText));
        }
        let target = Str::of(self.alloc, target)?;
        self.here.reserve(1)?;
        push_in_room(&mut self.here, Node::Pi { target, value });
        self.in_tag = false;
        self.nodes += 1;
        self.bytes = bytes;
        self.lines = self.lines.saturating_add(1);
        Ok(())
    }

    /// The end of the lines.
    pub(crate) fn finish(self) -> Result<Doc, PyxFault>
        ensures { Ends result (spec.ended (reading_of self)) }
    {
        if !self.stack.is_empty() {
            return Err(self.refused(PyxRefusal::Unclosed));
        }
        let Progress { here, .. } = self;
        Ok(Doc {
            kids: Items::from_vec(here),
        })
    }
}
