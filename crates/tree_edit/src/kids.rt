//! The children of a new element as they come: texts are joined, and empty ones are dropped.
ghost use Rattle.std.specs.Prelude.{◌≡◌, OnOk, IfOk};
ghost use Rattle.tree_edit.specs.Tidy as spec;

use std::alloc::Global;
use xml_model::{Node, NodeList};
use xq_ast::{Items, NoMemory, Str};

/// Children so far, and the text behind them, to which a text that follows is joined.
#[derive(Debug, Drop)]
pub struct Kids {
    pub nodes: NodeList,
    pub text: Str,
}

impl Kids {
    /// No children.
    pub fn new(alloc: Global) -> Kids
        ensures { result ≡ spec.no_kids }
    {
        Kids {
            nodes: Items::new(alloc),
            text: Str::new(alloc),
        }
    }

    // The text at the end becomes a child, where it is not empty.
    fn close(&mut self, alloc: Global) -> Result<(), NoMemory>
        ensures { OnOk result (self.new ≡ spec.closed self.old) }
    {
        if self.text.is_empty() {
            return Ok(());
        }
        let text = std::mem::replace(&mut self.text, Str::new(alloc));
        self.nodes.push(Node::Text { value: text })?;
        Ok(())
    }

    /// A text comes.
    pub fn push_text(&mut self, value: &Str) -> Result<(), NoMemory>
        ensures { OnOk result (self.new ≡ spec.with_text self.old value.now) }
    {
        self.text.push_str(value.as_str())
    }

    /// A node comes that is no text.
    pub fn push_other(&mut self, alloc: Global, node: Node) -> Result<(), NoMemory>
        ensures { OnOk result (self.new ≡ spec.with_other self.old node) }
    {
        self.close(alloc)?;
        self.nodes.push(node)?;
        Ok(())
    }

    /// All of them, once the last has come.
    pub fn finish(self) -> Result<NodeList, NoMemory>
        ensures { IfOk result (λ nodes. nodes ≡ (spec.closed self).nodes) }
    {
        let Kids { mut nodes, text } = self;
        if !text.is_empty() {
            nodes.push(Node::Text { value: text })?;
        }
        Ok(nodes)
    }
}
