//! What a line changes of what has been read.
ghost use Rattle.std.specs.Prelude.{◌≡◌, ◌<◌, ◌≤◌, ◌+◌, ◌++◌, ◌∷◌, [], OnOk, OnErr, IfErr, vec_len, vec_capacity};
ghost use Rattle.xml_model.specs.Pyx as spec;
ghost use Rattle.xml_model.specs.declared.node.Node.{out-Node};
ghost use Rattle.xml_model.specs.declared.node.Node.TheVariants as nodes;
ghost use Rattle.pyx_text.specs.Progress.{stack_of};

use crate::fault::PyxFault;
use crate::open_tag::OpenTag;
use crate::room::push_in_room;
use std::alloc::Global;
use xml_model::{Attr, Node};
use xq_ast::Str;

/// Whether the name is that of the innermost open element.
pub(crate) fn closes_innermost(stack: &[OpenTag], name: &str) -> bool
    ensures { result ≡ spec.closes name.now (stack_of stack.now) }
{
    match stack {
        [] => false,
        [.., innermost] => innermost.name.as_str() == name,
    }
}

/// Whether the innermost open element has an attribute of this name.
pub(crate) fn has_already(stack: &[OpenTag], name: &str) -> bool
    ensures { result ≡ spec.has_already name.now (stack_of stack.now) }
{
    match stack {
        [] => false,
        [.., innermost] => innermost.has(name),
    }
}

/// Adds an attribute to the innermost open element. After an error nothing has changed.
pub(crate) fn add_attribute(
    alloc: Global,
    stack: &mut Vec<OpenTag>,
    attr: Attr,
) -> Result<(), PyxFault>
    ensures ok { OnOk result (stack_of stack.new.items ≡ spec.with_attribute attr (stack_of stack.old.items)) }
    ensures err { OnErr result (stack_of stack.new.items ≡ stack_of stack.old.items) }
    ensures memory { IfErr result (λ e. e ≡ PyxFault.NoMemory) }
{
    let Some(mut innermost) = stack.pop() else {
        return Ok(());
    };
    let added = innermost.add(alloc, attr);
    push_in_room(stack, innermost);
    added
}

fn is_text(node: &Node) -> bool
    ensures { result ≡ spec.is_text_layer (out-Node node.now) }
{
    match node {
        Node::Element { .. } => false,
        Node::Text { .. } => true,
        Node::Pi { .. } => false,
    }
}

/// Whether the last of the nodes is a text.
#[tactic(auto, using(crate::proofs::Nodes::last_nodes))]
fn ends_in_text(nodes: &[Node]) -> bool
    ensures { result ≡ spec.ends_in_text nodes.now }
{
    match nodes {
        [] => false,
        [.., last] => is_text(last),
    }
}

/// How many nodes the characters add.
pub(crate) fn texts_added(value: &Str, here: &[Node]) -> u64
    ensures { result ≡ spec.texts_added value.now here.now }
{
    if value.is_empty() || ends_in_text(here) {
        0
    } else {
        1
    }
}

/// Adds characters at the end. After an error nothing has changed.
#[tactic(auto, using(crate::proofs::Nodes::last_nodes))]
pub(crate) fn add_characters(here: &mut Vec<Node>, value: Str) -> Result<(), PyxFault>
    ensures ok { OnOk result (here.new.items ≡ spec.with_characters value here.old.items) }
    ensures err { OnErr result (here.new.items ≡ here.old.items) }
    ensures memory { IfErr result (λ e. e ≡ PyxFault.NoMemory) }
{
    if value.is_empty() {
        return Ok(());
    }
    here.reserve(1)?;
    match here.pop() {
        Some(Node::Text { value: first }) => join_text(here, first, &value),
        Some(Node::Element { name, attrs, kids }) => {
            push_both(here, Node::Element { name, attrs, kids }, value);
            Ok(())
        }
        Some(
            Node::Pi {
                target,
                value: text,
            },
        ) => {
            push_both(
                here,
                Node::Pi {
                    target,
                    value: text,
                },
                value,
            );
            Ok(())
        }
        None => {
            push_in_room(here, Node::Text { value });
            Ok(())
        }
    }
}

/// Puts a node back with a text after it.
fn push_both(here: &mut Vec<Node>, node: Node, value: Str)
    requires { vec_len here.old + 2 ≤ vec_capacity here.old }
    ensures { here.new.items ≡ here.old.items ++ node ∷ nodes.Text value ∷ [] }
{
    push_in_room(here, node);
    push_in_room(here, Node::Text { value });
}

/// Puts a text back with more at its end. After an error it is put back as it was.
pub(crate) fn join_text(here: &mut Vec<Node>, mut first: Str, more: &Str) -> Result<(), PyxFault>
    requires { vec_len here.old < vec_capacity here.old }
    ensures ok { OnOk result (here.new.items ≡ here.old.items ++ nodes.Text (first ++ more.now) ∷ []) }
    ensures err { OnErr result (here.new.items ≡ here.old.items ++ nodes.Text first ∷ []) }
    ensures memory { IfErr result (λ e. e ≡ PyxFault.NoMemory) }
{
    let joined = first.push_str(more.as_str());
    push_in_room(here, Node::Text { value: first });
    Ok(joined?)
}
