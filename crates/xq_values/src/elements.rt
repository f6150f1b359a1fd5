//! New elements.
ghost use Rattle.std.specs.Prelude.{◌≡◌, List};
ghost use Rattle.xml_model.specs.Constructors as spec;
ghost use Rattle.xq_values.specs.Contents.{StandsFor};
ghost use Rattle.xq_values.specs.Elements.{element_with};
ghost use Rattle.xq_values.specs.Gives.{Gives};

use crate::content::Content;
use crate::end::ValueEnd;
use xml_model::{Attr, DEPTH_MAX, NODES_MAX, Node, TEXT_BYTES_MAX, has_attribute};
use xq_ast::{Code, Str};

/// Whether two attributes have one name. Takes time by the square of their number.
pub fn has_name_twice(attrs: &[Attr]) -> bool
    ensures { result ≡ spec.has_name_twice attrs.now }
{
    let mut rest = attrs;
    while let [first, others @ ..] = rest {
        if has_attribute(others, first.name.as_str()) {
            return true;
        }
        rest = others;
    }
    false
}

// The node, where it keeps to the three limits.
fn limited(node: Node) -> Result<Node, Code>
    ensures { result ≡ spec.limited node }
{
    let measure = node.measure();
    if measure.depth as usize > DEPTH_MAX {
        Err(Code::TooDeep)
    } else if measure.nodes > NODES_MAX {
        Err(Code::TooManyNodes)
    } else if measure.bytes > TEXT_BYTES_MAX {
        Err(Code::TooMuchText)
    } else {
        Ok(node)
    }
}

// A new element with this content, or the first code of its tests.
fn element_of(name: &Str, content: Content) -> Result<Node, ValueEnd>
    ensures { Gives (λ n. n) result (element_with name.now content) }
{
    let Content {
        attrs,
        kids,
        late,
        ..
    } = content;
    if late {
        return Err(ValueEnd::Code(Code::XQTY0024));
    }
    if has_name_twice(attrs.as_slice()) {
        return Err(ValueEnd::Code(Code::XQDY0025));
    }
    let name = name.copy()?;
    Ok(limited(Node::Element { name, attrs, kids })?)
}

/// A new element with this content, which is closed, or the first code of its tests.
pub fn element(name: &Str, content: Content) -> Result<Node, ValueEnd>
    ensures { (ps : List spec.Piece) → StandsFor content ps → Gives (λ n. n) result (spec.element name.now ps) }
{
    element_of(name, content)
}
