//! Kinds of nodes.
/// What a node is (XQuery 1.0 and XPath 2.0 Data Model, section 6).
#[derive(Clone, Copy, Debug, PartialEq, Eq)]
pub enum Kind {
    Document,
    Element,
    Attribute,
    Text,
    Pi,
}
