//! Steps of paths.
use crate::sequence::Sequence;
use crate::text::Str;

/// The way of a step (XML Path Language 2.0, section 3.2.1.1). `Itself` is written `self`.
#[derive(Clone, Copy, Debug, PartialEq, Eq)]
pub enum Axis {
    Child,
    Descendant,
    DescendantOrSelf,
    Itself,
    Attribute,
    Parent,
}

/// Which nodes a step takes.
#[derive(Debug, Drop)]
pub enum Test {
    /// Nodes of the axis's own kind with this name. None is `*`.
    Name { name: Option<Str> },
    /// `node()`
    AnyNode,
    /// `text()`
    Text,
    /// `processing-instruction()`
    Pi,
}

/// A step of a structural path. `deep` says that `//` stands before it, and a name of None is
/// `*`.
#[derive(Debug, Drop)]
pub struct PathStep {
    pub deep: bool,
    pub attribute: bool,
    pub name: Option<Str>,
}

/// The steps of a structural path.
pub type PathTest = Sequence<PathStep>;
