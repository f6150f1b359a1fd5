//! Navigation: how evaluation moves among the nodes of documents, wherever these are kept.
ghost use Rattle.std.specs.Prelude.{◌≡◌, ℕ, ◌<◌, ◌≤◌, List, IfOk, IfErr, IfSome};
ghost use Rattle.std.specs.FinMap as forests;
ghost use Rattle.std.specs.Option.{option_map};
ghost use Rattle.xml_model.specs.declared.nav.TheConstants.{NUMBER_MAX};
ghost use Rattle.xml_model.specs.declared.nav.Id.{Id};
ghost use Rattle.xml_model.specs.Forest.{Forest, IsForest};
ghost use Rattle.xml_model.specs.DocumentOrder.{node_cmp};
ghost use Rattle.xml_model.specs.Nav.{Stored, root_of, first_of_node, next_of_node, parent_of_node, stored_at, told_at};
ghost use Rattle.xml_model.specs.NavFaults.{Passes};

use std::cmp::Ordering;
use xq_ast::{Kind, NoMemory, Str};

/// The greatest number that a node has.
pub const NUMBER_MAX: u64 = 4_294_967_296;

/// A node, as a `Nav` knows it.
#[derive(Clone, Copy, Debug, PartialEq, Eq)]
pub struct Id {
    pub doc: u32,
    pub node: u32,
}

/// How a call that takes memory ends without an answer.
#[derive(Clone, Copy, Debug, PartialEq, Eq, Drop)]
pub enum NavEnd<F> {
    Nav(F),
    NoMemory,
}

impl<F> From<NoMemory> for NavEnd<F> {
    ghost use Rattle.std.specs.Prelude.{◌≡◌};
    ghost use Rattle.xml_model.specs.declared.nav.NavEnd.TheVariants.{NoMemory};

    ghost from_gives = { λ _ e. e ≡ NoMemory };

    fn from(_: NoMemory) -> NavEnd<F> {
        NavEnd::NoMemory
    }
}

/// Documents whose nodes are read one at a time.
///
/// Where it is honest, its nodes stand for those of a forest: each `Id` stands for a place, and
/// what a call answers is what stands there. An `Id` of no node stands for a place that the forest
/// does not have, so no call asks for one that is. Whether it is honest or not, each fault passes
/// its test, and evaluation ends by the nodes' numbers: each is less than that of the node above it
/// and of the node before it.
pub trait Nav {
    type Fault: Drop;

    /// The test of faults.
    ghost passes: { Self → Self.Fault → Type 0 };

    /// Whether the nodes stand for a forest.
    ghost honest: { Self → Type 0 };

    ghost forest: { Self → Forest };

    /// The stored node that an `Id` stands for.
    ghost place: { Self → Id → Stored };

    ghost number: { Self → Id → ℕ };

    /// The node of the document with this name, if there is one.
    fn root(&self, name: &Str) -> Result<Option<Id>, Self::Fault>
        ensures gives { honest self.now → IfOk result (λ o. option_map (place self.now) o ≡ root_of (forest self.now) name.now) }
        ensures fault { IfErr result (passes self.now) };

    /// The first attribute, else the first child.
    fn first(&self, n: Id) -> Result<Option<Id>, Self::Fault>
        ensures gives { honest self.now → IfOk result (λ o. option_map (place self.now) o ≡ first_of_node (forest self.now) (place self.now n)) }
        ensures falls { IfOk result (λ o. IfSome o (λ m. number self.now m < number self.now n)) }
        ensures fault { IfErr result (passes self.now) };

    /// The next of the same chain: attributes, then children.
    fn next(&self, n: Id) -> Result<Option<Id>, Self::Fault>
        ensures gives { honest self.now → IfOk result (λ o. option_map (place self.now) o ≡ next_of_node (forest self.now) (place self.now n)) }
        ensures falls { IfOk result (λ o. IfSome o (λ m. number self.now m < number self.now n)) }
        ensures fault { IfErr result (passes self.now) };

    fn parent(&self, n: Id) -> Result<Option<Id>, Self::Fault>
        ensures gives { honest self.now → IfOk result (λ o. option_map (place self.now) o ≡ parent_of_node (forest self.now) (place self.now n)) }
        ensures rises { IfOk result (λ o. IfSome o (λ m. number self.now n < number self.now m)) }
        ensures fault { IfErr result (passes self.now) };

    fn kind(&self, n: Id) -> Result<Kind, Self::Fault>
        ensures gives { honest self.now → IfOk result (λ k. k ≡ (told_at (stored_at (forest self.now) (place self.now n))).kind) }
        ensures fault { IfErr result (passes self.now) };

    /// How two nodes stand in document order. Documents are ordered by the bytes of their names.
    fn order(&self, a: Id, b: Id) -> Result<Ordering, Self::Fault>
        ensures gives { honest self.now → IfOk result (λ o. o ≡ node_cmp (place self.now a) (place self.now b)) }
        ensures fault { IfErr result (passes self.now) };

    /// The name of an element or an attribute, or the target of an instruction. Others have the
    /// empty text.
    fn name(&self, n: Id) -> Result<Str, NavEnd<Self::Fault>>
        ensures gives { honest self.now → IfOk result (λ s. s ≡ (told_at (stored_at (forest self.now) (place self.now n))).name) }
        ensures fault { IfErr result (Passes (passes self.now)) };

    /// The value of an attribute, a text or an instruction. Others have the empty text.
    fn value(&self, n: Id) -> Result<Str, NavEnd<Self::Fault>>
        ensures gives { honest self.now → IfOk result (λ s. s ≡ (told_at (stored_at (forest self.now) (place self.now n))).value) }
        ensures fault { IfErr result (Passes (passes self.now)) };

    /// No number is greater than `NUMBER_MAX`.
    ghost few: { (nav : Self) (n : Id) → number nav n ≤ NUMBER_MAX };

    /// Nodes that have one number of a document are nodes of one document.
    ghost named: { (nav : Self) (a b : Id) → honest nav → a.doc ≡ b.doc → (place nav a).name ≡ (place nav b).name };

    /// The nodes of a document that is there have one number of a document.
    ghost same: { (nav : Self) (a b : Id) → honest nav → (place nav a).name ≡ (place nav b).name → IfSome (forests.get (forest nav) (place nav a).name) (λ doc. a.doc ≡ b.doc) };

    /// Documents are valid, and their names are names of documents.
    ghost valid: { (nav : Self) → honest nav → IsForest (forest nav) };
}
