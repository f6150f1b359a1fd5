//! The calls of evaluation on nodes, over any `Nav`.
//!
//! Nodes are those of stored documents, by the `Id`s of the `Nav`, or stand in trees that a query has
//! constructed. Contracts see them as evaluation does (`node_seen` of `xq_values`), and each call
//! answers what `Nodes`, `DocumentOrder` and `Constructors` of `xml_model` define (`Looks`): `tested`
//! is a step without its predicates, `Joining` joins the results of a step from many nodes, `united`
//! and `in_order` are lists in document order, `value_of` and `name_of` what a node tells, `with_node`
//! what it is in content, and `made_at` what stands at a place of a constructed tree. Below them, of
//! `Id`s alone, `held`, `attributes`, `children` and `on_axis` list what stands in a node and what an
//! axis finds, `merge` joins two lists, `string_value` is a node's text and `copy` the tree that it is.
//!
//! Over any `Nav` each call returns. Where the `Nav` is honest (its nodes stand for a forest) the
//! answer is the defined one; else too it ends by no more than a fault that passes the `Nav`'s test,
//! or for want of memory.
#![tactic(auto)]

mod axes;
mod calls;
mod constructed;
mod contents;
mod copies;
mod end;
mod joining;
mod lists;
mod made_axes;
mod made_steps;
mod merging;
mod order;
mod paths;
mod runs;
mod steps;
mod texts;
mod values;
mod walks;

pub use axes::on_axis;
pub use constructed::made_at;
pub use contents::with_node;
pub use copies::{Copied, copy};
pub use end::EvalEnd;
pub use joining::Joining;
pub use lists::{NodeIds, in_order, united};
pub use merging::merge;
pub use order::node_order;
pub use paths::tested;
pub use texts::string_value;
pub use values::{name_of, value_of};
pub use walks::{IdList, attributes, children, held};
