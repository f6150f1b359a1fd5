//! The evaluator of queries, over any `Nav`.
//!
//! `eval` gives what `Evaluation` of `xml_model` says an expression means in a forest: its items and
//! the trees that it constructs, or the first code. Over any `Nav` it returns; where the `Nav` is
//! honest the answer is the defined one, and else, and then too, it may be a fault that passes the
//! `Nav`'s test, or `NoMemory`. `targets` says in the same way which edits an update asks for, as
//! `Edits` of `xml_model` defines them.
#![tactic(auto)]

mod bound;
mod construct;
mod flwor;
mod found;
mod operators;
mod paths;
mod predicates;
mod replace;
mod scope;
mod truths;
mod tuples;
mod update;
mod values;
mod whole;

pub use update::targets;
pub use whole::{Value, eval, query};
