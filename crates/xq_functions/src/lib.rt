//! Operators, functions and constructors of queries, and the lines of answers, over any `Nav`.
//!
//! Contracts see items as the definitions of `xml_model` do (`item_seen`), and each call answers what
//! `Atoms`, `Nodes`, `FunctionAnswers`, `Constructors` and `ItemLines` there define of them
//! (`Looks`): where the `Nav` is honest the value or the code, and else a fault that passes the
//! `Nav`'s test, or `NoMemory`. Operands and arguments have been evaluated, so no call makes a tree
//! or looks at a variable: `new_element` gives the node that becomes one.
#![tactic(auto)]

mod arguments;
mod atoms;
mod calls;
mod constructors;
mod context;
mod function;
mod laws;
mod lengths;
mod lists;
mod names;
mod numbers;
mod operators;
mod reply;
mod strings;
mod tests_of_items;
mod text_tests;

pub use atoms::{atomized, key_of_items};
pub use calls::call_function;
pub use constructors::{content_of, new_element, new_text};
pub use context::Focus;
pub use laws::functions_have_answers;
pub use lists::{counted, node_items, nodes_or, united_all};
pub use operators::{ProductValue, SumValue, compared, multiplied, ranged, signed_value, summed};
pub use reply::item_lines;
