//! The context of an expression.
use xq_values::Item;

/// The context: the context item, its position from 1, and the number of items that it is one of.
#[derive(Debug, Drop)]
pub struct Focus {
    pub item: Item,
    pub position: usize,
    pub size: usize,
}
