// What the seats at the lock know, in proofs alone. No value of these types is made.
use std::collections::LinkedList;

/// What the opener keeps of a pass that it joined: its number, its own events, and what it saw.
pub struct Kept<E> {
    pub id: u32,
    pub mine: LinkedList<E>,
    pub seen: LinkedList<E>,
}

/// What the holder of a seat knows. A spent view is not live, and says nothing.
pub struct View<E, O> {
    pub live: bool,
    pub inside: bool,
    pub id: u32,
    pub made: u32,
    pub origin: O,
    pub seen: LinkedList<E>,
    pub mine: LinkedList<E>,
    pub kept: LinkedList<Kept<E>>,
}
