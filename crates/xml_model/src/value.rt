//! Atomic values (XQuery 1.0 and XPath 2.0 Data Model, section 2.6), and the keys of `order by`.
ghost use Rattle.std.specs.Prelude.{◌≡◌, IfOk};

use std::alloc::{AllocError, Global};
use std::marker::Model;
use std::sync::Arc;
use xq_ast::{NoMemory, Str};

/// A text that never changes. Copies share it.
#[derive(Debug, Drop)]
pub struct SharedText {
    text: Arc<Str>,
}

impl Model for SharedText {
    ghost use Rattle.std.specs.Prelude.{ℕ, List};

    ghost Value = { List ℕ };

    ghost use Rattle.std.specs.Arc.{arc_value};

    ghost view = { λ s. arc_value s.text };
}

impl SharedText {
    /// The text, to be shared.
    pub fn of(alloc: Global, text: Str) -> Result<SharedText, NoMemory>
        ensures { IfOk result (λ s. s ≡ text) }
    {
        match Arc::new(alloc, text) {
            Ok(text) => Ok(SharedText { text }),
            Err(_) => Err(NoMemory),
        }
    }

    pub fn as_str(&self) -> &str
        ensures { result.now ≡ self.now }
    {
        let text: &Str = &self.text;
        text.as_str()
    }

    pub fn as_bytes(&self) -> &[u8]
        ensures { result.now ≡ self.now }
    {
        let text: &Str = &self.text;
        text.as_bytes()
    }

    /// The same text. Its bytes are shared, and not copied.
    pub fn copy(&self) -> Result<SharedText, NoMemory>
        ensures { IfOk result (λ s. s ≡ self.now) }
    {
        match Arc::try_clone(&self.text) {
            Ok(text) => Ok(SharedText { text }),
            Err(_) => Err(NoMemory),
        }
    }
}

/// An atomic value.
#[derive(Debug, Drop)]
pub enum Atom {
    /// What a node gives.
    Untyped { text: SharedText },
    /// A string.
    Text { text: SharedText },
    /// An integer.
    Int { value: i64 },
    /// A truth value.
    Truth { value: bool },
}

impl Atom {
    /// The same value. A text is shared.
    pub fn copy(&self) -> Result<Atom, NoMemory>
        ensures { IfOk result (λ a. a ≡ self.now) }
    {
        match self {
            Atom::Untyped { text } => Ok(Atom::Untyped { text: text.copy()? }),
            Atom::Text { text } => Ok(Atom::Text { text: text.copy()? }),
            Atom::Int { value } => Ok(Atom::Int { value: *value }),
            Atom::Truth { value } => Ok(Atom::Truth { value: *value }),
        }
    }
}

/// What a tuple is ordered by at one place.
#[derive(Debug, Drop)]
pub enum Key {
    /// The empty list, which is least.
    Empty,
    /// A string, also of an untyped value.
    Text { text: SharedText },
    /// An integer.
    Int { value: i64 },
    /// A truth value.
    Truth { value: bool },
}

impl Key {
    /// The same key. A text is shared.
    pub fn copy(&self) -> Result<Key, NoMemory>
        ensures { IfOk result (λ k. k ≡ self.now) }
    {
        match self {
            Key::Empty => Ok(Key::Empty),
            Key::Text { text } => Ok(Key::Text { text: text.copy()? }),
            Key::Int { value } => Ok(Key::Int { value: *value }),
            Key::Truth { value } => Ok(Key::Truth { value: *value }),
        }
    }
}

/// The type of the keys at one place.
#[derive(Clone, Copy, Debug, PartialEq, Eq)]
pub enum KeyType {
    /// All keys so far are empty.
    Unknown,
    Text,
    Int,
    Truth,
}
