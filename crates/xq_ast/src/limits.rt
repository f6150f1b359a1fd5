//! Limits of a call's text and of names.
/// The most bytes of a call's text.
pub const CALL_BYTES_MAX: usize = 65_536;

/// The most brackets that may be open at once.
pub const BRACKETS_MAX: usize = 64;

/// The most words `return` and `else` of a call, both together.
pub const NESTING_WORDS_MAX: usize = 64;

/// The most single expressions that stand one in another: each but the first stands in a bracket
/// or behind a word that a `return` or an `else` belongs to.
pub const SINGLES_MAX: usize = BRACKETS_MAX + NESTING_WORDS_MAX + 1;

/// The most bytes of a document's name.
pub const DOCUMENT_NAME_BYTES_MAX: usize = 255;

/// The most bytes of a name of an element, an attribute or an instruction.
pub const NAME_BYTES_MAX: usize = 255;

/// The greatest integer that a call's text may have.
pub const INTEGER_MAX: u64 = 9_223_372_036_854_775_807;
