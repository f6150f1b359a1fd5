//! Limits of documents and of answers.
/// The most elements that may be open at once.
pub const DEPTH_MAX: usize = 512;

/// The most nodes of a document. Attributes count, the document itself does not.
pub const NODES_MAX: u64 = 4_194_304;

/// The most bytes of all values of a document.
pub const TEXT_BYTES_MAX: u64 = 268_435_456;

/// The most bytes of an answer's lines with their newlines.
pub const REPLY_BYTES_MAX: u64 = 67_108_864;

/// The most items of an expression's value.
pub const ITEMS_MAX: u64 = 8_388_608;
