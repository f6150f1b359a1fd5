// Journals as text: written line by line, and read again.
pub(crate) mod parts;
pub(crate) mod pieces;
pub(crate) mod reading;
pub(crate) mod rows;
pub(crate) mod writing;
