// Scripts: the calls of sessions, read from lines of text.
pub(crate) mod by_lines;
pub(crate) mod fault;
pub(crate) mod kinds;
pub(crate) mod numbers;
pub(crate) mod reading;
pub(crate) mod session_calls;
