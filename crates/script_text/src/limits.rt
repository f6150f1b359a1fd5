// How large a script may be.
/// The most sessions of a script.
pub const SESSIONS_MAX: u64 = 64;

/// The most calls of all sessions of a script.
pub const CALLS_MAX: u64 = 1_048_576;
