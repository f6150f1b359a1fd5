// Events of a journal, what they keep, and the states of sessions.
use xq_ast::{Call, Code, Mark, NeedList, Sequence, Str, StrList};

/// The kind of a transaction.
#[derive(Clone, Copy, Debug, PartialEq, Eq)]
pub enum BeginKind {
    Updating,
    /// Read-only, at this commit number.
    Reading(u64),
}

/// What a session is in.
#[derive(Clone, Copy, Debug, PartialEq, Eq)]
pub enum State {
    /// No transaction.
    Idle,
    /// An updating transaction.
    Updating,
    /// A read-only transaction at this commit number.
    Reading(u64),
    /// A transaction whose commit may stand or not.
    InDoubt,
}

/// What a call was answered.
#[derive(Debug, Drop)]
pub enum Says {
    Done,
    Lines(StrList),
    Error(Code),
    Began(BeginKind),
    /// A document's name and the session that holds a lock on it.
    LockHeld(Str, u32),
    /// The commit's number.
    Committed(u64),
    Ended,
    RolledBack,
    /// The number of the commit in doubt.
    Doubt(u64),
}

/// A call and its answer.
#[derive(Debug, Drop)]
pub struct Reply {
    /// None where the text is no call. With `NoMemory` it may be none for any text.
    pub call: Option<Call>,
    pub says: Says,
}

/// One event of a journal. The first number is the session's, from 1.
#[derive(Debug, Drop)]
pub enum Event {
    Began(u32, BeginKind),
    /// The locks that a call asked for and got.
    Granted(u32, NeedList),
    /// The first name on which another session holds a conflicting lock, the least such session,
    /// and the locks that were asked for.
    Refused(u32, Str, u32, NeedList),
    Answered(u32, Reply),
    /// The commit's number.
    Committed(u32, u64),
    /// A read-only transaction has ended by COMMIT.
    Ended(u32),
    RolledBack(u32),
    /// The number of the commit in doubt, and the mark of the device call that failed.
    Doubt(u32, u64, Mark),
    /// The session that settled, the one whose commit was in doubt, and whether the commit stands.
    Settled(u32, u32, bool),
    /// The session's script ended with its transaction open, which is rolled back.
    Left(u32),
}

/// All events of a run, in order.
pub type Journal = Sequence<Event>;
