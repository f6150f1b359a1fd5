// What a script says: the calls of each session, and an order.
use xq_ast::{CallText, Sequence};

/// The calls of a session.
pub type CallTextList = Sequence<CallText>;

/// The calls of each session.
pub type CallTextListList = Sequence<CallTextList>;

/// Numbers of sessions.
pub type NumberList = Sequence<u64>;

/// What a script says.
#[derive(Debug, Drop)]
pub struct Script {
    /// The calls of each session. The first has the number 1.
    pub sessions: CallTextListList,
    /// The numbers of the sessions in the order in which they make their calls, one call each.
    pub order: NumberList,
}
