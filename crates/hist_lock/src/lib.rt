//! A lock round one value that has a list of events, and passes that carry out of the lock what each holder knows.
//!
//! A value is `Storied`: it has a list of events, each event a session's number, and an origin that no call changes.
//! A `Pass` belongs to one session. Contracts see it as its lock, its number, the origin, the events that it has seen
//! and its own events among them. `enter` waits for the turn and hands the value out, `leave` takes it back with new
//! events of the pass's number alone. The opener, pass 0, splits further passes off, joins them, and closes the lock.
//! What the passes know is what the one list says: `close` tells that the list begins with all that a joined pass saw,
//! has of its number exactly its own events, and no event of any number that was never given.
//!
//! Nothing is refused but want of memory in `new`. Nothing is claimed of waiting.
#![tactic(auto)]

mod held;
mod lock;
mod pass;
mod story;
mod turns;
mod view;

pub use held::Held;
pub use lock::{HistLock, NoMemory};
pub use pass::Pass;
pub use story::Storied;
pub use view::Kept;
