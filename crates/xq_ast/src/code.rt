//! Codes: why a call is answered with an error.
use crate::refusal::PyxRefusal;

/// The device's counts of faults at two moments between which a device call failed.
#[derive(Clone, Copy, Debug, PartialEq, Eq)]
pub struct Mark {
    pub before: u64,
    pub after: u64,
}

/// Which number has no next one.
#[derive(Clone, Copy, Debug, PartialEq, Eq)]
pub enum SpentKind {
    Commit,
    Generation,
    Page,
    Slot,
    Log,
}

/// Why a call is answered with an error. The codes of the standard mean what XQuery 1.0 and
/// XPath 2.0 Functions and Operators say.
#[derive(Clone, Copy, Debug, PartialEq, Eq)]
pub enum Code {
    /// The text is no call.
    XPST0003,
    /// A variable is not bound.
    XPST0008,
    /// No function has this name and number of arguments.
    XPST0017,
    /// There is no context item.
    XPDY0002,
    /// A value has another type than it must have here.
    XPTY0004,
    /// A step begins at an atomic value.
    XPTY0019,
    /// A step of a path has an atomic context item.
    XPTY0020,
    /// An attribute stands behind another node in the content of an element.
    XQTY0024,
    /// An element gets two attributes of one name.
    XQDY0025,
    /// A division by zero.
    FOAR0001,
    /// An integer is past 64 bits.
    FOAR0002,
    /// A document is not there.
    FODC0002,
    /// A value cannot be cast.
    FORG0001,
    /// An argument has the wrong type.
    FORG0006,
    /// The call's text has more than 65,536 bytes.
    TooLong,
    /// More than 64 brackets are open at once, or more than 64 words `return` and `else` stand.
    NestedTooDeep,
    /// A name is empty, longer than 255 bytes or has a character that no name has there.
    BadName,
    /// The call needs a transaction.
    NoTransaction,
    /// A transaction is open already.
    InTransaction,
    /// The transaction is read-only.
    ReadOnly,
    /// The transaction is an updating one.
    Updating,
    /// A document of this name is there already.
    Exists,
    /// More than 512 elements would be open.
    TooDeep,
    /// A document or tree would have more than 4,194,304 nodes.
    TooManyNodes,
    /// Values or a string would have more than 268,435,456 bytes.
    TooMuchText,
    /// A value would have more than 8,388,608 items.
    TooManyItems,
    /// An answer would have more than 67,108,864 bytes.
    ReplyTooLong,
    /// There was no memory.
    NoMemory,
    /// The device failed between the two counts of the mark.
    Failed {
        mark: Mark,
    },
    /// The device failed in a checkpoint, and whether what it wrote stands is not known.
    InDoubt {
        mark: Mark,
    },
    /// A PYX line is refused. Lines count from 1.
    Pyx {
        why: PyxRefusal,
        line: u64,
    },
    /// The next number would be past the last, which is `number`.
    Spent {
        kind: SpentKind,
        number: u64,
    },
    /// A page does not have its form: the commit and ordinal of its space, and its number.
    Damaged {
        commit: u64,
        ordinal: u64,
        page: u64,
    },
}
