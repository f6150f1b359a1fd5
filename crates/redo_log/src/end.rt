//! Where a log ends, and what an append answers in place of Ok.
use page_device::Which;
use thiserror::Error;

/// The place of the closed gate that ends a log's records.
#[derive(Clone, Copy, Debug, PartialEq, Eq)]
pub struct LogEnd {
    pub file: Which,
    pub at: u64,
}

/// Why a record was not appended, or not surely.
#[derive(Clone, Copy, Debug, PartialEq, Eq, Error)]
pub enum AppendEnd {
    /// The file would be longer than its last length, which is `number`. Nothing was done.
    #[error("the log is spent at {number}")]
    Spent { number: u64 },

    /// The device failed before the gate was written.
    #[error("the device failed")]
    Failed,

    /// The device failed in the gate's write or in the sync after it. The record may stand or not.
    #[error("the record is in doubt")]
    Doubt,
}
