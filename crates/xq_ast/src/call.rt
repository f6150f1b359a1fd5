//! Calls, as they stand in a script and as they are read.
use crate::StrList;
use crate::text::Str;
use crate::tree::Expr;
use crate::update::Update;

/// A call as it stands in a script.
#[derive(Debug, Drop)]
pub struct CallText {
    pub text: Str,
    /// The PYX lines of a `LOAD`, and none of another call.
    pub pyx: StrList,
}

/// A call that was read.
#[derive(Debug, Drop)]
pub enum Call {
    /// `BEGIN`
    Begin,
    /// `BEGIN READ-ONLY`
    BeginRead,
    Commit,
    Rollback,
    Checkpoint,
    ShowDocuments,
    /// `CREATE DOCUMENT`
    Create { name: Str },
    /// `DROP DOCUMENT`
    Drop { name: Str },
    /// `LOAD`, with the PYX lines of its text.
    Load { name: Str, pyx: StrList },
    Export { name: Str },
    /// `UPDATE`
    Update { what: Update },
    /// An expression alone.
    Query { expr: Expr },
}
