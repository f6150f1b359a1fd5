//! Syntax trees of updates.
use crate::text::Str;
use crate::tree::Expr;

/// What an `UPDATE` does.
#[derive(Debug, Drop)]
pub enum Update {
    /// `insert source into target`
    Into { source: Expr, target: Expr },
    /// `insert source preceding target`
    Preceding { source: Expr, target: Expr },
    /// `insert source following target`
    Following { source: Expr, target: Expr },
    Delete { target: Expr },
    /// `delete_undeep target`
    DeleteUndeep { target: Expr },
    /// `replace $name in target with by`
    Replace { name: Str, target: Expr, by: Expr },
    /// `rename target on name`
    Rename { target: Expr, name: Str },
}
