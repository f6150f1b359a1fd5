//! What a record says: a commit, by the names and the pages that it changes. Contracts see the lists as lists; a list is
//! made from a `Vec` and gives it back without taking memory.
ghost use Rattle.std.specs.Prelude.{◌≡◌};

use page_bytes::{ChangeList, DocEntry};
use std::marker::Model;
use xq_ast::Str;

/// A name of the catalogue, and the document under it. In a change a name without a document is dropped.
#[derive(Drop)]
pub struct LogName {
    pub name: Str,
    pub entry: Option<DocEntry>,
}

/// A list of names.
#[derive(Drop)]
pub struct LogNameList {
    items: Vec<LogName>,
}

impl Model for LogNameList {
    ghost use Rattle.std.specs.Prelude.{List};
    ghost use Rattle.redo_log.specs.declared.change.LogName.{LogName};

    ghost Value = { List LogName };

    ghost view = { λ l. l.items.items };
}

impl LogNameList {
    /// The list of these names.
    pub fn of(items: Vec<LogName>) -> LogNameList
        ensures { result ≡ items.items }
    {
        LogNameList { items }
    }

    /// The names.
    pub fn as_slice(&self) -> &[LogName]
        ensures { result.now ≡ self.now }
    {
        self.items.as_slice()
    }

    /// The names, given back.
    pub fn into_vec(self) -> Vec<LogName>
        ensures { result.items ≡ self }
    {
        let LogNameList { items } = self;
        items
    }
}

/// What one commit changes.
#[derive(Drop)]
pub struct Change {
    pub commit: u64,
    pub names: LogNameList,
    pub pages: ChangeList,
}

/// A list of changes.
#[derive(Drop)]
pub struct LogChangeList {
    items: Vec<Change>,
}

impl Model for LogChangeList {
    ghost use Rattle.std.specs.Prelude.{List};
    ghost use Rattle.redo_log.specs.declared.change.Change.{Change};

    ghost Value = { List Change };

    ghost view = { λ l. l.items.items };
}

impl LogChangeList {
    /// The list of these changes.
    pub fn of(items: Vec<Change>) -> LogChangeList
        ensures { result ≡ items.items }
    {
        LogChangeList { items }
    }

    /// The changes.
    pub fn as_slice(&self) -> &[Change]
        ensures { result.now ≡ self.now }
    {
        self.items.as_slice()
    }

    /// The changes, given back.
    pub fn into_vec(self) -> Vec<Change>
        ensures { result.items ≡ self }
    {
        let LogChangeList { items } = self;
        items
    }
}
