//! The base types that all crates above share: texts, lists, calls with their syntax tree and
//! tokens, names and the characters that they have (`Names`), locks that a call needs and which of
//! them conflict (`Modes`), and the codes of its answers.
//!
//! Contracts see a `Str` as the list of its bytes, a `Sequence` or `Items` as the list of its
//! items, a `Boxed` as its value, and all else as plain data. Nothing is hidden that a caller
//! could tell apart, so a `copy` equals what it copies. A `Str` is always UTF-8.
//! `Code::text` is a code's text in a journal and `Code::of_text` reads it; a text determines
//! its code but for a mark. What takes memory answers `NoMemory` where there is none, and
//! leaves what it was given as it was. Nothing else is refused here.
#![tactic(auto)]

mod call;
mod code;
mod code_reading;
mod code_text;
mod copy;
mod copy_tree;
mod documents;
mod kind;
mod limits;
mod memory;
mod name;
mod need;
mod refusal;
mod sequence;
mod step;
mod text;
mod token;
mod tree;
mod update;

pub use call::{Call, CallText};
pub use code::{Code, Mark, SpentKind};
pub use code_reading::{cut, number_of, text_determines_code};
pub use kind::Kind;
pub use limits::{
    BRACKETS_MAX, CALL_BYTES_MAX, DOCUMENT_NAME_BYTES_MAX, INTEGER_MAX, NAME_BYTES_MAX,
    NESTING_WORDS_MAX, SINGLES_MAX,
};
pub use memory::NoMemory;
pub use name::{begins_name, continues_name, is_document_name, is_name};
pub use need::{LockMode, Need, NeedList};
pub use refusal::PyxRefusal;
pub use sequence::Sequence;
pub use sqlite_items::{Boxed, Items};
pub use step::{Axis, PathStep, PathTest, Test};
pub use text::Str;
pub use token::{Symbol, Token, TokenList};
pub use tree::{
    Bind, BindList, CompareOp, Expr, ExprList, ProductOp, ProductPart, ProductPartList, Sign,
    SignList, SortKey, SortKeyList, Start, Step, StepList, SumPart, SumPartList,
};
pub use update::Update;

/// A list of texts.
pub type StrList = Sequence<Str>;
