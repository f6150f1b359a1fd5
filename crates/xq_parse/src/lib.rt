//! The parser of calls: from the text of a call to the call that it spells, or to why it is refused.
//!
//! Contracts see a text as its bytes and a call as plain data. `parse_call` gives what `Parsed` of
//! `xq_ast` says of the text: the call whose tokens the grammar has, or the first of the refusals
//! `TooLong`, `XPST0003`, `NestedTooDeep`, `XPST0003`, `BadName`, `XPST0017` and `XPST0008`. The
//! text is split into tokens whole, each with the length of its own spelling; then `Parser`, with one
//! method for each row, reads the tokens from the left and looks three tokens ahead at most. No text
//! makes it go deeper than `SINGLES_MAX` single expressions. Laws say that no tokens are two calls,
//! that no text has two answers, and that the bound in the definition of tokens never tells. Want of
//! memory may come in place of any answer and leaves the text as it was.
#![tactic(auto)]

mod ahead;
mod answer;
mod characters;
mod comment;
mod cursor;
mod everywhere;
mod flwor;
mod front;
mod functions;
mod integer;
mod laws;
mod name;
mod names;
mod nesting;
mod operand;
mod operators;
mod parse;
mod path;
mod piece;
mod primary;
mod rows;
mod single;
mod step;
mod string;
mod symbol;
mod update;
mod variables;

pub use answer::ParseEnd;
pub use laws::{any_bound_gives_the_tokens, text_has_one_answer, tokens_are_one_call};
pub use parse::parse_call;
