//! The rows of the grammar.
ghost use Rattle.std.specs.Prelude.{◌≡◌, ◌∷◌, ℕ, List};
ghost use Rattle.xq_ast.specs.Readings as spec;
ghost use Rattle.xq_ast.specs.declared.call.Call.{Call};
ghost use Rattle.xq_ast.specs.declared.limits.TheConstants.{SINGLES_MAX};
ghost use Rattle.xq_ast.specs.declared.token.Token.TheVariants.{Name};
ghost use Rattle.xq_parse.specs.Reads.{Reads};

use crate::answer::ParseEnd;
use crate::cursor::Parser;
use std::alloc::Global;
use xq_ast::{Call, SINGLES_MAX, Str, StrList, Token};

/// A call that is its first word alone.
fn alone(call: Call, rest: &[Token]) -> Result<Call, ParseEnd>
    ensures { Reads (λ c. c) result (spec.alone call rest.now) }
{
    match rest {
        [] => Ok(call),
        _ => Err(ParseEnd::XPST0003),
    }
}

/// The one string that follows.
fn named(rest: &[Token]) -> Result<Str, ParseEnd>
    ensures { (make : List ℕ → Call) → Reads make result (spec.named make rest.now) }
{
    match rest {
        [Token::Text(name)] => Ok(name.copy()?),
        _ => Err(ParseEnd::XPST0003),
    }
}

/// The one string that follows the word `DOCUMENT`.
fn document(rest: &[Token]) -> Result<Str, ParseEnd>
    ensures { (make : List ℕ → Call) → Reads make result (spec.document make rest.now) }
{
    match rest {
        [Token::Name(word), rest @ ..] if word.as_str() == "DOCUMENT" => named(rest),
        _ => Err(ParseEnd::XPST0003),
    }
}

/// What follows the word `BEGIN`.
fn begin(rest: &[Token]) -> Result<Call, ParseEnd>
    ensures { Reads (λ c. c) result (spec.begin rest.now) }
{
    match rest {
        [] => Ok(Call::Begin),
        [Token::Name(word)] if word.as_str() == "READ-ONLY" => Ok(Call::BeginRead),
        _ => Err(ParseEnd::XPST0003),
    }
}

/// What follows the word `SHOW`.
fn show(rest: &[Token]) -> Result<Call, ParseEnd>
    ensures { Reads (λ c. c) result (spec.show rest.now) }
{
    match rest {
        [Token::Name(word)] if word.as_str() == "DOCUMENTS" => Ok(Call::ShowDocuments),
        _ => Err(ParseEnd::XPST0003),
    }
}

/// What follows the word `UPDATE`, with nothing behind it.
fn updating(alloc: Global, rest: &[Token]) -> Result<Call, ParseEnd>
    ensures { Reads (λ c. c) result (spec.updating (spec.single SINGLES_MAX) rest.now) }
{
    let mut parser = Parser::new(alloc, rest);
    let what = parser.update(SINGLES_MAX)?;
    match parser.left() {
        [] => Ok(Call::Update { what }),
        _ => Err(ParseEnd::XPST0003),
    }
}

/// The query that all of these tokens are.
fn query(alloc: Global, tokens: &[Token]) -> Result<Call, ParseEnd>
    ensures { Reads (λ c. c) result (spec.query (spec.single SINGLES_MAX) tokens.now) }
{
    let mut parser = Parser::new(alloc, tokens);
    let expr = parser.expr(SINGLES_MAX)?;
    match parser.left() {
        [] => Ok(Call::Query { expr }),
        _ => Err(ParseEnd::XPST0003),
    }
}

/// The row that begins with this word, of which `rest` follows it; or the query that all tokens are.
fn row(
    alloc: Global,
    word: &str,
    rest: &[Token],
    tokens: &[Token],
    pyx: &StrList,
) -> Result<Call, ParseEnd>
    requires { tokens.now ≡ Name word.now ∷ rest.now }
    ensures { Reads (λ c. c) result (spec.row (spec.single SINGLES_MAX) word.now rest.now pyx.now) }
{
    match word {
        "BEGIN" => begin(rest),
        "COMMIT" => alone(Call::Commit, rest),
        "ROLLBACK" => alone(Call::Rollback, rest),
        "CHECKPOINT" => alone(Call::Checkpoint, rest),
        "SHOW" => show(rest),
        "CREATE" => Ok(Call::Create {
            name: document(rest)?,
        }),
        "DROP" => Ok(Call::Drop {
            name: document(rest)?,
        }),
        "LOAD" => Ok(Call::Load {
            name: named(rest)?,
            pyx: pyx.copy()?,
        }),
        "EXPORT" => Ok(Call::Export { name: named(rest)? }),
        "UPDATE" => updating(alloc, rest),
        _ => query(alloc, tokens),
    }
}

/// The call that these tokens are.
pub(crate) fn call_of(alloc: Global, tokens: &[Token], pyx: &StrList) -> Result<Call, ParseEnd>
    ensures { Reads (λ c. c) result (spec.call_of tokens.now pyx.now) }
{
    match tokens {
        [Token::Name(word), rest @ ..] => row(alloc, word.as_str(), rest, tokens, pyx),
        _ => query(alloc, tokens),
    }
}
