//! How an operand begins.
ghost use Rattle.std.specs.Prelude.{◌≡◌, option_map};
ghost use Rattle.xq_ast.specs.Grammar.{is_doc_word, is_test_word};
ghost use Rattle.xq_ast.specs.Readings as spec;
ghost use Rattle.xq_parse.specs.Operands.{operand_of};

use xq_ast::{Str, Symbol, Token};

/// How an operand begins: as one of these primary expressions, with the tokens behind what tells
/// it, or as a step.
#[derive(Clone, Copy)]
pub(crate) enum Operand<'a> {
    Text { value: &'a Str, rest: &'a [Token] },
    Int { value: i64, rest: &'a [Token] },
    /// `$`
    Variable { rest: &'a [Token] },
    /// `(`
    Group { rest: &'a [Token] },
    Context { rest: &'a [Token] },
    /// `doc (`
    Doc { rest: &'a [Token] },
    /// A name and `(`.
    Function { word: &'a Str, rest: &'a [Token] },
    /// `element`, a name and `{`.
    Element { name: &'a Str, rest: &'a [Token] },
    /// `attribute`, a name and `{`.
    Attribute { name: &'a Str, rest: &'a [Token] },
    /// `text {`
    TextNode { rest: &'a [Token] },
    Step,
}

fn is_doc_word(word: &str) -> bool
    ensures { result ≡ is_doc_word word.now }
{
    word == "doc" || word == "fn:doc"
}

fn is_test_word(word: &str) -> bool
    ensures { result ≡ is_test_word word.now }
{
    word == "node" || word == "text" || word == "processing-instruction"
}

/// What a name before `(` begins.
fn called<'a>(word: &'a Str, rest: &'a [Token]) -> Operand<'a>
    ensures { operand_of result ≡ spec.named_operand word.now (spec.Behind.round rest.now) }
{
    if is_doc_word(word.as_str()) {
        Operand::Doc { rest }
    } else if is_test_word(word.as_str()) {
        Operand::Step
    } else {
        Operand::Function { word, rest }
    }
}

/// What a name before a second name and `{` begins.
fn constructed<'a>(word: &str, name: &'a Str, rest: &'a [Token]) -> Operand<'a>
    ensures { operand_of result ≡ spec.named_operand word.now (spec.Behind.name_curly name.now rest.now) }
{
    match word {
        "element" => Operand::Element { name, rest },
        "attribute" => Operand::Attribute { name, rest },
        _ => Operand::Step,
    }
}

/// What a name begins, with these tokens behind it.
fn named_operand<'a>(word: &'a Str, behind: &'a [Token]) -> Operand<'a>
    ensures { operand_of result ≡ spec.named_operand word.now (spec.behind_name behind.now) }
{
    match behind {
        [Token::Symbol(Symbol::OpenRound), rest @ ..] => called(word, rest),
        [
            Token::Name(name),
            Token::Symbol(Symbol::OpenCurly),
            rest @ ..,
        ] => constructed(word.as_str(), name, rest),
        [Token::Symbol(Symbol::OpenCurly), rest @ ..] if word.as_str() == "text" => {
            Operand::TextNode { rest }
        }
        _ => Operand::Step,
    }
}

/// How the operand begins that these tokens begin with.
pub(crate) fn operand_at(tokens: &[Token]) -> Operand<'_>
    ensures { operand_of result ≡ spec.operand tokens.now }
{
    match tokens {
        [Token::Text(value), rest @ ..] => Operand::Text { value, rest },
        [Token::Int(value), rest @ ..] => Operand::Int {
            value: *value,
            rest,
        },
        [Token::Symbol(Symbol::Dollar), rest @ ..] => Operand::Variable { rest },
        [Token::Symbol(Symbol::OpenRound), rest @ ..] => Operand::Group { rest },
        [Token::Symbol(Symbol::Dot), rest @ ..] => Operand::Context { rest },
        [Token::Name(word), behind @ ..] => named_operand(word, behind),
        _ => Operand::Step,
    }
}
