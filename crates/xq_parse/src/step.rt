//! Steps of paths, without their predicates.
ghost use Rattle.std.specs.Prelude.{◌≡◌};
ghost use Rattle.xq_ast.specs.Readings as spec;
ghost use Rattle.xq_parse.specs.Reads.{Reads, Finds};

use crate::ahead::close_round;
use crate::answer::ParseEnd;
use crate::cursor::Parser;
use xq_ast::{Axis, Str, Symbol, Test, Token};

/// An axis and a test.
#[derive(Drop)]
pub(crate) struct BareStep {
    pub(crate) axis: Axis,
    pub(crate) test: Test,
}

/// The axis of this word.
fn axis_of(word: &str) -> Option<Axis>
    ensures { result ≡ spec.axis_of word.now }
{
    match word {
        "child" => Some(Axis::Child),
        "descendant" => Some(Axis::Descendant),
        "descendant-or-self" => Some(Axis::DescendantOrSelf),
        "self" => Some(Axis::Itself),
        "attribute" => Some(Axis::Attribute),
        "parent" => Some(Axis::Parent),
        _ => None,
    }
}

/// The test of this word before brackets.
fn kind_of(word: &str) -> Option<Test>
    ensures { result ≡ spec.kind_of word.now }
{
    match word {
        "node" => Some(Test::AnyNode),
        "text" => Some(Test::Text),
        "processing-instruction" => Some(Test::Pi),
        _ => None,
    }
}

impl<'a> Parser<'a> {
    /// `Name | *`
    fn name_test(&mut self) -> Result<Option<Str>, ParseEnd>
        ensures { Reads (λ name. (name, self.new)) result (spec.name_test self.old) }
    {
        match self.left() {
            [Token::Name(name), rest @ ..] => {
                self.goes_on(rest);
                Ok(Some(name.copy()?))
            }
            [Token::Symbol(Symbol::Star), rest @ ..] => {
                self.goes_on(rest);
                Ok(None)
            }
            _ => Err(ParseEnd::XPST0003),
        }
    }

    /// The test that begins with this name, which was taken.
    fn named_test(&mut self, word: &Str) -> Result<Test, ParseEnd>
        ensures { Reads (λ test. (test, self.new)) result (spec.named_test word.now self.old (spec.behind_name self.old)) }
    {
        match self.left() {
            [Token::Symbol(Symbol::OpenRound), rest @ ..] => {
                let Some(test) = kind_of(word.as_str()) else {
                    return Err(ParseEnd::XPST0003);
                };
                self.goes_on(rest);
                self.expect(close_round(self.left()))?;
                Ok(test)
            }
            _ => Ok(Test::Name {
                name: Some(word.copy()?),
            }),
        }
    }

    /// `Name | * | node ( ) | text ( ) | processing-instruction ( )`
    fn test(&mut self) -> Result<Test, ParseEnd>
        ensures { Reads (λ test. (test, self.new)) result (spec.test self.old) }
    {
        match self.left() {
            [Token::Name(word), rest @ ..] => {
                self.goes_on(rest);
                self.named_test(word)
            }
            [Token::Symbol(Symbol::Star), rest @ ..] => {
                self.goes_on(rest);
                Ok(Test::Name { name: None })
            }
            _ => Err(ParseEnd::XPST0003),
        }
    }

    /// The step that begins with this name, which was taken.
    fn named_step(&mut self, word: &Str) -> Result<BareStep, ParseEnd>
        ensures { Reads (λ s. ((s.axis, s.test), self.new)) result (spec.named_step word.now self.old (spec.behind_name self.old)) }
    {
        match self.left() {
            [Token::Symbol(Symbol::ColonColon), rest @ ..] => {
                let Some(axis) = axis_of(word.as_str()) else {
                    return Err(ParseEnd::XPST0003);
                };
                self.goes_on(rest);
                let test = self.test()?;
                Ok(BareStep { axis, test })
            }
            _ => {
                let test = self.named_test(word)?;
                Ok(BareStep {
                    axis: Axis::Child,
                    test,
                })
            }
        }
    }

    /// `@ NameTest | .. | [Axis ::] Test`
    #[tactic(auto, unfolding(xq_ast::specs::Readings::bare_step))]
    pub(crate) fn bare_step(&mut self) -> Result<BareStep, ParseEnd>
        ensures { Reads (λ s. ((s.axis, s.test), self.new)) result (spec.bare_step self.old) }
    {
        match self.left() {
            [Token::Symbol(Symbol::At), rest @ ..] => {
                self.goes_on(rest);
                let name = self.name_test()?;
                Ok(BareStep {
                    axis: Axis::Attribute,
                    test: Test::Name { name },
                })
            }
            [Token::Symbol(Symbol::DotDot), rest @ ..] => {
                self.goes_on(rest);
                Ok(BareStep {
                    axis: Axis::Parent,
                    test: Test::AnyNode,
                })
            }
            [Token::Symbol(Symbol::Star), rest @ ..] => {
                self.goes_on(rest);
                Ok(BareStep {
                    axis: Axis::Child,
                    test: Test::Name { name: None },
                })
            }
            [Token::Name(word), rest @ ..] => {
                self.goes_on(rest);
                self.named_step(word)
            }
            _ => Err(ParseEnd::XPST0003),
        }
    }

    /// Takes `/` or `//`, where one comes next, and says whether it is `//`.
    pub(crate) fn slash(&mut self) -> Option<bool>
        ensures { Finds result self.old self.new (spec.slash self.old) }
    {
        match self.left() {
            [Token::Symbol(Symbol::Slash), rest @ ..] => {
                self.goes_on(rest);
                Some(false)
            }
            [Token::Symbol(Symbol::SlashSlash), rest @ ..] => {
                self.goes_on(rest);
                Some(true)
            }
            _ => None,
        }
    }
}
