//! Primary expressions.
ghost use Rattle.std.specs.Prelude.{◌≡◌, IfOk};
ghost use Rattle.xq_ast.specs.Grammar as grammar;
ghost use Rattle.xq_ast.specs.Readings as spec;
ghost use Rattle.xq_parse.specs.Operands.{group, operand_of};
ghost use Rattle.xq_parse.specs.Reads.{Reads};

use crate::ahead::{close_curly, close_round};
use crate::answer::ParseEnd;
use crate::cursor::Parser;
use crate::operand::Operand;
use std::alloc::Global;
use xq_ast::{Boxed, Expr, ExprList, NoMemory, Str, Symbol, Token};

/// A function's name without the prefix `fn:`.
fn plain(alloc: Global, word: &str) -> Result<Str, NoMemory>
    ensures { IfOk result (λ name. name ≡ grammar.plain word.now) }
{
    match word.strip_prefix("fn:") {
        Some(rest) => Str::of(alloc, rest),
        None => Str::of(alloc, word),
    }
}

impl<'a> Parser<'a> {
    /// `String )`, behind `doc (`.
    fn doc(&mut self) -> Result<Expr, ParseEnd>
        ensures { Reads (λ e. (e, self.new)) result (spec.doc self.old) }
    {
        match self.left() {
            [
                Token::Text(name),
                Token::Symbol(Symbol::CloseRound),
                rest @ ..,
            ] => {
                self.goes_on(rest);
                Ok(Expr::Doc { name: name.copy()? })
            }
            _ => Err(ParseEnd::XPST0003),
        }
    }

    /// `[Expr] )`
    #[cycle(rows)]
    #[tactic(auto, unfolding(xq_ast::specs::Readings::content, crate::specs::Operands::group))]
    fn group(&mut self, depth: usize) -> Result<Expr, ParseEnd>
        ensures { Reads (λ e. (e, self.new)) result (group (spec.single depth) self.old) }
    {
        if self.takes(close_round(self.left())) {
            return Ok(Expr::Seq {
                parts: ExprList::new(self.alloc()),
            });
        }
        let inner = self.expr(depth)?;
        self.expect(close_round(self.left()))?;
        Ok(inner)
    }

    /// `[Expr] }`
    #[cycle(rows)]
    #[tactic(auto, unfolding(xq_ast::specs::Readings::content))]
    fn content(&mut self, depth: usize) -> Result<Option<Boxed<Expr>>, ParseEnd>
        ensures { Reads (λ content. (content, self.new)) result (spec.content spec.close_curly (spec.single depth) self.old) }
    {
        if self.takes(close_curly(self.left())) {
            return Ok(None);
        }
        let inner = self.expr(depth)?;
        self.expect(close_curly(self.left()))?;
        Ok(Some(Boxed::new(self.alloc(), inner)?))
    }

    /// `[Single (, Single)*] )`
    #[cycle(rows)]
    #[tactic(auto, unfolding(xq_ast::specs::Readings::arguments))]
    fn arguments(&mut self, depth: usize) -> Result<ExprList, ParseEnd>
        ensures { Reads (λ args. (args, self.new)) result (spec.arguments (spec.single depth) self.old) }
    {
        if self.takes(close_round(self.left())) {
            return Ok(ExprList::new(self.alloc()));
        }
        let args = self.list(depth)?;
        self.expect(close_round(self.left()))?;
        Ok(args)
    }

    /// The primary expression that begins so.
    #[cycle(rows)]
    #[tactic(auto, unfolding(xq_ast::specs::Readings::primary))]
    pub(crate) fn primary(&mut self, operand: Operand<'a>, depth: usize) -> Result<Expr, ParseEnd>
        ensures { Reads (λ e. (e, self.new)) result (spec.primary (spec.single depth) (operand_of operand.entry)) }
    {
        match operand {
            Operand::Text { value, rest } => {
                self.goes_on(rest);
                Ok(Expr::Text {
                    value: value.copy()?,
                })
            }
            Operand::Int { value, rest } => {
                self.goes_on(rest);
                Ok(Expr::Int { value })
            }
            Operand::Variable { rest } => {
                self.goes_on(rest);
                Ok(Expr::Var { name: self.name()? })
            }
            Operand::Group { rest } => {
                self.goes_on(rest);
                self.group(depth)
            }
            Operand::Context { rest } => {
                self.goes_on(rest);
                Ok(Expr::Context)
            }
            Operand::Doc { rest } => {
                self.goes_on(rest);
                self.doc()
            }
            Operand::Function { word, rest } => {
                self.goes_on(rest);
                let args = self.arguments(depth)?;
                Ok(Expr::Fun {
                    name: plain(self.alloc(), word.as_str())?,
                    args,
                })
            }
            Operand::Element { name, rest } => {
                self.goes_on(rest);
                let content = self.content(depth)?;
                Ok(Expr::Element {
                    name: name.copy()?,
                    content,
                })
            }
            Operand::Attribute { name, rest } => {
                self.goes_on(rest);
                let content = self.content(depth)?;
                Ok(Expr::Attribute {
                    name: name.copy()?,
                    content,
                })
            }
            Operand::TextNode { rest } => {
                self.goes_on(rest);
                let content = self.content(depth)?;
                Ok(Expr::TextNode { content })
            }
            Operand::Step => Err(ParseEnd::XPST0003),
        }
    }
}
