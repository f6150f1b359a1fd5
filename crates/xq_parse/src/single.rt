//! Single expressions, and expressions with commas between them.
ghost use Rattle.std.specs.Prelude.{◌≡◌};
ghost use Rattle.xq_ast.specs.Grammar as grammar;
ghost use Rattle.xq_ast.specs.Readings as spec;
ghost use Rattle.xq_parse.specs.Operands.{begins_of, clause_word_of};
ghost use Rattle.xq_parse.specs.Reads.{Reads};

use crate::ahead::{assign, close_round, comma, two_words, word};
use crate::answer::ParseEnd;
use crate::cursor::Parser;
use crate::flwor::ClauseWord;
use xq_ast::{Bind, BindList, Boxed, Expr, ExprList, SortKey, SortKeyList, Str, Symbol, Token};

/// Which row a single expression is.
#[derive(Clone, Copy)]
pub(crate) enum Begins<'a> {
    Flwor,
    /// `if (`
    If { rest: &'a [Token] },
    Or,
}

/// Which row a single expression is that begins with a name, with these tokens behind it.
fn named_begins<'a>(word: &str, behind: &'a [Token]) -> Begins<'a>
    ensures { begins_of result ≡ spec.named_begins word.now (spec.behind_name behind.now) }
{
    match behind {
        [Token::Symbol(Symbol::Dollar), ..] if word == "for" || word == "let" => Begins::Flwor,
        [Token::Symbol(Symbol::OpenRound), rest @ ..] if word == "if" => Begins::If { rest },
        _ => Begins::Or,
    }
}

/// Which row a single expression is that begins with these tokens.
fn begins_at(tokens: &[Token]) -> Begins<'_>
    ensures { begins_of result ≡ spec.begins tokens.now }
{
    match tokens {
        [Token::Name(word), behind @ ..] => named_begins(word.as_str(), behind),
        _ => Begins::Or,
    }
}

/// Expressions with commas between them, or the one that there is.
fn sequence_of(parts: ExprList) -> Expr
    ensures { result ≡ grammar.sequence_of parts }
{
    if parts.len() != 1 {
        return Expr::Seq { parts };
    }
    let mut parts = parts;
    match parts.pop() {
        Some(part) => part,
        None => Expr::Seq { parts },
    }
}

impl<'a> Parser<'a> {
    /// `Single (, Single)*`, as a list.
    #[cycle(rows)]
    #[tactic(auto, unfolding(xq_ast::specs::Readings::list))]
    pub(crate) fn list(&mut self, depth: usize) -> Result<ExprList, ParseEnd>
        ensures { Reads (λ parts. (parts, self.new)) result (spec.list (spec.single depth) self.old) }
    {
        let mut parts = ExprList::new(self.alloc());
        parts.push(self.single(depth)?)?;
        'parts: while self.takes(comma(self.left())) {
            parts.push(self.single(depth)?)?;
        }
        Ok(parts)
    }

    /// `Single (, Single)*`
    #[cycle(rows)]
    #[tactic(auto, unfolding(xq_ast::specs::Readings::expr))]
    pub(crate) fn expr(&mut self, depth: usize) -> Result<Expr, ParseEnd>
        ensures { Reads (λ e. (e, self.new)) result (spec.expr (spec.single depth) self.old) }
    {
        let parts = self.list(depth)?;
        Ok(sequence_of(parts))
    }

    /// `Flwor | If | Or`, where no more than `depth` single expressions stand in one another.
    #[cycle(rows)]
    #[tactic(auto, unfolding(xq_ast::specs::Readings::single_over))]
    pub(crate) fn single(&mut self, depth: usize) -> Result<Expr, ParseEnd>
        ensures { Reads (λ e. (e, self.new)) result (spec.single depth self.old) }
    {
        if depth == 0 {
            return Err(ParseEnd::XPST0003);
        }
        let below = depth - 1;
        match begins_at(self.left()) {
            Begins::Flwor => self.flwor(below),
            Begins::If { rest } => {
                self.goes_on(rest);
                self.conditional(below)
            }
            Begins::Or => self.or(below),
        }
    }

    /// `$Name [at $Name] in Single`
    #[cycle(rows)]
    #[tactic(auto, unfolding(xq_ast::specs::Readings::bind))]
    fn bind(&mut self, depth: usize) -> Result<Bind, ParseEnd>
        ensures { Reads (λ bind. (bind, self.new)) result (spec.bind (spec.single depth) self.old) }
    {
        let name = self.variable()?;
        let at = self.place()?;
        self.expect(word("in", self.left()))?;
        let source = self.single(depth)?;
        Ok(Bind::For { name, at, source })
    }

    /// `Bind (, Bind)*`
    #[cycle(rows)]
    #[tactic(auto, unfolding(xq_ast::specs::Readings::binds))]
    fn binds(&mut self, depth: usize) -> Result<BindList, ParseEnd>
        ensures { Reads (λ binds. (binds, self.new)) result (spec.binds (spec.single depth) self.old) }
    {
        let mut binds = BindList::new(self.alloc());
        binds.push(self.bind(depth)?)?;
        'binds: while self.takes(comma(self.left())) {
            binds.push(self.bind(depth)?)?;
        }
        Ok(binds)
    }

    /// `$Name := Single`
    #[cycle(rows)]
    #[tactic(auto, unfolding(xq_ast::specs::Readings::let_bind))]
    fn let_bind(&mut self, depth: usize) -> Result<Bind, ParseEnd>
        ensures { Reads (λ bind. (bind, self.new)) result (spec.let_bind (spec.single depth) self.old) }
    {
        let name = self.variable()?;
        self.expect(assign(self.left()))?;
        let value = self.single(depth)?;
        Ok(Bind::Let { name, value })
    }

    /// `$Name := Single (, $Name := Single)*`
    #[cycle(rows)]
    #[tactic(auto, unfolding(xq_ast::specs::Readings::lets))]
    fn lets(&mut self, depth: usize) -> Result<BindList, ParseEnd>
        ensures { Reads (λ binds. (binds, self.new)) result (spec.lets (spec.single depth) self.old) }
    {
        let mut binds = BindList::new(self.alloc());
        binds.push(self.let_bind(depth)?)?;
        'binds: while self.takes(comma(self.left())) {
            binds.push(self.let_bind(depth)?)?;
        }
        Ok(binds)
    }

    /// A clause behind its word.
    #[cycle(rows)]
    #[tactic(auto, unfolding(xq_ast::specs::Readings::clause))]
    fn clause(&mut self, clause: ClauseWord, depth: usize) -> Result<BindList, ParseEnd>
        ensures { Reads (λ binds. (binds, self.new)) result (spec.clause (spec.single depth) (clause_word_of clause) self.old) }
    {
        match clause {
            ClauseWord::For => self.binds(depth),
            ClauseWord::Let => self.lets(depth),
        }
    }

    /// `(For | Let)+`
    #[cycle(rows)]
    #[tactic(auto, unfolding(xq_ast::specs::Readings::clauses, xq_ast::specs::Readings::first_clause))]
    fn clauses(&mut self, depth: usize) -> Result<BindList, ParseEnd>
        ensures { Reads (λ binds. (binds, self.new)) result (spec.clauses (spec.single depth) self.old) }
    {
        let Some(first) = self.clause_word() else {
            return Err(ParseEnd::XPST0003);
        };
        let mut binds = self.clause(first, depth)?;
        'clauses: while let Some(next) = self.clause_word() {
            binds.append(self.clause(next, depth)?)?;
        }
        Ok(binds)
    }

    /// `[where Single]`
    #[cycle(rows)]
    #[tactic(auto, unfolding(xq_ast::specs::Readings::filter))]
    fn filter(&mut self, depth: usize) -> Result<Option<Boxed<Expr>>, ParseEnd>
        ensures { Reads (λ filter. (filter, self.new)) result (spec.filter (spec.single depth) self.old) }
    {
        if !self.takes(word("where", self.left())) {
            return Ok(None);
        }
        let filter = self.single(depth)?;
        Ok(Some(Boxed::new(self.alloc(), filter)?))
    }

    /// `Single [ascending | descending]`
    #[cycle(rows)]
    #[tactic(auto, unfolding(xq_ast::specs::Readings::sort_key))]
    fn sort_key(&mut self, depth: usize) -> Result<SortKey, ParseEnd>
        ensures { Reads (λ key. (key, self.new)) result (spec.sort_key (spec.single depth) self.old) }
    {
        let expr = self.single(depth)?;
        let descending = self.direction();
        Ok(SortKey { expr, descending })
    }

    /// `Key (, Key)*`
    #[cycle(rows)]
    #[tactic(auto, unfolding(xq_ast::specs::Readings::sort_keys))]
    fn sort_keys(&mut self, depth: usize) -> Result<SortKeyList, ParseEnd>
        ensures { Reads (λ keys. (keys, self.new)) result (spec.sort_keys (spec.single depth) self.old) }
    {
        let mut keys = SortKeyList::new(self.alloc());
        keys.push(self.sort_key(depth)?)?;
        'keys: while self.takes(comma(self.left())) {
            keys.push(self.sort_key(depth)?)?;
        }
        Ok(keys)
    }

    /// `[order by Key (, Key)*]`
    #[cycle(rows)]
    #[tactic(auto, unfolding(xq_ast::specs::Readings::order))]
    fn order(&mut self, depth: usize) -> Result<SortKeyList, ParseEnd>
        ensures { Reads (λ keys. (keys, self.new)) result (spec.order (spec.single depth) self.old) }
    {
        if !self.takes(two_words("order", "by", self.left())) {
            return Ok(SortKeyList::new(self.alloc()));
        }
        self.sort_keys(depth)
    }

    /// `(For | Let)+ [where Single] [order by Key (, Key)*] return Single`
    #[cycle(rows)]
    #[tactic(auto, unfolding(xq_ast::specs::Readings::flwor))]
    fn flwor(&mut self, depth: usize) -> Result<Expr, ParseEnd>
        ensures { Reads (λ e. (e, self.new)) result (spec.flwor (spec.single depth) self.old) }
    {
        let binds = self.clauses(depth)?;
        let filter = self.filter(depth)?;
        let keys = self.order(depth)?;
        self.expect(word("return", self.left()))?;
        let result = self.single(depth)?;
        Ok(Expr::Flwor {
            binds,
            filter,
            keys,
            result: Boxed::new(self.alloc(), result)?,
        })
    }

    /// `Expr ) then Single else Single`, behind `if (`.
    #[cycle(rows)]
    #[tactic(auto, unfolding(xq_ast::specs::Readings::an_if))]
    fn conditional(&mut self, depth: usize) -> Result<Expr, ParseEnd>
        ensures { Reads (λ e. (e, self.new)) result (spec.an_if (spec.single depth) self.old) }
    {
        let test = self.expr(depth)?;
        self.expect(close_round(self.left()))?;
        self.expect(word("then", self.left()))?;
        let yes = self.single(depth)?;
        self.expect(word("else", self.left()))?;
        let no = self.single(depth)?;
        Ok(Expr::If {
            test: Boxed::new(self.alloc(), test)?,
            yes: Boxed::new(self.alloc(), yes)?,
            no: Boxed::new(self.alloc(), no)?,
        })
    }
}
