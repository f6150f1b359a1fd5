//! Rows of operators.
ghost use Rattle.std.specs.Prelude.{◌≡◌, ◌∷◌, IfOk};
ghost use Rattle.xq_ast.specs.Grammar as grammar;
ghost use Rattle.xq_ast.specs.Readings as spec;
ghost use Rattle.xq_parse.specs.Operands.{sign_of};
ghost use Rattle.xq_parse.specs.Reads.{Reads, Finds};

use crate::ahead::{union_op, word};
use crate::answer::ParseEnd;
use crate::cursor::Parser;
use std::alloc::Global;
use xq_ast::{
    Boxed, CompareOp, Expr, ExprList, NoMemory, ProductOp, ProductPart, ProductPartList, Sign,
    SignList, SumPart, SumPartList, Symbol, Token,
};

/// The first operand with those behind it.
fn joined(alloc: Global, first: Expr, rest: ExprList) -> Result<ExprList, NoMemory>
    ensures { IfOk result (λ parts. parts ≡ first ∷ rest) }
{
    let mut parts = ExprList::new(alloc);
    parts.push(first)?;
    parts.append(rest)?;
    Ok(parts)
}

fn or_of(alloc: Global, first: Expr, rest: ExprList) -> Result<Expr, NoMemory>
    ensures { IfOk result (λ e. e ≡ grammar.or_of first rest) }
{
    if rest.is_empty() {
        return Ok(first);
    }
    Ok(Expr::Or {
        parts: joined(alloc, first, rest)?,
    })
}

fn and_of(alloc: Global, first: Expr, rest: ExprList) -> Result<Expr, NoMemory>
    ensures { IfOk result (λ e. e ≡ grammar.and_of first rest) }
{
    if rest.is_empty() {
        return Ok(first);
    }
    Ok(Expr::And {
        parts: joined(alloc, first, rest)?,
    })
}

fn union_of(alloc: Global, first: Expr, rest: ExprList) -> Result<Expr, NoMemory>
    ensures { IfOk result (λ e. e ≡ grammar.union_of first rest) }
{
    if rest.is_empty() {
        return Ok(first);
    }
    Ok(Expr::Union {
        parts: joined(alloc, first, rest)?,
    })
}

fn sum_of(alloc: Global, first: Expr, rest: SumPartList) -> Result<Expr, NoMemory>
    ensures { IfOk result (λ e. e ≡ grammar.sum_of first rest) }
{
    if rest.is_empty() {
        return Ok(first);
    }
    Ok(Expr::Sum {
        first: Boxed::new(alloc, first)?,
        rest,
    })
}

fn product_of(alloc: Global, first: Expr, rest: ProductPartList) -> Result<Expr, NoMemory>
    ensures { IfOk result (λ e. e ≡ grammar.product_of first rest) }
{
    if rest.is_empty() {
        return Ok(first);
    }
    Ok(Expr::Product {
        first: Boxed::new(alloc, first)?,
        rest,
    })
}

fn signed_of(alloc: Global, signs: SignList, inner: Expr) -> Result<Expr, NoMemory>
    ensures { IfOk result (λ e. e ≡ grammar.signed_of signs inner) }
{
    if signs.is_empty() {
        return Ok(inner);
    }
    Ok(Expr::Signed {
        signs,
        inner: Boxed::new(alloc, inner)?,
    })
}

fn sign_of(minus: bool) -> Sign
    ensures { result ≡ sign_of minus }
{
    if minus { Sign::Minus } else { Sign::Plus }
}

impl<'a> Parser<'a> {
    /// Takes the operator of a comparison, where one comes next.
    fn compare_op(&mut self) -> Option<CompareOp>
        ensures { Finds result self.old self.new (spec.compare_op self.old) }
    {
        let [Token::Symbol(symbol), rest @ ..] = self.left() else {
            return None;
        };
        let op = match symbol {
            Symbol::Equal => CompareOp::Eq,
            Symbol::NotEqual => CompareOp::Ne,
            Symbol::Less => CompareOp::Lt,
            Symbol::LessOrEqual => CompareOp::Le,
            Symbol::Greater => CompareOp::Gt,
            Symbol::GreaterOrEqual => CompareOp::Ge,
            _ => return None,
        };
        self.goes_on(rest);
        Some(op)
    }

    /// Takes `+` or `-`, where one comes next, and says whether it is `-`.
    fn sum_op(&mut self) -> Option<bool>
        ensures { Finds result self.old self.new (spec.sum_op self.old) }
    {
        match self.left() {
            [Token::Symbol(Symbol::Plus), rest @ ..] => {
                self.goes_on(rest);
                Some(false)
            }
            [Token::Symbol(Symbol::Minus), rest @ ..] => {
                self.goes_on(rest);
                Some(true)
            }
            _ => None,
        }
    }

    /// Takes `*`, `idiv` or `mod`, where one comes next.
    fn product_op(&mut self) -> Option<ProductOp>
        ensures { Finds result self.old self.new (spec.product_op self.old) }
    {
        match self.left() {
            [Token::Symbol(Symbol::Star), rest @ ..] => {
                self.goes_on(rest);
                Some(ProductOp::Times)
            }
            [Token::Name(name), rest @ ..] if name.as_str() == "idiv" => {
                self.goes_on(rest);
                Some(ProductOp::Idiv)
            }
            [Token::Name(name), rest @ ..] if name.as_str() == "mod" => {
                self.goes_on(rest);
                Some(ProductOp::Mod)
            }
            _ => None,
        }
    }

    /// The signs that come next.
    fn signs(&mut self) -> Result<SignList, NoMemory>
        ensures { IfOk result (λ signs. spec.signs self.old ≡ (signs, self.new)) }
    {
        let mut signs = SignList::new(self.alloc());
        'signs: while let Some(minus) = self.sum_op() {
            signs.push(sign_of(minus))?;
        }
        Ok(signs)
    }

    /// `And (or And)*`
    #[cycle(rows)]
    #[tactic(auto, unfolding(xq_ast::specs::Readings::or))]
    pub(crate) fn or(&mut self, depth: usize) -> Result<Expr, ParseEnd>
        ensures { Reads (λ e. (e, self.new)) result (spec.or (spec.single depth) self.old) }
    {
        let first = self.and(depth)?;
        let mut rest = ExprList::new(self.alloc());
        'parts: while self.takes(word("or", self.left())) {
            rest.push(self.and(depth)?)?;
        }
        Ok(or_of(self.alloc(), first, rest)?)
    }

    /// `Comparison (and Comparison)*`
    #[cycle(rows)]
    #[tactic(auto, unfolding(xq_ast::specs::Readings::and))]
    fn and(&mut self, depth: usize) -> Result<Expr, ParseEnd>
        ensures { Reads (λ e. (e, self.new)) result (spec.and (spec.single depth) self.old) }
    {
        let first = self.comparison(depth)?;
        let mut rest = ExprList::new(self.alloc());
        'parts: while self.takes(word("and", self.left())) {
            rest.push(self.comparison(depth)?)?;
        }
        Ok(and_of(self.alloc(), first, rest)?)
    }

    /// `Range [(= | != | < | <= | > | >=) Range]`
    #[cycle(rows)]
    #[tactic(auto, unfolding(xq_ast::specs::Readings::comp))]
    fn comparison(&mut self, depth: usize) -> Result<Expr, ParseEnd>
        ensures { Reads (λ e. (e, self.new)) result (spec.comp (spec.single depth) self.old) }
    {
        let left = self.range(depth)?;
        let Some(op) = self.compare_op() else {
            return Ok(left);
        };
        let right = self.range(depth)?;
        Ok(Expr::Compare {
            left: Boxed::new(self.alloc(), left)?,
            op,
            right: Boxed::new(self.alloc(), right)?,
        })
    }

    /// `Sum [to Sum]`
    #[cycle(rows)]
    #[tactic(auto, unfolding(xq_ast::specs::Readings::range))]
    fn range(&mut self, depth: usize) -> Result<Expr, ParseEnd>
        ensures { Reads (λ e. (e, self.new)) result (spec.range (spec.single depth) self.old) }
    {
        let low = self.sum(depth)?;
        if !self.takes(word("to", self.left())) {
            return Ok(low);
        }
        let high = self.sum(depth)?;
        Ok(Expr::Range {
            low: Boxed::new(self.alloc(), low)?,
            high: Boxed::new(self.alloc(), high)?,
        })
    }

    /// `Product ((+ | -) Product)*`
    #[cycle(rows)]
    #[tactic(auto, unfolding(xq_ast::specs::Readings::sum))]
    fn sum(&mut self, depth: usize) -> Result<Expr, ParseEnd>
        ensures { Reads (λ e. (e, self.new)) result (spec.sum (spec.single depth) self.old) }
    {
        let first = self.product(depth)?;
        let mut rest = SumPartList::new(self.alloc());
        'parts: while let Some(minus) = self.sum_op() {
            let expr = self.product(depth)?;
            rest.push(SumPart { minus, expr })?;
        }
        Ok(sum_of(self.alloc(), first, rest)?)
    }

    /// `Union ((* | idiv | mod) Union)*`
    #[cycle(rows)]
    #[tactic(auto, unfolding(xq_ast::specs::Readings::product))]
    fn product(&mut self, depth: usize) -> Result<Expr, ParseEnd>
        ensures { Reads (λ e. (e, self.new)) result (spec.product (spec.single depth) self.old) }
    {
        let first = self.union(depth)?;
        let mut rest = ProductPartList::new(self.alloc());
        'parts: while let Some(op) = self.product_op() {
            let expr = self.union(depth)?;
            rest.push(ProductPart { op, expr })?;
        }
        Ok(product_of(self.alloc(), first, rest)?)
    }

    /// `Signed ((| or the word union) Signed)*`
    #[cycle(rows)]
    #[tactic(auto, unfolding(xq_ast::specs::Readings::union))]
    fn union(&mut self, depth: usize) -> Result<Expr, ParseEnd>
        ensures { Reads (λ e. (e, self.new)) result (spec.union (spec.single depth) self.old) }
    {
        let first = self.signed(depth)?;
        let mut rest = ExprList::new(self.alloc());
        'parts: while self.takes(union_op(self.left())) {
            rest.push(self.signed(depth)?)?;
        }
        Ok(union_of(self.alloc(), first, rest)?)
    }

    /// `(+ | -)* Path`
    #[cycle(rows)]
    #[tactic(auto, unfolding(xq_ast::specs::Readings::signed))]
    fn signed(&mut self, depth: usize) -> Result<Expr, ParseEnd>
        ensures { Reads (λ e. (e, self.new)) result (spec.signed (spec.single depth) self.old) }
    {
        let signs = self.signs()?;
        let inner = self.path(depth)?;
        Ok(signed_of(self.alloc(), signs, inner)?)
    }
}
