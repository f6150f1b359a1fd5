//! Paths and predicates.
ghost use Rattle.std.specs.Prelude.{◌≡◌, IfOk};
ghost use Rattle.xq_ast.specs.Grammar as grammar;
ghost use Rattle.xq_ast.specs.Readings as spec;
ghost use Rattle.xq_parse.specs.Operands.{operand_of};
ghost use Rattle.xq_parse.specs.Reads.{Reads};

use crate::ahead::{close_square, open_square};
use crate::answer::ParseEnd;
use crate::cursor::Parser;
use crate::operand::{Operand, operand_at};
use std::alloc::Global;
use xq_ast::{Boxed, Expr, ExprList, NoMemory, Start, Step, StepList};

fn filter_of(alloc: Global, inner: Expr, preds: ExprList) -> Result<Expr, NoMemory>
    ensures { IfOk result (λ e. e ≡ grammar.filter_of inner preds) }
{
    if preds.is_empty() {
        return Ok(inner);
    }
    Ok(Expr::Filter {
        inner: Boxed::new(alloc, inner)?,
        preds,
    })
}

fn path_of(alloc: Global, inner: Expr, rest: StepList) -> Result<Expr, NoMemory>
    ensures { IfOk result (λ e. e ≡ grammar.path_of inner rest) }
{
    if rest.is_empty() {
        return Ok(inner);
    }
    Ok(Expr::Path {
        start: Start::Value {
            inner: Boxed::new(alloc, inner)?,
        },
        rest,
    })
}

/// A step behind `//` where `deep`.
fn step_behind(deep: bool, step: Step) -> Step
    ensures { result ≡ grammar.step_behind deep step }
{
    Step {
        deep,
        axis: step.axis,
        test: step.test,
        preds: step.preds,
    }
}

impl<'a> Parser<'a> {
    /// `[ Expr ]`, behind its opening bracket.
    #[cycle(rows)]
    #[tactic(auto, unfolding(xq_ast::specs::Readings::pred))]
    fn predicate(&mut self, depth: usize) -> Result<Expr, ParseEnd>
        ensures { Reads (λ e. (e, self.new)) result (spec.pred (spec.single depth) self.old) }
    {
        let inner = self.expr(depth)?;
        self.expect(close_square(self.left()))?;
        Ok(inner)
    }

    /// Predicates, as many as follow.
    #[cycle(rows)]
    fn predicates(&mut self, depth: usize) -> Result<ExprList, ParseEnd>
        ensures { Reads (λ preds. (preds, self.new)) result (spec.preds (spec.single depth) self.old) }
    {
        let mut preds = ExprList::new(self.alloc());
        'preds: while self.takes(open_square(self.left())) {
            preds.push(self.predicate(depth)?)?;
        }
        Ok(preds)
    }

    /// `(@ NameTest | .. | [Axis ::] Test) Predicate*`
    #[cycle(rows)]
    #[tactic(auto, unfolding(xq_ast::specs::Readings::step))]
    fn step(&mut self, depth: usize) -> Result<Step, ParseEnd>
        ensures { Reads (λ step. (step, self.new)) result (spec.step (spec.single depth) self.old) }
    {
        let bare = self.bare_step()?;
        let preds = self.predicates(depth)?;
        Ok(Step {
            deep: false,
            axis: bare.axis,
            test: bare.test,
            preds,
        })
    }

    /// `((/ | //) Step)*`
    #[cycle(rows)]
    fn steps(&mut self, depth: usize) -> Result<StepList, ParseEnd>
        ensures { Reads (λ steps. (steps, self.new)) result (spec.steps (spec.single depth) self.old) }
    {
        let mut steps = StepList::new(self.alloc());
        'steps: while let Some(deep) = self.slash() {
            let step = self.step(depth)?;
            steps.push(step_behind(deep, step))?;
        }
        Ok(steps)
    }

    /// `Primary Predicate*`
    #[cycle(rows)]
    #[tactic(auto, unfolding(xq_ast::specs::Readings::filtered))]
    fn filtered(&mut self, operand: Operand<'a>, depth: usize) -> Result<Expr, ParseEnd>
        ensures { Reads (λ e. (e, self.new)) result (spec.filtered (spec.single depth) (operand_of operand.entry) self.old) }
    {
        let inner = self.primary(operand, depth)?;
        let preds = self.predicates(depth)?;
        Ok(filter_of(self.alloc(), inner, preds)?)
    }

    /// `(Filter | Step) ((/ | //) Step)*`
    #[cycle(rows)]
    #[tactic(auto, unfolding(xq_ast::specs::Readings::path))]
    pub(crate) fn path(&mut self, depth: usize) -> Result<Expr, ParseEnd>
        ensures { Reads (λ e. (e, self.new)) result (spec.path (spec.single depth) self.old) }
    {
        match operand_at(self.left()) {
            Operand::Step => {
                let step = self.step(depth)?;
                let rest = self.steps(depth)?;
                Ok(Expr::Path {
                    start: Start::First { step },
                    rest,
                })
            }
            operand => {
                let filter = self.filtered(operand, depth)?;
                let rest = self.steps(depth)?;
                Ok(path_of(self.alloc(), filter, rest)?)
            }
        }
    }
}
