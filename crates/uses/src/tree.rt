//! Expressions, evaluated by forks. The tag is a shared tree, with an equality of its own.
ghost use Rattle.std.specs.Prelude.{◌≡◌, ℕ};
ghost use Rattle.std.specs.Cmp.{partial_equiv_from_equiv};
ghost use Rattle.uses.specs.Expressions.{Evaluates, applied, same, same_equivalence, same_evaluates};

use rayon_core::{
    BroadcastContext, CallError, FnContext, Job, JobKind, NoHandler, Refusal, Waits, WorkerThread,
};
use std::alloc::{AllocError, Global};
use thiserror::Error;

/// What an expression makes of two others.
#[derive(Clone, Copy, PartialEq, Eq)]
pub enum Operator {
    /// Their sum.
    Plus,
    /// Their product.
    Times,
}

impl Operator {
    // What it makes of two numbers, or None where that does not fit 64 bits.
    fn apply(self, x: u64, y: u64) -> Option<u64>
        ensures { result ≡ applied self (Some x) (Some y) }
    {
        match self {
            Operator::Plus => x.checked_add(y),
            Operator::Times => x.checked_mul(y),
        }
    }
}

/// Sums and products of numbers.
#[derive(Drop)]
pub enum Expression {
    /// A number.
    Number(u64),
    /// What an operator makes of two expressions.
    Apply(Operator, Box<Expression>, Box<Expression>),
}

impl Expression {
    /// What an operator makes of two expressions. Refused where memory is, and both are dropped.
    pub fn apply(
        alloc: Global,
        operator: Operator,
        a: Expression,
        b: Expression,
    ) -> Result<Expression, AllocError> {
        Ok(Expression::Apply(operator, Box::new(alloc, a)?, Box::new(alloc, b)?))
    }
}

impl PartialEq for Expression {
    ghost eq = { same };

    ghost laws = { partial_equiv_from_equiv same_equivalence };

    fn eq(&self, other: &Expression) -> bool {
        match (self, other) {
            (Expression::Number(m), Expression::Number(n)) => *m == *n,
            (Expression::Apply(o, a, b), Expression::Apply(u, c, d)) => {
                let operators = matches!(
                    (*o, *u),
                    (Operator::Plus, Operator::Plus) | (Operator::Times, Operator::Times)
                );
                operators && **a == **c && **b == **d
            }
            _ => false,
        }
    }
}

impl Eq for Expression {
    ghost laws = { same_equivalence };
}

/// The job of finding an expression's value. The expression is the tag.
#[derive(Drop)]
pub struct Evaluate(pub &'static Expression);

impl Evaluate {
    /// The job for an expression that is leaked, so that every run may share it. Refused where memory is.
    pub fn leaked(alloc: Global, expression: Expression) -> Result<Evaluate, AllocError> {
        Ok(Evaluate(Box::leak(Box::new(alloc, expression)?)))
    }
}

/// Why there is no value.
#[derive(Debug, Drop, Error)]
pub enum TreeFault {
    /// A part of the expression does not fit 64 bits.
    #[error("overflow")]
    Overflow,
    /// A call was refused.
    #[error("refused: {0}")]
    Refused(Refusal),
    /// A call found no result, or another job's.
    #[error("lost")]
    Lost,
}

impl TreeFault {
    // Why a call of a run has no answer.
    fn of<B: Drop>(error: CallError<TreeFault, B>) -> TreeFault
        ensures { result ≡ TreeFault.Overflow → error ≡ CallError.Fault result }
    {
        match error {
            CallError::Fault(fault) => fault,
            CallError::Refused(refusal, _) => TreeFault::Refused(refusal),
            CallError::Foreign | CallError::Missing => TreeFault::Lost,
        }
    }
}

impl JobKind for Evaluate {
    type Tag = &'static Expression;

    type Output = u64;

    type Fault = TreeFault;

    type Handler = NoHandler;

    ghost answers = { λ t r. Evaluates t.now r };

    ghost tag_of = { λ j. j.0 };

    fn tag(&self) -> &'static Expression {
        self.0
    }

    ghost same_answers = { λ t u e. same_evaluates t.now u.now e };
}

impl Job for Evaluate {
    fn run<R: Waits<Self>>(
        self,
        rt: &R,
        alloc: Global,
        w: &mut WorkerThread<Self>,
        _ctx: &mut FnContext<Self>,
    ) -> Result<u64, TreeFault> {
        match self.0 {
            Expression::Number(n) => Ok(*n),
            Expression::Apply(operator, a, b) => {
                match w.join_jobs(rt, alloc, Evaluate(a), Evaluate(b)) {
                    Ok((x, y)) => operator.apply(x, y).ok_or(TreeFault::Overflow),
                    Err(error) => Err(TreeFault::of(error)),
                }
            }
        }
    }

    fn run_on<R: Waits<Self>>(
        &self,
        rt: &R,
        alloc: Global,
        w: &mut WorkerThread<Self>,
        _ctx: &mut BroadcastContext<Self>,
    ) -> Result<u64, TreeFault> {
        match w.install(rt, alloc, Evaluate(self.0)) {
            Ok(value) => Ok(value),
            Err(error) => Err(TreeFault::of(error)),
        }
    }
}
