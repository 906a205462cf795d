//! Expressions and conditions, made of their parts.

use crate::{CmpOp, Cond, Expr};
use prima_base::NoMemory;
use std::alloc::Global;

impl Expr {
    ghost use Rattle.std.specs.Prelude.{◌≡◌, IfOk, map};
    ghost use Rattle.cond_expr.specs.Trees.{length_of, joined, choose};
    ghost use Rattle.cond_expr.specs.Seen.{tree, test, trees_of};

    /// LENGTH of an expression.
    pub fn length(alloc: Global, part: Expr) -> Result<Expr, NoMemory>
        ensures { IfOk result (λ e. tree e ≡ length_of (tree part)) }
    {
        Ok(Expr::Length(Box::new(alloc, part)?))
    }

    /// CONCAT of expressions. It takes no memory.
    #[tactic(auto, using(crate::proofs::SeenLaws::tree_of_concat))]
    pub fn concat(parts: Vec<Expr>) -> Expr
        ensures { tree result ≡ joined (trees_of (map tree parts.items)) }
    {
        Expr::Concat(parts)
    }

    /// CASE: the first expression where the condition holds, and else the second.
    pub fn case(alloc: Global, cond: Cond, first: Expr, second: Expr) -> Result<Expr, NoMemory>
        ensures { IfOk result (λ e. tree e ≡ choose (test cond) (tree first) (tree second)) }
    {
        let cond = Box::new(alloc, cond)?;
        let first = Box::new(alloc, first)?;
        let second = Box::new(alloc, second)?;
        Ok(Expr::Case(cond, first, second))
    }
}

impl Cond {
    ghost use Rattle.std.specs.Prelude.{◌≡◌, IfOk, map};
    ghost use Rattle.cond_expr.specs.Trees.{compared, all_of, some_of, fails};
    ghost use Rattle.cond_expr.specs.Seen.{tree, test, tests_of};

    /// A comparison.
    pub fn compare(alloc: Global, op: CmpOp, left: Expr, right: Expr) -> Result<Cond, NoMemory>
        ensures { IfOk result (λ c. test c ≡ compared op (tree left) (tree right)) }
    {
        let left = Box::new(alloc, left)?;
        let right = Box::new(alloc, right)?;
        Ok(Cond::Cmp(op, left, right))
    }

    /// AND of conditions. It takes no memory.
    #[tactic(auto, using(crate::proofs::SeenLaws::test_of_and))]
    pub fn and(parts: Vec<Cond>) -> Cond
        ensures { test result ≡ all_of (tests_of (map test parts.items)) }
    {
        Cond::And(parts)
    }

    /// OR of conditions. It takes no memory.
    #[tactic(auto, using(crate::proofs::SeenLaws::test_of_or))]
    pub fn or(parts: Vec<Cond>) -> Cond
        ensures { test result ≡ some_of (tests_of (map test parts.items)) }
    {
        Cond::Or(parts)
    }

    /// NOT of a condition.
    pub fn not(alloc: Global, part: Cond) -> Result<Cond, NoMemory>
        ensures { IfOk result (λ c. test c ≡ fails (test part)) }
    {
        Ok(Cond::Not(Box::new(alloc, part)?))
    }
}
