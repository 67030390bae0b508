//! Expressions and statements of the machine's language, made of parts.
ghost use Rattle.std.specs.Prelude.{◌≡◌, IfOk};
ghost use Rattle.tw_machine_compiler.specs.Expressions.{zero_expr};
ghost use Rattle.tw_machine.specs.Seen.{seen, seen_statement, one, two, choose, branch, repeated};

use std::alloc::{AllocError, Global};
use tw_machine::language::{Binary, Expr, Leaf, Statement, Unary};

/// The number 0.
pub(crate) fn zero() -> Expr
    ensures { seen result ≡ zero_expr }
{
    Expr::Plain(Leaf::Number(0))
}

pub(crate) fn one(alloc: Global, unary: Unary, a: Expr) -> Result<Expr, AllocError>
    ensures { IfOk result (λ e. seen e ≡ one unary (seen a)) }
{
    Ok(Expr::One(unary, Box::new(alloc, a)?))
}

pub(crate) fn two(alloc: Global, binary: Binary, a: Expr, b: Expr) -> Result<Expr, AllocError>
    ensures { IfOk result (λ e. seen e ≡ two binary (seen a) (seen b)) }
{
    Ok(Expr::Two(binary, Box::new(alloc, a)?, Box::new(alloc, b)?))
}

pub(crate) fn choose(alloc: Global, test: Expr, a: Expr, b: Expr) -> Result<Expr, AllocError>
    ensures { IfOk result (λ e. seen e ≡ choose (seen test) (seen a) (seen b)) }
{
    Ok(Expr::Choose(
        Box::new(alloc, test)?,
        Box::new(alloc, a)?,
        Box::new(alloc, b)?,
    ))
}

/// One statement or another.
pub(crate) fn branch(
    alloc: Global,
    test: Expr,
    a: Statement,
    b: Box<Statement>,
) -> Result<Statement, AllocError>
    ensures { IfOk result
        (λ s. seen_statement s ≡ branch (seen test) (seen_statement a) (seen_statement b.value)) }
{
    Ok(Statement::If(test, Box::new(alloc, a)?, b))
}

/// A statement so many times.
pub(crate) fn repeated(alloc: Global, count: u8, each: Statement) -> Result<Statement, AllocError>
    ensures { IfOk result (λ s. seen_statement s ≡ repeated count (seen_statement each)) }
{
    Ok(Statement::Repeat(count, Box::new(alloc, each)?))
}
