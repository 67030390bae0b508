//! How deep blocks, parentheses, brackets, `not` and signs stand in one another. Counts end at 65, one past what is
//! allowed.
ghost use Rattle.std.specs.Prelude.{◌≡◌, ◌+◌, ◌≤◌, min};
ghost use Rattle.tw_machine_text.specs.Limits.{levels_end};
ghost use Rattle.tw_machine_text.specs.Tree.{deep, deep_statement, deep_block, deep_arms};
ghost use Rattle.tw_machine_text.specs.Views.{tree, told, body, chain};

use crate::limits::LEVELS_END;
use crate::tree::{Arms, Block, SourceExpr, SourceStatement};

/// One level more, at most 65.
fn below(levels: usize) -> usize
    requires { levels ≤ levels_end }
    ensures { result ≡ min (1 + levels) levels_end }
{
    (1 + levels).min(LEVELS_END)
}

/// The levels of an expression, at most 65.
pub fn deep(e: &SourceExpr) -> usize
    ensures value { result ≡ min (deep (tree e.now)) levels_end }
    ensures small { result ≤ levels_end }
{
    match e {
        SourceExpr::Number(_) | SourceExpr::Name(_) | SourceExpr::Known(_) => 0,
        SourceExpr::Indexed(_, inner)
        | SourceExpr::Call(_, inner)
        | SourceExpr::RandomBelow(inner)
        | SourceExpr::Group(inner)
        | SourceExpr::Negate(inner)
        | SourceExpr::Not(inner) => below(deep(inner)),
        SourceExpr::Binary(_, a, b) => deep(a).max(deep(b)),
    }
}

/// The levels of a statement, at most 65.
#[cycle(levels_of)]
fn deep_statement(said: &SourceStatement) -> usize
    ensures value { result ≡ min (deep_statement (told said.now)) levels_end }
    ensures small { result ≤ levels_end }
{
    match said {
        SourceStatement::Draw | SourceStatement::Passivate => 0,
        SourceStatement::Assign(place, _, by) => deep(place).max(deep(by)),
        SourceStatement::Act(_, object, operands) => deep(object).max(deep(operands)),
        SourceStatement::Treat(_, queue) => deep(queue),
        SourceStatement::Wait(ticks) => deep(ticks),
        SourceStatement::Start(timer, ticks) => deep(timer).max(deep(ticks)),
        SourceStatement::Send(sent) => deep(sent),
        SourceStatement::If(arms) => deep_arms(arms),
        SourceStatement::IfElse(arms, last) => deep_arms(arms).max(below(deep_block(last))),
        SourceStatement::Repeat(_, each) => below(deep_block(each)),
    }
}

/// The levels of a program, at most 65.
#[cycle(levels_of)]
pub fn deep_block(program: &Block) -> usize
    ensures value { result ≡ min (deep_block (body program.now)) levels_end }
    ensures small { result ≤ levels_end }
{
    match program {
        Block::Empty => 0,
        Block::Then(before, last, _) => deep_block(before).max(deep_statement(last)),
    }
}

/// The levels of the arms of an `if`, at most 65.
#[cycle(levels_of)]
fn deep_arms(arms: &Arms) -> usize
    ensures value { result ≡ min (deep_arms (chain arms.now)) levels_end }
    ensures small { result ≤ levels_end }
{
    match arms {
        Arms::One(test, then) => deep(test).max(below(deep_block(then))),
        Arms::More(before, test, then) => {
            deep_arms(before).max(deep(test).max(below(deep_block(then))))
        }
    }
}
