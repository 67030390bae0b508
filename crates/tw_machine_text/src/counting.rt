//! How many nodes a program has. Counts end at 4,097, one past what is allowed.
ghost use Rattle.std.specs.Prelude.{◌≡◌, ◌≤◌, min};
ghost use Rattle.tw_machine_text.specs.Limits.{nodes_end};
ghost use Rattle.tw_machine_text.specs.Tree.{nodes, nodes_statement, nodes_block, nodes_arms};
ghost use Rattle.tw_machine_text.specs.Views.{tree, told, body, chain};

use crate::limits::NODES_END;
use crate::tree::{Arms, Block, SourceExpr, SourceStatement};
use crate::words::Operator;

/// The nodes of an expression, at most 4,097: its names, numbers, operators and functions. A comma between arguments is
/// none.
pub fn nodes(written: &SourceExpr) -> usize
    ensures value { result ≡ min (nodes (tree written.now)) nodes_end }
    ensures small { result ≤ nodes_end }
{
    match written {
        SourceExpr::Number(_) | SourceExpr::Name(_) | SourceExpr::Known(_) => 1,
        SourceExpr::Indexed(_, below)
        | SourceExpr::Call(_, below)
        | SourceExpr::RandomBelow(below)
        | SourceExpr::Negate(below)
        | SourceExpr::Not(below) => (1 + nodes(below)).min(NODES_END),
        SourceExpr::Group(inner) => nodes(inner),
        SourceExpr::Binary(Operator::Comma, a, b) => (nodes(a) + nodes(b)).min(NODES_END),
        SourceExpr::Binary(_, a, b) => (1 + (nodes(a) + nodes(b))).min(NODES_END),
    }
}

/// The nodes of a statement, at most 4,097.
#[cycle(nodes_of)]
pub(crate) fn nodes_statement(said: &SourceStatement) -> usize
    ensures value { result ≡ min (nodes_statement (told said.now)) nodes_end }
    ensures small { result ≤ nodes_end }
{
    match said {
        SourceStatement::Draw | SourceStatement::Passivate => 1,
        SourceStatement::Assign(place, _, by) => (1 + (nodes(place) + nodes(by))).min(NODES_END),
        SourceStatement::Act(_, queue, operands) => (1 + (nodes(queue) + nodes(operands))).min(
            NODES_END,
        ),
        SourceStatement::Treat(_, queue) => (1 + nodes(queue)).min(NODES_END),
        SourceStatement::Wait(e) | SourceStatement::Send(e) => (1 + nodes(e)).min(NODES_END),
        SourceStatement::Start(timer, ticks) => (1 + (nodes(timer) + (1 + nodes(ticks)))).min(
            NODES_END,
        ),
        SourceStatement::If(arms) => nodes_arms(arms),
        SourceStatement::IfElse(arms, last) => (nodes_arms(arms) + nodes_block(last)).min(
            NODES_END,
        ),
        SourceStatement::Repeat(count, each) => (1 + (nodes(count) + nodes_block(each))).min(
            NODES_END,
        ),
    }
}

/// The nodes of a program, at most 4,097.
#[cycle(nodes_of)]
pub fn nodes_block(program: &Block) -> usize
    ensures value { result ≡ min (nodes_block (body program.now)) nodes_end }
    ensures small { result ≤ nodes_end }
{
    match program {
        Block::Empty => 0,
        Block::Then(before, last, _) => (nodes_block(before) + nodes_statement(last)).min(
            NODES_END,
        ),
    }
}

/// The nodes of the arms of an `if`, at most 4,097.
#[cycle(nodes_of)]
fn nodes_arms(arms: &Arms) -> usize
    ensures value { result ≡ min (nodes_arms (chain arms.now)) nodes_end }
    ensures small { result ≤ nodes_end }
{
    match arms {
        Arms::One(test, then) => (1 + (nodes(test) + nodes_block(then))).min(NODES_END),
        Arms::More(before, test, then) => {
            (nodes_arms(before) + (nodes(test) + nodes_block(then))).min(NODES_END)
        }
    }
}
