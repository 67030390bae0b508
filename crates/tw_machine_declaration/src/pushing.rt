//! Whether something is sent: whether a value comes to the end of a queue in a program.
ghost use Rattle.std.specs.Prelude.{◌≡◌};
ghost use Rattle.tw_machine_text.specs.Views.{tree, told, body, chain};
ghost use Rattle.tw_machine_declaration.specs.Timed.{
  is_name,
  pushes,
  pushes_arms,
  pushes_statement,
};

use tw_machine_text::{Arms, Block, SourceExpr, SourceStatement, Verb};

fn is_name(name: usize, e: &SourceExpr) -> bool
    ensures { result ≡ is_name name (tree e.now) }
{
    match e {
        SourceExpr::Name(other) => name == *other,
        _ => false,
    }
}

#[cycle(pushing)]
fn pushes_statement(queue: usize, said: &SourceStatement) -> bool
    ensures { result ≡ pushes_statement queue (told said.now) }
{
    match said {
        SourceStatement::Act(Verb::Push, object, _) => is_name(queue, object),
        SourceStatement::If(arms) => pushes_arms(queue, arms),
        SourceStatement::IfElse(arms, last) => pushes_arms(queue, arms) || pushes(queue, last),
        SourceStatement::Repeat(_, each) => pushes(queue, each),
        _ => false,
    }
}

/// Whether `push` on the queue of this name stands in a program.
#[cycle(pushing)]
pub fn pushes(queue: usize, program: &Block) -> bool
    ensures { result ≡ pushes queue (body program.now) }
{
    match program {
        Block::Empty => false,
        Block::Then(before, last, _) => pushes(queue, before) || pushes_statement(queue, last),
    }
}

#[cycle(pushing)]
fn pushes_arms(queue: usize, arms: &Arms) -> bool
    ensures { result ≡ pushes_arms queue (chain arms.now) }
{
    match arms {
        Arms::One(_, then) => pushes(queue, then),
        Arms::More(before, _, then) => pushes_arms(queue, before) || pushes(queue, then),
    }
}
