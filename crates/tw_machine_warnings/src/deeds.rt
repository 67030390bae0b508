//! What a program does somewhere.
ghost use Rattle.std.specs.Prelude.{◌≡◌, ◌&&◌, ◌||◌};
ghost use Rattle.tw_machine_text.specs.Views.{tree, told, body, chain};
ghost use Rattle.tw_machine_warnings.specs.Deeds.{
  does,
  does_arms,
  does_statement,
  is_before,
  is_deed,
  is_draw,
  is_due_of,
  is_of,
  is_place,
  is_set_of,
  is_start_of,
  is_wait,
  is_wait_back,
  puts,
  twice_arms,
  twice_statement,
  waits_here,
  waits_twice,
};

use crate::sought::{Called, is_below_zero, is_called};
use tw_machine_text::{Arms, Block, Operator, SourceChange, SourceExpr, SourceStatement, Verb};

/// What a program does.
#[derive(Clone, Copy, Debug, PartialEq, Eq)]
pub(crate) enum Doing {
    Draws,
    Waits,
    /// It waits by a number below zero.
    WaitsBack,
    /// It sets a register, or puts a value into a queue.
    Sets(Called),
    /// It starts a timer, by the name of how many are before it.
    Starts(usize),
}

/// Whether a place or a queue is this one, or one of this array.
fn is_of(called: Called, place: &SourceExpr) -> bool
    ensures { result ≡ is_of called (tree place.now) }
{
    match place {
        SourceExpr::Name(name) | SourceExpr::Indexed(name, _) => is_called(called, *name),
        _ => false,
    }
}

/// Whether a value comes into the queue.
fn puts(verb: Verb) -> bool
    ensures { result ≡ puts verb }
{
    match verb {
        Verb::Push | Verb::Insert | Verb::Put => true,
        Verb::Remove | Verb::Observe => false,
    }
}

fn is_wait(said: &SourceStatement) -> bool
    ensures { result ≡ is_wait (told said.now) }
{
    matches!(said, SourceStatement::Wait(_))
}

fn is_draw(said: &SourceStatement) -> bool
    ensures { result ≡ is_draw (told said.now) }
{
    matches!(said, SourceStatement::Draw)
}

fn is_wait_back(said: &SourceStatement) -> bool
    ensures { result ≡ is_wait_back (told said.now) }
{
    match said {
        SourceStatement::Wait(ticks) => is_below_zero(ticks),
        _ => false,
    }
}

fn is_set_of(called: Called, said: &SourceStatement) -> bool
    ensures { result ≡ is_set_of called (told said.now) }
{
    match said {
        SourceStatement::Assign(place, _, _) => is_of(called, place),
        SourceStatement::Act(verb, queue, _) => puts(*verb) && is_of(called, queue),
        _ => false,
    }
}

fn is_before(before: usize, place: &SourceExpr) -> bool
    ensures { result ≡ is_before before (tree place.now) }
{
    match place {
        SourceExpr::Name(name) => *name == before,
        _ => false,
    }
}

/// Whether this is the place of a timer among all: how many are before it, and, with a count, its index behind that.
fn is_place(before: usize, place: &SourceExpr) -> bool
    ensures { result ≡ is_place before (tree place.now) }
{
    match place {
        SourceExpr::Binary(Operator::Plus, first, _) => is_before(before, first),
        _ => is_before(before, place),
    }
}

/// Whether this is the tick at which a timer is due.
fn is_due_of(before: usize, place: &SourceExpr) -> bool
    ensures { result ≡ is_due_of before (tree place.now) }
{
    match place {
        SourceExpr::Indexed(_, index) => is_place(before, index),
        _ => false,
    }
}

/// Whether a statement starts a timer; `stop` sets -1.
fn is_start_of(before: usize, said: &SourceStatement) -> bool
    ensures { result ≡ is_start_of before (told said.now) }
{
    match said {
        SourceStatement::Assign(place, SourceChange::Set, to) => {
            is_due_of(before, place) && !is_below_zero(to)
        }
        _ => false,
    }
}

/// Whether a statement does it, apart from its blocks.
fn is_deed(deed: Doing, said: &SourceStatement) -> bool
    ensures { result ≡ is_deed deed (told said.now) }
{
    match deed {
        Doing::Draws => is_draw(said),
        Doing::Waits => is_wait(said),
        Doing::WaitsBack => is_wait_back(said),
        Doing::Sets(called) => is_set_of(called, said),
        Doing::Starts(before) => is_start_of(before, said),
    }
}

/// Whether a statement does it.
#[cycle(acts)]
fn does_statement(deed: Doing, said: &SourceStatement) -> bool
    ensures { result ≡ does_statement deed (told said.now) }
{
    match said {
        SourceStatement::If(arms) => does_arms(deed, arms),
        SourceStatement::IfElse(arms, last) => does_arms(deed, arms) || does(deed, last),
        SourceStatement::Repeat(_, each) => does(deed, each),
        _ => is_deed(deed, said),
    }
}

/// Whether a program does it somewhere.
#[cycle(acts)]
pub(crate) fn does(deed: Doing, program: &Block) -> bool
    ensures { result ≡ does deed (body program.now) }
{
    match program {
        Block::Empty => false,
        Block::Then(before, last, _) => does(deed, before) || does_statement(deed, last),
    }
}

/// Whether a block of an `if` does it.
#[cycle(acts)]
fn does_arms(deed: Doing, arms: &Arms) -> bool
    ensures { result ≡ does_arms deed (chain arms.now) }
{
    match arms {
        Arms::One(_, then) => does(deed, then),
        Arms::More(before, _, then) => does_arms(deed, before) || does(deed, then),
    }
}

/// Whether a statement of the block itself waits.
fn waits_here(program: &Block) -> bool
    ensures { result ≡ waits_here (body program.now) }
{
    match program {
        Block::Empty => false,
        Block::Then(before, last, _) => waits_here(before) || is_wait(last),
    }
}

#[cycle(twice)]
fn twice_statement(said: &SourceStatement) -> bool
    ensures { result ≡ twice_statement (told said.now) }
{
    match said {
        SourceStatement::If(arms) => twice_arms(arms),
        SourceStatement::IfElse(arms, last) => twice_arms(arms) || waits_twice(last),
        SourceStatement::Repeat(_, each) => waits_twice(each),
        _ => false,
    }
}

/// Whether two statements of one block wait.
#[cycle(twice)]
pub(crate) fn waits_twice(program: &Block) -> bool
    ensures { result ≡ waits_twice (body program.now) }
{
    match program {
        Block::Empty => false,
        Block::Then(before, last, _) => {
            (is_wait(last) && waits_here(before)) || (waits_twice(before) || twice_statement(last))
        }
    }
}

#[cycle(twice)]
fn twice_arms(arms: &Arms) -> bool
    ensures { result ≡ twice_arms (chain arms.now) }
{
    match arms {
        Arms::One(_, then) => waits_twice(then),
        Arms::More(before, _, then) => twice_arms(before) || waits_twice(then),
    }
}
