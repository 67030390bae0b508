//! Whether each name in a program stands where what it stands for may.
ghost use Rattle.std.specs.Prelude.{◌≡◌};
ghost use Rattle.tw_machine_text.specs.Kinds.{
  bound,
  is_table_name,
  takes_table,
  takes_queue,
  takes_timer,
  is_timers_name,
  is_field,
  is_called,
  is_given,
  bound_fields,
  bound_last,
  is_new_field,
  bound_timer,
  bound_queue,
  bound_place,
  bound_count,
  bound_observation,
  bound_procedure,
  bound_treated,
  uses_statement,
  uses,
  uses_arms,
  bound_object,
  bound_statement,
  bound_block,
  bound_arms,
  is_shown,
  bound_as,
};
ghost use Rattle.tw_machine_text.specs.Views.{tree, told, body, chain};

use crate::dictionary::{ITEM, OWN_NAMES};
use crate::kinds::{Meaning, Member, field_of, stands_for};
use crate::limits::MAX_TURNS;
use crate::tree::{Arms, Block, SourceExpr, SourceStatement, takes_numbers};
use crate::words::{Deed, Operator, Verb};

/// Whether a function is one of a table.
fn takes_table(name: usize) -> bool
    ensures { result ≡ takes_table name }
{
    name == 3 || name == 10
}

/// Whether it is one whose first argument is a queue.
fn takes_queue(name: usize) -> bool
    ensures { result ≡ takes_queue name }
{
    name >= 3 && name < 10
}

/// Whether it is one of a timer.
fn takes_timer(name: usize) -> bool
    ensures { result ≡ takes_timer name }
{
    name >= 12 && name < 14
}

/// Timers that are alike, by their name.
fn is_timers_name(kinds: &[Meaning], e: &SourceExpr) -> bool
    ensures { result ≡ is_timers_name kinds.now (tree e.now) }
{
    match e {
        SourceExpr::Name(name) => stands_for(kinds, *name).is_timer_array(),
        _ => false,
    }
}

/// A table by its name.
pub(crate) fn is_table_name(kinds: &[Meaning], e: &SourceExpr) -> bool
    ensures { result ≡ is_table_name kinds.now (tree e.now) }
{
    match e {
        SourceExpr::Name(name) => stands_for(kinds, *name).is_table(),
        _ => false,
    }
}

/// Whether a name is a field's.
pub(crate) fn is_field(kinds: &[Meaning], name: usize) -> bool
    ensures { result ≡ is_field kinds.now name }
{
    field_of(kinds, name).is_some()
}

/// Whether the name of a call is a function's or a field's.
fn is_called(kinds: &[Meaning], name: usize) -> bool
    ensures { result ≡ is_called kinds.now name }
{
    name < OWN_NAMES || is_field(kinds, name)
}

/// Whether a field is given a number among these.
pub(crate) fn is_given(name: usize, e: &SourceExpr) -> bool
    ensures { result ≡ is_given name (tree e.now) }
{
    match e {
        SourceExpr::Binary(Operator::Colon, named, _) => match &**named {
            SourceExpr::Name(last) => name == *last,
            SourceExpr::Binary(Operator::Comma, before, last) => match &**last {
                SourceExpr::Name(last) => name == *last || is_given(name, before),
                _ => false,
            },
            _ => false,
        },
        _ => false,
    }
}

/// An expression, or arguments of which none is a queue, a table or a timer.
#[cycle(expressions)]
pub(crate) fn bound(kinds: &[Meaning], e: &SourceExpr) -> bool
    ensures { result ≡ bound kinds.now (tree e.now) }
{
    match e {
        SourceExpr::Number(_) | SourceExpr::Known(_) => true,
        SourceExpr::Name(name) => stands_for(kinds, *name).reads(),
        SourceExpr::Indexed(name, index) => stands_for(kinds, *name).indexes()
            && bound(kinds, index),
        SourceExpr::Call(name, arguments) => {
            if takes_numbers(*name) {
                is_called(kinds, *name) && bound(kinds, arguments)
            } else {
                (takes_table(*name) && is_table_name(kinds, arguments))
                    || (takes_queue(*name) && bound_queue(kinds, arguments))
                    || (takes_timer(*name) && bound_timer(kinds, arguments))
                    || (*name == 14 && is_timers_name(kinds, arguments))
                    || (*name == ITEM && bound_fields(kinds, arguments))
            }
        }
        SourceExpr::RandomBelow(e)
        | SourceExpr::Group(e)
        | SourceExpr::Negate(e)
        | SourceExpr::Not(e) => bound(kinds, e),
        SourceExpr::Binary(Operator::Colon, _, _) => false,
        SourceExpr::Binary(_, a, b) => bound(kinds, a) && bound(kinds, b),
    }
}

/// Whether it is a field that has no number among these.
fn is_new_field(kinds: &[Meaning], before: &SourceExpr, named: &SourceExpr) -> bool
    ensures { result ≡ is_new_field kinds.now (tree before.now) (tree named.now) }
{
    match named {
        SourceExpr::Name(name) => is_field(kinds, *name) && !is_given(*name, before),
        _ => false,
    }
}

/// Fields, each with its number, and none twice.
#[cycle(expressions)]
fn bound_fields(kinds: &[Meaning], e: &SourceExpr) -> bool
    ensures { result ≡ bound_fields kinds.now (tree e.now) }
{
    match e {
        SourceExpr::Binary(Operator::Colon, named, number) => {
            bound_last(kinds, named) && bound(kinds, number)
        }
        _ => false,
    }
}

/// The last of them, behind the others with their numbers.
#[cycle(expressions)]
fn bound_last(kinds: &[Meaning], named: &SourceExpr) -> bool
    ensures { result ≡ bound_last kinds.now (tree named.now) }
{
    match named {
        SourceExpr::Name(name) => is_field(kinds, *name),
        SourceExpr::Binary(Operator::Comma, before, last) => {
            bound_fields(kinds, before) && is_new_field(kinds, before, last)
        }
        _ => false,
    }
}

/// A queue, or arguments of which the first is one.
#[cycle(expressions)]
pub(crate) fn bound_queue(kinds: &[Meaning], e: &SourceExpr) -> bool
    ensures { result ≡ bound_queue kinds.now (tree e.now) }
{
    match e {
        SourceExpr::Name(name) => stands_for(kinds, *name).is_queue(),
        SourceExpr::Indexed(name, index) => stands_for(kinds, *name).is_queue_array()
            && bound(kinds, index),
        SourceExpr::Binary(Operator::Comma, a, b) => bound_queue(kinds, a) && bound(kinds, b),
        _ => false,
    }
}

/// A timer.
#[cycle(expressions)]
fn bound_timer(kinds: &[Meaning], e: &SourceExpr) -> bool
    ensures { result ≡ bound_timer kinds.now (tree e.now) }
{
    match e {
        SourceExpr::Name(name) => stands_for(kinds, *name).is_timer(),
        SourceExpr::Indexed(name, index) => stands_for(kinds, *name).is_timer_array()
            && bound(kinds, index),
        _ => false,
    }
}

fn bound_place(kinds: &[Meaning], e: &SourceExpr) -> bool
    ensures { result ≡ bound_place kinds.now (tree e.now) }
{
    match e {
        SourceExpr::Name(name) => stands_for(kinds, *name).is_register(),
        SourceExpr::Indexed(name, index) => stands_for(kinds, *name).is_register_array()
            && bound(kinds, index),
        _ => false,
    }
}

fn bound_count(kinds: &[Meaning], e: &SourceExpr) -> bool
    ensures { result ≡ bound_count kinds.now (tree e.now) }
{
    match e {
        SourceExpr::Number(number) => *number <= MAX_TURNS,
        SourceExpr::Name(name) => stands_for(kinds, *name).counts_turns(),
        _ => false,
    }
}

fn bound_observation(kinds: &[Meaning], e: &SourceExpr) -> bool
    ensures { result ≡ bound_observation kinds.now (tree e.now) }
{
    match e {
        SourceExpr::Name(name) => stands_for(kinds, *name).is_observation(),
        _ => false,
    }
}

fn bound_procedure(kinds: &[Meaning], e: &SourceExpr) -> bool
    ensures { result ≡ bound_procedure kinds.now (tree e.now) }
{
    match e {
        SourceExpr::Name(name) => stands_for(kinds, *name).is_procedure(),
        _ => false,
    }
}

/// What is treated: a procedure, a timer, or a queue.
fn bound_treated(kinds: &[Meaning], deed: Deed, e: &SourceExpr) -> bool
    ensures { result ≡ bound_treated kinds.now deed (tree e.now) }
{
    match deed {
        Deed::Do => bound_procedure(kinds, e),
        Deed::Stop => bound_timer(kinds, e),
        Deed::Pop | Deed::Clear => bound_queue(kinds, e),
    }
}

/// What a verb is said of: an observation, or a queue.
fn bound_object(kinds: &[Meaning], verb: Verb, e: &SourceExpr) -> bool
    ensures { result ≡ bound_object kinds.now verb (tree e.now) }
{
    match verb {
        Verb::Observe => bound_observation(kinds, e),
        _ => bound_queue(kinds, e),
    }
}

#[cycle(statements)]
fn bound_statement(kinds: &[Meaning], s: &SourceStatement) -> bool
    ensures { result ≡ bound_statement kinds.now (told s.now) }
{
    match s {
        SourceStatement::Draw | SourceStatement::Passivate => true,
        SourceStatement::Assign(place, _, e) => bound_place(kinds, place) && bound(kinds, e),
        SourceStatement::Act(verb, object, e) => {
            bound_object(kinds, *verb, object) && bound(kinds, e)
        }
        SourceStatement::Treat(deed, named) => bound_treated(kinds, *deed, named),
        SourceStatement::Wait(e) | SourceStatement::Send(e) => bound(kinds, e),
        SourceStatement::Start(timer, e) => bound_timer(kinds, timer) && bound(kinds, e),
        SourceStatement::If(arms) => bound_arms(kinds, arms),
        SourceStatement::IfElse(arms, last) => {
            bound_arms(kinds, arms) && bound_block(kinds, last)
        }
        SourceStatement::Repeat(count, each) => bound_count(kinds, count)
            && bound_block(kinds, each),
    }
}

/// All statements of a block.
#[cycle(statements)]
pub(crate) fn bound_block(kinds: &[Meaning], b: &Block) -> bool
    ensures { result ≡ bound_block kinds.now (body b.now) }
{
    match b {
        Block::Empty => true,
        Block::Then(before, last, _) => bound_block(kinds, before) && bound_statement(kinds, last),
    }
}

#[cycle(statements)]
fn bound_arms(kinds: &[Meaning], a: &Arms) -> bool
    ensures { result ≡ bound_arms kinds.now (chain a.now) }
{
    match a {
        Arms::One(test, b) => bound(kinds, test) && bound_block(kinds, b),
        Arms::More(before, test, b) => {
            bound_arms(kinds, before) && bound(kinds, test) && bound_block(kinds, b)
        }
    }
}

#[cycle(used)]
fn uses_statement(kinds: &[Meaning], known: usize, s: &SourceStatement) -> bool
    ensures { result ≡ uses_statement kinds.now known (told s.now) }
{
    match s {
        SourceStatement::Treat(Deed::Do, SourceExpr::Name(name)) => stands_for(
            kinds, *name,
        ).is_among(known),
        SourceStatement::If(arms) => uses_arms(kinds, known, arms),
        SourceStatement::IfElse(arms, last) => {
            uses_arms(kinds, known, arms) && uses(kinds, known, last)
        }
        SourceStatement::Repeat(_, each) => uses(kinds, known, each),
        _ => true,
    }
}

/// Whether only the first so many procedures are used.
#[cycle(used)]
pub(crate) fn uses(kinds: &[Meaning], known: usize, b: &Block) -> bool
    ensures { result ≡ uses kinds.now known (body b.now) }
{
    match b {
        Block::Empty => true,
        Block::Then(before, last, _) => {
            uses(kinds, known, before) && uses_statement(kinds, known, last)
        }
    }
}

#[cycle(used)]
fn uses_arms(kinds: &[Meaning], known: usize, a: &Arms) -> bool
    ensures { result ≡ uses_arms kinds.now known (chain a.now) }
{
    match a {
        Arms::One(_, b) => uses(kinds, known, b),
        Arms::More(before, _, b) => uses_arms(kinds, known, before) && uses(kinds, known, b),
    }
}

/// Whether it stands in words as what it is: a queue, one of an array by its number, an array register, or an
/// observation.
pub fn is_shown(kinds: &[Meaning], e: &SourceExpr) -> bool
    ensures { result ≡ is_shown kinds.now (tree e.now) }
{
    match e {
        SourceExpr::Name(name) => {
            let kind = stands_for(kinds, *name);
            kind.is_queue() || kind.is_register_array() || kind.is_observation()
        }
        SourceExpr::Indexed(name, index) => {
            matches!(**index, SourceExpr::Number(_)) && stands_for(kinds, *name).is_queue_array()
        }
        _ => false,
    }
}

/// Whether it may be the text of such a member.
pub(crate) fn bound_as(member: Member, kinds: &[Meaning], e: &SourceExpr) -> bool
    ensures { result ≡ bound_as member kinds.now (tree e.now) }
{
    match member {
        Member::Value => bound(kinds, e),
        Member::Each => bound_queue(kinds, e),
        Member::Shown => is_shown(kinds, e) || bound(kinds, e),
    }
}
