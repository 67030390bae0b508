//! A program of its words.
ghost use Rattle.std.specs.Prelude.{◌≡◌, ℕ, ◌≤◌, ◌&&◌, nat_le, false, Some, IfOk, List, [], ◌∷◌};
ghost use Rattle.tw_machine_text.specs.Limits.{max_nodes, written_levels};
ghost use Rattle.tw_machine_text.specs.Machine.{program_of, weigh};
ghost use Rattle.tw_machine_text.specs.Tree.{Means, heads, Block as Tree};
ghost use Rattle.tw_machine_text.specs.Views.{body, Tells, refused};
ghost use Rattle.tw_machine_text.specs.declared.words.Word.{Word};

use crate::fault::Fault;
use crate::frames::State;
use crate::limits::MAX_NODES;
use crate::reading::{ended, step};
use crate::refused::Refused;
use crate::stack::Stack;
use crate::tree::Block;
use crate::watching::{Setting, note, watch};
use crate::words::Word;
use std::alloc::Global;

pub(crate) fn refused(fault: Fault, index: usize) -> Refused
    ensures { result ≡ refused fault index }
{
    match fault {
        Fault::OutOfMemory => Refused::OutOfMemory,
        Fault::Wrong => Refused::Wrong(index),
    }
}

/// All words, one after another; and the first of them, so far as it was seen, at which a name stands that may not.
fn all(
    alloc: Global,
    setting: Setting,
    words: &[Word],
    first: &mut Option<usize>,
) -> Result<Block, Refused>
    ensures { Tells body result (program_of written_levels words.now) }
{
    let mut stack = Stack::new(alloc);
    let mut state = State::Begin(Block::Empty);
    'words: for (index, word) in words.iter().enumerate() {
        note(first, watch(setting, &stack, &state, Some(*word)), index);
        state = match step(alloc, &mut stack, *word, state) {
            Ok(next) => next,
            Err(fault) => return Err(refused(fault, index)),
        };
    }
    note(first, watch(setting, &stack, &state, None), words.len());
    match ended(alloc, &mut stack, state) {
        Ok(block) => {
            if stack.is_empty() {
                Ok(block)
            } else {
                Err(Refused::Wrong(words.len()))
            }
        }
        Err(fault) => Err(refused(fault, words.len())),
    }
}

/// Whether the words make no more than so many nodes.
fn is_light(words: &[Word], many: usize) -> bool
    ensures { result ≡ nat_le (weigh false words.now) many }
{
    let mut left = many;
    let mut chained = false;
    'words: for word in words {
        let weight = match *word {
            Word::Else => 0,
            Word::If => { if chained { 0 } else { 1 } }
            _ => word.weight(),
        };
        if weight > left {
            return false;
        }
        left -= weight;
        chained = *word == Word::Else;
    }
    true
}

/// Whether there are no more operators and statements than nodes of a text.
fn is_short(words: &[Word]) -> bool
    ensures { result ≡ nat_le (heads words.now) max_nodes }
{
    let mut left = MAX_NODES;
    for word in words {
        if word.is_head() {
            if left == 0 {
                return false;
            }
            left -= 1;
        }
    }
    true
}

/// Both.
fn is_small(words: &[Word], many: usize) -> bool
    ensures { result ≡ (nat_le (weigh false words.now) many && nat_le (heads words.now) max_nodes) }
{
    is_light(words, many) && is_short(words)
}

/// The program that the words are.
pub(crate) fn parse(
    alloc: Global,
    setting: Setting,
    words: &[Word],
    many: usize,
    first: &mut Option<usize>,
) -> Result<Block, Refused>
    // What is read means this program.
    ensures found { IfOk result (λ program. Means written_levels many words.now (body program)) }
    // Words that are a program are read as it, unless memory runs out.
    ensures only { (program : Tree) → Means written_levels many words.now program
        → Tells body result (Some program) }
{
    if is_small(words, many) {
        all(alloc, setting, words, first)
    } else {
        Err(Refused::Wrong(words.len()))
    }
}

/// Words are one program at most, however deep.
pub(crate) fn one_program()
    ensures { (ws : List Word) (m n i j : ℕ) (a b : Tree) → Means m i ws a → Means n j ws b
        → a ≡ b }
{}
