//! The program of a text, and the expression of the text of a member. A wrong text is told by the byte at which the
//! first word begins that cannot stand there.
ghost use Rattle.std.specs.Prelude.{◌≡◌, ◌≤◌, ◌∷◌, Some, IfOk, map};
ghost use Rattle.std.specs.Option.{option_map};
ghost use Rattle.tw_machine_text.specs.Limits.{max_levels, max_nodes};
ghost use Rattle.tw_machine_text.specs.Kinds.{is_empty, waits, waited};
ghost use Rattle.tw_machine_text.specs.Text.{Reads, ReadsTree, OneText, OneTree};
ghost use Rattle.tw_machine_text.specs.TextViews.{names_of};
ghost use Rattle.tw_machine_text.specs.Tree.{Block as Tree, Tree as Spelled};
ghost use Rattle.tw_machine_text.specs.Views.{body, told, tree, Tells};
ghost use Rattle.tw_machine_text.specs.declared.words.Word.TheVariants.{Wait};

use crate::desugaring::{desugared, desugared_tree};
use crate::kinds::{Member, Names};
use crate::lexing::{Words, lex};
use crate::limits::WRITTEN_NODES;
use crate::parsing::parse;
use crate::refused::Refused;
use crate::timers::{may_stand, may_stand_as};
use crate::tree::{Block, SourceExpr, SourceStatement};
use crate::watching::Setting;
use crate::words::Word;
use std::alloc::{AllocError, Global};

/// The program of a text, in which the functions and these names may stand. A program has no more than so many nodes.
pub(crate) fn read(
    alloc: Global,
    names: Names<'_>,
    procedures: &[Block],
    text: &[u8],
    many: usize,
) -> Result<Block, Refused>
    requires { many ≤ max_nodes }
    // What is read is what the text means.
    ensures found { IfOk result
        (λ program. Reads max_levels many (names_of names.entry.declared.now) names.entry.timing
        names.entry.kinds.now (map body procedures.now) text.now (body program)) }
    // A text that means a program is read as it, unless memory runs out.
    ensures only { (program : Tree)
        → Reads max_levels many (names_of names.entry.declared.now) names.entry.timing
        names.entry.kinds.now (map body procedures.now) text.now program
        → Tells body result (Some program) }
{
    let Names {
        declared,
        kinds,
        timing,
    } = names;
    let Ok(words) = lex(alloc, declared, text) else {
        return Err(Refused::OutOfMemory);
    };
    let mut first = None;
    match parse(
        alloc,
        Setting {
            member: None,
            known: procedures.len(),
            timed: timing.is_some(),
            kinds,
        },
        &words.words,
        WRITTEN_NODES,
        &mut first,
    ) {
        Ok(written) => {
            let place = words.place(first.unwrap_or(words.words.len()));
            if words.complete && may_stand(timing, kinds, procedures.len(), &written) {
                desugared(alloc, names, procedures, &written, many, place)
            } else {
                Err(Refused::Wrong(place))
            }
        }
        Err(Refused::OutOfMemory) => Err(Refused::OutOfMemory),
        Err(Refused::Wrong(index)) => Err(Refused::Wrong(words.place(first.unwrap_or(index)))),
    }
}

fn is_empty(block: &Block) -> bool
    ensures { result ≡ is_empty (body block.now) }
{
    matches!(block, Block::Empty)
}

fn waits(statement: SourceStatement) -> Option<SourceExpr>
    ensures { option_map tree result ≡ waits (told statement) }
{
    match statement {
        SourceStatement::Wait(e) => Some(e),
        other => {
            drop(other);
            None
        }
    }
}

/// The expression of a program that is one `wait`.
fn waited(program: Block) -> Option<SourceExpr>
    ensures { option_map tree result ≡ waited (body program) }
{
    match program {
        Block::Then(before, last, false) => {
            if is_empty(&before) {
                waits(Box::into_inner(last))
            } else {
                None
            }
        }
        other => {
            drop(other);
            None
        }
    }
}

/// The words behind `wait`.
fn behind_wait(alloc: Global, words: &[Word]) -> Result<Vec<Word>, AllocError>
    ensures { IfOk result (λ all. all.items ≡ Wait ∷ words.now) }
{
    let mut all = Vec::new(alloc);
    all.push(Word::Wait)?;
    all.extend_from_slice(words)?;
    Ok(all)
}

/// What the text of a member is: read as the program that waits for it.
pub(crate) fn read_tree(
    alloc: Global,
    member: Member,
    names: Names<'_>,
    text: &[u8],
    many: usize,
) -> Result<SourceExpr, Refused>
    requires { many ≤ max_nodes }
    // What is read is what the text is.
    ensures found { IfOk result
        (λ e. ReadsTree max_levels many member (names_of names.entry.declared.now)
        names.entry.timing names.entry.kinds.now text.now (tree e)) }
    // A text that is one is read as it, unless memory runs out.
    ensures only { (e : Spelled)
        → ReadsTree max_levels many member (names_of names.entry.declared.now)
        names.entry.timing names.entry.kinds.now text.now e
        → Tells tree result (Some e) }
{
    let Names {
        declared,
        kinds,
        timing,
    } = names;
    let Ok(words) = lex(alloc, declared, text) else {
        return Err(Refused::OutOfMemory);
    };
    let Ok(all) = behind_wait(alloc, &words.words) else {
        return Err(Refused::OutOfMemory);
    };
    let mut first = None;
    match parse(
        alloc,
        Setting {
            member: Some(member),
            known: 0,
            timed: timing.is_some(),
            kinds,
        },
        &all,
        WRITTEN_NODES + 1,
        &mut first,
    ) {
        Ok(program) => match waited(program) {
            Some(e) => {
                if words.complete && may_stand_as(timing, member, kinds, &e) {
                    desugared_tree(
                        alloc,
                        timing,
                        kinds,
                        &e,
                        many,
                        place_at(&words, first, all.len()),
                    )
                } else {
                    Err(Refused::Wrong(place_at(&words, first, all.len())))
                }
            }
            None => Err(Refused::Wrong(place_at(&words, first, all.len()))),
        },
        Err(Refused::OutOfMemory) => Err(Refused::OutOfMemory),
        Err(Refused::Wrong(index)) => Err(Refused::Wrong(place_at(&words, first, index))),
    }
}

/// The place of a wrong word, of which the first is none of the text.
fn place_at(words: &Words, first: Option<usize>, index: usize) -> usize {
    words.place(first.unwrap_or(index).saturating_sub(1))
}

/// A text is one program at most, however deep.
pub fn one_text()
    ensures { OneText }
{}

/// A text is one expression at most.
pub fn one_tree()
    ensures { OneTree }
{}
