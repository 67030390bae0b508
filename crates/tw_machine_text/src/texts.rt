//! The texts of a machine: its programs, and the expressions, queues and words of its other members.
ghost use Rattle.std.specs.Prelude.{◌≡◌, ◌≢◌, ◌≤◌, IfOk, IfErr, map};
ghost use Rattle.tw_machine_text.specs.Limits.{max_nodes};
ghost use Rattle.tw_machine_text.specs.Place.{IsInText};
ghost use Rattle.tw_machine_text.specs.TextViews.{SaysProgram, SaysMember};
ghost use Rattle.tw_machine_text.specs.Tree.{Block as Tree, Tree as Spelled, nodes, nodes_block};
ghost use Rattle.tw_machine_text.specs.Views.{body, tree, IsReadAs};
ghost use Rattle.tw_machine_text.specs.declared.refused.Refused.{Refused};

use crate::counting::{nodes, nodes_block};
use crate::kinds::{Declared, Member, Names, Timing, kinds_of};
use crate::place::place_at;
use crate::read::{read, read_tree};
use crate::refusal::TextRefused;
use crate::refused::Refused;
use crate::tree::{Block, SourceExpr};
use std::alloc::Global;

/// A program, and how many nodes it has.
#[derive(Drop)]
pub struct Program {
    pub block: Block,
    pub nodes: usize,
}

/// An expression, a queue or an array register, and how many nodes it has.
#[derive(Drop)]
pub struct Expression {
    pub tree: SourceExpr,
    pub nodes: usize,
}

/// A refusal with its place in lines and columns.
fn refusal(text: &str, refused: Refused) -> TextRefused
    ensures memory { refused ≡ Refused.OutOfMemory → result ≡ TextRefused.OutOfMemory }
    ensures wrong { refused ≢ Refused.OutOfMemory → result ≢ TextRefused.OutOfMemory }
    ensures place { IsInText text.now result }
{
    match refused {
        Refused::OutOfMemory => TextRefused::OutOfMemory,
        Refused::Wrong(byte) => TextRefused::Wrong(place_at(text, byte.min(text.len()))),
    }
}

/// Reads a program, of at most so many nodes: what the machine has left of its 4,096. The names are those that the
/// machine declares, in any order, and procedures the programs of those that are named among them; in the tree a name is
/// its number, 0 to 15 for the functions' names and `in`, and from 16 on for those that are declared. Of a machine with
/// timers the names that stand behind its own are told too, and the timer that the text is of: procedures are read for
/// each such timer anew, since `which` hangs on it. A text that is no program is refused as `Wrong` (21), want of memory as
/// `OutOfMemory` (4).
pub fn read_program(
    alloc: Global,
    declared: &[Declared],
    timing: Option<Timing>,
    procedures: &[Block],
    text: &str,
    left: usize,
) -> Result<Program, TextRefused>
    requires { left ≤ max_nodes }
    // What is read is what the text says.
    ensures found { IfOk result
        (λ program. SaysProgram declared.now timing (map body procedures.now) left text.now
        (body program.block)) }
    ensures nodes { IfOk result (λ program. program.nodes ≡ nodes_block (body program.block)) }
    // A text that says a program is read as it, unless memory runs out.
    ensures only { (program : Tree)
        → SaysProgram declared.now timing (map body procedures.now) left text.now program
        → IsReadAs (λ p. body p.block) result program }
    ensures place { IfErr result (IsInText text.now) }
{
    let kinds = kinds_of(alloc, declared)?;
    let names = Names {
        declared,
        kinds: &kinds,
        timing,
    };
    match read(alloc, names, procedures, text.as_bytes(), left) {
        Ok(block) => {
            let nodes = nodes_block(&block);
            Ok(Program { block, nodes })
        }
        Err(refused) => Err(refusal(text, refused)),
    }
}

/// Reads the text of a member that is no program: an expression, or what else the member may be. It has at most so many
/// nodes. Names and refusals are as with `read_program`.
pub fn read_member(
    alloc: Global,
    member: Member,
    declared: &[Declared],
    timing: Option<Timing>,
    text: &str,
    left: usize,
) -> Result<Expression, TextRefused>
    requires { left ≤ max_nodes }
    // What is read is what the text says.
    ensures found { IfOk result (λ e. SaysMember declared.now timing member left text.now (tree e.tree)) }
    ensures nodes { IfOk result (λ e. e.nodes ≡ nodes (tree e.tree)) }
    // A text that says one is read as it, unless memory runs out.
    ensures only { (e : Spelled) → SaysMember declared.now timing member left text.now e
        → IsReadAs (λ x. tree x.tree) result e }
    ensures place { IfErr result (IsInText text.now) }
{
    let kinds = kinds_of(alloc, declared)?;
    let names = Names {
        declared,
        kinds: &kinds,
        timing,
    };
    match read_tree(alloc, member, names, text.as_bytes(), left) {
        Ok(tree) => {
            let nodes = nodes(&tree);
            Ok(Expression { tree, nodes })
        }
        Err(refused) => Err(refusal(text, refused)),
    }
}
