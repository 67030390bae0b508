//! A parameter and its number, as the command line says them.

ghost use Rattle.std.specs.Prelude.{◌≡◌, IfOk, IfSome, IfNone, map};
ghost use Rattle.tw_file_settings.specs.Texts.{AreAssignments, AreRead, IsAssignment, has_twice, is_in, targets_of};

use crate::wholes::whole_in;
use serde_json::Number;
use std::alloc::{AllocError, Global};

/// A parameter of a component, and the number that it gets.
#[derive(Clone, Copy, Debug, PartialEq)]
pub struct Assignment<'a> {
    /// The component's path from the root, a dot, and the parameter: `left.saw.service`.
    pub target: &'a str,
    /// The whole number, -2^63 to 2^64 - 1.
    pub number: Number,
}

/// The assignment of a text, as `left.saw.service=4`: what stands before its first `=` has a dot, and what stands behind is a whole number
/// as JSON writes it, -2^63 to 2^64 - 1, without a plus, a leading zero or `-0`. None for another text.
pub fn assignment_in<'a>(text: &'a str) -> Option<Assignment<'a>>
    ensures some { IfSome result (IsAssignment text.entry.now) }
    ensures none { IfNone result ((a : _) → ¬ (IsAssignment text.entry.now a)) }
{
    let (target, value) = text.split_once('=')?;
    target.split_once('.')?;
    let number = whole_in(value)?;
    Some(Assignment { target, number })
}

/// The assignments of texts, each read by itself; none where one is no assignment.
fn each_in<'a>(alloc: Global, texts: &[&'a str]) -> Result<Option<Vec<Assignment<'a>>>, AllocError>
    ensures some { IfOk result
        (λ o. IfSome o (λ v. AreRead (map (λ t. t.now) texts.now) v.items)) }
    ensures none { IfOk result
        (λ o. IfNone o ((given : _) → ¬ (AreRead (map (λ t. t.now) texts.now) given))) }
{
    let mut assignments = Vec::new(alloc);
    for text in texts {
        let Some(assignment) = assignment_in(*text) else {
            return Ok(None);
        };
        assignments.push(assignment)?;
    }
    Ok(Some(assignments))
}

/// Whether one of the assignments has this target.
fn is_in(target: &str, assignments: &[Assignment<'_>]) -> bool
    ensures { result ≡ is_in target.now (targets_of assignments.now) }
{
    for assignment in assignments {
        if assignment.target == target {
            return true;
        }
    }
    false
}

/// Whether two assignments have the same target.
fn has_twice(assignments: &[Assignment<'_>]) -> bool
    ensures { result ≡ has_twice (targets_of assignments.now) }
{
    for (place, assignment) in assignments.iter().enumerate() {
        if is_in(assignment.target, &assignments[place + 1..]) {
            return true;
        }
    }
    false
}

/// The assignments of texts, no two of which set the same; none where that is not so.
///
/// Refused for want of memory (4).
pub fn assignments_in<'a>(
    alloc: Global,
    texts: &[&'a str],
) -> Result<Option<Vec<Assignment<'a>>>, AllocError>
    ensures some { IfOk result
        (λ o. IfSome o (λ v. AreAssignments (map (λ t. t.now) texts.now) v.items)) }
    ensures none { IfOk result
        (λ o. IfNone o ((given : _) → ¬ (AreAssignments (map (λ t. t.now) texts.now) given))) }
{
    let Some(assignments) = each_in(alloc, texts)? else {
        return Ok(None);
    };
    if has_twice(assignments.as_slice()) {
        return Ok(None);
    }
    Ok(Some(assignments))
}
