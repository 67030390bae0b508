//! The sum over the contents of an executive.

ghost use Rattle.std.specs.Prelude.{◌<◌, length};

use std::alloc::Global;
use tw_any_model::AnyModel;
use tw_exec::Executive;
use tw_test_refusal_tools::{Sum, Told, add_items, add_process, add_records};

/// The sum over all that an executive tells without memory.
pub(crate) fn look(told: &mut Told, alloc: Global, executive: &Executive<AnyModel>) -> Sum {
    let mut sum = Sum::new();
    sum.add(executive.until());
    sum.add(executive.gvt().pack());
    sum.add(executive.committed_len());
    for component in 0..executive.network().len() {
        add_component(&mut sum, alloc, told.words_mut(), executive, component);
    }
    sum
}

/// A component: its process, its mailbox, and what it has committed.
fn add_component(
    sum: &mut Sum,
    alloc: Global,
    words: &mut Vec<i128>,
    executive: &Executive<AnyModel>,
    component: usize,
)
    requires { component < length executive.now.network.models }
{
    add_process(sum, alloc, words, executive.contents(component));
    add_items(sum, executive.mail(component));
    add_records(sum, executive.committed(component));
}
